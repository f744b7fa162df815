//! Tables of line information: read from JSON, or checked from units, by one list of rules.
#![tactic(auto)]

ghost use Rattle.std.specs.Prelude.{◌≡◌, ◌≢◌, Err, IfErr, IfOk, None, Some, map, option_and_then};
ghost use Rattle.linemap_check.specs.Conditions.{IsSound};
ghost use Rattle.linemap_check.specs.TableViews.{unit_part};
ghost use Rattle.linemap_table.specs.JsonShapes.{units_in};
ghost use Rattle.linemap_table.specs.TableInText.{json_in, table_in};
ghost use Rattle.linemap_table.specs.declared.error.TableError.TheVariants.{Json, Memory};
ghost use Rattle.serde_json.specs.View.{view};

mod calls;
mod element;
pub mod error;
mod fault;
mod fields;
mod stream;
pub mod target;
mod values;

use crate::element::units_of;
pub use crate::error::TableError;
use crate::fault::Fault;
use crate::stream::read_units;
pub use crate::target::Target;
use linemap_check::dropping::drop_units;
use linemap_check::fits::are_below;
use linemap_check::rules::first_broken;
use linemap_check::weight::weight;
pub use linemap_check::{
    Rule, TableCall, TableFile, TableFunction, TableRange, TableRow, TableSequence, TableUnit,
    push_discriminator, push_line, read_address, table_laws,
};
use serde_json::Value;
use std::alloc::Global;

/// The units of a table that breaks no rule. Only `read` and `check` make one.
#[derive(Debug, PartialEq, Drop)]
pub struct Table {
    units: Vec<TableUnit>,
    pub ghost sound: { IsSound (map unit_part units.items) },
}

impl Table {
    ghost use Rattle.std.specs.Prelude.{◌-◌, ◌^◌, min};
    ghost use Rattle.linemap_check.specs.EncodingFits.{fits};
    ghost use Rattle.linemap_check.specs.TableWeight.{table_weight};
    ghost use Rattle.linemap_table.specs.EmissionTargets.{encoding_of};
    ghost use Rattle.linemap_table.specs.TableInText.{checked_units, table_in};
    ghost use Rattle.linemap_table.specs.TableUnits.{Answers, AnswersOrMemory, units_of};

    /// Reads a table from JSON text. It takes memory for the units and for the JSON value of one of
    /// them at a time, or of the whole text where that breaks a rule of JSON or of a table's shape.
    pub fn read(alloc: Global, text: &[u8]) -> Result<Table, TableError>
        ensures { AnswersOrMemory result (table_in text.now) }
    {
        let units = units_in(alloc, text)?;
        Table::check(units)
    }

    /// Checks units; a refusal drops them. It takes no memory, and calls may be nested at any
    /// depth: past 50 the first rule that is tried refuses them. It makes a pass or two for each
    /// rule if the ranges of units, of a unit's functions and sequences, and of calls side by side
    /// ascend or descend, whether they overlap or not; else it may try each pair of them.
    pub fn check(units: Vec<TableUnit>) -> Result<Table, TableError>
        ensures { Answers result (checked_units (map unit_part units.items)) }
    {
        match first_broken(&units) {
            Some(rule) => {
                drop_units(units);
                Err(TableError::from(rule))
            }
            None => Ok(Table { units }),
        }
    }

    /// The units, in the order of the text or of the list that the table was made from.
    pub fn units(&self) -> &[TableUnit]
        ensures value { map unit_part result.now ≡ units_of self.now }
        ensures sound { IsSound (units_of self.now) }
    {
        &self.units
    }

    /// Whether every address is below the least tombstone of the target. It takes no memory.
    pub fn fits(&self, target: &Target) -> bool
        ensures { result ≡ fits (encoding_of target.now).address_size (units_of self.now) }
    {
        are_below(&self.units, target.least_tombstone())
    }

    /// A bound on the size of the table's image, `u64::MAX` where it is larger.
    pub fn weight(&self) -> u64
        ensures { result ≡ min (table_weight (units_of self.now)) (2 ^ 64 - 1) }
    {
        weight(&self.units)
    }
}

// The units that a text holds. Where they can't be read one by one, the JSON value of the whole
// text decides.
fn units_in(alloc: Global, text: &[u8]) -> Result<Vec<TableUnit>, TableError>
    ensures value { IfOk result (λ v. option_and_then units_in (json_in text.now)
        ≡ Some (map unit_part v.items)) }
    ensures refusal { IfErr result (λ e. e ≢ Memory → table_in text.now ≡ Err e) }
{
    match units_one_by_one(alloc, text) {
        Ok(units) => Ok(units),
        Err(Fault::Memory) => Err(TableError::Memory),
        Err(Fault::Shape) => units_in_value(alloc, text),
    }
}

// The units that bytes hold, if these are UTF-8.
fn units_one_by_one(alloc: Global, text: &[u8]) -> Result<Vec<TableUnit>, Fault>
    ensures { IfOk result (λ v. option_and_then units_in (json_in text.now)
        ≡ Some (map unit_part v.items)) }
{
    match str::from_utf8(text) {
        Ok(text) => read_units(alloc, text),
        Err(_) => Err(Fault::Shape),
    }
}

// The units that the JSON value of a text holds.
fn units_in_value(alloc: Global, text: &[u8]) -> Result<Vec<TableUnit>, TableError>
    ensures value { IfOk result (λ v. option_and_then units_in (json_in text.now)
        ≡ Some (map unit_part v.items)) }
    ensures refusal { IfErr result (λ e. e ≢ Memory → table_in text.now ≡ Err e) }
{
    let value = parse(alloc, text)?;
    Ok(units_of(alloc, &value)?)
}

// The JSON value of a text.
fn parse(alloc: Global, text: &[u8]) -> Result<Value, TableError>
    ensures value { IfOk result (λ v. json_in text.now ≡ Some (view v)) }
    ensures refusal { IfErr result (λ e. e ≢ Memory
        → (e ≡ Json) × (json_in text.now ≡ None)) }
{
    match Value::from_slice(alloc, text) {
        Ok(value) => Ok(value),
        Err(error) if error.is_memory() => Err(TableError::Memory),
        Err(_) => Err(TableError::Json),
    }
}
