//! What the attributes of a call say of its name and its ranges.

ghost use Rattle.std.specs.Prelude.{◌≡◌};
ghost use Rattle.gimli_units_entries.specs.Calls.{ReturnsAsOrNoMemory, ReturnsOrNoMemory};
ghost use Rattle.gimli_units_entries.specs.AttributeValues.{raw_attribute_of};
ghost use Rattle.gimli_units_entries.specs.EntryViews.{raw_attributes};
ghost use Rattle.addr2line_functions.specs.LastCallFacts.{is_ranging, with_fact_of, last_call_facts};

use crate::naming::{Names, take_name};
use addr2line_names::{DW_AT_high_pc, DW_AT_ranges};
use addr2line_ranges::{LastFacts, UnitRef, fact_of};
use gimli_units_entries::{Attribute, DW_AT_low_pc, DwAt, Error, Reader};
use std::marker::Model;

// The name of the function that is called, and of each kind of fact on ranges the last.
#[derive(Drop)]
pub(crate) struct CallFacts<R: Reader> {
    pub name: Option<R>,
    pub ranges: LastFacts<R::Offset>,
}

impl<R: Reader> Model for CallFacts<R> {
    ghost use Rattle.std.specs.Prelude.{option_map};
    ghost use Rattle.addr2line_functions.specs.LastCallFacts.{LastCallFacts};

    ghost Value = { LastCallFacts };

    ghost view = { λ f. record { name = option_map R.view f.name; ranges = f.ranges } };
}

// Whether attributes of a name say something of ranges (DWARF 5, 2.17).
#[inline(always)]
fn is_ranging(name: DwAt) -> bool
    ensures { result ≡ is_ranging name.0 }
{
    name == DW_AT_low_pc || name == DW_AT_high_pc || name == DW_AT_ranges
}

// Takes what a further attribute says of ranges.
#[inline(always)]
fn take_fact<R: Reader>(
    ranges: &mut LastFacts<R::Offset>,
    unit: &UnitRef<'_, R>,
    attribute: &Attribute<R>,
) -> Result<(), Error>
    ensures { ReturnsAsOrNoMemory (λ _. ranges.new) result
        (with_fact_of unit.now (raw_attribute_of R.view R.Offset.count attribute.now)
        ranges.old) }
{
    if !is_ranging(attribute.name()) {
        return Ok(());
    }
    ranges.take(fact_of(unit, attribute)?);
    Ok(())
}

// What the attributes of a call say, or the refusal of the first of them whose name or fact is
// refused.
pub(crate) fn call_facts<R: Reader, N: Names<R>>(
    unit: &UnitRef<'_, R>,
    names: &N,
    attributes: &[Attribute<R>],
) -> Result<CallFacts<R>, Error>
    ensures { ReturnsOrNoMemory result
        (last_call_facts unit.now (N.naming names.now)
        (raw_attributes R.view R.Offset.count attributes.now)) }
{
    let mut name = None;
    let mut ranges = LastFacts::none();
    for attribute in attributes {
        take_name(&mut name, names, attribute)?;
        take_fact(&mut ranges, unit, attribute)?;
    }
    Ok(CallFacts { name, ranges })
}
