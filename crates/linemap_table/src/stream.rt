//! The units of a table, read from its text one after the other, so that no JSON value of the whole
//! text is made.

ghost use Rattle.std.specs.Prelude.{◌≡◌, ◌<◌, length, map, option_and_then, Some, IfOk, OnOk};
ghost use Rattle.json.specs.Json.{read_key};
ghost use Rattle.serde_json.specs.Read.{read};
ghost use Rattle.linemap_check.specs.TableViews.{unit_part};
ghost use Rattle.linemap_table.specs.JsonShapes.{list_in, units_in};
ghost use Rattle.linemap_table.specs.StreamedParts.{ReadsPart};

use crate::element::Element;
use crate::fault::Fault;
use crate::values::read_value;
use json::{Reader, Scratch, Token};
use linemap_check::TableUnit;
use std::alloc::{AllocError, Global};

// How deep `serde_json` nests arrays and objects.
const MAX_DEPTH: usize = 127;

// A part, whose JSON value is dropped at once.
fn read_part<E: Element>(alloc: Global, reader: &mut Reader<'_>, depth: usize) -> Result<E, Fault>
    ensures part { IfOk result (λ x. ReadsPart E.shape depth reader.old (E.part x) reader.new) }
    ensures shorter { OnOk result (length reader.new < length reader.old) }
{
    let value = read_value(alloc, reader, depth)?;
    E::from_value(alloc, &value)
}

// An array of parts, each read by itself.
fn read_list<E: Element>(
    alloc: Global,
    reader: &mut Reader<'_>,
    depth: usize,
) -> Result<Vec<E>, Fault>
    ensures parts { IfOk result
        (λ v. ReadsPart (list_in E.shape) depth reader.old (map E.part v.items) reader.new) }
    ensures shorter { OnOk result (length reader.new < length reader.old) }
{
    let Some(Token::BeginArray) = reader.next() else {
        return Err(Fault::Shape);
    };
    if depth == 0 {
        return Err(Fault::Shape);
    }
    let mut parts = Vec::new(alloc);
    'items: while !reader.take_end_array() {
        let part = read_part::<E>(alloc, reader, depth - 1)?;
        parts.push(part).map_err(AllocError::from)?;
    }
    Ok(parts)
}

// Skips a key, which must be this one.
fn expect_key(reader: &mut Reader<'_>, name: &str) -> Result<(), Fault>
    ensures { OnOk result (read_key reader.old ≡ Some (Some name.now, reader.new)) }
{
    match reader.next_key()? {
        Some(key) if key == name => Ok(()),
        _ => Err(Fault::Shape),
    }
}

// The units of the table that comes next.
fn read_table(alloc: Global, reader: &mut Reader<'_>, depth: usize) -> Result<Vec<TableUnit>, Fault>
    ensures { IfOk result
        (λ v. ReadsPart units_in depth reader.old (map unit_part v.items) reader.new) }
{
    let Some(Token::BeginObject) = reader.next() else {
        return Err(Fault::Shape);
    };
    if depth == 0 {
        return Err(Fault::Shape);
    }
    expect_key(reader, "units")?;
    let units = read_list::<TableUnit>(alloc, reader, depth - 1)?;
    match reader.next_key()? {
        Some(_) => Err(Fault::Shape),
        None => Ok(units),
    }
}

/// The units of a table, with the JSON value of one unit in memory at a time. It also refuses texts
/// that hold a table, where a key of the table comes twice.
pub fn read_units(alloc: Global, text: &str) -> Result<Vec<TableUnit>, Fault>
    ensures { IfOk result
        (λ v. option_and_then units_in (read text.now) ≡ Some (map unit_part v.items)) }
{
    let mut scratch = Scratch::new(alloc);
    let mut reader = Reader::new(text, &mut scratch)?;
    let units = read_table(alloc, &mut reader, MAX_DEPTH)?;
    match reader.next() {
        Some(_) => Err(Fault::Shape),
        None => Ok(units),
    }
}
