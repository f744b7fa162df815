//! JSON values, read token by token. They are those of `serde_json`, but for numbers that aren't of
//! the type `u64`: these are refused, since no part of a table is one.

ghost use Rattle.std.specs.Prelude.{◌≡◌, ◌<◌, ◌==◌, false, length, slice_index, Some, IfOk, IfSome, OnOk};
ghost use Rattle.fast_float.specs.Text.{minus};
ghost use Rattle.json.specs.Json.{items, members, value};
ghost use Rattle.serde_json.specs.Data.{no_members, unsigned};
ghost use Rattle.serde_json.specs.Read.{converted, number_from, number_of, of_items, of_json, of_members};
ghost use Rattle.serde_json.specs.View.{items_view, members_view, view};

use crate::fault::Fault;
use fast_float::Numeral;
use json::{Reader, Token};
use serde_json::{Map, Value};
use std::alloc::{AllocError, Global};

// Whether a minus comes first.
fn has_minus(bytes: &[u8]) -> bool
    ensures { result ≡ (slice_index bytes.now 0 == minus) }
{
    !bytes.is_empty() && bytes[0] == b'-'
}

// The number that digits alone write.
fn unsigned(numeral: &Numeral<'_>) -> Option<u64>
    ensures { IfSome result (λ n. number_from false numeral.now ≡ Some (unsigned n)) }
{
    numeral.to_u64()
}

// The number that a token writes, if that is a `u64`.
fn number_of(text: &str) -> Option<u64>
    ensures { IfSome result (λ n. number_of text.now ≡ Some (unsigned n)) }
{
    let bytes = text.as_bytes();
    if has_minus(bytes) {
        return None;
    }
    unsigned(&Numeral::scan(bytes))
}

/// The next value, with arrays and objects nested no deeper than `depth`.
#[cycle(values)]
pub fn read_value(alloc: Global, reader: &mut Reader<'_>, depth: usize) -> Result<Value, Fault>
    ensures value { IfOk result
        (λ v. converted of_json (value depth reader.old) ≡ Some (view v, reader.new)) }
    ensures shorter { OnOk result (length reader.new < length reader.old) }
{
    let token = reader.next().ok_or(Fault::Shape)?;
    match token {
        Token::String(text) => Ok(Value::String(String::from_str(alloc, text)?)),
        Token::Number(text) => match number_of(text) {
            Some(number) => Ok(Value::from(number)),
            None => Err(Fault::Shape),
        },
        Token::Bool(b) => Ok(Value::Bool(b)),
        Token::Null => Ok(Value::Null),
        Token::BeginArray => {
            if depth == 0 {
                return Err(Fault::Shape);
            }
            Ok(Value::Array(read_items(alloc, reader, depth - 1)?))
        }
        Token::BeginObject => {
            if depth == 0 {
                return Err(Fault::Shape);
            }
            Ok(Value::Object(read_members(alloc, reader, depth - 1)?))
        }
        Token::EndObject | Token::EndArray | Token::Key(_) | Token::Bad => Err(Fault::Shape),
    }
}

// The items of an array that has begun.
#[cycle(values)]
fn read_items(alloc: Global, reader: &mut Reader<'_>, depth: usize) -> Result<Vec<Value>, Fault>
    ensures value { IfOk result
        (λ v. converted of_items (items (value depth) (length reader.old) reader.old)
        ≡ Some (items_view v.items, reader.new)) }
    ensures shorter { OnOk result (length reader.new < length reader.old) }
{
    let mut found = Vec::new(alloc);
    'items: while !reader.take_end_array() {
        let item = read_value(alloc, reader, depth)?;
        found.push(item).map_err(AllocError::from)?;
    }
    Ok(found)
}

// The members of an object that has begun; of a key that comes twice the last value.
#[cycle(values)]
fn read_members(
    alloc: Global,
    reader: &mut Reader<'_>,
    depth: usize,
) -> Result<Map<String, Value>, Fault>
    ensures value { IfOk result
        (λ m. converted (λ ms. of_members ms no_members)
        (members (value depth) (length reader.old) reader.old)
        ≡ Some (members_view m.entries, reader.new)) }
    ensures shorter { OnOk result (length reader.new < length reader.old) }
{
    let mut found = Map::new(alloc);
    'members: while let Some(name) = reader.next_key()? {
        let key = String::from_str(alloc, name)?;
        let member = read_value(alloc, reader, depth)?;
        drop(found.insert(key, member).map_err(AllocError::from)?);
    }
    Ok(found)
}
