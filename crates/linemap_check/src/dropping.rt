//! Dropping units whose calls may be nested deeper than the stack has room for.

ghost use Rattle.std.specs.Prelude.{◌≡◌, ◌+◌};
ghost use Rattle.linemap_check.specs.CallCounts.{call_count};
ghost use Rattle.linemap_meaning.specs.TableViews.{calls_part};

use linemap_meaning::table::{TableCall, TableFunction, TableUnit};
use std::mem;

/// Drops units whose calls may be nested at any depth. It takes no memory, and no function here
/// calls itself for the calls that are inlined into a call.
pub fn drop_units(units: Vec<TableUnit>) {
    for unit in units {
        drop_functions(unit.functions);
    }
}

fn drop_functions(functions: Vec<TableFunction>) {
    for function in functions {
        drop_calls(function.calls);
    }
}

fn drop_calls(calls: Vec<TableCall>) {
    let mut calls = calls;
    while let Some(call) = calls.pop() {
        calls = joined(calls, call.calls);
    }
}

// The calls of two lists in one. Down the first calls of `below` each list comes to hang where the
// one above it was, so that `above` is at the place of the last: each call is passed once.
fn joined(above: Vec<TableCall>, below: Vec<TableCall>) -> Vec<TableCall>
    ensures { call_count (calls_part result.items)
        ≡ call_count (calls_part above.items) + call_count (calls_part below.items) }
{
    if above.is_empty() {
        return below;
    }
    let mut above = above;
    let mut below = below;
    while let Some(first) = below.first_mut() {
        mem::swap(&mut first.calls, &mut above);
        mem::swap(&mut below, &mut above);
    }
    above
}
