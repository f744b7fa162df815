//! Tables for which a search of all pairs would take minutes.

use crate::answer::Answer;
use linemap_text::{
    Table, TableCall, TableError, TableFile, TableFunction, TableRange, TableRow, TableSequence,
    TableUnit,
};
use std::alloc::{AllocError, Global};

/// How the parts of a large unit follow each other.
#[derive(Clone, Copy)]
pub enum Order {
    Ascending,
    /// Functions and sequences descend.
    Descending,
    /// The last range is there twice.
    Overlapping,
    /// One function, with a call in which each of the others is inlined into the one before.
    Nested,
}

/// Adds the number of units of a table, which is made of one with `count` ranges, functions and
/// sequences, or `count` calls; or why it is refused.
pub fn answer(count: u32, order: Order, out: &mut Answer) {
    let unit = match order {
        Order::Nested => unit_of_calls(out.alloc, count),
        _ => unit_of(out.alloc, count, order),
    };
    match unit {
        Ok(unit) => check(unit, out),
        Err(_) => out.refuse_memory(),
    }
}

fn check(unit: TableUnit, out: &mut Answer) {
    match count_of_units(out.alloc, unit) {
        Ok(count) => out.value(&count),
        Err(TableError::Memory) => out.refuse_memory(),
        Err(error) => out.text(error.code()),
    }
}

fn count_of_units(alloc: Global, unit: TableUnit) -> Result<usize, TableError> {
    let mut units = Vec::new(alloc);
    if units.push(unit).is_err() {
        return Err(TableError::Memory);
    }
    match Table::check(units) {
        Ok(table) => Ok(table.units().len()),
        Err(error) => Err(error),
    }
}

// A range of 8 addresses; the next one begins 16 above it.
fn range_at(index: u32) -> TableRange {
    let begin = 0x1000 + u64::from(index) * 16;
    TableRange {
        begin,
        end: begin + 8,
    }
}

fn call_at(alloc: Global, place: u32, calls: Vec<TableCall>) -> Result<TableCall, AllocError> {
    Ok(TableCall {
        name: String::from_str(alloc, "f")?,
        ranges: vec![in alloc; range_at(place)]?,
        file: 0,
        line: 1,
        column: 1,
        calls,
    })
}

fn function_with(
    alloc: Global,
    place: u32,
    calls: Vec<TableCall>,
) -> Result<TableFunction, AllocError> {
    Ok(TableFunction {
        name: String::from_str(alloc, "f")?,
        ranges: vec![in alloc; range_at(place)]?,
        calls,
    })
}

fn function_at(alloc: Global, place: u32) -> Result<TableFunction, AllocError> {
    let call = call_at(alloc, place, Vec::new(alloc))?;
    function_with(alloc, place, vec![in alloc; call]?)
}

// Calls of one range, each inlined into the one before.
fn nested_calls(alloc: Global, count: u32) -> Result<Vec<TableCall>, AllocError> {
    let mut calls = Vec::new(alloc);
    for _ in 0..count {
        let call = call_at(alloc, 0, calls)?;
        calls = vec![in alloc; call]?;
    }
    Ok(calls)
}

fn sequence_at(alloc: Global, place: u32) -> Result<TableSequence, AllocError> {
    let row = TableRow {
        address: range_at(place).begin,
        file: 0,
        line: 1,
        column: 1,
        statement: true,
        discriminator: 0,
    };
    Ok(TableSequence {
        rows: vec![in alloc; row]?,
        end: range_at(place).end,
    })
}

// A unit of one function with nested calls.
fn unit_of_calls(alloc: Global, count: u32) -> Result<TableUnit, AllocError> {
    let function = function_with(alloc, 0, nested_calls(alloc, count)?)?;
    let sequence = sequence_at(alloc, 0)?;
    unit_with(
        alloc,
        vec![in alloc; range_at(0)]?,
        vec![in alloc; function]?,
        vec![in alloc; sequence]?,
    )
}

// A unit of ranges, which ascend, and as many functions with a call each and sequences.
fn unit_of(alloc: Global, count: u32, order: Order) -> Result<TableUnit, AllocError> {
    let mut ranges = Vec::new(alloc);
    let mut functions = Vec::new(alloc);
    let mut sequences = Vec::new(alloc);
    for index in 0..count {
        let place = match order {
            Order::Descending => count - 1 - index,
            _ => index,
        };
        let function = function_at(alloc, place)?;
        let sequence = sequence_at(alloc, place)?;
        ranges.push(range_at(index)).map_err(AllocError::from)?;
        functions.push(function).map_err(AllocError::from)?;
        sequences.push(sequence).map_err(AllocError::from)?;
    }
    if matches!(order, Order::Overlapping) {
        let last = range_at(count.saturating_sub(1));
        ranges.push(last).map_err(AllocError::from)?;
    }
    unit_with(alloc, ranges, functions, sequences)
}

fn unit_with(
    alloc: Global,
    ranges: Vec<TableRange>,
    functions: Vec<TableFunction>,
    sequences: Vec<TableSequence>,
) -> Result<TableUnit, AllocError> {
    let file = TableFile {
        directory: String::from_str(alloc, "/w")?,
        name: String::from_str(alloc, "a.c")?,
    };
    Ok(TableUnit {
        directory: String::from_str(alloc, "/w")?,
        name: String::from_str(alloc, "a.c")?,
        ranges,
        files: vec![in alloc; file]?,
        functions,
        sequences,
    })
}
