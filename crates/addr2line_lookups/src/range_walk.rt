//! Walks over the stretches between two ends. The lines of a unit are read where a walk comes to
//! it, and kept.

ghost use Rattle.std.specs.Prelude.{◌≡◌, ◌≢◌, ◌+◌, ℕ, List, None, Some, Ok, Err, map, slice_get, option_map, MatchOption, IfOk};
ghost use Rattle.addr2line_unit.specs.Error.TheVariants.{Memory};
ghost use Rattle.addr2line_unit.specs.Contexts.{ContextUnit, ranges_of, lines_of};
ghost use Rattle.addr2line_unit.specs.PlaceLookups.{stretches_between};
ghost use Rattle.addr2line_unit.specs.UnitRange.{UnitRange as Numbered};
ghost use Rattle.addr2line_unit.specs.NumberedRanges.{overlapping_ranges};
ghost use Rattle.addr2line_unit.specs.ContextUnits.{unit_places};
ghost use Rattle.addr2line_unit.specs.ResolvedUnits.{plain_unit};
ghost use Rattle.addr2line_lookups.specs.KeptUnits.{KeepsAt, KeepsAsked, ReadsAsked, ReadsNoLines, IsUnitOf, check_at};
ghost use Rattle.addr2line_lookups.specs.LookupCosts.{WalksLines};
ghost use Rattle.addr2line_lookups.specs.RangeWalks.{BeginsInUnit, GoesOnInUnit, BeginsRange, NextInRange, NextOfRows, KeepsStretch, FindsStretch, walk_left, stretches_left, AreOfRange, IsUnitOfRows, ComesTo, AsksForStretch, StaysOnItsWay, unit_probes, unit_probes_left, rows_looks, range_looks, begun_looks, looks_from, walk_looks, found_looks, step_looks};

use crate::parsing::check_at;
use crate::settle::{UnitRow, read_at};
use addr2line_unit::{
    Error, LineCursor, RangePlace, Reader, ResUnit, RowStretch, UnitRange, UnitRanges,
};
use std::alloc::Global;

/// The rows of the unit of a range, from one of them on.
#[derive(Clone, Copy, Debug)]
pub struct RangeRows {
    pub(crate) range: UnitRange,
    pub(crate) cursor: LineCursor,
}

/// The addresses that a row of a unit's lines stands for, and the row.
#[derive(Clone, Copy, Debug)]
pub struct UnitStretch {
    pub address: u64,
    pub length: u64,
    pub row: UnitRow,
}

/// How far a walk over the stretches between two ends came. It borrows nothing of the units.
#[derive(Clone, Copy, Debug)]
pub struct RangeWalk {
    pub(crate) low: u64,
    pub(crate) high: u64,
    /// The rows of the range that it is in, if it is in one.
    pub(crate) rows: Option<RangeRows>,
    /// The place of the next range among those of all units.
    pub(crate) next: RangePlace,
}

impl RangeWalk {
    /// The walk before the first stretch.
    pub fn new(low: u64, high: u64) -> Self
        ensures stretches { (units : List ContextUnit) → stretches_left units result
            ≡ stretches_between ranges_of lines_of units low high }
        ensures units { (ranges : List Numbered) → (number : ℕ) → ComesTo ranges result number
            → IsUnitOf (overlapping_ranges low high ranges) number }
        ensures looks { (units : List ContextUnit) → (ranges : List Numbered)
            → walk_looks units ranges result ≡ looks_from units low high ranges 0 }
    {
        RangeWalk {
            low,
            high,
            rows: None,
            next: RangePlace::at(0),
        }
    }
}

// Where a walk over the rows of the unit of a number from a low end on begins; at none where there
// is no such unit, or it has no rows for it, or its lines, which are kept, are refused.
fn cursor_at<R: Reader>(units: &mut Vec<ResUnit<R>>, number: usize, low: u64) -> Option<LineCursor>
    requires { KeepsAt units.old.items number }
    ensures change { let unit = slice_get (map plain_unit units.old.items) number in
        WalksLines (unit_probes unit) (unit_probes_left result unit)
        units.old.items units.new.items }
    ensures lines { ReadsNoLines units.old.items units.new.items }
    ensures begins { BeginsInUnit low (slice_get (map plain_unit units.old.items) number) result }
{
    if number >= units.len() {
        return None;
    }
    let unit = &mut units[number];
    unit.cursor_from(low)
}

// The next row of such a walk between two ends.
fn next_at<R: Reader>(
    units: &mut Vec<ResUnit<R>>,
    number: usize,
    cursor: LineCursor,
    low: u64,
    high: u64,
) -> Option<(RowStretch, LineCursor)>
    requires { KeepsAt units.old.items number }
    ensures change { let unit = slice_get (map plain_unit units.old.items) number in
        WalksLines (unit_probes_left (Some cursor) unit + found_looks result)
        (unit_probes_left (option_map (λ f. f.1) result) unit)
        units.old.items units.new.items }
    ensures lines { ReadsNoLines units.old.items units.new.items }
    ensures row { GoesOnInUnit low high cursor
        (slice_get (map plain_unit units.old.items) number) result }
{
    if number >= units.len() {
        return None;
    }
    let unit = &mut units[number];
    unit.next_between(cursor, low, high)
}

// The rows of the unit of a range, if there are any. Its lines are kept, and aren't refused.
fn rows_in<R: Reader>(units: &mut Vec<ResUnit<R>>, range: UnitRange, low: u64) -> Option<RangeRows>
    requires kept { KeepsAt units.old.items range.unit }
    requires lines { check_at (map plain_unit units.old.items) range.unit ≡ Ok tt }
    ensures change { WalksLines (range_looks (map plain_unit units.old.items) range)
        (rows_looks (map plain_unit units.old.items) result) units.old.items units.new.items }
    ensures lines { ReadsNoLines units.old.items units.new.items }
    ensures rows { (high : ℕ) → BeginsRange (map unit_places (map plain_unit units.old.items)) low
        high range (Ok result) }
    ensures range { AreOfRange range result }
{
    match cursor_at(units, range.unit, low.max(range.range.begin)) {
        Some(cursor) => Some(RangeRows { range, cursor }),
        None => None,
    }
}

// A row of the unit of a range as a stretch.
fn unit_stretch(range: UnitRange, stretch: RowStretch) -> UnitStretch
    ensures { result ≡ record {
      address = stretch.address;
      length = stretch.length;
      row = record { unit = range.unit; row = stretch.row };
    } }
{
    let unit = range.unit;
    let row = stretch.row;
    UnitStretch {
        address: stretch.address,
        length: stretch.length,
        row: UnitRow { unit, row },
    }
}

// The next stretch of the unit of a range, and the rows after it. The unit's lines are kept.
fn next_in<R: Reader>(
    units: &mut Vec<ResUnit<R>>,
    rows: RangeRows,
    low: u64,
    high: u64,
) -> Option<(UnitStretch, RangeRows)>
    requires { KeepsAt units.old.items rows.range.unit }
    ensures change { let us = map plain_unit units.old.items in
        WalksLines (rows_looks us (Some rows) + found_looks result)
        (rows_looks us (option_map (λ f. f.1) result)) units.old.items units.new.items }
    ensures lines { ReadsNoLines units.old.items units.new.items }
    ensures stretch { NextInRange (map plain_unit units.old.items) low high rows result }
    ensures unit { MatchOption result (Unit {0}) (λ f. f.0.row.unit ≡ rows.range.unit) }
    ensures range { MatchOption result (Unit {0}) (λ f. f.1.range ≡ rows.range) }
{
    let RangeRows { range, cursor } = rows;
    let low = low.max(range.range.begin);
    let high = high.min(range.range.end);
    match next_at(units, range.unit, cursor, low, high) {
        Some((stretch, cursor)) => {
            Some((unit_stretch(range, stretch), RangeRows { range, cursor }))
        }
        None => None,
    }
}

// The rows of the unit of a range, or the refusal of its lines, which are read before, unless they
// are kept.
fn first_rows<R: Reader>(
    alloc: Global,
    units: &mut Vec<ResUnit<R>>,
    range: UnitRange,
    low: u64,
) -> Result<Option<RangeRows>, Error>
    ensures change { WalksLines (range_looks (map plain_unit units.old.items) range)
        (begun_looks (map plain_unit units.old.items) range result)
        units.old.items units.new.items }
    ensures reads { ReadsAsked (λ n. n ≡ range.unit) units.old.items units.new.items }
    ensures rows { (high : ℕ) → BeginsRange (map unit_places (map plain_unit units.old.items)) low
        high range result }
    ensures range { IfOk result (AreOfRange range) }
    ensures kept { result ≢ Err Memory → KeepsAt units.new.items range.unit }
    ensures free { KeepsAt units.old.items range.unit → result ≢ Err Memory }
{
    check_at(alloc, units, range.unit)?;
    Ok(rows_in(units, range, low))
}

// The next stretch of the unit of the range that a walk is in, if it is in one, and has one; else
// the walk leaves it. The unit's lines are read before, unless they are kept: the only error is out
// of memory.
fn next_of_rows<R: Reader>(
    alloc: Global,
    units: &mut Vec<ResUnit<R>>,
    walk: &mut RangeWalk,
) -> Result<Option<UnitStretch>, Error>
    ensures change { let us = map plain_unit units.old.items in
        WalksLines (rows_looks us walk.old.rows + step_looks result) (rows_looks us walk.new.rows)
        units.old.items units.new.items }
    ensures reads { ReadsAsked (IsUnitOfRows walk.old.rows) units.old.items units.new.items }
    ensures stretch { NextOfRows (map plain_unit units.old.items) result walk.old walk.new }
    ensures unit { (n : ℕ) → IsUnitOfRows walk.new.rows n → IsUnitOfRows walk.old.rows n }
    ensures kept { KeepsStretch units.new.items result }
    ensures asked { result ≢ Err Memory
        → KeepsAsked (IsUnitOfRows walk.old.rows) units.new.items }
    ensures free { KeepsAsked (IsUnitOfRows walk.old.rows) units.old.items → result ≢ Err Memory }
{
    let Some(rows) = walk.rows else {
        return Ok(None);
    };
    read_at(alloc, units, rows.range.unit)?;
    match next_in(units, rows, walk.low, walk.high) {
        Some((stretch, rest)) => {
            walk.rows = Some(rest);
            Ok(Some(stretch))
        }
        None => {
            walk.rows = None;
            Ok(None)
        }
    }
}

// A walk that is in no range enters the next one, if that has rows.
#[inline(always)]
fn enter(walk: &mut RangeWalk, rows: Option<RangeRows>, next: RangePlace)
    requires { walk.old.rows ≡ None }
    ensures { walk.new ≡ record walk.old { rows = rows; next = next } }
{
    if rows.is_some() {
        walk.rows = rows;
    }
    walk.next = next;
}

// The next stretch of a walk: that of the range that it is in, or else of the first range after it
// that has one. The lines of the units up to there are read, unless they are kept; else it takes no
// memory. A refusal of them leaves the walk before that unit. It takes three looks at what is kept
// at most, besides those that are no longer left to the walk.
pub(crate) fn next_stretch<R: Reader>(
    alloc: Global,
    units: &mut Vec<ResUnit<R>>,
    ranges: &UnitRanges,
    walk: &mut RangeWalk,
) -> Result<Option<UnitStretch>, Error>
    ensures change { let us = map plain_unit units.old.items in
        WalksLines (walk_looks us ranges.now walk.old + 3) (walk_looks us ranges.now walk.new)
        units.old.items units.new.items }
    ensures stretch { FindsStretch (map plain_unit units.old.items) result
        (walk_left (map unit_places (map plain_unit units.old.items)) ranges.now walk.old)
        (walk_left (map unit_places (map plain_unit units.old.items)) ranges.now walk.new) }
    ensures kept { KeepsStretch units.new.items result }
    ensures asked { result ≢ Err Memory → KeepsAsked
        (AsksForStretch (map unit_places (map plain_unit units.old.items)) ranges.now walk.old)
        units.new.items }
    ensures reads { ReadsAsked
        (AsksForStretch (map unit_places (map plain_unit units.old.items)) ranges.now walk.old)
        units.old.items units.new.items }
    ensures free { KeepsAsked
        (AsksForStretch (map unit_places (map plain_unit units.old.items)) ranges.now walk.old)
        units.old.items → result ≢ Err Memory }
    ensures way { StaysOnItsWay ranges.now walk.old walk.new }
{
    'range: loop {
        if let Some(stretch) = next_of_rows(alloc, units, walk)? {
            return Ok(Some(stretch));
        }
        let Some((range, next)) = ranges.next_overlapping(walk.next, walk.low, walk.high) else {
            return Ok(None);
        };
        let rows = first_rows(alloc, units, range, walk.low)?;
        enter(walk, rows, next);
    }
}
