//! The ranges of all units, in the order in which lookups ask the units.

ghost use Rattle.std.specs.Prelude.{◌≡◌, ◌++◌, ◌∷◌, [], true, List, length, drop, map, OnOk, OnErr, IfOk, IfErr, MatchOption};
ghost use Rattle.addr2line_spec.specs.Error.TheVariants.{Memory};
ghost use Rattle.addr2line_spec.specs.Range.{Range as RangePart};
ghost use Rattle.addr2line_index.specs.NumberedRanges.{ranges_of_units, unit_ranges, covering_ranges, overlapping_ranges};
ghost use Rattle.addr2line_index.specs.SharedRanges.{count_in_all, shared_of_run, shared_of_runs, AreShareable, LastGoesOn, with_last};
ghost use Rattle.addr2line_index.specs.BoundedRanges.{shared_in, IsBounded, CountsFrom};

use crate::bounded_range::BoundedRange;
use crate::next_range::next_overlapping;
use crate::range_place::RangePlace;
use crate::shared_range::SharedRange;
use crate::unit_range::UnitRange;
use crate::unit_run::UnitRun;
use addr2line_spec::{Error, Range};
use std::alloc::Global;
use std::marker::Model;

/// Ranges of units as they are read, one unit after the other. They are borrowed.
#[derive(Debug, Drop)]
pub struct UnitRangesBuilder<'a> {
    runs: Vec<UnitRun<'a>>,
}

impl<'a> Model for UnitRangesBuilder<'a> {
    ghost use Rattle.std.specs.Prelude.{List};
    ghost use Rattle.addr2line_index.specs.declared.unit_range.UnitRange.{UnitRange as Numbered};
    ghost use Rattle.addr2line_index.specs.SharedRanges.{pairs_of_runs, AreShareable};

    ghost Value = { List Numbered };

    ghost view = { λ b. pairs_of_runs b.runs.items };

    ghost invariant = { λ b. AreShareable b.runs.items };
}

// Whether a unit may be the next of the last run.
fn may_lengthen(runs: &[UnitRun<'_>], unit: usize, ranges: &[Range]) -> bool
    requires { AreShareable runs.now }
    ensures { result ≡ true → LastGoesOn runs.now unit ranges.now }
{
    match runs.split_last() {
        Some((last, _)) => last.goes_on(unit, ranges),
        None => false,
    }
}

// Makes a unit the last of the last run.
fn lengthen(runs: &mut [UnitRun<'_>], unit: usize)
    ensures { runs.new ≡ with_last unit runs.old }
{
    let count = runs.len();
    if count > 0 {
        runs[count - 1].last = unit;
    }
}

// Appends the ranges of a run.
fn push_shared(all: &mut Vec<SharedRange>, run: &UnitRun<'_>) -> Result<(), Error>
    ensures ok { OnOk result (all.new.items ≡ all.old.items ++ shared_of_run run.now) }
    ensures refusal { IfErr result (λ e. e ≡ Memory) }
{
    for range in run.ranges {
        all.push(SharedRange {
            range: *range,
            first: run.first,
            last: run.last,
        })?;
    }
    Ok(())
}

// The ranges of runs, each once for a run.
fn shared_ranges(alloc: Global, runs: &[UnitRun<'_>]) -> Result<Vec<SharedRange>, Error>
    ensures ok { IfOk result (λ all. all.items ≡ shared_of_runs runs.now) }
    ensures refusal { IfErr result (λ e. e ≡ Memory) }
{
    let mut all = Vec::new(alloc);
    for run in runs {
        push_shared(&mut all, run)?;
    }
    Ok(all)
}

impl<'a> UnitRangesBuilder<'a> {
    /// No ranges. It takes no memory.
    pub fn new(alloc: Global) -> Self
        ensures { result ≡ ranges_of_units [] }
    {
        UnitRangesBuilder {
            runs: Vec::new(alloc),
        }
    }

    /// Adds the ranges of the unit of that number, which comes after those of the units below it.
    /// It takes no memory where they are those of the unit before and no two have one end. Out of
    /// memory leaves the builder as it was.
    pub fn add_unit(&mut self, unit: usize, ranges: &'a [Range]) -> Result<(), Error>
        ensures ok { OnOk result
            ((units : List (List RangePart)) → self.old ≡ ranges_of_units units
            → length units ≡ unit
            → self.new ≡ ranges_of_units (units ++ ranges.now ∷ [])) }
        ensures err { OnErr result (self.new ≡ self.old) }
        ensures refusal { IfErr result (λ e. e ≡ Memory) }
    {
        if may_lengthen(self.runs.as_slice(), unit, ranges) {
            lengthen(self.runs.as_mut_slice(), unit);
            return Ok(());
        }
        self.runs.push(UnitRun {
            ranges,
            first: unit,
            last: unit,
        })?;
        Ok(())
    }

    /// The ranges by their ends, those of one end by their units' numbers, and those of one unit as
    /// they were added. Units in a row with equal ranges share them, unless two have one end. More
    /// pairs of a range and a unit than a `usize` counts are refused as out of memory.
    pub fn finish(self) -> Result<UnitRanges, Error>
        ensures ok { IfOk result
            (λ ranges. (units : List (List RangePart)) → self.entry ≡ ranges_of_units units
            → ranges ≡ unit_ranges units) }
        ensures refusal { IfErr result (λ e. e ≡ Memory) }
    {
        let alloc = *self.runs.allocator();
        let mut ranges = shared_ranges(alloc, self.runs.as_slice())?;
        ranges.sort_by_key(|range| range.range.end)?;
        let entries = bounded(alloc, ranges.as_slice())?;
        Ok(UnitRanges { entries })
    }
}

// How many pairs of a range and a unit there are.
fn count_pairs(ranges: &[SharedRange]) -> Result<usize, Error>
    ensures ok { IfOk result (λ count. count ≡ count_in_all ranges.now) }
    ensures refusal { IfErr result (λ e. e ≡ Memory) }
{
    let mut count: usize = 0;
    let mut left = ranges;
    while let [first, rest @ ..] = left {
        let Some(added) = count.checked_add(first.more()) else {
            return Err(Error::Memory);
        };
        let Some(added) = added.checked_add(1) else {
            return Err(Error::Memory);
        };
        count = added;
        left = rest;
    }
    Ok(count)
}

// The ranges, each with the least begin from it on and the number of pairs up to it.
fn bounded(alloc: Global, ranges: &[SharedRange]) -> Result<Vec<BoundedRange>, Error>
    ensures ranges { IfOk result (λ entries. shared_in entries.items ≡ ranges.now) }
    ensures bounds { IfOk result (λ entries. IsBounded entries.items) }
    ensures counts { IfOk result (λ entries. CountsFrom 0 entries.items) }
    ensures refusal { IfErr result (λ e. e ≡ Memory) }
{
    let mut entries = Vec::new(alloc);
    let mut least_begin = u64::MAX;
    let mut after = count_pairs(ranges)?;
    let mut left = ranges;
    while let Some((last, rest)) = left.split_last() {
        least_begin = least_begin.min(last.range.begin);
        entries.push(BoundedRange {
            shared: *last,
            least_begin,
            after,
        })?;
        after = after - last.more() - 1;
        left = rest;
    }
    entries.reverse();
    Ok(entries)
}

/// The ranges of all units, in the order in which lookups ask the units. A search among them begins
/// by a bisection, and ends at the first range from which on all begin too high.
#[derive(Debug, Drop)]
pub struct UnitRanges {
    entries: Vec<BoundedRange>,
}

impl Model for UnitRanges {
    ghost use Rattle.std.specs.Prelude.{List};
    ghost use Rattle.addr2line_index.specs.declared.unit_range.UnitRange.{UnitRange as Numbered};
    ghost use Rattle.addr2line_index.specs.BoundedRanges.{ranges_in, IsInOrder};

    ghost Value = { List Numbered };

    ghost view = { λ r. ranges_in r.entries.items };

    ghost invariant = { λ r. IsInOrder r.entries.items };
}

impl UnitRanges {
    /// Those that cover an address, in their order. The first `next` is a bisection.
    pub fn covering(&self, probe: u64) -> CoveringRanges<'_>
        ensures { result ≡ covering_ranges probe self.now }
    {
        CoveringRanges {
            ranges: self,
            place: RangePlace::at(0),
            probe,
        }
    }

    /// The first of them from a place on that overlaps what lies between two ends, and the place
    /// after it. It is a walk over ranges that end above the low end, and before it a bisection,
    /// unless the place is the one after the range that the search before found.
    pub fn next_overlapping(
        &self,
        from: RangePlace,
        low: u64,
        high: u64,
    ) -> Option<(UnitRange, RangePlace)>
        ensures { MatchOption result (overlapping_ranges low high (drop from.index self.now) ≡ [])
            (λ f. overlapping_ranges low high (drop from.index self.now)
            ≡ f.0 ∷ overlapping_ranges low high (drop f.1.index self.now)) }
    {
        // Nothing lies below 0.
        let last = high.checked_sub(1)?;
        next_overlapping(self.entries.as_slice(), from.entry, from.index, low, last)
    }

    /// The first of them from a place on that covers an address, and the place after it. It costs
    /// what `next_overlapping` does.
    pub fn next_covering(&self, from: RangePlace, probe: u64) -> Option<(UnitRange, RangePlace)>
        ensures { MatchOption result (covering_ranges probe (drop from.index self.now) ≡ [])
            (λ f. covering_ranges probe (drop from.index self.now)
            ≡ f.0 ∷ covering_ranges probe (drop f.1.index self.now)) }
    {
        let entries = self.entries.as_slice();
        next_overlapping(entries, from.entry, from.index, probe, probe)
    }
}

/// The ranges that cover an address, from one of them on.
#[derive(Debug, Drop)]
pub struct CoveringRanges<'a> {
    ranges: &'a UnitRanges,
    place: RangePlace,
    probe: u64,
}

impl<'a> Model for CoveringRanges<'a> {
    ghost use Rattle.std.specs.Prelude.{List, drop};
    ghost use Rattle.addr2line_index.specs.declared.unit_range.UnitRange.{UnitRange as Numbered};
    ghost use Rattle.addr2line_index.specs.NumberedRanges.{covering_ranges};

    ghost Value = { List Numbered };

    ghost view = { λ c. covering_ranges c.probe (drop c.place.index c.ranges.now) };
}

impl CoveringRanges<'_> {
    /// The next of them. It goes no further than to the first range from which on all begin above
    /// the address.
    pub fn next(&mut self) -> Option<UnitRange>
        ensures none { MatchOption result (self.old ≡ []) (λ first. self.old ≡ first ∷ self.new) }
        ensures ended { self.old ≡ [] → self.new ≡ [] }
    {
        let (range, place) = self.ranges.next_covering(self.place, self.probe)?;
        self.place = place;
        Some(range)
    }
}
