//! Ranges of functions or of calls, of which one bisection finds the one that holds an address.

ghost use Rattle.std.specs.Prelude.{◌≡◌, ◌++◌, ℕ, List, [], length, option_to_list, Ok, IfOk, IfErr};
ghost use Rattle.gimli_units_entries.specs.Calls.{ReturnsAsOrNoMemory};
ghost use Rattle.gimli_units_entries.specs.Error.TheVariants.{Memory};
ghost use Rattle.gimli_units_entries.specs.Range.{Range as RangePart};
ghost use Rattle.addr2line_ranges.specs.Searches.{AtMostProbes};
ghost use Rattle.addr2line_functions.specs.RangesByNumber.{depth_of, range_of, of_number, number_at};
ghost use Rattle.addr2line_functions.specs.CountedFunctions.{search_probes};

use addr2line_ranges::{Probes, RangeIndex, Ranged};
use gimli_units_entries::{Error, Range};
use std::alloc::Global;
use std::marker::Model;

/// A range of addresses, with the depth and the number of the function or the call that has it.
#[derive(Clone, Copy, Debug, PartialEq, Eq)]
pub struct NumberedRange {
    pub depth: usize,
    pub range: Range,
    pub number: usize,
}

impl Ranged for NumberedRange {
    ghost level = { depth_of };

    ghost range = { range_of };

    fn level(&self) -> usize {
        self.depth
    }

    fn range(&self) -> Range {
        self.range
    }
}

// What has ranges, all at one depth. It doesn't keep them: they are searched with those of others.
pub(crate) trait HasRanges {
    ghost depth: { Self → ℕ };

    ghost ranges: { Self → List RangePart };
}

// An item as it was read, with its depth and its ranges.
#[derive(Drop)]
pub(crate) struct RangedItem<T: HasRanges> {
    pub(crate) item: T,
    pub(crate) depth: usize,
    pub(crate) ranges: Vec<Range>,
}

impl<T: HasRanges> Model for RangedItem<T> {
    ghost use Rattle.std.specs.Prelude.{◌≡◌};

    ghost Value = { T };

    ghost view = { λ r. r.item };

    ghost invariant = { λ r.
        (r.depth ≡ T.depth r.item) × (r.ranges.items ≡ T.ranges r.item) };
}

// Items in order of appearance, and the ranges of all with their items' depths and numbers.
#[derive(Drop)]
pub(crate) struct RangedItems<T: HasRanges> {
    pub(crate) items: Vec<T>,
    pub(crate) ranges: Vec<NumberedRange>,
}

impl<T: HasRanges> Model for RangedItems<T> {
    ghost use Rattle.std.specs.Prelude.{◌≡◌, List};
    ghost use Rattle.addr2line_functions.specs.RangesByNumber.{numbered_ranges};

    ghost Value = { List T };

    ghost view = { λ r. r.items.items };

    ghost invariant = { λ r.
        r.ranges.items ≡ numbered_ranges T.depth T.ranges r.items.items };
}

impl<T: HasRanges + Drop> RangedItems<T> {
    // No items.
    pub(crate) fn new(alloc: Global) -> Self
        ensures { result ≡ [] }
    {
        RangedItems {
            items: Vec::new(alloc),
            ranges: Vec::new(alloc),
        }
    }

    // With one more, if there is one.
    pub(crate) fn with(self, next: Option<RangedItem<T>>) -> Result<Self, Error>
        ensures ok { IfOk result (λ all. all ≡ self ++ option_to_list next) }
        ensures refusal { IfErr result (λ e. e ≡ Memory) }
    {
        let Some(ranged) = next else {
            return Ok(self);
        };
        let RangedItem {
            item,
            depth,
            ranges,
        } = ranged;
        let RangedItems {
            mut items,
            ranges: mut all,
        } = self;
        push_ranges(&mut all, depth, items.len(), ranges.as_slice())?;
        items.push(item)?;
        Ok(RangedItems { items, ranges: all })
    }
}

// Appends ranges of a depth and a number.
fn push_ranges(
    all: &mut Vec<NumberedRange>,
    depth: usize,
    number: usize,
    ranges: &[Range],
) -> Result<(), Error>
    ensures { ReturnsAsOrNoMemory (λ _. all.new.items) result
        (Ok (all.old.items ++ of_number depth number ranges.now)) }
{
    for range in ranges {
        all.push(NumberedRange {
            depth,
            range: *range,
            number,
        })?;
    }
    Ok(())
}

// The number of the item that holds an address, among those of a depth.
pub(crate) fn number_at(
    ranges: &RangeIndex<NumberedRange>,
    depth: usize,
    probe: u64,
    probes: &mut Probes,
) -> Option<usize>
    requires counter { probes.old.name ≡ ranges.now.counter }
    ensures number { result ≡ number_at depth probe ranges.now.entries }
    ensures cost { AtMostProbes (search_probes (length ranges.now.entries))
        probes.old probes.new }
{
    let found = ranges.find(depth, probe, probes)?;
    Some(found.number)
}
