//! Lists of items with ranges of addresses, searched by one bisection.

ghost use Rattle.std.specs.Prelude.{◌≡◌, ◌+◌, ◌==◌, ◌&&◌, ℕ, ◌<◌, nat_lt, length, slice_get, Some, option_map, IfOk, IfErr};
ghost use Rattle.std.specs.Ordering.{is_lt};
ghost use Rattle.addr2line_spec.specs.Error.TheVariants.{Memory};
ghost use Rattle.addr2line_spec.specs.Range.{Range as RangePart};
ghost use Rattle.addr2line_spec.specs.Choice.{only_if, holder};
ghost use Rattle.addr2line_search.specs.Searches.{digit_count, AtMostProbes};
ghost use Rattle.addr2line_index.specs.RangeLevels.{at_level, begins_by, by_level, comes_before};

use addr2line_search::{Probed, Probes, SearchKey, last_up_to};
use addr2line_spec::{Error, Range};
use std::cmp::Ordering;
use std::marker::Model;
use std::snapshot::Snapshot;

/// What has a range of addresses, at a level where there are several, as a call at its depth.
pub trait Ranged {
    ghost level: { Self → ℕ };

    ghost range: { Self → RangePart };

    /// The level.
    fn level(&self) -> usize
        ensures { result ≡ level self.now };

    /// The range.
    fn range(&self) -> Range
        ensures { result ≡ range self.now };
}

// A level, and an address at it.
#[derive(Drop)]
struct LevelAddress {
    level: usize,
    address: u64,
}

impl<T: Ranged> SearchKey<T> for LevelAddress {
    ghost is_at_or_above = { λ k x. begins_by T.level T.range k.level k.address x };

    fn is_at_or_above(&self, entry: &T) -> bool {
        let level = entry.level();
        level < self.level || (level == self.level && entry.range().begin <= self.address)
    }
}

// How the second of two items compares to the first: by levels, begins and ends.
fn compare<T: Ranged>(first: &T, second: &T) -> Ordering
    ensures { is_lt result ≡ comes_before T.level T.range first.now second.now }
{
    let (before, after) = (first.range(), second.range());
    first
        .level()
        .cmp(&second.level())
        .then(before.begin.cmp(&after.begin))
        .then(before.end.cmp(&after.end))
}

/// Items with ranges, sorted by their levels, begins and ends. Contracts see them in order of
/// appearance.
pub struct RangeIndex<T: Ranged> {
    sorted: Probed<T>,
    items: Snapshot<Vec<T>>,
}

impl<T: Ranged + Drop> Drop for RangeIndex<T> {
    fn drop(self) {
        let RangeIndex {
            sorted: _,
            items: _,
        } = self;
    }
}

impl<T: Ranged> Model for RangeIndex<T> {
    ghost use Rattle.std.specs.Prelude.{◌≡◌};
    ghost use Rattle.addr2line_search.specs.ProbedLists.{ProbedList};
    ghost use Rattle.addr2line_index.specs.RangeLevels.{by_level};

    ghost Value = { ProbedList T };

    ghost view = { λ i. record { entries = i.items.value.items; counter = i.sorted.counter } };

    ghost invariant = { λ i.
        i.sorted.entries ≡ by_level T.level T.range i.items.value.items };
}

impl<T: Ranged + Drop> RangeIndex<T> {
    /// The items, whose entries this counter counts. The only refusal is out of memory.
    pub fn new(items: Vec<T>, probes: &Probes) -> Result<Self, Error>
        ensures ok { IfOk result
            (λ i. i ≡ record { entries = items.items; counter = probes.now.name }) }
        ensures refusal { IfErr result (λ e. e ≡ Memory) }
    {
        let appearance = Snapshot::of(&items);
        let mut sorted = items;
        sorted.sort_by(
            |first: &T, second: &T| -> Ordering
                ensures { is_lt result ≡ comes_before T.level T.range first.now second.now }
            { compare(first, second) },
        )?;
        Ok(RangeIndex {
            sorted: Probed::new(sorted, probes),
            items: appearance,
        })
    }
}

impl<T: Ranged> RangeIndex<T> {
    /// How many items there are.
    pub fn len(&self) -> usize
        ensures { result ≡ length self.now.entries }
    {
        self.sorted.len()
    }

    /// The item at an index by levels, begins, ends and appearance, which is counted.
    pub fn at(&self, index: usize, probes: &mut Probes) -> &T
        requires counter { probes.old.name ≡ self.now.counter }
        requires within { index < length self.now.entries }
        ensures item { slice_get (by_level T.level T.range self.now.entries) index
            ≡ Some result.now }
        ensures counted { probes.new ≡ record probes.old { count = probes.old.count + 1 } }
    {
        self.sorted.at(index, probes)
    }

    /// The item of a level that holds an address: of those that begin at or below it the one that
    /// begins last, of these the one that ends last, of these the last, if it ends above it.
    pub fn find(&self, level: usize, address: u64, probes: &mut Probes) -> Option<&T>
        requires counter { probes.old.name ≡ self.now.counter }
        ensures holder { option_map (λ x. x.now) result
            ≡ holder T.range address (at_level T.level level self.now.entries) }
        ensures cost { AtMostProbes (digit_count (length self.now.entries) + 1)
            probes.old probes.new }
    {
        let key = LevelAddress { level, address };
        let found = last_up_to(&self.sorted, &key, probes);
        if_holds(found, level, address)
    }
}

// An item, if it is of a level and ends above an address.
fn if_holds<T: Ranged>(found: Option<&T>, level: usize, address: u64) -> Option<&T>
    ensures { option_map (λ x. x.now) result
        ≡ only_if (λ x. T.level x == level && nat_lt address (T.range x).end)
        (option_map (λ x. x.now) found.entry) }
{
    match found {
        Some(item) if item.level() == level && address < item.range().end => Some(item),
        _ => None,
    }
}
