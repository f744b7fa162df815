//! The next range from an index on.

ghost use Rattle.std.specs.Prelude.{◌≡◌, ◌+◌, ◌∷◌, [], true, drop, MatchOption};
ghost use Rattle.std.specs.List.{prefix_len};
ghost use Rattle.addr2line_spec.specs.Pairs.{overlaps};
ghost use Rattle.addr2line_index.specs.NumberedRanges.{overlapping_ranges};
ghost use Rattle.addr2line_index.specs.BoundedRanges.{ranges_in, is_skipped, pairs_left, IsCounted, IsNextOverlap, IsInOrder};

use crate::bounded_range::BoundedRange;
use crate::range_place::RangePlace;
use crate::unit_range::UnitRange;
use addr2line_spec::Range;

// Whether a range ends above one address, and begins at or below another.
fn overlaps(range: Range, low: u64, last: u64) -> bool
    ensures { result ≡ overlaps low (last + 1) range }
{
    low < range.end && range.begin <= last
}

// Whether a range ends at or below an address, or has all its pairs before an index.
fn is_skipped(entry: &BoundedRange, from: usize, address: u64) -> bool
    ensures { result ≡ is_skipped from address entry.now }
{
    entry.shared.range.end <= address || entry.after <= from
}

// Whether a place is that of the first that isn't skipped, or the one after the last if all are.
fn is_first_left(entries: &[BoundedRange], place: usize, from: usize, address: u64) -> bool
    requires { IsInOrder entries.now }
    ensures { result ≡ true → place ≡ prefix_len (is_skipped from address) entries.now }
{
    if place > entries.len() {
        return false;
    }
    if place < entries.len() && is_skipped(&entries[place], from, address) {
        return false;
    }
    if place == 0 {
        return true;
    }
    is_skipped(&entries[place - 1], from, address)
}

// How many of them are skipped. It looks at a place first, which costs little, and else is one
// bisection.
fn count_skipped(entries: &[BoundedRange], first: usize, from: usize, address: u64) -> usize
    requires { IsInOrder entries.now }
    ensures { result ≡ prefix_len (is_skipped from address) entries.now }
{
    if is_first_left(entries, first, from, address) {
        return first;
    }
    entries.partition_point(
        |entry: &BoundedRange| -> bool
            ensures { result ≡ is_skipped from address entry.now }
        { is_skipped(entry, from, address) },
    )
}

// The first pair of a range from an index among all pairs on, if the range ends above one address
// and begins at or below another, and the index after it.
fn pair_between(
    entry: &BoundedRange,
    from: usize,
    low: u64,
    last: u64,
) -> Option<(UnitRange, usize)>
    requires { IsCounted entry.now }
    ensures { MatchOption result
        (overlapping_ranges low (last + 1) (pairs_left from entry.now) ≡ [])
        (IsNextOverlap low (last + 1) from entry.now) }
{
    if overlaps(entry.shared.range, low, last) {
        entry.pair_from(from)
    } else {
        None
    }
}

// An index of a pair of the range at a place, or the one after its last, with where to look next.
fn place_after(index: usize, place: usize, entry: &BoundedRange) -> RangePlace
    ensures { result.index ≡ index }
{
    let entry = if index < entry.after {
        place
    } else {
        place.saturating_add(1)
    };
    RangePlace { index, entry }
}

// The first pair from an index on whose range ends above one address and begins at or below
// another, and the place after it. It looks at an entry first.
#[inline(always)]
pub(crate) fn next_overlapping(
    entries: &[BoundedRange],
    first: usize,
    from: usize,
    low: u64,
    last: u64,
) -> Option<(UnitRange, RangePlace)>
    requires { IsInOrder entries.now }
    ensures { MatchOption result
        (overlapping_ranges low (last + 1) (drop from (ranges_in entries.now)) ≡ [])
        (λ f. overlapping_ranges low (last + 1) (drop from (ranges_in entries.now))
        ≡ f.0 ∷ overlapping_ranges low (last + 1) (drop f.1.index (ranges_in entries.now))) }
{
    let mut place = count_skipped(entries, first, from, low);
    while place < entries.len() {
        let entry = &entries[place];
        if last < entry.least_begin {
            return None;
        }
        if let Some((range, next)) = pair_between(entry, from, low, last) {
            return Some((range, place_after(next, place, entry)));
        }
        place += 1;
    }
    None
}
