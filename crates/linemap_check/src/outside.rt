//! Whether ranges lie in those of their parent. The search for each starts at the parent's range
//! that holds the one before it and goes both ways, so that all take one pass where the parent's
//! ranges are in the same order or in the opposite one.

ghost use Rattle.std.specs.Prelude.{◌≡◌, drop, flat_map, is_some, map, not, true, OnSome};
ghost use Rattle.std.specs.List.{list_any};
ghost use Rattle.linemap_meaning.specs.Conditions.{any_outside, is_within};
ghost use Rattle.linemap_meaning.specs.TableViews.{range_part};

use crate::range_owners::RangeOwner;
use crate::ranges::is_within;
use linemap_meaning::table::TableRange;

/// Whether a range of the items lies in no single one of the parent's.
pub fn any_outside<T: RangeOwner>(parent: &[TableRange], items: &[T]) -> bool
    ensures { result ≡ any_outside (map range_part parent.now) (flat_map T.ranges items.now) }
{
    let mut start = 0;
    for item in items {
        match last_holder(parent, start, item) {
            Some(next) => start = next,
            None => return true,
        }
    }
    false
}

// The index of the parent's range that holds the last of the item's, if some range of the parent
// holds each of them.
fn last_holder<T: RangeOwner>(parent: &[TableRange], start: usize, item: &T) -> Option<usize>
    ensures { is_some result ≡ not (any_outside (map range_part parent.now) (T.ranges item.now)) }
{
    let mut start = start;
    let mut index = 0;
    while let Some(range) = item.range_at(index) {
        match holder_of(parent, start, &range) {
            Some(next) => start = next,
            None => return None,
        }
        index += 1;
    }
    Some(start)
}

// The index of a range of the parent that holds the range; the search goes both ways from `start`.
fn holder_of(parent: &[TableRange], start: usize, range: &TableRange) -> Option<usize>
    ensures { is_some result
        ≡ list_any (is_within (range_part range.now)) (map range_part parent.now) }
{
    match holder_near(parent, start, range) {
        Some(near) => Some(near),
        None => holder_from(parent, 0, range),
    }
}

// The same, if there is one at most as far from `start` as the parent has ranges.
fn holder_near(parent: &[TableRange], start: usize, range: &TableRange) -> Option<usize>
    ensures { OnSome result
        (list_any (is_within (range_part range.now)) (map range_part parent.now) ≡ true) }
{
    for distance in 0..parent.len() {
        let later = start.saturating_add(distance);
        if holds_at(parent, later, range) {
            return Some(later);
        }
        let earlier = start.saturating_sub(distance);
        if holds_at(parent, earlier, range) {
            return Some(earlier);
        }
    }
    None
}

// Whether the parent's range at an index holds the range.
fn holds_at(parent: &[TableRange], index: usize, range: &TableRange) -> bool
    ensures { result ≡ true
        → list_any (is_within (range_part range.now)) (map range_part parent.now) ≡ true }
{
    match parent.get(index) {
        Some(whole) => is_within(range, whole),
        None => false,
    }
}

// The index of the first such range from `start` on.
fn holder_from(parent: &[TableRange], start: usize, range: &TableRange) -> Option<usize>
    ensures { is_some result
        ≡ list_any (is_within (range_part range.now)) (map range_part (drop start parent.now)) }
{
    for i in start..parent.len() {
        if is_within(range, &parent[i]) {
            return Some(i);
        }
    }
    None
}
