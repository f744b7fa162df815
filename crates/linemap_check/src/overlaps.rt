//! Whether ranges overlap: in at most four passes over them where they ascend in the order of their
//! owners or with the last owner first, else by trying each pair.

ghost use Rattle.std.specs.Prelude.{◌≡◌, ◌<◌, drop, flat_map, false, get_or, length, true, not, option_map, IsTrue};
ghost use Rattle.std.specs.List.{list_any};
ghost use Rattle.linemap_check.specs.RangePasses.{any_overlaps_later, in_direction, is_ascending, last_apart, ordered_end};
ghost use Rattle.linemap_meaning.specs.Conditions.{any_overlap, overlap};
ghost use Rattle.linemap_meaning.specs.TableViews.{range_part};

use crate::range_owners::RangeOwner;
use crate::ranges::overlap;
use linemap_meaning::table::TableRange;

/// Whether two of the items' ranges overlap. Linear where no range is empty and each begins at or
/// above the start of the one before it, the items taken in their order or from the last to the
/// first, and the ranges of each in their order. Elsewhere it may take the square of their number.
pub fn any_overlap<T: RangeOwner>(items: &[T]) -> bool
    ensures { result ≡ any_overlap (flat_map T.ranges items.now) }
{
    if is_ordered(items, false) || is_ordered(items, true) {
        return false;
    }
    any_overlaps_last(items, false) || any_overlaps_last(items, true) || any_pair_overlaps(items)
}

// The item at an index, which counts from the last item if it goes backwards.
fn item_at<T: RangeOwner>(items: &[T], index: usize, backwards: bool) -> &T
    requires { index < length items.now }
    ensures { result.now ≡ get_or (in_direction backwards items.now) index result.now }
{
    if backwards {
        &items[items.len() - 1 - index]
    } else {
        &items[index]
    }
}

// Whether each range begins at or past the ends of those before it, in a direction.
fn is_ordered<T: RangeOwner>(items: &[T], backwards: bool) -> bool
    ensures apart { IsTrue result → any_overlap (flat_map T.ranges items.now) ≡ false }
    ensures ascending { IsTrue (is_ascending (flat_map T.ranges (in_direction backwards items.now)))
        → result ≡ not (any_overlap (flat_map T.ranges items.now)) }
{
    let mut end = 0;
    for i in 0..items.len() {
        match end_after(end, item_at(items, i, backwards)) {
            Some(next) => end = next,
            None => return false,
        }
    }
    true
}

// The greatest of an end and those of the item's ranges, if these are in order after it.
fn end_after<T: RangeOwner>(end: u64, item: &T) -> Option<u64>
    ensures { result ≡ ordered_end end (T.ranges item.now) }
{
    let mut greatest = end;
    let mut index = 0;
    while let Some(range) = item.range_at(index) {
        if range.begin < greatest {
            return None;
        }
        greatest = greatest.max(range.end);
        index += 1;
    }
    Some(greatest)
}

// Whether some range overlaps the one that ends last of those before it, in a direction. Where
// ranges ascend in that direction and some overlap, there is one.
fn any_overlaps_last<T: RangeOwner>(items: &[T], backwards: bool) -> bool
    ensures found { IsTrue result → any_overlap (flat_map T.ranges items.now) ≡ true }
    ensures ascending { IsTrue (is_ascending (flat_map T.ranges (in_direction backwards items.now)))
        → result ≡ any_overlap (flat_map T.ranges items.now) }
{
    let mut last = TableRange { begin: 0, end: 0 };
    for i in 0..items.len() {
        match last_after(last, item_at(items, i, backwards)) {
            Some(next) => last = next,
            None => return true,
        }
    }
    false
}

// The one that ends last of a range and the item's, if none of the item's overlaps the one that
// ends last of those before it.
fn last_after<T: RangeOwner>(last: TableRange, item: &T) -> Option<TableRange>
    ensures { option_map range_part result ≡ last_apart (range_part last) (T.ranges item.now) }
{
    let mut latest = last;
    let mut index = 0;
    while let Some(range) = item.range_at(index) {
        if overlap(&latest, &range) {
            return None;
        }
        if latest.end < range.end {
            latest = range;
        }
        index += 1;
    }
    Some(latest)
}

// Whether some pair overlaps; it tries each. For ranges that ascend in no direction.
fn any_pair_overlaps<T: RangeOwner>(items: &[T]) -> bool
    requires forwards { is_ascending (flat_map T.ranges (in_direction false items.now)) ≡ false }
    requires backwards { is_ascending (flat_map T.ranges (in_direction true items.now)) ≡ false }
    ensures { result ≡ any_overlap (flat_map T.ranges items.now) }
{
    for (i, item) in items.iter().enumerate() {
        if any_overlaps_later(item, &items[i + 1..]) {
            return true;
        }
    }
    false
}

// Whether a range of the item overlaps a later one of it, or one of the later items.
fn any_overlaps_later<T: RangeOwner>(item: &T, later: &[T]) -> bool
    ensures { result ≡ any_overlaps_later (T.ranges item.now) (flat_map T.ranges later.now) }
{
    let mut index = 0;
    while let Some(range) = item.range_at(index) {
        index += 1;
        if overlaps_from(&range, item, index) || overlaps_any(&range, later) {
            return true;
        }
    }
    false
}

fn overlaps_any<T: RangeOwner>(range: &TableRange, items: &[T]) -> bool
    ensures { result ≡ list_any (overlap (range_part range.now)) (flat_map T.ranges items.now) }
{
    for item in items {
        if overlaps_from(range, item, 0) {
            return true;
        }
    }
    false
}

// Whether the range overlaps one of the item's from a place on.
fn overlaps_from<T: RangeOwner>(range: &TableRange, item: &T, from: usize) -> bool
    ensures { result ≡ list_any (overlap (range_part range.now)) (drop from (T.ranges item.now)) }
{
    let mut index = from;
    while let Some(other) = item.range_at(index) {
        if overlap(range, &other) {
            return true;
        }
        index += 1;
    }
    false
}
