//! Tests of ranges.

ghost use Rattle.std.specs.Prelude.{◌≡◌, map};
ghost use Rattle.std.specs.List.{list_any};
ghost use Rattle.linemap_meaning.specs.Conditions.{is_empty_range, is_out_of_bounds, is_within, overlap, range_out_of_bounds};
ghost use Rattle.linemap_meaning.specs.TableViews.{range_part};

use linemap_meaning::table::TableRange;

/// Whether two ranges share an address.
pub fn overlap(range: &TableRange, other: &TableRange) -> bool
    ensures { result ≡ overlap (range_part range.now) (range_part other.now) }
{
    range.begin < other.end && other.begin < range.end
}

/// Whether the range lies in the whole.
pub fn is_within(range: &TableRange, whole: &TableRange) -> bool
    ensures { result ≡ is_within (range_part range.now) (range_part whole.now) }
{
    whole.begin <= range.begin && range.end <= whole.end
}

/// Whether a range ends at or below its begin.
pub fn has_empty_range(ranges: &[TableRange]) -> bool
    ensures { result ≡ list_any is_empty_range (map range_part ranges.now) }
{
    ranges.iter().any(|range| range.end <= range.begin)
}

/// Whether an address is outside 1 to 2^64 - 3.
pub fn is_out_of_bounds(address: u64) -> bool
    ensures { result ≡ is_out_of_bounds address }
{
    address < 1 || address > u64::MAX - 2
}

/// Whether the begin or end of a range is outside 1 to 2^64 - 3.
pub fn has_range_out_of_bounds(ranges: &[TableRange]) -> bool
    ensures { result ≡ list_any range_out_of_bounds (map range_part ranges.now) }
{
    ranges.iter().any(|range| is_out_of_bounds(range.begin) || is_out_of_bounds(range.end))
}
