//! The ranges of a range list, read to its end.

ghost use Rattle.gimli_lines_rows.specs.Calls.{ReturnsAsOrNoMemory};
ghost use Rattle.gimli_dwarf.specs.ListSections.{ranges_to_come};
ghost use Rattle.addr2line_ranges.specs.RangeListReading.{ranges_or_refusal, listed_ranges};

use gimli_dwarf::{RngListIter, UnitRef};
use gimli_lines_rows::{Error, Range, RangeListsOffset, Reader};
use std::alloc::Global;

// All ranges that are to come, or the first refusal among them.
fn all_ranges<R: Reader>(alloc: Global, mut list: RngListIter<R>) -> Result<Vec<Range>, Error>
    ensures { ReturnsAsOrNoMemory (λ v. v.items) result
        (ranges_or_refusal (ranges_to_come R.Offset.limit list)) }
{
    let mut ranges = Vec::new(alloc);
    while let Some(range) = list.next()? {
        ranges.push(range)?;
    }
    Ok(ranges)
}

// The ranges of the list at an offset, or the first refusal.
pub(crate) fn listed_ranges<R: Reader>(
    alloc: Global,
    unit: &UnitRef<'_, R>,
    offset: RangeListsOffset<R::Offset>,
) -> Result<Vec<Range>, Error>
    ensures { ReturnsAsOrNoMemory (λ v. v.items) result
        (listed_ranges unit.now (R.Offset.count offset.0)) }
{
    all_ranges(alloc, unit.ranges(offset)?)
}
