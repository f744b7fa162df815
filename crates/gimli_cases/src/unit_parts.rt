//! Parts of units, and offsets in them (DWARF 5, 7.5).

use crate::answer::Answer;
use crate::case::Case;
use crate::units;
use gimli_core::{Error, Reader, ReaderOffset};
use gimli_units::{DebugInfo, DebugInfoOffset, OffsetInSection, OffsetInUnit, UnitOffset};

/// Answers a question about the unit at the offset. Between the base and the index are bytes of its
/// entries; others come after the index and before it. Then: whether the index is an offset of the
/// entries, its place in the section, and the offset in the unit of the place that the value is.
pub fn answer<R: Reader>(case: &Case, section: R, out: &mut Answer) {
    let unit = units::unit(case, &DebugInfo::from(section));
    let places = case.base_and_index::<R::Offset>();
    match (unit, places, R::Offset::from_u64(case.value)) {
        (Ok(unit), Ok((base, index)), Ok(place)) => {
            let (begin, end) = (UnitOffset(base), UnitOffset(index));
            if begin.0.into_u64() <= end.0.into_u64() {
                part(&unit.range(begin..end), out);
            }
            part(&unit.range_from(end..), out);
            part(&unit.range_to(..end), out);
            out.word(&end.is_in_bounds(&unit));
            out.word(&end.to_debug_info_offset(&unit));
            out.code(&DebugInfoOffset(place).to_unit_offset(&unit));
        }
        (Err(error), _, _) => out.refuse(error),
        (_, Err(error), _) => out.refuse(error),
        (_, _, Err(error)) => out.refuse(error),
    }
}

// The bytes of a part.
fn part<R: Reader>(part: &Result<R, Error>, out: &mut Answer) {
    match part {
        Ok(part) => out.bytes(part),
        Err(error) => out.refuse(*error),
    }
    out.text(", ");
}
