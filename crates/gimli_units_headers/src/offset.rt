//! Offsets of `.debug_info`, counted from the start of the section or of a unit.

ghost use Rattle.std.specs.Prelude.{◌≡◌, ◌+◌, ◌≤◌, ℕ, option_map, IfSome, Some};
ghost use Rattle.gimli_units_headers.specs.UnitHeaders.{length_including_self};
ghost use Rattle.gimli_units_headers.specs.UnitOffsets.{is_in_bounds, to_unit_offset, to_section_offset};

use crate::header::UnitHeader;
use gimli_core_base::ReaderOffset;
use gimli_core_readers::{DebugInfoOffset, Reader, UnitOffset};

/// An offset of the section, which may be one of a unit.
pub trait OffsetInSection<R: Reader> {
    /// The number of the offset.
    ghost number: { Self → ℕ };

    /// The same place counted from the start of the unit, none where it isn't among the unit's
    /// entries.
    fn to_unit_offset(&self, unit: &UnitHeader<R>) -> Option<UnitOffset<R::Offset>>
        ensures value { option_map (λ offset. R.Offset.count offset.0) result
            ≡ to_unit_offset unit.now (number self.now) }
        // Counted from the start of the section again it is the same number.
        ensures back { IfSome result
            (λ offset. unit.now.offset + R.Offset.count offset.0 ≡ number self.now) };
}

impl<R: Reader> OffsetInSection<R> for DebugInfoOffset<R::Offset> {
    ghost number = { λ offset. R.Offset.count offset.0 };

    fn to_unit_offset(&self, unit: &UnitHeader<R>) -> Option<UnitOffset<R::Offset>> {
        let offset = UnitOffset(self.0.checked_sub(unit.offset().0)?);
        if unit.holds(&offset) {
            Some(offset)
        } else {
            None
        }
    }
}

/// An offset of a unit, which is also one of the section.
pub trait OffsetInUnit<R: Reader> {
    /// The number of the offset.
    ghost number: { Self → ℕ };

    /// Whether the offset is among the unit's entries.
    fn is_in_bounds(&self, unit: &UnitHeader<R>) -> bool
        ensures { result ≡ is_in_bounds unit.now (number self.now) };

    /// The same place counted from the start of the section, none where that is no offset.
    fn to_debug_info_offset(&self, unit: &UnitHeader<R>) -> Option<DebugInfoOffset<R::Offset>>
        ensures value { option_map (λ offset. R.Offset.count offset.0) result
            ≡ to_section_offset R.Offset.limit unit.now (number self.now) }
        // Every place of the unit, its end included, has one.
        ensures within { number self.now ≤ length_including_self unit.now
            → option_map (λ offset. R.Offset.count offset.0) result
            ≡ Some (unit.now.offset + number self.now) };
}

impl<R: Reader> OffsetInUnit<R> for UnitOffset<R::Offset> {
    ghost number = { λ offset. R.Offset.count offset.0 };

    fn is_in_bounds(&self, unit: &UnitHeader<R>) -> bool {
        unit.holds(self)
    }

    fn to_debug_info_offset(&self, unit: &UnitHeader<R>) -> Option<DebugInfoOffset<R::Offset>> {
        unit.section_offset_of(self)
    }
}
