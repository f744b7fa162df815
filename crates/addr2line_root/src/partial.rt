//! Units that others import (DWARF 5, 3.1.1).

ghost use Rattle.std.specs.Prelude.{◌≡◌};
ghost use Rattle.addr2line_ranges.specs.EntryViews.{entry_of};
ghost use Rattle.addr2line_ranges.specs.UnitRanges.{is_partial};

use addr2line_ranges::{
    DW_TAG_partial_unit, DebuggingInformationEntry, Reader, UnitHeader, UnitType,
};

/// Whether a unit is one that others import: by its header, or by its root's tag, which alone says
/// so before version 5.
pub fn is_partial<R: Reader>(header: &UnitHeader<R>, root: &DebuggingInformationEntry<R>) -> bool
    ensures { result
        ≡ is_partial header.now.kind (entry_of R.view R.Offset.count root.now).tag }
{
    matches!(header.type_(), UnitType::Partial) || root.tag() == DW_TAG_partial_unit
}
