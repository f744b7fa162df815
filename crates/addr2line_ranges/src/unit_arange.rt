//! A range of `.debug_aranges` with its unit.

use gimli_lines_rows::Range;

/// A range of addresses, and the offset of the unit to which a set gives it.
#[derive(Clone, Copy, Debug, PartialEq, Eq)]
pub struct UnitArange {
    pub(crate) offset: u64,
    pub(crate) range: Range,
}
