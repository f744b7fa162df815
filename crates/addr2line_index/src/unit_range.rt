//! A range of addresses with its unit.

use addr2line_spec::Range;

/// A range of addresses that a unit covers, and the unit's number, from 0 on.
#[derive(Clone, Copy, Debug, PartialEq, Eq)]
pub struct UnitRange {
    pub range: Range,
    pub unit: usize,
}
