//! A range of several units.

ghost use Rattle.std.specs.Prelude.{◌≡◌, ◌-◌};

use addr2line_spec::Range;

/// A range that each of the units from one number to another covers.
#[derive(Clone, Copy, Debug, PartialEq, Eq)]
pub struct SharedRange {
    pub(crate) range: Range,
    pub(crate) first: usize,
    pub(crate) last: usize,
}

impl SharedRange {
    // How many units come after the first.
    pub(crate) fn more(&self) -> usize
        ensures { result ≡ self.now.last - self.now.first }
    {
        self.last.saturating_sub(self.first)
    }
}
