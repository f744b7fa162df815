//! A range of units, with the least begin from it on.

ghost use Rattle.std.specs.Prelude.{◌≡◌, ◌≤◌, MatchOption};
ghost use Rattle.addr2line_index.specs.BoundedRanges.{IsCounted, IsNextPair};

use crate::shared_range::SharedRange;
use crate::unit_range::UnitRange;

/// A range of units among others.
#[derive(Clone, Copy, Debug, PartialEq, Eq)]
pub struct BoundedRange {
    pub(crate) shared: SharedRange,
    /// The least begin of it and of the ranges after it.
    pub(crate) least_begin: u64,
    /// How many pairs of a range and a unit there are up to its last.
    pub(crate) after: usize,
}

impl BoundedRange {
    // The first of its pairs from an index among all pairs on, and the index after it.
    pub(crate) fn pair_from(&self, from: usize) -> Option<(UnitRange, usize)>
        requires { IsCounted self.now }
        ensures { MatchOption result (self.now.after ≤ from) (IsNextPair from self.now) }
    {
        if self.after <= from {
            return None;
        }
        let SharedRange { range, first, last } = self.shared;
        let more = last.saturating_sub(first);
        let later = more.min(self.after - from - 1);
        let unit = first + (more - later);
        Some((UnitRange { range, unit }, self.after - later))
    }
}
