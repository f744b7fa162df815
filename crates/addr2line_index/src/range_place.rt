//! Places among the ranges of all units.

ghost use Rattle.std.specs.Prelude.{◌≡◌};

/// An index among the ranges of all units, and where a search for the next range looks first.
/// Wherever that is, the search finds the same.
#[derive(Clone, Copy, Debug)]
pub struct RangePlace {
    pub(crate) index: usize,
    // The number of an entry of the ranges by their ends.
    pub(crate) entry: usize,
}

impl RangePlace {
    /// The place of an index. The first search from it on is a bisection.
    pub fn at(index: usize) -> Self
        ensures { result.index ≡ index }
    {
        RangePlace { index, entry: 0 }
    }

    /// Its index.
    pub fn index(self) -> usize
        ensures { result ≡ self.index }
    {
        self.index
    }
}
