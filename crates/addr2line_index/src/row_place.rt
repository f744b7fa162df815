//! Where a row is among the rows of a unit.

/// The index of a sequence among those by their starts, and the index of a row of it.
#[derive(Clone, Copy, Debug, PartialEq, Eq)]
pub struct RowPlace {
    pub(crate) sequence: usize,
    pub(crate) row: usize,
}
