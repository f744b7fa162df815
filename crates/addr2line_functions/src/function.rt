//! A function of a unit.

ghost use Rattle.std.specs.Prelude.{◌≡◌};
ghost use Rattle.addr2line_ranges.specs.Functions.{ranges_of_function};
ghost use Rattle.addr2line_functions.specs.CountedFunctions.{no_depth};

use crate::numbered_range::HasRanges;
use gimli_units_entries::{Range, ReaderOffset, UnitOffset};
use std::marker::Model;
use std::snapshot::Snapshot;

/// A function of a unit that has a range: the offset of its entry (DWARF 5, 3.3). Contracts see its
/// ranges too.
#[derive(Drop)]
pub struct Function<O: ReaderOffset> {
    pub(crate) offset: UnitOffset<O>,
    // In order of appearance. It takes no bytes: `Functions` has the ranges of all.
    pub(crate) ranges: Snapshot<Vec<Range>>,
}

impl<O: ReaderOffset> Model for Function<O> {
    ghost use Rattle.addr2line_ranges.specs.Functions.{Function as FunctionPart};

    ghost Value = { FunctionPart };

    ghost view = { λ f. record { offset = O.count f.offset.0; ranges = f.ranges.value.items } };
}

impl<O: ReaderOffset> Function<O> {
    /// The offset of its entry in the unit.
    pub fn offset(&self) -> UnitOffset<O>
        ensures { O.count result.0 ≡ self.now.offset }
    {
        self.offset
    }
}

impl<O: ReaderOffset> HasRanges for Function<O> {
    ghost depth = { no_depth };

    ghost ranges = { ranges_of_function };
}
