//! A call that is inlined into a function.

ghost use Rattle.std.specs.Prelude.{◌≡◌, option_map};
ghost use Rattle.addr2line_ranges.specs.InlinedCalls.{ranges_of_call};
ghost use Rattle.addr2line_functions.specs.CountedFunctions.{depth_of_call};

use crate::numbered_range::HasRanges;
use gimli_units_entries::{Range, Reader, UnitOffset};
use std::marker::Model;
use std::snapshot::Snapshot;

/// A call of a function whose body is in that of another (DWARF 5, 3.3.8). Contracts see its depth
/// and its ranges too.
pub struct Call<R: Reader> {
    // How many other calls it is in. It takes no bytes: `FunctionCalls` has it with the ranges.
    pub(crate) depth: Snapshot<usize>,
    pub(crate) offset: UnitOffset<R::Offset>,
    // In order of appearance. It takes no bytes: `FunctionCalls` has the ranges of all.
    pub(crate) ranges: Snapshot<Vec<Range>>,
    pub(crate) name: Option<R>,
    pub(crate) file: Option<u64>,
    pub(crate) line: u32,
    pub(crate) column: u32,
}

impl<R: Reader> Drop for Call<R> {
    fn drop(self) {
        let Call {
            depth: _,
            offset: _,
            ranges: _,
            name: _,
            file: _,
            line: _,
            column: _,
        } = self;
    }
}

impl<R: Reader> Model for Call<R> {
    ghost use Rattle.std.specs.Prelude.{option_map};
    ghost use Rattle.addr2line_ranges.specs.InlinedCalls.{Call as CallPart};

    ghost Value = { CallPart };

    ghost view = { λ c. record {
      depth = c.depth.value;
      offset = R.Offset.count c.offset.0;
      ranges = c.ranges.value.items;
      name = option_map R.view c.name;
      file = c.file;
      line = c.line;
      column = c.column;
    } };
}

impl<R: Reader> Call<R> {
    /// The offset of its entry in the unit.
    pub fn offset(&self) -> UnitOffset<R::Offset>
        ensures { R.Offset.count result.0 ≡ self.now.offset }
    {
        self.offset
    }

    /// The name of the function that is called.
    pub fn name(&self) -> Option<&R>
        ensures { option_map (λ r. R.view r.now) result ≡ self.now.name }
    {
        self.name.as_ref()
    }

    /// The number of the file that calls.
    pub fn file(&self) -> Option<u64>
        ensures { result ≡ self.now.file }
    {
        self.file
    }

    /// The line that calls; 0 where it isn't known.
    pub fn line(&self) -> u32
        ensures { result ≡ self.now.line }
    {
        self.line
    }

    /// The column that calls; 0 where it isn't known.
    pub fn column(&self) -> u32
        ensures { result ≡ self.now.column }
    {
        self.column
    }
}

impl<R: Reader> HasRanges for Call<R> {
    ghost depth = { depth_of_call };

    ghost ranges = { ranges_of_call };
}
