//! The ranges that were read last, which units in a row may share.

ghost use Rattle.std.specs.Prelude.{◌≡◌};
ghost use Rattle.addr2line_ranges.specs.DwarfFiles.{DwarfFile};
ghost use Rattle.addr2line_ranges.specs.UnitFacts.{UnitInFile};
ghost use Rattle.addr2line_root.specs.LastRanges.{AreLastOf, AreLastFor, maker_of, counter_of, after_one_counter};

use crate::last_program::LastProgram;
use addr2line_ranges::{LastList, Probes, Reader};
use std::marker::Model;

/// The ranges of a file that were read last, of a range list and of a line number program. A unit
/// that names the same shares them.
pub struct LastRanges<R: Reader> {
    pub(crate) list: LastList,
    pub(crate) program: LastProgram<R>,
}

impl<R: Reader> Drop for LastRanges<R> {
    fn drop(self) {
        let LastRanges {
            list: _,
            program: _,
        } = self;
    }
}

impl<R: Reader> Model for LastRanges<R> {
    ghost use Rattle.addr2line_root.specs.LastRanges.{LastRanges as Last};

    ghost Value = { Last };

    ghost view = { λ l. record { list = l.list; program = l.program } };
}

impl<R: Reader> LastRanges<R> {
    /// None yet, and no counter was made. It takes no memory.
    pub fn new() -> Self
        ensures files { (file : DwarfFile) → AreLastOf file result }
        ensures units { (unit : UnitInFile) → AreLastFor unit result }
        ensures counters { (maker_of result).made ≡ 0 }
    {
        LastRanges {
            list: LastList::new(),
            program: LastProgram::new(),
        }
    }

    /// One more counter, of looks at what is kept of a unit. All units that may share what was read
    /// last have counters of this name, each its own.
    pub fn counter(&mut self) -> Probes
        ensures counter { result ≡ record { name = counter_of self.old; count = 0 } }
        ensures made { self.new ≡ after_one_counter self.old }
    {
        self.program.counter()
    }
}
