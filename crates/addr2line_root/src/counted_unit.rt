//! A unit, and how often its line number program was run.

ghost use Rattle.std.specs.Prelude.{◌≡◌, OnOk, OnErr, IfErr};
ghost use Rattle.addr2line_ranges.specs.Error.TheVariants.{Memory};
ghost use Rattle.gimli_dwarf.specs.WholeUnits.{IsBareIn, whole_unit};
ghost use Rattle.addr2line_root.specs.CountedRuns.{after_run};

use crate::owned_unit::OwnedUnit;
use addr2line_index::Tally;
use addr2line_ranges::{Error, Reader, UnitRef};
use std::alloc::Global;
use std::marker::Model;
use std::mem::size_of;

// It takes no byte.
const _: () = prove!(size_of::<Runs>() == 0);

/// How often a unit's line number program was run. It takes no bytes and has no greatest value. A
/// counter is made with the unit that it is of, and stays with it.
#[derive(Drop)]
pub struct Runs {
    tally: Tally,
}

impl Model for Runs {
    ghost use Rattle.addr2line_root.specs.CountedRuns.{RunCount};

    ghost Value = { RunCount };

    ghost view = { λ r. record { name = r.tally.name; count = r.tally.count } };
}

/// A unit of a file, and the counter of the runs of its line number program. They can't be taken
/// apart, and the counter never goes back: the unit's lines are read over this value alone.
pub struct CountedUnit<R: Reader> {
    unit: OwnedUnit<R>,
    runs: Runs,
}

impl<R: Reader> Drop for CountedUnit<R> {
    fn drop(self) {
        let CountedUnit { unit: _, runs: _ } = self;
    }
}

impl<R: Reader> Model for CountedUnit<R> {
    ghost use Rattle.addr2line_root.specs.CountedRuns.{CountedUnit as Counted};

    ghost Value = { Counted };

    ghost view = { λ u. record { unit = u.unit; runs = u.runs } };
}

impl<R: Reader> CountedUnit<R> {
    /// A unit whose program was never run.
    pub fn new(unit: OwnedUnit<R>) -> Self
        ensures unit { result.unit ≡ unit }
        ensures runs { result.runs.count ≡ 0 }
    {
        CountedUnit {
            unit,
            runs: Runs {
                tally: Tally::new(),
            },
        }
    }

    /// The unit.
    pub fn unit(&self) -> &OwnedUnit<R>
        ensures { result.now ≡ self.now.unit }
    {
        &self.unit
    }

    /// The same, borrowed.
    pub fn unit_ref(&self) -> UnitRef<'_, R>
        ensures { result ≡ self.now.unit }
    {
        self.unit.unit_ref()
    }

    /// How often its program was run.
    pub fn runs(&self) -> &Runs
        ensures { result.now ≡ self.now.runs }
    {
        &self.runs
    }

    // Makes a bare unit whole. The only refusal is out of memory, and then it is bare still.
    pub(crate) fn make_whole(&mut self, alloc: Global) -> Result<(), Error>
        requires { IsBareIn self.old.unit.file self.old.unit.facts }
        ensures ok { OnOk result (self.new ≡ record self.old { unit = whole_unit self.old.unit }) }
        ensures err { OnErr result (self.new ≡ self.old) }
        ensures refusal { IfErr result (λ e. e ≡ Memory) }
    {
        self.unit.make_whole(alloc)
    }

    // Counts a run of the program, if there is one.
    pub(crate) fn count_run(&mut self)
        ensures { self.new ≡ after_run self.old }
    {
        let facts = self.unit.unit();
        match &facts.line_program {
            Some(_) => self.runs.tally.raise(),
            None => {}
        }
    }
}
