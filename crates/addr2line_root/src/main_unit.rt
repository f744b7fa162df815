//! A unit of a main file, of which most is read when it is asked for.

ghost use Rattle.std.specs.Prelude.{◌≡◌, ◌≢◌, true, false, None, Ok, Err, OnOk, OnErr, IfOk, IfErr, MatchOption};
ghost use Rattle.addr2line_ranges.specs.Calls.{ReturnsOrNoMemory};
ghost use Rattle.addr2line_ranges.specs.Error.TheVariants.{Memory};
ghost use Rattle.addr2line_ranges.specs.UnitFacts.{in_file};
ghost use Rattle.addr2line_ranges.specs.UnitLines.{lines_of_unit};
ghost use Rattle.addr2line_index.specs.LineIndexes.{counted_lines};
ghost use Rattle.gimli_dwarf.specs.WholeUnits.{IsBareIn};
ghost use Rattle.addr2line_root.specs.CountedRuns.{CountsRun};
ghost use Rattle.addr2line_root.specs.MainUnits.{unit_of_kept};

use crate::counted_unit::{CountedUnit, Runs};
use crate::owned_unit::OwnedUnit;
use crate::unit_lines::UnitLines;
use addr2line_ranges::{Dwarf, Error, Probes, Reader, Unit, UnitHeader};
use std::alloc::Global;
use std::marker::Model;
use std::rc::Rc;

/// A unit of a file, and the counter of the runs of its line number program. It is whole, or it is
/// bare: then its declarations and the header of its program were checked, and aren't kept. Before
/// its entries or its lines are read it is made whole. Contracts see the whole unit in both cases.
/// A unit that has a split part is whole.
pub struct MainUnit<R: Reader> {
    pub(crate) counted: CountedUnit<R>,
    is_whole: bool,
}

impl<R: Reader> Drop for MainUnit<R> {
    fn drop(self) {
        let MainUnit {
            counted: _,
            is_whole: _,
        } = self;
    }
}

impl<R: Reader> Model for MainUnit<R> {
    ghost use Rattle.addr2line_root.specs.MainUnits.{MainUnit as Main, counted_of_kept, IsKeptUnit};

    ghost Value = { Main };

    ghost view = { λ u. record {
      counted = counted_of_kept u.is_whole u.counted;
      is_whole = u.is_whole;
    } };

    ghost invariant = { λ u. IsKeptUnit u.is_whole u.counted.unit };
}

impl<R: Reader> MainUnit<R> {
    /// A unit that is whole, or the one of which this bare one is kept. Its program was never run.
    /// The only refusal is out of memory.
    pub fn new(
        alloc: Global,
        sections: Rc<Dwarf<R>>,
        unit: Unit<R>,
        is_whole: bool,
    ) -> Result<Self, Error>
        requires { is_whole ≡ false → IsBareIn sections.value.file unit }
        ensures unit { IfOk result (λ u.
            u.counted.unit ≡ unit_of_kept is_whole (in_file sections.value.file unit)) }
        ensures whole { IfOk result (λ u. is_whole ≡ true → u.is_whole ≡ true) }
        ensures runs { IfOk result (λ u. u.counted.runs.count ≡ 0) }
        ensures refusal { IfErr result (λ e. e ≡ Memory) }
    {
        let has_split_part = unit.dwo_id.is_some();
        let Ok(unit) = OwnedUnit::new(alloc, sections, unit) else {
            return Err(Error::Memory);
        };
        let mut counted = CountedUnit::new(unit);
        if has_split_part && !is_whole {
            counted.make_whole(alloc)?;
            return Ok(MainUnit {
                counted,
                is_whole: true,
            });
        }
        Ok(MainUnit { counted, is_whole })
    }

    /// Makes it whole. The only refusal is out of memory.
    pub fn make_whole(&mut self, alloc: Global) -> Result<(), Error>
        ensures unit { self.new.counted ≡ self.old.counted }
        ensures ok { OnOk result (self.new.is_whole ≡ true) }
        ensures err { OnErr result (self.new ≡ self.old) }
        ensures refusal { IfErr result (λ e. e ≡ Memory) }
    {
        if self.is_whole {
            return Ok(());
        }
        self.counted.make_whole(alloc)?;
        self.is_whole = true;
        Ok(())
    }

    /// The unit, if it is whole. One that isn't has no split part.
    pub fn whole(&self) -> Option<&OwnedUnit<R>>
        ensures { MatchOption result
            ((self.now.is_whole ≡ false) × (self.now.counted.unit.facts.dwo_id ≡ None))
            (λ u. u.now ≡ self.now.counted.unit) }
    {
        if self.is_whole {
            Some(self.counted.unit())
        } else {
            None
        }
    }

    /// The unit's header.
    pub fn header(&self) -> &UnitHeader<R>
        ensures { result.now ≡ self.now.counted.unit.facts.header }
    {
        let unit = self.counted.unit();
        let facts = unit.unit();
        &facts.header
    }

    /// How often its program was run.
    pub fn runs(&self) -> &Runs
        ensures { result.now ≡ self.now.counted.runs }
    {
        self.counted.runs()
    }

    /// Makes it whole, and reads its lines: `UnitLines::run`.
    pub fn read_lines(
        &mut self,
        alloc: Global,
        probes: &Probes,
    ) -> Result<Result<UnitLines, Error>, Error>
        ensures lines { ReturnsOrNoMemory result
            (Ok (counted_lines probes.now.name (lines_of_unit self.old.counted.unit))) }
        ensures answer { IfOk result (λ lines. lines ≢ Err Memory) }
        ensures counted { CountsRun result self.old.counted self.new.counted }
        ensures whole { self.old.is_whole ≡ true → self.new.is_whole ≡ true }
        ensures refusal { IfErr result (λ e. e ≡ Memory) }
    {
        self.make_whole(alloc)?;
        UnitLines::run(alloc, &mut self.counted, probes)
    }
}
