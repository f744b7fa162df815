//! The line number program that was run last for a unit's ranges. Units in a row may name the same
//! one: it is run once, and they share the ranges of its lines, and the lines themselves where
//! their directories and names are the same.

ghost use Rattle.std.specs.Prelude.{◌≡◌, Ok, Some, None, IfOk, IfErr, MatchOption};
ghost use Rattle.addr2line_ranges.specs.Calls.{ReturnsOrNoMemory};
ghost use Rattle.addr2line_ranges.specs.Error.TheVariants.{Memory};
ghost use Rattle.addr2line_ranges.specs.ProbedLists.{after_counter};
ghost use Rattle.addr2line_root.specs.LastPrograms.{program_key, unit_texts, IsRunFor, SharesLines};

use crate::counted_unit::CountedUnit;
use crate::unit_lines::{UnitLines, share_lines, share_run};
use crate::unit_texts::UnitTexts;
use addr2line_ranges::{
    Counters, Error, Format, Probes, Range, Reader, ReaderOffset, UnitRef, share,
};
use std::marker::Model;
use std::rc::Rc;

/// What the ranges of a program's lines depend on in its file: where its header begins, the size of
/// an address, which headers up to version 4 don't say, and how the unit finds texts by an index.
#[derive(Clone, Copy, Debug, PartialEq, Eq)]
pub struct ProgramKey {
    pub(crate) offset: u64,
    pub(crate) address_size: u8,
    pub(crate) format: Format,
    pub(crate) str_offsets_base: u64,
}

// What a unit's program depends on that the unit says, if it has one.
fn program_key<R: Reader>(unit: &UnitRef<'_, R>) -> Option<ProgramKey>
    ensures { result ≡ program_key unit.now.facts }
{
    let unit = unit.unit;
    let encoding = unit.header.encoding();
    match &unit.line_program {
        Some(header) => Some(ProgramKey {
            offset: header.offset().0.into_u64(),
            address_size: encoding.address_size,
            format: encoding.format,
            str_offsets_base: unit.str_offsets_base.0.into_u64(),
        }),
        None => None,
    }
}

/// A program that was run for a unit: the ranges of its lines, none where they are refused, and the
/// lines. A unit without a program has none of both.
pub struct ProgramRun<R: Reader> {
    key: Option<ProgramKey>,
    texts: UnitTexts<R>,
    ranges: Rc<Vec<Range>>,
    lines: Result<UnitLines, Error>,
}

impl<R: Reader> Drop for ProgramRun<R> {
    fn drop(self) {
        let ProgramRun {
            key: _,
            texts: _,
            ranges: _,
            lines: _,
        } = self;
    }
}

impl<R: Reader> Model for ProgramRun<R> {
    ghost use Rattle.addr2line_root.specs.LastPrograms.{ProgramRun as Run};

    ghost Value = { Run };

    ghost view = { λ p. record {
      key = p.key;
      texts = p.texts;
      ranges = p.ranges.value.items;
      lines = p.lines;
    } };
}

impl<R: Reader> ProgramRun<R> {
    // That of a unit with these ranges and lines, which it shares. The only refusal is out of
    // memory.
    pub(crate) fn new(
        unit: &UnitRef<'_, R>,
        ranges: &Rc<Vec<Range>>,
        lines: &Result<UnitLines, Error>,
    ) -> Result<Self, Error>
        ensures { ReturnsOrNoMemory result (Ok (record {
          key = program_key unit.now.facts;
          texts = unit_texts unit.now.facts;
          ranges = ranges.now.value.items;
          lines = lines.now;
        })) }
    {
        Ok(ProgramRun {
            key: program_key(unit),
            texts: UnitTexts::of_unit(unit)?,
            ranges: share(ranges)?,
            lines: share_lines(lines)?,
        })
    }

    // The ranges of its lines.
    pub(crate) fn ranges(&self) -> &Rc<Vec<Range>>
        ensures { result.now.value.items ≡ self.now.ranges }
    {
        &self.ranges
    }

    // Its lines for another unit whose program depends on the same, and their run with them; none
    // where the unit has another directory or name.
    pub(crate) fn lines_for(
        &self,
        unit: &mut CountedUnit<R>,
    ) -> Result<Option<Result<UnitLines, Error>>, Error>
        ensures lines { IfOk result (λ lines. SharesLines self.now lines unit.old unit.new) }
        ensures refusal { IfErr result (λ e. e ≡ Memory) }
    {
        if !self.texts.are_of(&unit.unit_ref()) {
            return Ok(None);
        }
        Ok(Some(share_run(&self.lines, unit)?))
    }
}

/// The program of a file that was run last for ranges, if one was, and the maker of the counters of
/// looks at lines, since units share these.
pub struct LastProgram<R: Reader> {
    counters: Counters,
    program: Option<ProgramRun<R>>,
}

impl<R: Reader> Drop for LastProgram<R> {
    fn drop(self) {
        let LastProgram {
            counters: _,
            program: _,
        } = self;
    }
}

impl<R: Reader> Model for LastProgram<R> {
    ghost use Rattle.addr2line_root.specs.LastPrograms.{LastProgram as Last};

    ghost Value = { Last };

    ghost view = { λ l. record { counters = l.counters; program = l.program } };
}

impl<R: Reader> LastProgram<R> {
    /// None yet, and no counter was made. It takes no memory.
    pub fn new() -> Self
        ensures program { result.program ≡ None }
        ensures counters { result.counters.made ≡ 0 }
    {
        LastProgram {
            counters: Counters::new(),
            program: None,
        }
    }

    /// One more counter of looks at the lines of a unit.
    pub fn counter(&mut self) -> Probes
        ensures counter { result ≡ record { name = self.old.counters.name; count = 0 } }
        ensures made { self.new
            ≡ record self.old { counters = after_counter self.old.counters } }
    {
        self.counters.counter()
    }

    // Its run, if the program of a unit depends on the same.
    pub(crate) fn run_for(&self, unit: &UnitRef<'_, R>) -> Option<&ProgramRun<R>>
        ensures { MatchOption result (Unit {0})
            (λ p. IsRunFor unit.now.facts self.now.program p.now) }
    {
        let key = program_key(unit);
        match &self.program {
            Some(program) if program.key == key => Some(program),
            _ => None,
        }
    }

    // Makes this the last one.
    pub(crate) fn keep(&mut self, program: ProgramRun<R>)
        ensures { self.new ≡ record self.old { program = Some program } }
    {
        self.program = Some(program);
    }
}
