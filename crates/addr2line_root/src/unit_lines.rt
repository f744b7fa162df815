//! The lines of a unit. No line number program of a unit is run elsewhere.

ghost use Rattle.std.specs.Prelude.{◌≡◌, ◌≢◌, Ok, Err, OnOk, IfOk, IfErr, map};
ghost use Rattle.gimli_lines_rows.specs.Calls.{ReturnsAsOrNoMemory, ReturnsOrNoMemory};
ghost use Rattle.gimli_lines_rows.specs.Error.TheVariants.{Memory};
ghost use Rattle.addr2line_index.specs.LineIndexes.{counted_lines};
ghost use Rattle.addr2line_index.specs.Lines.{range_of};
ghost use Rattle.addr2line_index.specs.UnitRanges.{ranges_of_lines};
ghost use Rattle.addr2line_index.specs.UnitLines.{lines_of_program, lines_of_unit};
ghost use Rattle.addr2line_root.specs.CountedRuns.{CountsRun};

use crate::counted_unit::CountedUnit;
use crate::files::texts_of_files;
use crate::rows::{BuilderSink, run_program};
use addr2line_index::{LineIndex, LineSequence, Lines, LinesBuilder, Probes};
use gimli_dwarf::UnitRef;
use gimli_lines_rows::{Error, LineProgramHeader, Range, Reader};
use std::alloc::Global;
use std::marker::Model;

/// The lines of a unit, indexed for searches, which only a run of its line number program makes.
pub struct UnitLines {
    index: LineIndex,
}

impl Drop for UnitLines {
    fn drop(self) {
        let UnitLines { index: _ } = self;
    }
}

impl Model for UnitLines {
    ghost use Rattle.addr2line_index.specs.LineIndexes.{CountedLines};

    ghost Value = { CountedLines };

    ghost view = { λ u. u.index };
}

impl UnitLines {
    /// Runs the line number program of a unit, and counts that (DWARF 5, 6.2). Its lines are the
    /// sequences of the program, and the texts of its files by their numbers; none where the unit
    /// has no program, and then no run is counted. This counter counts looks at them. A program is
    /// refused by its fault, else by the first of its files whose text can't be read; that is kept
    /// as lines are, and counted. The only refusal of the call is out of memory, and then no run
    /// is. Takes memory for the rows and for the texts, and where the program defines files for a
    /// second header that has them too.
    pub fn run<R: Reader>(
        alloc: Global,
        unit: &mut CountedUnit<R>,
        probes: &Probes,
    ) -> Result<Result<Self, Error>, Error>
        ensures lines { ReturnsOrNoMemory result
            (Ok (counted_lines probes.now.name (lines_of_unit unit.old.unit))) }
        ensures answer { IfOk result (λ lines. lines ≢ Err Memory) }
        ensures counted { CountsRun result unit.old unit.new }
        ensures refusal { IfErr result (λ e. e ≡ Memory) }
    {
        let read = lines_of_unit(alloc, &unit.unit_ref());
        let lines = lines_to_keep(alloc, read, probes)?;
        unit.count_run();
        Ok(lines)
    }

    /// The same run, with the ranges of the lines' sequences, in the order of the program; none
    /// where the lines are refused.
    pub fn run_for_ranges<R: Reader>(
        alloc: Global,
        unit: &mut CountedUnit<R>,
        probes: &Probes,
    ) -> Result<LinesWithRanges, Error>
        ensures lines { ReturnsAsOrNoMemory (λ r. r.lines) result
            (Ok (counted_lines probes.now.name (lines_of_unit unit.old.unit))) }
        ensures ranges { IfOk result
            (λ r. r.ranges.items ≡ ranges_of_lines (lines_of_unit unit.old.unit)) }
        ensures answer { IfOk result (λ r. r.lines ≢ Err Memory) }
        ensures counted { CountsRun result unit.old unit.new }
        ensures refusal { IfErr result (λ e. e ≡ Memory) }
    {
        let lines = lines_of_unit(alloc, &unit.unit_ref());
        let ranges = ranges_of_lines(alloc, &lines)?;
        let lines = lines_to_keep(alloc, lines, probes)?;
        unit.count_run();
        Ok(LinesWithRanges { ranges, lines })
    }

    /// The lines, to be searched.
    pub fn index(&self) -> &LineIndex
        ensures { result.now ≡ self.now }
    {
        &self.index
    }

    // The same lines once more.
    fn share(&self) -> Result<Self, Error>
        ensures { ReturnsOrNoMemory result (Ok self.now) }
    {
        Ok(UnitLines {
            index: self.index.share()?,
        })
    }
}

/// Lines, or the refusal of them, with the ranges of their sequences.
#[derive(Drop)]
pub struct LinesWithRanges {
    pub ranges: Vec<Range>,
    pub lines: Result<UnitLines, Error>,
}

// The ranges of sequences.
fn ranges_of_sequences(alloc: Global, sequences: &[LineSequence]) -> Result<Vec<Range>, Error>
    ensures { ReturnsAsOrNoMemory (λ v. v.items) result (Ok (map range_of sequences.now)) }
{
    let mut ranges = Vec::new(alloc);
    for sequence in sequences {
        ranges.push(sequence.range())?;
    }
    Ok(ranges)
}

// Those of lines. Refused lines have none.
fn ranges_of_lines(alloc: Global, lines: &Result<Lines, Error>) -> Result<Vec<Range>, Error>
    ensures { ReturnsAsOrNoMemory (λ v. v.items) result (Ok (ranges_of_lines lines.now)) }
{
    match lines {
        Ok(lines) => ranges_of_sequences(alloc, lines.sequences()),
        Err(_) => Ok(Vec::new(alloc)),
    }
}

// The same lines once more, or the refusal of them. The only refusal of the call is out of memory.
pub(crate) fn share_lines(
    lines: &Result<UnitLines, Error>,
) -> Result<Result<UnitLines, Error>, Error>
    ensures { ReturnsOrNoMemory result (Ok lines.now) }
{
    match lines {
        Ok(lines) => Ok(Ok(lines.share()?)),
        Err(error) => Ok(Err(*error)),
    }
}

// The lines of another unit, for one that has the same: the run of their program is counted for
// each of both.
pub(crate) fn share_run<R: Reader>(
    lines: &Result<UnitLines, Error>,
    unit: &mut CountedUnit<R>,
) -> Result<Result<UnitLines, Error>, Error>
    ensures lines { ReturnsOrNoMemory result (Ok lines.now) }
    ensures counted { CountsRun result unit.old unit.new }
{
    let lines = share_lines(lines)?;
    unit.count_run();
    Ok(lines)
}

// Lines that were read, indexed, or the refusal of them. The only refusal of the call is out of
// memory.
fn lines_to_keep(
    alloc: Global,
    lines: Result<Lines, Error>,
    probes: &Probes,
) -> Result<Result<UnitLines, Error>, Error>
    ensures index { IfOk result (λ i. i ≡ counted_lines probes.now.name lines) }
    ensures answer { IfOk result (λ i. i ≢ Err Memory) }
    ensures lines { OnOk result (lines ≢ Err Memory) }
    ensures refusal { IfErr result (λ e. e ≡ Memory) }
{
    match lines {
        Ok(lines) => Ok(Ok(UnitLines {
            index: LineIndex::new(alloc, lines, probes)?,
        })),
        Err(Error::Memory) => Err(Error::Memory),
        Err(fault) => Ok(Err(fault)),
    }
}

// The lines of a unit's program, with the texts of its files.
fn lines_of_program<R: Reader>(
    alloc: Global,
    unit: &UnitRef<'_, R>,
    header: &LineProgramHeader<R>,
) -> Result<Lines, Error>
    ensures { ReturnsOrNoMemory result
        (lines_of_program unit.now header.now) }
{
    // (shows the prover what a unit's model says of its file)
    let _ = &unit.dwarf;
    let builder = LinesBuilder::new(alloc);
    let mut sink = BuilderSink { builder };
    let rows = run_program(&mut sink, header)?;
    let files = texts_of_files(alloc, unit, rows.header())?;
    let BuilderSink { builder } = sink;
    Ok(builder.finish(files))
}

// The lines of a unit, by a run of its program if it has one.
fn lines_of_unit<R: Reader>(alloc: Global, unit: &UnitRef<'_, R>) -> Result<Lines, Error>
    ensures { ReturnsOrNoMemory result (lines_of_unit unit.now) }
{
    let facts = unit.unit;
    match &facts.line_program {
        Some(header) => lines_of_program(alloc, unit, header),
        None => Ok(Lines::new(alloc)),
    }
}
