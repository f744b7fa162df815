//! The rows of a program, one after the other.

ghost use Rattle.std.specs.Prelude.{◌≡◌, ◌≢◌, ◌∷◌, [], IsTrue, IfErr, Ok, Err};
ghost use Rattle.gimli_lines_machine.specs.Calls.{ReturnsOrNoMemory, ReadsOrNoMemory};
ghost use Rattle.gimli_lines_machine.specs.Error.TheVariants.{Memory};
ghost use Rattle.gimli_lines_rows.specs.ProgramRows.{NextRow, ToNextRow, OneStep, LendsRow, TakesNoFile, rows_to_come, next_step};
ghost use Rattle.gimli_lines_rows.specs.RowSinks.{GivesOnTheWay, GivesRows, RefusedByRows};
ghost use Rattle.gimli_lines_rows.specs.RowSequences.{rows_under};
ghost use Rattle.gimli_lines_rows.specs.NumericSteps.{RunsToRow};

use crate::LineInstructions;
use crate::execution::{execute, rules_of};
use crate::program::LineProgram;
use crate::program_rules::ProgramRules;
use crate::row::LineRow;
use crate::sink::RowSink;
use crate::steps::{end_row, run_into, run_to_row};
use gimli_core_readers::borrowed;
use gimli_lines_header::LineProgramHeader;
use gimli_lines_machine::{Error, Reader, Registers};
use std::marker::Model;

/// The rows of a program, from one of them on.
pub struct LineRows<R: Reader, P: LineProgram<R> + Drop> {
    program: P,
    instructions: LineInstructions<R>,
    rules: ProgramRules,
    // The registers before the next instruction.
    registers: Registers,
    // The last row.
    row: LineRow,
}

impl<R: Reader, P: LineProgram<R> + Drop> Drop for LineRows<R, P> {
    fn drop(self) {
        let LineRows {
            program: _,
            instructions: _,
            rules: _,
            registers: _,
            row: _,
        } = self;
    }
}

impl<R: Reader, P: LineProgram<R> + Drop> Model for LineRows<R, P> {
    ghost use Rattle.std.specs.Prelude.{◌≡◌};
    ghost use Rattle.gimli_lines_rows.specs.ProgramInstructions.{rules_of};
    ghost use Rattle.gimli_lines_rows.specs.ProgramRows.{RemainingRows};

    ghost Value = { RemainingRows };

    ghost invariant = { λ r. r.rules ≡ rules_of (P.header_of r.program) };

    ghost view = { λ r. record {
      header = P.header_of r.program;
      takes_files = P.takes_files;
      registers = r.registers;
      last = r.row;
      rest = r.instructions;
    } };
}

impl<R: Reader, P: LineProgram<R> + Drop> LineRows<R, P> {
    ghost use Rattle.std.specs.Borrow.{sem};
    ghost use Rattle.std.specs.Io.BufRead.{Rests};
    ghost use Rattle.gimli_lines_machine.specs.Iterators.{ReturnsNextOrNoMemory};
    ghost use Rattle.gimli_lines_rows.specs.ProgramRows.{lent_row};
    ghost use Rattle.gimli_lines_rows.specs.contracts.rows.LineRows.{the_row};

    // The rows of a program from its first instruction on.
    pub(crate) fn new(program: P) -> Result<Self, Error>
        ensures value { ReturnsOrNoMemory result
            (Ok (rows_under P.takes_files (P.header_of program) (P.header_of program).program)) }
        ensures free { IsTrue R.copies_freely → result ≢ Err Memory }
    {
        let instructions = LineInstructions::new(program.header().raw_program_buf()?);
        Ok(LineRows::over(program, instructions))
    }

    // The rows that instructions make from the start of a sequence on.
    pub(crate) fn over(program: P, instructions: LineInstructions<R>) -> Self
        ensures { result ≡ rows_under P.takes_files (P.header_of program) instructions }
    {
        let rules = ProgramRules::of(program.header());
        let registers = Registers::start(rules.line_rules());
        LineRows {
            program,
            instructions,
            rules,
            registers,
            row: LineRow::of(registers),
        }
    }

    /// The header, with the files that were defined so far.
    pub fn header(&self) -> &LineProgramHeader<R>
        ensures { result.now ≡ self.now.header }
    {
        self.program.header()
    }

    /// The instructions that are left.
    pub fn instructions(&self) -> &LineInstructions<R>
        ensures { result.now ≡ self.now.rest }
    {
        &self.instructions
    }

    // The program, with the files that were defined so far.
    pub(crate) fn into_program(self) -> P
        ensures { P.header_of result ≡ self.header }
    {
        let LineRows {
            program,
            instructions: _,
            rules: _,
            registers: _,
            row: _,
        } = self;
        program
    }

    /// The last row.
    pub fn row(&self) -> &LineRow
        ensures { result.now ≡ self.now.last }
    {
        &self.row
    }

    /// Goes on to the next row, and says whether there is one. After a fault there are none. Out of
    /// memory, which only a part of the reader or a file that an instruction defines can cause,
    /// leaves all rows to come.
    pub fn advance(&mut self) -> Result<bool, Error>
        ensures next { NextRow R.Offset.limit result self.old self.new }
        ensures path { ToNextRow R.Offset.limit result self.old self.new }
        // Where copies take no memory and no file is taken, this takes none.
        ensures free { IsTrue R.copies_freely → TakesNoFile P.takes_files self.old.header
            → IfErr result (λ e. rows_to_come R.Offset.limit self.old ≡ Err e ∷ []) }
    {
        loop {
            if self.run_to_row() {
                return Ok(true);
            }
            let Some(is_shown) = self.step()? else {
                return Ok(false);
            };
            if is_shown {
                return Ok(true);
            }
        }
    }

    /// The next row, with the header that has the files defined so far; none at the end. After a
    /// fault there are none. Out of memory, which only a part of the reader or a file that an
    /// instruction defines can cause, leaves all rows to come.
    pub fn next_row(&mut self) -> Result<Option<(&LineProgramHeader<R>, &LineRow)>, Error>
        ensures row { LendsRow (λ p. (p.0.now, p.1.now)) result
            (rows_to_come R.Offset.limit self.old) }
        ensures free { IsTrue R.copies_freely → TakesNoFile P.takes_files self.old.header
            → IfErr result (λ e. rows_to_come R.Offset.limit self.old ≡ Err e ∷ []) }
        ensures* rest { sem 𝓛 (Rests (the_row R.row P.row R.Endian.row R.Offset.row R.Reader
            R.Endian.Endianity R.Offset.ReaderOffset.own R.Offset.Debug P.LineProgram) self.entry
            (λ left. ReturnsNextOrNoMemory (λ p. lent_row p.0.now p.1.now) result
            (rows_to_come R.Offset.limit self.old) (rows_to_come R.Offset.limit left))) }
    {
        if self.advance()? {
            let rows = &*self;
            Ok(Some((rows.program.header(), &rows.row)))
        } else {
            Ok(None)
        }
    }

    /// Runs the program to its end, and gives a sink all rows to come: faster than one row after
    /// the other. Refused by a fault, after which there are no rows; or when out of memory, which
    /// only the sink, a part of the reader or a file that an instruction defines can cause. Then
    /// the rows that the sink hasn't taken are still to come, but for one that it refused: that is
    /// the last row.
    pub fn run_all<S: RowSink>(&mut self, sink: &mut S) -> Result<(), Error>
        ensures rows { GivesRows R.Offset.limit S.form S.HasTaken result self.old self.new
            sink.old sink.new }
        // Where copies take no memory and no file is taken, this takes none but by the sink.
        ensures free { IsTrue R.copies_freely → TakesNoFile P.takes_files self.old.header
            → IfErr result (λ e. RefusedByRows R.Offset.limit e self.old self.new) }
    {
        loop {
            self.run_at_once(sink)?;
            let Some(is_shown) = self.step()? else {
                return Ok(());
            };
            if is_shown {
                sink.take(&self.row)?;
            }
        }
    }

    // Executes instructions and gives a sink the rows that they show, up to the first whose
    // operands aren't numbers or that is refused, or to the end of the program.
    fn run_at_once<S: RowSink>(&mut self, sink: &mut S) -> Result<(), Error>
        ensures { GivesOnTheWay R.Offset.limit S.form S.HasTaken result self.old self.new
            sink.old sink.new }
    {
        let mut bytes = borrowed(self.instructions.reader());
        let before = bytes.slice().len();
        let header = self.program.header();
        // In a place of their own the registers need no memory.
        let mut registers = self.registers;
        let given = run_into(
            &mut bytes,
            &mut registers,
            &mut self.row,
            header,
            &self.rules,
            sink,
        );
        let len = before - bytes.slice().len();
        self.registers = registers;
        self.instructions.skip(len);
        given
    }

    // Executes instructions up to the next row that is shown, and says whether there is one; else
    // up to the first whose operands aren't numbers or that is refused, or to the end of the
    // program.
    fn run_to_row(&mut self) -> bool
        ensures { RunsToRow R.Offset.limit result self.old self.new }
    {
        let mut bytes = borrowed(self.instructions.reader());
        let before = bytes.slice().len();
        let header = self.program.header();
        let found = run_to_row(
            &mut bytes,
            &mut self.registers,
            &mut self.row,
            header,
            &self.rules,
        );
        let len = before - bytes.slice().len();
        self.instructions.skip(len);
        found
    }

    // Executes the next instruction, whatever its operands are, and says whether it shows a row;
    // none at the end of the program and after a fault. Out of memory, nothing changes.
    fn step(&mut self) -> Result<Option<bool>, Error>
        ensures step { OneStep R.Offset.limit result self.old self.new }
        ensures free { IsTrue R.copies_freely → TakesNoFile P.takes_files self.old.header
            → IfErr result (λ e. next_step R.Offset.limit self.old ≡ Err e) }
    {
        match self.try_step() {
            Ok(done) => Ok(done),
            Err(Error::Memory) => Err(Error::Memory),
            Err(fault) => {
                self.instructions.empty();
                Err(fault)
            }
        }
    }

    // The same; refused, nothing changes.
    fn try_step(&mut self) -> Result<Option<bool>, Error>
        ensures value { ReadsOrNoMemory result self.old self.new
            (next_step R.Offset.limit self.old) }
        ensures free { IsTrue R.copies_freely → TakesNoFile P.takes_files self.old.header
            → IfErr result (λ e. next_step R.Offset.limit self.old ≡ Err e) }
    {
        let Some((instruction, rest)) = self.instructions.read_next(self.program.header())? else {
            return Ok(None);
        };
        let rules = rules_of(self.program.header());
        let gives_row = execute(&mut self.registers, instruction, &mut self.program)?;
        self.instructions = rest;
        if !gives_row {
            return Ok(Some(false));
        }
        Ok(Some(end_row(rules, &mut self.registers, &mut self.row)))
    }
}
