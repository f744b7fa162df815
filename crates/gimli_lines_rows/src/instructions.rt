//! The instructions of a program, one after the other.

ghost use Rattle.std.specs.Prelude.{◌≡◌, ◌-◌, ◌≤◌, ◌≢◌, IsTrue, IfErr, IfSome, Ok, Err, option_map};
ghost use Rattle.gimli_lines_machine.specs.Calls.{Returns, ReturnsAs, ReturnsAsOrNoMemory, ReturnsOrNoMemory};
ghost use Rattle.gimli_lines_machine.specs.View.{View, after, prefix, bytes_left};
ghost use Rattle.gimli_lines_machine.specs.Error.TheVariants.{Memory};
ghost use Rattle.gimli_lines_machine.specs.Readers.{Holds};
ghost use Rattle.gimli_lines_machine.specs.Iterators.{ReadsAsOrEndsOrNoMemory};
ghost use Rattle.gimli_lines_rows.specs.ProgramInstructions.{next_instruction, with_rest};
ghost use Rattle.gimli_lines_rows.specs.InstructionViews.{line_instruction};
ghost use Rattle.gimli_lines_rows.specs.NumericInstructions.{numeric_instruction};

use crate::instruction::LineInstruction;
use crate::numeric::{NumericInstruction, line_instruction_of};
use crate::parsing::{measure_numeric, parse_instruction};
use gimli_core_readers::borrowed;
use gimli_lines_header::LineProgramHeader;
use gimli_lines_machine::{Error, Reader};
use std::marker::Model;

/// The instructions of a program, from one of them on.
#[derive(Debug, Drop)]
pub struct LineInstructions<R: Reader> {
    // The bytes from the next instruction on.
    input: R,
}

impl<R: Reader> Model for LineInstructions<R> {
    ghost use Rattle.gimli_lines_machine.specs.View.{View};

    ghost Value = { View };

    ghost view = { λ i. R.view i.input };
}

impl<R: Reader> LineInstructions<R> {
    /// The instructions that these bytes are.
    pub fn new(input: R) -> Self
        ensures { result ≡ R.view input }
    {
        LineInstructions { input }
    }

    /// The bytes from the next instruction on.
    pub fn reader(&self) -> &R
        ensures { R.view result.now ≡ self.now }
    {
        &self.input
    }

    /// Leaves no more instructions.
    pub fn empty(&mut self)
        ensures { self.new ≡ prefix 0 self.old }
    {
        self.input.empty();
    }

    // The next instruction and its length, where it can be read and its operands are numbers. Takes
    // no memory.
    pub(crate) fn peek(&self, header: &LineProgramHeader<R>) -> Option<(NumericInstruction, usize)>
        ensures value { IfSome result (λ p. next_instruction R.Offset.limit header.now self.now
            ≡ Ok (Some (numeric_instruction p.0), after p.1 self.now)) }
        ensures length { IfSome result (λ p. p.1 ≤ bytes_left self.now) }
    {
        if self.input.is_empty() {
            return None;
        }
        measure_numeric(borrowed(&self.input), header)
    }

    // Skips an instruction of this length.
    pub(crate) fn skip(&mut self, len: usize)
        requires { len ≤ bytes_left self.old }
        ensures { self.new ≡ after len self.old }
    {
        self.input.advance(len);
    }

    // The next instruction, whatever its operands are, and those after it; none at the end of the
    // program. Takes memory only where a part of the reader does.
    pub(crate) fn read_next(
        &self,
        header: &LineProgramHeader<R>,
    ) -> Result<Option<(LineInstruction<R>, LineInstructions<R>)>, Error>
        ensures value { ReturnsAsOrNoMemory
            (option_map (λ p. (line_instruction R.view p.0, p.1))) result
            (with_rest (next_instruction R.Offset.limit header.now self.now)) }
        ensures free { IsTrue R.copies_freely
            → ReturnsAs (option_map (λ p. (line_instruction R.view p.0, p.1))) result
            (with_rest (next_instruction R.Offset.limit header.now self.now)) }
    {
        if self.input.is_empty() {
            return Ok(None);
        }
        let mut input = self.input.copy()?;
        let instruction = parse_instruction(&mut input, header)?;
        Ok(Some((instruction, LineInstructions { input })))
    }

    /// The instructions before others, which are the last of these. Never refused.
    pub fn up_to(self, rest: &LineInstructions<R>) -> Result<Self, Error>
        requires { Holds self rest.now }
        ensures { Returns result (Ok (prefix (rest.now.first - self.first) self)) }
    {
        let LineInstructions { mut input } = self;
        let len = rest.input.offset_from(&input);
        input.truncate(len)?;
        Ok(LineInstructions { input })
    }

    /// A second iterator at the same place. Takes memory only where a copy of the reader does.
    pub fn copy(&self) -> Result<Self, Error>
        ensures value { ReturnsOrNoMemory result (Ok self.now) }
        ensures free { IsTrue R.copies_freely → result ≢ Err Memory }
    {
        Ok(LineInstructions::new(self.input.copy()?))
    }

    /// The next instruction, none at the end of the program. After one that can't be read there
    /// are no more. Takes memory only for a part of the reader, which few instructions have, and
    /// changes nothing when out of memory.
    pub fn next_instruction(
        &mut self,
        header: &LineProgramHeader<R>,
    ) -> Result<Option<LineInstruction<R>>, Error>
        ensures value { ReadsAsOrEndsOrNoMemory (option_map (line_instruction R.view)) result
            self.old self.new (next_instruction R.Offset.limit header.now self.old) }
        ensures free { IsTrue R.copies_freely
            → IfErr result (λ e. next_instruction R.Offset.limit header.now self.old ≡ Err e) }
    {
        match self.peek(header) {
            Some((instruction, len)) => {
                self.skip(len);
                Ok(Some(line_instruction_of(instruction)))
            }
            None => self.take_next(header),
        }
    }

    // The same, whatever the operands are. What a function keeps in memory is cleared where it
    // begins, so instructions whose operands are numbers are faster without this.
    fn take_next(
        &mut self,
        header: &LineProgramHeader<R>,
    ) -> Result<Option<LineInstruction<R>>, Error>
        ensures value { ReadsAsOrEndsOrNoMemory (option_map (line_instruction R.view)) result
            self.old self.new (next_instruction R.Offset.limit header.now self.old) }
        ensures free { IsTrue R.copies_freely
            → IfErr result (λ e. next_instruction R.Offset.limit header.now self.old ≡ Err e) }
    {
        match self.read_next(header) {
            Ok(None) => Ok(None),
            Ok(Some((instruction, rest))) => {
                *self = rest;
                Ok(Some(instruction))
            }
            Err(Error::Memory) => Err(Error::Memory),
            Err(fault) => {
                self.empty();
                Err(fault)
            }
        }
    }
}

/// What a header gives of the instructions after it.
pub trait ProgramInstructions<R: Reader> {
    /// The bytes of the program.
    ghost program: { Self → View };

    /// The instructions of the program. Takes memory only where a copy of the reader does.
    fn instructions(&self) -> Result<LineInstructions<R>, Error>
        ensures value { ReturnsOrNoMemory result (Ok (program self.now)) }
        ensures free { IsTrue R.copies_freely → result ≢ Err Memory };
}

impl<R: Reader> ProgramInstructions<R> for LineProgramHeader<R> {
    ghost program = { λ h. h.program };

    fn instructions(&self) -> Result<LineInstructions<R>, Error> {
        Ok(LineInstructions::new(self.raw_program_buf()?))
    }
}
