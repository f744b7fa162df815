//! A row of the line number table.

ghost use Rattle.std.specs.Prelude.{◌≡◌, option_map, MatchOption, IfErr, Err};
ghost use Rattle.std.specs.Int.NonZero.{non_zero_u64_get};
ghost use Rattle.gimli_lines_header.specs.LineHeaders.{file_at};
ghost use Rattle.gimli_lines_rows.specs.ProgramInstructions.{rules_of};
ghost use Rattle.gimli_lines_rows.specs.InstructionViews.{line_instruction};
ghost use Rattle.gimli_lines_machine.specs.Machine.{start, registers_after, after_row};
ghost use Rattle.gimli_lines_rows.specs.Columns.{column_number};
ghost use Rattle.gimli_lines_rows.specs.ProgramRows.{Executes, HeaderAfter, TakesNoFileOf};

use crate::LineInstruction;
use crate::execution::{execute, rules_of};
use crate::program::LineProgram;
use gimli_lines_header::{FileEntry, LineProgramHeader};
use gimli_lines_machine::{Error, Reader, Registers};
use std::marker::Model;
use std::num::NonZeroU64;

/// A column: the left edge of a line, or a number from 1 on (DWARF 5, 6.2.2).
#[derive(Clone, Copy, Debug, PartialEq, Eq)]
pub enum ColumnType {
    LeftEdge,
    Column(NonZeroU64),
}

/// A row of the line number table, or the registers that a row is made of (DWARF 5, 6.2.2).
#[derive(Clone, Copy, Debug, PartialEq, Eq)]
pub struct LineRow {
    registers: Registers,
}

impl Model for LineRow {
    ghost use Rattle.gimli_lines_machine.specs.declared.registers.Registers.{Registers};

    ghost Value = { Registers };

    ghost view = { λ r. r.registers };

    ghost inverse = { λ v. record { registers = v } };
}

impl LineRow {
    /// The row at the start of a sequence.
    pub fn new<R: Reader>(header: &LineProgramHeader<R>) -> Self
        ensures { result ≡ start (rules_of header.now) }
    {
        LineRow::of(Registers::start(rules_of(header)))
    }

    // The row that registers make.
    pub(crate) fn of(registers: Registers) -> Self
        ensures { result ≡ registers }
    {
        LineRow { registers }
    }

    /// The address of an instruction.
    pub fn address(&self) -> u64
        ensures { result ≡ self.now.address }
    {
        self.registers.address
    }

    /// The operation within the instruction.
    pub fn op_index(&self) -> u64
        ensures { result ≡ self.now.op_index }
    {
        self.registers.op_index
    }

    /// The number of the file.
    pub fn file_index(&self) -> u64
        ensures { result ≡ self.now.file }
    {
        self.registers.file
    }

    /// The file, none where the header lacks its number.
    pub fn file<'header, R: Reader>(
        &self,
        header: &'header LineProgramHeader<R>,
    ) -> Option<&'header FileEntry<R>>
        ensures { option_map (λ f. f.now) result ≡ file_at header.now self.now.file }
    {
        header.file(self.registers.file)
    }

    /// The line, none for an address of no line.
    pub fn line(&self) -> Option<NonZeroU64>
        ensures { MatchOption result (self.now.line ≡ 0) (λ n. non_zero_u64_get n ≡ self.now.line) }
    {
        NonZeroU64::new(self.registers.line)
    }

    /// The column, or the left edge.
    pub fn column(&self) -> ColumnType
        ensures { column_number result ≡ self.now.column }
    {
        match NonZeroU64::new(self.registers.column) {
            Some(column) => ColumnType::Column(column),
            None => ColumnType::LeftEdge,
        }
    }

    /// Whether the address is a good place for a breakpoint on the line.
    pub fn is_stmt(&self) -> bool
        ensures { result ≡ self.now.is_stmt }
    {
        self.registers.is_stmt
    }

    /// Whether a basic block begins here.
    pub fn basic_block(&self) -> bool
        ensures { result ≡ self.now.basic_block }
    {
        self.registers.basic_block
    }

    /// Whether the address is the first one after a sequence, and the row has no other meaning.
    pub fn end_sequence(&self) -> bool
        ensures { result ≡ self.now.end_sequence }
    {
        self.registers.end_sequence
    }

    /// Whether the address is a good place for a breakpoint at a function's entry.
    pub fn prologue_end(&self) -> bool
        ensures { result ≡ self.now.prologue_end }
    {
        self.registers.prologue_end
    }

    /// Whether the address is a good place for a breakpoint at a function's exit.
    pub fn epilogue_begin(&self) -> bool
        ensures { result ≡ self.now.epilogue_begin }
    {
        self.registers.epilogue_begin
    }

    /// The instruction set.
    pub fn isa(&self) -> u64
        ensures { result ≡ self.now.isa }
    {
        self.registers.isa
    }

    /// Distinguishes the blocks of one line; 0 where there is one.
    pub fn discriminator(&self) -> u64
        ensures { result ≡ self.now.discriminator }
    {
        self.registers.discriminator
    }

    /// Executes an instruction, and says whether it gives this row. Refused, nothing changes. Takes
    /// memory only for a file that it defines.
    pub fn execute<R: Reader, P: LineProgram<R>>(
        &mut self,
        instruction: LineInstruction<R>,
        program: &mut P,
    ) -> Result<bool, Error>
        ensures row { Executes result self.old self.new
            (registers_after (rules_of (P.header_of program.old))
            (line_instruction R.view instruction) self.old) (line_instruction R.view instruction) }
        ensures header { HeaderAfter result P.takes_files (line_instruction R.view instruction)
            (P.header_of program.old) (P.header_of program.new) }
        ensures free { TakesNoFileOf P.takes_files (line_instruction R.view instruction)
            → IfErr result (λ e. registers_after (rules_of (P.header_of program.old))
            (line_instruction R.view instruction) self.old ≡ Err e) }
    {
        execute(&mut self.registers, instruction, program)
    }

    /// Clears what holds for one row alone; after the end of a sequence all is as at its start.
    pub fn reset<R: Reader>(&mut self, header: &LineProgramHeader<R>)
        ensures { self.new ≡ after_row (rules_of header.now) self.old }
    {
        self.registers.clear(rules_of(header));
    }
}
