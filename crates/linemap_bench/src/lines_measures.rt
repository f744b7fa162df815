//! The measures of reading line number programs. Each goes over the whole program, and returns a
//! checksum of what it reads.

use crate::timing::mix;
use gimli_core::{DebugLineOffset, Error, Reader, ReaderOffset};
use gimli_lines_rows::{
    AttributeValue, ColumnType, DebugLine, FileEntry, IncompleteLineProgram, LineInstruction,
    LinePrograms, LineRow, ProgramInstructions, RowSink,
};
use std::alloc::Global;

// The bytes of an address.
const ADDRESS: u8 = 8;

fn program<R: Reader>(alloc: Global, section: R) -> Result<IncompleteLineProgram<R>, Error> {
    let section = DebugLine::from(section);
    let start = DebugLineOffset(R::Offset::from_u8(0));
    section.program(alloc, start, ADDRESS, None, None)
}

/// All instructions of the first program.
pub fn instructions<R: Reader>(alloc: Global, section: R) -> Result<u64, Error> {
    let program = program(alloc, section)?;
    let header = program.header();
    let mut instructions = header.instructions()?;
    let mut sum = 0;
    for _ in 0..header.program_reader().len().into_u64() {
        match instructions.next_instruction(header)? {
            Some(instruction) => sum = mix(sum, number_of(&instruction)),
            None => break,
        }
    }
    Ok(sum)
}

// A number for each instruction: its operand, or its opcode.
fn number_of<R: Reader>(instruction: &LineInstruction<R>) -> u64 {
    match instruction {
        LineInstruction::Special(opcode) => u64::from(*opcode),
        LineInstruction::AdvancePc(operand) => *operand,
        LineInstruction::AdvanceLine(lines) => lines.cast_unsigned(),
        LineInstruction::SetFile(operand) => *operand,
        LineInstruction::SetColumn(operand) => *operand,
        LineInstruction::SetAddress(operand) => *operand,
        LineInstruction::SetDiscriminator(operand) => *operand,
        LineInstruction::Copy => 1,
        LineInstruction::NegateStatement => 6,
        LineInstruction::ConstAddPc => 8,
        LineInstruction::SetPrologueEnd => 10,
        _ => 0,
    }
}

/// All rows of the first program.
pub fn rows<R: Reader>(alloc: Global, section: R) -> Result<u64, Error> {
    let program = program(alloc, section)?;
    let count = program.header().program_reader().len().into_u64();
    let mut rows = program.rows()?;
    let mut sum = 0;
    for _ in 0..count {
        match rows.next_row()? {
            Some((_, row)) => sum = with_row(sum, row),
            None => break,
        }
    }
    Ok(sum)
}

fn with_row(sum: u64, row: &LineRow) -> u64 {
    let line = row.line().map_or(0, |line| line.get());
    let column = match row.column() {
        ColumnType::LeftEdge => 0,
        ColumnType::Column(column) => column.get(),
    };
    let sum = mix(mix(sum, row.address()), row.file_index());
    let sum = mix(mix(sum, line), column);
    let sum = mix(mix(sum, row.discriminator()), u64::from(row.is_stmt()));
    mix(sum, u64::from(row.end_sequence()))
}

/// The same rows, all given to a sink.
pub fn rows_at_once<R: Reader>(alloc: Global, section: R) -> Result<u64, Error> {
    let mut sum = RowSum { sum: 0 };
    program(alloc, section)?.rows()?.run_all(&mut sum)?;
    Ok(sum.sum)
}

// The checksum of the rows that it is given.
#[derive(Drop)]
struct RowSum {
    sum: u64,
}

impl RowSink for RowSum {
    ghost use Rattle.gimli_lines_rows.specs.Registers.{Registers};

    ghost Kept = { Registers };

    ghost form = { λ row. row };

    ghost HasTaken = { λ sum rows. Unit {0} };

    fn take(&mut self, row: &LineRow) -> Result<(), Error> {
        self.sum = with_row(self.sum, row);
        Ok(())
    }
}

/// All headers of a section, each with its files.
pub fn headers<R: Reader>(alloc: Global, section: R) -> Result<u64, Error> {
    let size = section.len().into_u64();
    let section = DebugLine::from(section);
    let mut at = 0;
    let mut sum = 0;
    for _ in 0..size {
        if at >= size {
            break;
        }
        let offset = DebugLineOffset(R::Offset::from_u64(at)?);
        let program = section.program(alloc, offset, ADDRESS, None, None)?;
        let header = program.header();
        for file in header.file_names() {
            sum = with_file(sum, file);
        }
        at = at
            .wrapping_add(header.unit_length().into_u64())
            .wrapping_add(4);
    }
    Ok(sum)
}

fn with_file<R: Reader>(sum: u64, file: &FileEntry<R>) -> u64 {
    let path = match file.path_name() {
        AttributeValue::DebugLineStrRef(offset) => offset.0.into_u64(),
        _ => 0,
    };
    let sum = mix(mix(sum, path), file.directory_index());
    mix(sum, u64::from(file.md5()[0]))
}

/// Checks all headers of a section. The checksum is of their lengths.
pub fn checks<R: Reader>(section: R) -> Result<u64, Error> {
    let mut rest = section.copy()?;
    let size = section.len().into_u64();
    let section = DebugLine::from(section);
    let mut at = 0;
    let mut sum = 0;
    for _ in 0..size {
        if rest.is_empty() {
            break;
        }
        section.check_header(DebugLineOffset(R::Offset::from_u64(at)?), ADDRESS)?;
        let (length, _) = rest.read_initial_length()?;
        rest.skip(length)?;
        at = at.wrapping_add(length.into_u64()).wrapping_add(4);
        sum = mix(sum, length.into_u64());
    }
    Ok(sum)
}
