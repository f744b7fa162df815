//! Line number programs (DWARF 4, 6.2; DWARF 5, 6.2).

use crate::answer::Answer;
use crate::attributes;
use crate::case::Case;
use gimli_core::{DebugLineOffset, Error, Reader};
use gimli_lines::{
    BorrowedLineProgram, ColumnType, CompleteLineProgram, DebugLine, FileEntry,
    IncompleteLineProgram, LineInstruction, LineProgram, LineProgramHeader, LineRow, LineRows,
    LineSequence, ProgramInstructions, RowSink,
};
use std::alloc::Global;

/// Answers a question about a line number program of a unit.
pub fn answer<R: Reader>(
    alloc: Global,
    case: &Case,
    section: &DebugLine<R>,
    directory: R,
    name: R,
    out: &mut Answer,
) {
    match header(alloc, case, section, Some(directory), Some(name)) {
        Ok(header) => match case.operation.as_str() {
            "line_header" => line_header(&header, out),
            "line_parameters" => parameters(&header, out),
            "line_lists" => lists(&header, out),
            "line_files" => files(&header, out),
            "line_formats" => formats(&header, out),
            "line_rows" => rows(BorrowedLineProgram::new(&header).rows(), out),
            "line_rows_at_once" => rows_at_once(BorrowedLineProgram::new(&header).rows(), out),
            "line_program" => rows(IncompleteLineProgram::new(header).rows(), out),
            "line_instructions" => instructions(&header, out),
            _ => sequences(alloc, header, out),
        },
        Err(error) => out.refuse(error),
    }
}

/// The header at the offset.
pub fn header<R: Reader>(
    alloc: Global,
    case: &Case,
    section: &DebugLine<R>,
    directory: Option<R>,
    name: Option<R>,
) -> Result<LineProgramHeader<R>, Error> {
    let size = case.address_size;
    match (case.offset(), size) {
        (Ok(offset), 1 | 2 | 4 | 8) => {
            section.header(alloc, DebugLineOffset(offset), size, directory, name)
        }
        (Ok(_), _) => Err(Error::UnsupportedAddressSize(size)),
        (Err(error), _) => Err(error),
    }
}

/// Whether the header at the offset can be read.
pub fn check<R: Reader>(case: &Case, section: &DebugLine<R>, out: &mut Answer) {
    let size = case.address_size;
    match (case.offset(), size) {
        (Ok(offset), 1 | 2 | 4 | 8) => out.check(section.check_header(
            DebugLineOffset(offset),
            size,
        )),
        (Ok(_), _) => out.refuse(Error::UnsupportedAddressSize(size)),
        (Err(error), _) => out.refuse(error),
    }
}

// The fields of a header.
fn line_header<R: Reader>(header: &LineProgramHeader<R>, out: &mut Answer) {
    out.word(&header.offset().0);
    out.word(&header.unit_length());
    out.word(&header.header_length());
    out.word(&header.encoding());
    out.word(&header.line_encoding());
    out.word(&header.opcode_base());
    out.bytes(header.standard_opcode_lengths());
    out.text(" ");
    match header.raw_program_buf() {
        Ok(program) => out.bytes(&program),
        Err(error) => out.refuse(error),
    }
}

// What special opcodes and addresses depend on.
fn parameters<R: Reader>(header: &LineProgramHeader<R>, out: &mut Answer) {
    out.word(&header.minimum_instruction_length());
    out.word(&header.maximum_operations_per_instruction());
    out.word(&header.default_is_stmt());
    out.word(&header.line_base());
    out.code(&header.line_range());
}

// How many directories and files are listed, and how directories are described.
fn lists<R: Reader>(header: &LineProgramHeader<R>, out: &mut Answer) {
    out.word(&header.include_directories().len());
    out.code(&header.file_names().len());
    for format in header.directory_entry_format() {
        out.text("[");
        out.word(&format.content_type);
        out.code(&format.form);
        out.text("]");
    }
}

// What the files have, and how they are described.
fn formats<R: Reader>(header: &LineProgramHeader<R>, out: &mut Answer) {
    out.text_if(header.file_has_timestamp(), "[timestamp]");
    out.text_if(header.file_has_size(), "[size]");
    out.text_if(header.file_has_md5(), "[md5]");
    out.text_if(header.file_has_source(), "[source]");
    for format in header.file_name_entry_format() {
        out.text("[");
        out.word(&format.content_type);
        out.code(&format.form);
        out.text("]");
    }
}

// The directories and the files, from 0 on.
fn files<R: Reader>(header: &LineProgramHeader<R>, out: &mut Answer) {
    for number in 0..4 {
        if let Some(directory) = header.directory(number) {
            out.value(&number);
            attributes::value(directory, out);
        }
    }
    for number in 0..4 {
        if let Some(found) = header.file(number) {
            out.text(" ");
            out.value(&number);
            file(found, out);
        }
    }
}

fn file<R: Reader>(file: &FileEntry<R>, out: &mut Answer) {
    attributes::value(file.path_name(), out);
    out.word(&file.directory_index());
    out.word(&file.timestamp());
    out.word(&file.size());
    out.digits(file.md5().as_slice());
    if let Some(source) = file.source() {
        attributes::value(source, out);
    }
}

// The rows, with a refusal in its place, and the files after them.
fn rows<R: Reader, P: LineProgram<R> + Drop>(
    rows: Result<LineRows<R, P>, Error>,
    out: &mut Answer,
) {
    match rows {
        Ok(mut rows) => {
            for _ in 0..20 {
                if !next_row(&mut rows, out) {
                    break;
                }
            }
            out.text(" ");
            files(rows.header(), out);
        }
        Err(error) => out.refuse(error),
    }
}

// The same rows, all given to a sink, and the files after them.
fn rows_at_once<R: Reader, P: LineProgram<R> + Drop>(
    rows: Result<LineRows<R, P>, Error>,
    out: &mut Answer,
) {
    match rows {
        Ok(mut rows) => {
            let mut written = WrittenRows { out };
            let outcome = rows.run_all(&mut written);
            if let Err(error) = outcome {
                written.out.refuse(error);
            }
            written.out.text(" ");
            files(rows.header(), written.out);
        }
        Err(error) => out.refuse(error),
    }
}

// Writes each row that it is given to an answer.
#[derive(Drop)]
struct WrittenRows<'a> {
    out: &'a mut Answer,
}

impl<'a> RowSink for WrittenRows<'a> {
    ghost use Rattle.gimli_lines.specs.Registers.{Registers};

    ghost Kept = { Registers };

    ghost form = { λ found. found };

    ghost HasTaken = { λ written rows. Unit {0} };

    fn take(&mut self, found: &LineRow) -> Result<(), Error> {
        row(found, self.out);
        Ok(())
    }
}

// The next row or a refusal; whether there is one.
fn next_row<R: Reader, P: LineProgram<R> + Drop>(
    rows: &mut LineRows<R, P>,
    out: &mut Answer,
) -> bool {
    match rows.next_row() {
        Ok(Some((_, found))) => {
            row(found, out);
            true
        }
        Ok(None) => false,
        Err(error) => {
            out.refuse(error);
            true
        }
    }
}

fn row(row: &LineRow, out: &mut Answer) {
    out.text("[");
    out.hex(row.address());
    out.text(" ");
    out.word(&row.op_index());
    out.text("file ");
    out.word(&row.file_index());
    out.text("line ");
    out.value(&line_of(row));
    if let ColumnType::Column(column) = row.column() {
        out.text(" column ");
        out.value(&column.get());
    }
    out.text_if(row.is_stmt(), " is_stmt");
    out.text_if(row.basic_block(), " basic_block");
    out.text_if(row.end_sequence(), " end_sequence");
    out.text_if(row.prologue_end(), " prologue_end");
    out.text_if(row.epilogue_begin(), " epilogue_begin");
    out.text(" isa ");
    out.word(&row.isa());
    out.text("discriminator ");
    out.code(&row.discriminator());
    out.text("]");
}

/// The line of a row, 0 for none.
pub fn line_of(row: &LineRow) -> u64 {
    match row.line() {
        Some(line) => line.get(),
        None => 0,
    }
}

// The instructions, with a refusal in its place. A copy of what read one reads the next.
fn instructions<R: Reader>(header: &LineProgramHeader<R>, out: &mut Answer) {
    match header.instructions() {
        Ok(mut instructions) => {
            for _ in 0..40 {
                match instructions.next_instruction(header) {
                    Ok(Some(found)) => instruction(&found, out),
                    Ok(None) => break,
                    Err(error) => out.refuse(error),
                }
                if let Ok(copy) = instructions.copy() {
                    instructions = copy;
                }
            }
        }
        Err(error) => out.refuse(error),
    }
}

/// An instruction: its kind, and its operand.
pub fn instruction<R: Reader>(found: &LineInstruction<R>, out: &mut Answer) {
    let (kind, operand) = match found {
        LineInstruction::Special(opcode) => ("Special", u64::from(*opcode)),
        LineInstruction::AdvancePc(operations) => ("AdvancePc", *operations),
        LineInstruction::AdvanceLine(lines) => ("AdvanceLine", lines.unsigned_abs()),
        LineInstruction::SetFile(file) => ("SetFile", *file),
        LineInstruction::SetColumn(column) => ("SetColumn", *column),
        LineInstruction::FixedAddPc(bytes) => ("FixedAddPc", u64::from(*bytes)),
        LineInstruction::SetIsa(isa) => ("SetIsa", *isa),
        LineInstruction::SetAddress(address) => ("SetAddress", *address),
        LineInstruction::DefineFile(file) => ("DefineFile", file.directory_index()),
        LineInstruction::SetDiscriminator(number) => ("SetDiscriminator", *number),
        LineInstruction::UnknownExtended(opcode, _) => ("UnknownExtended", u64::from(opcode.0)),
        other => (name_of(other), 0),
    };
    out.text("[");
    out.text(kind);
    out.text(" ");
    out.value(&operand);
    out.text("]");
}

// The name of an instruction without an operand that is printed.
fn name_of<R: Reader>(instruction: &LineInstruction<R>) -> &'static str {
    match instruction {
        LineInstruction::Copy => "Copy",
        LineInstruction::NegateStatement => "NegateStatement",
        LineInstruction::SetBasicBlock => "SetBasicBlock",
        LineInstruction::ConstAddPc => "ConstAddPc",
        LineInstruction::SetPrologueEnd => "SetPrologueEnd",
        LineInstruction::SetEpilogueBegin => "SetEpilogueBegin",
        LineInstruction::EndSequence => "EndSequence",
        _ => "Unknown",
    }
}

// The sequences, each with the rows that it gives when it is resumed.
fn sequences<R: Reader>(alloc: Global, header: LineProgramHeader<R>, out: &mut Answer) {
    match IncompleteLineProgram::new(header).sequences(alloc) {
        Ok((program, sequences)) => {
            for sequence in sequences.iter() {
                out.hex(sequence.start);
                out.text(" ");
                out.hex(sequence.end);
                resume(&program, sequence, out);
            }
        }
        Err(error) => out.refuse(error),
    }
}

fn resume<R: Reader>(
    program: &CompleteLineProgram<R>,
    sequence: &LineSequence<R>,
    out: &mut Answer,
) {
    match program.resume_from(sequence) {
        Ok(mut rows) => {
            for _ in 0..20 {
                match rows.advance() {
                    Ok(true) => row(rows.row(), out),
                    Ok(false) => break,
                    Err(error) => {
                        out.refuse(error);
                        break;
                    }
                }
            }
        }
        Err(error) => out.refuse(error),
    }
}
