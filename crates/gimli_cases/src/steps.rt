//! Instructions that are executed by themselves (DWARF 5, 6.2.5), and files that are added to
//! headers (DWARF 4, 6.2.4).

use crate::answer::Answer;
use crate::case::Case;
use crate::sections::Sections;
use crate::{attributes, lines};
use gimli_core::{DebugLineOffset, Error, Reader};
use gimli_lines::{
    DebugLine, FileEntry, IncompleteLineProgram, LineInstruction, LineProgram, LineProgramHeader,
    LinePrograms, LineRow, ProgramInstructions,
};
use std::alloc::Global;

/// Answers a question about instructions of a unit, whose directory and name are the second and
/// third sections, or about a file, whose numbers and name these are.
pub fn answer<R: Reader>(alloc: Global, case: &Case, sections: Sections<R>, out: &mut Answer) {
    let section = DebugLine::from(sections.first);
    let (second, third) = (sections.second, sections.third);
    match case.operation.as_str() {
        "line_steps" => match program(alloc, case, &section, second, third) {
            Ok(mut program) => steps(&mut program, out),
            Err(error) => out.refuse(error),
        },
        _ => match lines::header(alloc, case, &section, None, None) {
            Ok(header) => copy(case, &header, second, third, out),
            Err(error) => out.refuse(error),
        },
    }
}

// ---- instructions

// The program at the offset.
fn program<R: Reader>(
    alloc: Global,
    case: &Case,
    section: &DebugLine<R>,
    directory: R,
    name: R,
) -> Result<IncompleteLineProgram<R>, Error> {
    let (directory, name) = (Some(directory), Some(name));
    let size = case.address_size;
    match (case.offset(), size) {
        (Ok(offset), 1 | 2 | 4 | 8) => {
            section.program(alloc, DebugLineOffset(offset), size, directory, name)
        }
        (Ok(_), _) => Err(Error::UnsupportedAddressSize(size)),
        (Err(error), _) => Err(error),
    }
}

// The instructions, each with the row after it.
fn steps<R: Reader>(program: &mut IncompleteLineProgram<R>, out: &mut Answer) {
    match program.header().instructions() {
        Ok(mut instructions) => {
            let mut row = LineRow::new(program.header());
            for _ in 0..40 {
                match instructions.next_instruction(program.header()) {
                    Ok(Some(found)) => step(found, &mut row, program, out),
                    Ok(None) => break,
                    Err(error) => out.refuse(error),
                }
            }
        }
        Err(error) => out.refuse(error),
    }
}

// The address and the line after an instruction, and whether it gives a row, and one of a file;
// then the row is cleared.
fn step<R: Reader>(
    found: LineInstruction<R>,
    row: &mut LineRow,
    program: &mut IncompleteLineProgram<R>,
    out: &mut Answer,
) {
    lines::instruction(&found, out);
    match row.execute(found, program) {
        Ok(is_row) => {
            out.hex(row.address());
            out.text(" line ");
            out.value(&lines::line_of(row));
            if is_row {
                out.text(", a row");
                out.text_if(row.file(program.header()).is_some(), " of a file");
                row.reset(program.header());
            }
        }
        Err(error) => out.refuse(error),
    }
}

// ---- files

// The file of the index in a header, and in a copy to which a file is added.
fn copy<R: Reader>(
    case: &Case,
    header: &LineProgramHeader<R>,
    numbers: R,
    name: R,
    out: &mut Answer,
) {
    file(case, header, out);
    match header.copy() {
        Ok(mut copy) => match add_file(&mut copy, numbers, name) {
            Ok(()) => file(case, &copy, out),
            Err(error) => out.refuse(error),
        },
        Err(error) => out.refuse(error),
    }
}

// Adds a copy of a file, whose directory, time and size are in the bytes.
fn add_file<R: Reader>(
    header: &mut LineProgramHeader<R>,
    mut numbers: R,
    name: R,
) -> Result<(), Error> {
    match FileEntry::parse(&mut numbers, name) {
        Ok(file) => match file.copy() {
            Ok(copy) => header.add_file(copy),
            Err(error) => Err(error),
        },
        Err(error) => Err(error),
    }
}

// A file's name, its directory, its time and its size.
fn file<R: Reader>(case: &Case, header: &LineProgramHeader<R>, out: &mut Answer) {
    out.text("[");
    if let Some(found) = header.file(case.index) {
        attributes::value(found.path_name(), out);
        if let Some(directory) = found.directory(header) {
            attributes::value(directory, out);
        }
        out.word(&found.last_modification());
        out.code(&found.length());
    }
    out.text("]");
}
