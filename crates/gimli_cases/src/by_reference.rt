//! Line number programs whose texts are in `.debug_line_str` (DWARF 5, 6.2.4.1).

ghost use Rattle.gimli_lines.specs.StringSections.{IsText};

use crate::answer::Answer;
use crate::case::Case;
use crate::programs;
use gimli_core::{Encoding, Endianity, LineEncoding};
use gimli_lines::write::{
    EndianVec, Error, FileId, FileInfo, LineProgram, LineString, LineStringId, LineStringTable,
    StringTable,
};
use std::alloc::Global;

const TEXT: &[u8] = b"int x;";

// The texts of a file: its directory, its path and, if it has one, its own.
#[derive(Clone, Copy)]
struct FileTexts {
    directory: LineStringId,
    path: LineStringId,
    text: Option<LineStringId>,
}

/// Answers a question about the program of `programs`, whose source file has a text and whose other
/// file has none. After the rows and the files comes the section of all texts.
pub fn answer<E: Endianity>(alloc: Global, case: &Case, order: E, out: &mut Answer) {
    let mut texts = LineStringTable::new(alloc);
    match write_case(alloc, case, &mut texts, order, out) {
        Ok(unit) => {
            programs::read(alloc, case, &unit, order, out);
            section(alloc, &texts, order, out);
        }
        Err(error) => out.refuse_to_write(error),
    }
}

// The section of a table, in hexadecimal.
fn section<E: Endianity>(alloc: Global, texts: &LineStringTable, order: E, out: &mut Answer) {
    let mut w = EndianVec::new(alloc, order);
    match texts.write(&mut w) {
        Ok(()) => {
            out.text(" ");
            out.digits(w.slice());
        }
        Err(error) => out.refuse_to_write(error),
    }
}

fn write_case<E: Endianity>(
    alloc: Global,
    case: &Case,
    texts: &mut LineStringTable,
    order: E,
    out: &mut Answer,
) -> Result<Vec<u8>, Error> {
    let (source, header) = files(alloc, texts, out)?;
    let mut program = program(alloc, case, source, out)?;
    if !case.program.is_bare {
        add_files_and_rows(&mut program, case, source, header, out)?;
    }
    let mut strings = StringTable::new(alloc);
    programs::unit(alloc, case, &program, &mut strings, texts, order, out)
}

// ---- texts

// The source file and the other one, whose texts are added to a table.
fn files(
    alloc: Global,
    texts: &mut LineStringTable,
    out: &mut Answer,
) -> Result<(FileTexts, FileTexts), Error> {
    let directory = text(alloc, texts, programs::DIRECTORY, out)?;
    let path = text(alloc, texts, programs::SOURCE, out)?;
    let source = FileTexts {
        directory,
        path,
        text: Some(text(alloc, texts, TEXT, out)?),
    };
    let directory = text(alloc, texts, programs::INCLUDES, out)?;
    let path = text(alloc, texts, programs::HEADER, out)?;
    let header = FileTexts {
        directory,
        path,
        text: None,
    };
    Ok((source, header))
}

fn text(
    alloc: Global,
    texts: &mut LineStringTable,
    bytes: &[u8],
    out: &mut Answer,
) -> Result<LineStringId, Error>
    requires { IsText bytes.now }
{
    match texts.add(alloc, bytes) {
        Err(Error::Memory) => {
            out.ask_again();
            texts.add(alloc, bytes)
        }
        added => added,
    }
}

// ---- programs

// A program of a source file and its directory.
fn new_program(alloc: Global, case: &Case, source: FileTexts) -> Result<LineProgram, Error> {
    let encoding = Encoding {
        address_size: if case.address_size == 4 { 4 } else { 8 },
        ..case.encoding()
    };
    let directory = LineString::LineStringRef(source.directory);
    let path = LineString::LineStringRef(source.path);
    match LineProgram::new(alloc, encoding, LineEncoding::default(), directory, path) {
        Ok(mut program) => {
            programs::record_details(case, &mut program);
            Ok(program)
        }
        Err(error) => Err(error),
    }
}

fn program(
    alloc: Global,
    case: &Case,
    source: FileTexts,
    out: &mut Answer,
) -> Result<LineProgram, Error> {
    match new_program(alloc, case, source) {
        Err(Error::Memory) => {
            out.ask_again();
            new_program(alloc, case, source)
        }
        made => made,
    }
}

fn add_files_and_rows(
    program: &mut LineProgram,
    case: &Case,
    source: FileTexts,
    header: FileTexts,
    out: &mut Answer,
) -> Result<(), Error> {
    let source = file(program, source, out)?;
    let header = file(program, header, out)?;
    programs::add_rows(program, case, source, header, out)
}

fn add_file(program: &mut LineProgram, file: FileTexts) -> Result<FileId, Error> {
    let info = FileInfo {
        timestamp: 0,
        size: 0,
        md5: [0; 16],
        source: file.text.map(|id| LineString::LineStringRef(id)),
    };
    match program.add_directory(LineString::LineStringRef(file.directory)) {
        Ok(directory) => {
            program.add_file(LineString::LineStringRef(file.path), directory, Some(info))
        }
        Err(error) => Err(error),
    }
}

fn file(program: &mut LineProgram, file: FileTexts, out: &mut Answer) -> Result<FileId, Error> {
    match add_file(program, file) {
        Err(Error::Memory) => {
            out.ask_again();
            add_file(program, file)
        }
        added => added,
    }
}
