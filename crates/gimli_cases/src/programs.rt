//! Line number programs that are built, written, and read in what was written (DWARF 5, 6.2).
//!
//! A call for which memory is refused is made again, on the program as the call left it.

ghost use Rattle.std.specs.Prelude.{◌<◌, length};
ghost use Rattle.gimli_lines.specs.StringSections.{IsText};

use crate::answer::Answer;
use crate::case::Case;
use crate::{by_reference, lines};
use gimli_core::{Encoding, EndianSlice, Endianity, LineEncoding};
use gimli_lines::DebugLine;
use gimli_lines::write::{
    Address, EndianVec, Error, FileId, FileInfo, LineProgram, LineRow, LineString, LineStringTable,
    StringTable,
};
use std::alloc::Global;

/// The working directory.
pub const DIRECTORY: &[u8] = b"/w";

/// The source file, which is there.
pub const SOURCE: &[u8] = b"a.c";

/// Another directory.
pub const INCLUDES: &[u8] = b"src";

/// A file in that one.
pub const HEADER: &[u8] = b"b.h";

/// Answers a question about the program of a unit of `/w/a.c`, with addresses of four bytes or else
/// of eight, and with one operation an instruction, or two where the size is 2. It has a row there
/// at the question's address, 5:1, and one in `src/b.h` 16 bytes after it, 20:2, which ends 32
/// bytes later. Its texts are in its header, or else in a table. Of `src/b.h` the index is the
/// time, the base the size, the first section the digest and the second the text.
pub fn answer<E: Endianity>(alloc: Global, case: &Case, order: E, out: &mut Answer) {
    if case.program.is_by_reference {
        by_reference::answer(alloc, case, order, out);
        return;
    }
    match write_case(alloc, case, order, out) {
        Ok(unit) => read(alloc, case, &unit, order, out),
        Err(error) => out.refuse_to_write(error),
    }
}

/// Answers the question about the unit of a program: its bytes, or what is read of them.
pub fn read<E: Endianity>(alloc: Global, case: &Case, unit: &[u8], order: E, out: &mut Answer) {
    match case.operation.as_str() {
        "line_unit" => out.digits(unit),
        _ => {
            let section = DebugLine::new(unit, order);
            let directory = EndianSlice::new(DIRECTORY, order);
            let name = EndianSlice::new(SOURCE, order);
            lines::answer(alloc, case, &section, directory, name, out);
        }
    }
}

fn write_case<E: Endianity>(
    alloc: Global,
    case: &Case,
    order: E,
    out: &mut Answer,
) -> Result<Vec<u8>, Error> {
    let mut program = program(alloc, case, DIRECTORY, SOURCE, out)?;
    let mut strings = StringTable::new(alloc);
    let mut line_strings = LineStringTable::new(alloc);
    if case.program.has_reference {
        add_reference(alloc, &mut program, &mut strings, INCLUDES)?;
    }
    if !case.program.is_bare {
        let source = file(alloc, None, &mut program, DIRECTORY, SOURCE, out)?;
        let header = file(alloc, Some(case), &mut program, INCLUDES, HEADER, out)?;
        add_rows(&mut program, case, source, header, out)?;
    }
    unit(
        alloc,
        case,
        &program,
        &mut strings,
        &mut line_strings,
        order,
        out,
    )
}

// Adds a directory whose text is in `.debug_str`.
fn add_reference(
    alloc: Global,
    program: &mut LineProgram,
    strings: &mut StringTable,
    text: &[u8],
) -> Result<(), Error>
    requires { IsText text.now }
{
    let id = strings.add(alloc, text)?;
    let _directory = program.add_directory(LineString::StringRef(id))?;
    Ok(())
}

// A program of a working directory and a source file, whose texts are in its header.
fn new_program(
    alloc: Global,
    case: &Case,
    directory: &[u8],
    source: &[u8],
) -> Result<LineProgram, Error>
    requires directory { IsText directory.now }
    requires source { IsText source.now }
{
    let encoding = Encoding {
        address_size: if case.address_size == 4 { 4 } else { 8 },
        ..case.encoding()
    };
    let line_encoding = LineEncoding {
        maximum_operations_per_instruction: if case.size == 2 { 2 } else { 1 },
        ..LineEncoding::default()
    };
    let directory = LineString::String(Vec::from_slice(alloc, directory)?);
    let source = LineString::String(Vec::from_slice(alloc, source)?);
    match LineProgram::new(alloc, encoding, line_encoding, directory, source) {
        Ok(mut program) => {
            record_details(case, &mut program);
            Ok(program)
        }
        Err(error) => Err(error),
    }
}

/// Has a program record what the question says of files.
pub fn record_details(case: &Case, program: &mut LineProgram) {
    program.file_has_timestamp = case.program.has_timestamps;
    program.file_has_size = case.program.has_sizes;
    program.file_has_md5 = case.program.has_digests;
    program.file_has_source = case.program.has_sources;
}

/// The program of a question without files and rows.
pub fn program(
    alloc: Global,
    case: &Case,
    directory: &[u8],
    source: &[u8],
    out: &mut Answer,
) -> Result<LineProgram, Error>
    requires directory { IsText directory.now }
    requires source { IsText source.now }
{
    match new_program(alloc, case, directory, source) {
        Err(Error::Memory) => {
            out.ask_again();
            new_program(alloc, case, directory, source)
        }
        made => made,
    }
}

// Adds a file and its directory, whose texts are in the header, with the details of a question.
fn add_file(
    alloc: Global,
    details: Option<&Case>,
    program: &mut LineProgram,
    directory: &[u8],
    path: &[u8],
) -> Result<FileId, Error>
    requires directory { IsText directory.now }
    requires named { 0 < length directory.now }
    requires path { IsText path.now }
    requires not_empty { 0 < length path.now }
{
    let directory = LineString::String(Vec::from_slice(alloc, directory)?);
    let path = LineString::String(Vec::from_slice(alloc, path)?);
    let info = match details {
        Some(case) => details_of(alloc, case)?,
        None => FileInfo::default(),
    };
    let id = program.add_directory(directory)?;
    program.add_file(path, id, Some(info))
}

// What a question says of a file.
fn details_of(alloc: Global, case: &Case) -> Result<FileInfo, Error> {
    let text = case.section(1);
    let source = if text.is_empty() {
        None
    } else {
        Some(LineString::String(Vec::from_slice(alloc, text)?))
    };
    Ok(FileInfo {
        timestamp: case.index,
        size: case.base,
        md5: match case.section(0).first_chunk::<16>() {
            Some(digest) => *digest,
            None => [0; 16],
        },
        source,
    })
}

fn file(
    alloc: Global,
    details: Option<&Case>,
    program: &mut LineProgram,
    directory: &[u8],
    path: &[u8],
    out: &mut Answer,
) -> Result<FileId, Error>
    requires directory { IsText directory.now }
    requires named { 0 < length directory.now }
    requires path { IsText path.now }
    requires not_empty { 0 < length path.now }
{
    match add_file(alloc, details, program, directory, path) {
        Err(Error::Memory) => {
            out.ask_again();
            add_file(alloc, details, program, directory, path)
        }
        added => added,
    }
}

// ---- rows

/// Adds the rows of a program, from the question's address on.
pub fn add_rows(
    program: &mut LineProgram,
    case: &Case,
    source: FileId,
    header: FileId,
    out: &mut Answer,
) -> Result<(), Error> {
    begin(program, Some(Address::Constant(case.value)), out)?;
    add_row(program, (0, 5, 1), source, out)?;
    if case.program.goes_back {
        set_address(program, Address::Constant(0), out)?;
    }
    add_row(program, (16, 20, 2), header, out)?;
    // It can't end before its last row.
    end(program, 8, out)?;
    end(program, 48, out)
}

/// Begins a sequence, where none is open.
pub fn begin(
    program: &mut LineProgram,
    address: Option<Address>,
    out: &mut Answer,
) -> Result<(), Error> {
    if program.in_sequence() {
        return Ok(());
    }
    match program.begin_sequence(address) {
        Err(Error::Memory) => {
            out.ask_again();
            program.begin_sequence(address)
        }
        done => done,
    }
}

// Sets an address, where a sequence is open.
fn set_address(program: &mut LineProgram, address: Address, out: &mut Answer) -> Result<(), Error> {
    if !program.in_sequence() {
        return Ok(());
    }
    match program.set_address(address) {
        Err(Error::Memory) => {
            out.ask_again();
            program.set_address(address)
        }
        done => done,
    }
}

// Adds a row of an offset, a line and a column, where it can follow.
fn add_row(
    program: &mut LineProgram,
    place: (u64, u64, u64),
    file: FileId,
    out: &mut Answer,
) -> Result<(), Error> {
    let (address_offset, line, column) = place;
    let row = LineRow {
        address_offset,
        line,
        column,
        file,
        ..program.row()
    };
    program.set_row(row);
    if !program.can_row() {
        return Ok(());
    }
    match program.generate_row() {
        Err(Error::Memory) => {
            out.ask_again();
            program.generate_row()
        }
        done => done,
    }
}

// Ends the sequence, where it can end there.
fn end(program: &mut LineProgram, offset: u64, out: &mut Answer) -> Result<(), Error> {
    if !program.can_end(offset) {
        return Ok(());
    }
    match program.end_sequence(offset) {
        Err(Error::Memory) => {
            out.ask_again();
            program.end_sequence(offset)
        }
        done => done,
    }
}

// ---- units

/// The unit of a program, with the texts of the tables. Where the question is about its bytes, the
/// answer begins with whether it can be written.
pub fn unit<E: Endianity>(
    alloc: Global,
    case: &Case,
    program: &LineProgram,
    strings: &mut StringTable,
    line_strings: &mut LineStringTable,
    order: E,
    out: &mut Answer,
) -> Result<Vec<u8>, Error> {
    if case.operation.as_str() == "line_unit" {
        out.word(&program.can_write(strings, line_strings));
    }
    match write(alloc, program, order, strings, line_strings) {
        Err(Error::Memory) => {
            out.ask_again();
            write(alloc, program, order, strings, line_strings)
        }
        written => written,
    }
}

// Its bytes, with the texts of the tables; none of a program that can't be written with them.
fn write<E: Endianity>(
    alloc: Global,
    program: &LineProgram,
    order: E,
    strings: &mut StringTable,
    line_strings: &mut LineStringTable,
) -> Result<Vec<u8>, Error> {
    let mut w = EndianVec::new(alloc, order);
    if !program.is_none() && program.has_texts(strings, line_strings) {
        program.write(alloc, &mut w, strings, line_strings)?;
    }
    Ok(w.into_vec())
}
