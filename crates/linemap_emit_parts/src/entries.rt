//! Entries as they are written.

ghost use Rattle.std.specs.Prelude.{◌≡◌, ◌<◌, ◌^◌, ◌++◌, true};
ghost use Rattle.gimli_lines_write_bytes.specs.FormatSizes.{word_size};
ghost use Rattle.gimli_lines_write_bytes.specs.Fixed.{number_bytes};
ghost use Rattle.gimli_lines_write_bytes.specs.NumberParsers.{is_address_size};
ghost use Rattle.gimli_lines_write_bytes.specs.Spelling.{unsigned_string};
ghost use Rattle.linemap_emit_parts.specs.WriteResults.{Appends};
ghost use Rattle.linemap_emit_parts.specs.EmittedEntries.{AllFit, attributes_of, abbreviation_code, spelled_entry};

use gimli_lines_write_bytes::{Encoding, EndianVec, Error, Format, RunTimeEndian, Writer};

/// An entry of a unit as it is written (DWARF 5, 7.5.3). Texts are offsets in the string section.
#[derive(Clone, Copy, Debug, PartialEq, Eq)]
pub enum Entry {
    /// A compilation unit: its name and directory, and the offsets of its line program and of its
    /// ranges. Its low address is 0.
    CompileUnit {
        name: u64,
        directory: u64,
        line_program: u64,
        ranges: u64,
    },
    /// A function that is inlined somewhere, without code of its own (DWARF 5, 3.3.8.1): its name.
    AbstractFunction {
        name: u64,
    },
    /// A function: its name, and the offset of its ranges.
    Function {
        has_children: bool,
        name: u64,
        ranges: u64,
    },
    /// An inlined call: the offset of the abstract function from the start of the unit, the offset
    /// of its ranges, and where it is called.
    Call {
        has_children: bool,
        origin: u64,
        ranges: u64,
        file: u64,
        line: u64,
        column: u64,
    },
    /// The end of an entry's children.
    EndOfChildren,
}

impl Entry {
    // The code of its declaration.
    fn code(self) -> u64
        ensures { result ≡ abbreviation_code self }
    {
        match self {
            Entry::CompileUnit { .. } => 1,
            Entry::Function { has_children, .. } => if has_children { 2 } else { 3 },
            Entry::Call { has_children, .. } => if has_children { 4 } else { 5 },
            Entry::AbstractFunction { .. } => 6,
            Entry::EndOfChildren => 0,
        }
    }
}

// Writes an offset into another section.
fn write_word(w: &mut EndianVec<RunTimeEndian>, format: Format, offset: u64) -> Result<(), Error>
    requires { offset < 256 ^ word_size format }
    ensures { Appends result w.old w.new (number_bytes w.old.is_big (word_size format) offset) }
{
    w.write_udata(offset, format.word_size())
}

// Writes an address.
fn write_address(w: &mut EndianVec<RunTimeEndian>, size: u8, address: u64) -> Result<(), Error>
    requires size { is_address_size size ≡ true }
    requires fits { address < 256 ^ size }
    ensures { Appends result w.old w.new (number_bytes w.old.is_big size address) }
{
    w.write_udata(address, size)
}

// Writes the offset of an entry from the start of its unit.
fn write_reference(w: &mut EndianVec<RunTimeEndian>, offset: u64) -> Result<(), Error>
    requires { offset < 256 ^ 4 }
    ensures { Appends result w.old w.new (number_bytes w.old.is_big 4 offset) }
{
    w.write_udata(offset, 4)
}

// Writes the file, line and column of a call.
fn write_place(
    w: &mut EndianVec<RunTimeEndian>,
    file: u64,
    line: u64,
    column: u64,
) -> Result<(), Error>
    ensures { Appends result w.old w.new
        (unsigned_string file ++ (unsigned_string line ++ unsigned_string column)) }
{
    w.write_uleb128(file)?;
    w.write_uleb128(line)?;
    w.write_uleb128(column)
}

/// Writes an entry. Refused only when out of memory.
pub fn write_entry(
    w: &mut EndianVec<RunTimeEndian>,
    encoding: Encoding,
    entry: Entry,
) -> Result<(), Error>
    requires size { is_address_size encoding.address_size ≡ true }
    requires fits { AllFit (2 ^ 64) encoding (attributes_of entry) }
    ensures { Appends result w.old w.new (spelled_entry encoding w.old.is_big entry) }
{
    w.write_uleb128(entry.code())?;
    match entry {
        Entry::CompileUnit {
            name,
            directory,
            line_program,
            ranges,
        } => {
            write_word(w, encoding.format, name)?;
            write_word(w, encoding.format, directory)?;
            write_word(w, encoding.format, line_program)?;
            write_address(w, encoding.address_size, 0)?;
            write_word(w, encoding.format, ranges)
        }
        Entry::Function { name, ranges, .. } => {
            write_word(w, encoding.format, name)?;
            write_word(w, encoding.format, ranges)
        }
        Entry::AbstractFunction { name } => write_word(w, encoding.format, name),
        Entry::Call {
            origin,
            ranges,
            file,
            line,
            column,
            ..
        } => {
            write_reference(w, origin)?;
            write_word(w, encoding.format, ranges)?;
            write_place(w, file, line, column)
        }
        Entry::EndOfChildren => Ok(()),
    }
}
