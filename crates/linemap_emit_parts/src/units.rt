//! Units: a length, a header, and the entries.

ghost use Rattle.std.specs.Prelude.{◌≡◌, ◌<◌, ◌^◌, length, All};
ghost use Rattle.gimli_lines_write_bytes.specs.Fixed.{number_bytes};
ghost use Rattle.gimli_lines_write_bytes.specs.FormatSizes.{word_size};
ghost use Rattle.linemap_emit_parts.specs.WriteResults.{Appends};
ghost use Rattle.linemap_emit_parts.specs.EmittedEntries.{AllFit, attributes_of};
ghost use Rattle.linemap_emit_parts.specs.EmittedEntryRows.{spelled_entries};
ghost use Rattle.linemap_emit_parts.specs.EmittedUnits.{IsWritten, spelled_fields, spelled_unit_body, spelled_unit, entries_start, root_size, abstract_size, abstract_offset};
ghost use Rattle.gimli_lines_write_bytes.specs.NumberBytes.{length_limit, spelled_length};

use crate::entries::{Entry, write_entry};
use gimli_lines_write_bytes::{
    DW_UT_compile, Encoding, EndianVec, Error, Format, RunTimeEndian, Writer,
};
use std::alloc::Global;

/// Writes a length, after the escape of 64-bit DWARF (DWARF 5, 7.4). Refused only when out of
/// memory.
pub fn write_length(
    w: &mut EndianVec<RunTimeEndian>,
    format: Format,
    length: u64,
) -> Result<(), Error>
    requires { length < length_limit format }
    ensures { Appends result w.old w.new (spelled_length format w.old.is_big length) }
{
    match format {
        Format::Dwarf32 => w.write_udata(length, 4),
        Format::Dwarf64 => {
            w.write(&[0xff, 0xff, 0xff, 0xff])?;
            w.write_u64(length)
        }
    }
}

// The bytes of a unit before its entries.
fn entries_start(encoding: Encoding) -> u64
    ensures { result ≡ entries_start encoding }
{
    let fields = if encoding.version <= 4 { 3 } else { 4 };
    let format = encoding.format;
    u64::from(format.initial_length_size()) + fields + u64::from(format.word_size())
}

// The bytes of a unit's root.
fn root_size(encoding: Encoding) -> u64
    ensures { result ≡ root_size encoding }
{
    1 + 4 * u64::from(encoding.format.word_size()) + u64::from(encoding.address_size)
}

/// The offset from the start of its unit of the abstract function of a number. These functions are
/// numbered from 0, and come directly after the root.
pub fn abstract_offset(encoding: Encoding, number: u64) -> u64
    requires { number < 2 ^ 31 }
    ensures { result ≡ abstract_offset encoding number }
{
    let abstract_size = 1 + u64::from(encoding.format.word_size());
    entries_start(encoding) + root_size(encoding) + number * abstract_size
}

// Writes the offset of the declarations, which is 0.
fn write_offset_0(w: &mut EndianVec<RunTimeEndian>, format: Format) -> Result<(), Error>
    ensures { Appends result w.old w.new (number_bytes w.old.is_big (word_size format) 0) }
{
    w.write_udata(0, format.word_size())
}

// Writes the header of a unit after its length.
fn write_fields(w: &mut EndianVec<RunTimeEndian>, encoding: Encoding) -> Result<(), Error>
    requires { IsWritten encoding }
    ensures { Appends result w.old w.new (spelled_fields encoding w.old.is_big) }
{
    w.write_u16(encoding.version)?;
    if encoding.version <= 4 {
        write_offset_0(w, encoding.format)?;
        w.write_u8(encoding.address_size)
    } else {
        w.write_u8(DW_UT_compile.0)?;
        w.write_u8(encoding.address_size)?;
        write_offset_0(w, encoding.format)
    }
}

// Writes entries one after the other.
fn write_entries(
    w: &mut EndianVec<RunTimeEndian>,
    encoding: Encoding,
    entries: &[Entry],
) -> Result<(), Error>
    requires written { IsWritten encoding }
    requires fit { All (λ x. AllFit (2 ^ 64) encoding (attributes_of x)) entries.now }
    ensures { Appends result w.old w.new (spelled_entries encoding w.old.is_big entries.now) }
{
    for entry in entries {
        write_entry(w, encoding, *entry)?;
    }
    Ok(())
}

/// Writes a unit with its entries. Refused only when out of memory.
pub fn write_unit(
    alloc: Global,
    w: &mut EndianVec<RunTimeEndian>,
    encoding: Encoding,
    entries: &[Entry],
) -> Result<(), Error>
    requires written { IsWritten encoding }
    requires fit { All (λ x. AllFit (2 ^ 64) encoding (attributes_of x)) entries.now }
    requires small { length (spelled_unit_body encoding w.old.is_big entries.now)
        < length_limit encoding.format }
    ensures { Appends result w.old w.new (spelled_unit encoding w.old.is_big entries.now) }
{
    let mut body = EndianVec::new(alloc, w.endian());
    write_fields(&mut body, encoding)?;
    write_entries(&mut body, encoding, entries)?;
    write_length(w, encoding.format, body.len() as u64)?;
    w.write(body.slice())
}
