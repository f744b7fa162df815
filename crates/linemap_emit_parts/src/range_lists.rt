//! Range lists as they are written.

ghost use Rattle.std.specs.Prelude.{◌≡◌, ◌<◌, ◌≤◌, ◌+◌, ◌^◌, ◌∷◌, ◌++◌, true};
ghost use Rattle.gimli_lines_write_bytes.specs.NumberParsers.{is_address_size};
ghost use Rattle.gimli_lines_write_bytes.specs.Fixed.{number_bytes};
ghost use Rattle.gimli_lines_write_bytes.specs.NumberBytes.{length_limit};
ghost use Rattle.linemap_emit_parts.specs.WriteResults.{Appends};
ghost use Rattle.linemap_emit_parts.specs.EmittedRanges.{AllWritable, IsWritable, spelled_pair, spelled_range, spelled_end, spelled_ranges, spelled_lists_header, lists_start};

use crate::units::write_length;
use gimli_lines_write_bytes::{
    DW_RLE_end_of_list, DW_RLE_start_end, Encoding, EndianVec, Error, RunTimeEndian, Writer,
};
use gimli_units_lists::Range;

// Writes two addresses.
fn write_pair(w: &mut EndianVec<RunTimeEndian>, size: u8, begin: u64, end: u64) -> Result<(), Error>
    requires size { is_address_size size ≡ true }
    requires begins { begin < 256 ^ size }
    requires ends { end < 256 ^ size }
    ensures { Appends result w.old w.new (spelled_pair size w.old.is_big begin end) }
{
    w.write_udata(begin, size)?;
    w.write_udata(end, size)
}

// Writes a range.
#[tactic(auto, using(crate::proofs::EmittedRangesRead::range_ends))]
fn write_range(
    w: &mut EndianVec<RunTimeEndian>,
    encoding: Encoding,
    range: Range,
) -> Result<(), Error>
    requires size { is_address_size encoding.address_size ≡ true }
    requires can_write { IsWritable encoding.address_size range }
    ensures { Appends result w.old w.new (spelled_range encoding w.old.is_big range) }
{
    if encoding.version > 4 {
        w.write_u8(DW_RLE_start_end.0)?;
    }
    write_pair(w, encoding.address_size, range.begin, range.end)
}

// Writes what ends a list.
fn write_end(w: &mut EndianVec<RunTimeEndian>, encoding: Encoding) -> Result<(), Error>
    requires { is_address_size encoding.address_size ≡ true }
    ensures { Appends result w.old w.new (spelled_end encoding w.old.is_big) }
{
    if encoding.version > 4 {
        return w.write_u8(DW_RLE_end_of_list.0);
    }
    write_pair(w, encoding.address_size, 0, 0)
}

/// Writes a list of ranges. Refused only when out of memory.
pub fn write_ranges(
    w: &mut EndianVec<RunTimeEndian>,
    encoding: Encoding,
    ranges: &[Range],
) -> Result<(), Error>
    requires size { is_address_size encoding.address_size ≡ true }
    requires can_write { AllWritable encoding.address_size ranges.now }
    ensures { Appends result w.old w.new (spelled_ranges encoding w.old.is_big ranges.now) }
{
    for range in ranges {
        write_range(w, encoding, *range)?;
    }
    write_end(w, encoding)
}

/// Where lists begin in their section: from version 5 on after a header (DWARF 5, 7.28).
pub fn lists_start(encoding: Encoding) -> u64
    ensures start { result ≡ lists_start encoding }
    ensures few { result ≤ 20 }
{
    if encoding.version <= 4 {
        return 0;
    }
    encoding.format.initial_length_size() as u64 + 8
}

// Writes what comes after the length of that header.
fn write_list_sizes(w: &mut EndianVec<RunTimeEndian>, encoding: Encoding) -> Result<(), Error>
    ensures { Appends result w.old w.new (number_bytes w.old.is_big 2 encoding.version
        ++ (encoding.address_size ∷ 0 ∷ number_bytes w.old.is_big 4 0)) }
{
    w.write_u16(encoding.version)?;
    w.write(&[encoding.address_size, 0])?;
    w.write_u32(0)
}

/// Writes the header before lists of a size, where the version has one. Refused only when out of
/// memory.
pub fn write_lists_header(
    w: &mut EndianVec<RunTimeEndian>,
    encoding: Encoding,
    size: u64,
) -> Result<(), Error>
    requires { 8 + size < length_limit encoding.format }
    ensures { Appends result w.old w.new (spelled_lists_header encoding w.old.is_big size) }
{
    if encoding.version <= 4 {
        return Ok(());
    }
    write_length(w, encoding.format, 8 + size)?;
    write_list_sizes(w, encoding)
}
