//! Checks of headers: the same refusals as reading, with nothing kept and no memory taken.

ghost use Rattle.std.specs.Prelude.{◌≡◌, ◌≤◌, ℕ, IsTrue, Option, length, take};
ghost use Rattle.std.specs.Option.{is_some};
ghost use Rattle.gimli_units_headers.specs.Calls.{Returns, ReturnsAs};
ghost use Rattle.gimli_units_headers.specs.NumberParsers.{initial_length, is_address_size};
ghost use Rattle.gimli_units_headers.specs.Parsers.{map_value, part, value_of};
ghost use Rattle.gimli_units_headers.specs.Repetition.{times};
ghost use Rattle.gimli_units_headers.specs.Results.{refusal_of};
ghost use Rattle.gimli_units_headers.specs.View.{View};
ghost use Rattle.gimli_lines_header.specs.Checks.{check};
ghost use Rattle.gimli_lines_header.specs.TableEntries.{entry_format, entry_formats, entry_fields};
ghost use Rattle.gimli_lines_header.specs.HeaderTables.{directory_text, file_text, directory_texts, file_texts, directories_of_5, files_of_5, directories, files};
ghost use Rattle.gimli_lines_header.specs.HeaderParsing.{Bounds, opcodes, header_fields, header_in, header_at};

use crate::field_values::{check_value, read_number, read_word, skip_bytes, skip_text};
use crate::formats::{FileEntryFormat, lists_one_path, parse_format};
use crate::parsing::{parse_parameters, parse_sizes};
use crate::section::DebugLine;
use gimli_units_forms::borrowed;
use gimli_units_headers::{
    DWARF64_ESCAPE, DebugLineOffset, DwForm, DwLnct, Encoding, EndianSlice, Endianity, Error,
    FIRST_RESERVED_LENGTH, Format, Reader, ReaderOffset, Section,
};

// Room for as many formats as a byte counts.
const NO_FORMATS: [FileEntryFormat; 255] = [FileEntryFormat {
    content_type: DwLnct(0),
    form: DwForm(0),
}; 255];

// ---- up to version 4

// Checks a directory, and says whether there is one: an empty text ends them.
fn check_directory_text<I: Reader>(input: &mut I) -> Result<bool, Error>
    ensures { ReturnsAs (λ is_there. (is_there, I.view input.new)) result
        (map_value is_some directory_text (I.view input.old)) }
{
    Ok(skip_text(input)? != 0)
}

// Checks a file, and says whether there is one: an empty path ends them.
fn check_file_text<I: Reader>(input: &mut I) -> Result<bool, Error>
    ensures { ReturnsAs (λ is_there. (is_there, I.view input.new)) result
        (map_value is_some file_text (I.view input.old)) }
{
    if skip_text(input)? == 0 {
        return Ok(false);
    }
    read_number(input)?;
    read_number(input)?;
    read_number(input)?;
    Ok(true)
}

// Checks the directories up to an empty text.
#[tactic(auto, unfolding(crate::specs::HeaderTables::directory_texts))]
fn check_directory_texts<I: Reader>(input: &mut I) -> Result<(), Error>
    ensures { ReturnsAs (λ _. (tt, I.view input.new)) result
        (check directory_texts (I.view input.old)) }
{
    while check_directory_text(input)? {}
    Ok(())
}

// Checks the files up to an empty path.
#[tactic(auto, unfolding(crate::specs::HeaderTables::file_texts))]
fn check_file_texts<I: Reader>(input: &mut I) -> Result<(), Error>
    ensures { ReturnsAs (λ _. (tt, I.view input.new)) result
        (check file_texts (I.view input.old)) }
{
    while check_file_text(input)? {}
    Ok(())
}

// ---- in version 5

// Reads `count` formats into the first places of their room.
fn read_counted_formats<I: Reader>(
    input: &mut I,
    count: u8,
    room: &mut [FileEntryFormat],
) -> Result<(), Error>
    requires { 255 ≤ length room.old }
    ensures value { ReturnsAs (λ _. (take count room.new, I.view input.new)) result
        (times count entry_format (I.view input.old)) }
    ensures room { length room.new ≡ length room.old }
{
    for place in 0..count {
        room[usize::from(place)] = parse_format(input)?;
    }
    Ok(())
}

// Reads as many formats as a byte says into the first places of their room, and returns how many
// there are.
#[tactic(auto, unfolding(crate::specs::TableEntries::entry_formats))]
fn read_formats<I: Reader>(input: &mut I, room: &mut [FileEntryFormat]) -> Result<u8, Error>
    requires { 255 ≤ length room.old }
    ensures value { ReturnsAs (λ count. (take count room.new, I.view input.new)) result
        (entry_formats (I.view input.old)) }
    ensures room { length room.new ≡ length room.old }
{
    let count = input.read_u8()?;
    read_counted_formats(input, count, room)?;
    if !lists_one_path(&room[..usize::from(count)]) {
        return Err(Error::MissingFileEntryFormatPath);
    }
    Ok(count)
}

// Checks the fields of an entry.
#[inline(always)]
fn check_entry<O: ReaderOffset, I: Reader>(
    input: &mut I,
    encoding: Encoding,
    formats: &[FileEntryFormat],
) -> Result<(), Error>
    ensures { ReturnsAs (λ _. (tt, I.view input.new)) result
        (check (entry_fields O.limit encoding formats.now) (I.view input.old)) }
{
    for format in formats {
        check_value::<O, I>(input, encoding, format.form)?;
    }
    Ok(())
}

// Checks `count` entries.
fn check_counted_entries<O: ReaderOffset, I: Reader>(
    input: &mut I,
    encoding: Encoding,
    formats: &[FileEntryFormat],
    count: u64,
) -> Result<(), Error>
    ensures { ReturnsAs (λ _. (tt, I.view input.new)) result
        (check (times count (entry_fields O.limit encoding formats.now)) (I.view input.old)) }
{
    for _entry in 0..count {
        check_entry::<O, I>(input, encoding, formats)?;
    }
    Ok(())
}

// Checks formats, and as many entries as a number says.
#[tactic(auto, using(crate::proofs::EntryChecks::described_tables))]
fn check_described<O: ReaderOffset, I: Reader>(
    input: &mut I,
    encoding: Encoding,
) -> Result<(), Error>
    ensures directories { ReturnsAs (λ _. (tt, I.view input.new)) result
        (check (directories_of_5 O.limit encoding) (I.view input.old)) }
    ensures files { ReturnsAs (λ _. (tt, I.view input.new)) result
        (check (files_of_5 O.limit encoding) (I.view input.old)) }
{
    let mut room = NO_FORMATS;
    let formats = read_formats(input, &mut room)?;
    let count = input.read_uleb128()?;
    check_counted_entries::<O, I>(input, encoding, &room[..usize::from(formats)], count)
}

// ---- in every version

// Checks the directories.
#[tactic(auto, unfolding(crate::specs::HeaderTables::directories))]
fn check_directories<O: ReaderOffset, I: Reader>(
    input: &mut I,
    encoding: Encoding,
) -> Result<(), Error>
    ensures { ReturnsAs (λ _. (tt, I.view input.new)) result
        (check (directories O.limit encoding) (I.view input.old)) }
{
    if encoding.version > 4 {
        check_described::<O, I>(input, encoding)
    } else {
        check_directory_texts(input)
    }
}

// Checks the files.
#[tactic(auto, unfolding(crate::specs::HeaderTables::files))]
fn check_files<O: ReaderOffset, I: Reader>(input: &mut I, encoding: Encoding) -> Result<(), Error>
    ensures { ReturnsAs (λ _. (tt, I.view input.new)) result
        (check (files O.limit encoding) (I.view input.old)) }
{
    if encoding.version > 4 {
        check_described::<O, I>(input, encoding)
    } else {
        check_file_texts(input)
    }
}

// Checks the first special opcode, and the lengths of the standard opcodes below it.
#[tactic(auto, unfolding(crate::specs::HeaderParsing::opcodes))]
fn check_opcodes<I: Reader>(input: &mut I) -> Result<(), Error>
    ensures { ReturnsAs (λ _. (tt, I.view input.new)) result (check opcodes (I.view input.old)) }
{
    match input.read_u8()? {
        0 => Err(Error::OpcodeBaseZero),
        opcode_base => skip_bytes(input, u64::from(opcode_base - 1)),
    }
}

// Checks the fields of a header, whatever is known before them.
fn check_fields<O: ReaderOffset, I: Reader>(input: &mut I, encoding: Encoding) -> Result<(), Error>
    ensures { (directory name : Option View) (bounds : Bounds) → bounds.encoding ≡ encoding
        → ReturnsAs (λ _. (tt, I.view input.new)) result
        (check (header_fields O.limit directory name bounds) (I.view input.old)) }
{
    parse_parameters(input, encoding.version)?;
    check_opcodes(input)?;
    check_directories::<O, I>(input, encoding)?;
    check_files::<O, I>(input, encoding)
}

// An initial length and its format, as an offset of another type than the reader's.
#[tactic(auto, using(crate::proofs::FieldValues::length_parts))]
fn read_initial_length<O: ReaderOffset, I: Reader>(input: &mut I) -> Result<(O, Format), Error>
    ensures { ReturnsAs (λ p. ((O.count p.0, p.1), I.view input.new)) result
        (initial_length O.limit (I.view input.old)) }
{
    let word = input.read_u32()?;
    match word {
        0..FIRST_RESERVED_LENGTH => Ok((O::from_u32(word), Format::Dwarf32)),
        DWARF64_ESCAPE => {
            let length = input.read_u64()?;
            Ok((O::from_u64(length)?, Format::Dwarf64))
        }
        _ => Err(Error::UnknownReservedLength(word)),
    }
}

// The next bytes of a place, as a place of their own.
fn split<'a, E: Endianity>(
    place: &mut EndianSlice<'a, E>,
    length: u64,
) -> Result<EndianSlice<'a, E>, Error>
    ensures { ReturnsAs (λ next. (next, place.new)) result (part length place.old) }
{
    if (place.slice().len() as u64) < length {
        return Err(Error::UnexpectedEof(place.offset_id()));
    }
    let (next, rest) = place.split_at(length as usize);
    *place = rest;
    Ok(next)
}

// Checks a header after its length.
fn check_after_length<O: ReaderOffset, E: Endianity>(
    program: EndianSlice<'_, E>,
    format: Format,
    address_size: u8,
) -> Result<(), Error>
    requires { IsTrue (is_address_size address_size) }
    ensures { (offset unit_length : ℕ) (directory name : Option View) → Returns result
        (refusal_of (value_of (header_in O.limit offset
        (record { address_bytes = address_size; directory = directory; name = name })
        unit_length format program.entry))) }
{
    let mut program = program;
    let encoding = parse_sizes(&mut program, format, address_size)?;
    let header_length = read_word::<O, EndianSlice<'_, E>>(&mut program, format)?;
    let mut header = split(&mut program, header_length.into_u64())?;
    check_fields::<O, EndianSlice<'_, E>>(&mut header, encoding)
}

impl<R: Reader> DebugLine<R> {
    /// Whether the header at an offset of the section can be read, whatever the directory and the
    /// name of its unit are: the refusal of `header`, or none. Keeps nothing, and never takes
    /// memory.
    pub fn check_header(
        &self,
        offset: DebugLineOffset<R::Offset>,
        address_size: u8,
    ) -> Result<(), Error>
        requires { IsTrue (is_address_size address_size) }
        ensures { (directory name : Option View) → Returns result
            (refusal_of (header_at R.Offset.limit (R.Offset.count offset.0)
            (record { address_bytes = address_size; directory = directory; name = name })
            self.now)) }
    {
        let mut place = borrowed(self.reader());
        skip_bytes(&mut place, offset.0.into_u64())?;
        let (unit_length, format) = read_initial_length::<R::Offset, EndianSlice<'_, R::Endian>>(
            &mut place,
        )?;
        let program = split(&mut place, unit_length.into_u64())?;
        check_after_length::<R::Offset, R::Endian>(program, format, address_size)
    }
}
