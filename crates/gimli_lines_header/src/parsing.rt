//! How the header of a line number program is read.

ghost use Rattle.std.specs.Prelude.{◌≡◌, ◌+◌, ◌≤◌, ◌<◌, IsTrue, IfOk, option_map};
ghost use Rattle.gimli_units_headers.specs.Calls.{ReturnsAs, ReturnsAsOrNoMemory, ReturnsOrNoMemory};
ghost use Rattle.gimli_units_headers.specs.View.{bytes_left};
ghost use Rattle.gimli_units_headers.specs.NumberParsers.{is_address_size};
ghost use Rattle.gimli_units_forms.specs.AttributeValues.{raw_value_of, string};
ghost use Rattle.gimli_lines_header.specs.LineFiles.{file_named};
ghost use Rattle.gimli_lines_header.specs.HeaderBounds.{bounds_of};
ghost use Rattle.gimli_lines_header.specs.HeaderParsing.{line_unit, line_sizes, operations, line_parameters, opcodes, header_fields, line_header, header_at};

use crate::file::FileEntry;
use crate::header::LineProgramHeader;
use crate::section::DebugLine;
use crate::tables::{parse_directories, parse_files};
use gimli_units_forms::AttributeValue;
use gimli_units_headers::{
    DebugLineOffset, Encoding, Error, Format, LineEncoding, Reader, ReaderOffset, Section,
};
use std::alloc::Global;

// The version, and the sizes of fields.
#[tactic(auto, unfolding(crate::proofs::Unfoldings::all_of_sizes))]
pub(crate) fn parse_sizes<R: Reader>(
    input: &mut R,
    format: Format,
    address_size: u8,
) -> Result<Encoding, Error>
    requires { IsTrue (is_address_size address_size) }
    ensures value { ReturnsAs (λ encoding. (encoding, R.view input.new)) result
        (line_sizes format address_size (R.view input.old)) }
    ensures versions { IfOk result (λ encoding. (2 ≤ encoding.version)
        × (encoding.version ≤ 5)) }
    ensures address { IfOk result (λ encoding. IsTrue (is_address_size encoding.address_size)) }
{
    let version = input.read_u16()?;
    match version {
        2..=4 => Ok(Encoding {
            address_size,
            format,
            version,
        }),
        5 => {
            let address_size = input.read_address_size()?;
            if input.read_u8()? != 0 {
                return Err(Error::UnsupportedSegmentSize);
            }
            Ok(Encoding {
                address_size,
                format,
                version,
            })
        }
        _ => Err(Error::UnknownVersion(u64::from(version))),
    }
}

// The operations of an instruction: a field from version 4 on.
#[tactic(auto, unfolding(crate::proofs::Unfoldings::all_of_operations))]
fn parse_operations<R: Reader>(input: &mut R, version: u16) -> Result<u8, Error>
    ensures value { ReturnsAs (λ n. (n, R.view input.new)) result
        (operations version (R.view input.old)) }
    ensures some { IfOk result (λ n. 0 < n) }
{
    if version < 4 {
        return Ok(1);
    }
    match input.read_u8()? {
        0 => Err(Error::MaximumOperationsPerInstructionZero),
        operations => Ok(operations),
    }
}

// The parameters of special opcodes.
#[tactic(auto, unfolding(crate::specs::HeaderParsing::line_parameters))]
pub(crate) fn parse_parameters<R: Reader>(
    input: &mut R,
    version: u16,
) -> Result<LineEncoding, Error>
    ensures value { ReturnsAs (λ encoding. (encoding, R.view input.new)) result
        (line_parameters version (R.view input.old)) }
    ensures some { IfOk result (λ e. (0 < e.minimum_instruction_length)
        × (0 < e.maximum_operations_per_instruction) × (0 < e.line_range)) }
{
    let minimum_instruction_length = input.read_u8()?;
    if minimum_instruction_length == 0 {
        return Err(Error::MinimumInstructionLengthZero);
    }
    let maximum_operations_per_instruction = parse_operations(input, version)?;
    let default_is_stmt = input.read_u8()? != 0;
    let line_base = input.read_i8()?;
    let line_range = input.read_u8()?;
    if line_range == 0 {
        return Err(Error::LineRangeZero);
    }
    Ok(LineEncoding {
        minimum_instruction_length,
        maximum_operations_per_instruction,
        default_is_stmt,
        line_base,
        line_range,
    })
}

// The first special opcode, and the lengths of the standard opcodes below it.
#[tactic(auto, unfolding(crate::specs::HeaderParsing::opcodes))]
fn parse_opcodes<R: Reader>(input: &mut R) -> Result<(u8, R), Error>
    ensures value { ReturnsAsOrNoMemory (λ p. ((p.0, R.view p.1), R.view input.new))
        result (opcodes (R.view input.old)) }
    ensures each { IfOk result (λ p. (0 < p.0)
        × (bytes_left (R.view p.1) + 1 ≡ p.0)) }
{
    let opcode_base = input.read_u8()?;
    if opcode_base == 0 {
        return Err(Error::OpcodeBaseZero);
    }
    let lengths = input.split(R::Offset::from_u8(opcode_base - 1))?;
    Ok((opcode_base, lengths))
}

// The directory of a unit, as a header has directories.
fn unit_directory<R: Reader>(comp_dir: Option<R>) -> Option<AttributeValue<R>>
    ensures { option_map (raw_value_of R.view R.Offset.count) result
        ≡ option_map string (option_map R.view comp_dir) }
{
    Some(AttributeValue::String(comp_dir?))
}

// The file of a unit, in directory 0.
fn unit_file<R: Reader>(comp_name: Option<R>) -> Option<FileEntry<R>>
    ensures { result ≡ option_map file_named (option_map R.view comp_name) }
{
    Some(FileEntry::of_unit_name(comp_name?))
}

// What is known of a header before its fields.
#[derive(Drop)]
struct Bounds<R: Reader> {
    offset: DebugLineOffset<R::Offset>,
    unit_length: R::Offset,
    encoding: Encoding,
    header_length: R::Offset,
    program: R,
}

// The fields of a header.
#[tactic(auto, unfolding(crate::specs::HeaderParsing::header_fields))]
fn parse_fields<R: Reader>(
    alloc: Global,
    input: &mut R,
    bounds: Bounds<R>,
    comp_dir: Option<R>,
    comp_name: Option<R>,
) -> Result<LineProgramHeader<R>, Error>
    requires first { 2 ≤ bounds.encoding.version }
    requires last { bounds.encoding.version ≤ 5 }
    requires address { IsTrue (is_address_size bounds.encoding.address_size) }
    ensures { ReturnsAsOrNoMemory (λ header. (header, R.view input.new)) result
        (header_fields R.Offset.limit (option_map R.view comp_dir) (option_map R.view comp_name)
        (bounds_of R.view R.Offset.count bounds)
        (R.view input.old)) }
{
    let version = bounds.encoding.version;
    let line_encoding = parse_parameters(input, version)?;
    let (opcode_base, standard_opcode_lengths) = parse_opcodes(input)?;
    let (directory_entry_format, include_directories) = parse_directories(
        alloc,
        input,
        bounds.encoding,
    )?;
    let (file_name_entry_format, file_names) = parse_files(alloc, input, bounds.encoding)?;
    Ok(LineProgramHeader {
        offset: bounds.offset,
        unit_length: bounds.unit_length,
        encoding: bounds.encoding,
        header_length: bounds.header_length,
        line_encoding,
        opcode_base,
        standard_opcode_lengths,
        directory_entry_format,
        include_directories,
        file_name_entry_format,
        file_names,
        program_buf: bounds.program,
        comp_dir: unit_directory(comp_dir),
        comp_file: unit_file(comp_name),
    })
}

impl<R: Reader> LineProgramHeader<R> {
    /// The header that the input begins with, at an offset of `.debug_line`. The unit gives the
    /// bytes of an address, which count up to version 4, its directory and its name. A refusal may
    /// have moved the input.
    #[tactic(auto, unfolding(crate::proofs::Unfoldings::all_of_header))]
    pub fn parse(
        alloc: Global,
        input: &mut R,
        offset: DebugLineOffset<R::Offset>,
        address_size: u8,
        comp_dir: Option<R>,
        comp_name: Option<R>,
    ) -> Result<Self, Error>
        requires { IsTrue (is_address_size address_size) }
        ensures { ReturnsAsOrNoMemory (λ header. (header, R.view input.new)) result
            (line_header R.Offset.limit (R.Offset.count offset.0)
            (line_unit R.view address_size comp_dir comp_name) (R.view input.old)) }
    {
        let (unit_length, format) = input.read_initial_length()?;
        let mut program = input.split(unit_length)?;
        let encoding = parse_sizes(&mut program, format, address_size)?;
        let header_length = program.read_length(format)?;
        let mut header = program.split(header_length)?;
        let bounds = Bounds {
            offset,
            unit_length,
            encoding,
            header_length,
            program,
        };
        parse_fields(alloc, &mut header, bounds, comp_dir, comp_name)
    }
}

impl<R: Reader> DebugLine<R> {
    /// The header at an offset of the section. The unit gives the bytes of an address, which count
    /// up to version 4, its directory and its name.
    pub fn header(
        &self,
        alloc: Global,
        offset: DebugLineOffset<R::Offset>,
        address_size: u8,
        comp_dir: Option<R>,
        comp_name: Option<R>,
    ) -> Result<LineProgramHeader<R>, Error>
        requires { IsTrue (is_address_size address_size) }
        ensures { ReturnsOrNoMemory result
            (header_at R.Offset.limit (R.Offset.count offset.0)
            (line_unit R.view address_size comp_dir comp_name) self.now) }
    {
        let mut input = self.reader().copy()?;
        input.skip(offset.0)?;
        LineProgramHeader::parse(alloc, &mut input, offset, address_size, comp_dir, comp_name)
    }
}
