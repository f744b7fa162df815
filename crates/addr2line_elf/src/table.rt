//! The table of an image's sections.

ghost use Rattle.std.specs.Prelude.{◌≡◌, ◌*◌, ◌<◌, [], MatchOption};
ghost use Rattle.gimli_core_readers.specs.View.{bytes_left};
ghost use Rattle.gimli_core_readers.specs.Parsers.{value_of};
ghost use Rattle.gimli_core_readers.specs.Repetition.{times};
ghost use Rattle.gimli_core_readers.specs.Calls.{Returns, ReturnsAsOrNoMemory};
ghost use Rattle.gimli_core_readers.specs.ByteOrders.{is_big_endian};
ghost use Rattle.addr2line_elf.specs.ElfClasses.{section_header_size};
ghost use Rattle.addr2line_elf.specs.ElfHeaders.{file_header, section_header, header_at, headers_at};
ghost use Rattle.addr2line_elf.specs.ImageLoading.{read_in, LoadsAsOrNoMemory, LoadsOrNoMemory};
ghost use Rattle.addr2line_elf.specs.ElfImages.{contents, linked_contents, table, sections_of};

use crate::class::Class;
use crate::constants::{SHN_UNDEF, SHT_NOBITS};
use crate::error::LoadError;
use crate::headers::{FileHeader, SectionHeader};
use crate::reading::{ElfFile, in_file};
use bytes::Bytes;
use gimli_core_readers::{EndianBytes, EndianSlice, Error, Reader, ReaderOffsetId, RunTimeEndian};
use std::alloc::Global;

// The sections of an image, in order, and the bytes of the section with their names.
#[derive(Debug, Drop)]
pub(crate) struct SectionTable {
    pub headers: Vec<SectionHeader>,
    pub names: EndianBytes<RunTimeEndian>,
}

// The header of the file. Takes no memory.
#[tactic(auto, using(crate::proofs::Loads::of_returned, crate::proofs::RangeReads::file_header_read))]
pub(crate) fn parse_file_header(file: &ElfFile, class: Class) -> Result<FileHeader, LoadError>
    ensures { LoadsOrNoMemory result (read_in file.now (file_header class)) }
{
    let input = file.input_at(0, class.file_header_size())?;
    in_file(file_header_in(input, class))
}

fn file_header_in(input: EndianSlice<'_, RunTimeEndian>, class: Class) -> Result<FileHeader, Error>
    ensures { Returns result (value_of (file_header class input.entry)) }
{
    let mut input = input;
    FileHeader::parse(&mut input, class)
}

// The sections that the file's header leads to.
pub(crate) fn parse_sections(
    alloc: Global,
    file: &ElfFile,
    class: Class,
    header: &FileHeader,
) -> Result<SectionTable, LoadError>
    ensures { LoadsAsOrNoMemory
        (λ sections. record { headers = sections.headers.items; names = sections.names }) result
        (sections_of class header.now file.now) }
{
    if header.table_offset == 0 {
        return Ok(SectionTable {
            headers: Vec::new(alloc),
            names: file.nothing(),
        });
    }
    if header.entry_size != class.section_header_size() {
        return Err(LoadError::UnsupportedElf);
    }
    parse_table(alloc, file, class, header)
}

// The headers of the table, and the section with their names.
fn parse_table(
    alloc: Global,
    file: &ElfFile,
    class: Class,
    header: &FileHeader,
) -> Result<SectionTable, LoadError>
    ensures { LoadsAsOrNoMemory
        (λ sections. record { headers = sections.headers.items; names = sections.names }) result
        (table class header.now file.now) }
{
    let first = parse_header_at(file, class, header.table_offset)?;
    let count = header.section_count(&first);
    let headers = parse_all(alloc, file, class, header.table_offset, count)?;
    let names = linked_contents(file, &headers, header.names_index(&first))?;
    Ok(SectionTable { headers, names })
}

// The section header at an offset. Takes no memory.
#[tactic(auto, using(crate::proofs::Loads::of_returned, crate::proofs::RangeReads::header_read))]
pub(crate) fn parse_header_at(
    file: &ElfFile,
    class: Class,
    offset: u64,
) -> Result<SectionHeader, LoadError>
    ensures { LoadsOrNoMemory result (read_in file.now (header_at class offset)) }
{
    let input = file.input_at(offset, u64::from(class.section_header_size()))?;
    in_file(section_header_in(input, class))
}

fn section_header_in(
    input: EndianSlice<'_, RunTimeEndian>,
    class: Class,
) -> Result<SectionHeader, Error>
    ensures { Returns result (value_of (section_header class input.entry)) }
{
    let mut input = input;
    SectionHeader::parse(&mut input, class)
}

// A number of section headers, which begin at an offset.
#[tactic(auto, using(crate::proofs::Loads::of_read, crate::proofs::RangeReads::headers_read))]
fn parse_all(
    alloc: Global,
    file: &ElfFile,
    class: Class,
    offset: u64,
    count: u64,
) -> Result<Vec<SectionHeader>, LoadError>
    ensures { LoadsAsOrNoMemory (λ headers. headers.items) result
        (read_in file.now (headers_at class offset count)) }
{
    match table_size(file, class, count) {
        Some(size) => {
            let input = file.input_at(offset, size)?;
            in_file(read_all(alloc, input, class, count))
        }
        None => Err(LoadError::Truncated),
    }
}

// The bytes of a number of section headers, unless they are more than the file has. This is checked
// before any memory is taken, so that a false count takes none.
fn table_size(file: &ElfFile, class: Class, count: u64) -> Option<u64>
    ensures { MatchOption result (bytes_left file.now < count * section_header_size class)
        (λ size. size ≡ count * section_header_size class) }
{
    let len = file.len();
    let Some(size) = count.checked_mul(u64::from(class.section_header_size())) else {
        return None;
    };
    if size <= len { Some(size) } else { None }
}

fn read_all(
    alloc: Global,
    input: EndianSlice<'_, RunTimeEndian>,
    class: Class,
    count: u64,
) -> Result<Vec<SectionHeader>, Error>
    ensures { ReturnsAsOrNoMemory (λ headers. headers.items) result
        (value_of (times count (section_header class) input.entry)) }
{
    let mut input = input;
    read_headers(alloc, &mut input, class, count)
}

// The next section headers.
fn read_headers(
    alloc: Global,
    input: &mut EndianSlice<'_, RunTimeEndian>,
    class: Class,
    count: u64,
) -> Result<Vec<SectionHeader>, Error>
    ensures { ReturnsAsOrNoMemory (λ headers. (headers.items, input.new)) result
        (times count (section_header class) input.old) }
{
    let mut headers = Vec::new(alloc);
    for _index in 0..count {
        headers.push(SectionHeader::parse(input, class)?)?;
    }
    Ok(headers)
}

// The bytes of the section that an index names; none where it names no section.
pub(crate) fn linked_contents(
    file: &ElfFile,
    headers: &[SectionHeader],
    index: u32,
) -> Result<EndianBytes<RunTimeEndian>, LoadError>
    ensures { LoadsOrNoMemory result (linked_contents index headers.now file.now) }
{
    if index == u32::from(SHN_UNDEF) {
        return Ok(file.nothing());
    }
    match headers.get(index as usize) {
        Some(header) => contents(file, header),
        None => Err(LoadError::Truncated),
    }
}

// The bytes of a section.
pub(crate) fn contents(
    file: &ElfFile,
    header: &SectionHeader,
) -> Result<EndianBytes<RunTimeEndian>, LoadError>
    ensures { LoadsOrNoMemory result (contents header.now file.now) }
{
    if header.section_type == SHT_NOBITS {
        return Ok(no_bytes(file.endian, header.offset));
    }
    file.part_at(header.offset, header.size)
}

// The bytes of a section, borrowed. Takes no memory.
pub(crate) fn borrowed_contents<'a>(
    file: &'a ElfFile,
    header: &SectionHeader,
) -> Result<EndianSlice<'a, RunTimeEndian>, LoadError>
    ensures { LoadsOrNoMemory result (contents header.now file.now) }
{
    match header.section_type {
        SHT_NOBITS => Ok(borrowed_nothing(file.endian, header.offset)),
        _ => file.input_at(header.offset, header.size),
    }
}

// No bytes, borrowed, at an offset of the file.
fn borrowed_nothing(endian: RunTimeEndian, first: u64) -> EndianSlice<'static, RunTimeEndian>
    ensures { result ≡ record { bytes = []; is_big = is_big_endian endian; first = first } }
{
    EndianSlice::with_first_id(&[], endian, ReaderOffsetId(first))
}

// No bytes, at an offset of the file.
fn no_bytes(endian: RunTimeEndian, first: u64) -> EndianBytes<RunTimeEndian>
    ensures { result ≡ record { bytes = []; is_big = is_big_endian endian; first = first } }
{
    EndianBytes::with_first_id(Bytes::new(), endian, ReaderOffsetId(first))
}
