//! The parts of a file that a loader needs, read from where the file is: its headers, the sections
//! that lookups read, and its symbols with their names.

ghost use Rattle.std.specs.Prelude.{◌≡◌, List, ℕ, length, IfErr, IfOk, IfSome};
ghost use Rattle.addr2line_elf.specs.FileParts.{ReadsParts};
ghost use Rattle.addr2line_elf.specs.LoadErrors.{IsReadRefusal};
ghost use Rattle.addr2line_elf.specs.LoadedParts.{HasLoadedParts, LoadsAlike};

use crate::class::Class;
use crate::constants::SHT_NOBITS;
use crate::coverage::{SYMTAB, has_loaded_parts};
use crate::debug::READ;
use crate::elf::Elf;
use crate::error::LoadError;
use crate::file_parts::{FileParts, PartSource};
use crate::headers::SectionHeader;
use crate::identification::identify_file;
use crate::reading::ElfFile;
use crate::symbols::symbol_table;
use crate::table::{parse_file_header, parse_header_at};
use gimli_core_readers::RunTimeEndian;
use std::alloc::Global;

// The bytes of the longest file header, that of a file of 64 bits.
const LONGEST_HEADER: u64 = 64;

// The place of some bytes in a file.
#[derive(Clone, Copy)]
struct FileRange {
    offset: u64,
    size: u64,
}

impl FileRange {
    // No bytes.
    fn none() -> FileRange {
        FileRange { offset: 0, size: 0 }
    }

    // The bytes of a section.
    fn of(section: &SectionHeader) -> FileRange {
        FileRange {
            offset: section.offset,
            size: section.size,
        }
    }
}

/// Reads what a loader needs of a file with a number of bytes, `len`: its headers, the sections of
/// debugging information that lookups read, the symbols and their names, each once, as a part of
/// its own. None where the loader needs all of the file: where such ranges overlap in part, or
/// where the headers can't be followed. A file that is shorter than a file header isn't read for
/// that.
pub fn read_needed<S: PartSource>(
    alloc: Global,
    source: &mut S,
    len: u64,
) -> Result<Option<FileParts>, LoadError>
    ensures all { IfOk result (λ found. IfSome found HasLoadedParts) }
    ensures len { IfOk result (λ found. IfSome found (λ file. length file.bytes ≡ len)) }
    ensures same { (bytes : List ℕ) → S.is_file source.old bytes → length bytes ≡ len
        → IfOk result (λ found. IfSome found (λ file. LoadsAlike bytes file.bytes)) }
    ensures refusal { IfErr result IsReadRefusal }
{
    if len < LONGEST_HEADER {
        return Ok(None);
    }
    let mut file = FileParts::unread(alloc, len);
    read_into(alloc, source, &mut file)?;
    if has_loaded_parts(alloc, &file)? {
        Ok(Some(file))
    } else {
        Ok(None)
    }
}

// Reads the parts, as far as the headers lead to them.
fn read_into<S: PartSource>(
    alloc: Global,
    source: &mut S,
    file: &mut FileParts,
) -> Result<(), LoadError>
    ensures reads { ReadsParts S.is_file source.old file.old source.new file.new }
    ensures refusal { IfErr result IsReadRefusal }
{
    file.read(source, 0, LONGEST_HEADER)?;
    match identify_file(file) {
        Ok((class, endian)) => read_image(alloc, source, file, class, endian),
        Err(_) => Ok(()),
    }
}

// Reads the parts of an ELF file, after the header: the table of sections, their names, and the
// sections that a loader reads.
#[tactic(auto, using(crate::proofs::FilePartLemmas::reads_none))]
fn read_image<S: PartSource>(
    alloc: Global,
    source: &mut S,
    file: &mut FileParts,
    class: Class,
    endian: RunTimeEndian,
) -> Result<(), LoadError>
    ensures reads { ReadsParts S.is_file source.old file.old source.new file.new }
    ensures refusal { IfErr result IsReadRefusal }
{
    let table = table_range(alloc, file, class, endian)?;
    file.read(source, table.offset, table.size)?;
    let names = names_range(alloc, file, class, endian)?;
    file.read(source, names.offset, names.size)?;
    read_sections(alloc, source, file)
}

// Reads the sections that a loader reads.
#[tactic(auto, using(crate::proofs::FilePartLemmas::reads_none))]
fn read_sections<S: PartSource>(
    alloc: Global,
    source: &mut S,
    file: &mut FileParts,
) -> Result<(), LoadError>
    ensures reads { ReadsParts S.is_file source.old file.old source.new file.new }
    ensures refusal { IfErr result IsReadRefusal }
{
    let ranges = section_ranges(alloc, file)?;
    read_ranges(source, file, &ranges)
}

// Reads ranges one after the other.
fn read_ranges<S: PartSource>(
    source: &mut S,
    file: &mut FileParts,
    ranges: &[FileRange],
) -> Result<(), LoadError>
    ensures reads { ReadsParts S.is_file source.old file.old source.new file.new }
    ensures refusal { IfErr result IsReadRefusal }
{
    for range in ranges {
        file.read(source, range.offset, range.size)?;
    }
    Ok(())
}

// The range of the table of sections; no bytes where the header doesn't say it.
fn table_range(
    alloc: Global,
    file: &FileParts,
    class: Class,
    endian: RunTimeEndian,
) -> Result<FileRange, LoadError>
    ensures { IfErr result IsReadRefusal }
{
    let parts = file.share_parts(alloc)?;
    match parse_file_header(&ElfFile { parts, endian }, class) {
        Ok(header) => {
            let size = u64::from(class.section_header_size());
            Ok(FileRange {
                offset: header.table_offset,
                size: size.saturating_mul(u64::from(header.count)),
            })
        }
        Err(_) => Ok(FileRange::none()),
    }
}

// The range of the section with the names of the sections; no bytes where the table doesn't say it.
fn names_range(
    alloc: Global,
    file: &FileParts,
    class: Class,
    endian: RunTimeEndian,
) -> Result<FileRange, LoadError>
    ensures { IfErr result IsReadRefusal }
{
    let parts = file.share_parts(alloc)?;
    match names_header(&ElfFile { parts, endian }, class) {
        Ok(header) => Ok(FileRange::of(&header)),
        Err(_) => Ok(FileRange::none()),
    }
}

// The header of the section with the names of the sections.
fn names_header(file: &ElfFile, class: Class) -> Result<SectionHeader, LoadError> {
    let header = parse_file_header(file, class)?;
    let first = parse_header_at(file, class, header.table_offset)?;
    let size = u64::from(class.section_header_size());
    let place = size.saturating_mul(u64::from(header.names_index(&first)));
    parse_header_at(file, class, header.table_offset.saturating_add(place))
}

// The ranges of the sections that a loader reads, of a file whose headers are read.
fn section_ranges(alloc: Global, file: &FileParts) -> Result<Vec<FileRange>, LoadError>
    ensures { IfErr result IsReadRefusal }
{
    let mut ranges = Vec::new(alloc);
    if let Ok(elf) = Elf::parse_parts(alloc, file.share_parts(alloc)?) {
        push_debug(&elf, &mut ranges)?;
        push_symbols(&elf, &mut ranges)?;
    }
    Ok(ranges)
}

// Adds the ranges of the sections of debugging information.
fn push_debug(elf: &Elf, ranges: &mut Vec<FileRange>) -> Result<(), LoadError>
    ensures { IfErr result IsReadRefusal }
{
    for id in READ {
        if let Some(index) = elf.index_of(id.name().as_bytes()) {
            push_range(&elf.sections()[index], ranges)?;
        }
    }
    Ok(())
}

// Adds the ranges of the symbols and of their names.
fn push_symbols(elf: &Elf, ranges: &mut Vec<FileRange>) -> Result<(), LoadError>
    ensures { IfErr result IsReadRefusal }
{
    let sections = elf.sections();
    if let Some(table) = symbol_table(sections) {
        push_range(table, ranges)?;
        if let Some(names) = sections.get(table.link as usize) {
            push_range(names, ranges)?;
        }
    }
    if let Some(index) = elf.index_of(SYMTAB.as_bytes()) {
        push_range(&sections[index], ranges)?;
    }
    Ok(())
}

// Adds the range of a section that has bytes in the file.
fn push_range(section: &SectionHeader, ranges: &mut Vec<FileRange>) -> Result<(), LoadError>
    ensures { IfErr result IsReadRefusal }
{
    if section.section_type != SHT_NOBITS {
        ranges.push(FileRange::of(section))?;
    }
    Ok(())
}
