//! Whether all that a loader reads of a file is in memory.

ghost use Rattle.std.specs.Prelude.{◌≡◌, ◌*◌, true, Some, IfErr, IfOk};
ghost use Rattle.std.specs.List.{list_all};
ghost use Rattle.gimli_core_readers.specs.SectionNames.{name_of};
ghost use Rattle.addr2line_elf.specs.ElfSymbols.{symbol_table};
ghost use Rattle.addr2line_elf.specs.FileParts.{covers};
ghost use Rattle.addr2line_elf.specs.LoadErrors.{IsReadRefusal};
ghost use Rattle.addr2line_elf.specs.LoadedParts.{covers_headers, covers_linked, covers_named, covers_section, covers_sections, covers_symbols, covers_table, read_ids, HasImage, HasLoadedParts};

use crate::constants::{SHN_UNDEF, SHT_NOBITS};
use crate::debug::READ;
use crate::elf::Elf;
use crate::error::LoadError;
use crate::file_parts::FileParts;
use crate::headers::{FileHeader, SectionHeader};
use crate::identification::{head_size, identify_file};
use crate::symbols::symbol_table;
use std::alloc::Global;

// The name of the section of all symbols (System V ABI, "Special Sections").
pub(crate) const SYMTAB: &str = ".symtab";

// Whether all that a loader reads of a file is in memory. Takes memory for the list of headers.
pub(crate) fn has_loaded_parts(alloc: Global, file: &FileParts) -> Result<bool, LoadError>
    ensures all { IfOk result (λ all. all ≡ true → HasLoadedParts file.now) }
    ensures refusal { IfErr result IsReadRefusal }
{
    if !file.covers(0, head_size(file.len())) {
        return Ok(false);
    }
    match identify_file(file) {
        Ok(_) => has_image(alloc, file),
        Err(LoadError::Memory) => Ok(false),
        Err(_) => Ok(true),
    }
}

// Whether a file has an image, and all that a loader reads of it.
fn has_image(alloc: Global, file: &FileParts) -> Result<bool, LoadError>
    ensures all { IfOk result (λ all. all ≡ true → HasImage file.now) }
    ensures refusal { IfErr result IsReadRefusal }
{
    match Elf::parse_parts(alloc, file.share_parts(alloc)?) {
        Ok(elf) => Ok(covers_headers(file, &elf) && covers_sections(file, &elf)),
        Err(_) => Ok(false),
    }
}

// Whether the headers of an image are in memory.
fn covers_headers(file: &FileParts, elf: &Elf) -> bool
    ensures { result ≡ true → covers_headers elf.now file.now ≡ true }
{
    match elf.header() {
        Ok(header) => {
            file.covers(0, elf.class().file_header_size()) && covers_table(file, elf, &header)
        }
        Err(_) => false,
    }
}

// Whether the table of sections is in memory, to which a header leads.
fn covers_table(file: &FileParts, elf: &Elf, header: &FileHeader) -> bool
    ensures { result ≡ true → covers_table header.now elf.now file.now ≡ true }
{
    if header.table_offset == 0 {
        return true;
    }
    let size = u64::from(elf.class().section_header_size());
    if !file.covers(header.table_offset, size) {
        return false;
    }
    match elf.header_at(header.table_offset) {
        Ok(first) => {
            covers_count(
                file,
                header.table_offset,
                header.section_count(&first),
                size,
            ) && covers_linked(file, elf, header.names_index(&first))
        }
        Err(_) => false,
    }
}

// Whether a number of headers of a size are in memory.
fn covers_count(file: &FileParts, offset: u64, count: u64, size: u64) -> bool
    ensures { result ≡ true → covers offset (count * size) file.now ≡ true }
{
    match count.checked_mul(size) {
        Some(total) => file.covers(offset, total),
        None => false,
    }
}

// Whether the sections that lookups read are in memory.
fn covers_sections(file: &FileParts, elf: &Elf) -> bool
    ensures { result ≡ covers_sections elf.now file.now }
{
    covers_debug(file, elf)
        && covers_named(file, elf, SYMTAB.as_bytes())
        && covers_symbols(file, elf)
}

// Whether the sections of debugging information are.
fn covers_debug(file: &FileParts, elf: &Elf) -> bool
    ensures { result ≡ list_all (λ id. covers_named (name_of id) elf.now file.now) read_ids }
{
    READ.iter()
        .all(|id| covers_named(file, elf, id.name().as_bytes()))
}

// Whether the section with the symbols is, and the one with their names.
fn covers_symbols(file: &FileParts, elf: &Elf) -> bool
    ensures { result ≡ covers_symbols (symbol_table elf.now.sections) elf.now file.now }
{
    match symbol_table(elf.sections()) {
        Some(table) => covers_section(file, table) && covers_linked(file, elf, table.link),
        None => true,
    }
}

// Whether the first section of a name is.
fn covers_named(file: &FileParts, elf: &Elf, name: &[u8]) -> bool
    ensures { result ≡ covers_named name.now elf.now file.now }
{
    match elf.index_of(name) {
        Some(index) => covers_section(file, &elf.sections()[index]),
        None => true,
    }
}

// Whether the section of an index is, if the index names one.
fn covers_linked(file: &FileParts, elf: &Elf, index: u32) -> bool
    ensures { result ≡ covers_linked index elf.now.sections file.now }
{
    if index == u32::from(SHN_UNDEF) {
        return true;
    }
    match elf.sections().get(index as usize) {
        Some(section) => covers_section(file, section),
        None => true,
    }
}

// Whether the bytes of a section are.
fn covers_section(file: &FileParts, section: &SectionHeader) -> bool
    ensures { result ≡ covers_section (Some section.now) file.now }
{
    section.section_type == SHT_NOBITS || file.covers(section.offset, section.size)
}
