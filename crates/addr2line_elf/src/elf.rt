//! An ELF file: its sections by name, and its symbols.

ghost use Rattle.std.specs.Prelude.{◌≡◌, ◌<◌, ◌==◌, ◌+◌, IfSome, Ok, length, drop, option_map};
ghost use Rattle.std.specs.List.{slice_get, position, list_any};
ghost use Rattle.gimli_core_readers.specs.View.{prefix};
ghost use Rattle.gimli_core_readers.specs.ByteOrders.{is_big_endian};
ghost use Rattle.addr2line_elf.specs.ImageLoading.{read_in, LoadsOrNoMemory};
ghost use Rattle.addr2line_elf.specs.ElfHeaders.{file_header, header_at};
ghost use Rattle.addr2line_elf.specs.ElfTexts.{is_text};
ghost use Rattle.addr2line_elf.specs.ElfImages.{image_of, image_in, contents, name_of, index_named, changes, waits_for_relocation, plain_contents, debug_contents, section_named, addresses, section_range};
ghost use Rattle.addr2line_elf.specs.ElfSymbols.{symbols_of};

use crate::class::Class;
use crate::constants::{ET_REL, SHF_COMPRESSED, SHT_NOBITS, SHT_REL, SHT_RELA};
use crate::error::LoadError;
use crate::file_parts::FileParts;
use crate::headers::{FileHeader, SectionHeader};
use crate::identification::identify_file;
use crate::reading::ElfFile;
use crate::symbols::{Symbols, symbol_table};
use crate::table::{
    borrowed_contents, contents, linked_contents, parse_file_header, parse_header_at,
    parse_sections,
};
use crate::texts::{is_text_at, text_at};
use bytes::Bytes;
use gimli_core_readers::{EndianBytes, EndianSlice, Reader, RunTimeEndian};
use std::alloc::Global;
use std::marker::Model;
use std::ops::Range;

/// An ELF file whose headers are read.
#[derive(Debug)]
pub struct Elf {
    file: ElfFile,
    class: Class,
    file_type: u16,
    sections: Vec<SectionHeader>,
    // The bytes of the section with the sections' names.
    names: EndianBytes<RunTimeEndian>,
}

impl Drop for Elf {
    fn drop(self) {
        let Elf {
            file: _,
            class: _,
            file_type: _,
            sections: _,
            names: _,
        } = self;
    }
}

impl Model for Elf {
    ghost use Rattle.addr2line_elf.specs.ElfImages.{Image};

    ghost Value = { Image };

    ghost view = { λ e. record {
      file = e.file;
      class = e.class;
      file_type = e.file_type;
      sections = e.sections.items;
      names = e.names;
    } };
}

impl Elf {
    /// Reads the headers of a file. Takes memory for a list of them, and shares the file's bytes.
    pub fn parse(alloc: Global, file: Bytes) -> Result<Elf, LoadError>
        ensures { LoadsOrNoMemory result (image_of file) }
    {
        Elf::parse_parts(alloc, FileParts::whole(alloc, file)?)
    }

    /// Reads the headers of a file of which parts are in memory. Takes memory for a list of them,
    /// and shares the parts.
    pub fn parse_parts(alloc: Global, parts: FileParts) -> Result<Elf, LoadError>
        ensures { LoadsOrNoMemory result (image_of parts.bytes) }
    {
        let (class, endian) = identify_file(&parts)?;
        Elf::parse_image(alloc, ElfFile { parts, endian }, class)
    }

    // Reads the headers of a file of a class.
    fn parse_image(alloc: Global, file: ElfFile, class: Class) -> Result<Elf, LoadError>
        ensures { LoadsOrNoMemory result (image_in class file) }
    {
        let header = parse_file_header(&file, class)?;
        let table = parse_sections(alloc, &file, class, &header)?;
        Ok(Elf {
            file,
            class,
            file_type: header.file_type,
            sections: table.headers,
            names: table.names,
        })
    }

    /// The order of the file's bytes.
    pub fn endian(&self) -> RunTimeEndian
        ensures { is_big_endian result ≡ self.now.file.is_big }
    {
        self.file.endian
    }

    /// The class of the file.
    pub fn class(&self) -> Class
        ensures { result ≡ self.now.class }
    {
        self.class
    }

    /// The bytes of the file, shared. Takes a little memory.
    #[tactic(auto, using(crate::proofs::FilePartLemmas::all_in_range))]
    pub fn bytes(&self) -> Result<Bytes, LoadError>
        ensures { LoadsOrNoMemory result (Ok self.now.file.bytes) }
    {
        self.file.parts.share(0, self.file.parts.len())
    }

    /// The header of the file, read again. Takes no memory.
    pub fn header(&self) -> Result<FileHeader, LoadError>
        ensures { LoadsOrNoMemory result (read_in self.now.file (file_header self.now.class)) }
    {
        parse_file_header(&self.file, self.class)
    }

    /// The section header at an offset of the file. Takes no memory.
    pub fn header_at(&self, offset: u64) -> Result<SectionHeader, LoadError>
        ensures { LoadsOrNoMemory result
            (read_in self.now.file (header_at self.now.class offset)) }
    {
        parse_header_at(&self.file, self.class, offset)
    }

    /// The section headers, in order.
    pub fn sections(&self) -> &[SectionHeader]
        ensures { result.now ≡ self.now.sections }
    {
        &self.sections
    }

    /// The bytes of the section with the sections' names.
    pub fn names(&self) -> &[u8]
        ensures { result.now ≡ self.now.names.bytes }
    {
        self.names.as_bytes()
    }

    /// The name of a section, if it ends.
    pub fn name_of(&self, section: &SectionHeader) -> Option<&[u8]>
        ensures { option_map (λ name. name.now) result ≡ name_of section.now self.now }
    {
        text_at(self.names.as_bytes(), section.name)
    }

    /// The bytes of a section, whatever it holds; none where it has none in the file. Takes no
    /// memory.
    pub fn contents(
        &self,
        section: &SectionHeader,
    ) -> Result<EndianSlice<'_, RunTimeEndian>, LoadError>
        ensures { LoadsOrNoMemory result (contents section.now self.now.file) }
    {
        borrowed_contents(&self.file, section)
    }

    /// The bytes of the debugging section of a name, each with its offset in the file as
    /// identifier: none where no section has the name, or where it has no bytes in the file. Takes
    /// a little memory, and shares the bytes. It looks at each section.
    pub fn section(&self, name: &str) -> Result<EndianBytes<RunTimeEndian>, LoadError>
        ensures { LoadsOrNoMemory result (section_named name.now self.now) }
    {
        match self.index_of(name.as_bytes()) {
            Some(index) => self.debug_contents(index),
            None => Ok(self.no_section()),
        }
    }

    // No bytes, as of a section that isn't there.
    pub(crate) fn no_section(&self) -> EndianBytes<RunTimeEndian>
        ensures { result ≡ prefix 0 self.now.file }
    {
        self.file.nothing()
    }

    /// The addresses of the first section of a name, if its end is an address of 64 bits.
    pub fn get_section_range(&self, name: &[u8]) -> Option<Range<u64>>
        ensures { option_map (λ range. (range.start, range.end)) result
            ≡ section_range name.now self.now }
    {
        let index = self.index_of(name)?;
        let section = self.sections[index];
        let end = section.address.checked_add(section.size)?;
        Some(section.address..end)
    }

    /// The symbols that have a name and are defined in the file, data and functions. Takes memory
    /// for a list of all symbols, and for stretches of addresses, at most two for each symbol. It
    /// reads the section of names once and sorts the symbols.
    pub fn symbols(&self, alloc: Global) -> Result<Symbols, LoadError>
        ensures { LoadsOrNoMemory result (symbols_of self.now) }
    {
        match symbol_table(&self.sections) {
            Some(section) => {
                let table = contents(&self.file, section)?;
                let texts = linked_contents(&self.file, &self.sections, section.link)?;
                Symbols::read(alloc, self.class, &table, texts)
            }
            None => Ok(Symbols::none(alloc, self.file.nothing())),
        }
    }

    /// The index of the first section of a name; the section at index 0 is skipped. It looks at
    /// each section.
    pub fn index_of(&self, name: &[u8]) -> Option<usize>
        ensures value { result ≡ index_named name.now self.now }
        ensures within { IfSome result (λ index. index < length self.now.sections) }
    {
        let index = self.index_among(self.sections.get(1..)?, name)?;
        Some(index + 1)
    }

    // The index of the first of these sections that has a name.
    fn index_among(&self, sections: &[SectionHeader], name: &[u8]) -> Option<usize>
        ensures { result ≡ position (λ h. is_text (name_of h self.now) name.now) sections.now }
    {
        sections
            .iter()
            .position(|section| self.is_named(section, name))
    }

    // Whether a section has a name. It looks at no more bytes than the name has, and one.
    fn is_named(&self, section: &SectionHeader, name: &[u8]) -> bool
        ensures { result ≡ is_text (name_of section.now self.now) name.now }
    {
        is_text_at(self.names.as_bytes(), section.name, name)
    }

    // The bytes of a section that is read as debugging information.
    fn debug_contents(&self, index: usize) -> Result<EndianBytes<RunTimeEndian>, LoadError>
        requires { index < length self.now.sections }
        ensures { LoadsOrNoMemory result
            (debug_contents index (slice_get self.now.sections index) self.now) }
    {
        let section = &self.sections[index];
        if section.section_type == SHT_NOBITS {
            contents(&self.file, section)
        } else {
            self.plain_contents(index, section)
        }
    }

    // The bytes of a section that neither decompression nor relocation has to change.
    fn plain_contents(
        &self,
        index: usize,
        section: &SectionHeader,
    ) -> Result<EndianBytes<RunTimeEndian>, LoadError>
        ensures { LoadsOrNoMemory result (plain_contents index section.now self.now) }
    {
        let view = contents(&self.file, section)?;
        if section.flags & SHF_COMPRESSED != 0 {
            return Err(LoadError::CompressedSection);
        }
        if self.waits_for_relocation(index) {
            return Err(LoadError::NeedsRelocation);
        }
        Ok(view)
    }

    // Whether a section of relocations changes this one, in a file that is yet to be linked.
    fn waits_for_relocation(&self, index: usize) -> bool
        ensures { result ≡ waits_for_relocation index self.now }
    {
        self.file_type == ET_REL && any_changes(&self.sections, index)
    }
}

// Whether one of the sections changes the one at an index.
fn any_changes(sections: &[SectionHeader], index: usize) -> bool
    ensures { result ≡ list_any (changes index) sections.now }
{
    sections.iter().any(|section| changes(section, index))
}

// Whether this is a section of relocations that changes the section at an index.
fn changes(section: &SectionHeader, index: usize) -> bool
    ensures { result ≡ changes index section.now }
{
    (section.section_type == SHT_RELA || section.section_type == SHT_REL)
        && section.size > 0
        && section.info as usize == index
}
