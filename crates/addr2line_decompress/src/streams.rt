//! The sections of an image that are decompressed, and those that stay.

ghost use Rattle.std.specs.Prelude.{◌≡◌, ◌+◌, ◌<◌, ◌≤◌, ◌^◌, length, option_map, IfOk, IfErr, MatchBool, Ok};
ghost use Rattle.std.specs.List.{slice_get};
ghost use Rattle.addr2line_elf.specs.ElfImages.{name_of};
ghost use Rattle.addr2line_elf.specs.ElfSymbols.{symbol_table};
ghost use Rattle.addr2line_decompress.specs.declared.error.DecompressError.TheVariants.{Memory};
ghost use Rattle.addr2line_decompress.specs.DecompressResults.{DecompressesAsOrNoMemory};
ghost use Rattle.addr2line_decompress.specs.DebugSectionNames.{is_wanted};
ghost use Rattle.addr2line_elf.specs.ElfClasses.{section_header_size};
ghost use Rattle.addr2line_decompress.specs.WrittenBytes.{AreEntries};
ghost use Rattle.addr2line_decompress.specs.ImageTables.{file_bytes, table_end};
ghost use Rattle.addr2line_decompress.specs.CompressedSections.{has_other_type, is_flagged, is_compressed, has_compressed, new_name_of, ended, added_names, holds, overlaps, refuse_staying, refuse_names, link_of, refuse_all_names, entry_of, flagged_change, old_change, is_fixed, names_change, other_change, section_change, section_of, sections_from};

use crate::compression::Content;
use crate::constants::{SHF_COMPRESSED, SHT_DYNSYM, SHT_NOBITS, SHT_REL, SHT_RELA, SHT_SYMTAB};
use crate::error::{DecompressError, image_refused};
use crate::sections::DebugSections;
use crate::table::ImageTable;
use addr2line_elf::headers::SectionHeader;
use std::alloc::Global;
use std::marker::Model;

/// What of a section becomes another.
#[derive(Debug, Drop)]
pub struct Change<'a> {
    // Where the name begins in the section of names.
    pub(crate) name: u32,
    pub(crate) flags: u64,
    pub(crate) content: Content<'a>,
}

impl<'a> Model for Change<'a> {
    ghost use Rattle.addr2line_decompress.specs.Compression.{Change};

    ghost Value = { Change };

    ghost view = { λ c. record { name = c.name; flags = c.flags; content = c.content } };
}

/// A section, with what of it changes.
#[derive(Debug, Drop)]
pub struct Section<'a> {
    pub(crate) header: SectionHeader,
    // The bytes of the header.
    pub(crate) entry: &'a [u8],
    pub(crate) change: Option<Change<'a>>,
}

impl<'a> Model for Section<'a> {
    ghost use Rattle.addr2line_decompress.specs.CompressedSections.{Section};

    ghost Value = { Section };

    ghost view = { λ s. record {
      header = s.header;
      entry = s.entry.now;
      change = s.change;
    } };
}

// Whether a section is of symbols or relocations, or has no bytes in the file.
pub(crate) fn has_other_type(header: &SectionHeader) -> bool
    ensures { result ≡ has_other_type header.now }
{
    matches!(
        header.section_type,
        SHT_NOBITS | SHT_SYMTAB | SHT_DYNSYM | SHT_RELA | SHT_REL
    )
}

impl ImageTable {
    // Whether the section of an index is flagged, and one of those that are decompressed.
    fn is_flagged(&self, which: DebugSections, index: usize, header: &SectionHeader) -> bool
        ensures { result ≡ is_flagged which self.now.image index header.now }
    {
        index != 0
            && header.flags & SHF_COMPRESSED != 0
            && !has_other_type(header)
            && self.is_wanted(which, header)
    }

    fn is_wanted(&self, which: DebugSections, header: &SectionHeader) -> bool
        ensures { result ≡ is_wanted which (name_of header.now self.now.image) }
    {
        match self.name_of(header) {
            Some(name) => which.contains(name),
            None => false,
        }
    }

    // Whether the section of an index is compressed, in the one form or the other.
    fn is_compressed(
        &self,
        alloc: Global,
        which: DebugSections,
        index: usize,
        header: &SectionHeader,
    ) -> Result<bool, DecompressError>
        ensures { DecompressesAsOrNoMemory (λ is. is) result
            (Ok (is_compressed which self.now.image index header.now)) }
    {
        if self.is_flagged(which, index, header) {
            return Ok(true);
        }
        let name = self.new_name_of(alloc, which, index, header)?;
        Ok(name.is_some())
    }

    // Whether one of the sections is.
    pub(crate) fn has_compressed(
        &self,
        alloc: Global,
        which: DebugSections,
    ) -> Result<bool, DecompressError>
        ensures { DecompressesAsOrNoMemory (λ has. has) result
            (Ok (has_compressed which self.now.image 0 self.now.image.sections)) }
    {
        for (index, header) in self.headers().iter().enumerate() {
            if self.is_compressed(alloc, which, index, header)? {
                return Ok(true);
            }
        }
        Ok(false)
    }

    // Refuses a compressed section of names.
    fn refuse_names(
        &self,
        alloc: Global,
        which: DebugSections,
        index: u32,
    ) -> Result<(), DecompressError>
        ensures { DecompressesAsOrNoMemory (λ _. tt) result
            (refuse_names which self.now.image index (slice_get self.now.image.sections index)) }
    {
        let index = index as usize;
        let Some(header) = self.headers().get(index) else {
            return Ok(());
        };
        if self.is_compressed(alloc, which, index, header)? {
            return Err(DecompressError::CompressedNames(index));
        }
        Ok(())
    }

    // Refuses compressed names, of sections and of symbols.
    pub(crate) fn refuse_all_names(
        &self,
        alloc: Global,
        which: DebugSections,
    ) -> Result<(), DecompressError>
        ensures { DecompressesAsOrNoMemory (λ _. tt) result (refuse_all_names which self.now) }
    {
        self.refuse_names(alloc, which, self.names_index())?;
        self.refuse_names(alloc, which, self.symbol_names_index())
    }

    // The end of the section headers.
    pub(crate) fn end(&self) -> usize
        requires { table_end self.now ≤ length (file_bytes self.now) }
        ensures { result ≡ table_end self.now }
    {
        let size = usize::from(self.class().section_header_size());
        let _file = self.bytes();
        self.offset() as usize + self.headers().len() * size
    }

    // Whether the bytes of a section overlap the section headers.
    fn overlaps(&self, header: &SectionHeader) -> bool
        requires room { table_end self.now ≤ length (file_bytes self.now) }
        requires in_file { header.now.offset + header.now.size ≤ length (file_bytes self.now) }
        ensures { result ≡ overlaps self.now header.now }
    {
        let _file = self.bytes();
        self.offset() < header.offset + header.size && header.offset < self.end() as u64
    }

    // Whether the file has all bytes of a section.
    fn is_in_file(&self, header: &SectionHeader) -> bool
        ensures { MatchBool result
            (header.now.offset + header.now.size ≤ length (file_bytes self.now))
            (length (file_bytes self.now) < header.now.offset + header.now.size) }
    {
        let len = self.bytes().len() as u64;
        match header.offset.checked_add(header.size) {
            Some(end) => end <= len,
            None => false,
        }
    }

    // Refuses a section that stays, but isn't in the file, or overlaps the section headers.
    fn refuse_staying(&self, index: usize, header: &SectionHeader) -> Result<(), DecompressError>
        requires { table_end self.now ≤ length (file_bytes self.now) }
        ensures { DecompressesAsOrNoMemory (λ _. tt) result
            (refuse_staying self.now index header.now) }
    {
        if header.section_type == SHT_NOBITS {
            return Ok(());
        }
        if !self.is_in_file(header) {
            return Err(DecompressError::SectionCut(index));
        }
        if self.overlaps(header) {
            return Err(DecompressError::OverlappingSection(index));
        }
        Ok(())
    }

    // The bytes of the section header of an index.
    fn entry(&self, index: usize) -> &[u8]
        requires room { table_end self.now ≤ length (file_bytes self.now) }
        requires within { index < length self.now.image.sections }
        ensures value { result.now ≡ entry_of self.now index }
        ensures size { length result.now ≡ section_header_size self.now.image.class }
    {
        let file = self.bytes();
        let size = usize::from(self.class().section_header_size());
        let start = self.offset() as usize + index * size;
        &file[start..start + size]
    }

    // What changes of a section that is flagged.
    fn flagged_change(
        &self,
        index: usize,
        header: &SectionHeader,
    ) -> Result<Change<'_>, DecompressError>
        ensures { DecompressesAsOrNoMemory (λ change. change) result
            (flagged_change self.now index header.now) }
    {
        let bytes = match self.contents(header) {
            Ok(bytes) => bytes,
            Err(error) => return Err(image_refused(error)),
        };
        let content = Content::read(bytes, self.class(), index)?;
        Ok(Change {
            name: header.name,
            flags: header.flags ^ SHF_COMPRESSED,
            content,
        })
    }

    // What changes of a section in GNU's old form, whose new name begins at an offset.
    fn old_change(
        &self,
        index: usize,
        name: u32,
        header: &SectionHeader,
    ) -> Result<Change<'_>, DecompressError>
        ensures { DecompressesAsOrNoMemory (λ change. change) result
            (old_change self.now index name header.now) }
    {
        let bytes = match self.contents(header) {
            Ok(bytes) => bytes,
            Err(error) => return Err(image_refused(error)),
        };
        let content = Content::read_old(bytes.slice(), index)?;
        Ok(Change {
            name,
            flags: header.flags,
            content,
        })
    }

    // What changes of another section: its bytes, if it holds the names and some are new.
    fn other_change<'a>(
        &self,
        names: Option<&'a [u8]>,
        index: usize,
        header: &SectionHeader,
    ) -> Result<Option<Change<'a>>, DecompressError>
        requires { table_end self.now ≤ length (file_bytes self.now) }
        ensures { DecompressesAsOrNoMemory (λ change. change) result
            (other_change self.now (option_map (λ n. n.now) names.entry) index header.now) }
    {
        match names {
            Some(names) if index != 0 && index == self.names_index() as usize => {
                if is_fixed(header) {
                    return Err(DecompressError::SharedNames(index));
                }
                Ok(Some(names_change(names, header)))
            }
            _ => {
                self.refuse_staying(index, header)?;
                Ok(None)
            }
        }
    }

    // What changes of a section; none where it stays. Its new name, if it gets one, begins at an
    // offset.
    fn section_change<'a>(
        &'a self,
        alloc: Global,
        which: DebugSections,
        names: Option<&'a [u8]>,
        index: usize,
        name: usize,
        header: &SectionHeader,
    ) -> Result<Option<Change<'a>>, DecompressError>
        requires room { table_end self.now ≤ length (file_bytes self.now) }
        requires low { name < 2 ^ 32 }
        ensures { DecompressesAsOrNoMemory (λ change. change) result
            (section_change which self.now (option_map (λ n. n.now) names.entry) index name
            header.now) }
    {
        if self.is_flagged(which, index, header) {
            return Ok(Some(self.flagged_change(index, header)?));
        }
        match self.new_name_of(alloc, which, index, header)? {
            Some(_) => Ok(Some(self.old_change(index, name as u32, header)?)),
            None => self.other_change(names, index, header),
        }
    }

    // The section of an index.
    fn section<'a>(
        &'a self,
        alloc: Global,
        which: DebugSections,
        names: Option<&'a [u8]>,
        index: usize,
        name: usize,
        header: &SectionHeader,
    ) -> Result<Section<'a>, DecompressError>
        requires room { table_end self.now ≤ length (file_bytes self.now) }
        requires within { index < length self.now.image.sections }
        requires low { name < 2 ^ 32 }
        ensures value { DecompressesAsOrNoMemory (λ section. section) result
            (section_of which self.now (option_map (λ n. n.now) names.entry) index name
            header.now) }
        ensures entry { IfOk result (λ section. length section.entry
            ≡ section_header_size self.now.image.class) }
    {
        let change = self.section_change(alloc, which, names, index, name, header)?;
        Ok(Section {
            header: *header,
            entry: self.entry(index),
            change,
        })
    }

    // How many bytes the new name of a section adds to the names.
    fn added_len(
        &self,
        alloc: Global,
        which: DebugSections,
        index: usize,
        header: &SectionHeader,
    ) -> Result<usize, DecompressError>
        ensures ok { IfOk result (λ len.
            len ≡ length (ended (new_name_of which self.now.image index header.now))) }
        ensures refusal { IfErr result (λ e. e ≡ Memory) }
    {
        match self.new_name_of(alloc, which, index, header)? {
            Some(name) => Ok(name.len() + 1),
            None => Ok(0),
        }
    }

    // All sections, or the first refusal; their new names begin at an offset. Takes memory for a
    // list of them.
    pub(crate) fn sections<'a>(
        &'a self,
        alloc: Global,
        which: DebugSections,
        names: Option<&'a [u8]>,
        start: usize,
    ) -> Result<Vec<Section<'a>>, DecompressError>
        requires room { table_end self.now ≤ length (file_bytes self.now) }
        requires low { start
            + length (added_names which self.now.image 0 self.now.image.sections) < 2 ^ 32 }
        ensures value { DecompressesAsOrNoMemory (λ sections. sections.items) result
            (sections_from which self.now (option_map (λ n. n.now) names.entry) 0 start
            self.now.image.sections) }
        ensures entries { IfOk result (λ sections.
            AreEntries self.now.image.class sections.items) }
    {
        let mut sections = Vec::new(alloc);
        let mut name = start;
        for (index, header) in self.headers().iter().enumerate() {
            sections.push(self.section(alloc, which, names, index, name, header)?)?;
            name += self.added_len(alloc, which, index, header)?;
        }
        Ok(sections)
    }
}

// Whether a section can't get other bytes.
fn is_fixed(header: &SectionHeader) -> bool
    ensures { result ≡ is_fixed header.now }
{
    has_other_type(header) || header.flags & SHF_COMPRESSED != 0
}

// The change of the section of the names.
fn names_change<'a>(names: &'a [u8], header: &SectionHeader) -> Change<'a>
    ensures { result ≡ names_change names.now header.now }
{
    Change {
        name: header.name,
        flags: header.flags,
        content: Content::plain(names),
    }
}
