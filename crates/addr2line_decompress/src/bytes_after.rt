//! The bytes of an image after decompression.

ghost use Rattle.std.specs.Prelude.{◌≡◌, ◌+◌, ◌<◌, ◌≤◌, ◌^◌, ◌++◌, length, flat_map, sum_by, IfOk, OnOk, MatchOption};
ghost use Rattle.gimli_core_readers.specs.ByteOrders.{is_big_endian};
ghost use Rattle.gimli_core_readers.specs.Fixed.{number_bytes};
ghost use Rattle.addr2line_elf.specs.ElfClasses.{word_size, section_header_size};
ghost use Rattle.addr2line_decompress.specs.DecompressResults.{DecompressesAsOrNoMemory};
ghost use Rattle.std.specs.Option.{is_some};
ghost use Rattle.gimli_core_readers.specs.Results.{some_of};
ghost use Rattle.addr2line_decompress.specs.CompressedSections.{text_of, text_if_any, texts_from};
ghost use Rattle.addr2line_decompress.specs.DecompressedBytes.{new_size, size_limit, size_below, header_after, name_and_type, changed_entry, entry_after, table_bytes, with_texts};
ghost use Rattle.addr2line_decompress.specs.WrittenBytes.{WritesText, WritesTexts, AreEntries};
ghost use Rattle.addr2line_decompress.specs.ImageTables.{file_bytes, table_end};

use crate::compression::Content;
use crate::error::DecompressError;
use crate::streams::Section;
use crate::table::ImageTable;
use addr2line_elf::class::Class;
use addr2line_elf::headers::SectionHeader;
use gimli_core_readers::{Endianity, RunTimeEndian};
use std::alloc::{AllocError, Global};
use std::marker::Model;

// Sizes and offsets are below this.
fn size_limit(class: Class) -> u64
    ensures { result ≡ size_limit class }
{
    match class {
        Class::Elf32 => 1 << 32,
        Class::Elf64 => 1 << 63,
    }
}

// How many new bytes a section has.
fn new_size(section: &Section<'_>) -> u64
    ensures { result ≡ new_size section.now.change }
{
    match &section.change {
        Some(change) => change.content.size(),
        None => 0,
    }
}

// The size of a file of some bytes and of the new bytes after it, if it is below a limit.
fn size_below(len: u64, sections: &[Section<'_>], limit: u64) -> Option<u64>
    ensures { result ≡ size_below len sections.now limit }
{
    let mut size = len;
    for section in sections {
        size = size.checked_add(new_size(section))?;
    }
    (size < limit).then_some(size)
}

// The header of a section that changes, if it does, with its new bytes at an offset.
fn header_after(section: &Section<'_>, offset: u64) -> SectionHeader
    ensures { result ≡ header_after offset section.now }
{
    let header = section.header;
    match &section.change {
        Some(change) => SectionHeader {
            name: change.name,
            flags: change.flags,
            offset,
            size: change.content.size(),
            ..header
        },
        None => header,
    }
}

/// The bytes of an image so far, its class, and the order of a number's bytes.
#[derive(Debug, Drop)]
pub struct ImageBytes {
    bytes: Vec<u8>,
    class: Class,
    endian: RunTimeEndian,
}

impl Model for ImageBytes {
    ghost use Rattle.gimli_core_readers.specs.ByteOrders.{is_big_endian};
    ghost use Rattle.addr2line_decompress.specs.WrittenBytes.{ImageBytes};

    ghost Value = { ImageBytes };

    ghost view = { λ w. record {
      bytes = w.bytes.items;
      class = w.class;
      is_big = is_big_endian w.endian;
    } };
}

impl ImageBytes {
    ghost use Rattle.addr2line_decompress.specs.WrittenBytes.{append, AreEntries};

    // Writes some bytes.
    fn write(&mut self, bytes: &[u8]) -> Result<(), AllocError>
        ensures { OnOk result (self.new ≡ append bytes.now self.old) }
    {
        self.bytes.extend_from_slice(bytes)
    }

    // Writes an address, an offset or a size.
    fn address(&mut self, n: u64) -> Result<(), AllocError>
        ensures { OnOk result (self.new
            ≡ append (number_bytes self.old.is_big (word_size self.old.class) n) self.old) }
    {
        let size = self.class.word_size();
        let mut bytes = [0; 8];
        self.endian.write_u64(&mut bytes, n);
        if self.endian.is_big_endian() {
            self.write(&bytes[8 - size..])
        } else {
            self.write(&bytes[..size])
        }
    }

    // Writes a number of four bytes.
    fn number(&mut self, n: u32) -> Result<(), AllocError>
        ensures { OnOk result (self.new ≡ append (number_bytes self.old.is_big 4 n) self.old) }
    {
        let mut bytes = [0; 4];
        self.endian.write_u32(&mut bytes, n);
        self.write(&bytes)
    }

    // Writes the name and the type of a section header of some bytes, with another name.
    fn name_and_type(&mut self, header: &SectionHeader, entry: &[u8]) -> Result<(), AllocError>
        requires { 8 ≤ length entry.now }
        ensures { OnOk result (self.new
            ≡ append (name_and_type self.old.is_big header.now entry.now) self.old) }
    {
        self.number(header.name)?;
        self.write(&entry[4..8])
    }

    // Writes a section header of some bytes, with another name, other flags, another offset and
    // another size.
    fn changed_entry(&mut self, header: &SectionHeader, entry: &[u8]) -> Result<(), AllocError>
        requires { length entry.now ≡ section_header_size self.old.class }
        ensures { OnOk result (self.new
            ≡ append (changed_entry self.old.class self.old.is_big header.now entry.now) self.old) }
    {
        let size = self.class.word_size();
        self.name_and_type(header, entry)?;
        self.address(header.flags)?;
        self.write(&entry[8 + size..8 + 2 * size])?;
        self.address(header.offset)?;
        self.address(header.size)?;
        self.write(&entry[8 + 4 * size..])
    }

    // Writes the header of a section, whose new bytes, if it has some, are at an offset.
    fn entry(&mut self, section: &Section<'_>, offset: u64) -> Result<(), AllocError>
        requires { length section.now.entry ≡ section_header_size self.old.class }
        ensures { OnOk result (self.new
            ≡ append (entry_after self.old.class self.old.is_big offset section.now) self.old) }
    {
        if section.change.is_some() {
            self.changed_entry(&header_after(section, offset), section.entry)
        } else {
            self.write(section.entry)
        }
    }

    // Writes the section headers. The new bytes follow each other from an offset on.
    fn table(&mut self, sections: &[Section<'_>], start: u64) -> Result<(), AllocError>
        requires entries { AreEntries self.old.class sections.now }
        requires small { start + sum_by (λ s. new_size s.change) sections.now < 2 ^ 64 }
        ensures { OnOk result (self.new
            ≡ append (table_bytes self.old.class self.old.is_big start sections.now) self.old) }
    {
        let mut offset = start;
        for section in sections {
            self.entry(section, offset)?;
            offset += new_size(section);
        }
        Ok(())
    }

    // Writes the text of a section, if it has one.
    fn text(
        &mut self,
        alloc: Global,
        section: &Section<'_>,
        index: usize,
    ) -> Result<(), DecompressError>
        ensures { WritesText result self.old self.new (text_if_any index section.now.change) }
    {
        match &section.change {
            Some(change) => self.content(alloc, &change.content, index),
            None => Ok(()),
        }
    }

    // Writes the new bytes of a section.
    fn content(
        &mut self,
        alloc: Global,
        content: &Content<'_>,
        index: usize,
    ) -> Result<(), DecompressError>
        ensures { WritesText result self.old self.new (some_of (text_of index content.now)) }
    {
        match content.text_size() {
            Some(size) => Ok(self.write(&content.text(alloc, size, index)?)?),
            None => Ok(self.write(content.bytes())?),
        }
    }

    // Writes the texts, one after the other.
    fn texts(&mut self, alloc: Global, sections: &[Section<'_>]) -> Result<(), DecompressError>
        ensures { WritesTexts result self.old self.new (texts_from 0 sections.now) }
    {
        for (index, section) in sections.iter().enumerate() {
            self.text(alloc, section, index)?;
        }
        Ok(())
    }
}

// The bytes of an image of some sections after decompression, in one allocation; each text is in
// another one while it is copied.
pub(crate) fn bytes_after(
    alloc: Global,
    table: &ImageTable,
    sections: &[Section<'_>],
) -> Result<Vec<u8>, DecompressError>
    requires room { table_end table.now ≤ length (file_bytes table.now) }
    requires fit { AreEntries table.now.image.class sections.now }
    ensures { DecompressesAsOrNoMemory (λ bytes. bytes.items) result
        (with_texts table.now sections.now) }
{
    let file = table.bytes();
    let Some(size) = size_below(file.len() as u64, sections, size_limit(table.class())) else {
        return Err(DecompressError::TooLarge);
    };
    let mut image = ImageBytes {
        bytes: Vec::with_capacity(alloc, size as usize)?,
        class: table.class(),
        endian: table.endian(),
    };
    image.write(&file[..table.offset() as usize])?;
    image.table(sections, file.len() as u64)?;
    image.write(&file[table.end()..])?;
    image.texts(alloc, sections)?;
    Ok(image.bytes)
}
