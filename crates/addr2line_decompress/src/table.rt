//! An image, with the place of its section headers.

ghost use Rattle.std.specs.Prelude.{◌≡◌, ◌≤◌, ◌==◌, length, option_map, IfOk, not};
ghost use Rattle.std.specs.Option.{is_none};
ghost use Rattle.gimli_core_readers.specs.ByteOrders.{is_big_endian};
ghost use Rattle.addr2line_elf.specs.ElfImages.{name_of, index_named, contents};
ghost use Rattle.addr2line_elf.specs.ImageLoading.{LoadsAsOrNoMemory, LoadsOrNoMemory};
ghost use Rattle.addr2line_decompress.specs.ImageTables.{file_header_size, table_of, file_bytes, table_end};

use addr2line_elf::class::Class;
use addr2line_elf::headers::SectionHeader;
use addr2line_elf::{Elf, LoadError};
use bytes::Bytes;
use gimli_core_readers::{EndianSlice, RunTimeEndian};
use std::alloc::Global;
use std::marker::Model;

/// An image, the offset of its section headers, and the index of the section with their names.
#[derive(Debug, Drop)]
pub struct ImageTable {
    elf: Elf,
    // The bytes of the file.
    bytes: Bytes,
    offset: u64,
    names_index: u32,
}

impl Model for ImageTable {
    ghost use Rattle.std.specs.Prelude.{◌≡◌};
    ghost use Rattle.addr2line_decompress.specs.ImageTables.{ImageTable};

    ghost Value = { ImageTable };

    ghost view = { λ t. record {
      image = t.elf;
      offset = t.offset;
      names_index = t.names_index;
    } };

    ghost invariant = { λ t. t.bytes ≡ t.elf.file.bytes };
}

impl ImageTable {
    // Reads the section headers of an image. Takes memory for a list of them.
    pub(crate) fn read(alloc: Global, image: &Bytes) -> Result<ImageTable, LoadError>
        ensures value { LoadsAsOrNoMemory (λ table. table) result (table_of image.now) }
        ensures room { IfOk result (λ table. table_end table ≤ length (file_bytes table)) }
    {
        ImageTable::read_headers(alloc, image)
    }

    fn read_headers(alloc: Global, image: &Bytes) -> Result<ImageTable, LoadError>
        ensures { LoadsAsOrNoMemory (λ table. table) result (table_of image.now) }
    {
        let elf = Elf::parse(alloc, image.clone()?)?;
        let header = elf.header()?;
        let first = elf.header_at(header.table_offset)?;
        let bytes = elf.bytes()?;
        Ok(ImageTable {
            elf,
            bytes,
            offset: header.table_offset,
            names_index: header.names_index(&first),
        })
    }

    // The bytes of the file.
    pub(crate) fn bytes(&self) -> &[u8]
        ensures { result.now ≡ file_bytes self.now }
    {
        self.bytes.as_slice()
    }

    // The class of the file.
    pub(crate) fn class(&self) -> Class
        ensures { result ≡ self.now.image.class }
    {
        self.elf.class()
    }

    // The bytes of the file's header.
    pub(crate) fn file_header_size(&self) -> u64
        ensures { result ≡ file_header_size self.now.image.class }
    {
        match self.class() {
            Class::Elf32 => 52,
            Class::Elf64 => 64,
        }
    }

    // The order of the bytes of a number.
    pub(crate) fn endian(&self) -> RunTimeEndian
        ensures { is_big_endian result ≡ self.now.image.file.is_big }
    {
        self.elf.endian()
    }

    // The section headers.
    pub(crate) fn headers(&self) -> &[SectionHeader]
        ensures { result.now ≡ self.now.image.sections }
    {
        self.elf.sections()
    }

    // The offset of the section headers.
    pub(crate) fn offset(&self) -> u64
        ensures { result ≡ self.now.offset }
    {
        self.offset
    }

    // The index of the section with the names of the sections.
    pub(crate) fn names_index(&self) -> u32
        ensures { result ≡ self.now.names_index }
    {
        self.names_index
    }

    // The bytes of that section.
    pub(crate) fn names(&self) -> &[u8]
        ensures { result.now ≡ self.now.image.names.bytes }
    {
        self.elf.names()
    }

    // The name of a section, if it ends.
    pub(crate) fn name_of(&self, header: &SectionHeader) -> Option<&[u8]>
        ensures { option_map (λ name. name.now) result ≡ name_of header.now self.now.image }
    {
        self.elf.name_of(header)
    }

    // Whether no section has a name.
    pub(crate) fn is_free(&self, name: &[u8]) -> bool
        ensures { result ≡ is_none (index_named name.now self.now.image) }
    {
        self.elf.index_of(name).is_none()
    }

    // The bytes of a section.
    pub(crate) fn contents(
        &self,
        header: &SectionHeader,
    ) -> Result<EndianSlice<'_, RunTimeEndian>, LoadError>
        ensures { LoadsOrNoMemory result (contents header.now self.now.image.file) }
    {
        self.elf.contents(header)
    }
}
