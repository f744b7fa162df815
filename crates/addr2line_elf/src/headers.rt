//! The headers of an ELF file: that of the file, and those of its sections (System V ABI, "ELF
//! Header" and "Sections").

ghost use Rattle.std.specs.Prelude.{◌≡◌};
ghost use Rattle.gimli_core_readers.specs.Calls.{ReturnsAs};
ghost use Rattle.addr2line_elf.specs.ElfHeaders.{file_header, section_header};
ghost use Rattle.addr2line_elf.specs.ElfImages.{section_count, names_index};

use crate::class::Class;
use crate::constants::SHN_XINDEX;
use gimli_core_readers::{EndianSlice, Error, Reader, RunTimeEndian};

/// What is read of a file's header, after its identification.
#[derive(Clone, Copy, Debug, PartialEq, Eq)]
pub struct FileHeader {
    /// The type of the file (ET_*).
    pub file_type: u16,
    /// The offset of the section headers; 0 where there are none.
    pub table_offset: u64,
    /// The bytes of a section header.
    pub entry_size: u16,
    /// The number of section headers; 0 where the first of them holds it.
    pub count: u16,
    /// The index of the section with the sections' names; 0xffff where the first section header
    /// holds it.
    pub names: u16,
}

/// A section as the table of sections describes it.
#[derive(Clone, Copy, Debug, PartialEq, Eq)]
pub struct SectionHeader {
    /// Where the section's name begins in the section of names.
    pub name: u32,
    /// The type of the section (SHT_*).
    pub section_type: u32,
    /// Its flags (SHF_*).
    pub flags: u64,
    /// The address of the first byte where the program runs.
    pub address: u64,
    /// The offset of the first byte in the file.
    pub offset: u64,
    /// The number of its bytes, in the file or, where it has none there, in memory.
    pub size: u64,
    /// The index of a section that this one needs: of a symbol table, the section with its names.
    pub link: u32,
    /// Of relocations, the index of the section that they change.
    pub info: u32,
}

impl FileHeader {
    // The header at the start of a file.
    #[tactic(auto, unfolding(crate::specs::ElfHeaders::file_header))]
    pub(crate) fn parse(
        input: &mut EndianSlice<'_, RunTimeEndian>,
        class: Class,
    ) -> Result<FileHeader, Error>
        ensures { ReturnsAs (λ header. (header, input.new)) result (file_header class input.old) }
    {
        let word_size = class.word_size();
        input.skip(16)?;
        let file_type = input.read_u16()?;
        input.skip(6)?;
        input.skip(word_size)?;
        input.skip(word_size)?;
        let table_offset = input.read_uint(word_size)?;
        input.skip(10)?;
        let entry_size = input.read_u16()?;
        let count = input.read_u16()?;
        let names = input.read_u16()?;
        Ok(FileHeader {
            file_type,
            table_offset,
            entry_size,
            count,
            names,
        })
    }

    // The number of section headers.
    pub(crate) fn section_count(&self, first: &SectionHeader) -> u64
        ensures { result ≡ section_count self.now first.now }
    {
        if self.count == 0 {
            first.size
        } else {
            u64::from(self.count)
        }
    }

    /// The index of the section with the sections' names, which the first section header holds if
    /// this one has no room for it.
    pub fn names_index(&self, first: &SectionHeader) -> u32
        ensures { result ≡ names_index self.now first.now }
    {
        if self.names == SHN_XINDEX {
            first.link
        } else {
            u32::from(self.names)
        }
    }
}

impl SectionHeader {
    // The next section header.
    #[tactic(auto, unfolding(crate::specs::ElfHeaders::section_header))]
    pub(crate) fn parse(
        input: &mut EndianSlice<'_, RunTimeEndian>,
        class: Class,
    ) -> Result<SectionHeader, Error>
        ensures { ReturnsAs (λ header. (header, input.new)) result
            (section_header class input.old) }
    {
        let word_size = class.word_size();
        let name = input.read_u32()?;
        let section_type = input.read_u32()?;
        let flags = input.read_uint(word_size)?;
        let address = input.read_uint(word_size)?;
        let offset = input.read_uint(word_size)?;
        let size = input.read_uint(word_size)?;
        let link = input.read_u32()?;
        let info = input.read_u32()?;
        input.skip(2 * word_size)?;
        Ok(SectionHeader {
            name,
            section_type,
            flags,
            address,
            offset,
            size,
            link,
            info,
        })
    }
}
