//! The two classes of ELF files.

ghost use Rattle.std.specs.Prelude.{◌≡◌, ◌<◌, ◌≤◌};
ghost use Rattle.addr2line_elf.specs.ElfClasses.{word_size, file_header_size, section_header_size, symbol_size};

/// The class of an ELF file: its addresses, offsets and sizes have 32 bits or 64 (System V ABI,
/// "ELF Header").
#[derive(Clone, Copy, Debug, PartialEq, Eq)]
pub enum Class {
    Elf32,
    Elf64,
}

impl Class {
    /// The bytes of an address, an offset or a size.
    pub fn word_size(self) -> usize
        ensures value { result ≡ word_size self }
        ensures some { 4 ≤ result }
        ensures small { result ≤ 8 }
    {
        match self {
            Class::Elf32 => 4,
            Class::Elf64 => 8,
        }
    }

    // The bytes of the file's header.
    pub(crate) fn file_header_size(self) -> u64
        ensures value { result ≡ file_header_size self }
    {
        match self {
            Class::Elf32 => 52,
            Class::Elf64 => 64,
        }
    }

    /// The bytes of a section header.
    pub fn section_header_size(self) -> u16
        ensures value { result ≡ section_header_size self }
    {
        match self {
            Class::Elf32 => 40,
            Class::Elf64 => 64,
        }
    }

    // The bytes of an entry of a symbol table.
    pub(crate) fn symbol_size(self) -> usize
        ensures value { result ≡ symbol_size self }
        ensures some { 0 < result }
    {
        match self {
            Class::Elf32 => 16,
            Class::Elf64 => 24,
        }
    }
}
