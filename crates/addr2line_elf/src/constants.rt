//! Constants of ELF files, by the names of the standard (System V ABI, "ELF Header", "Sections" and
//! "Symbol Table").

// The index of the file's class in its identification.
pub(crate) const EI_CLASS: usize = 4;

// The index of the order of bytes in the file's identification.
pub(crate) const EI_DATA: usize = 5;

// The bytes of the file's identification.
pub(crate) const EI_NIDENT: u64 = 16;

// Objects of 32 bits.
pub(crate) const ELFCLASS32: u8 = 1;

// Objects of 64 bits.
pub(crate) const ELFCLASS64: u8 = 2;

// The least significant byte of a number comes first.
pub(crate) const ELFDATA2LSB: u8 = 1;

// The most significant byte of a number comes first.
pub(crate) const ELFDATA2MSB: u8 = 2;

// A file that is yet to be linked.
pub(crate) const ET_REL: u16 = 1;

/// A section with all symbols.
pub const SHT_SYMTAB: u32 = 2;

/// A section of relocations with addends.
pub const SHT_RELA: u32 = 4;

/// A section that has no bytes in the file.
pub const SHT_NOBITS: u32 = 8;

/// A section of relocations without addends.
pub const SHT_REL: u32 = 9;

/// A section with the symbols of dynamic linking.
pub const SHT_DYNSYM: u32 = 11;

/// The flag of a compressed section.
pub const SHF_COMPRESSED: u64 = 0x800;

/// The index that names no section.
pub const SHN_UNDEF: u16 = 0;

// The index that means that the index is in the first section header.
pub(crate) const SHN_XINDEX: u16 = 0xffff;

// The type of a symbol that is a function. Of the lower types, 0 is that of a symbol without a
// type and 1 that of a datum.
pub(crate) const STT_FUNC: u8 = 2;
