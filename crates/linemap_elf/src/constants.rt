//! Constants of ELF files that are written, by the names of the standard (System V ABI, "ELF
//! Header" and "Sections").

/// Objects of 32 bits.
pub const ELFCLASS32: u8 = 1;

/// Objects of 64 bits.
pub const ELFCLASS64: u8 = 2;

/// The least significant byte of a number comes first.
pub const ELFDATA2LSB: u8 = 1;

/// The most significant byte of a number comes first.
pub const ELFDATA2MSB: u8 = 2;

/// The version of the format, of which there is one.
pub const EV_CURRENT: u8 = 1;

/// A file that can be run.
pub const ET_EXEC: u16 = 2;

/// No machine.
pub const EM_NONE: u16 = 0;

/// A section whose bytes mean what the program says.
pub const SHT_PROGBITS: u32 = 1;

/// A section of texts.
pub const SHT_STRTAB: u32 = 3;

/// The first index that numbers no section header.
pub const SHN_LORESERVE: u16 = 0xff00;
