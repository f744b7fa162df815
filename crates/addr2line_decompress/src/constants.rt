//! Constants of ELF files, by the names of the standard (System V ABI, "Sections", "Section
//! Compression").

pub(crate) use addr2line_elf::constants::{
    SHF_COMPRESSED, SHT_DYNSYM, SHT_NOBITS, SHT_REL, SHT_RELA, SHT_SYMTAB,
};

// A section compressed by DEFLATE, in the zlib format (RFC 1950 and 1951).
pub(crate) const ELFCOMPRESS_ZLIB: u32 = 1;

// A section compressed by Zstandard (RFC 8878).
pub(crate) const ELFCOMPRESS_ZSTD: u32 = 2;

// How many bytes DEFLATE makes of one at most: a copy of 258 bytes takes two bits, one for its
// length and one for its distance (RFC 1951, 3.2.5).
pub(crate) const MOST_OF_ONE_BYTE: u64 = 1032;
