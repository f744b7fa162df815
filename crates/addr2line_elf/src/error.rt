//! Why an image isn't loaded.

use gimli_core_readers::Error;
use std::alloc::{AllocError, AllocFailed};
use std::fmt;

/// Why an image isn't loaded. Displayed as the letter and the number beside each case.
#[derive(Clone, Copy, Debug, PartialEq, Eq)]
pub enum LoadError {
    /// L1: out of memory.
    Memory,
    /// L2: the file can't be read.
    Io,
    /// L3: the bytes don't begin as those of an ELF file do.
    NotElf,
    /// L4: an ELF file of a class, a byte order or a section header size that isn't supported.
    UnsupportedElf,
    /// L5: the file ends before a header, a section or a table does.
    Truncated,
    /// L6: a section of debugging information is compressed.
    CompressedSection,
    /// L7: a linker has yet to fill in the addresses of a section of debugging information.
    NeedsRelocation,
    /// L8: the debugging information can't be read.
    Dwarf(Error),
}

impl From<Error> for LoadError {
    ghost use Rattle.std.specs.Prelude.{◌≡◌};
    ghost use Rattle.addr2line_elf.specs.LoadErrors.{load_error_of};

    ghost from_gives = { λ error refused. refused ≡ load_error_of error };

    fn from(error: Error) -> LoadError {
        match error {
            Error::Memory => LoadError::Memory,
            other => LoadError::Dwarf(other),
        }
    }
}

impl From<AllocError> for LoadError {
    ghost use Rattle.std.specs.Prelude.{◌≡◌};
    ghost use Rattle.addr2line_elf.specs.declared.error.LoadError.TheVariants.{Memory};

    ghost from_gives = { λ _ refused. refused ≡ Memory };

    fn from(_refused: AllocError) -> LoadError {
        LoadError::Memory
    }
}

impl<T: Drop> From<AllocFailed<T>> for LoadError {
    ghost use Rattle.std.specs.Prelude.{◌≡◌};
    ghost use Rattle.addr2line_elf.specs.declared.error.LoadError.TheVariants.{Memory};

    ghost from_gives = { λ _ refused. refused ≡ Memory };

    fn from(_refused: AllocFailed<T>) -> LoadError {
        LoadError::Memory
    }
}

impl fmt::Display for LoadError {
    ghost use Rattle.std.specs.Prelude.{Some};
    ghost use Rattle.addr2line_elf.specs.LoadErrors.{text_of};

    ghost output = { λ e. Some (text_of e) };

    fn fmt<W: fmt::Write>(&self, f: &mut fmt::Formatter<W>) -> fmt::Result {
        match self {
            LoadError::Memory => f.write_str("L1"),
            LoadError::Io => f.write_str("L2"),
            LoadError::NotElf => f.write_str("L3"),
            LoadError::UnsupportedElf => f.write_str("L4"),
            LoadError::Truncated => f.write_str("L5"),
            LoadError::CompressedSection => f.write_str("L6"),
            LoadError::NeedsRelocation => f.write_str("L7"),
            LoadError::Dwarf(Error::Memory) => f.write_str("L1"),
            LoadError::Dwarf(error) => write!(f, "L8 {error}"),
        }
    }
}

impl std::error::Error for LoadError {}
