use std::alloc::{AllocError, AllocFailed};
use std::fmt;

/// Why something wasn't written. Displayed as `W` and the number that each refusal has here.
#[derive(Clone, Copy, Debug, PartialEq, Eq)]
pub enum Error {
    /// W1: Out of memory.
    Memory,
    /// W2: A number that doesn't fit its width.
    ValueTooLarge,
    /// W3: A write at an offset past the end.
    OffsetOutOfBounds,
    /// W4: A write that begins within the bytes and ends past them.
    LengthOutOfBounds,
    /// W5: A length that 32-bit DWARF reserves, from 0xfffffff0 on (DWARF 5, 7.4).
    InitialLengthOverflow,
    /// W6: A version other than 2 to 5.
    UnsupportedVersion,
    /// W7: A width other than 1, 2, 4 or 8.
    UnsupportedWordSize,
    /// W8: Strings of two forms in one list of directories or files.
    LineStringFormMismatch,
    /// W9: What the version asked for can't express.
    NeedVersion,
    /// W10: A symbol that the writer can't relocate.
    InvalidAddress,
}

impl From<AllocError> for Error {
    ghost use Rattle.std.specs.Prelude.{◌≡◌};
    ghost use Rattle.gimli_lines_write_bytes.specs.declared.error.Error.TheVariants.{Memory};

    ghost from_gives = { λ _ e. e ≡ Memory };

    fn from(_refused: AllocError) -> Error {
        Error::Memory
    }
}

impl<T: Drop> From<AllocFailed<T>> for Error {
    ghost use Rattle.std.specs.Prelude.{◌≡◌};
    ghost use Rattle.gimli_lines_write_bytes.specs.declared.error.Error.TheVariants.{Memory};

    ghost from_gives = { λ _ e. e ≡ Memory };

    fn from(_refused: AllocFailed<T>) -> Error {
        Error::Memory
    }
}

impl fmt::Display for Error {
    ghost use Rattle.std.specs.Prelude.{Some};
    ghost use Rattle.gimli_lines_write_bytes.specs.WriteErrorText.{error_text};

    ghost output = { λ e. Some (error_text e) };

    fn fmt<W: fmt::Write>(&self, f: &mut fmt::Formatter<W>) -> fmt::Result {
        f.write_str(match self {
            Error::Memory => "W1",
            Error::ValueTooLarge => "W2",
            Error::OffsetOutOfBounds => "W3",
            Error::LengthOutOfBounds => "W4",
            Error::InitialLengthOverflow => "W5",
            Error::UnsupportedVersion => "W6",
            Error::UnsupportedWordSize => "W7",
            Error::LineStringFormMismatch => "W8",
            Error::NeedVersion => "W9",
            Error::InvalidAddress => "W10",
        })
    }
}
