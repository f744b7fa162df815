use crate::constants::{DwForm, DwLle, DwRle, DwUt, ReaderOffsetId};
use std::alloc::{AllocError, AllocFailed};
use std::fmt;

/// Why something wasn't read. Displayed as `E` and the number that each refusal has here.
#[derive(Clone, Copy, Debug, PartialEq, Eq)]
pub enum Error {
    /// E1: Out of memory.
    Memory,
    /// E2: The bytes end before a value does; where the read that failed began.
    UnexpectedEof(ReaderOffsetId),
    /// E3: An unsigned LEB128 number that is too long or too large (DWARF 5, 7.6).
    BadUnsignedLeb128,
    /// E4: A signed LEB128 number that is too long or too large (DWARF 5, 7.6).
    BadSignedLeb128,
    /// E5: An initial length from 0xfffffff0 on that the standard reserves (DWARF 5, 7.4).
    UnknownReservedLength(u32),
    /// E6: An offset that the reader's offset type can't hold.
    UnsupportedOffset,
    /// E7: An address size other than 1, 2, 4 or 8.
    UnsupportedAddressSize(u8),
    /// E8: An abbreviation with the tag 0 (DWARF 5, 7.5.3).
    AbbreviationTagZero,
    /// E9: An attribute with the name 0 and a form (DWARF 5, 7.5.3).
    AttributeNameZero,
    /// E10: An attribute with a name and the form 0 (DWARF 5, 7.5.3).
    AttributeFormZero,
    /// E11: A children byte other than 0 or 1 (DWARF 5, 7.5.3).
    InvalidAbbreviationChildren(u8),
    /// E12: An abbreviation code that occurs twice in its table (DWARF 5, 7.5.3).
    DuplicateAbbreviationCode(u64),
    /// E13: An entry's code that its unit's abbreviation table lacks (DWARF 5, 7.5.2).
    InvalidAbbreviationCode(u64),
    /// E14: A form that can't be read here (DWARF 5, 7.5.6).
    UnknownForm(DwForm),
    /// E15: An implicit constant that is reached through an indirect form (DWARF 5, 7.5.3).
    InvalidImplicitConst,
    /// E16: A version other than those of the standard that are read.
    UnknownVersion(u64),
    /// E17: A unit type that the standard doesn't number (DWARF 5, 7.5.1).
    UnsupportedUnitType(DwUt),
    /// E18: A segment selector size other than 0.
    UnsupportedSegmentSize,
    /// E19: An offset outside the entries of its unit.
    OffsetOutOfBounds,
    /// E20: The offset of a null entry, or of no entry, where an entry is asked for.
    NoEntryAtGivenOffset(u64),
    /// E21: A unit without a root entry.
    MissingUnitDie,
    /// E22: An address past the address size.
    AddressOverflow,
    /// E23: A range list entry that the standard doesn't number (DWARF 5, 7.25).
    UnknownRangeListsEntry(DwRle),
    /// E24: A location list entry that the standard doesn't number (DWARF 5, 7.7.3).
    UnknownLocListsEntry(DwLle),
    /// E25: A line program header whose minimum instruction length is 0 (DWARF 5, 6.2.4).
    MinimumInstructionLengthZero,
    /// E26: A line program header with 0 operations an instruction (DWARF 5, 6.2.4).
    MaximumOperationsPerInstructionZero,
    /// E27: A line program header whose line range is 0 (DWARF 5, 6.2.4).
    LineRangeZero,
    /// E28: A line program header whose opcode base is 0 (DWARF 5, 6.2.4).
    OpcodeBaseZero,
    /// E29: A directory or file format without exactly one path (DWARF 5, 6.2.4).
    MissingFileEntryFormatPath,
    /// E30: An attribute value that is no text.
    ExpectedStringAttributeValue,
    /// E31: A text that isn't UTF-8.
    BadUtf8,
    /// E32: A sum of offsets past 64 bits.
    OffsetSumOverflow,
    /// E33: A unit's number past the units.
    NoSuchUnit,
}

impl From<AllocError> for Error {
    ghost use Rattle.std.specs.Prelude.{◌≡◌};
    ghost use Rattle.gimli_core_base.specs.declared.error.Error.TheVariants.{Memory};

    ghost from_gives = { λ _ e. e ≡ Memory };

    fn from(_refused: AllocError) -> Error {
        Error::Memory
    }
}

impl<T: Drop> From<AllocFailed<T>> for Error {
    ghost use Rattle.std.specs.Prelude.{◌≡◌};
    ghost use Rattle.gimli_core_base.specs.declared.error.Error.TheVariants.{Memory};

    ghost from_gives = { λ _ e. e ≡ Memory };

    fn from(_refused: AllocFailed<T>) -> Error {
        Error::Memory
    }
}

impl fmt::Display for Error {
    ghost use Rattle.std.specs.Prelude.{Some};
    ghost use Rattle.gimli_core_base.specs.ErrorText.{error_text};

    ghost output = { λ e. Some (error_text e) };

    fn fmt<W: fmt::Write>(&self, f: &mut fmt::Formatter<W>) -> fmt::Result {
        f.write_str(match self {
            Error::Memory => "E1",
            Error::UnexpectedEof(_) => "E2",
            Error::BadUnsignedLeb128 => "E3",
            Error::BadSignedLeb128 => "E4",
            Error::UnknownReservedLength(_) => "E5",
            Error::UnsupportedOffset => "E6",
            Error::UnsupportedAddressSize(_) => "E7",
            Error::AbbreviationTagZero => "E8",
            Error::AttributeNameZero => "E9",
            Error::AttributeFormZero => "E10",
            Error::InvalidAbbreviationChildren(_) => "E11",
            Error::DuplicateAbbreviationCode(_) => "E12",
            Error::InvalidAbbreviationCode(_) => "E13",
            Error::UnknownForm(_) => "E14",
            Error::InvalidImplicitConst => "E15",
            Error::UnknownVersion(_) => "E16",
            Error::UnsupportedUnitType(_) => "E17",
            Error::UnsupportedSegmentSize => "E18",
            Error::OffsetOutOfBounds => "E19",
            Error::NoEntryAtGivenOffset(_) => "E20",
            Error::MissingUnitDie => "E21",
            Error::AddressOverflow => "E22",
            Error::UnknownRangeListsEntry(_) => "E23",
            Error::UnknownLocListsEntry(_) => "E24",
            Error::MinimumInstructionLengthZero => "E25",
            Error::MaximumOperationsPerInstructionZero => "E26",
            Error::LineRangeZero => "E27",
            Error::OpcodeBaseZero => "E28",
            Error::MissingFileEntryFormatPath => "E29",
            Error::ExpectedStringAttributeValue => "E30",
            Error::BadUtf8 => "E31",
            Error::OffsetSumOverflow => "E32",
            Error::NoSuchUnit => "E33",
        })
    }
}
