//! The numbers that calls return.

ghost use Rattle.std.specs.Prelude.{◌≡◌, pos};
ghost use Rattle.addr2line_c.specs.Numbers.{decompress_error_number, done_number, error_number, error_ordinal, load_error_number, refused_number};

use addr2line_context::Error;
use addr2line_loader::DecompressError;
use addr2line_split::LoadError;

pub const OK: i32 = 0;

pub const NOT_FOUND: i32 = 1;

pub const PAST_END: i32 = 2;

pub const NO_ROOM: i32 = 3;

pub const CLOSED: i32 = 4;

pub const BAD_LOADER: i32 = 5;

pub const ALREADY_OPEN: i32 = 6;

pub const WRONG_FILE: i32 = 7;

pub const UNKNOWN_FLAG: i32 = 8;

// The n of a refusal En.
fn error_ordinal(error: Error) -> i32
    ensures { result ≡ pos (error_ordinal error) }
{
    match error {
        Error::Memory => 1,
        Error::UnexpectedEof(_) => 2,
        Error::BadUnsignedLeb128 => 3,
        Error::BadSignedLeb128 => 4,
        Error::UnknownReservedLength(_) => 5,
        Error::UnsupportedOffset => 6,
        Error::UnsupportedAddressSize(_) => 7,
        Error::AbbreviationTagZero => 8,
        Error::AttributeNameZero => 9,
        Error::AttributeFormZero => 10,
        Error::InvalidAbbreviationChildren(_) => 11,
        Error::DuplicateAbbreviationCode(_) => 12,
        Error::InvalidAbbreviationCode(_) => 13,
        Error::UnknownForm(_) => 14,
        Error::InvalidImplicitConst => 15,
        Error::UnknownVersion(_) => 16,
        Error::UnsupportedUnitType(_) => 17,
        Error::UnsupportedSegmentSize => 18,
        Error::OffsetOutOfBounds => 19,
        Error::NoEntryAtGivenOffset(_) => 20,
        Error::MissingUnitDie => 21,
        Error::AddressOverflow => 22,
        Error::UnknownRangeListsEntry(_) => 23,
        Error::UnknownLocListsEntry(_) => 24,
        Error::MinimumInstructionLengthZero => 25,
        Error::MaximumOperationsPerInstructionZero => 26,
        Error::LineRangeZero => 27,
        Error::OpcodeBaseZero => 28,
        Error::MissingFileEntryFormatPath => 29,
        Error::ExpectedStringAttributeValue => 30,
        Error::BadUtf8 => 31,
        Error::OffsetSumOverflow => 32,
        Error::NoSuchUnit => 33,
    }
}

// That of a refusal of debugging information.
pub(crate) fn error_number(error: Error) -> i32
    ensures { result ≡ error_number error }
{
    100 + error_ordinal(error)
}

// That of a refusal of a file.
pub(crate) fn load_error_number(error: LoadError) -> i32
    ensures { result ≡ load_error_number error }
{
    match error {
        LoadError::Memory => 201,
        LoadError::Io => 202,
        LoadError::NotElf => 203,
        LoadError::UnsupportedElf => 204,
        LoadError::Truncated => 205,
        LoadError::CompressedSection => 206,
        LoadError::NeedsRelocation => 207,
        LoadError::Dwarf(Error::Memory) => 201,
        LoadError::Dwarf(error) => 300 + error_ordinal(error),
    }
}

// That of a refusal of a file that is decompressed.
pub(crate) fn decompress_error_number(error: DecompressError) -> i32
    ensures { result ≡ decompress_error_number error }
{
    match error {
        DecompressError::Memory => load_error_number(LoadError::Memory),
        DecompressError::Image(error) => load_error_number(error),
        DecompressError::OverlappingHeaders => 401,
        DecompressError::OverlappingSection(_) => 402,
        DecompressError::SectionCut(_) => 403,
        DecompressError::CompressedNames(_) => 404,
        DecompressError::HeaderCut(_) => 405,
        DecompressError::Zstandard(_) => 406,
        DecompressError::UnknownCompression(_, _) => 407,
        DecompressError::ImpossibleSize(_) => 408,
        DecompressError::Stream(_, _) => 409,
        DecompressError::TooLarge => 410,
        DecompressError::SharedNames(_) => 411,
        DecompressError::NameCut(_) => 412,
    }
}

// That of a call that is done or refused.
pub(crate) fn done_number(done: Result<(), Error>) -> i32
    ensures { result ≡ done_number done }
{
    match done {
        Ok(()) => OK,
        Err(error) => error_number(error),
    }
}

// That of a loader that isn't open, by its first word.
pub(crate) fn refused_number(opened: u32) -> i32
    ensures { result ≡ refused_number opened }
{
    if opened == 0 { CLOSED } else { BAD_LOADER }
}
