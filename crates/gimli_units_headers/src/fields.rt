//! The fields of a unit's header after its length (DWARF 5, 7.5.1).

ghost use Rattle.std.specs.Prelude.{◌≡◌, ℕ};
ghost use Rattle.gimli_core_base.specs.Calls.{ReturnsAs};
ghost use Rattle.gimli_units_headers.specs.UnitHeaders.{unit_type, with_signature, kind_of_type, fields_to_4, fields_of_5, unit_fields, kind_size};
ghost use Rattle.gimli_units_headers.specs.UnitTypes.{kind_of};
ghost use Rattle.gimli_units_headers.specs.ParsedFields.{fields_of};

use gimli_core_base::constants::{
    DW_UT_compile, DW_UT_partial, DW_UT_skeleton, DW_UT_split_compile, DW_UT_split_type,
    DW_UT_type, DwUt,
};
use gimli_core_base::error::Error;
use gimli_core_base::{DebugAbbrevOffset, DebugTypeSignature, DwoId, Encoding, Format};
use gimli_core_readers::{Reader, UnitOffset};

/// What a unit is, and what its header says for that (DWARF 5, 7.5.1.1 to 7.5.1.3).
#[derive(Clone, Copy, Debug, PartialEq, Eq)]
pub enum UnitType<O> {
    /// A compilation unit: every unit up to version 4 of the standard.
    Compilation,
    /// A unit of one type, whose entry is at an offset of the unit.
    TypeUnit {
        type_signature: DebugTypeSignature,
        type_offset: UnitOffset<O>,
    },
    Partial,
    /// A unit whose entries are in a split file, in the split unit of the same identifier.
    Skeleton(DwoId),
    SplitCompilation(DwoId),
    /// A type unit in a split file.
    SplitType {
        type_signature: DebugTypeSignature,
        type_offset: UnitOffset<O>,
    },
}

impl<O> UnitType<O> {
    // The bytes that the type adds to the header.
    pub(crate) fn size(&self, format: Format) -> usize
        ensures { (count : O → ℕ) → result ≡ kind_size format (kind_of count self.now) }
    {
        match self {
            UnitType::Compilation | UnitType::Partial => 0,
            UnitType::Skeleton(_) | UnitType::SplitCompilation(_) => 8,
            UnitType::TypeUnit { .. } | UnitType::SplitType { .. } => {
                8 + usize::from(format.word_size())
            }
        }
    }
}

/// What a unit's header says after its length.
#[derive(Clone, Copy)]
pub struct UnitFields<O> {
    pub encoding: Encoding,
    pub unit_type: UnitType<O>,
    pub debug_abbrev_offset: DebugAbbrevOffset<O>,
}

// The fields after the length.
#[tactic(auto, unfolding(crate::specs::UnitHeaders::unit_fields))]
pub(crate) fn parse_fields<R: Reader>(
    input: &mut R,
    format: Format,
) -> Result<UnitFields<R::Offset>, Error>
    ensures { ReturnsAs (λ fields. (fields_of R.Offset.count fields, R.view input.new)) result
        (unit_fields R.Offset.limit format (R.view input.old)) }
{
    let version = input.read_u16()?;
    match version {
        2..=4 => parse_fields_to_4(input, format, version),
        5 => parse_fields_of_5(input, format),
        _ => Err(Error::UnknownVersion(u64::from(version))),
    }
}

// The fields after the version, up to version 4.
#[tactic(auto, unfolding(crate::specs::UnitHeaders::fields_to_4))]
fn parse_fields_to_4<R: Reader>(
    input: &mut R,
    format: Format,
    version: u16,
) -> Result<UnitFields<R::Offset>, Error>
    ensures { ReturnsAs (λ fields. (fields_of R.Offset.count fields, R.view input.new)) result
        (fields_to_4 R.Offset.limit format version (R.view input.old)) }
{
    let offset = input.read_offset(format)?;
    let size = input.read_address_size()?;
    Ok(UnitFields {
        encoding: Encoding {
            address_size: size,
            format,
            version,
        },
        unit_type: UnitType::Compilation,
        debug_abbrev_offset: DebugAbbrevOffset(offset),
    })
}

// The fields after the version, in version 5.
#[tactic(auto, unfolding(crate::specs::UnitHeaders::fields_of_5))]
fn parse_fields_of_5<R: Reader>(
    input: &mut R,
    format: Format,
) -> Result<UnitFields<R::Offset>, Error>
    ensures { ReturnsAs (λ fields. (fields_of R.Offset.count fields, R.view input.new)) result
        (fields_of_5 R.Offset.limit format (R.view input.old)) }
{
    let unit_type = parse_unit_type(input)?;
    let address_size = input.read_address_size()?;
    let debug_abbrev_offset = DebugAbbrevOffset(input.read_offset(format)?);
    let unit_type = parse_kind(input, format, unit_type)?;
    Ok(UnitFields {
        encoding: Encoding {
            address_size,
            format,
            version: 5,
        },
        unit_type,
        debug_abbrev_offset,
    })
}

// A unit type that the standard numbers.
#[tactic(auto, unfolding(crate::specs::UnitHeaders::unit_type))]
fn parse_unit_type<R: Reader>(input: &mut R) -> Result<DwUt, Error>
    ensures { ReturnsAs (λ t. (t.0, R.view input.new)) result (unit_type (R.view input.old)) }
{
    let unit_type = DwUt(input.read_u8()?);
    match unit_type {
        DW_UT_compile
        | DW_UT_type
        | DW_UT_partial
        | DW_UT_skeleton
        | DW_UT_split_compile
        | DW_UT_split_type => Ok(unit_type),
        _ => Err(Error::UnsupportedUnitType(unit_type)),
    }
}

// What a unit's type adds to the header.
#[tactic(auto, unfolding(crate::specs::UnitHeaders::kind_of_type, crate::specs::UnitHeaders::with_dwo_id, crate::specs::UnitHeaders::with_signature))]
fn parse_kind<R: Reader>(
    input: &mut R,
    format: Format,
    unit_type: DwUt,
) -> Result<UnitType<R::Offset>, Error>
    ensures { ReturnsAs (λ t. (kind_of R.Offset.count t, R.view input.new)) result
        (kind_of_type R.Offset.limit format unit_type.0 (R.view input.old)) }
{
    match unit_type {
        DW_UT_compile => Ok(UnitType::Compilation),
        DW_UT_type => {
            let type_signature = DebugTypeSignature(input.read_u64()?);
            let type_offset = UnitOffset(input.read_offset(format)?);
            Ok(UnitType::TypeUnit {
                type_signature,
                type_offset,
            })
        }
        DW_UT_partial => Ok(UnitType::Partial),
        DW_UT_skeleton => Ok(UnitType::Skeleton(DwoId(input.read_u64()?))),
        DW_UT_split_compile => Ok(UnitType::SplitCompilation(DwoId(input.read_u64()?))),
        _ => {
            let type_signature = DebugTypeSignature(input.read_u64()?);
            let type_offset = UnitOffset(input.read_offset(format)?);
            Ok(UnitType::SplitType {
                type_signature,
                type_offset,
            })
        }
    }
}
