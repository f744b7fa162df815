//! Places of a section that a base and an index lead to.

ghost use Rattle.std.specs.Prelude.{◌≡◌};
ghost use Rattle.gimli_core_base.specs.Calls.{ReturnsAs};
ghost use Rattle.gimli_core_readers.specs.SectionReads.{skip_to_index, table_offset_at};

use crate::{EndianSlice, Reader, borrowed};
use gimli_core_base::error::Error;
use gimli_core_base::{Format, ReaderOffset};

// The bytes of a section from the place of an index on: the base plus the index times the width.
// Takes no memory.
pub(crate) fn reader_at_index<'a, R: Reader>(
    section: &'a R,
    base: R::Offset,
    index: R::Offset,
    width: u8,
) -> Result<EndianSlice<'a, R::Endian>, Error>
    ensures { ReturnsAs (λ left. (tt, left)) result
        (skip_to_index (R.Offset.count base) (R.Offset.count index) width (R.view section.now)) }
{
    let place = index
        .into_u64()
        .checked_mul(u64::from(width))
        .and_then(|distance| distance.checked_add(base.into_u64()))
        .ok_or(Error::OffsetSumOverflow)?;
    let mut input = borrowed(section);
    input.skip(place as usize)?;
    Ok(input)
}

/// The offset at an index after a base, in a table of offsets (DWARF 5, 7.26, 7.28 and
/// 7.29). Takes no memory.
#[tactic(auto, unfolding(gimli_core_base::specs::NumberParsers::word, gimli_core_base::specs::NumberParsers::sized_offset))]
pub fn offset_at<R: Reader>(
    section: &R,
    format: Format,
    base: R::Offset,
    index: R::Offset,
) -> Result<R::Offset, Error>
    ensures { ReturnsAs R.Offset.count result
        (table_offset_at R.Offset.limit format (R.Offset.count base) (R.Offset.count index)
        (R.view section.now)) }
{
    let mut input = reader_at_index(section, base, index, format.word_size())?;
    let offset = match format {
        Format::Dwarf32 => u64::from(input.read_u32()?),
        Format::Dwarf64 => input.read_u64()?,
    };
    R::Offset::from_u64(offset)
}
