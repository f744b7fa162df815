ghost use Rattle.std.specs.Prelude.{◌≡◌, ◌≢◌, IsTrue, Err};
ghost use Rattle.gimli_core_readers.specs.Calls.{ReturnsAs, ReturnsAsOrNoMemory};
ghost use Rattle.gimli_core_readers.specs.Error.TheVariants.{Memory};
ghost use Rattle.gimli_units_lists.specs.ListSections.{list_offset_at, from_offset, section_of_version};

use gimli_core_readers::places::offset_at;
use gimli_core_readers::{Encoding, Error, Format, Reader, ReaderOffset};

// The offset of the list that an index stands for: the base plus the offset that the section has
// for the index.
pub(crate) fn list_offset<R: Reader>(
    section: &R,
    format: Format,
    base: R::Offset,
    index: R::Offset,
) -> Result<R::Offset, Error>
    ensures value { ReturnsAs R.Offset.count result
        (list_offset_at R.Offset.limit format (R.Offset.count base) (R.Offset.count index)
        (R.view section.now)) }
    ensures free { result ≢ Err Memory }
{
    let offset = offset_at(section, format, base, index)?;
    let sum = base
        .into_u64()
        .checked_add(offset.into_u64())
        .ok_or(Error::OffsetSumOverflow)?;
    R::Offset::from_u64(sum)
}

// The bytes of a list, from its offset on: those of the one section up to version 4, of the other
// from version 5 on.
pub(crate) fn list_bytes<R: Reader>(
    to_4: &R,
    from_5: &R,
    encoding: Encoding,
    offset: R::Offset,
) -> Result<R, Error>
    ensures value { ReturnsAsOrNoMemory R.view result (from_offset (R.Offset.count offset)
        (section_of_version encoding (R.view to_4.now) (R.view from_5.now))) }
    ensures free { IsTrue R.copies_freely → result ≢ Err Memory }
{
    let section = if encoding.version <= 4 { to_4 } else { from_5 };
    let mut bytes = section.copy()?;
    bytes.skip(offset)?;
    Ok(bytes)
}
