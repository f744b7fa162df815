//! A reader's bytes, borrowed: reading at a place in them copies no reader.

ghost use Rattle.std.specs.Prelude.{◌≡◌, ◌≤◌, length, IsTrue};
ghost use Rattle.gimli_core_base.specs.Calls.{ReturnsAs, ReturnsAsOrNoMemory};
ghost use Rattle.gimli_core_base.specs.Parsers.{part};
ghost use Rattle.gimli_core_base.specs.View.{after};
ghost use Rattle.gimli_core_readers.specs.Places.{IsAfter};

use crate::{EndianSlice, Reader};
use gimli_core_base::error::Error;

/// The bytes of a reader, borrowed.
#[inline(always)]
pub fn borrowed<R: Reader>(reader: &R) -> EndianSlice<'_, R::Endian>
    ensures { result ≡ R.view reader.now }
{
    EndianSlice::with_first_id(reader.as_bytes(), reader.endian(), reader.offset_id())
}

/// How many bytes of a reader come before a place in it.
#[inline(always)]
pub fn bytes_before<R: Reader>(place: &EndianSlice<'_, R::Endian>, reader: &R) -> usize
    requires { IsAfter (R.view reader.now) place.now }
    ensures rest { after result (R.view reader.now) ≡ place.now }
    ensures within { result ≤ length (R.view reader.now).bytes }
{
    reader.as_bytes().len() - place.slice().len()
}

/// The next bytes of a place in a reader, as a reader of their own. Takes memory only where a copy
/// of the reader does.
#[inline(always)]
pub fn cut<R: Reader>(
    place: &mut EndianSlice<'_, R::Endian>,
    reader: &R,
    length: u64,
) -> Result<R, Error>
    requires { IsAfter (R.view reader.now) place.old }
    ensures value { ReturnsAsOrNoMemory (λ bytes. (R.view bytes, place.new)) result
        (part length place.old) }
    ensures free { IsTrue R.copies_freely
        → ReturnsAs (λ bytes. (R.view bytes, place.new)) result (part length place.old) }
{
    if (place.slice().len() as u64) < length {
        return Err(Error::UnexpectedEof(place.offset_id()));
    }
    let bytes = reader.copy_part(bytes_before(place, reader), length as usize)?;
    place.advance(length as usize);
    Ok(bytes)
}
