//! LEB128 numbers, read from a reader.

ghost use Rattle.gimli_core_base.specs.Calls.{Reads};
ghost use Rattle.gimli_core_base.specs.NumberParsers.{skip_leb, unsigned as unsigned_number, unsigned_16, signed as signed_number};

use crate::reader::Reader;
use gimli_core_base::error::Error;

/// Skips a number of any length.
pub fn skip<R: Reader>(r: &mut R) -> Result<(), Error>
    ensures { Reads result (R.view r.old) (R.view r.new) (skip_leb (R.view r.old)) }
{
    r.skip_leb128()
}

/// An unsigned number of 64 bits.
pub fn unsigned<R: Reader>(r: &mut R) -> Result<u64, Error>
    ensures { Reads result (R.view r.old) (R.view r.new) (unsigned_number (R.view r.old)) }
{
    r.read_uleb128()
}

/// An unsigned number of 16 bits, in at most three bytes.
pub fn u16<R: Reader>(r: &mut R) -> Result<u16, Error>
    ensures { Reads result (R.view r.old) (R.view r.new) (unsigned_16 (R.view r.old)) }
{
    r.read_uleb128_u16()
}

/// A signed number of 64 bits.
pub fn signed<R: Reader>(r: &mut R) -> Result<i64, Error>
    ensures { Reads result (R.view r.old) (R.view r.new) (signed_number (R.view r.old)) }
{
    r.read_sleb128()
}
