//! With `gimli_core` alone: a number in bytes.

ghost use Rattle.std.specs.Prelude.{false};
ghost use Rattle.gimli_core.specs.Calls.{Returns};
ghost use Rattle.gimli_core.specs.NumberParsers.{unsigned};
ghost use Rattle.gimli_core.specs.Parsers.{value_of};

use gimli_core::{EndianSlice, Error, LittleEndian, Reader};

/// The unsigned LEB128 number that some bytes begin with (DWARF 5, 7.6). Takes no memory.
pub fn first_number(bytes: &[u8]) -> Result<u64, Error>
    ensures { Returns result
        (value_of (unsigned (record { bytes = bytes.now; is_big = false; first = 0 }))) }
{
    let mut reader = EndianSlice::new(bytes, LittleEndian);
    reader.read_uleb128()
}
