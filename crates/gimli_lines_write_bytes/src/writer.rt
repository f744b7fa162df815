//! What every writer can do, wherever its bytes go.

ghost use Rattle.std.specs.Prelude.{◌≡◌, ◌+◌, ◌<◌, ◌^◌, ℕ, Result, Ok, IfOk, length, replicate, ◌++◌, ◌∷◌, []};
ghost use Rattle.gimli_core_base.specs.FormatSizes.{word_size};
ghost use Rattle.gimli_core_base.specs.Fixed.{number_bytes};
ghost use Rattle.gimli_core_base.specs.Spelling.{unsigned_string, signed_string};
ghost use Rattle.gimli_lines_write_bytes.specs.OutputBytes.{WriterContents, first_bytes, append, append_result, replace_within, replace_result, Writes, Overwrites};
ghost use Rattle.gimli_lines_write_bytes.specs.NumberBytes.{bytes_in_width, signed_bytes_in_width, address_bytes, escape, length_bytes};
ghost use Rattle.gimli_lines_write_bytes.specs.declared.error.Error.{Error};
ghost use Rattle.gimli_lines_write_bytes.specs.declared.address.Address.{Address};

use crate::address::Address;
use crate::error::Error;
use crate::word::Word;
use gimli_core_base::leb128::Leb128;
use gimli_core_base::{Endianity, FIRST_RESERVED_LENGTH, Format, SectionId};

/// Where the length of a unit or table is, so that it can be written once it is known.
#[derive(Clone, Copy, Debug, PartialEq, Eq, PartialOrd, Ord, Hash)]
pub struct InitialLengthOffset(pub usize);

/// Bytes in an order, written at their end or over what is there. A write that is refused changes
/// nothing.
pub trait Writer {
    type Endian: Endianity;

    /// The bytes written, and their order.
    ghost contents: { Self → WriterContents };

    /// The number that is written of an address.
    ghost address_of: { Address → Result ℕ Error };

    /// The order of a number's bytes.
    fn endian(&self) -> Self::Endian
        ensures { Self.Endian.is_big result ≡ (contents self.now).is_big };

    /// How many bytes are written.
    fn len(&self) -> usize
        ensures value { result ≡ length (contents self.now).bytes }
        ensures fits { length (contents self.now).bytes < 2 ^ 63 };

    /// Writes bytes at the end.
    fn write(&mut self, bytes: &[u8]) -> Result<(), Error>
        ensures { Writes result (contents self.old) (contents self.new)
            (Ok (append bytes.now (contents self.old))) };

    /// Writes bytes over those from an offset on, refused where there are fewer. It takes no
    /// memory.
    fn write_at(&mut self, offset: usize, bytes: &[u8]) -> Result<(), Error>
        ensures { Overwrites result (contents self.old) (contents self.new)
            (replace_within offset bytes.now (contents self.old)) };

    /// Drops what is written after the first `len` bytes, if anything. So a write of several parts
    /// can be undone. It takes no memory.
    fn truncate(&mut self, len: usize)
        ensures { contents self.new ≡ first_bytes len (contents self.old) };

    /// Writes an address of `size` bytes. A writer that relocates decides what is written of a
    /// symbol.
    fn write_address(&mut self, address: Address, size: u8) -> Result<(), Error>
        ensures { Writes result (contents self.old) (contents self.new)
            (append_result (address_bytes (contents self.old).is_big size (address_of address))
            (contents self.old)) };

    /// Writes an offset into a section, of `size` bytes.
    final fn write_offset(&mut self, val: usize, _section: SectionId, size: u8) -> Result<(), Error>
        ensures { Writes result (contents self.old) (contents self.new)
            (append_result (bytes_in_width (contents self.old).is_big size val)
            (contents self.old)) }
    {
        self.write_udata(val as u64, size)
    }

    /// Writes an offset into a section over the bytes at `offset`.
    final fn write_offset_at(
        &mut self,
        offset: usize,
        val: usize,
        _section: SectionId,
        size: u8,
    ) -> Result<(), Error>
        ensures { Overwrites result (contents self.old) (contents self.new)
            (replace_result offset (bytes_in_width (contents self.old).is_big size val)
            (contents self.old)) }
    {
        self.write_udata_at(offset, val as u64, size)
    }

    /// Writes a byte.
    final fn write_u8(&mut self, val: u8) -> Result<(), Error>
        ensures { Writes result (contents self.old) (contents self.new)
            (Ok (append (val ∷ []) (contents self.old))) }
    {
        self.write(&[val])
    }

    /// Writes a number of two bytes.
    final fn write_u16(&mut self, val: u16) -> Result<(), Error>
        ensures { Writes result (contents self.old) (contents self.new)
            (Ok (append (number_bytes (contents self.old).is_big 2 val) (contents self.old))) }
    {
        let mut bytes = [0; 2];
        self.endian().write_u16(&mut bytes, val);
        self.write(&bytes)
    }

    /// Writes a number of four bytes.
    final fn write_u32(&mut self, val: u32) -> Result<(), Error>
        ensures { Writes result (contents self.old) (contents self.new)
            (Ok (append (number_bytes (contents self.old).is_big 4 val) (contents self.old))) }
    {
        let mut bytes = [0; 4];
        self.endian().write_u32(&mut bytes, val);
        self.write(&bytes)
    }

    /// Writes a number of eight bytes.
    final fn write_u64(&mut self, val: u64) -> Result<(), Error>
        ensures { Writes result (contents self.old) (contents self.new)
            (Ok (append (number_bytes (contents self.old).is_big 8 val) (contents self.old))) }
    {
        let mut bytes = [0; 8];
        self.endian().write_u64(&mut bytes, val);
        self.write(&bytes)
    }

    /// Writes a number of sixteen bytes.
    final fn write_u128(&mut self, val: u128) -> Result<(), Error>
        ensures { Writes result (contents self.old) (contents self.new)
            (Ok (append (number_bytes (contents self.old).is_big 16 val) (contents self.old))) }
    {
        let mut bytes = [0; 16];
        self.endian().write_u128(&mut bytes, val);
        self.write(&bytes)
    }

    /// Writes a byte over the one at an offset.
    final fn write_u8_at(&mut self, offset: usize, val: u8) -> Result<(), Error>
        ensures { Overwrites result (contents self.old) (contents self.new)
            (replace_within offset (val ∷ []) (contents self.old)) }
    {
        self.write_at(offset, &[val])
    }

    /// Writes a number of two bytes over those at an offset.
    final fn write_u16_at(&mut self, offset: usize, val: u16) -> Result<(), Error>
        ensures { Overwrites result (contents self.old) (contents self.new)
            (replace_within offset (number_bytes (contents self.old).is_big 2 val)
            (contents self.old)) }
    {
        let mut bytes = [0; 2];
        self.endian().write_u16(&mut bytes, val);
        self.write_at(offset, &bytes)
    }

    /// Writes a number of four bytes over those at an offset.
    final fn write_u32_at(&mut self, offset: usize, val: u32) -> Result<(), Error>
        ensures { Overwrites result (contents self.old) (contents self.new)
            (replace_within offset (number_bytes (contents self.old).is_big 4 val)
            (contents self.old)) }
    {
        let mut bytes = [0; 4];
        self.endian().write_u32(&mut bytes, val);
        self.write_at(offset, &bytes)
    }

    /// Writes a number of eight bytes over those at an offset.
    final fn write_u64_at(&mut self, offset: usize, val: u64) -> Result<(), Error>
        ensures { Overwrites result (contents self.old) (contents self.new)
            (replace_within offset (number_bytes (contents self.old).is_big 8 val)
            (contents self.old)) }
    {
        let mut bytes = [0; 8];
        self.endian().write_u64(&mut bytes, val);
        self.write_at(offset, &bytes)
    }

    /// Writes a number of sixteen bytes over those at an offset.
    final fn write_u128_at(&mut self, offset: usize, val: u128) -> Result<(), Error>
        ensures { Overwrites result (contents self.old) (contents self.new)
            (replace_within offset (number_bytes (contents self.old).is_big 16 val)
            (contents self.old)) }
    {
        let mut bytes = [0; 16];
        self.endian().write_u128(&mut bytes, val);
        self.write_at(offset, &bytes)
    }

    /// Writes a number of `size` bytes: 1, 2, 4 or 8.
    final fn write_udata(&mut self, val: u64, size: u8) -> Result<(), Error>
        ensures { Writes result (contents self.old) (contents self.new)
            (append_result (bytes_in_width (contents self.old).is_big size val)
            (contents self.old)) }
    {
        let word = Word::unsigned(self.endian(), val, size)?;
        self.write(word.bytes())
    }

    /// Writes a signed number of `size` bytes in two's complement: 1, 2, 4 or 8.
    final fn write_sdata(&mut self, val: i64, size: u8) -> Result<(), Error>
        ensures { Writes result (contents self.old) (contents self.new)
            (append_result (signed_bytes_in_width (contents self.old).is_big size val)
            (contents self.old)) }
    {
        let word = Word::signed(self.endian(), val, size)?;
        self.write(word.bytes())
    }

    /// Writes a number of `size` bytes over those at an offset.
    final fn write_udata_at(&mut self, offset: usize, val: u64, size: u8) -> Result<(), Error>
        ensures { Overwrites result (contents self.old) (contents self.new)
            (replace_result offset (bytes_in_width (contents self.old).is_big size val)
            (contents self.old)) }
    {
        let word = Word::unsigned(self.endian(), val, size)?;
        self.write_at(offset, word.bytes())
    }

    /// Writes the LEB128 string of a number (DWARF 5, 7.6).
    final fn write_uleb128(&mut self, val: u64) -> Result<(), Error>
        ensures { Writes result (contents self.old) (contents self.new)
            (Ok (append (unsigned_string val) (contents self.old))) }
    {
        self.write(Leb128::unsigned(val).bytes())
    }

    /// Writes the LEB128 string of a signed number (DWARF 5, 7.6).
    final fn write_sleb128(&mut self, val: i64) -> Result<(), Error>
        ensures { Writes result (contents self.old) (contents self.new)
            (Ok (append (signed_string val) (contents self.old))) }
    {
        self.write(Leb128::signed(val).bytes())
    }

    /// Writes room for an initial length (DWARF 5, 7.4), with the escape of 64-bit DWARF before it,
    /// and answers where the length goes.
    final fn write_initial_length(&mut self, format: Format) -> Result<InitialLengthOffset, Error>
        ensures value { Writes result (contents self.old) (contents self.new)
            (Ok (append (escape format ++ replicate (word_size format) 0) (contents self.old))) }
        ensures place { IfOk result (λ place. place.0 ≡ length (contents self.old).bytes
            + length (escape format)) }
    {
        let start = self.len();
        match format {
            Format::Dwarf32 => {
                self.write(&[0; 4])?;
                Ok(InitialLengthOffset(start))
            }
            Format::Dwarf64 => {
                self.write(&[0xff, 0xff, 0xff, 0xff, 0, 0, 0, 0, 0, 0, 0, 0])?;
                Ok(InitialLengthOffset(start + 4))
            }
        }
    }

    /// Writes a length, once it is known, into its room. In 32-bit DWARF those from 0xfffffff0 on
    /// are refused.
    final fn write_initial_length_at(
        &mut self,
        offset: InitialLengthOffset,
        length: u64,
        format: Format,
    ) -> Result<(), Error>
        ensures { Overwrites result (contents self.old) (contents self.new)
            (replace_result offset.0 (length_bytes (contents self.old).is_big format length)
            (contents self.old)) }
    {
        if format == Format::Dwarf32 && length >= u64::from(FIRST_RESERVED_LENGTH) {
            return Err(Error::InitialLengthOverflow);
        }
        self.write_udata_at(offset.0, length, format.word_size())
    }

    // A number is written of an address that is known.
    ghost use Rattle.gimli_lines_write_bytes.specs.declared.address.Address.TheVariants.{Constant};

    ghost constants: { (n : ℕ) → address_of (Constant n) ≡ Ok n };
}
