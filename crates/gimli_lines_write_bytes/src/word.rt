//! Numbers of a fixed width as bytes.

ghost use Rattle.std.specs.Prelude.{◌≡◌};
ghost use Rattle.gimli_core_base.specs.Fixed.{number_bytes};
ghost use Rattle.gimli_lines_write_bytes.specs.NumberBytes.{bytes_in_width, signed_bytes_in_width};

use crate::error::Error;
use gimli_core_base::Endianity;
use std::marker::Model;

/// The bytes of a number in an order: 1, 2, 4 or 8 of them.
#[derive(Debug, Drop)]
pub struct Word {
    bytes: [u8; 8],
    len: usize,
}

impl Model for Word {
    ghost use Rattle.std.specs.Prelude.{ℕ, ◌≤◌, List, take};

    ghost Value = { List ℕ };

    ghost view = { λ word. take word.len word.bytes };

    ghost invariant = { λ word. word.len ≤ 8 };
}

impl Word {
    /// The bytes of a number, where `size` bytes hold it.
    pub fn unsigned<E: Endianity>(order: E, val: u64, size: u8) -> Result<Word, Error>
        ensures { result ≡ bytes_in_width (E.is_big order) size val }
    {
        let mut bytes = [0; 8];
        match size {
            1 => bytes[0] = u8::try_from(val).map_err(|_| Error::ValueTooLarge)?,
            2 => order.write_u16(
                &mut bytes,
                u16::try_from(val).map_err(|_| Error::ValueTooLarge)?,
            ),
            4 => order.write_u32(
                &mut bytes,
                u32::try_from(val).map_err(|_| Error::ValueTooLarge)?,
            ),
            8 => order.write_u64(&mut bytes, val),
            _ => return Err(Error::UnsupportedWordSize),
        }
        Ok(Word {
            bytes,
            len: usize::from(size),
        })
    }

    /// The bytes of a signed number, where `size` bytes hold it.
    pub fn signed<E: Endianity>(order: E, val: i64, size: u8) -> Result<Word, Error>
        ensures { result ≡ signed_bytes_in_width (E.is_big order) size val }
    {
        let unsigned = match size {
            1 => i8::try_from(val)
                .map_err(|_| Error::ValueTooLarge)?
                .cast_unsigned() as u64,
            2 => i16::try_from(val)
                .map_err(|_| Error::ValueTooLarge)?
                .cast_unsigned() as u64,
            4 => i32::try_from(val)
                .map_err(|_| Error::ValueTooLarge)?
                .cast_unsigned() as u64,
            _ => val.cast_unsigned(),
        };
        Word::unsigned(order, unsigned, size)
    }

    /// The bytes, lent.
    pub fn bytes(&self) -> &[u8]
        ensures { result.now ≡ self.now }
    {
        &self.bytes[..self.len]
    }
}
