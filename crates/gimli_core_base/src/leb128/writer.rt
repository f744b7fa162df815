//! Numbers as LEB128 strings.

ghost use Rattle.std.specs.Prelude.{◌≡◌, ◌≤◌, length};
ghost use Rattle.gimli_core_base.specs.Spelling.{unsigned_string, signed_string, signed_digit, is_digit};

use std::marker::Model;

// The lowest seven bits.
fn digit(number: i64) -> u8
    ensures { result ≡ signed_digit number }
{
    number.rem_euclid(128) as u8
}

// Whether seven bits hold the number and its sign.
fn fits_digit(number: i64) -> bool
    ensures { result ≡ is_digit number }
{
    (-64..64).contains(&number)
}

/// The shortest LEB128 string of a number (DWARF 5, 7.6). It takes no memory.
#[derive(Debug, Drop)]
pub struct Leb128 {
    bytes: [u8; 10],
    len: usize,
}

impl Model for Leb128 {
    ghost use Rattle.std.specs.Prelude.{ℕ, ◌≤◌, List, take};

    ghost Value = { List ℕ };

    ghost view = { λ string. take string.len string.bytes };

    ghost invariant = { λ string. string.len ≤ 10 };
}

impl Leb128 {
    /// The string of an unsigned number.
    pub fn unsigned(number: u64) -> Self
        ensures { result ≡ unsigned_string number }
    {
        let mut bytes = [0; 10];
        let mut len = 0;
        let mut rest = number;
        while rest >= 128 {
            bytes[len] = (rest % 128) as u8 + 128;
            rest /= 128;
            len += 1;
        }
        bytes[len] = rest as u8;
        Leb128 {
            bytes,
            len: len + 1,
        }
    }

    /// The string of a signed number.
    pub fn signed(number: i64) -> Self
        ensures { result ≡ signed_string number }
    {
        let mut bytes = [0; 10];
        let mut len = 0;
        let mut rest = number;
        while !fits_digit(rest) {
            bytes[len] = digit(rest) + 128;
            rest >>= 7;
            len += 1;
        }
        bytes[len] = digit(rest);
        Leb128 {
            bytes,
            len: len + 1,
        }
    }

    /// The string's bytes, lent.
    pub fn bytes(&self) -> &[u8]
        ensures { result.now ≡ self.now }
    {
        &self.bytes[..self.len]
    }

    /// The number of bytes of the string, from 1 to 10.
    pub fn len(&self) -> usize
        ensures { result ≡ length self.now }
    {
        self.len
    }
}
