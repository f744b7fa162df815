//! LEB128 (DWARF 5, 7.6): a string is bytes from 128 on, and a last one below 128.

ghost use Rattle.std.specs.Prelude.{◌≡◌, ◌^◌, ◌*◌, ◌<◌, ◌≤◌, ◌-ℤ◌, pos, nat_lt, length, option_map, if◌then◌else◌};
ghost use Rattle.gimli_core_base.specs.Leb128.{leb_string, unsigned_at, signed_at};

mod writer;

pub use writer::Leb128;

/// Why the bytes don't begin with a number.
#[derive(Clone, Copy, Debug, PartialEq, Eq)]
pub enum Fault {
    /// The bytes end before the string does.
    Cut,
    /// The string is too long, or its number too large.
    Bad,
}

/// The length of the first string, however long it is; none where the bytes end before it does.
pub fn skip(bytes: &[u8]) -> Option<usize>
    ensures { result ≡ option_map length (leb_string bytes.now) }
{
    for (i, byte) in bytes.iter().enumerate() {
        if *byte < 128 {
            return Some(i + 1);
        }
    }
    None
}

/// The number of the first string, unsigned and of at most ten bytes, and the string's length.
pub fn unsigned(bytes: &[u8]) -> Result<(u64, usize), Fault>
    ensures { result ≡ unsigned_at 10 (2 ^ 64) bytes.now }
{
    let mut number = 0;
    for (i, byte) in bytes.iter().enumerate() {
        if i == 9 {
            return match *byte {
                0 => Ok((number, 10)),
                1 => Ok((number + (1 << 63), 10)),
                _ => Err(Fault::Bad),
            };
        }
        number += u64::from(*byte & 0x7f) << (7 * i);
        if *byte < 128 {
            return Ok((number, i + 1));
        }
    }
    Err(Fault::Cut)
}

/// The number of the first string, unsigned, below 2^16 and of at most three bytes, and the
/// string's length.
pub fn unsigned_16(bytes: &[u8]) -> Result<(u16, usize), Fault>
    ensures { result ≡ unsigned_at 3 (2 ^ 16) bytes.now }
{
    match bytes {
        [a, ..] if *a < 128 => Ok((u16::from(*a), 1)),
        [a, b, ..] if *b < 128 => Ok((u16::from(*a & 0x7f) + (u16::from(*b) << 7), 2)),
        [a, b, c, ..] if *c < 4 => Ok((
            u16::from(*a & 0x7f) + (u16::from(*b & 0x7f) << 7) + (u16::from(*c) << 14),
            3,
        )),
        [_, _, _, ..] => Err(Fault::Bad),
        _ => Err(Fault::Cut),
    }
}

// The number of a signed string of this length, below ten, whose digits sum up to `sum`, by its
// last byte. It takes no branch, since no one can predict the signs.
fn with_sign(sum: u64, last: u8, length: usize) -> i64
    requires some { 0 < length }
    requires short { length ≤ 9 }
    requires is_last { last < 128 }
    requires digits { sum < 128 ^ length }
    ensures { result ≡ pos sum -ℤ pos (if nat_lt last 64 then 0 else 128 ^ length) }
{
    let half = (u64::from(last / 64) << (7 * length - 1)) as i64;
    sum as i64 - half - half
}

/// The number of the first string, signed and of at most ten bytes, and the string's length.
pub fn signed(bytes: &[u8]) -> Result<(i64, usize), Fault>
    ensures { result ≡ signed_at bytes.now }
{
    let mut number = 0;
    for (i, byte) in bytes.iter().enumerate() {
        if i == 9 {
            return match *byte {
                0 => Ok((number as i64, 10)),
                0x7f => Ok((number as i64 + i64::MIN, 10)),
                _ => Err(Fault::Bad),
            };
        }
        number += u64::from(*byte & 0x7f) << (7 * i);
        if *byte < 128 {
            return Ok((with_sign(number, *byte, i + 1), i + 1));
        }
    }
    Err(Fault::Cut)
}
