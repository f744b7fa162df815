//! LEB128 numbers as most operands are: their few bytes are read in line (DWARF 5, 7.6).

ghost use Rattle.std.specs.Prelude.{◌≡◌, ◌≤◌, ◌<◌, ◌+◌, ◌*◌, ◌%◌, ◌^◌, ◌-ℤ◌, pos, nat_lt, length, IfSome, MatchOption, Ok, if◌then◌else◌};
ghost use Rattle.gimli_lines_machine.specs.Leb128.{unsigned_at, signed_at};
ghost use Rattle.gimli_lines_machine.specs.NumberParsers.{unsigned, signed};

use gimli_core_readers::Endianity;
use gimli_lines_machine::{EndianSlice, Reader};

// The number of two digits, each the low seven bits of a byte.
#[inline(always)]
fn two_digits(a: u8, b: u8) -> u64
    ensures { result ≡ a % 128 + b % 128 * 128 }
{
    u64::from(a & 0x7f) + (u64::from(b & 0x7f) << 7)
}

// The number of three digits.
#[inline(always)]
fn three_digits(a: u8, b: u8, c: u8) -> u64
    ensures { result ≡ a % 128 + b % 128 * 128 + c % 128 * 16384 }
{
    u64::from(a & 0x7f) + (u64::from(b & 0x7f) << 7) + (u64::from(c & 0x7f) << 14)
}

// The number of the first string, unsigned, and the string's length, where it has at most three
// bytes.
#[inline(always)]
fn short_unsigned(bytes: &[u8]) -> Option<(u64, usize)>
    ensures value { IfSome result (λ p. unsigned_at 10 (2 ^ 64) bytes.now ≡ Ok p) }
    ensures length { IfSome result (λ p. p.1 ≤ length bytes.now) }
{
    match bytes {
        [a, ..] if *a < 128 => Some((u64::from(*a), 1)),
        [a, b, ..] if *b < 128 => Some((two_digits(*a, *b), 2)),
        [a, b, c, ..] if *c < 128 => Some((three_digits(*a, *b, *c), 3)),
        _ => None,
    }
}

// The number of a signed string by its digits and its last byte: less `whole`, one more than the
// greatest number of as many digits, where bit 6 of that byte is set.
#[inline(always)]
fn with_sign(digits: u64, last: u8, whole: u32) -> i64
    requires digits { digits < 2 ^ 21 }
    requires whole { whole ≤ 2 ^ 21 }
    ensures { result ≡ pos digits -ℤ pos (if nat_lt last 64 then 0 else whole) }
{
    let digits = digits as i64;
    if last < 64 {
        digits
    } else {
        digits - i64::from(whole)
    }
}

// The same, signed.
#[inline(always)]
fn short_signed(bytes: &[u8]) -> Option<(i64, usize)>
    ensures value { IfSome result (λ p. signed_at bytes.now ≡ Ok p) }
    ensures length { IfSome result (λ p. p.1 ≤ length bytes.now) }
{
    match bytes {
        [a, ..] if *a < 128 => Some((with_sign(u64::from(*a), *a, 1 << 7), 1)),
        [a, b, ..] if *b < 128 => Some((with_sign(two_digits(*a, *b), *b, 1 << 14), 2)),
        [a, b, c, ..] if *c < 128 => { Some((with_sign(three_digits(*a, *b, *c), *c, 1 << 21), 3)) }
        _ => None,
    }
}

// An unsigned number of at most three bytes; else nothing changes.
#[inline(always)]
pub(crate) fn read_unsigned<E: Endianity>(input: &mut EndianSlice<'_, E>) -> Option<u64>
    ensures { MatchOption result (input.new ≡ input.old)
        (λ n. unsigned input.old ≡ Ok (n, input.new)) }
{
    let (number, len) = short_unsigned(input.slice())?;
    input.advance(len);
    Some(number)
}

// A signed number of at most three bytes; else nothing changes.
#[inline(always)]
pub(crate) fn read_signed<E: Endianity>(input: &mut EndianSlice<'_, E>) -> Option<i64>
    ensures { MatchOption result (input.new ≡ input.old)
        (λ n. signed input.old ≡ Ok (n, input.new)) }
{
    let (number, len) = short_signed(input.slice())?;
    input.advance(len);
    Some(number)
}
