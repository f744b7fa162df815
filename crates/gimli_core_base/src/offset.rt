//! The types that an offset or a length may have.

ghost use Rattle.std.proofs.Common.{rules};
ghost use Rattle.std.specs.Prelude.{◌≡◌, ◌≤◌, ◌<◌, ◌^◌, ◌+◌, ◌%◌, ℕ, pos, MatchOption};
ghost use Rattle.std.specs.Int.{int_rem_euclid};
ghost use Rattle.gimli_core_base.specs.Calls.{ReturnsAs};
ghost use Rattle.gimli_core_base.specs.NumberParsers.{offset_below};

use crate::error::Error;
use std::fmt::Debug;

/// A type of offsets and lengths, which holds the numbers below a limit. The numbers of 32 and 64
/// bits and `usize` can be compared and hashed too; code over any type that does so says it in a
/// bound of its own.
pub trait ReaderOffset: Copy + Debug {
    /// The number that an offset stands for.
    ghost count: { Self → ℕ };

    /// Each offset's number is below this.
    ghost limit: { ℕ };

    fn from_u8(offset: u8) -> Self
        ensures { count result ≡ offset };

    fn from_u16(offset: u16) -> Self
        ensures { count result ≡ offset };

    /// Wraps at the limit.
    fn from_i16(offset: i16) -> Self
        ensures { pos (count result) ≡ int_rem_euclid offset (pos limit) };

    fn from_u32(offset: u32) -> Self
        ensures { count result ≡ offset };

    /// Refused from the limit on.
    fn from_u64(offset: u64) -> Result<Self, Error>
        ensures { ReturnsAs count result (offset_below limit offset) };

    fn into_u64(self) -> u64
        ensures value { result ≡ count self }
        ensures below { count self < limit };

    /// The sum, wrapped at the limit.
    fn wrapping_add(self, other: Self) -> Self
        ensures { count result ≡ (count self + count other) % limit };

    /// The difference, none where `other` is above.
    fn checked_sub(self, other: Self) -> Option<Self>
        ensures { MatchOption result (count self < count other)
            (λ offset. count offset + count other ≡ count self) };

    /// Each type holds the numbers of 32 bits, and none that 64 bits don't hold.
    ghost holds_32: { 2 ^ 32 ≤ limit };

    ghost fits_64: { limit ≤ 2 ^ 64 };

    /// One offset stands for each number.
    ghost counts_apart: { (x y : Self) → count x ≡ count y → x ≡ y };
}

impl ReaderOffset for u32 {
    ghost count = { λ offset. offset };

    ghost limit = { 2 ^ 32 };

    fn from_u8(offset: u8) -> Self {
        u32::from(offset)
    }

    fn from_u16(offset: u16) -> Self {
        u32::from(offset)
    }

    fn from_i16(offset: i16) -> Self {
        i32::from(offset).cast_unsigned()
    }

    fn from_u32(offset: u32) -> Self {
        offset
    }

    fn from_u64(offset: u64) -> Result<Self, Error> {
        u32::try_from(offset).map_err(|_| Error::UnsupportedOffset)
    }

    fn into_u64(self) -> u64 {
        u64::from(self)
    }

    fn wrapping_add(self, other: Self) -> Self {
        self.wrapping_add(other)
    }

    fn checked_sub(self, other: Self) -> Option<Self> {
        self.checked_sub(other)
    }

    ghost holds_32 = { Prim.search rules };

    ghost fits_64 = { Prim.search rules };

    ghost counts_apart = { λ x y same. same };
}

impl ReaderOffset for u64 {
    ghost count = { λ offset. offset };

    ghost limit = { 2 ^ 64 };

    fn from_u8(offset: u8) -> Self {
        u64::from(offset)
    }

    fn from_u16(offset: u16) -> Self {
        u64::from(offset)
    }

    fn from_i16(offset: i16) -> Self {
        i64::from(offset).cast_unsigned()
    }

    fn from_u32(offset: u32) -> Self {
        u64::from(offset)
    }

    fn from_u64(offset: u64) -> Result<Self, Error> {
        Ok(offset)
    }

    fn into_u64(self) -> u64 {
        self
    }

    fn wrapping_add(self, other: Self) -> Self {
        self.wrapping_add(other)
    }

    fn checked_sub(self, other: Self) -> Option<Self> {
        self.checked_sub(other)
    }

    ghost holds_32 = { Prim.search rules };

    ghost fits_64 = { Prim.search rules };

    ghost counts_apart = { λ x y same. same };
}

impl ReaderOffset for usize {
    ghost count = { λ offset. offset };

    ghost limit = { 2 ^ 64 };

    fn from_u8(offset: u8) -> Self {
        usize::from(offset)
    }

    fn from_u16(offset: u16) -> Self {
        usize::from(offset)
    }

    fn from_i16(offset: i16) -> Self {
        isize::from(offset).cast_unsigned()
    }

    fn from_u32(offset: u32) -> Self {
        offset as usize
    }

    fn from_u64(offset: u64) -> Result<Self, Error> {
        Ok(offset as usize)
    }

    fn into_u64(self) -> u64 {
        self as u64
    }

    fn wrapping_add(self, other: Self) -> Self {
        self.wrapping_add(other)
    }

    fn checked_sub(self, other: Self) -> Option<Self> {
        self.checked_sub(other)
    }

    ghost holds_32 = { Prim.search rules };

    ghost fits_64 = { Prim.search rules };

    ghost counts_apart = { λ x y same. same };
}
