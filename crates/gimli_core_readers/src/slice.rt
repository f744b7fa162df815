//! A reader of borrowed bytes.

ghost use Rattle.std.specs.Prelude.{◌≡◌, ◌+◌, ◌<◌, ◌≤◌, ◌^◌, ◌==◌, Bool, true, length, take, drop, slice_range, option_map, IsOk, IsTrue, OnOk};
ghost use Rattle.std.specs.Str.{IsUtf8};
ghost use Rattle.std.specs.Str.Lossy.{utf8_lossy};
ghost use Rattle.std.specs.Cow.{cow_str_bytes};
ghost use Rattle.std.specs.List.{position};
ghost use Rattle.std.specs.Cmp.{partial_equiv_from_equiv};
ghost use Rattle.gimli_core_base.specs.View.{View, after, prefix};
ghost use Rattle.gimli_core_base.specs.Calls.{ReturnsAs, ReturnsAsOrNoMemory};
ghost use Rattle.gimli_core_readers.specs.Readers.{IsIndexable, Holds, LendsText, utf8_of, is_same, same_laws, hash_bytes, equal_hash_alike};

use crate::reader::Reader;
use crate::text::{lossy_text_of, position_of, text_of};
use gimli_core_base::Endianity;
use gimli_core_base::constants::ReaderOffsetId;
use gimli_core_base::error::Error;
use std::alloc::Global;
use std::borrow::CowStr;
use std::hash::{Hash, Hasher};
use std::marker::Model;
use std::ops::{Range, RangeFrom, RangeTo};

/// Borrowed bytes in an order, read from the first on.
#[derive(Debug, Drop)]
pub struct EndianSlice<'a, E: Endianity> {
    slice: &'a [u8],
    endian: E,
    first: u64,
}

impl<'a, E: Endianity> Model for EndianSlice<'a, E> {
    ghost use Rattle.std.specs.Prelude.{◌+◌, ◌<◌, ◌^◌, length};
    ghost use Rattle.gimli_core_base.specs.View.{View};

    ghost Value = { View };

    ghost view = { λ a. record
        { bytes = a.slice.now; is_big = E.is_big a.endian; first = a.first } };

    ghost invariant = { λ a. a.first + length a.slice.now < 2 ^ 64 };
}

impl<'a, E: Endianity> EndianSlice<'a, E> {
    /// The first byte's identifier is 0.
    pub fn new(slice: &'a [u8], endian: E) -> Self
        ensures { result ≡ record { bytes = slice.now; is_big = E.is_big endian; first = 0 } }
    {
        EndianSlice {
            slice,
            endian,
            first: 0,
        }
    }

    pub fn with_first_id(slice: &'a [u8], endian: E, first: ReaderOffsetId) -> Self
        requires { first.0 + length slice.now < 2 ^ 64 }
        ensures { result ≡ record { bytes = slice.now; is_big = E.is_big endian; first = first.0 } }
    {
        EndianSlice {
            slice,
            endian,
            first: first.0,
        }
    }

    /// The bytes left.
    pub fn slice(&self) -> &'a [u8]
        ensures { result.now ≡ self.now.bytes }
    {
        self.slice
    }

    /// The bytes before a place, and those from it on.
    pub fn split_at(&self, place: usize) -> (EndianSlice<'a, E>, EndianSlice<'a, E>)
        requires { place ≤ length self.now.bytes }
        ensures front { result.0 ≡ prefix place self.now }
        ensures back { result.1 ≡ after place self.now }
    {
        (self.range_to(..place), self.range_from(place..))
    }

    /// The bytes between two places.
    pub fn range(&self, places: Range<usize>) -> EndianSlice<'a, E>
        requires in_order { places.start ≤ places.end }
        requires within { places.end ≤ length self.now.bytes }
        ensures { result ≡ after places.start (prefix places.end self.now) }
    {
        self.range_to(..places.end).range_from(places.start..)
    }

    /// The bytes from a place on.
    pub fn range_from(&self, places: RangeFrom<usize>) -> EndianSlice<'a, E>
        requires { places.start ≤ length self.now.bytes }
        ensures { result ≡ after places.start self.now }
    {
        EndianSlice {
            slice: &self.slice[places.start..],
            endian: self.endian,
            first: self.first + places.start as u64,
        }
    }

    /// The bytes before a place.
    pub fn range_to(&self, places: RangeTo<usize>) -> EndianSlice<'a, E>
        requires { places.end ≤ length self.now.bytes }
        ensures { result ≡ prefix places.end self.now }
    {
        EndianSlice {
            slice: &self.slice[..places.end],
            endian: self.endian,
            first: self.first,
        }
    }

    /// The place of the first byte that equals this one.
    pub fn find(&self, byte: u8) -> Option<usize>
        ensures { result ≡ position (λ x. x == byte) self.now.bytes }
    {
        position_of(self.slice, byte)
    }

    /// The distance from `base`'s first byte to this reader's; `base` has this reader's bytes.
    pub fn offset_from(&self, base: &EndianSlice<'a, E>) -> usize
        requires { Holds base.now self.now }
        ensures { result + base.now.first ≡ self.now.first }
    {
        (self.first - base.first) as usize
    }

    /// The bytes left as a text.
    pub fn to_string(&self) -> Result<&'a str, Error>
        ensures { ReturnsAs (λ s. s.now) result (utf8_of self.now.bytes) }
    {
        text_of(self.slice)
    }

    /// The bytes left as a text, in which each sequence that isn't UTF-8 is U+FFFD. Takes memory
    /// for such a text alone: UTF-8 is lent.
    pub fn to_string_lossy(&self, alloc: Global) -> Result<CowStr<'a>, Error>
        ensures value { ReturnsAsOrNoMemory cow_str_bytes result
            (Ok (utf8_lossy self.now.bytes)) }
        ensures lent { IsUtf8 self.now.bytes → LendsText self.now.bytes result }
    {
        lossy_text_of(alloc, self.slice)
    }
}

/// The same bytes in the same order, whatever their identifiers.
impl<'a, E: Endianity> PartialEq for EndianSlice<'a, E> {
    ghost eq = { is_same };

    ghost laws = { partial_equiv_from_equiv same_laws };

    fn eq(&self, other: &Self) -> bool {
        self.slice == other.slice && self.endian.is_big_endian() == other.endian.is_big_endian()
    }
}

impl<'a, E: Endianity> Eq for EndianSlice<'a, E> {
    ghost laws = { same_laws };
}

impl<'a, E: Endianity> Hash for EndianSlice<'a, E> {
    ghost hash_input = { hash_bytes };

    ghost respects_eq = { equal_hash_alike.fed };

    fn hash<H: Hasher>(&self, state: &mut H) {
        self.slice.hash(state);
        self.endian.is_big_endian().hash(state);
    }
}

impl<'a, E: Endianity> Reader for EndianSlice<'a, E> {
    type Endian = E;

    type Offset = usize;

    ghost view = { λ v. v };

    ghost copies_freely = { true };

    fn endian(&self) -> E {
        self.endian
    }

    fn as_bytes(&self) -> &[u8] {
        self.slice
    }

    fn offset_id(&self) -> ReaderOffsetId {
        ReaderOffsetId(self.first)
    }

    fn advance(&mut self, count: usize) {
        self.slice = &self.slice[count..];
        self.first += count as u64;
    }

    fn truncate(&mut self, len: usize) -> Result<(), Error> {
        if self.slice.len() < len {
            return Err(Error::UnexpectedEof(self.offset_id()));
        }
        self.slice = &self.slice[..len];
        Ok(())
    }

    /// Takes no memory.
    fn copy(&self) -> Result<Self, Error> {
        Ok(EndianSlice {
            slice: self.slice,
            endian: self.endian,
            first: self.first,
        })
    }

    /// Takes no memory.
    fn copy_part(&self, begin: usize, count: usize) -> Result<Self, Error> {
        let mut part = self.copy()?;
        part.advance(begin);
        part.truncate(count)?;
        Ok(part)
    }
}
