//! What every reader can do, wherever its bytes are.

ghost use Rattle.std.specs.Prelude.{◌≡◌, ◌≢◌, ◌+◌, ◌<◌, ◌≤◌, ℕ, ◌==◌, Bool, length, option_map, IsTrue, IsOk, IfOk, OnErr, MatchResult};
ghost use Rattle.std.specs.Int.{w8, w16, w32, w64};
ghost use Rattle.std.specs.Str.{IsUtf8};
ghost use Rattle.std.specs.Str.Lossy.{utf8_lossy};
ghost use Rattle.std.specs.Cow.{cow_slice_items, cow_str_bytes};
ghost use Rattle.gimli_core_base.specs.View.{View, after, prefix, unexpected_end, index_of};
ghost use Rattle.gimli_core_base.specs.Parsers.{map_value, value_of, part, skip, truncate, find_byte, null_terminated};
ghost use Rattle.gimli_core_base.specs.Calls.{ReadsAs, Reads, ReadsAsOrNoMemory, ReturnsAsOrNoMemory, ReturnsAs};
ghost use Rattle.gimli_core_base.specs.NumberParsers.{fixed, fixed_signed, skip_leb, unsigned, unsigned_32, unsigned_16, signed, address_size, address, is_address_size, sized_offset, word, initial_length, string_fault};
ghost use Rattle.gimli_core_readers.specs.Readers.{IsIndexable, Holds, LendsText, utf8_of};
ghost use Rattle.gimli_core_base.specs.declared.error.Error.TheVariants.{Memory, BadUnsignedLeb128};
ghost use Rattle.gimli_core_base.specs.declared.leb128.Fault.TheVariants.{Cut};

use crate::text::{lossy_text_of, position_of, text_of};
use gimli_core_base::constants::{DWARF64_ESCAPE, FIRST_RESERVED_LENGTH, ReaderOffsetId};
use gimli_core_base::error::Error;
use gimli_core_base::leb128::Fault;
use gimli_core_base::{Endianity, Format, ReaderOffset, leb128};
use std::alloc::Global;
use std::borrow::{CowSlice, CowStr};

/// Bytes in an order, read from the first on. A refused read changes nothing.
pub trait Reader: Drop {
    type Endian: Endianity;

    type Offset: ReaderOffset;

    /// The bytes left, their order, and the identifier of the first.
    ghost view: { Self → View };

    /// A copy is never refused.
    ghost copies_freely: { Bool };

    fn endian(&self) -> Self::Endian
        ensures { Self.Endian.is_big result ≡ (view self.now).is_big };

    /// The bytes left, lent.
    fn as_bytes(&self) -> &[u8]
        ensures value { result.now ≡ (view self.now).bytes }
        ensures indexable { IsIndexable Self.Offset.limit (view self.now) };

    /// The identifier of the first byte left.
    fn offset_id(&self) -> ReaderOffsetId
        ensures { result.0 ≡ (view self.now).first };

    /// Skips bytes that are there.
    fn advance(&mut self, count: usize)
        requires { count ≤ length (view self.old).bytes }
        ensures { view self.new ≡ after count (view self.old) };

    /// Drops all but the first bytes.
    fn truncate(&mut self, len: Self::Offset) -> Result<(), Error>
        ensures { Reads result (view self.old) (view self.new)
            (truncate (Self.Offset.count len) (view self.old)) };

    /// A second reader of the same bytes.
    fn copy(&self) -> Result<Self, Error>
        ensures value { ReturnsAsOrNoMemory view result (Ok (view self.now)) }
        ensures free { IsTrue copies_freely → IsOk result };

    /// A second reader of some of the bytes.
    fn copy_part(&self, begin: usize, count: usize) -> Result<Self, Error>
        requires { begin + count ≤ length (view self.now).bytes }
        ensures value { ReturnsAsOrNoMemory view result
            (Ok (prefix count (after begin (view self.now)))) }
        ensures free { IsTrue copies_freely → IsOk result };

    /// How many bytes are left.
    final fn len(&self) -> Self::Offset
        ensures value { Self.Offset.count result ≡ length (view self.now).bytes }
        ensures indexable { IsIndexable Self.Offset.limit (view self.now) }
    {
        let count = self.as_bytes().len();
        Self::Offset::from_u64(count as u64).unwrap()
    }

    final fn is_empty(&self) -> bool
        ensures { result ≡ (length (view self.now).bytes == 0) }
    {
        self.as_bytes().is_empty()
    }

    /// Drops all bytes; the identifier stays.
    final fn empty(&mut self)
        ensures { view self.new ≡ prefix 0 (view self.old) }
    {
        self.truncate(Self::Offset::from_u8(0)).unwrap();
    }

    /// The distance from `base`'s first byte to this reader's; `base` has this reader's bytes.
    final fn offset_from(&self, base: &Self) -> Self::Offset
        requires { Holds (view base.now) (view self.now) }
        ensures { Self.Offset.count result + (view base.now).first ≡ (view self.now).first }
    {
        let _base = base.as_bytes();
        let distance = self.offset_id().0 - base.offset_id().0;
        Self::Offset::from_u64(distance).unwrap()
    }

    /// The place that an identifier names, the end included.
    final fn lookup_offset_id(&self, id: ReaderOffsetId) -> Option<Self::Offset>
        ensures { option_map Self.Offset.count result ≡ index_of id.0 (view self.now) }
    {
        let first = self.offset_id().0;
        let count = self.as_bytes().len() as u64;
        if first <= id.0 && id.0 <= first + count {
            Some(Self::Offset::from_u64(id.0 - first).unwrap())
        } else {
            None
        }
    }

    /// The place of the first byte that equals this one.
    final fn find(&self, byte: u8) -> Result<Self::Offset, Error>
        ensures { ReturnsAs Self.Offset.count result (find_byte byte (view self.now)) }
    {
        match position_of(self.as_bytes(), byte) {
            Some(place) => Ok(Self::Offset::from_u64(place as u64).unwrap()),
            None => Err(Error::UnexpectedEof(self.offset_id())),
        }
    }

    /// Skips the next bytes.
    final fn skip(&mut self, len: Self::Offset) -> Result<(), Error>
        ensures { Reads result (view self.old) (view self.new)
            (skip (Self.Offset.count len) (view self.old)) }
    {
        let count = len.into_u64();
        need(self, count)?;
        self.advance(count as usize);
        Ok(())
    }

    /// The next bytes, as a reader of their own.
    final fn split(&mut self, len: Self::Offset) -> Result<Self, Error>
        ensures value { ReadsAsOrNoMemory view result (view self.old) (view self.new)
            (part (Self.Offset.count len) (view self.old)) }
        ensures free { IsTrue copies_freely → result ≢ Err Memory }
    {
        need(self, len.into_u64())?;
        let mut next = self.copy()?;
        next.truncate(len)?;
        self.skip(len)?;
        Ok(next)
    }

    /// Reads as many bytes as the buffer holds.
    final fn read_slice(&mut self, buf: &mut [u8]) -> Result<(), Error>
        ensures read { ReadsAs (λ _. buf.new) result (view self.old) (view self.new)
            (map_value (λ v. v.bytes) (part (length buf.old)) (view self.old)) }
        ensures refusal { OnErr result (buf.new ≡ buf.old) }
    {
        let count = buf.len();
        need(self, count as u64)?;
        buf.copy_from_slice(&self.as_bytes()[..count]);
        self.advance(count);
        Ok(())
    }

    #[tactic(auto, unfolding(gimli_core_base::specs::NumberParsers::fixed))]
    final fn read_u8(&mut self) -> Result<u8, Error>
        ensures { Reads result (view self.old) (view self.new) (fixed 1 (view self.old)) }
    {
        need(self, 1)?;
        let value = self.as_bytes()[0];
        self.advance(1);
        Ok(value)
    }

    #[tactic(auto, unfolding(gimli_core_base::specs::NumberParsers::fixed_signed))]
    final fn read_i8(&mut self) -> Result<i8, Error>
        ensures { Reads result (view self.old) (view self.new) (fixed_signed w8 (view self.old)) }
    {
        Ok(self.read_u8()?.cast_signed())
    }

    #[tactic(auto, unfolding(gimli_core_base::specs::NumberParsers::fixed))]
    final fn read_u16(&mut self) -> Result<u16, Error>
        ensures { Reads result (view self.old) (view self.new) (fixed 2 (view self.old)) }
    {
        need(self, 2)?;
        let value = self.endian().read_u16(self.as_bytes());
        self.advance(2);
        Ok(value)
    }

    #[tactic(auto, unfolding(gimli_core_base::specs::NumberParsers::fixed_signed))]
    final fn read_i16(&mut self) -> Result<i16, Error>
        ensures { Reads result (view self.old) (view self.new) (fixed_signed w16 (view self.old)) }
    {
        Ok(self.read_u16()?.cast_signed())
    }

    #[tactic(auto, unfolding(gimli_core_base::specs::NumberParsers::fixed))]
    final fn read_u32(&mut self) -> Result<u32, Error>
        ensures { Reads result (view self.old) (view self.new) (fixed 4 (view self.old)) }
    {
        need(self, 4)?;
        let value = self.endian().read_u32(self.as_bytes());
        self.advance(4);
        Ok(value)
    }

    #[tactic(auto, unfolding(gimli_core_base::specs::NumberParsers::fixed_signed))]
    final fn read_i32(&mut self) -> Result<i32, Error>
        ensures { Reads result (view self.old) (view self.new) (fixed_signed w32 (view self.old)) }
    {
        Ok(self.read_u32()?.cast_signed())
    }

    #[tactic(auto, unfolding(gimli_core_base::specs::NumberParsers::fixed))]
    final fn read_u64(&mut self) -> Result<u64, Error>
        ensures { Reads result (view self.old) (view self.new) (fixed 8 (view self.old)) }
    {
        need(self, 8)?;
        let value = self.endian().read_u64(self.as_bytes());
        self.advance(8);
        Ok(value)
    }

    #[tactic(auto, unfolding(gimli_core_base::specs::NumberParsers::fixed_signed))]
    final fn read_i64(&mut self) -> Result<i64, Error>
        ensures { Reads result (view self.old) (view self.new) (fixed_signed w64 (view self.old)) }
    {
        Ok(self.read_u64()?.cast_signed())
    }

    #[tactic(auto, unfolding(gimli_core_base::specs::NumberParsers::fixed))]
    final fn read_u128(&mut self) -> Result<u128, Error>
        ensures { Reads result (view self.old) (view self.new) (fixed 16 (view self.old)) }
    {
        need(self, 16)?;
        let value = self.endian().read_u128(self.as_bytes());
        self.advance(16);
        Ok(value)
    }

    /// A number of at most eight bytes.
    #[tactic(auto, unfolding(gimli_core_base::specs::NumberParsers::fixed))]
    final fn read_uint(&mut self, count: usize) -> Result<u64, Error>
        requires { count ≤ 8 }
        ensures { Reads result (view self.old) (view self.new) (fixed count (view self.old)) }
    {
        need(self, count as u64)?;
        let value = self.endian().read_uint(&self.as_bytes()[..count]);
        self.advance(count);
        Ok(value)
    }

    /// The bytes before the first zero byte, which is skipped too.
    final fn read_null_terminated_slice(&mut self) -> Result<Self, Error>
        ensures value { ReadsAsOrNoMemory view result (view self.old) (view self.new)
            (null_terminated (view self.old)) }
        ensures free { IsTrue copies_freely → result ≢ Err Memory }
    {
        let len = self.find(0)?;
        let text = self.split(len)?;
        self.advance(1);
        Ok(text)
    }

    /// Skips a LEB128 number of any length (DWARF 5, 7.6).
    #[tactic(auto, unfolding(gimli_core_base::specs::NumberParsers::skip_leb))]
    final fn skip_leb128(&mut self) -> Result<(), Error>
        ensures { Reads result (view self.old) (view self.new) (skip_leb (view self.old)) }
    {
        match leb128::skip(self.as_bytes()) {
            Some(len) => {
                self.advance(len);
                Ok(())
            }
            None => Err(end_of(self)),
        }
    }

    /// An unsigned LEB128 number (DWARF 5, 7.6).
    #[tactic(auto, unfolding(gimli_core_base::specs::NumberParsers::unsigned))]
    final fn read_uleb128(&mut self) -> Result<u64, Error>
        ensures { Reads result (view self.old) (view self.new) (unsigned (view self.old)) }
    {
        match leb128::unsigned(self.as_bytes()) {
            Ok((value, len)) => {
                self.advance(len);
                Ok(value)
            }
            Err(Fault::Cut) => Err(end_of(self)),
            Err(Fault::Bad) => Err(Error::BadUnsignedLeb128),
        }
    }

    /// An unsigned LEB128 number of 32 bits.
    #[tactic(auto, unfolding(gimli_core_base::specs::NumberParsers::unsigned_32, gimli_core_base::specs::NumberParsers::unsigned))]
    final fn read_uleb128_u32(&mut self) -> Result<u32, Error>
        ensures { Reads result (view self.old) (view self.new) (unsigned_32 (view self.old)) }
    {
        match leb128::unsigned(self.as_bytes()) {
            Ok((value, len)) => {
                let value = u32::try_from(value).map_err(|_| Error::BadUnsignedLeb128)?;
                self.advance(len);
                Ok(value)
            }
            Err(Fault::Cut) => Err(end_of(self)),
            Err(Fault::Bad) => Err(Error::BadUnsignedLeb128),
        }
    }

    /// An unsigned LEB128 number of 16 bits, in at most three bytes.
    #[tactic(auto, unfolding(gimli_core_base::specs::NumberParsers::unsigned_16))]
    final fn read_uleb128_u16(&mut self) -> Result<u16, Error>
        ensures { Reads result (view self.old) (view self.new) (unsigned_16 (view self.old)) }
    {
        match leb128::unsigned_16(self.as_bytes()) {
            Ok((value, len)) => {
                self.advance(len);
                Ok(value)
            }
            Err(Fault::Cut) => Err(end_of(self)),
            Err(Fault::Bad) => Err(Error::BadUnsignedLeb128),
        }
    }

    /// A signed LEB128 number (DWARF 5, 7.6).
    #[tactic(auto, unfolding(gimli_core_base::specs::NumberParsers::signed))]
    final fn read_sleb128(&mut self) -> Result<i64, Error>
        ensures { Reads result (view self.old) (view self.new) (signed (view self.old)) }
    {
        match leb128::signed(self.as_bytes()) {
            Ok((value, len)) => {
                self.advance(len);
                Ok(value)
            }
            Err(Fault::Cut) => Err(end_of(self)),
            Err(Fault::Bad) => Err(Error::BadSignedLeb128),
        }
    }

    /// The size of an address: 1, 2, 4 or 8.
    #[tactic(auto, unfolding(gimli_core_base::specs::NumberParsers::address_size, gimli_core_base::specs::NumberParsers::fixed))]
    final fn read_address_size(&mut self) -> Result<u8, Error>
        ensures { Reads result (view self.old) (view self.new) (address_size (view self.old)) }
    {
        need(self, 1)?;
        let size = self.as_bytes()[0];
        match size {
            1 | 2 | 4 | 8 => {
                self.advance(1);
                Ok(size)
            }
            _ => Err(Error::UnsupportedAddressSize(size)),
        }
    }

    /// An address of this size.
    #[tactic(auto, unfolding(gimli_core_base::specs::NumberParsers::address))]
    final fn read_address(&mut self, address_size: u8) -> Result<u64, Error>
        ensures { Reads result (view self.old) (view self.new)
            (address address_size (view self.old)) }
    {
        match address_size {
            1 | 2 | 4 | 8 => self.read_uint(address_size as usize),
            _ => Err(Error::UnsupportedAddressSize(address_size)),
        }
    }

    /// An offset of 1, 2, 4 or 8 bytes.
    #[tactic(auto, unfolding(gimli_core_base::specs::NumberParsers::sized_offset, gimli_core_base::specs::NumberParsers::fixed))]
    final fn read_sized_offset(&mut self, size: u8) -> Result<Self::Offset, Error>
        requires { IsTrue (is_address_size size) }
        ensures { ReadsAs Self.Offset.count result (view self.old) (view self.new)
            (sized_offset Self.Offset.limit size (view self.old)) }
    {
        let count = size as usize;
        need(self, u64::from(size))?;
        let value = self.endian().read_uint(&self.as_bytes()[..count]);
        let offset = Self::Offset::from_u64(value)?;
        self.advance(count);
        Ok(offset)
    }

    /// A number of a format's size: four bytes or eight (DWARF 5, 7.4).
    #[tactic(auto, unfolding(gimli_core_base::specs::NumberParsers::word))]
    final fn read_word(&mut self, format: Format) -> Result<Self::Offset, Error>
        ensures { ReadsAs Self.Offset.count result (view self.old) (view self.new)
            (word Self.Offset.limit format (view self.old)) }
    {
        self.read_sized_offset(format.word_size())
    }

    /// A length of a format's size.
    final fn read_length(&mut self, format: Format) -> Result<Self::Offset, Error>
        ensures { ReadsAs Self.Offset.count result (view self.old) (view self.new)
            (word Self.Offset.limit format (view self.old)) }
    {
        self.read_word(format)
    }

    /// An offset of a format's size.
    final fn read_offset(&mut self, format: Format) -> Result<Self::Offset, Error>
        ensures { ReadsAs Self.Offset.count result (view self.old) (view self.new)
            (word Self.Offset.limit format (view self.old)) }
    {
        self.read_word(format)
    }

    /// An initial length and its format (DWARF 5, 7.4).
    #[tactic(auto, unfolding(gimli_core_base::specs::NumberParsers::initial_length, gimli_core_base::specs::NumberParsers::fixed, gimli_core_base::specs::NumberParsers::sized_offset))]
    final fn read_initial_length(&mut self) -> Result<(Self::Offset, Format), Error>
        ensures { ReadsAs (λ p. (Self.Offset.count p.0, p.1)) result (view self.old)
            (view self.new) (initial_length Self.Offset.limit (view self.old)) }
    {
        need(self, 4)?;
        let word = self.endian().read_u32(self.as_bytes());
        match word {
            0..FIRST_RESERVED_LENGTH => {
                self.advance(4);
                Ok((Self::Offset::from_u32(word), Format::Dwarf32))
            }
            DWARF64_ESCAPE => {
                let length = long_length(self)?;
                self.advance(12);
                Ok((length, Format::Dwarf64))
            }
            _ => Err(Error::UnknownReservedLength(word)),
        }
    }

    /// The bytes left, lent.
    final fn to_slice(&self) -> Result<CowSlice<'_, u8>, Error>
        ensures { ReturnsAs cow_slice_items result (Ok (view self.now).bytes) }
    {
        Ok(CowSlice::Borrowed(self.as_bytes()))
    }

    /// The bytes left as a text, lent.
    final fn to_string(&self) -> Result<CowStr<'_>, Error>
        ensures { ReturnsAs cow_str_bytes result (utf8_of (view self.now).bytes) }
    {
        Ok(CowStr::Borrowed(text_of(self.as_bytes())?))
    }

    /// The bytes left as a text, in which each sequence that isn't UTF-8 is U+FFFD. Takes memory
    /// for such a text alone: UTF-8 is lent.
    final fn to_string_lossy(&self, alloc: Global) -> Result<CowStr<'_>, Error>
        ensures value { ReturnsAsOrNoMemory cow_str_bytes result
            (Ok (utf8_lossy (view self.now).bytes)) }
        ensures lent { IsUtf8 (view self.now).bytes → LendsText (view self.now).bytes result }
    {
        lossy_text_of(alloc, self.as_bytes())
    }
}

// Refused unless `count` bytes are left.
fn need<R: Reader>(reader: &R, count: u64) -> Result<(), Error>
    ensures { MatchResult result (λ _. count ≤ length (R.view reader.now).bytes)
        (λ e. (length (R.view reader.now).bytes < count)
        × (e ≡ unexpected_end (R.view reader.now))) }
{
    if (reader.as_bytes().len() as u64) < count {
        return Err(Error::UnexpectedEof(reader.offset_id()));
    }
    Ok(())
}

// The refusal of a read that began where the bytes end.
fn end_of<R: Reader>(reader: &R) -> Error
    ensures { result ≡ string_fault BadUnsignedLeb128 (R.view reader.now) Cut }
{
    let count = reader.as_bytes().len() as u64;
    Error::UnexpectedEof(ReaderOffsetId(reader.offset_id().0 + count))
}

// The length after the first four bytes.
#[tactic(auto, unfolding(gimli_core_base::specs::NumberParsers::sized_offset, gimli_core_base::specs::NumberParsers::fixed))]
fn long_length<R: Reader>(reader: &R) -> Result<R::Offset, Error>
    requires { 4 ≤ length (R.view reader.now).bytes }
    ensures { ReturnsAs R.Offset.count result
        (value_of (sized_offset R.Offset.limit 8 (after 4 (R.view reader.now)))) }
{
    let bytes = &reader.as_bytes()[4..];
    if bytes.len() < 8 {
        return Err(Error::UnexpectedEof(ReaderOffsetId(reader.offset_id().0 + 4)));
    }
    R::Offset::from_u64(reader.endian().read_u64(bytes))
}

/// The next `N` bytes.
pub fn read_u8_array<const N: usize, R: Reader>(reader: &mut R) -> Result<[u8; N], Error>
    ensures { Reads result (R.view reader.old) (R.view reader.new)
        (map_value (λ v. v.bytes) (part N) (R.view reader.old)) }
{
    let mut bytes = [0; N];
    reader.read_slice(&mut bytes)?;
    Ok(bytes)
}
