//! Unit headers (DWARF 5, 7.5.1).

ghost use Rattle.std.specs.Prelude.{◌≡◌, ◌≢◌, ◌+◌, ◌<◌, ◌≤◌, IsTrue, Err, Some, option_map};
ghost use Rattle.gimli_core_base.specs.Calls.{ReturnsAsOrNoMemory};
ghost use Rattle.gimli_core_base.specs.declared.error.Error.TheVariants.{Memory};
ghost use Rattle.gimli_core_base.specs.NumberParsers.{is_address_size};
ghost use Rattle.gimli_core_readers.specs.Addresses.{is_tombstone};
ghost use Rattle.gimli_units_headers.specs.UnitHeaders.{length_including_self, header_size, size_of_header};
ghost use Rattle.gimli_units_headers.specs.UnitOffsets.{is_in_bounds, to_section_offset, bytes_from, bytes_to, bytes_between};
ghost use Rattle.gimli_units_headers.specs.UnitTypes.{kind_of};

use crate::fields::{UnitType, parse_fields};
use crate::parts::SectionPart;
use gimli_core_base::error::Error;
use gimli_core_base::{DebugAbbrevOffset, Encoding, Format, ReaderOffset};
use gimli_core_readers::{DebugInfoOffset, Reader, UnitOffset, least_tombstone};
use std::marker::Model;
use std::ops::{Range, RangeFrom, RangeTo};

/// A unit: its header, and the bytes of its entries.
#[derive(Debug, Drop)]
pub struct UnitHeader<R: Reader> {
    offset: DebugInfoOffset<R::Offset>,
    unit_length: R::Offset,
    encoding: Encoding,
    unit_type: UnitType<R::Offset>,
    debug_abbrev_offset: DebugAbbrevOffset<R::Offset>,
    entries: R,
}

impl<R: Reader> Model for UnitHeader<R> {
    ghost use Rattle.gimli_units_headers.specs.UnitHeaders.{DebugUnit, IsWellFormed};
    ghost use Rattle.gimli_units_headers.specs.UnitTypes.{kind_of};

    ghost Value = { DebugUnit };

    ghost view = { λ u. record {
      offset = R.Offset.count u.offset.0;
      unit_length = R.Offset.count u.unit_length;
      encoding = u.encoding;
      kind = kind_of R.Offset.count u.unit_type;
      abbrev_offset = R.Offset.count u.debug_abbrev_offset.0;
      entries = R.view u.entries;
    } };

    ghost invariant = { λ u. IsWellFormed R.Offset.limit (record {
      offset = R.Offset.count u.offset.0;
      unit_length = R.Offset.count u.unit_length;
      encoding = u.encoding;
      kind = kind_of R.Offset.count u.unit_type;
      abbrev_offset = R.Offset.count u.debug_abbrev_offset.0;
      entries = R.view u.entries;
    }) };
}

impl<R: Reader> UnitHeader<R> {
    /// The offset of the unit in `.debug_info`.
    pub fn offset(&self) -> DebugInfoOffset<R::Offset>
        ensures { R.Offset.count result.0 ≡ self.now.offset }
    {
        self.offset
    }

    /// The same offset: every unit is in `.debug_info`.
    pub fn debug_info_offset(&self) -> Option<DebugInfoOffset<R::Offset>>
        ensures { option_map (λ offset. R.Offset.count offset.0) result ≡ Some self.now.offset }
    {
        Some(self.offset)
    }

    /// The bytes of the unit after its length.
    pub fn unit_length(&self) -> R::Offset
        ensures { R.Offset.count result ≡ self.now.unit_length }
    {
        self.unit_length
    }

    /// The bytes of the unit, its length field included.
    pub fn length_including_self(&self) -> R::Offset
        ensures { R.Offset.count result ≡ length_including_self self.now }
    {
        let length_size = R::Offset::from_u8(self.encoding.format.initial_length_size());
        length_size.wrapping_add(self.unit_length)
    }

    /// The sizes that the unit's fields depend on.
    pub fn encoding(&self) -> Encoding
        ensures value { result ≡ self.now.encoding }
        ensures address { IsTrue (is_address_size result.address_size) }
    {
        self.encoding
    }

    /// The version of the standard: 2 to 5.
    pub fn version(&self) -> u16
        ensures { result ≡ self.now.encoding.version }
    {
        self.encoding.version
    }

    /// The bytes of an address.
    pub fn address_size(&self) -> u8
        ensures value { result ≡ self.now.encoding.address_size }
        ensures size { IsTrue (is_address_size result) }
    {
        self.encoding.address_size
    }

    /// Whether offsets take 4 or 8 bytes (DWARF 5, 7.4).
    pub fn format(&self) -> Format
        ensures { result ≡ self.now.encoding.format }
    {
        self.encoding.format
    }

    /// The unit's type, with what its header has for that type (DWARF 5, 7.5.1).
    pub fn type_(&self) -> UnitType<R::Offset>
        ensures { kind_of R.Offset.count result ≡ self.now.kind }
    {
        self.unit_type
    }

    /// The offset of the unit's abbreviations in `.debug_abbrev`.
    pub fn debug_abbrev_offset(&self) -> DebugAbbrevOffset<R::Offset>
        ensures { R.Offset.count result.0 ≡ self.now.abbrev_offset }
    {
        self.debug_abbrev_offset
    }

    /// The bytes of the header, counted by its fields.
    pub fn size_of_header(&self) -> usize
        ensures fields { result ≡ size_of_header self.now }
        // Only the fields come before the entries.
        ensures same { result ≡ header_size self.now }
    {
        let version_size = 2;
        let unit_type_size = if self.encoding.version == 5 { 1 } else { 0 };
        let address_size_size = 1;
        let format = self.encoding.format;
        usize::from(format.initial_length_size())
            + version_size
            + unit_type_size
            + address_size_size
            + usize::from(format.word_size())
            + self.unit_type.size(format)
    }

    /// The bytes of the header: those before the entries.
    pub fn header_size(&self) -> R::Offset
        ensures { R.Offset.count result ≡ header_size self.now }
    {
        self.length_including_self()
            .checked_sub(self.entries.len())
            .unwrap()
    }

    /// The offset of the first entry.
    pub fn root_offset(&self) -> UnitOffset<R::Offset>
        ensures { R.Offset.count result.0 ≡ header_size self.now }
    {
        UnitOffset(self.header_size())
    }

    /// The bytes of the entries.
    pub fn entries_reader(&self) -> &R
        ensures { R.view result.now ≡ self.now.entries }
    {
        &self.entries
    }

    // Whether an offset is one of the entries.
    pub(crate) fn holds(&self, offset: &UnitOffset<R::Offset>) -> bool
        ensures { result ≡ is_in_bounds self.now (R.Offset.count offset.now.0) }
    {
        let offset = offset.0.into_u64();
        self.header_size().into_u64() <= offset && offset < self.length_including_self().into_u64()
    }

    // An offset of the unit, counted from the start of the section; none where that is no offset.
    pub(crate) fn section_offset_of(
        &self,
        offset: &UnitOffset<R::Offset>,
    ) -> Option<DebugInfoOffset<R::Offset>>
        ensures value { option_map (λ offset. R.Offset.count offset.0) result
            ≡ to_section_offset R.Offset.limit self.now (R.Offset.count offset.now.0) }
        ensures within { R.Offset.count offset.now.0 ≤ length_including_self self.now
            → option_map (λ offset. R.Offset.count offset.0) result
            ≡ Some (self.now.offset + R.Offset.count offset.now.0) }
    {
        let sum = self.offset.0.into_u64().checked_add(offset.0.into_u64())?;
        R::Offset::from_u64(sum).ok().map(DebugInfoOffset)
    }

    /// The bytes between two offsets of the entries. Takes memory only where a copy of the reader
    /// does.
    pub fn range(&self, offsets: Range<UnitOffset<R::Offset>>) -> Result<R, Error>
        requires { R.Offset.count offsets.start.0 ≤ R.Offset.count offsets.end.0 }
        ensures value { ReturnsAsOrNoMemory R.view result
            (bytes_between self.now (R.Offset.count offsets.start.0)
            (R.Offset.count offsets.end.0)) }
        ensures free { IsTrue R.copies_freely → result ≢ Err Memory }
    {
        if !self.holds(&offsets.end) {
            return Err(Error::OffsetOutOfBounds);
        }
        let mut bytes = self.range_from(offsets.start..)?;
        let len = offsets.end.0.checked_sub(offsets.start.0).unwrap();
        bytes.truncate(len)?;
        Ok(bytes)
    }

    /// The bytes from an offset of the entries on. Takes memory only where a copy of the reader
    /// does.
    pub fn range_from(&self, offsets: RangeFrom<UnitOffset<R::Offset>>) -> Result<R, Error>
        ensures value { ReturnsAsOrNoMemory R.view result
            (bytes_from self.now (R.Offset.count offsets.start.0)) }
        ensures free { IsTrue R.copies_freely → result ≢ Err Memory }
    {
        if !self.holds(&offsets.start) {
            return Err(Error::OffsetOutOfBounds);
        }
        let mut bytes = self.entries.copy()?;
        bytes.skip(offsets.start.0.checked_sub(self.header_size()).unwrap())?;
        Ok(bytes)
    }

    /// The bytes of the entries before an offset of them. Takes memory only where a copy of the
    /// reader does.
    pub fn range_to(&self, offsets: RangeTo<UnitOffset<R::Offset>>) -> Result<R, Error>
        ensures value { ReturnsAsOrNoMemory R.view result
            (bytes_to self.now (R.Offset.count offsets.end.0)) }
        ensures free { IsTrue R.copies_freely → result ≢ Err Memory }
    {
        if !self.holds(&offsets.end) {
            return Err(Error::OffsetOutOfBounds);
        }
        let mut bytes = self.entries.copy()?;
        bytes.truncate(offsets.end.0.checked_sub(self.header_size()).unwrap())?;
        Ok(bytes)
    }

    /// Whether an address is one that linkers write for what they left out: one of the last two of
    /// the address size.
    pub fn is_tombstone_address(&self, address: u64) -> bool
        ensures { result ≡ is_tombstone self.now.encoding.address_size address }
    {
        address >= least_tombstone(self.encoding.address_size)
    }
}

impl<R: Reader> SectionPart<R> for UnitHeader<R> {
    ghost use Rattle.gimli_units_headers.specs.UnitHeaders.{unit_in, length_including_self};

    ghost read_in = { unit_in R.Offset.limit };

    ghost offset_of = { λ u. u.offset };

    ghost size_of = { length_including_self };

    // The bytes become the entries of the unit.
    #[tactic(auto, unfolding(crate::specs::UnitHeaders::unit_in))]
    fn parse_in(
        mut bytes: R,
        offset: R::Offset,
        length: R::Offset,
        format: Format,
    ) -> Result<Self, Error> {
        let fields = parse_fields(&mut bytes, format)?;
        Ok(UnitHeader {
            offset: DebugInfoOffset(offset),
            unit_length: length,
            encoding: fields.encoding,
            unit_type: fields.unit_type,
            debug_abbrev_offset: fields.debug_abbrev_offset,
            entries: bytes,
        })
    }

    fn size(&self) -> R::Offset {
        self.length_including_self()
    }
}
