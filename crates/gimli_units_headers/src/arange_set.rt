//! The header of a set of address ranges (DWARF 5, 6.1.2).

ghost use Rattle.std.specs.Prelude.{◌≡◌, ◌≢◌, ◌≤◌, IfOk, IsTrue, Ok, Err, length};
ghost use Rattle.gimli_core_base.specs.View.{bytes_left};
ghost use Rattle.gimli_core_base.specs.Calls.{ReturnsAs, ReturnsOrNoMemory};
ghost use Rattle.gimli_core_base.specs.declared.error.Error.TheVariants.{Memory};
ghost use Rattle.gimli_core_base.specs.NumberParsers.{is_address_size};
ghost use Rattle.gimli_units_headers.specs.ArangeSets.{arange_fields, arange_padding, pairs_of, aranges_to_come};
ghost use Rattle.gimli_units_headers.specs.ParsedAranges.{arange_fields_of};

use crate::arange_entry::ArangeEntryIter;
use crate::parts::SectionPart;
use gimli_core_base::error::Error;
use gimli_core_base::{DebugArangesOffset, Encoding, Format, ReaderOffset};
use gimli_core_readers::{DebugInfoOffset, Reader};
use std::marker::Model;

/// A set of address ranges: its header, and the pairs after it.
#[derive(Debug, Drop)]
pub struct ArangeHeader<R: Reader> {
    offset: DebugArangesOffset<R::Offset>,
    length: R::Offset,
    encoding: Encoding,
    debug_info_offset: DebugInfoOffset<R::Offset>,
    entries: R,
}

impl<R: Reader> Model for ArangeHeader<R> {
    ghost use Rattle.std.specs.Prelude.{IsTrue};
    ghost use Rattle.gimli_core_base.specs.NumberParsers.{is_address_size};
    ghost use Rattle.gimli_units_headers.specs.ArangeSets.{ArangeSet};

    ghost Value = { ArangeSet };

    ghost view = { λ h. record {
      offset = R.Offset.count h.offset.0;
      length = R.Offset.count h.length;
      encoding = h.encoding;
      info_offset = R.Offset.count h.debug_info_offset.0;
      pairs = R.view h.entries;
    } };

    ghost invariant = { λ h. IsTrue (is_address_size h.encoding.address_size) };
}

impl<R: Reader> ArangeHeader<R> {
    /// The offset of the set in the section.
    pub fn offset(&self) -> DebugArangesOffset<R::Offset>
        ensures { R.Offset.count result.0 ≡ self.now.offset }
    {
        self.offset
    }

    /// The bytes of the set after its length.
    pub fn length(&self) -> R::Offset
        ensures { R.Offset.count result ≡ self.now.length }
    {
        self.length
    }

    /// The sizes that the set's fields depend on. The version is that of the section, 2.
    pub fn encoding(&self) -> Encoding
        ensures value { result ≡ self.now.encoding }
        ensures address { IsTrue (is_address_size result.address_size) }
    {
        self.encoding
    }

    /// The offset of the unit whose addresses these are.
    pub fn debug_info_offset(&self) -> DebugInfoOffset<R::Offset>
        ensures { R.Offset.count result.0 ≡ self.now.info_offset }
    {
        self.debug_info_offset
    }

    /// The ranges of the set, in order. Takes memory only where a copy of the reader does.
    pub fn entries(&self) -> Result<ArangeEntryIter<R>, Error>
        ensures value { ReturnsOrNoMemory result (Ok (pairs_of self.now)) }
        ensures free { IsTrue R.copies_freely → result ≢ Err Memory }
        ensures few { IfOk result
            (λ entries. length (aranges_to_come entries) ≤ bytes_left self.now.pairs) }
    {
        ArangeEntryIter::new(&self.entries, self.encoding.address_size)
    }
}

/// The fields between the length of a set and its pairs.
#[derive(Clone, Copy)]
pub struct ArangeFields<O> {
    pub encoding: Encoding,
    pub debug_info_offset: DebugInfoOffset<O>,
}

impl<R: Reader> SectionPart<R> for ArangeHeader<R> {
    ghost use Rattle.gimli_units_headers.specs.ArangeSets.{arange_set_in, set_size};

    ghost read_in = { arange_set_in R.Offset.limit };

    ghost offset_of = { λ s. s.offset };

    ghost size_of = { set_size };

    // The bytes become the pairs of the set.
    #[tactic(auto, unfolding(crate::specs::ArangeSets::arange_set_in))]
    fn parse_in(
        mut bytes: R,
        offset: R::Offset,
        length: R::Offset,
        format: Format,
    ) -> Result<Self, Error> {
        let fields = parse_fields(&mut bytes, format)?;
        Ok(ArangeHeader {
            offset: DebugArangesOffset(offset),
            length,
            encoding: fields.encoding,
            debug_info_offset: fields.debug_info_offset,
            entries: bytes,
        })
    }

    fn size(&self) -> R::Offset {
        let length_size = R::Offset::from_u8(self.encoding.format.initial_length_size());
        length_size.wrapping_add(self.length)
    }
}

// The fields after the length, and the padding.
#[tactic(auto, unfolding(crate::specs::ArangeSets::arange_fields))]
fn parse_fields<R: Reader>(input: &mut R, format: Format) -> Result<ArangeFields<R::Offset>, Error>
    ensures value { ReturnsAs
        (λ fields. (arange_fields_of R.Offset.count fields, R.view input.new))
        result (arange_fields R.Offset.limit format (R.view input.old)) }
    ensures address { IfOk result
        (λ fields. IsTrue (is_address_size fields.encoding.address_size)) }
{
    let version = input.read_u16()?;
    if version != 2 {
        return Err(Error::UnknownVersion(u64::from(version)));
    }
    let debug_info_offset = DebugInfoOffset(input.read_offset(format)?);
    let address_size = input.read_address_size()?;
    if input.read_u8()? != 0 {
        return Err(Error::UnsupportedSegmentSize);
    }
    input.skip(R::Offset::from_u8(padding(format, address_size)))?;
    Ok(ArangeFields {
        encoding: Encoding {
            address_size,
            format,
            version,
        },
        debug_info_offset,
    })
}

// The bytes between the header and the first pair, which is at a multiple of a pair's size.
fn padding(format: Format, address_size: u8) -> u8
    requires { IsTrue (is_address_size address_size) }
    ensures { result ≡ arange_padding format address_size }
{
    let pair_size = 2 * address_size;
    let header_size = format.initial_length_size() + 2 + format.word_size() + 1 + 1;
    match header_size % pair_size {
        0 => 0,
        over => pair_size - over,
    }
}
