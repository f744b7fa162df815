ghost use Rattle.std.specs.Prelude.{◌≡◌, ◌≢◌, IsTrue, Ok, Err};
ghost use Rattle.gimli_core_base.specs.Calls.{ReturnsAs, ReturnsAsOrNoMemory, ReturnsOrNoMemory};
ghost use Rattle.gimli_core_base.specs.declared.error.Error.TheVariants.{Memory};
ghost use Rattle.gimli_core_readers.specs.AddressSets.{set_encoding, address_set, next_set, sets_to_come, all_addresses};
ghost use Rattle.gimli_core_readers.specs.Iterators.{ReadsOrEndsOrNoMemory, ComesNext};
ghost use Rattle.gimli_core_readers.specs.Tiling.{whole_section, next_offset};

use crate::Reader;
use crate::address_entries::AddrEntryIter;
use gimli_core_base::error::Error;
use gimli_core_base::{DebugAddrOffset, Encoding, Format, ReaderOffset};
use std::marker::Model;

/// The sets of `.debug_addr`, from one of them on.
#[derive(Debug, Drop)]
pub struct AddrHeaderIter<R: Reader> {
    // The bytes from the next set on.
    input: R,
    section_len: R::Offset,
}

impl<R: Reader> Model for AddrHeaderIter<R> {
    ghost use Rattle.std.specs.Prelude.{◌≤◌, length};
    ghost use Rattle.gimli_core_readers.specs.Tiling.{RemainingSection};

    ghost Value = { RemainingSection };

    ghost view = { λ s. record
        { section_length = R.Offset.count s.section_len; rest = R.view s.input } };

    ghost invariant = { λ s. length (R.view s.input).bytes ≤ R.Offset.count s.section_len };
}

impl<R: Reader> AddrHeaderIter<R> {
    pub(crate) fn new(section: &R) -> Result<Self, Error>
        ensures value { ReturnsOrNoMemory result (Ok (whole_section (R.view section.now))) }
        ensures free { IsTrue R.copies_freely → result ≢ Err Memory }
    {
        Ok(AddrHeaderIter {
            input: section.copy()?,
            section_len: section.len(),
        })
    }

    /// The next set, none at the section's end. After a set that can't be read there are no more.
    /// Takes memory only where a part of the reader does, and changes nothing when out of memory.
    pub fn next(&mut self) -> Result<Option<AddrHeader<R>>, Error>
        ensures value { ReadsOrEndsOrNoMemory result self.old.rest self.new.rest
            (next_set R.Offset.limit self.old) }
        ensures section { self.new.section_length ≡ self.old.section_length }
        ensures free { IsTrue R.copies_freely → result ≢ Err Memory }
        ensures order { ComesNext result (sets_to_come R.Offset.limit self.old)
            (sets_to_come R.Offset.limit self.new) }
    {
        if self.input.is_empty() {
            return Ok(None);
        }
        let mut input = self.input.copy()?;
        match parse_header(&mut input, self.offset()) {
            Ok(header) => {
                self.input = input;
                Ok(Some(header))
            }
            Err(Error::Memory) => Err(Error::Memory),
            Err(fault) => {
                self.input.empty();
                Err(fault)
            }
        }
    }

    // The offset of the next set.
    fn offset(&self) -> DebugAddrOffset<R::Offset>
        ensures { R.Offset.count result.0 ≡ next_offset self.now }
    {
        DebugAddrOffset(self.section_len.checked_sub(self.input.len()).unwrap())
    }
}

/// A set of addresses: its header, and the addresses after it.
#[derive(Debug, Drop)]
pub struct AddrHeader<R: Reader> {
    offset: DebugAddrOffset<R::Offset>,
    length: R::Offset,
    encoding: Encoding,
    entries: R,
}

impl<R: Reader> Model for AddrHeader<R> {
    ghost use Rattle.gimli_core_readers.specs.AddressSets.{AddressSet};

    ghost Value = { AddressSet };

    ghost view = { λ h. record {
      offset = R.Offset.count h.offset.0;
      length = R.Offset.count h.length;
      encoding =
          h.encoding;
      addresses = R.view h.entries;
    } };
}

impl<R: Reader> AddrHeader<R> {
    /// The offset of the set in the section.
    pub fn offset(&self) -> DebugAddrOffset<R::Offset>
        ensures { R.Offset.count result.0 ≡ self.now.offset }
    {
        self.offset
    }

    /// The number of bytes of the set after its length.
    pub fn length(&self) -> R::Offset
        ensures { R.Offset.count result ≡ self.now.length }
    {
        self.length
    }

    pub fn encoding(&self) -> Encoding
        ensures { result ≡ self.now.encoding }
    {
        self.encoding
    }

    /// The addresses of the set, in order. Takes memory only where a copy of the reader does.
    pub fn entries(&self) -> Result<AddrEntryIter<R>, Error>
        ensures value { ReturnsOrNoMemory result (Ok (all_addresses self.now)) }
        ensures free { IsTrue R.copies_freely → result ≢ Err Memory }
    {
        AddrEntryIter::new(&self.entries, self.encoding.address_size)
    }
}

// The set that the reader begins with, at an offset of the section.
#[tactic(auto, unfolding(crate::specs::AddressSets::address_set))]
fn parse_header<R: Reader>(
    input: &mut R,
    offset: DebugAddrOffset<R::Offset>,
) -> Result<AddrHeader<R>, Error>
    ensures value { ReturnsAsOrNoMemory (λ header. (header, R.view input.new)) result
        (address_set R.Offset.limit (R.Offset.count offset.0) (R.view input.old)) }
    ensures free { IsTrue R.copies_freely → result ≢ Err Memory }
{
    let (length, format) = input.read_initial_length()?;
    let mut entries = input.split(length)?;
    let encoding = parse_encoding(&mut entries, format)?;
    Ok(AddrHeader {
        offset,
        length,
        encoding,
        entries,
    })
}

// The fields between the length of a set and its addresses.
#[tactic(auto, unfolding(crate::specs::AddressSets::set_encoding))]
fn parse_encoding<R: Reader>(input: &mut R, format: Format) -> Result<Encoding, Error>
    ensures { ReturnsAs (λ encoding. (encoding, R.view input.new)) result
        (set_encoding format (R.view input.old)) }
{
    let version = input.read_u16()?;
    if version != 5 {
        return Err(Error::UnknownVersion(u64::from(version)));
    }
    let address_size = input.read_address_size()?;
    if input.read_u8()? != 0 {
        return Err(Error::UnsupportedSegmentSize);
    }
    Ok(Encoding {
        format,
        version,
        address_size,
    })
}
