ghost use Rattle.std.specs.Prelude.{◌≡◌, ◌≢◌, ◌-◌, ◌^◌, IsTrue, IfOk, IfSome, IsOk, unwrap_or, Ok, Err};
ghost use Rattle.gimli_core_readers.specs.Calls.{Returns, ReturnsOrNoMemory};
ghost use Rattle.gimli_core_readers.specs.Error.TheVariants.{Memory};
ghost use Rattle.gimli_core_readers.specs.NumberParsers.{is_address_size};
ghost use Rattle.gimli_units_lists.specs.ListEntries.{address_of_index, base_in, range_of, valid_range, relative_range, range_of_length, IsValidRange};
ghost use Rattle.gimli_units_lists.specs.ListSections.{from_low_pc};
ghost use Rattle.gimli_units_lists.specs.ListEntryViews.{raw_entry};

use crate::range_entry::RawRngListEntry;
use gimli_core_readers::{
    DebugAddr, DebugAddrBase, DebugAddrIndex, Encoding, Error, Range, Reader, Section,
    least_tombstone, wrapping_sum,
};
use std::marker::Model;

// What the ranges of a list's entries are made with.
#[derive(Debug, Drop)]
pub(crate) struct Resolver<R: Reader> {
    address_size: u8,
    // The base of the entries to come.
    base_address: u64,
    debug_addr: DebugAddr<R>,
    debug_addr_base: DebugAddrBase<R::Offset>,
}

impl<R: Reader> Model for Resolver<R> {
    ghost use Rattle.std.specs.Prelude.{IsTrue};
    ghost use Rattle.gimli_core_readers.specs.NumberParsers.{is_address_size};
    ghost use Rattle.gimli_units_lists.specs.Lists.{Resolution};

    ghost Value = { Resolution };

    ghost view = { λ r. record {
      setting = record {
        address_size = r.address_size;
        addresses = r.debug_addr;
        addr_base = R.Offset.count
            r.debug_addr_base.0;
      };
      base = r.base_address;
    } };

    ghost invariant = { λ r. IsTrue (is_address_size r.address_size) };
}

impl<R: Reader> Resolver<R> {
    pub(crate) fn new(
        encoding: Encoding,
        base_address: u64,
        debug_addr: &DebugAddr<R>,
        debug_addr_base: DebugAddrBase<R::Offset>,
    ) -> Result<Self, Error>
        requires { IsTrue (is_address_size encoding.address_size) }
        ensures value { ReturnsOrNoMemory result
            (Ok
            (from_low_pc encoding base_address (R.Offset.count debug_addr_base.0) debug_addr.now)) }
        ensures free { IsTrue R.copies_freely → IsOk result }
    {
        Ok(Resolver {
            address_size: encoding.address_size,
            base_address,
            debug_addr: DebugAddr::from(debug_addr.reader().copy()?),
            debug_addr_base,
        })
    }

    // The range of an entry at the base, none for a base and an invalid range. An entry that isn't
    // refused sets its base.
    pub(crate) fn range(
        &mut self,
        entry: RawRngListEntry<R::Offset>,
    ) -> Result<Option<Range>, Error>
        ensures value { Returns result
            (range_of self.old.setting self.old.base (raw_entry R.Offset.count entry)) }
        ensures base { self.new.base
            ≡ unwrap_or (base_in self.old.setting (raw_entry R.Offset.count entry)) self.old.base }
        ensures setting { self.new.setting ≡ self.old.setting }
        ensures valid { IfOk result
            (λ range. IfSome range (IsValidRange self.old.setting.address_size)) }
        ensures free { result ≢ Err Memory }
    {
        match entry {
            RawRngListEntry::AddressOrOffsetPair { begin, end }
            | RawRngListEntry::OffsetPair { begin, end } => Ok(self.relative_range(begin, end)),
            RawRngListEntry::BaseAddress { addr } => {
                self.base_address = addr;
                Ok(None)
            }
            RawRngListEntry::BaseAddressx { addr } => {
                self.base_address = self.address(addr)?;
                Ok(None)
            }
            RawRngListEntry::StartxEndx { begin, end } => {
                let begin = self.address(begin)?;
                let end = self.address(end)?;
                Ok(self.valid_range(begin, end))
            }
            RawRngListEntry::StartxLength { begin, length } => {
                let begin = self.address(begin)?;
                Ok(self.range_of_length(begin, length))
            }
            RawRngListEntry::StartEnd { begin, end } => Ok(self.valid_range(begin, end)),
            RawRngListEntry::StartLength { begin, length } => {
                Ok(self.range_of_length(begin, length))
            }
        }
    }

    // The range of a default location: all addresses, whatever the size of an address.
    #[tactic(auto, using(crate::proofs::Tombstones::zero_below_tombstones))]
    pub(crate) fn everywhere(&self) -> Range
        ensures value { result ≡ record { begin = 0; end = 2 ^ 64 - 1 } }
        ensures valid { IsValidRange self.now.setting.address_size result }
    {
        let _size = self.address_size;
        Range {
            begin: 0,
            end: u64::MAX,
        }
    }

    // The address of an index.
    fn address(&self, index: DebugAddrIndex<R::Offset>) -> Result<u64, Error>
        ensures value { Returns result
            (address_of_index self.now.setting (R.Offset.count index.0)) }
        ensures free { result ≢ Err Memory }
    {
        self.debug_addr
            .get_address(self.address_size, self.debug_addr_base, index)
    }

    // A range, if it begins before it ends and below the tombstones.
    fn valid_range(&self, begin: u64, end: u64) -> Option<Range>
        ensures value { result ≡ valid_range self.now.setting.address_size begin end }
        ensures valid { IfSome result (IsValidRange self.now.setting.address_size) }
    {
        if begin < end && begin < least_tombstone(self.address_size) {
            Some(Range { begin, end })
        } else {
            None
        }
    }

    // A range relative to the base, which may be a tombstone.
    fn relative_range(&self, begin: u64, end: u64) -> Option<Range>
        ensures value { result ≡ relative_range self.now.setting.address_size self.now.base
            begin end }
        ensures valid { IfSome result (IsValidRange self.now.setting.address_size) }
    {
        if self.base_address >= least_tombstone(self.address_size) {
            return None;
        }
        let begin = wrapping_sum(self.base_address, begin, self.address_size);
        let end = wrapping_sum(self.base_address, end, self.address_size);
        self.valid_range(begin, end)
    }

    // A range by its begin and its bytes.
    fn range_of_length(&self, begin: u64, length: u64) -> Option<Range>
        ensures value { result ≡ range_of_length self.now.setting.address_size begin length }
        ensures valid { IfSome result (IsValidRange self.now.setting.address_size) }
    {
        let end = wrapping_sum(begin, length, self.address_size);
        self.valid_range(begin, end)
    }
}
