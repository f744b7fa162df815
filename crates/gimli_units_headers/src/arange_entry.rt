//! The ranges of a set (DWARF 5, 6.1.2).

ghost use Rattle.std.specs.Prelude.{◌≡◌, ◌≢◌, IsOk, IsTrue, Ok, Err};
ghost use Rattle.gimli_core_base.specs.Calls.{ReturnsAsOrNoMemory, ReturnsOrNoMemory};
ghost use Rattle.gimli_core_base.specs.declared.error.Error.TheVariants.{Memory};
ghost use Rattle.gimli_core_base.specs.NumberParsers.{is_address_size};
ghost use Rattle.gimli_core_readers.specs.Iterators.{ReturnsNext};
ghost use Rattle.gimli_units_headers.specs.ArangeSets.{next_pair, arange_of, aranges_to_come, pairs_to_come, remaining_pairs, pair_end, Consumes, TakesPairs};

use gimli_core_base::error::Error;
use gimli_core_readers::{Range, Reader, greatest_address, least_tombstone};
use std::marker::Model;

/// A range of addresses, by its begin and its length.
#[derive(Clone, Copy, Debug, PartialEq, Eq, Hash)]
pub struct ArangeEntry {
    address: u64,
    length: u64,
}

impl Model for ArangeEntry {
    ghost use Rattle.gimli_units_headers.specs.ArangeSets.{ArangePair};

    ghost Value = { ArangePair };

    ghost view = { λ e. record { address = e.address; length = e.length } };

    ghost inverse = { λ p. record { address = p.address; length = p.length } };
}

impl ArangeEntry {
    /// The first address.
    pub fn address(&self) -> u64
        ensures { result ≡ self.now.address }
    {
        self.address
    }

    /// How many addresses there are.
    pub fn length(&self) -> u64
        ensures { result ≡ self.now.length }
    {
        self.length
    }

    /// The addresses. Of an entry that `next` gave the end is the sum; else it may be wrapped at 64
    /// bits.
    pub fn range(&self) -> Range
        ensures begin { result.begin ≡ self.now.address }
        ensures end { result.end ≡ pair_end self.now }
    {
        Range {
            begin: self.address,
            end: self.address.wrapping_add(self.length),
        }
    }
}

/// The ranges of a set, from one of them on.
#[derive(Debug, Drop)]
pub struct ArangeEntryIter<R: Reader> {
    // The bytes from the next pair on.
    input: R,
    address_size: u8,
}

impl<R: Reader> Model for ArangeEntryIter<R> {
    ghost use Rattle.std.specs.Prelude.{IsTrue};
    ghost use Rattle.gimli_core_base.specs.NumberParsers.{is_address_size};
    ghost use Rattle.gimli_units_headers.specs.ArangeSets.{RemainingPairs};

    ghost Value = { RemainingPairs };

    ghost view = { λ a. record { address_size = a.address_size; rest = R.view a.input } };

    ghost invariant = { λ a. IsTrue (is_address_size a.address_size) };
}

impl<R: Reader> ArangeEntryIter<R> {
    pub(crate) fn new(entries: &R, address_size: u8) -> Result<Self, Error>
        requires { IsTrue (is_address_size address_size) }
        ensures value { ReturnsOrNoMemory result
            (Ok (remaining_pairs address_size (R.view entries.now))) }
        ensures free { IsTrue R.copies_freely → result ≢ Err Memory }
    {
        Ok(ArangeEntryIter {
            input: entries.copy()?,
            address_size,
        })
    }

    /// The next range, none at the set's end. One whose end the address size can't hold is refused
    /// in its place, and the ranges go on after it. Takes no memory.
    pub fn next(&mut self) -> Result<Option<ArangeEntry>, Error>
        ensures order { ReturnsNext (λ e. e) result (aranges_to_come self.old)
            (aranges_to_come self.new) }
        // No pair after the one that is answered is touched, so that `next_raw` may go on.
        ensures pairs { Consumes self.old.address_size result (pairs_to_come self.old)
            (pairs_to_come self.new) }
        // The bytes of the pairs are taken, and a rest that is shorter than a pair stays.
        ensures rest { TakesPairs self.old self.new }
        ensures size { self.new.address_size ≡ self.old.address_size }
    {
        while let Some(raw) = self.next_raw()? {
            if let Some(entry) = self.convert_raw(raw)? {
                return Ok(Some(entry));
            }
        }
        Ok(None)
    }

    /// The next pair, not converted; none where less than a pair is left. Takes no memory.
    #[tactic(auto, unfolding(crate::specs::ArangeSets::next_pair, crate::specs::ArangeSets::pair, gimli_core_base::specs::NumberParsers::address, gimli_core_base::specs::NumberParsers::fixed))]
    pub fn next_raw(&mut self) -> Result<Option<ArangeEntry>, Error>
        ensures value { ReturnsAsOrNoMemory (λ pair. (pair, self.new.rest)) result
            (next_pair self.old.address_size self.old.rest) }
        ensures read { IsOk result }
        ensures size { self.new.address_size ≡ self.old.address_size }
        ensures address { IsTrue (is_address_size self.old.address_size) }
    {
        let pair_size = 2 * usize::from(self.address_size);
        if self.input.as_bytes().len() < pair_size {
            return Ok(None);
        }
        let address = self.input.read_address(self.address_size)?;
        let length = self.input.read_address(self.address_size)?;
        Ok(Some(ArangeEntry { address, length }))
    }

    /// The range of a pair that `next_raw` gave, none where it is skipped.
    pub fn convert_raw(&self, raw: ArangeEntry) -> Result<Option<ArangeEntry>, Error>
        ensures { result ≡ arange_of self.now.address_size raw }
    {
        if (raw.address == 0 && raw.length == 0)
            || raw.address >= least_tombstone(self.address_size)
        {
            return Ok(None);
        }
        match raw.address.checked_add(raw.length) {
            Some(end) if end <= greatest_address(self.address_size) => Ok(Some(raw)),
            _ => Err(Error::AddressOverflow),
        }
    }
}
