ghost use Rattle.std.specs.Prelude.{◌≡◌, ◌≢◌, IsTrue, Ok, Err};
ghost use Rattle.gimli_core_base.specs.Calls.{ReturnsOrNoMemory};
ghost use Rattle.gimli_core_base.specs.declared.error.Error.TheVariants.{Memory};
ghost use Rattle.gimli_core_readers.specs.AddressSets.{addresses_in, next_address, addresses_to_come};
ghost use Rattle.gimli_core_readers.specs.Iterators.{ReadsOrEnds, ComesNext};

use crate::Reader;
use gimli_core_base::error::Error;
use std::marker::Model;

/// The addresses of a set, from one of them on.
#[derive(Debug, Drop)]
pub struct AddrEntryIter<R: Reader> {
    // The bytes from the next address on.
    input: R,
    address_size: u8,
}

impl<R: Reader> Model for AddrEntryIter<R> {
    ghost use Rattle.gimli_core_readers.specs.AddressSets.{RemainingAddresses};

    ghost Value = { RemainingAddresses };

    ghost view = { λ a. record { address_size = a.address_size; rest = R.view a.input } };
}

impl<R: Reader> AddrEntryIter<R> {
    pub(crate) fn new(addresses: &R, address_size: u8) -> Result<Self, Error>
        ensures value { ReturnsOrNoMemory result
            (Ok (addresses_in address_size (R.view addresses.now))) }
        ensures free { IsTrue R.copies_freely → result ≢ Err Memory }
    {
        Ok(AddrEntryIter {
            input: addresses.copy()?,
            address_size,
        })
    }

    /// The next address, none at the set's end. After an address that can't be read there are no
    /// more. Takes no memory.
    pub fn next(&mut self) -> Result<Option<u64>, Error>
        ensures value { ReadsOrEnds result self.old.rest self.new.rest (next_address self.old) }
        ensures size { self.new.address_size ≡ self.old.address_size }
        ensures order { ComesNext result (addresses_to_come self.old) (addresses_to_come self.new) }
    {
        if self.input.is_empty() {
            return Ok(None);
        }
        match self.input.read_address(self.address_size) {
            Ok(address) => Ok(Some(address)),
            Err(fault) => {
                self.input.empty();
                Err(fault)
            }
        }
    }
}
