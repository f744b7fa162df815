ghost use Rattle.std.specs.Prelude.{◌≡◌, ◌≢◌, IsTrue, IfOk, Ok, Err};
ghost use Rattle.std.specs.Fn.{FnOnceReturnsAt};
ghost use Rattle.gimli_core_base.specs.Calls.{Returns, ReturnsOrNoMemory};
ghost use Rattle.gimli_core_base.specs.declared.error.Error.TheVariants.{Memory};
ghost use Rattle.gimli_core_readers.specs.SectionReads.{address_at};
ghost use Rattle.gimli_core_readers.specs.AddressSets.{address_set, set_size, sets_to_come};
ghost use Rattle.gimli_core_readers.specs.Tiling.{whole_section, Tile};

use crate::address_sets::AddrHeaderIter;
use crate::places::reader_at_index;
use crate::section::Section;
use crate::{EndianSlice, Reader};
use gimli_core_base::error::Error;
use gimli_core_base::{DebugAddrBase, DebugAddrIndex, Endianity, SectionId};
use std::marker::Model;

/// `.debug_addr`: the addresses that indexes stand for, in sets (DWARF 5, 7.27).
#[derive(Debug, Drop)]
pub struct DebugAddr<R: Reader> {
    section: R,
}

impl<R: Reader> Model for DebugAddr<R> {
    ghost use Rattle.gimli_core_base.specs.View.{View};

    ghost Value = { View };

    ghost view = { λ s. R.view s.section };
}

impl<R: Reader> From<R> for DebugAddr<R> {
    ghost from_gives = { λ reader section. section ≡ R.view reader };

    fn from(section: R) -> Self {
        DebugAddr { section }
    }
}

impl<R: Reader> Section<R> for DebugAddr<R> {
    ghost use Rattle.gimli_core_base.specs.declared.common.SectionId.TheVariants.{DebugAddr};

    ghost section_id = { DebugAddr };

    ghost section_view = { λ s. s };

    fn id() -> SectionId {
        SectionId::DebugAddr
    }

    fn reader(&self) -> &R {
        &self.section
    }

    ghost from_reader = { λ _ _ same. same };
}

impl<'a, E: Endianity> DebugAddr<EndianSlice<'a, E>> {
    /// The section that these bytes are, the first of them at identifier 0.
    pub fn new(section: &'a [u8], endian: E) -> Self
        ensures { result ≡ record { bytes = section.now; is_big = E.is_big endian; first = 0 } }
    {
        DebugAddr::from(EndianSlice::new(section, endian))
    }
}

impl<R: Reader> DebugAddr<R> {
    /// The section over what a function makes of its reader.
    pub fn borrow<'a, F, S>(&'a self, f: F) -> DebugAddr<S>
    where
        F: FnOnce(&'a R) -> S,
        S: Reader,
        requires { F.IsAlwaysCallable f }
        ensures { (reader : R) × (output : S) × (R.view reader ≡ self.now)
            × FnOnceReturnsAt F.FnOnce f reader output × (result ≡ S.view output) }
    {
        DebugAddr {
            section: f(&self.section),
        }
    }

    /// The address at an index after a base. Takes no memory.
    pub fn get_address(
        &self,
        address_size: u8,
        base: DebugAddrBase<R::Offset>,
        index: DebugAddrIndex<R::Offset>,
    ) -> Result<u64, Error>
        ensures { Returns result
            (address_at address_size (R.Offset.count base.0) (R.Offset.count index.0) self.now) }
    {
        reader_at_index(&self.section, base.0, index.0, address_size)?.read_address(address_size)
    }

    /// The sets of the section, in order. Takes memory only where a copy of the reader does.
    pub fn headers(&self) -> Result<AddrHeaderIter<R>, Error>
        ensures value { ReturnsOrNoMemory result (Ok (whole_section self.now)) }
        ensures free { IsTrue R.copies_freely → result ≢ Err Memory }
        // They lie end to end, from the section's start to its end or to one that can't be read.
        ensures tile { IfOk result (λ sets. let all = sets_to_come R.Offset.limit sets in
            Tile (address_set R.Offset.limit) (λ s. s.offset) set_size self.now 0 all.items
            all.ending) }
    {
        AddrHeaderIter::new(&self.section)
    }
}
