ghost use Rattle.std.specs.Prelude.{◌≡◌, ◌≢◌, ◌≤◌, length, IsTrue, IfOk, true, false, option_map, Err};
ghost use Rattle.gimli_core_readers.specs.View.{bytes_left};
ghost use Rattle.std.specs.Fn.{FnReturnsAt};
ghost use Rattle.gimli_core_readers.specs.Calls.{ReturnsAs, ReturnsOrNoMemory};
ghost use Rattle.gimli_core_readers.specs.Error.TheVariants.{Memory};
ghost use Rattle.gimli_core_readers.specs.NumberParsers.{is_address_size};
ghost use Rattle.gimli_units_lists.specs.LocationEntries.{raw_locations_to_come};
ghost use Rattle.gimli_units_lists.specs.ListSections.{raw_locations_at, locations_at, locations_to_come, from_low_pc, list_offset_at, location_place_of};

use crate::list_offset::{list_bytes, list_offset};
use crate::location_sections::{DebugLoc, DebugLocLists};
use crate::locations::LocListIter;
use crate::raw_locations::RawLocListIter;
use crate::resolver::Resolver;
use gimli_core_readers::{
    DebugAddr, DebugAddrBase, DebugLocListsBase, DebugLocListsIndex, Encoding, Error,
    LocationListsOffset, Reader, ReaderOffsetId, Section, SectionId,
};
use std::marker::Model;

/// The location lists of units of all versions.
#[derive(Debug, Drop)]
pub struct LocationLists<R: Reader> {
    debug_loc: DebugLoc<R>,
    debug_loclists: DebugLocLists<R>,
}

impl<R: Reader> Model for LocationLists<R> {
    ghost use Rattle.gimli_units_lists.specs.LocationEntries.{raw_locations_to_come};
    ghost use Rattle.gimli_units_lists.specs.ListSections.{LocationSections};

    ghost Value = { LocationSections };

    ghost view = { λ s. record { debug_loc = s.debug_loc; debug_loclists = s.debug_loclists } };
}

impl<R: Reader> LocationLists<R> {
    /// The lists in these two sections.
    pub fn new(debug_loc: DebugLoc<R>, debug_loclists: DebugLocLists<R>) -> Self
        ensures { result ≡ record { debug_loc = debug_loc; debug_loclists = debug_loclists } }
    {
        LocationLists {
            debug_loc,
            debug_loclists,
        }
    }

    /// The locations of the list at an offset, of a unit whose `low_pc` is the base address.
    /// Indexes stand for addresses of `debug_addr`, from its base on. Takes memory only where
    /// copies of readers do.
    #[tactic(auto, using(crate::proofs::ListCounts::few_locations))]
    pub fn locations(
        &self,
        offset: LocationListsOffset<R::Offset>,
        unit_encoding: Encoding,
        base_address: u64,
        debug_addr: &DebugAddr<R>,
        debug_addr_base: DebugAddrBase<R::Offset>,
    ) -> Result<LocListIter<R>, Error>
        requires { IsTrue (is_address_size unit_encoding.address_size) }
        ensures value { ReturnsOrNoMemory result
            (locations_at unit_encoding false (R.Offset.count offset.0)
            (from_low_pc unit_encoding base_address (R.Offset.count debug_addr_base.0)
            debug_addr.now) self.now) }
        ensures free { IsTrue R.copies_freely → result ≢ Err Memory }
        // There are no more of them, refusals among them, than bytes.
        ensures few { IfOk result
            (λ locations. length (locations_to_come R.Offset.limit locations)
            ≤ bytes_left locations.raw.rest) }
    {
        let resolver = Resolver::new(unit_encoding, base_address, debug_addr, debug_addr_base)?;
        let raw = self.raw_locations(offset, unit_encoding)?;
        Ok(LocListIter::new(raw, resolver))
    }

    /// The same, of a unit of a split file.
    #[tactic(auto, using(crate::proofs::ListCounts::few_locations))]
    pub fn locations_dwo(
        &self,
        offset: LocationListsOffset<R::Offset>,
        unit_encoding: Encoding,
        base_address: u64,
        debug_addr: &DebugAddr<R>,
        debug_addr_base: DebugAddrBase<R::Offset>,
    ) -> Result<LocListIter<R>, Error>
        requires { IsTrue (is_address_size unit_encoding.address_size) }
        ensures value { ReturnsOrNoMemory result
            (locations_at unit_encoding true (R.Offset.count offset.0)
            (from_low_pc unit_encoding base_address (R.Offset.count debug_addr_base.0)
            debug_addr.now) self.now) }
        ensures free { IsTrue R.copies_freely → result ≢ Err Memory }
        // There are no more of them, refusals among them, than bytes.
        ensures few { IfOk result
            (λ locations. length (locations_to_come R.Offset.limit locations)
            ≤ bytes_left locations.raw.rest) }
    {
        let resolver = Resolver::new(unit_encoding, base_address, debug_addr, debug_addr_base)?;
        let raw = self.raw_locations_dwo(offset, unit_encoding)?;
        Ok(LocListIter::new(raw, resolver))
    }

    /// The entries of the list at an offset, not converted. Takes memory only where a copy of the
    /// reader does.
    #[tactic(auto, using(crate::proofs::ListCounts::few_raw_locations))]
    pub fn raw_locations(
        &self,
        offset: LocationListsOffset<R::Offset>,
        unit_encoding: Encoding,
    ) -> Result<RawLocListIter<R>, Error>
        ensures value { ReturnsOrNoMemory result
            (raw_locations_at unit_encoding false (R.Offset.count offset.0) self.now) }
        ensures free { IsTrue R.copies_freely → result ≢ Err Memory }
        // There are no more of them than bytes.
        ensures few { IfOk result
            (λ entries. length (raw_locations_to_come R.Offset.limit entries)
            ≤ bytes_left entries.rest) }
    {
        let (to_4, from_5) = (self.debug_loc.reader(), self.debug_loclists.reader());
        let input = list_bytes(to_4, from_5, unit_encoding, offset.0)?;
        let by_kind = unit_encoding.version > 4;
        Ok(RawLocListIter::new(input, unit_encoding, by_kind))
    }

    /// The same, of a unit of a split file, whose entries begin with their kind in every version.
    #[tactic(auto, using(crate::proofs::ListCounts::few_raw_locations))]
    pub fn raw_locations_dwo(
        &self,
        offset: LocationListsOffset<R::Offset>,
        unit_encoding: Encoding,
    ) -> Result<RawLocListIter<R>, Error>
        ensures value { ReturnsOrNoMemory result
            (raw_locations_at unit_encoding true (R.Offset.count offset.0) self.now) }
        ensures free { IsTrue R.copies_freely → result ≢ Err Memory }
        // There are no more of them than bytes.
        ensures few { IfOk result
            (λ entries. length (raw_locations_to_come R.Offset.limit entries)
            ≤ bytes_left entries.rest) }
    {
        let (to_4, from_5) = (self.debug_loc.reader(), self.debug_loclists.reader());
        let input = list_bytes(to_4, from_5, unit_encoding, offset.0)?;
        Ok(RawLocListIter::new(input, unit_encoding, true))
    }

    /// The offset of the list that an index stands for, in `.debug_loclists` (DWARF 5, 7.29). Takes
    /// no memory.
    pub fn get_offset(
        &self,
        unit_encoding: Encoding,
        base: DebugLocListsBase<R::Offset>,
        index: DebugLocListsIndex<R::Offset>,
    ) -> Result<LocationListsOffset<R::Offset>, Error>
        ensures value { ReturnsAs (λ offset. R.Offset.count offset.0) result
            (list_offset_at R.Offset.limit unit_encoding.format (R.Offset.count base.0)
            (R.Offset.count index.0) self.now.debug_loclists) }
        ensures free { result ≢ Err Memory }
    {
        let section = self.debug_loclists.reader();
        Ok(LocationListsOffset(list_offset(section, unit_encoding.format, base.0, index.0)?))
    }

    /// The section and the offset in it of the place that an identifier names, `.debug_loc` first.
    pub fn lookup_offset_id(&self, id: ReaderOffsetId) -> Option<(SectionId, R::Offset)>
        ensures { option_map (λ p. (p.0, R.Offset.count p.1)) result
            ≡ location_place_of id.0 self.now }
    {
        self.debug_loc
            .lookup_offset_id(id)
            .or_else(|| self.debug_loclists.lookup_offset_id(id))
    }

    /// The lists over what a function makes of the reader of each section. It has no state, so it
    /// doesn't matter which it is called with first.
    pub fn borrow<'a, F, S>(&'a self, f: F) -> LocationLists<S>
    where
        F: Fn(&'a R) -> S,
        S: Reader,
        requires { F.IsAlwaysCallable f }
        ensures { (loc loclists : R) × (old new : S)
            × (R.view loc ≡ self.now.debug_loc) × (R.view loclists ≡ self.now.debug_loclists)
            × FnReturnsAt F.Fn f loc old × FnReturnsAt F.Fn f loclists new
            × (result ≡ record { debug_loc = S.view old; debug_loclists = S.view new }) }
    {
        let debug_loc = DebugLoc::from(f(self.debug_loc.reader()));
        let debug_loclists = DebugLocLists::from(f(self.debug_loclists.reader()));
        LocationLists::new(debug_loc, debug_loclists)
    }
}
