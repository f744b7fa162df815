ghost use Rattle.std.specs.Prelude.{◌≡◌, ◌≢◌, ◌≤◌, length, IsTrue, IfOk, option_map, Err};
ghost use Rattle.gimli_core_readers.specs.View.{bytes_left};
ghost use Rattle.std.specs.Fn.{FnReturnsAt};
ghost use Rattle.gimli_core_readers.specs.Calls.{ReturnsAs, ReturnsOrNoMemory};
ghost use Rattle.gimli_core_readers.specs.Error.TheVariants.{Memory};
ghost use Rattle.gimli_core_readers.specs.NumberParsers.{is_address_size};
ghost use Rattle.gimli_units_lists.specs.RangeEntries.{raw_ranges_to_come};
ghost use Rattle.gimli_units_lists.specs.ListSections.{raw_ranges_at, ranges_at, ranges_to_come, from_low_pc, list_offset_at, range_place_of};

use crate::list_offset::{list_bytes, list_offset};
use crate::range_sections::{DebugRanges, DebugRngLists};
use crate::ranges::RngListIter;
use crate::raw_ranges::RawRngListIter;
use crate::resolver::Resolver;
use gimli_core_readers::{
    DebugAddr, DebugAddrBase, DebugRngListsBase, DebugRngListsIndex, Encoding, Error,
    RangeListsOffset, Reader, ReaderOffsetId, Section, SectionId,
};
use std::marker::Model;

/// The range lists of units of all versions.
#[derive(Debug, Drop)]
pub struct RangeLists<R: Reader> {
    debug_ranges: DebugRanges<R>,
    debug_rnglists: DebugRngLists<R>,
}

impl<R: Reader> Model for RangeLists<R> {
    ghost use Rattle.gimli_units_lists.specs.RangeEntries.{raw_ranges_to_come};
    ghost use Rattle.gimli_units_lists.specs.ListSections.{RangeSections};

    ghost Value = { RangeSections };

    ghost view = { λ s. record {
      debug_ranges = s.debug_ranges;
      debug_rnglists = s.debug_rnglists;
    } };
}

impl<R: Reader> RangeLists<R> {
    /// The lists in these two sections.
    pub fn new(debug_ranges: DebugRanges<R>, debug_rnglists: DebugRngLists<R>) -> Self
        ensures { result ≡ record { debug_ranges = debug_ranges; debug_rnglists = debug_rnglists } }
    {
        RangeLists {
            debug_ranges,
            debug_rnglists,
        }
    }

    /// The section of units up to version 4.
    pub fn debug_ranges(&self) -> &DebugRanges<R>
        ensures { result.now ≡ self.now.debug_ranges }
    {
        &self.debug_ranges
    }

    /// Puts another section in the place of `.debug_ranges`, as that of the main file for a split
    /// unit.
    pub fn set_debug_ranges(&mut self, debug_ranges: DebugRanges<R>)
        ensures { self.new ≡ record
            { debug_ranges = debug_ranges; debug_rnglists = self.old.debug_rnglists } }
    {
        self.debug_ranges = debug_ranges;
    }

    /// The section of units from version 5 on.
    pub fn debug_rnglists(&self) -> &DebugRngLists<R>
        ensures { result.now ≡ self.now.debug_rnglists }
    {
        &self.debug_rnglists
    }

    /// The ranges of the list at an offset, of a unit whose `low_pc` is the base address. Indexes
    /// stand for addresses of `debug_addr`, from its base on. Takes memory only where copies of
    /// readers do.
    #[tactic(auto, using(crate::proofs::ListCounts::few_ranges))]
    pub fn ranges(
        &self,
        offset: RangeListsOffset<R::Offset>,
        unit_encoding: Encoding,
        base_address: u64,
        debug_addr: &DebugAddr<R>,
        debug_addr_base: DebugAddrBase<R::Offset>,
    ) -> Result<RngListIter<R>, Error>
        requires { IsTrue (is_address_size unit_encoding.address_size) }
        ensures value { ReturnsOrNoMemory result (ranges_at unit_encoding (R.Offset.count offset.0)
            (from_low_pc unit_encoding base_address (R.Offset.count debug_addr_base.0)
            debug_addr.now) self.now) }
        ensures free { IsTrue R.copies_freely → result ≢ Err Memory }
        // There are no more of them, refusals among them, than bytes.
        ensures few { IfOk result
            (λ ranges. length (ranges_to_come R.Offset.limit ranges) ≤ bytes_left ranges.raw.rest) }
    {
        let resolver = Resolver::new(unit_encoding, base_address, debug_addr, debug_addr_base)?;
        let raw = self.raw_ranges(offset, unit_encoding)?;
        Ok(RngListIter::new(raw, resolver))
    }

    /// The entries of the list at an offset, not converted. Takes memory only where a copy of the
    /// reader does.
    #[tactic(auto, using(crate::proofs::ListCounts::few_raw_ranges))]
    pub fn raw_ranges(
        &self,
        offset: RangeListsOffset<R::Offset>,
        unit_encoding: Encoding,
    ) -> Result<RawRngListIter<R>, Error>
        ensures value { ReturnsOrNoMemory result
            (raw_ranges_at unit_encoding (R.Offset.count offset.0) self.now) }
        ensures free { IsTrue R.copies_freely → result ≢ Err Memory }
        // There are no more of them than bytes.
        ensures few { IfOk result
            (λ entries. length (raw_ranges_to_come R.Offset.limit entries)
            ≤ bytes_left entries.rest) }
    {
        let (to_4, from_5) = (self.debug_ranges.reader(), self.debug_rnglists.reader());
        let input = list_bytes(to_4, from_5, unit_encoding, offset.0)?;
        Ok(RawRngListIter::new(input, unit_encoding))
    }

    /// The offset of the list that an index stands for, in `.debug_rnglists` (DWARF 5, 7.28). Takes
    /// no memory.
    pub fn get_offset(
        &self,
        unit_encoding: Encoding,
        base: DebugRngListsBase<R::Offset>,
        index: DebugRngListsIndex<R::Offset>,
    ) -> Result<RangeListsOffset<R::Offset>, Error>
        ensures value { ReturnsAs (λ offset. R.Offset.count offset.0) result
            (list_offset_at R.Offset.limit unit_encoding.format (R.Offset.count base.0)
            (R.Offset.count index.0) self.now.debug_rnglists) }
        ensures free { result ≢ Err Memory }
    {
        let section = self.debug_rnglists.reader();
        Ok(RangeListsOffset(list_offset(section, unit_encoding.format, base.0, index.0)?))
    }

    /// The section and the offset in it of the place that an identifier names, `.debug_ranges`
    /// first.
    pub fn lookup_offset_id(&self, id: ReaderOffsetId) -> Option<(SectionId, R::Offset)>
        ensures { option_map (λ p. (p.0, R.Offset.count p.1)) result
            ≡ range_place_of id.0 self.now }
    {
        self.debug_ranges
            .lookup_offset_id(id)
            .or_else(|| self.debug_rnglists.lookup_offset_id(id))
    }

    /// The lists over what a function makes of the reader of each section. It has no state, so it
    /// doesn't matter which it is called with first.
    pub fn borrow<'a, F, S>(&'a self, f: F) -> RangeLists<S>
    where
        F: Fn(&'a R) -> S,
        S: Reader,
        requires { F.IsAlwaysCallable f }
        ensures { (ranges rnglists : R) × (old new : S)
            × (R.view ranges ≡ self.now.debug_ranges)
            × (R.view rnglists ≡ self.now.debug_rnglists)
            × FnReturnsAt F.Fn f ranges old × FnReturnsAt F.Fn f rnglists new
            × (result ≡ record { debug_ranges = S.view old; debug_rnglists = S.view new }) }
    {
        let debug_ranges = DebugRanges::from(f(self.debug_ranges.reader()));
        let debug_rnglists = DebugRngLists::from(f(self.debug_rnglists.reader()));
        RangeLists::new(debug_ranges, debug_rnglists)
    }
}
