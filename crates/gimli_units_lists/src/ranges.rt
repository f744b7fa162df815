ghost use Rattle.std.specs.Prelude.{◌≡◌, ◌≢◌, IfOk, IfSome, unwrap_or, Ok, Err};
ghost use Rattle.gimli_core_readers.specs.Calls.{Returns};
ghost use Rattle.gimli_core_readers.specs.Error.TheVariants.{Memory};
ghost use Rattle.gimli_core_readers.specs.Iterators.{ReturnsNext};
ghost use Rattle.gimli_units_lists.specs.ListEntries.{base_in, range_of, IsValidRange};
ghost use Rattle.gimli_units_lists.specs.ListSections.{ranges_to_come};
ghost use Rattle.gimli_units_lists.specs.ListProgress.{TakesRange};
ghost use Rattle.gimli_units_lists.specs.RangeEntries.{range_entry, raw_ranges_to_come};
ghost use Rattle.gimli_units_lists.specs.Lists.{ReadsEntry, LeavesBytes};
ghost use Rattle.gimli_units_lists.specs.ListEntryViews.{raw_entry};

use crate::entry_list::{EntryList, next_answer};
use crate::range_entry::RawRngListEntry;
use crate::raw_ranges::RawRngListIter;
use crate::resolver::Resolver;
use gimli_core_readers::{Error, Range, Reader};
use std::marker::Model;

/// The ranges of a list, from one of its entries on.
#[derive(Debug, Drop)]
pub struct RngListIter<R: Reader> {
    raw: RawRngListIter<R>,
    resolver: Resolver<R>,
}

impl<R: Reader> Model for RngListIter<R> {
    ghost use Rattle.gimli_units_lists.specs.ListSections.{RemainingRanges};

    ghost Value = { RemainingRanges };

    ghost view = { λ r. record { raw = r.raw; against = r.resolver } };
}

impl<R: Reader> RngListIter<R> {
    pub(crate) fn new(raw: RawRngListIter<R>, resolver: Resolver<R>) -> Self
        ensures { result ≡ record { raw = raw; against = resolver } }
    {
        RngListIter { raw, resolver }
    }

    /// The next range, none at the list's end. An entry whose index has no address is refused in
    /// its place, and the list goes on after it; after an entry that can't be read there are no
    /// more. Takes no memory.
    pub fn next(&mut self) -> Result<Option<Range>, Error>
        ensures next { ReturnsNext (λ range. range) result
            (ranges_to_come R.Offset.limit self.old) (ranges_to_come R.Offset.limit self.new) }
        // The entries up to the one that stands for the answer are taken.
        ensures progress { TakesRange R.Offset.limit result self.old self.new }
        ensures rest { LeavesBytes (range_entry R.Offset.limit self.old.raw.encoding) result
            self.old.raw.rest self.new.raw.rest }
        ensures valid { IfOk result
            (λ range. IfSome range (IsValidRange self.old.against.setting.address_size)) }
        ensures encoding { self.new.raw.encoding ≡ self.old.raw.encoding }
        ensures setting { self.new.against.setting ≡ self.old.against.setting }
        ensures free { result ≢ Err Memory }
    {
        next_answer(self)
    }

    /// The next entry, not converted; it sets no base.
    pub fn next_raw(&mut self) -> Result<Option<RawRngListEntry<R::Offset>>, Error>
        ensures next { ReturnsNext (raw_entry R.Offset.count) result
            (raw_ranges_to_come R.Offset.limit self.old.raw)
            (raw_ranges_to_come R.Offset.limit self.new.raw) }
        ensures rest { ReadsEntry (raw_entry R.Offset.count)
            (range_entry R.Offset.limit self.old.raw.encoding) result self.old.raw.rest
            self.new.raw.rest }
        ensures encoding { self.new.raw.encoding ≡ self.old.raw.encoding }
        ensures against { self.new.against ≡ self.old.against }
        ensures free { result ≢ Err Memory }
    {
        self.raw.next()
    }

    /// The range of an entry, none for a base and an invalid range. An entry that isn't refused
    /// sets its base.
    pub fn convert_raw(
        &mut self,
        raw_range: RawRngListEntry<R::Offset>,
    ) -> Result<Option<Range>, Error>
        ensures value { Returns result
            (range_of self.old.against.setting self.old.against.base
            (raw_entry R.Offset.count raw_range)) }
        ensures base { self.new.against.base
            ≡ unwrap_or (base_in self.old.against.setting (raw_entry R.Offset.count raw_range))
            self.old.against.base }
        ensures setting { self.new.against.setting ≡ self.old.against.setting }
        ensures raw { self.new.raw ≡ self.old.raw }
        ensures valid { IfOk result
            (λ range. IfSome range (IsValidRange self.old.against.setting.address_size)) }
        ensures free { result ≢ Err Memory }
    {
        self.resolver.range(raw_range)
    }
}

impl<R: Reader> EntryList for RngListIter<R> {
    ghost use Rattle.gimli_core_readers.specs.Encoding.{Encoding};
    ghost use Rattle.gimli_core_readers.specs.declared.range.Range.{Range};
    ghost use Rattle.gimli_units_lists.specs.ListEntries.{RawEntry};
    ghost use Rattle.gimli_units_lists.specs.ListEntryViews.{raw_entry};
    ghost use Rattle.gimli_units_lists.specs.ListSections.{range_list};
    ghost use Rattle.gimli_units_lists.specs.RangeEntries.{range_lists};

    type Entry = RawRngListEntry<R::Offset>;

    type Answer = Range;

    ghost How = { Encoding };

    ghost Raw = { RawEntry };

    ghost Found = { Range };

    ghost see_entry = { raw_entry R.Offset.count };

    ghost see = { λ range. range };

    ghost kind = { range_lists };

    ghost limit = { R.Offset.limit };

    ghost remaining = { range_list };

    ghost range_in = { λ range. range };

    ghost reads_freely = { Unit {0} };

    fn take_entry(&mut self) -> Result<Option<RawRngListEntry<R::Offset>>, Error> {
        self.next_raw()
    }

    fn resolve(&mut self, entry: RawRngListEntry<R::Offset>) -> Result<Option<Range>, Error> {
        self.convert_raw(entry)
    }
}
