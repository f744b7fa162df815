ghost use Rattle.std.specs.Prelude.{◌≡◌, ◌≢◌, IsTrue, IfOk, IfSome, unwrap_or, option_map, Err};
ghost use Rattle.gimli_core_readers.specs.Calls.{ReturnsAs};
ghost use Rattle.gimli_core_readers.specs.Error.TheVariants.{Memory};
ghost use Rattle.gimli_core_readers.specs.Iterators.{ReturnsNextOrNoMemory};
ghost use Rattle.gimli_units_lists.specs.ListEntries.{IsValidRange};
ghost use Rattle.gimli_units_lists.specs.ListSections.{locations_to_come};
ghost use Rattle.gimli_units_lists.specs.ListProgress.{TakesLocation};
ghost use Rattle.gimli_units_lists.specs.LocationEntries.{location_entry, raw_locations_to_come, location_base_in, location_of};
ghost use Rattle.gimli_units_lists.specs.Lists.{ReadsEntry, LeavesBytes};
ghost use Rattle.gimli_units_lists.specs.ListEntryViews.{raw_location, location};

use crate::entry_list::{EntryList, next_answer};
use crate::location_entry::{Parts, RawLocListEntry, parts_of};
use crate::raw_locations::RawLocListIter;
use crate::resolver::Resolver;
use gimli_core_readers::{Error, Expression, Range, Reader};
use std::marker::Model;

/// The addresses at which an object is where its expression says (DWARF 5, 2.6.2).
#[derive(Debug, Drop)]
pub struct LocationListEntry<R: Reader> {
    pub range: Range,
    pub expression: Expression<R>,
}

/// The locations of a list, from one of its entries on.
#[derive(Debug, Drop)]
pub struct LocListIter<R: Reader> {
    raw: RawLocListIter<R>,
    resolver: Resolver<R>,
}

impl<R: Reader> Model for LocListIter<R> {
    ghost use Rattle.gimli_units_lists.specs.ListSections.{RemainingLocations};

    ghost Value = { RemainingLocations };

    ghost view = { λ r. record { raw = r.raw; against = r.resolver } };
}

impl<R: Reader> LocListIter<R> {
    pub(crate) fn new(raw: RawLocListIter<R>, resolver: Resolver<R>) -> Self
        ensures { result ≡ record { raw = raw; against = resolver } }
    {
        LocListIter { raw, resolver }
    }

    /// The next location, none at the list's end. An entry whose index has no address is refused in
    /// its place, and the list goes on after it; after an entry that can't be read there are no
    /// more. Takes memory only where a part of the reader does; where there is none, all that was
    /// to come is still to come.
    pub fn next(&mut self) -> Result<Option<LocationListEntry<R>>, Error>
        ensures next { ReturnsNextOrNoMemory (location R.view) result
            (locations_to_come R.Offset.limit self.old)
            (locations_to_come R.Offset.limit self.new) }
        // The entries up to the one that stands for the answer are taken.
        ensures progress { TakesLocation (location R.view) R.Offset.limit result self.old self.new }
        ensures rest { LeavesBytes
            (location_entry R.Offset.limit self.old.raw.encoding self.old.raw.by_kind) result
            self.old.raw.rest self.new.raw.rest }
        ensures valid { IfOk result
            (λ found. IfSome found
            (λ l. IsValidRange self.old.against.setting.address_size l.range)) }
        ensures encoding { self.new.raw.encoding ≡ self.old.raw.encoding }
        ensures by_kind { self.new.raw.by_kind ≡ self.old.raw.by_kind }
        ensures setting { self.new.against.setting ≡ self.old.against.setting }
        ensures free { IsTrue R.copies_freely → result ≢ Err Memory }
    {
        next_answer(self)
    }

    /// The next entry, not converted; it sets no base.
    pub fn next_raw(&mut self) -> Result<Option<RawLocListEntry<R>>, Error>
        ensures next { ReturnsNextOrNoMemory (raw_location R.view R.Offset.count) result
            (raw_locations_to_come R.Offset.limit self.old.raw)
            (raw_locations_to_come R.Offset.limit self.new.raw) }
        ensures rest { ReadsEntry (raw_location R.view R.Offset.count)
            (location_entry R.Offset.limit self.old.raw.encoding self.old.raw.by_kind) result
            self.old.raw.rest self.new.raw.rest }
        ensures encoding { self.new.raw.encoding ≡ self.old.raw.encoding }
        ensures by_kind { self.new.raw.by_kind ≡ self.old.raw.by_kind }
        ensures against { self.new.against ≡ self.old.against }
        ensures free { IsTrue R.copies_freely → result ≢ Err Memory }
    {
        self.raw.next()
    }

    /// The location of an entry, none for a base and an invalid range. An entry that isn't refused
    /// sets its base.
    pub fn convert_raw(
        &mut self,
        entry: RawLocListEntry<R>,
    ) -> Result<Option<LocationListEntry<R>>, Error>
        ensures value { ReturnsAs (option_map (location R.view)) result
            (location_of self.old.against.setting self.old.against.base
            (raw_location R.view R.Offset.count entry)) }
        ensures base { self.new.against.base
            ≡ unwrap_or
            (location_base_in self.old.against.setting (raw_location R.view R.Offset.count entry))
            self.old.against.base }
        ensures setting { self.new.against.setting ≡ self.old.against.setting }
        ensures raw { self.new.raw ≡ self.old.raw }
        ensures valid { IfOk result
            (λ found. IfSome found
            (λ l. IsValidRange self.old.against.setting.address_size l.range)) }
        ensures free { result ≢ Err Memory }
    {
        match parts_of(entry) {
            Parts::Base(base) => {
                self.resolver.range(base)?;
                Ok(None)
            }
            Parts::Bounded(entry, expression) => match self.resolver.range(entry)? {
                Some(range) => Ok(Some(LocationListEntry { range, expression })),
                None => Ok(None),
            },
            Parts::Default(expression) => {
                let range = self.resolver.everywhere();
                Ok(Some(LocationListEntry { range, expression }))
            }
        }
    }
}

impl<R: Reader> EntryList for LocListIter<R> {
    ghost use Rattle.std.specs.Prelude.{Bool, IsTrue};
    ghost use Rattle.gimli_core_readers.specs.Encoding.{Encoding};
    ghost use Rattle.gimli_units_lists.specs.ListEntryViews.{raw_location, location};
    ghost use Rattle.gimli_units_lists.specs.ListSections.{location_list};
    ghost use Rattle.gimli_units_lists.specs.LocationEntries.{RawLocation, Location, location_lists};

    type Entry = RawLocListEntry<R>;

    type Answer = LocationListEntry<R>;

    ghost How = { Encoding × Bool };

    ghost Raw = { RawLocation };

    ghost Found = { Location };

    ghost see_entry = { raw_location R.view R.Offset.count };

    ghost see = { location R.view };

    ghost kind = { location_lists };

    ghost limit = { R.Offset.limit };

    ghost remaining = { location_list };

    ghost range_in = { λ l. l.range };

    ghost reads_freely = { IsTrue R.copies_freely };

    fn take_entry(&mut self) -> Result<Option<RawLocListEntry<R>>, Error> {
        self.next_raw()
    }

    fn resolve(
        &mut self,
        entry: RawLocListEntry<R>,
    ) -> Result<Option<LocationListEntry<R>>, Error> {
        self.convert_raw(entry)
    }
}
