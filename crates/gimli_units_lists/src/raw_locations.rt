ghost use Rattle.std.specs.Prelude.{◌≡◌, ◌≢◌, IsTrue, Err};
ghost use Rattle.gimli_core_readers.specs.Error.TheVariants.{Memory};
ghost use Rattle.gimli_core_readers.specs.Iterators.{ReturnsNextOrNoMemory};
ghost use Rattle.gimli_units_lists.specs.LocationEntries.{location_entry, raw_locations_to_come};
ghost use Rattle.gimli_units_lists.specs.Lists.{ReadsEntry};
ghost use Rattle.gimli_units_lists.specs.ListEntryViews.{raw_location};

use crate::entry_list::next_entry;
use crate::location_entry::RawLocListEntry;
use gimli_core_readers::{Encoding, Error, Reader};
use std::marker::Model;

/// The entries of a location list, from one of them on.
#[derive(Debug, Drop)]
pub struct RawLocListIter<R: Reader> {
    // The bytes from the next entry on.
    input: R,
    encoding: Encoding,
    // The entries begin with their kind.
    by_kind: bool,
}

impl<R: Reader> Model for RawLocListIter<R> {
    ghost use Rattle.gimli_units_lists.specs.LocationEntries.{RemainingRawLocations};

    ghost Value = { RemainingRawLocations };

    ghost view = { λ r. record {
      encoding = r.encoding;
      by_kind = r.by_kind;
      rest = R.view r.input;
    } };
}

impl<R: Reader> RawLocListIter<R> {
    pub(crate) fn new(input: R, encoding: Encoding, by_kind: bool) -> Self
        ensures { result ≡ record { encoding = encoding; by_kind = by_kind; rest = R.view input } }
    {
        RawLocListIter {
            input,
            encoding,
            by_kind,
        }
    }

    /// The next entry, none at the list's end. After an entry that can't be read there are no more.
    /// Takes memory only where a part of the reader does, and changes nothing when out of memory.
    pub fn next(&mut self) -> Result<Option<RawLocListEntry<R>>, Error>
        ensures next { ReturnsNextOrNoMemory (raw_location R.view R.Offset.count) result
            (raw_locations_to_come R.Offset.limit self.old)
            (raw_locations_to_come R.Offset.limit self.new) }
        ensures rest { ReadsEntry (raw_location R.view R.Offset.count)
            (location_entry R.Offset.limit self.old.encoding self.old.by_kind) result self.old.rest
            self.new.rest }
        ensures encoding { self.new.encoding ≡ self.old.encoding }
        ensures by_kind { self.new.by_kind ≡ self.old.by_kind }
        ensures free { IsTrue R.copies_freely → result ≢ Err Memory }
    {
        next_entry(&mut self.input, (self.encoding, self.by_kind))
    }
}
