ghost use Rattle.std.specs.Prelude.{◌≡◌, ◌≢◌, Err};
ghost use Rattle.gimli_core_readers.specs.Error.TheVariants.{Memory};
ghost use Rattle.gimli_core_readers.specs.Iterators.{ReturnsNext};
ghost use Rattle.gimli_units_lists.specs.RangeEntries.{range_entry, raw_ranges_to_come};
ghost use Rattle.gimli_units_lists.specs.Lists.{ReadsEntry};
ghost use Rattle.gimli_units_lists.specs.ListEntryViews.{raw_entry};

use crate::entry_list::next_entry;
use crate::range_entry::RawRngListEntry;
use gimli_core_readers::{Encoding, Error, Reader};
use std::marker::Model;

/// The entries of a range list, from one of them on.
#[derive(Debug, Drop)]
pub struct RawRngListIter<R: Reader> {
    // The bytes from the next entry on.
    input: R,
    encoding: Encoding,
}

impl<R: Reader> Model for RawRngListIter<R> {
    ghost use Rattle.gimli_units_lists.specs.RangeEntries.{RemainingRawRanges};

    ghost Value = { RemainingRawRanges };

    ghost view = { λ r. record { encoding = r.encoding; rest = R.view r.input } };
}

impl<R: Reader> RawRngListIter<R> {
    pub(crate) fn new(input: R, encoding: Encoding) -> Self
        ensures { result ≡ record { encoding = encoding; rest = R.view input } }
    {
        RawRngListIter { input, encoding }
    }

    /// The next entry, none at the list's end. After an entry that can't be read there are no more.
    /// Takes no memory.
    pub fn next(&mut self) -> Result<Option<RawRngListEntry<R::Offset>>, Error>
        ensures next { ReturnsNext (raw_entry R.Offset.count) result
            (raw_ranges_to_come R.Offset.limit self.old)
            (raw_ranges_to_come R.Offset.limit self.new) }
        ensures rest { ReadsEntry (raw_entry R.Offset.count)
            (range_entry R.Offset.limit self.old.encoding) result self.old.rest self.new.rest }
        ensures encoding { self.new.encoding ≡ self.old.encoding }
        ensures free { result ≢ Err Memory }
    {
        next_entry(&mut self.input, self.encoding)
    }
}
