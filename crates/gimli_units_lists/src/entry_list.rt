//! Lists that are read entry by entry, and what their entries stand for.

ghost use Rattle.std.specs.Prelude.{◌≡◌, ◌≢◌, ℕ, Option, IfOk, IfSome, option_map, unwrap_or, Err};
ghost use Rattle.gimli_core_readers.specs.Calls.{ReturnsAs, ReturnsAsOrNoMemory};
ghost use Rattle.gimli_core_readers.specs.Error.TheVariants.{Memory};
ghost use Rattle.gimli_core_readers.specs.Iterators.{ReturnsNextOrNoMemory};
ghost use Rattle.gimli_core_readers.specs.Parsers.{Parser};
ghost use Rattle.gimli_core_readers.specs.declared.range.Range.{Range};
ghost use Rattle.gimli_units_lists.specs.ListEntries.{IsValidRange};
ghost use Rattle.gimli_units_lists.specs.ListProgress.{TakesEntries};
ghost use Rattle.gimli_units_lists.specs.Lists.{ListKind, RemainingList, TakesBytes, entries_from, entries_of, answers_to_come, ReadsEntry, LeavesBytes};

use gimli_core_readers::{Error, Reader};

// An entry of a list, as its list has it.
pub(crate) trait ListEntry<R: Reader>: Drop {
    // What the reading of an entry depends on.
    type How: Copy;

    // An entry as contracts see it.
    ghost Raw: { Type 0 };

    ghost see: { Self → Raw };

    ghost entry: { Self.How → Parser (Option Raw) };

    // Where this holds, reading takes no memory.
    ghost reads_freely: { Type 0 };

    // The next entry of a list, none at its end. Changes nothing when out of memory.
    fn parse(input: &mut R, how: Self::How) -> Result<Option<Self>, Error>
        ensures value { ReturnsAsOrNoMemory (λ e. (option_map see e, R.view input.new)) result
            (entry how (R.view input.old)) }
        ensures memory { result ≡ Err Memory → R.view input.new ≡ R.view input.old }
        ensures free { reads_freely → result ≢ Err Memory }
        ensures takes { TakesBytes (entry how) };
}

// The next entry of a list, none at its end. After an entry that can't be read there are no more.
pub(crate) fn next_entry<R: Reader, E: ListEntry<R>>(
    input: &mut R,
    how: E::How,
) -> Result<Option<E>, Error>
    ensures next { ReturnsNextOrNoMemory E.see result
        (entries_from (E.entry how) (R.view input.old))
        (entries_from (E.entry how) (R.view input.new)) }
    ensures rest { ReadsEntry E.see (E.entry how) result (R.view input.old) (R.view input.new) }
    ensures free { E.reads_freely → result ≢ Err Memory }
{
    if input.is_empty() {
        return Ok(None);
    }
    match E::parse(input, how) {
        Ok(Some(entry)) => Ok(Some(entry)),
        Ok(None) => {
            input.empty();
            Ok(None)
        }
        Err(Error::Memory) => Err(Error::Memory),
        Err(fault) => {
            input.empty();
            Err(fault)
        }
    }
}

// A list from one of its entries on, and the base before that one.
pub(crate) trait EntryList: Drop {
    type Entry: Drop;

    type Answer: Drop;

    // What the reading of an entry depends on.
    ghost How: { Type 0 };

    // Entries and answers as contracts see them.
    ghost Raw: { Type 0 };

    ghost Found: { Type 0 };

    ghost see_entry: { Self.Entry → Raw };

    ghost see: { Self.Answer → Found };

    ghost kind: { ListKind How Raw Found };

    // The limit of offsets.
    ghost limit: { ℕ };

    ghost remaining: { Self → RemainingList How };

    ghost range_in: { Self.Answer → Range };

    // Where this holds, reading takes no memory.
    ghost reads_freely: { Type 0 };

    // The next entry, not resolved.
    fn take_entry(&mut self) -> Result<Option<Self::Entry>, Error>
        ensures next { ReturnsNextOrNoMemory see_entry result
            (entries_of kind limit (remaining self.old))
            (entries_of kind limit (remaining self.new)) }
        ensures rest { ReadsEntry see_entry (kind.entry limit (remaining self.old).how) result
            (remaining self.old).rest (remaining self.new).rest }
        ensures how { (remaining self.new).how ≡ (remaining self.old).how }
        ensures against { (remaining self.new).against ≡ (remaining self.old).against }
        ensures free { reads_freely → result ≢ Err Memory };

    // What an entry stands for at the base. An entry that isn't refused sets its base.
    fn resolve(&mut self, entry: Self::Entry) -> Result<Option<Self::Answer>, Error>
        ensures value { ReturnsAs (option_map see) result
            (kind.answer_of (remaining self.old).against.setting (remaining self.old).against.base
            (see_entry entry)) }
        ensures base { (remaining self.new).against.base
            ≡ unwrap_or (kind.base_in (remaining self.old).against.setting (see_entry entry))
            (remaining self.old).against.base }
        ensures setting { (remaining self.new).against.setting
            ≡ (remaining self.old).against.setting }
        ensures how { (remaining self.new).how ≡ (remaining self.old).how }
        ensures rest { (remaining self.new).rest ≡ (remaining self.old).rest }
        ensures valid { IfOk result (λ found. IfSome found
            (λ x. IsValidRange (remaining self.old).against.setting.address_size (range_in x))) }
        ensures free { result ≢ Err Memory };
}

// The next answer of a list, none at its end: that of the first entry that stands for one.
pub(crate) fn next_answer<L: EntryList>(list: &mut L) -> Result<Option<L::Answer>, Error>
    ensures next { ReturnsNextOrNoMemory L.see result
        (answers_to_come L.kind L.limit (L.remaining list.old))
        (answers_to_come L.kind L.limit (L.remaining list.new)) }
    ensures progress { TakesEntries L.kind L.see L.limit result (L.remaining list.old)
        (L.remaining list.new) }
    ensures rest { LeavesBytes (L.kind.entry L.limit (L.remaining list.old).how) result
        (L.remaining list.old).rest (L.remaining list.new).rest }
    ensures valid { IfOk result (λ found. IfSome found
        (λ x. IsValidRange (L.remaining list.old).against.setting.address_size (L.range_in x))) }
    ensures how { (L.remaining list.new).how ≡ (L.remaining list.old).how }
    ensures setting { (L.remaining list.new).against.setting
        ≡ (L.remaining list.old).against.setting }
    ensures free { L.reads_freely → result ≢ Err Memory }
{
    while let Some(entry) = list.take_entry()? {
        if let Some(answer) = list.resolve(entry)? {
            return Ok(Some(answer));
        }
    }
    Ok(None)
}
