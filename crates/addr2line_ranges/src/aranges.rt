//! The ranges in the sets of `.debug_aranges` (DWARF 5, 6.1.2).

ghost use Rattle.std.specs.Prelude.{◌≡◌, ◌++◌, ◌∷◌, [], Ok, OnOk, IfOk, IfErr};
ghost use Rattle.gimli_lines_rows.specs.Repetition.{fault_of};
ghost use Rattle.gimli_lines_rows.specs.Error.TheVariants.{Memory};
ghost use Rattle.gimli_lines_rows.specs.ArangeSets.{sets_to_come};
ghost use Rattle.addr2line_ranges.specs.ArangeIndexes.{arange_at, aranges_from, aranges_of_sets};

use crate::push::push_if_any;
use crate::unit_arange::UnitArange;
use gimli_lines_rows::{
    ArangeEntry, ArangeEntryIter, ArangeHeader, ArangeHeaderIter, Error, Reader, ReaderOffset,
};

// The addresses of an entry of the set of the unit at an offset, unless there are none.
fn arange_at(offset: u64, entry: ArangeEntry) -> Option<UnitArange>
    ensures { result ≡ arange_at offset (Ok entry) }
{
    if entry.length() == 0 {
        None
    } else {
        Some(UnitArange {
            offset,
            range: entry.range(),
        })
    }
}

// Appends the ranges of the entries that are to come, which are those of the unit at an offset; one
// that is refused is skipped.
fn push_entries<R: Reader>(
    aranges: &mut Vec<UnitArange>,
    offset: u64,
    mut entries: ArangeEntryIter<R>,
) -> Result<(), Error>
    ensures ok { OnOk result
        (aranges.new.items ≡ aranges.old.items ++ aranges_from offset entries) }
    ensures refusal { IfErr result (λ e. e ≡ Memory) }
{
    loop {
        match entries.next() {
            Ok(None) => return Ok(()),
            Ok(Some(entry)) => push_if_any(aranges, arange_at(offset, entry))?,
            Err(_) => {}
        }
    }
}

// Appends the ranges of a set.
fn push_set<R: Reader>(aranges: &mut Vec<UnitArange>, set: &ArangeHeader<R>) -> Result<(), Error>
    ensures ok { OnOk result
        (aranges.new.items ≡ aranges.old.items ++ aranges_of_sets (set.now ∷ [])) }
    ensures refusal { IfErr result (λ e. e ≡ Memory) }
{
    let offset = set.debug_info_offset().0.into_u64();
    push_entries(aranges, offset, set.entries()?)
}

// Appends the ranges of the sets that are to come. A set that can't be read ends them, and is the
// answer.
pub(crate) fn push_sets<R: Reader>(
    aranges: &mut Vec<UnitArange>,
    mut sets: ArangeHeaderIter<R>,
) -> Result<Option<Error>, Error>
    ensures ok { OnOk result (aranges.new.items
        ≡ aranges.old.items ++ aranges_of_sets (sets_to_come R.Offset.limit sets).items) }
    ensures fault { IfOk result (λ fault. fault ≡ fault_of (sets_to_come R.Offset.limit sets)) }
    ensures refusal { IfErr result (λ e. e ≡ Memory) }
{
    loop {
        match sets.next() {
            Ok(Some(set)) => push_set(aranges, &set)?,
            Ok(None) => return Ok(None),
            Err(Error::Memory) => return Err(Error::Memory),
            Err(fault) => return Ok(Some(fault)),
        }
    }
}
