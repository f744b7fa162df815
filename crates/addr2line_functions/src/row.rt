//! Entries read one after the other, where the attributes of one tag's entries are read.

ghost use Rattle.gimli_units_entries.specs.Calls.{ReturnsAsOrNoMemory};
ghost use Rattle.gimli_units_entries.specs.EntryRows.{row_choosing};
ghost use Rattle.addr2line_functions.specs.EntryRowViews.{is_chosen, row_view};

use gimli_units_entries::{Attribute, DwTag, EntriesRaw, Error, Reader, ReaderOffset, UnitOffset};

/// An entry without its attributes: its offset, how deep it is below the one where the walk began,
/// and what its declaration states. A null entry has the tag 0.
#[derive(Clone, Copy)]
pub struct EntryRow<O: ReaderOffset> {
    pub offset: UnitOffset<O>,
    pub depth: isize,
    pub tag: DwTag,
    pub has_children: bool,
}

/// The next entry. If its tag is the chosen one its attributes replace those of a list; else they
/// are skipped by their widths alone, and the list is empty (DWARF 5, 7.5.3).
#[tactic(auto, unfolding(gimli_units_entries::specs::EntryRows::row_choosing))]
pub fn next_row<R: Reader>(
    entries: &mut EntriesRaw<'_, R>,
    chosen: Option<DwTag>,
    attributes: &mut Vec<Attribute<R>>,
) -> Result<EntryRow<R::Offset>, Error>
    ensures { ReturnsAsOrNoMemory
        (λ row. (row_view R.view R.Offset.count row attributes.new.items, entries.new)) result
        (row_choosing R.Offset.limit (is_chosen chosen) entries.old) }
{
    let offset = entries.next_offset();
    let depth = entries.next_depth();
    attributes.clear();
    let Some(abbreviation) = entries.read_abbreviation()? else {
        return Ok(EntryRow {
            offset,
            depth,
            tag: DwTag(0),
            has_children: false,
        });
    };
    let tag = abbreviation.tag();
    if chosen == Some(tag) {
        entries.read_attributes(abbreviation.attributes(), attributes)?;
    } else {
        entries.skip_entry(&abbreviation)?;
    }
    Ok(EntryRow {
        offset,
        depth,
        tag,
        has_children: abbreviation.has_children(),
    })
}
