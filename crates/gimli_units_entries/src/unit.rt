//! The entries of a unit, by its header.

ghost use Rattle.std.specs.Prelude.{◌≢◌, Err, IsTrue, option_map};
ghost use Rattle.gimli_core_base.specs.Calls.{Returns, ReturnsAsOrNoMemory, ReturnsOrNoMemory};
ghost use Rattle.gimli_core_base.specs.NumberParsers.{unsigned};
ghost use Rattle.gimli_core_base.specs.Parsers.{value_of};
ghost use Rattle.gimli_core_base.specs.declared.error.Error.TheVariants.{Memory};
ghost use Rattle.gimli_units_forms.specs.TableParsing.{table_at};
ghost use Rattle.gimli_units_headers.specs.UnitHeaders.{DebugUnit};
ghost use Rattle.gimli_units_entries.specs.EntryRows.{entry_at};
ghost use Rattle.gimli_units_entries.specs.EntryViews.{entry_of};
ghost use Rattle.gimli_units_entries.specs.UnitEntries.{walk_from};

use crate::codes::code_at;
use crate::entry::DebuggingInformationEntry;
use crate::raw::EntriesRaw;
use gimli_core_base::ReaderOffset;
use gimli_core_base::error::Error;
use gimli_units_forms::{Abbreviations, DebugAbbrev};
use gimli_units_headers::{Reader, UnitHeader, UnitOffset};
use std::alloc::Global;

/// The entries of a unit.
pub trait UnitEntries<R: Reader> {
    /// The unit.
    ghost unit: { Self → DebugUnit };

    /// The declarations of the unit's entries.
    fn abbreviations(
        &self,
        alloc: Global,
        debug_abbrev: &DebugAbbrev<R>,
    ) -> Result<Abbreviations, Error>
        ensures { ReturnsOrNoMemory result
            (table_at (unit self.now).abbrev_offset debug_abbrev.now) };

    /// The entry at an offset, which must be among the unit's entries. It can't be a null entry.
    fn entry(
        &self,
        alloc: Global,
        abbreviations: &Abbreviations,
        offset: UnitOffset<R::Offset>,
    ) -> Result<DebuggingInformationEntry<R>, Error>
        ensures { ReturnsAsOrNoMemory (entry_of R.view R.Offset.count) result
            (entry_at R.Offset.limit (unit self.now) abbreviations.now (R.Offset.count offset.0)) };
}

impl<R: Reader> UnitEntries<R> for UnitHeader<R> {
    ghost unit = { λ u. u };

    fn abbreviations(
        &self,
        alloc: Global,
        debug_abbrev: &DebugAbbrev<R>,
    ) -> Result<Abbreviations, Error> {
        debug_abbrev.abbreviations(alloc, self.debug_abbrev_offset())
    }

    #[tactic(auto, unfolding(crate::specs::EntryRows::entry_at))]
    fn entry(
        &self,
        alloc: Global,
        abbreviations: &Abbreviations,
        offset: UnitOffset<R::Offset>,
    ) -> Result<DebuggingInformationEntry<R>, Error>
        ensures { ReturnsAsOrNoMemory (entry_of R.view R.Offset.count) result
            (entry_at R.Offset.limit self.now abbreviations.now (R.Offset.count offset.0)) }
    {
        let mut entries = entries_raw(self, abbreviations, Some(offset))?;
        let mut entry = DebuggingInformationEntry::null(alloc);
        if !entries.read_entry(&mut entry)? {
            return Err(Error::NoEntryAtGivenOffset(offset.0.into_u64()));
        }
        Ok(entry)
    }
}

/// A walk over the entries from an offset on, which must be among the unit's entries, or over all
/// of them. Takes memory only where a copy of the reader does.
pub fn entries_raw<'abbrev, R: Reader>(
    unit: &UnitHeader<R>,
    abbreviations: &'abbrev Abbreviations,
    offset: Option<UnitOffset<R::Offset>>,
) -> Result<EntriesRaw<'abbrev, R>, Error>
    ensures value { ReturnsOrNoMemory result
        (walk_from unit.now abbreviations.now (option_map (λ o. R.Offset.count o.0) offset)) }
    ensures free { IsTrue R.copies_freely → result ≢ Err Memory }
{
    let input = match offset {
        Some(offset) => unit.range_from(offset..)?,
        None => unit.entries_reader().copy()?,
    };
    // The entries have fewer bytes than the unit, and no more than a slice can have.
    let _header = unit.size_of_header();
    let _bytes = input.as_bytes();
    Ok(EntriesRaw {
        input,
        encoding: unit.encoding(),
        abbreviations,
        end_offset: UnitOffset(unit.length_including_self()),
        depth: 0,
    })
}

/// The code of a unit's first entry, by which its declaration is found (DWARF 5, 7.5.2); 0 where
/// that is a null entry. Takes no memory.
pub fn first_code<R: Reader>(unit: &UnitHeader<R>) -> Result<u64, Error>
    ensures { Returns result (value_of (unsigned unit.now.entries)) }
{
    let (code, _length) = code_at(unit.entries_reader())?;
    Ok(code)
}
