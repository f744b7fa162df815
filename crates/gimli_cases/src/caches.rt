//! Caches of abbreviation tables (DWARF 5, 7.5.3).

use crate::answer::Answer;
use crate::case::Case;
use crate::sections::{self, Sections};
use gimli_core::{
    AbbreviationsCache, AbbreviationsCacheStrategy, DebugAbbrev, DebugAbbrevOffset, Error, Reader,
    ReaderOffset,
};
use std::alloc::Global;

/// Answers a question about a cache of tables of the first section. The second section has the
/// offsets of units' tables, a byte each; 255 is that of a unit without a header. The cache is
/// asked for the table of each unit with the third section: an empty one shows what is cached.
pub fn answer<R: Reader>(alloc: Global, case: &Case, sections: Sections<R>, out: &mut Answer) {
    let section = DebugAbbrev::from(sections.first);
    let units = case.section(1);
    let mut cache = AbbreviationsCache::new(alloc);
    let all = AbbreviationsCacheStrategy::All;
    let duplicates = AbbreviationsCacheStrategy::Duplicates;
    let outcome = match case.operation.as_str() {
        "cache_of_all" => populate(alloc, &mut cache, all, &section, units),
        "cache_of_duplicates" => populate(alloc, &mut cache, duplicates, &section, units),
        _ => set_first(alloc, case, &mut cache, &section),
    };
    match outcome {
        Ok(()) => tables(
            alloc,
            &cache,
            &DebugAbbrev::from(sections.third),
            units,
            out,
        ),
        Err(error) => out.refuse(error),
    }
}

fn populate<R: Reader>(
    alloc: Global,
    cache: &mut AbbreviationsCache,
    strategy: AbbreviationsCacheStrategy,
    section: &DebugAbbrev<R>,
    units: &[u8],
) -> Result<(), Error> {
    let offsets = units.iter().map(|unit| offset_of::<R::Offset>(*unit));
    cache.populate(alloc, strategy, section, offsets)
}

// Puts the section's first table at the offset.
fn set_first<R: Reader>(
    alloc: Global,
    case: &Case,
    cache: &mut AbbreviationsCache,
    section: &DebugAbbrev<R>,
) -> Result<(), Error> {
    let start = DebugAbbrevOffset(R::Offset::from_u8(0));
    match (cache.get(alloc, section, start), case.offset::<R::Offset>()) {
        (Ok(first), Ok(offset)) => cache.set(DebugAbbrevOffset(offset), first),
        (Err(error), _) => Err(error),
        (_, Err(error)) => Err(error),
    }
}

// The offset of a unit's table.
fn offset_of<O: ReaderOffset>(unit: u8) -> Result<DebugAbbrevOffset<O>, Error> {
    if unit == 255 {
        Err(Error::MissingUnitDie)
    } else {
        Ok(DebugAbbrevOffset(O::from_u8(unit)))
    }
}

// The tables of the units.
fn tables<R: Reader>(
    alloc: Global,
    cache: &AbbreviationsCache,
    asked: &DebugAbbrev<R>,
    units: &[u8],
    out: &mut Answer,
) {
    for unit in units {
        out.text("[");
        out.value(unit);
        out.text(" ");
        let table = match offset_of::<R::Offset>(*unit) {
            Ok(offset) => cache.get(alloc, asked, offset),
            Err(error) => Err(error),
        };
        match table {
            Ok(table) => sections::declarations(&table, out),
            Err(error) => out.refuse(error),
        }
        out.text("]");
    }
}
