//! A cache of tables by their offsets, since units share them.

ghost use Rattle.std.specs.Prelude.{◌≡◌, ◌≢◌, ℕ, ◌==◌, nat_le, List, map, count_by, Option, option_map, unwrap_or, Result, OnOk, IfOk, IfErr, if◌then◌else◌};
ghost use Rattle.std.specs.List.{list_any};
ghost use Rattle.std.specs.Iterator.{IsFinite, YieldsThen};
ghost use Rattle.std.specs.Ordering.{nat_cmp};
ghost use Rattle.std.specs.BTreeMap.{get, is_at};
ghost use Rattle.std.specs.FinMap as finite_map;
ghost use Rattle.gimli_core_readers.specs.Calls.{ReturnsOrNoMemory, ReturnsAsOrNoMemory};
ghost use Rattle.gimli_core_readers.specs.Error.{Error};
ghost use Rattle.gimli_core_readers.specs.Error.TheVariants.{Memory};
ghost use Rattle.gimli_core_readers.specs.DebugAbbrevOffset.{DebugAbbrevOffset};
ghost use Rattle.gimli_core_abbrev.specs.TableCache.{table_view, AreTablesOf, chosen_offsets, chosen_tables, EndsOffsets};
ghost use Rattle.gimli_core_abbrev.specs.TableChecks.{find_declaration};
ghost use Rattle.gimli_core_abbrev.specs.CheckedTables.{AreDeclarationsOf, HasRepeated, HasAll, ChecksOthers};
ghost use Rattle.gimli_core_abbrev.specs.TableParsing.{table_at};

use crate::checked::CheckedTables;
use crate::owned::OwnedAbbreviation;
use crate::section::DebugAbbrev;
use crate::table::Abbreviations;
use crate::tails::{find_apart, next_table};
use gimli_core_readers::{DebugAbbrevOffset, Error, Reader, ReaderOffset, Section};
use std::alloc::Global;
use std::collections::{BTreeMap, BTreeSet};
use std::marker::Model;
use std::rc::Rc;

/// Which tables a cache reads at once.
#[derive(Clone, Copy, Debug, PartialEq, Eq)]
pub enum AbbreviationsCacheStrategy {
    /// Those that at least two units share.
    Duplicates,
    /// Those of all units.
    All,
}

// A table, or why it can't be read.
type CachedTable = Result<Rc<Abbreviations>, Error>;

/// The tables at some offsets of a section, or why they can't be read, which contracts see as a
/// finite map. Out of memory is never cached.
#[derive(Debug)]
pub struct AbbreviationsCache {
    tables: BTreeMap<u64, CachedTable>,
}

impl Drop for AbbreviationsCache {
    fn drop(self) {
        let AbbreviationsCache { tables: _ } = self;
    }
}

impl Model for AbbreviationsCache {
    ghost use Rattle.std.specs.Prelude.{map};
    ghost use Rattle.std.specs.FinMap.{from_entries};
    ghost use Rattle.gimli_core_abbrev.specs.TableCache.{TablesByOffset, tables_coding, cached_view};

    ghost Value = { TablesByOffset };

    ghost coded = { tables_coding };

    ghost view = { λ c. from_entries (map cached_view c.tables.entries) };
}

impl AbbreviationsCache {
    /// An empty cache.
    pub fn new(alloc: Global) -> Self
        ensures empty { result ≡ finite_map.empty }
        ensures none { (offset : ℕ) → finite_map.get result offset ≡ None }
    {
        AbbreviationsCache {
            tables: BTreeMap::new(alloc),
        }
    }

    /// Reads the tables of a section at these offsets, in place of those before. A fault among the
    /// offsets ends them. Out of memory, nothing changes. Tables that begin at the declarations of
    /// one list are tails of it and share them: all of them take the list's memory, and time for
    /// reading it twice and for sorting the offsets. Those that are refused are read one by one.
    pub fn populate<R, I>(
        &mut self,
        alloc: Global,
        strategy: AbbreviationsCacheStrategy,
        section: &DebugAbbrev<R>,
        offsets: I,
    ) -> Result<(), Error>
    where
        R: Reader,
        I: Iterator<Item = Result<DebugAbbrevOffset<R::Offset>, Error>> + Drop,
        requires can { I.can_next offsets }
        requires ends { IsFinite (I.remaining offsets) }
        ensures ok { OnOk result ((items : List (DebugAbbrevOffset R.Offset))
            × (last : Option (Result (DebugAbbrevOffset R.Offset) Error)) × (rest : I)
            × YieldsThen I.next_gives offsets (map (λ o. Ok o) items) last rest
            × EndsOffsets last
            × (self.new ≡ chosen_tables strategy (map (λ o. R.Offset.count o.0) items)
            section.now)) }
        ensures own { OnOk result (AreTablesOf section.now self.new) }
        ensures err { IfErr result (λ e. (e ≡ Memory) × (self.new ≡ self.old)) }
    {
        let offsets = offsets_of(alloc, offsets)?;
        let chosen = ascending(chosen_of(alloc, strategy, offsets)?);
        let tables = tables_of(alloc, section, &chosen)?;
        self.tables = tables;
        Ok(())
    }

    /// Reads or checks the tables of a section at these offsets, each of which comes with a code,
    /// in place of those before. Kept are the tables of offsets that occur twice or more, and those
    /// that overlap with another one: that begin at a declaration of one that was kept, or end
    /// after the next offset. They share their declarations as by [`populate`](Self::populate). Any
    /// other table is skipped once, which takes no memory, and only its declaration of the code is
    /// kept, in what is returned. This is so where the codes are 1, 2, .. in order, as in nearly
    /// all tables; the others are kept, and so are those that haven't the code, and the refusals of
    /// those that can't be read.
    ///
    /// A fault among the offsets ends them. The only refusal is out of memory, and then nothing
    /// changes. Takes at most twice the memory of `populate` for lists, and three times its time.
    pub fn populate_shared<R, I>(
        &mut self,
        alloc: Global,
        section: &DebugAbbrev<R>,
        roots: I,
    ) -> Result<CheckedTables, Error>
    where
        R: Reader,
        I: Iterator<Item = Result<(DebugAbbrevOffset<R::Offset>, u64), Error>> + Drop,
        requires can { I.can_next roots }
        requires ends { IsFinite (I.remaining roots) }
        ensures shared { IfOk result (λ checked. (items : List (DebugAbbrevOffset R.Offset × ℕ))
            × (last : Option (Result (DebugAbbrevOffset R.Offset × ℕ) Error)) × (rest : I)
            × YieldsThen I.next_gives roots (map (λ o. Ok o) items) last rest
            × EndsOffsets last
            × HasRepeated (map (λ o. R.Offset.count o.0.0) items) self.new
            × HasAll (map (λ o. R.Offset.count o.0.0) items) self.new checked) }
        ensures own { OnOk result (AreTablesOf section.now self.new) }
        ensures declarations { IfOk result (AreDeclarationsOf section.now) }
        ensures err { IfErr result (λ e. (e ≡ Memory) × (self.new ≡ self.old)) }
    {
        let roots = ascending_roots(offsets_of(alloc, roots)?);
        let offsets = offsets_in(alloc, &roots)?;
        let repeated = repeated_of(alloc, &offsets)?;
        let mut tables = tables_of(alloc, section, &repeated)?;
        let kept = check_others(alloc, section, &roots, &mut tables)?;
        self.tables = tables;
        Ok(CheckedTables { kept })
    }

    /// Puts a table at an offset, in place of the one before.
    pub fn set<O: ReaderOffset>(
        &mut self,
        offset: DebugAbbrevOffset<O>,
        abbreviations: Rc<Abbreviations>,
    ) -> Result<(), Error>
        ensures ok { OnOk result (self.new
            ≡ finite_map.insert self.old (O.count offset.0) (Ok abbreviations.value)) }
        ensures err { IfErr result (λ e. (e ≡ Memory) × (self.new ≡ self.old)) }
    {
        put_table(&mut self.tables, offset.0.into_u64(), Ok(abbreviations))
    }

    /// The cached table of an offset, else the section's table there. What is cached is shared; a
    /// cached fault takes no memory.
    pub fn get<R: Reader>(
        &self,
        alloc: Global,
        section: &DebugAbbrev<R>,
        offset: DebugAbbrevOffset<R::Offset>,
    ) -> Result<Rc<Abbreviations>, Error>
        ensures value { ReturnsAsOrNoMemory (λ t. t.value) result
            (unwrap_or (finite_map.get self.now (R.Offset.count offset.0))
            (table_at (R.Offset.count offset.0) section.now)) }
        // A fault that is cached is answered without reading the section again.
        ensures free { (e : Error)
            → finite_map.get self.now (R.Offset.count offset.0) ≡ Some (Err e)
            → result ≡ Err e }
    {
        match self.cached_table(offset.0.into_u64()) {
            Some(table) => copy_of(table),
            None => Ok(Rc::new(alloc, section.abbreviations(alloc, offset)?)?),
        }
    }

    /// The declaration of one code in the cached table of an offset, else in the section's table
    /// there, which is checked on the way, and not kept: refused exactly where [`get`](Self::get)
    /// is, and read as by [`DebugAbbrev::find_abbreviation`].
    pub fn find_abbreviation<R: Reader>(
        &self,
        alloc: Global,
        section: &DebugAbbrev<R>,
        offset: DebugAbbrevOffset<R::Offset>,
        code: u64,
    ) -> Result<Option<OwnedAbbreviation>, Error>
        ensures { ReturnsOrNoMemory result (find_declaration code
            (unwrap_or (finite_map.get self.now (R.Offset.count offset.0))
            (table_at (R.Offset.count offset.0) section.now))) }
    {
        let place = offset.0.into_u64();
        match self.cached_table(place) {
            Some(table) => find_in(alloc, table, code),
            None => section.find_abbreviation(alloc, offset, code),
        }
    }

    // What is cached at an offset.
    fn cached_table(&self, offset: u64) -> Option<&CachedTable>
        ensures { option_map (λ table. table_view table.now) result
            ≡ finite_map.get self.now offset }
    {
        self.tables.get(&offset)
    }
}

// A cached table once more, or the fault that is cached in its place.
fn copy_of(table: &CachedTable) -> Result<Rc<Abbreviations>, Error>
    ensures value { ReturnsAsOrNoMemory (λ t. t.value) result (table_view table.now) }
    ensures free { (e : Error) → table_view table.now ≡ Err e → result ≡ Err e }
{
    match table {
        Ok(abbreviations) => Ok(abbreviations.clone()?),
        Err(error) => Err(*error),
    }
}

// A copy of the declaration of a code in a cached table, or the fault that is cached in its place.
fn find_in(
    alloc: Global,
    table: &CachedTable,
    code: u64,
) -> Result<Option<OwnedAbbreviation>, Error>
    ensures { ReturnsOrNoMemory result (find_declaration code (table_view table.now)) }
{
    match table {
        Ok(abbreviations) => abbreviations.get_owned(alloc, code),
        Err(fault) => Err(*fault),
    }
}

// The offsets, or what comes with them, up to the end, or to a fault other than of memory.
fn offsets_of<T: Drop, I>(alloc: Global, offsets: I) -> Result<Vec<T>, Error>
where
    I: Iterator<Item = Result<T, Error>> + Drop,
    requires can { I.can_next offsets }
    requires ends { IsFinite (I.remaining offsets) }
    ensures ok { IfOk result (λ list. (last : Option (Result T Error))
        × (rest : I)
        × YieldsThen I.next_gives offsets (map (λ o. Ok o) list.items) last rest
        × EndsOffsets last) }
    ensures err { IfErr result (λ e. e ≡ Memory) }
{
    let mut found = Vec::new(alloc);
    for offset in offsets {
        match offset {
            Ok(offset) => found.push(offset)?,
            Err(fault) => {
                fault_of_offsets(fault)?;
                return Ok(found);
            }
        }
    }
    Ok(found)
}

// Out of memory is returned; any other fault only ends the offsets.
fn fault_of_offsets(fault: Error) -> Result<(), Error>
    ensures ok { OnOk result (fault ≢ Memory) }
    ensures err { IfErr result (λ e. e ≡ Memory) }
{
    match fault {
        Error::Memory => Err(Error::Memory),
        _ => Ok(()),
    }
}

// The offsets that come with codes.
fn offsets_in<O: ReaderOffset>(
    alloc: Global,
    roots: &[(DebugAbbrevOffset<O>, u64)],
) -> Result<Vec<DebugAbbrevOffset<O>>, Error>
    ensures ok { IfOk result (λ offsets. offsets.items ≡ map (λ root. root.0) roots.now) }
    ensures err { IfErr result (λ e. e ≡ Memory) }
{
    let mut offsets = Vec::with_capacity(alloc, roots.len())?;
    for root in roots {
        offsets.push(root.0)?;
    }
    Ok(offsets)
}

// The offsets that a strategy asks for.
fn chosen_of<O: ReaderOffset>(
    alloc: Global,
    strategy: AbbreviationsCacheStrategy,
    offsets: Vec<DebugAbbrevOffset<O>>,
) -> Result<Vec<DebugAbbrevOffset<O>>, Error>
    ensures ok { IfOk result (λ list. (offset : ℕ) → list_any (λ o. o == offset)
        (map (λ o. O.count o.0) list.items)
        ≡ list_any (λ o. o == offset)
        (chosen_offsets strategy (map (λ o. O.count o.0) offsets.items))) }
    ensures err { IfErr result (λ e. e ≡ Memory) }
{
    match strategy {
        AbbreviationsCacheStrategy::Duplicates => repeated_of(alloc, &offsets),
        AbbreviationsCacheStrategy::All => Ok(offsets),
    }
}

// The offsets that occur twice or more.
fn repeated_of<O: ReaderOffset>(
    alloc: Global,
    offsets: &[DebugAbbrevOffset<O>],
) -> Result<Vec<DebugAbbrevOffset<O>>, Error>
    ensures ok { IfOk result (λ list. (offset : ℕ) → list_any (λ o. o == offset)
        (map (λ o. O.count o.0) list.items)
        ≡ nat_le 2 (count_by (λ o. o == offset) (map (λ o. O.count o.0) offsets.now))) }
    ensures err { IfErr result (λ e. e ≡ Memory) }
{
    let mut distinct = BTreeSet::new(alloc);
    let mut repeated = Vec::new(alloc);
    for offset in offsets {
        if distinct.insert(offset.0.into_u64())? {
            continue;
        }
        repeated.push(*offset)?;
    }
    Ok(repeated)
}

// The same offsets, in ascending order.
fn ascending<O: ReaderOffset>(offsets: Vec<DebugAbbrevOffset<O>>) -> Vec<DebugAbbrevOffset<O>>
    ensures { (offset : ℕ) → list_any (λ o. o == offset) (map (λ o. O.count o.0) result.items)
        ≡ list_any (λ o. o == offset) (map (λ o. O.count o.0) offsets.items) }
{
    let mut offsets = offsets;
    offsets.sort_unstable_by_key(|offset| offset.0.into_u64());
    offsets
}

// The same offsets with their codes, in ascending order.
fn ascending_roots<O: ReaderOffset>(
    roots: Vec<(DebugAbbrevOffset<O>, u64)>,
) -> Vec<(DebugAbbrevOffset<O>, u64)>
    ensures among { (offset : ℕ)
        → list_any (λ o. o == offset) (map (λ o. O.count o.0.0) result.items)
        ≡ list_any (λ o. o == offset) (map (λ o. O.count o.0.0) roots.items) }
    ensures times { (offset : ℕ)
        → count_by (λ o. o == offset) (map (λ o. O.count o.0.0) result.items)
        ≡ count_by (λ o. o == offset) (map (λ o. O.count o.0.0) roots.items) }
{
    let mut roots = roots;
    roots.sort_unstable_by_key(|root| root.0.0.into_u64());
    roots
}

// The tables at these offsets. Where they ascend, a table that is a tail of another one shares its
// declarations.
fn tables_of<R: Reader>(
    alloc: Global,
    section: &DebugAbbrev<R>,
    offsets: &[DebugAbbrevOffset<R::Offset>],
) -> Result<BTreeMap<u64, CachedTable>, Error>
    ensures ok { IfOk result (λ tables. (offset : ℕ) → option_map table_view
        (get nat_cmp tables offset)
        ≡ (if list_any (λ o. o == offset) (map (λ o. R.Offset.count o.0) offsets.now)
        then Some (table_at offset section.now) else None)) }
    ensures err { IfErr result (λ e. e ≡ Memory) }
{
    let mut tables = BTreeMap::new(alloc);
    let mut last = None;
    for offset in offsets {
        let place = offset.0.into_u64();
        if tables.contains_key(&place) {
            continue;
        }
        let table = next_table(alloc, section, *offset, &mut last)?;
        put_table(&mut tables, place, table)?;
    }
    Ok(tables)
}

// Checks the tables at these offsets that aren't there, and gives of each the declaration of the
// offset's code. Where the offsets ascend, a table that may overlap with the next one is added to
// those that are there, as well as one that can't be read, one whose codes aren't 1, 2, .. in order
// and one that hasn't the code.
fn check_others<R: Reader>(
    alloc: Global,
    section: &DebugAbbrev<R>,
    roots: &[(DebugAbbrevOffset<R::Offset>, u64)],
    tables: &mut BTreeMap<u64, CachedTable>,
) -> Result<BTreeMap<u64, OwnedAbbreviation>, Error>
    ensures ok { IfOk result (λ kept. ChecksOthers section.now
        (map (λ o. R.Offset.count o.0.0) roots.now) (get nat_cmp tables.old)
        (get nat_cmp tables.new) (get nat_cmp kept)) }
    ensures err { IfErr result (λ e. e ≡ Memory) }
{
    let mut kept = BTreeMap::new(alloc);
    let mut last = None;
    for index in 0..roots.len() {
        let (offset, code) = roots[index];
        let place = offset.0.into_u64();
        if tables.contains_key(&place) {
            continue;
        }
        let left = left_from(section, roots.get(index + 1));
        if let Some(found) = find_apart(alloc, section, offset, code, left, &mut last)? {
            kept.insert(place, found)?;
            continue;
        }
        let table = next_table(alloc, section, offset, &mut last)?;
        put_table(tables, place, table)?;
    }
    Ok(kept)
}

// How many bytes a section has from an offset on: none without one.
fn left_from<R: Reader>(
    section: &DebugAbbrev<R>,
    root: Option<&(DebugAbbrevOffset<R::Offset>, u64)>,
) -> u64 {
    match root {
        Some(root) => {
            let total = section.reader().as_bytes().len() as u64;
            total.saturating_sub(root.0.0.into_u64())
        }
        None => 0,
    }
}

// Puts a table at an offset, in place of the one before.
fn put_table(
    tables: &mut BTreeMap<u64, CachedTable>,
    place: u64,
    table: CachedTable,
) -> Result<(), Error>
    ensures ok { OnOk result ((offset : ℕ) → get nat_cmp tables.new offset
        ≡ (if is_at (nat_cmp place) offset then Some table else get nat_cmp tables.old offset)) }
    ensures err { IfErr result (λ e. (e ≡ Memory)
        × (tables.new.entries ≡ tables.old.entries)) }
{
    tables.insert(place, table)?;
    Ok(())
}
