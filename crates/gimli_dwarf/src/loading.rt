//! All sections of a file, from a function that loads each.

ghost use Rattle.std.specs.Prelude.{◌≡◌, ◌⊎◌, [], ◌∷◌, IfOk, IfErr, OnOk, OnErr, alloc_error};
ghost use Rattle.gimli_dwarf_spec.specs.Error.TheVariants.{Memory};
ghost use Rattle.gimli_dwarf_spec.specs.DwarfFiles.{DwarfFile};
ghost use Rattle.gimli_dwarf_spec.specs.TableCache.{chosen_tables};
ghost use Rattle.gimli_dwarf.specs.CachedFiles.{cached_file, table_offsets, SharesTables};
ghost use Rattle.gimli_dwarf.specs.SectionLoading.{Answers, RefusesOneOf, Loads, RefusesToLoad, with_supplement};

use crate::dwarf::Dwarf;
use crate::root::root_code;
use gimli_dwarf_spec::{
    AbbreviationsCache, AbbreviationsCacheStrategy, CheckedTables, DebugAbbrev, DebugAbbrevOffset,
    DebugInfoUnitHeadersIter, DwarfFileType, Error, LocationLists, RangeLists, Reader, SectionId,
};
use std::alloc::{AllocError, Global};
use std::rc::Rc;

impl<R: Reader> Dwarf<R> {
    /// The sections that a function loads, each asked for once, as those of a main file without a
    /// supplement, with an empty cache; or the function's first refusal. It takes no memory itself.
    pub fn load<F, E>(alloc: Global, mut section: F) -> Result<Self, E>
    where
        F: FnMut(SectionId) -> Result<R, E>,
        requires { F.IsAlwaysCallable section }
        ensures loaded { IfOk result
            (λ dwarf. Loads F.step R.view R.Offset.limit section dwarf.file) }
        ensures cache { IfOk result (λ dwarf. dwarf.cached_offsets ≡ []) }
        ensures refusal { IfErr result (λ e. RefusesToLoad F.step R.view section e) }
    {
        let (debug_abbrev, debug_addr, debug_aranges, debug_info) = load_four(
            &mut section,
            SectionId::DebugAbbrev,
            SectionId::DebugAddr,
            SectionId::DebugAranges,
            SectionId::DebugInfo,
        )?;
        let (debug_line, debug_line_str, debug_loc, debug_loclists) = load_four(
            &mut section,
            SectionId::DebugLine,
            SectionId::DebugLineStr,
            SectionId::DebugLoc,
            SectionId::DebugLocLists,
        )?;
        let (debug_macinfo, debug_macro, debug_names, debug_ranges) = load_four(
            &mut section,
            SectionId::DebugMacinfo,
            SectionId::DebugMacro,
            SectionId::DebugNames,
            SectionId::DebugRanges,
        )?;
        let (debug_rnglists, debug_str, debug_str_offsets, debug_types) = load_four(
            &mut section,
            SectionId::DebugRngLists,
            SectionId::DebugStr,
            SectionId::DebugStrOffsets,
            SectionId::DebugTypes,
        )?;
        Ok(Dwarf {
            debug_abbrev: DebugAbbrev::from(debug_abbrev),
            debug_addr: debug_addr.into(),
            debug_aranges: debug_aranges.into(),
            debug_info: debug_info.into(),
            debug_line: debug_line.into(),
            debug_line_str: debug_line_str.into(),
            debug_macinfo: debug_macinfo.into(),
            debug_macro: debug_macro.into(),
            debug_names: debug_names.into(),
            debug_str: debug_str.into(),
            debug_str_offsets: debug_str_offsets.into(),
            debug_types: debug_types.into(),
            locations: LocationLists::new(debug_loc.into(), debug_loclists.into()),
            ranges: RangeLists::new(debug_ranges.into(), debug_rnglists.into()),
            file_type: DwarfFileType::Main,
            sup: None,
            abbreviations_cache: AbbreviationsCache::new(alloc),
            checked_tables: CheckedTables::new(alloc),
        })
    }

    /// Takes the sections that a function loads, as `load` does, as the supplement's, in place of
    /// those before. It takes memory once, for what shares them; where that is refused the error is
    /// made of an `AllocError`.
    pub fn load_sup<F, E>(&mut self, alloc: Global, section: F) -> Result<(), E>
    where
        F: FnMut(SectionId) -> Result<R, E>,
        E: From<AllocError>,
        requires { F.IsAlwaysCallable section }
        ensures ok { OnOk result ((supplement : DwarfFile)
            × Loads F.step R.view R.Offset.limit section supplement
            × (self.new.file ≡ with_supplement supplement self.old.file)) }
        ensures cache { self.new.cached_offsets ≡ self.old.cached_offsets }
        ensures unchanged { OnErr result (self.new ≡ self.old) }
        ensures refusal { IfErr result (λ e. RefusesToLoad F.step R.view section e
            ⊎ ((supplement : DwarfFile)
            × Loads F.step R.view R.Offset.limit section supplement
            × E.from_gives alloc_error e)) }
    {
        let supplement = Dwarf::load(alloc, section)?;
        match Rc::new(alloc, supplement) {
            Ok(supplement) => {
                self.sup = Some(supplement);
                Ok(())
            }
            Err(_) => Err(E::from(AllocError)),
        }
    }

    /// Caches the abbreviation tables of the file's units that a strategy asks for, in place of
    /// those before. A unit that can't be read ends the units. The only refusal is out of memory.
    pub fn populate_abbreviations_cache(
        &mut self,
        alloc: Global,
        strategy: AbbreviationsCacheStrategy,
    ) -> Result<(), Error>
        ensures ok { OnOk result (self.new ≡ cached_file self.old.file
            (chosen_tables strategy (table_offsets self.old.file)
            self.old.file.sections.debug_abbrev)) }
        ensures unchanged { OnErr result (self.new ≡ self.old) }
        ensures memory { IfErr result (λ e. e ≡ Memory) }
    {
        let offsets = TableOffsets {
            units: Some(self.units()?),
        };
        self.abbreviations_cache
            .populate(alloc, strategy, &self.debug_abbrev, offsets)
    }

    /// Caches the abbreviation tables that at least two of the file's units share, in place of
    /// those before, and those that overlap with another one, up to the first unit that can't be
    /// read. Of any other table it keeps only the declaration of its unit's root, and checks the
    /// rest. The only refusal is out of memory.
    pub fn share_tables(&mut self, alloc: Global) -> Result<(), Error>
        ensures file { OnOk result (self.new.file ≡ self.old.file) }
        ensures shared { OnOk result (SharesTables self.new) }
        ensures unchanged { OnErr result (self.new ≡ self.old) }
        ensures memory { IfErr result (λ e. e ≡ Memory) }
    {
        let units = self.units()?;
        let roots = TableRoots { units: Some(units) };
        let cache = &mut self.abbreviations_cache;
        self.checked_tables = cache.populate_shared(alloc, &self.debug_abbrev, roots)?;
        Ok(())
    }
}

// The readers that a function gives for four sections, each asked for once, in order, or its first
// refusal.
fn load_four<R: Drop, E, F: FnMut(SectionId) -> Result<R, E>>(
    section: &mut F,
    first: SectionId,
    second: SectionId,
    third: SectionId,
    fourth: SectionId,
) -> Result<(R, R, R, R), E>
    requires { F.IsAlwaysCallable section.old }
    ensures callable { F.IsAlwaysCallable section.new }
    ensures answers { IfOk result (λ r. Answers F.step section.old ((first, r.0) ∷ (second, r.1)
        ∷ (third, r.2) ∷ (fourth, r.3) ∷ []) section.new) }
    ensures refusal { IfErr result (λ e. RefusesOneOf F.step
        (first ∷ second ∷ third ∷ fourth ∷ []) section.old e) }
{
    Ok((
        section(first)?,
        section(second)?,
        section(third)?,
        section(fourth)?,
    ))
}

// The offsets of the abbreviation tables of units, in order, up to the first unit that can't be
// read.
#[derive(Drop)]
struct TableOffsets<R: Reader> {
    units: Option<DebugInfoUnitHeadersIter<R>>,
}

impl<R: Reader> Iterator for TableOffsets<R> {
    ghost use Rattle.std.specs.Iterator.{at_most};
    ghost use Rattle.gimli_dwarf.specs.OffsetCalls.{GivesOffset, answers_left};

    type Item = Result<DebugAbbrevOffset<R::Offset>, Error>;

    ghost next_gives = { λ old answer new.
        GivesOffset R.Offset.limit (λ o. R.Offset.count o.0) old.units answer new.units };

    ghost remaining = { λ s. at_most (answers_left R.Offset.limit s.units) };

    fn next(&mut self) -> Option<Self::Item> {
        match self.units.as_mut()?.next() {
            Ok(Some(header)) => Some(Ok(header.debug_abbrev_offset())),
            Ok(None) => None,
            Err(fault) => {
                self.units = None;
                Some(Err(fault))
            }
        }
    }
}

// The same, each with the code of its unit's root.
#[derive(Drop)]
struct TableRoots<R: Reader> {
    units: Option<DebugInfoUnitHeadersIter<R>>,
}

impl<R: Reader> Iterator for TableRoots<R> {
    ghost use Rattle.std.specs.Iterator.{at_most};
    ghost use Rattle.gimli_dwarf.specs.OffsetCalls.{GivesOffset, answers_left};

    type Item = Result<(DebugAbbrevOffset<R::Offset>, u64), Error>;

    ghost next_gives = { λ old answer new.
        GivesOffset R.Offset.limit (λ o. R.Offset.count o.0.0) old.units answer new.units };

    ghost remaining = { λ s. at_most (answers_left R.Offset.limit s.units) };

    fn next(&mut self) -> Option<Self::Item> {
        match self.units.as_mut()?.next() {
            Ok(Some(header)) => Some(Ok((header.debug_abbrev_offset(), root_code(&header)))),
            Ok(None) => None,
            Err(fault) => {
                self.units = None;
                Some(Err(fault))
            }
        }
    }
}
