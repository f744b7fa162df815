//! All sections of a file.

ghost use Rattle.std.specs.Prelude.{◌≡◌, ◌≢◌, IsTrue, IfOk, OnOk, OnErr, IfErr, IfSome, option_map, Ok, Err};
ghost use Rattle.std.specs.List.{Contains};
ghost use Rattle.gimli_dwarf_spec.specs.Error.{Error};
ghost use Rattle.gimli_dwarf_spec.specs.Calls.{ReturnsAsOrNoMemory, ReturnsOrNoMemory};
ghost use Rattle.gimli_dwarf_spec.specs.Error.TheVariants.{Memory};
ghost use Rattle.gimli_dwarf_spec.specs.SectionReads.{string_at};
ghost use Rattle.gimli_dwarf_spec.specs.TableParsing.{table_at};
ghost use Rattle.gimli_dwarf_spec.specs.Tiling.{whole_section};
ghost use Rattle.gimli_dwarf_spec.specs.Attributes.{supplement_string};
ghost use Rattle.gimli_dwarf_spec.specs.DwarfFiles.{supplement};
ghost use Rattle.gimli_dwarf_spec.specs.Splitting.{split_from};
ghost use Rattle.gimli_dwarf_spec.specs.EntryViews.{entry_of};
ghost use Rattle.gimli_dwarf_spec.specs.Results.{and_then};
ghost use Rattle.gimli_dwarf_spec.specs.UnitFacts.{UnitFacts, unit_facts, root};
ghost use Rattle.gimli_dwarf.specs.BareUnits.{unit_facts_or_bare, root_declarations};

use crate::holders::{DebugMacinfo, DebugMacro, DebugNames, DebugTypes};
use crate::root::root_code;
use crate::unit::Unit;
use gimli_dwarf_spec::{
    Abbreviations, AbbreviationsCache, CheckedTables, DebugAbbrev, DebugAbbrevOffset, DebugAddr,
    DebugAranges, DebugInfo, DebugInfoUnitHeadersIter, DebugLine, DebugLineStr, DebugRanges,
    DebugStr, DebugStrOffset, DebugStrOffsets, DebuggingInformationEntry, DwarfFileType, Error,
    LocationLists, RangeLists, Reader, Section, UnitHeader,
};
use std::alloc::Global;
use std::marker::Model;
use std::rc::Rc;

/// All sections of a file, and those of its supplement, if it has one (DWARF 5, 7.3.6). The cache
/// has tables of this file's own `.debug_abbrev`, or why they can't be read, at some of their
/// offsets. Of tables there that were checked and aren't kept one declaration each is.
pub struct Dwarf<R: Reader> {
    pub debug_abbrev: DebugAbbrev<R>,
    pub debug_addr: DebugAddr<R>,
    pub debug_aranges: DebugAranges<R>,
    pub debug_info: DebugInfo<R>,
    pub debug_line: DebugLine<R>,
    pub debug_line_str: DebugLineStr<R>,
    pub debug_macinfo: DebugMacinfo<R>,
    pub debug_macro: DebugMacro<R>,
    pub debug_names: DebugNames<R>,
    pub debug_str: DebugStr<R>,
    pub debug_str_offsets: DebugStrOffsets<R>,
    pub debug_types: DebugTypes<R>,
    pub locations: LocationLists<R>,
    pub ranges: RangeLists<R>,
    pub file_type: DwarfFileType,
    pub sup: Option<Rc<Dwarf<R>>>,
    pub abbreviations_cache: AbbreviationsCache,
    pub checked_tables: CheckedTables,
}

impl<R: Reader> Drop for Dwarf<R> {
    fn drop(self) {
        let Dwarf {
            debug_abbrev: _,
            debug_addr: _,
            debug_aranges: _,
            debug_info: _,
            debug_line: _,
            debug_line_str: _,
            debug_macinfo: _,
            debug_macro: _,
            debug_names: _,
            debug_str: _,
            debug_str_offsets: _,
            debug_types: _,
            locations: _,
            ranges: _,
            file_type: _,
            sup: _,
            abbreviations_cache: _,
            checked_tables: _,
        } = self;
    }
}

impl<R: Reader> Model for Dwarf<R> {
    ghost use Rattle.std.specs.Prelude.{option_map, length};
    ghost use Rattle.gimli_dwarf_spec.specs.DwarfFiles.{dwarf_file};
    ghost use Rattle.gimli_dwarf_spec.specs.TableCache.{AreTablesOf};
    ghost use Rattle.gimli_dwarf_spec.specs.CheckedTables.{AreDeclarationsOf};
    ghost use Rattle.gimli_dwarf.specs.CachedFiles.{CachedFile, cached_file, SharesLimit};

    ghost Value = { CachedFile };

    ghost view = { λ d. cached_file (dwarf_file R.Offset.limit (record {
      debug_abbrev = d.debug_abbrev;
      debug_addr = d.debug_addr;
      debug_aranges = d.debug_aranges;
      debug_info = d.debug_info;
      debug_line = d.debug_line;
      debug_line_str = d.debug_line_str;
      debug_macinfo = d.debug_macinfo;
      debug_macro = d.debug_macro;
      debug_names = d.debug_names;
      debug_str = d.debug_str;
      debug_str_offsets = d.debug_str_offsets;
      debug_types = d.debug_types;
      locations = d.locations;
      ranges = d.ranges;
      file_type = d.file_type;
    }) (option_map (λ s. s.value.file) d.sup)) d.abbreviations_cache };

    ghost invariant = { λ d. AreTablesOf d.debug_abbrev d.abbreviations_cache
        × AreDeclarationsOf d.debug_abbrev d.checked_tables
        × SharesLimit R.Offset.limit (option_map (λ s. s.value) d.sup) };

    ghost size = { λ s. length s.file.supplements };

    ghost use Rattle.std.proofs.Common.{arith};

    ghost size_decreases = { λ d h. Prim.grind arith };
}

impl<R: Reader> Dwarf<R> {
    /// The string at an offset of `.debug_str`. Takes memory only where a copy of the reader does.
    pub fn string(&self, offset: DebugStrOffset<R::Offset>) -> Result<R, Error>
        ensures value { ReturnsAsOrNoMemory R.view result
            (string_at (R.Offset.count offset.0) self.now.file.sections.debug_str) }
        ensures free { IsTrue R.copies_freely → result ≢ Err Memory }
    {
        self.debug_str.get_str(offset)
    }

    // The string at an offset of the supplement's `.debug_str`; `ExpectedStringAttributeValue`
    // where there is no supplement.
    pub(crate) fn supplement_string(&self, offset: DebugStrOffset<R::Offset>) -> Result<R, Error>
        ensures value { ReturnsAsOrNoMemory R.view result
            (supplement_string (R.Offset.count offset.0) (supplement self.now.file)) }
        ensures free { IsTrue R.copies_freely → result ≢ Err Memory }
    {
        match &self.sup {
            Some(sup) => sup.string(offset),
            None => Err(Error::ExpectedStringAttributeValue),
        }
    }

    /// The supplement, if the file has one (DWARF 5, 7.3.6).
    pub fn sup(&self) -> Option<&Dwarf<R>>
        ensures { option_map (λ s. s.now.file) result ≡ supplement self.now.file }
    {
        let sup: &Dwarf<R> = self.sup.as_ref()?;
        Some(sup)
    }

    /// The headers of the file's units, in order (DWARF 5, 7.5.1).
    pub fn units(&self) -> Result<DebugInfoUnitHeadersIter<R>, Error>
        ensures value { ReturnsOrNoMemory result
            (Ok (whole_section self.now.file.sections.debug_info)) }
        ensures free { IsTrue R.copies_freely → result ≢ Err Memory }
        // Offsets in the headers are the file's.
        ensures limit { self.now.file.offset_limit ≡ R.Offset.limit }
    {
        self.debug_info.units()
    }

    /// The unit of a header, with the facts of its root.
    pub fn unit(&self, alloc: Global, header: UnitHeader<R>) -> Result<Unit<R>, Error>
        ensures { ReturnsOrNoMemory result (unit_facts self.now.file header) }
    {
        Unit::new(alloc, self, header)
    }

    /// The same, and its root in place of another entry, whose memory it takes.
    pub fn unit_with_root(
        &self,
        alloc: Global,
        header: UnitHeader<R>,
        entry: &mut DebuggingInformationEntry<R>,
    ) -> Result<Unit<R>, Error>
        ensures unit { ReturnsOrNoMemory result (unit_facts self.now.file header) }
        ensures root { IfOk result (λ u. root self.now.file.offset_limit u.header u.table
            ≡ Ok (entry_of R.view R.Offset.count entry.new)) }
    {
        Unit::with_root(alloc, self, header, entry)
    }

    /// The unit of a header as `unit_with_root` makes it, or bare: without its declarations and the
    /// header of its line number program, which are only checked; and whether it is whole. It is
    /// refused exactly where `unit_with_root` is. Its root comes in place of another entry, whose
    /// memory it takes.
    ///
    /// A unit is whole unless its table is one that was only checked, or its root names a line
    /// number program. It takes the memory of its texts, and that of its table unless the table is
    /// cached. A bare unit takes that of its texts and of an empty table, and for a time that of
    /// its root's declaration, or of a table that is neither checked nor cached.
    pub fn unit_or_bare_with_root(
        &self,
        alloc: Global,
        header: UnitHeader<R>,
        entry: &mut DebuggingInformationEntry<R>,
    ) -> Result<(Unit<R>, bool), Error>
        ensures unit { IfOk result (λ read.
            unit_facts_or_bare read.1 self.now.file header ≡ Ok read.0) }
        ensures refusal { IfErr result (λ e. e ≢ Memory
            → unit_facts self.now.file header ≡ Err e) }
        // The root of the unit with its declarations.
        ensures root { OnOk result ((u : UnitFacts) → unit_facts self.now.file header ≡ Ok u
            → root self.now.file.offset_limit u.header u.table
            ≡ Ok (entry_of R.view R.Offset.count entry.new)) }
    {
        Unit::or_bare_with_root(alloc, self, header, entry)
    }

    // The abbreviation table at an offset, from the cache if it is there.
    pub(crate) fn abbreviations(
        &self,
        alloc: Global,
        offset: DebugAbbrevOffset<R::Offset>,
    ) -> Result<Rc<Abbreviations>, Error>
        ensures value { ReturnsAsOrNoMemory (λ t. t.value) result
            (table_at (R.Offset.count offset.0) self.now.file.sections.debug_abbrev) }
        // What is cached is not read again: a fault is answered without taking memory.
        ensures free { (e : Error)
            → Contains self.now.cached_offsets (R.Offset.count offset.0)
            → table_at (R.Offset.count offset.0) self.now.file.sections.debug_abbrev ≡ Err e
            → result ≡ Err e }
        // Offsets in the file are the reader's.
        ensures limit { self.now.file.offset_limit ≡ R.Offset.limit }
    {
        let section = &self.debug_abbrev;
        self.abbreviations_cache.get(alloc, section, offset)
    }

    // The table of the root's declaration alone, where the unit's table was checked, and this
    // declaration is kept of it. The only refusal is out of memory.
    pub(crate) fn checked_declarations(
        &self,
        alloc: Global,
        header: &UnitHeader<R>,
    ) -> Result<Option<Abbreviations>, Error>
        ensures value { IfOk result (λ found. IfSome found (λ declarations.
            and_then (table_at header.now.abbrev_offset self.now.file.sections.debug_abbrev)
            (λ table. Ok (root_declarations header.now table)) ≡ Ok declarations)) }
        ensures refusal { IfErr result (λ e. e ≡ Memory) }
        // Offsets in the file are the reader's.
        ensures limit { self.now.file.offset_limit ≡ R.Offset.limit }
    {
        let offset = header.debug_abbrev_offset();
        let code = root_code(header);
        match self.checked_tables.find(alloc, offset, code)? {
            Some(declaration) => Ok(Some(Abbreviations::of_one(alloc, declaration)?)),
            None => Ok(None),
        }
    }

    /// Makes this a split file of a main file: its addresses, its range lists of old versions and
    /// its supplement are the main file's (DWARF 5, 7.3.2). The cache stays as it is. The only
    /// refusal is out of memory.
    pub fn make_dwo(&mut self, parent: &Dwarf<R>) -> Result<(), Error>
        ensures ok { OnOk result (self.new.file ≡ split_from parent.now.file self.old.file) }
        ensures cache { self.new.cached_offsets ≡ self.old.cached_offsets }
        ensures unchanged { OnErr result (self.new ≡ self.old) }
        ensures memory { IfErr result (λ e. e ≡ Memory) }
    {
        let debug_addr = DebugAddr::from(parent.debug_addr.reader().copy()?);
        let debug_ranges = DebugRanges::from(parent.ranges.debug_ranges().reader().copy()?);
        let sup = match &parent.sup {
            Some(sup) => Some(sup.clone()?),
            None => None,
        };
        self.debug_addr = debug_addr;
        self.ranges.set_debug_ranges(debug_ranges);
        self.sup = sup;
        self.file_type = DwarfFileType::Dwo;
        Ok(())
    }
}
