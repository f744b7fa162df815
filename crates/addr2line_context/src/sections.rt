//! A context of sections that are handed in one by one.

ghost use Rattle.std.specs.Prelude.{◌≡◌, IfOk, IfErr};
ghost use Rattle.addr2line_lookups.specs.Calls.{ReturnsAsOrNoMemory};
ghost use Rattle.addr2line_lookups.specs.Contexts.{file_context};
ghost use Rattle.addr2line_lookups.specs.Error.TheVariants.{Memory};
ghost use Rattle.addr2line_lookups.specs.ResolvedUnits.{RunForRangesAlone};
ghost use Rattle.addr2line_context.specs.AnsweredContexts.{HasNoAnswers};
ghost use Rattle.addr2line_context.specs.MainFiles.{main_file};

use crate::context::Context;
use addr2line_lookups::{
    AbbreviationsCache, CheckedTables, DebugAbbrev, DebugAddr, DebugAranges, DebugInfo, DebugLine,
    DebugLineStr, DebugRanges, DebugRngLists, DebugStr, DebugStrOffsets, Dwarf, DwarfFileType,
    Error, LocationLists, RangeLists, Reader,
};
use std::alloc::Global;

// Copies of a section for those that aren't handed in.
#[derive(Drop)]
struct DefaultSections<R: Reader> {
    debug_loc: R,
    debug_macinfo: R,
    debug_macro: R,
    debug_names: R,
    debug_types: R,
}

impl<R: Reader> DefaultSections<R> {
    fn copies_of(section: &R) -> Result<Self, Error>
        ensures copies { IfOk result (λ c.
            (R.view c.debug_loc ≡ R.view section.now)
            × (R.view c.debug_macinfo ≡ R.view section.now)
            × (R.view c.debug_macro ≡ R.view section.now)
            × (R.view c.debug_names ≡ R.view section.now)
            × (R.view c.debug_types ≡ R.view section.now)) }
        ensures memory { IfErr result (λ e. e ≡ Memory) }
    {
        Ok(DefaultSections {
            debug_loc: section.copy()?,
            debug_macinfo: section.copy()?,
            debug_macro: section.copy()?,
            debug_names: section.copy()?,
            debug_types: section.copy()?,
        })
    }
}

impl<R: Reader> Context<R> {
    /// The context of a main file without a supplement, from its sections; a copy of the last is
    /// used for each that isn't named.
    pub fn from_sections(
        alloc: Global,
        debug_abbrev: DebugAbbrev<R>,
        debug_addr: DebugAddr<R>,
        debug_aranges: DebugAranges<R>,
        debug_info: DebugInfo<R>,
        debug_line: DebugLine<R>,
        debug_line_str: DebugLineStr<R>,
        debug_ranges: DebugRanges<R>,
        debug_rnglists: DebugRngLists<R>,
        debug_str: DebugStr<R>,
        debug_str_offsets: DebugStrOffsets<R>,
        default_section: R,
    ) -> Result<Self, Error>
        ensures context { ReturnsAsOrNoMemory (λ c. c.value.plain) result
            (file_context (main_file R.Offset.limit debug_abbrev debug_addr debug_aranges debug_info
            debug_line debug_line_str debug_ranges debug_rnglists debug_str debug_str_offsets
            (R.view default_section))) }
        ensures answers { IfOk result (λ c. HasNoAnswers c.value) }
        ensures lines { IfOk result (λ c. RunForRangesAlone c.units) }
    {
        let defaults = DefaultSections::copies_of(&default_section)?;
        let sections = Dwarf {
            debug_abbrev,
            debug_addr,
            debug_aranges,
            debug_info,
            debug_line,
            debug_line_str,
            debug_macinfo: defaults.debug_macinfo.into(),
            debug_macro: defaults.debug_macro.into(),
            debug_names: defaults.debug_names.into(),
            debug_str,
            debug_str_offsets,
            debug_types: defaults.debug_types.into(),
            locations: LocationLists::new(defaults.debug_loc.into(), default_section.into()),
            ranges: RangeLists::new(debug_ranges, debug_rnglists),
            file_type: DwarfFileType::Main,
            sup: None,
            abbreviations_cache: AbbreviationsCache::new(alloc),
            checked_tables: CheckedTables::new(alloc),
        };
        Context::from_dwarf(alloc, sections)
    }
}
