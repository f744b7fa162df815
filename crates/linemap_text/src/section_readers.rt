//! Emitted sections as those of a file.

ghost use Rattle.std.specs.Prelude.{◌≡◌, ◌^◌};
ghost use Rattle.linemap_emit.specs.SectionBytesById.{bytes_of};
ghost use Rattle.linemap_emit.specs.ByteOrders.{is_big_endian};
ghost use Rattle.linemap_text.specs.WordLaws.{file_of};
ghost use Rattle.linemap_emit.specs.BytesAt.{bytes_at};

use addr2line_context::{
    AbbreviationsCache, CheckedTables, DebugAbbrev, Dwarf, DwarfFileType, EndianSlice,
    LocationLists, RangeLists, RunTimeEndian, SectionId,
};
use linemap_emit::Sections;
use std::alloc::Global;

// A section as a reader of its bytes.
fn section(
    sections: &Sections,
    endian: RunTimeEndian,
    id: SectionId,
) -> EndianSlice<'_, RunTimeEndian>
    ensures { result ≡ bytes_at (is_big_endian endian) 0 (bytes_of id sections.now) }
{
    EndianSlice::new(sections.get(id), endian)
}

/// The sections, as those of a main file that borrows their bytes. It takes no memory.
pub fn dwarf_of(
    alloc: Global,
    sections: &Sections,
    endian: RunTimeEndian,
) -> Dwarf<EndianSlice<'_, RunTimeEndian>>
    ensures { result.file ≡ file_of (2 ^ 64) (is_big_endian endian) sections.now }
{
    Dwarf {
        debug_abbrev: DebugAbbrev::from(section(sections, endian, SectionId::DebugAbbrev)),
        debug_addr: section(sections, endian, SectionId::DebugAddr).into(),
        debug_aranges: section(sections, endian, SectionId::DebugAranges).into(),
        debug_info: section(sections, endian, SectionId::DebugInfo).into(),
        debug_line: section(sections, endian, SectionId::DebugLine).into(),
        debug_line_str: section(sections, endian, SectionId::DebugLineStr).into(),
        debug_macinfo: section(sections, endian, SectionId::DebugMacinfo).into(),
        debug_macro: section(sections, endian, SectionId::DebugMacro).into(),
        debug_names: section(sections, endian, SectionId::DebugNames).into(),
        debug_str: section(sections, endian, SectionId::DebugStr).into(),
        debug_str_offsets: section(sections, endian, SectionId::DebugStrOffsets).into(),
        debug_types: section(sections, endian, SectionId::DebugTypes).into(),
        locations: LocationLists::new(
            section(sections, endian, SectionId::DebugLoc).into(),
            section(sections, endian, SectionId::DebugLocLists).into(),
        ),
        ranges: RangeLists::new(
            section(sections, endian, SectionId::DebugRanges).into(),
            section(sections, endian, SectionId::DebugRngLists).into(),
        ),
        file_type: DwarfFileType::Main,
        sup: None,
        abbreviations_cache: AbbreviationsCache::new(alloc),
        checked_tables: CheckedTables::new(alloc),
    }
}
