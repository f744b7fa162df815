//! What all sections together say of a unit, in `specs/`: texts, addresses and ranges of
//! attributes, the facts of the unit's root entry, and what a split file takes from the file that
//! names it.
#![tactic(auto)]

pub use gimli_lines_header::{
    Abbreviations, AbbreviationsCache, AbbreviationsCacheStrategy, Attribute,
    AttributeSpecification, AttributeValue, CheckedTables, DebugAbbrev, DebugAranges, DebugInfo,
    DebugInfoUnitHeadersIter, DebugLine, LineProgramHeader, OffsetInSection, UnitHeader, UnitType,
};
pub use gimli_units_entries::unit::{entries_raw, first_code};
pub use gimli_units_entries::{
    DW_AT_GNU_addr_base, DW_AT_GNU_dwo_id, DW_AT_GNU_dwo_name, DW_AT_GNU_ranges_base,
    DW_AT_MIPS_linkage_name, DW_AT_abstract_origin, DW_AT_addr_base, DW_AT_comp_dir,
    DW_AT_dwo_name, DW_AT_linkage_name, DW_AT_loclists_base, DW_AT_low_pc, DW_AT_name,
    DW_AT_rnglists_base, DW_AT_specification, DW_AT_stmt_list, DW_AT_str_offsets_base,
    DW_TAG_partial_unit, DebugAbbrevOffset, DebugAddrBase, DebugAddrIndex, DebugLineOffset,
    DebugLocListsBase, DebugRngListsBase, DebugRngListsIndex, DebugStrOffset, DebugStrOffsetsBase,
    DebuggingInformationEntry, DwAt, DwarfFileType, DwoId, Encoding, EntriesRaw, Error,
    RangeListsOffset, RawRangeListsOffset, ReaderOffset, SectionId,
};
pub use gimli_units_lists::{
    DebugAddr, DebugInfoOffset, DebugLineStr, DebugRanges, DebugRngLists, DebugStr,
    DebugStrOffsets, DefaultBase, LocationLists, RangeLists, Reader, RngListIter, Section,
    UnitOffset,
};
