//! The entries of a unit, read one after the other (DWARF 5, 7.5.2 and 7.5.3).
#![tactic(auto)]

mod attributes;
mod codes;
pub mod entry;
pub mod entry_laws;
mod named;
mod others;
pub mod raw;
pub mod unit;

pub use entry::DebuggingInformationEntry;
pub use gimli_core_base::error::Error;
pub use gimli_core_base::{
    DW_AT_GNU_addr_base, DW_AT_GNU_dwo_id, DW_AT_GNU_dwo_name, DW_AT_GNU_ranges_base,
    DW_AT_MIPS_linkage_name, DW_AT_abstract_origin, DW_AT_addr_base, DW_AT_call_column,
    DW_AT_call_file, DW_AT_call_line, DW_AT_comp_dir, DW_AT_dwo_name, DW_AT_linkage_name,
    DW_AT_loclists_base, DW_AT_low_pc, DW_AT_name, DW_AT_rnglists_base, DW_AT_specification,
    DW_AT_stmt_list, DW_AT_str_offsets_base, DW_TAG_inlined_subroutine, DW_TAG_partial_unit,
    DW_TAG_subprogram, DebugAbbrevOffset, DebugAddrBase, DebugAddrIndex, DebugLineOffset,
    DebugLocListsBase, DebugRngListsBase, DebugRngListsIndex, DebugStrOffset, DebugStrOffsetsBase,
    DwAt, DwLang, DwTag, DwarfFileType, DwoId, Encoding, RangeListsOffset, RawRangeListsOffset,
    ReaderOffset, SectionId,
};
pub use gimli_units_forms::attribute::bytes_are_small_numbers;
pub use gimli_units_forms::skipping::{skipping_follows_reading, skips_by_runs};
pub use gimli_units_forms::{Attribute, AttributeValue, parse_attribute, skip_attributes};
pub use gimli_units_headers::{
    ArangeEntry, ArangeEntryIter, ArangeHeader, ArangeHeaderIter, DebugAranges, DebugInfo,
    DebugInfoUnitHeadersIter, OffsetInSection, OffsetInUnit, Range, Reader, UnitHeader, UnitOffset,
    UnitType,
};
pub use raw::EntriesRaw;
pub use unit::{UnitEntries, entries_raw, first_code};
