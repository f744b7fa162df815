//! The ranges that units and entries declare, read from their sections.
#![tactic(auto)]

pub mod arange_index;
mod aranges;
mod declarations;
pub mod fact;
pub mod facts;
pub mod last_list;
mod lists;
pub mod push;
pub mod sharing;
mod unit_arange;

pub use addr2line_index::{
    Counters, LineCursor, LineIndex, LineRow, Location, Probes, RangeIndex, RangePlace, Ranged,
    RowStretch, UnitRange, UnitRanges, UnitRangesBuilder, file_text,
};
pub use arange_index::ArangeIndex;
pub use declarations::{declared_ranges, entry_ranges, ranges_of_entry};
pub use fact::{Fact, fact_of};
pub use facts::{LastFacts, facts_of};
pub use gimli_dwarf::{
    DW_TAG_partial_unit, DebugRanges, DebugRngLists, DebuggingInformationEntry, Dwarf,
    LocationLists, RangeLists, Unit, UnitRef,
};
pub use gimli_lines_rows::{
    AbbreviationsCache, AbbreviationsCacheStrategy, Attribute, AttributeValue, CheckedTables,
    DW_AT_language, DebugAbbrev, DebugAbbrevOffset, DebugAddr, DebugAddrIndex, DebugAranges,
    DebugInfo, DebugLine, DebugLineStr, DebugLineStrOffset, DebugRngListsIndex, DebugStr,
    DebugStrOffset, DebugStrOffsets, DebugStrOffsetsIndex, DwLang, DwarfFileType, DwoId,
    EndianBytes, EndianSlice, Error, Format, LittleEndian, Range, RangeListsOffset,
    RawRangeListsOffset, Reader, ReaderOffset, RunTimeEndian, SectionId, UnitHeader, UnitOffset,
    UnitType,
};
pub use last_list::LastList;
pub use push::push_if_any;
pub use sharing::share;
