//! Units: their headers, entries and attributes, address ranges, range lists and location lists.
//! Each name is from one of the crates below, which are proved apart.
#![tactic(auto)]

pub use gimli_units_entries::{
    ArangeEntry, ArangeEntryIter, ArangeHeader, ArangeHeaderIter, Attribute, AttributeValue,
    DebugAranges, DebugInfo, DebugInfoUnitHeadersIter, DebuggingInformationEntry, EntriesRaw,
    Error, OffsetInSection, OffsetInUnit, Reader, UnitEntries, UnitHeader, UnitType, entries_raw,
    parse_attribute, skip_attributes,
};
pub use gimli_units_lists::{
    DebugInfoOffset, DebugLoc, DebugLocLists, DebugRanges, DebugRngLists, Expression, ListsHeader,
    LocListIter, LocationListEntry, LocationLists, Range, RangeLists, RawLocListEntry,
    RawLocListIter, RawRngListEntry, RawRngListIter, RngListIter, UnitOffset,
};

/// What holds of the definitions, as contracts.
pub mod laws {
    pub use gimli_units_entries::{
        bytes_are_small_numbers, entry_laws as entries, skipping_follows_reading, skips_by_runs,
    };
}
