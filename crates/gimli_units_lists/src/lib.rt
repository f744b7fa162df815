//! Range lists and location lists: their entries, and the ranges and locations that these stand
//! for.
#![tactic(auto)]

mod entry_list;
mod fields;
pub mod header;
mod list_offset;
pub mod location_entry;
pub mod location_lists;
pub mod location_sections;
pub mod locations;
pub mod range_entry;
pub mod range_lists;
pub mod range_sections;
pub mod ranges;
pub mod raw_locations;
pub mod raw_ranges;
mod resolver;

pub use gimli_core_readers::{
    DebugAddr, DebugInfoOffset, DebugLineStr, DebugStr, DebugStrOffsets, DefaultBase, Expression,
    Range, Reader, Section, UnitOffset,
};
pub use header::ListsHeader;
pub use location_entry::RawLocListEntry;
pub use location_lists::LocationLists;
pub use location_sections::{DebugLoc, DebugLocLists};
pub use locations::{LocListIter, LocationListEntry};
pub use range_entry::RawRngListEntry;
pub use range_lists::RangeLists;
pub use range_sections::{DebugRanges, DebugRngLists};
pub use ranges::RngListIter;
pub use raw_locations::RawLocListIter;
pub use raw_ranges::RawRngListIter;
