//! All sections of a file together: texts, addresses and range lists of attributes, and units with
//! the facts of their roots.
#![tactic(auto)]

mod attributes;
pub mod dwarf;
pub mod holders;
mod loading;
mod root;
pub mod unit;
pub mod unit_ref;
mod whole;

pub use dwarf::Dwarf;
pub use gimli_dwarf_spec::{
    Attribute, AttributeSpecification, AttributeValue, DW_AT_MIPS_linkage_name,
    DW_AT_abstract_origin, DW_AT_linkage_name, DW_AT_name, DW_AT_specification,
    DW_TAG_partial_unit, DebugInfoOffset, DebugRanges, DebugRngLists, DebuggingInformationEntry,
    DwAt, EntriesRaw, Error, LocationLists, OffsetInSection, RangeLists, Reader, ReaderOffset,
    RngListIter, UnitHeader, UnitOffset,
};
pub use holders::{DebugMacinfo, DebugMacro, DebugNames, DebugTypes};
pub use unit::Unit;
pub use unit_ref::UnitRef;
