//! The headers of line number programs (DWARF 5, 6.2.4), versions 2 to 5.
#![tactic(auto)]

mod checks;
mod copies;
mod field_values;
pub mod file;
pub mod formats;
pub mod header;
pub mod header_laws;
mod parsing;
pub mod section;
mod table_entries;
mod tables;
mod usual_entries;

pub use file::FileEntry;
pub use formats::FileEntryFormat;
pub use gimli_units_forms::{
    Abbreviations, AbbreviationsCache, AbbreviationsCacheStrategy, Attribute,
    AttributeSpecification, AttributeValue, CheckedTables, DebugAbbrev,
};
pub use gimli_units_headers::{
    ArangeEntry, ArangeEntryIter, ArangeHeader, ArangeHeaderIter, DebugAranges, DebugInfo,
    DebugInfoUnitHeadersIter, OffsetInSection, UnitHeader, UnitType,
};
pub use header::LineProgramHeader;
pub use section::DebugLine;
