//! The values of attributes: how each form spells one, reading it, and skipping it by width alone.
#![tactic(auto)]

pub mod attribute;
pub mod reading;
pub mod skipping;
pub mod spelling;
pub mod value;

pub use gimli_core_abbrev::{
    Abbreviation, Abbreviations, AbbreviationsCache, AbbreviationsCacheStrategy,
    AttributeSpecification, CheckedTables, DebugAbbrev, EndianSlice, borrowed, bytes_before,
};
pub use reading::{parse_attribute, parse_attribute_inline, push_attribute};
pub use skipping::{short_number, skip_attributes, skip_declared, skip_entry};
pub use spelling::{Spelling, spelling_of};
pub use value::{Attribute, AttributeValue};
