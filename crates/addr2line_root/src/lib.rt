//! What the root of a unit says of lookups: its ranges, or those of its lines, and its language;
//! and the unit's lines, which its line number program gives.
#![tactic(auto)]

pub mod counted_unit;
mod files;
mod language;
pub mod last_program;
pub mod last_ranges;
pub mod main_unit;
pub mod owned_unit;
mod partial;
pub mod ranges;
pub mod root;
mod rows;
pub mod unit_lines;
pub mod unit_texts;

pub use addr2line_ranges::{ArangeIndex, LineRow};
pub use counted_unit::{CountedUnit, Runs};
pub use language::language_of;
pub use last_ranges::LastRanges;
pub use main_unit::MainUnit;
pub use owned_unit::OwnedUnit;
pub use partial::is_partial;
pub use ranges::{RootRanges, ranges_of_attributes};
pub use root::UnitRoot;
pub use unit_lines::UnitLines;
pub use unit_texts::copy_of;
