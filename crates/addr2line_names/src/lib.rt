//! The names of functions and of inlined calls, which references lead to in other entries, in other
//! units and in a supplement.
#![tactic(auto)]

pub mod attributes;
mod entry;
pub mod file;
pub mod holder;
pub mod laws;
pub mod names;
mod naming;
mod passing;
mod references;

pub use attributes::is_naming;
pub use file::DebugFile;
pub use gimli_core_abbrev::{Abbreviation, DW_AT_high_pc, DW_AT_ranges};
pub use holder::{HasUnit, HoldingUnit};
pub use names::KnownUnits;
