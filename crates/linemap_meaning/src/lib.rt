//! What a table of line information is and means: its structs and what contracts see of them, the
//! conditions that it meets, its weight, and the locations, frames and stretches that it answers.
#![tactic(auto)]

pub mod address;
pub mod line_text;
pub mod rule;
pub mod table;
pub mod table_laws;

pub use addr2line_paths::is_rooted;
