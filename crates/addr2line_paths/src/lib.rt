//! The texts of source files: a unit's directory, a file's own directory and its name, joined as
//! their bytes say, whatever system they come from.
#![tactic(auto)]

mod path;
pub mod path_laws;

pub use path::{file_text, file_text_of_bytes, is_rooted, join};
