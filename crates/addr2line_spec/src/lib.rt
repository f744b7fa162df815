//! Definitions: sequences, places and stretches; a context over sections; functions, inlined calls
//! and frames.
#![tactic(auto)]

pub mod call_laws;
pub mod lookup_laws;
pub mod suspension_laws;

pub use addr2line_paths::{file_text, file_text_of_bytes};
pub use gimli_lines_machine::{Error, Range};
