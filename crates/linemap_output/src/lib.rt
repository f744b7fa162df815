//! Writing text to any writer: how often a write or a flush is tried, what the writer holds after a
//! failure, and how a program reports its end.
#![tactic(auto)]

mod ended;
mod error_line;
pub mod limits;
pub mod options;
mod table_refusals;
mod writing;

pub use ended::Ended;
pub use error_line::{
    cannot_read, fail, out_of_memory, output_failed, words_not_text, write_error_line,
};
pub use options::Options;
pub use table_refusals::{
    emission_out_of_memory, table_out_of_memory, table_refused, table_too_large,
};
pub use writing::{MAX_INTERRUPTIONS, WriteFault, flush, write_bytes, write_flushed, write_text};
