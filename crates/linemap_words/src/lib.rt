//! The command line of the program `linemap`, read by `clap`, and what is printed where it is no
//! request.
#![tactic(auto)]

mod command_line;
mod debug_sources;
mod explanation;
mod matches;
mod meaning_texts;
mod meanings;
pub mod mistake_texts;
mod request;

pub use debug_sources::{DEBUG_FOLDER, DebugSources};
pub use explanation::{explain, explain_refusal};
pub use linemap_output::Options;
pub use meanings::meaning_of;
pub use request::{Request, WordsError, read_words};
