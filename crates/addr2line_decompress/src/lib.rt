//! ELF images whose compressed sections of debugging information are decompressed.
#![tactic(auto)]

mod bytes_after;
pub mod compression;
mod constants;
mod decompress;
pub mod error;
mod names;
pub mod sections;
pub mod standard_numbers;
mod streams;
pub mod table;

pub use addr2line_inflate::{InflateError, standard_numbers as zlib_numbers};
pub use decompress::{decompressed, decompressed_sections};
pub use error::DecompressError;
pub use sections::DebugSections;
