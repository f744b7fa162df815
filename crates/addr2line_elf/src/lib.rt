//! ELF files as a loader of debugging information reads them: their sections by name, their
//! symbols, and why they are refused.
#![tactic(auto)]

pub mod class;
pub mod constants;
mod coverage;
pub mod debug;
pub mod elf;
pub mod error;
pub mod file_parts;
pub mod headers;
mod identification;
mod names;
mod needed;
mod reading;
pub mod standard_numbers;
mod stretch;
mod sweep;
pub mod symbol_entries;
pub mod symbol_laws;
pub mod symbols;
mod table;
mod texts;

pub use elf::Elf;
pub use error::LoadError;
pub use file_parts::{FilePart, FileParts, MemoryFile, PartSource};
pub use needed::read_needed;
pub use symbols::{Symbol, Symbols};
