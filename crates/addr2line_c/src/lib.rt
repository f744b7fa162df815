//! Lookups in ELF files for programs in C, by the calls that `include/addr2line.h` declares.
#![tactic(auto)]

mod box_parts;
mod c_types;
mod copies;
mod frames;
mod handle;
mod load_sources;
mod numbers;
mod open_file;
mod open_with;
mod opening;
mod places;
pub mod refusal_laws;
mod refusals;
mod split_files;
mod symbols;

pub use handle::Handle;
