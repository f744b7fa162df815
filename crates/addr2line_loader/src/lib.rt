//! From a file's bytes to places, frames and symbols: an ELF file with its debugging information,
//! its supplement and its split files.
#![tactic(auto)]

mod answers;
mod decompressed_source;
mod decompression;
mod files;
mod frames;
pub mod loader;
pub mod loads;
pub mod location_range;
pub mod part_laws;
mod parts;
mod sections;
pub mod stretches;
mod symbols;

pub use addr2line_decompress::{
    DebugSections, DecompressError, InflateError, decompressed, decompressed_sections,
};
pub use decompressed_source::DecompressedSource;
pub use loader::Loader;
pub use location_range::LoaderRangeIter;
