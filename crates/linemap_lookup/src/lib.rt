//! The program `lookup`: the places and functions of addresses in an ELF file, over any readers and
//! writers.
#![tactic(auto)]

mod all;
mod answer;
mod debug_files;
mod engine;
mod frames;
pub mod limits;
mod lines;
mod loaded;
mod lookups;
mod names;
mod printer;
mod program;
mod write;
mod write_lines;

pub use addr2line_context::Error;
pub use addr2line_debug_files::{FilesByPath, NamedFile, SystemFiles};
pub use addr2line_loader::{DecompressedSource, Loader};
pub use addr2line_split::{
    FileParts, FileSource, LoadError, MapSource, MemoryFile, PartSource, SplitSource, read_file,
    read_needed, read_parts,
};
pub use debug_files::{load_decompressed, load_found};
pub use linemap_output::{Ended, Options};
pub use loaded::run_loaded;
pub use program::{load_out_of_memory, run};
