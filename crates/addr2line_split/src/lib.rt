//! Split files (DWARF 5, 7.3.2): where their bytes come from, and what a load gets of them.
#![tactic(auto)]

pub mod file_reads;
pub mod file_source;
pub mod map_source;
pub mod sections;
pub mod source;
pub mod split_file;

pub use addr2line_elf::{
    Elf, FileParts, LoadError, MemoryFile, PartSource, Symbol, Symbols, read_needed,
};
use addr2line_unit::{EndianBytes, RunTimeEndian};
pub use file_reads::{FileSystem, read_file, read_parts};
pub use file_source::FileSource;
pub use map_source::{MapSource, SplitFile};
pub use sections::dwo_sections;
pub use source::SplitSource;
pub use split_file::load_split;

/// A reader of an image's bytes, which it shares, in the order that the image says.
pub type ImageReader = EndianBytes<RunTimeEndian>;
