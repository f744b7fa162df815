//! A law: what `run` prints of the image of a table is what the table says.
#![tactic(auto)]

mod table_text_laws;

pub use linemap_lookup::{
    DecompressedSource, Error, FileParts, FileSource, FilesByPath, LoadError, Loader, MapSource,
    MemoryFile, NamedFile, PartSource, SplitSource, SystemFiles, limits, load_decompressed,
    load_found, load_out_of_memory, read_file, read_needed, read_parts, run, run_loaded,
};
pub use table_text_laws::table_printed;
