//! Which file, line and column of the source an address of a program belongs to, and which
//! functions are at work there, read from debug information. The names are those of the Rust crate
//! `addr2line`; each is defined and proved in one of the crates below. The definitions that their
//! contracts cite are passed on.
#![tactic(auto)]

pub use addr2line_context::{
    Context, Dwarf, Error, FindFrames, FindUnit, Frame, FrameIter, FunctionName, Location,
    LocationRangeIter, LookupContinuation, LookupResult, RangeWalk, Reader, Runs, SplitDwarfLoad,
    UnitLines, UnitStretch, UnitToken,
};
pub use addr2line_debug_files::{
    Candidate, DebugFiles, FilesByPath, Identity, MemoryFiles, NamedFile, SystemFiles,
    debug_file_names, find_debug_files, supplement_names,
};
pub use addr2line_demangle::{demangle, demangle_auto};
pub use addr2line_elf::{
    FilePart, FileParts, LoadError, MemoryFile, PartSource, Symbol, read_needed,
};
pub use addr2line_index::{Probed, Probes};
pub use addr2line_loader::stretches::{next_place, next_stretch};
pub use addr2line_loader::{
    DebugSections, DecompressError, DecompressedSource, InflateError, Loader, LoaderRangeIter,
    decompressed, decompressed_sections,
};
pub use addr2line_root::{CountedUnit, OwnedUnit};
pub use addr2line_split::{
    FileSource, FileSystem, MapSource, SplitFile, SplitSource, load_split, read_parts,
};

/// What holds of the definitions, as contracts.
pub mod laws {
    pub use addr2line_context::{skip_laws as skips, walk_laws as walks};
    pub use addr2line_debug_files::standard_numbers as note_numbers;
    pub use addr2line_decompress::{standard_numbers as compression_numbers, zlib_numbers};
    pub use addr2line_demangle::name_laws as demangling;
    pub use addr2line_elf::{standard_numbers as elf_numbers, symbol_laws as symbols};
    pub use addr2line_functions::name_laws as entries;
    pub use addr2line_index::index_laws as lookups;
    pub use addr2line_loader::part_laws as parts;
    pub use addr2line_names::laws as names;
    pub use addr2line_paths::path_laws as paths;
    pub use addr2line_spec::{
        call_laws as calls, lookup_laws as meaning, suspension_laws as suspension,
    };
}
