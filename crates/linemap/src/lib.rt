//! Line tables: which source line an address belongs to. Tables are read from JSON or checked from
//! units, asked for addresses, and emitted as debug information.
#![tactic(auto)]

pub use linemap_commands::{
    cannot_load, cannot_write, emission, emit, no_such_target, table_out_of_memory, target_of,
};
pub use linemap_lookup_laws::{
    DecompressedSource, Error, FileParts, FileSource, FilesByPath, LoadError, Loader, MapSource,
    MemoryFile, NamedFile, PartSource, SplitSource, SystemFiles, load_decompressed, load_found,
    load_out_of_memory, read_file, read_needed, read_parts, run, run_loaded,
};
pub use linemap_replay::{
    Answer, Call, OwnedFrame, OwnedLocation, OwnedName, OwnedStretch, OwnedUnit, replay,
};
pub use linemap_text::{
    Context, Dwarf, EmitError, Ended, Reader, Rule, Sections, Table, TableCall, TableError,
    TableFile, TableFunction, TableRange, TableRow, TableSequence, TableUnit, Target, ask,
    cannot_read, emit_sections, out_of_memory, words_not_text,
};
pub use linemap_words::{
    DebugSources, Options, Request, WordsError, explain, explain_refusal, meaning_of, read_words,
};

/// What holds of the definitions, as contracts.
pub mod laws {
    pub use linemap_commands::{image_laws as images, written_numbers as numbers};
    pub use linemap_lookup_laws::{limits as reads, table_printed};
    pub use linemap_replay::table_laws as histories;
    pub use linemap_text::{
        emission_laws as emission, fit_laws as sizes, limits as writes,
        recorded_table_laws as recorded, table_laws as tables, unit_difference_laws as differences,
        word_laws as words,
    };
    pub use linemap_words::mistake_texts as mistakes;
}
