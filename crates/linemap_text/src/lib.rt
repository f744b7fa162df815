//! The lines of text that answer addresses, from a context over a table's sections.
#![tactic(auto)]

mod engine;
pub mod section_readers;
mod stops;
pub mod table_contexts;
pub mod word_laws;
pub mod word_lines;

pub use addr2line_context::{Context, Dwarf, EndianSlice, Error, Reader, RunTimeEndian, SectionId};
pub use engine::ask;
pub use linemap_emit::{
    EmitError, Rule, Sections, Table, TableCall, TableError, TableFile, TableFunction, TableRange,
    TableRow, TableSequence, TableUnit, Target, emission_laws, emit_sections, fit_laws,
    recorded_table_laws, table_laws, unit_difference_laws,
};
pub use linemap_output::{Ended, cannot_read, limits, out_of_memory, words_not_text};
pub use section_readers::dwarf_of;
pub use table_contexts::context_of;
pub use word_lines::{place_line, word_line};
