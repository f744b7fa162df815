//! The rows of line number programs that are built of a table's, and laws that a reader sees them
//! again.
#![tactic(auto)]

pub mod program_laws;
pub mod row_laws;

pub use gimli_lines_write_rows::RunTimeEndian;
pub use linemap_emit_parts::{
    Entry, abstract_offset, lists_start, write_declarations, write_lists_header, write_ranges,
    write_unit,
};
pub use linemap_places_laws::{
    TableCall, TableFile, TableFunction, TableRange, TableRow, TableSequence, TableUnit,
};
