//! The line number programs of a table's units.
#![tactic(auto)]

pub mod sequences;
pub mod unit_programs;

pub use gimli_lines_write_program::{FileId, LineStringTable};
pub use linemap_emit_rows::{
    Entry, TableCall, TableFunction, TableRange, TableUnit, abstract_offset, lists_start,
    write_declarations, write_lists_header, write_ranges, write_unit,
};
pub use unit_programs::{UnitProgram, unit_program, write_program};
