//! The units of a table as they are emitted, and the tables that fit.
#![tactic(auto)]

mod file_numbers;
pub mod inlined_names;
pub mod unit_emitter;

pub use gimli_lines_write_tables::{Encoding, EndianVec, Error, RunTimeEndian, SectionId, Writer};
pub use linemap_emit_programs::{
    FileId, LineStringTable, unit_program, write_declarations, write_lists_header, write_program,
    write_unit,
};
pub use unit_emitter::UnitEmitter;
