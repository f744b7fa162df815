//! The size of what is emitted of a table: no more than the table's weight.
#![tactic(auto)]

pub mod fit_laws;

pub use linemap_emit_units::{
    Encoding, EndianVec, Error, FileId, LineStringTable, RunTimeEndian, SectionId, UnitEmitter,
    Writer, unit_program, write_declarations, write_lists_header, write_program, write_unit,
};
