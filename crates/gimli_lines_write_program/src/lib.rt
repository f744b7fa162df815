//! Line number programs as they are built, in versions 2 to 5 (DWARF 5, 6.2).
#![tactic(auto)]

mod forms;
pub mod program;
mod ranges;
mod text_checks;

pub use gimli_lines_write_laws::{
    Address, DirectoryId, EndianVec, Error, FileId, FileInfo, InitialLengthOffset, LineRow,
    LineString, LineStringId, LineStringTable, StringId, StringTable, Writer, header_laws,
    row_laws, table_laws, unit_laws,
};
pub use program::LineProgram;
