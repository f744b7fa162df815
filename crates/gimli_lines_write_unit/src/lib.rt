//! Units of `.debug_line` in versions 2 to 5 as they are written (DWARF 5, 6.2.4).
#![tactic(auto)]

pub mod details;
pub mod files;
pub mod header;
pub mod pieces;
pub mod sources;
pub mod tables;
pub mod texts;
pub mod unit;

pub use details::FileDetails;
pub use gimli_lines_write_spec::header_laws;
pub use gimli_lines_write_tables::{
    Address, DW_FORM_string, DebugLineOffset, DirectoryId, DwForm, Encoding, EndianVec, Error,
    FileId, FileInfo, FileKey, FileTable, Format, InitialLengthOffset, LineEncoding, LineRow,
    LineRules, LineString, LineStringId, LineStringTable, RowsBuilder, StringId, StringTable,
    Writer, row_laws, table_laws,
};
pub use header::listed_directories;
pub use sources::first_source;
pub use texts::form_of;
pub use unit::write_unit;
