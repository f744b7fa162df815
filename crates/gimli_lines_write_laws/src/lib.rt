//! Units of `.debug_line` that were written read back as what was recorded (DWARF 5, 6.2).
#![tactic(auto)]

pub mod unit_laws;

pub use gimli_lines_write_unit::{
    Address, DW_FORM_string, DebugLineOffset, DirectoryId, DwForm, Encoding, EndianVec, Error,
    FileDetails, FileId, FileInfo, FileKey, FileTable, Format, InitialLengthOffset, LineEncoding,
    LineRow, LineRules, LineString, LineStringId, LineStringTable, RowsBuilder, StringId,
    StringTable, Writer, first_source, form_of, header_laws, listed_directories, row_laws,
    table_laws, write_unit,
};
