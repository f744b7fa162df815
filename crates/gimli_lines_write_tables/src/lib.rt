//! String sections as they are built, the texts of headers, and directories and files, each once.
#![tactic(auto)]

pub mod file;
pub mod file_table;
pub mod line_string;
pub mod string_tables;
pub mod table_laws;
mod texts;

pub use file::{DirectoryId, FileInfo, FileKey};
pub use file_table::FileTable;
pub use gimli_lines_write_rows::{
    Address, DW_FORM_data16, DW_FORM_line_strp, DW_FORM_string, DW_FORM_strp, DW_FORM_udata,
    DW_LNCT_LLVM_source, DW_LNCT_MD5, DW_LNCT_directory_index, DW_LNCT_path, DW_LNCT_size,
    DW_LNCT_timestamp, DebugLineOffset, DwForm, DwLnct, Encoding, EndianVec, Endianity, Error,
    FileId, Format, InitialLengthOffset, LineEncoding, LineRow, LineRules, Range, RowsBuilder,
    RunTimeEndian, SectionId, Writer, row_laws,
};
pub use line_string::LineString;
pub use string_tables::{LineStringId, LineStringTable, StringId, StringTable};
