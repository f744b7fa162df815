//! Rows of a line number program as they are written: the instructions that give them, and the
//! instructions' bytes (DWARF 5, 6.2.5).
#![tactic(auto)]

pub mod builder;
pub mod encoding;
pub mod entry;
pub mod file_id;
pub mod instruction;
pub mod places;
pub mod program_bytes;
pub mod row;
pub mod row_laws;

pub use builder::RowsBuilder;
pub use entry::LineEntry;
pub use file_id::FileId;
pub use gimli_lines_machine::{LineRules, Range};
pub use gimli_lines_write_bytes::{
    Address, DW_FORM_data16, DW_FORM_line_strp, DW_FORM_string, DW_FORM_strp, DW_FORM_udata,
    DW_LNCT_LLVM_source, DW_LNCT_MD5, DW_LNCT_directory_index, DW_LNCT_path, DW_LNCT_size,
    DW_LNCT_timestamp, DebugLineOffset, DebugLineStrOffset, DebugStrOffset, DwForm, DwLnct,
    Encoding, EndianVec, Endianity, Error, Format, InitialLengthOffset, LineEncoding,
    RunTimeEndian, SectionId, Writer,
};
pub use instruction::LineInstruction;
pub use row::LineRow;
