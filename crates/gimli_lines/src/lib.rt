//! Line number programs (DWARF 5, 6.2): read, and in `write` built and written. Each name is from
//! one of the crates below, which are proved apart.
#![tactic(auto)]

pub use gimli_lines_rows::{
    BorrowedLineProgram, ColumnType, CompleteLineProgram, DebugLine, Error, FileEntry,
    FileEntryFormat, IncompleteLineProgram, LineInstruction, LineInstructions, LineProgram,
    LineProgramHeader, LinePrograms, LineRow, LineRows, LineRules, LineSequence,
    ProgramInstructions, Reader, RowSink,
};

/// Line number programs as they are built and written.
pub mod write {
    pub use gimli_lines_write_laws::FileKey;
    pub use gimli_lines_write_program::{
        Address, DirectoryId, EndianVec, Error, FileId, FileInfo, InitialLengthOffset, LineProgram,
        LineRow, LineString, LineStringId, LineStringTable, StringId, StringTable, Writer,
    };
    pub use gimli_lines_write_rows::LineEntry;
}

/// What holds of the definitions, as contracts.
pub mod laws {
    pub use gimli_lines_rows::header_laws as headers;
    pub use gimli_lines_write_program::{
        header_laws as headers_written, row_laws as rows_written, table_laws as tables,
        unit_laws as units_written,
    };
}
