//! Line programs, read: the instructions of a program one after the other, and the rows that they
//! show.
#![tactic(auto)]

mod execution;
pub mod instruction;
pub mod instructions;
mod numbers;
mod numeric;
mod parsing;
pub mod program;
mod program_rules;
pub mod row;
pub mod rows;
pub mod sequence;
pub mod sink;
mod steps;

pub use gimli_lines_header::{
    AbbreviationsCache, AbbreviationsCacheStrategy, ArangeEntry, ArangeEntryIter, ArangeHeader,
    ArangeHeaderIter, Attribute, AttributeValue, CheckedTables, DebugAbbrev, DebugAranges,
    DebugInfo, DebugLine, FileEntry, FileEntryFormat, LineProgramHeader, UnitHeader, UnitType,
    header_laws,
};
pub use gimli_lines_machine::{
    DW_AT_high_pc, DW_AT_language, DW_AT_low_pc, DW_AT_ranges, DebugAbbrevOffset, DebugAddr,
    DebugAddrIndex, DebugLineStr, DebugLineStrOffset, DebugRngListsIndex, DebugStr, DebugStrOffset,
    DebugStrOffsets, DebugStrOffsetsIndex, DwLang, DwarfFileType, DwoId, EndianBytes, EndianSlice,
    Error, Format, LineRules, LittleEndian, Range, RangeListsOffset, RawRangeListsOffset, Reader,
    ReaderOffset, RunTimeEndian, SectionId, UnitOffset,
};
pub use instruction::LineInstruction;
pub use instructions::{LineInstructions, ProgramInstructions};
pub use program::{
    BorrowedLineProgram, CompleteLineProgram, IncompleteLineProgram, LineProgram, LinePrograms,
};
pub use row::{ColumnType, LineRow};
pub use rows::LineRows;
pub use sequence::LineSequence;
pub use sink::RowSink;
