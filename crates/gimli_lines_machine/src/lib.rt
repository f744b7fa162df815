//! The instructions of line number programs, and the state machine that they run (DWARF 5, 6.2).
#![tactic(auto)]

pub mod registers;
pub mod rules;

pub use gimli_core_readers::{
    DW_AT_high_pc, DW_AT_language, DW_AT_low_pc, DW_AT_ranges, DW_LNE_define_file,
    DW_LNE_end_sequence, DW_LNE_set_address, DW_LNE_set_discriminator, DW_LNS_advance_line,
    DW_LNS_advance_pc, DW_LNS_const_add_pc, DW_LNS_copy, DW_LNS_fixed_advance_pc,
    DW_LNS_negate_stmt, DW_LNS_set_basic_block, DW_LNS_set_column, DW_LNS_set_epilogue_begin,
    DW_LNS_set_file, DW_LNS_set_isa, DW_LNS_set_prologue_end, DebugAbbrevOffset, DebugAddr,
    DebugAddrIndex, DebugLineOffset, DebugLineStr, DebugLineStrOffset, DebugRngListsIndex,
    DebugStr, DebugStrOffset, DebugStrOffsets, DebugStrOffsetsIndex, DwLang, DwLne, DwLns,
    DwarfFileType, DwoId, EndianBytes, EndianSlice, Error, Format, LittleEndian, Range,
    RangeListsOffset, RawRangeListsOffset, Reader, ReaderOffset, RunTimeEndian, SectionId,
    UnitOffset,
};
pub use registers::Registers;
pub use rules::LineRules;
