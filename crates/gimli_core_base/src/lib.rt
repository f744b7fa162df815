//! What the crates above have in common: refusals, the standard's constants, plain values and
//! numbers as bytes, and in `specs/` the words in which reading is defined: a view of bytes,
//! parsers of views, and how a call's result relates to its meaning.
#![tactic(auto)]

pub mod common;
pub mod constants;
pub mod error;
pub mod leb128;
pub mod number_laws;
pub mod offset;
pub mod order;
pub mod standard_numbers;

pub use common::{
    DebugAbbrevOffset, DebugAddrBase, DebugAddrIndex, DebugAddrOffset, DebugArangesOffset,
    DebugLineOffset, DebugLineStrOffset, DebugLocListsBase, DebugLocListsIndex, DebugRngListsBase,
    DebugRngListsIndex, DebugStrOffset, DebugStrOffsetsBase, DebugStrOffsetsIndex,
    DebugTypeSignature, DwarfFileType, DwoId, Encoding, Format, LineEncoding, LocationListsOffset,
    RangeListsOffset, RawRangeListsOffset, SectionId,
};
pub use constants::{
    DW_AT_GNU_addr_base, DW_AT_GNU_dwo_id, DW_AT_GNU_dwo_name, DW_AT_GNU_ranges_base,
    DW_AT_MIPS_linkage_name, DW_AT_abstract_origin, DW_AT_addr_base, DW_AT_call_column,
    DW_AT_call_file, DW_AT_call_line, DW_AT_comp_dir, DW_AT_dwo_name, DW_AT_high_pc,
    DW_AT_language, DW_AT_linkage_name, DW_AT_loclists_base, DW_AT_low_pc, DW_AT_name,
    DW_AT_ranges, DW_AT_rnglists_base, DW_AT_specification, DW_AT_stmt_list,
    DW_AT_str_offsets_base, DW_LANG_Rust, DW_LNCT_LLVM_source, DW_LNCT_MD5,
    DW_LNCT_directory_index, DW_LNCT_path, DW_LNCT_size, DW_LNCT_timestamp, DW_LNE_define_file,
    DW_LNE_end_sequence, DW_LNE_set_address, DW_LNE_set_discriminator, DW_LNS_advance_line,
    DW_LNS_advance_pc, DW_LNS_const_add_pc, DW_LNS_copy, DW_LNS_fixed_advance_pc,
    DW_LNS_negate_stmt, DW_LNS_set_basic_block, DW_LNS_set_column, DW_LNS_set_epilogue_begin,
    DW_LNS_set_file, DW_LNS_set_isa, DW_LNS_set_prologue_end, DW_TAG_compile_unit,
    DW_TAG_inlined_subroutine, DW_TAG_partial_unit, DW_TAG_skeleton_unit, DW_TAG_subprogram,
    DW_TAG_type_unit, DWARF64_ESCAPE, DwAt, DwLang, DwLnct, DwLne, DwLns, DwTag,
    FIRST_RESERVED_LENGTH,
};
pub use offset::ReaderOffset;
pub use order::{BigEndian, Endianity, LittleEndian, RunTimeEndian};
