//! Writers: what bytes of debugging information are written to, with numbers in both byte orders.
#![tactic(auto)]

pub mod address;
pub mod endian_vec;
pub mod error;
pub mod word;
pub mod writer;

pub use address::Address;
pub use endian_vec::EndianVec;
pub use error::Error;
pub use gimli_core_base::constants::{
    DW_FORM_addr, DW_FORM_data4, DW_FORM_data8, DW_FORM_data16, DW_FORM_line_strp,
    DW_FORM_sec_offset, DW_FORM_string, DW_FORM_strp, DW_FORM_udata, DW_RLE_end_of_list,
    DW_RLE_start_end, DW_UT_compile, DwForm,
};
pub use gimli_core_base::leb128::Leb128;
pub use gimli_core_base::{
    DW_AT_call_column, DW_AT_call_file, DW_AT_call_line, DW_AT_comp_dir, DW_AT_low_pc, DW_AT_name,
    DW_AT_ranges, DW_AT_stmt_list, DW_LNCT_LLVM_source, DW_LNCT_MD5, DW_LNCT_directory_index,
    DW_LNCT_path, DW_LNCT_size, DW_LNCT_timestamp, DW_LNE_end_sequence, DW_LNE_set_address,
    DW_LNE_set_discriminator, DW_LNS_advance_line, DW_LNS_advance_pc, DW_LNS_const_add_pc,
    DW_LNS_negate_stmt, DW_LNS_set_basic_block, DW_LNS_set_column, DW_LNS_set_epilogue_begin,
    DW_LNS_set_file, DW_LNS_set_isa, DW_LNS_set_prologue_end, DW_TAG_compile_unit,
    DW_TAG_inlined_subroutine, DW_TAG_subprogram, DebugLineOffset, DebugLineStrOffset,
    DebugStrOffset, DwAt, DwLnct, DwTag, Encoding, Endianity, Format, LineEncoding, RunTimeEndian,
    SectionId,
};
pub use writer::{InitialLengthOffset, Writer};
