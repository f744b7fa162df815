//! Abbreviation tables: what entries of one code have in common (DWARF 5, 7.5.3).
#![tactic(auto)]

pub mod abbreviation;
pub mod abbreviation_laws;
pub mod cache;
pub mod checked;
mod checks;
pub mod declaration;
mod facts;
pub mod owned;
pub mod section;
pub mod table;
mod tails;
pub mod widths;

pub use abbreviation::AttributeSpecification;
pub use cache::{AbbreviationsCache, AbbreviationsCacheStrategy};
pub use checked::CheckedTables;
pub use declaration::Abbreviation;
pub use gimli_core_readers::{
    DW_AT_GNU_addr_base, DW_AT_GNU_dwo_id, DW_AT_GNU_ranges_base, DW_AT_addr_base,
    DW_AT_call_column, DW_AT_call_file, DW_AT_call_line, DW_AT_high_pc, DW_AT_language,
    DW_AT_loclists_base, DW_AT_ranges, DW_AT_rnglists_base, DW_AT_stmt_list,
    DW_AT_str_offsets_base, DW_FORM_GNU_addr_index, DW_FORM_GNU_ref_alt, DW_FORM_GNU_str_index,
    DW_FORM_GNU_strp_alt, DW_FORM_addr, DW_FORM_addrx, DW_FORM_addrx1, DW_FORM_addrx2,
    DW_FORM_addrx3, DW_FORM_addrx4, DW_FORM_block, DW_FORM_block1, DW_FORM_block2, DW_FORM_block4,
    DW_FORM_data1, DW_FORM_data2, DW_FORM_data4, DW_FORM_data8, DW_FORM_data16, DW_FORM_exprloc,
    DW_FORM_flag, DW_FORM_flag_present, DW_FORM_implicit_const, DW_FORM_indirect,
    DW_FORM_line_strp, DW_FORM_loclistx, DW_FORM_ref_addr, DW_FORM_ref_sig8, DW_FORM_ref_sup4,
    DW_FORM_ref_sup8, DW_FORM_ref_udata, DW_FORM_ref1, DW_FORM_ref2, DW_FORM_ref4, DW_FORM_ref8,
    DW_FORM_rnglistx, DW_FORM_sdata, DW_FORM_sec_offset, DW_FORM_string, DW_FORM_strp,
    DW_FORM_strp_sup, DW_FORM_strx, DW_FORM_strx1, DW_FORM_strx2, DW_FORM_strx3, DW_FORM_strx4,
    DW_FORM_udata, DebugAddrBase, DebugAddrIndex, DebugInfoOffset, DebugLineOffset,
    DebugLineStrOffset, DebugLocListsBase, DebugLocListsIndex, DebugRngListsBase,
    DebugRngListsIndex, DebugStr, DebugStrOffset, DebugStrOffsetsBase, DebugStrOffsetsIndex,
    DebugTypeSignature, DwAt, DwForm, DwLang, DwoId, Encoding, EndianSlice, Error, Expression,
    Format, RawRangeListsOffset, Reader, ReaderOffset, UnitOffset, borrowed, bytes_before, cut,
};
pub use owned::OwnedAbbreviation;
pub use section::DebugAbbrev;
pub use table::Abbreviations;
pub use widths::FixedWidths;
