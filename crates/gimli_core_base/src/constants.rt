//! The numbers of the DWARF standard that a refusal can name, and the identifier of a place.

/// The identifier of a place in a reader: that of the reader's first byte plus the bytes before the
/// place.
#[derive(Clone, Copy, Debug, PartialEq, Eq, PartialOrd, Ord, Hash)]
pub struct ReaderOffsetId(pub u64);

/// The initial length that begins a length of 64-bit DWARF (DWARF 5, 7.4).
pub const DWARF64_ESCAPE: u32 = 0xffff_ffff;

/// The first of the initial lengths that are reserved (DWARF 5, 7.2.2).
pub const FIRST_RESERVED_LENGTH: u32 = 0xffff_fff0;

/// The form of an attribute's value (DWARF 5, 7.5.6).
#[derive(Clone, Copy, Debug, PartialEq, Eq, PartialOrd, Ord, Hash)]
pub struct DwForm(pub u16);

pub const DW_FORM_addr: DwForm = DwForm(0x01);

pub const DW_FORM_block2: DwForm = DwForm(0x03);

pub const DW_FORM_block4: DwForm = DwForm(0x04);

pub const DW_FORM_data2: DwForm = DwForm(0x05);

pub const DW_FORM_data4: DwForm = DwForm(0x06);

pub const DW_FORM_data8: DwForm = DwForm(0x07);

pub const DW_FORM_string: DwForm = DwForm(0x08);

pub const DW_FORM_block: DwForm = DwForm(0x09);

pub const DW_FORM_block1: DwForm = DwForm(0x0a);

pub const DW_FORM_data1: DwForm = DwForm(0x0b);

pub const DW_FORM_flag: DwForm = DwForm(0x0c);

pub const DW_FORM_sdata: DwForm = DwForm(0x0d);

pub const DW_FORM_strp: DwForm = DwForm(0x0e);

pub const DW_FORM_udata: DwForm = DwForm(0x0f);

pub const DW_FORM_ref_addr: DwForm = DwForm(0x10);

pub const DW_FORM_ref1: DwForm = DwForm(0x11);

pub const DW_FORM_ref2: DwForm = DwForm(0x12);

pub const DW_FORM_ref4: DwForm = DwForm(0x13);

pub const DW_FORM_ref8: DwForm = DwForm(0x14);

pub const DW_FORM_ref_udata: DwForm = DwForm(0x15);

pub const DW_FORM_indirect: DwForm = DwForm(0x16);

pub const DW_FORM_sec_offset: DwForm = DwForm(0x17);

pub const DW_FORM_exprloc: DwForm = DwForm(0x18);

pub const DW_FORM_flag_present: DwForm = DwForm(0x19);

pub const DW_FORM_strx: DwForm = DwForm(0x1a);

pub const DW_FORM_addrx: DwForm = DwForm(0x1b);

pub const DW_FORM_ref_sup4: DwForm = DwForm(0x1c);

pub const DW_FORM_strp_sup: DwForm = DwForm(0x1d);

pub const DW_FORM_data16: DwForm = DwForm(0x1e);

pub const DW_FORM_line_strp: DwForm = DwForm(0x1f);

pub const DW_FORM_ref_sig8: DwForm = DwForm(0x20);

pub const DW_FORM_implicit_const: DwForm = DwForm(0x21);

pub const DW_FORM_loclistx: DwForm = DwForm(0x22);

pub const DW_FORM_rnglistx: DwForm = DwForm(0x23);

pub const DW_FORM_ref_sup8: DwForm = DwForm(0x24);

pub const DW_FORM_strx1: DwForm = DwForm(0x25);

pub const DW_FORM_strx2: DwForm = DwForm(0x26);

pub const DW_FORM_strx3: DwForm = DwForm(0x27);

pub const DW_FORM_strx4: DwForm = DwForm(0x28);

pub const DW_FORM_addrx1: DwForm = DwForm(0x29);

pub const DW_FORM_addrx2: DwForm = DwForm(0x2a);

pub const DW_FORM_addrx3: DwForm = DwForm(0x2b);

pub const DW_FORM_addrx4: DwForm = DwForm(0x2c);

pub const DW_FORM_GNU_addr_index: DwForm = DwForm(0x1f01);

pub const DW_FORM_GNU_str_index: DwForm = DwForm(0x1f02);

pub const DW_FORM_GNU_ref_alt: DwForm = DwForm(0x1f20);

pub const DW_FORM_GNU_strp_alt: DwForm = DwForm(0x1f21);

/// The type of a unit (DWARF 5, 7.5.1).
#[derive(Clone, Copy, Debug, PartialEq, Eq, PartialOrd, Ord, Hash)]
pub struct DwUt(pub u8);

pub const DW_UT_compile: DwUt = DwUt(0x01);

pub const DW_UT_type: DwUt = DwUt(0x02);

pub const DW_UT_partial: DwUt = DwUt(0x03);

pub const DW_UT_skeleton: DwUt = DwUt(0x04);

pub const DW_UT_split_compile: DwUt = DwUt(0x05);

pub const DW_UT_split_type: DwUt = DwUt(0x06);

/// The kind of a range list's entry (DWARF 5, 7.25).
#[derive(Clone, Copy, Debug, PartialEq, Eq, PartialOrd, Ord, Hash)]
pub struct DwRle(pub u8);

pub const DW_RLE_end_of_list: DwRle = DwRle(0x00);

pub const DW_RLE_base_addressx: DwRle = DwRle(0x01);

pub const DW_RLE_startx_endx: DwRle = DwRle(0x02);

pub const DW_RLE_startx_length: DwRle = DwRle(0x03);

pub const DW_RLE_offset_pair: DwRle = DwRle(0x04);

pub const DW_RLE_base_address: DwRle = DwRle(0x05);

pub const DW_RLE_start_end: DwRle = DwRle(0x06);

pub const DW_RLE_start_length: DwRle = DwRle(0x07);

/// The kind of a location list's entry (DWARF 5, 7.7.3).
#[derive(Clone, Copy, Debug, PartialEq, Eq, PartialOrd, Ord, Hash)]
pub struct DwLle(pub u8);

pub const DW_LLE_end_of_list: DwLle = DwLle(0x00);

pub const DW_LLE_base_addressx: DwLle = DwLle(0x01);

pub const DW_LLE_startx_endx: DwLle = DwLle(0x02);

pub const DW_LLE_startx_length: DwLle = DwLle(0x03);

pub const DW_LLE_offset_pair: DwLle = DwLle(0x04);

pub const DW_LLE_default_location: DwLle = DwLle(0x05);

pub const DW_LLE_base_address: DwLle = DwLle(0x06);

pub const DW_LLE_start_end: DwLle = DwLle(0x07);

pub const DW_LLE_start_length: DwLle = DwLle(0x08);

/// The tag of an entry (DWARF 5, 7.5.3).
#[derive(Clone, Copy, Debug, PartialEq, Eq, PartialOrd, Ord, Hash)]
pub struct DwTag(pub u16);

pub const DW_TAG_compile_unit: DwTag = DwTag(0x11);

pub const DW_TAG_inlined_subroutine: DwTag = DwTag(0x1d);

pub const DW_TAG_subprogram: DwTag = DwTag(0x2e);

pub const DW_TAG_partial_unit: DwTag = DwTag(0x3c);

pub const DW_TAG_type_unit: DwTag = DwTag(0x41);

pub const DW_TAG_skeleton_unit: DwTag = DwTag(0x4a);

/// Whether entries of a code have children (DWARF 5, 7.5.3).
#[derive(Clone, Copy, Debug, PartialEq, Eq, PartialOrd, Ord, Hash)]
pub struct DwChildren(pub u8);

pub const DW_CHILDREN_no: DwChildren = DwChildren(0x00);

pub const DW_CHILDREN_yes: DwChildren = DwChildren(0x01);

/// The name of an attribute (DWARF 5, 7.5.4).
#[derive(Clone, Copy, Debug, PartialEq, Eq, PartialOrd, Ord, Hash)]
pub struct DwAt(pub u16);

pub const DW_AT_name: DwAt = DwAt(0x03);

pub const DW_AT_stmt_list: DwAt = DwAt(0x10);

pub const DW_AT_low_pc: DwAt = DwAt(0x11);

pub const DW_AT_high_pc: DwAt = DwAt(0x12);

pub const DW_AT_language: DwAt = DwAt(0x13);

pub const DW_AT_comp_dir: DwAt = DwAt(0x1b);

pub const DW_AT_abstract_origin: DwAt = DwAt(0x31);

pub const DW_AT_specification: DwAt = DwAt(0x47);

pub const DW_AT_ranges: DwAt = DwAt(0x55);

pub const DW_AT_call_column: DwAt = DwAt(0x57);

pub const DW_AT_call_file: DwAt = DwAt(0x58);

pub const DW_AT_call_line: DwAt = DwAt(0x59);

pub const DW_AT_linkage_name: DwAt = DwAt(0x6e);

pub const DW_AT_str_offsets_base: DwAt = DwAt(0x72);

pub const DW_AT_addr_base: DwAt = DwAt(0x73);

pub const DW_AT_rnglists_base: DwAt = DwAt(0x74);

pub const DW_AT_dwo_name: DwAt = DwAt(0x76);

pub const DW_AT_loclists_base: DwAt = DwAt(0x8c);

// Names of vendors, from the range that the standard leaves to them.
pub const DW_AT_MIPS_linkage_name: DwAt = DwAt(0x2007);

pub const DW_AT_GNU_dwo_name: DwAt = DwAt(0x2130);

pub const DW_AT_GNU_dwo_id: DwAt = DwAt(0x2131);

pub const DW_AT_GNU_ranges_base: DwAt = DwAt(0x2132);

pub const DW_AT_GNU_addr_base: DwAt = DwAt(0x2133);

/// A source language (DWARF 5, 7.12).
#[derive(Clone, Copy, Debug, PartialEq, Eq, PartialOrd, Ord, Hash)]
pub struct DwLang(pub u16);

pub const DW_LANG_Rust: DwLang = DwLang(0x1c);

/// A standard opcode of a line number program (DWARF 5, 7.22).
#[derive(Clone, Copy, Debug, PartialEq, Eq, PartialOrd, Ord, Hash)]
pub struct DwLns(pub u8);

pub const DW_LNS_copy: DwLns = DwLns(0x01);

pub const DW_LNS_advance_pc: DwLns = DwLns(0x02);

pub const DW_LNS_advance_line: DwLns = DwLns(0x03);

pub const DW_LNS_set_file: DwLns = DwLns(0x04);

pub const DW_LNS_set_column: DwLns = DwLns(0x05);

pub const DW_LNS_negate_stmt: DwLns = DwLns(0x06);

pub const DW_LNS_set_basic_block: DwLns = DwLns(0x07);

pub const DW_LNS_const_add_pc: DwLns = DwLns(0x08);

pub const DW_LNS_fixed_advance_pc: DwLns = DwLns(0x09);

pub const DW_LNS_set_prologue_end: DwLns = DwLns(0x0a);

pub const DW_LNS_set_epilogue_begin: DwLns = DwLns(0x0b);

pub const DW_LNS_set_isa: DwLns = DwLns(0x0c);

/// An extended opcode of a line number program (DWARF 5, 7.22).
#[derive(Clone, Copy, Debug, PartialEq, Eq, PartialOrd, Ord, Hash)]
pub struct DwLne(pub u8);

pub const DW_LNE_end_sequence: DwLne = DwLne(0x01);

pub const DW_LNE_set_address: DwLne = DwLne(0x02);

pub const DW_LNE_define_file: DwLne = DwLne(0x03);

pub const DW_LNE_set_discriminator: DwLne = DwLne(0x04);

/// What a field of a directory or file entry of a version 5 line number program holds (DWARF 5,
/// 7.22).
#[derive(Clone, Copy, Debug, PartialEq, Eq, PartialOrd, Ord, Hash)]
pub struct DwLnct(pub u16);

pub const DW_LNCT_path: DwLnct = DwLnct(0x1);

pub const DW_LNCT_directory_index: DwLnct = DwLnct(0x2);

pub const DW_LNCT_timestamp: DwLnct = DwLnct(0x3);

pub const DW_LNCT_size: DwLnct = DwLnct(0x4);

pub const DW_LNCT_MD5: DwLnct = DwLnct(0x5);

/// The text of the source file; a vendor's.
pub const DW_LNCT_LLVM_source: DwLnct = DwLnct(0x2001);
