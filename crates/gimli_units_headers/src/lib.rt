//! Unit headers and address range headers: what comes before the entries of a unit and the pairs of
//! a set.
#![tactic(auto)]

pub mod arange_entry;
pub mod arange_set;
pub mod aranges;
pub mod fields;
pub mod header;
pub mod info;
pub mod offset;
mod parts;

pub use arange_entry::{ArangeEntry, ArangeEntryIter};
pub use arange_set::ArangeHeader;
pub use aranges::{ArangeHeaderIter, DebugAranges};
pub use fields::UnitType;
pub use gimli_core_base::constants::{
    DW_FORM_block, DW_FORM_block1, DW_FORM_block2, DW_FORM_block4, DW_FORM_data1, DW_FORM_data2,
    DW_FORM_data4, DW_FORM_data8, DW_FORM_data16, DW_FORM_flag, DW_FORM_line_strp, DW_FORM_sdata,
    DW_FORM_sec_offset, DW_FORM_string, DW_FORM_strp, DW_FORM_strp_sup, DW_FORM_strx,
    DW_FORM_strx1, DW_FORM_strx2, DW_FORM_strx3, DW_FORM_strx4, DW_FORM_udata, DWARF64_ESCAPE,
    DwForm, FIRST_RESERVED_LENGTH,
};
pub use gimli_core_base::error::Error;
pub use gimli_core_base::{
    DW_LNCT_LLVM_source, DW_LNCT_MD5, DW_LNCT_directory_index, DW_LNCT_path, DW_LNCT_size,
    DW_LNCT_timestamp, DebugLineOffset, DebugLineStrOffset, DebugStrOffset, DwAt, DwLnct, Encoding,
    Endianity, Format, LineEncoding, ReaderOffset, SectionId,
};
pub use gimli_core_readers::{EndianSlice, Range, Reader, Section, UnitOffset};
pub use header::UnitHeader;
pub use info::{DebugInfo, DebugInfoUnitHeadersIter};
pub use offset::{OffsetInSection, OffsetInUnit};
