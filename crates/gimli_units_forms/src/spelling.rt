ghost use Rattle.std.specs.Prelude.{◌≡◌};
ghost use Rattle.gimli_units_forms.specs.FormSpellings.{spelling};

use gimli_core_abbrev::{
    DW_FORM_GNU_addr_index, DW_FORM_GNU_ref_alt, DW_FORM_GNU_str_index, DW_FORM_GNU_strp_alt,
    DW_FORM_addr, DW_FORM_addrx, DW_FORM_addrx1, DW_FORM_addrx2, DW_FORM_addrx3, DW_FORM_addrx4,
    DW_FORM_block, DW_FORM_block1, DW_FORM_block2, DW_FORM_block4, DW_FORM_data1, DW_FORM_data2,
    DW_FORM_data4, DW_FORM_data8, DW_FORM_data16, DW_FORM_exprloc, DW_FORM_flag,
    DW_FORM_flag_present, DW_FORM_implicit_const, DW_FORM_indirect, DW_FORM_line_strp,
    DW_FORM_loclistx, DW_FORM_ref_addr, DW_FORM_ref_sig8, DW_FORM_ref_sup4, DW_FORM_ref_sup8,
    DW_FORM_ref_udata, DW_FORM_ref1, DW_FORM_ref2, DW_FORM_ref4, DW_FORM_ref8, DW_FORM_rnglistx,
    DW_FORM_sdata, DW_FORM_sec_offset, DW_FORM_string, DW_FORM_strp, DW_FORM_strp_sup,
    DW_FORM_strx, DW_FORM_strx1, DW_FORM_strx2, DW_FORM_strx3, DW_FORM_strx4, DW_FORM_udata,
    DwForm, Encoding,
};

/// How the value of a form is spelled (DWARF 5, 7.5.5 and 7.5.6).
#[derive(Clone, Copy, Debug, PartialEq, Eq)]
pub enum Spelling {
    /// An address of the encoding.
    Address,
    /// A number of that many bytes, eight at most.
    Fixed(u8),
    /// A number of sixteen bytes.
    Sixteen,
    /// A length of that many bytes, and as many bytes as it says.
    Block(u8),
    /// An unsigned LEB128 length, and as many bytes as it says.
    LongBlock,
    /// An unsigned LEB128 number.
    Unsigned,
    /// A signed LEB128 number.
    Signed,
    /// Bytes up to a zero byte, which belongs to them.
    Text,
    /// The number of a form, and a value of that form.
    Indirect,
    /// No bytes: the value is in the abbreviation.
    Constant,
    /// No form of the standard or of GNU.
    Unknown,
}

/// How a form spells its value.
#[inline(always)]
#[tactic(auto, unfolding(crate::specs::FormSpellings::spelling))]
pub fn spelling_of(encoding: Encoding, form: DwForm) -> Spelling
    ensures { result ≡ spelling encoding form.0 }
{
    match form {
        DW_FORM_addr => Spelling::Address,
        DW_FORM_block1 => Spelling::Block(1),
        DW_FORM_block2 => Spelling::Block(2),
        DW_FORM_block4 => Spelling::Block(4),
        DW_FORM_block | DW_FORM_exprloc => Spelling::LongBlock,
        DW_FORM_flag_present => Spelling::Fixed(0),
        DW_FORM_data1 | DW_FORM_flag | DW_FORM_ref1 | DW_FORM_strx1 | DW_FORM_addrx1 => {
            Spelling::Fixed(1)
        }
        DW_FORM_data2 | DW_FORM_ref2 | DW_FORM_strx2 | DW_FORM_addrx2 => Spelling::Fixed(2),
        DW_FORM_strx3 | DW_FORM_addrx3 => Spelling::Fixed(3),
        DW_FORM_data4 | DW_FORM_ref4 | DW_FORM_ref_sup4 | DW_FORM_strx4 | DW_FORM_addrx4 => {
            Spelling::Fixed(4)
        }
        DW_FORM_data8 | DW_FORM_ref8 | DW_FORM_ref_sig8 | DW_FORM_ref_sup8 => Spelling::Fixed(8),
        DW_FORM_data16 => Spelling::Sixteen,
        DW_FORM_sec_offset
        | DW_FORM_strp
        | DW_FORM_line_strp
        | DW_FORM_strp_sup
        | DW_FORM_GNU_ref_alt
        | DW_FORM_GNU_strp_alt => Spelling::Fixed(encoding.format.word_size()),
        DW_FORM_ref_addr if encoding.version == 2 => Spelling::Address,
        DW_FORM_ref_addr => Spelling::Fixed(encoding.format.word_size()),
        DW_FORM_udata
        | DW_FORM_ref_udata
        | DW_FORM_strx
        | DW_FORM_addrx
        | DW_FORM_loclistx
        | DW_FORM_rnglistx
        | DW_FORM_GNU_addr_index
        | DW_FORM_GNU_str_index => Spelling::Unsigned,
        DW_FORM_sdata => Spelling::Signed,
        DW_FORM_string => Spelling::Text,
        DW_FORM_indirect => Spelling::Indirect,
        DW_FORM_implicit_const => Spelling::Constant,
        _ => Spelling::Unknown,
    }
}
