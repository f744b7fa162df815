//! How many bytes the first values of an entry have, where the forms alone say it.

ghost use Rattle.std.specs.Prelude.{◌≡◌, ◌≤◌};
ghost use Rattle.gimli_core_readers.specs.Encoding.{Encoding};
ghost use Rattle.gimli_core_abbrev.specs.FormWidths.{AreBytes, IsOfAtMostOne, count_of_widths, fixed_width_of, no_widths, sum_of_widths, total_width, width_of_one, widths_in};

use gimli_core_readers::{DW_FORM_GNU_ref_alt, DW_FORM_GNU_strp_alt, DwForm, Encoding};

/// The bytes of the first values of an entry, known before the encoding is: plain bytes, addresses
/// and offsets. They end before the first form whose width depends on the bytes or on the version
/// of the standard (DWARF 5, 7.5.6), and after 15 attributes.
#[derive(Clone, Copy, Debug, PartialEq, Eq)]
pub struct FixedWidths {
    pub(crate) bytes: u8,
    pub(crate) addresses: u8,
    pub(crate) offsets: u8,
    pub(crate) attributes: u8,
}

// The same in one number, which is added to in one step: a byte each, from the low one on, for the
// bytes, the addresses, the offsets and how many attributes have them.
#[derive(Clone, Copy, Debug, PartialEq, Eq)]
pub(crate) struct PackedWidths(u32);

// Of no attribute: the width of the form depends on the bytes or on the version of the standard.
const UNKNOWN: PackedWidths = PackedWidths(0);

// Of one attribute of n bytes.
const BYTES_0: PackedWidths = PackedWidths(0x0100_0000);

const BYTES_1: PackedWidths = PackedWidths(0x0100_0001);

const BYTES_2: PackedWidths = PackedWidths(0x0100_0002);

const BYTES_3: PackedWidths = PackedWidths(0x0100_0003);

const BYTES_4: PackedWidths = PackedWidths(0x0100_0004);

const BYTES_8: PackedWidths = PackedWidths(0x0100_0008);

const BYTES_16: PackedWidths = PackedWidths(0x0100_0010);

// Of one attribute that is an address.
const ADDRESS: PackedWidths = PackedWidths(0x0100_0100);

// Of one attribute that is an offset.
const OFFSET: PackedWidths = PackedWidths(0x0101_0000);

// How many forms there are in the standard, from 0 on.
const FORMS: usize = 45;

// Of one attribute of each form of the standard (DWARF 5, 7.5.6).
static OF_FORMS: [PackedWidths; FORMS] = [
    UNKNOWN, // 0x00 is no form
    ADDRESS, // DW_FORM_addr
    UNKNOWN, // 0x02 is no form
    UNKNOWN, // DW_FORM_block2
    UNKNOWN, // DW_FORM_block4
    BYTES_2, // DW_FORM_data2
    BYTES_4, // DW_FORM_data4
    BYTES_8, // DW_FORM_data8
    UNKNOWN, // DW_FORM_string
    UNKNOWN, // DW_FORM_block
    UNKNOWN, // DW_FORM_block1
    BYTES_1, // DW_FORM_data1
    BYTES_1, // DW_FORM_flag
    UNKNOWN, // DW_FORM_sdata
    OFFSET, // DW_FORM_strp
    UNKNOWN, // DW_FORM_udata
    UNKNOWN, // DW_FORM_ref_addr
    BYTES_1, // DW_FORM_ref1
    BYTES_2, // DW_FORM_ref2
    BYTES_4, // DW_FORM_ref4
    BYTES_8, // DW_FORM_ref8
    UNKNOWN, // DW_FORM_ref_udata
    UNKNOWN, // DW_FORM_indirect
    OFFSET, // DW_FORM_sec_offset
    UNKNOWN, // DW_FORM_exprloc
    BYTES_0, // DW_FORM_flag_present
    UNKNOWN, // DW_FORM_strx
    UNKNOWN, // DW_FORM_addrx
    BYTES_4, // DW_FORM_ref_sup4
    OFFSET, // DW_FORM_strp_sup
    BYTES_16, // DW_FORM_data16
    OFFSET, // DW_FORM_line_strp
    BYTES_8, // DW_FORM_ref_sig8
    BYTES_0, // DW_FORM_implicit_const
    UNKNOWN, // DW_FORM_loclistx
    UNKNOWN, // DW_FORM_rnglistx
    BYTES_8, // DW_FORM_ref_sup8
    BYTES_1, // DW_FORM_strx1
    BYTES_2, // DW_FORM_strx2
    BYTES_3, // DW_FORM_strx3
    BYTES_4, // DW_FORM_strx4
    BYTES_1, // DW_FORM_addrx1
    BYTES_2, // DW_FORM_addrx2
    BYTES_3, // DW_FORM_addrx3
    BYTES_4, // DW_FORM_addrx4
];

impl FixedWidths {
    /// How many attributes have these widths.
    #[inline(always)]
    pub fn attributes(self) -> usize
        ensures { result ≡ count_of_widths self }
    {
        self.attributes as usize
    }

    /// The bytes of their values.
    #[inline(always)]
    pub fn bytes(self, encoding: Encoding) -> usize
        ensures { result ≡ total_width encoding self }
    {
        self.bytes as usize
            + self.addresses as usize * encoding.address_size as usize
            + self.offsets as usize * encoding.format.word_size() as usize
    }
}

impl PackedWidths {
    // Of no attribute.
    #[inline(always)]
    pub(crate) fn none() -> Self
        ensures { widths_in result ≡ no_widths }
    {
        UNKNOWN
    }

    // Of one attribute of a form, if its width is the same in each version of the standard; else of
    // none.
    #[inline(always)]
    pub(crate) fn of_form(form: DwForm) -> Self
        ensures small { IsOfAtMostOne (widths_in result) }
        ensures width { (encoding : Encoding)
            → fixed_width_of encoding form.0 ≡ width_of_one encoding (widths_in result) }
    {
        let row = form.0 as usize;
        if row < FORMS {
            OF_FORMS[row]
        } else {
            PackedWidths::of_vendor_form(form)
        }
    }

    // Of one attribute of a form that comes after those of the standard.
    #[inline(always)]
    fn of_vendor_form(form: DwForm) -> Self
        requires { FORMS ≤ form.0 }
        ensures small { IsOfAtMostOne (widths_in result) }
        ensures width { (encoding : Encoding)
            → fixed_width_of encoding form.0 ≡ width_of_one encoding (widths_in result) }
    {
        match form {
            DW_FORM_GNU_ref_alt | DW_FORM_GNU_strp_alt => OFFSET,
            _ => UNKNOWN,
        }
    }

    // How many attributes have these widths.
    #[inline(always)]
    pub(crate) fn attributes(self) -> u32
        ensures { result ≡ (widths_in self).attributes }
    {
        self.0 >> 24
    }

    // These widths, and others if the count is 1.
    #[inline(always)]
    pub(crate) fn plus(self, others: Self, count: u32) -> Self
        requires count { count ≤ 1 }
        requires room { AreBytes (sum_of_widths (widths_in self) count (widths_in others)) }
        ensures { widths_in result ≡ sum_of_widths (widths_in self) count (widths_in others) }
    {
        PackedWidths(self.0 + count * others.0)
    }

    // Each by itself.
    #[inline(always)]
    pub(crate) fn unpacked(self) -> FixedWidths
        ensures { result ≡ widths_in self }
    {
        let [bytes, addresses, offsets, attributes] = self.0.to_le_bytes();
        FixedWidths {
            bytes,
            addresses,
            offsets,
            attributes,
        }
    }
}
