//! The attributes that names are made of (DWARF 5, 2.15, 2.22 and 7.5.4).

ghost use Rattle.std.specs.Prelude.{◌≡◌, ℕ};
ghost use Rattle.gimli_dwarf.specs.NamedAttributes.{is_name_of};
ghost use Rattle.gimli_dwarf.specs.UnitFacts.{is_name};
ghost use Rattle.addr2line_names.specs.EntryNamings.{is_linkage_name, is_reference};
ghost use Rattle.addr2line_names.specs.PassedAttributes.{is_naming};

use gimli_dwarf::{
    DW_AT_MIPS_linkage_name, DW_AT_abstract_origin, DW_AT_linkage_name, DW_AT_name,
    DW_AT_specification, DwAt,
};

/// The name of an entry.
#[inline(always)]
pub(crate) fn is_name(name: DwAt) -> bool
    ensures { result ≡ is_name name.0 }
{
    name == DW_AT_name
}

/// The standard's linkage name, or the one of older compilers.
#[inline(always)]
pub(crate) fn is_linkage_name(name: DwAt) -> bool
    ensures { result ≡ is_linkage_name name.0 }
{
    name == DW_AT_linkage_name || name == DW_AT_MIPS_linkage_name
}

/// A reference to the entry that this one is an instance of, or that it completes.
#[inline(always)]
pub(crate) fn is_reference(name: DwAt) -> bool
    ensures { result ≡ is_reference name.0 }
{
    name == DW_AT_abstract_origin || name == DW_AT_specification
}

/// Whether names are made of attributes of a name.
#[inline(always)]
pub fn is_naming(name: DwAt) -> bool
    ensures { result ≡ is_naming name.0 }
{
    is_name(name) || is_reference(name) || is_linkage_name(name)
}

/// The names of these attributes.
#[inline(always)]
pub(crate) fn naming_names() -> [DwAt; 5]
    ensures { (name : ℕ) → is_name_of result name ≡ is_naming name }
{
    [
        DW_AT_name,
        DW_AT_abstract_origin,
        DW_AT_specification,
        DW_AT_linkage_name,
        DW_AT_MIPS_linkage_name,
    ]
}
