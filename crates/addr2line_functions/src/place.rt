//! The place that calls a function, as the entry of a call names it (DWARF 5, 3.3.8.2).

ghost use Rattle.std.specs.Prelude.{◌≡◌, ◌==◌};
ghost use Rattle.gimli_units_entries.specs.EntryViews.{raw_attributes};
ghost use Rattle.gimli_units_entries.specs.AttributeValues.{raw_attribute_of};
ghost use Rattle.addr2line_ranges.specs.InlinedCalls.{unsigned_in, last_unsigned, call_file, number_or_0};

use gimli_units_entries::{Attribute, DW_AT_call_file, DwAt, Reader};

// The version from which on a call's file may be number 0.
const FIRST_WITH_FILE_0: u16 = 5;

// The unsigned number of an attribute, if it has this name and such a number.
fn unsigned_in<R: Reader>(attribute: &Attribute<R>, name: DwAt) -> Option<u64>
    ensures { result
        ≡ unsigned_in (λ n. n == name.0) (raw_attribute_of R.view R.Offset.count attribute.now) }
{
    if attribute.name() == name {
        attribute.udata_value()
    } else {
        None
    }
}

// The unsigned number of the last attribute of a name that has one.
fn last_unsigned<R: Reader>(attributes: &[Attribute<R>], name: DwAt) -> Option<u64>
    ensures { result
        ≡ last_unsigned (λ n. n == name.0) (raw_attributes R.view R.Offset.count attributes.now) }
{
    let mut found = None;
    for attribute in attributes {
        found = unsigned_in(attribute, name).or(found);
    }
    found
}

// The number of the file that calls; before version 5 of the format the number 0 means none.
pub(crate) fn call_file<R: Reader>(attributes: &[Attribute<R>], version: u16) -> Option<u64>
    ensures { result ≡ call_file version (raw_attributes R.view R.Offset.count attributes.now) }
{
    let file = last_unsigned(attributes, DW_AT_call_file)?;
    if version < FIRST_WITH_FILE_0 && file == 0 {
        None
    } else {
        Some(file)
    }
}

// The line or the column that calls, modulo 2^32; 0 where it isn't known.
pub(crate) fn number_or_0<R: Reader>(attributes: &[Attribute<R>], name: DwAt) -> u32
    ensures { result
        ≡ number_or_0 (λ n. n == name.0) (raw_attributes R.view R.Offset.count attributes.now) }
{
    let number = last_unsigned(attributes, name).unwrap_or(0);
    (number & u64::from(u32::MAX)) as u32
}
