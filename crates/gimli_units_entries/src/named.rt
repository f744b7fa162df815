//! The attributes of some names. Most of the others are skipped by their widths: those that reading
//! refuses only where their bytes are missing.

ghost use Rattle.std.specs.Prelude.{◌≡◌, ◌<◌, ◌≤◌, ◌^◌, ℕ, ◌∷◌, ◌++◌, [], false, length, map, slice_index, IfOk, IfSome, OnErr};
ghost use Rattle.gimli_core_base.specs.Calls.{ReturnsAsOrNoMemory};
ghost use Rattle.gimli_core_base.specs.Parsers.{map_value};
ghost use Rattle.gimli_core_base.specs.View.{after, bytes_left};
ghost use Rattle.gimli_units_forms.specs.AbbreviationViews.{attribute_view};
ghost use Rattle.gimli_units_forms.specs.AttributeReading.{attribute, attributes};
ghost use Rattle.gimli_units_forms.specs.Places.{IsAfter};
ghost use Rattle.gimli_units_entries.specs.EntryViews.{raw_attributes};
ghost use Rattle.gimli_units_entries.specs.NamedAttributes.{is_name_of, of_names, named_attributes, PassesOthers};
ghost use Rattle.gimli_units_entries.specs.SureWidths.{IsSure, is_long_number};

use gimli_core_base::constants::{DW_FORM_data8, DW_FORM_ref_sig8};
use gimli_core_base::error::Error;
use gimli_core_base::{DW_AT_ranges, DW_AT_stmt_list, DwAt, Encoding, Endianity};
use gimli_units_forms::{
    Attribute, AttributeSpecification, EndianSlice, Spelling, borrowed, bytes_before,
    push_attribute, spelling_of,
};
use gimli_units_headers::Reader;

// Whether a name is among these.
#[inline(always)]
fn is_one_of(names: &[DwAt], name: DwAt) -> bool
    ensures { result ≡ is_name_of names.now name.0 }
{
    names.iter().any(|other| other.0 == name.0)
}

// Whether an attribute is a number of eight bytes that isn't an offset.
#[inline(always)]
fn is_long_number(specification: &AttributeSpecification) -> bool
    ensures { result ≡ is_long_number (attribute_view specification.now) }
{
    let form = specification.form();
    let name = specification.name();
    let is_of_offset = name == DW_AT_stmt_list || name == DW_AT_ranges;
    !is_of_offset && (form == DW_FORM_data8 || form == DW_FORM_ref_sig8)
}

// The width of an attribute that is read wherever its bytes are there. Each type of offset holds
// all numbers of four bytes.
#[inline(always)]
fn sure_width(encoding: Encoding, specification: &AttributeSpecification) -> Option<u8>
    ensures { IfSome result (λ width. IsSure width encoding (attribute_view specification.now)) }
{
    match spelling_of(encoding, specification.form()) {
        Spelling::Fixed(width) if width <= 4 => Some(width),
        Spelling::Fixed(width) if is_long_number(specification) => Some(width),
        Spelling::Sixteen => Some(16),
        Spelling::Constant if specification.implicit_const_value().is_some() => Some(0),
        _ => None,
    }
}

// The same, if the attribute has none of these names.
#[inline(always)]
fn sure_width_of_other(
    encoding: Encoding,
    specification: &AttributeSpecification,
    names: &[DwAt],
) -> Option<u8>
    ensures sure { IfSome result
        (λ width. IsSure width encoding (attribute_view specification.now)) }
    ensures other { IfSome result
        (λ _. is_name_of names.now (attribute_view specification.now).name ≡ false) }
{
    if is_one_of(names, specification.name()) {
        None
    } else {
        sure_width(encoding, specification)
    }
}

// The bytes of a slice are numbers below 256.
#[inline(always)]
fn are_bytes(bytes: &[u8])
    ensures { (k : ℕ) → slice_index bytes.now k < 2 ^ 8 }
{}

// How many bytes the first attributes with other names take, up to one that must be read, and the
// declarations from that one on.
#[inline(always)]
fn run_of_others<'s, E: Endianity>(
    place: &EndianSlice<'_, E>,
    encoding: Encoding,
    specifications: &'s [AttributeSpecification],
    names: &[DwAt],
) -> (usize, &'s [AttributeSpecification])
    ensures passes { (limit : ℕ) → 2 ^ 32 ≤ limit
        → PassesOthers names.now (attributes limit encoding) (map attribute_view specifications.now)
        place.now (map attribute_view result.1.now) (after result.0 place.now) }
    ensures within { result.0 ≤ bytes_left place.now }
    ensures fewer { length result.1.now ≤ length specifications.now }
{
    let bytes = place.slice();
    are_bytes(bytes);
    let mut run = 0;
    let mut left = specifications;
    while let [specification, rest @ ..] = left {
        let Some(width) = sure_width_of_other(encoding, specification, names) else {
            return (run, left);
        };
        let wider = run + usize::from(width);
        if wider > bytes.len() {
            return (run, left);
        }
        run = wider;
        left = rest;
    }
    (run, left)
}

// How many bytes of a reader the first attributes with other names take, and the declarations from
// the one on that must be read.
#[inline(always)]
pub(crate) fn first_others<'s, R: Reader>(
    reader: &R,
    encoding: Encoding,
    specifications: &'s [AttributeSpecification],
    names: &[DwAt],
) -> (usize, &'s [AttributeSpecification])
    ensures passes { PassesOthers names.now (attributes R.Offset.limit encoding)
        (map attribute_view specifications.now) (R.view reader.now)
        (map attribute_view result.1.now) (after result.0 (R.view reader.now)) }
    ensures within { result.0 ≤ bytes_left (R.view reader.now) }
    ensures fewer { length result.1.now ≤ length specifications.now }
{
    run_of_others(&borrowed(reader), encoding, specifications, names)
}

// Skips these attributes, and returns the declarations from the one on that must be read.
#[inline(always)]
fn skip_others<'s, E: Endianity>(
    place: &mut EndianSlice<'_, E>,
    encoding: Encoding,
    specifications: &'s [AttributeSpecification],
    names: &[DwAt],
) -> &'s [AttributeSpecification]
    ensures same { (limit : ℕ) → 2 ^ 32 ≤ limit
        → named_attributes limit names.now encoding (map attribute_view result.now) place.new
        ≡ named_attributes limit names.now encoding (map attribute_view specifications.now)
        place.old }
    ensures leads { IsAfter place.old place.new }
    ensures fewer { length result.now ≤ length specifications.now }
{
    let (run, left) = run_of_others(place, encoding, specifications, names);
    place.advance(run);
    left
}

// Reads an attribute, and appends it to a list if it has one of these names.
#[inline(always)]
fn push_named<R: Reader>(
    attrs: &mut Vec<Attribute<R>>,
    place: &mut EndianSlice<'_, R::Endian>,
    reader: &R,
    encoding: Encoding,
    specification: AttributeSpecification,
    names: &[DwAt],
) -> Result<(), Error>
    requires { IsAfter (R.view reader.now) place.old }
    ensures { ReturnsAsOrNoMemory
        (λ _. (raw_attributes R.view R.Offset.count attrs.new.items, place.new)) result
        (map_value
        (λ a. raw_attributes R.view R.Offset.count attrs.old.items ++ of_names names.now (a ∷ []))
        (attribute R.Offset.limit encoding (attribute_view specification)) place.old) }
{
    push_attribute(attrs, place, reader, encoding, specification)?;
    if !is_one_of(names, specification.name()) {
        attrs.pop();
    }
    Ok(())
}

// Reads the attributes that declarations describe, at a place in a reader, and puts those with
// these names into a list, in place of its contents. A refusal leaves those that were read so far.
fn fill_named<R: Reader>(
    attrs: &mut Vec<Attribute<R>>,
    place: &mut EndianSlice<'_, R::Endian>,
    reader: &R,
    encoding: Encoding,
    specifications: &[AttributeSpecification],
    names: &[DwAt],
) -> Result<(), Error>
    requires { IsAfter (R.view reader.now) place.old }
    ensures { ReturnsAsOrNoMemory
        (λ _. (raw_attributes R.view R.Offset.count attrs.new.items, place.new)) result
        (named_attributes R.Offset.limit names.now encoding (map attribute_view specifications.now)
        place.old) }
{
    attrs.clear();
    let mut left = skip_others(place, encoding, specifications, names);
    while let [specification, rest @ ..] = left {
        push_named(attrs, place, reader, encoding, *specification, names)?;
        left = skip_others(place, encoding, rest, names);
    }
    Ok(())
}

// Reads the attributes that declarations describe, and puts those with these names into a list, in
// place of its contents, reusing its memory. Returns how many bytes come before what is left. A
// refusal leaves the list empty.
pub(crate) fn read_named<R: Reader>(
    attrs: &mut Vec<Attribute<R>>,
    reader: &R,
    encoding: Encoding,
    specifications: &[AttributeSpecification],
    names: &[DwAt],
) -> Result<usize, Error>
    ensures value { ReturnsAsOrNoMemory
        (λ n. (raw_attributes R.view R.Offset.count attrs.new.items, after n (R.view reader.now)))
        result
        (named_attributes R.Offset.limit names.now encoding (map attribute_view specifications.now)
        (R.view reader.now)) }
    ensures within { IfOk result (λ n. n ≤ bytes_left (R.view reader.now)) }
    ensures refusal { OnErr result (attrs.new.items ≡ []) }
{
    let mut place = borrowed(reader);
    match fill_named(attrs, &mut place, reader, encoding, specifications, names) {
        Ok(()) => Ok(bytes_before(&place, reader)),
        Err(fault) => {
            attrs.clear();
            Err(fault)
        }
    }
}
