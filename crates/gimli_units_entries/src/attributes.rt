//! The attributes of an entry, read one after the other.

ghost use Rattle.std.specs.Prelude.{◌≡◌, ◌≤◌, [], map, IfOk, OnErr};
ghost use Rattle.gimli_core_base.specs.Calls.{ReturnsAsOrNoMemory};
ghost use Rattle.gimli_core_base.specs.View.{after, bytes_left};
ghost use Rattle.gimli_units_forms.specs.AbbreviationViews.{attribute_view};
ghost use Rattle.gimli_units_forms.specs.AttributeReading.{attributes};
ghost use Rattle.gimli_units_forms.specs.Places.{IsAfter};
ghost use Rattle.gimli_units_entries.specs.EntryViews.{raw_attributes};

use gimli_core_base::Encoding;
use gimli_core_base::error::Error;
use gimli_units_forms::{
    Attribute, AttributeSpecification, EndianSlice, borrowed, bytes_before, push_attribute,
};
use gimli_units_headers::Reader;

// Reads the attributes that declarations describe, at a place in a reader, into a list, in place of
// its contents. A refusal leaves those that were read so far.
fn fill<R: Reader>(
    attrs: &mut Vec<Attribute<R>>,
    place: &mut EndianSlice<'_, R::Endian>,
    reader: &R,
    encoding: Encoding,
    specifications: &[AttributeSpecification],
) -> Result<(), Error>
    requires { IsAfter (R.view reader.now) place.old }
    ensures { ReturnsAsOrNoMemory
        (λ _. (raw_attributes R.view R.Offset.count attrs.new.items, place.new)) result
        (attributes R.Offset.limit encoding (map attribute_view specifications.now) place.old) }
{
    attrs.clear();
    for specification in specifications {
        push_attribute(attrs, place, reader, encoding, *specification)?;
    }
    Ok(())
}

// Reads the attributes that declarations describe, after some bytes of a reader, into a list, in
// place of its contents, reusing its memory. Returns how many bytes come before what is left. A
// refusal leaves the list empty.
pub(crate) fn read_each<R: Reader>(
    attrs: &mut Vec<Attribute<R>>,
    reader: &R,
    before: usize,
    encoding: Encoding,
    specifications: &[AttributeSpecification],
) -> Result<usize, Error>
    requires { before ≤ bytes_left (R.view reader.now) }
    ensures value { ReturnsAsOrNoMemory
        (λ n. (raw_attributes R.view R.Offset.count attrs.new.items, after n (R.view reader.now)))
        result
        (attributes R.Offset.limit encoding (map attribute_view specifications.now)
        (after before (R.view reader.now))) }
    ensures forward { IfOk result (λ n.
        (before ≤ n) × (n ≤ bytes_left (R.view reader.now))) }
    ensures refusal { OnErr result (attrs.new.items ≡ []) }
{
    let mut place = borrowed(reader);
    place.advance(before);
    match fill(attrs, &mut place, reader, encoding, specifications) {
        Ok(()) => Ok(bytes_before(&place, reader)),
        Err(fault) => {
            attrs.clear();
            Err(fault)
        }
    }
}
