ghost use Rattle.std.specs.Prelude.{◌≡◌, ◌<◌, ◌≤◌, ◌++◌, ◌∷◌, [], ℕ, Ok, length, map, slice_index, IfOk, IfSome, IsTrue, OnErr};
ghost use Rattle.gimli_core_abbrev.specs.Parsers.{map_value, null_terminated};
ghost use Rattle.gimli_core_abbrev.specs.View.{after};
ghost use Rattle.gimli_core_abbrev.specs.TheConstants.{DW_FORM_indirect};
ghost use Rattle.gimli_core_abbrev.specs.Calls.{ReturnsAs, ReturnsAsOrNoMemory, ReadsAs, ReadsAsOrNoMemory};
ghost use Rattle.gimli_core_abbrev.specs.NumberParsers.{fixed, unsigned, unsigned_16};
ghost use Rattle.gimli_core_abbrev.specs.AbbreviationViews.{attribute_view};
ghost use Rattle.gimli_units_forms.specs.AttributeReading.{number_value, is_offset_data, meaning_in, offset_meanings, FitsSpelling, FitsWidth, final_form, bytes_value, bytes_by_length, value_in_form, attribute_in_form, attribute};
ghost use Rattle.gimli_units_forms.specs.FormSpellings.{spelling};
ghost use Rattle.gimli_core_abbrev.specs.Places.{IsAfter};
ghost use Rattle.gimli_units_forms.specs.AttributeValues.{raw_value_of, raw_attribute_of};

use crate::spelling::{Spelling, spelling_of};
use crate::value::{Attribute, AttributeValue};
use gimli_core_abbrev::{
    AttributeSpecification, DW_AT_ranges, DW_AT_stmt_list, DW_FORM_GNU_addr_index,
    DW_FORM_GNU_ref_alt, DW_FORM_GNU_str_index, DW_FORM_GNU_strp_alt, DW_FORM_addr, DW_FORM_addrx,
    DW_FORM_addrx1, DW_FORM_addrx2, DW_FORM_addrx3, DW_FORM_addrx4, DW_FORM_data1, DW_FORM_data2,
    DW_FORM_data4, DW_FORM_data8, DW_FORM_exprloc, DW_FORM_flag, DW_FORM_flag_present,
    DW_FORM_implicit_const, DW_FORM_indirect, DW_FORM_line_strp, DW_FORM_loclistx,
    DW_FORM_ref_addr, DW_FORM_ref_sig8, DW_FORM_ref_sup4, DW_FORM_ref_sup8, DW_FORM_ref_udata,
    DW_FORM_ref1, DW_FORM_ref2, DW_FORM_ref4, DW_FORM_ref8, DW_FORM_rnglistx, DW_FORM_sdata,
    DW_FORM_sec_offset, DW_FORM_string, DW_FORM_strp, DW_FORM_strp_sup, DW_FORM_strx,
    DW_FORM_strx1, DW_FORM_strx2, DW_FORM_strx3, DW_FORM_strx4, DW_FORM_udata, DebugAddrIndex,
    DebugInfoOffset, DebugLineStrOffset, DebugLocListsIndex, DebugRngListsIndex, DebugStrOffset,
    DebugStrOffsetsIndex, DebugTypeSignature, DwAt, DwForm, Encoding, EndianSlice, Error,
    Expression, Format, Reader, ReaderOffset, UnitOffset, borrowed, bytes_before, cut,
};

// Whether data of a form stands for an offset: data of an offset's width, under `DW_AT_stmt_list`
// and `DW_AT_ranges`.
#[inline(always)]
fn is_offset_data_of(encoding: Encoding, name: DwAt, form: DwForm) -> bool
    ensures { result ≡ is_offset_data encoding name.0 form.0 }
{
    let word_form = match encoding.format {
        Format::Dwarf32 => DW_FORM_data4,
        Format::Dwarf64 => DW_FORM_data8,
    };
    form == word_form && (name == DW_AT_stmt_list || name == DW_AT_ranges)
}

// The value of a form that spells an offset or an index.
#[inline(always)]
fn offset_value_of<R: Reader>(form: DwForm, number: u64) -> Result<AttributeValue<R>, Error>
    ensures { ReturnsAs (raw_value_of R.view R.Offset.count) result
        (meaning_in offset_meanings form.0 R.Offset.limit number) }
{
    let offset = R::Offset::from_u64(number);
    Ok(match form {
        DW_FORM_ref1 | DW_FORM_ref2 | DW_FORM_ref4 | DW_FORM_ref8 | DW_FORM_ref_udata => {
            AttributeValue::UnitRef(UnitOffset(offset?))
        }
        DW_FORM_ref_addr => AttributeValue::DebugInfoRef(DebugInfoOffset(offset?)),
        DW_FORM_ref_sup4 | DW_FORM_ref_sup8 | DW_FORM_GNU_ref_alt => {
            AttributeValue::DebugInfoRefSup(DebugInfoOffset(offset?))
        }
        DW_FORM_sec_offset => AttributeValue::SecOffset(offset?),
        DW_FORM_strp => AttributeValue::DebugStrRef(DebugStrOffset(offset?)),
        DW_FORM_strp_sup | DW_FORM_GNU_strp_alt => {
            AttributeValue::DebugStrRefSup(DebugStrOffset(offset?))
        }
        DW_FORM_line_strp => AttributeValue::DebugLineStrRef(DebugLineStrOffset(offset?)),
        DW_FORM_strx
        | DW_FORM_strx1
        | DW_FORM_strx2
        | DW_FORM_strx3
        | DW_FORM_strx4
        | DW_FORM_GNU_str_index => {
            AttributeValue::DebugStrOffsetsIndex(DebugStrOffsetsIndex(offset?))
        }
        DW_FORM_addrx
        | DW_FORM_addrx1
        | DW_FORM_addrx2
        | DW_FORM_addrx3
        | DW_FORM_addrx4
        | DW_FORM_GNU_addr_index => AttributeValue::DebugAddrIndex(DebugAddrIndex(offset?)),
        DW_FORM_loclistx => AttributeValue::DebugLocListsIndex(DebugLocListsIndex(offset?)),
        DW_FORM_rnglistx => AttributeValue::DebugRngListsIndex(DebugRngListsIndex(offset?)),
        _ => return Err(Error::UnknownForm(form)),
    })
}

// The value of a form that spells a number.
#[tactic(auto, unfolding(crate::specs::AttributeReading::number_value, crate::specs::FormSpellings::spelling))]
#[inline(always)]
fn number_value_of<R: Reader>(
    encoding: Encoding,
    name: DwAt,
    form: DwForm,
    number: u64,
) -> Result<AttributeValue<R>, Error>
    requires { FitsSpelling (spelling encoding form.0) number }
    ensures { ReturnsAs (raw_value_of R.view R.Offset.count) result
        (number_value R.Offset.limit encoding name.0 form.0 number) }
{
    if is_offset_data_of(encoding, name, form) {
        return Ok(AttributeValue::SecOffset(R::Offset::from_u64(number)?));
    }
    Ok(match form {
        DW_FORM_addr => AttributeValue::Addr(number),
        DW_FORM_data1 => AttributeValue::Data1(number as u8),
        DW_FORM_data2 => AttributeValue::Data2(number as u16),
        DW_FORM_data4 => AttributeValue::Data4(number as u32),
        DW_FORM_data8 => AttributeValue::Data8(number),
        DW_FORM_udata => AttributeValue::Udata(number),
        DW_FORM_flag => AttributeValue::Flag(number != 0),
        DW_FORM_flag_present => AttributeValue::Flag(true),
        DW_FORM_ref_sig8 => AttributeValue::DebugTypesRef(DebugTypeSignature(number)),
        _ => return offset_value_of(form, number),
    })
}

// A number of at most eight bytes.
#[inline(always)]
pub(crate) fn read_fixed<R: Reader>(reader: &mut R, width: u8) -> Result<u64, Error>
    requires { width ≤ 8 }
    ensures value { ReturnsAs (λ n. (n, R.view reader.new)) result
        (fixed width (R.view reader.old)) }
    ensures fits { IfOk result (FitsWidth width) }
{
    Ok(match width {
        1 => u64::from(reader.read_u8()?),
        2 => u64::from(reader.read_u16()?),
        4 => u64::from(reader.read_u32()?),
        8 => reader.read_u64()?,
        _ => reader.read_uint(usize::from(width))?,
    })
}

// The next byte, where it is the number of a form by itself, as those of the standard are.
#[inline(always)]
#[tactic(auto, unfolding(gimli_core_base::specs::NumberParsers::unsigned_16))]
fn short_form<R: Reader>(reader: &R) -> Option<DwForm>
    ensures number { IfSome result
        (λ f. unsigned_16 (R.view reader.now) ≡ Ok (f.0, after 1 (R.view reader.now))) }
    ensures there { IfSome result (λ f. 1 ≤ length (R.view reader.now).bytes) }
{
    match reader.as_bytes() {
        [number, ..] if *number < 128 => Some(DwForm(u16::from(*number))),
        _ => None,
    }
}

// The number of a form: an unsigned LEB128 number of 16 bits.
#[inline(always)]
fn read_form_number<R: Reader>(reader: &mut R) -> Result<DwForm, Error>
    ensures { ReturnsAs (λ f. (f.0, R.view reader.new)) result (unsigned_16 (R.view reader.old)) }
{
    match short_form(reader) {
        Some(form) => {
            reader.advance(1);
            Ok(form)
        }
        None => Ok(DwForm(reader.read_uleb128_u16()?)),
    }
}

// How many of the first bytes are the number of `DW_FORM_indirect`.
#[inline(always)]
fn count_indirect(bytes: &[u8]) -> usize
    ensures within { result ≤ length bytes.now }
    ensures each { (k : ℕ) → k < result → slice_index bytes.now k ≡ DW_FORM_indirect.0 }
{
    let mut count = 0;
    while count < bytes.len() && u16::from(bytes[count]) == DW_FORM_indirect.0 {
        count += 1;
    }
    count
}

// Skips numbers after `DW_FORM_indirect` that are its own again, in one run.
#[inline(always)]
fn skip_indirect<R: Reader>(reader: &mut R)
    ensures same { final_form DW_FORM_indirect.0 (R.view reader.new)
        ≡ final_form DW_FORM_indirect.0 (R.view reader.old) }
    ensures fewer { length (R.view reader.new).bytes ≤ length (R.view reader.old).bytes }
{
    let count = count_indirect(reader.as_bytes());
    reader.advance(count);
}

// The form of a value: after `DW_FORM_indirect` comes the number of the form.
#[inline(always)]
pub(crate) fn read_form<R: Reader>(reader: &mut R, form: DwForm) -> Result<DwForm, Error>
    ensures { ReturnsAs (λ f. (f.0, R.view reader.new)) result
        (final_form form.0 (R.view reader.old)) }
{
    let mut form = form;
    while form == DW_FORM_indirect {
        skip_indirect(reader);
        form = read_form_number(reader)?;
    }
    Ok(form)
}

// Bytes as a value of a form.
fn bytes_value_of<R: Reader>(form: DwForm, bytes: R) -> AttributeValue<R>
    ensures { raw_value_of R.view R.Offset.count result ≡ bytes_value form.0 (R.view bytes) }
{
    if form == DW_FORM_exprloc {
        AttributeValue::Exprloc(Expression(bytes))
    } else {
        AttributeValue::Block(bytes)
    }
}

// As many bytes as a length of that width says.
#[tactic(auto, unfolding(crate::specs::AttributeReading::bytes_by_length))]
fn read_block<R: Reader>(
    place: &mut EndianSlice<'_, R::Endian>,
    reader: &R,
    width: u8,
) -> Result<R, Error>
    requires narrow { width ≤ 8 }
    requires in_reader { IsAfter (R.view reader.now) place.old }
    ensures value { ReturnsAsOrNoMemory (λ bytes. (R.view bytes, place.new)) result
        (bytes_by_length R.Offset.limit (fixed width) place.old) }
    ensures free { IsTrue R.copies_freely
        → ReturnsAs (λ bytes. (R.view bytes, place.new)) result
        (bytes_by_length R.Offset.limit (fixed width) place.old) }
{
    let length = read_fixed(place, width)?;
    cut(place, reader, R::Offset::from_u64(length)?.into_u64())
}

// As many bytes as an unsigned LEB128 length says.
#[tactic(auto, unfolding(crate::specs::AttributeReading::bytes_by_length))]
fn read_long_block<R: Reader>(
    place: &mut EndianSlice<'_, R::Endian>,
    reader: &R,
) -> Result<R, Error>
    requires { IsAfter (R.view reader.now) place.old }
    ensures value { ReturnsAsOrNoMemory (λ bytes. (R.view bytes, place.new)) result
        (bytes_by_length R.Offset.limit unsigned place.old) }
    ensures free { IsTrue R.copies_freely
        → ReturnsAs (λ bytes. (R.view bytes, place.new)) result
        (bytes_by_length R.Offset.limit unsigned place.old) }
{
    let length = place.read_uleb128()?;
    cut(place, reader, R::Offset::from_u64(length)?.into_u64())
}

// The text before a zero byte, which is skipped too.
fn read_text<R: Reader>(place: &mut EndianSlice<'_, R::Endian>, reader: &R) -> Result<R, Error>
    requires { IsAfter (R.view reader.now) place.old }
    ensures value { ReturnsAsOrNoMemory (λ text. (R.view text, place.new)) result
        (null_terminated place.old) }
    ensures free { IsTrue R.copies_freely
        → ReturnsAs (λ text. (R.view text, place.new)) result (null_terminated place.old) }
{
    let length = Reader::find(place, 0)?;
    let text = cut(place, reader, length as u64)?;
    place.advance(1);
    Ok(text)
}

// The value of a form that isn't `DW_FORM_indirect`, at a place in a reader.
#[tactic(auto, using(crate::proofs::SpellingWidths::fixed_is_narrow, crate::proofs::SpellingWidths::block_is_narrow), unfolding(crate::specs::AttributeReading::value))]
#[inline(always)]
fn read_value<R: Reader>(
    place: &mut EndianSlice<'_, R::Endian>,
    reader: &R,
    encoding: Encoding,
    specification: AttributeSpecification,
    form: DwForm,
) -> Result<AttributeValue<R>, Error>
    requires { IsAfter (R.view reader.now) place.old }
    ensures value { ReturnsAsOrNoMemory
        (λ value. (raw_value_of R.view R.Offset.count value, place.new)) result
        (value_in_form R.Offset.limit encoding (attribute_view specification) form.0 place.old) }
    ensures free { IsTrue R.copies_freely
        → ReturnsAs (λ value. (raw_value_of R.view R.Offset.count value, place.new)) result
        (value_in_form R.Offset.limit encoding (attribute_view specification) form.0 place.old) }
{
    let number = match spelling_of(encoding, form) {
        Spelling::Address => place.read_address(encoding.address_size)?,
        Spelling::Fixed(width) => read_fixed(place, width)?,
        Spelling::Unsigned => place.read_uleb128()?,
        Spelling::Sixteen => return Ok(AttributeValue::Data16(place.read_u128()?)),
        Spelling::Signed => return Ok(AttributeValue::Sdata(place.read_sleb128()?)),
        Spelling::Block(width) => {
            return Ok(bytes_value_of(form, read_block(place, reader, width)?));
        }
        Spelling::LongBlock => return Ok(bytes_value_of(form, read_long_block(place, reader)?)),
        Spelling::Text => return Ok(AttributeValue::String(read_text(place, reader)?)),
        Spelling::Constant => {
            return match specification.implicit_const_value() {
                Some(constant) => Ok(AttributeValue::Sdata(constant)),
                None => Err(Error::InvalidImplicitConst),
            };
        }
        Spelling::Indirect | Spelling::Unknown => return Err(Error::UnknownForm(form)),
    };
    number_value_of(encoding, specification.name(), form, number)
}

// Reads the attribute that a declaration describes, given its form. A refusal leaves the reader as
// it was.
#[inline(always)]
#[tactic(auto, unfolding(crate::specs::AttributeReading::attribute))]
fn parse_form<R: Reader>(
    reader: &mut R,
    encoding: Encoding,
    specification: AttributeSpecification,
    form: DwForm,
) -> Result<Attribute<R>, Error>
    requires { (attribute_view specification).form ≡ form.0 }
    ensures value { ReadsAsOrNoMemory (raw_attribute_of R.view R.Offset.count) result
        (R.view reader.old) (R.view reader.new)
        (attribute R.Offset.limit encoding (attribute_view specification) (R.view reader.old)) }
    ensures free { IsTrue R.copies_freely
        → ReadsAs (raw_attribute_of R.view R.Offset.count) result (R.view reader.old)
        (R.view reader.new)
        (attribute R.Offset.limit encoding (attribute_view specification) (R.view reader.old)) }
{
    let mut place = borrowed(reader);
    let name = specification.name();
    let form = read_form(&mut place, form)?;
    let value = read_value(&mut place, reader, encoding, specification, form)?;
    let count = bytes_before(&place, reader);
    reader.advance(count);
    Ok(Attribute { name, form, value })
}

// Adds an attribute in a form that isn't `DW_FORM_indirect` to the end of a list, where it is made.
#[inline(always)]
fn push_value<R: Reader>(
    attributes: &mut Vec<Attribute<R>>,
    place: &mut EndianSlice<'_, R::Endian>,
    reader: &R,
    encoding: Encoding,
    specification: AttributeSpecification,
    form: DwForm,
) -> Result<(), Error>
    requires { IsAfter (R.view reader.now) place.old }
    ensures value { ReturnsAsOrNoMemory
        (λ _. (map (raw_attribute_of R.view R.Offset.count) attributes.new.items, place.new)) result
        (map_value
        (λ a. map (raw_attribute_of R.view R.Offset.count) attributes.old.items ++ a ∷ [])
        (attribute_in_form R.Offset.limit encoding (attribute_view specification) form.0)
        place.old) }
    ensures refusal { OnErr result (attributes.new.items ≡ attributes.old.items) }
{
    let name = specification.name();
    let value = read_value(place, reader, encoding, specification, form)?;
    match attributes.push(Attribute { name, form, value }) {
        Ok(()) => Ok(()),
        // No `?`: what it calls here isn't compiled in, so that each result would be in memory.
        Err(_attribute) => Err(Error::Memory),
    }
}

// A call that takes a form. The commonest forms are constants in it, so that each has code of its
// own. What a function keeps in memory is cleared where it begins: so each of them calls a
// function, and clears only what that one keeps.
macro_rules! at_form {
    ($form:ident => $call:expr) => {
        match $form {
            DW_FORM_addr => at_form!($form = DW_FORM_addr, $call),
            DW_FORM_data1 => at_form!($form = DW_FORM_data1, $call),
            DW_FORM_data2 => at_form!($form = DW_FORM_data2, $call),
            DW_FORM_data4 => at_form!($form = DW_FORM_data4, $call),
            DW_FORM_data8 => at_form!($form = DW_FORM_data8, $call),
            DW_FORM_sdata => at_form!($form = DW_FORM_sdata, $call),
            DW_FORM_udata => at_form!($form = DW_FORM_udata, $call),
            DW_FORM_string => at_form!($form = DW_FORM_string, $call),
            DW_FORM_strp => at_form!($form = DW_FORM_strp, $call),
            DW_FORM_ref4 => at_form!($form = DW_FORM_ref4, $call),
            DW_FORM_sec_offset => at_form!($form = DW_FORM_sec_offset, $call),
            DW_FORM_exprloc => at_form!($form = DW_FORM_exprloc, $call),
            DW_FORM_flag_present => at_form!($form = DW_FORM_flag_present, $call),
            _ => $call,
        }
    };
    ($form:ident = $constant:ident, $call:expr) => {{
        let $form = $constant;
        $call
    }};
}

// The same, with code of its own for each common form.
#[inline(always)]
fn push_in_form<R: Reader>(
    attributes: &mut Vec<Attribute<R>>,
    place: &mut EndianSlice<'_, R::Endian>,
    reader: &R,
    encoding: Encoding,
    specification: AttributeSpecification,
    form: DwForm,
) -> Result<(), Error>
    requires { IsAfter (R.view reader.now) place.old }
    ensures value { ReturnsAsOrNoMemory
        (λ _. (map (raw_attribute_of R.view R.Offset.count) attributes.new.items, place.new)) result
        (map_value
        (λ a. map (raw_attribute_of R.view R.Offset.count) attributes.old.items ++ a ∷ [])
        (attribute_in_form R.Offset.limit encoding (attribute_view specification) form.0)
        place.old) }
    ensures refusal { OnErr result (attributes.new.items ≡ attributes.old.items) }
{
    at_form!(form => push_value(attributes, place, reader, encoding, specification, form))
}

/// Reads the attribute that a declaration describes, at a place in a reader, and adds it to a list.
/// Copies the reader only for a value that holds bytes. A refusal leaves the list, and a place that
/// may have moved.
#[tactic(auto, unfolding(crate::specs::AttributeReading::attribute))]
pub fn push_attribute<R: Reader>(
    attributes: &mut Vec<Attribute<R>>,
    place: &mut EndianSlice<'_, R::Endian>,
    reader: &R,
    encoding: Encoding,
    specification: AttributeSpecification,
) -> Result<(), Error>
    requires { IsAfter (R.view reader.now) place.old }
    ensures value { ReturnsAsOrNoMemory
        (λ _. (map (raw_attribute_of R.view R.Offset.count) attributes.new.items, place.new)) result
        (map_value
        (λ a. map (raw_attribute_of R.view R.Offset.count) attributes.old.items ++ a ∷ [])
        (attribute R.Offset.limit encoding (attribute_view specification)) place.old) }
    ensures refusal { OnErr result (attributes.new.items ≡ attributes.old.items) }
{
    let form = read_form(place, specification.form())?;
    push_in_form(attributes, place, reader, encoding, specification, form)
}

/// Reads the attribute that a declaration describes. Copies the reader only for a value that holds
/// bytes. A refusal leaves the reader as it was.
#[tactic(auto, unfolding(crate::specs::AttributeReading::attribute))]
pub fn parse_attribute<R: Reader>(
    reader: &mut R,
    encoding: Encoding,
    specification: AttributeSpecification,
) -> Result<Attribute<R>, Error>
    ensures value { ReadsAsOrNoMemory (raw_attribute_of R.view R.Offset.count) result
        (R.view reader.old) (R.view reader.new)
        (attribute R.Offset.limit encoding (attribute_view specification) (R.view reader.old)) }
    // Where copies take no memory, this takes none.
    ensures free { IsTrue R.copies_freely
        → ReadsAs (raw_attribute_of R.view R.Offset.count) result (R.view reader.old)
        (R.view reader.new)
        (attribute R.Offset.limit encoding (attribute_view specification) (R.view reader.old)) }
{
    parse_form(reader, encoding, specification, specification.form())
}

/// The same as [`parse_attribute`], compiled into its caller, with code of its own for each common
/// form.
#[inline(always)]
#[tactic(auto, unfolding(crate::specs::AttributeReading::attribute))]
pub fn parse_attribute_inline<R: Reader>(
    reader: &mut R,
    encoding: Encoding,
    specification: AttributeSpecification,
) -> Result<Attribute<R>, Error>
    ensures value { ReadsAsOrNoMemory (raw_attribute_of R.view R.Offset.count) result
        (R.view reader.old) (R.view reader.new)
        (attribute R.Offset.limit encoding (attribute_view specification) (R.view reader.old)) }
    // Where copies take no memory, this takes none.
    ensures free { IsTrue R.copies_freely
        → ReadsAs (raw_attribute_of R.view R.Offset.count) result (R.view reader.old)
        (R.view reader.new)
        (attribute R.Offset.limit encoding (attribute_view specification) (R.view reader.old)) }
{
    let form = specification.form();
    at_form!(form => return parse_form(reader, encoding, specification, form))
}
