//! The values of fields in version 5: each kind of field goes from the bytes to what is kept.

ghost use Rattle.std.specs.Prelude.{◌≡◌};
ghost use Rattle.gimli_units_headers.specs.Calls.{Reads, ReturnsAs, ReturnsAsOrNoMemory};
ghost use Rattle.gimli_units_headers.specs.Fixed.{number_bytes};
ghost use Rattle.gimli_units_headers.specs.NumberParsers.{unsigned, word};
ghost use Rattle.gimli_units_headers.specs.Parsers.{map_value, null_terminated, skip};
ghost use Rattle.gimli_units_headers.specs.View.{bytes_left};
ghost use Rattle.gimli_units_forms.specs.AttributeMeanings.{unsigned_of};
ghost use Rattle.gimli_units_forms.specs.AttributeValues.{raw_value_of};
ghost use Rattle.gimli_lines_header.specs.Checks.{check};
ghost use Rattle.gimli_lines_header.specs.TableEntries.{is_entry_form, entry_value, digest_of};

use gimli_units_forms::{AttributeSpecification, AttributeValue, parse_attribute, short_number};
use gimli_units_headers::{
    DW_FORM_block, DW_FORM_block1, DW_FORM_block2, DW_FORM_block4, DW_FORM_data1, DW_FORM_data2,
    DW_FORM_data4, DW_FORM_data8, DW_FORM_data16, DW_FORM_flag, DW_FORM_line_strp, DW_FORM_sdata,
    DW_FORM_sec_offset, DW_FORM_string, DW_FORM_strp, DW_FORM_strp_sup, DW_FORM_strx,
    DW_FORM_strx1, DW_FORM_strx2, DW_FORM_strx3, DW_FORM_strx4, DW_FORM_udata, DebugLineStrOffset,
    DebugStrOffset, DwAt, DwForm, Encoding, Endianity, Error, Format, Reader, ReaderOffset,
};

// Whether fields may have a form: the value of each such form takes a byte at least.
fn is_entry_form(form: DwForm) -> bool
    ensures { result ≡ is_entry_form form.0 }
{
    matches!(
        form,
        DW_FORM_block1
            | DW_FORM_block2
            | DW_FORM_block4
            | DW_FORM_block
            | DW_FORM_data1
            | DW_FORM_data2
            | DW_FORM_data4
            | DW_FORM_data8
            | DW_FORM_data16
            | DW_FORM_flag
            | DW_FORM_sdata
            | DW_FORM_udata
            | DW_FORM_sec_offset
            | DW_FORM_string
            | DW_FORM_strp
            | DW_FORM_strp_sup
            | DW_FORM_line_strp
            | DW_FORM_strx
            | DW_FORM_strx1
            | DW_FORM_strx2
            | DW_FORM_strx3
            | DW_FORM_strx4
    )
}

// ---- values that are kept

// A number of a format's size, as an offset of another type than the reader's.
#[tactic(auto, using(crate::proofs::FieldValues::word_is))]
#[inline(always)]
pub(crate) fn read_word<O: ReaderOffset, I: Reader>(
    input: &mut I,
    format: Format,
) -> Result<O, Error>
    ensures { ReturnsAs (λ o. (O.count o, I.view input.new)) result
        (word O.limit format (I.view input.old)) }
{
    let number = match format {
        Format::Dwarf32 => u64::from(input.read_u32()?),
        Format::Dwarf64 => input.read_u64()?,
    };
    O::from_u64(number)
}

// An unsigned LEB128 number: one byte in most entries.
#[inline(always)]
pub(crate) fn read_number<I: Reader>(input: &mut I) -> Result<u64, Error>
    ensures { Reads result (I.view input.old) (I.view input.new) (unsigned (I.view input.old)) }
{
    match short_number(input) {
        Some(number) => {
            input.advance(1);
            Ok(number)
        }
        None => input.read_uleb128(),
    }
}

// The value of a field in any form, by the attribute that would have it.
#[tactic(auto, unfolding(crate::specs::TableEntries::entry_value))]
fn parse_other_value<R: Reader>(
    input: &mut R,
    encoding: Encoding,
    form: DwForm,
) -> Result<AttributeValue<R>, Error>
    ensures { ReturnsAsOrNoMemory (λ value.
        (raw_value_of R.view R.Offset.count value, R.view input.new)) result
        (entry_value R.Offset.limit encoding form.0 (R.view input.old)) }
{
    if !is_entry_form(form) {
        return Err(Error::UnknownForm(form));
    }
    let specification = AttributeSpecification::new(DwAt(0), form, None);
    parse_attribute(input, encoding, specification)?.raw_value()
}

// The value of a field, as it is spelled: the usual forms of paths at once.
#[tactic(auto, using(crate::proofs::FieldValues::path_forms))]
#[inline(always)]
pub(crate) fn parse_value<R: Reader>(
    input: &mut R,
    encoding: Encoding,
    form: DwForm,
) -> Result<AttributeValue<R>, Error>
    ensures { ReturnsAsOrNoMemory (λ value.
        (raw_value_of R.view R.Offset.count value, R.view input.new)) result
        (entry_value R.Offset.limit encoding form.0 (R.view input.old)) }
{
    match form {
        DW_FORM_line_strp => {
            let offset = read_word::<R::Offset, R>(input, encoding.format)?;
            Ok(AttributeValue::DebugLineStrRef(DebugLineStrOffset(offset)))
        }
        DW_FORM_strp => {
            let offset = read_word::<R::Offset, R>(input, encoding.format)?;
            Ok(AttributeValue::DebugStrRef(DebugStrOffset(offset)))
        }
        DW_FORM_string => {
            let text = input.read_null_terminated_slice()?;
            Ok(AttributeValue::String(text))
        }
        _ => parse_other_value(input, encoding, form),
    }
}

// The unsigned number of a field, none where the value isn't one.
#[tactic(auto, using(crate::proofs::FieldValues::number_forms))]
#[inline(always)]
pub(crate) fn parse_number<R: Reader>(
    input: &mut R,
    encoding: Encoding,
    form: DwForm,
) -> Result<Option<u64>, Error>
    ensures { ReturnsAsOrNoMemory (λ number. (number, R.view input.new)) result
        (map_value unsigned_of (entry_value R.Offset.limit encoding form.0) (R.view input.old)) }
{
    Ok(Some(match form {
        DW_FORM_udata => input.read_uleb128()?,
        DW_FORM_data1 => u64::from(input.read_u8()?),
        DW_FORM_data2 => u64::from(input.read_u16()?),
        DW_FORM_data4 => u64::from(input.read_u32()?),
        DW_FORM_data8 => input.read_u64()?,
        DW_FORM_sdata => return Ok(u64::try_from(input.read_sleb128()?).ok()),
        _ => return Ok(parse_other_value(input, encoding, form)?.udata_value()),
    }))
}

// The bytes of a digest that was read as a number.
#[inline(always)]
pub(crate) fn digest_bytes<E: Endianity>(endian: E, number: u128) -> [u8; 16]
    ensures { result ≡ number_bytes (E.is_big endian) 16 number }
{
    if endian.is_big_endian() {
        number.to_be_bytes()
    } else {
        number.to_le_bytes()
    }
}

// The sixteen bytes of a digest.
fn digest_of<R: Reader>(value: &AttributeValue<R>, endian: R::Endian) -> Option<[u8; 16]>
    ensures { result ≡ digest_of (R.Endian.is_big endian)
        (raw_value_of R.view R.Offset.count value.now) }
{
    match value {
        AttributeValue::Data16(number) => Some(digest_bytes(endian, *number)),
        AttributeValue::Block(block) => {
            let bytes = block.as_bytes();
            if bytes.len() != 16 {
                return None;
            }
            let mut digest = [0; 16];
            digest.copy_from_slice(bytes);
            Some(digest)
        }
        _ => None,
    }
}

// The digest of a field, none where the value isn't one.
#[tactic(auto, using(crate::proofs::FieldValues::data_16_is))]
#[inline(always)]
pub(crate) fn parse_digest<R: Reader>(
    input: &mut R,
    encoding: Encoding,
    form: DwForm,
    endian: R::Endian,
) -> Result<Option<[u8; 16]>, Error>
    ensures { ReturnsAsOrNoMemory (λ digest. (digest, R.view input.new)) result
        (map_value (digest_of (R.Endian.is_big endian))
        (entry_value R.Offset.limit encoding form.0) (R.view input.old)) }
{
    if form == DW_FORM_data16 {
        let number = input.read_u128()?;
        return Ok(Some(digest_bytes(endian, number)));
    }
    let value = parse_other_value(input, encoding, form)?;
    Ok(digest_of(&value, endian))
}

// ---- values that are only checked

// Skips bytes.
#[inline(always)]
pub(crate) fn skip_bytes<I: Reader>(input: &mut I, count: u64) -> Result<(), Error>
    ensures { ReturnsAs (λ _. (tt, I.view input.new)) result (skip count (I.view input.old)) }
{
    if (input.as_bytes().len() as u64) < count {
        return Err(Error::UnexpectedEof(input.offset_id()));
    }
    input.advance(count as usize);
    Ok(())
}

// Skips a text and its zero byte, and returns the length of the text.
#[inline(always)]
pub(crate) fn skip_text<I: Reader>(input: &mut I) -> Result<u64, Error>
    ensures { ReturnsAs (λ length. (length, I.view input.new)) result
        (map_value bytes_left null_terminated (I.view input.old)) }
{
    let length = input.find(0)?;
    input.skip(length)?;
    input.advance(1);
    Ok(length.into_u64())
}

// Checks the value of a field: the same refusal as reading, or none, and nothing is kept. The usual
// forms at once.
#[tactic(auto, using(crate::proofs::FieldValues::usual_forms))]
#[inline(always)]
pub(crate) fn check_value<O: ReaderOffset, I: Reader>(
    input: &mut I,
    encoding: Encoding,
    form: DwForm,
) -> Result<(), Error>
    ensures { ReturnsAs (λ _. (tt, I.view input.new)) result
        (check (entry_value O.limit encoding form.0) (I.view input.old)) }
{
    match form {
        DW_FORM_line_strp => {
            read_word::<O, I>(input, encoding.format)?;
        }
        DW_FORM_udata => {
            read_number(input)?;
        }
        DW_FORM_data16 => {
            input.read_u128()?;
        }
        _ => return check_other_value::<O, I>(input, encoding, form),
    }
    Ok(())
}

// The same of every form.
#[tactic(auto, using(crate::proofs::FieldValues::entry_forms))]
fn check_other_value<O: ReaderOffset, I: Reader>(
    input: &mut I,
    encoding: Encoding,
    form: DwForm,
) -> Result<(), Error>
    ensures { ReturnsAs (λ _. (tt, I.view input.new)) result
        (check (entry_value O.limit encoding form.0) (I.view input.old)) }
{
    match form {
        DW_FORM_line_strp | DW_FORM_strp | DW_FORM_strp_sup | DW_FORM_sec_offset => {
            read_word::<O, I>(input, encoding.format)?;
        }
        DW_FORM_strx => {
            O::from_u64(input.read_uleb128()?)?;
        }
        DW_FORM_strx1 => {
            O::from_u64(u64::from(input.read_u8()?))?;
        }
        DW_FORM_strx2 => {
            O::from_u64(u64::from(input.read_u16()?))?;
        }
        DW_FORM_strx3 => {
            O::from_u64(input.read_uint(3)?)?;
        }
        DW_FORM_strx4 => {
            O::from_u64(u64::from(input.read_u32()?))?;
        }
        DW_FORM_udata => {
            input.read_uleb128()?;
        }
        DW_FORM_data16 => {
            input.read_u128()?;
        }
        DW_FORM_data1 | DW_FORM_flag => {
            input.read_u8()?;
        }
        DW_FORM_data2 => {
            input.read_u16()?;
        }
        DW_FORM_data4 => {
            input.read_u32()?;
        }
        DW_FORM_data8 => {
            input.read_u64()?;
        }
        DW_FORM_sdata => {
            input.read_sleb128()?;
        }
        DW_FORM_string => {
            skip_text(input)?;
        }
        DW_FORM_block => {
            let length = O::from_u64(input.read_uleb128()?)?;
            return skip_bytes(input, length.into_u64());
        }
        DW_FORM_block1 => {
            let length = O::from_u64(u64::from(input.read_u8()?))?;
            return skip_bytes(input, length.into_u64());
        }
        DW_FORM_block2 => {
            let length = O::from_u64(u64::from(input.read_u16()?))?;
            return skip_bytes(input, length.into_u64());
        }
        DW_FORM_block4 => {
            let length = O::from_u64(u64::from(input.read_u32()?))?;
            return skip_bytes(input, length.into_u64());
        }
        _ => return Err(Error::UnknownForm(form)),
    }
    Ok(())
}
