//! Numbers and texts (DWARF 5, 7.4 to 7.6).

use crate::answer::Answer;
use crate::case::Case;
use gimli_core::{Error, Format, Leb128, LineEncoding, Reader, ReaderOffset, leb128};
use std::alloc::Global;
use std::borrow::CowStr;

/// Answers a question about numbers and texts.
pub fn answer<R: Reader>(alloc: Global, case: &Case, mut reader: R, out: &mut Answer) {
    match case.operation.as_str() {
        "text" => texts(alloc, &reader, out),
        "uleb128_of" => string_of(Leb128::unsigned(case.value), out),
        "sleb128_of" => string_of(Leb128::signed(case.signed), out),
        "usual_line_encoding" => out.code(&LineEncoding::default()),
        "sizes_of_format" => sizes(case.format, out),
        "offsets_of_32_bits" => offsets::<u32>(case.value, out),
        "offsets_of_64_bits" => offsets::<u64>(case.value, out),
        "offsets" => offsets::<usize>(case.value, out),
        _ => {
            if read(case, &mut reader, out) || read_sized(case, &mut reader, out) {
                out.text(", ");
                out.value(&reader.len().into_u64());
                out.text(" left");
            }
        }
    }
}

// Reads a number; whether it is one.
fn read<R: Reader>(case: &Case, reader: &mut R, out: &mut Answer) -> bool {
    match case.operation.as_str() {
        "fixed" => out.outcome(fixed(case.size, reader)),
        "signed_fixed" => out.outcome(signed_fixed(case.size, reader)),
        "uleb128" => out.outcome(leb128::read::unsigned(reader)),
        "uleb128_of_32_bits" => out.outcome(reader.read_uleb128_u32()),
        "uleb128_of_16_bits" => out.outcome(leb128::read::u16(reader)),
        "sleb128" => out.outcome(leb128::read::signed(reader)),
        "skip_leb128" => out.outcome(skip_outcome(leb128::read::skip(reader))),
        _ => false,
    }
}

fn read_sized<R: Reader>(case: &Case, reader: &mut R, out: &mut Answer) -> bool {
    match case.operation.as_str() {
        "address_size" => out.outcome(reader.read_address_size()),
        "address" => out.outcome(reader.read_address(case.address_size)),
        "offset" => out.outcome(number_of(reader.read_offset(case.format))),
        "length" => out.outcome(number_of(reader.read_length(case.format))),
        "word" => out.outcome(number_of(reader.read_word(case.format))),
        "offset_of_2_bytes" => out.outcome(number_of(reader.read_sized_offset(2))),
        "initial_length" => initial_length(reader, out),
        _ => false,
    }
}

fn wide<T: Into<u128>>(number: Result<T, Error>) -> Result<u128, Error> {
    match number {
        Ok(number) => Ok(number.into()),
        Err(error) => Err(error),
    }
}

fn fixed<R: Reader>(size: u8, reader: &mut R) -> Result<u128, Error> {
    match size {
        1 => wide(reader.read_u8()),
        2 => wide(reader.read_u16()),
        4 => wide(reader.read_u32()),
        8 => wide(reader.read_u64()),
        16 => reader.read_u128(),
        _ => wide(reader.read_uint(3)),
    }
}

fn wide_signed<T: Into<i64>>(number: Result<T, Error>) -> Result<i64, Error> {
    match number {
        Ok(number) => Ok(number.into()),
        Err(error) => Err(error),
    }
}

fn signed_fixed<R: Reader>(size: u8, reader: &mut R) -> Result<i64, Error> {
    match size {
        1 => wide_signed(reader.read_i8()),
        2 => wide_signed(reader.read_i16()),
        4 => wide_signed(reader.read_i32()),
        _ => reader.read_i64(),
    }
}

fn skip_outcome(outcome: Result<(), Error>) -> Result<&'static str, Error> {
    match outcome {
        Ok(()) => Ok("skipped"),
        Err(error) => Err(error),
    }
}

fn number_of<O: ReaderOffset>(offset: Result<O, Error>) -> Result<u64, Error> {
    match offset {
        Ok(offset) => Ok(offset.into_u64()),
        Err(error) => Err(error),
    }
}

fn initial_length<R: Reader>(reader: &mut R, out: &mut Answer) -> bool {
    match reader.read_initial_length() {
        Ok((length, format)) => {
            out.value(&length.into_u64());
            out.text(" ");
            out.code(&format);
            true
        }
        Err(error) => {
            out.refuse(error);
            false
        }
    }
}

// The text with its faults replaced, the text if it has none, and whether the first is lent.
fn texts<R: Reader>(alloc: Global, reader: &R, out: &mut Answer) {
    out.lossy(reader);
    out.text(" ");
    match reader.to_string() {
        Ok(text) => out.text(text.as_str()),
        Err(error) => out.refuse(error),
    }
    match reader.to_string_lossy(alloc) {
        Ok(CowStr::Borrowed(_)) => out.text(", lent"),
        Ok(_) => {}
        Err(error) => out.refuse(error),
    }
}

fn string_of(string: Leb128, out: &mut Answer) {
    out.digits(string.bytes());
    out.text(", ");
    out.value(&string.len());
    out.text(" bytes");
}

// The bytes of an initial length and of an offset.
fn sizes(format: Format, out: &mut Answer) {
    out.word(&format.initial_length_size());
    out.code(&format.word_size());
}

// A number of each width, -2 and 5 more, and a wide number.
fn offsets<O: ReaderOffset>(wide: u64, out: &mut Answer) {
    out.word(&O::from_u8(7));
    out.word(&O::from_u16(700));
    out.word(&O::from_u32(70_000));
    let below = O::from_i16(-2);
    let sum = below.wrapping_add(O::from_u8(5));
    out.word(&below);
    out.word(&sum);
    out.word(&sum.checked_sub(O::from_u8(3)));
    out.word(&sum.checked_sub(O::from_u8(4)));
    let _is_number = out.outcome(number_of(O::from_u64(wide)));
}
