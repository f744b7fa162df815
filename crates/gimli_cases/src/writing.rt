//! Numbers, addresses and lengths as they are written (DWARF 5, 7.4 to 7.6).

use crate::answer::Answer;
use crate::case::Case;
use gimli_core::{Endianity, SectionId};
use gimli_lines::write::{Address, EndianVec, Error, Writer};
use std::alloc::Global;

/// The bytes of the first section and what the question writes after them or into them, then the
/// refusal.
pub fn answer<E: Endianity>(alloc: Global, case: &Case, order: E, out: &mut Answer) {
    let mut w = EndianVec::new(alloc, order);
    let outcome = match w.write(case.section(0)) {
        Ok(()) => write_after(case, &mut w),
        Err(error) => Err(error),
    };
    out.digits(w.slice());
    if let Err(error) = outcome {
        out.text(" ");
        out.refuse_to_write(error);
    }
}

fn write_after<W: Writer>(case: &Case, w: &mut W) -> Result<(), Error> {
    match case.operation.as_str() {
        "write_fixed" => write_fixed(case, w),
        "write_fixed_at" => write_fixed_at(case, w),
        "write_udata" => w.write_udata(case.value, case.size),
        "write_sdata" => w.write_sdata(case.signed, case.size),
        "write_udata_at" => w.write_udata_at(case.place(), case.value, case.size),
        "write_uleb128" => w.write_uleb128(case.value),
        "write_sleb128" => w.write_sleb128(case.signed),
        _ => write_unit_field(case, w),
    }
}

fn write_unit_field<W: Writer>(case: &Case, w: &mut W) -> Result<(), Error> {
    match case.operation.as_str() {
        "write_offset" => write_offset(case, w),
        "write_offset_at" => write_offset_at(case, w),
        "write_address" => w.write_address(Address::Constant(case.value), case.size),
        "write_symbol" => write_symbol(case, w),
        "write_length" => write_length(case, w),
        _ => w.write_at(case.place(), case.section(1)),
    }
}

fn write_offset<W: Writer>(case: &Case, w: &mut W) -> Result<(), Error> {
    match case.narrow() {
        Ok(value) => w.write_offset(value, SectionId::DebugStr, case.size),
        Err(error) => Err(error),
    }
}

fn write_offset_at<W: Writer>(case: &Case, w: &mut W) -> Result<(), Error> {
    match case.narrow() {
        Ok(value) => w.write_offset_at(case.place(), value, SectionId::DebugStr, case.size),
        Err(error) => Err(error),
    }
}

fn write_symbol<W: Writer>(case: &Case, w: &mut W) -> Result<(), Error> {
    let (symbol, addend) = (0, 0);
    w.write_address(Address::Symbol { symbol, addend }, case.size)
}

fn write_length<W: Writer>(case: &Case, w: &mut W) -> Result<(), Error> {
    match w.write_initial_length(case.format) {
        Ok(length) => w.write_initial_length_at(length, case.value, case.format),
        Err(error) => Err(error),
    }
}

// Writes the value in as many bytes as the question says; its highest bits are 0.
fn write_fixed<W: Writer>(case: &Case, w: &mut W) -> Result<(), Error> {
    match (case.size, case.narrow(), case.narrow(), case.narrow()) {
        (1, Ok(value), _, _) => w.write_u8(value),
        (2, _, Ok(value), _) => w.write_u16(value),
        (4, _, _, Ok(value)) => w.write_u32(value),
        (8, _, _, _) => w.write_u64(case.value),
        (16, _, _, _) => w.write_u128(u128::from(case.value)),
        _ => Err(Error::ValueTooLarge),
    }
}

// Writes the value into the bytes at the offset.
fn write_fixed_at<W: Writer>(case: &Case, w: &mut W) -> Result<(), Error> {
    let place = case.place();
    match (case.size, case.narrow(), case.narrow(), case.narrow()) {
        (1, Ok(value), _, _) => w.write_u8_at(place, value),
        (2, _, Ok(value), _) => w.write_u16_at(place, value),
        (4, _, _, Ok(value)) => w.write_u32_at(place, value),
        (8, _, _, _) => w.write_u64_at(place, case.value),
        (16, _, _, _) => w.write_u128_at(place, u128::from(case.value)),
        _ => Err(Error::ValueTooLarge),
    }
}
