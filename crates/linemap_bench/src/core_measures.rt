//! The measures of the reading core. Each reads its bytes to the first refusal, and returns a
//! checksum of what it reads.

use crate::core_bytes;
use crate::timing::mix;
use gimli_core::{Abbreviations, DebugAbbrev, DebugAbbrevOffset, Error, Reader, ReaderOffset};
use std::alloc::Global;

/// Unsigned LEB128 numbers.
pub fn unsigned<R: Reader>(mut input: R) -> u64 {
    let mut sum = 0;
    for _ in 0..input.len().into_u64() {
        match input.read_uleb128() {
            Ok(number) => sum = mix(sum, number),
            Err(_) => break,
        }
    }
    sum
}

/// Signed LEB128 numbers.
pub fn signed<R: Reader>(mut input: R) -> u64 {
    let mut sum = 0;
    for _ in 0..input.len().into_u64() {
        match input.read_sleb128() {
            Ok(number) => sum = mix(sum, number.cast_unsigned()),
            Err(_) => break,
        }
    }
    sum
}

/// Numbers of one, two, four and eight bytes in turn.
pub fn fixed<R: Reader>(mut input: R) -> u64 {
    let mut sum = 0;
    for _ in 0..input.len().into_u64() {
        match four_numbers(&mut input, sum) {
            Ok(next) => sum = next,
            Err(_) => break,
        }
    }
    sum
}

fn four_numbers<R: Reader>(input: &mut R, sum: u64) -> Result<u64, Error> {
    let sum = mix(sum, u64::from(input.read_u8()?));
    let sum = mix(sum, u64::from(input.read_u16()?));
    let sum = mix(sum, u64::from(input.read_u32()?));
    Ok(mix(sum, input.read_u64()?))
}

/// Texts that a zero byte ends: their lengths.
pub fn texts<R: Reader>(mut input: R) -> u64 {
    let mut sum = 0;
    for _ in 0..input.len().into_u64() {
        match input.read_null_terminated_slice() {
            Ok(text) => sum = mix(sum, text.len().into_u64()),
            Err(_) => break,
        }
    }
    sum
}

/// Tables of abbreviations, and each declaration by its code.
pub fn tables<R: Reader>(alloc: Global, section: R) -> u64 {
    let end = section.len().into_u64();
    let section = DebugAbbrev::from(section);
    let mut sum = 0;
    for place in (0..end).step_by(core_bytes::TABLE) {
        match table(alloc, &section, place) {
            Ok(table) => sum = declarations(&table, sum),
            Err(_) => break,
        }
    }
    sum
}

/// Tables of abbreviations that are checked alone: how many can be read.
pub fn table_checks<R: Reader>(alloc: Global, section: R) -> u64 {
    let end = section.len().into_u64();
    let section = DebugAbbrev::from(section);
    let mut count = 0u64;
    for place in (0..end).step_by(core_bytes::TABLE) {
        match check(alloc, &section, place) {
            Ok(()) => count = count.wrapping_add(1),
            Err(_) => break,
        }
    }
    count
}

fn check<R: Reader>(alloc: Global, section: &DebugAbbrev<R>, place: u64) -> Result<(), Error> {
    let offset = DebugAbbrevOffset(R::Offset::from_u64(place)?);
    section.check_abbreviations(alloc, offset)
}

fn table<R: Reader>(
    alloc: Global,
    section: &DebugAbbrev<R>,
    place: u64,
) -> Result<Abbreviations, Error> {
    let offset = DebugAbbrevOffset(R::Offset::from_u64(place)?);
    section.abbreviations(alloc, offset)
}

fn declarations(table: &Abbreviations, mut sum: u64) -> u64 {
    for code in 1..=core_bytes::DECLARATIONS {
        if let Some(declaration) = table.get(u64::from(code)) {
            sum = mix(sum, u64::from(declaration.tag().0));
            sum = mix(sum, u64::from(declaration.has_children()));
            for attribute in declaration.attributes() {
                sum = mix(sum, u64::from(attribute.form().0));
            }
        }
    }
    sum
}
