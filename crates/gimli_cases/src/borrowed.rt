//! Sections that are borrowed with another reader, which has the bytes in the other order. A reader
//! that is borrowed has to live on, so the bytes are constants; their first byte is the high one.

use crate::answer::Answer;
use crate::case::Case;
use crate::{sections, units};
use gimli_core::{
    BigEndian, DebugAbbrev, DebugAbbrevOffset, DebugAddr, DebugLineStr, DebugStr, DebugStrOffsets,
    EndianSlice, Error, LittleEndian, ReaderOffsetId, Section, SectionId,
};
use gimli_units::{
    DebugInfo, DebugLoc, DebugLocLists, DebugRanges, DebugRngLists, LocationLists, RangeLists,
};
use std::alloc::Global;

type Little = EndianSlice<'static, LittleEndian>;

type Big = EndianSlice<'static, BigEndian>;

// A table of one declaration; an address, or the offset of a string; and a string.
const BYTES: &[u8] = b"\x01\x11\0\0\0\0\x12\x34ab\0";

const LINE_STRINGS: &[u8] = b"a.c\0";

// A unit of version 4 with two bytes of entries, and a type unit of version 5 with one.
const UNITS: &[u8] = b"\0\0\0\x09\0\x04\x12\x34\x56\x78\x08\x01\0\
    \0\0\0\x15\0\x05\x02\x04\0\0\0\x10\x01\x02\x03\x04\x05\x06\x07\x08\0\0\0\x18\x01";

// Sections of lists up to version 4 and of later ones, and another one.
const LISTS: &[u8] = b"\x04";

const LATER_LISTS: &[u8] = b"\x05\x06";

const OTHER_LISTS: &[u8] = b"\x07\x08\x09";

/// Answers a question about sections that are borrowed.
pub fn answer(alloc: Global, case: &Case, out: &mut Answer) {
    match case.operation.as_str() {
        "borrowed_sections" => borrow_sections(alloc, case, BYTES, 0, out),
        "borrowed_line_string" => borrow_line_strings(case, out),
        _ => {
            borrow_units(case, UNITS, out);
            borrow_lists(case, LISTS, LATER_LISTS, OTHER_LISTS, out);
        }
    }
}

fn in_big_order(reader: &Little) -> Big {
    EndianSlice::new(reader.slice(), BigEndian)
}

// A table at the start, and the string, the offset of one and the address of the question.
fn borrow_sections(
    alloc: Global,
    case: &Case,
    bytes: &'static [u8],
    start: usize,
    out: &mut Answer,
) {
    let section = DebugAbbrev::new(bytes, LittleEndian);
    let borrowed = section.borrow(in_big_order);
    sections::abbreviations(borrowed.abbreviations(alloc, DebugAbbrevOffset(start)), out);
    out.text(" ");
    let section = DebugStr::new(bytes, LittleEndian);
    sections::string(case, &section.borrow(in_big_order), out);
    out.text(" ");
    let section = DebugStrOffsets::new(bytes, LittleEndian);
    sections::string_offset(case, &section.borrow(in_big_order), out);
    out.text(" ");
    let section = DebugAddr::new(bytes, LittleEndian);
    sections::address_at(case, &section.borrow(in_big_order), out);
}

// A section that is loaded by its name: where an identifier is in it, and a string.
fn borrow_line_strings(case: &Case, out: &mut Answer) {
    out.text(DebugLineStr::<Little>::section_name());
    out.text(" ");
    match DebugLineStr::<Little>::load(load_line_strings) {
        Ok(section) => {
            out.word(&section.lookup_offset_id(ReaderOffsetId(case.index)));
            sections::line_string(case, &section.borrow(in_big_order), out);
        }
        Err(error) => out.refuse(error),
    }
}

// A loader that has one section.
fn load_line_strings(id: SectionId) -> Result<Little, Error> {
    match id {
        SectionId::DebugLineStr => Ok(EndianSlice::new(LINE_STRINGS, LittleEndian)),
        _ => Err(Error::NoSuchUnit),
    }
}

fn borrow_units(case: &Case, bytes: &'static [u8], out: &mut Answer) {
    let section = DebugInfo::new(bytes, LittleEndian);
    units::one_unit(&units::unit(case, &section.borrow(in_big_order)), out);
    out.text(" ");
}

// The bytes of both sections of range lists, the first of which is put in another one's place, and
// where an identifier is in both of location lists.
fn borrow_lists(
    case: &Case,
    first: &'static [u8],
    second: &'static [u8],
    other: &'static [u8],
    out: &mut Answer,
) {
    let ranges = DebugRanges::new(first, LittleEndian);
    let mut lists = RangeLists::new(ranges, DebugRngLists::new(second, LittleEndian));
    lists.set_debug_ranges(DebugRanges::new(other, LittleEndian));
    let borrowed = lists.borrow(in_big_order);
    out.bytes(borrowed.debug_ranges().reader());
    out.text(" ");
    out.bytes(borrowed.debug_rnglists().reader());
    out.text(" ");
    let locations = DebugLoc::new(first, LittleEndian);
    let lists = LocationLists::new(locations, DebugLocLists::new(second, LittleEndian));
    let borrowed = lists.borrow(in_big_order);
    out.code(&borrowed.lookup_offset_id(ReaderOffsetId(case.index)));
}
