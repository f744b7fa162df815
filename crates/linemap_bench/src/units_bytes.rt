//! The sections that the reading of units is timed over.

use crate::source::Source;
use std::alloc::{AllocError, Global};

/// The declarations of the entries, in the forms that compilers choose: code, tag, whether children
/// follow, and pairs of a name and a form.
pub const ABBREVIATIONS: &[u8] = &[
    // A compilation unit: name, comp_dir, low_pc, high_pc, language, stmt_list.
    1, 0x11, 1, 0x03, 0x0e, 0x1b, 0x0e, 0x11, 0x01, 0x12, 0x07, 0x13, 0x05, 0x10, 0x17, 0, 0,
    // A function: external, name, decl_file, decl_line, decl_column, type, low_pc, high_pc,
    // frame_base, sibling.
    2, 0x2e, 1, 0x3f, 0x19, 0x03, 0x0e, 0x3a, 0x0b, 0x3b, 0x05, 0x39, 0x0b, 0x49, 0x13, 0x11, 0x01,
    0x12, 0x07, 0x40, 0x18, 0x01, 0x13, 0, 0,
    // A parameter: name, decl_file, decl_line, decl_column, type, location.
    3, 0x05, 0, 0x03, 0x0e, 0x3a, 0x0b, 0x3b, 0x05, 0x39, 0x0b, 0x49, 0x13, 0x02, 0x18, 0, 0,
    // A variable: name, decl_file, decl_line, decl_column, type, location.
    4, 0x34, 0, 0x03, 0x0e, 0x3a, 0x0b, 0x3b, 0x05, 0x39, 0x0b, 0x49, 0x13, 0x02, 0x17, 0, 0,
    // A variable with a short name, which is in the entry.
    5, 0x34, 0, 0x03, 0x08, 0x3a, 0x0b, 0x3b, 0x05, 0x39, 0x0b, 0x49, 0x13, 0x02, 0x17, 0, 0,
    // An inlined call: abstract_origin, low_pc, high_pc, call_file, call_line, call_column,
    // sibling.
    6, 0x1d, 1, 0x31, 0x13, 0x11, 0x01, 0x12, 0x07, 0x58, 0x0b, 0x59, 0x05, 0x57, 0x0b, 0x01, 0x13,
    0, 0,
    // A structure: name, byte_size, decl_file, decl_line, decl_column, sibling.
    7, 0x13, 1, 0x03, 0x0e, 0x0b, 0x0f, 0x3a, 0x0b, 0x3b, 0x05, 0x39, 0x0b, 0x01, 0x13, 0, 0,
    // A member: name, decl_file, decl_line, decl_column, type, data_member_location.
    8, 0x0d, 0, 0x03, 0x0e, 0x3a, 0x0b, 0x3b, 0x05, 0x39, 0x0b, 0x49, 0x13, 0x38, 0x0d, 0, 0, //
    0,
];

// The bytes of a unit's header after its length: version, type, size of an address, offset of the
// abbreviations.
const AFTER_LENGTH: u32 = 2 + 1 + 1 + 4;

/// The sections that are read.
#[derive(Drop)]
pub struct Sections {
    /// `.debug_info`, of one unit.
    pub info: Vec<u8>,
    /// `.debug_rnglists`.
    pub lists: Vec<u8>,
    /// How many lists it has.
    pub count: usize,
    /// `.debug_addr`.
    pub addresses: Vec<u8>,
}

impl Sections {
    /// About `size` bytes of entries, and a list of ranges for each 160 bytes.
    pub fn of_size(alloc: Global, size: usize) -> Result<Sections, AllocError> {
        let count = size / 160;
        Ok(Sections {
            info: unit(alloc, size)?,
            lists: lists(alloc, count)?,
            count,
            addresses: addresses(alloc)?,
        })
    }
}

// ---- a unit

// A unit of about `size` bytes: functions with parameters, variables and inlined calls, and
// structures with members.
fn unit(alloc: Global, size: usize) -> Result<Vec<u8>, AllocError> {
    let mut source = Source::new();
    let mut entries = Vec::with_capacity(alloc, size)?;
    entries.push(1)?;
    source.bytes(4 + 4 + 8 + 8 + 2 + 4, &mut entries)?;
    for _ in 0..size {
        if entries.len() >= size {
            break;
        }
        if source.next() < 0xc0 {
            function(&mut source, &mut entries)?;
        } else {
            structure(&mut source, &mut entries)?;
        }
    }
    entries.push(0)?;
    with_header(alloc, &entries)
}

fn function(source: &mut Source, bytes: &mut Vec<u8>) -> Result<(), AllocError> {
    bytes.push(2)?;
    source.bytes(4 + 1 + 2 + 1 + 4 + 8 + 8, bytes)?;
    source.block(bytes)?;
    source.bytes(4, bytes)?;
    for _ in 0..source.next() % 4 {
        parameter(source, bytes)?;
    }
    for _ in 0..source.next() % 4 {
        variable(source, bytes)?;
    }
    if source.next() < 0x80 {
        call(source, bytes)?;
    }
    bytes.push(0)?;
    Ok(())
}

fn parameter(source: &mut Source, bytes: &mut Vec<u8>) -> Result<(), AllocError> {
    bytes.push(3)?;
    source.bytes(4 + 1 + 2 + 1 + 4, bytes)?;
    source.block(bytes)
}

fn variable(source: &mut Source, bytes: &mut Vec<u8>) -> Result<(), AllocError> {
    if source.next() < 0xc0 {
        bytes.push(4)?;
        source.bytes(4, bytes)?;
    } else {
        bytes.push(5)?;
        source.text(bytes)?;
    }
    source.bytes(1 + 2 + 1 + 4 + 4, bytes)
}

fn call(source: &mut Source, bytes: &mut Vec<u8>) -> Result<(), AllocError> {
    bytes.push(6)?;
    source.bytes(4 + 8 + 8 + 1 + 2 + 1 + 4, bytes)?;
    for _ in 0..source.next() % 2 {
        parameter(source, bytes)?;
    }
    bytes.push(0)?;
    Ok(())
}

fn structure(source: &mut Source, bytes: &mut Vec<u8>) -> Result<(), AllocError> {
    bytes.push(7)?;
    source.bytes(4, bytes)?;
    source.number(bytes)?;
    source.bytes(1 + 2 + 1 + 4, bytes)?;
    for _ in 0..source.next() % 8 {
        bytes.push(8)?;
        source.bytes(4 + 1 + 2 + 1 + 4, bytes)?;
        source.number(bytes)?;
    }
    bytes.push(0)?;
    Ok(())
}

// The header of version 5 in the 32-bit format, and the entries after it.
fn with_header(alloc: Global, entries: &[u8]) -> Result<Vec<u8>, AllocError> {
    let length = u32::try_from(entries.len())
        .unwrap_or(0)
        .wrapping_add(AFTER_LENGTH);
    let mut unit = Vec::new(alloc);
    unit.extend_from_slice(&length.to_le_bytes())?;
    unit.extend_from_slice(&[5, 0, 1, 8, 0, 0, 0, 0])?;
    unit.extend_from_slice(entries)?;
    Ok(unit)
}

// ---- lists of ranges

// The number of addresses that lists name by their indexes.
const ADDRESSES: u16 = 128;

// `.debug_addr`: a header, and addresses of eight bytes.
fn addresses(alloc: Global) -> Result<Vec<u8>, AllocError> {
    let mut source = Source::new();
    let mut bytes = Vec::new(alloc);
    let length = 4 + 8 * u32::from(ADDRESSES);
    bytes.extend_from_slice(&length.to_le_bytes())?;
    bytes.extend_from_slice(&[5, 0, 8, 0])?;
    for _ in 0..ADDRESSES {
        source.bytes(7, &mut bytes)?;
        bytes.push(0)?;
    }
    Ok(bytes)
}

// The bytes of a list's offset in the table of `.debug_rnglists`.
const OFFSET: u32 = 4;

// `.debug_rnglists`: a header, the offsets of `count` lists, and the lists.
fn lists(alloc: Global, count: usize) -> Result<Vec<u8>, AllocError> {
    let count = u32::try_from(count).unwrap_or(0);
    let mut source = Source::new();
    let mut offsets = Vec::new(alloc);
    let mut lists = Vec::new(alloc);
    let table = count.wrapping_mul(OFFSET);
    for _ in 0..count {
        let before = u32::try_from(lists.len()).unwrap_or(0);
        offsets.extend_from_slice(&table.wrapping_add(before).to_le_bytes())?;
        list(&mut source, &mut lists)?;
    }
    let after = u32::try_from(lists.len()).unwrap_or(0);
    let length = table.wrapping_add(after).wrapping_add(8);
    let mut section = Vec::new(alloc);
    section.extend_from_slice(&length.to_le_bytes())?;
    section.extend_from_slice(&[5, 0, 8, 0])?;
    section.extend_from_slice(&count.to_le_bytes())?;
    section.extend_from_slice(&offsets)?;
    section.extend_from_slice(&lists)?;
    Ok(section)
}

// A list of at most eight entries after a base address.
fn list(source: &mut Source, bytes: &mut Vec<u8>) -> Result<(), AllocError> {
    bytes.push(5)?;
    address(source, bytes)?;
    for _ in 0..source.next() % 8 {
        match source.next() % 4 {
            0 => {
                // DW_RLE_startx_length
                bytes.push(3)?;
                bytes.push(source.next() & 0x7f)?;
                source.number(bytes)?;
            }
            1 => {
                // DW_RLE_start_length
                bytes.push(7)?;
                address(source, bytes)?;
                source.number(bytes)?;
            }
            _ => {
                // DW_RLE_offset_pair
                bytes.push(4)?;
                source.number(bytes)?;
                source.number(bytes)?;
            }
        }
    }
    bytes.push(0)?;
    Ok(())
}

fn address(source: &mut Source, bytes: &mut Vec<u8>) -> Result<(), AllocError> {
    source.bytes(7, bytes)?;
    bytes.push(0)?;
    Ok(())
}
