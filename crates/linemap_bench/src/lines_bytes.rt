//! The line number program that reading is timed over.

use crate::source::Source;
use std::alloc::{AllocError, Global};

// A header of version 4 in the 32-bit format, from the version on: lines from -5 to 8, opcodes from
// 13 on, no directories, one file.
const AFTER_LENGTH: &[u8] = &[
    4, 0, 0x1b, 0, 0, 0, 1, 1, 1, 0xfb, 14, 13, 0, 1, 1, 1, 1, 0, 0, 0, 1, 0, 0, 1, 0, b'a', b'.',
    b'c', 0, 0, 0, 0, 0,
];

/// `.debug_line` of one unit, with about `size` bytes of instructions, in about the shares that
/// compilers choose.
pub fn section(alloc: Global, size: usize) -> Result<Vec<u8>, AllocError> {
    let mut source = Source::new();
    let mut program = Vec::with_capacity(alloc, size)?;
    sequence(&mut source, &mut program)?;
    for _ in 0..size {
        if program.len() >= size {
            break;
        }
        instruction(&mut source, &mut program)?;
    }
    program.extend_from_slice(&[0, 1, 1])?;
    with_header(alloc, &program)
}

// An instruction, or the end of a sequence and the start of the next one.
fn instruction(source: &mut Source, bytes: &mut Vec<u8>) -> Result<(), AllocError> {
    match source.next() {
        0..=0x6f => special(source, bytes),
        // DW_LNS_set_column, DW_LNS_advance_line, DW_LNS_advance_pc
        0x70..=0x9f => with_number(5, source, bytes),
        0xa0..=0xb3 => with_number(3, source, bytes),
        0xb4..=0xc7 => with_number(2, source, bytes),
        // DW_LNS_negate_stmt, DW_LNS_copy, DW_LNS_const_add_pc, DW_LNS_set_prologue_end
        0xc8..=0xd7 => alone(6, bytes),
        0xd8..=0xdf => alone(1, bytes),
        0xe0..=0xe7 => alone(8, bytes),
        0xe8..=0xeb => alone(10, bytes),
        // DW_LNS_set_file
        0xec..=0xef => with_number(4, source, bytes),
        0xf0..=0xfd => discriminator(source, bytes),
        _ => {
            bytes.extend_from_slice(&[0, 1, 1])?;
            sequence(source, bytes)
        }
    }
}

fn special(source: &mut Source, bytes: &mut Vec<u8>) -> Result<(), AllocError> {
    bytes.push(13 + source.next() % 243)?;
    Ok(())
}

fn alone(opcode: u8, bytes: &mut Vec<u8>) -> Result<(), AllocError> {
    bytes.push(opcode)?;
    Ok(())
}

fn with_number(opcode: u8, source: &mut Source, bytes: &mut Vec<u8>) -> Result<(), AllocError> {
    bytes.push(opcode)?;
    source.number(bytes)
}

fn discriminator(source: &mut Source, bytes: &mut Vec<u8>) -> Result<(), AllocError> {
    bytes.extend_from_slice(&[0, 2, 4])?;
    bytes.push(source.next() & 0x7f)?;
    Ok(())
}

// The address of a sequence.
fn sequence(source: &mut Source, bytes: &mut Vec<u8>) -> Result<(), AllocError> {
    bytes.extend_from_slice(&[0, 9, 2])?;
    source.bytes(7, bytes)?;
    bytes.push(0)?;
    Ok(())
}

// The header, and the program after it.
fn with_header(alloc: Global, program: &[u8]) -> Result<Vec<u8>, AllocError> {
    let length = AFTER_LENGTH.len().wrapping_add(program.len());
    let length = u32::try_from(length).unwrap_or(0);
    let mut section = Vec::new(alloc);
    section.extend_from_slice(&length.to_le_bytes())?;
    section.extend_from_slice(AFTER_LENGTH)?;
    section.extend_from_slice(program)?;
    Ok(section)
}

// A header of version 5 in the 32-bit format, from the version to its length, and from there to the
// number of directories: each has a path in `.debug_line_str`.
const BEFORE_LENGTH: &[u8] = &[5, 0, 8, 0];

const BEFORE_DIRECTORIES: &[u8] = &[
    1, 1, 1, 0xfb, 14, 13, 0, 1, 1, 1, 1, 0, 0, 0, 1, 0, 0, 1, 1, 1, 0x1f,
];

// The formats of files: a path in `.debug_line_str` and the number of the directory; with a digest.
const FILE_FORMATS: &[u8] = &[2, 1, 0x1f, 2, 0x0f];

const FILE_FORMATS_WITH_DIGEST: &[u8] = &[3, 1, 0x1f, 2, 0x0f, 5, 0x1e];

/// `.debug_line` of units without instructions, about `size` bytes of headers: each has one to four
/// directories and one to 64 files, half of the headers with digests of the files.
pub fn headers(alloc: Global, size: usize) -> Result<Vec<u8>, AllocError> {
    let mut source = Source::new();
    let mut section = Vec::with_capacity(alloc, size)?;
    for _ in 0..size {
        if section.len() >= size {
            break;
        }
        header(alloc, &mut source, &mut section)?;
    }
    Ok(section)
}

// A header with files, and no program.
fn header(alloc: Global, source: &mut Source, section: &mut Vec<u8>) -> Result<(), AllocError> {
    let mut fields = Vec::new(alloc);
    fields.extend_from_slice(BEFORE_DIRECTORIES)?;
    let directories = 1 + source.next() % 4;
    fields.push(directories)?;
    for _ in 0..directories {
        source.bytes(4, &mut fields)?;
    }
    let has_digests = source.next() < 0x80;
    fields.extend_from_slice(if has_digests {
        FILE_FORMATS_WITH_DIGEST
    } else {
        FILE_FORMATS
    })?;
    let files = 1 + source.next() % 64;
    fields.push(files)?;
    for _ in 0..files {
        source.bytes(4, &mut fields)?;
        source.number(&mut fields)?;
        if has_digests {
            source.bytes(16, &mut fields)?;
        }
    }
    let length = u32::try_from(fields.len()).unwrap_or(0);
    section.extend_from_slice(&length.wrapping_add(8).to_le_bytes())?;
    section.extend_from_slice(BEFORE_LENGTH)?;
    section.extend_from_slice(&length.to_le_bytes())?;
    section.extend_from_slice(&fields)?;
    Ok(())
}
