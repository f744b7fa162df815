//! The bytes that the reading core is timed over.

use crate::source::Source;
use std::alloc::{AllocError, Global};

/// The bytes of a table of abbreviations.
pub const TABLE: usize = 1024;

/// The declarations of a table of abbreviations.
pub const DECLARATIONS: u8 = 63;

/// Any bytes.
pub fn random(alloc: Global, size: usize) -> Result<Vec<u8>, AllocError> {
    let mut source = Source::new();
    let mut bytes = Vec::with_capacity(alloc, size)?;
    for _ in 0..size {
        bytes.push(source.next())?;
    }
    Ok(bytes)
}

/// LEB128 numbers of at most four bytes.
pub fn numbers(alloc: Global, size: usize) -> Result<Vec<u8>, AllocError> {
    let mut bytes = random(alloc, size)?;
    for (place, byte) in bytes.iter_mut().enumerate() {
        if place % 4 == 3 {
            *byte &= 0x7f;
        }
    }
    Ok(bytes)
}

/// Texts, of 16 bytes on average with the zero byte that ends each.
pub fn texts(alloc: Global, size: usize) -> Result<Vec<u8>, AllocError> {
    let mut bytes = random(alloc, size)?;
    for byte in bytes.iter_mut() {
        if *byte < 16 {
            *byte = 0;
        }
    }
    Ok(bytes)
}

/// Tables of abbreviations, one after the other.
pub fn tables(alloc: Global, count: usize) -> Result<Vec<u8>, AllocError> {
    let mut source = Source::new();
    let mut bytes = Vec::new(alloc);
    for _ in 0..count {
        for code in 1..=DECLARATIONS {
            declare(&mut source, code, &mut bytes)?;
        }
        bytes.extend_from_slice(&[0; 16])?;
    }
    Ok(bytes)
}

// A declaration of five attributes, in 16 bytes.
fn declare(source: &mut Source, code: u8, bytes: &mut Vec<u8>) -> Result<(), AllocError> {
    bytes.extend_from_slice(&[code, source.next() | 0x80, 1, source.next() & 1])?;
    for _ in 0..5 {
        let name = source.next() % 0x7f + 1;
        let form = source.next() % 0x20 + 1;
        bytes.extend_from_slice(&[name, form])?;
    }
    bytes.extend_from_slice(&[0, 0])
}
