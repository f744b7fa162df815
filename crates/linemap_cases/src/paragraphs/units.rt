//! Many small units, in the layout of DWARF 4, 7.5, with addresses of 4 bytes. Of their table of
//! abbreviations code 1 has low_pc and high_pc, code 2 a name and the same.

use super::data::number_of;
use crate::mistake::Mistake;
use std::alloc::{AllocError, Global};

/// The units of a line, which has four numbers: how many units there are, the step from one to the
/// next, how many addresses each has, and how many of these its function `s` has. Before them is a
/// unit over all of them, with the function `l` over all its addresses.
pub fn units_of(alloc: Global, words: &str) -> Result<Vec<u8>, Mistake> {
    let mut numbers = [0; 4];
    for (number, word) in numbers.iter_mut().zip(words.split_whitespace()) {
        *number = u32::try_from(number_of(word)?).map_err(|_| Mistake::Word)?;
    }
    Ok(units(alloc, numbers)?)
}

fn units(alloc: Global, numbers: [u32; 4]) -> Result<Vec<u8>, AllocError> {
    let [count, step, range, function] = numbers;
    let all = count.wrapping_mul(step);
    let mut info = Vec::new(alloc);
    push_unit(&mut info, 0, all, b'l', all)?;
    let mut begin: u32 = 0;
    for _ in 0..count {
        push_unit(&mut info, begin, range, b's', function)?;
        begin = begin.wrapping_add(step);
    }
    Ok(info)
}

// A unit with a function of a name of one byte, both from the same address on.
fn push_unit(
    info: &mut Vec<u8>,
    begin: u32,
    size: u32,
    name: u8,
    function_size: u32,
) -> Result<(), AllocError> {
    let begin = begin.to_le_bytes();
    info.extend_from_slice(b"\x1c\0\0\0\x04\0\0\0\0\0\x04\x01")?;
    info.extend_from_slice(&begin)?;
    info.extend_from_slice(&size.to_le_bytes())?;
    info.extend_from_slice(&[2, name, 0])?;
    info.extend_from_slice(&begin)?;
    info.extend_from_slice(&function_size.to_le_bytes())?;
    info.extend_from_slice(&[0])
}
