//! LEB128 numbers (DWARF 5, 7.6).

pub mod read;
