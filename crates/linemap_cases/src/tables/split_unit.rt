//! Calls on one context over a small file by hand, whose unit has a split file.

use super::replays::answer_calls;
use crate::answer::Answer;
use linemap_replay::Call;
use linemap_text::{Context, Dwarf, EndianSlice, Error, RunTimeEndian, SectionId};
use std::alloc::{AllocError, Global};

// A unit with low_pc, high_pc as a size, lines, the split file's name and an identifier (GNU's
// attributes for split units).
const TABLE: &[u8] = b"\x01\x11\0\x11\x01\x12\x06\x10\x17\xb0\x42\x08\xb1\x42\x07\0\0\0";

// From 0x40 to 0x60, with identifier 7.
const UNIT: &[u8] = b"\x22\0\0\0\x04\0\0\0\0\0\x04\
    \x01\x40\0\0\0\x20\0\0\0\0\0\0\0a.dwo\0\x07\0\0\0\0\0\0\0";

// a.c, with 0x40 at 9:1, up to 0x60.
const LINES: &[u8] = b"\x32\0\0\0\x04\0\x1b\0\0\0\x01\x01\x01\xfb\x0e\x0d\
    \0\x01\x01\x01\x01\0\0\0\x01\0\0\x01\0a.c\0\0\0\0\0\
    \0\x05\x02\x40\0\0\0\x05\x01\x03\x08\x01\x02\x20\0\x01\x01";

fn section(id: SectionId) -> &'static [u8] {
    match id {
        SectionId::DebugAbbrev => TABLE,
        SectionId::DebugInfo => UNIT,
        SectionId::DebugLine => LINES,
        _ => b"",
    }
}

fn context_of_file(alloc: Global) -> Result<Context<EndianSlice<'static, RunTimeEndian>>, Error> {
    let dwarf = Dwarf::load(alloc, |id| {
        Ok(EndianSlice::new(section(id), RunTimeEndian::Little))
    });
    match dwarf {
        Ok(dwarf) => Context::from_dwarf(alloc, dwarf),
        Err(error) => Err(error),
    }
}

/// Adds the answers to calls about an address.
pub fn answer(address: u64, out: &mut Answer) {
    let calls = match calls_about(out.alloc, address) {
        Ok(calls) => calls,
        Err(_) => return out.refuse_memory(),
    };
    match context_of_file(out.alloc) {
        Ok(mut context) => answer_calls(&mut context, &calls, out),
        Err(error) => out.refuse(error),
    }
}

// The place of an address, its frames, its loads, an answer to a second one, its unit without an
// answer, an answer to the first load, its frames, the stretches in 32 addresses, all lines,
// functions and calls.
fn calls_about(alloc: Global, address: u64) -> Result<Vec<Call>, AllocError> {
    let mut calls = Vec::new(alloc);
    let mut none = Vec::new(alloc);
    none.push(0)?;
    calls.push(Call::Location(address))?;
    calls.push(Call::Frames(address, Vec::new(alloc)))?;
    calls.push(Call::Preload(address))?;
    calls.push(Call::Answer(1, 0))?;
    calls.push(Call::Unit(address, none))?;
    calls.push(Call::Answer(0, 0))?;
    calls.push(Call::Frames(address, Vec::new(alloc)))?;
    calls.push(Call::Range(address, address.saturating_add(32)))?;
    calls.push(Call::ParseLines)?;
    calls.push(Call::ParseFunctions)?;
    calls.push(Call::ParseInlined)?;
    Ok(calls)
}
