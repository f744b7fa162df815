//! Calls on one context over what is emitted of a table.

use super::emission::sections_of;
use super::places;
use super::question::{Probe, Series};
use crate::answer::Answer;
use addr2line_context::{EndianSlice, RunTimeEndian};
use linemap_replay::{
    Answer as CallAnswer, Call, DwarfFileType, Error, OwnedFrame, OwnedStretch, OwnedUnit, replay,
};
use linemap_text::{Context, Sections, dwarf_of};
use std::alloc::{AllocError, Global};
use std::str;

// An address before all units of the tables.
const BELOW_ALL: u64 = 0xfff;

type Slice<'a> = EndianSlice<'a, RunTimeEndian>;

/// Adds the answers to calls about an address of the table in a text.
pub fn answer(text: &[u8], probe: Probe, series: Series, out: &mut Answer) {
    match sections_of(out.alloc, text, probe.target) {
        Ok(sections) => answer_sections(&sections, probe, series, out),
        Err(refusal) => out.refuse_table(refusal),
    }
}

fn answer_sections(sections: &Sections, probe: Probe, series: Series, out: &mut Answer) {
    match context_over(out.alloc, sections, probe.target.endian()) {
        Ok(mut context) => answer_context(&mut context, probe.address, series, out),
        Err(error) => out.refuse(error),
    }
}

fn context_over(
    alloc: Global,
    sections: &Sections,
    endian: RunTimeEndian,
) -> Result<Context<Slice<'_>>, Error> {
    Context::from_dwarf(alloc, dwarf_of(alloc, sections, endian))
}

fn answer_context(
    context: &mut Context<Slice<'_>>,
    address: u64,
    series: Series,
    out: &mut Answer,
) {
    match calls_about(out.alloc, address, series) {
        Ok(calls) => answer_calls(context, &calls, out),
        Err(_) => out.refuse_memory(),
    }
}

fn calls_about(alloc: Global, address: u64, series: Series) -> Result<Vec<Call>, AllocError> {
    match series {
        Series::AllTwice => all_calls_about(alloc, address),
        Series::Lines => line_calls_about(alloc, address),
        Series::NoPreload => answered_calls_about(alloc, address),
    }
}

// The place of an address, its frames, all stretches and all lines.
fn line_calls_about(alloc: Global, address: u64) -> Result<Vec<Call>, AllocError> {
    let mut calls = Vec::new(alloc);
    calls.push(Call::Location(address))?;
    calls.push(Call::Frames(address, Vec::new(alloc)))?;
    calls.push(Call::Range(0, u64::MAX))?;
    calls.push(Call::ParseLines)?;
    Ok(calls)
}

// The frames of an address, the place of 0xfff, an answer to a load, and the frames.
fn answered_calls_about(alloc: Global, address: u64) -> Result<Vec<Call>, AllocError> {
    let mut calls = Vec::new(alloc);
    calls.push(Call::Frames(address, Vec::new(alloc)))?;
    calls.push(Call::Location(BELOW_ALL))?;
    calls.push(Call::Answer(0, 0))?;
    calls.push(Call::Frames(address, Vec::new(alloc)))?;
    Ok(calls)
}

// The place of an address, its frames, the stretches in 16 addresses, its loads, an answer to the
// first, its unit, all lines, functions and calls; and all of them once more.
fn all_calls_about(alloc: Global, address: u64) -> Result<Vec<Call>, AllocError> {
    let mut calls = Vec::new(alloc);
    for _ in 0..2 {
        calls.push(Call::Location(address))?;
        calls.push(Call::Frames(address, Vec::new(alloc)))?;
        calls.push(Call::Range(address, address.saturating_add(16)))?;
        calls.push(Call::Preload(address))?;
        calls.push(Call::Answer(0, 0))?;
        calls.push(Call::Unit(address, Vec::new(alloc)))?;
        calls.push(Call::ParseLines)?;
        calls.push(Call::ParseFunctions)?;
        calls.push(Call::ParseInlined)?;
    }
    Ok(calls)
}

/// Adds the answers to calls. Where memory was refused for them, the same context is asked again.
pub fn answer_calls(context: &mut Context<Slice<'_>>, calls: &[Call], out: &mut Answer) {
    let mut first = Answer::new(out.alloc);
    ask(context, calls, &mut first);
    if !out.add_first(first) {
        ask(context, calls, out);
    }
}

fn ask(context: &mut Context<Slice<'_>>, calls: &[Call], out: &mut Answer) {
    match replay(out.alloc, context, calls, &[]) {
        Ok(answers) => add_answers(&answers, out),
        Err(error) => out.refuse(error),
    }
}

// ---- answers

fn add_answers(answers: &[CallAnswer], out: &mut Answer) {
    for (place, answer) in answers.iter().enumerate() {
        if place > 0 {
            out.text("; ");
        }
        add_answer(answer, out);
    }
}

fn add_answer(answer: &CallAnswer, out: &mut Answer) {
    match answer {
        CallAnswer::Location(Some(location)) => places::place(&location.lend(), out),
        CallAnswer::Location(None) => out.text("no place"),
        CallAnswer::Frames(frames) => add_frames(frames, out),
        CallAnswer::Range(stretches, refusal) => {
            add_stretches(stretches, out);
            if let Some(error) = refusal {
                out.refuse(*error);
            }
        }
        CallAnswer::Refused(error) => out.refuse(*error),
        other => add_state(other, out),
    }
}

// Adds an answer without a place.
fn add_state(answer: &CallAnswer, out: &mut Answer) {
    match answer {
        CallAnswer::Unit(Some(unit)) => add_unit(unit, out),
        CallAnswer::Unit(None) => out.text("no unit"),
        CallAnswer::Preload(loads) => {
            out.value(&loads.len());
            out.text(" loads");
            for id in loads {
                out.text(" ");
                out.hex(id.0);
            }
        }
        CallAnswer::Done => out.text("done"),
        CallAnswer::NoToken => out.text("no token"),
        _ => out.text("waits"),
    }
}

fn add_unit(unit: &OwnedUnit, out: &mut Answer) {
    out.text(match unit.file_type {
        DwarfFileType::Main => "main unit ",
        DwarfFileType::Dwo => "split unit ",
    });
    out.hex(unit.offset);
}

fn add_frames(frames: &[OwnedFrame], out: &mut Answer) {
    if frames.is_empty() {
        out.text("no frames");
    }
    for frame in frames {
        add_frame(frame, out);
    }
}

fn add_frame(frame: &OwnedFrame, out: &mut Answer) {
    let name = match &frame.function {
        Some(function) => str::from_utf8(&function.name).unwrap_or("no text"),
        None => "?",
    };
    match &frame.location {
        Some(location) => places::frame(name, Some(&location.lend()), out),
        None => places::frame(name, None, out),
    }
}

fn add_stretches(stretches: &[OwnedStretch], out: &mut Answer) {
    if stretches.is_empty() {
        out.text("no stretches");
    }
    for stretch in stretches {
        add_stretch(stretch, out);
    }
}

fn add_stretch(stretch: &OwnedStretch, out: &mut Answer) {
    out.text("[");
    out.hex(stretch.address);
    out.text("+");
    out.hex(stretch.length);
    out.text(" ");
    places::place(&stretch.location.lend(), out);
    out.text("]");
}
