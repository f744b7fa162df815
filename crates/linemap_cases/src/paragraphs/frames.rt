//! Frames, and the names of their functions.

use super::places::place;
use crate::answer::Answer;
use addr2line_context::{Context, Error, Frame, FrameIter, FunctionName, Reader};

/// The frames of an address, where each load is answered by no file.
pub fn frames_at<R: Reader>(context: &mut Context<R>, probe: u64, out: &mut Answer) {
    let found = context.find_frames(probe).skip_all_loads();
    frames(found, out);
}

/// Frames, or a refusal.
pub fn frames<R: Reader>(found: Result<FrameIter<'_, R>, Error>, out: &mut Answer) {
    match found {
        Ok(mut found) => frames_of(&mut found, out),
        Err(error) => out.refuse_named(error),
    }
}

/// Frames, the innermost first, up to ten.
pub fn frames_of<R: Reader>(found: &mut FrameIter<'_, R>, out: &mut Answer) {
    if !next_frame(found, out) {
        return out.text("no frames");
    }
    for _ in 1..10 {
        if !next_frame(found, out) {
            break;
        }
    }
}

// Whether there is one, or a refusal.
fn next_frame<R: Reader>(frames: &mut FrameIter<'_, R>, out: &mut Answer) -> bool {
    let found = match frames.next() {
        Err(Error::Memory) => {
            out.again();
            frames.next()
        }
        found => found,
    };
    match found {
        Ok(Some(found)) => {
            frame(&found, out);
            true
        }
        Ok(None) => false,
        Err(error) => {
            out.refuse_named(error);
            true
        }
    }
}

// A frame: its function's name, the offset of its entry, and its place.
fn frame<R: Reader>(frame: &Frame<'_, R>, out: &mut Answer) {
    out.text("[");
    match &frame.function {
        Some(function) => out.lossy(&function.name),
        None => out.text("?"),
    }
    if let Some(offset) = frame.dw_die_offset {
        out.text("@");
        out.code(&offset.0);
    }
    out.text(" ");
    place(frame.location.as_ref(), out);
    out.text("]");
}

/// The name of the function in the first frame of an address.
pub fn name_at<R: Reader>(context: &mut Context<R>, probe: u64, out: &mut Answer) {
    match context.find_frames(probe).skip_all_loads() {
        Ok(mut frames) => match frames.next() {
            Ok(Some(frame)) => name(&frame, out),
            Ok(None) => out.text("no frames"),
            Err(error) => out.refuse_named(error),
        },
        Err(error) => out.refuse_named(error),
    }
}

fn name<R: Reader>(frame: &Frame<'_, R>, out: &mut Answer) {
    match &frame.function {
        Some(function) => {
            raw_name(function, out);
            demangled_name(function, out);
        }
        None => out.text("?"),
    }
}

fn raw_name<R: Reader>(function: &FunctionName<R>, out: &mut Answer) {
    match function.raw_name(out.alloc) {
        Ok(name) => out.text(name.as_str()),
        Err(error) => out.refuse_named(error),
    }
}

fn demangled_name<R: Reader>(function: &FunctionName<R>, out: &mut Answer) {
    out.text(", which is ");
    match function.demangle(out.alloc) {
        Ok(name) => out.text(name.as_str()),
        Err(error) => out.refuse_named(error),
    }
}
