//! The frames of an address, from the image of a table.

use super::emission::image_of;
use super::places;
use super::question::{Change, Probe};
use crate::answer::Answer;
use addr2line_context::{Error, Frame, FrameIter, Reader};
use addr2line_loader::Loader;
use bytes::Bytes;
use linemap_lookup::MapSource;

/// Adds the frames of an address in the image of the table in a text, with its change.
pub fn answer(text: &[u8], probe: Probe, change: Option<Change>, out: &mut Answer) {
    match image_of(out.alloc, text, probe.target, change) {
        Ok(image) => answer_image(image, probe.address, out),
        Err(refusal) => out.refuse_table(refusal),
    }
}

/// Loads an image, and adds the frames of an address there.
pub fn answer_image(image: Vec<u8>, address: u64, out: &mut Answer) {
    match Bytes::from_vec(image) {
        Ok(image) => match Loader::from_bytes(out.alloc, image, None) {
            Ok(mut loader) => answer_loader(&mut loader, address, out),
            Err(error) => out.refuse_image(error),
        },
        Err(_) => out.refuse_memory(),
    }
}

/// Adds the frames of an address. Where memory was refused for them, the same loader is asked
/// again.
pub fn answer_loader(loader: &mut Loader, address: u64, out: &mut Answer) {
    let mut first = Answer::new(out.alloc);
    frames(loader, address, &mut first);
    if !out.add_first(first) {
        frames(loader, address, out);
    }
}

fn frames(loader: &mut Loader, address: u64, out: &mut Answer) {
    match loader.find_frames(out.alloc, address, &mut MapSource::new(out.alloc)) {
        Ok(mut found) => frames_of(&mut found, out),
        Err(error) => out.refuse(error),
    }
}

// Frames, the innermost first, up to 60.
fn frames_of<R: Reader>(found: &mut FrameIter<'_, R>, out: &mut Answer) {
    if !next_frame(found, out) {
        return out.text("none");
    }
    for _ in 1..60 {
        if !next_frame(found, out) {
            break;
        }
    }
}

// Adds a frame, or a refusal. Whether there was one. Where memory was refused for the frame, the
// same iterator is asked again.
fn next_frame<R: Reader>(frames: &mut FrameIter<'_, R>, out: &mut Answer) -> bool {
    let found = match frames.next() {
        Err(Error::Memory) => {
            out.again();
            frames.next()
        }
        found => found,
    };
    match found {
        Ok(Some(found)) => {
            frame(&found, out);
            true
        }
        Ok(None) => false,
        Err(error) => {
            out.refuse(error);
            true
        }
    }
}

fn frame<R: Reader>(frame: &Frame<'_, R>, out: &mut Answer) {
    match &frame.function {
        Some(function) => match function.name.to_string_lossy(out.alloc) {
            Ok(name) => places::frame(name.as_str(), frame.location.as_ref(), out),
            Err(error) => out.refuse(error),
        },
        None => places::frame("?", frame.location.as_ref(), out),
    }
}
