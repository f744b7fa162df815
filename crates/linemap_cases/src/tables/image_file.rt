//! The image of a table in a file.

use super::emission::image_of;
use super::frames::{answer_image, answer_loader};
use super::question::Probe;
use crate::answer::Answer;
use addr2line_loader::Loader;
use linemap_lookup::{FileSource, SplitSource};
use std::fs;
use std::rt::Files;

// The file, in the folder that the program runs in.
const PATH: &str = "written.elf";

/// Writes the image of the table in a text to a file. Adds the frames of an address there, whether
/// a source of split files gives the file's bytes, and the frames without the last byte.
pub fn answer<R: Files + AllocGlobal>(rt: &R, text: &[u8], probe: Probe, out: &mut Answer) {
    match image_of(out.alloc, text, probe.target, None) {
        Ok(image) => match fs::write(rt, PATH, &image) {
            Ok(()) => answer_file(rt, image, probe.address, out),
            Err(error) => out.refuse_file(error, "not written"),
        },
        Err(refusal) => out.refuse_table(refusal),
    }
}

fn answer_file<R: Files + AllocGlobal>(rt: &R, mut image: Vec<u8>, address: u64, out: &mut Answer) {
    match Loader::new(rt, PATH) {
        Ok(mut loader) => answer_loader(&mut loader, address, out),
        Err(error) => out.refuse_image(error),
    }
    out.text(", given by a source: ");
    add_source(rt, &image, out);
    out.text(", cut: ");
    image.truncate(image.len().saturating_sub(1));
    answer_image(image, address, out);
}

// Adds whether a source of split files gives these bytes.
fn add_source<R: Files + AllocGlobal>(rt: &R, image: &[u8], out: &mut Answer) {
    let mut source = FileSource::new(rt);
    match source.get(b".", PATH.as_bytes()) {
        Ok(Some(bytes)) if bytes.as_slice() == image => out.text("yes"),
        Ok(_) => out.text("no"),
        Err(error) => out.refuse(error),
    }
}
