//! How the image of a table begins, and how `emit` ends without one.

use super::ending::{add_end, add_stream};
use super::streams::CutWriter;
use crate::answer::Answer;
use linemap_commands::emission;
use linemap_image::Target;

/// Adds how the image of the table in a text begins, or how `emit` ends without one.
pub fn answer(text: &[u8], target: Target, out: &mut Answer) {
    let mut err = CutWriter::new(out.alloc);
    match emission(out.alloc, text, target, &mut err) {
        Ok(image) => add_image(&image, out),
        Err(ended) if ended.memory || err.lacks_memory => out.refuse_memory(),
        Err(ended) => {
            add_end(ended, out);
            add_stream("; err ", &err.text, out);
        }
    }
}

// Adds the bytes by which an image begins: the mark of ELF files, its class and its byte order.
fn add_image(image: &[u8], out: &mut Answer) {
    out.text("an image,");
    for byte in image.iter().take(6) {
        out.text(" ");
        out.value(byte);
    }
}
