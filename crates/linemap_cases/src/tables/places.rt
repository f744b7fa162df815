//! Frames and places as they are written.

use crate::answer::Answer;
use addr2line_context::Location;

/// A frame: the name of its function, and its place.
pub fn frame(name: &str, location: Option<&Location<'_>>, out: &mut Answer) {
    out.text("[");
    out.text(name);
    out.text(" ");
    match location {
        Some(location) => place(location, out),
        None => out.text("?"),
    }
    out.text("]");
}

/// A place: its file, line and column, which block of the line it belongs to, and that no statement
/// begins there.
pub fn place(place: &Location<'_>, out: &mut Answer) {
    out.text(place.file.unwrap_or("?"));
    out.text(":");
    out.number(place.line);
    out.text(":");
    out.number(place.column);
    if let Some(number) = place.discriminator {
        discriminator(number, out);
    }
    if place.statement == Some(false) {
        out.text(" (not a statement)");
    }
}

// A discriminator, unless the line has one block.
fn discriminator(number: u64, out: &mut Answer) {
    if number > 0 {
        out.text(" (discriminator ");
        out.value(&number);
        out.text(")");
    }
}
