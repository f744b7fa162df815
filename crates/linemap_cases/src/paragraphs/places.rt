//! Places and stretches.

use crate::answer::Answer;
use addr2line_context::{Error, Location, LocationRangeIter, Reader};
use addr2line_loader::LoaderRangeIter;

/// Stretches that come one after the other.
pub trait StretchWalk {
    /// The next address, how many there are from it on, and their place.
    fn next(&mut self) -> Result<Option<(u64, u64, Location<'_>)>, Error>;
}

impl StretchWalk for LoaderRangeIter<'_> {
    fn next(&mut self) -> Result<Option<(u64, u64, Location<'_>)>, Error> {
        LoaderRangeIter::next(self)
    }
}

/// A place: its file, line and column, `?` for each that isn't known, and what else is recorded.
pub fn place(place: Option<&Location<'_>>, out: &mut Answer) {
    let Some(place) = place else {
        return out.text("nowhere");
    };
    out.text(place.file.unwrap_or("?"));
    number(place.line, out);
    number(place.column, out);
    if place.statement == Some(false) {
        out.text(" (not a statement)");
    }
    match place.discriminator {
        Some(0) | None => {}
        Some(number) => {
            out.text(" (discriminator ");
            out.value(&number);
            out.text(")");
        }
    }
}

fn number(number: Option<u32>, out: &mut Answer) {
    out.text(":");
    match number {
        Some(number) => out.value(&number),
        None => out.text("?"),
    }
}

/// The place that was found for an address.
pub fn place_found(found: Result<Option<Location<'_>>, Error>, out: &mut Answer) {
    match found {
        Ok(found) => place(found.as_ref(), out),
        Err(error) => out.refuse_named(error),
    }
}

/// Stretches, up to ten, and after a refusal the next answer.
pub fn stretches<R: Reader>(found: &mut LocationRangeIter<'_, R>, out: &mut Answer) {
    for _ in 0..10 {
        if !next_stretch(found, out) {
            break;
        }
    }
}

// The next one, and whether there is one.
fn next_stretch<R: Reader>(found: &mut LocationRangeIter<'_, R>, out: &mut Answer) -> bool {
    let next = match stretch(found.next(), out) {
        Err(Error::Memory) => {
            out.again();
            stretch(found.next(), out)
        }
        next => next,
    };
    match next {
        Ok(is_there) => is_there,
        Err(error) => {
            out.refuse_named(error);
            again(found, out);
            false
        }
    }
}

// A stretch, and whether there is one.
fn stretch(
    next: Result<Option<(u64, u64, Location<'_>)>, Error>,
    out: &mut Answer,
) -> Result<bool, Error> {
    match next? {
        Some((begin, length, location)) => {
            out.text("[");
            out.hex(begin);
            out.text("+");
            out.hex(length);
            out.text(" ");
            place(Some(&location), out);
            out.text("]");
            Ok(true)
        }
        None => Ok(false),
    }
}

// The refusal once more.
fn again<R: Reader>(found: &mut LocationRangeIter<'_, R>, out: &mut Answer) {
    match found.next() {
        Err(error) => {
            out.text(", again ");
            out.refuse_named(error);
        }
        _ => out.text(", and goes on"),
    }
}

// ---- the same of a loader

/// Stretches of a loader, up to ten, and after a refusal the next answer.
pub fn loader_stretches<S: StretchWalk>(found: &mut S, out: &mut Answer) {
    for _ in 0..10 {
        if !next_of_loader(found, out) {
            break;
        }
    }
}

// The next one, and whether there is one.
fn next_of_loader<S: StretchWalk>(found: &mut S, out: &mut Answer) -> bool {
    let next = match stretch(found.next(), out) {
        Err(Error::Memory) => {
            out.again();
            stretch(found.next(), out)
        }
        next => next,
    };
    match next {
        Ok(is_there) => is_there,
        Err(error) => {
            out.refuse_named(error);
            loader_again(found, out);
            false
        }
    }
}

// The refusal once more.
fn loader_again<S: StretchWalk>(found: &mut S, out: &mut Answer) {
    match found.next() {
        Err(error) => {
            out.text(", again ");
            out.refuse_named(error);
        }
        _ => out.text(", and goes on"),
    }
}
