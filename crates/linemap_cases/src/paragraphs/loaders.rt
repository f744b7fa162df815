//! Loaders of images, and what is asked of them.

use super::image_case::{ImageAsked, ImageCase, ImageQuestion, Patch, Source};
use super::{frames, places, sources};
use crate::answer::Answer;
use crate::tables::add_stream;
use addr2line_loader::Loader;
use addr2line_split::{FileSource, LoadError, MemoryFile, SplitSource, Symbol, read_needed};
use bytes::Bytes;
use std::alloc::Global;
use std::rt::Files;

/// Adds the answers to what is asked of an image, and an empty line.
pub fn answer<R: Files + AllocGlobal>(rt: &R, case: &ImageCase, out: &mut Answer) {
    let mut loader = match loader_of(rt, case) {
        Err(LoadError::Memory) => loader_of(rt, case),
        made => made,
    };
    match case.source {
        Source::Files => ask_all(rt, &mut loader, case, &mut FileSource::new(rt), out),
        Source::Names => match sources::map_of(rt, case) {
            Ok(mut source) => ask_all(rt, &mut loader, case, &mut source, out),
            Err(error) => out.refuse_image(error),
        },
        Source::Turns => match sources::turns_of(rt, case) {
            Ok(mut source) => ask_all(rt, &mut loader, case, &mut source, out),
            Err(error) => out.refuse_image(error),
        },
    }
    out.text("\n");
}

// ---- loaders

fn loader_of<R: Files + AllocGlobal>(rt: &R, case: &ImageCase) -> Result<Loader, LoadError> {
    if case.is_in_memory {
        return loader_in_memory(rt, case);
    }
    let path = case.path.as_str();
    match &case.supplement {
        Some(supplement) => Loader::new_with_sup(rt, path, Some(supplement.as_str())),
        None => Loader::new(rt, path),
    }
}

fn loader_in_memory<R: Files + AllocGlobal>(rt: &R, case: &ImageCase) -> Result<Loader, LoadError> {
    let image = image_of(rt, case)?;
    let image = Bytes::from_vec(image)?;
    match &case.supplement {
        Some(path) => {
            let supplement = Bytes::from_vec(sources::read(rt, path)?)?;
            Loader::from_bytes(rt.alloc(), image, Some(supplement))
        }
        None => {
            let len = image.len() as u64;
            load_by_parts(rt.alloc(), image, len)
        }
    }
}

// Loads the parts of an image of a length that a loader needs, or else all of it.
fn load_by_parts(alloc: Global, image: Bytes, len: u64) -> Result<Loader, LoadError> {
    let mut source = MemoryFile { bytes: image };
    match read_needed(alloc, &mut source, len)? {
        Some(parts) => Loader::from_parts(alloc, parts, None),
        None => {
            let MemoryFile { bytes } = source;
            Loader::from_bytes(alloc, bytes, None)
        }
    }
}

// The bytes of an image, after what is changed in them.
fn image_of<R: Files + AllocGlobal>(rt: &R, case: &ImageCase) -> Result<Vec<u8>, LoadError> {
    let mut image = sources::read(rt, &case.path)?;
    for patch in case.patches.iter() {
        put(&mut image, patch);
    }
    image.truncate(case.len);
    Ok(image)
}

fn put(image: &mut Vec<u8>, patch: &Patch) {
    let rest = image.iter_mut().skip(patch.offset);
    for (byte, new) in rest.zip(patch.bytes.iter()) {
        *byte = *new;
    }
}

// ---- questions

fn ask_all<R: Files + AllocGlobal, S: SplitSource>(
    rt: &R,
    loader: &mut Result<Loader, LoadError>,
    case: &ImageCase,
    source: &mut S,
    out: &mut Answer,
) {
    for asked in case.asked.iter() {
        out.text(&asked.line);
        match asked.question {
            ImageQuestion::Heading => {}
            ImageQuestion::Prefixes => prefixes(rt, case, out),
            ImageQuestion::Shortened => shortened(rt, case, out),
            _ => answer_line(loader, asked, source, out),
        }
        out.text("\n");
    }
}

// The answer to a question, or the refusal of the image.
fn answer_line<S: SplitSource>(
    loader: &mut Result<Loader, LoadError>,
    asked: &ImageAsked,
    source: &mut S,
    out: &mut Answer,
) {
    out.text(": ");
    match loader {
        Ok(loader) => ask_again_if_refused(loader, asked, source, out),
        Err(error) => out.refuse_image(*error),
    }
}

// The answer. Where memory was refused for it, also by the source, the same loader is asked again.
fn ask_again_if_refused<S: SplitSource>(
    loader: &mut Loader,
    asked: &ImageAsked,
    source: &mut S,
    out: &mut Answer,
) {
    let mut first = Answer::new(out.alloc);
    ask(loader, asked, source, &mut first);
    match first.finish() {
        Ok(text) => out.text(&text),
        Err(_) => {
            out.again();
            ask(loader, asked, source, out);
        }
    }
}

fn ask<S: SplitSource>(loader: &mut Loader, asked: &ImageAsked, source: &mut S, out: &mut Answer) {
    match asked.question {
        ImageQuestion::Place(probe) => place(loader, probe, out),
        ImageQuestion::Frames(probe) => frames(loader, probe, source, out),
        ImageQuestion::Stretches(low, high) => stretches(loader, low, high, out),
        ImageQuestion::Symbol(probe) => symbol(loader, probe, out),
        ImageQuestion::Section => section(loader, &asked.line, out),
        ImageQuestion::SplitFile => split_file(source, &asked.line, out),
        ImageQuestion::Base => out.hex(loader.relative_address_base()),
        _ => {}
    }
}

fn place(loader: &mut Loader, probe: u64, out: &mut Answer) {
    places::place_found(loader.find_location(probe), out);
}

fn stretches(loader: &mut Loader, low: u64, high: u64, out: &mut Answer) {
    match loader.find_location_range(low, high) {
        Ok(mut found) => places::loader_stretches(&mut found, out),
        Err(error) => out.refuse_named(error),
    }
}

fn frames<S: SplitSource>(loader: &mut Loader, probe: u64, source: &mut S, out: &mut Answer) {
    match loader.find_frames(out.alloc, probe, source) {
        Ok(mut found) => frames::frames_of(&mut found, out),
        Err(error) => out.refuse_named(error),
    }
}

// The symbol of an address, by both calls.
fn symbol(loader: &Loader, probe: u64, out: &mut Answer) {
    match loader.find_symbol(probe) {
        Some(name) => out.text(name),
        None => out.text("none"),
    }
    if let Some(symbol) = loader.find_symbol_info(probe) {
        address(&symbol, out);
    }
}

fn address(symbol: &Symbol<'_>, out: &mut Answer) {
    out.text(", which is ");
    out.text(symbol.name());
    out.text(" at ");
    out.hex(symbol.address());
}

// The section of the name after the line's first word.
fn section(loader: &Loader, line: &str, out: &mut Answer) {
    let name = line.strip_prefix("section ").unwrap_or("");
    match loader.get_section_range(name.as_bytes()) {
        Some(range) => {
            out.hex(range.begin);
            out.text(" to ");
            out.hex(range.end);
        }
        None => out.text("none"),
    }
}

// What a source has for the directory, if there is one, and the name after the line's first word.
fn split_file<S: SplitSource>(source: &mut S, line: &str, out: &mut Answer) {
    let words = line.strip_prefix("split_file ").unwrap_or("");
    let (directory, name) = words.split_once(' ').unwrap_or(("", words));
    match source.get(directory.as_bytes(), name.as_bytes()) {
        Ok(Some(bytes)) => add_stream("", bytes.as_slice(), out),
        Ok(None) => out.text("none"),
        Err(error) => out.refuse_named(error),
    }
}

// ---- prefixes

// How many prefixes of an image can be loaded, and how many there are.
fn prefixes<R: Files + AllocGlobal>(rt: &R, case: &ImageCase, out: &mut Answer) {
    out.text(": ");
    match image_of(rt, case) {
        Ok(image) => {
            out.value(&loaded_prefixes(rt.alloc(), &image));
            out.text(" of ");
            out.value(&image.len());
        }
        Err(error) => out.refuse_image(error),
    }
}

fn loaded_prefixes(alloc: Global, image: &[u8]) -> u32 {
    let mut count: u32 = 0;
    for len in 0..image.len() {
        if is_loaded(alloc, &image[..len]) {
            count = count.wrapping_add(1);
        }
    }
    count
}

fn is_loaded(alloc: Global, image: &[u8]) -> bool {
    match load(alloc, image) {
        Err(LoadError::Memory) => load(alloc, image).is_ok(),
        loaded => loaded.is_ok(),
    }
}

fn load(alloc: Global, image: &[u8]) -> Result<Loader, LoadError> {
    let image = Bytes::copy_from_slice(alloc, image)?;
    Loader::from_bytes(alloc, image, None)
}

// ---- files that become shorter

// How many prefixes of an image are loaded by parts where the file becomes that short once its
// length is known, and how many there are.
fn shortened<R: Files + AllocGlobal>(rt: &R, case: &ImageCase, out: &mut Answer) {
    out.text(": ");
    match image_of(rt, case) {
        Ok(image) => {
            out.value(&loaded_shortened(rt.alloc(), &image));
            out.text(" of ");
            out.value(&image.len());
        }
        Err(error) => out.refuse_image(error),
    }
}

fn loaded_shortened(alloc: Global, image: &[u8]) -> u32 {
    let mut count: u32 = 0;
    for len in 0..image.len() {
        if is_loaded_shortened(alloc, &image[..len], image.len() as u64) {
            count = count.wrapping_add(1);
        }
    }
    count
}

fn is_loaded_shortened(alloc: Global, left: &[u8], len: u64) -> bool {
    match load_shortened(alloc, left, len) {
        Err(LoadError::Memory) => load_shortened(alloc, left, len).is_ok(),
        loaded => loaded.is_ok(),
    }
}

fn load_shortened(alloc: Global, left: &[u8], len: u64) -> Result<Loader, LoadError> {
    let left = Bytes::copy_from_slice(alloc, left)?;
    load_by_parts(alloc, left, len)
}
