//! Answers addresses from an ELF image's debug information through a `Context`, as text, and times
//! each part of that.

pub mod answers;
pub mod fault;
pub mod image;
pub mod request;
pub mod stages;

use crate::lookups_bench::fault::Fault;
use crate::lookups_bench::image::Image;
use crate::lookups_bench::request::{LookupRequest, ReaderKind, Task};
use crate::lookups_bench::stages::{now, perform, report};
use addr2line_context::{Context, EndianBytes, EndianSlice, Error, RunTimeEndian};
use std::alloc::Global;
use std::fs;
use std::rt::Runtime;

/// Does what is asked, and returns the exit status.
pub fn obey<R: Runtime + AllocGlobal>(rt: &R, request: &LookupRequest<'_>) -> u8 {
    match answer(rt, request) {
        Ok(()) => 0,
        Err(fault) => {
            let _ = eprintln!(rt; "linemap_bench: {fault}");
            1
        }
    }
}

// The sections of an image's file.
fn image_of<R: Runtime + AllocGlobal>(rt: &R, path: &str) -> Result<Image, Fault> {
    match fs::read(rt, path) {
        Ok(file) => Image::parse(rt.alloc(), file),
        Err(_) => Err(Fault::Stream),
    }
}

// The text of the file that has the addresses; none where no addresses are asked for.
fn addresses_text<R: Runtime + AllocGlobal>(rt: &R, task: Task<'_>) -> Result<String, Fault> {
    match task {
        Task::Each(_, file) => match fs::read_to_string(rt, file) {
            Ok(text) => Ok(text),
            Err(_) => Err(Fault::Stream),
        },
        Task::Rows | Task::Read(_) => Ok(String::new(rt.alloc())),
    }
}

// Loads the image, and does what is asked of it.
fn answer<R: Runtime + AllocGlobal>(rt: &R, request: &LookupRequest<'_>) -> Result<(), Fault> {
    let start = now(rt)?;
    let image = image_of(rt, request.image)?;
    report(rt, "image", start)?;
    let text = addresses_text(rt, request.task)?;
    perform_through(rt, &image, request, &text)
}

// Does it through the readers that are asked for.
fn perform_through<R: Runtime + AllocGlobal>(
    rt: &R,
    image: &Image,
    request: &LookupRequest<'_>,
    text: &str,
) -> Result<(), Fault> {
    let start = now(rt)?;
    match request.reader {
        ReaderKind::Borrowed => match borrowed_context(rt.alloc(), image) {
            Ok(mut context) => perform(rt, start, &mut context, request.task, text),
            Err(error) => Err(Fault::from(error)),
        },
        ReaderKind::Shared => match shared_context(rt.alloc(), image) {
            Ok(mut context) => perform(rt, start, &mut context, request.task, text),
            Err(error) => Err(Fault::from(error)),
        },
    }
}

// The image's context, through readers that borrow its bytes.
fn borrowed_context(
    alloc: Global,
    image: &Image,
) -> Result<Context<EndianSlice<'_, RunTimeEndian>>, Error> {
    match image.load_borrowed(alloc) {
        Ok(dwarf) => Context::from_dwarf(alloc, dwarf),
        Err(error) => Err(error),
    }
}

// The same, through readers that share them.
fn shared_context(
    alloc: Global,
    image: &Image,
) -> Result<Context<EndianBytes<RunTimeEndian>>, Error> {
    match image.load_shared(alloc) {
        Ok(dwarf) => Context::from_dwarf(alloc, dwarf),
        Err(error) => Err(error),
    }
}
