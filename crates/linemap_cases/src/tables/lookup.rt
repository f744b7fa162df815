//! What `lookup` prints of the image of a table, over streams that fail.

use super::emission::image_of;
use super::ending::{add_end, add_stream};
use super::question::{Change, change_of, target_of};
use super::streams::{CutReader, CutWriter, Fault, cut_of};
use crate::answer::Answer;
use bytes::Bytes;
use linemap_image::{Format, Target};
use linemap_lookup::{FileParts, MapSource, Options, run};
use std::alloc::{AllocError, Global};
use std::io::{BufReader, ErrorKind};

// What is asked: the options with their words, the streams, and what is changed in the image.
#[derive(Drop)]
struct Request {
    options: Options,
    input: CutReader,
    out: CutWriter,
    err: CutWriter,
    target: Option<Target>,
    change: Option<Change>,
}

/// Adds what a run prints of the table in a text, and how it ends.
pub fn answer(text: &[u8], words: &str, out: &mut Answer) {
    match request_in(out.alloc, words) {
        Ok(request) => answer_request(text, request, out),
        Err(_) => out.refuse_memory(),
    }
}

fn answer_request(text: &[u8], request: Request, out: &mut Answer) {
    match request.target {
        Some(target) => match image_of(out.alloc, text, target, request.change) {
            Ok(image) => answer_image(image, request, out),
            Err(refusal) => out.refuse_table(refusal),
        },
        None => out.text("no target"),
    }
}

// ---- words

fn request_in(alloc: Global, words: &str) -> Result<Request, AllocError> {
    let mut request = Request {
        options: no_options(),
        input: CutReader::new(alloc),
        out: CutWriter::new(alloc),
        err: CutWriter::new(alloc),
        target: Target::new(4, Format::Dwarf32, 8, false),
        change: None,
    };
    for word in words.split_whitespace() {
        request.add_word(alloc, word)?;
    }
    Ok(request)
}

fn no_options() -> Options {
    Options {
        section: None,
        all: false,
        functions: false,
        pretty: false,
        inlines: false,
        addresses: false,
        basenames: false,
        demangle: false,
        llvm: false,
        statements: false,
        words: None,
    }
}

impl Request {
    fn add_word(&mut self, alloc: Global, word: &str) -> Result<(), AllocError> {
        let (name, value) = word.split_once('=').unwrap_or((word, ""));
        match name {
            "in" => self.add_input(value)?,
            "fault" => self.input.fault = Fault::Kind(ErrorKind::Other),
            "interrupted" => self.input.interruptions = value.parse().unwrap_or(0),
            "section" => self.options.section = Some(value.to_string(alloc)?),
            "out" => (self.out.room, self.out.fault) = cut_of(value),
            "flush" => (self.out.flushes, self.out.fault) = cut_of(value),
            "err" => (self.err.room, self.err.fault) = cut_of(value),
            "target" => self.target = target_in(value),
            "byte" => self.change = change_in(value),
            "--all" => self.options.all = true,
            "--llvm" => self.options.llvm = true,
            "--statements" => self.options.statements = true,
            _ => self.add_option_or_address(alloc, word)?,
        }
        Ok(())
    }

    // Adds bytes to the input: a comma is a line end, and a percent sign a byte that is no text.
    fn add_input(&mut self, value: &str) -> Result<(), AllocError> {
        for byte in value.bytes() {
            self.input.bytes.push(match byte {
                b',' => b'\n',
                b'%' => 0xff,
                other => other,
            })?;
        }
        Ok(())
    }

    fn add_option_or_address(&mut self, alloc: Global, word: &str) -> Result<(), AllocError> {
        match word.strip_prefix("-") {
            Some(letters) => {
                for letter in letters.bytes() {
                    set(&mut self.options, letter);
                }
                Ok(())
            }
            None => self.add_address(alloc, word),
        }
    }

    fn add_address(&mut self, alloc: Global, word: &str) -> Result<(), AllocError> {
        let copy = word.to_string(alloc)?;
        match &mut self.options.words {
            Some(words) => Ok(words.push(copy)?),
            None => {
                let mut words = Vec::new(alloc);
                words.push(copy)?;
                self.options.words = Some(words);
                Ok(())
            }
        }
    }
}

fn set(options: &mut Options, letter: u8) {
    match letter {
        b'a' => options.addresses = true,
        b'f' => options.functions = true,
        b'i' => options.inlines = true,
        b'p' => options.pretty = true,
        b's' => options.basenames = true,
        _ => options.demangle = true,
    }
}

// The target of VERSION:BITS:SIZE:ORDER.
fn target_in(value: &str) -> Option<Target> {
    let (version, rest) = value.split_once(':')?;
    let (bits, rest) = rest.split_once(':')?;
    let (size, order) = rest.split_once(':')?;
    target_of(version, bits, size, order)
}

// The change of OFFSET:BYTE.
fn change_in(value: &str) -> Option<Change> {
    let (offset, byte) = value.split_once(':')?;
    change_of(offset, byte)
}

// ---- the run

fn answer_image(image: Vec<u8>, request: Request, out: &mut Answer) {
    match whole(out.alloc, image) {
        Ok(image) => answer_run(image, request, out),
        Err(_) => out.refuse_memory(),
    }
}

// An image, all of which is in memory.
fn whole(alloc: Global, image: Vec<u8>) -> Result<FileParts, AllocError> {
    FileParts::whole(alloc, Bytes::from_vec(image)?)
}

fn answer_run(image: FileParts, request: Request, out: &mut Answer) {
    let Request {
        options,
        input,
        out: mut output,
        mut err,
        target: _,
        change: _,
    } = request;
    let Ok(mut lines) = BufReader::new(out.alloc, input) else {
        return out.refuse_memory();
    };
    let source = MapSource::new(out.alloc);
    let ended = run(
        out.alloc,
        &options,
        image,
        None,
        source,
        &mut lines,
        &mut output,
        &mut err,
    );
    add_end(ended, out);
    add_stream("; out ", &output.text, out);
    add_stream("; err ", &err.text, out);
}
