//! Answers to questions about tables: each is a line, and is repeated with its answer; an empty
//! line, and one that begins with `#`, is only repeated.
//!
//! - `TABLE VERSION BITS SIZE ORDER ADDRESS` asks for the frames of an address in the image of a
//!   table.
//! - `TABLE VERSION BITS SIZE ORDER ADDRESS OFFSET BYTE` asks after a byte of the image is
//!   replaced.
//! - `file TABLE VERSION BITS SIZE ORDER ADDRESS` asks for them where the image is written to a
//!   file, whether a source of split files gives the file's bytes, and for the frames there without
//!   its last byte.
//! - `replay TABLE VERSION BITS SIZE ORDER ADDRESS` makes calls about an address on one context
//!   over a table's sections: its place, its frames, the stretches from it on in 16 addresses, its
//!   loads, an answer to the first, its unit, all lines, functions and calls; and all of them once
//!   more.
//! - `lines TABLE VERSION BITS SIZE ORDER ADDRESS` makes those of such calls that need lines: the
//!   place of an address, its frames, all stretches and all lines.
//! - `answered TABLE VERSION BITS SIZE ORDER ADDRESS` makes these: the frames of an address, the
//!   place of 0xfff, an answer to a load that none asked for, and the frames again.
//! - `split ADDRESS` makes calls about an address on one context over a small file whose unit has a
//!   split file, which isn't there.
//! - `sections TABLE VERSION BITS SIZE ORDER` asks for the bytes of the sections that a table has.
//! - `emission TABLE VERSION BITS SIZE ORDER` asks for the first six bytes of the image that `emit`
//!   writes, the mark of ELF files, its class and its byte order; or how `emit` ends without one.
//! - `weight TABLE` asks what a table weighs.
//! - `large COUNT ORDER` asks how many units a table has that is made of one with COUNT ranges,
//!   functions and sequences: `ascending`, `descending`, or `overlapping` where a range is there
//!   twice; or, as `nested`, with COUNT calls of which each is inlined into the one before.
//! - `lookup TABLE WORD..` asks what `lookup` prints of the image of a table, and how it ends. A
//!   word is an address; options, as `-fi`, `--all`, `--llvm` and `--statements`; `section=NAME`;
//!   `target=VERSION:BITS:SIZE:ORDER` for another one than 4:32:8:little; `in=TEXT`, what is read
//!   where no address is given, with a comma for each line end and a percent sign for a byte that
//!   is no text; `fault`, that the reader fails after that; `interrupted=COUNT`, how often it is
//!   interrupted before; `out=BYTES`, `flush=COUNT` and `err=BYTES`, after how many bytes or
//!   flushes the output or the error stream fails, with `:pipe`, `:nothing` or `:interrupted` for
//!   another fault; or `byte=OFFSET:BYTE`, which replaces a byte of the image.
//! - `ask TABLE WORD..` asks what `ask` prints of a table, and how it ends. A word is an address,
//!   in which a tilde is a space; `edit=OLD=>NEW`, which replaces a part of the table's text;
//!   `out=`, `flush=` and `err=` as above; or `waits=COUNT`, how often the output is interrupted
//!   before each call that succeeds.
//! - `words WORD..` asks what the words of a command line ask for, or how their refusal is
//!   explained. `out=` and `flush=` say as above where the output fails.
//!
//! VERSION, BITS and SIZE are decimal, the other numbers are hexadecimal. Where memory is refused
//! for an answer, it is asked for again, and what follows begins with `E1, then`: the next frame of
//! the same iterator, a lookup in the same loader, the calls on the same context, or else the whole
//! question.

mod ask;
mod command_line;
mod emission;
mod emit;
mod ending;
mod frames;
mod image_file;
mod large_tables;
mod lookup;
mod places;
mod question;
mod replays;
mod sections;
mod split_unit;
mod streams;

use crate::answer::Answer;
pub use emission::Refusal;
pub use ending::add_stream;
use question::{Question, Topic, question_in};
use std::alloc::AllocError;
use std::fs;
use std::rt::Files;

/// A line, with its answer if it is a question.
pub fn answer_line<R: Files + AllocGlobal>(rt: &R, line: &str) -> Result<String, AllocError> {
    let mut out = Answer::new(rt.alloc());
    out.text(line);
    if let Some(question) = question_in(line) {
        out.text(": ");
        add_answer(rt, &question, &mut out);
    }
    out.finish()
}

// Adds the answer to a question. Where memory was refused for it, it is asked again.
fn add_answer<R: Files + AllocGlobal>(rt: &R, question: &Question<'_>, out: &mut Answer) {
    let mut first = Answer::new(out.alloc);
    reply(rt, question, &mut first);
    if !out.add_first(first) {
        reply(rt, question, out);
    }
}

fn reply<R: Files + AllocGlobal>(rt: &R, question: &Question<'_>, out: &mut Answer) {
    match question {
        Question::Table(table, topic) => match fs::read(rt, table) {
            Ok(text) => reply_about(rt, &text, topic, out),
            Err(error) => out.refuse_file(error, "no such table"),
        },
        Question::CommandLine(words) => command_line::answer(words, out),
        Question::LargeTable(count, order) => large_tables::answer(*count, *order, out),
        Question::SplitUnit(address) => split_unit::answer(*address, out),
    }
}

// Adds what is asked about the table in a text.
fn reply_about<R: Files + AllocGlobal>(rt: &R, text: &[u8], topic: &Topic<'_>, out: &mut Answer) {
    match topic {
        Topic::Image(probe, change) => frames::answer(text, *probe, *change, out),
        Topic::File(probe) => image_file::answer(rt, text, *probe, out),
        Topic::Calls(probe, series) => replays::answer(text, *probe, *series, out),
        Topic::Sections(target) => sections::answer(text, *target, out),
        Topic::Weight => emission::add_weight(text, out),
        Topic::Lookup(words) => lookup::answer(text, words, out),
        Topic::Ask(words) => ask::answer(text, words, out),
        Topic::Emission(target) => emit::answer(text, *target, out),
    }
}
