//! Answers to paragraphs of questions about the addresses of small files. Empty lines are between
//! them, and a line that begins with `#` is repeated.
//!
//! - `file NAME` or `file NAME LIKE` begins a file, the second with the sections of another.
//! - `context NAME` begins questions about a file, which are asked in turn in one context.
//!
//! Lines with the name of a section and its bytes follow; a line that begins with a space has more
//! of these. `units COUNT STEP RANGE FUNCTION` makes many units. Then, in a context, there may be a
//! line `supplement NAME`, and the questions. Each context is made by each of the three
//! constructors, over borrowed and over shared bytes. A difference between the answers is a fault.
//! Where memory is refused for an answer, the same context or loader is asked again, and the second
//! answer begins with `E1, then`; so is an iterator for its next item, and a file is loaded again.
//!
//! - `sections NAME` begins questions about the sections and the units of a file, through borrowed
//!   bytes alone. `sections.rt` says which; a line `supplement NAME` may be before them.
//! - `image PATH` begins questions about an ELF file, which a loader reads.
//! - `bytes PATH` is the same of its bytes in memory.
//!
//! Lines may follow with what is changed of the bytes, `patch OFFSET BYTES` and `keep COUNT`; the
//! path of a supplement, `supplement PATH`; and where split files come from: `files` for the file
//! system, `split DIRECTORY NAME PATH` for a file that has this name in memory, or `turn PATH` and
//! `turn memory` for answers in turn, the second "out of memory".

mod case;
mod contexts;
mod data;
mod files;
mod frames;
mod image_case;
mod loaders;
mod loads;
mod places;
mod question;
mod sections;
mod sources;
mod units;

use crate::answer::Answer;
use crate::mistake::Mistake;
use case::Case;
use files::File;
use image_case::{ImageCase, is_about_image};
use std::alloc::Global;
use std::rt::Files;

/// The answers to a paragraph, which is cleared; nothing for an empty one.
pub fn answers<R: Files + AllocGlobal>(
    rt: &R,
    files: &mut Vec<File>,
    paragraph: &mut Vec<String>,
) -> Result<String, Mistake> {
    if paragraph.is_empty() {
        return Ok(String::new(rt.alloc()));
    }
    let answers = if is_about_image(paragraph) {
        answers_about_image(rt, paragraph)
    } else {
        answers_about_file(rt.alloc(), files, paragraph)
    };
    paragraph.clear();
    answers
}

// A paragraph that makes a file has no answers.
fn answers_about_file(
    alloc: Global,
    files: &mut Vec<File>,
    lines: &[String],
) -> Result<String, Mistake> {
    let case = Case::parse(alloc, files, lines)?;
    if case.is_file {
        files.push(case.file)?;
        return Ok(String::new(alloc));
    }
    let mut out = Answer::new(alloc);
    if case.is_about_sections {
        sections::answer(alloc, files, &case, &mut out);
    } else {
        contexts::answer(alloc, files, &case, &mut out);
    }
    Ok(out.finish()?)
}

fn answers_about_image<R: Files + AllocGlobal>(
    rt: &R,
    lines: &[String],
) -> Result<String, Mistake> {
    let case = ImageCase::parse(rt.alloc(), lines)?;
    let mut out = Answer::new(rt.alloc());
    loaders::answer(rt, &case, &mut out);
    Ok(out.finish()?)
}
