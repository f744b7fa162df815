//! Questions about a context, as they are written.

use super::data::number_of;
use super::files::{File, file_number};
use crate::mistake::Mistake;
use std::str::SplitWhitespace;

/// What is asked of a context, or of sections. A file that answers a load is one by its number, or
/// none.
#[derive(Clone, Copy)]
pub enum Question {
    /// Nothing: the line is repeated.
    Heading,
    /// The place of an address.
    Place(u64),
    /// The frames of an address. Loads are answered by no file.
    Frames(u64),
    /// The frames of some addresses, at equal steps.
    FramesOfEach(Steps),
    /// The function's name in the first frame of an address.
    Name(u64),
    /// The unit of an address. Loads are answered by no file.
    Unit(u64),
    /// The stretches between two ends.
    Stretches(u64, u64),
    /// Whether all lines, all functions or all calls can be read.
    Lines,
    Functions,
    Calls,
    /// Whether there is a unit of a number.
    HasUnit(u64),
    /// The loads of an address, as they are found beforehand.
    Loads(u64),
    /// How many loads the frames of an address wait for, of which each is answered by no file.
    Waits(u64),
    /// Whether the frames of an address wait. The lookup is dropped.
    Drops(u64),
    /// An answer to the load of a unit.
    Answer(u64, Option<usize>),
    /// The frames of an address, of which the first load is answered by a file.
    Resume(u64, Option<usize>),
    /// The unit of an address, likewise.
    ResumeUnit(u64, Option<usize>),
    /// What the line says of the sections of a file.
    Sections,
}

/// Addresses at equal steps.
#[derive(Clone, Copy)]
pub struct Steps {
    pub first: u64,
    pub step: u64,
    pub count: u64,
}

type Words<'a> = SplitWhitespace<'a>;

/// The question of a line.
pub fn question_of(files: &[File], line: &str) -> Result<Question, Mistake> {
    let mut words = line.split_whitespace();
    match words.next() {
        Some("lines") => Ok(Question::Lines),
        Some("functions") => Ok(Question::Functions),
        Some("calls") => Ok(Question::Calls),
        Some(word) if word.starts_with('#') => Ok(Question::Heading),
        Some("stretches") => Ok(Question::Stretches(next(&mut words)?, next(&mut words)?)),
        Some("frames_of_each") => Ok(Question::FramesOfEach(steps_of(&mut words)?)),
        Some(word) => question_of_number(files, word, &mut words),
        None => Err(Mistake::Word),
    }
}

/// The same of a line about sections.
pub fn section_question_of(line: &str) -> Question {
    if line.starts_with('#') {
        Question::Heading
    } else {
        Question::Sections
    }
}

fn question_of_number(
    files: &[File],
    word: &str,
    words: &mut Words<'_>,
) -> Result<Question, Mistake> {
    let number = next(words)?;
    match word {
        "place" => Ok(Question::Place(number)),
        "frames" => Ok(Question::Frames(number)),
        "name" => Ok(Question::Name(number)),
        "unit" => Ok(Question::Unit(number)),
        "has_unit" => Ok(Question::HasUnit(number)),
        "loads" => Ok(Question::Loads(number)),
        "waits" => Ok(Question::Waits(number)),
        "drops" => Ok(Question::Drops(number)),
        "answer" => Ok(Question::Answer(number, file(files, words)?)),
        "resume" => Ok(Question::Resume(number, file(files, words)?)),
        "resume_unit" => Ok(Question::ResumeUnit(number, file(files, words)?)),
        _ => Err(Mistake::Word),
    }
}

fn next(words: &mut Words<'_>) -> Result<u64, Mistake> {
    match words.next() {
        Some(word) => number_of(word),
        None => Err(Mistake::Word),
    }
}

fn steps_of(words: &mut Words<'_>) -> Result<Steps, Mistake> {
    let first = next(words)?;
    let step = next(words)?;
    let count = next(words)?;
    Ok(Steps { first, step, count })
}

// The file of a name, `none` for none.
fn file(files: &[File], words: &mut Words<'_>) -> Result<Option<usize>, Mistake> {
    match words.next() {
        Some("none") => Ok(None),
        Some(name) => Ok(Some(file_number(files, name)?)),
        None => Err(Mistake::Word),
    }
}
