//! Questions, as lines.

use super::large_tables::Order;
use linemap_image::{Format, Target, read_address};
use std::str::SplitWhitespace;

/// A question.
#[derive(Drop)]
pub enum Question<'a> {
    /// About the table in the file of a path.
    Table(&'a str, Topic<'a>),
    /// About these words of a command line.
    CommandLine(&'a str),
    /// About a table of one unit, by the number of its ranges and how its parts follow each other.
    LargeTable(u32, Order),
    /// Calls about an address, over a file whose unit has a split file.
    SplitUnit(u64),
}

/// What is asked about a table.
#[derive(Drop)]
pub enum Topic<'a> {
    /// The frames of an address in its image, with a change.
    Image(Probe, Option<Change>),
    /// The same in a file.
    File(Probe),
    /// Calls about an address on one context.
    Calls(Probe, Series),
    /// The bytes of its sections.
    Sections(Target),
    /// What it weighs.
    Weight,
    /// What `lookup` prints of its image, for these words.
    Lookup(&'a str),
    /// What `ask` prints, for these words.
    Ask(&'a str),
    /// What `emit` makes of it, and how that ends.
    Emission(Target),
}

/// Which calls are made.
#[derive(Clone, Copy)]
pub enum Series {
    /// All of them, and all once more.
    AllTwice,
    /// Those that need lines.
    Lines,
    /// Its frames, the place of 0xfff, an answer to a load that none asked for, and its frames
    /// again.
    NoPreload,
}

/// An address, and what the table is emitted for.
#[derive(Clone, Copy)]
pub struct Probe {
    pub target: Target,
    pub address: u64,
}

/// A byte that is put into an image.
#[derive(Clone, Copy)]
pub struct Change {
    pub offset: usize,
    pub byte: u8,
}

/// The question in a line, if it has one.
pub fn question_in(line: &str) -> Option<Question<'_>> {
    if line.starts_with('#') {
        return None;
    }
    let (word, rest) = line.split_once(' ')?;
    match word {
        "words" => Some(Question::CommandLine(rest)),
        "large" => large_question_in(rest),
        "split" => Some(Question::SplitUnit(read_address(rest)?)),
        "weight" => Some(Question::Table(rest, Topic::Weight)),
        "ask" | "lookup" => Some(text_question_in(word, rest)),
        "sections" | "emission" => target_question_in(word, rest),
        "file" | "replay" | "lines" | "answered" => probe_question_in(word, rest),
        _ => probe_question_in("", line),
    }
}

// A question about the text that one of the two prints.
fn text_question_in<'a>(kind: &str, text: &'a str) -> Question<'a> {
    let (table, words) = text.split_once(' ').unwrap_or((text, ""));
    match kind {
        "ask" => Question::Table(table, Topic::Ask(words)),
        _ => Question::Table(table, Topic::Lookup(words)),
    }
}

fn large_question_in<'a>(text: &str) -> Option<Question<'a>> {
    let (count, order) = text.split_once(' ')?;
    let order = match order {
        "ascending" => Order::Ascending,
        "descending" => Order::Descending,
        "overlapping" => Order::Overlapping,
        "nested" => Order::Nested,
        _ => return None,
    };
    Some(Question::LargeTable(count.parse().ok()?, order))
}

// A question about a target, of a kind that a word names.
fn target_question_in<'a>(kind: &str, text: &'a str) -> Option<Question<'a>> {
    let mut words = text.split_whitespace();
    let table = words.next()?;
    let target = target_in(&mut words)?;
    let topic = match kind {
        "emission" => Topic::Emission(target),
        _ => Topic::Sections(target),
    };
    Some(Question::Table(table, topic))
}

// A question about an address, of a kind that a word names.
fn probe_question_in<'a>(kind: &str, text: &'a str) -> Option<Question<'a>> {
    let mut words = text.split_whitespace();
    let table = words.next()?;
    let probe = probe_in(&mut words)?;
    let topic = match kind {
        "file" => Topic::File(probe),
        "replay" => Topic::Calls(probe, Series::AllTwice),
        "lines" => Topic::Calls(probe, Series::Lines),
        "answered" => Topic::Calls(probe, Series::NoPreload),
        _ => Topic::Image(probe, change_in(&mut words)),
    };
    Some(Question::Table(table, topic))
}

fn probe_in(words: &mut SplitWhitespace<'_>) -> Option<Probe> {
    Some(Probe {
        target: target_in(words)?,
        address: number_in(words)?,
    })
}

fn target_in(words: &mut SplitWhitespace<'_>) -> Option<Target> {
    let version = words.next()?;
    let bits = words.next()?;
    let size = words.next()?;
    target_of(version, bits, size, words.next()?)
}

fn change_in(words: &mut SplitWhitespace<'_>) -> Option<Change> {
    change_of(words.next()?, words.next()?)
}

fn number_in(words: &mut SplitWhitespace<'_>) -> Option<u64> {
    read_address(words.next()?)
}

/// The target of a version, a number of bits, an address size and a byte order.
pub fn target_of(version: &str, bits: &str, size: &str, order: &str) -> Option<Target> {
    let version = version.parse().ok()?;
    let format = format_of(bits)?;
    Target::new(version, format, size.parse().ok()?, order == "big")
}

fn format_of(bits: &str) -> Option<Format> {
    match bits {
        "32" => Some(Format::Dwarf32),
        "64" => Some(Format::Dwarf64),
        _ => None,
    }
}

/// The change at an offset to a byte, both hexadecimal.
pub fn change_of(offset: &str, byte: &str) -> Option<Change> {
    Some(Change {
        offset: usize::try_from(read_address(offset)?).ok()?,
        byte: u8::try_from(read_address(byte)?).ok()?,
    })
}
