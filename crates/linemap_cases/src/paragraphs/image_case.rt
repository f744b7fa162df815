//! Paragraphs about images, which are files of the folder that the program runs in.

use super::data::{bytes_of, number_of};
use crate::mistake::Mistake;
use std::alloc::Global;
use std::str::SplitWhitespace;

/// What is asked of a loader.
#[derive(Clone, Copy)]
pub enum ImageQuestion {
    /// Nothing: the line is repeated.
    Heading,
    /// The place of an address.
    Place(u64),
    /// The frames of an address.
    Frames(u64),
    /// The stretches between two ends.
    Stretches(u64, u64),
    /// The symbol of an address.
    Symbol(u64),
    /// The addresses of the section of the name that ends the line.
    Section,
    /// The address that addresses count from.
    Base,
    /// What the source of split files gives for the directory and the name that end the line.
    SplitFile,
    /// How many prefixes of the image can be loaded.
    Prefixes,
    /// How many prefixes of it are loaded where the file becomes that short while it is read.
    Shortened,
}

/// A question, and its line.
#[derive(Drop)]
pub struct ImageAsked {
    pub line: String,
    pub question: ImageQuestion,
}

/// Where split files come from.
#[derive(Clone, Copy)]
pub enum Source {
    /// From memory, by their names.
    Names,
    /// Answers in turn, whatever the name is.
    Turns,
    /// From the file system.
    Files,
}

/// Bytes that replace those of an image from an offset on.
#[derive(Drop)]
pub struct Patch {
    pub offset: usize,
    pub bytes: Vec<u8>,
}

/// A split file in memory: the directory and the name that it has there, and the file.
#[derive(Drop)]
pub struct NamedFile {
    pub directory: String,
    pub name: String,
    pub path: String,
}

/// An image, and what is asked of it.
#[derive(Drop)]
pub struct ImageCase {
    pub path: String,
    /// The loader is handed the bytes, and doesn't read the file itself.
    pub is_in_memory: bool,
    pub patches: Vec<Patch>,
    /// How many bytes of it there are at most.
    pub len: usize,
    pub supplement: Option<String>,
    pub source: Source,
    pub split_files: Vec<NamedFile>,
    /// The files of the answers in turn; `memory` for "out of memory".
    pub turns: Vec<String>,
    pub asked: Vec<ImageAsked>,
}

type Words<'a> = SplitWhitespace<'a>;

/// Whether a paragraph is about an image.
pub fn is_about_image(lines: &[String]) -> bool {
    lines.iter().any(|line| line.starts_with("image ") || line.starts_with("bytes "))
}

impl ImageCase {
    /// Reads a paragraph.
    pub fn parse(alloc: Global, lines: &[String]) -> Result<ImageCase, Mistake> {
        let mut case = ImageCase {
            path: String::new(alloc),
            is_in_memory: false,
            patches: Vec::new(alloc),
            len: usize::MAX,
            supplement: None,
            source: Source::Names,
            split_files: Vec::new(alloc),
            turns: Vec::new(alloc),
            asked: Vec::new(alloc),
        };
        for line in lines {
            case.add_line(alloc, line)?;
        }
        Ok(case)
    }

    fn add_line(&mut self, alloc: Global, line: &str) -> Result<(), Mistake> {
        let (word, rest) = line.split_once(' ').unwrap_or((line, ""));
        match word {
            "image" => self.path = rest.to_string(alloc)?,
            "bytes" => {
                self.path = rest.to_string(alloc)?;
                self.is_in_memory = true;
            }
            "keep" => self.len = place_of(rest)?,
            "patch" => self.patches.push(patch_of(alloc, rest)?)?,
            "supplement" => self.supplement = Some(rest.to_string(alloc)?),
            "files" => self.source = Source::Files,
            "turn" => {
                self.source = Source::Turns;
                self.turns.push(rest.to_string(alloc)?)?;
            }
            "split" => self.split_files.push(split_file_of(alloc, rest)?)?,
            _ => self.ask(alloc, line)?,
        }
        Ok(())
    }

    fn ask(&mut self, alloc: Global, line: &str) -> Result<(), Mistake> {
        let question = question_of(line)?;
        let line = line.to_string(alloc)?;
        Ok(self.asked.push(ImageAsked { line, question })?)
    }
}

fn question_of(line: &str) -> Result<ImageQuestion, Mistake> {
    let mut words = line.split_whitespace();
    match words.next() {
        Some("section") => Ok(ImageQuestion::Section),
        Some("split_file") => Ok(ImageQuestion::SplitFile),
        Some("base") => Ok(ImageQuestion::Base),
        Some("prefixes") => Ok(ImageQuestion::Prefixes),
        Some("shortened") => Ok(ImageQuestion::Shortened),
        Some(word) if word.starts_with('#') => Ok(ImageQuestion::Heading),
        Some(word) => question_of_address(word, &mut words),
        None => Err(Mistake::Word),
    }
}

fn question_of_address(word: &str, words: &mut Words<'_>) -> Result<ImageQuestion, Mistake> {
    let probe = next(words)?;
    match word {
        "place" => Ok(ImageQuestion::Place(probe)),
        "frames" => Ok(ImageQuestion::Frames(probe)),
        "symbol" => Ok(ImageQuestion::Symbol(probe)),
        "stretches" => Ok(ImageQuestion::Stretches(probe, next(words)?)),
        _ => Err(Mistake::Word),
    }
}

fn next(words: &mut Words<'_>) -> Result<u64, Mistake> {
    match words.next() {
        Some(word) => number_of(word),
        None => Err(Mistake::Word),
    }
}

// A number of bytes, or an offset.
fn place_of(word: &str) -> Result<usize, Mistake> {
    usize::try_from(number_of(word)?).map_err(|_| Mistake::Word)
}

fn patch_of(alloc: Global, words: &str) -> Result<Patch, Mistake> {
    let (offset, bytes) = words.split_once(' ').ok_or(Mistake::Word)?;
    let offset = place_of(offset)?;
    let bytes = bytes_of(alloc, bytes)?;
    Ok(Patch { offset, bytes })
}

// The words are a directory, a name and a path.
fn split_file_of(alloc: Global, words: &str) -> Result<NamedFile, Mistake> {
    let (directory, rest) = words.split_once(' ').ok_or(Mistake::Word)?;
    let (name, path) = rest.split_once(' ').ok_or(Mistake::Word)?;
    Ok(NamedFile {
        directory: directory.to_string(alloc)?,
        name: name.to_string(alloc)?,
        path: path.to_string(alloc)?,
    })
}
