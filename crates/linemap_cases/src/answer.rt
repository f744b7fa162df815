//! Answers as they are written.

use crate::tables::Refusal;
use addr2line_context::{Error, Reader};
use linemap_lookup::LoadError;
use std::alloc::{AllocError, Global};
use std::io::ErrorKind;
use std::{fmt, io};

// What an answer begins with that is the second one, after memory was refused for the first.
const AGAIN: &str = "E1, then ";

/// The text of answers. Its calls never fail, so that the code that writes has one way through
/// it; where memory is short, `finish` says so.
#[derive(Drop)]
pub struct Answer {
    pub alloc: Global,
    text: String,
    is_short_of_memory: bool,
}

impl Answer {
    pub fn new(alloc: Global) -> Answer {
        Answer {
            alloc,
            text: String::new(alloc),
            is_short_of_memory: false,
        }
    }

    pub fn finish(self) -> Result<String, AllocError> {
        if self.is_short_of_memory {
            Err(AllocError)
        } else {
            Ok(self.text)
        }
    }

    /// Adds a first answer, and is true. Where memory was refused for it, it adds what comes before
    /// a second one, and is false.
    pub fn add_first(&mut self, first: Answer) -> bool {
        match first.finish() {
            Ok(text) => {
                self.text(&text);
                true
            }
            Err(_) => {
                self.again();
                false
            }
        }
    }

    /// What comes before an answer to what is asked again.
    pub fn again(&mut self) {
        self.text(AGAIN);
    }

    pub fn text(&mut self, text: &str) {
        if self.text.push_str(text).is_err() {
            self.refuse_memory();
        }
    }

    /// A value for readers.
    pub fn value<T: fmt::Display>(&mut self, value: &T) {
        if write!(self.text, "{value}").is_err() {
            self.refuse_memory();
        }
    }

    /// A value as it is written in code.
    pub fn code<T: fmt::Debug>(&mut self, value: &T) {
        if write!(self.text, "{value:?}").is_err() {
            self.refuse_memory();
        }
    }

    /// A number in hexadecimal.
    pub fn hex(&mut self, number: u64) {
        if write!(self.text, "{number:#x}").is_err() {
            self.refuse_memory();
        }
    }

    /// A byte by its two hexadecimal digits.
    pub fn byte(&mut self, byte: u8) {
        if write!(self.text, "{byte:02x}").is_err() {
            self.refuse_memory();
        }
    }

    /// A number, `?` for none.
    pub fn number(&mut self, number: Option<u32>) {
        match number {
            Some(number) => self.value(&number),
            None => self.text("?"),
        }
    }

    /// The bytes left as a text.
    pub fn lossy<R: Reader>(&mut self, reader: &R) {
        match reader.to_string_lossy(self.alloc) {
            Ok(text) => self.text(text.as_str()),
            Err(error) => self.refuse_named(error),
        }
    }

    /// The same, `-` for none.
    pub fn lossy_if_any<R: Reader>(&mut self, reader: &Option<R>) {
        match reader {
            Some(reader) => self.lossy(reader),
            None => self.text("-"),
        }
    }

    // ---- refusals

    /// Records that memory was refused.
    pub fn refuse_memory(&mut self) {
        self.is_short_of_memory = true;
    }

    /// A refusal of a lookup, other than of memory.
    pub fn refuse(&mut self, error: Error) {
        match error {
            Error::Memory => self.refuse_memory(),
            other => self.value(&other),
        }
    }

    /// The same by its number and what it names.
    pub fn refuse_named(&mut self, error: Error) {
        match error {
            Error::Memory => self.refuse_memory(),
            other => {
                self.value(&other);
                self.text(" ");
                self.code(&other);
            }
        }
    }

    /// That something was done, or a refusal.
    pub fn outcome(&mut self, outcome: Result<(), Error>) {
        match outcome {
            Ok(()) => self.text("done"),
            Err(error) => self.refuse_named(error),
        }
    }

    /// A refusal of an image, other than of memory.
    pub fn refuse_image(&mut self, error: LoadError) {
        match error {
            LoadError::Memory => self.refuse_memory(),
            other => self.value(&other),
        }
    }

    /// Why nothing is emitted of a table, if not for a refusal of memory.
    pub fn refuse_table(&mut self, refusal: Refusal) {
        match refusal {
            Refusal::Memory => self.refuse_memory(),
            Refusal::TooHigh => self.text("does not fit"),
            Refusal::Code(code) => self.text(code),
        }
    }

    /// That a file isn't read or written, in these words, if not for a refusal of memory.
    pub fn refuse_file(&mut self, error: io::Error, words: &str) {
        match error.kind() {
            ErrorKind::OutOfMemory => self.refuse_memory(),
            _ => self.text(words),
        }
    }
}

/// Answers as they are where memory isn't refused.
pub fn without_refusals(alloc: Global, answers: &str) -> Result<String, AllocError> {
    answers.replace(alloc, AGAIN, "")
}
