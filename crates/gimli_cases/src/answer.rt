//! Answers as they are written.

use gimli_core::{Error, Reader};
use gimli_lines::write;
use std::alloc::{AllocError, Global};
use std::fmt;

/// The text of an answer. Its calls never fail, so that the code that writes has one way through
/// it; where memory is short, `finish` says so.
#[derive(Drop)]
pub struct Answer {
    alloc: Global,
    text: String,
    is_short_of_memory: bool,
    has_asked_again: bool,
}

/// A whole answer, and whether a call was made again for it after memory was refused.
#[derive(Drop)]
pub struct WholeAnswer {
    pub text: String,
    pub is_second: bool,
}

impl Answer {
    pub fn new(alloc: Global) -> Answer {
        Answer {
            alloc,
            text: String::new(alloc),
            is_short_of_memory: false,
            has_asked_again: false,
        }
    }

    pub fn finish(self) -> Result<WholeAnswer, AllocError> {
        if self.is_short_of_memory {
            Err(AllocError)
        } else {
            Ok(WholeAnswer {
                text: self.text,
                is_second: self.has_asked_again,
            })
        }
    }

    /// Records that a call is made again, on what it left when memory was refused.
    pub fn ask_again(&mut self) {
        self.has_asked_again = true;
    }

    pub fn text(&mut self, text: &str) {
        if self.text.push_str(text).is_err() {
            self.is_short_of_memory = true;
        }
    }

    /// A text if a condition holds.
    pub fn text_if(&mut self, holds: bool, text: &str) {
        if holds {
            self.text(text);
        }
    }

    /// A value for readers.
    pub fn value<T: fmt::Display>(&mut self, value: &T) {
        if write!(self.text, "{value}").is_err() {
            self.is_short_of_memory = true;
        }
    }

    /// A value as it is written in code.
    pub fn code<T: fmt::Debug>(&mut self, value: &T) {
        if write!(self.text, "{value:?}").is_err() {
            self.is_short_of_memory = true;
        }
    }

    /// A value as it is written in code, and a space.
    pub fn word<T: fmt::Debug>(&mut self, value: &T) {
        self.code(value);
        self.text(" ");
    }

    /// A number in hexadecimal.
    pub fn hex(&mut self, number: u64) {
        if write!(self.text, "{number:#x}").is_err() {
            self.is_short_of_memory = true;
        }
    }

    /// Two numbers in hexadecimal, in brackets.
    pub fn pair(&mut self, first: u64, second: u64) {
        self.text("[");
        self.hex(first);
        self.text(" ");
        self.hex(second);
        self.text("]");
    }

    /// A refusal other than "out of memory".
    pub fn refuse(&mut self, error: Error) {
        if matches!(error, Error::Memory) {
            self.is_short_of_memory = true;
        } else {
            self.print(error);
        }
    }

    /// A refusal of a call that writes, other than "out of memory".
    pub fn refuse_to_write(&mut self, error: write::Error) {
        if matches!(error, write::Error::Memory) {
            self.is_short_of_memory = true;
        } else {
            self.value(&error);
            self.text(" ");
            self.code(&error);
        }
    }

    /// A refusal: its number, and what it names.
    pub fn print(&mut self, error: Error) {
        self.value(&error);
        self.text(" ");
        self.code(&error);
    }

    /// A value or a refusal; whether it is a value.
    pub fn outcome<T: fmt::Display + Drop>(&mut self, outcome: Result<T, Error>) -> bool {
        match outcome {
            Ok(value) => {
                self.value(&value);
                true
            }
            Err(error) => {
                self.refuse(error);
                false
            }
        }
    }

    /// Whether a check found nothing that is refused.
    pub fn check(&mut self, outcome: Result<(), Error>) {
        match outcome {
            Ok(()) => self.text("can be read"),
            Err(error) => self.refuse(error),
        }
    }

    /// Bytes in hexadecimal.
    pub fn digits(&mut self, bytes: &[u8]) {
        match hex::encode(self.alloc, bytes) {
            Ok(digits) => self.text(&digits),
            Err(_) => self.is_short_of_memory = true,
        }
    }

    /// Bytes in hexadecimal, `-` for none.
    pub fn digits_or_none(&mut self, bytes: &[u8]) {
        if bytes.is_empty() {
            self.text("-");
        } else {
            self.digits(bytes);
        }
    }

    /// The bytes left, in hexadecimal, `-` for none.
    pub fn bytes<R: Reader>(&mut self, reader: &R) {
        if reader.is_empty() {
            self.text("-");
        } else {
            self.digits(reader.as_bytes());
        }
    }

    /// The bytes left as a text.
    pub fn lossy<R: Reader>(&mut self, reader: &R) {
        match reader.to_string_lossy(self.alloc) {
            Ok(text) => self.text(text.as_str()),
            Err(error) => self.refuse(error),
        }
    }

    /// The bytes left as a text, or a refusal.
    pub fn text_of<R: Reader>(&mut self, text: Result<R, Error>) {
        match text {
            Ok(text) => self.lossy(&text),
            Err(error) => self.refuse(error),
        }
    }
}
