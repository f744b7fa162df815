//! What `ask` prints of a table, over streams that fail.

use super::ending::{add_end, add_stream};
use super::streams::{CutWriter, cut_of};
use crate::answer::Answer;
use linemap_text::ask;
use std::alloc::{AllocError, Global};
use std::str;

// What is asked: the table's text, the words, and the streams.
#[derive(Drop)]
struct Request {
    text: Vec<u8>,
    words: Vec<String>,
    out: CutWriter,
    err: CutWriter,
}

/// Adds what `ask` prints of the table in a text, and how it ends.
pub fn answer(text: &[u8], words: &str, out: &mut Answer) {
    match request_in(out.alloc, text, words) {
        Ok(Some(mut request)) => answer_request(&mut request, out),
        Ok(None) => out.text("no such part"),
        Err(_) => out.refuse_memory(),
    }
}

fn answer_request(request: &mut Request, out: &mut Answer) {
    let ended = ask(
        out.alloc,
        &request.text,
        &request.words,
        &mut request.out,
        &mut request.err,
    );
    if ended.memory || request.out.lacks_memory || request.err.lacks_memory {
        return out.refuse_memory();
    }
    add_end(ended, out);
    add_stream("; out ", &request.out.text, out);
    add_stream("; err ", &request.err.text, out);
}

// The request of words; none where an edit finds nothing in the text.
fn request_in(alloc: Global, text: &[u8], words: &str) -> Result<Option<Request>, AllocError> {
    let mut request = Request {
        text: text.to_vec(alloc)?,
        words: Vec::new(alloc),
        out: CutWriter::new(alloc),
        err: CutWriter::new(alloc),
    };
    for word in words.split_whitespace() {
        if !request.add_word(alloc, word)? {
            return Ok(None);
        }
    }
    Ok(Some(request))
}

impl Request {
    // Adds a word, and is false where it is an edit that finds nothing.
    fn add_word(&mut self, alloc: Global, word: &str) -> Result<bool, AllocError> {
        let (name, value) = word.split_once('=').unwrap_or((word, ""));
        match name {
            "edit" => return self.edit(alloc, value),
            "out" => (self.out.room, self.out.fault) = cut_of(value),
            "flush" => (self.out.flushes, self.out.fault) = cut_of(value),
            "err" => (self.err.room, self.err.fault) = cut_of(value),
            "waits" => self.out.waits = value.parse().unwrap_or(0),
            _ => self.words.push(word.replace(alloc, "~", " ")?)?,
        }
        Ok(true)
    }

    // Puts the second text of `OLD=>NEW` in place of the first.
    fn edit(&mut self, alloc: Global, value: &str) -> Result<bool, AllocError> {
        let Some((old, new)) = value.split_once("=>") else {
            return Ok(false);
        };
        let Some((before, after)) = parts_at(&self.text, old) else {
            return Ok(false);
        };
        let text = format!(in alloc; "{before}{new}{after}")?;
        self.text = text.into_bytes();
        Ok(true)
    }
}

// What comes before a part of a text, and what comes after it.
fn parts_at<'a>(text: &'a [u8], part: &str) -> Option<(&'a str, &'a str)> {
    match str::from_utf8(text) {
        Ok(text) => text.split_once(part),
        Err(_) => None,
    }
}
