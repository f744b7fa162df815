//! What a command line asks for, and what is printed where it asks for nothing.

use super::ending::{add_end, add_stream};
use super::streams::{CutWriter, cut_of};
use crate::answer::Answer;
use linemap_words::{DebugSources, Options, Request, WordsError, explain, read_words};
use std::alloc::{AllocError, Global};

/// Adds the request of words, or how their refusal is explained: which of the streams has text
/// then, and all that an error line of the program has. `out=BYTES` and `flush=COUNT` are no words
/// of them, but say after how many bytes or flushes the output fails.
pub fn answer(text: &str, out: &mut Answer) {
    let mut output = CutWriter::new(out.alloc);
    match words_in(out.alloc, text, &mut output) {
        Ok(words) => answer_words(&words, &mut output, out),
        Err(_) => out.refuse_memory(),
    }
}

fn words_in(alloc: Global, text: &str, output: &mut CutWriter) -> Result<Vec<String>, AllocError> {
    let mut words = Vec::new(alloc);
    for word in text.split_whitespace() {
        let (name, value) = word.split_once('=').unwrap_or((word, ""));
        match name {
            "out" => (output.room, output.fault) = cut_of(value),
            "flush" => (output.flushes, output.fault) = cut_of(value),
            _ => words.push(word.to_string(alloc)?)?,
        }
    }
    Ok(words)
}

fn answer_words(words: &[String], output: &mut CutWriter, out: &mut Answer) {
    match read_words(out.alloc, words) {
        Ok(request) => add_request(&request, out),
        Err(WordsError::Memory) => out.refuse_memory(),
        Err(error) => explain_to(&error, output, out),
    }
}

// ---- requests

fn add_request(request: &Request, out: &mut Answer) {
    match request {
        Request::Ask { table, words } => {
            out.text("ask ");
            out.text(table);
            add_words(words, out);
        }
        Request::Emit {
            table,
            out: file,
            dwarf,
            bits,
            size,
            big,
        } => {
            out.text("emit ");
            out.text(table);
            out.text(" ");
            out.text(file);
            for number in [dwarf, bits, size] {
                out.text(" ");
                out.value(number);
            }
            out.text(if *big { " big" } else { " little" });
        }
        Request::Explain { code } => {
            out.text("explain ");
            out.text(code);
        }
        Request::Lookup {
            exe,
            sup,
            sources,
            options,
        } => {
            out.text("lookup ");
            out.text(exe);
            if let Some(sup) = sup {
                out.text(" with ");
                out.text(sup);
            }
            add_sources(sources, out);
            add_options(options, out);
        }
    }
}

fn add_words(words: &[String], out: &mut Answer) {
    for word in words {
        out.text(" ");
        out.text(word);
    }
}

fn add_sources(sources: &DebugSources, out: &mut Answer) {
    if sources.decompress {
        out.text(" decompressed");
    }
    if let Some(folders) = &sources.folders {
        out.text(" or found in");
        add_words(folders, out);
        out.text(" at");
    }
}

fn add_options(options: &Options, out: &mut Answer) {
    if let Some(section) = &options.section {
        out.text(" section ");
        out.text(section);
    }
    for (is_set, name) in [
        (options.all, " all"),
        (options.functions, " functions"),
        (options.inlines, " inlines"),
        (options.pretty, " pretty"),
        (options.addresses, " addresses"),
        (options.basenames, " basenames"),
        (options.demangle, " demangle"),
        (options.llvm, " llvm"),
        (options.statements, " statements"),
    ] {
        if is_set {
            out.text(name);
        }
    }
    if let Some(words) = &options.words {
        add_words(words, out);
    }
}

// ---- refusals

fn explain_to(error: &WordsError, output: &mut CutWriter, out: &mut Answer) {
    let mut err = CutWriter::new(out.alloc);
    let ended = explain(out.alloc, error, output, &mut err);
    if ended.memory || output.lacks_memory || err.lacks_memory {
        return out.refuse_memory();
    }
    add_end(ended, out);
    out.text(if error.is_help() {
        "; help"
    } else {
        "; a mistake"
    });
    if !output.text.is_empty() {
        out.text(" on the output");
    }
    if err.text.starts_with(b"linemap: ") {
        add_stream("; err ", &err.text, out);
    } else if !err.text.is_empty() {
        out.text(" on the error stream");
    }
}
