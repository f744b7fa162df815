//! The program `linemap`: command line, files and streams around what its crates do with values.
#![tactic(auto)]

mod lookup;

use linemap_commands::{cannot_write, emission, no_such_target, table_out_of_memory, target_of};
use linemap_text::{Target, ask, cannot_read, out_of_memory, words_not_text};
use linemap_words::{Request, explain, explain_refusal, read_words};
use lookup::look_up;
use std::io::{BufReader, BufWriter, ErrorKind, Lock, Write};
use std::process::ExitCode;
use std::rt::{Env, Files};
use std::{env, fs, io};

fn main(rt: HostRuntime) -> ExitCode {
    let mut err = rt.stderr();
    let status = match BufWriter::new(rt.alloc(), rt.stdout().lock()) {
        Ok(mut out) => start(&rt, &mut out, &mut err),
        Err(_) => out_of_memory(&mut err).status,
    };
    ExitCode::from(status)
}

// Does what the words of the command line ask for, and returns the exit status.
fn start<R: Env + Files + Input + AllocGlobal, O: Write, E: Write>(
    rt: &R,
    out: &mut O,
    err: &mut E,
) -> u8 {
    match words_of(rt) {
        Ok(words) => obey(rt, &words, out, err),
        Err(error) if error.kind() == ErrorKind::OutOfMemory => out_of_memory(err).status,
        Err(_) => words_not_text(err).status,
    }
}

// The words of the command line.
fn words_of<R: Env + AllocGlobal>(rt: &R) -> io::Result<Vec<String>> {
    let words = env::args(rt)?.collect(rt.alloc())?;
    Ok(words)
}

// Does what the words ask for, or explains why they are no request.
fn obey<R: Files + Input + AllocGlobal, O: Write, E: Write>(
    rt: &R,
    words: &[String],
    out: &mut O,
    err: &mut E,
) -> u8 {
    match read_words(rt.alloc(), words) {
        Ok(Request::Ask { table, words }) => ask_table(rt, &table, &words, out, err),
        Ok(
            Request::Emit {
                table,
                out,
                dwarf,
                bits,
                size,
                big,
            },
        ) => match target_of(dwarf, bits, size, big) {
            Some(target) => emit_table(rt, &table, &out, target, err),
            None => no_such_target(err).status,
        },
        Ok(Request::Explain { code }) => explain_refusal(&code, out, err).status,
        Ok(
            Request::Lookup {
                exe,
                sup,
                sources,
                options,
            },
        ) => look_up(rt, &exe, sup, &sources, &options, out, err),
        Err(error) => explain(rt.alloc(), &error, out, err).status,
    }
}

// The text of a table's file, or the status after an error line.
fn text_of<R: Files + AllocGlobal, E: Write>(
    rt: &R,
    table: &str,
    err: &mut E,
) -> Result<Vec<u8>, u8> {
    match fs::read(rt, table) {
        Ok(text) => Ok(text),
        Err(error) if error.kind() == ErrorKind::OutOfMemory => {
            Err(table_out_of_memory(err).status)
        }
        Err(_) => Err(cannot_read(err, table).status),
    }
}

// Answers the words by the table in a file.
fn ask_table<R: Files + AllocGlobal, O: Write, E: Write>(
    rt: &R,
    table: &str,
    words: &[String],
    out: &mut O,
    err: &mut E,
) -> u8 {
    match text_of(rt, table, err) {
        Ok(text) => ask(rt.alloc(), &text, words, out, err).status,
        Err(status) => status,
    }
}

// Writes the image of the table in a file. The image is whole before its file is made.
fn emit_table<R: Files + AllocGlobal, E: Write>(
    rt: &R,
    table: &str,
    out: &str,
    target: Target,
    err: &mut E,
) -> u8 {
    let text = match text_of(rt, table, err) {
        Ok(text) => text,
        Err(status) => return status,
    };
    let image = match emission(rt.alloc(), &text, target, err) {
        Ok(image) => image,
        Err(ended) => return ended.status,
    };
    match fs::write(rt, out, &image) {
        Ok(()) => 0,
        Err(error) if error.kind() == ErrorKind::OutOfMemory => out_of_memory(err).status,
        Err(_) => cannot_write(err, out).status,
    }
}
