//! What is printed for a command line that is no request, and for the code of a refusal.
ghost use Rattle.std.specs.Prelude.{codes};
ghost use Rattle.linemap_output.specs.ErrorLine.{error_line};
ghost use Rattle.linemap_words.specs.RefusalCodes.{is_refusal_code};
ghost use Rattle.linemap_words.specs.Explain.{Explains, ExplainsRefusal, PrintsHelp, PrintsMistake};

use crate::meanings::meaning_of;
use crate::request::WordsError;
use linemap_output::{Ended, out_of_memory, output_failed, write_error_line, write_flushed};
use std::alloc::Global;
use std::io::Write;

/// Prints the help that a command line asks for to `out`, with status 0, or what is wrong with it
/// to `err`, with status 2. A fault of `out` is reported to `err`, as by `ask`.
pub fn explain<O: Write, E: Write>(
    alloc: Global,
    error: &WordsError,
    out: &mut O,
    err: &mut E,
) -> Ended
    ensures { Explains error.now (O.contents out.old) (O.contents out.new)
        (E.contents err.old) (E.contents err.new) result }
{
    let WordsError::Fault(_) = error else {
        return out_of_memory(err);
    };
    match format!(in alloc; "{error}") {
        Ok(text) if error.is_help() => print_help(&text, out, err),
        Ok(text) => print_mistake(&text, err),
        Err(_) => out_of_memory(err),
    }
}

/// Prints what a refusal means to `out`, with status 0; where no refusal has the code, a line that
/// says so to `err`, with status 2. A fault of `out` is reported to `err`, as by `ask`. It takes no
/// memory.
pub fn explain_refusal<O: Write, E: Write>(code: &str, out: &mut O, err: &mut E) -> Ended
    ensures { ExplainsRefusal code.now (is_refusal_code code.now) (O.contents out.old)
        (O.contents out.new) (E.contents err.old) (E.contents err.new) result }
{
    match meaning_of(code) {
        Some(text) => print_help(text, out, err),
        None => print_unknown(code, err),
    }
}

// Prints to the error stream that no refusal has a code.
fn print_unknown<E: Write>(code: &str, err: &mut E) -> Ended
    ensures { PrintsMistake (error_line (codes "no refusal has the code ") code.now)
        (E.contents err.old) (E.contents err.new) result }
{
    let ended = Ended::with_status(2);
    match write_error_line(err, "no refusal has the code ", code) {
        Ok(()) => ended,
        Err(_) => ended.with_write_fault(),
    }
}

// Prints help to the output.
fn print_help<O: Write, E: Write>(text: &str, out: &mut O, err: &mut E) -> Ended
    ensures { PrintsHelp text.now (O.contents out.old) (O.contents out.new)
        (E.contents err.old) (E.contents err.new) result }
{
    match write_flushed(out, text) {
        Ok(()) => Ended::with_status(0),
        Err(fault) => output_failed(err, fault),
    }
}

// Prints what is wrong with a command line to the error stream.
fn print_mistake<E: Write>(text: &str, err: &mut E) -> Ended
    ensures { PrintsMistake text.now (E.contents err.old) (E.contents err.new) result }
{
    let ended = Ended::with_status(2);
    match write_flushed(err, text) {
        Ok(()) => ended,
        Err(_) => ended.with_write_fault(),
    }
}
