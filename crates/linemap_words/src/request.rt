//! What the words of a command line ask for.
ghost use Rattle.std.specs.Prelude.{◌≡◌, IfOk, IfErr, IsSomeAnd, Some, map, codes, string_bytes};
ghost use Rattle.clap.specs.Words.{app_of, fault_of, found_of, kind_of, rows_of, subcommand_of, subcommand_rows_of};
ghost use Rattle.linemap_words.specs.CommandLine.{linemap_app};
ghost use Rattle.linemap_words.specs.WordsRequest.{AreOptionsOf, IsFault, IsMismatch, IsRefusal, IsRequestOf, RefusesAfter};

use crate::command_line::{
    ADDRESSES, ALL, BASENAMES, BIG, BITS, CODE, DEMANGLE, DWARF, EXE, FUNCTIONS, INLINES, LLVM,
    OUT, PRETTY, SECTION, SIZE, STATEMENTS, SUP, TABLE, WORDS, linemap_command, lookup_command,
};
use crate::debug_sources::{DebugSources, debug_sources_in, unused_folder};
use crate::matches::{is_set, number_at, text_at, texts_at};
use clap::error::ErrorKind;
use clap::{ArgMatches, Command};
use linemap_output::Options;
use std::alloc::{AllocError, Global};
use std::error::Error;
use std::fmt;

// What is said of matches that lack a request.
const LACKS_REQUEST: &str = "no request";

// What is said of matches of `lookup` that ask for all addresses and for some.
const ALL_AND_SOME: &str = "the argument '--all' cannot be used with '[ADDR]...'";

/// What the program is asked to do.
#[derive(Debug, Drop)]
pub enum Request {
    /// Print a line for each address.
    Ask {
        /// The path of the table's file.
        table: String,
        /// The addresses as they were written.
        words: Vec<String>,
    },
    /// Write a table as an ELF file with debug information.
    Emit {
        /// The path of the table's file.
        table: String,
        /// The path of the file to be written.
        out: String,
        /// The version of DWARF.
        dwarf: u16,
        /// The bits of the format, 32 or 64 for any that is written.
        bits: u16,
        /// The bytes of an address, 4 or 8 for any that is written.
        size: u16,
        /// Whether the most significant byte comes first.
        big: bool,
    },
    /// Say what a refusal means.
    Explain {
        /// The refusal's code.
        code: String,
    },
    /// Look addresses up in an ELF file with debug information.
    Lookup {
        /// The path of the file.
        exe: String,
        /// The path of its supplementary file.
        sup: Option<String>,
        /// Where debug information comes from, beside the file itself.
        sources: DebugSources,
        /// What is printed, and for which addresses.
        options: Options,
    },
}

/// Why the words are no request. It displays as the text to print.
#[derive(Debug, Drop)]
pub enum WordsError {
    /// Out of memory.
    Memory,
    /// A mistake in the words, or a request for help, in `clap`'s words.
    Fault(clap::Error),
}

impl fmt::Display for WordsError {
    ghost use Rattle.linemap_words.specs.WordsStatus.{displayed};

    ghost output = { displayed };

    fn fmt<W: fmt::Write>(&self, f: &mut fmt::Formatter<W>) -> fmt::Result {
        match self {
            WordsError::Memory => f.write_str("linemap: out of memory\n"),
            WordsError::Fault(error) => write!(f, "{error}"),
        }
    }
}

impl Error for WordsError {}

impl From<AllocError> for WordsError {
    ghost use Rattle.linemap_words.specs.declared.request.WordsError.TheVariants.{Memory};

    ghost from_gives = { λ _ e. e ≡ Memory };

    fn from(_error: AllocError) -> WordsError {
        WordsError::Memory
    }
}

// Why matches are no request.
#[derive(Clone, Copy, Debug)]
pub(crate) enum Mismatch {
    // Out of memory.
    NoMemory,
    // No subcommand, or an argument that it requires isn't there.
    Missing,
    // All addresses are asked for, and some too.
    Conflict,
    // A folder of debug files is named, and they aren't looked for.
    UnusedFolder,
}

impl From<AllocError> for Mismatch {
    ghost use Rattle.linemap_words.specs.declared.request.Mismatch.TheVariants.{NoMemory};

    ghost from_gives = { λ _ e. e ≡ NoMemory };

    fn from(_error: AllocError) -> Mismatch {
        Mismatch::NoMemory
    }
}

impl WordsError {
    ghost use Rattle.linemap_words.specs.WordsStatus.{HasStatus, IsHelp};

    /// What the program exits with: 0 after help, 1 when out of memory, and else 2.
    pub fn status(&self) -> u8
        ensures { HasStatus self.now result }
    {
        match self {
            WordsError::Memory => 1,
            WordsError::Fault(error) => { if error.use_stderr() { 2 } else { 0 } }
        }
    }

    /// Whether the text is help, which goes to the standard output.
    pub fn is_help(&self) -> bool
        ensures { IsHelp self.now result }
    {
        match self {
            WordsError::Fault(error) => !error.use_stderr(),
            WordsError::Memory => false,
        }
    }
}

/// Reads the words of a command line, of which the first is the program's name. Its answers take
/// memory for copies of the words.
pub fn read_words(alloc: Global, words: &[String]) -> Result<Request, WordsError>
    ensures request { IfOk result (λ request. IsSomeAnd
        (subcommand_of linemap_app (map string_bytes words.now)) (IsRequestOf request)) }
    ensures refusal { IfErr result (λ error. IsRefusal error
        (fault_of linemap_app (map string_bytes words.now))
        (subcommand_of linemap_app (map string_bytes words.now))) }
{
    let mut command = linemap_command(alloc)?;
    read_by(alloc, &mut command, words)
}

#[tactic(auto, using(crate::proofs::SimpleCommand::is_simple, crate::proofs::SimpleCommand::is_free))]
// Reads the words by the program's command.
fn read_by<'a>(
    alloc: Global,
    command: &mut Command<'a>,
    words: &'a [String],
) -> Result<Request, WordsError>
    requires { app_of command.old ≡ linemap_app }
    ensures request { IfOk result (λ request. IsSomeAnd
        (subcommand_of linemap_app (map string_bytes words.now)) (IsRequestOf request)) }
    ensures refusal { IfErr result (λ error. IsRefusal error
        (fault_of linemap_app (map string_bytes words.now))
        (subcommand_of linemap_app (map string_bytes words.now))) }
{
    match command.try_get_matches_from_mut(words) {
        Ok(matches) => match request_in(alloc, &matches) {
            Ok(request) => Ok(request),
            Err(mismatch) => Err(refusal_of(alloc, command, mismatch)),
        },
        Err(error) => Err(error_of(error)),
    }
}

// Why the words are no request, where their matches are none.
fn refusal_of(alloc: Global, command: &mut Command<'_>, mismatch: Mismatch) -> WordsError
    ensures { RefusesAfter mismatch result }
{
    let error = match mismatch {
        Mismatch::NoMemory => return WordsError::Memory,
        Mismatch::Missing => missing(command),
        Mismatch::Conflict => conflict(alloc),
        Mismatch::UnusedFolder => unused_folder(alloc),
    };
    match error {
        Ok(error) => error_of(error),
        Err(_) => WordsError::Memory,
    }
}

// An error of the parse. Out of memory is a case of its own.
fn error_of(error: clap::Error) -> WordsError
    ensures { IsFault result (kind_of error) }
{
    if error.kind() == ErrorKind::OutOfMemory {
        WordsError::Memory
    } else {
        WordsError::Fault(error)
    }
}

// The error of matches that lack a request.
fn missing(command: &mut Command<'_>) -> Result<clap::Error, AllocError>
    ensures { IfOk result (λ error. kind_of error ≡ ErrorKind.MissingRequiredArgument) }
{
    command.error(ErrorKind::MissingRequiredArgument, LACKS_REQUEST)
}

// The error of matches of `lookup` that ask for all addresses and for some.
fn conflict(alloc: Global) -> Result<clap::Error, AllocError>
    ensures { IfOk result (λ error. kind_of error ≡ ErrorKind.ArgumentConflict) }
{
    let mut command = lookup_command(alloc)?.bin_name("linemap lookup")?;
    command.error(ErrorKind::ArgumentConflict, ALL_AND_SOME)
}

// The request of the subcommand that was parsed.
fn request_in(alloc: Global, matches: &ArgMatches<'_>) -> Result<Request, Mismatch>
    ensures request { IfOk result
        (λ request. IsSomeAnd (subcommand_rows_of matches.now) (IsRequestOf request)) }
    ensures refusal { IfErr result (λ why. IsMismatch why (subcommand_rows_of matches.now)) }
{
    match matches.subcommand() {
        Some((name, matches)) => match name {
            "ask" => ask_request(alloc, matches),
            "emit" => emit_request(alloc, matches),
            "explain" => explain_request(alloc, matches),
            "lookup" => lookup_request(alloc, matches),
            _ => Err(Mismatch::Missing),
        },
        None => Err(Mismatch::Missing),
    }
}

// The request of the matches of `ask`.
fn ask_request(alloc: Global, matches: &ArgMatches<'_>) -> Result<Request, Mismatch>
    ensures request { IfOk result
        (λ request. IsRequestOf request (codes "ask", rows_of (found_of matches.now))) }
    ensures refusal { IfErr result
        (λ why. IsMismatch why (Some (codes "ask", rows_of (found_of matches.now)))) }
{
    let table = text_at(alloc, matches, TABLE)?.ok_or(Mismatch::Missing)?;
    let words = texts_at(alloc, matches, WORDS)?.ok_or(Mismatch::Missing)?;
    Ok(Request::Ask { table, words })
}

// The request of the matches of `emit`.
fn emit_request(alloc: Global, matches: &ArgMatches<'_>) -> Result<Request, Mismatch>
    ensures request { IfOk result
        (λ request. IsRequestOf request (codes "emit", rows_of (found_of matches.now))) }
    ensures refusal { IfErr result
        (λ why. IsMismatch why (Some (codes "emit", rows_of (found_of matches.now)))) }
{
    Ok(Request::Emit {
        table: text_at(alloc, matches, TABLE)?.ok_or(Mismatch::Missing)?,
        out: text_at(alloc, matches, OUT)?.ok_or(Mismatch::Missing)?,
        dwarf: number_at(matches, DWARF).ok_or(Mismatch::Missing)?,
        bits: number_at(matches, BITS).ok_or(Mismatch::Missing)?,
        size: number_at(matches, SIZE).ok_or(Mismatch::Missing)?,
        big: is_set(matches, BIG),
    })
}

// The request of the matches of `explain`.
fn explain_request(alloc: Global, matches: &ArgMatches<'_>) -> Result<Request, Mismatch>
    ensures request { IfOk result
        (λ request. IsRequestOf request (codes "explain", rows_of (found_of matches.now))) }
    ensures refusal { IfErr result
        (λ why. IsMismatch why (Some (codes "explain", rows_of (found_of matches.now)))) }
{
    let code = text_at(alloc, matches, CODE)?.ok_or(Mismatch::Missing)?;
    Ok(Request::Explain { code })
}

// The request of the matches of `lookup`.
fn lookup_request(alloc: Global, matches: &ArgMatches<'_>) -> Result<Request, Mismatch>
    ensures request { IfOk result
        (λ request. IsRequestOf request (codes "lookup", rows_of (found_of matches.now))) }
    ensures refusal { IfErr result
        (λ why. IsMismatch why (Some (codes "lookup", rows_of (found_of matches.now)))) }
{
    let options = options_in(alloc, matches)?;
    let exe = text_at(alloc, matches, EXE)?.ok_or(Mismatch::Missing)?;
    let sup = text_at(alloc, matches, SUP)?;
    let sources = debug_sources_in(alloc, matches)?;
    if options.all && options.words.is_some() {
        return Err(Mismatch::Conflict);
    }
    Ok(Request::Lookup {
        exe,
        sup,
        sources,
        options,
    })
}

// The options of the matches of `lookup`.
fn options_in(alloc: Global, matches: &ArgMatches<'_>) -> Result<Options, AllocError>
    ensures { IfOk result (λ options. AreOptionsOf options (rows_of (found_of matches.now))) }
{
    Ok(Options {
        section: text_at(alloc, matches, SECTION)?,
        all: is_set(matches, ALL),
        functions: is_set(matches, FUNCTIONS),
        pretty: is_set(matches, PRETTY),
        inlines: is_set(matches, INLINES),
        addresses: is_set(matches, ADDRESSES),
        basenames: is_set(matches, BASENAMES),
        demangle: is_set(matches, DEMANGLE),
        llvm: is_set(matches, LLVM),
        statements: is_set(matches, STATEMENTS),
        words: texts_at(alloc, matches, WORDS)?,
    })
}
