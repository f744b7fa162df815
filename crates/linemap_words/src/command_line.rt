//! The program's command and its subcommands, for `clap`.
ghost use Rattle.std.specs.Prelude.{◌≡◌, IfOk, IsOkAnd, false};
ghost use Rattle.clap.specs.Words.{AddsSubcommand, app_of, rule_of};
ghost use Rattle.linemap_words.specs.CommandLine.{addresses_rule, linemap_app, table_rule};

mod ask;
mod emit;
mod explain;
mod flags;
mod lookup;

pub use ask::ask_command;
use clap::{Arg, ArgAction, Command};
pub use emit::{BIG, BITS, DWARF, OUT, SIZE, emit_command};
pub use explain::{CODE, explain_command};
pub use lookup::{
    ADDRESSES, ALL, BASENAMES, DEBUG_DIR, DECOMPRESS, DEMANGLE, EXE, FIND_DEBUG, FUNCTIONS,
    INLINES, LLVM, PRETTY, SECTION, STATEMENTS, SUP, lookup_command,
};
use std::alloc::{AllocError, Global};

/// The identifier of the table's path among the matches.
pub const TABLE: &str = "table";

/// The identifier of the addresses, as they are written, among the matches.
pub const WORDS: &str = "words";

/// The command of the whole program: a subcommand is required.
pub fn linemap_command<'a>(alloc: Global) -> Result<Command<'a>, AllocError>
    ensures { IfOk result (λ command. app_of command ≡ linemap_app) }
{
    // The same name wherever the executable is.
    let command = Command::new(alloc, "linemap").bin_name("linemap")?;
    let command = command
        .about("Says which source line an address belongs to")
        .after_help(
            "Examples: the line of an address in a program, of one in a table, and what a refusal \
            means\n  \
            linemap lookup -e ./a.out 0x1139\n  \
            linemap ask table.json 0x100f\n  \
            linemap explain L6",
        )
        .subcommand_required(true);
    let command = with_subcommand(command, lookup_command(alloc))?;
    let command = with_subcommand(command, ask_command(alloc))?;
    let command = with_subcommand(command, emit_command(alloc))?;
    with_subcommand(command, explain_command(alloc))
}

// A command with a subcommand, where memory for that was there.
fn with_subcommand<'a>(
    command: Command<'a>,
    subcommand: Result<Command<'a>, AllocError>,
) -> Result<Command<'a>, AllocError>
    ensures { IfOk result (λ new. IsOkAnd subcommand.entry
        (λ subcommand. AddsSubcommand command.entry subcommand new)) }
{
    command.subcommand(subcommand?)
}

// The path of a table's file.
fn table_argument<'a>(alloc: Global) -> Arg<'a>
    ensures rule { rule_of result ≡ table_rule }
    ensures local { result.global ≡ false }
{
    Arg::new(alloc, TABLE)
        .value_name("TABLE")
        .help("The line table, a JSON file")
        .required(true)
        .action(ArgAction::Set)
}

// The addresses, of which none need to be there.
fn addresses_argument<'a>(alloc: Global) -> Arg<'a>
    ensures rule { rule_of result ≡ addresses_rule }
    ensures local { result.global ≡ false }
{
    Arg::new(alloc, WORDS)
        .value_name("ADDR")
        .help("Hexadecimal addresses, with or without 0x")
        .num_args(1..)
        .action(ArgAction::Append)
}
