//! The subcommand `emit`.
ghost use Rattle.std.specs.Prelude.{◌≡◌, IfOk, false};
ghost use Rattle.clap.specs.Words.{rule_of};
ghost use Rattle.linemap_words.specs.CommandLine.{IsLocalApp, emit_app, out_rule};

use super::flags::{flag, number_option};
use super::table_argument;
use clap::{Arg, ArgAction, Command};
use std::alloc::{AllocError, Global};

/// The identifier of the image's path among the matches.
pub const OUT: &str = "out";

/// The option of the version of the debug information.
pub const DWARF: &str = "dwarf";

/// The option of the format of the debug information.
pub const BITS: &str = "bits";

/// The option of the size of an address.
pub const SIZE: &str = "size";

/// The option of the byte order.
pub const BIG: &str = "big";

const NOTES: &str = "Example: write the file, and ask it for an address
  linemap emit table.json table.elf
  linemap lookup -e table.elf 0x100f

DWARF 2 has only the 32-bit format.

A table that can't be used is refused with a code, B1 to B20, M1 or M2: linemap explain B10 says
what one means. docs/TABLE.md says how a table is written.";

/// `emit TABLE OUT [--dwarf N] [--bits N] [--size N] [--big]`.
pub fn emit_command<'a>(alloc: Global) -> Result<Command<'a>, AllocError>
    ensures { IfOk result (λ command. IsLocalApp command emit_app) }
{
    let arguments = vec![in alloc;
        table_argument(alloc),
        out_argument(alloc),
        number_option(alloc, DWARF, "4", "Version of DWARF, 2 to 5"),
        number_option(alloc, BITS, "32", "Format of DWARF, 32 or 64 bits"),
        number_option(alloc, SIZE, "8", "Size of an address, 4 or 8 bytes"),
        flag(alloc, BIG, "Write the most significant byte first"),
    ]?;
    Command::new(alloc, "emit")
        .about("Writes a table as an ELF file with debug information")
        .after_help(NOTES)
        .args(arguments)
}

// The path of the file to be written.
fn out_argument<'a>(alloc: Global) -> Arg<'a>
    ensures rule { rule_of result ≡ out_rule }
    ensures local { result.global ≡ false }
{
    Arg::new(alloc, OUT)
        .value_name("OUT")
        .help("The ELF file to write")
        .required(true)
        .action(ArgAction::Set)
}
