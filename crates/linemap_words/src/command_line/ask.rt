//! The subcommand `ask`.
ghost use Rattle.std.specs.Prelude.{IfOk};
ghost use Rattle.linemap_words.specs.CommandLine.{IsLocalApp, ask_app};

use super::{addresses_argument, table_argument};
use clap::Command;
use std::alloc::{AllocError, Global};

const NOTES: &str = "Example: the source line of one address
  linemap ask table.json 0x100f

A table that can't be used is refused with a code, B1 to B20, M1 or M2: linemap explain B10 says
what one means. docs/TABLE.md says how a table is written.";

/// `ask TABLE ADDR..`: at least one address.
pub fn ask_command<'a>(alloc: Global) -> Result<Command<'a>, AllocError>
    ensures { IfOk result (λ command. IsLocalApp command ask_app) }
{
    let addresses = addresses_argument(alloc).required(true);
    let arguments = vec![in alloc; table_argument(alloc), addresses]?;
    Command::new(alloc, "ask")
        .about("Prints the source line of each address of a table")
        .after_help(NOTES)
        .args(arguments)
}
