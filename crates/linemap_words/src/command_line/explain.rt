//! The subcommand `explain`.
ghost use Rattle.std.specs.Prelude.{◌≡◌, IfOk, false};
ghost use Rattle.clap.specs.Words.{rule_of};
ghost use Rattle.linemap_words.specs.CommandLine.{IsLocalApp, code_rule, explain_app};

use clap::{Arg, ArgAction, Command};
use std::alloc::{AllocError, Global};

/// The identifier of the refusal's code among the matches.
pub const CODE: &str = "code";

const NOTES: &str = "Example: why a file can't be looked into
  linemap explain L6

Refusals of files are L1 to L8, of debug information E1 to E33, of tables B1 to B20, of what is
emitted for a table M1 and M2, and of line programs that are written W1 to W10.";

/// `explain CODE`.
pub fn explain_command<'a>(alloc: Global) -> Result<Command<'a>, AllocError>
    ensures { IfOk result (λ command. IsLocalApp command explain_app) }
{
    let arguments = vec![in alloc; code_argument(alloc)]?;
    Command::new(alloc, "explain")
        .about("Says what a refusal such as L6 means, and what to do")
        .after_help(NOTES)
        .args(arguments)
}

// The code of a refusal.
fn code_argument<'a>(alloc: Global) -> Arg<'a>
    ensures rule { rule_of result ≡ code_rule }
    ensures local { result.global ≡ false }
{
    Arg::new(alloc, CODE)
        .value_name("CODE")
        .help("The code of the refusal, a letter and a number")
        .required(true)
        .action(ArgAction::Set)
}
