//! The subcommand `lookup`.
ghost use Rattle.std.specs.Prelude.{◌≡◌, IfOk, false};
ghost use Rattle.clap.specs.Words.{rule_of};
ghost use Rattle.linemap_words.specs.CommandLine.{HaveRules, IsLocalApp, debug_rules, detail_rules, exe_rule, lookup_app, section_rule, source_rules};

use super::addresses_argument;
use super::flags::{flag, list_option, short_flag, text_option};
use clap::{Arg, Command};
use std::alloc::{AllocError, Global};

/// The option of the file that is looked into.
pub const EXE: &str = "exe";

/// The option of the supplementary file.
pub const SUP: &str = "sup";

/// The option of the section that the addresses count from.
pub const SECTION: &str = "section";

/// The option to ask for all addresses.
pub const ALL: &str = "all";

/// The option to decompress sections.
pub const DECOMPRESS: &str = "decompress";

/// The option to look for a separate debug file.
pub const FIND_DEBUG: &str = "find-debug";

/// The option of a folder in which debug files are looked for.
pub const DEBUG_DIR: &str = "debug-dir";

/// The option to print functions.
pub const FUNCTIONS: &str = "functions";

/// The option to print an address on one line.
pub const PRETTY: &str = "pretty-print";

/// The option to print inlined calls.
pub const INLINES: &str = "inlines";

/// The option to print the addresses.
pub const ADDRESSES: &str = "addresses";

/// The option to print files without directories.
pub const BASENAMES: &str = "basenames";

/// The option to demangle names.
pub const DEMANGLE: &str = "demangle";

/// The option to print as `llvm-symbolizer` does.
pub const LLVM: &str = "llvm";

/// The option to mark rows that are no statements.
pub const STATEMENTS: &str = "statements";

const NOTES: &str = "Example: the functions and lines of two addresses, with inlined calls
  linemap lookup -e ./a.out -fipC 0x1139 0x1150

Without addresses, they are read from the standard input, one a line. A line that isn't UTF-8
ends the input. llvm-symbolizer's defaults are -fiC --llvm.

The program must have been compiled with debug information, as by gcc -g. Without any, each
address is answered ??:0, with status 0: readelf -S ./a.out lists .debug_info where there is some.
An installed program has it in a file of its own, which a debug package brings:
  linemap lookup -e /usr/bin/valgrind --find-debug -fip 0x2000
--find-debug looks for that file, if the program has no debug information, by its build identifier,
at .build-id/xx/rest.debug in each DIR; then, by its debug link, beside the program, in .debug
there, and under the program's own folder in each DIR; links to the program are followed. It looks
for the supplement of that file too, and decompresses both. If there is none, it says so.
Where a file can't be used, one of these is printed (linemap explain L6 says more):
  L1  out of memory
  L2  it can't be read
  L3  it isn't an ELF file
  L4  ELF files of its kind are not supported
  L5  it is cut short
  L6  its debug sections are compressed. Use --decompress, or decompress them first:
      objcopy --decompress-debug-sections IN OUT
  L7  it isn't linked yet, as an object file (.o): link it, and use the result
  L8  its debug information can't be read
The file is the program, or its supplement.";

/// `lookup -e FILE [OPTIONS] [ADDR..]`.
pub fn lookup_command<'a>(alloc: Global) -> Result<Command<'a>, AllocError>
    ensures { IfOk result (λ command. IsLocalApp command lookup_app) }
{
    let sources = source_arguments(alloc)?;
    let debug = debug_arguments(alloc)?;
    let details = detail_arguments(alloc)?;
    Command::new(alloc, "lookup")
        .about("Prints the source line of each address of a program")
        .after_help(NOTES)
        .args(sources)?
        .args(debug)?
        .args(details)?
        .arg(addresses_argument(alloc))
}

// The options of what is looked into, and at which addresses.
fn source_arguments<'a>(alloc: Global) -> Result<Vec<Arg<'a>>, AllocError>
    ensures { IfOk result (λ arguments. HaveRules arguments.items source_rules) }
{
    let arguments = vec![in alloc;
        exe_argument(alloc),
        text_option(alloc, SUP, "FILE", "The program's supplementary debug file"),
        section_argument(alloc),
        flag(alloc, ALL, "Look up every address where a line begins"),
    ]?;
    Ok(arguments)
}

// The options of where debug information comes from, beside the file itself.
fn debug_arguments<'a>(alloc: Global) -> Result<Vec<Arg<'a>>, AllocError>
    ensures { IfOk result (λ arguments. HaveRules arguments.items debug_rules) }
{
    let arguments = vec![in alloc;
        flag(alloc, DECOMPRESS, "Decompress debug sections"),
        flag(
            alloc,
            FIND_DEBUG,
            "Look for the debug file of a program without debug information"
        ),
        list_option(
            alloc,
            DEBUG_DIR,
            "DIR",
            "With --find-debug: a folder of debug files; may be repeated [default: /usr/lib/debug]"
        ),
    ]?;
    Ok(arguments)
}

// The path of the file that is looked into.
fn exe_argument<'a>(alloc: Global) -> Arg<'a>
    ensures rule { rule_of result ≡ exe_rule }
    ensures local { result.global ≡ false }
{
    text_option(alloc, EXE, "FILE", "The program to look into, an ELF file")
        .short('e')
        .required(true)
}

// The section that the addresses count from.
fn section_argument<'a>(alloc: Global) -> Arg<'a>
    ensures rule { rule_of result ≡ section_rule }
    ensures local { result.global ≡ false }
{
    text_option(
        alloc,
        SECTION,
        "NAME",
        "Addresses count from the beginning of this section",
    )
    .short('j')
}

// The options of what is printed of an address.
fn detail_arguments<'a>(alloc: Global) -> Result<Vec<Arg<'a>>, AllocError>
    ensures { IfOk result (λ arguments. HaveRules arguments.items detail_rules) }
{
    let arguments = vec![in alloc;
        short_flag(alloc, FUNCTIONS, 'f', "Also print the function"),
        short_flag(
            alloc,
            PRETTY,
            'p',
            "Print each function with its line on one line"
        ),
        short_flag(
            alloc,
            INLINES,
            'i',
            "Also print the functions that it was inlined into"
        ),
        short_flag(alloc, ADDRESSES, 'a', "Print the address first"),
        short_flag(
            alloc,
            BASENAMES,
            's',
            "Print files without their directories"
        ),
        short_flag(
            alloc,
            DEMANGLE,
            'C',
            "Demangle Rust's legacy names; other names stay as they are"
        ),
        flag(alloc, LLVM, "Print as llvm-symbolizer does, with columns"),
        flag(alloc, STATEMENTS, "Mark lines where no statement begins"),
    ]?;
    Ok(arguments)
}
