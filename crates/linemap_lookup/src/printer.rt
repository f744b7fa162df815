//! How addresses and places are printed.

ghost use Rattle.std.specs.Prelude.{◌≡◌, ◌++◌, None, OnOk, codes, decimal, option_map, unwrap_or};
ghost use Rattle.std.specs.String.{string_bytes};
ghost use Rattle.linemap_meaning.specs.AnswerTexts.{unknown_text};
ghost use Rattle.addr2line_context.specs.BorrowedLocations.{location_value};
ghost use Rattle.linemap_lookup.specs.AddressTexts.{address_text, printed_address, last_component, location_text, location_text_if_any, printed_file, statement_text};

use addr2line_context::Location;
use linemap_meaning::line_text::{push_discriminator, push_line};
use linemap_output::Options;
use std::alloc::AllocError;
use std::path::Path;

// The last component of a path, or all of it where that is no name.
fn last_component(path: &str) -> &str
    ensures { result.now ≡ last_component path.now }
{
    match Path::new(path).file_name() {
        Some(name) => name,
        None => path,
    }
}

// A file as it is printed, or what stands for one that isn't known.
fn printed_file<'a>(options: &Options, file: Option<&'a str>) -> &'a str
    ensures { result.now
        ≡ unwrap_or (printed_file options.now (option_map (λ t. t.now) file.entry)) unknown_text }
{
    match file {
        None => "??",
        Some(path) if options.basenames => last_component(path),
        Some(path) => path,
    }
}

// Appends that a place isn't the beginning of a statement, if that is asked for.
fn push_statement(
    text: &mut String,
    options: &Options,
    statement: Option<bool>,
) -> Result<(), AllocError>
    ensures { OnOk result (string_bytes text.new
        ≡ string_bytes text.old ++ statement_text options.now statement) }
{
    match statement {
        Some(false) if options.statements => text.push_str(" (not a statement)"),
        _ => Ok(()),
    }
}

// Appends a file, a line and a column; 0 is a number that isn't known.
fn push_column(
    text: &mut String,
    file: &str,
    line: Option<u32>,
    column: Option<u32>,
) -> Result<(), AllocError>
    ensures { OnOk result (string_bytes text.new
        ≡ string_bytes text.old ++ (file.now ++ (codes ":" ++ (decimal (unwrap_or line 0)
        ++ (codes ":" ++ decimal (unwrap_or column 0)))))) }
{
    let line = line.unwrap_or(0);
    let column = column.unwrap_or(0);
    write!(text, "{file}:{line}:{column}")
}

// Appends a place.
fn push_known_place(
    text: &mut String,
    options: &Options,
    place: Location<'_>,
) -> Result<(), AllocError>
    ensures { OnOk result (string_bytes text.new
        ≡ string_bytes text.old ++ location_text options.now (location_value place.entry)) }
{
    let file = printed_file(options, place.file);
    if options.llvm {
        return push_column(text, file, place.line, place.column);
    }
    push_line(text, file, place.line)?;
    push_discriminator(text, place.discriminator)?;
    push_statement(text, options, place.statement)
}

// Appends what stands for no place.
#[tactic(auto, using(std::proofs::lemmas::Fmt::decimal_digit))]
fn push_no_place(text: &mut String, options: &Options) -> Result<(), AllocError>
    ensures { OnOk result (string_bytes text.new
        ≡ string_bytes text.old ++ location_text_if_any options.now None) }
{
    text.push_str(if options.llvm { "??:0:0" } else { "??:0" })
}

// Appends a place, or what stands for none.
pub(crate) fn push_place(
    text: &mut String,
    options: &Options,
    place: Option<Location<'_>>,
) -> Result<(), AllocError>
    ensures { OnOk result (string_bytes text.new ≡ string_bytes text.old
        ++ location_text_if_any options.now (option_map location_value place.entry)) }
{
    match place {
        Some(place) => push_known_place(text, options, place),
        None => push_no_place(text, options),
    }
}

// Appends an address, in the form that is asked for.
fn push_hexadecimal(text: &mut String, options: &Options, address: u64) -> Result<(), AllocError>
    ensures { OnOk result (string_bytes text.new
        ≡ string_bytes text.old ++ printed_address options.now address) }
{
    if options.llvm {
        write!(text, "0x{address:x}")
    } else {
        write!(text, "0x{address:016x}")
    }
}

// Appends an address, if that is asked for.
pub(crate) fn push_address(
    text: &mut String,
    options: &Options,
    address: u64,
) -> Result<(), AllocError>
    ensures { OnOk result (string_bytes text.new
        ≡ string_bytes text.old ++ address_text options.now address) }
{
    if !options.addresses {
        return Ok(());
    }
    push_hexadecimal(text, options, address)?;
    text.push_str(if options.pretty { ": " } else { "\n" })
}
