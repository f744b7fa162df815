//! How the names of functions are printed.

ghost use Rattle.std.specs.Prelude.{◌≡◌, ◌++◌, OnOk, None, option_map};
ghost use Rattle.std.specs.String.{string_bytes};
ghost use Rattle.linemap_lookup.specs.FrameTexts.{function_text, name_text, symbol_or_function};

use addr2line_context::{FunctionName, Reader};
use addr2line_demangle::demangle_auto;
use linemap_output::Options;
use std::alloc::{AllocError, Global};
use std::borrow::CowStr;

// Appends the name of a function.
fn push_known_name<R: Reader>(
    alloc: Global,
    text: &mut String,
    options: &Options,
    function: &FunctionName<R>,
) -> Result<(), AllocError>
    ensures { OnOk result (string_bytes text.new
        ≡ string_bytes text.old ++ function_text options.now (Some function.now)) }
{
    let name = if options.demangle {
        function.demangle(alloc)
    } else {
        function.raw_name(alloc)
    };
    match name {
        Ok(name) => text.push_str(name.as_str()),
        Err(_) => Err(AllocError),
    }
}

// Appends the name of a symbol.
fn push_symbol(
    alloc: Global,
    text: &mut String,
    options: &Options,
    symbol: &str,
) -> Result<(), AllocError>
    ensures { OnOk result (string_bytes text.new
        ≡ string_bytes text.old ++ name_text options.now None symbol.now) }
{
    if !options.demangle {
        return text.push_str(symbol);
    }
    match demangle_auto(alloc, CowStr::Borrowed(symbol), None) {
        Ok(name) => text.push_str(name.as_str()),
        Err(_) => Err(AllocError),
    }
}

// Appends the name of a symbol, or else of a function, or what stands for one that isn't known.
pub(crate) fn push_name<R: Reader>(
    alloc: Global,
    text: &mut String,
    options: &Options,
    symbol: Option<&str>,
    function: Option<&FunctionName<R>>,
) -> Result<(), AllocError>
    ensures { OnOk result (string_bytes text.new ≡ string_bytes text.old
        ++ symbol_or_function options.now (option_map (λ s. s.now) symbol.entry)
        (option_map (λ f. f.now) function.entry)) }
{
    match (symbol, function) {
        (Some(symbol), _) => push_symbol(alloc, text, options, symbol),
        (None, Some(function)) => push_known_name(alloc, text, options, function),
        (None, None) => text.push_str("??"),
    }
}
