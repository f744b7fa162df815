//! The symbols of addresses, and the ranges of sections.

ghost use Rattle.std.specs.Prelude.{◌≡◌, ◌≢◌, ◌⊎◌, ℕ, None, Some, OnOk, IfOk, IfErr};
ghost use Rattle.std.specs.Borrow.{sem};
ghost use Rattle.std.specs.String.{string_bytes};
ghost use Rattle.addr2line_context.specs.Error.TheVariants.{Memory};
ghost use Rattle.addr2line_split.specs.ElfImages.{section_range};
ghost use Rattle.addr2line_split.specs.ElfSymbols.{symbol_at};
ghost use Rattle.addr2line_c.specs.Answers.{LendsSymbol, WritesSection, WritesSymbol};
ghost use Rattle.addr2line_c.specs.Lending.{LeavesHandle};
ghost use Rattle.addr2line_c.specs.Numbers.{IsOrNoMemory, error_number, refused_number, some_number};
ghost use Rattle.addr2line_c.specs.ShownFrames.{name_text};

use crate::c_types::{A2lSection, A2lSymbol};
use crate::handle::Handle;
use crate::numbers::{NOT_FOUND, OK, error_number, refused_number};
use addr2line_context::Error;
use addr2line_demangle::demangle_auto;
use std::alloc::Global;
use std::borrow::CowStr;

// Writes what a name means over a text.
fn demangle_over(alloc: Global, name: &str, text: &mut String) -> Result<(), Error>
    ensures text { OnOk result (string_bytes text.new ≡ name_text 1 None name.now) }
    ensures memory { IfErr result (λ e. e ≡ Memory) }
{
    let demangled = demangle_auto(alloc, CowStr::Borrowed(name), None)?;
    text.clear();
    text.push_str(demangled.as_str())?;
    Ok(())
}

impl Handle {
    // The symbol that holds an address in the file of an open handle. What its name means is
    // written over a text that the handle keeps, and lends.
    fn demangle_symbol(
        &mut self,
        alloc: Global,
        address: u64,
    ) -> Result<Option<A2lSymbol<'_>>, Error>
        requires { self.old.opened ≡ 1 }
        ensures symbol { IfOk result
            (LendsSymbol 1 (symbol_at address self.old.file.loader.file.symbols)) }
        ensures memory { IfErr result (λ e. e ≡ Memory) }
        ensures* after { sem 𝓛 (LeavesHandle self.entry
            (λ left. left ≡ record self.old.file { symbol = left.symbol })) }
    {
        let file = self.file_mut();
        let Some(symbol) = file.loader.find_symbol_info(address) else {
            return Ok(None);
        };
        let address = symbol.address();
        demangle_over(alloc, symbol.name(), &mut file.symbol)?;
        let name = file.symbol.as_str().as_bytes();
        Ok(Some(A2lSymbol { name, address }))
    }
}

/// The symbol that holds an address. Its name is lent until the handle is used again.
#[unsafe(no_mangle)]
pub extern "C" fn a2l_find_symbol<'a>(
    alloc: Global,
    handle: &'a mut Handle,
    address: u64,
    names: u32,
    out: &mut A2lSymbol<'a>,
) -> i32
    ensures number { handle.old.opened ≡ 1 → IsOrNoMemory result
        (some_number (symbol_at address handle.old.file.loader.file.symbols) NOT_FOUND) }
    ensures free { handle.old.opened ≡ 1 → names ≡ 0 → result ≢ error_number Memory }
    ensures symbol { result ≡ OK → WritesSymbol names
        (symbol_at address handle.old.file.loader.file.symbols) out.new }
    ensures same { result ≢ OK → out.new ≡ out.old }
    ensures refused { handle.old.opened ≢ 1 → result ≡ refused_number handle.old.opened }
{
    let opened = handle.state();
    if opened != 1 {
        return refused_number(opened);
    }
    if names == 0 {
        let Some(symbol) = handle.file().loader.find_symbol_info(address) else {
            return NOT_FOUND;
        };
        out.name = symbol.name().as_bytes();
        out.address = symbol.address();
        return OK;
    }
    match handle.demangle_symbol(alloc, address) {
        Ok(Some(symbol)) => {
            *out = symbol;
            OK
        }
        Ok(None) => NOT_FOUND,
        Err(error) => error_number(error),
    }
}

/// The addresses of the first section of a name.
#[unsafe(no_mangle)]
pub extern "C" fn a2l_find_section(handle: &mut Handle, name: &[u8], out: &mut A2lSection) -> i32
    ensures number { handle.old.opened ≡ 1 → result ≡ some_number
        (section_range name.now handle.old.file.loader.file.image) NOT_FOUND }
    ensures section { result ≡ OK → WritesSection
        (section_range name.now handle.old.file.loader.file.image) out.new }
    ensures same { result ≢ OK → out.new ≡ out.old }
    ensures file { handle.old.opened ≡ 1 → (handle.new.opened ≡ 1)
        × (handle.new.file ≡ handle.old.file) }
    ensures refused { handle.old.opened ≢ 1 → (result ≡ refused_number handle.old.opened)
        × (handle.new ≡ handle.old) }
{
    let opened = handle.state();
    if opened != 1 {
        return refused_number(opened);
    }
    match handle.file_mut().loader.get_section_range(name) {
        Some(range) => {
            out.begin = range.begin;
            out.end = range.end;
            OK
        }
        None => NOT_FOUND,
    }
}
