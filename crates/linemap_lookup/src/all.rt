//! All addresses of a file at which a place begins.

ghost use Rattle.std.specs.Prelude.{◌≡◌, ◌-◌, ◌^◌, IfErr, IfOk, Ok, OnErr, OnOk, codes, false, option_map, true};
ghost use Rattle.addr2line_context.specs.Calls.{ReturnsAsOrNoMemory};
ghost use Rattle.addr2line_context.specs.Contexts.{stretches};
ghost use Rattle.gimli_core_base.specs.ErrorText.{error_text};
ghost use Rattle.linemap_output.specs.ErrorLine.{error_line};
ghost use Rattle.linemap_lookup.specs.Programs.{LacksMemory, RefusesByOrLacksMemory, RefusesOrLacksMemory, all_if_asked, all_memory_line, begins_of, is_above};

use addr2line_context::{Error, RangeWalk};
use addr2line_loader::Loader;
use addr2line_loader::stretches::next_stretch;
use linemap_output::{Ended, Options, fail};
use std::alloc::Global;
use std::io::Write;

// Whether an address is above the last one, if there is one.
fn is_above(last: Option<u64>, address: u64) -> bool
    ensures { result ≡ is_above last address }
{
    match last {
        Some(last) => last < address,
        None => true,
    }
}

// All addresses at which stretches begin, those that are above all before them. The lines of all
// units are read, unless they are kept, and kept.
fn all_addresses(alloc: Global, loader: &mut Loader) -> Result<Vec<u64>, Error>
    ensures addresses { ReturnsAsOrNoMemory (λ addresses. addresses.items) result
        (begins_of (stretches loader.old.file.context.context 0 (2 ^ 64 - 1))) }
    ensures same { loader.new.file ≡ loader.old.file }
{
    let mut walk = RangeWalk::new(0, u64::MAX);
    let mut addresses = Vec::new(alloc);
    let mut last = None;
    'stretch: while let Some(stretch) = next_stretch(loader, &mut walk)? {
        let address = stretch.address;
        if is_above(last, address) {
            addresses.push(address)?;
            last = Some(address);
        }
    }
    Ok(addresses)
}

// Reports that memory is refused for all addresses.
fn all_out_of_memory<E: Write>(err: &mut E) -> Ended
    ensures { LacksMemory all_memory_line (E.contents err.old) (E.contents err.new) result }
{
    fail(err, "failed to find all addresses: ", "E1").with_memory_refused()
}

// Reports that not all addresses are found: why, or that memory is refused for saying so.
fn all_refused<E: Write>(alloc: Global, error: Error, err: &mut E) -> Ended
    ensures { RefusesOrLacksMemory
        (error_line (codes "failed to find all addresses: ") (error_text error)) all_memory_line
        (E.contents err.old) (E.contents err.new) result }
{
    match format!(in alloc; "{error}") {
        Ok(text) => fail(err, "failed to find all addresses: ", &text),
        Err(_) => all_out_of_memory(err),
    }
}

// All addresses, if they are asked for; else nothing of the loader changes.
pub(crate) fn find_all<E: Write>(
    alloc: Global,
    loader: &mut Loader,
    options: &Options,
    err: &mut E,
) -> Result<Option<Vec<u64>>, Ended>
    ensures all { IfOk result (λ all.
        all_if_asked options.now.all loader.old.file.context.context
        ≡ Ok (option_map (λ addresses. addresses.items) all)) }
    ensures same { OnOk result (err.new ≡ err.old) }
    ensures loader { (loader.new.file ≡ loader.old.file)
        × (options.now.all ≡ false → loader.new ≡ loader.old) }
    ensures asked { OnErr result (options.now.all ≡ true) }
    ensures refusal { IfErr result (RefusesByOrLacksMemory
        (all_if_asked options.now.all loader.old.file.context.context) all_memory_line
        (E.contents err.old) (E.contents err.new)) }
{
    if !options.all {
        return Ok(None);
    }
    match all_addresses(alloc, loader) {
        Ok(addresses) => Ok(Some(addresses)),
        Err(Error::Memory) => Err(all_out_of_memory(err)),
        Err(error) => Err(all_refused(alloc, error, err)),
    }
}
