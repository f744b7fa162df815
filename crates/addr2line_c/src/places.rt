//! The places of addresses, and the stretches between two of them.

ghost use Rattle.std.specs.Prelude.{◌≡◌, ◌≢◌, ◌<◌, ◌≤◌, ◌⊎◌, ℕ, ◌^◌, ◌-◌, length, map, slice_get, option_map, min, Ok, Err};
ghost use Rattle.std.specs.Borrow.{sem};
ghost use Rattle.addr2line_context.specs.BorrowedLocations.{location_value};
ghost use Rattle.addr2line_context.specs.Calls.{ReturnsAsOrNoMemory};
ghost use Rattle.addr2line_context.specs.ContextCosts.{AsksForPlace};
ghost use Rattle.addr2line_context.specs.Contexts.{location, stretches};
ghost use Rattle.addr2line_context.specs.Error.TheVariants.{Memory};
ghost use Rattle.addr2line_context.specs.KeptUnits.{KeepsAsked};
ghost use Rattle.addr2line_context.specs.OwnedPlaces.{stretch_of};
ghost use Rattle.addr2line_context.specs.RangeWalks.{stretches_left};
ghost use Rattle.addr2line_loader.specs.ResolvedFiles.{answered_context};
ghost use Rattle.addr2line_c.specs.Answers.{GivesStretches, LeavesNext, LeavesPlace, LendsNext, WritesPlace};
ghost use Rattle.addr2line_c.specs.COutputs.{range_out, range_written};
ghost use Rattle.addr2line_c.specs.Lending.{LeavesHandle};
ghost use Rattle.addr2line_c.specs.Numbers.{IsOrNoMemory, error_number, found_number, refused_number};

use crate::c_types::{A2lLocation, A2lRange};
use crate::handle::Handle;
use crate::numbers::{NO_ROOM, NOT_FOUND, OK, PAST_END, error_number, refused_number};
use addr2line_context::{Error, Location, OwnedStretch, RangeWalk};
use std::alloc::Global;

impl Handle {
    // The place of an address in the file of an open handle, which lends its text.
    fn find_place(&mut self, address: u64) -> Result<Option<Location<'_>>, Error>
        requires { self.old.opened ≡ 1 }
        ensures place { ReturnsAsOrNoMemory (option_map location_value) result
            (location self.old.file.loader.file.context.context address) }
        ensures free { KeepsAsked
            (AsksForPlace (answered_context self.old.file.loader.file) address)
            self.old.file.loader.units → result ≢ Err Memory }
        ensures* after { sem 𝓛 (LeavesHandle self.entry
            (LeavesPlace address result self.old.file)) }
    {
        self.file_mut().loader.find_location(address)
    }

    // The next stretches of the walk of an open handle, no more than asked for, which it lends.
    fn next_ranges(&mut self, alloc: Global, count: usize) -> Result<&[OwnedStretch], Error>
        requires { self.old.opened ≡ 1 }
        ensures stretches { LendsNext count self.old.file result }
        ensures* after { sem 𝓛 (LeavesHandle self.entry (LeavesNext result self.old.file)) }
    {
        let file = self.file_mut();
        file.next_stretches(alloc, count)?;
        Ok(file.stretches.as_slice())
    }
}

/// The place of an address. Its text is lent until the handle is used again.
#[unsafe(no_mangle)]
pub extern "C" fn a2l_find_location<'a>(
    handle: &'a mut Handle,
    address: u64,
    out: &mut A2lLocation<'a>,
) -> i32
    ensures number { handle.old.opened ≡ 1 → IsOrNoMemory result
        (found_number (location handle.old.file.loader.file.context.context address)) }
    ensures free { handle.old.opened ≡ 1
        → KeepsAsked (AsksForPlace (answered_context handle.old.file.loader.file) address)
        handle.old.file.loader.units → result ≢ error_number Memory }
    ensures place { result ≡ OK
        → WritesPlace (location handle.old.file.loader.file.context.context address) out.new }
    ensures same { result ≢ OK → out.new ≡ out.old }
    ensures refused { handle.old.opened ≢ 1 → result ≡ refused_number handle.old.opened }
{
    let opened = handle.state();
    if opened != 1 {
        return refused_number(opened);
    }
    match handle.find_place(address) {
        Ok(Some(place)) => {
            *out = A2lLocation::of(place);
            OK
        }
        Ok(None) => NOT_FOUND,
        Err(error) => error_number(error),
    }
}

/// Begins a walk over the stretches between two ends. Nothing is read, and no memory is taken.
#[unsafe(no_mangle)]
pub extern "C" fn a2l_find_ranges(handle: &mut Handle, low: u64, high: u64) -> i32
    ensures number { handle.old.opened ≡ 1 → result ≡ OK }
    ensures walk { handle.old.opened ≡ 1 → (handle.new.opened ≡ 1)
        × (stretches_left handle.old.file.loader.file.context.context.units handle.new.file.walk
        ≡ stretches handle.old.file.loader.file.context.context low high)
        × (handle.new.file ≡ record handle.old.file { walk = handle.new.file.walk }) }
    ensures same { result ≢ OK → handle.new ≡ handle.old }
    ensures refused { handle.old.opened ≢ 1 → result ≡ refused_number handle.old.opened }
{
    let opened = handle.state();
    if opened != 1 {
        return refused_number(opened);
    }
    handle.file_mut().walk = RangeWalk::new(low, high);
    OK
}

// Writes stretches that are kept, for which there is room.
fn write_ranges<'a>(stretches: &'a [OwnedStretch], out: &mut [A2lRange<'a>])
    requires { length stretches.now ≤ length out.old }
    ensures length { length out.new ≡ length out.old }
    ensures written { (i : ℕ) → i < length stretches.now
        → option_map range_written (slice_get out.new i)
        ≡ option_map (λ s. range_out (stretch_of s)) (slice_get stretches.now i) }
    ensures rest { (i : ℕ) → length stretches.now ≤ i → slice_get out.new i ≡ slice_get out.old i }
{
    'stretch: for i in 0..stretches.len() {
        out[i] = A2lRange::of(&stretches[i]);
    }
}

/// The next stretches of the walk, as many as there is room for. Their texts are lent until the
/// handle is used again.
#[unsafe(no_mangle)]
pub extern "C" fn a2l_next_ranges<'a>(
    alloc: Global,
    handle: &'a mut Handle,
    out: &mut [A2lRange<'a>],
    count: &mut usize,
) -> i32
    ensures room { handle.old.opened ≡ 1 → length out.old ≡ 0 → result ≡ NO_ROOM }
    ensures ranges { handle.old.opened ≡ 1 → 0 < length out.old
        → GivesStretches handle.old.file result count.new out.new }
    ensures none { result ≢ OK → (count.new ≡ 0) × (out.new ≡ out.old) }
    ensures refused { handle.old.opened ≢ 1 → result ≡ refused_number handle.old.opened }
{
    *count = 0;
    let opened = handle.state();
    if opened != 1 {
        return refused_number(opened);
    }
    if out.is_empty() {
        return NO_ROOM;
    }
    let stretches = match handle.next_ranges(alloc, out.len()) {
        Ok(stretches) => stretches,
        Err(error) => return error_number(error),
    };
    if stretches.is_empty() {
        return PAST_END;
    }
    write_ranges(stretches, out);
    *count = stretches.len();
    OK
}
