//! A function with the calls that are inlined into it.

ghost use Rattle.std.specs.Prelude.{◌≡◌, ◌≤◌, map, length, slice_get, vec_capacity, Some, option_map, Ok, IsOk, IfOk};
ghost use Rattle.gimli_units_entries.specs.Calls.{ReturnsAsOrNoMemory, ReturnsOrNoMemory};
ghost use Rattle.gimli_units_entries.specs.EntryViews.{entry_of};
ghost use Rattle.addr2line_ranges.specs.InlinedCalls.{calls_of_function, function_calls, chain_at};
ghost use Rattle.addr2line_ranges.specs.Searches.{AtMostProbes};
ghost use Rattle.addr2line_functions.specs.CountedFunctions.{chain_probes};

use crate::call::Call;
use crate::naming::{Names, name_by};
use crate::numbered_range::{NumberedRange, RangedItems, number_at};
use crate::walk::calls_below;
use addr2line_ranges::{Probes, RangeIndex, UnitRef};
use gimli_units_entries::{
    DebuggingInformationEntry, EntriesRaw, Error, Reader, ReaderOffset, UnitOffset,
};
use std::alloc::Global;
use std::marker::Model;

/// A function: its name, and the calls that are inlined into it, in order of appearance, whatever
/// each is in. A bisection of the calls' ranges finds the call of a depth that holds an address.
pub struct FunctionCalls<R: Reader> {
    name: Option<R>,
    // By their numbers, without their depths and ranges.
    calls: Vec<Call<R>>,
    ranges: RangeIndex<NumberedRange>,
}

impl<R: Reader> Drop for FunctionCalls<R> {
    fn drop(self) {
        let FunctionCalls {
            name: _,
            calls: _,
            ranges: _,
        } = self;
    }
}

impl<R: Reader> Model for FunctionCalls<R> {
    ghost use Rattle.std.specs.Prelude.{◌≡◌, option_map};
    ghost use Rattle.addr2line_ranges.specs.InlinedCalls.{ranges_of_call};
    ghost use Rattle.addr2line_functions.specs.CountedFunctions.{CountedCalls, depth_of_call};
    ghost use Rattle.addr2line_functions.specs.RangesByNumber.{numbered_ranges};

    ghost Value = { CountedCalls };

    ghost view = { λ f. record {
      function = record { name = option_map R.view f.name; calls = f.calls.items };
      counter = f.ranges.counter;
    } };

    ghost invariant = { λ f.
        f.ranges.entries ≡ numbered_ranges depth_of_call ranges_of_call f.calls.items };
}

impl<R: Reader> FunctionCalls<R> {
    // With the calls' ranges in order.
    fn new(name: Option<R>, calls: RangedItems<Call<R>>, probes: &Probes) -> Result<Self, Error>
        ensures { ReturnsOrNoMemory result (Ok (record {
          function = record { name = option_map R.view name; calls = calls };
          counter = probes.now.name;
        })) }
    {
        let RangedItems { items, ranges } = calls;
        Ok(FunctionCalls {
            name,
            calls: items,
            ranges: RangeIndex::new(ranges, probes)?,
        })
    }

    /// The name of the function.
    pub fn name(&self) -> Option<&R>
        ensures { option_map (λ r. R.view r.now) result ≡ self.now.function.name }
    {
        self.name.as_ref()
    }

    /// The calls.
    pub fn calls(&self) -> &[Call<R>]
        ensures { result.now ≡ self.now.function.calls }
    {
        self.calls.as_slice()
    }

    /// Fills a buffer with the numbers of the calls that an address is in, the outermost first:
    /// that of depth 0 that holds it, that of depth 1, and so on, as long as there is one, whatever
    /// each is in. A call's number is its index among the calls. Where several of a depth hold the
    /// address, it is that whose range begins last, of these that whose range ends last, of these
    /// the last. One bisection of the ranges finds each. What was in the buffer is dropped; the
    /// only error is out of memory, where the buffer has to grow.
    pub fn find_chain(
        &self,
        probe: u64,
        probes: &mut Probes,
        numbers: &mut Vec<usize>,
    ) -> Result<(), Error>
        requires counter { probes.old.name ≡ self.now.counter }
        ensures chain { ReturnsAsOrNoMemory
            (λ done. map (slice_get self.now.function.calls) numbers.new.items) result
            (Ok (map Some (chain_at self.now.function.calls probe))) }
        ensures cost { AtMostProbes (chain_probes self.now.function.calls probe)
            probes.old probes.new }
        ensures free { length (chain_at self.now.function.calls probe) ≤ vec_capacity numbers.old
            → IsOk result }
    {
        numbers.clear();
        while let Some(number) = number_at(&self.ranges, numbers.len(), probe, probes) {
            numbers.push(number)?;
        }
        Ok(())
    }
}

// A function with its calls, where a walk is after the function's entry.
fn function_calls<R: Reader, N: Names<R>>(
    alloc: Global,
    unit: &UnitRef<'_, R>,
    names: &N,
    entry: &DebuggingInformationEntry<R>,
    entries: EntriesRaw<'_, R>,
    probes: &Probes,
) -> Result<FunctionCalls<R>, Error>
    ensures function { ReturnsAsOrNoMemory (λ f. f.function) result
        (function_calls unit.now (N.naming names.now)
        (entry_of R.view R.Offset.count entry.now) entries.entry) }
    ensures counter { IfOk result (λ f. f.counter ≡ probes.now.name) }
{
    // (shows the prover what a unit's model says of its file)
    let _ = &unit.dwarf;
    let name = name_by(names, entry.attrs())?;
    let calls = calls_below(alloc, unit, names, entries)?;
    FunctionCalls::new(name, calls, probes)
}

/// The function whose entry is at an offset of a unit, with the calls that are inlined into it. Of
/// the entries below its own those of tag `DW_TAG_inlined_subroutine` are read, and all others are
/// skipped, as are nested functions with all that is in them. The first entry that can't be read or
/// skipped, and the first name or range of a call that can't be read, is the error; `UnexpectedEof`
/// where the unit ends before the last of its children. This counter counts looks at the calls'
/// ranges. It takes time by n log n in them, after reading.
pub fn calls_of_function<R: Reader, N: Names<R>>(
    alloc: Global,
    unit: &UnitRef<'_, R>,
    names: &N,
    offset: UnitOffset<R::Offset>,
    probes: &Probes,
) -> Result<FunctionCalls<R>, Error>
    ensures function { ReturnsAsOrNoMemory (λ f. f.function) result
        (calls_of_function unit.now (N.naming names.now)
        (R.Offset.count offset.0)) }
    ensures counter { IfOk result (λ f. f.counter ≡ probes.now.name) }
{
    let mut entries = unit.entries_raw(Some(offset))?;
    let mut entry = DebuggingInformationEntry::null(alloc);
    if !entries.read_entry(&mut entry)? {
        return Err(Error::NoEntryAtGivenOffset(offset.0.into_u64()));
    }
    function_calls(alloc, unit, names, &entry, entries, probes)
}
