//! Searches for an address, settled by the units' numbers.

ghost use Rattle.std.specs.Prelude.{◌≡◌, ◌≢◌, None, Err, map, is_some};
ghost use Rattle.addr2line_unit.specs.Error.TheVariants.{Memory};
ghost use Rattle.addr2line_unit.specs.ResolvedUnits.{value_of_unit};
ghost use Rattle.addr2line_lookups.specs.KeptUnits.{KeepsFunctionsAt};
ghost use Rattle.addr2line_lookups.specs.KeptCalls.{known_among, HoldCalls};
ghost use Rattle.addr2line_lookups.specs.Preloads.{load_at};
ghost use Rattle.addr2line_lookups.specs.UnitLookups.{ask_at, Settles, unit_at_number};
ghost use Rattle.addr2line_lookups.specs.PassedUnits.{Pass, PassedAreKept};
ghost use Rattle.addr2line_lookups.specs.AddressSearches.{SearchesUnit, SettlesAmong, found_nothing};

use crate::address_search::AddressSearch;
use crate::covering::next_covering;
use crate::frame_place::find_frames_at;
use crate::preload::load_at;
use crate::settle::unit_at;
use crate::settled::Settled;
use addr2line_unit::{Error, Reader, ResUnit, Unit, UnitRanges, UnitRef};
use std::alloc::Global;

// Whether the load of the unit of a number needs an answer.
fn waits_at<R: Reader>(units: &[ResUnit<R>], number: usize) -> bool
    ensures { result ≡ is_some (load_at (map value_of_unit units.now) number) }
{
    load_at(units, number).is_some()
}

// What a search finds in the unit of a number, unless it waits for its load.
fn settle_at<R: Reader, S: AddressSearch>(
    alloc: Global,
    units: &mut Vec<ResUnit<R>>,
    supplement_units: &[Unit<R>],
    number: usize,
    probe: u64,
) -> Result<Settled<S::Found>, Error>
    requires { HoldCalls (known_among units.old.items supplement_units.now) units.old.items }
    ensures change { SearchesUnit (known_among units.old.items supplement_units.now) probe number
        units.old.items units.new.items }
    ensures found { Settles (S.Finds (map value_of_unit units.old.items) units.new.items) S.Refuses
        S.nothing (ask_at (S.ask (known_among units.old.items supplement_units.now) probe)
        S.nothing (map value_of_unit units.old.items) number) result }
    ensures kept { result ≢ Err Memory → load_at (map value_of_unit units.old.items) number ≡ None
        → KeepsFunctionsAt units.new.items number }
{
    if waits_at(units, number) {
        return Ok(Settled::Waits);
    }
    let frames = find_frames_at(alloc, units, supplement_units, number, probe);
    S::settle(number, frames)
}

// Whether nothing was found in a unit, so that the search goes on.
fn found_nothing<P>(settled: &Result<Settled<P>, Error>) -> bool
    ensures { result ≡ found_nothing settled.now }
{
    matches!(settled, Ok(Settled::Nothing))
}

// What a search finds: of the units with a range over an address, in their order, in the first that
// has something, unless one is refused or waits for its load before. What is read is kept. Units
// before an index are known to have nothing, and their functions are kept; the search begins there,
// and moves it on.
pub(crate) fn settle<R: Reader, S: AddressSearch>(
    alloc: Global,
    units: &mut Vec<ResUnit<R>>,
    ranges: &UnitRanges,
    supplement_units: &[Unit<R>],
    probe: u64,
    from: &mut usize,
) -> Result<Settled<S::Found>, Error>
    requires calls { HoldCalls (known_among units.old.items supplement_units.now) units.old.items }
    requires passed { Pass (S.ask (known_among units.old.items supplement_units.now) probe)
        S.nothing (map value_of_unit units.old.items) probe from.old ranges.now }
    requires kept { PassedAreKept units.old.items probe from.old ranges.now }
    ensures { SettlesAmong S.is_something S.nothing
        (S.ask (known_among units.old.items supplement_units.now) probe) S.Finds S.Refuses
        (known_among units.old.items supplement_units.now) probe ranges.now units.old.items result
        units.new.items from.new }
{
    while let Some((unit, next)) = next_covering(ranges, *from, probe) {
        let settled = settle_at::<R, S>(alloc, units, supplement_units, unit, probe);
        if !found_nothing(&settled) {
            return settled;
        }
        *from = next;
    }
    Ok(Settled::Nothing)
}

// The unit that has the functions of the unit of a number, where nothing refuses it, and the
// functions are kept.
pub(crate) fn functions_unit_at<R: Reader>(
    units: &[ResUnit<R>],
    number: usize,
) -> Option<UnitRef<'_, R>>
    ensures { KeepsFunctionsAt units.now number
        → result ≡ unit_at_number (map value_of_unit units.now) number }
{
    match unit_at(units, number) {
        Some(unit) => match unit.functions_unit() {
            Ok(holder) => Some(holder.unit),
            Err(_) => None,
        },
        None => None,
    }
}
