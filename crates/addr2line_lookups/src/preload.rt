//! The loads that lookups of an address may wait for.

ghost use Rattle.std.specs.Prelude.{◌≡◌, ◌≢◌, [], None, Ok, Err, OnOk, map, option_map};
ghost use Rattle.addr2line_unit.specs.Calls.{ReturnsAsOrNoMemory};
ghost use Rattle.addr2line_unit.specs.Error.TheVariants.{Memory};
ghost use Rattle.addr2line_unit.specs.Lookups.{one_each};
ghost use Rattle.addr2line_unit.specs.NumberedRanges.{covering_ranges};
ghost use Rattle.addr2line_unit.specs.ResolvedUnits.{value_of_unit};
ghost use Rattle.addr2line_lookups.specs.Preloads.{numbered_load, load_at, loads_at, load_of_item, AreNumbersOf, with_load, with_load_if_any};

use crate::settle::unit_at;
use crate::token::UnitToken;
use addr2line_unit::{Error, Reader, ResUnit, SplitDwarfLoad, UnitRanges};
use std::alloc::Global;
use std::collections::BTreeSet;

// The load of the unit of a number, if it needs an answer.
pub(crate) fn load_at<R: Reader>(units: &[ResUnit<R>], number: usize) -> Option<&SplitDwarfLoad<R>>
    ensures { option_map (λ l. numbered_load number l.now) result
        ≡ load_at (map value_of_unit units.now) number }
{
    match unit_at(units, number) {
        Some(unit) => unit.pending_load(),
        None => None,
    }
}

// Lists a load, unless one of its unit is listed. The numbers are those of the units that are.
fn add_load<R: Reader>(
    loads: &mut Vec<(SplitDwarfLoad<R>, UnitToken)>,
    numbers: &mut BTreeSet<usize>,
    load: &SplitDwarfLoad<R>,
    number: usize,
) -> Result<(), Error>
    requires { AreNumbersOf (map load_of_item loads.old.items) numbers.old }
    ensures loads { ReturnsAsOrNoMemory (λ done. map load_of_item loads.new.items) result
        (Ok (with_load (map load_of_item loads.old.items) (numbered_load number load.now))) }
    ensures numbers { OnOk result
        (AreNumbersOf (map load_of_item loads.new.items) numbers.new) }
{
    if !numbers.insert(number)? {
        return Ok(());
    }
    let load = load.copy()?;
    loads.push((load, UnitToken::new(number)))?;
    Ok(())
}

// Lists the load of the unit of a number, unless it is listed or needs no answer. It takes no
// memory for one that needs none.
fn add_load_at<R: Reader>(
    loads: &mut Vec<(SplitDwarfLoad<R>, UnitToken)>,
    numbers: &mut BTreeSet<usize>,
    units: &[ResUnit<R>],
    number: usize,
) -> Result<(), Error>
    requires { AreNumbersOf (map load_of_item loads.old.items) numbers.old }
    ensures loads { ReturnsAsOrNoMemory (λ done. map load_of_item loads.new.items) result
        (Ok (with_load_if_any (map load_of_item loads.old.items)
        (load_at (map value_of_unit units.now) number))) }
    ensures numbers { OnOk result
        (AreNumbersOf (map load_of_item loads.new.items) numbers.new) }
    ensures free { load_at (map value_of_unit units.now) number ≡ None → result ≢ Err Memory }
{
    match load_at(units, number) {
        Some(load) => add_load(loads, numbers, load, number),
        None => Ok(()),
    }
}

// The loads that need an answer, of the units with a range over an address, in their order, that of
// each unit once. It takes memory only where there is one.
pub(crate) fn pending_loads<R: Reader>(
    alloc: Global,
    units: &[ResUnit<R>],
    ranges: &UnitRanges,
    probe: u64,
) -> Result<Vec<(SplitDwarfLoad<R>, UnitToken)>, Error>
    ensures loads { ReturnsAsOrNoMemory (λ loads. map load_of_item loads.items) result
        (Ok (one_each (loads_at (map value_of_unit units.now)
        (covering_ranges probe ranges.now)))) }
    ensures free { loads_at (map value_of_unit units.now) (covering_ranges probe ranges.now) ≡ []
        → result ≢ Err Memory }
{
    let mut loads = Vec::new(alloc);
    let mut numbers = BTreeSet::new(alloc);
    let mut covering = ranges.covering(probe);
    while let Some(range) = covering.next() {
        add_load_at(&mut loads, &mut numbers, units, range.unit)?;
    }
    Ok(loads)
}
