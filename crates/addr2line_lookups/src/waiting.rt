//! The load that a lookup waits for: the first of those of its address.

ghost use Rattle.std.specs.Prelude.{◌≡◌, Ok, map, option_map};
ghost use Rattle.addr2line_unit.specs.Calls.{ReturnsAsOrNoMemory};
ghost use Rattle.addr2line_unit.specs.NumberedRanges.{covering_ranges};
ghost use Rattle.addr2line_unit.specs.ResolvedUnits.{value_of_unit};
ghost use Rattle.addr2line_lookups.specs.PassedUnits.{PassLoads};
ghost use Rattle.addr2line_lookups.specs.Preloads.{load_at, loads_at, first_number};

use crate::covering::next_covering;
use crate::preload::load_at;
use addr2line_unit::{Error, Reader, ResUnit, SplitDwarfLoad, UnitRanges};

// The number of the first unit with a range over an address whose load needs an answer. No load of
// those before an index does.
pub(crate) fn first_waiting<R: Reader>(
    units: &[ResUnit<R>],
    ranges: &UnitRanges,
    probe: u64,
    from: usize,
) -> Option<usize>
    requires { PassLoads (map value_of_unit units.now) probe from ranges.now }
    ensures { result ≡ first_number
        (loads_at (map value_of_unit units.now) (covering_ranges probe ranges.now)) }
{
    let mut place = from;
    while let Some((unit, next)) = next_covering(ranges, place, probe) {
        if load_at(units, unit).is_some() {
            return Some(unit);
        }
        place = next;
    }
    None
}

// A copy of the load of the unit of a number, if it needs an answer. The only error is out of
// memory.
pub(crate) fn copy_load_at<R: Reader>(
    units: &[ResUnit<R>],
    number: usize,
) -> Result<Option<SplitDwarfLoad<R>>, Error>
    ensures { ReturnsAsOrNoMemory (option_map (λ l. l)) result
        (Ok (option_map (λ p. p.load) (load_at (map value_of_unit units.now) number))) }
{
    match load_at(units, number) {
        Some(load) => Ok(Some(load.copy()?)),
        None => Ok(None),
    }
}
