//! The units with a range over an address, from an index among all ranges on.

ghost use Rattle.std.specs.Prelude.{◌≡◌, [], drop, MatchOption};
ghost use Rattle.addr2line_unit.specs.NumberedRanges.{covering_ranges};
ghost use Rattle.addr2line_lookups.specs.PassedUnits.{ComesNext};

use addr2line_unit::{RangePlace, UnitRanges};

/// The number of the unit of the first range over an address from an index on, and the index after
/// it. It is a bisection, and then a walk over ranges that end above the address.
pub fn next_covering(ranges: &UnitRanges, from: usize, probe: u64) -> Option<(usize, usize)>
    ensures { MatchOption result (covering_ranges probe (drop from ranges.now) ≡ [])
        (λ f. ComesNext probe from ranges.now f.0 f.1) }
{
    let (range, next) = ranges.next_covering(RangePlace::at(from), probe)?;
    Some((range.unit, next.index()))
}
