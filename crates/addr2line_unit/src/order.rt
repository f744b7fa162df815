//! The ranges of a context's units, in the order in which lookups ask the units.

ghost use Rattle.std.specs.Prelude.{◌≡◌, IfOk, IfErr, map};
ghost use Rattle.addr2line_functions.specs.Error.TheVariants.{Memory};
ghost use Rattle.addr2line_unit.specs.ContextUnits.{ordered_ranges};
ghost use Rattle.addr2line_unit.specs.ResolvedUnits.{plain_unit};

use crate::unit::ResUnit;
use addr2line_functions::{Error, Reader, UnitRanges, UnitRangesBuilder};
use std::alloc::Global;

/// The ranges of units, in the order in which lookups ask them. The only refusal is out of memory.
pub fn ordered_ranges<R: Reader>(alloc: Global, units: &[ResUnit<R>]) -> Result<UnitRanges, Error>
    ensures ok { IfOk result (λ ranges. ranges ≡ ordered_ranges (map plain_unit units.now)) }
    ensures refusal { IfErr result (λ e. e ≡ Memory) }
{
    let mut builder = UnitRangesBuilder::new(alloc);
    for (number, unit) in units.iter().enumerate() {
        builder.add_unit(number, unit.ranges())?;
    }
    builder.finish()
}
