//! With `gimli_units` alone: the units of a section.

ghost use Rattle.std.specs.Prelude.{Ok};
ghost use Rattle.gimli_units.specs.Calls.{ReturnsAsOrNoMemory};
ghost use Rattle.gimli_units.specs.Repetition.{fault_of};
ghost use Rattle.gimli_units.specs.Results.{unless};
ghost use Rattle.gimli_units.specs.Tiling.{whole_section};
ghost use Rattle.gimli_units.specs.UnitHeaders.{units_to_come};

use gimli_units::{DebugInfo, Error, Reader, UnitHeader};
use std::alloc::Global;

/// The headers of the units in `.debug_info`, in order, or the first fault among them.
pub fn unit_headers<R: Reader>(
    alloc: Global,
    section: &DebugInfo<R>,
) -> Result<Vec<UnitHeader<R>>, Error>
    ensures { let all = units_to_come R.Offset.limit (whole_section section.now) in
        ReturnsAsOrNoMemory (λ headers. headers.items) result
        (unless (fault_of all) (Ok all.items)) }
{
    let mut headers = Vec::new(alloc);
    let mut units = section.units()?;
    while let Some(header) = units.next()? {
        headers.push(header)?;
    }
    Ok(headers)
}
