//! With `gimli_dwarf`: the name of a unit.

ghost use Rattle.std.specs.Prelude.{option_map};
ghost use Rattle.gimli_dwarf.specs.Calls.{ReturnsAsOrNoMemory};
ghost use Rattle.examples.specs.UnitNames.{name_of_unit};

use gimli_dwarf::{Dwarf, Error, Reader, Unit, UnitHeader};
use std::alloc::Global;

/// The name of a unit: none where its root has none, or one that can't be read.
pub fn name_of_unit<R: Reader>(
    alloc: Global,
    sections: &Dwarf<R>,
    header: UnitHeader<R>,
) -> Result<Option<R>, Error>
    ensures { ReturnsAsOrNoMemory (option_map R.view) result
        (name_of_unit sections.now.file header) }
{
    let Unit { name, .. } = sections.unit(alloc, header)?;
    Ok(name)
}
