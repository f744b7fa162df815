//! The units of a file's supplement (DWARF 5, 7.3.6), read one after the other.

ghost use Rattle.std.specs.Prelude.{Ok};
ghost use Rattle.addr2line_functions.specs.Calls.{ReturnsAsOrNoMemory, ReturnsOrNoMemory};
ghost use Rattle.addr2line_functions.specs.DwarfFiles.{supplement};
ghost use Rattle.addr2line_functions.specs.UnitFacts.{unit_facts};
ghost use Rattle.addr2line_functions.specs.Contexts.{readable_facts, units_of_supplement};
ghost use Rattle.addr2line_unit.specs.ContextUnits.{readable_units};

use addr2line_functions::{Dwarf, Error, Reader, Unit, UnitHeader, push_if_any};
use std::alloc::Global;

// The unit of a header, if it isn't refused. The only refusal is out of memory.
fn readable_unit<R: Reader>(
    alloc: Global,
    dwarf: &Dwarf<R>,
    header: UnitHeader<R>,
) -> Result<Option<Unit<R>>, Error>
    ensures { ReturnsOrNoMemory result
        (Ok (readable_facts (unit_facts dwarf.now.file header))) }
{
    match dwarf.unit(alloc, header) {
        Ok(unit) => Ok(Some(unit)),
        Err(Error::Memory) => Err(Error::Memory),
        Err(_) => Ok(None),
    }
}

// The units of a file that can be read. Refused by a header that can't be read.
fn readable_units<R: Reader>(alloc: Global, dwarf: &Dwarf<R>) -> Result<Vec<Unit<R>>, Error>
    ensures { ReturnsAsOrNoMemory (λ units. units.items) result
        (readable_units dwarf.now.file) }
{
    let mut units = Vec::new(alloc);
    let mut headers = dwarf.units()?;
    while let Some(header) = headers.next()? {
        let unit = readable_unit(alloc, dwarf, header)?;
        push_if_any(&mut units, unit)?;
    }
    Ok(units)
}

/// The units of a file's supplement that can be read, of types too; none where it has no
/// supplement.
pub fn units_of_supplement<R: Reader>(
    alloc: Global,
    dwarf: &Dwarf<R>,
) -> Result<Vec<Unit<R>>, Error>
    ensures { ReturnsAsOrNoMemory (λ units. units.items) result
        (units_of_supplement (supplement dwarf.now.file)) }
{
    match dwarf.sup() {
        Some(sup) => readable_units(alloc, sup),
        None => Ok(Vec::new(alloc)),
    }
}
