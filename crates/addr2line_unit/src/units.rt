//! The units of a context, read one after the other.

ghost use Rattle.std.specs.Prelude.{IfOk, map};
ghost use Rattle.addr2line_functions.specs.Calls.{ReturnsAsOrNoMemory};
ghost use Rattle.addr2line_root.specs.ArangeIndexes.{IsIndexOf};
ghost use Rattle.addr2line_unit.specs.ResolvedUnits.{value_of_unit, new_units, KeepNoFunctions, RunForRangesAlone};

use crate::headers::push_context_unit;
use crate::unit::ResUnit;
use addr2line_functions::{DebuggingInformationEntry, Dwarf, Error, Reader};
use addr2line_root::{ArangeIndex, LastRanges};
use std::alloc::Global;
use std::rc::Rc;

/// A context's units of a file. Refused by the first refusal of such a unit's ranges, or by a
/// header that can't be read, which ends the units. The lines of a unit are read only where its
/// ranges are those of its lines, and no functions are. A range list that units in a row name is
/// read once, and a line number program that they take their ranges from is run once; units with
/// one directory and name share its lines, too.
pub fn units_of_file<R: Reader>(
    alloc: Global,
    sections: &Rc<Dwarf<R>>,
    aranges: &ArangeIndex,
) -> Result<Vec<ResUnit<R>>, Error>
    requires { IsIndexOf sections.now.value.file aranges.now }
    ensures units { ReturnsAsOrNoMemory (λ units. map value_of_unit units.items) result
        (new_units sections.now.value.file) }
    ensures lines { IfOk result (λ units. RunForRangesAlone units.items) }
    ensures functions { IfOk result (λ units. KeepNoFunctions units.items) }
{
    let mut units = Vec::new(alloc);
    let mut entry = DebuggingInformationEntry::null(alloc);
    let mut last = LastRanges::new();
    let mut headers = sections.as_ref().units()?;
    while let Some(header) = headers.next()? {
        push_context_unit(
            alloc, sections, aranges, &mut last, header, &mut entry, &mut units,
        )?;
    }
    Ok(units)
}
