//! The units of a context, by their headers.

ghost use Rattle.std.specs.Prelude.{◌≡◌, Ok, IfOk, IfSome, OnOk, map, option_map};
ghost use Rattle.addr2line_functions.specs.Calls.{ReturnsAsOrNoMemory, ReturnsOrNoMemory};
ghost use Rattle.addr2line_functions.specs.EntryViews.{entry_of};
ghost use Rattle.addr2line_functions.specs.UnitFacts.{in_file};
ghost use Rattle.addr2line_functions.specs.Contexts.{is_of_types, facts_of_code_unit};
ghost use Rattle.addr2line_root.specs.ArangeIndexes.{IsIndexOf};
ghost use Rattle.addr2line_root.specs.LastPrograms.{HasHeaderInFile};
ghost use Rattle.addr2line_root.specs.LastRanges.{AreLastOf};
ghost use Rattle.addr2line_unit.specs.ResolvedUnits.{HasRoot, value_of_unit, with_new_unit, with_unit_of_header, KeepNoFunctions, RunForRangesAlone};

use crate::unit::ResUnit;
use addr2line_functions::{
    DebuggingInformationEntry, Dwarf, Error, Reader, UnitHeader, UnitType, share,
};
use addr2line_root::{ArangeIndex, LastRanges, MainUnit};
use std::alloc::Global;
use std::rc::Rc;

// The unit of a header in its file, if it is one of no types and isn't refused, and its root in
// place of another entry. It gets its place on the heap here, since what returns it would copy its
// facts.
fn code_unit<R: Reader>(
    alloc: Global,
    sections: &Rc<Dwarf<R>>,
    header: UnitHeader<R>,
    entry: &mut DebuggingInformationEntry<R>,
) -> Result<Option<MainUnit<R>>, Error>
    ensures unit { ReturnsAsOrNoMemory (option_map (λ u. u.counted.unit)) result
        (Ok (option_map (in_file sections.now.value.file)
        (facts_of_code_unit sections.now.value.file header))) }
    ensures root { IfOk result (λ found. IfSome found
        (λ u. HasRoot u.counted.unit (entry_of R.view R.Offset.count entry.new))) }
    ensures header { IfOk result (λ found. IfSome found
        (λ u. HasHeaderInFile u.counted.unit)) }
    ensures runs { IfOk result (λ found. IfSome found (λ u. u.counted.runs.count ≡ 0)) }
{
    if is_of_types(&header) {
        return Ok(None);
    }
    match sections
        .as_ref()
        .unit_or_bare_with_root(alloc, header, entry)
    {
        Ok((unit, is_whole)) => Ok(Some(MainUnit::new(alloc, share(sections)?, unit, is_whole)?)),
        Err(Error::Memory) => Err(Error::Memory),
        Err(_) => Ok(None),
    }
}

// Appends the context's unit of a header, if it is one. Its root takes the memory of an entry.
pub(crate) fn push_context_unit<R: Reader>(
    alloc: Global,
    sections: &Rc<Dwarf<R>>,
    aranges: &ArangeIndex,
    last: &mut LastRanges<R>,
    header: UnitHeader<R>,
    entry: &mut DebuggingInformationEntry<R>,
    units: &mut Vec<ResUnit<R>>,
) -> Result<(), Error>
    requires index { IsIndexOf sections.now.value.file aranges.now }
    requires last { AreLastOf sections.now.value.file last.old }
    ensures units { ReturnsAsOrNoMemory (λ _. map value_of_unit units.new.items) result
        (with_unit_of_header sections.now.value.file header (map value_of_unit units.old.items)) }
    ensures lines { OnOk result
        (RunForRangesAlone units.old.items → RunForRangesAlone units.new.items) }
    ensures functions { OnOk result
        (KeepNoFunctions units.old.items → KeepNoFunctions units.new.items) }
    ensures last { AreLastOf sections.now.value.file last.new }
{
    match code_unit(alloc, sections, header, entry)? {
        Some(main) => push_unit(alloc, aranges, last, main, entry, units),
        None => Ok(()),
    }
}

// Appends the context's unit of a unit that was read, with this root.
fn push_unit<R: Reader>(
    alloc: Global,
    aranges: &ArangeIndex,
    last: &mut LastRanges<R>,
    main: MainUnit<R>,
    entry: &DebuggingInformationEntry<R>,
    units: &mut Vec<ResUnit<R>>,
) -> Result<(), Error>
    requires index { IsIndexOf main.counted.unit.file aranges.now }
    requires last { AreLastOf main.counted.unit.file last.old }
    requires root { HasRoot main.counted.unit (entry_of R.view R.Offset.count entry.now) }
    requires header { HasHeaderInFile main.counted.unit }
    requires runs { main.counted.runs.count ≡ 0 }
    ensures units { ReturnsAsOrNoMemory (λ _. map value_of_unit units.new.items) result
        (with_new_unit main.counted.unit (map value_of_unit units.old.items)) }
    ensures lines { OnOk result
        (RunForRangesAlone units.old.items → RunForRangesAlone units.new.items) }
    ensures functions { OnOk result
        (KeepNoFunctions units.old.items → KeepNoFunctions units.new.items) }
    ensures last { AreLastOf main.counted.unit.file last.new }
{
    let unit = ResUnit::read(alloc, main, entry, aranges, last)?;
    units.push(unit)?;
    Ok(())
}

// Whether a unit describes types alone (DWARF 5, 3.1.4).
fn is_of_types<R: Reader>(header: &UnitHeader<R>) -> bool
    ensures { result ≡ is_of_types header.now.kind }
{
    matches!(
        header.type_(),
        UnitType::TypeUnit { .. } | UnitType::SplitType { .. }
    )
}
