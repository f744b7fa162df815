//! The functions of all units.

ghost use Rattle.std.specs.Prelude.{◌≡◌, ◌≢◌, ◌<◌, true, None, Err, map};
ghost use Rattle.addr2line_unit.specs.Error.TheVariants.{Memory};
ghost use Rattle.addr2line_unit.specs.ResolvedUnits.{pending_load, value_of_unit};
ghost use Rattle.addr2line_lookups.specs.KeptUnits.{ReadsNoLines, KeepsFunctionsAt};
ghost use Rattle.addr2line_lookups.specs.KeptCalls.{LeavesCalls, LeavesCallsOf};
ghost use Rattle.addr2line_lookups.specs.LookupCosts.{AtMostLooks, AtMostLooksOf};
ghost use Rattle.addr2line_lookups.specs.UnitParses.{without_load, check_functions_of, ChecksOrNoMemory, after_turn, check_unit_at, KeepsParsed, WalksOrNoMemory};

use addr2line_unit::{Error, Reader, ResUnit};
use std::alloc::Global;

// Answers the load of a unit by no file, if it is pending.
fn skip_load<R: Reader>(unit: &mut ResUnit<R>)
    ensures value { unit.new.value ≡ without_load unit.old.value }
    ensures load { pending_load unit.new.value ≡ None }
    ensures calls { LeavesCallsOf unit.old unit.new }
    ensures cost { AtMostLooksOf 0 unit.old unit.new }
    ensures lines { unit.new.keeps_lines ≡ unit.old.keeps_lines }
{
    unit.record_answer(Ok(None));
}

// Whether functions that are kept are a refusal.
fn check_kept<R: Reader>(unit: &ResUnit<R>) -> Result<(), Error>
    ensures { unit.now.keeps_functions ≡ true → check_functions_of unit.now.value ≡ result }
{
    match unit.kept_functions() {
        Some(Err(error)) => Err(*error),
        _ => Ok(()),
    }
}

// Whether the functions of a unit whose load isn't pending can be read, or else the refusal; they
// are read and kept.
fn check_functions_of<R: Reader>(alloc: Global, unit: &mut ResUnit<R>) -> Result<(), Error>
    requires { pending_load unit.old.value ≡ None }
    ensures value { unit.new.value ≡ unit.old.value }
    ensures found { ChecksOrNoMemory result (check_functions_of unit.old.value) }
    ensures kept { result ≢ Err Memory → unit.new.keeps_functions ≡ true }
    ensures calls { LeavesCallsOf unit.old unit.new }
    ensures cost { AtMostLooksOf 0 unit.old unit.new }
    ensures lines { unit.new.keeps_lines ≡ unit.old.keeps_lines }
{
    unit.read_functions(alloc)?;
    check_kept(unit)
}

// The same of the unit of a number, whose load is answered by no file before, if it is pending.
pub(crate) fn parse_functions_at<R: Reader>(
    alloc: Global,
    units: &mut Vec<ResUnit<R>>,
    number: usize,
) -> Result<(), Error>
    ensures values { map value_of_unit units.new.items
        ≡ after_turn (map value_of_unit units.old.items) number }
    ensures found { ChecksOrNoMemory result
        (check_unit_at check_functions_of (map value_of_unit units.new.items) number) }
    ensures kept { result ≢ Err Memory → KeepsFunctionsAt units.new.items number }
    ensures calls { LeavesCalls units.old.items units.new.items }
    ensures cost { AtMostLooks 0 units.old.items units.new.items }
    ensures lines { ReadsNoLines units.old.items units.new.items }
{
    if number >= units.len() {
        return Ok(());
    }
    let unit = &mut units[number];
    skip_load(unit);
    check_functions_of(alloc, unit)
}

// Reads the functions of all units, up to the first refusal.
pub(crate) fn check_functions<R: Reader>(
    alloc: Global,
    units: &mut Vec<ResUnit<R>>,
) -> Result<(), Error>
    ensures walk { WalksOrNoMemory check_functions_of result (map value_of_unit units.old.items)
        (map value_of_unit units.new.items) }
    ensures kept { KeepsParsed result units.new.items }
    ensures calls { LeavesCalls units.old.items units.new.items }
    ensures cost { AtMostLooks 0 units.old.items units.new.items }
    ensures lines { ReadsNoLines units.old.items units.new.items }
{
    let mut number = 0;
    while number < units.len() {
        parse_functions_at(alloc, units, number)?;
        number += 1;
    }
    Ok(())
}
