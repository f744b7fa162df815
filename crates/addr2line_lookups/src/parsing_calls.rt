//! The functions of all units with the calls that are inlined into them.

ghost use Rattle.std.specs.Prelude.{◌≡◌, ◌<◌, Ok, IfSome, OnOk, length, map};
ghost use Rattle.addr2line_unit.specs.KeptFunctions.{kept_at};
ghost use Rattle.addr2line_unit.specs.ResolvedUnits.{value_of_unit};
ghost use Rattle.addr2line_unit.specs.Results.{refusal_of};
ghost use Rattle.addr2line_lookups.specs.KeptUnits.{ReadsNoLines, KeepsFunctionsAt};
ghost use Rattle.addr2line_lookups.specs.KeptCalls.{known_among, HoldCalls};
ghost use Rattle.addr2line_lookups.specs.FunctionPlaces.{count_at, KeepsCallsAt};
ghost use Rattle.addr2line_lookups.specs.LookupCosts.{AtMostLooks};
ghost use Rattle.addr2line_lookups.specs.UnitParses.{check_functions_of, check_calls_of, check_call_of, ChecksOrNoMemory, after_turn, check_unit_at, KeepsAllCallsAt, KeepAllCalls, WalksOrNoMemory};

use crate::function_place::keep_calls;
use crate::parsing_functions::parse_functions_at;
use addr2line_unit::{Error, Reader, ResUnit, Unit};
use std::alloc::Global;

// ---- one function

// Whether calls that are kept are a refusal.
fn check_kept<R: Reader>(unit: &ResUnit<R>, function: usize) -> Result<(), Error>
    ensures { IfSome (kept_at unit.now.calls function) (λ calls. refusal_of calls ≡ result) }
{
    match unit.kept_calls(function) {
        Some(Err(error)) => Err(*error),
        _ => Ok(()),
    }
}

// Whether the calls of a function of the unit of a number can be read, or else the refusal; they
// are read and kept.
fn parse_calls_of<R: Reader>(
    alloc: Global,
    units: &mut Vec<ResUnit<R>>,
    supplement_units: &[Unit<R>],
    number: usize,
    function: usize,
) -> Result<(), Error>
    requires number { number < length units.old.items }
    requires function { function < count_at units.old.items number }
    requires calls { HoldCalls (known_among units.old.items supplement_units.now) units.old.items }
    ensures values { map value_of_unit units.new.items ≡ map value_of_unit units.old.items }
    ensures calls { HoldCalls (known_among units.old.items supplement_units.now) units.new.items }
    ensures cost { AtMostLooks 0 units.old.items units.new.items }
    ensures lines { ReadsNoLines units.old.items units.new.items }
    ensures count { count_at units.new.items number ≡ count_at units.old.items number }
    ensures found { ChecksOrNoMemory result
        (check_unit_at (check_call_of (known_among units.old.items supplement_units.now) function)
        (map value_of_unit units.old.items) number) }
    ensures kept { OnOk result (KeepsCallsAt units.new.items number function) }
{
    keep_calls(alloc, units, supplement_units, number, function)?;
    check_kept(&units[number], function)
}

// ---- one unit

// Whether the calls of all functions of the unit of a number, which are kept, can be read, or else
// the first refusal; the calls are read and kept.
fn parse_calls_at<R: Reader>(
    alloc: Global,
    units: &mut Vec<ResUnit<R>>,
    supplement_units: &[Unit<R>],
    number: usize,
) -> Result<(), Error>
    requires functions { KeepsFunctionsAt units.old.items number }
    requires readable { check_unit_at check_functions_of (map value_of_unit units.old.items) number
        ≡ Ok tt }
    requires calls { HoldCalls (known_among units.old.items supplement_units.now) units.old.items }
    ensures values { map value_of_unit units.new.items ≡ map value_of_unit units.old.items }
    ensures calls { HoldCalls (known_among units.old.items supplement_units.now) units.new.items }
    ensures cost { AtMostLooks 0 units.old.items units.new.items }
    ensures lines { ReadsNoLines units.old.items units.new.items }
    ensures found { ChecksOrNoMemory result
        (check_unit_at (check_calls_of (known_among units.old.items supplement_units.now))
        (map value_of_unit units.old.items) number) }
    ensures kept { OnOk result (KeepsAllCallsAt units.new.items number) }
{
    if number >= units.len() {
        return Ok(());
    }
    let count = units[number].function_count();
    let mut function = 0;
    while function < count {
        parse_calls_of(alloc, units, supplement_units, number, function)?;
        function += 1;
    }
    Ok(())
}

// The same, with its functions, which are read and kept before. Its load is answered by no file, if
// it is pending.
fn parse_unit_at<R: Reader>(
    alloc: Global,
    units: &mut Vec<ResUnit<R>>,
    supplement_units: &[Unit<R>],
    number: usize,
) -> Result<(), Error>
    requires { HoldCalls (known_among units.old.items supplement_units.now) units.old.items }
    ensures values { map value_of_unit units.new.items
        ≡ after_turn (map value_of_unit units.old.items) number }
    ensures calls { HoldCalls (known_among units.old.items supplement_units.now) units.new.items }
    ensures cost { AtMostLooks 0 units.old.items units.new.items }
    ensures lines { ReadsNoLines units.old.items units.new.items }
    ensures found { ChecksOrNoMemory result
        (check_unit_at (check_calls_of (known_among units.old.items supplement_units.now))
        (map value_of_unit units.new.items) number) }
    ensures kept { OnOk result (KeepsAllCallsAt units.new.items number) }
{
    parse_functions_at(alloc, units, number)?;
    parse_calls_at(alloc, units, supplement_units, number)
}

// ---- all units

// Reads the functions of all units with their calls, up to the first refusal.
pub(crate) fn check_calls<R: Reader>(
    alloc: Global,
    units: &mut Vec<ResUnit<R>>,
    supplement_units: &[Unit<R>],
) -> Result<(), Error>
    requires { HoldCalls (known_among units.old.items supplement_units.now) units.old.items }
    ensures walk { WalksOrNoMemory
        (check_calls_of (known_among units.old.items supplement_units.now)) result
        (map value_of_unit units.old.items) (map value_of_unit units.new.items) }
    ensures kept { OnOk result (KeepAllCalls units.new.items) }
    ensures calls { HoldCalls (known_among units.new.items supplement_units.now) units.new.items }
    ensures cost { AtMostLooks 0 units.old.items units.new.items }
    ensures lines { ReadsNoLines units.old.items units.new.items }
{
    let mut number = 0;
    while number < units.len() {
        parse_unit_at(alloc, units, supplement_units, number)?;
        number += 1;
    }
    Ok(())
}
