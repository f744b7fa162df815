//! The function of an address in the unit of a number, found with the calls that the address is in.
//! What is read for that is kept.

ghost use Rattle.std.specs.Prelude.{◌≡◌, ◌≢◌, ◌<◌, true, None, Err, length, map, slice_get, IfOk, IfSome, OnOk, IfErr};
ghost use Rattle.addr2line_unit.specs.Calls.{ReturnsOrNoMemory, ReturnsAsOrNoMemory};
ghost use Rattle.addr2line_unit.specs.Error.TheVariants.{Memory};
ghost use Rattle.addr2line_unit.specs.OrderedUnits.{AreKnownInOrder};
ghost use Rattle.addr2line_unit.specs.KeptFunctions.{number_in, number_probes};
ghost use Rattle.addr2line_unit.specs.ResolvedUnits.{functions_of, pending_load, value_of_unit};
ghost use Rattle.addr2line_lookups.specs.Preloads.{load_at};
ghost use Rattle.addr2line_lookups.specs.KeptUnits.{ReadsNoLines, KeepsFunctionsAt, ReadsAskedFunctions};
ghost use Rattle.addr2line_lookups.specs.KeptCalls.{known_among, calls_among, HoldCalls, LeavesCallsOf, LeavesCalls};
ghost use Rattle.addr2line_lookups.specs.FunctionPlaces.{HasFunction, HasFunctionAt, KeepsCallsAt, count_at, function_number_at, function_calls_at, function_with_calls_at, chain_of, FindsCalls, FindsFunction};
ghost use Rattle.addr2line_lookups.specs.LookupCosts.{AtMostLooks, AtMostLooksOf, number_probes_at, chain_probes_at, function_probes_at};

use addr2line_unit::{Error, FunctionCalls, KnownUnits, Reader, ResUnit, Unit, UnitNames};
use std::alloc::Global;

// ---- functions

// The number of the function that an address is in, or the refusal of the functions. They are read
// before, unless they are kept.
fn find_number<R: Reader>(
    alloc: Global,
    unit: &mut ResUnit<R>,
    probe: u64,
) -> Result<Option<usize>, Error>
    requires { pending_load unit.old.value ≡ None }
    ensures value { unit.new.value ≡ unit.old.value }
    ensures calls { LeavesCallsOf unit.old unit.new }
    ensures cost { AtMostLooksOf (number_probes (functions_of unit.old.value))
        unit.old unit.new }
    ensures lines { unit.new.keeps_lines ≡ unit.old.keeps_lines }
    ensures number { ReturnsOrNoMemory result (number_in (functions_of unit.old.value) probe) }
    ensures below { IfOk result (λ number. IfSome number (λ k. HasFunction k unit.new)) }
    ensures kept { result ≢ Err Memory → unit.new.keeps_functions ≡ true }
{
    unit.read_functions(alloc)?;
    unit.find_function(probe)
}

// The same in the unit of a number.
fn find_number_at<R: Reader>(
    alloc: Global,
    units: &mut Vec<ResUnit<R>>,
    number: usize,
    probe: u64,
) -> Result<Option<usize>, Error>
    requires unit { number < length units.old.items }
    requires decided { load_at (map value_of_unit units.old.items) number ≡ None }
    ensures values { map value_of_unit units.new.items ≡ map value_of_unit units.old.items }
    ensures calls { LeavesCalls units.old.items units.new.items }
    ensures cost { AtMostLooks (number_probes_at (map value_of_unit units.old.items) number)
        units.old.items units.new.items }
    ensures lines { ReadsNoLines units.old.items units.new.items }
    ensures number { ReturnsOrNoMemory result
        (function_number_at (map value_of_unit units.old.items) probe number) }
    ensures below { IfOk result
        (λ function. IfSome function (HasFunctionAt units.new.items number)) }
    ensures functions { ReadsAskedFunctions (λ n. n ≡ number) units.old.items units.new.items }
    ensures kept { result ≢ Err Memory → KeepsFunctionsAt units.new.items number }
{
    let unit = &mut units[number];
    find_number(alloc, unit, probe)
}

// ---- calls

// The calls of the function of a number in a unit, whose names are looked for in these units.
fn read_calls<R: Reader>(
    alloc: Global,
    units: &[ResUnit<R>],
    supplement_units: &[Unit<R>],
    unit: &ResUnit<R>,
    function: usize,
) -> Result<FunctionCalls<R>, Error>
    requires function { HasFunction function unit.now }
    requires order { AreKnownInOrder (known_among units.now supplement_units.now) }
    ensures calls { ReturnsAsOrNoMemory (λ c. c.function) result
        (calls_among (known_among units.now supplement_units.now) unit.now.value function) }
    ensures counter { IfOk result (λ c. c.counter ≡ unit.now.probes.name) }
{
    let names = UnitNames {
        known: KnownUnits::in_order(units, supplement_units),
        holder: unit.functions_unit()?,
    };
    unit.read_calls(alloc, &names, function)
}

// Makes all units whole. The only refusal is out of memory.
fn make_all_whole<R: Reader>(alloc: Global, units: &mut Vec<ResUnit<R>>) -> Result<(), Error>
    ensures units { units.new.items ≡ units.old.items }
    ensures refusal { IfErr result (λ e. e ≡ Memory) }
{
    let mut number = 0;
    while number < units.len() {
        let unit = &mut units[number];
        unit.make_whole(alloc)?;
        number += 1;
    }
    Ok(())
}

// The calls of the function of a number in the unit of a number. A unit that one of their names is
// in may not be whole, which is out of memory: then all units are made whole, once, and the calls
// are read again.
fn read_calls_at<R: Reader>(
    alloc: Global,
    units: &mut Vec<ResUnit<R>>,
    supplement_units: &[Unit<R>],
    number: usize,
    function: usize,
) -> Result<FunctionCalls<R>, Error>
    requires unit { number < length units.old.items }
    requires function { HasFunctionAt units.old.items number function }
    requires order { AreKnownInOrder (known_among units.old.items supplement_units.now) }
    ensures units { units.new.items ≡ units.old.items }
    ensures calls { IfSome (slice_get units.old.items number) (λ u.
        ReturnsAsOrNoMemory (λ c. c.function) result
        (calls_among (known_among units.old.items supplement_units.now) u.value function)) }
    ensures counter { IfOk result (λ c. IfSome (slice_get units.old.items number) (λ u.
        c.counter ≡ u.probes.name)) }
{
    let unit = &units[number];
    let read = read_calls(alloc, units.as_slice(), supplement_units, unit, function);
    if !matches!(&read, Err(Error::Memory)) {
        return read;
    }
    make_all_whole(alloc, units)?;
    let unit = &units[number];
    read_calls(alloc, units.as_slice(), supplement_units, unit, function)
}

/// Reads the calls of the function of a number in the unit of a number, unless they are kept. A
/// refusal is kept too: the only error is out of memory.
pub fn keep_calls<R: Reader>(
    alloc: Global,
    units: &mut Vec<ResUnit<R>>,
    supplement_units: &[Unit<R>],
    number: usize,
    function: usize,
) -> Result<(), Error>
    requires unit { number < length units.old.items }
    requires function { HasFunctionAt units.old.items number function }
    requires calls { HoldCalls (known_among units.old.items supplement_units.now)
        units.old.items }
    ensures values { map value_of_unit units.new.items ≡ map value_of_unit units.old.items }
    ensures calls { HoldCalls (known_among units.old.items supplement_units.now)
        units.new.items }
    ensures count { count_at units.new.items number ≡ count_at units.old.items number }
    ensures kept { OnOk result (KeepsCallsAt units.new.items number function) }
    ensures same { KeepsCallsAt units.old.items number function
        → units.new.items ≡ units.old.items }
    ensures cost { AtMostLooks 0 units.old.items units.new.items }
    ensures lines { ReadsNoLines units.old.items units.new.items }
    ensures functions { ReadsAskedFunctions (λ n. n ≡ number) units.old.items units.new.items }
    ensures refusal { IfErr result (λ e. e ≡ Memory) }
{
    let unit = &units[number];
    if unit.kept_calls(function).is_some() {
        return Ok(());
    }
    let read = read_calls_at(alloc, units, supplement_units, number, function);
    let unit = &mut units[number];
    unit.keep_calls(function, read)
}

// Finds the calls of a function that an address is in; or gives the refusal of its calls, which are
// read before, unless they are kept.
fn find_calls<R: Reader>(
    alloc: Global,
    units: &mut Vec<ResUnit<R>>,
    supplement_units: &[Unit<R>],
    number: usize,
    function: usize,
    probe: u64,
) -> Result<(), Error>
    requires unit { number < length units.old.items }
    requires function { HasFunctionAt units.old.items number function }
    requires calls { HoldCalls (known_among units.old.items supplement_units.now)
        units.old.items }
    ensures values { map value_of_unit units.new.items ≡ map value_of_unit units.old.items }
    ensures calls { HoldCalls (known_among units.old.items supplement_units.now)
        units.new.items }
    ensures found { FindsCalls units.new.items number function probe
        (function_calls_at (known_among units.old.items supplement_units.now)
        (map value_of_unit units.old.items) function number) result
        (chain_of units.new.items number) }
    ensures cost { AtMostLooks
        (chain_probes_at (known_among units.old.items supplement_units.now)
        (map value_of_unit units.old.items) probe function number)
        units.old.items units.new.items }
    ensures lines { ReadsNoLines units.old.items units.new.items }
    ensures functions { ReadsAskedFunctions (λ n. n ≡ number) units.old.items units.new.items }
{
    keep_calls(alloc, units, supplement_units, number, function)?;
    let unit = &mut units[number];
    unit.find_chain(function, probe)
}

// ---- functions with their calls

// The number of the function that an address is in, in the unit of a number, and the numbers of its
// calls that the address is in; or the refusal of the functions, or of the calls of that one.
pub(crate) fn find_function_at<R: Reader>(
    alloc: Global,
    units: &mut Vec<ResUnit<R>>,
    supplement_units: &[Unit<R>],
    number: usize,
    probe: u64,
) -> Result<Option<usize>, Error>
    requires unit { number < length units.old.items }
    requires decided { load_at (map value_of_unit units.old.items) number ≡ None }
    requires calls { HoldCalls (known_among units.old.items supplement_units.now)
        units.old.items }
    ensures values { map value_of_unit units.new.items ≡ map value_of_unit units.old.items }
    ensures calls { HoldCalls (known_among units.old.items supplement_units.now)
        units.new.items }
    ensures found { FindsFunction units.new.items number probe
        (function_with_calls_at (known_among units.old.items supplement_units.now)
        (map value_of_unit units.old.items) probe number) result
        (chain_of units.new.items number) }
    ensures cost { AtMostLooks
        (function_probes_at (known_among units.old.items supplement_units.now)
        (map value_of_unit units.old.items) probe number) units.old.items units.new.items }
    ensures lines { ReadsNoLines units.old.items units.new.items }
    ensures functions { ReadsAskedFunctions (λ n. n ≡ number) units.old.items units.new.items }
    ensures kept { result ≢ Err Memory → KeepsFunctionsAt units.new.items number }
{
    let Some(function) = find_number_at(alloc, units, number, probe)? else {
        return Ok(None);
    };
    find_calls(alloc, units, supplement_units, number, function, probe)?;
    Ok(Some(function))
}
