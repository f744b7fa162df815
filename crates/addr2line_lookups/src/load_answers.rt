//! Answers to the loads of units.

ghost use Rattle.std.specs.Prelude.{◌≡◌, None, map, option_map, IfOk, IfErr};
ghost use Rattle.addr2line_unit.specs.Calls.{Returns};
ghost use Rattle.addr2line_unit.specs.Error.TheVariants.{Memory};
ghost use Rattle.addr2line_unit.specs.FirstAnswers.{answer_of};
ghost use Rattle.addr2line_unit.specs.ResolvedUnits.{pending_load, value_of_unit};
ghost use Rattle.addr2line_lookups.specs.KeptUnits.{ReadsNoLines, ReadsNoFunctions};
ghost use Rattle.addr2line_lookups.specs.KeptCalls.{LeavesCalls, LeavesCallsOf};
ghost use Rattle.addr2line_lookups.specs.LoadAnswers.{AnswersOrNoMemory, check_unit, answer_unit, answer_at};
ghost use Rattle.addr2line_lookups.specs.LookupCosts.{AtMostLooks, AtMostLooksOf};
ghost use Rattle.addr2line_lookups.specs.Preloads.{load_at};

use addr2line_unit::{Dwarf, Error, OwnedUnit, Reader, ResUnit, Unit, answer_of};
use std::alloc::Global;
use std::rc::Rc;

// What a file makes of a unit, or why that is refused. The only error is out of memory.
fn answer_or_refusal<R: Reader>(
    alloc: Global,
    main: &Unit<R>,
    file: Option<Rc<Dwarf<R>>>,
) -> Result<Result<Option<OwnedUnit<R>>, Error>, Error>
    ensures ok { IfOk result
        (λ answer. answer ≡ answer_of main.now (option_map (λ f. f.value.file) file)) }
    ensures refusal { IfErr result (λ e. e ≡ Memory) }
{
    match answer_of(alloc, main, file) {
        Ok(split) => Ok(Ok(split)),
        Err(Error::Memory) => Err(Error::Memory),
        Err(fault) => Ok(Err(fault)),
    }
}

// Whether what decides a unit is a refusal.
fn check_unit<R: Reader>(unit: &ResUnit<R>) -> Result<(), Error>
    ensures { Returns result (check_unit unit.now.value) }
{
    unit.check_decided()
}

// Records what a file makes of a unit whose load needs an answer, and whether it is a refusal. Such
// a unit is whole.
fn record_answer<R: Reader>(
    alloc: Global,
    unit: &mut ResUnit<R>,
    file: Option<Rc<Dwarf<R>>>,
) -> Result<(), Error>
    ensures answer { AnswersOrNoMemory result unit.old.value unit.new.value
        (answer_unit unit.old.value (option_map (λ f. f.value.file) file)) }
    ensures calls { LeavesCallsOf unit.old unit.new }
    ensures cost { AtMostLooksOf 0 unit.old unit.new }
    ensures lines { unit.new.keeps_lines ≡ unit.old.keeps_lines }
    ensures functions { unit.new.keeps_functions ≡ unit.old.keeps_functions }
{
    let Some(main) = unit.main() else {
        drop(file);
        return check_unit(unit);
    };
    let answer = answer_or_refusal(alloc, main.unit(), file)?;
    unit.record_answer(answer);
    check_unit(unit)
}

// Answers the load of a unit. A unit that is decided stays as it is, and the file isn't read: so
// nothing is out of memory then.
fn answer_unit<R: Reader>(
    alloc: Global,
    unit: &mut ResUnit<R>,
    file: Option<Rc<Dwarf<R>>>,
) -> Result<(), Error>
    ensures answer { AnswersOrNoMemory result unit.old.value unit.new.value
        (answer_unit unit.old.value (option_map (λ f. f.value.file) file)) }
    ensures decided { pending_load unit.old.value ≡ None
        → answer_unit unit.old.value (option_map (λ f. f.value.file) file)
        ≡ (result, unit.new.value) }
    ensures calls { LeavesCallsOf unit.old unit.new }
    ensures cost { AtMostLooksOf 0 unit.old unit.new }
    ensures lines { unit.new.keeps_lines ≡ unit.old.keeps_lines }
    ensures functions { unit.new.keeps_functions ≡ unit.old.keeps_functions }
{
    if unit.pending_load().is_none() {
        drop(file);
        return check_unit(unit);
    }
    record_answer(alloc, unit, file)
}

/// Answers the load of the unit of a number. Refused where there is no such unit.
pub fn answer_at<R: Reader>(
    alloc: Global,
    units: &mut Vec<ResUnit<R>>,
    number: usize,
    file: Option<Rc<Dwarf<R>>>,
) -> Result<(), Error>
    ensures answer { AnswersOrNoMemory result (map value_of_unit units.old.items)
        (map value_of_unit units.new.items)
        (answer_at (map value_of_unit units.old.items) number
        (option_map (λ f. f.value.file) file)) }
    ensures decided { load_at (map value_of_unit units.old.items) number ≡ None
        → answer_at (map value_of_unit units.old.items) number
        (option_map (λ f. f.value.file) file) ≡ (result, map value_of_unit units.new.items) }
    ensures calls { LeavesCalls units.old.items units.new.items }
    ensures cost { AtMostLooks 0 units.old.items units.new.items }
    ensures lines { ReadsNoLines units.old.items units.new.items }
    ensures functions { ReadsNoFunctions units.old.items units.new.items }
{
    if number >= units.len() {
        drop(file);
        return Err(Error::NoSuchUnit);
    }
    let unit = &mut units[number];
    answer_unit(alloc, unit, file)
}
