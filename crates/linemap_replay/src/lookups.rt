//! Lookups, and calls that read all units, with copies of what they find.

ghost use Rattle.std.specs.Prelude.{◌≡◌, ℕ, [], OnErr, OnOk, map, option_map, take};
ghost use Rattle.addr2line_context.specs.BorrowedLocations.{location_value};
ghost use Rattle.addr2line_context.specs.ContextCosts.{AsksForPlace, AsksForRange};
ghost use Rattle.addr2line_context.specs.Histories.{find_location, find_location_range, answer_or_suspension};
ghost use Rattle.addr2line_context.specs.OwnedPlaces.{CopiesOrNoMemory};
ghost use Rattle.linemap_replay.specs.CallEffects.{KeepsAndReads, KeepsAfterLookup};
ghost use Rattle.linemap_replay.specs.OwnedAnswers.{answer_of, copied_answer, location_copy};
ghost use Rattle.linemap_replay.specs.Replays.{file_at, call_on, resume_with_all};

use crate::address_lookup::AddressLookup;
use crate::answer::Answer;
use crate::completions::refuse;
use crate::copied_stretches::copy_stretches;
use crate::loads::resume_lookup;
use addr2line_context::{Context, Dwarf, Error, Location, OwnedLocation, Reader};
use std::alloc::Global;
use std::rc::Rc;

// A copy of a place, if there is one, as an answer.
fn answer_place(alloc: Global, place: Option<Location<'_>>) -> Result<Answer, Error>
    ensures { CopiesOrNoMemory answer_of result
        (location_copy (option_map location_value place.entry)) }
{
    Ok(Answer::Location(OwnedLocation::copy_if_any(alloc, place)?))
}

// The place of an address.
pub(crate) fn find_place<R: Reader>(
    alloc: Global,
    context: &mut Context<R>,
    probe: u64,
) -> Result<Answer, Error>
    ensures answer { CopiesOrNoMemory answer_of result
        (copied_answer (call_on context.old.value [] (find_location probe)).0) }
    ensures value { context.new.value ≡ context.old.value }
    ensures kept { KeepsAndReads (AsksForPlace context.old.value probe) (λ _. ⊥)
        context.old.units context.new.units }
{
    match context.find_location(probe) {
        Ok(place) => answer_place(alloc, place),
        Err(error) => refuse(error),
    }
}

// The stretches between two ends.
pub(crate) fn find_stretches<R: Reader>(
    alloc: Global,
    context: &mut Context<R>,
    low: u64,
    high: u64,
) -> Result<Answer, Error>
    ensures answer { CopiesOrNoMemory answer_of result
        (copied_answer (call_on context.old.value [] (find_location_range low high)).0) }
    ensures value { context.new.value ≡ context.old.value }
    ensures kept { KeepsAndReads (AsksForRange context.old.value low high) (λ _. ⊥)
        context.old.units context.new.units }
{
    copy_stretches(alloc, context, low, high)
}

// What a lookup of an address finds, unless it waits for more loads than there are places.
pub(crate) fn find_copied<R: Reader, L: AddressLookup<R>>(
    alloc: Global,
    context: &mut Context<R>,
    probe: u64,
    places: &[usize],
    answers: &[Option<Rc<Dwarf<R>>>],
) -> Result<Answer, Error>
    ensures answer { CopiesOrNoMemory answer_of result (copied_answer (answer_or_suspension L.answer
        (resume_with_all L.lookup context.old.value probe
        (map (file_at (map (option_map (λ f. f.value.file)) answers.now)) places.now)).0)) }
    ensures left { OnOk result (context.new.value.answers
        ≡ (resume_with_all L.lookup context.old.value probe
        (map (file_at (map (option_map (λ f. f.value.file)) answers.now)) places.now)).1) }
    ensures plain { context.new.value.plain ≡ context.old.value.plain }
    ensures part { OnErr result ((n : ℕ) × (context.new.value.answers
        ≡ (resume_with_all L.lookup context.old.value probe (take n
        (map (file_at (map (option_map (λ f. f.value.file)) answers.now)) places.now))).1)) }
    ensures kept { KeepsAfterLookup L.lookup L.asks context.old.value probe
        (map (file_at (map (option_map (λ f. f.value.file)) answers.now)) places.now)
        context.old.units context.new.units }
{
    match resume_lookup::<R, L>(context, probe, places, answers)? {
        Some(decided) => L::copy_found(alloc, context, decided),
        None => Ok(Answer::Suspended),
    }
}
