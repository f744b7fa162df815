//! Lookups that wait for loads, which the answers at some places of a list answer.

ghost use Rattle.std.specs.Prelude.{◌≡◌, ◌⊎◌, ℕ, IfErr, OnErr, OnOk, map, option_map, take};
ghost use Rattle.addr2line_context.specs.Error.TheVariants.{Memory};
ghost use Rattle.addr2line_context.specs.FrameLoads.{DecidesUnlessWaiting};
ghost use Rattle.addr2line_context.specs.SettledLookups.{after_answer};
ghost use Rattle.addr2line_context.specs.OwnedPlaces.{CopiesOrNoMemory};
ghost use Rattle.linemap_replay.specs.CallEffects.{KeepsAndReads, KeepsAfterLookup};
ghost use Rattle.linemap_replay.specs.Replays.{file_at, resume_with_all};

use crate::address_lookup::AddressLookup;
use addr2line_context::frame_loads::answer_first;
use addr2line_context::{Context, Dwarf, Error, Reader};
use std::rc::Rc;

// The answer at a place; none past the last.
pub(crate) fn answer_at<R: Reader>(
    answers: &[Option<Rc<Dwarf<R>>>],
    place: usize,
) -> Result<Option<Rc<Dwarf<R>>>, Error>
    ensures { CopiesOrNoMemory (option_map (λ f. f.value.file)) result
        (file_at (map (option_map (λ f. f.value.file)) answers.now) place) }
{
    match answers.get(place) {
        Some(Some(file)) => Ok(Some(file.clone()?)),
        _ => Ok(None),
    }
}

// Answers the first load of an address by the answer at a place.
fn answer_next<R: Reader>(
    context: &mut Context<R>,
    probe: u64,
    answers: &[Option<Rc<Dwarf<R>>>],
    place: usize,
) -> Result<(), Error>
    ensures plain { context.new.value.plain ≡ context.old.value.plain }
    ensures answered { OnOk result (context.new.value.answers ≡ (after_answer context.old.value
        probe (file_at (map (option_map (λ f. f.value.file)) answers.now) place)).answers) }
    ensures left { (context.new.value.answers ≡ (after_answer context.old.value probe
        (file_at (map (option_map (λ f. f.value.file)) answers.now) place)).answers)
        ⊎ (context.new.value.answers ≡ context.old.value.answers) }
    ensures refusal { IfErr result (λ e. e ≡ Memory) }
    ensures kept { KeepsAndReads (λ _. ⊥) (λ _. ⊥) context.old.units context.new.units }
{
    let file = answer_at(answers, place)?;
    answer_first(context, probe, file)
}

// Answers the loads that a lookup of an address waits for by the answers at these places, in turn,
// and gives what decides it then, unless it still waits.
pub(crate) fn resume_lookup<R: Reader, L: AddressLookup<R>>(
    context: &mut Context<R>,
    probe: u64,
    places: &[usize],
    answers: &[Option<Rc<Dwarf<R>>>],
) -> Result<Option<L::Decided>, Error>
    ensures settles { DecidesUnlessWaiting (L.Decides context.new.units)
        (L.lookup context.new.value probe) result }
    ensures resumed { OnOk result (resume_with_all L.lookup context.old.value probe
        (map (file_at (map (option_map (λ f. f.value.file)) answers.now)) places.now)
        ≡ (L.lookup context.new.value probe, context.new.value.answers)) }
    ensures plain { context.new.value.plain ≡ context.old.value.plain }
    ensures part { OnErr result ((n : ℕ) × (context.new.value.answers
        ≡ (resume_with_all L.lookup context.old.value probe (take n
        (map (file_at (map (option_map (λ f. f.value.file)) answers.now)) places.now))).1)) }
    ensures kept { KeepsAfterLookup L.lookup L.asks context.old.value probe
        (map (file_at (map (option_map (λ f. f.value.file)) answers.now)) places.now)
        context.old.units context.new.units }
{
    for place in places {
        match L::settle(context, probe)? {
            Some(decided) => return Ok(Some(decided)),
            None => answer_next(context, probe, answers, *place)?,
        }
    }
    L::settle(context, probe)
}
