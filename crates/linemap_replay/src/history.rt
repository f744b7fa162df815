//! Calls on one context, one after the other.

ghost use Rattle.std.specs.Prelude.{◌≡◌, OnErr, OnOk, map, option_map};
ghost use Rattle.addr2line_context.specs.ContextNames.{naming_in};
ghost use Rattle.addr2line_context.specs.OwnedPlaces.{CopiesOrNoMemory};
ghost use Rattle.linemap_replay.specs.CallEffects.{KeepsAfterCall, KeepsAfterCalls, LeavesAnswers, LeavesPart};
ghost use Rattle.linemap_replay.specs.OwnedAnswers.{answer_of, copied_answer};
ghost use Rattle.linemap_replay.specs.Replays.{AreRunOnce, context_call, call_on, state_of, token_of, replay_answers};

use crate::address_lookup::{FrameLookup, UnitLookup};
use crate::answer::Answer;
use crate::call::Call;
use crate::loads::answer_at;
use crate::lookups::{find_copied, find_place, find_stretches};
use crate::parses::{read_calls, read_functions, read_lines};
use crate::tokens::{answer_by_token, preload};
use addr2line_context::{Context, Dwarf, Error, Reader, SplitDwarfLoad, UnitToken};
use std::alloc::Global;
use std::rc::Rc;

// What a call answers. The loads are those of the last preload.
fn answer_call<R: Reader>(
    alloc: Global,
    context: &mut Context<R>,
    loads: &mut Vec<(SplitDwarfLoad<R>, UnitToken)>,
    call: &Call,
    answers: &[Option<Rc<Dwarf<R>>>],
) -> Result<Answer, Error>
    ensures answer { CopiesOrNoMemory answer_of result (copied_answer (call_on context.old.value
        (map token_of loads.old.items)
        (context_call (map (option_map (λ f. f.value.file)) answers.now) call.now)).0) }
    ensures left { OnOk result (state_of context.new.value (map token_of loads.new.items)
        ≡ (call_on context.old.value (map token_of loads.old.items)
        (context_call (map (option_map (λ f. f.value.file)) answers.now) call.now)).1) }
    ensures plain { context.new.value.plain ≡ context.old.value.plain }
    ensures part { OnErr result (LeavesPart context.old.value.plain
        (naming_in context.old.value.plain)
        (context_call (map (option_map (λ f. f.value.file)) answers.now) call.now)
        (state_of context.old.value (map token_of loads.old.items)) context.new.value.answers) }
    ensures kept { KeepsAfterCall context.old.value
        (context_call (map (option_map (λ f. f.value.file)) answers.now) call.now)
        context.old.units context.new.units }
{
    match call {
        Call::Location(probe) => find_place(alloc, context, *probe),
        Call::Frames(probe, places) => {
            find_copied::<R, FrameLookup>(alloc, context, *probe, places.as_slice(), answers)
        }
        Call::Range(low, high) => find_stretches(alloc, context, *low, *high),
        Call::Unit(probe, places) => {
            find_copied::<R, UnitLookup>(alloc, context, *probe, places.as_slice(), answers)
        }
        Call::Preload(probe) => preload(alloc, context, *probe, loads),
        Call::Answer(number, place) => {
            let file = answer_at(answers, *place)?;
            answer_by_token(context, loads.as_slice(), *number, file)
        }
        Call::ParseLines => read_lines(context),
        Call::ParseFunctions => read_functions(context),
        Call::ParseInlined => read_calls(context),
    }
}

/// The answers of calls on a context, in their order, as copies. Each call is answered as the
/// context's own method answers it after those before. A lookup that waits for a load is resumed
/// with the answers at the call's places in turn, and dropped where there are no more of them; the
/// answers that were taken stay. The only error is out of memory: the context then has the answers
/// taken so far, and can be used again. Lines and functions are read of no units but those that the
/// calls ask for them, and kept: the line number program of a unit is run once at most, also
/// over several lists of calls.
pub fn replay<R: Reader>(
    alloc: Global,
    context: &mut Context<R>,
    calls: &[Call],
    answers: &[Option<Rc<Dwarf<R>>>],
) -> Result<Vec<Answer>, Error>
    ensures answers { CopiesOrNoMemory (λ found. map answer_of found.items) result
        (replay_answers context.old.value
        (map (context_call (map (option_map (λ f. f.value.file)) answers.now)) calls.now)) }
    ensures left { LeavesAnswers result context.old.value
        (map (context_call (map (option_map (λ f. f.value.file)) answers.now)) calls.now)
        context.new.value.answers }
    ensures plain { context.new.value.plain ≡ context.old.value.plain }
    ensures kept { KeepsAfterCalls context.old.value
        (map (context_call (map (option_map (λ f. f.value.file)) answers.now)) calls.now)
        context.old.units context.new.units }
    ensures once { AreRunOnce context.old.units context.new.units }
{
    let mut found = Vec::new(alloc);
    let mut loads = Vec::new(alloc);
    for call in calls {
        found.push(answer_call(alloc, context, &mut loads, call, answers)?)?;
    }
    Ok(found)
}
