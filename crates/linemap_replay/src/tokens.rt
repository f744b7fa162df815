//! Loads that are asked for ahead, and answers to them.

ghost use Rattle.std.specs.Prelude.{◌≡◌, ◌⊎◌, [], OnErr, OnOk, map, option_map, slice_get};
ghost use Rattle.addr2line_context.specs.Histories.{preload_units, answer_token};
ghost use Rattle.addr2line_context.specs.OwnedPlaces.{CopiesOrNoMemory};
ghost use Rattle.linemap_replay.specs.CallEffects.{KeepsAndReads};
ghost use Rattle.linemap_replay.specs.OwnedAnswers.{dwo_ids, answer_of, copied_answer};
ghost use Rattle.linemap_replay.specs.Replays.{call_on, token_of};

use crate::answer::Answer;
use crate::completions::{complete, refuse};
use addr2line_context::{Context, Dwarf, DwoId, Error, Reader, SplitDwarfLoad, UnitToken};
use std::alloc::Global;
use std::rc::Rc;

// The identifiers of the split units of loads.
fn ids_of<R: Reader>(
    alloc: Global,
    loads: &[(SplitDwarfLoad<R>, UnitToken)],
) -> Result<Vec<DwoId>, Error>
    ensures { CopiesOrNoMemory (λ ids. map (λ i. i.0) ids.items) result
        (map (λ l. l.0.dwo_id) loads.now) }
{
    let mut ids = Vec::new(alloc);
    for (load, _) in loads {
        ids.push(load.dwo_id)?;
    }
    Ok(ids)
}

// These loads take the place of those of the last preload.
fn replace_loads<R: Reader>(
    alloc: Global,
    loads: &mut Vec<(SplitDwarfLoad<R>, UnitToken)>,
    found: Vec<(SplitDwarfLoad<R>, UnitToken)>,
) -> Result<Answer, Error>
    ensures answer { CopiesOrNoMemory answer_of result
        (dwo_ids (map (λ l. l.0.dwo_id) found.items)) }
    ensures loads { OnOk result (loads.new.items ≡ found.items) }
{
    let ids = ids_of(alloc, found.as_slice())?;
    *loads = found;
    Ok(Answer::Preload(ids))
}

// The loads that lookups of an address may wait for; those of the last preload are replaced.
pub(crate) fn preload<R: Reader>(
    alloc: Global,
    context: &mut Context<R>,
    probe: u64,
    loads: &mut Vec<(SplitDwarfLoad<R>, UnitToken)>,
) -> Result<Answer, Error>
    ensures answer { CopiesOrNoMemory answer_of result
        (copied_answer (call_on context.old.value [] (preload_units probe)).0) }
    ensures tokens { OnOk result (map token_of loads.new.items
        ≡ (call_on context.old.value [] (preload_units probe)).1.tokens) }
    ensures value { context.new ≡ context.old }
{
    match context.preload_units(probe) {
        Ok(found) => replace_loads(alloc, loads, found),
        Err(error) => refuse(error),
    }
}

// The token of a number, if the last preload gave one.
fn token_at<R: Reader>(loads: &[(SplitDwarfLoad<R>, UnitToken)], number: usize) -> Option<UnitToken>
    ensures { result ≡ slice_get (map token_of loads.now) number }
{
    match loads.get(number) {
        Some((_, token)) => Some(*token),
        None => None,
    }
}

// The load of the token of a number is answered.
pub(crate) fn answer_by_token<R: Reader>(
    context: &mut Context<R>,
    loads: &[(SplitDwarfLoad<R>, UnitToken)],
    number: usize,
    file: Option<Rc<Dwarf<R>>>,
) -> Result<Answer, Error>
    ensures answer { CopiesOrNoMemory answer_of result (copied_answer (call_on context.old.value
        (map token_of loads.now)
        (answer_token number (option_map (λ f. f.value.file) file))).0) }
    ensures left { OnOk result (context.new.value.answers ≡ (call_on context.old.value
        (map token_of loads.now)
        (answer_token number (option_map (λ f. f.value.file) file))).1.answers) }
    ensures plain { context.new.value.plain ≡ context.old.value.plain }
    ensures part { OnErr result ((context.new.value.answers ≡ context.old.value.answers)
        ⊎ (context.new.value.answers ≡ (call_on context.old.value (map token_of loads.now)
        (answer_token number (option_map (λ f. f.value.file) file))).1.answers)) }
    ensures kept { KeepsAndReads (λ _. ⊥) (λ _. ⊥) context.old.units context.new.units }
{
    match token_at(loads, number) {
        Some(token) => complete(context.answer_load(token, file)),
        None => {
            drop(file);
            Ok(Answer::NoToken)
        }
    }
}
