//! The loads that the frames of an address wait for, one after the other, for a crate that answers
//! each itself. Once all are answered, one search decides the frames, and lends nothing; then they
//! are lent from the context, in which nothing is searched again.

ghost use Rattle.std.specs.Prelude.{◌≡◌, ◌≢◌, ◌⊎◌, ◌<◌, ◌≤◌, ◌+◌, List, Result, OnOk, Err, IfErr, length, option_map};
ghost use Rattle.addr2line_lookups.specs.BorrowedFrames.{frames_left};
ghost use Rattle.addr2line_lookups.specs.Error.{Error};
ghost use Rattle.addr2line_lookups.specs.Error.TheVariants.{Memory};
ghost use Rattle.addr2line_lookups.specs.FirstAnswers.{Lookup};
ghost use Rattle.addr2line_lookups.specs.Frames.{Frame};
ghost use Rattle.addr2line_lookups.specs.KeptUnits.{ReadsNoLines, ReadsNoFunctions};
ghost use Rattle.addr2line_lookups.specs.LookupCosts.{AtMostLooks};
ghost use Rattle.addr2line_context.specs.ContextCosts.{frame_search, AfterSearch};
ghost use Rattle.addr2line_context.specs.FrameLoads.{DecidesUnlessWaiting, DecidesFrames, IsSettled, GivesDecided};
ghost use Rattle.addr2line_context.specs.SettledLookups.{frames_in, loads_in, after_answer, LoadOf};

use crate::context::Context;
use addr2line_lookups::{
    Dwarf, Error, FrameIter, FramePlace, Reader, Settled, SplitDwarfLoad, frame_without_function,
};
use std::rc::Rc;

/// The frames of an address that wait for no load: where they are in the context that was asked,
/// that there are none, or why they are refused.
#[derive(Drop)]
pub enum DecidedFrames {
    /// They are at a place.
    Place(FramePlace),
    /// There are none.
    NoFrames,
    /// They are refused.
    Refusal(Error),
}

// What settling found, unless a load needs an answer. The only error is out of memory.
fn decided_frames(
    settled: Result<Settled<FramePlace>, Error>,
) -> Result<Option<DecidedFrames>, Error>
    ensures { IsSettled settled result }
{
    match settled {
        Ok(Settled::Waits) => Ok(None),
        Ok(Settled::Nothing) => Ok(Some(DecidedFrames::NoFrames)),
        Ok(Settled::Found(place)) => Ok(Some(DecidedFrames::Place(place))),
        Err(error) => match error {
            Error::Memory => Err(Error::Memory),
            _ => Ok(Some(DecidedFrames::Refusal(error))),
        },
    }
}

/// Decides the frames of an address, unless they wait for a load. What is read on the way is kept.
/// The only error is out of memory.
pub fn settle_frames<R: Reader>(
    context: &mut Context<R>,
    probe: u64,
) -> Result<Option<DecidedFrames>, Error>
    ensures after { AfterSearch frame_search (result ≢ Err Memory) probe context.old context.new }
    ensures settles { DecidesUnlessWaiting (DecidesFrames context.new.units)
        (frames_in context.old.value probe) result }
{
    let settled = context.settle_frames(probe);
    decided_frames(settled)
}

/// Decided frames, as `Context::find_frames` finds them, lent from the context that decided them,
/// whose units are still as they were then. Nothing is searched.
pub fn lend_frames<R: Reader>(
    context: &Context<R>,
    decided: DecidedFrames,
) -> Result<FrameIter<'_, R>, Error>
    requires { (meaning : Lookup (Result (List Frame) Error))
        × DecidesFrames context.now.units meaning decided }
    ensures { (meaning : Lookup (Result (List Frame) Error))
        → DecidesFrames context.now.units meaning decided
        → GivesDecided frames_left result meaning }
{
    match decided {
        DecidedFrames::Place(place) => Ok(context.units.frames_at_place(place)),
        DecidedFrames::NoFrames => Ok(frame_without_function(None)),
        DecidedFrames::Refusal(error) => Err(error),
    }
}

/// The first load of an address that has one. The only error is out of memory.
pub fn first_load<R: Reader>(context: &Context<R>, probe: u64) -> Result<SplitDwarfLoad<R>, Error>
    requires { 0 < length (loads_in context.now.value probe) }
    ensures { LoadOf (loads_in context.now.value probe) result }
{
    context.first_load(probe)
}

/// Answers that load by the sections of the other file, or by none where there is no such file.
/// What the answer makes of its unit, a refusal too, is recorded: the only error is out of memory.
pub fn answer_first<R: Reader>(
    context: &mut Context<R>,
    probe: u64,
    file: Option<Rc<Dwarf<R>>>,
) -> Result<(), Error>
    ensures plain { context.new.value.plain ≡ context.old.value.plain }
    ensures ok { OnOk result (context.new.value.answers
        ≡ (after_answer context.old.value probe (option_map (λ f. f.value.file) file)).answers) }
    ensures fewer { OnOk result (0 < length (loads_in context.new.value probe)
        → length (loads_in context.new.value probe) + 1
        ≤ length (loads_in context.old.value probe)) }
    ensures left { (context.new.value.answers
        ≡ (after_answer context.old.value probe (option_map (λ f. f.value.file) file)).answers)
        ⊎ (context.new.value.answers ≡ context.old.value.answers) }
    ensures refusal { IfErr result (λ e. e ≡ Memory) }
    ensures cost { AtMostLooks 0 context.old.units context.new.units }
    ensures lines { ReadsNoLines context.old.units context.new.units }
    ensures functions { ReadsNoFunctions context.old.units context.new.units }
{
    context.answer_first(probe, file)
}
