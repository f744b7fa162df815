//! The loads of a lookup, answered by the split files of a source.

ghost use Rattle.std.specs.Prelude.{◌≡◌, ◌≢◌, ◌<◌, ℕ, length, OnOk, Err};
ghost use Rattle.addr2line_context.specs.ContextCosts.{frame_search, AsksForFrames, AfterSearch};
ghost use Rattle.addr2line_context.specs.Error.TheVariants.{Memory};
ghost use Rattle.addr2line_context.specs.FrameLoads.{IsDone};
ghost use Rattle.addr2line_context.specs.PassedUnits.{KeepsAskedFunctions};
ghost use Rattle.addr2line_context.specs.SettledLookups.{frames_in, loads_in};
ghost use Rattle.addr2line_context.specs.UnitLookups.{IsPending};
ghost use Rattle.addr2line_loader.specs.ResolvedFiles.{ReadsForFrames};
ghost use Rattle.addr2line_loader.specs.SourceAnswers.{AnswersOneOrNoMemory, DecidesOrNoMemory};

use addr2line_context::frame_loads::{DecidedFrames, answer_first, first_load, settle_frames};
use addr2line_context::{Context, Error};
use addr2line_split::{ImageReader, SplitSource, load_split};
use std::alloc::Global;

// Answers each load that the frames of an address wait for by the split file that a source has for
// it, or by none, and gives the frames that are decided then. They are searched once for each load,
// and once more.
pub(crate) fn answer_loads<S: SplitSource>(
    alloc: Global,
    context: &mut Context<ImageReader>,
    probe: u64,
    source: &mut S,
) -> Result<DecidedFrames, Error>
    ensures plain { context.new.value.plain ≡ context.old.value.plain }
    ensures loads { DecidesOrNoMemory S.answers context.old.value.plain probe context.new.units
        (record { answers = context.old.value.answers; source = source.old }) result
        (record { answers = context.new.value.answers; source = source.new }) }
    ensures units { ReadsForFrames context.new.value probe context.old.units context.new.units }
    ensures asked { result ≢ Err Memory
        → KeepsAskedFunctions (AsksForFrames context.new.value probe) context.new.units }
    ensures alone { IsDone (frames_in context.old.value probe)
        → AfterSearch frame_search (result ≢ Err Memory) probe context.old context.new }
{
    loop {
        match settle_frames(context, probe)? {
            Some(decided) => return Ok(decided),
            None => answer_next(alloc, context, probe, source)?,
        }
    }
}

// Answers the first load that the frames of an address wait for.
fn answer_next<S: SplitSource>(
    alloc: Global,
    context: &mut Context<ImageReader>,
    probe: u64,
    source: &mut S,
) -> Result<(), Error>
    requires { IsPending (frames_in context.old.value probe) }
    ensures plain { context.new.value.plain ≡ context.old.value.plain }
    ensures loads { AnswersOneOrNoMemory S.answers context.old.value.plain probe
        (record { answers = context.old.value.answers; source = source.old }) result
        (record { answers = context.new.value.answers; source = source.new }) }
    ensures units { ReadsForFrames context.new.value probe context.old.units context.new.units }
    ensures asks { (number : ℕ) → AsksForFrames context.old.value probe number
        → AsksForFrames context.new.value probe number }
    ensures fewer { OnOk result
        (length (loads_in context.new.value probe) < length (loads_in context.old.value probe)) }
{
    let load = first_load(context, probe)?;
    let file = load_split(alloc, &load, source)?;
    answer_first(context, probe, file)
}
