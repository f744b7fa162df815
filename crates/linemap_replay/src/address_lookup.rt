//! Lookups of an address that may wait for loads, and copies of what they find.

ghost use Rattle.std.specs.Prelude.{◌≡◌, ℕ, List};
ghost use Rattle.addr2line_context.specs.AnsweredContexts.{AnsweredContext};
ghost use Rattle.addr2line_context.specs.FirstAnswers.{Lookup};
ghost use Rattle.addr2line_context.specs.FrameLoads.{DecidesUnlessWaiting};
ghost use Rattle.addr2line_context.specs.Histories.{CallAnswer, answer_or_suspension};
ghost use Rattle.addr2line_context.specs.OwnedPlaces.{CopiesOrNoMemory};
ghost use Rattle.addr2line_context.specs.ResolvedUnits.{ResolvedUnit};
ghost use Rattle.addr2line_context.specs.SettledLookups.{loads_in};
ghost use Rattle.linemap_replay.specs.CallEffects.{KeepsAndReads};
ghost use Rattle.linemap_replay.specs.OwnedAnswers.{answer_of, copied_answer};
ghost use Rattle.linemap_replay.specs.Replays.{WaitsForFirst};

use crate::answer::Answer;
use crate::completions::refuse;
use crate::copied_frames::{answer_frames, copy_unit_if_any};
use addr2line_context::frame_loads::{DecidedFrames, lend_frames, settle_frames};
use addr2line_context::unit_loads::{DecidedUnit, lend_unit, settle_unit};
use addr2line_context::{Context, Error, Reader};
use std::alloc::Global;

// A lookup of an address that may wait for loads.
pub(crate) trait AddressLookup<R: Reader> {
    // What decides it.
    type Decided: Drop;

    // What it finds.
    ghost Found: { Type 0 };

    ghost lookup: { AnsweredContext → ℕ → Lookup Found };

    // It asks the unit of a number.
    ghost asks: { AnsweredContext → ℕ → ℕ → Type 0 };

    // The answer of a call that finds this.
    ghost answer: { Found → CallAnswer };

    // This decides a lookup, in these units.
    ghost Decides: { List ResolvedUnit → Lookup Found → Self.Decided → Type 0 };

    // What decides it, unless it waits for a load. What is read on the way is kept, and nothing is
    // read of units that it doesn't ask. The only error is out of memory.
    fn settle(context: &mut Context<R>, probe: u64) -> Result<Option<Self::Decided>, Error>
        ensures settles { DecidesUnlessWaiting (Decides context.new.units)
            (lookup context.old.value probe) result }
        ensures first { WaitsForFirst (loads_in context.old.value probe)
            (lookup context.old.value probe) }
        ensures value { context.new.value ≡ context.old.value }
        ensures kept { KeepsAndReads (asks context.old.value probe) (asks context.old.value probe)
            context.old.units context.new.units };

    // A copy of what it finds, once it is decided.
    fn copy_found(
        alloc: Global,
        context: &Context<R>,
        decided: Self::Decided,
    ) -> Result<Answer, Error>
        requires { (meaning : Lookup Found) × Decides context.now.units meaning decided }
        ensures { (meaning : Lookup Found) → Decides context.now.units meaning decided
            → CopiesOrNoMemory answer_of result
            (copied_answer (answer_or_suspension answer meaning)) };
}

// The lookup of the frames of an address.
pub(crate) struct FrameLookup;

impl<R: Reader> AddressLookup<R> for FrameLookup {
    ghost use Rattle.std.specs.Prelude.{List, Result};
    ghost use Rattle.addr2line_context.specs.ContextCosts.{AsksForFrames};
    ghost use Rattle.addr2line_context.specs.Error.{Error};
    ghost use Rattle.addr2line_context.specs.FrameLoads.{DecidesFrames};
    ghost use Rattle.addr2line_context.specs.Frames.{Frame};
    ghost use Rattle.addr2line_context.specs.Histories.{frames_answer};
    ghost use Rattle.addr2line_context.specs.SettledLookups.{frames_in};

    type Decided = DecidedFrames;

    ghost Found = { Result (List Frame) Error };

    ghost lookup = { frames_in };

    ghost asks = { AsksForFrames };

    ghost answer = { frames_answer };

    ghost Decides = { DecidesFrames };

    fn settle(context: &mut Context<R>, probe: u64) -> Result<Option<DecidedFrames>, Error> {
        settle_frames(context, probe)
    }

    fn copy_found(
        alloc: Global,
        context: &Context<R>,
        decided: DecidedFrames,
    ) -> Result<Answer, Error> {
        match lend_frames(context, decided) {
            Ok(frames) => answer_frames(alloc, frames),
            Err(error) => refuse(error),
        }
    }
}

// The lookup of the unit of an address.
pub(crate) struct UnitLookup;

impl<R: Reader> AddressLookup<R> for UnitLookup {
    ghost use Rattle.std.specs.Prelude.{Option};
    ghost use Rattle.addr2line_context.specs.ContextCosts.{AsksForUnit};
    ghost use Rattle.addr2line_context.specs.FrameLoads.{DecidesUnit};
    ghost use Rattle.addr2line_context.specs.Histories.{unit_answer};
    ghost use Rattle.addr2line_context.specs.SettledLookups.{unit_in};
    ghost use Rattle.addr2line_context.specs.UnitFacts.{UnitInFile};

    type Decided = DecidedUnit;

    ghost Found = { Option UnitInFile };

    ghost lookup = { unit_in };

    ghost asks = { AsksForUnit };

    ghost answer = { unit_answer };

    ghost Decides = { DecidesUnit };

    fn settle(context: &mut Context<R>, probe: u64) -> Result<Option<DecidedUnit>, Error> {
        settle_unit(context, probe)
    }

    fn copy_found(
        _alloc: Global,
        context: &Context<R>,
        decided: DecidedUnit,
    ) -> Result<Answer, Error> {
        Ok(Answer::Unit(copy_unit_if_any(lend_unit(context, decided))))
    }
}
