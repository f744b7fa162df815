//! Copies of stretches.

ghost use Rattle.std.specs.Prelude.{◌≡◌, map};
ghost use Rattle.addr2line_context.specs.ContextCosts.{AsksForRange};
ghost use Rattle.addr2line_context.specs.Contexts.{stretches};
ghost use Rattle.addr2line_context.specs.Histories.{stretches_answer};
ghost use Rattle.addr2line_context.specs.OwnedPlaces.{CopiesOrNoMemory, stretch_of};
ghost use Rattle.linemap_replay.specs.CallEffects.{KeepsAndReads};
ghost use Rattle.linemap_replay.specs.OwnedAnswers.{answer_of, copied_answer};
ghost use Rattle.linemap_replay.specs.StretchEnds.{EndsBy};

use crate::answer::Answer;
use addr2line_context::{Context, Error, OwnedStretch, Reader};
use std::alloc::Global;

// These stretches, and the refusal that ends them, unless it is out of memory.
fn end_by(copies: Vec<OwnedStretch>, error: Error) -> Result<Answer, Error>
    ensures { EndsBy (map stretch_of copies.items) error result }
{
    match error {
        Error::Memory => Err(Error::Memory),
        _ => Ok(Answer::Range(copies, Some(error))),
    }
}

// Copies of the stretches between two ends, and the refusal that ends them, if one does.
pub(crate) fn copy_stretches<R: Reader>(
    alloc: Global,
    context: &mut Context<R>,
    low: u64,
    high: u64,
) -> Result<Answer, Error>
    ensures answer { CopiesOrNoMemory answer_of result
        (copied_answer (stretches_answer (stretches context.old.value.plain.context low high))) }
    ensures value { context.new.value ≡ context.old.value }
    ensures kept { KeepsAndReads (AsksForRange context.old.value low high) (λ _. ⊥)
        context.old.units context.new.units }
{
    let mut stretches = context.find_location_range(low, high)?;
    let mut copies = Vec::new(alloc);
    'item: loop {
        match stretches.next() {
            Ok(Some(item)) => copies.push(OwnedStretch::copy(alloc, item)?)?,
            Ok(None) => return Ok(Answer::Range(copies, None)),
            Err(error) => return end_by(copies, error),
        }
    }
}
