//! Calls that read all units.

ghost use Rattle.std.specs.Prelude.{◌≡◌, [], ⊤, OnErr, OnOk};
ghost use Rattle.addr2line_context.specs.ContextNames.{naming_in};
ghost use Rattle.addr2line_context.specs.Histories.{calls_or_refusal, functions_or_refusal, parse_lines, parse_functions, parse_inlined_functions};
ghost use Rattle.addr2line_context.specs.KeptUnits.{AsksForLines};
ghost use Rattle.addr2line_context.specs.OwnedPlaces.{CopiesOrNoMemory};
ghost use Rattle.linemap_replay.specs.CallEffects.{KeepsAndReads, SomeUnitsParsed};
ghost use Rattle.linemap_replay.specs.OwnedAnswers.{answer_of, copied_answer};
ghost use Rattle.linemap_replay.specs.Replays.{call_on};

use crate::answer::Answer;
use crate::completions::complete;
use addr2line_context::{Context, Error, Reader};

// Reads the lines of all units.
pub(crate) fn read_lines<R: Reader>(context: &mut Context<R>) -> Result<Answer, Error>
    ensures answer { CopiesOrNoMemory answer_of result
        (copied_answer (call_on context.old.value [] parse_lines).0) }
    ensures value { context.new.value ≡ context.old.value }
    ensures kept { KeepsAndReads (AsksForLines context.old.value.plain.context.units) (λ _. ⊥)
        context.old.units context.new.units }
{
    complete(context.parse_lines())
}

// Reads the functions of all units.
pub(crate) fn read_functions<R: Reader>(context: &mut Context<R>) -> Result<Answer, Error>
    ensures answer { CopiesOrNoMemory answer_of result
        (copied_answer (call_on context.old.value [] parse_functions).0) }
    ensures left { OnOk result (context.new.value.answers
        ≡ (call_on context.old.value [] parse_functions).1.answers) }
    ensures plain { context.new.value.plain ≡ context.old.value.plain }
    ensures part { OnErr result (SomeUnitsParsed context.old.value.plain
        (functions_or_refusal context.old.value.plain)
        context.old.value.answers context.new.value.answers) }
    ensures kept { KeepsAndReads (λ _. ⊥) (λ _. ⊤) context.old.units context.new.units }
{
    complete(context.parse_functions())
}

// Reads them with the calls that are inlined into them.
pub(crate) fn read_calls<R: Reader>(context: &mut Context<R>) -> Result<Answer, Error>
    ensures answer { CopiesOrNoMemory answer_of result
        (copied_answer (call_on context.old.value [] parse_inlined_functions).0) }
    ensures left { OnOk result (context.new.value.answers
        ≡ (call_on context.old.value [] parse_inlined_functions).1.answers) }
    ensures plain { context.new.value.plain ≡ context.old.value.plain }
    ensures part { OnErr result (SomeUnitsParsed context.old.value.plain
        (calls_or_refusal context.old.value.plain (naming_in context.old.value.plain))
        context.old.value.answers context.new.value.answers) }
    ensures kept { KeepsAndReads (λ _. ⊥) (λ _. ⊤) context.old.units context.new.units }
{
    complete(context.parse_inlined_functions())
}
