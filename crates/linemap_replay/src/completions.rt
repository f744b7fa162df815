//! Refusals as answers.

ghost use Rattle.linemap_replay.specs.Outcomes.{Refuses, Completes};

use crate::answer::Answer;
use addr2line_context::Error;

// A refusal is an answer, unless it is out of memory.
pub(crate) fn refuse(error: Error) -> Result<Answer, Error>
    ensures { Refuses error result }
{
    match error {
        Error::Memory => Err(Error::Memory),
        _ => Ok(Answer::Refused(error)),
    }
}

// The end of a call that finds nothing.
pub(crate) fn complete(done: Result<(), Error>) -> Result<Answer, Error>
    ensures { Completes done result }
{
    match done {
        Ok(()) => Ok(Answer::Done),
        Err(error) => refuse(error),
    }
}
