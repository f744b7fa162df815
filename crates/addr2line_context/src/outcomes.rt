//! What counts of a result where refusals don't.

ghost use Rattle.addr2line_context.specs.Outcomes.{IsMemoryAlone};

use addr2line_lookups::Error;

// Out of memory, if it was that, and no other refusal.
pub(crate) fn memory_alone(answered: Result<(), Error>) -> Result<(), Error>
    ensures { IsMemoryAlone answered result }
{
    match answered {
        Ok(()) => Ok(()),
        Err(error) => match error {
            Error::Memory => Err(Error::Memory),
            _ => Ok(()),
        },
    }
}
