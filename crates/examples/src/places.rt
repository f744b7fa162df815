//! With `addr2line` alone: the source line of an address.

ghost use Rattle.addr2line.specs.Calls.{ReturnsOrNoMemory};
ghost use Rattle.examples.specs.SourceLines.{source_line};

use addr2line::{Context, Error, Reader};

/// The source line of an address, where one is known. What the context reads on the way it keeps
/// for later calls.
pub fn source_line<R: Reader>(context: &mut Context<R>, address: u64) -> Result<Option<u32>, Error>
    ensures { ReturnsOrNoMemory result (source_line context.old.value.plain.context address) }
{
    match context.find_location(address) {
        Ok(Some(location)) => Ok(location.line),
        Ok(None) => Ok(None),
        Err(error) => Err(error),
    }
}
