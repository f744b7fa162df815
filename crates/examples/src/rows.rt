//! With `gimli_lines` alone: the rows of a line number program.

ghost use Rattle.gimli_lines.specs.Calls.{ReturnsAsOrNoMemory};
ghost use Rattle.examples.specs.RowAddresses.{row_addresses};

use gimli_lines::{Error, IncompleteLineProgram, LineProgramHeader, Reader};
use std::alloc::Global;

/// The addresses of a program's rows, in order, or the first fault among them.
pub fn row_addresses<R: Reader>(
    alloc: Global,
    header: LineProgramHeader<R>,
) -> Result<Vec<u64>, Error>
    ensures { ReturnsAsOrNoMemory (λ addresses. addresses.items) result
        (row_addresses R.Offset.limit header) }
{
    let mut addresses = Vec::new(alloc);
    let mut rows = IncompleteLineProgram::new(header).rows()?;
    while rows.advance()? {
        addresses.push(rows.row().address())?;
    }
    Ok(addresses)
}
