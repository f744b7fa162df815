//! The sequences of a program.

ghost use Rattle.std.specs.Prelude.{◌≡◌};
ghost use Rattle.gimli_lines_rows.specs.RowSequences.{NextSequence};

use crate::LineInstructions;
use crate::program::LineProgram;
use crate::rows::LineRows;
use gimli_lines_machine::{Error, Reader};
use std::marker::Model;

/// Rows up to one that ends a sequence: their addresses never go down (DWARF 5, 6.2.2).
#[derive(Drop)]
pub struct LineSequence<R: Reader> {
    /// The first address.
    pub start: u64,
    /// The first address after the sequence.
    pub end: u64,
    instructions: LineInstructions<R>,
}

impl<R: Reader> Model for LineSequence<R> {
    ghost use Rattle.gimli_lines_rows.specs.RowSequences.{RowSequence};

    ghost Value = { RowSequence };

    ghost view = { λ s. record { start = s.start; end = s.end; instructions = s.instructions } };
}

impl<R: Reader> LineSequence<R> {
    // The instructions that make the rows.
    pub(crate) fn instructions(&self) -> &LineInstructions<R>
        ensures { result.now ≡ self.now.instructions }
    {
        &self.instructions
    }
}

// The next sequence, none where the program ends before another end of a sequence.
pub(crate) fn next_sequence<R: Reader, P: LineProgram<R> + Drop>(
    rows: &mut LineRows<R, P>,
) -> Result<Option<LineSequence<R>>, Error>
    ensures { NextSequence R.Offset.limit result rows.old rows.new }
{
    let before = rows.instructions().copy()?;
    let mut start = None;
    while rows.advance()? {
        let address = rows.row().address();
        if rows.row().end_sequence() {
            return Ok(Some(LineSequence {
                start: start.unwrap_or(0),
                end: address,
                instructions: before.up_to(rows.instructions())?,
            }));
        }
        start = start.or(Some(address));
    }
    Ok(None)
}
