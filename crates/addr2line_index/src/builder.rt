//! Lines made of the rows of a line number program, one at a time.

ghost use Rattle.std.specs.Prelude.{◌≡◌, ◌++◌, ◌∷◌, [], List, OnOk, OnErr, IfErr, map};
ghost use Rattle.std.specs.String.{string_bytes};
ghost use Rattle.addr2line_spec.specs.Error.TheVariants.{Memory};
ghost use Rattle.addr2line_spec.specs.Lines.{ProgramRow as Row, line_row, sequences_of_rows};
ghost use Rattle.addr2line_index.specs.PartialLines.{partial_lines, with_end, with_row};

use crate::lines::Lines;
use crate::row_list::RowList;
use crate::sequence::{LineRow, LineSequence, ProgramRow};
use addr2line_spec::Error;
use std::alloc::Global;
use std::marker::Model;

/// What has been made of the first rows of a line number program. A contract says of which rows it
/// is made.
pub struct LinesBuilder {
    sequences: Vec<LineSequence>,
    rows: RowList,
}

impl Drop for LinesBuilder {
    fn drop(self) {
        let LinesBuilder {
            sequences: _,
            rows: _,
        } = self;
    }
}

impl Model for LinesBuilder {
    ghost use Rattle.addr2line_index.specs.PartialLines.{PartialLines};

    ghost Value = { PartialLines };

    ghost view = { λ b. record { sequences = b.sequences.items; rows = b.rows } };
}

// A row as lookups use it.
#[inline(always)]
fn line_row(row: ProgramRow) -> LineRow
    ensures { result ≡ line_row row }
{
    LineRow {
        address: row.address,
        file: row.file,
        line: (row.line % (1 << 32)) as u32,
        column: (row.column % (1 << 32)) as u32,
        statement: row.statement,
        discriminator: row.discriminator,
    }
}

impl LinesBuilder {
    /// No rows. It takes no memory.
    pub fn new(alloc: Global) -> Self
        ensures { result ≡ partial_lines [] }
    {
        LinesBuilder {
            sequences: Vec::new(alloc),
            rows: RowList::new(alloc),
        }
    }

    /// Takes the next row. Its line and column are taken modulo 2^32. Out of memory leaves the
    /// builder as it was.
    #[inline(always)]
    pub fn push(&mut self, row: ProgramRow) -> Result<(), Error>
        ensures ok { OnOk result ((rows : List Row) → self.old ≡ partial_lines rows
            → self.new ≡ partial_lines (rows ++ row ∷ [])) }
        ensures err { OnErr result (self.new ≡ self.old) }
        ensures refusal { IfErr result (λ e. e ≡ Memory) }
    {
        if row.ends {
            self.end(row.address)
        } else {
            self.put(line_row(row))
        }
    }

    #[inline(always)]
    fn put(&mut self, row: LineRow) -> Result<(), Error>
        ensures ok { OnOk result (self.new ≡ with_row row self.old) }
        ensures err { OnErr result (self.new ≡ self.old) }
        ensures refusal { IfErr result (λ e. e ≡ Memory) }
    {
        self.rows.put(row)
    }

    // Ends the rows since the last end: a sequence, if the first of them is below their end. It is
    // rare: what appends a row doesn't hold its code.
    #[inline(never)]
    fn end(&mut self, end: u64) -> Result<(), Error>
        ensures ok { OnOk result (self.new ≡ with_end end self.old) }
        ensures err { OnErr result (self.new ≡ self.old) }
        ensures refusal { IfErr result (λ e. e ≡ Memory) }
    {
        let alloc = *self.sequences.allocator();
        let start = match self.rows.first_address() {
            Some(first) if first < end => first,
            _ => {
                self.rows.take(alloc);
                return Ok(());
            }
        };
        self.sequences.reserve(1)?;
        let rows = self.rows.take(alloc);
        self.sequences.push(LineSequence { start, end, rows })?;
        Ok(())
    }

    /// The lines that the rows make, with the texts of files by their numbers. Rows that nothing
    /// ended are left out.
    pub fn finish(self, files: Vec<String>) -> Lines
        ensures { (rows : List Row) → self ≡ partial_lines rows
            → result ≡ record {
              sequences = sequences_of_rows rows;
              files = map string_bytes files.items;
            } }
    {
        let LinesBuilder { sequences, rows: _ } = self;
        Lines::from_parts(sequences, files)
    }
}
