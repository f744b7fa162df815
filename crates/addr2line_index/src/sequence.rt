//! Rows of line number programs, and sequences of them.

ghost use Rattle.std.specs.Prelude.{◌≡◌};
ghost use Rattle.addr2line_spec.specs.Lines.{range_of};

use crate::row_list::RowList;
use addr2line_spec::Range;
use std::marker::Model;

/// A row as a line number program emits it: the registers that lookups use (DWARF 5, 6.2.2).
#[derive(Clone, Copy, Debug, PartialEq, Eq)]
pub struct ProgramRow {
    pub address: u64,
    /// The number of the file.
    pub file: u64,
    /// From 1 on; 0 for an address of no line.
    pub line: u64,
    /// From 1 on; 0 for the left edge.
    pub column: u64,
    pub statement: bool,
    pub discriminator: u64,
    /// Whether the row ends a sequence, of which only its address counts.
    pub ends: bool,
}

impl Model for ProgramRow {
    ghost use Rattle.addr2line_spec.specs.Lines.{ProgramRow as Row};

    ghost Value = { Row };

    ghost view = { λ r.
        record {
          address = r.address;
          file = r.file;
          line = r.line;
          column = r.column;
          statement = r.statement;
          discriminator = r.discriminator;
          ends = r.ends;
        } };

    ghost inverse = { λ r.
        record {
          address = r.address;
          file = r.file;
          line = r.line;
          column = r.column;
          statement = r.statement;
          discriminator = r.discriminator;
          ends = r.ends;
        } };
}

/// A row of a line number program: from its address on, a place in the source (DWARF 5, 6.2.2).
#[derive(Clone, Copy, Debug, PartialEq, Eq)]
pub struct LineRow {
    pub(crate) address: u64,
    pub(crate) file: u64,
    pub(crate) line: u32,
    pub(crate) column: u32,
    pub(crate) statement: bool,
    pub(crate) discriminator: u64,
}

impl Model for LineRow {
    ghost use Rattle.addr2line_spec.specs.Lines.{LineRow as Row};

    ghost Value = { Row };

    ghost view = { λ r.
        record {
          address = r.address;
          file = r.file;
          line = r.line;
          column = r.column;
          statement = r.statement;
          discriminator = r.discriminator;
        } };

    ghost inverse = { λ r.
        record {
          address = r.address;
          file = r.file;
          line = r.line;
          column = r.column;
          statement = r.statement;
          discriminator = r.discriminator;
        } };
}

/// Rows of a line number program, up to the address that ended them. The first row is below that.
#[derive(Debug)]
pub struct LineSequence {
    pub(crate) start: u64,
    pub(crate) end: u64,
    pub(crate) rows: RowList,
}

impl Drop for LineSequence {
    fn drop(self) {
        let LineSequence {
            start: _,
            end: _,
            rows: _,
        } = self;
    }
}

impl Model for LineSequence {
    ghost use Rattle.addr2line_spec.specs.Lines.{Sequence};

    ghost Value = { Sequence };

    ghost view = { λ s. record { start = s.start; end = s.end; rows = s.rows } };
}

impl LineSequence {
    /// The addresses from the first row's on up to, and without, the one that ended the rows.
    pub fn range(&self) -> Range
        ensures { result ≡ range_of self.now }
    {
        Range {
            begin: self.start,
            end: self.end,
        }
    }

    // Its rows.
    pub(crate) fn into_rows(self) -> RowList
        ensures { result ≡ self.rows }
    {
        let LineSequence {
            start: _,
            end: _,
            rows,
        } = self;
        rows
    }
}
