//! Rows in 24 bytes, which almost all fit.

ghost use Rattle.std.specs.Prelude.{◌≡◌};
ghost use Rattle.addr2line_index.specs.NarrowRows.{if_narrow};

use crate::sequence::LineRow;
use std::marker::Model;
use std::mem::size_of;

const _: () = prove!(size_of::<NarrowRow>() == 24);

/// A row whose column is a number of 16 bits, and whose file and discriminator are of 32.
#[derive(Debug, Drop)]
pub struct NarrowRow {
    pub(crate) address: u64,
    file: u32,
    line: u32,
    discriminator: u32,
    column: u16,
    statement: bool,
}

impl Model for NarrowRow {
    ghost use Rattle.addr2line_spec.specs.Lines.{LineRow as Row};

    ghost Value = { Row };

    ghost view = { λ r.
        record {
          address = r.address;
          file = r.file;
          line = r.line;
          column = r.column;
          statement = r.statement;
          discriminator = r.discriminator;
        } };
}

impl NarrowRow {
    // The row, if its numbers fit.
    #[inline(always)]
    pub(crate) fn of(row: &LineRow) -> Option<Self>
        ensures { result ≡ if_narrow row.now }
    {
        if row.file >= 1 << 32 || row.column >= 1 << 16 || row.discriminator >= 1 << 32 {
            return None;
        }
        Some(NarrowRow {
            address: row.address,
            file: row.file as u32,
            line: row.line,
            discriminator: row.discriminator as u32,
            column: row.column as u16,
            statement: row.statement,
        })
    }

    // The same row, wide.
    pub(crate) fn row(&self) -> LineRow
        ensures { result ≡ self.now }
    {
        LineRow {
            address: self.address,
            file: u64::from(self.file),
            line: self.line,
            column: u32::from(self.column),
            statement: self.statement,
            discriminator: u64::from(self.discriminator),
        }
    }
}
