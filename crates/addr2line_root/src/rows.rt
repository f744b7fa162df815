//! The rows of a line number program, pushed to a builder of lines.

ghost use Rattle.std.specs.Prelude.{◌≡◌};
ghost use Rattle.addr2line_index.specs.UnitLines.{program_row};
ghost use Rattle.addr2line_root.specs.LineProgramRuns.{AddsRows, RunsProgram};

use addr2line_index::{LinesBuilder, ProgramRow};
use gimli_lines_rows::{
    BorrowedLineProgram, ColumnType, Error, LineProgramHeader, LineRow, LineRows, Reader, RowSink,
};

// The number of a row's line; 0 where it has none.
fn line_of(row: &LineRow) -> u64
    ensures { result ≡ row.now.line }
{
    match row.line() {
        Some(line) => line.get(),
        None => 0,
    }
}

// The number of a row's column; 0 for the left edge.
fn column_of(row: &LineRow) -> u64
    ensures { result ≡ row.now.column }
{
    match row.column() {
        ColumnType::LeftEdge => 0,
        ColumnType::Column(column) => column.get(),
    }
}

// A row as lookups see it.
#[inline(always)]
fn program_row(row: &LineRow) -> ProgramRow
    ensures { result ≡ program_row row.now }
{
    ProgramRow {
        address: row.address(),
        file: row.file_index(),
        line: line_of(row),
        column: column_of(row),
        statement: row.is_stmt(),
        discriminator: row.discriminator(),
        ends: row.end_sequence(),
    }
}

// A builder of lines, as the sink of a program's rows.
#[derive(Drop)]
pub(crate) struct BuilderSink {
    pub(crate) builder: LinesBuilder,
}

impl RowSink for BuilderSink {
    ghost use Rattle.addr2line_index.specs.Lines.{ProgramRow};
    ghost use Rattle.addr2line_index.specs.PartialLines.{partial_lines};

    ghost Kept = { ProgramRow };

    ghost form = { program_row };

    ghost HasTaken = { λ s rows. s.builder ≡ partial_lines rows };

    #[inline(always)]
    fn take(&mut self, row: &LineRow) -> Result<(), Error> {
        self.builder.push(program_row(row))
    }
}

// Pushes all rows to come to the builder.
fn push_rows<R: Reader>(
    sink: &mut BuilderSink,
    rows: &mut LineRows<R, BorrowedLineProgram<'_, R>>,
) -> Result<(), Error>
    ensures { AddsRows R.Offset.limit result rows.old rows.new sink.old.builder sink.new.builder }
{
    rows.run_all(sink)
}

// Runs a program to its end and pushes its rows to the builder. What is left of the rows has the
// header with the files that the program has defined. Refused by the program's fault, or when out
// of memory.
pub(crate) fn run_program<'header, R: Reader>(
    sink: &mut BuilderSink,
    header: &'header LineProgramHeader<R>,
) -> Result<LineRows<R, BorrowedLineProgram<'header, R>>, Error>
    ensures { RunsProgram R.Offset.limit result header.now sink.old.builder sink.new.builder }
{
    let mut rows = BorrowedLineProgram::new(header).rows()?;
    push_rows(sink, &mut rows)?;
    Ok(rows)
}
