//! The sequences of a line number program, from a table's.

ghost use Rattle.std.specs.Prelude.{◌≡◌, ◌≤◌, ◌<◌, length, map, OnOk, IfErr};
ghost use Rattle.linemap_emit_rows.specs.WriteError.TheVariants.{Memory};
ghost use Rattle.linemap_emit_rows.specs.TableViews.{row_part, sequence_part};
ghost use Rattle.linemap_emit_rows.specs.EmittedRows.{AllFrom, AllOrdered, IsOrdered, emitted_row, emitted_sequence, emitted_sequences};
ghost use Rattle.linemap_emit_programs.specs.EmittedFiles.{place_in};
ghost use Rattle.linemap_emit_rows.specs.SequenceBuilding.{IsIdle, IsOpen, with_entries, with_rows};

use gimli_lines_write_program::{Address, Error, FileId, LineProgram, LineRow};
use linemap_emit_rows::{TableRow, TableSequence};

// A row, whose offset is from the start of its sequence. Its file is one of the unit's.
fn row_of(files: &[FileId], begin: u64, row: &TableRow) -> LineRow
    requires begins { begin ≤ (row_part row.now).address }
    requires file { (row_part row.now).file < length files.now }
    ensures { result ≡ emitted_row (place_in files.now) begin (row_part row.now) }
{
    LineRow {
        address_offset: row.address - begin,
        op_index: 0,
        file: files[row.file as usize],
        line: row.line,
        column: row.column,
        discriminator: row.discriminator,
        is_statement: row.statement,
        basic_block: false,
        prologue_end: false,
        epilogue_begin: false,
        isa: 0,
    }
}

// Adds the rows of a sequence, and its end.
#[tactic(auto, using(linemap_emit_rows::proofs::BuiltSequences::open_sequences), unfolding(linemap_emit_rows::specs::EmittedRows::AllFrom))]
fn push_rows(
    program: &mut LineProgram,
    files: &[FileId],
    begin: u64,
    rows: &[TableRow],
    end: u64,
) -> Result<(), Error>
    requires from { AllFrom (length files.now) begin (map row_part rows.now) }
    requires ends { begin ≤ end }
    requires open { IsOpen (place_in files.now) begin (map row_part rows.now) end
        program.old.rows }
    ensures ok { OnOk result (program.new ≡ record program.old {
      rows = with_rows (place_in files.now) begin (map row_part rows.now) end
          program.old.rows;
    }) }
    ensures refusal { IfErr result (λ e. e ≡ Memory) }
{
    for row in rows {
        program.set_row(row_of(files, begin, row));
        program.generate_row()?;
    }
    program.end_sequence(end - begin)
}

// Adds a sequence.
#[tactic(auto, using(linemap_emit_rows::proofs::BuiltSequences::whole_sequences))]
fn push_sequence(
    program: &mut LineProgram,
    files: &[FileId],
    sequence: &TableSequence,
) -> Result<(), Error>
    requires ordered { IsOrdered program.old.rows.rules (place_in files.now) (length files.now)
        (sequence_part sequence.now) }
    requires idle { IsIdle program.old.rows }
    ensures ok { OnOk result (program.new ≡ record program.old {
      rows = with_entries (emitted_sequence (place_in files.now) (sequence_part sequence.now))
          program.old.rows;
    }) }
    ensures refusal { IfErr result (λ e. e ≡ Memory) }
{
    let Some(first) = sequence.rows.first() else {
        return Ok(());
    };
    program.begin_sequence(Some(Address::Constant(first.address)))?;
    push_rows(program, files, first.address, &sequence.rows, sequence.end)?;
    Ok(())
}

/// Adds sequences to a program that has no open one. Refused only when out of memory.
#[tactic(auto, unfolding(linemap_emit_rows::specs::EmittedRows::AllOrdered))]
pub fn push_sequences(
    program: &mut LineProgram,
    files: &[FileId],
    sequences: &[TableSequence],
) -> Result<(), Error>
    requires ordered { AllOrdered program.old.rows.rules (place_in files.now) (length files.now)
        (map sequence_part sequences.now) }
    requires idle { IsIdle program.old.rows }
    ensures ok { OnOk result (program.new ≡ record program.old {
      rows = with_entries
          (emitted_sequences (place_in files.now) (map sequence_part sequences.now))
          program.old.rows;
    }) }
    ensures refusal { IfErr result (λ e. e ≡ Memory) }
{
    for sequence in sequences {
        push_sequence(program, files, sequence)?;
    }
    Ok(())
}
