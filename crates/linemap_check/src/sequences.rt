//! The tests of sequences and their rows.

ghost use Rattle.std.specs.Prelude.{◌≡◌, ◌||◌, length, map, nat_le};
ghost use Rattle.std.specs.List.{list_any};
ghost use Rattle.linemap_meaning.specs.Conditions.{goes_back, has_bad_rows, is_bad_discriminator, is_bad_number, is_out_of_bounds, sequence_out_of_bounds};
ghost use Rattle.linemap_meaning.specs.TableViews.{row_part, sequence_part};

use crate::ranges::is_out_of_bounds;
use linemap_meaning::table::{TableRow, TableSequence};

/// B5, of rows and ends.
pub fn any_out_of_bounds(sequences: &[TableSequence]) -> bool
    ensures { result ≡ list_any sequence_out_of_bounds (map sequence_part sequences.now) }
{
    sequences.iter().any(|sequence| any_row_out_of_bounds(&sequence.rows)
        || is_out_of_bounds(sequence.end))
}

fn any_row_out_of_bounds(rows: &[TableRow]) -> bool
    ensures { result ≡ list_any (λ r. is_out_of_bounds r.address) (map row_part rows.now) }
{
    rows.iter().any(|row| is_out_of_bounds(row.address))
}

/// B14.
pub fn any_bad_rows(sequences: &[TableSequence]) -> bool
    ensures { result ≡ list_any has_bad_rows (map sequence_part sequences.now) }
{
    sequences.iter().any(has_bad_rows)
}

fn has_bad_rows(sequence: &TableSequence) -> bool
    ensures { result ≡ has_bad_rows (sequence_part sequence.now) }
{
    sequence.rows.is_empty() || goes_back(&sequence.rows) || any_past(sequence.end, &sequence.rows)
}

// Whether a row is at a lower address than the row before it.
fn goes_back(rows: &[TableRow]) -> bool
    ensures { result ≡ goes_back (map row_part rows.now) }
{
    let mut before = 0;
    for row in rows {
        if row.address < before {
            return true;
        }
        before = row.address;
    }
    false
}

fn any_past(end: u64, rows: &[TableRow]) -> bool
    ensures { result ≡ list_any (λ r. nat_le end r.address) (map row_part rows.now) }
{
    rows.iter().any(|row| end <= row.address)
}

/// Whether a line or column is outside 1 to 2^32 - 1.
pub fn is_bad_number(number: u64) -> bool
    ensures { result ≡ is_bad_number number }
{
    number < 1 || number > u32::MAX as u64
}

/// B15, of rows.
pub fn any_bad_line_or_column(sequences: &[TableSequence]) -> bool
    ensures { result ≡ list_any
        (λ s. list_any (λ r. is_bad_number r.line || is_bad_number r.column) s.rows)
        (map sequence_part sequences.now) }
{
    sequences
        .iter()
        .any(|sequence| any_bad_place(&sequence.rows))
}

fn any_bad_place(rows: &[TableRow]) -> bool
    ensures { result ≡ list_any
        (λ r. is_bad_number r.line || is_bad_number r.column) (map row_part rows.now) }
{
    rows.iter()
        .any(|row| is_bad_number(row.line) || is_bad_number(row.column))
}

/// B16, of rows.
pub fn any_bad_file_number(sequences: &[TableSequence], files: usize) -> bool
    ensures { result ≡ list_any
        (λ s. list_any (λ r. nat_le files r.file) s.rows) (map sequence_part sequences.now) }
{
    sequences
        .iter()
        .any(|sequence| any_file_past(&sequence.rows, files))
}

fn any_file_past(rows: &[TableRow], files: usize) -> bool
    ensures { result ≡ list_any (λ r. nat_le files r.file) (map row_part rows.now) }
{
    rows.iter().any(|row| row.file >= files as u64)
}

/// B20.
pub fn any_bad_discriminator(sequences: &[TableSequence]) -> bool
    ensures { result ≡ list_any
        (λ s. list_any (λ r. is_bad_discriminator r.discriminator) s.rows)
        (map sequence_part sequences.now) }
{
    sequences
        .iter()
        .any(|sequence| any_discriminator_past(&sequence.rows))
}

// Whether a row has a discriminator above 2^32 - 1.
fn any_discriminator_past(rows: &[TableRow]) -> bool
    ensures { result ≡ list_any
        (λ r. is_bad_discriminator r.discriminator) (map row_part rows.now) }
{
    rows.iter().any(|row| row.discriminator > u32::MAX as u64)
}
