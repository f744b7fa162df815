//! The weight of a table: how large its image may grow, as far as a `u64` goes.

ghost use Rattle.std.specs.Prelude.{◌≡◌, ◌*◌, ℕ, length, map, sum_by};
ghost use Rattle.linemap_check.specs.SaturatedWeight.{own_weight, saturate};
ghost use Rattle.linemap_meaning.specs.TableViews.{calls_part, file_part, function_part, sequence_part, unit_part};
ghost use Rattle.linemap_meaning.specs.TableWeight.{calls_weight, file_weight, function_weight, sequence_weight, table_weight, text_weight, unit_weight};

use linemap_meaning::table::{TableCall, TableFile, TableFunction, TableSequence, TableUnit};

/// The weight of units.
pub fn weight(units: &[TableUnit]) -> u64
    ensures { result ≡ saturate (table_weight (map unit_part units.now)) }
{
    total(units).saturating_add(8192)
}

// What has a weight.
trait HasWeight {
    ghost weight: { Self → ℕ };

    fn weight(&self) -> u64
        ensures { result ≡ saturate (weight self.now) };
}

fn total<T: HasWeight>(items: &[T]) -> u64
    ensures { result ≡ saturate (sum_by T.weight items.now) }
{
    let mut sum = 0u64;
    for item in items {
        sum = sum.saturating_add(item.weight());
    }
    sum
}

fn text_weight(text: &str) -> u64
    ensures { result ≡ saturate (text_weight text.now) }
{
    times(4, text.len())
}

fn times(weight: u64, count: usize) -> u64
    ensures { result ≡ saturate (weight * count) }
{
    weight.saturating_mul(count as u64)
}

impl HasWeight for TableUnit {
    ghost weight = { λ u. unit_weight (unit_part u) };

    fn weight(&self) -> u64 {
        own_weight(self)
            .saturating_add(files_weight(&self.files))
            .saturating_add(functions_weight(&self.functions))
            .saturating_add(sequences_weight(&self.sequences))
    }
}

// The weight of a unit without its files, functions and sequences.
fn own_weight(unit: &TableUnit) -> u64
    ensures { result ≡ saturate (own_weight (unit_part unit.now)) }
{
    1024u64
        .saturating_add(times(64, unit.ranges.len()))
        .saturating_add(text_weight(&unit.directory))
        .saturating_add(text_weight(&unit.name))
}

fn files_weight(files: &[TableFile]) -> u64
    ensures { result ≡ saturate (sum_by file_weight (map file_part files.now)) }
{
    total(files)
}

fn functions_weight(functions: &[TableFunction]) -> u64
    ensures { result ≡ saturate (sum_by function_weight (map function_part functions.now)) }
{
    total(functions)
}

fn sequences_weight(sequences: &[TableSequence]) -> u64
    ensures { result ≡ saturate (sum_by sequence_weight (map sequence_part sequences.now)) }
{
    total(sequences)
}

impl HasWeight for TableFile {
    ghost weight = { λ f. file_weight (file_part f) };

    fn weight(&self) -> u64 {
        text_weight(&self.directory)
            .saturating_add(text_weight(&self.name))
            .saturating_add(256)
    }
}

impl HasWeight for TableFunction {
    ghost weight = { λ f. function_weight (function_part f) };

    fn weight(&self) -> u64 {
        times(64, self.ranges.len())
            .saturating_add(64)
            .saturating_add(text_weight(&self.name))
            .saturating_add(calls_weight(&self.calls))
    }
}

impl HasWeight for TableSequence {
    ghost weight = { λ s. sequence_weight (sequence_part s) };

    fn weight(&self) -> u64 {
        times(160, self.rows.len()).saturating_add(64)
    }
}

fn calls_weight(calls: &[TableCall]) -> u64
    ensures { result ≡ saturate (calls_weight (calls_part calls.now)) }
{
    let mut sum = 0u64;
    for call in calls {
        sum = sum
            .saturating_add(192)
            .saturating_add(times(64, call.ranges.len()))
            .saturating_add(text_weight(&call.name))
            .saturating_add(calls_weight(&call.calls));
    }
    sum
}
