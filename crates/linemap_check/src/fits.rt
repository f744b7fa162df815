//! Whether the addresses of units are below another.

ghost use Rattle.std.specs.Prelude.{◌≡◌, ◌||◌, map, nat_le, not};
ghost use Rattle.std.specs.List.{list_any};
ghost use Rattle.linemap_meaning.specs.EncodingFits.{any_address};
ghost use Rattle.linemap_meaning.specs.TableViews.{range_part, row_part, sequence_part, unit_part};

use crate::units::{RangesTest, any_ranges};
use linemap_meaning::table::{TableRange, TableRow, TableSequence, TableUnit};

// The test of ranges for one that begins or ends at an address or above it.
#[derive(Drop)]
struct AtOrAbove {
    limit: u64,
}

impl RangesTest for AtOrAbove {
    ghost holds = { λ s. list_any (λ r. nat_le s.limit r.begin || nat_le s.limit r.end) };

    fn holds(&self, ranges: &[TableRange]) -> bool {
        has_range_from(self.limit, ranges)
    }
}

fn has_range_from(limit: u64, ranges: &[TableRange]) -> bool
    ensures { result ≡ list_any (λ r. nat_le limit r.begin || nat_le limit r.end)
        (map range_part ranges.now) }
{
    ranges
        .iter()
        .any(|range| limit <= range.begin || limit <= range.end)
}

fn has_row_from(limit: u64, rows: &[TableRow]) -> bool
    ensures { result ≡ list_any (λ r. nat_le limit r.address) (map row_part rows.now) }
{
    rows.iter().any(|row| limit <= row.address)
}

fn any_sequence_from(limit: u64, sequences: &[TableSequence]) -> bool
    ensures { result ≡ list_any
        (λ s. list_any (λ r. nat_le limit r.address) s.rows || nat_le limit s.end)
        (map sequence_part sequences.now) }
{
    sequences.iter().any(|sequence| has_row_from(limit, &sequence.rows) || limit <= sequence.end)
}

// Whether a range of the unit begins or ends at an address or above it, or a row or the end of a
// sequence is there.
fn has_address_from(limit: u64, unit: &TableUnit) -> bool
    ensures { result ≡ any_address (nat_le limit) (unit_part unit.now) }
{
    any_ranges(&AtOrAbove { limit }, unit) || any_sequence_from(limit, &unit.sequences)
}

fn any_unit_from(limit: u64, units: &[TableUnit]) -> bool
    ensures { result ≡ list_any (any_address (nat_le limit)) (map unit_part units.now) }
{
    units.iter().any(|unit| has_address_from(limit, unit))
}

/// Whether every address of the units is below a limit.
pub fn are_below(units: &[TableUnit], limit: u64) -> bool
    ensures { result ≡ not (list_any (any_address (nat_le limit)) (map unit_part units.now)) }
{
    !any_unit_from(limit, units)
}
