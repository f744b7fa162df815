//! The rows of a sequence between two ends.

ghost use Rattle.std.specs.Prelude.{◌≡◌, ◌+◌, ◌∷◌, ℕ, List, [], drop, MatchOption};
ghost use Rattle.addr2line_spec.specs.Lines.{next_address};
ghost use Rattle.addr2line_search.specs.Searches.{AtMostProbes};
ghost use Rattle.addr2line_index.specs.Stretches.{stretch_of_row, stretches_below};

use crate::sequence::LineRow;
use crate::sequence_index::SequenceIndex;
use addr2line_search::Probes;

/// The addresses that a row stands for, and the row.
#[derive(Clone, Copy, Debug)]
pub struct RowStretch {
    /// The row's address.
    pub address: u64,
    /// How many addresses there are from it on: up to the next row, or the sequence's end; none
    /// where that is lower.
    pub length: u64,
    pub row: LineRow,
}

// Where the rows before an index end: at the row there, or where there is none at the sequence's
// end.
fn next_address(sequence: &SequenceIndex, index: usize, probes: &mut Probes) -> u64
    requires counter { probes.old.name ≡ sequence.now.counter }
    ensures address { result
        ≡ next_address (drop index sequence.now.sequence.rows) sequence.now.sequence.end }
    ensures cost { AtMostProbes 1 probes.old probes.new }
{
    if index < sequence.len() {
        sequence.at(index, probes).address
    } else {
        sequence.end()
    }
}

// The row at an index of a sequence, if it begins below the high end, and the index after it.
pub(crate) fn stretch_at(
    sequence: &SequenceIndex,
    index: usize,
    high: u64,
    probes: &mut Probes,
) -> Option<(RowStretch, usize)>
    requires counter { probes.old.name ≡ sequence.now.counter }
    ensures stretch { (files : List (List ℕ)) → MatchOption result
        (stretches_below files sequence.now.sequence.end high
        (drop index sequence.now.sequence.rows) ≡ [])
        (λ f. stretches_below files sequence.now.sequence.end high
        (drop index sequence.now.sequence.rows)
        ≡ stretch_of_row files f.0
        ∷ stretches_below files sequence.now.sequence.end high
        (drop f.1 sequence.now.sequence.rows)) }
    ensures cost { AtMostProbes 2 probes.old probes.new }
{
    if index >= sequence.len() {
        return None;
    }
    let row = sequence.at(index, probes);
    let address = row.address;
    if address >= high {
        return None;
    }
    let next = next_address(sequence, index + 1, probes);
    let stretch = RowStretch {
        address,
        length: next.saturating_sub(address),
        row,
    };
    Some((stretch, index + 1))
}
