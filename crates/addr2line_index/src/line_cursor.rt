//! Walks over the rows between two ends.

ghost use Rattle.std.specs.Prelude.{◌≡◌, ◌+◌, ◌<◌, ◌≤◌, ◌∷◌, ℕ, [], length, MatchOption};
ghost use Rattle.addr2line_spec.specs.Lines.{lines_between};
ghost use Rattle.addr2line_search.specs.Searches.{digit_count, AtMostProbes};
ghost use Rattle.addr2line_index.specs.Stretches.{stretch_of_row};
ghost use Rattle.addr2line_index.specs.LineCursors.{sequences_by_start, stretches_at, stretches_by_start, lines_left, ComesTo, StepsTo};

use crate::line_index::{IndexedLines, LineIndex};
use crate::row_place::RowPlace;
use crate::stretches::{RowStretch, stretch_at};
use addr2line_search::Probes;

/// How far a walk over the rows of a unit's lines between two ends came.
#[derive(Clone, Copy, Debug)]
pub struct LineCursor {
    // The next row.
    pub(crate) place: RowPlace,
    // Where its sequence has no more, the next sequence.
    pub(crate) next: usize,
}

// The first row between two ends of the sequences from an index on.
fn next_sequence(
    lines: &IndexedLines,
    from: usize,
    low: u64,
    high: u64,
    probes: &mut Probes,
) -> Option<LineCursor>
    requires counter { probes.old.name ≡ lines.now.counter }
    ensures next { MatchOption result (stretches_by_start lines.now.lines low high from ≡ [])
        (λ c. stretches_by_start lines.now.lines low high from
        ≡ lines_left lines.now.lines low high c) }
    ensures later { MatchOption result (Unit {0})
        (λ c. (from < c.next) × (c.next ≤ length (sequences_by_start lines.now.lines))) }
    ensures cost { ComesTo lines.now.lines from result probes.old probes.new }
{
    let mut next = from;
    while next < lines.len() {
        let range = lines.range_at(next, probes);
        if high <= range.begin {
            return None;
        }
        if low < range.end {
            let row = lines.at(next, probes).first_from(low, probes);
            let place = RowPlace {
                sequence: next,
                row,
            };
            return Some(LineCursor {
                place,
                next: next + 1,
            });
        }
        next += 1;
    }
    None
}

// The row at a place, if it begins below the high end, and the place after it.
fn stretch_at_place(
    lines: &IndexedLines,
    place: RowPlace,
    high: u64,
    probes: &mut Probes,
) -> Option<(RowStretch, RowPlace)>
    requires counter { probes.old.name ≡ lines.now.counter }
    ensures stretch { MatchOption result (stretches_at lines.now.lines high place ≡ [])
        (λ f. stretches_at lines.now.lines high place
        ≡ stretch_of_row lines.now.lines.files f.0 ∷ stretches_at lines.now.lines high f.1) }
    ensures cost { AtMostProbes 3 probes.old probes.new }
{
    if place.sequence >= lines.len() {
        return None;
    }
    let sequence = lines.at(place.sequence, probes);
    match stretch_at(sequence, place.row, high, probes) {
        Some((stretch, row)) => {
            let sequence = place.sequence;
            Some((stretch, RowPlace { sequence, row }))
        }
        None => None,
    }
}

impl LineIndex {
    /// Where a walk over the rows from a low end on begins; at none only where no row is left from
    /// there on. It is a search.
    pub fn cursor_from(&self, low: u64, probes: &mut Probes) -> Option<LineCursor>
        requires counter { probes.old.name ≡ self.now.counter }
        ensures lines { MatchOption result
            ((high : ℕ) → lines_between self.now.lines low high ≡ [])
            (λ c. (high : ℕ) → lines_left self.now.lines low high c
            ≡ lines_between self.now.lines low high) }
        ensures cost { AtMostProbes (digit_count (length self.now.lines.sequences))
            probes.old probes.new }
    {
        let lines = self.indexed();
        let next = lines.first_from(low, probes);
        if next >= lines.len() {
            return None;
        }
        let place = RowPlace {
            sequence: lines.len(),
            row: 0,
        };
        Some(LineCursor { place, next })
    }

    /// The next row between two ends, with its addresses, and how far the walk came with it. The
    /// walk goes sequence by sequence, in the order of the sequences' addresses: over the rows of
    /// each that reaches between the ends, from that of the low end on, while they begin below the
    /// high end. It takes no memory, and looks only at sequences that start below the high end, at
    /// each once.
    pub fn next_between(
        &self,
        cursor: LineCursor,
        low: u64,
        high: u64,
        probes: &mut Probes,
    ) -> Option<(RowStretch, LineCursor)>
        requires counter { probes.old.name ≡ self.now.counter }
        ensures stretch { MatchOption result (lines_left self.now.lines low high cursor ≡ [])
            (λ f. lines_left self.now.lines low high cursor
            ≡ stretch_of_row self.now.lines.files f.0
            ∷ lines_left self.now.lines low high f.1) }
        ensures cost { StepsTo self.now.lines cursor result probes.old probes.new }
    {
        let lines = self.indexed();
        let mut left = cursor;
        'sequence: loop {
            if let Some((stretch, place)) = stretch_at_place(lines, left.place, high, probes) {
                let next = left.next;
                return Some((stretch, LineCursor { place, next }));
            }
            match next_sequence(lines, left.next, low, high, probes) {
                Some(cursor) => left = cursor,
                None => return None,
            }
        }
    }
}
