//! A sequence whose rows are searched by one bisection.

ghost use Rattle.std.specs.Prelude.{◌≡◌, ◌+◌, ◌-◌, ◌<◌, length, slice_get, option_map, option_and_then, Some, MatchOption, IfOk, IfErr};
ghost use Rattle.addr2line_spec.specs.Error.TheVariants.{Memory};
ghost use Rattle.addr2line_spec.specs.Lines.{row_of, rows_to};
ghost use Rattle.addr2line_search.specs.Searches.{digit_count, AtMostProbes};
ghost use Rattle.addr2line_index.specs.LineIndexes.{counted_sequence, range_of_counted, row_probes};

use crate::range_index::Ranged;
use crate::row_index::RowIndex;
use crate::sequence::{LineRow, LineSequence};
use addr2line_search::Probes;
use addr2line_spec::{Error, Range};
use std::alloc::Global;
use std::marker::Model;

/// The range of a sequence, and its rows.
pub struct SequenceIndex {
    range: Range,
    rows: RowIndex,
}

impl Drop for SequenceIndex {
    fn drop(self) {
        let SequenceIndex { range: _, rows: _ } = self;
    }
}

impl Model for SequenceIndex {
    ghost use Rattle.addr2line_index.specs.LineIndexes.{CountedSequence};

    ghost Value = { CountedSequence };

    ghost view = { λ s. record {
      sequence = record { start = s.range.begin; end = s.range.end; rows = s.rows.entries };
      counter = s.rows.counter;
    } };
}

impl SequenceIndex {
    /// A sequence; this counter counts looks at its rows. The only refusal is out of memory.
    pub(crate) fn new(alloc: Global, sequence: LineSequence, probes: &Probes) -> Result<Self, Error>
        ensures ok { IfOk result (λ s. s ≡ counted_sequence probes.now.name sequence) }
        ensures refusal { IfErr result (λ e. e ≡ Memory) }
    {
        let range = sequence.range();
        Ok(SequenceIndex {
            range,
            rows: RowIndex::new(alloc, sequence.into_rows(), probes)?,
        })
    }

    /// Where it ends.
    pub(crate) fn end(&self) -> u64
        ensures { result ≡ self.now.sequence.end }
    {
        self.range.end
    }

    /// How many rows it has.
    pub(crate) fn len(&self) -> usize
        ensures { result ≡ length self.now.sequence.rows }
    {
        self.rows.len()
    }

    /// The row at an index, which is counted.
    pub(crate) fn at(&self, index: usize, probes: &mut Probes) -> LineRow
        requires counter { probes.old.name ≡ self.now.counter }
        requires within { index < length self.now.sequence.rows }
        ensures row { slice_get self.now.sequence.rows index ≡ Some result }
        ensures counted { probes.new ≡ record probes.old { count = probes.old.count + 1 } }
    {
        self.rows.at(index, probes)
    }

    /// The index of the row of a low end, or of the first row where that is above. It is a search.
    pub(crate) fn first_from(&self, low: u64, probes: &mut Probes) -> usize
        requires counter { probes.old.name ≡ self.now.counter }
        ensures first { result ≡ rows_to low self.now.sequence.rows - 1 }
        ensures cost { AtMostProbes (digit_count (length self.now.sequence.rows))
            probes.old probes.new }
    {
        self.rows.count_to(low, probes).saturating_sub(1)
    }

    /// The row of an address: that before the first which is above it.
    pub(crate) fn row_of(&self, address: u64, probes: &mut Probes) -> Option<LineRow>
        requires counter { probes.old.name ≡ self.now.counter }
        ensures row { result ≡ row_of self.now.sequence.rows address }
        ensures cost { AtMostProbes (digit_count (length self.now.sequence.rows) + 1)
            probes.old probes.new }
    {
        let count = self.rows.count_to(address, probes);
        if count == 0 {
            return None;
        }
        Some(self.rows.at(count - 1, probes))
    }
}

impl Ranged for SequenceIndex {
    ghost level = { λ _. 0 };

    ghost range = { range_of_counted };

    fn level(&self) -> usize {
        0
    }

    fn range(&self) -> Range {
        self.range
    }
}

// The row of an address in a sequence, if there is one.
pub(crate) fn row_in(
    sequence: Option<&SequenceIndex>,
    address: u64,
    probes: &mut Probes,
) -> Option<LineRow>
    requires { MatchOption sequence (Unit {0}) (λ s. probes.old.name ≡ s.now.counter) }
    ensures row { result
        ≡ option_and_then (λ s. row_of s.now.sequence.rows address) sequence.entry }
    ensures cost { AtMostProbes (row_probes (option_map (λ s. s.now.sequence) sequence.entry))
        probes.old probes.new }
{
    match sequence {
        Some(found) => found.row_of(address, probes),
        None => None,
    }
}
