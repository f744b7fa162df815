//! The lines of a unit, searched by bisections. Their sequences and rows are kept once, in lists
//! that count each look at them.

ghost use Rattle.std.specs.Prelude.{◌≡◌, ◌+◌, ◌<◌, ℕ, length, slice_get, option_map, Ok, Some, IfOk, IfErr, map};
ghost use Rattle.std.specs.String.{string_bytes};
ghost use Rattle.addr2line_spec.specs.Calls.{ReturnsOrNoMemory};
ghost use Rattle.addr2line_spec.specs.Error.TheVariants.{Memory};
ghost use Rattle.addr2line_spec.specs.Lines.{range_of, row_at, row_location, lines_between};
ghost use Rattle.addr2line_search.specs.Searches.{digit_count, AtMostProbes};
ghost use Rattle.addr2line_index.specs.BorrowedLocations.{location_value};
ghost use Rattle.addr2line_index.specs.LineCursors.{sequences_by_start, stretches_by_start};
ghost use Rattle.addr2line_index.specs.LineIndexes.{counted_sequence, place_probes};

use crate::lines::Lines;
use crate::location::Location;
use crate::range_index::RangeIndex;
use crate::sequence::{LineRow, LineSequence};
use crate::sequence_index::{SequenceIndex, row_in};
use crate::sequence_order::{EndedBy, OrderedSequence, by_start};
use addr2line_search::{Probed, Probes, count_up_to};
use addr2line_spec::{Error, Range};
use std::alloc::Global;
use std::marker::Model;
use std::rc::Rc;

// The sequences of a unit's lines with their rows, their ranges by their starts, and the texts of
// files.
pub struct IndexedLines {
    sequences: RangeIndex<SequenceIndex>,
    order: Probed<OrderedSequence>,
    files: Vec<String>,
}

impl Drop for IndexedLines {
    fn drop(self) {
        let IndexedLines {
            sequences: _,
            order: _,
            files: _,
        } = self;
    }
}

impl Model for IndexedLines {
    ghost use Rattle.std.specs.Prelude.{map};
    ghost use Rattle.std.specs.String.{string_bytes};
    ghost use Rattle.addr2line_index.specs.LineIndexes.{CountedLines, sequences_of, IsIndexed};

    ghost Value = { CountedLines };

    ghost view = { λ i. record {
      lines = record {
        sequences = sequences_of i.sequences.entries;
        files = map string_bytes i.files.items;
      };
      counter = i.sequences.counter;
    } };

    ghost invariant = { λ i. IsIndexed i.sequences i.order };
}

// The sequences, looks at whose rows this counter counts.
fn counted(
    alloc: Global,
    sequences: Vec<LineSequence>,
    probes: &Probes,
) -> Result<Vec<SequenceIndex>, Error>
    ensures ok { IfOk result
        (λ all. all.items ≡ map (counted_sequence probes.now.name) sequences.items) }
    ensures refusal { IfErr result (λ e. e ≡ Memory) }
{
    let mut all = Vec::with_capacity(alloc, sequences.len())?;
    for sequence in sequences {
        all.push(SequenceIndex::new(alloc, sequence, probes)?)?;
    }
    Ok(all)
}

// The text of a file by its number.
fn file_text(files: &[String], index: usize) -> Option<&str>
    ensures { option_map (λ t. t.now) result ≡ slice_get (map string_bytes files.now) index }
{
    files.get(index).map(|text| text.as_str())
}

// The place that a row stands for, by the texts of files.
fn row_location<'a>(files: &'a [String], row: &LineRow) -> Location<'a>
    ensures { location_value result ≡ row_location (map string_bytes files.now) row.now }
{
    let known = row.line != 0;
    Location {
        file: file_text(files, row.file as usize),
        line: if known { Some(row.line) } else { None },
        column: if known { Some(row.column) } else { None },
        statement: Some(row.statement),
        discriminator: Some(row.discriminator),
    }
}

impl IndexedLines {
    // The lines; this counter counts looks at their sequences and rows. The only refusal is out of
    // memory.
    fn new(alloc: Global, lines: Lines, probes: &Probes) -> Result<Self, Error>
        ensures ok { IfOk result
            (λ i. i ≡ record { lines = lines; counter = probes.now.name }) }
        ensures refusal { IfErr result (λ e. e ≡ Memory) }
    {
        let (sequences, files) = lines.into_parts();
        let order = by_start(alloc, sequences.as_slice())?;
        let counted = counted(alloc, sequences, probes)?;
        Ok(IndexedLines {
            sequences: RangeIndex::new(counted, probes)?,
            order: Probed::new(order, probes),
            files,
        })
    }

    // The texts of files.
    fn files(&self) -> &[String]
        ensures { map string_bytes result.now ≡ self.now.lines.files }
    {
        self.files.as_slice()
    }

    // The row of an address in the sequence that holds it.
    fn find_row(&self, probe: u64, probes: &mut Probes) -> Option<LineRow>
        requires counter { probes.old.name ≡ self.now.counter }
        ensures row { result ≡ row_at self.now.lines probe }
        ensures cost { AtMostProbes (place_probes self.now.lines probe) probes.old probes.new }
    {
        let sequence = self.sequences.find(0, probe, probes);
        row_in(sequence, probe, probes)
    }

    // ---- by their starts

    // How many sequences there are.
    pub(crate) fn len(&self) -> usize
        ensures { result ≡ length (sequences_by_start self.now.lines) }
    {
        self.sequences.len()
    }

    // The range of a sequence, which is counted.
    pub(crate) fn range_at(&self, index: usize, probes: &mut Probes) -> Range
        requires counter { probes.old.name ≡ self.now.counter }
        requires within { index < length (sequences_by_start self.now.lines) }
        ensures range { option_map range_of (slice_get (sequences_by_start self.now.lines) index)
            ≡ Some result }
        ensures counted { probes.new ≡ record probes.old { count = probes.old.count + 1 } }
    {
        self.order.at(index, probes).range
    }

    // A sequence, which is counted.
    pub(crate) fn at(&self, index: usize, probes: &mut Probes) -> &SequenceIndex
        requires counter { probes.old.name ≡ self.now.counter }
        requires within { index < length (sequences_by_start self.now.lines) }
        ensures sequence { slice_get (sequences_by_start self.now.lines) index
            ≡ Some result.now.sequence }
        ensures counter { result.now.counter ≡ self.now.counter }
        ensures counted { probes.new ≡ record probes.old { count = probes.old.count + 1 } }
    {
        self.sequences.at(index, probes)
    }

    // From which sequence on one may end above a low end.
    pub(crate) fn first_from(&self, low: u64, probes: &mut Probes) -> usize
        requires counter { probes.old.name ≡ self.now.counter }
        ensures first { (high : ℕ) → stretches_by_start self.now.lines low high result
            ≡ lines_between self.now.lines low high }
        ensures cost { AtMostProbes (digit_count (length (sequences_by_start self.now.lines)))
            probes.old probes.new }
    {
        count_up_to(&self.order, &EndedBy(low), probes)
    }
}

/// The lines of a unit, as lookups search them. Units with the same lines may share them.
pub struct LineIndex {
    indexed: Rc<IndexedLines>,
}

impl Drop for LineIndex {
    fn drop(self) {
        let LineIndex { indexed: _ } = self;
    }
}

impl Model for LineIndex {
    ghost use Rattle.addr2line_index.specs.LineIndexes.{CountedLines};

    ghost Value = { CountedLines };

    ghost view = { λ i. i.indexed.value };
}

impl LineIndex {
    /// The lines; this counter counts looks at their sequences and rows. The only refusal is out of
    /// memory.
    pub fn new(alloc: Global, lines: Lines, probes: &Probes) -> Result<Self, Error>
        ensures ok { IfOk result
            (λ i. i ≡ record { lines = lines; counter = probes.now.name }) }
        ensures refusal { IfErr result (λ e. e ≡ Memory) }
    {
        let indexed = IndexedLines::new(alloc, lines, probes)?;
        Ok(LineIndex {
            indexed: Rc::new(alloc, indexed)?,
        })
    }

    /// The same lines once more. Nothing is copied; the only refusal is out of memory.
    pub fn share(&self) -> Result<Self, Error>
        ensures { ReturnsOrNoMemory result (Ok self.now) }
    {
        Ok(LineIndex {
            indexed: self.indexed.clone()?,
        })
    }

    // What is shared.
    pub(crate) fn indexed(&self) -> &IndexedLines
        ensures { result.now ≡ self.now }
    {
        self.indexed.as_ref()
    }

    /// The text of a file by its number.
    pub fn file(&self, index: u64) -> Option<&str>
        ensures { option_map (λ t. t.now) result ≡ slice_get self.now.lines.files index }
    {
        file_text(self.indexed().files(), index as usize)
    }

    /// The row of an address in the sequence that holds it. It is found by one search among the
    /// sequences and one among the rows of one.
    pub fn find_row(&self, probe: u64, probes: &mut Probes) -> Option<LineRow>
        requires counter { probes.old.name ≡ self.now.counter }
        ensures row { result ≡ row_at self.now.lines probe }
        ensures cost { AtMostProbes (place_probes self.now.lines probe) probes.old probes.new }
    {
        self.indexed().find_row(probe, probes)
    }

    /// The place that a row stands for. It is no search.
    pub fn location_of_row(&self, row: &LineRow) -> Location<'_>
        ensures { location_value result ≡ row_location self.now.lines.files row.now }
    {
        row_location(self.indexed().files(), row)
    }
}
