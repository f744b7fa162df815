//! The ranges of a unit's sequences by their starts, as lookups between two addresses walk them.

ghost use Rattle.std.specs.Prelude.{◌≡◌, List, map, IfOk, IfErr};
ghost use Rattle.std.specs.List.Sorted.{IsPermutation, IsSortedBy};
ghost use Rattle.std.specs.Ordering.{is_lt};
ghost use Rattle.addr2line_spec.specs.Error.TheVariants.{Memory};
ghost use Rattle.addr2line_spec.specs.Lines.{Sequence};
ghost use Rattle.addr2line_index.specs.SequenceOrders.{entry_of, comes_before, with_greatest_ends, by_start, bounded_by};

use crate::sequence::LineSequence;
use addr2line_search::SearchKey;
use addr2line_spec::{Error, Range};
use std::alloc::Global;
use std::cmp::Ordering;

/// The range of a sequence, and the greatest end of it and of the sequences before it by their
/// starts.
#[derive(Clone, Copy, Debug)]
pub struct OrderedSequence {
    pub(crate) range: Range,
    pub(crate) greatest_end: u64,
}

// An address at or below which sequences may have ended.
#[derive(Drop)]
pub(crate) struct EndedBy(pub(crate) u64);

impl SearchKey<OrderedSequence> for EndedBy {
    ghost is_at_or_above = { λ k entry. bounded_by k.0 entry };

    fn is_at_or_above(&self, entry: &OrderedSequence) -> bool {
        entry.greatest_end <= self.0
    }
}

// How the second of two sequences compares to the first: by their starts and their ends.
fn compare(first: &OrderedSequence, second: &OrderedSequence) -> Ordering
    ensures { is_lt result ≡ comes_before first.now second.now }
{
    first
        .range
        .begin
        .cmp(&second.range.begin)
        .then(first.range.end.cmp(&second.range.end))
}

// Sorts ranges of sequences. It takes no memory: equal ones are the same.
fn sort(entries: &mut [OrderedSequence])
    ensures permutation { IsPermutation entries.old entries.new }
    ensures sorted { IsSortedBy comes_before entries.new }
{
    entries.sort_unstable_by(
        |first: &OrderedSequence, second: &OrderedSequence| -> Ordering
            ensures { is_lt result ≡ comes_before first.now second.now }
        { compare(first, second) },
    );
}

// Gives each the greatest end up to it.
fn bound(entries: &mut [OrderedSequence])
    ensures { entries.new ≡ with_greatest_ends 0 entries.old }
{
    let mut greatest = 0;
    for entry in entries.iter_mut() {
        greatest = greatest.max(entry.range.end);
        entry.greatest_end = greatest;
    }
}

// Puts them by their starts, and those of one start by their ends. It takes no memory.
fn put_by_start(entries: &mut [OrderedSequence])
    ensures { (sequences : List Sequence) → entries.old ≡ map entry_of sequences
        → entries.new ≡ by_start sequences }
{
    sort(entries);
    bound(entries);
}

// The ranges of sequences, each bounded by its own end.
fn entries_of(alloc: Global, sequences: &[LineSequence]) -> Result<Vec<OrderedSequence>, Error>
    ensures ok { IfOk result (λ entries. entries.items ≡ map entry_of sequences.now) }
    ensures refusal { IfErr result (λ e. e ≡ Memory) }
{
    let mut entries = Vec::with_capacity(alloc, sequences.len())?;
    for sequence in sequences {
        let range = sequence.range();
        entries.push(OrderedSequence {
            range,
            greatest_end: range.end,
        })?;
    }
    Ok(entries)
}

// The ranges of sequences by their starts, and those of one start by their ends.
pub(crate) fn by_start(
    alloc: Global,
    sequences: &[LineSequence],
) -> Result<Vec<OrderedSequence>, Error>
    ensures ok { IfOk result (λ entries. entries.items ≡ by_start sequences.now) }
    ensures refusal { IfErr result (λ e. e ≡ Memory) }
{
    let mut entries = entries_of(alloc, sequences)?;
    put_by_start(entries.as_mut_slice());
    Ok(entries)
}
