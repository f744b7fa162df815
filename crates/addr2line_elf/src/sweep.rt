//! Entries of symbols made into stretches, by a sweep over the addresses from the least on.

ghost use Rattle.std.specs.Prelude.{◌≡◌, ℕ, ◌+◌, ◌*◌, ◌<◌, ◌≤◌, nat_lt, vec_len, List, [], ◌∷◌, ◌++◌, reverse, IsTrue, OnOk, IfOk, IfErr, MatchOption};
ghost use Rattle.std.specs.Ordering.{is_lt};
ghost use Rattle.std.specs.List.{find};
ghost use Rattle.std.specs.List.Sorted.{IsNonDecreasingBy};
ghost use Rattle.addr2line_elf.specs.declared.error.LoadError.TheVariants.{Memory};
ghost use Rattle.addr2line_elf.specs.SymbolStretches.{greatest_symbol_address, last_covered, last_of, entry_at, AreNamed, IsDivided};
ghost use Rattle.addr2line_elf.specs.SymbolSweeps.{entry_covers, first_active, still_active, EndsAbove, IsFilledTo, IsSweptTo, Falls, AnswersFor, stretch_count};

use crate::error::LoadError;
use crate::stretch::SymbolStretch;
use crate::symbol_entries::SymbolEntry;
use std::alloc::Global;
use std::cmp::Ordering;

// The addresses divided into stretches, each with the entry of its symbol: the one of the greatest
// value that covers them, and of these the first in the list. It sorts the entries.
pub(crate) fn stretches_of(
    alloc: Global,
    entries: Vec<SymbolEntry>,
) -> Result<Vec<SymbolStretch>, LoadError>
    ensures ok { IfOk result (λ stretches. (texts : List ℕ) → AreNamed texts entries.items
        → IsDivided texts entries.items stretches.items) }
    ensures count { IfOk result (λ stretches. vec_len stretches ≤ 2 * vec_len entries) }
    ensures refusal { IfErr result (λ e. e ≡ Memory) }
{
    let mut falling = entries;
    falling.sort_by(
        |first: &SymbolEntry, second: &SymbolEntry| -> Ordering
            ensures { is_lt result ≡ nat_lt second.now.value first.now.value }
        { second.value.cmp(&first.value) },
    )?;
    sweep_all(alloc, falling)
}

// The stretches of entries by their values, the greatest first. The first that covers an address is
// the answer there.
fn sweep_all(alloc: Global, entries: Vec<SymbolEntry>) -> Result<Vec<SymbolStretch>, LoadError>
    requires { Falls entries.items }
    ensures ok { IfOk result (λ stretches. AnswersFor entries.items stretches.items) }
    ensures count { IfOk result (λ stretches. vec_len stretches ≤ 2 * vec_len entries) }
    ensures refusal { IfErr result (λ e. e ≡ Memory) }
{
    let mut left = entries;
    let mut sweep = Sweep::new(alloc);
    while let Some(entry) = left.pop() {
        sweep.add(entry)?;
    }
    sweep.finish()
}

// The stretches up to an address, and what covers the addresses after it.
#[derive(Drop)]
struct Sweep {
    stretches: Vec<SymbolStretch>,
    // Each ends before the one that was added before it.
    active: Vec<SymbolEntry>,
}

impl Sweep {
    // No stretches. It takes no memory.
    fn new(alloc: Global) -> Self
        ensures swept { IsSweptTo 0 result.stretches.items (reverse result.active.items) [] }
        ensures count { stretch_count result ≡ 0 }
    {
        Sweep {
            stretches: Vec::new(alloc),
            active: Vec::new(alloc),
        }
    }

    // Adds an entry that begins at or above all before it, and so is the answer where it covers.
    fn add(&mut self, entry: SymbolEntry) -> Result<(), LoadError>
        ensures ok { OnOk result ((low : ℕ) (entries : List SymbolEntry) → low ≤ entry.value
            → IsSweptTo low self.old.stretches.items (reverse self.old.active.items) entries
            → IsSweptTo entry.value self.new.stretches.items (reverse self.new.active.items)
            (entry ∷ entries)) }
        ensures count { stretch_count self.new ≤ stretch_count self.old + 2 }
        ensures refusal { IfErr result (λ e. e ≡ Memory) }
    {
        if let Some(before) = entry.value.checked_sub(1) {
            self.sweep_to(before)?;
        }
        self.cover(entry)
    }

    // Adds the stretches up to an address.
    fn sweep_to(&mut self, last: u64) -> Result<(), LoadError>
        ensures ok { OnOk result ((entries : List SymbolEntry)
            → IsSweptTo (last + 1) self.old.stretches.items (reverse self.old.active.items) entries
            → IsSweptTo (last + 1) self.new.stretches.items (reverse self.new.active.items)
            entries) }
        ensures filled { OnOk result (IsFilledTo (last + 1) self.new.stretches.items) }
        ensures count { stretch_count self.new ≤ stretch_count self.old + 1 }
        ensures refusal { IfErr result (λ e. e ≡ Memory) }
    {
        self.close(last)?;
        if !ends_at(&self.stretches, last) {
            let entry = first_active(&self.active);
            self.stretches.push(SymbolStretch { last, entry })?;
        }
        Ok(())
    }

    // Adds the stretches of the entries that end at or below an address.
    fn close(&mut self, last: u64) -> Result<(), LoadError>
        ensures ok { OnOk result ((entries : List SymbolEntry)
            → IsSweptTo (last + 1) self.old.stretches.items (reverse self.old.active.items) entries
            → IsSweptTo (last + 1) self.new.stretches.items (reverse self.new.active.items)
            entries) }
        ensures above { OnOk result (EndsAbove last (reverse self.new.active.items)) }
        ensures count { stretch_count self.new ≤ stretch_count self.old }
        ensures refusal { IfErr result (λ e. e ≡ Memory) }
    {
        while let Some(entry) = pop_ending_by(&mut self.active, last) {
            self.stretches.push(SymbolStretch {
                last: last_covered(&entry),
                entry: Some(entry),
            })?;
        }
        Ok(())
    }

    // Adds an entry that begins where the sweep is.
    fn cover(&mut self, entry: SymbolEntry) -> Result<(), LoadError>
        ensures ok { OnOk result ((entries : List SymbolEntry)
            → IsFilledTo entry.value self.old.stretches.items
            → IsSweptTo entry.value self.old.stretches.items (reverse self.old.active.items) entries
            → IsSweptTo entry.value self.new.stretches.items (reverse self.new.active.items)
            (entry ∷ entries)) }
        ensures count { stretch_count self.new ≤ stretch_count self.old + 1 }
        ensures refusal { IfErr result (λ e. e ≡ Memory) }
    {
        pop_all_ending_by(&mut self.active, last_covered(&entry));
        self.active.push(entry)?;
        Ok(())
    }

    // All stretches.
    fn finish(self) -> Result<Vec<SymbolStretch>, LoadError>
        ensures ok { IfOk result (λ stretches. (low : ℕ) (entries : List SymbolEntry)
            → IsSweptTo low self.stretches.items (reverse self.active.items) entries
            → AnswersFor entries stretches.items) }
        ensures count { IfOk result (λ stretches. vec_len stretches ≤ stretch_count self) }
        ensures refusal { IfErr result (λ e. e ≡ Memory) }
    {
        let Sweep {
            mut stretches,
            mut active,
        } = self;
        while let Some(entry) = active.pop() {
            stretches.push(SymbolStretch {
                last: last_covered(&entry),
                entry: Some(entry),
            })?;
        }
        Ok(stretches)
    }
}

// The last address that an entry covers: the greatest that there is, if its size isn't known or
// goes past it.
fn last_covered(entry: &SymbolEntry) -> u64
    ensures { result ≡ last_covered entry.now }
{
    if entry.size == 0 {
        u64::MAX
    } else {
        entry.value.saturating_add(entry.size - 1)
    }
}

// Whether the last stretch ends at an address.
fn ends_at(stretches: &[SymbolStretch], last: u64) -> bool
    ensures { IsTrue result → IsFilledTo (last + 1) stretches.now }
{
    match stretches.last() {
        Some(stretch) => stretch.last == last,
        None => false,
    }
}

// The active entry that ends first.
fn first_active(active: &[SymbolEntry]) -> Option<SymbolEntry>
    ensures { result ≡ first_active (reverse active.now) }
{
    active.last().copied()
}

// The active entry that ends first, if that is at or below an address. It's removed.
fn pop_ending_by(active: &mut Vec<SymbolEntry>, address: u64) -> Option<SymbolEntry>
    ensures ended { MatchOption result (active.new.items ≡ active.old.items)
        (λ e. (active.old.items ≡ active.new.items ++ e ∷ []) × (last_covered e ≤ address)) }
    ensures above { MatchOption result (EndsAbove address (reverse active.new.items))
        (λ _. Unit {0}) }
    ensures count { MatchOption result (vec_len active.new ≡ vec_len active.old)
        (λ _. vec_len active.new + 1 ≡ vec_len active.old) }
{
    match active.last() {
        Some(first) if last_covered(first) <= address => active.pop(),
        _ => None,
    }
}

// Removes the active entries that end at or below an address.
fn pop_all_ending_by(active: &mut Vec<SymbolEntry>, address: u64)
    ensures left { reverse active.new.items ≡ still_active address (reverse active.old.items) }
    ensures count { vec_len active.new ≤ vec_len active.old }
{
    while let Some(_ended) = pop_ending_by(active, address) {}
}
