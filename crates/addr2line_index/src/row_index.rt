//! The rows of a sequence, searched by one bisection. They are shown by `at` alone, and each look
//! at them is counted.

ghost use Rattle.std.specs.Prelude.{◌≡◌, ◌+◌, ◌<◌, length, nat_le, slice_get, Some, IfOk, IfErr};
ghost use Rattle.addr2line_spec.specs.Error.TheVariants.{Memory};
ghost use Rattle.addr2line_spec.specs.Lines.{rows_to};
ghost use Rattle.addr2line_search.specs.Searches.{digit_count, AtMostProbes};
ghost use Rattle.addr2line_index.specs.RowIndexes.{greatest_after};

use crate::narrow_row::NarrowRow;
use crate::row_list::{RowForm, RowList};
use crate::sequence::LineRow;
use addr2line_search::{Probed, Probes, SearchKey, count_up_to};
use addr2line_spec::Error;
use std::alloc::Global;
use std::marker::Model;

// An address that is looked for among rows, or among greatest addresses of rows.
#[derive(Drop)]
struct Address(u64);

impl SearchKey<NarrowRow> for Address {
    ghost is_at_or_above = { λ k row. nat_le row.address k.0 };

    fn is_at_or_above(&self, entry: &NarrowRow) -> bool {
        entry.address <= self.0
    }
}

impl SearchKey<u64> for Address {
    ghost is_at_or_above = { λ k greatest. nat_le greatest k.0 };

    fn is_at_or_above(&self, entry: &u64) -> bool {
        *entry <= self.0
    }
}

// Wide rows, with the greatest address up to each, by which they are searched also where their
// addresses go back.
struct WideRows {
    rows: Probed<LineRow>,
    greatest: Probed<u64>,
}

impl Drop for WideRows {
    fn drop(self) {
        let WideRows {
            rows: _,
            greatest: _,
        } = self;
    }
}

impl Model for WideRows {
    ghost use Rattle.std.specs.Prelude.{◌≡◌};
    ghost use Rattle.addr2line_search.specs.ProbedLists.{ProbedList};
    ghost use Rattle.addr2line_spec.specs.Lines.{LineRow as Row};
    ghost use Rattle.addr2line_index.specs.RowIndexes.{greatest_after};

    ghost Value = { ProbedList Row };

    ghost view = { λ w. w.rows };

    ghost invariant = { λ w.
        w.greatest ≡ record {
          entries = greatest_after 0 w.rows.entries;
          counter = w.rows.counter;
        } };
}

// The greatest address up to each row.
fn greatest_addresses(alloc: Global, rows: &[LineRow]) -> Result<Vec<u64>, Error>
    ensures ok { IfOk result (λ all. all.items ≡ greatest_after 0 rows.now) }
    ensures refusal { IfErr result (λ e. e ≡ Memory) }
{
    let mut all = Vec::new(alloc);
    let mut greatest = 0;
    let mut left = rows;
    while let [row, rest @ ..] = left {
        greatest = greatest.max(row.address);
        all.push(greatest)?;
        left = rest;
    }
    Ok(all)
}

impl WideRows {
    fn new(alloc: Global, rows: Vec<LineRow>, probes: &Probes) -> Result<Self, Error>
        ensures ok { IfOk result
            (λ w. w ≡ record { entries = rows.items; counter = probes.now.name }) }
        ensures refusal { IfErr result (λ e. e ≡ Memory) }
    {
        let greatest = greatest_addresses(alloc, rows.as_slice())?;
        Ok(WideRows {
            rows: Probed::new(rows, probes),
            greatest: Probed::new(greatest, probes),
        })
    }

    fn count_to(&self, address: u64, probes: &mut Probes) -> usize
        requires counter { probes.old.name ≡ self.now.counter }
        ensures count { result ≡ rows_to address self.now.entries }
        ensures cost { AtMostProbes (digit_count (length self.now.entries)) probes.old probes.new }
    {
        count_up_to(&self.greatest, &Address(address), probes)
    }
}

// Rows in the one form or the other.
#[derive(Drop)]
enum SearchedRows {
    Ascending(Probed<NarrowRow>),
    Any(WideRows),
}

/// The rows of a sequence.
pub struct RowIndex {
    rows: SearchedRows,
}

impl Drop for RowIndex {
    fn drop(self) {
        let RowIndex { rows: _ } = self;
    }
}

impl Model for RowIndex {
    ghost use Rattle.addr2line_search.specs.ProbedLists.{ProbedList};
    ghost use Rattle.addr2line_spec.specs.Lines.{LineRow as Row};
    ghost use Rattle.addr2line_index.specs.SearchedRows.{searched_rows, IsSearched};

    ghost Value = { ProbedList Row };

    ghost view = { λ r. searched_rows r.rows };

    ghost invariant = { λ r. IsSearched r.rows };
}

impl RowIndex {
    /// The rows; this counter counts looks at them. The only refusal is out of memory.
    pub(crate) fn new(alloc: Global, rows: RowList, probes: &Probes) -> Result<Self, Error>
        ensures ok { IfOk result
            (λ r. r ≡ record { entries = rows; counter = probes.now.name }) }
        ensures refusal { IfErr result (λ e. e ≡ Memory) }
    {
        let rows = match rows.into_form() {
            RowForm::Narrow(rows) => SearchedRows::Ascending(Probed::new(rows, probes)),
            RowForm::Wide(rows) => SearchedRows::Any(WideRows::new(alloc, rows, probes)?),
        };
        Ok(RowIndex { rows })
    }

    /// How many rows there are.
    pub(crate) fn len(&self) -> usize
        ensures { result ≡ length self.now.entries }
    {
        match &self.rows {
            SearchedRows::Ascending(rows) => rows.len(),
            SearchedRows::Any(wide) => wide.rows.len(),
        }
    }

    /// How many rows come before the first that is above an address.
    pub(crate) fn count_to(&self, address: u64, probes: &mut Probes) -> usize
        requires counter { probes.old.name ≡ self.now.counter }
        ensures count { result ≡ rows_to address self.now.entries }
        ensures cost { AtMostProbes (digit_count (length self.now.entries)) probes.old probes.new }
    {
        match &self.rows {
            SearchedRows::Ascending(rows) => count_up_to(rows, &Address(address), probes),
            SearchedRows::Any(wide) => wide.count_to(address, probes),
        }
    }

    /// The row at an index, which is counted.
    pub(crate) fn at(&self, index: usize, probes: &mut Probes) -> LineRow
        requires counter { probes.old.name ≡ self.now.counter }
        requires within { index < length self.now.entries }
        ensures row { slice_get self.now.entries index ≡ Some result }
        ensures counted { probes.new ≡ record probes.old { count = probes.old.count + 1 } }
    {
        match &self.rows {
            SearchedRows::Ascending(rows) => rows.at(index, probes).row(),
            SearchedRows::Any(wide) => *wide.rows.at(index, probes),
        }
    }
}
