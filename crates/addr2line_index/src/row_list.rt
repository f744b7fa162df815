//! The rows of a sequence as a line number program emits them, in 24 bytes each where they fit.

ghost use Rattle.std.specs.Prelude.{◌≡◌, ◌-◌, ◌≤◌, [], nat_lt, length, slice_get, option_map, IfSome, IfOk, OnOk, OnErr, IfErr};
ghost use Rattle.addr2line_spec.specs.Error.TheVariants.{Memory};
ghost use Rattle.addr2line_index.specs.PartialLines.{put_row, is_at};
ghost use Rattle.addr2line_index.specs.NarrowRows.{last_address};
ghost use Rattle.addr2line_index.specs.RowForms.{rows_in_form, IsForm};

use crate::narrow_row::NarrowRow;
use crate::sequence::LineRow;
use addr2line_spec::Error;
use std::alloc::Global;
use std::marker::Model;
use std::mem;

/// Narrow rows, none of which is below one before it, or else wide ones.
#[derive(Debug, Drop)]
pub enum RowForm {
    Narrow(Vec<NarrowRow>),
    Wide(Vec<LineRow>),
}

/// Rows. Once there is one that isn't narrow, or goes back, all are wide.
#[derive(Debug)]
pub struct RowList {
    form: RowForm,
}

impl Drop for RowList {
    fn drop(self) {
        let RowList { form: _ } = self;
    }
}

impl Model for RowList {
    ghost use Rattle.std.specs.Prelude.{List};
    ghost use Rattle.addr2line_spec.specs.Lines.{LineRow as Row};
    ghost use Rattle.addr2line_index.specs.RowForms.{rows_in_form, IsForm};

    ghost Value = { List Row };

    ghost view = { λ l. rows_in_form l.form };

    ghost invariant = { λ l. IsForm l.form };
}

// Whether an address is below that of the last of narrow rows.
#[inline(always)]
fn is_below_last(rows: &[NarrowRow], address: u64) -> bool
    ensures { result ≡ nat_lt address (last_address 0 rows.now) }
{
    match rows.last() {
        Some(last) => address < last.address,
        None => false,
    }
}

// A row in the narrow form, if it fits and isn't below the last of narrow rows. Its place after the
// last one is asked last, so that `put_narrow` goes by the same comparison.
#[inline(always)]
fn narrow_after(rows: &[NarrowRow], row: &LineRow) -> Option<NarrowRow>
    ensures row { IfSome result (λ r. r ≡ row.now) }
    ensures later { IfSome result (λ r. last_address 0 rows.now ≤ r.address) }
{
    let narrow = NarrowRow::of(row)?;
    if is_below_last(rows, row.address) {
        return None;
    }
    Some(narrow)
}

// Appends a narrow row, in place of the last one where that is at the same address.
#[inline(always)]
fn put_narrow(rows: &mut Vec<NarrowRow>, row: NarrowRow) -> Result<(), Error>
    ensures ok { OnOk result (rows.new.items ≡ put_row row rows.old.items) }
    ensures err { OnErr result (rows.new.items ≡ rows.old.items) }
    ensures refusal { IfErr result (λ e. e ≡ Memory) }
{
    if is_last_narrow_at(rows.as_slice(), row.address) {
        let last = rows.len() - 1;
        rows[last] = row;
    } else {
        rows.push(row)?;
    }
    Ok(())
}

// Whether the last of narrow rows is at an address.
#[inline(always)]
fn is_last_narrow_at(rows: &[NarrowRow], address: u64) -> bool
    ensures { result ≡ is_at address (slice_get rows.now (length rows.now - 1)) }
{
    match rows.last() {
        Some(last) => address == last.address,
        None => false,
    }
}

// Whether the last row is at an address.
fn is_last_at(rows: &[LineRow], address: u64) -> bool
    ensures { result ≡ is_at address (slice_get rows.now (length rows.now - 1)) }
{
    match rows.last() {
        Some(last) => address == last.address,
        None => false,
    }
}

// Appends a row, in place of the last one where that is at the same address.
fn put_row(rows: &mut Vec<LineRow>, row: LineRow) -> Result<(), Error>
    ensures ok { OnOk result (rows.new.items ≡ put_row row rows.old.items) }
    ensures err { OnErr result (rows.new.items ≡ rows.old.items) }
    ensures refusal { IfErr result (λ e. e ≡ Memory) }
{
    if is_last_at(rows.as_slice(), row.address) {
        let last = rows.len() - 1;
        rows[last] = row;
    } else {
        rows.push(row)?;
    }
    Ok(())
}

// Narrow rows, wide.
fn wide_rows(alloc: Global, rows: &[NarrowRow]) -> Result<Vec<LineRow>, Error>
    ensures ok { IfOk result (λ all. all.items ≡ rows.now) }
    ensures refusal { IfErr result (λ e. e ≡ Memory) }
{
    let mut all = Vec::new(alloc);
    let mut left = rows;
    while let [row, rest @ ..] = left {
        all.push(row.row())?;
        left = rest;
    }
    Ok(all)
}

impl RowForm {
    // Appends a row, in place of the last one where that is at the same address. Narrow rows are
    // made wide where it doesn't fit among them. Out of memory leaves the rows as they were.
    #[inline(always)]
    fn put(&mut self, row: LineRow) -> Result<(), Error>
        requires { IsForm self.old }
        ensures form { IsForm self.new }
        ensures ok { OnOk result (rows_in_form self.new ≡ put_row row (rows_in_form self.old)) }
        ensures err { OnErr result (rows_in_form self.new ≡ rows_in_form self.old) }
        ensures refusal { IfErr result (λ e. e ≡ Memory) }
    {
        match self {
            RowForm::Narrow(rows) => match narrow_after(rows.as_slice(), &row) {
                Some(narrow) => put_narrow(rows, narrow),
                None => self.put_wide(row),
            },
            RowForm::Wide(_) => self.put_wide(row),
        }
    }

    // The same, with all rows wide then. It is rare: what appends narrow rows doesn't hold its code.
    #[inline(never)]
    fn put_wide(&mut self, row: LineRow) -> Result<(), Error>
        requires { IsForm self.old }
        ensures form { IsForm self.new }
        ensures ok { OnOk result (rows_in_form self.new ≡ put_row row (rows_in_form self.old)) }
        ensures err { OnErr result (rows_in_form self.new ≡ rows_in_form self.old) }
        ensures refusal { IfErr result (λ e. e ≡ Memory) }
    {
        let wide = match self {
            RowForm::Wide(rows) => return put_row(rows, row),
            RowForm::Narrow(rows) => {
                let mut wide = wide_rows(*rows.allocator(), rows.as_slice())?;
                put_row(&mut wide, row)?;
                wide
            }
        };
        *self = RowForm::Wide(wide);
        Ok(())
    }
}

impl RowList {
    // No rows. It takes no memory.
    pub(crate) fn new(alloc: Global) -> Self
        ensures { result ≡ [] }
    {
        RowList {
            form: RowForm::Narrow(Vec::new(alloc)),
        }
    }

    // The address of the first row, if there is one.
    pub(crate) fn first_address(&self) -> Option<u64>
        ensures { result ≡ option_map (λ r. r.address) (slice_get self.now 0) }
    {
        match &self.form {
            RowForm::Narrow(rows) => rows.first().map(|row| row.address),
            RowForm::Wide(rows) => rows.first().map(|row| row.address),
        }
    }

    // Appends a row, in place of the last one where that is at the same address. Out of memory
    // leaves the rows as they were.
    #[inline(always)]
    pub(crate) fn put(&mut self, row: LineRow) -> Result<(), Error>
        ensures ok { OnOk result (self.new ≡ put_row row self.old) }
        ensures err { OnErr result (self.new ≡ self.old) }
        ensures refusal { IfErr result (λ e. e ≡ Memory) }
    {
        self.form.put(row)
    }

    // Takes all rows out. It takes no memory.
    pub(crate) fn take(&mut self, alloc: Global) -> Self
        ensures rows { result ≡ self.old }
        ensures left { self.new ≡ [] }
    {
        mem::replace(self, RowList::new(alloc))
    }

    // The rows, in their form.
    pub(crate) fn into_form(self) -> RowForm
        ensures rows { rows_in_form result ≡ self }
        ensures form { IsForm result }
    {
        let RowList { form } = self;
        form
    }
}
