//! Rows as they are built.

ghost use Rattle.std.specs.Prelude.{◌≡◌, [], ◌==◌, ◌&&◌, length, true, false, OnOk, OnErr, IfErr};
ghost use Rattle.gimli_lines_write_bytes.specs.declared.error.Error.TheVariants.{Memory};
ghost use Rattle.gimli_lines_write_rows.specs.BuiltRows.{first_row, row_after_row, can_place, can_follow, follows};
ghost use Rattle.gimli_lines_write_rows.specs.RowsReadBack.{EntriesReadBack};
ghost use Rattle.gimli_lines_write_rows.specs.RowPieces.{IsBuildable};
ghost use Rattle.gimli_lines_write_rows.specs.EntryBytes.{can_come, entries_bytes, Continues};
ghost use Rattle.gimli_lines_write_rows.specs.RowsBuilding.{with_entry, with_address, with_sequence};
ghost use Rattle.gimli_lines_write_rows.specs.declared.entry.LineEntry.TheVariants.{Row, EndSequence};

use crate::entry::LineEntry;
use crate::places::{can_place, can_show};
use crate::program_bytes::write_entries;
use crate::row::LineRow;
use gimli_lines_machine::LineRules;
use gimli_lines_write_bytes::{Address, Error, Writer};
use std::alloc::Global;
use std::marker::Model;

/// The rows of a program as they are built: sequences of rows, each with its end. A refused call
/// changes nothing.
#[derive(Drop)]
pub struct RowsBuilder {
    rules: LineRules,
    entries: Vec<LineEntry>,
    previous: LineRow,
    row: LineRow,
    in_sequence: bool,
}

impl Model for RowsBuilder {
    ghost use Rattle.gimli_lines_write_rows.specs.RowsBuilding.{BuilderState, IsBuilderState};

    ghost Value = { BuilderState };

    ghost view = { λ b. record {
      rules = b.rules;
      entries = b.entries.items;
      previous = b.previous;
      row = b.row;
      in_sequence = b.in_sequence;
    } };

    ghost invariant = { λ b. IsBuilderState b.rules b.entries.items b.previous };
}

impl RowsBuilder {
    /// No rows yet. It takes no memory.
    pub fn new(alloc: Global, rules: LineRules) -> Self
        requires { IsBuildable rules }
        ensures { result ≡ record {
          rules = rules;
          entries = [];
          previous = first_row rules;
          row = first_row rules;
          in_sequence = false;
        } }
    {
        let first = LineRow::first(rules);
        RowsBuilder {
            rules,
            entries: Vec::new(alloc),
            previous: first,
            row: first,
            in_sequence: false,
        }
    }

    /// What the rows' instructions depend on.
    pub fn rules(&self) -> LineRules
        ensures value { result ≡ self.now.rules }
        ensures buildable { IsBuildable result }
    {
        self.rules
    }

    /// Whether a sequence is open.
    pub fn in_sequence(&self) -> bool
        ensures { result ≡ self.now.in_sequence }
    {
        self.in_sequence
    }

    /// Whether nothing was built.
    pub fn is_empty(&self) -> bool
        ensures { result ≡ (length self.now.entries == 0) }
    {
        self.entries.is_empty()
    }

    /// What was built so far, in order.
    pub fn entries(&self) -> &[LineEntry]
        ensures value { result.now ≡ self.now.entries }
        ensures in_order { follows self.now.rules (first_row self.now.rules) self.now.entries
            ≡ true }
    {
        self.entries.as_slice()
    }

    /// The row that comes next.
    pub fn row(&self) -> LineRow
        ensures { result ≡ self.now.row }
    {
        self.row
    }

    /// Sets the row that comes next.
    pub fn set_row(&mut self, row: LineRow)
        ensures { self.new ≡ record self.old { row = row } }
    {
        self.row = row;
    }

    // Adds what can come.
    fn push(&mut self, entry: LineEntry) -> Result<(), Error>
        requires { can_come self.old.rules self.old.previous entry ≡ true }
        ensures ok { OnOk result (self.new ≡ with_entry entry self.old) }
        ensures err { OnErr result (self.new ≡ self.old) }
        ensures refusal { IfErr result (λ e. e ≡ Memory) }
    {
        self.entries.push(entry)?;
        self.previous = self.previous.after_entry(self.rules, &entry);
        Ok(())
    }

    /// Sets the address from which offsets count, in a sequence; the next row is there.
    pub fn set_address(&mut self, address: Address) -> Result<(), Error>
        requires { self.old.in_sequence ≡ true }
        ensures ok { OnOk result (self.new ≡ with_address address self.old) }
        ensures err { OnErr result (self.new ≡ self.old) }
        ensures refusal { IfErr result (λ e. e ≡ Memory) }
    {
        self.push(LineEntry::SetAddress(address))?;
        self.row.address_offset = 0;
        self.row.op_index = 0;
        Ok(())
    }

    /// Begins a sequence where none is open, at an address where one is given, else at 0.
    pub fn begin_sequence(&mut self, address: Option<Address>) -> Result<(), Error>
        requires { self.old.in_sequence ≡ false }
        ensures ok { OnOk result (self.new ≡ with_sequence address self.old) }
        ensures err { OnErr result (self.new ≡ self.old) }
        ensures refusal { IfErr result (λ e. e ≡ Memory) }
    {
        if let Some(address) = address {
            self.push(LineEntry::SetAddress(address))?;
        }
        self.in_sequence = true;
        self.row.address_offset = 0;
        self.row.op_index = 0;
        Ok(())
    }

    /// Whether the row that comes next can follow: a sequence is open, its place doesn't go back,
    /// its offset is one of an instruction, its operation is below the operations of an
    /// instruction, the operations between fit 64 bits, and its line is at most `i64::MAX`.
    pub fn can_row(&self) -> bool
        ensures { result ≡ (self.now.in_sequence && can_follow self.now.rules self.now.previous
            self.now.row) }
    {
        let offset = self.row.address_offset;
        let is_after = can_place(self.rules, &self.previous, offset, self.row.op_index);
        let has_line = can_show(self.row);
        self.in_sequence && is_after && has_line
    }

    /// Whether the sequence can end that many bytes after the address that was set last.
    pub fn can_end(&self, address_offset: u64) -> bool
        ensures { result ≡ (self.now.in_sequence && can_place self.now.rules self.now.previous
            address_offset self.now.row.op_index) }
    {
        self.in_sequence
            && can_place(
                self.rules,
                &self.previous,
                address_offset,
                self.row.op_index,
            )
    }

    /// Adds the row; what holds for it alone is cleared for the next one.
    pub fn generate_row(&mut self) -> Result<(), Error>
        requires open { self.old.in_sequence ≡ true }
        requires follows { can_follow self.old.rules self.old.previous self.old.row ≡ true }
        ensures ok { OnOk result (self.new ≡ record (with_entry (Row self.old.row) self.old)
            { row = row_after_row self.old.row }) }
        ensures err { OnErr result (self.new ≡ self.old) }
        ensures refusal { IfErr result (λ e. e ≡ Memory) }
    {
        let row = self.row;
        self.push(LineEntry::Row(row))?;
        self.row = self.previous;
        Ok(())
    }

    /// Ends the sequence that many bytes after the address that was set last; the next row is as at
    /// the start of a sequence.
    pub fn end_sequence(&mut self, address_offset: u64) -> Result<(), Error>
        requires open { self.old.in_sequence ≡ true }
        requires follows { can_place self.old.rules self.old.previous address_offset
            self.old.row.op_index ≡ true }
        ensures ok { OnOk result (self.new ≡ record (with_entry
            (EndSequence address_offset self.old.row.op_index) self.old)
            { row = first_row self.old.rules; in_sequence = false }) }
        ensures err { OnErr result (self.new ≡ self.old) }
        ensures refusal { IfErr result (λ e. e ≡ Memory) }
    {
        let op_index = self.row.op_index;
        self.push(LineEntry::EndSequence {
            address_offset,
            op_index,
        })?;
        self.row = self.previous;
        self.in_sequence = false;
        Ok(())
    }

    /// Writes the instructions of the rows. Refused, the writer may have a prefix of their bytes.
    pub fn write<W: Writer>(&self, alloc: Global, w: &mut W) -> Result<(), Error>
        ensures bytes { Continues result (W.contents w.old) (W.contents w.new)
            (entries_bytes W.address_of (W.contents w.old).is_big self.now.rules
            (first_row self.now.rules) self.now.entries) }
        ensures reads_back { OnOk result (EntriesReadBack self.now.rules self.now.entries
            (W.contents w.old) (W.contents w.new)) }
    {
        write_entries(alloc, w, self.rules, self.entries.as_slice())
    }
}
