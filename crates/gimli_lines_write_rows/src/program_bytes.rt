//! The bytes of a whole program.

ghost use Rattle.std.specs.Prelude.{◌≡◌, ◌+◌, ◌<◌, ◌^◌, ◌∷◌, [], Ok, true, IfOk};
ghost use Rattle.gimli_lines_write_rows.specs.BuiltRows.{first_row, row_at_address, row_after_row, follows};
ghost use Rattle.gimli_lines_write_rows.specs.RowPieces.{IsBuildable};
ghost use Rattle.gimli_lines_write_rows.specs.EntryBytes.{address_entry, entry_bytes, next_row, can_come, entries_bytes, Continues};

use crate::encoding::{encode_end, encode_row};
use crate::entry::LineEntry;
use crate::row::LineRow;
use gimli_lines_machine::LineRules;
use gimli_lines_write_bytes::{Address, DW_LNE_set_address, Error, Writer};
use std::alloc::Global;

// Writes an address that is set (DWARF 5, 6.2.5.3).
fn write_set_address<W: Writer>(w: &mut W, address: Address, size: u8) -> Result<(), Error>
    requires { size < 255 }
    ensures { Continues result (W.contents w.old) (W.contents w.new)
        (address_entry (W.contents w.old).is_big size (W.address_of address)) }
{
    w.write(&[0, 1 + size, DW_LNE_set_address.0])?;
    w.write_address(address, size)
}

// Writes an entry after a row, over a buffer for its bytes.
#[tactic(auto, using(crate::proofs::RowTests::row_fits_place, crate::proofs::RowTests::row_high))]
fn write_entry<W: Writer>(
    w: &mut W,
    buffer: &mut Vec<u8>,
    rules: LineRules,
    previous: &LineRow,
    entry: &LineEntry,
) -> Result<(), Error>
    requires buildable { IsBuildable rules }
    requires follows { can_come rules previous.now entry.now ≡ true }
    requires low { previous.now.line < 2 ^ 63 }
    ensures { Continues result (W.contents w.old) (W.contents w.new)
        (entry_bytes W.address_of (W.contents w.old).is_big rules previous.now entry.now) }
{
    buffer.clear();
    match entry {
        LineEntry::SetAddress(address) => {
            return write_set_address(w, *address, rules.encoding.address_size);
        }
        LineEntry::Row(row) => encode_row(buffer, rules, previous, row)?,
        LineEntry::EndSequence {
            address_offset,
            op_index,
        } => encode_end(buffer, rules, previous, *address_offset, *op_index)?,
    }
    w.write(buffer.as_slice())
}

/// Writes the bytes of a program's entries. Refused, the writer may have a prefix of them.
pub fn write_entries<W: Writer>(
    alloc: Global,
    w: &mut W,
    rules: LineRules,
    entries: &[LineEntry],
) -> Result<(), Error>
    requires buildable { IsBuildable rules }
    requires follows { follows rules (first_row rules) entries.now ≡ true }
    ensures { Continues result (W.contents w.old) (W.contents w.new)
        (entries_bytes W.address_of (W.contents w.old).is_big rules (first_row rules) entries.now) }
{
    let mut buffer = Vec::new(alloc);
    let mut previous = LineRow::first(rules);
    for entry in entries {
        write_entry(w, &mut buffer, rules, &previous, entry)?;
        previous = previous.after_entry(rules, entry);
    }
    Ok(())
}
