ghost use Rattle.std.specs.Prelude.{◌≡◌};

use crate::entry::LineEntry;
use crate::file_id::FileId;
use gimli_lines_machine::LineRules;

/// A row of a program that is built (DWARF 5, 6.2.2).
#[derive(Clone, Copy, Debug, PartialEq, Eq)]
pub struct LineRow {
    /// How far after the last address that was set, or after 0, the row's address is.
    pub address_offset: u64,
    /// The operation within the instruction at the address.
    pub op_index: u64,
    pub file: FileId,
    /// From 1 on; 0 for an address of no line.
    pub line: u64,
    /// From 1 on; 0 for the left edge.
    pub column: u64,
    pub discriminator: u64,
    pub is_statement: bool,
    pub basic_block: bool,
    pub prologue_end: bool,
    pub epilogue_begin: bool,
    pub isa: u64,
}

impl LineRow {
    ghost use Rattle.gimli_lines_write_rows.specs.BuiltRows.{first_row};
    ghost use Rattle.gimli_lines_write_rows.specs.EntryBytes.{next_row};

    /// The row at the start of a sequence (DWARF 5, table 6.4).
    pub fn first(rules: LineRules) -> Self
        ensures { result ≡ first_row rules }
    {
        LineRow {
            address_offset: 0,
            op_index: 0,
            file: FileId(if rules.encoding.version <= 4 { 0 } else { 1 }),
            line: 1,
            column: 0,
            discriminator: 0,
            is_statement: rules.line_encoding.default_is_stmt,
            basic_block: false,
            prologue_end: false,
            epilogue_begin: false,
            isa: 0,
        }
    }

    /// The row from which those after an entry go on.
    pub fn after_entry(self, rules: LineRules, entry: &LineEntry) -> Self
        ensures { result ≡ next_row rules self entry.now }
    {
        match entry {
            LineEntry::SetAddress(_) => LineRow {
                address_offset: 0,
                op_index: 0,
                ..self
            },
            LineEntry::Row(row) => LineRow {
                discriminator: 0,
                basic_block: false,
                prologue_end: false,
                epilogue_begin: false,
                ..*row
            },
            LineEntry::EndSequence { .. } => LineRow::first(rules),
        }
    }
}
