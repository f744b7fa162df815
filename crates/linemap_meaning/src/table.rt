//! The structs of a table's units, which may or may not meet a table's conditions.

/// The addresses from `begin` up to `end`, which is not among them.
#[derive(Debug, PartialEq, Drop)]
pub struct TableRange {
    pub begin: u64,
    pub end: u64,
}

/// One compilation unit: its working directory and name, the addresses that it covers, its source
/// files, and what is known of its code.
#[derive(Debug, PartialEq, Drop)]
pub struct TableUnit {
    pub directory: String,
    pub name: String,
    pub ranges: Vec<TableRange>,
    pub files: Vec<TableFile>,
    pub functions: Vec<TableFunction>,
    pub sequences: Vec<TableSequence>,
}

/// A source file of a unit. Rows and calls name it by its index in `TableUnit::files`.
#[derive(Debug, PartialEq, Drop)]
pub struct TableFile {
    pub directory: String,
    pub name: String,
}

/// A function, and the calls that were inlined into it.
#[derive(Debug, PartialEq, Drop)]
pub struct TableFunction {
    pub name: String,
    pub ranges: Vec<TableRange>,
    pub calls: Vec<TableCall>,
}

/// An inlined call: the name of the function that was called, the addresses of its body, the place
/// of the call (file, line, column), and the calls that were inlined into it in turn.
#[derive(Debug, PartialEq, Drop)]
pub struct TableCall {
    pub name: String,
    pub ranges: Vec<TableRange>,
    pub file: u64,
    pub line: u64,
    pub column: u64,
    pub calls: Vec<TableCall>,
}

/// Rows of a line table, and the address at which the last of them ends.
#[derive(Debug, PartialEq, Drop)]
pub struct TableSequence {
    pub rows: Vec<TableRow>,
    pub end: u64,
}

/// The place in the source that the code from an address on belongs to: its file, line and column,
/// whether a statement is recommended to begin there, and which of several blocks of that place it
/// is, or 0 (DWARF 5, 6.2.2).
#[derive(Debug, PartialEq, Drop)]
pub struct TableRow {
    pub address: u64,
    pub file: u64,
    pub line: u64,
    pub column: u64,
    pub statement: bool,
    pub discriminator: u64,
}
