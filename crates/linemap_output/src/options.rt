//! What a lookup prints.

/// What the program `lookup` prints, and for which addresses.
#[derive(Debug, Drop)]
pub struct Options {
    /// The name of a section whose beginning the addresses count from.
    pub section: Option<String>,
    /// All addresses at which a place begins, in place of words and lines.
    pub all: bool,
    /// The functions of an address, too.
    pub functions: bool,
    /// All of an address on one line.
    pub pretty: bool,
    /// The calls inlined there, too.
    pub inlines: bool,
    /// The address itself, first.
    pub addresses: bool,
    /// Files without their directories.
    pub basenames: bool,
    /// Names of functions as people read them.
    pub demangle: bool,
    /// The form of `llvm-symbolizer`: columns, and an empty line after each address.
    pub llvm: bool,
    /// Which rows are no statements.
    pub statements: bool,
    /// The addresses, as they were written. Where there are none, lines are read.
    pub words: Option<Vec<String>>,
}
