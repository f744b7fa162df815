//! Places in the source.

/// A place in the source, its text borrowed from the lines of its unit.
#[derive(Clone, Copy, Debug, PartialEq)]
pub struct Location<'a> {
    /// The file's text, where the unit has that file.
    pub file: Option<&'a str>,
    /// The line, from 1 on.
    pub line: Option<u32>,
    /// The column, from 1 on; 0 stands for the left edge. It is known where the line is.
    pub column: Option<u32>,
    /// Whether the code is recommended as a place for a breakpoint, at the beginning of a statement
    /// (DWARF 5, 6.2.2). Known for a place of the line table, also where its line isn't, and not
    /// for one that calls.
    pub statement: Option<bool>,
    /// Which of the blocks of its line the code belongs to; 0 where there is only one. Known where
    /// the flag is.
    pub discriminator: Option<u64>,
}
