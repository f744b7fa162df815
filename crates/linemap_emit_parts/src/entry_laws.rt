//! Laws: what is written is read again. Each function does nothing, and its contract is proved.

ghost use Rattle.linemap_emit_parts.specs.EmittedEntryLaws.{DeclarationsAgain, RowAgain, RowsAgain, UnitsAgain, WalkAgain};

/// The declarations are read as their table.
pub fn declarations_again()
    ensures { DeclarationsAgain }
{}

/// An entry is read as its row, whatever follows it.
pub fn row_again()
    ensures { RowAgain }
{}

/// The entries of a unit are read as their rows.
pub fn rows_again()
    ensures { RowsAgain }
{}

/// A walk of a unit can begin at each of its entries.
pub fn walk_again()
    ensures { WalkAgain }
{}

/// Units written end to end are the units of their section, up to its end.
pub fn units_again()
    ensures { UnitsAgain }
{}
