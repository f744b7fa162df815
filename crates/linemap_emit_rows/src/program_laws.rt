//! What follows from the definitions. Each function is a law: it does nothing, and its contract is
//! proved.

ghost use Rattle.linemap_emit_rows.specs.ShownPrograms.{EntriesShow};

/// A program that is built of entries shows their rows.
pub fn entries_show()
    ensures { EntriesShow }
{}
