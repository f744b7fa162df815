//! What follows from the definitions. Each function is a law: it does nothing, and its contract is
//! proved.

ghost use Rattle.linemap_emit_rows.specs.EmittedRows.{SequencesFollow, SequencesReadable, SequencesShown};
ghost use Rattle.linemap_emit_rows.specs.SoundSequences.{SoundCanEmitSequences};

/// A program that is built of a table's sequences shows their rows.
pub fn sequences_shown()
    ensures { SequencesShown }
{}

/// The entries of sequences whose rows don't go back can be built.
pub fn sequences_follow()
    ensures { SequencesFollow }
{}

/// What is built of such sequences can be read.
pub fn sequences_readable()
    ensures { SequencesReadable }
{}

/// The sequences of a sound table can be written as entries, built of them, and shown.
pub fn sound_can_emit_sequences()
    ensures { SoundCanEmitSequences }
{}
