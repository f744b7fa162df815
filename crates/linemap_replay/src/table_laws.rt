//! What follows from the definitions. The function is a law: it does nothing, and its contract is
//! proved.

ghost use Rattle.linemap_replay.specs.TableHistories.{CallsAnswered};

/// Over the sections of a table, any calls on a context are answered as the table says, one after
/// the other: `replay` returns copies of these answers.
pub fn calls_answered()
    ensures { CallsAnswered }
{}
