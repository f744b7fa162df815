//! The error lines of tables that are refused.
ghost use Rattle.std.specs.Prelude.{◌≡◌, codes, true, false};
ghost use Rattle.linemap_output.specs.ErrorLine.{Fails, emission_line, table_line};

use crate::ended::Ended;
use crate::error_line::fail;
use std::io::Write;

/// Ends with status 1 and the line for a table that is refused by this code.
pub fn table_refused<W: Write>(err: &mut W, code: &str) -> Ended
    ensures line { Fails (table_line code.now) (W.contents err.old) (W.contents err.new) result }
    ensures memory { result.memory ≡ false }
{
    fail(err, "table refused: ", code)
}

/// Ends with status 1 and the line for a table that memory is refused for.
pub fn table_out_of_memory<W: Write>(err: &mut W) -> Ended
    ensures line { Fails (table_line (codes "B1")) (W.contents err.old) (W.contents err.new)
        result }
    ensures memory { result.memory ≡ true }
{
    table_refused(err, "B1").with_memory_refused()
}

// Ends with status 1 and the line for a table of which nothing is emitted.
fn emission_refused<W: Write>(err: &mut W, code: &str) -> Ended
    ensures line { Fails (emission_line code.now) (W.contents err.old) (W.contents err.new)
        result }
    ensures memory { result.memory ≡ false }
{
    fail(err, "emit refused: ", code)
}

/// Ends with status 1 and the line for what is emitted of a table, where memory is refused for it.
pub fn emission_out_of_memory<W: Write>(err: &mut W) -> Ended
    ensures line { Fails (emission_line (codes "M1")) (W.contents err.old) (W.contents err.new)
        result }
    ensures memory { result.memory ≡ true }
{
    emission_refused(err, "M1").with_memory_refused()
}

/// Ends with status 1 and the line for a table that is too large.
pub fn table_too_large<W: Write>(err: &mut W) -> Ended
    ensures line { Fails (emission_line (codes "M2")) (W.contents err.old) (W.contents err.new)
        result }
    ensures memory { result.memory ≡ false }
{
    emission_refused(err, "M2")
}
