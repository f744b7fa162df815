//! The error lines of files and targets.

ghost use Rattle.std.specs.Prelude.{◌≡◌, [], codes, false};
ghost use Rattle.linemap_output.specs.ErrorLine.{EndsAtRead, Fails, error_line};
ghost use Rattle.linemap_commands.specs.Reports.{EndsAtTarget};

use linemap_output::{Ended, fail};
use std::io::Write;

/// Ends with status 1 and the line for a file that can't be written.
pub fn cannot_write<W: Write>(err: &mut W, path: &str) -> Ended
    ensures line { Fails (error_line (codes "cannot write ") path.now) (W.contents err.old)
        (W.contents err.new) result }
    ensures memory { result.memory ≡ false }
{
    fail(err, "cannot write ", path)
}

/// Ends with status 1 and the line for debug information of a file that can't be read.
pub fn cannot_load<W: Write>(err: &mut W) -> Ended
    ensures { EndsAtRead 1 (error_line (codes "failed to load debug info: ") (codes "L2"))
        (W.contents err.old) (W.contents err.new) result }
{
    Ended {
        read: true,
        ..fail(err, "failed to load debug info: ", "L2")
    }
}

/// Ends with status 2 and the line for numbers that are no target.
pub fn no_such_target<W: Write>(err: &mut W) -> Ended
    ensures { EndsAtTarget (error_line (codes "no such target") []) (W.contents err.old)
        (W.contents err.new) result }
{
    Ended {
        status: 2,
        ..fail(err, "no such target", "")
    }
}
