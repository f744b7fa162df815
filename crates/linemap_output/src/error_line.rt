//! The lines that a program writes to its error stream.
ghost use Rattle.std.specs.Prelude.{◌≡◌, [], OnOk, codes, true, false};
ghost use Rattle.std.specs.Io.KnownBytes.{Appends};
ghost use Rattle.linemap_output.specs.WriterBytes.{AppendsPrefix};
ghost use Rattle.linemap_output.specs.ErrorLine.{EndsAtFault, EndsOutOfMemory, EndsAtRead, Fails, error_line};

use crate::ended::Ended;
use crate::writing::{WriteFault, flush, write_text};
use std::io::Write;

/// Writes one error line of the program, its message in two pieces, and flushes. It takes no
/// memory.
pub fn write_error_line<W: Write>(
    err: &mut W,
    message: &str,
    detail: &str,
) -> Result<(), WriteFault>
    ensures whole { OnOk result
        (Appends (W.contents err.old) (W.contents err.new) (error_line message.now detail.now)) }
    ensures prefix { AppendsPrefix (W.contents err.old) (W.contents err.new)
        (error_line message.now detail.now) }
{
    write_text(err, "linemap: ")?;
    write_text(err, message)?;
    write_text(err, detail)?;
    write_text(err, "\n")?;
    flush(err)
}

/// Ends with status 1 after an error line. A fault of the error stream only sets the write flag.
pub fn fail<W: Write>(err: &mut W, message: &str, detail: &str) -> Ended
    ensures ending { Fails (error_line message.now detail.now) (W.contents err.old)
        (W.contents err.new) result }
    ensures memory { result.memory ≡ false }
{
    let ended = Ended::with_status(1);
    match write_error_line(err, message, detail) {
        Ok(()) => ended,
        Err(_) => ended.with_write_fault(),
    }
}

/// Ends with status 1 and the line for memory that was refused.
pub fn out_of_memory<W: Write>(err: &mut W) -> Ended
    ensures { EndsOutOfMemory (W.contents err.old) (W.contents err.new) result }
{
    fail(err, "out of memory", "").with_memory_refused()
}

/// Ends after a fault of the output: with status 1 and an error line, or with status 0 and none
/// after a broken pipe.
pub fn output_failed<W: Write>(err: &mut W, fault: WriteFault) -> Ended
    ensures { EndsAtFault fault (W.contents err.old) (W.contents err.new) result }
{
    match fault {
        WriteFault::BrokenPipe => Ended::with_status(0).with_write_fault(),
        WriteFault::Failed => fail(err, "error flushing stdout", "").with_write_fault(),
    }
}

/// Ends with status 1 and the line for a file that can't be read.
pub fn cannot_read<W: Write>(err: &mut W, path: &str) -> Ended
    ensures { EndsAtRead 1 (error_line (codes "cannot read ") path.now) (W.contents err.old)
        (W.contents err.new) result }
{
    Ended {
        read: true,
        ..fail(err, "cannot read ", path)
    }
}

/// Ends with status 2 and the line for a command line that is not text.
pub fn words_not_text<W: Write>(err: &mut W) -> Ended
    ensures { EndsAtRead 2 (error_line (codes "the command line is not UTF-8") [])
        (W.contents err.old) (W.contents err.new) result }
{
    Ended {
        status: 2,
        read: true,
        ..fail(err, "the command line is not UTF-8", "")
    }
}
