//! The loops over `Write::write` and `Write::flush`.
ghost use Rattle.std.specs.Prelude.{◌≡◌, ◌+◌, ◌<◌, ◌≤◌, IfOk, IfErr, OnOk};
ghost use Rattle.std.specs.IoError.{error_kind};
ghost use Rattle.std.specs.Io.KnownBytes.{Appends, Keeps};
ghost use Rattle.linemap_output.specs.WriterBytes.{AppendsPrefix, IsFaultOf};

use std::io::{Error, ErrorKind, Write};

/// The number of interruptions in a row that is a fault.
pub const MAX_INTERRUPTIONS: u32 = 1000;

/// Why a text could not be written whole, or a writer could not be flushed.
#[derive(Clone, Copy, Debug, PartialEq, Eq, Hash)]
pub enum WriteFault {
    /// The reader closed its end.
    BrokenPipe,
    /// Any other failure, a write that took nothing, or too many interruptions in a row.
    Failed,
}

/// Writes the whole text, as `write_bytes` does.
pub fn write_text<W: Write>(out: &mut W, text: &str) -> Result<(), WriteFault>
    ensures whole { OnOk result (Appends (W.contents out.old) (W.contents out.new) text.now) }
    ensures prefix { AppendsPrefix (W.contents out.old) (W.contents out.new) text.now }
{
    write_bytes(out, text.as_bytes())
}

/// Writes all the bytes. A write that was interrupted is tried again.
pub fn write_bytes<W: Write>(out: &mut W, bytes: &[u8]) -> Result<(), WriteFault>
    ensures whole { OnOk result (Appends (W.contents out.old) (W.contents out.new) bytes.now) }
    ensures prefix { AppendsPrefix (W.contents out.old) (W.contents out.new) bytes.now }
{
    let mut rest = bytes;
    let mut interruptions = 0;
    'write: while !rest.is_empty() {
        match out.write(rest) {
            Ok(0) => return Err(WriteFault::Failed),
            Ok(count) => {
                rest = &rest[count..];
                interruptions = 0;
            }
            Err(error) => interruptions = tries_again(&error, interruptions)?,
        }
    }
    Ok(())
}

/// Writes the whole text, and flushes.
pub fn write_flushed<W: Write>(out: &mut W, text: &str) -> Result<(), WriteFault>
    ensures whole { OnOk result (Appends (W.contents out.old) (W.contents out.new) text.now) }
    ensures prefix { AppendsPrefix (W.contents out.old) (W.contents out.new) text.now }
{
    write_text(out, text)?;
    flush(out)
}

/// Flushes the writer. A flush that was interrupted is tried again.
pub fn flush<W: Write>(out: &mut W) -> Result<(), WriteFault>
    ensures { Keeps (W.contents out.old) (W.contents out.new) }
{
    let mut interruptions = 0;
    'flush: loop {
        match out.flush() {
            Ok(()) => return Ok(()),
            Err(error) => interruptions = tries_again(&error, interruptions)?,
        }
    }
}

// The number of interruptions in a row, with this error, or the fault that ends the tries.
fn tries_again(error: &Error, interruptions: u32) -> Result<u32, WriteFault>
    requires { interruptions < MAX_INTERRUPTIONS }
    ensures again { IfOk result (λ count. (error_kind error.now ≡ ErrorKind.Interrupted)
        × (count ≡ interruptions + 1) × (count < MAX_INTERRUPTIONS)) }
    ensures fault { IfErr result (λ fault. IsFaultOf fault (error_kind error.now)
        × (error_kind error.now ≡ ErrorKind.Interrupted
        → MAX_INTERRUPTIONS ≤ interruptions + 1)) }
{
    let kind = error.kind();
    if kind == ErrorKind::BrokenPipe {
        return Err(WriteFault::BrokenPipe);
    }
    let count = interruptions + 1;
    if kind == ErrorKind::Interrupted && count < MAX_INTERRUPTIONS {
        Ok(count)
    } else {
        Err(WriteFault::Failed)
    }
}
