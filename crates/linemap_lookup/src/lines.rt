//! The addresses in the lines of a reader.

ghost use Rattle.std.specs.Prelude.{◌≡◌, ◌<◌, ◌≤◌, ◌==◌, false, IfErr, IfOk, OnOk};
ghost use Rattle.std.specs.IoError.{error_kind};
ghost use Rattle.std.specs.Io.BufRead.{ends_with_byte, strip_last};
ghost use Rattle.std.specs.List.{position};
ghost use Rattle.linemap_lookup.specs.LineReads.{AppendsPart, HasAddress, IsPartOfLine, ReadsLine, Takes, YieldsAddress, is_whole, line_feed, without_end};

use linemap_meaning::address::read_address;
use linemap_output::MAX_INTERRUPTIONS;
use std::alloc::{AllocError, Global};
use std::io::{BufRead, Error, ErrorKind};
use std::str;

// How many times a reader is asked. Another time would be a fault.
const MAX_TRIES: u64 = 1 << 40;

// Why no line is read.
#[derive(Clone, Copy, Debug, PartialEq, Eq)]
pub(crate) enum LineFault {
    // Out of memory.
    Memory,
    // The read failed, or was tried too often.
    Read,
}

impl From<AllocError> for LineFault {
    ghost use Rattle.linemap_lookup.specs.declared.lines.LineFault.TheVariants.{Memory};

    ghost from_gives = { λ _ fault. fault ≡ Memory };

    fn from(_error: AllocError) -> LineFault {
        LineFault::Memory
    }
}

// The lines of a reader, one after the other, in a buffer that is used again for the next one.
#[derive(Drop)]
pub(crate) struct LineBuffer {
    // The line, with its end.
    line: Vec<u8>,
    // How many more times the reader may be asked.
    tries_left: u64,
    // How many times in a row it was interrupted.
    interruptions: u32,
    // Whether the reader was at its end.
    is_at_end: bool,
    // Whether a read failed, or a line was no text.
    pub has_failed: bool,
}

// The bytes up to and including the first line feed.
fn part_of_line(bytes: &[u8]) -> &[u8]
    ensures { IsPartOfLine bytes.now result.now }
{
    match index_of_line_feed(bytes) {
        Some(index) => &bytes[..index + 1],
        None => bytes,
    }
}

// The index of the first line feed.
fn index_of_line_feed(bytes: &[u8]) -> Option<usize>
    ensures { result ≡ position (λ b. b == line_feed) bytes.now }
{
    bytes.iter().position(|byte| *byte == b'\n')
}

// Whether a line has its end.
fn has_end(line: &[u8]) -> bool
    ensures { result ≡ ends_with_byte line_feed line.now }
{
    matches!(line, [.., b'\n'])
}

// The bytes without the last, if that is this byte.
fn without_last(bytes: &[u8], byte: u8) -> &[u8]
    ensures { result.now ≡ strip_last byte bytes.now }
{
    match bytes.split_last() {
        Some((last, before)) if *last == byte => before,
        _ => bytes,
    }
}

// A line without its end.
fn without_end(line: &[u8]) -> &[u8]
    ensures { result.now ≡ without_end line.now }
{
    if has_end(line) {
        without_last(without_last(line, b'\n'), b'\r')
    } else {
        line
    }
}

impl LineBuffer {
    /// A buffer without room.
    pub fn new(alloc: Global) -> LineBuffer
        ensures start { result.is_at_end ≡ false }
        ensures tries { result.tries_left ≡ MAX_TRIES }
        ensures failed { result.has_failed ≡ false }
    {
        LineBuffer {
            line: Vec::new(alloc),
            tries_left: MAX_TRIES,
            interruptions: 0,
            is_at_end: false,
            has_failed: false,
        }
    }

    // Whether the line has its end, or the reader was at its end.
    fn is_whole(&self) -> bool
        ensures { result ≡ is_whole self.now }
    {
        self.is_at_end || has_end(&self.line)
    }

    // Counts an interruption in a row. Any other error is a fault, and so are too many of these.
    fn count_interruption(&mut self, error: &Error) -> Result<(), LineFault>
        ensures again { OnOk result (error_kind error.now ≡ ErrorKind.Interrupted) }
        ensures fault { IfErr result (λ fault. (fault ≡ LineFault.Read)
            × (error_kind error.now ≡ ErrorKind.Interrupted
            → MAX_INTERRUPTIONS ≤ self.new.interruptions)) }
        ensures same { self.new ≡ record self.old { interruptions = self.new.interruptions } }
    {
        self.interruptions = self.interruptions.saturating_add(1);
        if error.kind() == ErrorKind::Interrupted && self.interruptions < MAX_INTERRUPTIONS {
            Ok(())
        } else {
            Err(LineFault::Read)
        }
    }

    // Counts a try.
    fn count_try(&mut self) -> Result<(), LineFault>
        ensures fewer { OnOk result (self.new.tries_left < self.old.tries_left) }
        ensures fault { IfErr result
            (λ fault. (fault ≡ LineFault.Read) × (self.old.tries_left ≡ 0)) }
        ensures same { self.new ≡ record self.old { tries_left = self.new.tries_left } }
    {
        if self.tries_left == 0 {
            return Err(LineFault::Read);
        }
        self.tries_left -= 1;
        Ok(())
    }

    // Appends what the reader has of a line, if that isn't interrupted.
    fn append_part<R: BufRead>(&mut self, reader: &mut R) -> Result<(), LineFault>
        ensures part { OnOk result
            (AppendsPart (R.remaining reader.old) (R.remaining reader.new) self.old self.new) }
        ensures taken { Takes (R.remaining reader.old) (R.remaining reader.new) }
        ensures failed { self.new.has_failed ≡ self.old.has_failed }
    {
        match reader.fill_buf() {
            Ok(bytes) => {
                let part = part_of_line(bytes);
                self.line.extend_from_slice(part)?;
                self.is_at_end = part.is_empty();
                self.interruptions = 0;
                let count = part.len();
                reader.consume(count);
                Ok(())
            }
            Err(error) => self.count_interruption(&error),
        }
    }

    // Reads a line with its end, or the last one of the input.
    fn read_line<R: BufRead>(&mut self, reader: &mut R) -> Result<(), LineFault>
        requires { self.old.is_at_end ≡ false }
        ensures line { OnOk result
            (ReadsLine (R.remaining reader.old) (R.remaining reader.new) self.new) }
        ensures taken { Takes (R.remaining reader.old) (R.remaining reader.new) }
        ensures fewer { OnOk result (self.new.tries_left < self.old.tries_left) }
        ensures failed { self.new.has_failed ≡ self.old.has_failed }
    {
        self.line.clear();
        'part: while !self.is_whole() {
            self.count_try()?;
            self.append_part(reader)?;
        }
        Ok(())
    }

    // The address in the line. A line that is no text is a fault.
    fn address_in_line(&mut self) -> Option<Option<u64>>
        ensures { HasAddress self.old self.new result }
    {
        match str::from_utf8(without_end(&self.line)) {
            Ok(text) => Some(read_address(text)),
            Err(_) => {
                self.has_failed = true;
                None
            }
        }
    }

    /// The address in the next line, if it can be read. There is no next one at the end of the
    /// input, after a fault, and where a line is no text.
    pub fn next_address<R: BufRead>(
        &mut self,
        reader: &mut R,
    ) -> Result<Option<Option<u64>>, AllocError>
        ensures address { IfOk result (YieldsAddress (R.remaining reader.old)
            (R.remaining reader.new) self.old self.new) }
        ensures taken { Takes (R.remaining reader.old) (R.remaining reader.new) }
    {
        if self.is_at_end {
            return Ok(None);
        }
        match self.read_line(reader) {
            Ok(()) if self.line.is_empty() => Ok(None),
            Ok(()) => Ok(self.address_in_line()),
            Err(LineFault::Memory) => Err(AllocError),
            Err(LineFault::Read) => {
                self.has_failed = true;
                Ok(None)
            }
        }
    }
}
