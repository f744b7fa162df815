//! Streams that end in a fault.

ghost use Rattle.std.specs.Prelude.{◌≡◌, IfOk};

use std::alloc::Global;
use std::io;
use std::io::{ErrorKind, Read, Write};

/// How a stream fails.
#[derive(Clone, Copy)]
pub enum Fault {
    /// By an error of a kind.
    Kind(ErrorKind),
    /// A write takes nothing.
    Nothing,
}

impl Fault {
    // The answer of a call that fails: an error, or that it took nothing.
    fn ending(self) -> io::Result<usize>
        ensures { IfOk result (λ count. count ≡ 0) }
    {
        match self {
            Fault::Kind(kind) => Err(kind.into()),
            Fault::Nothing => Ok(0),
        }
    }
}

/// A reader of some bytes, and then a fault.
#[derive(Drop)]
pub struct CutReader {
    pub bytes: Vec<u8>,
    /// How many of them were read.
    pub count: usize,
    /// How often it is interrupted before the first byte.
    pub interruptions: u32,
    pub fault: Fault,
}

impl CutReader {
    /// A reader of nothing.
    pub fn new(alloc: Global) -> CutReader {
        CutReader {
            bytes: Vec::new(alloc),
            count: 0,
            interruptions: 0,
            fault: Fault::Nothing,
        }
    }
}

impl Read for CutReader {
    fn read(&mut self, buf: &mut [u8]) -> io::Result<usize> {
        if self.interruptions > 0 {
            self.interruptions -= 1;
            return Err(ErrorKind::Interrupted.into());
        }
        let rest = match self.bytes.get(self.count..) {
            Some(rest) if !rest.is_empty() => rest,
            _ => return self.fault.ending(),
        };
        let count = rest.len().min(buf.len());
        buf[..count].copy_from_slice(&rest[..count]);
        self.count += count;
        Ok(count)
    }
}

/// A writer that keeps some bytes and is flushed some times, and then fails.
#[derive(Drop)]
pub struct CutWriter {
    pub text: Vec<u8>,
    /// How many more bytes it takes.
    pub room: usize,
    /// How many more flushes succeed.
    pub flushes: usize,
    /// How often it is interrupted before each call that succeeds.
    pub waits: u32,
    /// How often it was interrupted since the last such call.
    waited: u32,
    pub fault: Fault,
    /// Whether memory was refused for what it keeps.
    pub lacks_memory: bool,
}

impl CutWriter {
    /// A writer that takes all.
    pub fn new(alloc: Global) -> CutWriter {
        CutWriter {
            text: Vec::new(alloc),
            room: usize::MAX,
            flushes: usize::MAX,
            waits: 0,
            waited: 0,
            fault: Fault::Kind(ErrorKind::Other),
            lacks_memory: false,
        }
    }

    fn is_interrupted(&mut self) -> bool {
        if self.waited < self.waits {
            self.waited = self.waited.saturating_add(1);
            return true;
        }
        self.waited = 0;
        false
    }
}

impl Write for CutWriter {
    fn write(&mut self, buf: &[u8]) -> io::Result<usize> {
        if self.is_interrupted() {
            return Err(ErrorKind::Interrupted.into());
        }
        let count = buf.len().min(self.room);
        if count == 0 {
            return self.fault.ending();
        }
        if self.text.extend_from_slice(&buf[..count]).is_err() {
            self.lacks_memory = true;
            return Err(ErrorKind::OutOfMemory.into());
        }
        self.room -= count;
        Ok(count)
    }

    fn flush(&mut self) -> io::Result<()> {
        if self.is_interrupted() {
            return Err(ErrorKind::Interrupted.into());
        }
        if self.flushes == 0 {
            return match self.fault {
                Fault::Kind(kind) => Err(kind.into()),
                Fault::Nothing => Err(ErrorKind::Other.into()),
            };
        }
        self.flushes -= 1;
        Ok(())
    }
}

/// How many bytes or flushes there are before a fault, and which it is: `COUNT`, or `COUNT:FAULT`.
pub fn cut_of(value: &str) -> (usize, Fault) {
    let (count, fault) = value.split_once(':').unwrap_or((value, ""));
    (count.parse().unwrap_or(0), fault_of(fault))
}

fn fault_of(name: &str) -> Fault {
    match name {
        "nothing" => Fault::Nothing,
        "pipe" => Fault::Kind(ErrorKind::BrokenPipe),
        "interrupted" => Fault::Kind(ErrorKind::Interrupted),
        _ => Fault::Kind(ErrorKind::Other),
    }
}
