//! How a program ended.
ghost use Rattle.std.specs.Prelude.{◌≡◌, true, false};

/// How a program ended: its exit status, and what went wrong outside of it.
#[derive(Clone, Copy, Debug, PartialEq, Eq)]
pub struct Ended {
    /// The exit status.
    pub status: u8,
    /// Set only if memory was refused.
    pub memory: bool,
    /// Set only if a read failed, or gave no text.
    pub read: bool,
    /// Set only if a write or a flush failed, or a write took nothing.
    pub write: bool,
}

impl Ended {
    /// This status, and nothing went wrong outside.
    pub fn with_status(status: u8) -> Ended
        ensures { result ≡ record { status = status; memory = false; read = false; write = false } }
    {
        Ended {
            status,
            memory: false,
            read: false,
            write: false,
        }
    }

    /// The same, and a write failed too.
    pub fn with_write_fault(self) -> Ended
        ensures { result ≡ record self { write = true } }
    {
        Ended {
            write: true,
            ..self
        }
    }

    /// The same, and memory was refused too.
    pub fn with_memory_refused(self) -> Ended
        ensures { result ≡ record self { memory = true } }
    {
        Ended {
            memory: true,
            ..self
        }
    }
}
