//! What is printed for an address.

ghost use Rattle.std.specs.Prelude.{◌≡◌, [], false, OnOk};
ghost use Rattle.std.specs.String.{string_bytes};
ghost use Rattle.linemap_lookup.specs.AnswerBuffers.{GrowsByRefusal};
ghost use Rattle.linemap_lookup.specs.LookupAnswers.{is_memory};

use addr2line_context::Error;
use std::alloc::{AllocError, Global};

// What is printed for an address, in buffers that are used again for the next one.
#[derive(Drop)]
pub(crate) struct AnswerBuffer {
    // What goes to the output.
    pub text: String,
    // The error lines.
    pub errors: String,
    // Whether memory was refused.
    pub is_memory_refused: bool,
}

// Whether an error is out of memory.
fn is_memory(error: Error) -> bool
    ensures { result ≡ is_memory error }
{
    match error {
        Error::Memory => true,
        _ => false,
    }
}

impl AnswerBuffer {
    /// Buffers without room.
    pub fn new(alloc: Global) -> AnswerBuffer {
        AnswerBuffer {
            text: String::new(alloc),
            errors: String::new(alloc),
            is_memory_refused: false,
        }
    }

    /// Forgets what was printed, and keeps its room.
    pub fn clear(&mut self)
        ensures text { string_bytes self.new.text ≡ [] }
        ensures errors { string_bytes self.new.errors ≡ [] }
        ensures memory { self.new.is_memory_refused ≡ false }
    {
        self.text.clear();
        self.errors.clear();
        self.is_memory_refused = false;
    }

    /// Appends the error line of a refusal for an address.
    pub fn push_refusal(
        &mut self,
        message: &str,
        address: u64,
        error: Error,
    ) -> Result<(), AllocError>
        ensures { OnOk result (GrowsByRefusal self.old self.new message.now address error) }
    {
        if is_memory(error) {
            self.is_memory_refused = true;
        }
        write!(self.errors, "linemap: {message}0x{address:x}: {error}\n")
    }
}
