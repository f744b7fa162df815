//! The lines of a unit as they are read, before they are searched.

ghost use Rattle.std.specs.Prelude.{◌≡◌, map};
ghost use Rattle.std.specs.String.{string_bytes};
ghost use Rattle.addr2line_spec.specs.Lines.{no_lines};

use crate::sequence::LineSequence;
use std::alloc::Global;
use std::marker::Model;

/// What lookups know of a unit's lines: its sequences of rows, and the texts of its files by their
/// numbers.
#[derive(Debug)]
pub struct Lines {
    sequences: Vec<LineSequence>,
    files: Vec<String>,
}

impl Drop for Lines {
    fn drop(self) {
        let Lines {
            sequences: _,
            files: _,
        } = self;
    }
}

impl Model for Lines {
    ghost use Rattle.std.specs.Prelude.{map};
    ghost use Rattle.std.specs.String.{string_bytes};
    ghost use Rattle.addr2line_spec.specs.Lines.{Lines as LinesPart};

    ghost Value = { LinesPart };

    ghost view = { λ l.
        record { sequences = l.sequences.items; files = map string_bytes l.files.items } };
}

impl Lines {
    /// The lines of a unit without a line number program. It takes no memory.
    pub fn new(alloc: Global) -> Self
        ensures { result ≡ no_lines }
    {
        Lines {
            sequences: Vec::new(alloc),
            files: Vec::new(alloc),
        }
    }

    // Lines of sequences and of texts of files. It takes no memory.
    pub(crate) fn from_parts(sequences: Vec<LineSequence>, files: Vec<String>) -> Self
        ensures { result
            ≡ record { sequences = sequences.items; files = map string_bytes files.items } }
    {
        Lines { sequences, files }
    }

    /// The sequences, in the order of the line number program.
    pub fn sequences(&self) -> &[LineSequence]
        ensures { result.now ≡ self.now.sequences }
    {
        self.sequences.as_slice()
    }

    // The sequences and the texts of files.
    pub(crate) fn into_parts(self) -> (Vec<LineSequence>, Vec<String>)
        ensures sequences { result.0.items ≡ self.sequences }
        ensures files { map string_bytes result.1.items ≡ self.files }
    {
        let Lines { sequences, files } = self;
        (sequences, files)
    }
}
