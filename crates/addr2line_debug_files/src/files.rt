//! Where the bytes of files come from.

ghost use Rattle.std.specs.Prelude.{List, ℕ, Option, Result};
ghost use Rattle.std.specs.declared.alloc.AllocError.{AllocError};
ghost use Rattle.addr2line_debug_files.specs.declared.files.NamedFile.{NamedFile};

use bytes::Bytes;
use std::alloc::AllocError;

/// A file: its path and its bytes.
#[derive(Clone, Debug, Drop)]
pub struct NamedFile {
    pub path: Bytes,
    pub bytes: Bytes,
}

/// Where the bytes of files come from.
pub trait FilesByPath {
    // What a call may answer: by the files before it, the path, the answer and the files after it.
    ghost answers: { Self → List ℕ → Result (Option NamedFile) AllocError → Self → Type 0 };

    /// The file at a path, with the path that it has itself, where that one leads to it by symbolic
    /// links. None where there is no such file, or it can't be read.
    fn read(&mut self, path: &[u8]) -> Result<Option<NamedFile>, AllocError>
        ensures { answers self.old path.now result self.new };
}
