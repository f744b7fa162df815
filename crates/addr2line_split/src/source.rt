//! Where the bytes of split files come from.

ghost use Rattle.std.specs.Prelude.{◌≡◌, ℕ, List, Option, Result, IfErr};
ghost use Rattle.addr2line_unit.specs.Error.{Error};
ghost use Rattle.addr2line_unit.specs.Error.TheVariants.{Memory};

use addr2line_unit::Error;
use bytes::Bytes;

/// Where the bytes of split files come from.
pub trait SplitSource {
    // What a call may answer: by the source before it, the directory, the name, the answer and the
    // source after it.
    ghost answers: { Self → List ℕ → List ℕ → Result (Option (List ℕ)) Error → Self → Type 0 };

    /// The bytes of the file of a name that counts from a directory, as a unit's root says both;
    /// the directory is empty where it says none. None where there is no such file, or it can't be
    /// read. The only refusal is out of memory.
    fn get(&mut self, directory: &[u8], name: &[u8]) -> Result<Option<Bytes>, Error>
        ensures answer { answers self.old directory.now name.now result self.new }
        ensures memory { IfErr result (λ e. e ≡ Memory) };
}
