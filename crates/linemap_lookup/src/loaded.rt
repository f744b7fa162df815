//! The program `lookup`, from a file that is loaded to the answers.

ghost use Rattle.std.specs.Prelude.{◌≡◌, false};
ghost use Rattle.std.specs.Io.KnownBytes.{Appends};
ghost use Rattle.linemap_output.specs.Outcome.{Outcome};
ghost use Rattle.linemap_lookup.specs.Programs.{LacksMemoryForAll, Prints, Runs, question_of};

use crate::engine::Engine;
use addr2line_loader::Loader;
use addr2line_split::SplitSource;
use linemap_output::{Ended, Options};
use std::alloc::Global;
use std::io::{BufRead, Write};

/// Answers the addresses that the options ask for, as `run` does, by a file that is loaded.
pub fn run_loaded<S: SplitSource + Drop, R: BufRead, O: Write, E: Write>(
    alloc: Global,
    options: &Options,
    loader: Loader,
    source: S,
    lines: &mut R,
    out: &mut O,
    err: &mut E,
) -> Ended
    ensures clean { result.memory ≡ false → result.write ≡ false → (p : Outcome)
        × Prints S.answers options.now source (R.remaining lines.old) (R.remaining lines.new)
        (question_of options.now loader.file) result.read p
        × Appends (O.contents out.old) (O.contents out.new) p.out
        × Appends (E.contents err.old) (E.contents err.new) p.err × (result.status ≡ p.status) }
    ensures runs { Runs S.answers options.now source (R.remaining lines.old)
        (R.remaining lines.new) (LacksMemoryForAll options.now loader.file)
        (question_of options.now loader.file)
        (record { out = O.contents out.old; err = E.contents err.old })
        (record { out = O.contents out.new; err = E.contents err.new }) result }
{
    let mut source = source;
    Engine::new(alloc, loader).run(options, &mut source, lines, out, err)
}
