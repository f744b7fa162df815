//! How the addresses in the lines of a reader are answered.

ghost use Rattle.std.specs.Prelude.{◌≡◌, IfErr, IfOk, OnOk};
ghost use Rattle.linemap_lookup.specs.LineReads.{AsksLines, Takes, YieldsAddress};
ghost use Rattle.linemap_lookup.specs.LookupRuns.{AnswersAll, AnswersSome, with_flags};
ghost use Rattle.linemap_output.specs.ErrorLine.{EndsOutOfMemory};
ghost use Rattle.linemap_output.specs.declared.ended.Ended.{Ended};

use crate::engine::Engine;
use crate::lines::LineBuffer;
use crate::write::{Question, with_flags};
use addr2line_split::SplitSource;
use linemap_output::{Ended, out_of_memory};
use std::io::{BufRead, Write};

// The address in the next line, as `LineBuffer::next_address` reads it.
fn next_address<R: BufRead, E: Write>(
    buffer: &mut LineBuffer,
    lines: &mut R,
    err: &mut E,
    ended: Ended,
) -> Result<Option<Option<u64>>, Ended>
    ensures address { IfOk result (YieldsAddress (R.remaining lines.old)
        (R.remaining lines.new) buffer.old buffer.new) }
    ensures same { OnOk result (err.new ≡ err.old) }
    ensures taken { Takes (R.remaining lines.old) (R.remaining lines.new) }
    ensures memory { IfErr result (λ e. (last : Ended)
        × EndsOutOfMemory (E.contents err.old) (E.contents err.new) last
        × (e ≡ with_flags ended last)) }
{
    match buffer.next_address(lines) {
        Ok(address) => Ok(address),
        Err(_) => Err(with_flags(ended, out_of_memory(err))),
    }
}

impl Engine {
    /// Answers the addresses in lines, one after the other, as `write` does: each as soon as its
    /// line is read.
    pub fn write_lines<S: SplitSource, R: BufRead, O: Write, E: Write>(
        &mut self,
        question: Question<'_>,
        lines: &mut R,
        source: &mut S,
        out: &mut O,
        err: &mut E,
        ended: &mut Ended,
    ) -> Result<(), Ended>
        ensures whole { OnOk result (AnswersAll S.answers question.entry.options.now
            question.entry.section (AsksLines (R.remaining lines.old) (R.remaining lines.new))
            (record { file = self.old.loader.file; source = source.old })
            (record { out = O.contents out.old; err = E.contents err.old })
            (record { out = O.contents out.new; err = E.contents err.new }) ended.old ended.new) }
        ensures stop { IfErr result (AnswersSome S.answers question.entry.options.now
            question.entry.section (AsksLines (R.remaining lines.old) (R.remaining lines.new))
            (record { file = self.old.loader.file; source = source.old })
            (record { out = O.contents out.old; err = E.contents err.old })
            (record { out = O.contents out.new; err = E.contents err.new }) ended.old) }
    {
        let mut buffer = LineBuffer::new(self.alloc);
        'line: while let Some(address) = next_address(&mut buffer, lines, err, *ended)? {
            self.write(question, address, source, out, err, ended)?;
        }
        ended.read = buffer.has_failed;
        Ok(())
    }
}
