//! How answers are written, one after the other.

ghost use Rattle.std.specs.Prelude.{◌≡◌, ℕ, [], ◌∷◌, IfErr, OnOk, Option, Some, false, map};
ghost use Rattle.std.specs.String.{string_bytes};
ghost use Rattle.std.specs.Io.KnownBytes.{Appends};
ghost use Rattle.linemap_meaning.specs.AnswerTexts.{word_address};
ghost use Rattle.linemap_lookup.specs.AnswerBuffers.{answer_of};
ghost use Rattle.linemap_lookup.specs.LookupRuns.{Records, Stops, StopsAmong, StopsBefore, WritesAnswer, WritesAddress, WritesAddresses, with_flags};

use crate::answer::AnswerBuffer;
use crate::engine::Engine;
use addr2line_context::Range;
use addr2line_split::SplitSource;
use linemap_meaning::address::read_address;
use linemap_output::{Ended, Options, out_of_memory, output_failed, write_flushed};
use std::io::Write;

// What is asked of each address: the options, and the section that addresses count from.
#[derive(Clone, Copy)]
pub(crate) struct Question<'o> {
    pub options: &'o Options,
    pub section: Option<Range>,
}

// What an address can be read from: a word, or the address itself.
pub(crate) trait ToAddress {
    ghost address: { Self → Option ℕ };

    fn to_address(&self) -> Option<u64>
        ensures { result ≡ address self.now };
}

impl ToAddress for u64 {
    ghost address = { Some };

    fn to_address(&self) -> Option<u64> {
        Some(*self)
    }
}

impl ToAddress for String {
    ghost address = { λ word. word_address (string_bytes word) };

    fn to_address(&self) -> Option<u64> {
        read_address(self)
    }
}

// Writes the error lines of an answer, and records a fault of the error stream.
fn write_errors<E: Write>(errors: &str, err: &mut E, ended: &mut Ended)
    ensures err { ended.new.write ≡ false
        → Appends (E.contents err.old) (E.contents err.new) errors.now }
    ensures flags { Records ended.old ended.new false }
{
    if errors.is_empty() {
        return;
    }
    if write_flushed(err, errors).is_err() {
        ended.write = true;
    }
}

// Records that memory was refused, if it was.
fn record_memory(is_refused: bool, ended: &mut Ended)
    ensures { Records ended.old ended.new is_refused }
{
    if is_refused {
        ended.memory = true;
    }
}

// Records whether memory was refused, and writes the error lines of an answer.
fn report<E: Write>(answer: &AnswerBuffer, err: &mut E, ended: &mut Ended)
    ensures err { ended.new.write ≡ false
        → Appends (E.contents err.old) (E.contents err.new) (string_bytes answer.now.errors) }
    ensures flags { Records ended.old ended.new answer.now.is_memory_refused }
{
    record_memory(answer.is_memory_refused, ended);
    write_errors(&answer.errors, err, ended);
}

// An end, with the flags that were set before.
pub(crate) fn with_flags(earlier: Ended, last: Ended) -> Ended
    ensures { result ≡ with_flags earlier last }
{
    Ended {
        status: last.status,
        memory: earlier.memory || last.memory,
        read: earlier.read || last.read,
        write: earlier.write || last.write,
    }
}

// Writes an answer, and flushes.
fn write_answer<O: Write, E: Write>(
    answer: &AnswerBuffer,
    out: &mut O,
    err: &mut E,
    ended: &mut Ended,
) -> Result<(), Ended>
    ensures whole { OnOk result (WritesAnswer (answer_of answer.now)
        (record { out = O.contents out.old; err = E.contents err.old })
        (record { out = O.contents out.new; err = E.contents err.new }) ended.old ended.new) }
    ensures stop { IfErr result (Stops (answer_of answer.now)
        (record { out = O.contents out.old; err = E.contents err.old })
        (record { out = O.contents out.new; err = E.contents err.new }) ended.old) }
{
    report(answer, err, ended);
    match write_flushed(out, &answer.text) {
        Ok(()) => Ok(()),
        Err(fault) => Err(with_flags(*ended, output_failed(err, fault))),
    }
}

impl Engine {
    /// Answers an address, writes its answer, and flushes. Error lines go to the error stream,
    /// whose faults are only recorded.
    pub fn write<S: SplitSource, O: Write, E: Write>(
        &mut self,
        question: Question<'_>,
        address: Option<u64>,
        source: &mut S,
        out: &mut O,
        err: &mut E,
        ended: &mut Ended,
    ) -> Result<(), Ended>
        ensures whole { OnOk result (WritesAddress S.answers question.entry.options.now
            question.entry.section address
            (record { file = self.old.loader.file; source = source.old })
            (record { file = self.new.loader.file; source = source.new })
            (record { out = O.contents out.old; err = E.contents err.old })
            (record { out = O.contents out.new; err = E.contents err.new }) ended.old ended.new) }
        ensures stop { IfErr result (StopsBefore S.answers question.entry.options.now
            question.entry.section (address ∷ [])
            (record { file = self.old.loader.file; source = source.old })
            (record { out = O.contents out.old; err = E.contents err.old })
            (record { out = O.contents out.new; err = E.contents err.new }) ended.old) }
    {
        match self.answer(question.options, question.section, address, source) {
            Ok(()) => write_answer(&self.answer, out, err, ended),
            Err(_) => Err(with_flags(*ended, out_of_memory(err))),
        }
    }

    /// Answers the addresses of items, one after the other, as `write` does.
    pub fn write_addresses<T: ToAddress, S: SplitSource, O: Write, E: Write>(
        &mut self,
        question: Question<'_>,
        items: &[T],
        source: &mut S,
        out: &mut O,
        err: &mut E,
        ended: &mut Ended,
    ) -> Result<(), Ended>
        ensures whole { OnOk result (WritesAddresses S.answers question.entry.options.now
            question.entry.section (map T.address items.now)
            (record { file = self.old.loader.file; source = source.old })
            (record { file = self.new.loader.file; source = source.new })
            (record { out = O.contents out.old; err = E.contents err.old })
            (record { out = O.contents out.new; err = E.contents err.new }) ended.old ended.new) }
        ensures stop { IfErr result (StopsAmong S.answers question.entry.options.now
            question.entry.section (map T.address items.now)
            (record { file = self.old.loader.file; source = source.old })
            (record { out = O.contents out.old; err = E.contents err.old })
            (record { out = O.contents out.new; err = E.contents err.new }) ended.old) }
    {
        for item in items {
            self.write(question, item.to_address(), source, out, err, ended)?;
        }
        Ok(())
    }
}
