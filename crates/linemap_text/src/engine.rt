//! The program `ask`, over any two writers.
ghost use Rattle.std.specs.Prelude.{◌≡◌, codes, ◌++◌, ◌<◌, ◌^◌, [], IfErr, IfOk, List, OnOk, false, map, string_bytes};
ghost use Rattle.std.specs.Io.KnownBytes.{Appends};
ghost use Rattle.linemap_emit.specs.AnswerTexts.{ask_text};
ghost use Rattle.linemap_emit.specs.TableParts.{UnitPart};
ghost use Rattle.linemap_emit.specs.TableWeight.{table_weight};
ghost use Rattle.linemap_emit.specs.TableUnits.{units_of};
ghost use Rattle.linemap_emit.specs.SectionAnswers.{AreAnswers};
ghost use Rattle.linemap_emit.specs.EmissionTargets.{encoding_of, is_big_of};
ghost use Rattle.linemap_text.specs.WordTexts.{NeverRefuses, word_text, words_text};
ghost use Rattle.linemap_output.specs.WriterBytes.{AppendsPrefix};
ghost use Rattle.linemap_text.specs.Ask.{EmissionStops, FlagsMean, IsClean, StopsAt, StopsWriting, ask_outcome};

use crate::stops::{MemoryUse, Stop};
use crate::{context_of, dwarf_of, word_line};
use addr2line_context::{Context, Format, Reader};
use linemap_emit::{Sections, Table, Target, emit_sections};
use linemap_output::{Ended, flush, write_text};
use std::alloc::{AllocError, Global};
use std::io::Write;

/// Answers each word by a line, and flushes it before it reads the next word. The answers are read
/// from the table's debug information, emitted as version 4 in 32-bit DWARF. Text that isn't a
/// table, and a table that is too large, are refused by an error line and status 1. A fault of the
/// error stream only sets `write` in the result.
pub fn ask<O: Write, E: Write>(
    alloc: Global,
    text: &[u8],
    words: &[String],
    out: &mut O,
    err: &mut E,
) -> Ended
    ensures clean { let p = ask_outcome text.now (map string_bytes words.now) in IsClean result →
        Appends (O.contents out.old) (O.contents out.new) p.out
        × Appends (E.contents err.old) (E.contents err.new) p.err × (result.status ≡ p.status) }
    ensures prefix { AppendsPrefix (O.contents out.old) (O.contents out.new)
        (ask_outcome text.now (map string_bytes words.now)).out }
    ensures refusal { (ask_outcome text.now (map string_bytes words.now)).status ≡ 1
        → result.status ≡ 1 }
    ensures flags { FlagsMean (ask_outcome text.now (map string_bytes words.now))
        (E.contents err.old) (E.contents err.new) result }
{
    match answer(alloc, text, words, out) {
        Ok(()) => Ended::with_status(0),
        Err(stop) => stop.report(err),
    }
}

// Reads the table, emits its sections and writes the answers.
fn answer<W: Write>(alloc: Global, text: &[u8], words: &[String], out: &mut W) -> Result<(), Stop>
    ensures whole { let p = ask_outcome text.now (map string_bytes words.now) in OnOk result
        (Appends (W.contents out.old) (W.contents out.new) p.out × (p.err ≡ [])
        × (p.status ≡ 0)) }
    ensures prefix { AppendsPrefix (W.contents out.old) (W.contents out.new)
        (ask_outcome text.now (map string_bytes words.now)).out }
    ensures stop { IfErr result (StopsAt (ask_outcome text.now (map string_bytes words.now))) }
{
    let table = Table::read(alloc, text)?;
    let sections = sections_of(alloc, &table)?;
    write_places(alloc, &sections, words, out)
}

// The target of the sections: version 4, the least significant byte first.
fn target() -> Target
    ensures order { is_big_of result ≡ false }
    ensures size { (encoding_of result).address_size ≡ 8 }
{
    Target::new(4, Format::Dwarf32, 8, false).unwrap()
}

// The sections of a table.
#[tactic(auto, using(linemap_emit::proofs::FittingTables::fits_8))]
fn sections_of(alloc: Global, table: &Table) -> Result<Sections, Stop>
    ensures answers { IfOk result (λ s. AreAnswers false s (units_of table.now)) }
    ensures light { OnOk result (table_weight (units_of table.now) < 2 ^ 31) }
    ensures refusal { IfErr result (EmissionStops (units_of table.now)) }
{
    Ok(emit_sections(alloc, table, target())?)
}

// Writes a line for each word, from the sections of a table.
fn write_places<W: Write>(
    alloc: Global,
    sections: &Sections,
    words: &[String],
    out: &mut W,
) -> Result<(), Stop>
    requires { (us : List UnitPart) × AreAnswers false sections.now us }
    ensures whole { (us : List UnitPart) → AreAnswers false sections.now us → OnOk result
        (Appends (W.contents out.old) (W.contents out.new)
        (ask_text us (map string_bytes words.now))) }
    ensures prefix { (us : List UnitPart) → AreAnswers false sections.now us →
        AppendsPrefix (W.contents out.old) (W.contents out.new)
        (ask_text us (map string_bytes words.now)) }
    ensures stop { IfErr result StopsWriting }
{
    let dwarf = dwarf_of(alloc, sections, target().endian());
    match context_of(alloc, dwarf) {
        Ok(mut context) => write_answers(alloc, &mut context, words, out),
        Err(_) => Err(Stop::Memory(MemoryUse::Context)),
    }
}

// Writes a line for each word.
fn write_answers<R: Reader, W: Write>(
    alloc: Global,
    context: &mut Context<R>,
    words: &[String],
    out: &mut W,
) -> Result<(), Stop>
    requires { NeverRefuses context.old.value.plain.context }
    ensures whole { OnOk result (Appends (W.contents out.old) (W.contents out.new)
        (words_text context.old.value.plain.context (map string_bytes words.now))) }
    ensures prefix { AppendsPrefix (W.contents out.old) (W.contents out.new)
        (words_text context.old.value.plain.context (map string_bytes words.now)) }
    ensures stop { IfErr result StopsWriting }
{
    for word in words {
        write_answer(alloc, context, word, out)?;
    }
    Ok(())
}

// Writes the line for a word, and flushes.
fn write_answer<R: Reader, W: Write>(
    alloc: Global,
    context: &mut Context<R>,
    word: &str,
    out: &mut W,
) -> Result<(), Stop>
    requires { NeverRefuses context.old.value.plain.context }
    ensures whole { OnOk result (Appends (W.contents out.old) (W.contents out.new)
        (word_text context.old.value.plain.context word.now ++ codes "\n")) }
    ensures prefix { AppendsPrefix (W.contents out.old) (W.contents out.new)
        (word_text context.old.value.plain.context word.now ++ codes "\n") }
    ensures stop { IfErr result StopsWriting }
    ensures value { context.new.value ≡ context.old.value }
{
    let line = answer_line(alloc, context, word)?;
    write_text(out, &line)?;
    flush(out)?;
    Ok(())
}

// The line for a word, with its end.
fn answer_line<R: Reader>(
    alloc: Global,
    context: &mut Context<R>,
    word: &str,
) -> Result<String, AllocError>
    requires { NeverRefuses context.old.value.plain.context }
    ensures line { IfOk result (λ line.
        string_bytes line ≡ word_text context.old.value.plain.context word.now ++ codes "\n") }
    ensures value { context.new.value ≡ context.old.value }
{
    let mut line = word_line(alloc, context, word)?;
    line.push('\n')?;
    Ok(line)
}
