//! The program `lookup`, from an image to the answers.

ghost use Rattle.std.specs.Prelude.{◌≡◌, IfErr, IfOk, Ok, OnOk, codes, false, option_map};
ghost use Rattle.std.specs.String.{string_bytes};
ghost use Rattle.std.specs.Io.KnownBytes.{Appends};
ghost use Rattle.addr2line_loader.specs.LoadedFiles.{loaded_file};
ghost use Rattle.addr2line_split.specs.FileParts.{bytes_if_any};
ghost use Rattle.addr2line_split.specs.LoadErrors.{text_of};
ghost use Rattle.linemap_output.specs.ErrorLine.{error_line};
ghost use Rattle.linemap_lookup.specs.LookupRuns.{AnswersAll, AnswersSome};
ghost use Rattle.linemap_output.specs.Outcome.{Outcome};
ghost use Rattle.linemap_lookup.specs.Programs.{Asks, LacksMemory, LacksMemoryFor, LacksMemoryForAll, Prints, RefusesBy, RefusesByOrLacksMemory, RefusesOrLacksMemory, Runs, RunsOn, load_memory_line, or_line, question, question_of, section_if_any, words_of};

use crate::all::find_all;
use crate::engine::Engine;
use crate::write::Question;
use addr2line_context::Range;
use addr2line_loader::Loader;
use addr2line_split::{FileParts, LoadError, SplitSource};
use linemap_output::{Ended, Options, fail};
use std::alloc::Global;
use std::io::{BufRead, Write};
use std::mem;

/// Ends with status 1 and the line for a file for which memory is refused.
pub fn load_out_of_memory<E: Write>(err: &mut E) -> Ended
    ensures { LacksMemory load_memory_line (E.contents err.old) (E.contents err.new) result }
{
    fail(err, "failed to load debug info: ", "L1").with_memory_refused()
}

// Reports that a file isn't loaded: why, or that memory is refused for saying so.
pub(crate) fn load_refused<E: Write>(alloc: Global, error: LoadError, err: &mut E) -> Ended
    ensures { RefusesOrLacksMemory
        (error_line (codes "failed to load debug info: ") (text_of error)) load_memory_line
        (E.contents err.old) (E.contents err.new) result }
{
    match format!(in alloc; "{error}") {
        Ok(text) => fail(err, "failed to load debug info: ", &text),
        Err(_) => load_out_of_memory(err),
    }
}

// Loads a file with its supplement.
fn load<E: Write>(
    alloc: Global,
    image: FileParts,
    supplement: Option<FileParts>,
    err: &mut E,
) -> Result<Loader, Ended>
    ensures file { IfOk result (λ loader.
        loaded_file image.bytes (bytes_if_any supplement) ≡ Ok loader.file) }
    ensures same { OnOk result (err.new ≡ err.old) }
    ensures refusal { IfErr result (RefusesByOrLacksMemory
        (or_line (codes "failed to load debug info: ") text_of
        (loaded_file image.bytes (bytes_if_any supplement)))
        load_memory_line (E.contents err.old) (E.contents err.new)) }
{
    match Loader::from_parts(alloc, image, supplement) {
        Ok(loader) => Ok(loader),
        Err(LoadError::Memory) => Err(load_out_of_memory(err)),
        Err(error) => Err(load_refused(alloc, error, err)),
    }
}

// The range of the section that addresses count from, if one is asked for.
fn find_section<E: Write>(
    loader: &Loader,
    options: &Options,
    err: &mut E,
) -> Result<Option<Range>, Ended>
    ensures section { IfOk result (λ section. section_if_any
        (option_map string_bytes options.now.section) loader.now.file.image ≡ Ok section) }
    ensures same { OnOk result (err.new ≡ err.old) }
    ensures refusal { IfErr result (RefusesBy
        (section_if_any (option_map string_bytes options.now.section) loader.now.file.image)
        (E.contents err.old) (E.contents err.new)) }
{
    match &options.section {
        None => Ok(None),
        Some(name) => match loader.get_section_range(name.as_bytes()) {
            Some(range) => Ok(Some(range)),
            None => Err(fail(err, "cannot find section ", name)),
        },
    }
}

impl Engine {
    // Answers the addresses that are asked for.
    fn answer_asked<S: SplitSource, R: BufRead, O: Write, E: Write>(
        &mut self,
        question: Question<'_>,
        all: Option<&[u64]>,
        source: &mut S,
        lines: &mut R,
        out: &mut O,
        err: &mut E,
        ended: &mut Ended,
    ) -> Result<(), Ended>
        requires { ended.old.read ≡ false }
        ensures whole { OnOk result (AnswersAll S.answers question.entry.options.now
            question.entry.section
            (Asks (option_map (λ a. a.now) all.entry) (words_of question.entry.options.now)
            (R.remaining lines.old) (R.remaining lines.new))
            (record { file = self.old.loader.file; source = source.old })
            (record { out = O.contents out.old; err = E.contents err.old })
            (record { out = O.contents out.new; err = E.contents err.new }) ended.old ended.new) }
        ensures stop { IfErr result (AnswersSome S.answers question.entry.options.now
            question.entry.section
            (Asks (option_map (λ a. a.now) all.entry) (words_of question.entry.options.now)
            (R.remaining lines.old) (R.remaining lines.new))
            (record { file = self.old.loader.file; source = source.old })
            (record { out = O.contents out.old; err = E.contents err.old })
            (record { out = O.contents out.new; err = E.contents err.new }) ended.old) }
    {
        match (all, &question.options.words) {
            (Some(all), _) => self.write_addresses(question, all, source, out, err, ended),
            (None, Some(words)) => self.write_addresses(question, words, source, out, err, ended),
            (None, None) => self.write_lines(question, lines, source, out, err, ended),
        }
    }

    // Answers the addresses that are asked for, from the first one on.
    fn run_all<S: SplitSource, R: BufRead, O: Write, E: Write>(
        &mut self,
        question: Question<'_>,
        all: Option<&[u64]>,
        source: &mut S,
        lines: &mut R,
        out: &mut O,
        err: &mut E,
    ) -> Ended
        ensures { RunsOn S.answers question.entry.options.now source.old (R.remaining lines.old)
            (R.remaining lines.new)
            (Ok (record {
              file = self.old.loader.file;
              section = question.entry.section;
              all = option_map (λ a. a.now) all.entry;
            }))
            (record { out = O.contents out.old; err = E.contents err.old })
            (record { out = O.contents out.new; err = E.contents err.new }) result }
    {
        let mut ended = Ended::with_status(0);
        match self.answer_asked(question, all, source, lines, out, err, &mut ended) {
            Ok(()) => ended,
            Err(stop) => stop,
        }
    }

    // Answers what is asked of a file.
    pub(crate) fn run<S: SplitSource, R: BufRead, O: Write, E: Write>(
        &mut self,
        options: &Options,
        source: &mut S,
        lines: &mut R,
        out: &mut O,
        err: &mut E,
    ) -> Ended
        ensures { Runs S.answers options.now source.old (R.remaining lines.old)
            (R.remaining lines.new) (LacksMemoryForAll options.now self.old.loader.file)
            (question_of options.now self.old.loader.file)
            (record { out = O.contents out.old; err = E.contents err.old })
            (record { out = O.contents out.new; err = E.contents err.new }) result }
    {
        let section = match find_section(&self.loader, options, err) {
            Ok(section) => section,
            Err(ended) => return ended,
        };
        match find_all(self.alloc, &mut self.loader, options, err) {
            Ok(all) => self.run_all(
                Question { options, section },
                all.as_deref(),
                source,
                lines,
                out,
                err,
            ),
            Err(ended) => ended,
        }
    }
}

// Loads a file, and answers what is asked of it. Its memory isn't given back, part by part: the
// process that ends then gives back all of it.
fn answer_image<S: SplitSource, R: BufRead, O: Write, E: Write>(
    alloc: Global,
    options: &Options,
    image: FileParts,
    supplement: Option<FileParts>,
    source: &mut S,
    lines: &mut R,
    out: &mut O,
    err: &mut E,
) -> Ended
    ensures { Runs S.answers options.now source.old (R.remaining lines.old)
        (R.remaining lines.new)
        (LacksMemoryFor options.now image.bytes (bytes_if_any supplement))
        (question options.now image.bytes (bytes_if_any supplement))
        (record { out = O.contents out.old; err = E.contents err.old })
        (record { out = O.contents out.new; err = E.contents err.new }) result }
{
    match load(alloc, image, supplement, err) {
        Ok(loader) => {
            let mut engine = Engine::new(alloc, loader);
            let ended = engine.run(options, source, lines, out, err);
            mem::forget(engine);
            ended
        }
        Err(ended) => ended,
    }
}

/// Answers the addresses that the options ask for, of a file of which the parts that a loader needs
/// are in memory: all at which a place of the file begins, or those of words, or else those of
/// lines, each as soon as its line is read, until the input ends, a read fails or a line is no
/// text. The output is flushed after each answer. Loads are answered by the source's split files.
/// Each refusal has an error line; after that of an address the next one is answered. A fault of
/// the error stream only sets `write` in the result. It is what a process does last: the memory of
/// what was loaded isn't given back.
pub fn run<S: SplitSource + Drop, R: BufRead, O: Write, E: Write>(
    alloc: Global,
    options: &Options,
    image: FileParts,
    supplement: Option<FileParts>,
    source: S,
    lines: &mut R,
    out: &mut O,
    err: &mut E,
) -> Ended
    ensures clean { result.memory ≡ false → result.write ≡ false → (p : Outcome)
        × Prints S.answers options.now source (R.remaining lines.old) (R.remaining lines.new)
        (question options.now image.bytes (bytes_if_any supplement)) result.read p
        × Appends (O.contents out.old) (O.contents out.new) p.out
        × Appends (E.contents err.old) (E.contents err.new) p.err × (result.status ≡ p.status) }
    ensures runs { Runs S.answers options.now source (R.remaining lines.old)
        (R.remaining lines.new)
        (LacksMemoryFor options.now image.bytes (bytes_if_any supplement))
        (question options.now image.bytes (bytes_if_any supplement))
        (record { out = O.contents out.old; err = E.contents err.old })
        (record { out = O.contents out.new; err = E.contents err.new }) result }
{
    let mut source = source;
    answer_image(
        alloc,
        options,
        image,
        supplement,
        &mut source,
        lines,
        out,
        err,
    )
}
