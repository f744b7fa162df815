//! Contexts of files, and what is asked of them.

use super::case::{Asked, Case};
use super::files::{
    Borrowed, File, Sections, borrow_sections, borrowed_files, share_sections, shared_files,
};
use super::question::{Question, Steps};
use super::{frames, loads, places};
use crate::answer::{Answer, without_refusals};
use addr2line_context::{Context, Dwarf, Error, Reader, SectionId};
use std::alloc::{AllocError, Global};
use std::rc::Rc;

/// Adds the answers to what is asked of a file, and an empty line.
pub fn answer(alloc: Global, files: &[File], case: &Case, out: &mut Answer) {
    match answers(alloc, files, case) {
        Ok(text) => out.text(&text),
        Err(_) => out.refuse_named(Error::Memory),
    }
    out.text("\n");
}

// The answers, which all readers and constructors have to give.
fn answers(alloc: Global, files: &[File], case: &Case) -> Result<String, AllocError> {
    let by_borrowed = answers_by_borrowed(alloc, files, case)?;
    let by_shared = answers_by_shared(alloc, files, case)?;
    let by_sections = answers_by_sections(alloc, files, case)?;
    if are_alike(alloc, &by_borrowed, &by_shared)?
        && are_alike(alloc, &by_borrowed, &by_sections)?
    {
        Ok(longest(by_borrowed, longest(by_shared, by_sections)))
    } else {
        format!(in alloc; "fault: {by_borrowed}\n{by_shared}\n{by_sections}")
    }
}

// Whether answers are the same but for the memory that was refused for them.
fn are_alike(alloc: Global, one: &str, other: &str) -> Result<bool, AllocError> {
    let one = without_refusals(alloc, one)?;
    let other = without_refusals(alloc, other)?;
    Ok(one == other)
}

// Of answers that are alike, those for which memory was refused.
fn longest(one: String, other: String) -> String {
    if other.len() > one.len() { other } else { one }
}

// Through borrowed bytes.
fn answers_by_borrowed(alloc: Global, files: &[File], case: &Case) -> Result<String, AllocError> {
    let named = borrowed_files(alloc, files)?;
    let file = borrow_sections(alloc, &case.file)?;
    let context = match context_of(alloc, &file, supplement_in(case, &named)) {
        Err(Error::Memory) => context_of(alloc, &file, supplement_in(case, &named)),
        made => made,
    };
    answers_with(alloc, case, context, &named)
}

// The same, from sections that are handed in one by one, unless there is a supplement.
fn answers_by_sections(alloc: Global, files: &[File], case: &Case) -> Result<String, AllocError> {
    if case.supplement.is_some() {
        return answers_by_borrowed(alloc, files, case);
    }
    let named = borrowed_files(alloc, files)?;
    let context = match context_of_sections(alloc, &case.file) {
        Err(Error::Memory) => context_of_sections(alloc, &case.file),
        made => made,
    };
    answers_with(alloc, case, context, &named)
}

// Through shared bytes.
fn answers_by_shared(alloc: Global, files: &[File], case: &Case) -> Result<String, AllocError> {
    let named = shared_files(alloc, files)?;
    let file = share_sections(alloc, &case.file)?;
    let context = match counted_context_of(alloc, &file, supplement_in(case, &named)) {
        Err(Error::Memory) => counted_context_of(alloc, &file, supplement_in(case, &named)),
        made => made,
    };
    answers_with(alloc, case, context, &named)
}

/// The supplement of a paragraph's file.
pub fn supplement_in<'a, R: Reader>(
    case: &Case,
    named: &'a [Sections<R>],
) -> Option<&'a Sections<R>> {
    match case.supplement {
        Some(number) => named.get(number),
        None => None,
    }
}

fn answers_with<R: Reader>(
    alloc: Global,
    case: &Case,
    context: Result<Context<R>, Error>,
    named: &[Sections<R>],
) -> Result<String, AllocError> {
    let mut out = Answer::new(alloc);
    let mut context = context;
    for asked in case.asked.iter() {
        answer_line(&mut context, asked, named, &mut out);
    }
    out.finish()
}

// ---- contexts

fn context_of<R: Reader>(
    alloc: Global,
    file: &Sections<R>,
    supplement: Option<&Sections<R>>,
) -> Result<Context<R>, Error> {
    match dwarf_of(alloc, file, supplement) {
        Ok(dwarf) => Context::from_dwarf(alloc, dwarf),
        Err(error) => Err(error),
    }
}

// The same over sections that are shared already.
fn counted_context_of<R: Reader>(
    alloc: Global,
    file: &Sections<R>,
    supplement: Option<&Sections<R>>,
) -> Result<Context<R>, Error> {
    match dwarf_of(alloc, file, supplement) {
        Ok(dwarf) => match Rc::new(alloc, dwarf) {
            Ok(dwarf) => Context::from_arc_dwarf(alloc, dwarf),
            Err(_) => Err(Error::Memory),
        },
        Err(error) => Err(error),
    }
}

fn context_of_sections<'a>(alloc: Global, file: &'a File) -> Result<Context<Borrowed<'a>>, Error> {
    Context::from_sections(
        alloc,
        file.reader(SectionId::DebugAbbrev).into(),
        file.reader(SectionId::DebugAddr).into(),
        file.reader(SectionId::DebugAranges).into(),
        file.reader(SectionId::DebugInfo).into(),
        file.reader(SectionId::DebugLine).into(),
        file.reader(SectionId::DebugLineStr).into(),
        file.reader(SectionId::DebugRanges).into(),
        file.reader(SectionId::DebugRngLists).into(),
        file.reader(SectionId::DebugStr).into(),
        file.reader(SectionId::DebugStrOffsets).into(),
        file.reader(SectionId::DebugTypes),
    )
}

/// A file with its supplement, if it has one.
pub fn dwarf_of<R: Reader>(
    alloc: Global,
    file: &Sections<R>,
    supplement: Option<&Sections<R>>,
) -> Result<Dwarf<R>, Error> {
    match (file.load(alloc), supplement) {
        (Ok(dwarf), Some(supplement)) => with_supplement(alloc, dwarf, supplement),
        (loaded, _) => loaded,
    }
}

fn with_supplement<R: Reader>(
    alloc: Global,
    mut dwarf: Dwarf<R>,
    supplement: &Sections<R>,
) -> Result<Dwarf<R>, Error> {
    match supplement.load_sup(alloc, &mut dwarf) {
        Ok(()) => Ok(dwarf),
        Err(error) => Err(error),
    }
}

// The sections of a named file.
fn sections_of<R: Reader>(
    alloc: Global,
    named: &[Sections<R>],
    number: Option<usize>,
) -> loads::Sections<R> {
    let Some(number) = number else {
        return Ok(None);
    };
    match named.get(number) {
        Some(file) => load_counted(alloc, file),
        None => Ok(None),
    }
}

fn load_counted<R: Reader>(alloc: Global, file: &Sections<R>) -> loads::Sections<R> {
    match file.load(alloc) {
        Ok(dwarf) => match Rc::new(alloc, dwarf) {
            Ok(dwarf) => Ok(Some(dwarf)),
            Err(_) => Err(Error::Memory),
        },
        Err(error) => Err(error),
    }
}

// ---- questions

// A question as it is written, and the answer, or the refusal of the context.
fn answer_line<R: Reader>(
    context: &mut Result<Context<R>, Error>,
    asked: &Asked,
    named: &[Sections<R>],
    out: &mut Answer,
) {
    out.text(&asked.line);
    if !matches!(asked.question, Question::Heading) {
        out.text(": ");
        match context {
            Ok(context) => ask_again_if_refused(context, asked.question, named, out),
            Err(error) => out.refuse_named(*error),
        }
    }
    out.text("\n");
}

// The answer. Where memory was refused for it, the same context is asked again.
fn ask_again_if_refused<R: Reader>(
    context: &mut Context<R>,
    question: Question,
    named: &[Sections<R>],
    out: &mut Answer,
) {
    let mut first = Answer::new(out.alloc);
    ask(context, question, named, &mut first);
    match first.finish() {
        Ok(text) => out.text(&text),
        Err(_) => {
            out.again();
            ask(context, question, named, out);
        }
    }
}

fn ask<R: Reader>(
    context: &mut Context<R>,
    question: Question,
    named: &[Sections<R>],
    out: &mut Answer,
) {
    match question {
        Question::Heading => {}
        Question::Place(probe) => places::place_found(context.find_location(probe), out),
        Question::Frames(probe) => frames::frames_at(context, probe, out),
        Question::FramesOfEach(steps) => frames_of_each(context, steps, out),
        Question::Name(probe) => frames::name_at(context, probe, out),
        Question::Unit(probe) => loads::unit_at(context, probe, out),
        Question::Stretches(low, high) => stretches(context, low, high, out),
        Question::Lines => out.outcome(context.parse_lines()),
        Question::Functions => out.outcome(context.parse_functions()),
        Question::Calls => out.outcome(context.parse_inlined_functions()),
        Question::HasUnit(number) => loads::has_unit(context, number, out),
        _ => ask_about_loads(context, question, named, out),
    }
}

fn stretches<R: Reader>(context: &mut Context<R>, low: u64, high: u64, out: &mut Answer) {
    match context.find_location_range(low, high) {
        Ok(mut found) => places::stretches(&mut found, out),
        Err(error) => out.refuse_named(error),
    }
}

fn ask_about_loads<R: Reader>(
    context: &mut Context<R>,
    question: Question,
    named: &[Sections<R>],
    out: &mut Answer,
) {
    match question {
        Question::Loads(probe) => loads::loads_at(context, probe, out),
        Question::Waits(probe) => loads::waits_at(context, probe, out),
        Question::Drops(probe) => loads::drops_at(context, probe, out),
        Question::Answer(number, file) => {
            loads::answer(context, number, sections_of(out.alloc, named, file), out);
        }
        Question::Resume(probe, file) => {
            loads::resume_at(context, probe, sections_of(out.alloc, named, file), out);
        }
        Question::ResumeUnit(probe, file) => {
            loads::resume_unit_at(context, probe, sections_of(out.alloc, named, file), out);
        }
        _ => {}
    }
}

// The frames of some addresses if they are the same for all, else of the first two that differ.
fn frames_of_each<R: Reader>(context: &mut Context<R>, steps: Steps, out: &mut Answer) {
    let Ok(first) = text_at(out.alloc, context, steps.first) else {
        return out.refuse_named(Error::Memory);
    };
    out.text(&first);
    let mut probe = steps.first;
    for _ in 1..steps.count {
        probe = probe.wrapping_add(steps.step);
        match text_at(out.alloc, context, probe) {
            Ok(text) if text == first => {}
            Ok(text) => {
                out.text(", but at ");
                out.hex(probe);
                out.text(" ");
                return out.text(&text);
            }
            Err(_) => return out.refuse_named(Error::Memory),
        }
    }
}

fn text_at<R: Reader>(
    alloc: Global,
    context: &mut Context<R>,
    probe: u64,
) -> Result<String, AllocError> {
    let mut out = Answer::new(alloc);
    frames::frames_at(context, probe, &mut out);
    out.finish()
}
