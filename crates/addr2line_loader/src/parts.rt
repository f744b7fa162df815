//! What an ELF file is made into, step by step. A step that is refused hands what it was given to
//! `refusal`, which drops it in one place.

ghost use Rattle.std.specs.Prelude.{◌≡◌, IfOk, Ok, Err};
ghost use Rattle.addr2line_context.specs.AnsweredContexts.{HasNoAnswers};
ghost use Rattle.addr2line_context.specs.ResolvedUnits.{RunForRangesAlone};
ghost use Rattle.addr2line_context.specs.Results.{and_then};
ghost use Rattle.addr2line_split.specs.CachedFiles.{SharesTables};
ghost use Rattle.addr2line_split.specs.FileParts.{bytes_if_any};
ghost use Rattle.addr2line_split.specs.ImageLoading.{LoadsAsOrNoMemory};
ghost use Rattle.addr2line_loader.specs.LoadedFiles.{with_supplement_if_any, parts_with, parts_of, shared_context};

use crate::sections::{add_supplement, main_sections};
use addr2line_context::{Context, Dwarf, Reader};
use addr2line_split::{Elf, FileParts, ImageReader, LoadError, Symbols};
use std::alloc::Global;
use std::rc::Rc;

// A file's sections, and the context that shares them.
#[derive(Drop)]
pub(crate) struct SharedContext<R: Reader> {
    pub sections: Rc<Dwarf<R>>,
    pub context: Context<R>,
}

// The symbols of an ELF file, and the context over its sections.
#[derive(Drop)]
pub(crate) struct Parts {
    pub symbols: Symbols,
    pub debug: SharedContext<ImageReader>,
}

// The parts of an ELF file, with a supplement if there is one.
pub(crate) fn parts_of(
    alloc: Global,
    elf: &Elf,
    supplement: Option<FileParts>,
) -> Result<Parts, LoadError>
    ensures parts { LoadsAsOrNoMemory (λ p. record {
      symbols = p.symbols;
      debug = record {
        sections = p.debug.sections.value.file;
        context = p.debug.context.value.plain;
      };
    }) result (parts_of elf.now (bytes_if_any supplement)) }
    ensures tables { IfOk result (λ p. SharesTables p.debug.sections.value) }
    ensures answers { IfOk result (λ p. HasNoAnswers p.debug.context.value) }
    ensures lines { IfOk result (λ p. RunForRangesAlone p.debug.context.units) }
{
    match main_sections(alloc, elf) {
        Ok(main) => parts_with(alloc, elf, main, supplement),
        Err(error) => refusal(supplement, error),
    }
}

// The parts, of which the sections are there.
fn parts_with(
    alloc: Global,
    elf: &Elf,
    main: Dwarf<ImageReader>,
    supplement: Option<FileParts>,
) -> Result<Parts, LoadError>
    ensures parts { LoadsAsOrNoMemory (λ p. record {
      symbols = p.symbols;
      debug = record {
        sections = p.debug.sections.value.file;
        context = p.debug.context.value.plain;
      };
    }) result (parts_with elf.now main.file (bytes_if_any supplement)) }
    ensures tables { IfOk result (λ p. SharesTables p.debug.sections.value) }
    ensures answers { IfOk result (λ p. HasNoAnswers p.debug.context.value) }
    ensures lines { IfOk result (λ p. RunForRangesAlone p.debug.context.units) }
{
    match elf.symbols(alloc) {
        Ok(symbols) => match context_with(alloc, main, supplement) {
            Ok(debug) => Ok(Parts { symbols, debug }),
            Err(error) => refusal(symbols, error),
        },
        Err(error) => refusal((main, supplement), error),
    }
}

// The context over a file's sections, with a supplement if there is one.
fn context_with(
    alloc: Global,
    main: Dwarf<ImageReader>,
    supplement: Option<FileParts>,
) -> Result<SharedContext<ImageReader>, LoadError>
    ensures context { LoadsAsOrNoMemory
        (λ c. record { sections = c.sections.value.file; context = c.context.value.plain }) result
        (and_then (with_supplement_if_any (bytes_if_any supplement) main.file) shared_context) }
    ensures tables { IfOk result (λ c. SharesTables c.sections.value) }
    ensures answers { IfOk result (λ c. HasNoAnswers c.context.value) }
    ensures lines { IfOk result (λ c. RunForRangesAlone c.context.units) }
{
    let mut dwarf = main;
    match add_supplement(alloc, &mut dwarf, supplement) {
        Ok(()) => shared_context(alloc, dwarf),
        Err(error) => refusal(dwarf, error),
    }
}

// The context over a file's sections, which are kept with the abbreviation tables that units share.
fn shared_context<R: Reader>(
    alloc: Global,
    sections: Dwarf<R>,
) -> Result<SharedContext<R>, LoadError>
    ensures context { LoadsAsOrNoMemory
        (λ c. record { sections = c.sections.value.file; context = c.context.value.plain }) result
        (shared_context sections.file) }
    ensures tables { IfOk result (λ c. SharesTables c.sections.value) }
    ensures answers { IfOk result (λ c. HasNoAnswers c.context.value) }
    ensures lines { IfOk result (λ c. RunForRangesAlone c.context.units) }
{
    let mut dwarf = sections;
    match dwarf.share_tables(alloc) {
        Ok(()) => context_over(alloc, Rc::new(alloc, dwarf)?),
        Err(error) => refusal(dwarf, LoadError::from(error)),
    }
}

// The context over sections, which shares them.
fn context_over<R: Reader>(
    alloc: Global,
    sections: Rc<Dwarf<R>>,
) -> Result<SharedContext<R>, LoadError>
    ensures context { LoadsAsOrNoMemory
        (λ c. record { sections = c.sections.value.file; context = c.context.value.plain }) result
        (shared_context sections.value.file) }
    ensures sections { IfOk result (λ c. c.sections.value ≡ sections.value) }
    ensures answers { IfOk result (λ c. HasNoAnswers c.context.value) }
    ensures lines { IfOk result (λ c. RunForRangesAlone c.context.units) }
{
    let context = Context::from_arc_dwarf(alloc, sections.clone()?)?;
    Ok(SharedContext { sections, context })
}

// A refusal. What isn't used any more is dropped.
fn refusal<T: Drop, U>(_unused: T, error: LoadError) -> Result<U, LoadError>
    ensures { result ≡ Err error }
{
    Err(error)
}
