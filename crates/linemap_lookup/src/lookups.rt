//! The answers to addresses, from a loaded file and a source of split files.

ghost use Rattle.std.specs.Prelude.{◌≡◌, [], ◌++◌, Err, false, codes, if◌then◌else◌, IfOk, None, OnOk, Some, option_map};
ghost use Rattle.std.specs.String.{string_bytes};
ghost use Rattle.addr2line_context.specs.BorrowedFrames.{frames_left};
ghost use Rattle.addr2line_context.specs.BorrowedLocations.{location_value};
ghost use Rattle.addr2line_loader.specs.LoadedFiles.{symbol_name};
ghost use Rattle.addr2line_split.specs.ElfSymbols.{symbol_at};
ghost use Rattle.linemap_lookup.specs.AddressTexts.{location_text_if_any};
ghost use Rattle.linemap_lookup.specs.AnswerBuffers.{Grows, GrowsByFound, GrowsByFrames, GrowsByPlace};
ghost use Rattle.linemap_lookup.specs.LookupAnswers.{frames_answer, looked_up, place_answer};

use crate::answer::AnswerBuffer;
use crate::frames::{push_frames, push_no_frame};
use crate::printer::push_place;
use addr2line_context::{Error, FrameIter, Location, Range, Reader};
use addr2line_loader::Loader;
use addr2line_split::SplitSource;
use linemap_output::Options;
use std::alloc::{AllocError, Global};

// Appends the line of a place.
pub(crate) fn push_place_line(
    text: &mut String,
    options: &Options,
    place: Option<Location<'_>>,
) -> Result<(), AllocError>
    ensures { OnOk result (string_bytes text.new ≡ string_bytes text.old
        ++ (location_text_if_any options.now (option_map location_value place.entry)
        ++ codes "\n")) }
{
    push_place(text, options, place)?;
    text.push_str("\n")
}

// Appends a refusal of the place of an address.
fn push_refused_place(
    options: &Options,
    address: u64,
    error: Error,
    answer: &mut AnswerBuffer,
) -> Result<(), AllocError>
    ensures { OnOk result
        (Grows answer.old answer.new (place_answer options.now address (Err error))) }
{
    answer.push_refusal("failed to find location for ", address, error)?;
    push_place_line(&mut answer.text, options, None)
}

// Appends the place of an address, or its refusal.
pub(crate) fn answer_place(
    loader: &mut Loader,
    options: &Options,
    address: u64,
    answer: &mut AnswerBuffer,
) -> Result<(), AllocError>
    ensures answer { OnOk result
        (GrowsByPlace options.now address loader.old.file answer.old answer.new) }
    ensures same { loader.new.file ≡ loader.old.file }
{
    match loader.find_location(address) {
        Ok(place) => push_place_line(&mut answer.text, options, place),
        Err(error) => push_refused_place(options, address, error, answer),
    }
}

// Appends the frames that were found for an address, until one is refused.
fn push_found<R: Reader>(
    alloc: Global,
    options: &Options,
    address: u64,
    symbol: Option<&str>,
    frames: FrameIter<'_, R>,
    answer: &mut AnswerBuffer,
) -> Result<(), AllocError>
    ensures { OnOk result (GrowsByFound options.now address (option_map (λ s. s.now) symbol.entry)
        (frames_left frames.entry) answer.old answer.new) }
{
    let is_refused = push_frames(alloc, &mut answer.text, options, symbol, frames)?;
    if is_refused {
        answer.push_refusal("failed to get next frame for ", address, Error::Memory)
    } else {
        Ok(())
    }
}

// Appends a refusal of the frames of an address.
fn push_refused(
    alloc: Global,
    options: &Options,
    address: u64,
    symbol: Option<&str>,
    error: Error,
    answer: &mut AnswerBuffer,
) -> Result<(), AllocError>
    ensures { OnOk result (Grows answer.old answer.new (frames_answer options.now address
        (option_map (λ s. s.now) symbol.entry) (Err error) [] false)) }
{
    answer.push_refusal("failed to find frames for ", address, error)?;
    push_no_frame(alloc, &mut answer.text, options, symbol)
}

// Appends the frames of an address, or their refusal.
pub(crate) fn answer_frames<S: SplitSource>(
    alloc: Global,
    loader: &mut Loader,
    source: &mut S,
    options: &Options,
    address: u64,
    symbol: Option<&str>,
    answer: &mut AnswerBuffer,
) -> Result<(), AllocError>
    ensures { OnOk result (GrowsByFrames S.answers options.now address
        (option_map (λ s. s.now) symbol.entry) loader.old.file source.old answer.old answer.new
        loader.new.file source.new) }
{
    match loader.find_frames(alloc, address, source) {
        Ok(frames) => push_found(alloc, options, address, symbol, frames, answer),
        Err(error) => push_refused(alloc, options, address, symbol, error, answer),
    }
}

// Copies the name of the symbol that holds an address, if one does.
pub(crate) fn copy_symbol(
    loader: &Loader,
    address: u64,
    name: &mut String,
) -> Result<bool, AllocError>
    ensures { IfOk result (λ found. (if found then Some (string_bytes name.new) else None)
        ≡ option_map symbol_name (symbol_at address loader.now.file.symbols)) }
{
    name.clear();
    match loader.find_symbol(address) {
        Some(symbol) => {
            name.push_str(symbol)?;
            Ok(true)
        }
        None => Ok(false),
    }
}

// The address that is looked up, if there is one: an address below the size of a section counts
// from its beginning.
pub(crate) fn looked_up(section: Option<Range>, address: Option<u64>) -> Option<u64>
    ensures { result ≡ looked_up section address }
{
    match (section, address) {
        (_, None) => None,
        (None, Some(address)) => Some(address),
        (Some(range), Some(address)) => address_in(range, address),
    }
}

// The address that many bytes after the beginning of a section, if the section is that large.
fn address_in(range: Range, address: u64) -> Option<u64>
    ensures { result ≡ looked_up (Some range) (Some address) }
{
    if address < range.end.saturating_sub(range.begin) {
        Some(range.begin + address)
    } else {
        None
    }
}
