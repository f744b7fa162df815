//! How the frames of an address are printed.

ghost use Rattle.std.specs.Prelude.{◌≡◌, [], ◌∷◌, ◌++◌, IfOk, OnOk, option_map};
ghost use Rattle.std.specs.String.{string_bytes};
ghost use Rattle.addr2line_context.specs.BorrowedFrames.{frames_left};
ghost use Rattle.addr2line_context.specs.BorrowedLocations.{location_value};
ghost use Rattle.linemap_lookup.specs.FrameTexts.{frame_line, frame_text, frames_text, inlined_by, symbol_before, symbol_or_function};
ghost use Rattle.linemap_lookup.specs.FirstFrames.{PrintsFrames, PrintsOuter, TakesNext};

use crate::names::push_name;
use crate::printer::push_place;
use addr2line_context::{
    EndianSlice, Frame, FrameIter, FunctionName, LittleEndian, Location, Reader,
};
use linemap_output::Options;
use std::alloc::{AllocError, Global};

// Appends a name, where names are asked for, and the line of a place.
fn push_frame_line<R: Reader>(
    alloc: Global,
    text: &mut String,
    options: &Options,
    symbol: Option<&str>,
    function: Option<&FunctionName<R>>,
    place: Option<Location<'_>>,
) -> Result<(), AllocError>
    ensures { OnOk result (string_bytes text.new ≡ string_bytes text.old ++ frame_line options.now
        (symbol_or_function options.now (option_map (λ s. s.now) symbol.entry)
        (option_map (λ f. f.now) function.entry))
        (option_map location_value place.entry)) }
{
    if options.functions {
        push_name(alloc, text, options, symbol, function)?;
        text.push_str(if options.pretty { " at " } else { "\n" })?;
    }
    push_place(text, options, place)?;
    text.push_str("\n")
}

// Appends a frame, by the name of a symbol if it has one.
fn push_frame<R: Reader>(
    alloc: Global,
    text: &mut String,
    options: &Options,
    symbol: Option<&str>,
    frame: &Frame<'_, R>,
) -> Result<(), AllocError>
    ensures { OnOk result (string_bytes text.new ≡ string_bytes text.old
        ++ frame_text options.now (option_map (λ s. s.now) symbol.entry) frame.now) }
{
    push_frame_line(
        alloc,
        text,
        options,
        symbol,
        frame.function.as_ref(),
        frame.location,
    )
}

// Appends a frame after the first.
fn push_outer_frame<R: Reader>(
    alloc: Global,
    text: &mut String,
    options: &Options,
    symbol: Option<&str>,
    frame: &Frame<'_, R>,
) -> Result<(), AllocError>
    ensures { OnOk result (string_bytes text.new ≡ string_bytes text.old
        ++ (inlined_by options.now
        ++ frame_text options.now (option_map (λ s. s.now) symbol.entry) frame.now)) }
{
    if options.pretty {
        text.push_str(" (inlined by) ")?;
    }
    push_frame(alloc, text, options, symbol, frame)
}

// The name of a symbol for a frame, unless another follows.
fn symbol_before<'s, R: Reader>(
    next: &Option<Frame<'_, R>>,
    symbol: Option<&'s str>,
) -> Option<&'s str>
    ensures { option_map (λ s. s.now) result
        ≡ symbol_before next.now (option_map (λ s. s.now) symbol.entry) }
{
    match next {
        Some(_) => None,
        None => symbol,
    }
}

// The frames of an address, until one is refused.
#[derive(Drop)]
pub(crate) struct Frames<'ctx, R: Reader> {
    left: FrameIter<'ctx, R>,
    // The only refusal is out of memory.
    is_refused: bool,
}

impl<'ctx, R: Reader> Frames<'ctx, R> {
    // The next frame; none where none is left, and after a refusal.
    fn next(&mut self) -> Option<Frame<'ctx, R>>
        ensures { TakesNext (λ f. f) result (frames_left self.old.left) self.old.is_refused
            (frames_left self.new.left) self.new.is_refused }
    {
        match self.left.next() {
            Ok(frame) => frame,
            Err(_) => {
                self.is_refused = true;
                None
            }
        }
    }

    // Appends a frame after the first, and those that are left.
    fn push_outer(
        &mut self,
        alloc: Global,
        text: &mut String,
        options: &Options,
        symbol: Option<&str>,
        frame: Frame<'ctx, R>,
    ) -> Result<(), AllocError>
        ensures { OnOk result (PrintsOuter options.now (option_map (λ s. s.now) symbol.entry)
            frame.entry (frames_left self.old.left) self.new.is_refused
            (string_bytes text.old) (string_bytes text.new)) }
    {
        let mut current = Some(frame);
        'frame: while let Some(frame) = current {
            current = self.next();
            push_outer_frame(
                alloc,
                text,
                options,
                symbol_before(&current, symbol),
                &frame,
            )?;
        }
        Ok(())
    }

    // Appends the first frame, and the others if they are asked for.
    fn push_all(
        &mut self,
        alloc: Global,
        text: &mut String,
        options: &Options,
        symbol: Option<&str>,
        first: &Frame<'ctx, R>,
    ) -> Result<(), AllocError>
        ensures { OnOk result (PrintsFrames options.now (option_map (λ s. s.now) symbol.entry)
            (first.now ∷ frames_left self.old.left) self.new.is_refused
            (string_bytes text.old) (string_bytes text.new)) }
    {
        let second = self.next();
        push_frame(alloc, text, options, symbol_before(&second, symbol), first)?;
        match second {
            None => Ok(()),
            Some(_) if !options.inlines => Ok(()),
            Some(second) => self.push_outer(alloc, text, options, symbol, second),
        }
    }
}

// Appends the frames of an address, by the name of a symbol for the last. Answers whether memory
// for one was refused; those before it are appended.
pub(crate) fn push_frames<R: Reader>(
    alloc: Global,
    text: &mut String,
    options: &Options,
    symbol: Option<&str>,
    frames: FrameIter<'_, R>,
) -> Result<bool, AllocError>
    ensures { IfOk result (λ is_refused. PrintsFrames options.now
        (option_map (λ s. s.now) symbol.entry) (frames_left frames.entry) is_refused
        (string_bytes text.old) (string_bytes text.new)) }
{
    let mut frames = Frames {
        left: frames,
        is_refused: false,
    };
    match frames.next() {
        Some(first) => frames.push_all(alloc, text, options, symbol, &first)?,
        None => push_no_frame(alloc, text, options, symbol)?,
    }
    Ok(frames.is_refused)
}

// Appends what is printed where no frame is known, by the name of a symbol if there is one.
pub(crate) fn push_no_frame(
    alloc: Global,
    text: &mut String,
    options: &Options,
    symbol: Option<&str>,
) -> Result<(), AllocError>
    ensures { OnOk result (string_bytes text.new ≡ string_bytes text.old
        ++ frames_text options.now (option_map (λ s. s.now) symbol.entry) []) }
{
    let function: Option<&FunctionName<EndianSlice<'_, LittleEndian>>> = None;
    push_frame_line(alloc, text, options, symbol, function, None)
}
