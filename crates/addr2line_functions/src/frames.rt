//! The frames of an address, one after the other.

ghost use Rattle.std.specs.Prelude.{◌≡◌, [], Ok, Some, None, IsOk, IsTrue, OnOk, OnErr, option_map, option_to_list, slice_get};
ghost use Rattle.gimli_units_entries.specs.Calls.{ReturnsOrNoMemory};
ghost use Rattle.addr2line_ranges.specs.BorrowedLocations.{location_value};
ghost use Rattle.addr2line_ranges.specs.Frames.{call_site, function_name, frame, frame_without_function};
ghost use Rattle.addr2line_functions.specs.CallNumbers.{IsLastCall};
ghost use Rattle.addr2line_functions.specs.BorrowedLines.{files_in};
ghost use Rattle.addr2line_functions.specs.BorrowedFrames.{function_value, frames_of_calls, frames_at_place, frames_left};
ghost use Rattle.addr2line_functions.specs.NextFrames.{NextOf};

use crate::call::Call;
use crate::calls::FunctionCalls;
use crate::frame::{Frame, FunctionName};
use crate::function::Function;
use crate::function_at::FunctionAt;
use crate::site::call_site;
use addr2line_ranges::{LineIndex, Location};
use gimli_units_entries::{DwLang, Error, Reader, UnitOffset};

/// The remaining frames of an address, the innermost call first, each made when it is asked for. It
/// borrows what is kept of the unit and the numbers of the calls, and owns no memory.
#[derive(Drop)]
pub struct FrameIter<'ctx, R: Reader> {
    language: Option<DwLang>,
    // Their files name the places that call; none are needed where there is no function.
    lines: Option<&'ctx LineIndex>,
    // That of the next frame.
    place: Option<Location<'ctx>>,
    // None where the address is in no function, and after the function's own frame.
    function: Option<FunctionAt<'ctx, R>>,
    // The numbers of the calls whose frames are to come, the outermost first.
    chain: &'ctx [usize],
}

// A name with the language of its unit, copied.
fn function_name<R: Reader>(
    language: Option<DwLang>,
    name: Option<&R>,
) -> Result<Option<FunctionName<R>>, Error>
    ensures value { ReturnsOrNoMemory result
        (Ok (function_name (option_map (λ l. l.0) language)
        (option_map (λ r. R.view r.now) name.entry))) }
    ensures free { IsTrue R.copies_freely → IsOk result }
{
    match name {
        Some(name) => Ok(Some(FunctionName {
            name: name.copy()?,
            language,
        })),
        None => Ok(None),
    }
}

// The frame of a function or a call at a place.
fn frame_at<'ctx, R: Reader>(
    language: Option<DwLang>,
    offset: UnitOffset<R::Offset>,
    name: Option<&R>,
    location: Option<Location<'ctx>>,
) -> Result<Frame<'ctx, R>, Error>
    ensures value { ReturnsOrNoMemory result
        (Ok (frame (option_map (λ l. l.0) language) (R.Offset.count offset.0)
        (option_map (λ r. R.view r.now) name.entry) (option_map location_value location.entry))) }
    ensures free { IsTrue R.copies_freely → IsOk result }
{
    let function = function_name(language, name)?;
    Ok(Frame {
        dw_die_offset: Some(offset),
        function,
        location,
    })
}

// The call of a number.
fn call_of_number<R: Reader>(calls: &[Call<R>], number: usize) -> Option<&Call<R>>
    ensures { option_map (λ c. c.now) result ≡ slice_get calls.now number }
{
    calls.get(number)
}

// The last of the calls of these numbers, and the numbers before its own. Numbers of no call are
// skipped.
fn last_call<'ctx, R: Reader>(
    calls: &'ctx [Call<R>],
    numbers: &'ctx [usize],
) -> Option<(&'ctx Call<R>, &'ctx [usize])>
    ensures { IsLastCall calls.now numbers.now (option_map (λ x. (x.0.now, x.1.now)) result) }
{
    let mut left = numbers;
    while let Some((number, before)) = left.split_last() {
        if let Some(call) = call_of_number(calls, *number) {
            return Some((call, before));
        }
        left = before;
    }
    None
}

/// The frames of a function and of the calls of these numbers in it, the outermost first, each in
/// the one before, at the place of an address with these lines and this language. Nothing is
/// searched, and no memory is taken.
pub fn frames_by_numbers<'ctx, R: Reader>(
    language: Option<DwLang>,
    lines: &'ctx LineIndex,
    place: Option<Location<'ctx>>,
    function: FunctionAt<'ctx, R>,
    numbers: &'ctx [usize],
) -> FrameIter<'ctx, R>
    ensures { frames_left result
        ≡ frames_of_calls (option_map (λ l. l.0) language) lines.now.lines.files
        (option_map location_value place.entry) (function_value function.entry) numbers.now }
{
    FrameIter {
        language,
        lines: Some(lines),
        place,
        function: Some(function),
        chain: numbers,
    }
}

/// The frame of a place in no function, if there is a place. No memory is taken.
pub fn frame_without_function<'ctx, R: Reader>(place: Option<Location<'ctx>>) -> FrameIter<'ctx, R>
    ensures { frames_left result
        ≡ frame_without_function (option_map location_value place.entry) }
{
    FrameIter {
        language: None,
        lines: None,
        place,
        function: None,
        chain: &[],
    }
}

impl<'ctx, R: Reader> FrameIter<'ctx, R> {
    // The frame of a place in no function, if there is a place.
    fn next_place(&mut self) -> Option<Frame<'ctx, R>>
        ensures frame { option_to_list result
            ≡ frame_without_function (option_map location_value self.old.place) }
        ensures left { self.new ≡ record self.old { place = None } }
    {
        let location = self.place.take()?;
        Some(Frame {
            dw_die_offset: None,
            function: None,
            location: Some(location),
        })
    }

    // The frame of a call, before which there are those of these numbers.
    fn next_call(
        &mut self,
        call: &Call<R>,
        before: &'ctx [usize],
    ) -> Result<Option<Frame<'ctx, R>>, Error>
        ensures frame { ReturnsOrNoMemory result
            (Ok (Some (frame (option_map (λ l. l.0) self.old.language) call.now.offset
            call.now.name (option_map location_value self.old.place)))) }
        ensures left { OnOk result (frames_left self.new
            ≡ frames_at_place (option_map (λ l. l.0) self.old.language)
            (files_in (option_map (λ l. l.now) self.old.lines))
            (Some (call_site (files_in (option_map (λ l. l.now) self.old.lines)) call.now))
            (option_map function_value self.old.function) before.now) }
        ensures err { OnErr result (self.new ≡ self.old) }
        ensures free { IsTrue R.copies_freely → IsOk result }
    {
        let frame = frame_at(self.language, call.offset(), call.name(), self.place)?;
        self.place = Some(call_site(self.lines, call));
        self.chain = before;
        Ok(Some(frame))
    }

    // The frame of the function itself, the last.
    fn next_function(
        &mut self,
        function: &Function<R::Offset>,
        calls: &FunctionCalls<R>,
    ) -> Result<Option<Frame<'ctx, R>>, Error>
        ensures frame { ReturnsOrNoMemory result
            (Ok (Some (frame (option_map (λ l. l.0) self.old.language) function.now.offset
            calls.now.function.name (option_map location_value self.old.place)))) }
        ensures left { OnOk result (frames_left self.new ≡ []) }
        ensures err { OnErr result (self.new ≡ self.old) }
        ensures free { IsTrue R.copies_freely → IsOk result }
    {
        let frame = frame_at(self.language, function.offset(), calls.name(), self.place)?;
        self.place = None;
        self.function = None;
        Ok(Some(frame))
    }

    /// The next frame, further out than those before it. It copies the reader of its name, and
    /// takes no other memory. The only error is out of memory, after which the same frame comes
    /// next.
    pub fn next(&mut self) -> Result<Option<Frame<'ctx, R>>, Error>
        ensures frame { NextOf (λ f. f) result (frames_left self.old) (frames_left self.new) }
        ensures free { IsTrue R.copies_freely → IsOk result }
    {
        let Some(at) = &self.function else {
            return Ok(self.next_place());
        };
        let (function, calls) = (at.function, at.calls);
        match last_call(calls.calls(), self.chain) {
            Some((call, before)) => self.next_call(call, before),
            None => self.next_function(function, calls),
        }
    }
}
