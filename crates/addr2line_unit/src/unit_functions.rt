//! The functions of a unit with their calls, read once and kept.

ghost use Rattle.std.specs.Prelude.{◌≡◌, ◌≢◌, ◌<◌, length, option_map, option_and_then, is_some, Some, Ok, Err, OnOk, OnErr, IfErr};
ghost use Rattle.addr2line_functions.specs.Calls.{Returns, ReturnsAs, ReturnsAsOrNoMemory};
ghost use Rattle.addr2line_functions.specs.Error.TheVariants.{Memory};
ghost use Rattle.addr2line_functions.specs.BorrowedFrames.{frames_left};
ghost use Rattle.addr2line_functions.specs.BorrowedLocations.{location_value};
ghost use Rattle.addr2line_root.specs.Searches.{AtMostProbes};
ghost use Rattle.addr2line_unit.specs.KeptFunctions.{IfKept, nothing_kept, kept_at, kept_function_in, plain_calls, plain_function_at, kept_number, kept_number_probes, count_of_functions, plain_functions, functions_read, calls_read, calls_of_none, kept_function, FindsChain, kept_chain_probes, frames_by_numbers};

use crate::kept::Kept;
use addr2line_functions::{
    DwLang, Error, FrameIter, Function, FunctionAt, FunctionCalls, Functions, LineIndex, Location,
    Probes, Reader, ReaderOffset, UnitOffset, frame_without_function, frames_by_numbers,
};
use std::alloc::Global;
use std::marker::Model;

/// The functions of a unit, or the refusal of them, once they are read, and of each function its
/// calls, or the refusal of these, once they are. A function's number is its index among all.
pub struct UnitFunctions<R: Reader> {
    functions: Kept<Functions<R::Offset>>,
    // By the functions' numbers.
    calls: Vec<Kept<FunctionCalls<R>>>,
}

impl<R: Reader> Drop for UnitFunctions<R> {
    fn drop(self) {
        let UnitFunctions {
            functions: _,
            calls: _,
        } = self;
    }
}

impl<R: Reader> Model for UnitFunctions<R> {
    ghost use Rattle.addr2line_unit.specs.KeptFunctions.{KeptFunctions};

    ghost Value = { KeptFunctions };

    ghost view = { λ k. record { functions = k.functions; calls = k.calls.items } };
}

// The calls of this number of functions, none of which were read.
fn calls_of_none<R: Reader>(
    alloc: Global,
    count: usize,
) -> Result<Vec<Kept<FunctionCalls<R>>>, Error>
    ensures { ReturnsAsOrNoMemory (λ v. v.items) result (Ok (calls_of_none count)) }
{
    let mut calls = Vec::new(alloc);
    for _function in 0..count {
        calls.push(Kept::not_read())?;
    }
    Ok(calls)
}

// How many functions there are, if they aren't refused.
fn count_of<O: ReaderOffset>(functions: &Result<Functions<O>, Error>) -> usize
    ensures { result ≡ count_of_functions (plain_functions functions.now) }
{
    match functions {
        Ok(functions) => functions.functions().len(),
        Err(_) => 0,
    }
}

// Puts calls in the place of those that were there.
fn put_calls<R: Reader>(old: &mut Vec<Kept<FunctionCalls<R>>>, calls: Vec<Kept<FunctionCalls<R>>>)
    ensures { old.new.items ≡ calls.items }
{
    *old = calls;
}

impl<R: Reader> UnitFunctions<R> {
    /// Nothing.
    pub fn not_read(alloc: Global) -> Self
        ensures { result ≡ nothing_kept }
    {
        UnitFunctions {
            functions: Kept::not_read(),
            calls: Vec::new(alloc),
        }
    }

    /// Whether functions are kept, be it a refusal.
    pub fn is_read(&self) -> bool
        ensures { result ≡ is_some self.now.functions }
    {
        self.functions.is_read()
    }

    /// The functions, or the refusal of them, if they are kept.
    pub fn functions(&self) -> Option<&Result<Functions<R::Offset>, Error>>
        ensures { option_map (λ r. r.now) result ≡ self.now.functions }
    {
        self.functions.result()
    }

    /// How many functions there are, if they are kept.
    pub fn count(&self) -> usize
        ensures { result ≡ length self.now.calls }
    {
        self.calls.len()
    }

    /// Keeps functions that were read, and of none of them the calls. Out of memory is returned,
    /// and nothing changes.
    pub fn keep(
        &mut self,
        alloc: Global,
        read: Result<Functions<R::Offset>, Error>,
    ) -> Result<(), Error>
        ensures ok { OnOk result (self.new ≡ functions_read read) }
        ensures answer { OnOk result (read ≢ Err Memory) }
        ensures err { OnErr result (self.new ≡ self.old) }
        ensures refusal { IfErr result (λ e. e ≡ Memory) }
    {
        let calls = calls_of_none(alloc, count_of(&read))?;
        self.functions.keep(read)?;
        put_calls(&mut self.calls, calls);
        Ok(())
    }

    /// The number of the function that an address is in, or the refusal of the functions.
    pub fn find(&self, probe: u64, probes: &mut Probes) -> Result<Option<usize>, Error>
        requires { IfKept self.now.functions (λ f. probes.old.name ≡ f.counter) }
        ensures number { Returns result (kept_number self.now.functions probe) }
        ensures cost { AtMostProbes (kept_number_probes self.now.functions)
            probes.old probes.new }
    {
        match self.functions.result() {
            Some(Ok(functions)) => Ok(functions.find_address(probe, probes)),
            Some(Err(error)) => Err(*error),
            None => Ok(None),
        }
    }

    // The function of a number.
    fn function(&self, number: usize) -> Option<&Function<R::Offset>>
        ensures { option_map (λ f. f.now) result ≡ kept_function_in self.now.functions number }
    {
        match self.functions.result() {
            Some(Ok(functions)) => functions.functions().get(number),
            _ => None,
        }
    }

    /// The offset of the entry of the function of a number.
    pub fn offset(&self, number: usize) -> Option<UnitOffset<R::Offset>>
        ensures { option_map (λ o. R.Offset.count o.0) result
            ≡ option_map (λ f. f.offset) (kept_function_in self.now.functions number) }
    {
        match self.function(number) {
            Some(function) => Some(function.offset()),
            None => None,
        }
    }

    /// The calls of the function of a number, or the refusal of them, if they are kept.
    pub fn calls(&self, number: usize) -> Option<&Result<FunctionCalls<R>, Error>>
        ensures { option_map (λ r. r.now) result ≡ kept_at self.now.calls number }
    {
        match self.calls.get(number) {
            Some(calls) => calls.result(),
            None => None,
        }
    }

    /// Keeps calls of the function of a number that were read. Out of memory is returned, and
    /// nothing changes.
    pub fn keep_calls(
        &mut self,
        number: usize,
        read: Result<FunctionCalls<R>, Error>,
    ) -> Result<(), Error>
        requires { number < length self.old.calls }
        ensures ok { OnOk result (self.new ≡ calls_read self.old number read) }
        ensures answer { OnOk result (read ≢ Err Memory) }
        ensures err { OnErr result (self.new ≡ self.old) }
        ensures refusal { IfErr result (λ e. e ≡ Memory) }
        ensures cause { OnErr result (read ≡ Err Memory) }
    {
        let calls = &mut self.calls[number];
        calls.keep(read)
    }

    /// Fills a buffer with the numbers of the calls of a function that an address is in, the
    /// outermost first; with none where the calls aren't kept. Their refusal is the error.
    pub fn find_chain(
        &self,
        number: usize,
        probe: u64,
        probes: &mut Probes,
        chain: &mut Vec<usize>,
    ) -> Result<(), Error>
        requires { IfKept (kept_at self.now.calls number) (λ c. probes.old.name ≡ c.counter) }
        ensures chain { FindsChain (λ done. chain.new.items)
            (option_map plain_calls (kept_at self.now.calls number)) probe result }
        ensures cost { AtMostProbes
            (kept_chain_probes (option_map plain_calls (kept_at self.now.calls number)) probe)
            probes.old probes.new }
    {
        match self.calls(number) {
            Some(Ok(calls)) => calls.find_chain(probe, probes, chain),
            Some(Err(error)) => Err(*error),
            None => {
                chain.clear();
                Ok(())
            }
        }
    }

    /// The function of a number with its calls, or the refusal of them, if they are kept.
    fn function_at(&self, number: usize) -> Option<Result<FunctionAt<'_, R>, Error>>
        ensures { option_map plain_function_at result ≡ kept_function self.now number }
    {
        let function = self.function(number)?;
        match self.calls(number)? {
            Ok(calls) => Some(Ok(FunctionAt { function, calls })),
            Err(error) => Some(Err(*error)),
        }
    }

    /// The same of a number, if there is one.
    fn function_at_any(&self, number: Option<usize>) -> Option<Result<FunctionAt<'_, R>, Error>>
        ensures { option_map plain_function_at result
            ≡ option_and_then (kept_function self.now) number }
    {
        self.function_at(number?)
    }

    /// The frames at a place in a function, by the numbers of the calls there.
    pub fn frames<'ctx>(
        &'ctx self,
        language: Option<DwLang>,
        lines: &'ctx LineIndex,
        place: Option<Location<'ctx>>,
        function: Option<usize>,
        chain: &'ctx [usize],
    ) -> Result<FrameIter<'ctx, R>, Error>
        ensures { ReturnsAs frames_left result
            (frames_by_numbers (option_map (λ l. l.0) language) lines.now.lines.files
            (option_map location_value place.entry)
            (option_and_then (kept_function self.now) function) chain.now) }
    {
        match self.function_at_any(function) {
            Some(Ok(function)) => Ok(frames_by_numbers(language, lines, place, function, chain)),
            Some(Err(error)) => Err(error),
            None => Ok(frame_without_function(place)),
        }
    }
}
