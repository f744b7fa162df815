//! The unit of an address.

ghost use Rattle.std.specs.Prelude.{◌≡◌, ◌≤◌, ◌<◌, Ok, None, length, option_map};
ghost use Rattle.addr2line_lookups.specs.Lookups.{map_output};
ghost use Rattle.addr2line_context.specs.ContextCosts.{unit_search, AsksForUnit};
ghost use Rattle.addr2line_context.specs.SettledLookups.{unit_in, loads_in, after_answer, LoadOf, AfterAnswer, WaitsAgain};
ghost use Rattle.addr2line_context.specs.SkippedLoads.{FindsUnit};
ghost use Rattle.addr2line_context.specs.Suspended.{IfLoad, IfSkipped, FollowsLookup, RestsUnlessWaiting, loads_left};

use crate::context::Context;
use crate::lookup::{LookupContinuation, LookupResult};
use addr2line_lookups::{Dwarf, Error, Reader, SplitDwarfLoad, UnitRef};
use std::rc::Rc;

/// A lookup of the unit of an address that waits for a load.
#[derive(Drop)]
pub struct FindUnit<'ctx, R: Reader> {
    pub(crate) context: &'ctx mut Context<R>,
    pub(crate) probe: u64,
}

impl<'ctx, R: Reader> LookupContinuation for FindUnit<'ctx, R> {
    ghost use Rattle.std.specs.Borrow.{sem};
    ghost use Rattle.std.specs.Prelude.{◌≡◌, ◌≤◌, ◌<◌, Ok, None, length, option_map};
    ghost use Rattle.addr2line_context.specs.contracts.context.Context.{the_row};
    ghost use Rattle.addr2line_lookups.specs.Lookups.{map_output};
    ghost use Rattle.addr2line_context.specs.ContextCosts.{unit_search, AsksForUnit};
    ghost use Rattle.addr2line_context.specs.SettledLookups.{unit_in, loads_in, after_answer, LoadOf, AfterAnswer, WaitsAgain};
    ghost use Rattle.addr2line_context.specs.SkippedLoads.{FindsUnit};
    ghost use Rattle.addr2line_context.specs.Suspended.{IfLoad, IfSkipped, FollowsLookup, RestsUnlessWaiting, loads_left};

    type Output = Result<Option<UnitRef<'ctx, R>>, Error>;

    type Buf = R;

    type Load = SplitDwarfLoad<R>;

    type Sections = Rc<Dwarf<R>>;

    ghost left = { λ w. length (loads_in w.context.now.value w.probe) };

    ghost waits = { λ w. 0 < length (loads_in w.context.now.value w.probe) };

    ghost skips_to = { λ w found. FindsUnit w.context.now.value w.probe found };

    /// The load of the first unit that needs an answer, of those with a range over the address. The
    /// only error is out of memory.
    fn load(&self) -> Result<SplitDwarfLoad<R>, Error>
        requires { 0 < length (loads_in self.now.context.now.value self.now.probe) }
        ensures { LoadOf (loads_in self.now.context.now.value self.now.probe) result }
    {
        let context: &Context<R> = &*self.context;
        context.first_load(self.probe)
    }

    /// Answers that load by the sections of the other file, or by none where there is no such file,
    /// and goes on: it reads lines and functions of no units but those that the lookup asks after
    /// that answer, whose functions are kept, unless it is out of memory, but of one that waits. A
    /// refusal of the file is recorded too; out of memory, the answer is recorded or not.
    fn resume(self, input: Option<Rc<Dwarf<R>>>) -> LookupResult<FindUnit<'ctx, R>>
        ensures fewer { loads_left (λ w. length (loads_in w.context.now.value w.probe)) result
            ≤ length (loads_in self.entry.context.now.value self.entry.probe) }
        ensures waits { IfLoad (λ w. 0 < length (loads_in w.context.now.value w.probe)) result }
        ensures found { FollowsLookup (λ u. u) result
            (map_output (λ u. Ok u) (unit_in (after_answer self.entry.context.now.value
            self.entry.probe (option_map (λ f. f.value.file) input)) self.entry.probe)) }
        ensures again { IfLoad (λ w. WaitsAgain unit_search self.entry.context.now
            self.entry.probe (option_map (λ f. f.value.file) input) w.context.now w.probe) result }
        ensures skips { input ≡ None → IfSkipped
            (λ w found. FindsUnit w.context.now.value w.probe found) result
            (FindsUnit self.entry.context.now.value self.entry.probe) }
        ensures* after { sem 𝓛 (RestsUnlessWaiting (the_row R.row R.Endian.row R.Offset.row R.Reader
            R.Endian.Endianity R.Offset.ReaderOffset.own R.Offset.Debug)
            self.entry.context (λ w. w.context.ghost_name) result
            (AfterAnswer unit_search result self.entry.context.now self.entry.probe
            (option_map (λ f. f.value.file) input))) }
    {
        let FindUnit { context, probe } = self;
        match context.answer_first(probe, input) {
            Ok(()) => context.find_dwarf_and_unit(probe),
            Err(error) => LookupResult::Output(Err(error)),
        }
    }
}
