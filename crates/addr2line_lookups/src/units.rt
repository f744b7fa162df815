//! The units of a context with their ranges, in the order in which lookups ask them.

ghost use Rattle.std.specs.Prelude.{◌≡◌, ◌≢◌, ◌+◌, [], None, Ok, Err, map, option_map, IfOk, OnOk, IfErr};
ghost use Rattle.addr2line_unit.specs.Calls.{ReturnsAsOrNoMemory, ReturnsOrNoMemory};
ghost use Rattle.addr2line_unit.specs.Error.TheVariants.{Memory};
ghost use Rattle.addr2line_unit.specs.Contexts.{all_lines_or_refusal};
ghost use Rattle.addr2line_unit.specs.BorrowedLocations.{location_value};
ghost use Rattle.addr2line_unit.specs.Lookups.{one_each};
ghost use Rattle.addr2line_unit.specs.NumberedRanges.{covering_ranges};
ghost use Rattle.addr2line_unit.specs.ContextUnits.{ordered_ranges};
ghost use Rattle.addr2line_unit.specs.ResolvedUnits.{plain_unit, value_of_unit};
ghost use Rattle.addr2line_lookups.specs.KeptCalls.{LeavesCalls, HoldCalls, known_among};
ghost use Rattle.addr2line_lookups.specs.LoadAnswers.{AnswersOrNoMemory, answer_at};
ghost use Rattle.addr2line_lookups.specs.Preloads.{load_at, loads_at, load_of_item, first_number, first_load};
ghost use Rattle.addr2line_lookups.specs.FramePlaces.{LendsFrames};
ghost use Rattle.addr2line_lookups.specs.PassedUnits.{Pass, PassFrames, PassUnits, PassLoads, PassedAreKept, AsksFramesAmong, AsksUnitAmong, KeepsAskedFunctions};
ghost use Rattle.addr2line_lookups.specs.UnitLookups.{frames_among, SettlesFrames, unit_among, SettlesUnit, unit_at_number};
ghost use Rattle.addr2line_lookups.specs.AddressSearches.{SettlesAmong};
ghost use Rattle.addr2line_unit.specs.BorrowedFrames.{frames_left};
ghost use Rattle.addr2line_lookups.specs.KeptUnits.{KeepsAt, KeepsFunctionsAt, KeepsFound, KeepsAsked, ReadsAsked, ReadsNoLines, ReadsAskedFunctions, ReadsNoFunctions, AsksForRow, AsksForLines, FindsRow, location_of_unit_row};
ghost use Rattle.addr2line_lookups.specs.RangeWalks.{FindsStretch, KeepsStretch, stretches_left, AsksForNextStretch, StaysOnItsWay, walk_looks};
ghost use Rattle.addr2line_lookups.specs.LookupCosts.{AtMostLooks, TakesLooks, row_looks, frame_search_looks, unit_search_looks};
ghost use Rattle.addr2line_lookups.specs.UnitParses.{WalksOrNoMemory, KeepsParsed, KeepAllCalls, check_functions_of, check_calls_of};

use crate::address_search::{AddressSearch, FrameSearch, UnitSearch};
use crate::frame_place::{FramePlace, frames_at_place};
use crate::load_answers::answer_at;
use crate::lookups::{functions_unit_at, settle};
use crate::parsing::check_lines;
use crate::parsing_calls::check_calls;
use crate::parsing_functions::check_functions;
use crate::preload::pending_loads;
use crate::range_walk::{RangeWalk, UnitStretch, next_stretch};
use crate::settle::{UnitRow, find_row, place_in};
use crate::settled::Settled;
use crate::token::UnitToken;
use crate::waiting::{copy_load_at, first_waiting};
use addr2line_unit::{
    Dwarf, Error, FrameIter, Location, Reader, ResUnit, SplitDwarfLoad, Unit, UnitRanges, UnitRef,
    frame_without_function, ordered_ranges,
};
use std::alloc::Global;
use std::marker::Model;
use std::rc::Rc;

/// Units by their numbers, and the ranges of all of them.
pub struct Units<R: Reader> {
    units: Vec<ResUnit<R>>,
    /// In the order in which lookups ask them.
    ranges: UnitRanges,
}

impl<R: Reader> Drop for Units<R> {
    fn drop(self) {
        let Units {
            units: _,
            ranges: _,
        } = self;
    }
}

impl<R: Reader> Model for Units<R> {
    ghost use Rattle.std.specs.Prelude.{◌≡◌, List, map};
    ghost use Rattle.addr2line_unit.specs.ContextUnits.{ordered_ranges};
    ghost use Rattle.addr2line_unit.specs.ResolvedUnits.{ResolvedUnit, plain_unit};

    ghost Value = { List ResolvedUnit };

    ghost view = { λ u. u.units.items };

    ghost invariant = { λ u. u.ranges ≡ ordered_ranges (map plain_unit u.units.items) };
}

impl<R: Reader> Units<R> {
    // Refused only when out of memory.
    pub fn new(alloc: Global, units: Vec<ResUnit<R>>) -> Result<Self, Error>
        ensures ok { IfOk result (λ kept. kept ≡ units.items) }
        ensures refusal { IfErr result (λ e. e ≡ Memory) }
    {
        let ranges = ordered_ranges(alloc, units.as_slice())?;
        Ok(Units { units, ranges })
    }

    pub fn as_slice(&self) -> &[ResUnit<R>]
        ensures { result.now ≡ self.now }
    {
        self.units.as_slice()
    }

    // The row whose place an address has, with its unit's number. The lines of the units that it
    // asks are read, unless they are kept, and kept.
    pub fn find_row(&mut self, probe: u64) -> Result<Option<UnitRow>, Error>
        ensures values { map value_of_unit self.new ≡ map value_of_unit self.old }
        ensures calls { LeavesCalls self.old self.new }
        ensures found { FindsRow (map plain_unit self.old) probe result }
        ensures kept { KeepsFound self.new result }
        ensures asked { result ≢ Err Memory
            → KeepsAsked (AsksForRow (map plain_unit self.old) probe) self.new }
        ensures reads { ReadsAsked (AsksForRow (map plain_unit self.old) probe)
            self.old self.new }
        ensures functions { ReadsNoFunctions self.old self.new }
        ensures cost { AtMostLooks (row_looks (map plain_unit self.old)
            (map value_of_unit self.old) probe
            (covering_ranges probe (ordered_ranges (map plain_unit self.old)))) self.old self.new }
        ensures free { KeepsAsked (AsksForRow (map plain_unit self.old) probe) self.old
            → result ≢ Err Memory }
    {
        let alloc = *self.units.allocator();
        find_row(alloc, &mut self.units, &self.ranges, probe)
    }

    // The place of a row, in the lines of its unit, which are kept.
    pub fn place_in(&self, found: UnitRow) -> Option<Location<'_>>
        ensures { KeepsAt self.now found.unit → option_map location_value result
            ≡ location_of_unit_row (map plain_unit self.now) found }
    {
        place_in(self.units.as_slice(), found)
    }

    // The next stretch of a walk. The lines of the units that it asks are read, unless they are
    // kept, and kept; else it takes no memory. It takes three looks at what is kept at most,
    // besides those that are no longer left to the walk.
    pub fn next_stretch(&mut self, walk: &mut RangeWalk) -> Result<Option<UnitStretch>, Error>
        ensures values { map value_of_unit self.new ≡ map value_of_unit self.old }
        ensures calls { LeavesCalls self.old self.new }
        ensures cost { let us = map plain_unit self.old in
            TakesLooks (walk_looks us (ordered_ranges us) walk.old + 3)
            (walk_looks us (ordered_ranges us) walk.new) self.old self.new }
        ensures stretch { FindsStretch (map plain_unit self.old) result
            (stretches_left (map plain_unit self.old) walk.old)
            (stretches_left (map plain_unit self.old) walk.new) }
        ensures kept { KeepsStretch self.new result }
        ensures asked { result ≢ Err Memory
            → KeepsAsked (AsksForNextStretch (map plain_unit self.old) walk.old) self.new }
        ensures reads { ReadsAsked (AsksForNextStretch (map plain_unit self.old) walk.old)
            self.old self.new }
        ensures functions { ReadsNoFunctions self.old self.new }
        ensures free { KeepsAsked (AsksForNextStretch (map plain_unit self.old) walk.old) self.old
            → result ≢ Err Memory }
        ensures way { StaysOnItsWay (ordered_ranges (map plain_unit self.old)) walk.old walk.new }
    {
        let alloc = *self.units.allocator();
        next_stretch(alloc, &mut self.units, &self.ranges, walk)
    }

    // Whether the lines of all units can be read, or else the first refusal. They are read, unless
    // they are kept, and kept, up to that refusal.
    pub fn check_lines(&mut self) -> Result<(), Error>
        ensures values { map value_of_unit self.new ≡ map value_of_unit self.old }
        ensures calls { LeavesCalls self.old self.new }
        ensures cost { AtMostLooks 0 self.old self.new }
        ensures found { ReturnsOrNoMemory result (all_lines_or_refusal (map plain_unit self.old)) }
        ensures asked { result ≢ Err Memory
            → KeepsAsked (AsksForLines (map plain_unit self.old)) self.new }
        ensures reads { ReadsAsked (AsksForLines (map plain_unit self.old)) self.old self.new }
        ensures functions { ReadsNoFunctions self.old self.new }
        ensures free { KeepsAsked (AsksForLines (map plain_unit self.old)) self.old
            → result ≢ Err Memory }
    {
        let alloc = *self.units.allocator();
        check_lines(alloc, &mut self.units)
    }

    // Reads the functions of all units, up to the first refusal, and keeps them. A load that is
    // pending where the walk comes to its unit is answered by no file.
    pub fn check_functions(&mut self) -> Result<(), Error>
        ensures walk { WalksOrNoMemory check_functions_of result (map value_of_unit self.old)
            (map value_of_unit self.new) }
        ensures kept { KeepsParsed result self.new }
        ensures calls { LeavesCalls self.old self.new }
        ensures cost { AtMostLooks 0 self.old self.new }
        ensures lines { ReadsNoLines self.old self.new }
    {
        let alloc = *self.units.allocator();
        check_functions(alloc, &mut self.units)
    }

    // The same, with the calls of each function. Their names are looked for in these units and in
    // those of the supplement.
    pub fn check_calls(&mut self, supplement_units: &[Unit<R>]) -> Result<(), Error>
        requires { HoldCalls (known_among self.old supplement_units.now) self.old }
        ensures walk { WalksOrNoMemory
            (check_calls_of (known_among self.old supplement_units.now)) result
            (map value_of_unit self.old) (map value_of_unit self.new) }
        ensures kept { OnOk result (KeepAllCalls self.new) }
        ensures calls { HoldCalls (known_among self.new supplement_units.now) self.new }
        ensures cost { AtMostLooks 0 self.old self.new }
        ensures lines { ReadsNoLines self.old self.new }
    {
        let alloc = *self.units.allocator();
        check_calls(alloc, &mut self.units, supplement_units)
    }

    // The loads that lookups of an address may wait for, that of each unit once. It takes memory
    // only where there is one.
    pub fn pending_loads(&self, probe: u64) -> Result<Vec<(SplitDwarfLoad<R>, UnitToken)>, Error>
        ensures loads { ReturnsAsOrNoMemory (λ loads. map load_of_item loads.items) result
            (Ok (one_each (loads_at (map value_of_unit self.now)
            (covering_ranges probe (ordered_ranges (map plain_unit self.now)))))) }
        ensures free { loads_at (map value_of_unit self.now)
            (covering_ranges probe (ordered_ranges (map plain_unit self.now))) ≡ []
            → result ≢ Err Memory }
    {
        let alloc = *self.units.allocator();
        pending_loads(alloc, self.units.as_slice(), &self.ranges, probe)
    }

    // Answers the load of the unit of a number.
    pub fn answer_at(&mut self, number: usize, file: Option<Rc<Dwarf<R>>>) -> Result<(), Error>
        ensures answer { AnswersOrNoMemory result (map value_of_unit self.old)
            (map value_of_unit self.new)
            (answer_at (map value_of_unit self.old) number
            (option_map (λ f. f.value.file) file)) }
        ensures decided { load_at (map value_of_unit self.old) number ≡ None
            → answer_at (map value_of_unit self.old) number (option_map (λ f. f.value.file) file)
            ≡ (result, map value_of_unit self.new) }
        ensures calls { LeavesCalls self.old self.new }
        ensures cost { AtMostLooks 0 self.old self.new }
        ensures lines { ReadsNoLines self.old self.new }
        ensures functions { ReadsNoFunctions self.old self.new }
    {
        let alloc = *self.units.allocator();
        answer_at(alloc, &mut self.units, number, file)
    }

    // ---- frames and units

    // What a search finds, among the units with a range over an address.
    fn settle<S: AddressSearch>(
        &mut self,
        supplement_units: &[Unit<R>],
        probe: u64,
        from: &mut usize,
    ) -> Result<Settled<S::Found>, Error>
        requires calls { HoldCalls (known_among self.old supplement_units.now) self.old }
        requires passed { Pass (S.ask (known_among self.old supplement_units.now) probe) S.nothing
            (map value_of_unit self.old) probe from.old (ordered_ranges (map plain_unit self.old)) }
        requires kept { PassedAreKept self.old probe from.old
            (ordered_ranges (map plain_unit self.old)) }
        ensures { SettlesAmong S.is_something S.nothing
            (S.ask (known_among self.old supplement_units.now) probe) S.Finds S.Refuses
            (known_among self.old supplement_units.now) probe
            (ordered_ranges (map plain_unit self.old)) self.old result self.new from.new }
    {
        let alloc = *self.units.allocator();
        settle::<R, S>(
            alloc,
            &mut self.units,
            &self.ranges,
            supplement_units,
            probe,
            from,
        )
    }

    /// Where the frames of an address are: of the units with a range over it, in their order, in
    /// the first that has some, unless one is refused or waits for its load before.
    /// What is read is kept, and neither lines nor functions of units after the one in which it
    /// ends are read. The search begins at an index among all ranges, before which no unit has
    /// frames and each keeps its functions, and moves it on: so one that is asked again after an
    /// answer goes on there.
    pub fn settle_frames(
        &mut self,
        supplement_units: &[Unit<R>],
        probe: u64,
        from: &mut usize,
    ) -> Result<Settled<FramePlace>, Error>
        requires calls { HoldCalls (known_among self.old supplement_units.now) self.old }
        requires passed { PassFrames (known_among self.old supplement_units.now)
            (map value_of_unit self.old) probe from.old (ordered_ranges (map plain_unit self.old)) }
        requires kept { PassedAreKept self.old probe from.old
            (ordered_ranges (map plain_unit self.old)) }
        ensures values { map value_of_unit self.new ≡ map value_of_unit self.old }
        ensures calls { HoldCalls (known_among self.old supplement_units.now) self.new }
        ensures found { SettlesFrames self.new
            (frames_among (known_among self.old supplement_units.now) (map value_of_unit self.old)
            probe (covering_ranges probe (ordered_ranges (map plain_unit self.old)))) result }
        ensures cost { AtMostLooks (frame_search_looks
            (known_among self.old supplement_units.now) (map value_of_unit self.old) probe
            (covering_ranges probe (ordered_ranges (map plain_unit self.old)))) self.old self.new }
        ensures reads { ReadsAsked (AsksFramesAmong (known_among self.old supplement_units.now)
            (map value_of_unit self.old) probe
            (covering_ranges probe (ordered_ranges (map plain_unit self.old)))) self.old self.new }
        ensures functions { ReadsAskedFunctions
            (AsksFramesAmong (known_among self.old supplement_units.now)
            (map value_of_unit self.old) probe
            (covering_ranges probe (ordered_ranges (map plain_unit self.old)))) self.old self.new }
        ensures asked { result ≢ Err Memory → KeepsAskedFunctions
            (AsksFramesAmong (known_among self.old supplement_units.now)
            (map value_of_unit self.old) probe
            (covering_ranges probe (ordered_ranges (map plain_unit self.old)))) self.new }
        ensures passed { PassFrames (known_among self.old supplement_units.now)
            (map value_of_unit self.old) probe from.new (ordered_ranges (map plain_unit self.old)) }
        ensures kept { PassedAreKept self.new probe from.new
            (ordered_ranges (map plain_unit self.old)) }
    {
        self.settle::<FrameSearch>(supplement_units, probe, from)
    }

    /// The number of the first unit, of those with a range over an address, that has a function or
    /// a place for it, unless one waits for its load before. What is read is kept, and neither
    /// lines nor functions of units after the one in which it ends are read. The search begins at
    /// an index before which no unit has any and each keeps its functions, and moves it on.
    pub fn settle_unit(
        &mut self,
        supplement_units: &[Unit<R>],
        probe: u64,
        from: &mut usize,
    ) -> Result<Settled<usize>, Error>
        requires calls { HoldCalls (known_among self.old supplement_units.now) self.old }
        requires passed { PassUnits (known_among self.old supplement_units.now)
            (map value_of_unit self.old) probe from.old (ordered_ranges (map plain_unit self.old)) }
        requires kept { PassedAreKept self.old probe from.old
            (ordered_ranges (map plain_unit self.old)) }
        ensures values { map value_of_unit self.new ≡ map value_of_unit self.old }
        ensures calls { HoldCalls (known_among self.old supplement_units.now) self.new }
        ensures found { SettlesUnit (map value_of_unit self.old) self.new
            (unit_among (known_among self.old supplement_units.now) (map value_of_unit self.old)
            probe (covering_ranges probe (ordered_ranges (map plain_unit self.old)))) result }
        ensures cost { AtMostLooks (unit_search_looks
            (known_among self.old supplement_units.now) (map value_of_unit self.old) probe
            (covering_ranges probe (ordered_ranges (map plain_unit self.old)))) self.old self.new }
        ensures reads { ReadsAsked (AsksUnitAmong (known_among self.old supplement_units.now)
            (map value_of_unit self.old) probe
            (covering_ranges probe (ordered_ranges (map plain_unit self.old)))) self.old self.new }
        ensures functions { ReadsAskedFunctions
            (AsksUnitAmong (known_among self.old supplement_units.now)
            (map value_of_unit self.old) probe
            (covering_ranges probe (ordered_ranges (map plain_unit self.old)))) self.old self.new }
        ensures asked { result ≢ Err Memory → KeepsAskedFunctions
            (AsksUnitAmong (known_among self.old supplement_units.now)
            (map value_of_unit self.old) probe
            (covering_ranges probe (ordered_ranges (map plain_unit self.old)))) self.new }
        ensures passed { PassUnits (known_among self.old supplement_units.now)
            (map value_of_unit self.old) probe from.new (ordered_ranges (map plain_unit self.old)) }
        ensures kept { PassedAreKept self.new probe from.new
            (ordered_ranges (map plain_unit self.old)) }
    {
        self.settle::<UnitSearch>(supplement_units, probe, from)
    }

    /// The frames at a place that was found last in its unit. Nothing is searched.
    pub fn frames_at_place(&self, place: FramePlace) -> FrameIter<'_, R>
        ensures { LendsFrames self.now place (frames_left result) }
    {
        match frames_at_place(self.units.as_slice(), place) {
            Ok(frames) => frames,
            Err(_) => frame_without_function(None),
        }
    }

    /// The unit that has the functions of the unit of a number, where nothing refuses it, and the
    /// functions are kept.
    pub fn functions_unit_at(&self, number: usize) -> Option<UnitRef<'_, R>>
        ensures { KeepsFunctionsAt self.now number
            → result ≡ unit_at_number (map value_of_unit self.now) number }
    {
        functions_unit_at(self.units.as_slice(), number)
    }

    /// The number of the first unit with a range over an address whose load needs an answer. No
    /// load of those before an index does.
    pub fn first_waiting(&self, probe: u64, from: usize) -> Option<usize>
        requires { PassLoads (map value_of_unit self.now) probe from
            (ordered_ranges (map plain_unit self.now)) }
        ensures { result ≡ first_number (loads_at (map value_of_unit self.now)
            (covering_ranges probe (ordered_ranges (map plain_unit self.now)))) }
    {
        first_waiting(self.units.as_slice(), &self.ranges, probe, from)
    }

    /// A copy of the load of that unit, if there is one. The only error is out of memory.
    pub fn first_load(&self, probe: u64, from: usize) -> Result<Option<SplitDwarfLoad<R>>, Error>
        requires { PassLoads (map value_of_unit self.now) probe from
            (ordered_ranges (map plain_unit self.now)) }
        ensures { ReturnsAsOrNoMemory (option_map (λ l. l)) result
            (Ok (first_load (loads_at (map value_of_unit self.now)
            (covering_ranges probe (ordered_ranges (map plain_unit self.now)))))) }
    {
        match self.first_waiting(probe, from) {
            Some(number) => copy_load_at(self.units.as_slice(), number),
            None => Ok(None),
        }
    }
}
