//! A context, and what lookups find in it.

ghost use Rattle.std.specs.Prelude.{◌≡◌, ◌≢◌, ◌<◌, ◌≤◌, ◌+◌, [], None, Ok, Err, IfOk, IfErr, IfSome, OnOk, length, map, slice_get, option_map};
ghost use Rattle.addr2line_lookups.specs.Calls.{ReturnsAs, ReturnsAsOrNoMemory, ReturnsOrNoMemory};
ghost use Rattle.addr2line_lookups.specs.Contexts.{location, stretches, file_context, all_lines_or_refusal};
ghost use Rattle.addr2line_lookups.specs.Error.TheVariants.{Memory};
ghost use Rattle.addr2line_lookups.specs.Lookups.{answer_load, map_output};
ghost use Rattle.addr2line_lookups.specs.BorrowedFrames.{frames_left};
ghost use Rattle.addr2line_lookups.specs.BorrowedLocations.{location_value};
ghost use Rattle.addr2line_lookups.specs.ResolvedUnits.{value_of_unit, runs_of_unit, RunForRangesAlone};
ghost use Rattle.addr2line_lookups.specs.KeptUnits.{KeepsAsked, ReadsAsked, ReadsNoLines, ReadsNoFunctions, AsksForLines};
ghost use Rattle.addr2line_lookups.specs.LookupCosts.{AtMostLooks};
ghost use Rattle.addr2line_lookups.specs.UnitParses.{KeepsParsed, KeepAllCalls};
ghost use Rattle.addr2line_lookups.specs.KeptUnits.{KeepsAt};
ghost use Rattle.addr2line_lookups.specs.Lines.{Stretch};
ghost use Rattle.addr2line_lookups.specs.RangeWalks.{FindsStretch, IsStretchOf, KeepsStretch};
ghost use Rattle.addr2line_lookups.specs.UnitLookups.{SettlesFrames, SettlesUnit};
ghost use Rattle.addr2line_lookups.specs.LoadAnswers.{AnswersOrNoMemory};
ghost use Rattle.addr2line_lookups.specs.Histories.{functions_or_refusal, calls_or_refusal};
ghost use Rattle.addr2line_lookups.specs.ContextNames.{naming_in};
ghost use Rattle.addr2line_lookups.specs.Preloads.{load_at, load_of_item};
ghost use Rattle.addr2line_context.specs.AnsweredContexts.{HasNoAnswers};
ghost use Rattle.addr2line_context.specs.ContextCosts.{location_looks, AsksForPlace, frame_search, unit_search, AsksForNext, GoesBetween, AfterLookup, AfterSearch, AfterReading, AfterStep};
ghost use Rattle.addr2line_context.specs.ContextParses.{ParsesOrNoMemory};
ghost use Rattle.addr2line_context.specs.LocationRanges.{left_in};
ghost use Rattle.addr2line_context.specs.RangeItems.{stretch_of_item};
ghost use Rattle.addr2line_context.specs.SettledLookups.{frames_in, unit_in, loads_in, after_answer, IsFor, LoadOf, LeavesAnswer};
ghost use Rattle.addr2line_context.specs.SkippedLoads.{FindsFrames, FindsUnit};
ghost use Rattle.addr2line_context.specs.Suspended.{IfLoad, IfSkipped, HasMemory, FollowsLookup, RestsUnlessWaiting};

use crate::find_frames::FindFrames;
use crate::find_unit::FindUnit;
use crate::location_range::LocationRangeIter;
use crate::lookup::LookupResult;
use crate::outcomes::memory_alone;
use crate::progress::Progress;
use crate::runs::runs_at;
use addr2line_lookups::{
    ArangeIndex, Dwarf, Error, FramePlace, Location, RangeWalk, Reader, Runs, Settled,
    SplitDwarfLoad, Unit, UnitStretch, UnitToken, Units, frame_without_function, units_of_file,
    units_of_supplement,
};
use std::alloc::Global;
use std::marker::Model;
use std::rc::Rc;

/// What lookups go over: a file's sections, the units of the file, numbered from 0 on, each with
/// its ranges, its language, its lines and the first answer to the load of its split part, and the
/// units of the file's supplement. Units of types and units that are refused are left out. The
/// lines of a unit are read by the first lookup that asks for them, and kept.
pub struct Context<R: Reader> {
    pub(crate) sections: Rc<Dwarf<R>>,
    pub(crate) units: Units<R>,
    pub(crate) supplement_units: Vec<Unit<R>>,
    // How far the last lookup of frames came, so that it goes on there after an answer.
    pub(crate) frames_progress: Progress,
    // How far the last lookup of a unit came.
    pub(crate) unit_progress: Progress,
}

impl<R: Reader> Drop for Context<R> {
    fn drop(self) {
        let Context {
            sections: _,
            units: _,
            supplement_units: _,
            frames_progress: _,
            unit_progress: _,
        } = self;
    }
}

impl<R: Reader> Model for Context<R> {
    ghost use Rattle.std.specs.Prelude.{map};
    ghost use Rattle.addr2line_lookups.specs.ResolvedUnits.{plain_unit, value_of_unit};
    ghost use Rattle.addr2line_lookups.specs.AnsweredUnits.{answers_of};
    ghost use Rattle.addr2line_context.specs.KeptContexts.{ResolvedContext, HoldsUnits};

    ghost Value = { ResolvedContext };

    ghost view = { λ c. record {
      value = record {
        plain = record {
          file = c.sections.value.file;
          context = record {
            units = map plain_unit c.units;
            supplement_units = c.supplement_units.items;
          };
        };
        answers = answers_of (map value_of_unit c.units);
      };
      units = c.units;
    } };

    ghost invariant = { λ c.
        HoldsUnits c.sections.value.file c.supplement_units.items c.units
        c.frames_progress c.unit_progress };
}

impl<R: Reader> Context<R> {
    ghost use Rattle.std.specs.Borrow.{sem, RestsIfErr};
    ghost use Rattle.std.specs.Io.BufRead.{Rests};
    ghost use Rattle.addr2line_context.specs.contracts.context.Context.{the_row};

    /// The context of a file's sections. It goes through the abbreviation tables of the file's
    /// units first, once each, and keeps those that units share, what these have in common once; of
    /// each other it keeps the declaration of the unit's root. It takes memory for them and for
    /// what shares the sections, and else is `from_arc_dwarf`.
    pub fn from_dwarf(alloc: Global, sections: Dwarf<R>) -> Result<Self, Error>
        ensures context { ReturnsAsOrNoMemory (λ c. c.value.plain) result
            (file_context sections.file) }
        ensures answers { IfOk result (λ c. HasNoAnswers c.value) }
        ensures lines { IfOk result (λ c. RunForRangesAlone c.units) }
    {
        let mut sections = sections;
        sections.share_tables(alloc)?;
        match Rc::new(alloc, sections) {
            Ok(sections) => Context::from_arc_dwarf(alloc, sections),
            Err(_) => Err(Error::Memory),
        }
    }

    /// The context of a file's sections, which it keeps. The lines of a unit are read here only
    /// where its ranges are those of its lines. Refused, besides out of memory, by a header of
    /// `.debug_aranges`, by the first fault in `.debug_info`, of a unit's ranges or of a header, or
    /// by a header of the supplement, in this order.
    pub fn from_arc_dwarf(alloc: Global, sections: Rc<Dwarf<R>>) -> Result<Self, Error>
        ensures context { ReturnsAsOrNoMemory (λ c. c.value.plain) result
            (file_context sections.value.file) }
        ensures answers { IfOk result (λ c. HasNoAnswers c.value) }
        ensures lines { IfOk result (λ c. RunForRangesAlone c.units) }
    {
        let dwarf = sections.as_ref();
        let aranges = ArangeIndex::read(alloc, dwarf)?;
        aranges.check()?;
        let units = units_of_file(alloc, &sections, &aranges)?;
        let supplement_units = units_of_supplement(alloc, dwarf)?;
        let kept = Units::new(alloc, units)?;
        Ok(Context {
            sections,
            units: kept,
            supplement_units,
            frames_progress: Progress::none(),
            unit_progress: Progress::none(),
        })
    }

    /// The sections of the context.
    pub fn sections(&self) -> &Rc<Dwarf<R>>
        ensures { result.now.value.file ≡ self.now.value.plain.file }
    {
        &self.sections
    }

    /// The units of the supplement that can be read, of types too.
    pub fn supplement_units(&self) -> &[Unit<R>]
        ensures { result.now ≡ self.now.value.plain.context.supplement_units }
    {
        self.supplement_units.as_slice()
    }

    /// How often the line number program of a unit was run: once where it has one and its lines are
    /// kept, and else never. Runs that ended when out of memory don't count. None for a token past
    /// the units.
    pub fn line_runs(&self, token: UnitToken) -> Option<&Runs>
        ensures runs { option_map (λ r. r.now) result
            ≡ option_map runs_of_unit (slice_get self.now.units token) }
        ensures once { IfSome result (λ r. r.now.count ≤ 1) }
    {
        runs_at(self.units.as_slice(), token.number())
    }

    /// The place of an address: of the units with a range over it, by the ranges' ends, the first
    /// that has a place for it. A unit whose lines are refused ends the search with that refusal.
    /// The lines of the units that it asks are read, unless they are kept, and kept, those of no
    /// other unit, and no functions; else it takes no memory, so that the same address again never
    /// is out of memory.
    /// In each unit it searches the sequences, and the rows of one. The context's value stays the
    /// same.
    pub fn find_location(&mut self, probe: u64) -> Result<Option<Location<'_>>, Error>
        ensures place { ReturnsAsOrNoMemory (option_map location_value) result
            (location self.old.value.plain.context probe) }
        ensures free { KeepsAsked (AsksForPlace self.old.value probe) self.old.units
            → result ≢ Err Memory }
        ensures* after { sem 𝓛 (Rests (the_row R.row R.Endian.row R.Offset.row R.Reader
            R.Endian.Endianity R.Offset.ReaderOffset.own R.Offset.Debug) self.entry
            (AfterReading (AsksForPlace self.old.value probe)
            (location_looks self.old.value probe) result self.old)) }
    {
        match self.units.find_row(probe)? {
            Some(found) => Ok(self.units.place_in(found)),
            None => Ok(None),
        }
    }

    /// The stretches of addresses between two ends, with their places: of the units with a range
    /// there, in the order in which lookups ask them, those of their rows between the ends, both
    /// clipped to that range. Here nothing is read and no memory is taken, so that it is never
    /// refused; the iterator reads the lines of each unit where it comes to it, those of no other
    /// unit, and takes memory for nothing else. Once it is let go, the context's value is what the
    /// iterator's calls left.
    pub fn find_location_range(
        &mut self,
        probe_low: u64,
        probe_high: u64,
    ) -> Result<LocationRangeIter<'_, R>, Error>
        ensures stretches { ReturnsAs (λ i. left_in i.context.now i.walk) result
            (Ok (stretches self.old.value.plain.context probe_low probe_high)) }
        ensures context { IfOk result (λ i. i.context.now ≡ self.old) }
        ensures between { IfOk result
            (λ i. GoesBetween self.old.value probe_low probe_high i.walk) }
        ensures same_reference { IfOk result (λ i. i.context.ghost_name ≡ self.entry.ghost_name) }
        ensures* after { sem 𝓛 (RestsIfErr (the_row R.row R.Endian.row R.Offset.row R.Reader
            R.Endian.Endianity R.Offset.ReaderOffset.own R.Offset.Debug) self.entry
            (λ i. i.context.ghost_name) result (λ left. left ≡ self.old)) }
    {
        let walk = RangeWalk::new(probe_low, probe_high);
        Ok(LocationRangeIter {
            context: self,
            walk,
        })
    }

    // The next stretch of a walk. The lines of the units that it asks are read, unless they are
    // kept, and kept; else it takes no memory.
    pub(crate) fn next_stretch(
        &mut self,
        walk: &mut RangeWalk,
    ) -> Result<Option<UnitStretch>, Error>
        ensures stretch { FindsStretch self.old.value.plain.context.units result
            (left_in self.old walk.old) (left_in self.old walk.new) }
        ensures after { AfterStep result walk.old walk.new self.old self.new }
        ensures kept { KeepsStretch self.new.units result }
        ensures free { KeepsAsked (AsksForNext self.old.value walk.old) self.old.units
            → result ≢ Err Memory }
    {
        self.units.next_stretch(walk)
    }

    // A stretch that was found, with its place.
    pub(crate) fn stretch_with_place(&self, found: UnitStretch) -> (u64, u64, Location<'_>)
        requires kept { KeepsAt self.now.units found.row.unit }
        requires found { (x : Stretch) × IsStretchOf self.now.value.plain.context.units found x }
        ensures { (x : Stretch) → IsStretchOf self.now.value.plain.context.units found x
            → stretch_of_item result ≡ x }
    {
        match self.units.place_in(found.row) {
            Some(place) => (found.address, found.length, place),
            None => unreachable!(),
        }
    }

    /// Whether the lines of all units can be read, or else the first refusal, by the units'
    /// numbers. They are read, unless they are kept, and kept, up to that refusal. Where these are
    /// kept it takes no memory.
    pub fn parse_lines(&mut self) -> Result<(), Error>
        ensures lines { ReturnsOrNoMemory result
            (all_lines_or_refusal self.old.value.plain.context.units) }
        ensures after { AfterLookup 0 self.old self.new }
        ensures asked { result ≢ Err Memory
            → KeepsAsked (AsksForLines self.old.value.plain.context.units) self.new.units }
        ensures reads { ReadsAsked (AsksForLines self.old.value.plain.context.units)
            self.old.units self.new.units }
        ensures functions { ReadsNoFunctions self.old.units self.new.units }
        ensures free { KeepsAsked (AsksForLines self.old.value.plain.context.units) self.old.units
            → result ≢ Err Memory }
    {
        self.units.check_lines()
    }

    /// Reads the functions of all units, unless they are kept, and keeps them, up to the first
    /// refusal by the units' numbers, which it returns. A load that is pending where the walk comes
    /// to its unit is answered by no file, so that the unit's own functions count. After out of
    /// memory what was answered and read before stays so.
    pub fn parse_functions(&mut self) -> Result<(), Error>
        ensures functions { ParsesOrNoMemory self.old.value.plain
            (functions_or_refusal self.old.value.plain)
            result self.old.value.answers self.new.value.answers }
        ensures kept { KeepsParsed result self.new.units }
        ensures plain { self.new.value.plain ≡ self.old.value.plain }
        ensures cost { AtMostLooks 0 self.old.units self.new.units }
        ensures lines { ReadsNoLines self.old.units self.new.units }
    {
        self.frames_progress = Progress::none();
        self.unit_progress = Progress::none();
        self.units.check_functions()
    }

    /// The same, with the calls that are inlined into each function: its name, and of each call the
    /// name, the ranges and the place. Names are looked for in all units of the context and of the
    /// supplement. The first function whose calls are refused refuses its unit.
    pub fn parse_inlined_functions(&mut self) -> Result<(), Error>
        ensures calls { ParsesOrNoMemory self.old.value.plain
            (calls_or_refusal self.old.value.plain (naming_in self.old.value.plain))
            result self.old.value.answers self.new.value.answers }
        ensures kept { OnOk result (KeepAllCalls self.new.units) }
        ensures plain { self.new.value.plain ≡ self.old.value.plain }
        ensures cost { AtMostLooks 0 self.old.units self.new.units }
        ensures lines { ReadsNoLines self.old.units self.new.units }
    {
        self.frames_progress = Progress::none();
        self.unit_progress = Progress::none();
        self.units.check_calls(self.supplement_units.as_slice())
    }

    // ---- split parts

    /// The loads that lookups of this address may wait for, each with the token of its unit: of the
    /// units with a range over it, in the order in which lookups ask them, those of split parts
    /// that were not answered yet (DWARF 5, 3.1.3), that of each unit once. After an answer to each
    /// no lookup of this address waits. It takes memory for copies of readers and for the numbers
    /// of their units, and none where there is no such load; n ranges over the address take about
    /// n log n steps.
    pub fn preload_units(
        &mut self,
        probe: u64,
    ) -> Result<Vec<(SplitDwarfLoad<R>, UnitToken)>, Error>
        ensures loads { ReturnsAsOrNoMemory (λ found. map load_of_item found.items) result
            (Ok (loads_in self.old.value probe)) }
        ensures value { self.new ≡ self.old }
        ensures free { loads_in self.old.value probe ≡ [] → result ≢ Err Memory }
    {
        self.units.pending_loads(probe)
    }

    /// Answers the load of a unit by the sections of the other file, which `Dwarf::make_dwo`
    /// completes, or by none where there is no such file. The first answer is kept, a refusal too;
    /// a unit that is decided stays as it is, and the file isn't read, so that the call is never
    /// out of memory. Refused by what the answer makes of the unit, or what was kept; by
    /// `NoSuchUnit` for a token past the context's units.
    pub fn answer_load(&mut self, token: UnitToken, file: Option<Rc<Dwarf<R>>>) -> Result<(), Error>
        ensures answers { AnswersOrNoMemory result self.old.value.answers self.new.value.answers
            (answer_load self.old.value.plain self.old.value.answers token
            (option_map (λ f. f.value.file) file)) }
        ensures decided { load_at (map value_of_unit self.old.units) token ≡ None
            → answer_load self.old.value.plain self.old.value.answers token
            (option_map (λ f. f.value.file) file) ≡ (result, self.new.value.answers) }
        ensures plain { self.new.value.plain ≡ self.old.value.plain }
        ensures cost { AtMostLooks 0 self.old.units self.new.units }
        ensures lines { ReadsNoLines self.old.units self.new.units }
        ensures functions { ReadsNoFunctions self.old.units self.new.units }
    {
        self.units.answer_at(token.number(), file)
    }

    // ---- frames and units

    /// The frames of an address, the innermost call first: of the units with a range over it, by
    /// the ranges' ends, those of the first that has some, unless one is refused before. Where the
    /// functions of a unit are in another file that wasn't asked for yet (DWARF 5, 3.1.3), the
    /// lookup waits for that load first. Refused by what decides a unit, by its functions, by the
    /// function that holds the address, or by its lines, in this order. What is read is kept, and
    /// neither lines nor functions are read of units after the one in which the search ends: the
    /// first that has some, is refused, or waits. Unless it is out of memory, the functions of the
    /// units up to that one are kept, but of one that waits. In each unit it searches the
    /// functions, the calls of one at each depth, the sequences, and the rows of one. The frames
    /// borrow what is kept; each takes memory only for a copy of its name's reader. The context's
    /// value stays the same.
    pub fn find_frames(&mut self, probe: u64) -> LookupResult<FindFrames<'_, R>>
        ensures found { FollowsLookup frames_left result (frames_in self.old.value probe) }
        ensures waits { IfLoad
            (λ w. IsFor frame_search self.old probe w.context.now w.probe) result }
        ensures skips { IfSkipped
            (λ w found. FindsFrames frames_left w.context.now.value w.probe found) result
            (FindsFrames frames_left self.old.value probe) }
        ensures* after { sem 𝓛 (RestsUnlessWaiting (the_row R.row R.Endian.row R.Offset.row R.Reader
            R.Endian.Endianity R.Offset.ReaderOffset.own R.Offset.Debug) self.entry
            (λ w. w.context.ghost_name) result
            (AfterSearch frame_search (HasMemory result) probe self.old)) }
    {
        match self.settle_frames(probe) {
            Ok(Settled::Waits) => LookupResult::Load(FindFrames {
                context: self,
                probe,
            }),
            Ok(Settled::Found(place)) => {
                LookupResult::Output(Ok(self.units.frames_at_place(place)))
            }
            Ok(Settled::Nothing) => LookupResult::Output(Ok(frame_without_function(None))),
            Err(error) => LookupResult::Output(Err(error)),
        }
    }

    /// The unit of an address, with its file's sections: of the units with a range over it, by the
    /// ranges' ends, the first that has a function or a place for it, whatever is refused before;
    /// the split unit where one has its functions. It waits for loads, and searches, as
    /// `find_frames` does. The only error is out of memory. What is read is kept, and neither lines
    /// nor functions are read of units after that one, or after one that waits. The context's value
    /// stays the same.
    pub fn find_dwarf_and_unit(&mut self, probe: u64) -> LookupResult<FindUnit<'_, R>>
        ensures found { FollowsLookup (λ u. u) result
            (map_output (λ u. Ok u) (unit_in self.old.value probe)) }
        ensures waits { IfLoad
            (λ w. IsFor unit_search self.old probe w.context.now w.probe) result }
        ensures skips { IfSkipped (λ w found. FindsUnit w.context.now.value w.probe found) result
            (FindsUnit self.old.value probe) }
        ensures* after { sem 𝓛 (RestsUnlessWaiting (the_row R.row R.Endian.row R.Offset.row R.Reader
            R.Endian.Endianity R.Offset.ReaderOffset.own R.Offset.Debug) self.entry
            (λ w. w.context.ghost_name) result
            (AfterSearch unit_search (HasMemory result) probe self.old)) }
    {
        match self.settle_unit(probe) {
            Ok(Settled::Waits) => LookupResult::Load(FindUnit {
                context: self,
                probe,
            }),
            Ok(Settled::Found(number)) => {
                LookupResult::Output(Ok(self.units.functions_unit_at(number)))
            }
            Ok(Settled::Nothing) => LookupResult::Output(Ok(None)),
            Err(error) => LookupResult::Output(Err(error)),
        }
    }

    // Where the frames of an address are, unless a load needs an answer before.
    pub(crate) fn settle_frames(&mut self, probe: u64) -> Result<Settled<FramePlace>, Error>
        ensures found { SettlesFrames self.new.units (frames_in self.old.value probe) result }
        ensures after { AfterSearch frame_search (result ≢ Err Memory) probe self.old self.new }
    {
        let supplement_units = self.supplement_units.as_slice();
        let mut index = self.frames_progress.index_for(probe);
        let settled = self
            .units
            .settle_frames(supplement_units, probe, &mut index);
        self.frames_progress = Progress { probe, index };
        settled
    }

    // The number of the unit of an address, unless a load needs an answer before.
    pub(crate) fn settle_unit(&mut self, probe: u64) -> Result<Settled<usize>, Error>
        ensures found { SettlesUnit (map value_of_unit self.new.units) self.new.units
            (unit_in self.old.value probe) result }
        ensures after { AfterSearch unit_search (result ≢ Err Memory) probe self.old self.new }
    {
        let supplement_units = self.supplement_units.as_slice();
        let mut index = self.unit_progress.index_for(probe);
        let settled = self.units.settle_unit(supplement_units, probe, &mut index);
        self.unit_progress = Progress { probe, index };
        settled
    }

    // Answers the first load of an address, if there is one. What the answer makes of its unit, a
    // refusal too, is recorded: the only error is out of memory.
    pub(crate) fn answer_first(
        &mut self,
        probe: u64,
        file: Option<Rc<Dwarf<R>>>,
    ) -> Result<(), Error>
        ensures ok { OnOk result (self.new.value
            ≡ after_answer self.old.value probe (option_map (λ f. f.value.file) file)) }
        ensures fewer { OnOk result (0 < length (loads_in self.new.value probe)
            → length (loads_in self.new.value probe) + 1
            ≤ length (loads_in self.old.value probe)) }
        ensures left { LeavesAnswer self.old.value probe (option_map (λ f. f.value.file) file)
            self.new.value }
        ensures refusal { IfErr result (λ e. e ≡ Memory) }
        ensures cost { AtMostLooks 0 self.old.units self.new.units }
        ensures lines { ReadsNoLines self.old.units self.new.units }
        ensures functions { ReadsNoFunctions self.old.units self.new.units }
    {
        let from = self.frames_progress.furthest_for(self.unit_progress, probe);
        let Some(number) = self.units.first_waiting(probe, from) else {
            drop(file);
            return Ok(());
        };
        let answered = self.units.answer_at(number, file);
        memory_alone(answered)
    }

    // The first load of an address that has one. The only error is out of memory.
    pub(crate) fn first_load(&self, probe: u64) -> Result<SplitDwarfLoad<R>, Error>
        requires { 0 < length (loads_in self.now.value probe) }
        ensures { LoadOf (loads_in self.now.value probe) result }
    {
        let from = self.frames_progress.furthest_for(self.unit_progress, probe);
        match self.units.first_load(probe, from)? {
            Some(load) => Ok(load),
            None => unreachable!(),
        }
    }
}
