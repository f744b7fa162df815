//! A unit of a context, and what was read of it.

ghost use Rattle.std.specs.Prelude.{◌≡◌, ◌≢◌, ◌<◌, false, true, length, Some, None, Ok, Err, IfSome, MatchOption, IfOk, OnOk, OnErr, IfErr, option_map, option_and_then, is_some};
ghost use Rattle.addr2line_functions.specs.Calls.{Returns, ReturnsAs, ReturnsAsOrNoMemory, ReturnsOrNoMemory};
ghost use Rattle.addr2line_functions.specs.Error.TheVariants.{Memory};
ghost use Rattle.addr2line_functions.specs.Results.{and_then, refusal_of};
ghost use Rattle.addr2line_functions.specs.EntryViews.{entry_of};
ghost use Rattle.addr2line_functions.specs.FirstAnswers.{load_of};
ghost use Rattle.addr2line_functions.specs.BorrowedFrames.{frames_left};
ghost use Rattle.addr2line_functions.specs.BorrowedLocations.{location_value};
ghost use Rattle.addr2line_root.specs.ArangeIndexes.{IsIndexOf};
ghost use Rattle.addr2line_root.specs.LastPrograms.{HasHeaderInFile};
ghost use Rattle.addr2line_root.specs.LastRanges.{AreLastOf, AreLastFor, maker_of};
ghost use Rattle.addr2line_root.specs.LineIndexes.{counted_lines};
ghost use Rattle.addr2line_root.specs.ProbedLists.{after_counter};
ghost use Rattle.addr2line_root.specs.CountedRuns.{without_runs};
ghost use Rattle.addr2line_root.specs.RootRanges.{RunsForRanges, unit_with};
ghost use Rattle.addr2line_root.specs.Searches.{AtMostProbes};
ghost use Rattle.addr2line_unit.specs.KeptFunctions.{kept_at, plain_functions, plain_calls, count_of_functions, number_in, number_probes, function_at_number, FindsChain, kept_chain_probes, frames_by_numbers};
ghost use Rattle.addr2line_unit.specs.LineWalks.{plain_lines, WalkBegins, WalkGoesOn, cursor_probes, StepsOn};
ghost use Rattle.addr2line_unit.specs.ResolvedUnits.{HasRoot, main_unit, pending_load, decided, first_answer, answer_or_none, unit_of_functions, functions_of, calls_of_number, if_kept, runs_of_unit, row_or_refusal, row_in_kept, lines_probes, kept_probes, location_of_row, with_functions, with_calls, with_probes, with_chain, with_unit_answer, without_answer, new_unit, KeepsLines, KeepsNoFunctions, RunsForRangesAlone};

use crate::kept::Kept;
use crate::load::{KeptLoad, SplitDwarfLoad};
use crate::unit_functions::UnitFunctions;
use addr2line_functions::{
    DebugFile, DebuggingInformationEntry, DwLang, Error, FrameIter, FunctionCalls, Functions,
    HasUnit, HoldingUnit, LineCursor, LineIndex, Location, Names, Probes, Range, Reader,
    RowStretch, Unit, UnitHeader, calls_of_function, functions_of_unit,
};
use addr2line_root::{
    ArangeIndex, LastRanges, LineRow, MainUnit, OwnedUnit, Runs, UnitLines, UnitRoot,
};
use std::alloc::Global;
use std::marker::Model;
use std::rc::Rc;

/// A unit of a context: the ranges that it covers, its language, the load of its split part and the
/// first answer to it. Its lines, its functions and their calls are read when they are asked for,
/// and kept, refusals too. Before that the unit is made whole, unless it is.
pub struct ResUnit<R: Reader> {
    /// With the counter of the runs of its line number program.
    main: MainUnit<R>,
    /// Shared with the units before and after it that have the same range list.
    ranges: Rc<Vec<Range>>,
    language: Option<DwLang>,
    load: KeptLoad<R>,
    first: Option<Result<Option<OwnedUnit<R>>, Error>>,
    lines: Kept<UnitLines>,
    /// Of the unit that has them under the first answer.
    functions: UnitFunctions<R>,
    /// Looks at what is kept.
    probes: Probes,
    /// The numbers of the calls that were found last, the outermost first.
    chain: Vec<usize>,
}

impl<R: Reader> Drop for ResUnit<R> {
    fn drop(self) {
        let ResUnit {
            main: _,
            ranges: _,
            language: _,
            load: _,
            first: _,
            lines: _,
            functions: _,
            probes: _,
            chain: _,
        } = self;
    }
}

impl<R: Reader> Model for ResUnit<R> {
    ghost use Rattle.std.specs.Prelude.{map, option_map, is_some};
    ghost use Rattle.addr2line_functions.specs.UnitLines.{lines_of_unit};
    ghost use Rattle.addr2line_unit.specs.KeptFunctions.{plain_calls};
    ghost use Rattle.addr2line_unit.specs.ResolvedUnits.{ResolvedUnit, KeepsParses};

    ghost Value = { ResolvedUnit };

    ghost view = { λ u. record {
      value = record {
        file = u.main.counted.unit.file;
        unit = record {
          facts = u.main.counted.unit.facts;
          ranges = u.ranges.value.items;
          language = option_map (λ l. l.0) u.language;
          lines = lines_of_unit u.main.counted.unit;
        };
        first = u.first;
      };
      keeps_lines = is_some u.lines;
      runs = u.main.counted.runs.name;
      keeps_functions = is_some u.functions.functions;
      calls = map (option_map plain_calls) u.functions.calls;
      probes = u.probes;
      chain = u.chain.items;
    } };

    ghost invariant = { λ u.
        KeepsParses u.main u.load u.first u.lines u.functions u.probes.name };
}

// The row of an address in lines, or the refusal of them; none where they aren't kept.
fn row_in_kept(
    lines: &Kept<UnitLines>,
    probe: u64,
    probes: &mut Probes,
) -> Result<Option<LineRow>, Error>
    requires counter { IfSome lines.now (λ r. IfOk r (λ l. probes.old.name ≡ l.counter)) }
    ensures row { Returns result (row_in_kept probe lines.now) }
    ensures refusal { result ≢ Err Memory }
    ensures cost { AtMostProbes (kept_probes probe lines.now) probes.old probes.new }
{
    match lines.result() {
        Some(Ok(lines)) => Ok(lines.index().find_row(probe, probes)),
        Some(Err(error)) => Err(*error),
        None => Ok(None),
    }
}

// Where a walk over the rows of lines from a low end on begins; at none where there are no rows for
// it, or the lines are refused, or aren't kept.
fn cursor_in_kept(lines: &Kept<UnitLines>, low: u64, probes: &mut Probes) -> Option<LineCursor>
    requires counter { IfSome lines.now (λ r. IfOk r (λ l. probes.old.name ≡ l.counter)) }
    ensures rows { IfSome lines.now (λ r. WalkBegins low (plain_lines r) result) }
    ensures cost { MatchOption lines.now (probes.new ≡ probes.old)
        (λ r. AtMostProbes (cursor_probes (plain_lines r)) probes.old probes.new) }
{
    match lines.result() {
        Some(Ok(lines)) => lines.index().cursor_from(low, probes),
        Some(Err(_)) | None => None,
    }
}

// The next row of such a walk between two ends; none where the lines are refused, or aren't kept.
fn next_in_kept(
    lines: &Kept<UnitLines>,
    cursor: LineCursor,
    low: u64,
    high: u64,
    probes: &mut Probes,
) -> Option<(RowStretch, LineCursor)>
    requires counter { IfSome lines.now (λ r. IfOk r (λ l. probes.old.name ≡ l.counter)) }
    ensures row { IfSome lines.now (λ r. WalkGoesOn low high cursor (plain_lines r) result) }
    ensures cost { MatchOption lines.now ((result ≡ None) × (probes.new ≡ probes.old))
        (λ r. StepsOn cursor (plain_lines r) result probes.old probes.new) }
{
    match lines.result() {
        Some(Ok(lines)) => lines.index().next_between(cursor, low, high, probes),
        Some(Err(_)) | None => None,
    }
}

// Puts an answer in the place of what was there.
fn put_answer<R: Reader>(
    first: &mut Option<Result<Option<OwnedUnit<R>>, Error>>,
    answer: Result<Option<OwnedUnit<R>>, Error>,
)
    ensures { first.new ≡ Some answer }
{
    *first = Some(answer);
}

// The unit that has the functions of a unit with this load, if it has one.
fn unit_decided<'a, R: Reader>(
    main: &'a OwnedUnit<R>,
    load: Option<&SplitDwarfLoad<R>>,
    first: &'a Option<Result<Option<OwnedUnit<R>>, Error>>,
) -> Result<HoldingUnit<'a, R>, Error>
    ensures { Returns result
        (unit_of_functions main.now
        (decided (Ok (option_map (λ l. l.now) load.entry)) first.now)) }
{
    match load {
        Some(_) => unit_under(main, first),
        None => Ok(HoldingUnit::new(DebugFile::Primary, main.unit_ref())),
    }
}

// The unit that has the functions, under the first answer to its load, if there was one.
fn unit_under<'a, R: Reader>(
    main: &'a OwnedUnit<R>,
    first: &'a Option<Result<Option<OwnedUnit<R>>, Error>>,
) -> Result<HoldingUnit<'a, R>, Error>
    ensures { Returns result (unit_of_functions main.now (answer_or_none first.now)) }
{
    match first {
        Some(Ok(Some(split))) => Ok(HoldingUnit::new(DebugFile::Dwo, split.unit_ref())),
        Some(Ok(None)) | None => Ok(HoldingUnit::new(DebugFile::Primary, main.unit_ref())),
        Some(Err(error)) => Err(*error),
    }
}

// Whether the first answer to a load is a refusal, if there was one.
fn check_answer<R: Reader>(first: &Option<Result<Option<OwnedUnit<R>>, Error>>) -> Result<(), Error>
    ensures { Returns result (refusal_of (answer_or_none first.now)) }
{
    match first {
        Some(Err(error)) => Err(*error),
        Some(Ok(_)) | None => Ok(()),
    }
}

// The same of a unit with this load, if it has one.
fn check_load<R: Reader>(
    load: Option<&SplitDwarfLoad<R>>,
    first: &Option<Result<Option<OwnedUnit<R>>, Error>>,
) -> Result<(), Error>
    ensures { Returns result
        (refusal_of (decided (Ok (option_map (λ l. l.now) load.entry)) first.now)) }
{
    match load {
        Some(_) => check_answer(first),
        None => Ok(()),
    }
}

impl<R: Reader> ResUnit<R> {
    /// The unit, with what its root says. Its line number program is run only where its ranges are
    /// those of its lines, which are then kept. Refused by its root or its ranges. A range list or
    /// a program that is the last one of the file isn't read or run again, and the lines of such a
    /// program are shared where the unit's are the same. One counter is made, that of the unit.
    pub fn read(
        alloc: Global,
        main: MainUnit<R>,
        entry: &DebuggingInformationEntry<R>,
        aranges: &ArangeIndex,
        last: &mut LastRanges<R>,
    ) -> Result<Self, Error>
        requires index { IsIndexOf main.counted.unit.file aranges.now }
        requires last { AreLastFor main.counted.unit last.old }
        requires root { HasRoot main.counted.unit (entry_of R.view R.Offset.count entry.now) }
        requires runs { main.counted.runs.count ≡ 0 }
        ensures unit { ReturnsAsOrNoMemory (λ u. u.value) result (new_unit main.counted.unit) }
        ensures lines { IfOk result RunsForRangesAlone }
        ensures functions { IfOk result KeepsNoFunctions }
        ensures last { HasHeaderInFile main.counted.unit
            → AreLastOf main.counted.unit.file last.new }
        ensures counters { maker_of last.new ≡ after_counter (maker_of last.old) }
    {
        let mut main = main;
        let probes = last.counter();
        let root = UnitRoot::read(alloc, &mut main, entry, aranges, last, &probes)?;
        ResUnit::of_root(alloc, main, root, probes)
    }

    // The unit with what its root says, what was run for that, and the counter of looks at it.
    fn of_root(
        alloc: Global,
        main: MainUnit<R>,
        root: UnitRoot,
        probes: Probes,
    ) -> Result<Self, Error>
        requires { RunsForRanges probes.name root.ranges root.lines (without_runs main.counted)
            main.counted }
        ensures unit { ReturnsAsOrNoMemory (λ u. u.value) result
            (Ok (without_answer main.counted.unit.file (unit_with main.counted.unit root))) }
        ensures lines { IfOk result RunsForRangesAlone }
        ensures functions { IfOk result KeepsNoFunctions }
    {
        let load = KeptLoad::read(alloc, &main)?;
        let UnitRoot {
            ranges,
            language,
            lines,
        } = root;
        let lines = Kept::of(lines)?;
        Ok(ResUnit {
            main,
            ranges,
            language,
            load,
            first: None,
            lines,
            functions: UnitFunctions::not_read(alloc),
            probes,
            chain: Vec::new(alloc),
        })
    }

    /// Makes the unit whole, unless it is: reads again its declarations and the header of its line
    /// number program. The only refusal is out of memory.
    pub fn make_whole(&mut self, alloc: Global) -> Result<(), Error>
        ensures unit { self.new ≡ self.old }
        ensures refusal { IfErr result (λ e. e ≡ Memory) }
    {
        self.main.make_whole(alloc)
    }

    /// The unit of the main file, if it is whole, as each is that has a split part.
    pub fn main(&self) -> Option<&OwnedUnit<R>>
        ensures { MatchOption result (load_of (main_unit self.now.value) ≡ Ok None)
            (λ u. u.now ≡ main_unit self.now.value) }
    {
        self.main.whole()
    }

    /// The ranges that the unit covers, in the order in which its entries or sections list them.
    pub fn ranges(&self) -> &[Range]
        ensures { result.now ≡ self.now.value.unit.ranges }
    {
        self.ranges.as_ref().as_slice()
    }

    /// The language of the unit, if its root names one (DWARF 5, 7.12).
    pub fn language(&self) -> Option<DwLang>
        ensures { option_map (λ l. l.0) result ≡ self.now.value.unit.language }
    {
        self.language
    }

    // ---- lines

    /// How often the unit's line number program was run: once where it has one and its lines are
    /// kept, and else never. It is the same counter as long as there is the unit.
    pub fn runs(&self) -> &Runs
        ensures { result.now ≡ runs_of_unit self.now }
    {
        self.main.runs()
    }

    // Reads the lines, which aren't kept.
    fn read_missing_lines(&mut self, alloc: Global) -> Result<(), Error>
        requires { self.old.keeps_lines ≡ false }
        ensures unit { self.new ≡ record self.old { keeps_lines = self.new.keeps_lines } }
        ensures kept { OnOk result (self.new.keeps_lines ≡ true) }
        ensures refusal { IfErr result (λ e. e ≡ Memory) }
    {
        let lines = self.main.read_lines(alloc, &self.probes)?;
        self.lines.keep(lines)
    }

    /// Reads the lines, unless they are kept. A refusal is kept too: the only error is out of
    /// memory, after which they are read again.
    #[inline(always)]
    pub fn read_lines(&mut self, alloc: Global) -> Result<(), Error>
        ensures unit { self.new ≡ record self.old { keeps_lines = self.new.keeps_lines } }
        ensures kept { OnOk result (self.new.keeps_lines ≡ true) }
        ensures refusal { IfErr result (λ e. e ≡ Memory) }
        ensures free { self.old.keeps_lines ≡ true → result ≡ Ok tt }
    {
        if self.lines.is_read() {
            return Ok(());
        }
        self.read_missing_lines(alloc)
    }

    /// The lines as lookups search them, or the refusal of them, if they are kept.
    pub fn kept_lines(&self) -> Option<&Result<UnitLines, Error>>
        ensures { option_map (λ r. r.now) result ≡ if_kept self.now.keeps_lines
            (counted_lines self.now.probes.name self.now.value.unit.lines) }
    {
        self.lines.result()
    }

    /// The row of an address in the lines, or the refusal of them. They are read before, unless
    /// they are kept. It is found by one search among the sequences and one among the rows of one.
    pub fn find_row(&mut self, alloc: Global, probe: u64) -> Result<Option<LineRow>, Error>
        ensures unit { self.new ≡ record self.old {
          keeps_lines = self.new.keeps_lines;
          probes = self.new.probes;
        } }
        ensures row { ReturnsOrNoMemory result (row_or_refusal probe self.old.value.unit.lines) }
        ensures kept { result ≢ Err Memory → KeepsLines self.new }
        ensures more { KeepsLines self.old → KeepsLines self.new }
        ensures free { KeepsLines self.old → result ≢ Err Memory }
        ensures cost { AtMostProbes (lines_probes probe self.old.value.unit.lines)
            self.old.probes self.new.probes }
    {
        self.read_lines(alloc)?; // a refusal is kept too
        row_in_kept(&self.lines, probe, &mut self.probes)
    }

    /// Where a walk over the rows of the lines that are kept begins, from a low end on; at none
    /// where there are no rows for it, or the lines are refused. It is one search among the
    /// sequences.
    pub fn cursor_from(&mut self, low: u64) -> Option<LineCursor>
        ensures unit { self.new ≡ with_probes self.old self.new.probes }
        ensures rows { KeepsLines self.old
            → WalkBegins low self.old.value.unit.lines result }
        ensures cost { AtMostProbes (cursor_probes self.old.value.unit.lines)
            self.old.probes self.new.probes }
    {
        cursor_in_kept(&self.lines, low, &mut self.probes)
    }

    /// The next row of such a walk between two ends, and how far it came with it.
    pub fn next_between(
        &mut self,
        cursor: LineCursor,
        low: u64,
        high: u64,
    ) -> Option<(RowStretch, LineCursor)>
        ensures unit { self.new ≡ with_probes self.old self.new.probes }
        ensures row { KeepsLines self.old
            → WalkGoesOn low high cursor self.old.value.unit.lines result }
        ensures cost { StepsOn cursor self.old.value.unit.lines result
            self.old.probes self.new.probes }
    {
        next_in_kept(&self.lines, cursor, low, high, &mut self.probes)
    }

    /// The place of a row in the lines that are kept, unless they are refused. Nothing is searched.
    pub fn location_of_row(&self, row: &LineRow) -> Option<Location<'_>>
        ensures { self.now.keeps_lines ≡ true → option_map location_value result
            ≡ location_of_row row.now self.now.value.unit.lines }
    {
        match self.kept_lines() {
            Some(Ok(lines)) => Some(lines.index().location_of_row(row)),
            _ => None,
        }
    }

    /// Whether the lines can be read, or the refusal of them. They are read before, unless they are
    /// kept.
    pub fn check_lines(&mut self, alloc: Global) -> Result<(), Error>
        ensures unit { self.new ≡ record self.old { keeps_lines = self.new.keeps_lines } }
        ensures found { ReturnsOrNoMemory result
            (and_then self.old.value.unit.lines (λ lines. Ok tt)) }
        ensures kept { result ≢ Err Memory → KeepsLines self.new }
        ensures more { KeepsLines self.old → KeepsLines self.new }
        ensures free { KeepsLines self.old → result ≢ Err Memory }
    {
        self.read_lines(alloc)?;
        match self.lines.result() {
            Some(Err(error)) => Err(*error),
            _ => Ok(()),
        }
    }

    // ---- split parts

    /// The load of the unit's split part, if it has one and there was no answer to it.
    pub fn pending_load(&self) -> Option<&SplitDwarfLoad<R>>
        ensures { option_map (λ l. l.now) result ≡ pending_load self.now.value }
    {
        match self.load.load() {
            Ok(load) => match &self.first {
                Some(_) => None,
                None => load,
            },
            Err(_) => None,
        }
    }

    /// Records an answer to the load. A unit that is decided stays as it is; no functions were kept
    /// of one that is not.
    pub fn record_answer(&mut self, answer: Result<Option<OwnedUnit<R>>, Error>)
        ensures value { self.new.value ≡ with_unit_answer answer self.old.value }
        ensures kept { self.new ≡ record self.old { value = self.new.value } }
        ensures functions { is_some (pending_load self.old.value) ≡ true
            → KeepsNoFunctions self.new }
    {
        if self.pending_load().is_some() {
            put_answer(&mut self.first, answer);
        } else {
            drop(answer);
        }
    }

    /// The unit that has the functions, with the file that it is in: the split unit that the first
    /// answer gave, or the unit itself, or the refusal of the load or the answer. Before the
    /// functions are read the unit may not be whole, and then this is out of memory.
    pub fn functions_unit(&self) -> Result<HoldingUnit<'_, R>, Error>
        ensures unit { ReturnsOrNoMemory result
            (unit_of_functions (main_unit self.now.value) (first_answer self.now.value)) }
        ensures kept { self.now.keeps_functions ≡ true → Returns result
            (unit_of_functions (main_unit self.now.value) (first_answer self.now.value)) }
    {
        let Some(main) = self.main.whole() else {
            return Err(Error::Memory);
        };
        match self.load.load() {
            Ok(load) => unit_decided(main, load, &self.first),
            Err(error) => Err(error),
        }
    }

    /// Whether what decides the unit is a refusal: of its load, or the first answer to it.
    pub fn check_decided(&self) -> Result<(), Error>
        ensures { Returns result (refusal_of (first_answer self.now.value)) }
    {
        match self.load.load() {
            Ok(load) => check_load(load, &self.first),
            Err(error) => Err(error),
        }
    }

    // ---- functions

    // The functions of the unit that has them.
    fn parse_functions(&self, alloc: Global) -> Result<Functions<R::Offset>, Error>
        ensures functions { ReturnsAsOrNoMemory (λ f. f.functions) result
            (functions_of self.now.value) }
        ensures counter { IfOk result (λ f. f.counter ≡ self.now.probes.name) }
    {
        let holder = self.functions_unit()?;
        functions_of_unit(alloc, &holder.unit, &self.probes)
    }

    /// Reads the functions of a unit whose load isn't pending, unless they are kept; of none of
    /// them the calls. A refusal is kept too: the only error is out of memory, after which they are
    /// read again.
    pub fn read_functions(&mut self, alloc: Global) -> Result<(), Error>
        requires { pending_load self.old.value ≡ None }
        ensures ok { OnOk result (self.new ≡ with_functions self.old) }
        ensures err { OnErr result (self.new ≡ self.old) }
        ensures refusal { IfErr result (λ e. e ≡ Memory) }
        ensures free { self.old.keeps_functions ≡ true → result ≡ Ok tt }
    {
        if self.functions.is_read() {
            return Ok(());
        }
        self.main.make_whole(alloc)?;
        let functions = self.parse_functions(alloc);
        self.functions.keep(alloc, functions)
    }

    /// The functions or the refusal of them, if they are kept. A function's number is its index
    /// among them.
    pub fn kept_functions(&self) -> Option<&Result<Functions<R::Offset>, Error>>
        ensures { option_map (λ r. plain_functions r.now) result
            ≡ if_kept self.now.keeps_functions (functions_of self.now.value) }
    {
        self.functions.functions()
    }

    /// The number of the function that an address is in, or the refusal of the functions, where
    /// they are kept. One bisection finds it, without memory.
    pub fn find_function(&mut self, probe: u64) -> Result<Option<usize>, Error>
        ensures unit { self.new ≡ with_probes self.old self.new.probes }
        ensures number { self.old.keeps_functions ≡ true
            → Returns result (number_in (functions_of self.old.value) probe) }
        ensures below { IfOk result (λ number. IfSome number (λ n. n < length self.new.calls)) }
        ensures cost { AtMostProbes (number_probes (functions_of self.old.value))
            self.old.probes self.new.probes }
    {
        self.functions.find(probe, &mut self.probes)
    }

    /// How many functions there are, where they are kept and not refused.
    pub fn function_count(&self) -> usize
        ensures calls { result ≡ length self.now.calls }
        ensures functions { self.now.keeps_functions ≡ true
            → result ≡ count_of_functions (functions_of self.now.value) }
    {
        self.functions.count()
    }

    // ---- calls

    /// The calls of the function of a number, read from the unit that has the functions. Nothing is
    /// kept, so that names may be looked for in all units of a context; `keep_calls` does.
    pub fn read_calls<N: Names<R>>(
        &self,
        alloc: Global,
        names: &N,
        function: usize,
    ) -> Result<FunctionCalls<R>, Error>
        requires { function < length self.now.calls }
        ensures calls { ReturnsAsOrNoMemory (λ c. c.function) result
            (calls_of_number self.now.value (N.naming names.now) function) }
        ensures counter { IfOk result (λ c. c.counter ≡ self.now.probes.name) }
    {
        let holder = self.functions_unit()?;
        match self.functions.offset(function) {
            Some(offset) => calls_of_function(alloc, &holder.unit, names, offset, &self.probes),
            None => Err(Error::NoSuchUnit),
        }
    }

    /// Keeps the calls of the function of a number, or the refusal of them, as `read_calls` gave
    /// them. Out of memory is returned, and nothing changes.
    pub fn keep_calls(
        &mut self,
        function: usize,
        read: Result<FunctionCalls<R>, Error>,
    ) -> Result<(), Error>
        requires number { function < length self.old.calls }
        requires counter { IfOk read (λ c. c.counter ≡ self.old.probes.name) }
        ensures ok { OnOk result (self.new ≡ with_calls self.old function (plain_calls read)) }
        ensures answer { OnOk result (read ≢ Err Memory) }
        ensures err { OnErr result (self.new ≡ self.old) }
        ensures refusal { IfErr result (λ e. e ≡ Memory) }
        ensures cause { OnErr result (read ≡ Err Memory) }
    {
        self.functions.keep_calls(function, read)
    }

    /// The calls of the function of a number, or the refusal of them, if they are kept.
    pub fn kept_calls(&self, function: usize) -> Option<&Result<FunctionCalls<R>, Error>>
        ensures { option_map (λ r. plain_calls r.now) result ≡ kept_at self.now.calls function }
    {
        self.functions.calls(function)
    }

    /// Finds the calls of a function that an address is in, and keeps their numbers, the outermost
    /// first, in place of those that were found last; none where the calls aren't kept. Their
    /// refusal is the error. One bisection finds each. It takes memory only where there are more of
    /// them than ever before.
    pub fn find_chain(&mut self, function: usize, probe: u64) -> Result<(), Error>
        ensures unit { self.new ≡ with_chain self.old self.new.probes self.new.chain }
        ensures chain { FindsChain (λ done. self.new.chain) (kept_at self.old.calls function)
            probe result }
        ensures cost { AtMostProbes (kept_chain_probes (kept_at self.old.calls function) probe)
            self.old.probes self.new.probes }
    {
        self.functions
            .find_chain(function, probe, &mut self.probes, &mut self.chain)
    }

    /// The frames at a place in a function whose calls are kept, by the numbers of the calls that
    /// `find_chain` gave; without a function that of the place. Nothing is searched, and no memory
    /// is taken. Call sites are named by the files of these lines.
    pub fn frames<'ctx>(
        &'ctx self,
        lines: &'ctx LineIndex,
        place: Option<Location<'ctx>>,
        function: Option<usize>,
    ) -> Result<FrameIter<'ctx, R>, Error>
        ensures { ReturnsAs frames_left result
            (frames_by_numbers self.now.value.unit.language lines.now.lines.files
            (option_map location_value place.entry)
            (option_and_then (function_at_number (functions_of self.now.value) self.now.calls)
            function) self.now.chain) }
    {
        let chain = self.chain.as_slice();
        self.functions
            .frames(self.language, lines, place, function, chain)
    }
}

impl<R: Reader> HasUnit<R> for ResUnit<R> {
    ghost facts = { λ u. u.value.unit.facts };

    fn header(&self) -> &UnitHeader<R> {
        self.main.header()
    }

    fn unit(&self) -> Option<&Unit<R>> {
        let main = self.main.whole()?;
        Some(main.unit())
    }
}
