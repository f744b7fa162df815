//! The ranges that a unit covers (DWARF 5, 2.17 and 3.1.1).

ghost use Rattle.std.specs.Prelude.{◌≡◌, Ok, OnOk, IfOk};
ghost use Rattle.addr2line_ranges.specs.Calls.{ReturnsAsOrNoMemory, ReturnsOrNoMemory};
ghost use Rattle.addr2line_ranges.specs.EntryViews.{raw_attributes};
ghost use Rattle.addr2line_ranges.specs.UnitRanges.{or_else, ranges_of_lines, ranges_of_attributes};
ghost use Rattle.addr2line_ranges.specs.UnitLines.{lines_of_unit};
ghost use Rattle.addr2line_ranges.specs.ArangeIndexes.{IsIndexOf};
ghost use Rattle.addr2line_ranges.specs.LastLists.{IsLastOf};
ghost use Rattle.addr2line_root.specs.CountedRuns.{after_run};
ghost use Rattle.addr2line_root.specs.LastPrograms.{HasHeaderInFile, IsLastProgramOf, IsLastProgramFor};
ghost use Rattle.addr2line_root.specs.LastRanges.{AreLastOf, AreLastFor, maker_of, counter_of};
ghost use Rattle.addr2line_root.specs.RootRanges.{ranges_by_run, ranges_declared, RunsForRanges};

use crate::counted_unit::CountedUnit;
use crate::last_program::{LastProgram, ProgramRun};
use crate::last_ranges::LastRanges;
use crate::main_unit::MainUnit;
use crate::unit_lines::{LinesWithRanges, UnitLines};
use addr2line_ranges::{
    ArangeIndex, Attribute, Error, LastList, Probes, Range, Reader, declared_ranges, facts_of,
    share,
};
use std::alloc::Global;
use std::marker::Model;
use std::rc::Rc;

/// The ranges of a unit, and its lines, or why they can't be read, where its line number program
/// was run for the ranges, for this unit or for one before it whose lines are the same.
#[derive(Drop)]
pub struct RootRanges {
    pub ranges: Rc<Vec<Range>>,
    pub lines: Option<Result<UnitLines, Error>>,
}

impl Model for RootRanges {
    ghost use Rattle.addr2line_root.specs.RootRanges.{RootRanges as Found};

    ghost Value = { Found };

    ghost view = { λ r. record { ranges = r.ranges.value.items; lines = r.lines } };
}

// The ranges of a unit's lines, with the lines. Its program is the last one then.
fn ranges_by_run<R: Reader>(
    alloc: Global,
    unit: &mut CountedUnit<R>,
    last: &mut LastProgram<R>,
    probes: &Probes,
) -> Result<RootRanges, Error>
    requires counter { probes.now.name ≡ last.old.counters.name }
    requires last { IsLastProgramOf unit.old.unit.file last.old }
    ensures value { ReturnsOrNoMemory result (Ok (ranges_by_run probes.now.name unit.old.unit)) }
    ensures counted { OnOk result (unit.new ≡ after_run unit.old) }
    ensures last { HasHeaderInFile unit.old.unit → IsLastProgramOf unit.old.unit.file last.new }
    ensures counters { last.new.counters ≡ last.old.counters }
{
    let indexed = UnitLines::run_for_ranges(alloc, unit, probes)?;
    let LinesWithRanges { ranges, lines } = indexed;
    let ranges = Rc::new(alloc, ranges)?;
    last.keep(ProgramRun::new(&unit.unit_ref(), &ranges, &lines)?);
    Ok(RootRanges {
        ranges,
        lines: Some(lines),
    })
}

// The ranges of a unit's lines, and the lines where its program was run for them. It isn't run if
// the last one depends on the same.
fn ranges_by_program<R: Reader>(
    alloc: Global,
    unit: &mut CountedUnit<R>,
    last: &mut LastProgram<R>,
    probes: &Probes,
) -> Result<RootRanges, Error>
    requires counter { probes.now.name ≡ last.old.counters.name }
    requires last { IsLastProgramFor unit.old.unit last.old }
    ensures ranges { ReturnsAsOrNoMemory (λ r. r.ranges) result
        (Ok (ranges_of_lines (lines_of_unit unit.old.unit))) }
    ensures lines { IfOk result
        (λ r. RunsForRanges probes.now.name r.ranges r.lines unit.old unit.new) }
    ensures last { HasHeaderInFile unit.old.unit → IsLastProgramOf unit.old.unit.file last.new }
    ensures counters { last.new.counters ≡ last.old.counters }
{
    if let Some(run) = last.run_for(&unit.unit_ref()) {
        return Ok(RootRanges {
            ranges: share(run.ranges())?,
            lines: run.lines_for(unit)?,
        });
    }
    ranges_by_run(alloc, unit, last, probes)
}

// Those that are declared, or else those of the unit's lines, for which it is made whole.
fn or_by_program<R: Reader>(
    alloc: Global,
    unit: &mut MainUnit<R>,
    last: &mut LastProgram<R>,
    probes: &Probes,
    declared: Rc<Vec<Range>>,
) -> Result<RootRanges, Error>
    requires counter { probes.now.name ≡ last.old.counters.name }
    requires last { IsLastProgramFor unit.old.counted.unit last.old }
    ensures ranges { ReturnsAsOrNoMemory (λ r. r.ranges) result
        (Ok (or_else declared.value.items
        (ranges_of_lines (lines_of_unit unit.old.counted.unit)))) }
    ensures lines { IfOk result
        (λ r. RunsForRanges probes.now.name r.ranges r.lines unit.old.counted unit.new.counted) }
    ensures last { HasHeaderInFile unit.old.counted.unit
        → IsLastProgramOf unit.old.counted.unit.file last.new }
    ensures counters { last.new.counters ≡ last.old.counters }
{
    if declared.as_ref().is_empty() {
        unit.make_whole(alloc)?;
        return ranges_by_program(alloc, &mut unit.counted, last, probes);
    }
    Ok(RootRanges {
        ranges: declared,
        lines: None,
    })
}

// The ranges that a unit's root declares by these attributes. Those of a bare unit are those of the
// whole one.
fn ranges_declared<R: Reader>(
    alloc: Global,
    unit: &MainUnit<R>,
    aranges: &ArangeIndex,
    last: &mut LastList,
    attributes: &[Attribute<R>],
) -> Result<Rc<Vec<Range>>, Error>
    requires index { IsIndexOf unit.now.counted.unit.file aranges.now }
    requires last { IsLastOf unit.now.counted.unit.file last.old }
    ensures ranges { ReturnsAsOrNoMemory (λ r. r.value.items) result
        (ranges_declared unit.now.counted.unit
        (raw_attributes R.view R.Offset.count attributes.now)) }
    ensures last { IsLastOf unit.now.counted.unit.file last.new }
{
    let kept = unit.counted.unit_ref();
    let facts = facts_of(&kept, attributes)?;
    declared_ranges(alloc, &kept, aranges, last, &facts)
}

/// The ranges of a unit whose root has these attributes: those that it declares, or else those of
/// its lines, for which it is made whole, and its line number program is run. Declared they are by
/// its range list, or else by `.debug_aranges`, or else by low_pc and high_pc. Refused is an
/// attribute whose address or list can't be read, the first of them, and then a range list. A list
/// or a program that is the last one of the file isn't read or run again. The counter counts looks
/// at the lines; no other one is made.
pub fn ranges_of_attributes<R: Reader>(
    alloc: Global,
    unit: &mut MainUnit<R>,
    aranges: &ArangeIndex,
    last: &mut LastRanges<R>,
    probes: &Probes,
    attributes: &[Attribute<R>],
) -> Result<RootRanges, Error>
    requires index { IsIndexOf unit.old.counted.unit.file aranges.now }
    requires last { AreLastFor unit.old.counted.unit last.old }
    requires counter { probes.now.name ≡ counter_of last.old }
    ensures ranges { ReturnsAsOrNoMemory (λ r. r.ranges) result
        (ranges_of_attributes unit.old.counted.unit (lines_of_unit unit.old.counted.unit)
        (raw_attributes R.view R.Offset.count attributes.now)) }
    ensures lines { IfOk result
        (λ r. RunsForRanges probes.now.name r.ranges r.lines unit.old.counted unit.new.counted) }
    ensures last { HasHeaderInFile unit.old.counted.unit
        → AreLastOf unit.old.counted.unit.file last.new }
    ensures counters { maker_of last.new ≡ maker_of last.old }
{
    let declared = ranges_declared(alloc, unit, aranges, &mut last.list, attributes)?;
    or_by_program(alloc, unit, &mut last.program, probes, declared)
}
