//! What a unit's root says of lookups (DWARF 5, 3.1.1).

ghost use Rattle.std.specs.Prelude.{◌≡◌, IfOk};
ghost use Rattle.addr2line_ranges.specs.Calls.{ReturnsAsOrNoMemory};
ghost use Rattle.addr2line_ranges.specs.EntryViews.{entry_of, raw_attributes};
ghost use Rattle.addr2line_ranges.specs.UnitLines.{lines_of_unit};
ghost use Rattle.addr2line_ranges.specs.Contexts.{unit_of_root, unit_of_entry};
ghost use Rattle.addr2line_ranges.specs.ArangeIndexes.{IsIndexOf};
ghost use Rattle.addr2line_root.specs.LastPrograms.{HasHeaderInFile};
ghost use Rattle.addr2line_root.specs.LastRanges.{AreLastOf, AreLastFor, maker_of, counter_of};
ghost use Rattle.addr2line_root.specs.RootRanges.{RunsForRanges, unit_with};

use crate::language::language_of;
use crate::last_ranges::LastRanges;
use crate::main_unit::MainUnit;
use crate::partial::is_partial;
use crate::ranges::{RootRanges, ranges_of_attributes};
use crate::unit_lines::UnitLines;
use addr2line_ranges::{
    ArangeIndex, Attribute, DebuggingInformationEntry, DwLang, Error, Probes, Range, Reader,
};
use std::alloc::Global;
use std::marker::Model;
use std::rc::Rc;

/// The ranges and the language that the root of a unit says, and the unit's lines, or why they
/// can't be read, where its line number program was run for the ranges, for this unit or for one
/// before it whose lines are the same.
#[derive(Drop)]
pub struct UnitRoot {
    pub ranges: Rc<Vec<Range>>,
    pub language: Option<DwLang>,
    pub lines: Option<Result<UnitLines, Error>>,
}

impl Model for UnitRoot {
    ghost use Rattle.std.specs.Prelude.{option_map};
    ghost use Rattle.addr2line_root.specs.RootRanges.{RootFacts};

    ghost Value = { RootFacts };

    ghost view = { λ r. record {
      ranges = r.ranges.value.items;
      language = option_map (λ l. l.0) r.language;
      lines = r.lines;
    } };
}

impl UnitRoot {
    /// What the root of a unit says; nothing of a unit that others import. The unit is made whole,
    /// and its line number program run, only where the root declares no ranges. Refused is an
    /// attribute of the root, or else its range list. A list or a program that is the last one of
    /// the file isn't read or run again. The counter counts looks at the lines; no other one is
    /// made.
    pub fn read<R: Reader>(
        alloc: Global,
        unit: &mut MainUnit<R>,
        root: &DebuggingInformationEntry<R>,
        aranges: &ArangeIndex,
        last: &mut LastRanges<R>,
        probes: &Probes,
    ) -> Result<Self, Error>
        requires index { IsIndexOf unit.old.counted.unit.file aranges.now }
        requires last { AreLastFor unit.old.counted.unit last.old }
        requires counter { probes.now.name ≡ counter_of last.old }
        ensures unit { ReturnsAsOrNoMemory (unit_with unit.old.counted.unit) result
            (unit_of_entry unit.old.counted.unit (lines_of_unit unit.old.counted.unit)
            (entry_of R.view R.Offset.count root.now)) }
        ensures lines { IfOk result
            (λ r. RunsForRanges probes.now.name r.ranges r.lines
            unit.old.counted unit.new.counted) }
        ensures last { HasHeaderInFile unit.old.counted.unit
            → AreLastOf unit.old.counted.unit.file last.new }
        ensures counters { maker_of last.new ≡ maker_of last.old }
    {
        if is_partial(unit.header(), root) {
            return Ok(UnitRoot {
                ranges: Rc::new(alloc, Vec::new(alloc))?,
                language: None,
                lines: None,
            });
        }
        UnitRoot::of_root(alloc, unit, aranges, last, probes, root.attrs())
    }

    // What the attributes of a root say.
    fn of_root<R: Reader>(
        alloc: Global,
        unit: &mut MainUnit<R>,
        aranges: &ArangeIndex,
        last: &mut LastRanges<R>,
        probes: &Probes,
        attributes: &[Attribute<R>],
    ) -> Result<Self, Error>
        requires index { IsIndexOf unit.old.counted.unit.file aranges.now }
        requires last { AreLastFor unit.old.counted.unit last.old }
        requires counter { probes.now.name ≡ counter_of last.old }
        ensures unit { ReturnsAsOrNoMemory (unit_with unit.old.counted.unit) result
            (unit_of_root unit.old.counted.unit (lines_of_unit unit.old.counted.unit)
            (raw_attributes R.view R.Offset.count attributes.now)) }
        ensures lines { IfOk result
            (λ r. RunsForRanges probes.now.name r.ranges r.lines
            unit.old.counted unit.new.counted) }
        ensures last { HasHeaderInFile unit.old.counted.unit
            → AreLastOf unit.old.counted.unit.file last.new }
        ensures counters { maker_of last.new ≡ maker_of last.old }
    {
        let found = ranges_of_attributes(alloc, unit, aranges, last, probes, attributes)?;
        let language = language_of(attributes)?;
        let RootRanges { ranges, lines } = found;
        Ok(UnitRoot {
            ranges,
            language,
            lines,
        })
    }
}
