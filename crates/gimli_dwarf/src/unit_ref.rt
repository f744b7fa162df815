//! A unit with the sections of its file.

ghost use Rattle.std.specs.Prelude.{◌≡◌, ◌≢◌, IsTrue, option_map, Err};
ghost use Rattle.gimli_dwarf_spec.specs.EntryViews.{entry_of};
ghost use Rattle.gimli_dwarf_spec.specs.UnitFacts.{in_file, root};
ghost use Rattle.gimli_dwarf_spec.specs.Calls.{ReturnsAs, Returns, ReturnsAsOrNoMemory, ReturnsOrNoMemory};
ghost use Rattle.gimli_dwarf_spec.specs.Error.TheVariants.{Memory};
ghost use Rattle.gimli_dwarf_spec.specs.AttributeValues.{raw_value_of};
ghost use Rattle.gimli_dwarf_spec.specs.UnitEntries.{walk_from};
ghost use Rattle.gimli_dwarf_spec.specs.Attributes.{attr_string, indexed_address, attr_ranges_offset, ranges};

use crate::dwarf::Dwarf;
use crate::unit::Unit;
use gimli_dwarf_spec::{
    AttributeValue, DebugAddrIndex, DebuggingInformationEntry, EntriesRaw, Error, RangeListsOffset,
    Reader, RngListIter, UnitOffset, entries_raw,
};
use std::alloc::Global;
use std::marker::Model;

/// A unit and the sections of its file. Each call is the sections' call for that unit.
#[derive(Drop)]
pub struct UnitRef<'a, R: Reader> {
    pub dwarf: &'a Dwarf<R>,
    pub unit: &'a Unit<R>,
}

impl<'a, R: Reader> Model for UnitRef<'a, R> {
    ghost use Rattle.std.specs.Prelude.{◌≡◌};
    ghost use Rattle.gimli_dwarf_spec.specs.UnitFacts.{UnitInFile};

    ghost Value = { UnitInFile };

    ghost view = { λ u. record { file = u.dwarf.now.file; facts = u.unit.now } };

    ghost invariant = { λ u. u.dwarf.now.file.offset_limit ≡ R.Offset.limit };
}

impl<'a, R: Reader> UnitRef<'a, R> {
    /// A unit beside the sections that it is read from.
    pub fn new(dwarf: &'a Dwarf<R>, unit: &'a Unit<R>) -> Self
        ensures { result ≡ in_file dwarf.now.file unit.now }
    {
        // (shows the prover what the model says of a file's offsets)
        let _ = &dwarf.file_type;
        UnitRef { dwarf, unit }
    }

    /// The unit's root: its first entry, with its attributes. Refused is one that is missing, null
    /// or can't be read.
    pub fn root(&self, alloc: Global) -> Result<DebuggingInformationEntry<R>, Error>
        ensures { ReturnsAsOrNoMemory (entry_of R.view R.Offset.count) result
            (root self.now.file.offset_limit self.now.facts.header self.now.facts.table) }
    {
        self.unit.root(alloc)
    }

    /// The address that an index stands for (DWARF 5, 7.27). Takes no memory.
    pub fn address(&self, index: DebugAddrIndex<R::Offset>) -> Result<u64, Error>
        ensures { Returns result
            (indexed_address self.now.file self.now.facts.bases (R.Offset.count index.0)) }
    {
        self.dwarf.address(self.unit, index)
    }

    /// The text that a value of one of the unit's attributes stands for. Takes memory only where a
    /// copy of the reader does.
    pub fn attr_string(&self, attr: AttributeValue<R>) -> Result<R, Error>
        ensures value { ReturnsAsOrNoMemory R.view result
            (attr_string self.now.file self.now.facts.bases
            (raw_value_of R.view R.Offset.count attr)) }
        ensures free { IsTrue R.copies_freely
            → ReturnsAs R.view result (attr_string self.now.file self.now.facts.bases
            (raw_value_of R.view R.Offset.count attr)) }
    {
        self.dwarf.attr_string(self.unit, attr)
    }

    /// The ranges of the list at an offset. Takes memory only where copies of readers do.
    pub fn ranges(&self, offset: RangeListsOffset<R::Offset>) -> Result<RngListIter<R>, Error>
        ensures value { ReturnsOrNoMemory result
            (ranges self.now.file self.now.facts.bases (R.Offset.count offset.0)) }
        ensures free { IsTrue R.copies_freely → result ≢ Err Memory }
        // Offsets in the list are the file's.
        ensures limit { self.now.file.offset_limit ≡ R.Offset.limit }
    {
        self.dwarf.ranges(self.unit, offset)
    }

    /// The offset of the range list that a value of an attribute stands for, if it stands for one.
    /// Takes no memory.
    pub fn attr_ranges_offset(
        &self,
        attr: AttributeValue<R>,
    ) -> Result<Option<RangeListsOffset<R::Offset>>, Error>
        ensures { ReturnsAs (option_map (λ o. R.Offset.count o.0)) result
            (attr_ranges_offset self.now.file self.now.facts.bases
            (raw_value_of R.view R.Offset.count attr)) }
    {
        self.dwarf.attr_ranges_offset(self.unit, attr)
    }

    /// The walk over the unit's entries from an offset on, which must be among them, or over all of
    /// them. Takes memory only where a copy of the reader does.
    pub fn entries_raw(
        &self,
        offset: Option<UnitOffset<R::Offset>>,
    ) -> Result<EntriesRaw<'a, R>, Error>
        ensures value { ReturnsOrNoMemory result
            (walk_from self.now.facts.header self.now.facts.table
            (option_map (λ o. R.Offset.count o.0) offset)) }
        ensures free { IsTrue R.copies_freely → result ≢ Err Memory }
        // Offsets in the walk are the file's.
        ensures limit { self.now.file.offset_limit ≡ R.Offset.limit }
    {
        let unit = self.unit;
        entries_raw(&unit.header, &unit.abbreviations, offset)
    }
}
