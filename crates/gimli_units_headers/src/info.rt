//! `.debug_info`: units, end to end (DWARF 5, 7.5.1).

ghost use Rattle.std.specs.Prelude.{◌≡◌, ◌≢◌, ◌≤◌, All, IfOk, IsTrue, length, Ok, Err};
ghost use Rattle.std.specs.Fn.{FnOnceReturnsAt};
ghost use Rattle.gimli_core_base.specs.View.{bytes_left};
ghost use Rattle.gimli_core_base.specs.Calls.{ReturnsOrNoMemory};
ghost use Rattle.gimli_core_base.specs.declared.error.Error.TheVariants.{Memory};
ghost use Rattle.gimli_core_readers.specs.Iterators.{ReadsOrEndsOrNoMemory, ComesNext};
ghost use Rattle.gimli_core_readers.specs.Tiling.{whole_section, Tile};
ghost use Rattle.gimli_units_headers.specs.UnitHeaders.{unit, next_unit, units_to_come, units_of, unit_at, length_including_self};

use crate::header::UnitHeader;
use crate::parts::{SectionParts, part_at};
use gimli_core_base::error::Error;
use gimli_core_base::{Endianity, SectionId};
use gimli_core_readers::{DebugInfoOffset, EndianSlice, Reader, Section};
use std::marker::Model;

/// `.debug_info`: the units of a file, each a header and entries.
#[derive(Debug, Drop)]
pub struct DebugInfo<R: Reader> {
    section: R,
}

impl<R: Reader> Model for DebugInfo<R> {
    ghost use Rattle.gimli_core_base.specs.View.{View};

    ghost Value = { View };

    ghost view = { λ s. R.view s.section };
}

impl<R: Reader> From<R> for DebugInfo<R> {
    ghost from_gives = { λ reader section. section ≡ R.view reader };

    fn from(section: R) -> Self {
        DebugInfo { section }
    }
}

impl<R: Reader> Section<R> for DebugInfo<R> {
    ghost use Rattle.gimli_core_base.specs.declared.common.SectionId.TheVariants.{DebugInfo};

    ghost section_id = { DebugInfo };

    ghost section_view = { λ s. s };

    fn id() -> SectionId {
        SectionId::DebugInfo
    }

    fn reader(&self) -> &R {
        &self.section
    }

    ghost from_reader = { λ _ _ same. same };
}

impl<'a, E: Endianity> DebugInfo<EndianSlice<'a, E>> {
    /// The section over borrowed bytes. The first byte's identifier is 0.
    pub fn new(section: &'a [u8], endian: E) -> Self
        ensures { result ≡ record { bytes = section.now; is_big = E.is_big endian; first = 0 } }
    {
        DebugInfo::from(EndianSlice::new(section, endian))
    }
}

impl<R: Reader> DebugInfo<R> {
    /// The section over what a function makes of its reader.
    pub fn borrow<'a, F, S>(&'a self, f: F) -> DebugInfo<S>
    where
        F: FnOnce(&'a R) -> S,
        S: Reader,
        requires { F.IsAlwaysCallable f }
        ensures { (reader : R) × (output : S) × (R.view reader ≡ self.now)
            × FnOnceReturnsAt F.FnOnce f reader output × (result ≡ S.view output) }
    {
        DebugInfo {
            section: f(&self.section),
        }
    }

    /// The units of the section, in order. Takes memory only where a copy of the reader does.
    pub fn units(&self) -> Result<DebugInfoUnitHeadersIter<R>, Error>
        ensures value { ReturnsOrNoMemory result (Ok (whole_section self.now)) }
        ensures free { IsTrue R.copies_freely → result ≢ Err Memory }
        // They lie end to end, from the section's start to its end or to one that can't be read.
        ensures tile { IfOk result (λ units. let all = units_to_come R.Offset.limit units in
            Tile (unit R.Offset.limit) (λ u. u.offset) length_including_self self.now 0 all.items
            all.ending) }
        ensures few { IfOk result
            (λ units. length (units_to_come R.Offset.limit units).items ≤ bytes_left self.now) }
    {
        Ok(DebugInfoUnitHeadersIter {
            parts: SectionParts::new(&self.section)?,
        })
    }

    /// The unit at an offset of the section. Takes memory only where a copy of the reader does.
    pub fn header_from_offset(
        &self,
        offset: DebugInfoOffset<R::Offset>,
    ) -> Result<UnitHeader<R>, Error>
        ensures value { ReturnsOrNoMemory result
            (unit_at R.Offset.limit (R.Offset.count offset.0) self.now) }
        ensures free { IsTrue R.copies_freely → result ≢ Err Memory }
        // Where `units` gives a unit at this offset it is the same one.
        ensures again { All
            (λ u. u.offset ≡ R.Offset.count offset.0 → ReturnsOrNoMemory result (Ok u))
            (units_of R.Offset.limit self.now) }
    {
        part_at(&self.section, offset.0)
    }
}

/// The units of `.debug_info`, from one of them on.
#[derive(Debug, Drop)]
pub struct DebugInfoUnitHeadersIter<R: Reader> {
    parts: SectionParts<R, UnitHeader<R>>,
}

impl<R: Reader> Model for DebugInfoUnitHeadersIter<R> {
    ghost use Rattle.gimli_core_readers.specs.Tiling.{RemainingSection};

    ghost Value = { RemainingSection };

    ghost view = { λ s. s.parts };
}

impl<R: Reader> DebugInfoUnitHeadersIter<R> {
    /// The next unit, none at the section's end. After a unit that can't be read there are no more.
    /// Takes memory only where a copy of the reader does, and changes nothing when out of memory.
    pub fn next(&mut self) -> Result<Option<UnitHeader<R>>, Error>
        ensures value { ReadsOrEndsOrNoMemory result self.old.rest self.new.rest
            (next_unit R.Offset.limit self.old) }
        ensures free { IsTrue R.copies_freely → result ≢ Err Memory }
        ensures section { self.new.section_length ≡ self.old.section_length }
        ensures order { ComesNext result (units_to_come R.Offset.limit self.old)
            (units_to_come R.Offset.limit self.new) }
    {
        self.parts.next()
    }
}
