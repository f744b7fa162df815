//! `.debug_aranges`: sets of address ranges, end to end (DWARF 5, 6.1.2).

ghost use Rattle.std.specs.Prelude.{◌≡◌, ◌≢◌, ◌≤◌, All, IfOk, IsTrue, length, Ok, Err};
ghost use Rattle.std.specs.Fn.{FnOnceReturnsAt};
ghost use Rattle.gimli_core_base.specs.View.{bytes_left};
ghost use Rattle.gimli_core_base.specs.Calls.{ReturnsOrNoMemory};
ghost use Rattle.gimli_core_base.specs.declared.error.Error.TheVariants.{Memory};
ghost use Rattle.gimli_core_readers.specs.Iterators.{ReadsOrEndsOrNoMemory, ComesNext};
ghost use Rattle.gimli_core_readers.specs.Tiling.{whole_section, Tile};
ghost use Rattle.gimli_units_headers.specs.ArangeSets.{arange_set, next_set, sets_to_come, sets_of, arange_set_at, set_size};

use crate::arange_set::ArangeHeader;
use crate::parts::{SectionParts, part_at};
use gimli_core_base::error::Error;
use gimli_core_base::{DebugArangesOffset, Endianity, SectionId};
use gimli_core_readers::{EndianSlice, Reader, Section};
use std::marker::Model;

/// `.debug_aranges`: which addresses belong to which unit, in a set for each unit.
#[derive(Debug, Drop)]
pub struct DebugAranges<R: Reader> {
    section: R,
}

impl<R: Reader> Model for DebugAranges<R> {
    ghost use Rattle.gimli_core_base.specs.View.{View};

    ghost Value = { View };

    ghost view = { λ s. R.view s.section };
}

impl<R: Reader> From<R> for DebugAranges<R> {
    ghost from_gives = { λ reader section. section ≡ R.view reader };

    fn from(section: R) -> Self {
        DebugAranges { section }
    }
}

impl<R: Reader> Section<R> for DebugAranges<R> {
    ghost use Rattle.gimli_core_base.specs.declared.common.SectionId.TheVariants.{DebugAranges};

    ghost section_id = { DebugAranges };

    ghost section_view = { λ s. s };

    fn id() -> SectionId {
        SectionId::DebugAranges
    }

    fn reader(&self) -> &R {
        &self.section
    }

    ghost from_reader = { λ _ _ same. same };
}

impl<'a, E: Endianity> DebugAranges<EndianSlice<'a, E>> {
    /// The section over borrowed bytes. The first byte's identifier is 0.
    pub fn new(section: &'a [u8], endian: E) -> Self
        ensures { result ≡ record { bytes = section.now; is_big = E.is_big endian; first = 0 } }
    {
        DebugAranges::from(EndianSlice::new(section, endian))
    }
}

impl<R: Reader> DebugAranges<R> {
    /// The section over what a function makes of its reader.
    pub fn borrow<'a, F, S>(&'a self, f: F) -> DebugAranges<S>
    where
        F: FnOnce(&'a R) -> S,
        S: Reader,
        requires { F.IsAlwaysCallable f }
        ensures { (reader : R) × (output : S) × (R.view reader ≡ self.now)
            × FnOnceReturnsAt F.FnOnce f reader output × (result ≡ S.view output) }
    {
        DebugAranges {
            section: f(&self.section),
        }
    }

    /// The sets of the section, in order. Takes memory only where a copy of the reader does.
    pub fn headers(&self) -> Result<ArangeHeaderIter<R>, Error>
        ensures value { ReturnsOrNoMemory result (Ok (whole_section self.now)) }
        ensures free { IsTrue R.copies_freely → result ≢ Err Memory }
        // They lie end to end, from the section's start to its end or to one that can't be read.
        ensures tile { IfOk result (λ sets. let all = sets_to_come R.Offset.limit sets in
            Tile (arange_set R.Offset.limit) (λ s. s.offset) set_size self.now 0 all.items
            all.ending) }
        ensures few { IfOk result
            (λ sets. length (sets_to_come R.Offset.limit sets).items ≤ bytes_left self.now) }
    {
        Ok(ArangeHeaderIter {
            parts: SectionParts::new(&self.section)?,
        })
    }

    /// The set at an offset of the section. Takes memory only where a copy of the reader does.
    pub fn header(&self, offset: DebugArangesOffset<R::Offset>) -> Result<ArangeHeader<R>, Error>
        ensures value { ReturnsOrNoMemory result
            (arange_set_at R.Offset.limit (R.Offset.count offset.0) self.now) }
        ensures free { IsTrue R.copies_freely → result ≢ Err Memory }
        // Where `headers` gives a set at this offset it is the same one.
        ensures again { All
            (λ s. s.offset ≡ R.Offset.count offset.0 → ReturnsOrNoMemory result (Ok s))
            (sets_of R.Offset.limit self.now) }
    {
        part_at(&self.section, offset.0)
    }
}

/// The sets of `.debug_aranges`, from one of them on.
#[derive(Debug, Drop)]
pub struct ArangeHeaderIter<R: Reader> {
    parts: SectionParts<R, ArangeHeader<R>>,
}

impl<R: Reader> Model for ArangeHeaderIter<R> {
    ghost use Rattle.gimli_core_readers.specs.Tiling.{RemainingSection};

    ghost Value = { RemainingSection };

    ghost view = { λ s. s.parts };
}

impl<R: Reader> ArangeHeaderIter<R> {
    /// The next set, none at the section's end. After a set that can't be read there are no more.
    /// Takes memory only where a copy of the reader does, and changes nothing when out of memory.
    pub fn next(&mut self) -> Result<Option<ArangeHeader<R>>, Error>
        ensures value { ReadsOrEndsOrNoMemory result self.old.rest self.new.rest
            (next_set R.Offset.limit self.old) }
        ensures free { IsTrue R.copies_freely → result ≢ Err Memory }
        ensures section { self.new.section_length ≡ self.old.section_length }
        ensures order { ComesNext result (sets_to_come R.Offset.limit self.old)
            (sets_to_come R.Offset.limit self.new) }
    {
        self.parts.next()
    }
}
