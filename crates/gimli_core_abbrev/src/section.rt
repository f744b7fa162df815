//! The section that holds abbreviation tables.

ghost use Rattle.std.specs.Prelude.{◌≡◌, IfOk, IfErr, IfSome};
ghost use Rattle.std.specs.Fn.{FnOnceReturnsAt};
ghost use Rattle.gimli_core_readers.specs.Calls.{Returns, ReturnsAs, ReturnsOrNoMemory, ReturnsAsOrNoMemory};
ghost use Rattle.gimli_core_readers.specs.Error.TheVariants.{Memory};
ghost use Rattle.gimli_core_readers.specs.Parsers.{skip};
ghost use Rattle.gimli_core_readers.specs.Results.{refusal_of};
ghost use Rattle.gimli_core_abbrev.specs.TableParsing.{table_at};
ghost use Rattle.gimli_core_abbrev.specs.CheckedTables.{IsDeclarationAt};
ghost use Rattle.gimli_core_abbrev.specs.TableLaws.{declarations_at};
ghost use Rattle.gimli_core_abbrev.specs.TableChecks.{find_declaration, FindsNone, IsInOrder};

use crate::checks;
use crate::owned::OwnedAbbreviation;
use crate::table::{self, Abbreviations};
use gimli_core_readers::{
    DebugAbbrevOffset, EndianSlice, Endianity, Error, Reader, ReaderOffset, Section, SectionId,
    borrowed,
};
use std::alloc::Global;
use std::marker::Model;

/// `.debug_abbrev`: the abbreviation tables that units share (DWARF 5, 7.5.3).
#[derive(Debug, Drop)]
pub struct DebugAbbrev<R: Reader> {
    section: R,
}

impl<R: Reader> Model for DebugAbbrev<R> {
    ghost use Rattle.gimli_core_readers.specs.View.{View};

    ghost Value = { View };

    ghost view = { λ s. R.view s.section };
}

impl<R: Reader> From<R> for DebugAbbrev<R> {
    ghost from_gives = { λ reader section. section ≡ R.view reader };

    fn from(section: R) -> Self {
        DebugAbbrev { section }
    }
}

impl<R: Reader> Section<R> for DebugAbbrev<R> {
    ghost use Rattle.gimli_core_readers.specs.SectionId.TheVariants.{DebugAbbrev};

    ghost section_id = { DebugAbbrev };

    ghost section_view = { λ s. s };

    fn id() -> SectionId {
        SectionId::DebugAbbrev
    }

    fn reader(&self) -> &R {
        &self.section
    }

    ghost from_reader = { λ _ _ same. same };
}

impl<'a, E: Endianity> DebugAbbrev<EndianSlice<'a, E>> {
    /// The section with these bytes. The first has the identifier 0.
    pub fn new(section: &'a [u8], endian: E) -> Self
        ensures { result ≡ record { bytes = section.now; is_big = E.is_big endian; first = 0 } }
    {
        DebugAbbrev::from(EndianSlice::new(section, endian))
    }
}

impl<R: Reader> DebugAbbrev<R> {
    /// The same section with another reader, which a function makes of the section's own.
    pub fn borrow<'a, F, S>(&'a self, f: F) -> DebugAbbrev<S>
    where
        F: FnOnce(&'a R) -> S,
        S: Reader,
        requires { F.IsAlwaysCallable f }
        ensures { (reader : R) × (output : S) × (R.view reader ≡ self.now)
            × FnOnceReturnsAt F.FnOnce f reader output × (result ≡ S.view output) }
    {
        DebugAbbrev {
            section: f(&self.section),
        }
    }

    /// The table that begins at an offset.
    pub fn abbreviations(
        &self,
        alloc: Global,
        offset: DebugAbbrevOffset<R::Offset>,
    ) -> Result<Abbreviations, Error>
        ensures { ReturnsOrNoMemory result (table_at (R.Offset.count offset.0) self.now) }
    {
        let mut place = self.place_at(offset)?;
        table::parse(alloc, &mut place)
    }

    /// Checks that the table at an offset can be read: refused exactly where reading it would be.
    /// The table is read once, and none of it is kept. Takes no memory where the codes are 1, 2, ..
    /// in order, as in nearly all tables; else that of the table, for a time.
    pub fn check_abbreviations(
        &self,
        alloc: Global,
        offset: DebugAbbrevOffset<R::Offset>,
    ) -> Result<(), Error>
        ensures value { ReturnsOrNoMemory result
            (refusal_of (table_at (R.Offset.count offset.0) self.now)) }
        // Where the codes are in order, this takes no memory.
        ensures free { IsInOrder (declarations_at (R.Offset.count offset.0) self.now)
            → Returns result (refusal_of (table_at (R.Offset.count offset.0) self.now)) }
    {
        let place = self.place_at(offset)?;
        checks::check(alloc, &place)
    }

    /// The declaration of one code in the table at an offset: refused exactly where reading the
    /// table would be. The whole table is checked on the way, and nothing else of it is kept. Where
    /// the codes are 1, 2, .. in order, the table is read once, and only the declaration's
    /// attributes take memory; else the table takes its own too, for a time.
    pub fn find_abbreviation(
        &self,
        alloc: Global,
        offset: DebugAbbrevOffset<R::Offset>,
        code: u64,
    ) -> Result<Option<OwnedAbbreviation>, Error>
        ensures value { ReturnsOrNoMemory result
            (find_declaration code (table_at (R.Offset.count offset.0) self.now)) }
        // Where the codes are in order and the table hasn't this one, this takes no memory.
        ensures free { IsInOrder (declarations_at (R.Offset.count offset.0) self.now)
            → FindsNone (find_declaration code (table_at (R.Offset.count offset.0) self.now))
            → Returns result
            (find_declaration code (table_at (R.Offset.count offset.0) self.now)) }
    {
        let place = self.place_at(offset)?;
        checks::find(alloc, &place, code)
    }

    // The declaration of a code in the table at an offset, where that can be read, its codes are
    // 1, 2, .., and it ends where at least `left` bytes of the section are left.
    pub(crate) fn find_alone(
        &self,
        alloc: Global,
        offset: DebugAbbrevOffset<R::Offset>,
        code: u64,
        left: u64,
    ) -> Result<Option<OwnedAbbreviation>, Error>
        ensures ok { IfOk result (λ found. IfSome found
            (IsDeclarationAt self.now (R.Offset.count offset.0))) }
        ensures err { IfErr result (λ e. e ≡ Memory) }
    {
        match self.place_at(offset) {
            Ok(place) => checks::find_alone(alloc, &place, code, left),
            Err(_) => Ok(None),
        }
    }

    // The bytes from an offset on, borrowed.
    fn place_at(
        &self,
        offset: DebugAbbrevOffset<R::Offset>,
    ) -> Result<EndianSlice<'_, R::Endian>, Error>
        ensures { ReturnsAs (λ place. (tt, place)) result
            (skip (R.Offset.count offset.0) self.now) }
    {
        let mut place = borrowed(&self.section);
        let offset = offset.0.into_u64();
        if (place.slice().len() as u64) < offset {
            return Err(Error::UnexpectedEof(place.offset_id()));
        }
        place.advance(offset as usize);
        Ok(place)
    }

    // The bytes from an offset on.
    pub(crate) fn input_at(&self, offset: DebugAbbrevOffset<R::Offset>) -> Result<R, Error>
        ensures { ReturnsAsOrNoMemory (λ input. (tt, R.view input)) result
            (skip (R.Offset.count offset.0) self.now) }
    {
        let mut input = self.section.copy()?;
        input.skip(offset.0)?;
        Ok(input)
    }
}
