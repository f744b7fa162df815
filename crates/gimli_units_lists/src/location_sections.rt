ghost use Rattle.std.specs.Prelude.{◌≡◌};
ghost use Rattle.std.specs.Fn.{FnOnceReturnsAt};

use gimli_core_readers::{EndianSlice, Endianity, Reader, Section, SectionId};
use std::marker::Model;

/// `.debug_loc`: the location lists of units up to version 4 (DWARF 4, 2.6.2).
#[derive(Debug, Drop)]
pub struct DebugLoc<R: Reader> {
    section: R,
}

impl<R: Reader> Model for DebugLoc<R> {
    ghost use Rattle.gimli_core_readers.specs.View.{View};

    ghost Value = { View };

    ghost view = { λ s. R.view s.section };
}

impl<R: Reader> From<R> for DebugLoc<R> {
    ghost from_gives = { λ reader section. section ≡ R.view reader };

    fn from(section: R) -> Self {
        DebugLoc { section }
    }
}

impl<R: Reader> Section<R> for DebugLoc<R> {
    ghost use Rattle.gimli_core_readers.specs.SectionId.TheVariants.{DebugLoc};

    ghost section_id = { DebugLoc };

    ghost section_view = { λ s. s };

    fn id() -> SectionId {
        SectionId::DebugLoc
    }

    fn reader(&self) -> &R {
        &self.section
    }

    ghost from_reader = { λ _ _ same. same };
}

impl<'a, E: Endianity> DebugLoc<EndianSlice<'a, E>> {
    /// The section that these bytes are, the first of them at identifier 0.
    pub fn new(section: &'a [u8], endian: E) -> Self
        ensures { result ≡ record { bytes = section.now; is_big = E.is_big endian; first = 0 } }
    {
        DebugLoc::from(EndianSlice::new(section, endian))
    }
}

impl<R: Reader> DebugLoc<R> {
    /// The section over what a function makes of its reader.
    pub fn borrow<'a, F, S>(&'a self, f: F) -> DebugLoc<S>
    where
        F: FnOnce(&'a R) -> S,
        S: Reader,
        requires { F.IsAlwaysCallable f }
        ensures { (reader : R) × (output : S) × (R.view reader ≡ self.now)
            × FnOnceReturnsAt F.FnOnce f reader output × (result ≡ S.view output) }
    {
        DebugLoc {
            section: f(&self.section),
        }
    }
}

/// `.debug_loclists`: the location lists of units from version 5 on (DWARF 5, 7.29).
#[derive(Debug, Drop)]
pub struct DebugLocLists<R: Reader> {
    section: R,
}

impl<R: Reader> Model for DebugLocLists<R> {
    ghost use Rattle.gimli_core_readers.specs.View.{View};

    ghost Value = { View };

    ghost view = { λ s. R.view s.section };
}

impl<R: Reader> From<R> for DebugLocLists<R> {
    ghost from_gives = { λ reader section. section ≡ R.view reader };

    fn from(section: R) -> Self {
        DebugLocLists { section }
    }
}

impl<R: Reader> Section<R> for DebugLocLists<R> {
    ghost use Rattle.gimli_core_readers.specs.SectionId.TheVariants.{DebugLocLists};

    ghost section_id = { DebugLocLists };

    ghost section_view = { λ s. s };

    fn id() -> SectionId {
        SectionId::DebugLocLists
    }

    fn reader(&self) -> &R {
        &self.section
    }

    ghost from_reader = { λ _ _ same. same };
}

impl<'a, E: Endianity> DebugLocLists<EndianSlice<'a, E>> {
    /// The section that these bytes are, the first of them at identifier 0.
    pub fn new(section: &'a [u8], endian: E) -> Self
        ensures { result ≡ record { bytes = section.now; is_big = E.is_big endian; first = 0 } }
    {
        DebugLocLists::from(EndianSlice::new(section, endian))
    }
}

impl<R: Reader> DebugLocLists<R> {
    /// The section over what a function makes of its reader.
    pub fn borrow<'a, F, S>(&'a self, f: F) -> DebugLocLists<S>
    where
        F: FnOnce(&'a R) -> S,
        S: Reader,
        requires { F.IsAlwaysCallable f }
        ensures { (reader : R) × (output : S) × (R.view reader ≡ self.now)
            × FnOnceReturnsAt F.FnOnce f reader output × (result ≡ S.view output) }
    {
        DebugLocLists {
            section: f(&self.section),
        }
    }
}
