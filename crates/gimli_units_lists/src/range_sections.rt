ghost use Rattle.std.specs.Prelude.{◌≡◌};
ghost use Rattle.std.specs.Fn.{FnOnceReturnsAt};

use gimli_core_readers::{EndianSlice, Endianity, Reader, Section, SectionId};
use std::marker::Model;

/// `.debug_ranges`: the range lists of units up to version 4 (DWARF 4, 2.17.3).
#[derive(Debug, Drop)]
pub struct DebugRanges<R: Reader> {
    section: R,
}

impl<R: Reader> Model for DebugRanges<R> {
    ghost use Rattle.gimli_core_readers.specs.View.{View};

    ghost Value = { View };

    ghost view = { λ s. R.view s.section };
}

impl<R: Reader> From<R> for DebugRanges<R> {
    ghost from_gives = { λ reader section. section ≡ R.view reader };

    fn from(section: R) -> Self {
        DebugRanges { section }
    }
}

impl<R: Reader> Section<R> for DebugRanges<R> {
    ghost use Rattle.gimli_core_readers.specs.SectionId.TheVariants.{DebugRanges};

    ghost section_id = { DebugRanges };

    ghost section_view = { λ s. s };

    fn id() -> SectionId {
        SectionId::DebugRanges
    }

    fn reader(&self) -> &R {
        &self.section
    }

    ghost from_reader = { λ _ _ same. same };
}

impl<'a, E: Endianity> DebugRanges<EndianSlice<'a, E>> {
    /// The section that these bytes are, the first of them at identifier 0.
    pub fn new(section: &'a [u8], endian: E) -> Self
        ensures { result ≡ record { bytes = section.now; is_big = E.is_big endian; first = 0 } }
    {
        DebugRanges::from(EndianSlice::new(section, endian))
    }
}

impl<R: Reader> DebugRanges<R> {
    /// The section over what a function makes of its reader.
    pub fn borrow<'a, F, S>(&'a self, f: F) -> DebugRanges<S>
    where
        F: FnOnce(&'a R) -> S,
        S: Reader,
        requires { F.IsAlwaysCallable f }
        ensures { (reader : R) × (output : S) × (R.view reader ≡ self.now)
            × FnOnceReturnsAt F.FnOnce f reader output × (result ≡ S.view output) }
    {
        DebugRanges {
            section: f(&self.section),
        }
    }
}

/// `.debug_rnglists`: the range lists of units from version 5 on (DWARF 5, 7.25).
#[derive(Debug, Drop)]
pub struct DebugRngLists<R: Reader> {
    section: R,
}

impl<R: Reader> Model for DebugRngLists<R> {
    ghost use Rattle.gimli_core_readers.specs.View.{View};

    ghost Value = { View };

    ghost view = { λ s. R.view s.section };
}

impl<R: Reader> From<R> for DebugRngLists<R> {
    ghost from_gives = { λ reader section. section ≡ R.view reader };

    fn from(section: R) -> Self {
        DebugRngLists { section }
    }
}

impl<R: Reader> Section<R> for DebugRngLists<R> {
    ghost use Rattle.gimli_core_readers.specs.SectionId.TheVariants.{DebugRngLists};

    ghost section_id = { DebugRngLists };

    ghost section_view = { λ s. s };

    fn id() -> SectionId {
        SectionId::DebugRngLists
    }

    fn reader(&self) -> &R {
        &self.section
    }

    ghost from_reader = { λ _ _ same. same };
}

impl<'a, E: Endianity> DebugRngLists<EndianSlice<'a, E>> {
    /// The section that these bytes are, the first of them at identifier 0.
    pub fn new(section: &'a [u8], endian: E) -> Self
        ensures { result ≡ record { bytes = section.now; is_big = E.is_big endian; first = 0 } }
    {
        DebugRngLists::from(EndianSlice::new(section, endian))
    }
}

impl<R: Reader> DebugRngLists<R> {
    /// The section over what a function makes of its reader.
    pub fn borrow<'a, F, S>(&'a self, f: F) -> DebugRngLists<S>
    where
        F: FnOnce(&'a R) -> S,
        S: Reader,
        requires { F.IsAlwaysCallable f }
        ensures { (reader : R) × (output : S) × (R.view reader ≡ self.now)
            × FnOnceReturnsAt F.FnOnce f reader output × (result ≡ S.view output) }
    {
        DebugRngLists {
            section: f(&self.section),
        }
    }
}
