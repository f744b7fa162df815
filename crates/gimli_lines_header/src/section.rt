//! The section that holds line number programs.

ghost use Rattle.std.specs.Prelude.{◌≡◌};
ghost use Rattle.std.specs.Fn.{FnOnceReturnsAt};

use gimli_units_headers::{EndianSlice, Endianity, Reader, Section, SectionId};
use std::marker::Model;

/// `.debug_line`: the line number programs of units (DWARF 5, 6.2).
#[derive(Debug, Drop)]
pub struct DebugLine<R: Reader> {
    section: R,
}

impl<R: Reader> Model for DebugLine<R> {
    ghost use Rattle.gimli_units_headers.specs.View.{View};

    ghost Value = { View };

    ghost view = { λ s. R.view s.section };
}

impl<R: Reader> From<R> for DebugLine<R> {
    ghost from_gives = { λ reader section. section ≡ R.view reader };

    fn from(section: R) -> Self {
        DebugLine { section }
    }
}

impl<R: Reader> Section<R> for DebugLine<R> {
    ghost use Rattle.gimli_units_headers.specs.SectionId.TheVariants.{DebugLine};

    ghost section_id = { DebugLine };

    ghost section_view = { λ s. s };

    fn id() -> SectionId {
        SectionId::DebugLine
    }

    fn reader(&self) -> &R {
        &self.section
    }

    ghost from_reader = { λ _ _ same. same };
}

impl<'a, E: Endianity> DebugLine<EndianSlice<'a, E>> {
    /// The section that these bytes are, the first of them at identifier 0.
    pub fn new(section: &'a [u8], endian: E) -> Self
        ensures { result ≡ record { bytes = section.now; is_big = E.is_big endian; first = 0 } }
    {
        DebugLine::from(EndianSlice::new(section, endian))
    }
}

impl<R: Reader> DebugLine<R> {
    /// The section over what a function makes of its reader.
    pub fn borrow<'a, F, S>(&'a self, f: F) -> DebugLine<S>
    where
        F: FnOnce(&'a R) -> S,
        S: Reader,
        requires { F.IsAlwaysCallable f }
        ensures { (reader : R) × (output : S) × (R.view reader ≡ self.now)
            × FnOnceReturnsAt F.FnOnce f reader output × (result ≡ S.view output) }
    {
        DebugLine {
            section: f(&self.section),
        }
    }
}
