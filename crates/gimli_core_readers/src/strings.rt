ghost use Rattle.std.specs.Prelude.{◌≡◌, ◌≢◌, IsTrue};
ghost use Rattle.std.specs.Fn.{FnOnceReturnsAt};
ghost use Rattle.gimli_core_base.specs.Calls.{ReturnsAsOrNoMemory};
ghost use Rattle.gimli_core_base.specs.declared.error.Error.TheVariants.{Memory};
ghost use Rattle.gimli_core_readers.specs.SectionReads.{string_at};

use crate::section::Section;
use crate::{EndianSlice, Reader};
use gimli_core_base::error::Error;
use gimli_core_base::{DebugLineStrOffset, DebugStrOffset, Endianity, SectionId};
use std::marker::Model;

/// `.debug_str`: the strings that attributes of entries point to (DWARF 5, 7.5.5).
#[derive(Debug, Drop)]
pub struct DebugStr<R: Reader> {
    section: R,
}

impl<R: Reader> Model for DebugStr<R> {
    ghost use Rattle.gimli_core_base.specs.View.{View};

    ghost Value = { View };

    ghost view = { λ s. R.view s.section };
}

impl<R: Reader> From<R> for DebugStr<R> {
    ghost from_gives = { λ reader section. section ≡ R.view reader };

    fn from(section: R) -> Self {
        DebugStr { section }
    }
}

impl<R: Reader> Section<R> for DebugStr<R> {
    ghost use Rattle.gimli_core_base.specs.declared.common.SectionId.TheVariants.{DebugStr};

    ghost section_id = { DebugStr };

    ghost section_view = { λ s. s };

    fn id() -> SectionId {
        SectionId::DebugStr
    }

    fn reader(&self) -> &R {
        &self.section
    }

    ghost from_reader = { λ _ _ same. same };
}

impl<'a, E: Endianity> DebugStr<EndianSlice<'a, E>> {
    /// The section that these bytes are, the first of them at identifier 0.
    pub fn new(section: &'a [u8], endian: E) -> Self
        ensures { result ≡ record { bytes = section.now; is_big = E.is_big endian; first = 0 } }
    {
        DebugStr::from(EndianSlice::new(section, endian))
    }
}

impl<R: Reader> DebugStr<R> {
    /// The section over what a function makes of its reader.
    pub fn borrow<'a, F, S>(&'a self, f: F) -> DebugStr<S>
    where
        F: FnOnce(&'a R) -> S,
        S: Reader,
        requires { F.IsAlwaysCallable f }
        ensures { (reader : R) × (output : S) × (R.view reader ≡ self.now)
            × FnOnceReturnsAt F.FnOnce f reader output × (result ≡ S.view output) }
    {
        DebugStr {
            section: f(&self.section),
        }
    }

    /// The string at an offset, without its zero byte (DWARF 5, 7.5.5). Takes memory only where a
    /// copy of the reader does.
    pub fn get_str(&self, offset: DebugStrOffset<R::Offset>) -> Result<R, Error>
        ensures value { ReturnsAsOrNoMemory R.view result
            (string_at (R.Offset.count offset.0) self.now) }
        ensures free { IsTrue R.copies_freely → result ≢ Err Memory }
    {
        string_from(&self.section, offset.0)
    }
}

/// `.debug_line_str`: the strings that headers of line number programs point to (DWARF 5, 6.2.4.1).
#[derive(Debug, Drop)]
pub struct DebugLineStr<R: Reader> {
    section: R,
}

impl<R: Reader> Model for DebugLineStr<R> {
    ghost use Rattle.gimli_core_base.specs.View.{View};

    ghost Value = { View };

    ghost view = { λ s. R.view s.section };
}

impl<R: Reader> From<R> for DebugLineStr<R> {
    ghost from_gives = { λ reader section. section ≡ R.view reader };

    fn from(section: R) -> Self {
        DebugLineStr { section }
    }
}

impl<R: Reader> Section<R> for DebugLineStr<R> {
    ghost use Rattle.gimli_core_base.specs.declared.common.SectionId.TheVariants.{DebugLineStr};

    ghost section_id = { DebugLineStr };

    ghost section_view = { λ s. s };

    fn id() -> SectionId {
        SectionId::DebugLineStr
    }

    fn reader(&self) -> &R {
        &self.section
    }

    ghost from_reader = { λ _ _ same. same };
}

impl<'a, E: Endianity> DebugLineStr<EndianSlice<'a, E>> {
    /// The section that these bytes are, the first of them at identifier 0.
    pub fn new(section: &'a [u8], endian: E) -> Self
        ensures { result ≡ record { bytes = section.now; is_big = E.is_big endian; first = 0 } }
    {
        DebugLineStr::from(EndianSlice::new(section, endian))
    }
}

impl<R: Reader> DebugLineStr<R> {
    /// The section over what a function makes of its reader.
    pub fn borrow<'a, F, S>(&'a self, f: F) -> DebugLineStr<S>
    where
        F: FnOnce(&'a R) -> S,
        S: Reader,
        requires { F.IsAlwaysCallable f }
        ensures { (reader : R) × (output : S) × (R.view reader ≡ self.now)
            × FnOnceReturnsAt F.FnOnce f reader output × (result ≡ S.view output) }
    {
        DebugLineStr {
            section: f(&self.section),
        }
    }

    /// The string at an offset, without its zero byte (DWARF 5, 7.5.5). Takes memory only where a
    /// copy of the reader does.
    pub fn get_str(&self, offset: DebugLineStrOffset<R::Offset>) -> Result<R, Error>
        ensures value { ReturnsAsOrNoMemory R.view result
            (string_at (R.Offset.count offset.0) self.now) }
        ensures free { IsTrue R.copies_freely → result ≢ Err Memory }
    {
        string_from(&self.section, offset.0)
    }
}

// The string that begins at an offset of a section.
fn string_from<R: Reader>(section: &R, offset: R::Offset) -> Result<R, Error>
    ensures value { ReturnsAsOrNoMemory R.view result
        (string_at (R.Offset.count offset) (R.view section.now)) }
    ensures free { IsTrue R.copies_freely → result ≢ Err Memory }
{
    let mut input = section.copy()?;
    input.skip(offset)?;
    input.read_null_terminated_slice()
}
