ghost use Rattle.std.specs.Prelude.{◌≡◌};
ghost use Rattle.std.specs.Fn.{FnOnceReturnsAt};
ghost use Rattle.gimli_core_base.specs.Calls.{ReturnsAs};
ghost use Rattle.gimli_core_readers.specs.SectionReads.{table_offset_at};

use crate::places::offset_at;
use crate::section::Section;
use crate::{EndianSlice, Reader};
use gimli_core_base::error::Error;
use gimli_core_base::{
    DebugStrOffset, DebugStrOffsetsBase, DebugStrOffsetsIndex, Endianity, Format, SectionId,
};
use std::marker::Model;

/// `.debug_str_offsets`: tables of offsets into `.debug_str` (DWARF 5, 7.26).
#[derive(Debug, Drop)]
pub struct DebugStrOffsets<R: Reader> {
    section: R,
}

impl<R: Reader> Model for DebugStrOffsets<R> {
    ghost use Rattle.gimli_core_base.specs.View.{View};

    ghost Value = { View };

    ghost view = { λ s. R.view s.section };
}

impl<R: Reader> From<R> for DebugStrOffsets<R> {
    ghost from_gives = { λ reader section. section ≡ R.view reader };

    fn from(section: R) -> Self {
        DebugStrOffsets { section }
    }
}

impl<R: Reader> Section<R> for DebugStrOffsets<R> {
    ghost use Rattle.gimli_core_base.specs.declared.common.SectionId.TheVariants.{DebugStrOffsets};

    ghost section_id = { DebugStrOffsets };

    ghost section_view = { λ s. s };

    fn id() -> SectionId {
        SectionId::DebugStrOffsets
    }

    fn reader(&self) -> &R {
        &self.section
    }

    ghost from_reader = { λ _ _ same. same };
}

impl<'a, E: Endianity> DebugStrOffsets<EndianSlice<'a, E>> {
    /// The section that these bytes are, the first of them at identifier 0.
    pub fn new(section: &'a [u8], endian: E) -> Self
        ensures { result ≡ record { bytes = section.now; is_big = E.is_big endian; first = 0 } }
    {
        DebugStrOffsets::from(EndianSlice::new(section, endian))
    }
}

impl<R: Reader> DebugStrOffsets<R> {
    /// The section over what a function makes of its reader.
    pub fn borrow<'a, F, S>(&'a self, f: F) -> DebugStrOffsets<S>
    where
        F: FnOnce(&'a R) -> S,
        S: Reader,
        requires { F.IsAlwaysCallable f }
        ensures { (reader : R) × (output : S) × (R.view reader ≡ self.now)
            × FnOnceReturnsAt F.FnOnce f reader output × (result ≡ S.view output) }
    {
        DebugStrOffsets {
            section: f(&self.section),
        }
    }

    /// The offset of a string at an index after a base. Takes no memory.
    pub fn get_str_offset(
        &self,
        format: Format,
        base: DebugStrOffsetsBase<R::Offset>,
        index: DebugStrOffsetsIndex<R::Offset>,
    ) -> Result<DebugStrOffset<R::Offset>, Error>
        ensures { ReturnsAs (λ offset. R.Offset.count offset.0) result
            (table_offset_at R.Offset.limit format (R.Offset.count base.0) (R.Offset.count index.0)
            self.now) }
    {
        Ok(DebugStrOffset(offset_at(&self.section, format, base.0, index.0)?))
    }
}
