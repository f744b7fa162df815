//! Entries that references lead to.

use crate::holder::HoldingUnit;
use gimli_dwarf::{Reader, ReaderOffset, UnitOffset};
use std::marker::Model;

/// An entry that a reference leads to. Whether there is one at its offset shows when it is read.
#[derive(Drop)]
pub(crate) struct ReferredEntry<'a, R: Reader> {
    pub holder: HoldingUnit<'a, R>,
    pub offset: UnitOffset<R::Offset>,
}

impl<'a, R: Reader> Model for ReferredEntry<'a, R> {
    ghost use Rattle.addr2line_names.specs.EntryReferences.{ReferredEntry as Entry};

    ghost Value = { Entry };

    ghost view = { λ e. record { holder = e.holder; offset = R.Offset.count e.offset.0 } };
}
