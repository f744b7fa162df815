//! Answers that borrow nothing of a context.

use addr2line_context::{DwLang, DwarfFileType, DwoId, Error, OwnedLocation, OwnedStretch};

/// The name of a function, and the language of its unit, where that is known.
#[derive(Debug, PartialEq, Drop)]
pub struct OwnedName {
    /// The bytes of the name, as the debug information has it.
    pub name: Vec<u8>,
    pub language: Option<DwLang>,
}

/// A function, or a call that is inlined. Of an address in no function only the place is known.
#[derive(Debug, PartialEq, Drop)]
pub struct OwnedFrame {
    /// The offset of the entry of the function or the call in its unit.
    pub dw_die_offset: Option<u64>,
    pub function: Option<OwnedName>,
    pub location: Option<OwnedLocation>,
}

/// A unit: the kind of its file, and its offset in that file's `.debug_info`.
#[derive(Debug, PartialEq, Drop)]
pub struct OwnedUnit {
    pub file_type: DwarfFileType,
    pub offset: u64,
}

/// What a call answers.
#[derive(Debug, PartialEq, Drop)]
pub enum Answer {
    /// The place of an address, if there is one.
    Location(Option<OwnedLocation>),
    /// The frames of an address, the innermost call first.
    Frames(Vec<OwnedFrame>),
    /// The stretches between two ends, and the refusal that ends them, if one does.
    Range(Vec<OwnedStretch>, Option<Error>),
    /// The unit of an address, if there is one.
    Unit(Option<OwnedUnit>),
    /// The identifiers of the split units whose loads need an answer.
    Preload(Vec<DwoId>),
    /// An answer to a load was taken, or units were read, and nothing was refused.
    Done,
    /// The call was refused.
    Refused(Error),
    /// The lookup was dropped while it waited for a load.
    Suspended,
    /// The last preload gave no token of that number.
    NoToken,
}
