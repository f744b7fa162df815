//! A context over a file's sections: its units with their ranges, lines and functions, and the
//! places, frames and units of addresses.
#![tactic(auto)]

pub mod context;
pub mod find_frames;
pub mod find_unit;
pub mod frame_loads;
pub mod location_range;
pub mod lookup;
mod outcomes;
pub mod owned_places;
mod progress;
pub mod range_steps;
mod runs;
mod sections;
pub mod skip_laws;
pub mod unit_loads;
pub mod walk_laws;

pub use addr2line_lookups::{
    AbbreviationsCache, AbbreviationsCacheStrategy, AttributeValue, CheckedTables, DebugAbbrev,
    DebugAbbrevOffset, DebugAddrIndex, DebugLineStrOffset, DebugRngListsIndex, DebugStrOffset,
    DebugStrOffsetsIndex, DwLang, Dwarf, DwarfFileType, DwoId, EndianBytes, EndianSlice, Error,
    Format, Frame, FrameIter, FunctionName, LittleEndian, Location, LocationLists, Range,
    RangeLists, RangeListsOffset, RangeWalk, RawRangeListsOffset, Reader, RunTimeEndian, Runs,
    SectionId, SplitDwarfLoad, Unit, UnitLines, UnitOffset, UnitRef, UnitStretch, UnitToken,
    file_text,
};
pub use context::Context;
pub use find_frames::FindFrames;
pub use find_unit::FindUnit;
pub use location_range::LocationRangeIter;
pub use lookup::{LookupContinuation, LookupResult};
pub use owned_places::{OwnedLocation, OwnedStretch};
