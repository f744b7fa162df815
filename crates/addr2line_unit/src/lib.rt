//! The units of a context: each with the sections of its file, the load of its split part and the
//! first answer to it, and its lines, functions and calls, which are read once and kept.
#![tactic(auto)]

pub mod first_answer;
mod headers;
pub mod kept;
pub mod load;
mod load_copy;
pub mod order;
pub mod supplement;
pub mod unit;
pub mod unit_functions;
pub mod units;

pub use addr2line_functions::{
    AbbreviationsCache, AbbreviationsCacheStrategy, AttributeValue, CheckedTables, DebugAbbrev,
    DebugAbbrevOffset, DebugAddr, DebugAddrIndex, DebugAranges, DebugInfo, DebugLine, DebugLineStr,
    DebugLineStrOffset, DebugRanges, DebugRngLists, DebugRngListsIndex, DebugStr, DebugStrOffset,
    DebugStrOffsets, DebugStrOffsetsIndex, DwLang, Dwarf, DwarfFileType, DwoId, EndianBytes,
    EndianSlice, Error, Format, Frame, FrameIter, FunctionCalls, FunctionName, KnownUnits,
    LineCursor, LineIndex, LittleEndian, Location, LocationLists, Range, RangeLists,
    RangeListsOffset, RangePlace, RawRangeListsOffset, Reader, RowStretch, RunTimeEndian,
    SectionId, Unit, UnitHeader, UnitNames, UnitOffset, UnitRange, UnitRanges, UnitRef, file_text,
    frame_without_function,
};
pub use addr2line_root::{ArangeIndex, LineRow, OwnedUnit, Runs, UnitLines};
pub use first_answer::answer_of;
pub use kept::Kept;
pub use load::{KeptLoad, SplitDwarfLoad, load_of};
pub use order::ordered_ranges;
pub use supplement::units_of_supplement;
pub use unit::ResUnit;
pub use unit_functions::UnitFunctions;
pub use units::units_of_file;
