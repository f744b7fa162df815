//! Lookups over the units of a context, which have numbers: of places, of ranges of addresses, and
//! of the loads of split units.
#![tactic(auto)]

mod address_search;
mod covering;
pub mod frame_place;
mod function_place;
mod load_answers;
mod lookups;
mod parsing;
mod parsing_calls;
mod parsing_functions;
mod preload;
pub mod range_walk;
pub mod settle;
pub mod settled;
pub mod token;
pub mod units;
mod waiting;

pub use addr2line_unit::{
    AbbreviationsCache, AbbreviationsCacheStrategy, ArangeIndex, AttributeValue, CheckedTables,
    DebugAbbrev, DebugAbbrevOffset, DebugAddr, DebugAddrIndex, DebugAranges, DebugInfo, DebugLine,
    DebugLineStr, DebugLineStrOffset, DebugRanges, DebugRngLists, DebugRngListsIndex, DebugStr,
    DebugStrOffset, DebugStrOffsets, DebugStrOffsetsIndex, DwLang, Dwarf, DwarfFileType, DwoId,
    EndianBytes, EndianSlice, Error, Format, Frame, FrameIter, FunctionName, LittleEndian,
    Location, LocationLists, Range, RangeLists, RangeListsOffset, RawRangeListsOffset, Reader,
    ResUnit, RunTimeEndian, Runs, SectionId, SplitDwarfLoad, Unit, UnitLines, UnitOffset, UnitRef,
    file_text, frame_without_function, units_of_file, units_of_supplement,
};
pub use covering::next_covering;
pub use frame_place::{FramePlace, find_frames_at, frames_at_place};
pub use function_place::keep_calls;
pub use load_answers::answer_at;
pub use range_walk::{RangeWalk, UnitStretch};
pub use settle::{UnitRow, find_row, place_in, read_at, unit_at};
pub use settled::Settled;
pub use token::UnitToken;
pub use units::Units;
