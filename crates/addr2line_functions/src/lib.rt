//! The functions of a unit, the calls inlined into them, and the frames of an address.
#![tactic(auto)]

pub mod call;
mod call_facts;
pub mod calls;
pub mod frame;
pub mod frames;
pub mod function;
pub mod function_at;
pub mod functions;
pub mod name_laws;
pub mod naming;
mod nesting;
pub mod numbered_range;
mod place;
pub mod row;
mod site;
pub mod unit_names;
mod walk;

pub use addr2line_names::{DebugFile, HasUnit, HoldingUnit, KnownUnits};
pub use addr2line_ranges::{
    AbbreviationsCache, AbbreviationsCacheStrategy, AttributeValue, CheckedTables, DebugAbbrev,
    DebugAbbrevOffset, DebugAddr, DebugAddrIndex, DebugAranges, DebugInfo, DebugLine, DebugLineStr,
    DebugLineStrOffset, DebugRanges, DebugRngLists, DebugRngListsIndex, DebugStr, DebugStrOffset,
    DebugStrOffsets, DebugStrOffsetsIndex, DwLang, Dwarf, DwarfFileType, DwoId, EndianBytes,
    EndianSlice, Error, Format, LineCursor, LineIndex, LittleEndian, Location, LocationLists,
    Probes, Range, RangeLists, RangeListsOffset, RangePlace, RawRangeListsOffset, Reader,
    RowStretch, RunTimeEndian, SectionId, Unit, UnitHeader, UnitOffset, UnitRange, UnitRanges,
    UnitRangesBuilder, UnitRef, UnitType, file_text, push_if_any, share,
};
pub use call::Call;
pub use calls::{FunctionCalls, calls_of_function};
pub use frame::{Frame, FunctionName};
pub use frames::{FrameIter, frame_without_function, frames_by_numbers};
pub use function::Function;
pub use function_at::FunctionAt;
pub use functions::{Functions, functions_of_unit};
pub use gimli_units_entries::{DebuggingInformationEntry, ReaderOffset};
pub use naming::Names;
pub use numbered_range::NumberedRange;
pub use row::{EntryRow, next_row};
pub use unit_names::UnitNames;
