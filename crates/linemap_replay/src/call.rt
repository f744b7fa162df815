//! Calls on a context.

/// A call on a context. Loads are answered by the sections at these places of a list; a place past
/// its end stands for no file.
#[derive(Debug, PartialEq, Drop)]
pub enum Call {
    /// The place of an address, as `Context::find_location` finds it.
    Location(u64),
    /// The frames of an address, as `Context::find_frames` finds them. The loads that the lookup
    /// waits for are answered by these places in turn; where there are more loads than places, it
    /// is dropped.
    Frames(u64, Vec<usize>),
    /// The stretches between two ends, as `Context::find_location_range` finds them.
    Range(u64, u64),
    /// The unit of an address, as `Context::find_dwarf_and_unit` finds it, with loads answered as
    /// for frames.
    Unit(u64, Vec<usize>),
    /// The loads that lookups of an address may wait for, by `Context::preload_units`.
    Preload(u64),
    /// The load of the token of this number, among those of the last preload, is answered by the
    /// sections at this place, by `Context::answer_load`.
    Answer(usize, usize),
    /// `Context::parse_lines`.
    ParseLines,
    /// `Context::parse_functions`.
    ParseFunctions,
    /// `Context::parse_inlined_functions`.
    ParseInlined,
}
