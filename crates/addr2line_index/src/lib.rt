//! Lines made of rows, the ranges of all units, and the lookups over them.
#![tactic(auto)]

mod bounded_range;
pub mod builder;
pub mod index_laws;
pub mod line_cursor;
pub mod line_index;
pub mod lines;
pub mod location;
mod narrow_row;
mod next_range;
pub mod range_index;
pub mod range_place;
mod row_index;
mod row_list;
mod row_place;
pub mod sequence;
mod sequence_index;
mod sequence_order;
mod shared_range;
pub mod stretches;
pub mod unit_range;
pub mod unit_ranges;
mod unit_run;

pub use addr2line_search::{Counters, Probed, Probes, Tally};
pub use addr2line_spec::{file_text, file_text_of_bytes};
pub use builder::LinesBuilder;
pub use line_cursor::LineCursor;
pub use line_index::LineIndex;
pub use lines::Lines;
pub use location::Location;
pub use range_index::{RangeIndex, Ranged};
pub use range_place::RangePlace;
pub use sequence::{LineRow, LineSequence, ProgramRow};
pub use stretches::RowStretch;
pub use unit_range::UnitRange;
pub use unit_ranges::{CoveringRanges, UnitRanges, UnitRangesBuilder};
