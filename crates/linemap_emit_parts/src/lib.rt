//! Units with their entries and range lists as they are written, and laws that they are read again.
#![tactic(auto)]

pub mod declarations;
pub mod entries;
pub mod entry_laws;
pub mod range_laws;
pub mod range_lists;
pub mod units;

pub use declarations::write_declarations;
pub use entries::Entry;
pub use range_lists::{lists_start, write_lists_header, write_ranges};
pub use units::{abstract_offset, write_length, write_unit};
