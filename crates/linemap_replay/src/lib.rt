//! Calls on one context, one after the other, and their answers as copies that borrow nothing.
#![tactic(auto)]

mod address_lookup;
pub mod answer;
pub mod call;
mod completions;
mod copied_frames;
mod copied_stretches;
mod history;
mod loads;
mod lookups;
mod parses;
pub mod table_laws;
mod tokens;

pub use addr2line_context::{DwarfFileType, Error, OwnedLocation, OwnedStretch};
pub use answer::{Answer, OwnedFrame, OwnedName, OwnedUnit};
pub use call::Call;
pub use history::replay;
