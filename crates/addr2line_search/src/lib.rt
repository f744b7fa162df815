//! Sorted lists whose entries are counted as they are looked at, and one bisection over them.
#![tactic(auto)]

pub mod probed;
pub mod search;
pub mod tally;

pub use probed::{Counters, Probed, Probes};
pub use search::{SearchKey, count_up_to, last_up_to};
pub use tally::{Mark, Tally};
