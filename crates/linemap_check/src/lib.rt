//! Whether the units of a table break a rule, and which is the lowest, and how large their image
//! may grow. Nothing here takes memory.
#![tactic(auto)]

mod calls;
pub mod dropping;
pub mod fits;
mod functions;
mod outside;
mod overlaps;
mod range_owners;
mod ranges;
pub mod rules;
mod sequences;
mod texts;
mod units;
pub mod weight;

pub use linemap_meaning::address::read_address;
pub use linemap_meaning::line_text::{push_discriminator, push_line};
pub use linemap_meaning::rule::Rule;
pub use linemap_meaning::table::{
    TableCall, TableFile, TableFunction, TableRange, TableRow, TableSequence, TableUnit,
};
pub use linemap_meaning::table_laws;
