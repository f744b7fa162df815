//! Lookups over debug information that says what a table says.
#![tactic(auto)]

pub mod location_laws;

pub use linemap_meaning::table::{
    TableCall, TableFile, TableFunction, TableRange, TableRow, TableSequence, TableUnit,
};
