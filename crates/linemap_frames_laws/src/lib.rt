//! The functions, calls and frames that lookups find in debug information that says what a table
//! says.
#![tactic(auto)]

pub mod frame_laws;
