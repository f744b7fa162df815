//! Laws: entries that say what a table's functions and calls say are read as these.
#![tactic(auto)]

pub mod function_laws;
