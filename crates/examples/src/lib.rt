//! Callers of the six crates, one for each: what a first program may want of them. Each states
//! what it finds by the definitions that its crate passes on.
#![tactic(auto)]

pub mod names;
pub mod numbers;
pub mod places;
pub mod rows;
pub mod tables;
pub mod units;
