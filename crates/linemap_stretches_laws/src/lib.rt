//! Stretches between two ends over debug information that says what a table says.
#![tactic(auto)]

pub mod stretch_laws;
