//! Function names as people read them: the text of a legacy Rust name, from the name's bytes alone.
#![tactic(auto)]

mod elements;
pub mod name_laws;
mod names;
mod paths;

pub use names::{demangle, demangle_auto};
