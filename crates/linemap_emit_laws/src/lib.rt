//! Laws: sections that hold what is emitted of a table say what it says, and answer it; what is
//! emitted of tables that differ in one unit alone answers alike outside that unit.
#![tactic(auto)]

pub mod emission_laws;
pub mod recorded_table_laws;
pub mod unit_difference_laws;
