//! The sections of a table: what its units say, as debug information.
#![tactic(auto)]

mod error;
mod sections;
mod table_emitter;
mod table_sections;

pub use error::EmitError;
pub use linemap_emit_fits::fit_laws;
pub use linemap_emit_laws::{emission_laws, recorded_table_laws, unit_difference_laws};
pub use linemap_table::error::TableError;
pub use linemap_table::{
    Rule, Table, TableCall, TableFile, TableFunction, TableRange, TableRow, TableSequence,
    TableUnit, Target, push_discriminator, push_line, read_address, table_laws,
};
pub use sections::Sections;
pub use table_sections::emit_sections;
