//! The ELF image of a table: a file that holds what is emitted of it.
#![tactic(auto)]

mod table_image;

pub use gimli_core_base::Format;
pub use linemap_elf::{image_laws, written_numbers};
pub use linemap_emit::{EmitError, Table, TableError, Target, read_address};
pub use table_image::emit;
