//! What the subcommands of the program do with values: the target of the numbers of a command line,
//! the image of a text, and the error lines of files.
#![tactic(auto)]

mod images;
mod reports;
mod targets;

pub use images::emission;
pub use linemap_image::{emit, image_laws, written_numbers};
pub use linemap_output::table_out_of_memory;
pub use reports::{cannot_load, cannot_write, no_such_target};
pub use targets::target_of;
