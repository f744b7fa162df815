//! Debugging information in files of its own: what a program says of its debug file and of that
//! file's supplement, where they may be, and the search for them (GDB manual, "Debugging
//! Information in Separate Files").
#![tactic(auto)]

pub mod candidates;
pub mod checksum;
pub mod debug_files;
pub mod files;
pub mod links;
pub mod memory_files;
mod notes;
mod paths;
mod readable;
pub mod search;
pub mod standard_numbers;
pub mod system_files;

pub use candidates::{Candidate, Identity, debug_file_names, supplement_names};
pub use checksum::crc32;
pub use debug_files::{DebugFiles, find_debug_files};
pub use files::{FilesByPath, NamedFile};
pub use links::{DebugLink, SupplementLink, build_id, debug_link, has_debug_info, supplement_link};
pub use memory_files::MemoryFiles;
pub use search::{find_first, is_named};
pub use system_files::SystemFiles;
