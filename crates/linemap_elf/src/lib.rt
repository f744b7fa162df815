//! ELF images, written: sections by their names.
#![tactic(auto)]

pub mod constants;
pub mod field;
mod headers;
mod image;
pub mod image_laws;
pub mod section;
mod sections;
pub mod writer;
pub mod written_numbers;

pub use addr2line_elf::class::Class;
pub use image::write_image;
pub use section::Section;
