//! The sections of an image, one after the other.

ghost use Rattle.std.specs.Prelude.{◌≡◌, ◌<◌, ◌^◌, length, map, OnOk};
ghost use Rattle.linemap_elf.specs.SpelledImages.{spelled_name, body, names_section};
ghost use Rattle.linemap_elf.specs.WrittenImages.{append, bytes_joined, names_joined};

use crate::section::Section;
use crate::writer::ImageWriter;
use std::alloc::AllocError;

// The name of the section of names.
pub(crate) const NAMES_NAME: &str = ".shstrtab";

// How many bytes the sections have.
pub(crate) fn bytes_size(sections: &[Section<'_>]) -> usize
    requires { length (bytes_joined sections.now) < 2 ^ 64 }
    ensures { result ≡ length (bytes_joined sections.now) }
{
    let mut size = 0;
    for section in sections {
        size += section.bytes().len();
    }
    size
}

// How many bytes the section of names has.
#[tactic(auto, using(crate::proofs::WrittenParts::length_names_section))]
pub(crate) fn names_size(sections: &[Section<'_>]) -> usize
    requires { length (names_section sections.now).bytes < 2 ^ 64 }
    ensures { result ≡ length (names_section sections.now).bytes }
{
    let mut size = 1;
    for section in sections {
        size += section.name().len() + 1;
    }
    size + NAMES_NAME.len() + 1
}

// Writes the bytes of the sections.
fn write_bytes(w: &mut ImageWriter, sections: &[Section<'_>]) -> Result<(), AllocError>
    ensures { OnOk result (w.new ≡ append (bytes_joined sections.now) w.old) }
{
    for section in sections {
        w.write(section.bytes())?;
    }
    Ok(())
}

// Writes a name and its zero byte.
fn write_name(w: &mut ImageWriter, name: &str) -> Result<(), AllocError>
    ensures { OnOk result (w.new ≡ append (spelled_name name.now) w.old) }
{
    w.write(name.as_bytes())?;
    w.write(&[0])
}

// Writes the names of the sections.
fn write_names(w: &mut ImageWriter, sections: &[Section<'_>]) -> Result<(), AllocError>
    ensures { OnOk result (w.new ≡ append (names_joined sections.now) w.old) }
{
    for section in sections {
        write_name(w, section.name())?;
    }
    Ok(())
}

// Writes the bytes of the sections, and of the section of their names.
pub(crate) fn write_body(w: &mut ImageWriter, sections: &[Section<'_>]) -> Result<(), AllocError>
    ensures { OnOk result (w.new ≡ append (body sections.now) w.old) }
{
    write_bytes(w, sections)?;
    w.write(&[0])?;
    write_names(w, sections)?;
    write_name(w, NAMES_NAME)
}
