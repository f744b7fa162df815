//! Images.

ghost use Rattle.std.specs.Prelude.{◌≡◌, ◌+◌, ◌<◌, ◌≤◌, ◌^◌, length, replicate, IfOk, OnOk};
ghost use Rattle.gimli_lines_write_bytes.specs.ByteOrders.{is_big_endian};
ghost use Rattle.linemap_elf.specs.ImageLaws.{ImageFits, HoldsSections};
ghost use Rattle.linemap_elf.specs.SpelledImages.{all_sections, body_end, next_multiple_of_8, table_offset as table_at, header_count, image_size, spelled_image};
ghost use Rattle.linemap_elf.specs.WrittenImages.{append};

use crate::headers::{file_header_size, write_file_header, write_table};
use crate::section::Section;
use crate::sections::{bytes_size, names_size, write_body};
use crate::writer::ImageWriter;
use addr2line_elf::class::Class;
use gimli_lines_write_bytes::RunTimeEndian;
use std::alloc::{AllocError, Global};

// Where the bytes of all sections end.
#[tactic(auto, using(crate::proofs::WrittenParts::is_bounded))]
fn body_end(class: Class, sections: &[Section<'_>]) -> u64
    requires { ImageFits class sections.now }
    ensures { result ≡ body_end class sections.now }
{
    u64::from(file_header_size(class)) + bytes_size(sections) as u64 + names_size(sections) as u64
}

fn next_multiple_of_8(n: u64) -> u64
    requires { n + 7 < 2 ^ 64 }
    ensures { result ≡ next_multiple_of_8 n }
{
    (n + 7) / 8 * 8
}

// How many section headers there are.
#[tactic(auto, using(crate::proofs::WrittenParts::is_bounded))]
fn header_count(class: Class, sections: &[Section<'_>]) -> u16
    requires { ImageFits class sections.now }
    ensures { result ≡ header_count sections.now }
{
    sections.len() as u16 + 2
}

// The number of bytes of an image whose section headers are at an offset.
#[tactic(auto, using(crate::proofs::WrittenParts::is_bounded))]
fn image_size(class: Class, sections: &[Section<'_>], table_offset: u64) -> usize
    requires fits { ImageFits class sections.now }
    requires at { table_offset ≡ table_at class sections.now }
    ensures { result ≡ image_size class sections.now }
{
    let count = u64::from(header_count(class, sections));
    (table_offset + count * u64::from(class.section_header_size())) as usize
}

// Where the parts of an image are: the end of the sections' bytes, and the section headers.
#[derive(Clone, Copy)]
struct Layout {
    body_end: u64,
    table_offset: u64,
}

#[tactic(auto, using(crate::proofs::WrittenParts::is_bounded))]
fn layout_of(class: Class, sections: &[Section<'_>]) -> Layout
    requires { ImageFits class sections.now }
    ensures { result
        ≡ record {
          body_end = body_end class sections.now;
          table_offset = table_at class sections.now;
        } }
{
    let end = body_end(class, sections);
    Layout {
        body_end: end,
        table_offset: next_multiple_of_8(end),
    }
}

// Writes zero bytes, at most eight.
#[tactic(auto, using(crate::proofs::WrittenParts::take_replicate))]
fn write_zeros(w: &mut ImageWriter, count: usize) -> Result<(), AllocError>
    requires { count ≤ 8 }
    ensures { OnOk result (w.new ≡ append (replicate count 0) w.old) }
{
    w.write(&[0; 8][..count])
}

// Writes the parts of an image that are at these places, in one allocation.
#[tactic(auto, using(crate::proofs::WrittenParts::is_bounded, crate::proofs::WrittenParts::parts_joined))]
fn write_parts(
    alloc: Global,
    class: Class,
    endian: RunTimeEndian,
    sections: &[Section<'_>],
    layout: Layout,
) -> Result<Vec<u8>, AllocError>
    requires fits { ImageFits class sections.now }
    requires at { layout
        ≡ record {
          body_end = body_end class sections.now;
          table_offset = table_at class sections.now;
        } }
    ensures { IfOk result (λ bytes. bytes.items
        ≡ spelled_image class (is_big_endian endian) sections.now) }
{
    let size = image_size(class, sections, layout.table_offset);
    let mut w = ImageWriter::with_capacity(alloc, class, endian, size)?;
    write_file_header(&mut w, layout.table_offset, header_count(class, sections))?;
    write_body(&mut w, sections)?;
    write_zeros(&mut w, (layout.table_offset - layout.body_end) as usize)?;
    write_table(&mut w, sections)?;
    Ok(w.into_vec())
}

/// The image of some sections, in one allocation: a file that can be run, of no machine and without
/// program headers. The sections' bytes are in the order of the slice, and the names of the
/// sections after them. It goes over the sections a few times, and writes each byte once.
pub fn write_image(
    alloc: Global,
    class: Class,
    endian: RunTimeEndian,
    sections: &[Section<'_>],
) -> Result<Vec<u8>, AllocError>
    requires { ImageFits class sections.now }
    ensures image { IfOk result (λ bytes. bytes.items
        ≡ spelled_image class (is_big_endian endian) sections.now) }
    ensures again { IfOk result (λ bytes. HoldsSections (is_big_endian endian)
        (all_sections sections.now) bytes.items) }
{
    write_parts(alloc, class, endian, sections, layout_of(class, sections))
}
