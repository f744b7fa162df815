//! The headers of an image: that of the file, and those of its sections.

ghost use Rattle.std.specs.Prelude.{◌≡◌, ◌<◌, ◌≤◌, ◌^◌, ◌++◌, flat_map, map, OnOk};
ghost use Rattle.gimli_lines_write_bytes.specs.ByteOrders.{is_big_endian};
ghost use Rattle.addr2line_elf.specs.ElfClasses.{word_size};
ghost use Rattle.linemap_elf.specs.ImageLaws.{ImageFits};
ghost use Rattle.linemap_elf.specs.SpelledImages.{class_number, order_number, spelled_identification, file_header_size, file_header_fields, spelled_fields, FitsHeader, spelled_section_header, plain_header, all_sections, headers_from, spelled_table};
ghost use Rattle.linemap_elf.specs.WrittenImages.{append};

use crate::constants::{
    ELFCLASS32, ELFCLASS64, ELFDATA2LSB, ELFDATA2MSB, EM_NONE, ET_EXEC, EV_CURRENT, SHT_PROGBITS,
    SHT_STRTAB,
};
use crate::field::{Field, address};
use crate::section::Section;
use crate::sections::names_size;
use crate::writer::ImageWriter;
use addr2line_elf::class::Class;
use addr2line_elf::headers::SectionHeader;
use gimli_lines_write_bytes::RunTimeEndian;
use std::alloc::AllocError;

// The bytes of the file's header.
pub(crate) fn file_header_size(class: Class) -> u16
    ensures { result ≡ file_header_size class }
{
    match class {
        Class::Elf32 => 52,
        Class::Elf64 => 64,
    }
}

fn class_number(class: Class) -> u8
    ensures { result ≡ class_number class }
{
    match class {
        Class::Elf32 => ELFCLASS32,
        Class::Elf64 => ELFCLASS64,
    }
}

fn order_number(endian: RunTimeEndian) -> u8
    ensures { result ≡ order_number (is_big_endian endian) }
{
    match endian {
        RunTimeEndian::Little => ELFDATA2LSB,
        RunTimeEndian::Big => ELFDATA2MSB,
    }
}

// The identification of a file.
fn identification(class: Class, endian: RunTimeEndian) -> [u8; 16]
    ensures { result ≡ spelled_identification class (is_big_endian endian) }
{
    let class = class_number(class);
    let order = order_number(endian);
    [
        0x7f, b'E', b'L', b'F', class, order, EV_CURRENT, 0, 0, 0, 0, 0, 0, 0, 0, 0,
    ]
}

// Writes the fields of the file's header. The section headers are at an offset, and the last of
// them is that of the names.
fn write_file_fields(w: &mut ImageWriter, table_offset: u64, count: u16) -> Result<(), AllocError>
    requires low { table_offset < 256 ^ word_size w.old.class }
    requires some { 0 < count }
    ensures { OnOk result (w.new
        ≡ append (spelled_fields w.old.is_big (file_header_fields w.old.class table_offset count))
        w.old) }
{
    let class = w.class();
    let none = address(class, 0);
    let table = address(class, table_offset);
    w.fields(&[
        Field::Half(ET_EXEC),
        Field::Half(EM_NONE),
        Field::Word(EV_CURRENT as u32),
        none,
        none,
        table,
        Field::Word(0),
        Field::Half(file_header_size(class)),
        Field::Half(0),
        Field::Half(0),
        Field::Half(class.section_header_size()),
        Field::Half(count),
        Field::Half(count - 1),
    ])
}

// Writes the file's header.
pub(crate) fn write_file_header(
    w: &mut ImageWriter,
    table_offset: u64,
    count: u16,
) -> Result<(), AllocError>
    requires low { table_offset < 256 ^ word_size w.old.class }
    requires some { 0 < count }
    ensures { OnOk result (w.new
        ≡ append (spelled_identification w.old.class w.old.is_big
        ++ spelled_fields w.old.is_big (file_header_fields w.old.class table_offset count))
        w.old) }
{
    w.write(&identification(w.class(), w.endian()))?;
    write_file_fields(w, table_offset, count)
}

// Writes a section header.
fn write_header(
    w: &mut ImageWriter,
    header: &SectionHeader,
    alignment: u64,
) -> Result<(), AllocError>
    requires fits { FitsHeader w.old.class header.now }
    requires low { alignment < 256 ^ word_size w.old.class }
    ensures { OnOk result (w.new
        ≡ append (spelled_section_header w.old.class w.old.is_big alignment header.now) w.old) }
{
    let class = w.class();
    let flags = address(class, header.flags);
    let memory_address = address(class, header.address);
    let offset = address(class, header.offset);
    let size = address(class, header.size);
    let alignment = address(class, alignment);
    let entry_size = address(class, 0);
    w.fields(&[
        Field::Word(header.name),
        Field::Word(header.section_type),
        flags,
        memory_address,
        offset,
        size,
        Field::Word(header.link),
        Field::Word(header.info),
        alignment,
        entry_size,
    ])
}

// The header of a section whose name and bytes are at two offsets.
fn header_of(section_type: u32, name: u32, offset: u64, size: u64) -> SectionHeader
    ensures { result ≡ plain_header section_type name offset size }
{
    SectionHeader {
        name,
        section_type,
        flags: 0,
        address: 0,
        offset,
        size,
        link: 0,
        info: 0,
    }
}

// Writes the headers of the sections and of the section of their names.
#[tactic(auto, using(crate::proofs::WrittenParts::contents_fit))]
fn write_headers(w: &mut ImageWriter, sections: &[Section<'_>]) -> Result<(), AllocError>
    requires { ImageFits w.old.class sections.now }
    ensures { OnOk result (w.new
        ≡ append (flat_map (spelled_section_header w.old.class w.old.is_big 1)
        (headers_from 1 (file_header_size w.old.class) (all_sections sections.now))) w.old) }
{
    let mut name = 1;
    let mut offset = u64::from(file_header_size(w.class()));
    for section in sections {
        let size = section.bytes().len() as u64;
        write_header(w, &header_of(SHT_PROGBITS, name, offset, size), 1)?;
        name += section.name().len() as u32 + 1;
        offset += size;
    }
    let size = names_size(sections) as u64;
    write_header(w, &header_of(SHT_STRTAB, name, offset, size), 1)
}

// Writes the header of no section, and those of the sections.
pub(crate) fn write_table(w: &mut ImageWriter, sections: &[Section<'_>]) -> Result<(), AllocError>
    requires { ImageFits w.old.class sections.now }
    ensures { OnOk result (w.new
        ≡ append (spelled_table w.old.class w.old.is_big sections.now) w.old) }
{
    write_header(w, &header_of(0, 0, 0, 0), 0)?;
    write_headers(w, sections)
}
