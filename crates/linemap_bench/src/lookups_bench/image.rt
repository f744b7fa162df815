//! The sections of an ELF image, for both readers.

use crate::lookups_bench::fault::Fault;
use addr2line_context::{Dwarf, EndianBytes, EndianSlice, Error, Reader, RunTimeEndian, SectionId};
use addr2line_elf::Elf;
use addr2line_elf::debug::READ;
use bytes::Bytes;
use std::alloc::Global;

type Shared = EndianBytes<RunTimeEndian>;

/// The sections of an image that lookups read.
#[derive(Drop)]
pub struct Image {
    endian: RunTimeEndian,
    sections: Vec<(SectionId, Shared)>,
    // A section without bytes.
    nothing: Shared,
}

impl Image {
    /// The sections of a file, whose bytes they share.
    pub fn parse(alloc: Global, file: Vec<u8>) -> Result<Image, Fault> {
        let elf = Elf::parse(alloc, Bytes::from_vec(file)?)?;
        let mut sections = Vec::new(alloc);
        for id in READ {
            sections.push((id, elf.debug_section(id)?))?;
        }
        let endian = elf.endian();
        Ok(Image {
            endian,
            sections,
            nothing: EndianBytes::new(Bytes::from_static(b""), endian),
        })
    }

    // The section of an id.
    fn section(&self, id: SectionId) -> &Shared {
        match self.sections.iter().find(|section| section.0 == id) {
            Some((_, section)) => section,
            None => &self.nothing,
        }
    }

    /// Its sections, through readers that borrow their bytes.
    pub fn load_borrowed(
        &self,
        alloc: Global,
    ) -> Result<Dwarf<EndianSlice<'_, RunTimeEndian>>, Error> {
        Dwarf::load(
            alloc,
            |id: SectionId| -> Result<EndianSlice<'_, RunTimeEndian>, Error> {
                Ok(EndianSlice::new(self.section(id).as_bytes(), self.endian))
            },
        )
    }

    /// Its sections, through readers that share their bytes.
    pub fn load_shared(&self, alloc: Global) -> Result<Dwarf<Shared>, Error> {
        Dwarf::load(alloc, |id: SectionId| -> Result<Shared, Error> {
            self.section(id).copy()
        })
    }
}
