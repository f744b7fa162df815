//! Files, as the bytes of their sections.

use crate::mistake::Mistake;
use addr2line_context::{Dwarf, EndianBytes, EndianSlice, Error, LittleEndian, Reader, SectionId};
use bytes::Bytes;
use std::alloc::{AllocError, Global};

/// A file: its name, and the sections that it has.
#[derive(Drop)]
pub struct File {
    pub name: String,
    sections: Vec<(SectionId, Vec<u8>)>,
}

/// The section of a name, as files begin their lines with it.
pub fn section_of(word: &str) -> Option<SectionId> {
    match word {
        "abbrev" => Some(SectionId::DebugAbbrev),
        "addr" => Some(SectionId::DebugAddr),
        "aranges" => Some(SectionId::DebugAranges),
        "info" => Some(SectionId::DebugInfo),
        "line" => Some(SectionId::DebugLine),
        "line_str" => Some(SectionId::DebugLineStr),
        "ranges" => Some(SectionId::DebugRanges),
        "rnglists" => Some(SectionId::DebugRngLists),
        "str" => Some(SectionId::DebugStr),
        "str_offsets" => Some(SectionId::DebugStrOffsets),
        _ => None,
    }
}

/// The number of the file of a name.
pub fn file_number(files: &[File], name: &str) -> Result<usize, Mistake> {
    match files.iter().position(|file| file.name.as_str() == name) {
        Some(number) => Ok(number),
        None => Err(Mistake::Word),
    }
}

impl File {
    /// A file without sections.
    pub fn new(alloc: Global) -> File {
        File {
            name: String::new(alloc),
            sections: Vec::new(alloc),
        }
    }

    /// A section, through a reader that borrows its bytes.
    pub fn reader(&self, id: SectionId) -> Borrowed<'_> {
        match self.sections.iter().find(|section| section.0 == id) {
            Some((_, bytes)) => EndianSlice::new(bytes, LittleEndian),
            None => EndianSlice::new(&[], LittleEndian),
        }
    }

    /// Adds a section, in place of an earlier one.
    pub fn set(&mut self, id: SectionId, bytes: Vec<u8>) -> Result<(), AllocError> {
        self.sections.retain(|section| section.0 != id);
        self.sections.push((id, bytes))?;
        Ok(())
    }

    /// Adds bytes to the last section.
    pub fn extend(&mut self, bytes: &[u8]) -> Result<(), AllocError> {
        match self.sections.last_mut() {
            Some((_, section)) => section.extend_from_slice(bytes),
            None => Ok(()),
        }
    }

    /// Adds the sections of another file.
    pub fn set_all(&mut self, alloc: Global, other: &File) -> Result<(), AllocError> {
        for (id, bytes) in other.sections.iter() {
            let mut copy = Vec::new(alloc);
            copy.extend_from_slice(bytes)?;
            self.set(*id, copy)?;
        }
        Ok(())
    }
}

// ---- readers

/// The sections of a file, through readers.
#[derive(Drop)]
pub struct Sections<R: Reader> {
    readers: Vec<(SectionId, R)>,
    // A section without bytes.
    nothing: R,
}

impl<R: Reader> Sections<R> {
    fn section(&self, id: SectionId) -> &R {
        match self.readers.iter().find(|section| section.0 == id) {
            Some((_, section)) => section,
            None => &self.nothing,
        }
    }

    pub fn load(&self, alloc: Global) -> Result<Dwarf<R>, Error> {
        Dwarf::load(alloc, |id: SectionId| -> Result<R, Error> {
            self.section(id).copy()
        })
    }

    /// Adds these sections to a file, as its supplement's.
    pub fn load_sup(&self, alloc: Global, dwarf: &mut Dwarf<R>) -> Result<(), Error> {
        dwarf.load_sup(alloc, |id: SectionId| -> Result<R, Error> {
            self.section(id).copy()
        })
    }
}

pub type Borrowed<'a> = EndianSlice<'a, LittleEndian>;

pub type Shared = EndianBytes<LittleEndian>;

/// The sections of a file, through readers that borrow their bytes.
pub fn borrow_sections<'a>(
    alloc: Global,
    file: &'a File,
) -> Result<Sections<Borrowed<'a>>, AllocError> {
    let mut readers = Vec::new(alloc);
    for (id, bytes) in file.sections.iter() {
        readers.push((*id, EndianSlice::new(bytes, LittleEndian)))?;
    }
    Ok(Sections {
        readers,
        nothing: EndianSlice::new(&[], LittleEndian),
    })
}

/// The same, through readers that share them.
pub fn share_sections(alloc: Global, file: &File) -> Result<Sections<Shared>, AllocError> {
    let mut readers = Vec::new(alloc);
    for (id, bytes) in file.sections.iter() {
        let bytes = Bytes::copy_from_slice(alloc, bytes)?;
        readers.push((*id, EndianBytes::new(bytes, LittleEndian)))?;
    }
    Ok(Sections {
        readers,
        nothing: EndianBytes::new(Bytes::from_static(b""), LittleEndian),
    })
}

/// The sections of some files, through readers that borrow their bytes.
pub fn borrowed_files<'a>(
    alloc: Global,
    files: &'a [File],
) -> Result<Vec<Sections<Borrowed<'a>>>, AllocError> {
    let mut all = Vec::new(alloc);
    for file in files {
        all.push(borrow_sections(alloc, file)?)?;
    }
    Ok(all)
}

/// The same, through readers that share them.
pub fn shared_files(alloc: Global, files: &[File]) -> Result<Vec<Sections<Shared>>, AllocError> {
    let mut all = Vec::new(alloc);
    for file in files {
        all.push(share_sections(alloc, file)?)?;
    }
    Ok(all)
}
