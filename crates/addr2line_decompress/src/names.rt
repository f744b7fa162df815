//! The names of the sections of an image, with new ones for those in GNU's old form.

ghost use Rattle.std.specs.Prelude.{◌≡◌, ◌<◌, ◌≤◌, ◌+◌, ◌^◌, ◌==◌, ◌++◌, ◌||◌, length, option_map, not, IfOk, OnOk, OnErr};
ghost use Rattle.std.specs.List.{slice_get, find};
ghost use Rattle.std.specs.Option.{is_some};
ghost use Rattle.addr2line_elf.specs.ElfSymbols.{symbol_table};
ghost use Rattle.addr2line_decompress.specs.DecompressResults.{DecompressesAsOrNoMemory};
ghost use Rattle.addr2line_decompress.specs.CompressedSections.{if_free, new_name_for, new_name_of, ended, added_names, with_added, new_names, names_start, link_of, refuse_unnamed, refuse_new_names};
ghost use Rattle.addr2line_decompress.specs.WrittenBytes.{WritesNames};

use crate::constants::SHF_COMPRESSED;
use crate::error::DecompressError;
use crate::sections::{DebugSections, is_old_name, new_name};
use crate::streams::has_other_type;
use crate::table::ImageTable;
use addr2line_elf::headers::SectionHeader;
use addr2line_elf::symbols::symbol_table;
use std::alloc::{AllocError, Global};

impl ImageTable {
    // The new name of a section in GNU's old form; none where it isn't one. It looks at each
    // section if the name is such a name.
    pub(crate) fn new_name_of(
        &self,
        alloc: Global,
        which: DebugSections,
        index: usize,
        header: &SectionHeader,
    ) -> Result<Option<Vec<u8>>, DecompressError>
        ensures { DecompressesAsOrNoMemory (λ name. option_map (λ n. n.items) name) result
            (Ok (new_name_of which self.now.image index header.now)) }
    {
        if index == 0 || header.flags & SHF_COMPRESSED != 0 || has_other_type(header) {
            return Ok(None);
        }
        match self.name_of(header) {
            Some(name) => self.new_name_for(alloc, which, name),
            None => Ok(None),
        }
    }

    // The new name for a name.
    fn new_name_for(
        &self,
        alloc: Global,
        which: DebugSections,
        name: &[u8],
    ) -> Result<Option<Vec<u8>>, DecompressError>
        ensures { DecompressesAsOrNoMemory (λ new. option_map (λ n. n.items) new) result
            (Ok (new_name_for which self.now.image (Some name.now))) }
    {
        if !is_old_name(name) {
            return Ok(None);
        }
        let new = new_name(alloc, name)?;
        if which.contains(&new) && self.is_free(&new) {
            Ok(Some(new))
        } else {
            Ok(None)
        }
    }

    // Adds the new names of all sections, each with a zero byte after it.
    fn add_names(
        &self,
        alloc: Global,
        which: DebugSections,
        names: &mut Vec<u8>,
    ) -> Result<(), DecompressError>
        ensures { WritesNames result names.old.items names.new.items
            (added_names which self.now.image 0 self.now.image.sections) }
    {
        for (index, header) in self.headers().iter().enumerate() {
            if let Some(name) = self.new_name_of(alloc, which, index, header)? {
                add_name(names, &name)?;
            }
        }
        Ok(())
    }

    // The names of all sections, the old ones and then the new ones; none where no section gets a
    // new one.
    pub(crate) fn new_names(
        &self,
        alloc: Global,
        which: DebugSections,
    ) -> Result<Option<Vec<u8>>, DecompressError>
        ensures { DecompressesAsOrNoMemory (λ names. option_map (λ n. n.items) names) result
            (Ok (new_names which self.now.image)) }
    {
        let mut names = Vec::new(alloc);
        names.extend_from_slice(self.names())?;
        let len = names.len();
        self.add_names(alloc, which, &mut names)?;
        if names.len() == len {
            Ok(None)
        } else {
            Ok(Some(names))
        }
    }

    // The index of the section with the names of the symbols; 0 where there are no symbols.
    pub(crate) fn symbol_names_index(&self) -> u32
        ensures { result ≡ link_of (symbol_table self.now.image.sections) }
    {
        match symbol_table(self.headers()) {
            Some(header) => header.link,
            None => 0,
        }
    }

    // Refuses a section without a name, but for that of index 0.
    fn refuse_unnamed(&self) -> Result<(), DecompressError>
        ensures { DecompressesAsOrNoMemory (λ _. tt) result
            (refuse_unnamed self.now.image 0 self.now.image.sections) }
    {
        for (index, header) in self.headers().iter().enumerate() {
            if index != 0 && self.name_of(header).is_none() {
                return Err(DecompressError::NameCut(index));
            }
        }
        Ok(())
    }

    // Where the new names begin in the names, if there are some.
    pub(crate) fn names_start(&self, names: Option<&[u8]>) -> usize
        ensures { result ≡ names_start self.now.image (option_map (λ n. n.now) names.entry) }
    {
        match names {
            Some(_) => self.names().len(),
            None => 0,
        }
    }

    // Refuses new names that would change what else is read, or are too many.
    pub(crate) fn refuse_new_names(&self, names: Option<&[u8]>) -> Result<(), DecompressError>
        ensures { DecompressesAsOrNoMemory (λ _. tt) result
            (refuse_new_names self.now (option_map (λ n. n.now) names.entry)) }
    {
        let Some(names) = names else {
            return Ok(());
        };
        let index = self.names_index();
        if self.symbol_names_index() == index {
            return Err(DecompressError::SharedNames(index as usize));
        }
        self.refuse_unnamed()?;
        if names.len() as u64 >= 1 << 32 {
            return Err(DecompressError::TooLarge);
        }
        Ok(())
    }
}

// Adds a name, with a zero byte after it.
fn add_name(names: &mut Vec<u8>, name: &[u8]) -> Result<(), AllocError>
    ensures { OnOk result (names.new.items ≡ names.old.items ++ ended (Some name.now)) }
{
    names.extend_from_slice(name)?;
    names.push(0)?;
    Ok(())
}
