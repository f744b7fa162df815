//! Where the files with an image's debugging information may be.

ghost use Rattle.std.specs.Prelude.{◌≡◌, ◌++◌, IfOk, OnOk};
ghost use Rattle.addr2line_debug_files.specs.Candidates.{build_id_paths, link_paths, supplement_paths, candidates_at, without, debug_file_names, supplement_names};

use crate::links::{build_id, debug_link, supplement_link};
use crate::paths::{build_id_paths, folder_of, link_paths, supplement_paths};
use addr2line_elf::Elf;
use bytes::Bytes;
use std::alloc::{AllocError, Global};

/// What makes a file the one that is named.
#[derive(Clone, Debug, Drop)]
pub enum Identity {
    /// The file's build identifier.
    BuildId(Bytes),
    /// The CRC-32 of the whole file.
    Crc(u32),
}

/// A path at which a file may be, and what makes it the right one.
#[derive(Debug, Drop)]
pub struct Candidate {
    pub path: Bytes,
    pub identity: Identity,
}

/// Where the debug file of the program at a path may be, in the order in which GDB looks: by its
/// build identifier under each debug folder; by its debug link beside the program, in the folder
/// `.debug` there, and under each debug folder in the program's own folder, where the path is
/// absolute. The path itself is left out. Takes memory for the list. It looks at each section, and
/// opens no file.
pub fn debug_file_names(
    alloc: Global,
    elf: &Elf,
    path: &[u8],
    debug_folders: &[Bytes],
) -> Result<Vec<Candidate>, AllocError>
    ensures { IfOk result (λ names. names.items
        ≡ debug_file_names elf.now path.now debug_folders.now) }
{
    let mut names = Vec::new(alloc);
    if let Some(id) = build_id(alloc, elf)? {
        let paths = build_id_paths(alloc, id.as_slice(), debug_folders)?;
        add_candidates(&mut names, path, &paths, &Identity::BuildId(id))?;
    }
    if let Some(link) = debug_link(alloc, elf)? {
        let folder = folder_of(path);
        let paths = link_paths(alloc, link.name.as_slice(), folder, debug_folders)?;
        add_candidates(&mut names, path, &paths, &Identity::Crc(link.crc))?;
    }
    Ok(names)
}

/// Where the supplement of the file at a path may be, in the order in which GDB looks: at the path
/// that the file says, from the root or from the file's folder, and by the supplement's build
/// identifier under each debug folder. The path itself is left out. Takes memory for the list. It
/// looks at each section, and opens no file.
pub fn supplement_names(
    alloc: Global,
    elf: &Elf,
    path: &[u8],
    debug_folders: &[Bytes],
) -> Result<Vec<Candidate>, AllocError>
    ensures { IfOk result (λ names. names.items
        ≡ supplement_names elf.now path.now debug_folders.now) }
{
    let mut names = Vec::new(alloc);
    if let Some(link) = supplement_link(alloc, elf)? {
        let paths = supplement_paths(alloc, &link, folder_of(path), debug_folders)?;
        add_candidates(&mut names, path, &paths, &Identity::BuildId(link.build_id))?;
    }
    Ok(names)
}

// Adds the paths at which a file may be, all but its own.
fn add_candidates(
    names: &mut Vec<Candidate>,
    own_path: &[u8],
    paths: &[Bytes],
    identity: &Identity,
) -> Result<(), AllocError>
    ensures { OnOk result (names.new.items
        ≡ names.old.items ++ without own_path.now (candidates_at identity.now paths.now)) }
{
    for path in paths {
        if path.as_slice() != own_path {
            names.push(Candidate {
                path: path.clone()?,
                identity: identity.clone()?,
            })?;
        }
    }
    Ok(())
}
