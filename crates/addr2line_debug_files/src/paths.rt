//! Paths of the files with an image's debugging information. A path is bytes, and its parts are
//! separated by slashes.

ghost use Rattle.std.specs.Prelude.{◌≡◌, ◌++◌, ◌≤◌, length, IfOk, OnOk};
ghost use Rattle.std.specs.List.{flat_map};
ghost use Rattle.addr2line_debug_files.specs.Candidates.{folder_of, is_absolute, path_from, build_id_path, build_id_paths, link_paths, supplement_paths};

use crate::links::SupplementLink;
use bytes::Bytes;
use std::alloc::{AllocError, Global};

pub(crate) const SLASH: u8 = b'/';

// The path of a file's folder, with its last slash.
pub(crate) fn folder_of(path: &[u8]) -> &[u8]
    ensures { result.now ≡ folder_of path.now }
{
    let mut len = path.len();
    while len > 0 && path[len - 1] != SLASH {
        len -= 1;
    }
    &path[..len]
}

// Whether a path begins at the root.
fn is_absolute(path: &[u8]) -> bool
    ensures { result ≡ is_absolute path.now }
{
    path.first() == Some(&SLASH)
}

// Texts, one after the other.
fn concat(alloc: Global, parts: &[&[u8]]) -> Result<Bytes, AllocError>
    ensures { IfOk result (λ path. path ≡ flat_map (λ part. part.now) parts.now) }
{
    let mut path = Vec::new(alloc);
    for part in parts {
        path.extend_from_slice(part)?;
    }
    Ok(Bytes::from_vec(path)?)
}

// A path as it counts from a folder.
fn path_from(alloc: Global, folder: &[u8], path: &[u8]) -> Result<Bytes, AllocError>
    ensures { IfOk result (λ joined. joined ≡ path_from folder.now path.now) }
{
    if is_absolute(path) {
        Bytes::copy_from_slice(alloc, path)
    } else {
        concat(alloc, &[folder, path])
    }
}

// The file of a build identifier under a debug folder.
#[tactic(auto, unfolding(crate::specs::Candidates::build_id_path))]
fn build_id_path(alloc: Global, id: &[u8], debug_folder: &[u8]) -> Result<Bytes, AllocError>
    requires { 2 ≤ length id.now }
    ensures { IfOk result (λ path. path ≡ build_id_path id.now debug_folder.now) }
{
    let (first, rest) = id.split_at(1);
    let first = hex::encode(alloc, first)?;
    let rest = hex::encode(alloc, rest)?;
    concat(
        alloc,
        &[
            debug_folder,
            b"/.build-id/",
            first.as_bytes(),
            b"/",
            rest.as_bytes(),
            b".debug",
        ],
    )
}

// The files of a build identifier under the debug folders; none, if it has one byte.
pub(crate) fn build_id_paths(
    alloc: Global,
    id: &[u8],
    debug_folders: &[Bytes],
) -> Result<Vec<Bytes>, AllocError>
    ensures { IfOk result (λ paths. paths.items ≡ build_id_paths id.now debug_folders.now) }
{
    let mut paths = Vec::new(alloc);
    add_build_id_paths(alloc, &mut paths, id, debug_folders)?;
    Ok(paths)
}

fn add_build_id_paths(
    alloc: Global,
    paths: &mut Vec<Bytes>,
    id: &[u8],
    debug_folders: &[Bytes],
) -> Result<(), AllocError>
    ensures { OnOk result (paths.new.items
        ≡ paths.old.items ++ build_id_paths id.now debug_folders.now) }
{
    if id.len() < 2 {
        return Ok(());
    }
    for debug_folder in debug_folders {
        paths.push(build_id_path(alloc, id, debug_folder.as_slice())?)?;
    }
    Ok(())
}

// Where a file of a name may be that a debug link names.
pub(crate) fn link_paths(
    alloc: Global,
    name: &[u8],
    folder: &[u8],
    debug_folders: &[Bytes],
) -> Result<Vec<Bytes>, AllocError>
    ensures { IfOk result (λ paths. paths.items
        ≡ link_paths name.now folder.now debug_folders.now) }
{
    let mut paths = Vec::new(alloc);
    paths.push(concat(alloc, &[folder, name])?)?;
    paths.push(concat(alloc, &[folder, b".debug/", name])?)?;
    if is_absolute(folder) {
        for debug_folder in debug_folders {
            paths.push(concat(alloc, &[debug_folder.as_slice(), folder, name])?)?;
        }
    }
    Ok(paths)
}

// Where a supplement may be that a file in a folder names.
pub(crate) fn supplement_paths(
    alloc: Global,
    link: &SupplementLink,
    folder: &[u8],
    debug_folders: &[Bytes],
) -> Result<Vec<Bytes>, AllocError>
    ensures { IfOk result (λ paths. paths.items
        ≡ supplement_paths link.now folder.now debug_folders.now) }
{
    let mut paths = Vec::new(alloc);
    paths.push(path_from(alloc, folder, link.name.as_slice())?)?;
    add_build_id_paths(alloc, &mut paths, link.build_id.as_slice(), debug_folders)?;
    Ok(paths)
}
