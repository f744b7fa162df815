//! The subcommand `lookup`: the files that it reads.

use bytes::Bytes;
use linemap_commands::cannot_load;
use linemap_lookup::{
    DecompressedSource, Ended, FileParts, FileSource, LoadError, Loader, NamedFile, SystemFiles,
    load_decompressed, load_found, load_out_of_memory, read_file, read_parts, run, run_loaded,
};
use linemap_text::out_of_memory;
use linemap_words::{DebugSources, Options};
use std::alloc::AllocError;
use std::fs;
use std::io::{BufReader, ErrorKind, Write};
use std::rt::Files;

/// Looks addresses up in a file: in its own debug information, or where the options say, in that of
/// the debug file that is found for it.
pub fn look_up<R: Files + Input + AllocGlobal, O: Write, E: Write>(
    rt: &R,
    exe: &str,
    sup: Option<String>,
    sources: &DebugSources,
    options: &Options,
    out: &mut O,
    err: &mut E,
) -> u8 {
    if !sources.decompress {
        return look_up_parts(rt, exe, sup, options, out, err);
    }
    match load_from(rt, exe, sup, sources, err) {
        Ok(loader) => look_up_loaded(rt, loader, options, out, err),
        Err(ended) => ended.status,
    }
}

// Looks addresses up in a file, of which only the parts that a loader needs are read.
fn look_up_parts<R: Files + Input + AllocGlobal, O: Write, E: Write>(
    rt: &R,
    exe: &str,
    sup: Option<String>,
    options: &Options,
    out: &mut O,
    err: &mut E,
) -> u8 {
    let (image, supplement) = match read_parts_of(rt, exe, sup) {
        Ok(files) => files,
        Err(error) => return refuse(err, error).status,
    };
    let mut lines = match BufReader::new(rt.alloc(), rt.reader()) {
        Ok(lines) => lines,
        Err(_) => return out_of_memory(err).status,
    };
    let source = FileSource::new(rt);
    run(
        rt.alloc(),
        options,
        image,
        supplement,
        source,
        &mut lines,
        out,
        err,
    )
    .status
}

// The parts of a file and of its supplement that a loader needs.
fn read_parts_of<R: Files + AllocGlobal>(
    rt: &R,
    exe: &str,
    sup: Option<String>,
) -> Result<(FileParts, Option<FileParts>), LoadError> {
    let image = read_parts(rt, exe)?;
    let supplement = match sup {
        Some(path) => Some(read_parts(rt, path.as_str())?),
        None => None,
    };
    Ok((image, supplement))
}

// All bytes of a file and of its supplement.
fn read_all_of<R: Files + AllocGlobal>(
    rt: &R,
    exe: &str,
    sup: Option<String>,
) -> Result<(Bytes, Option<Bytes>), LoadError> {
    let image = read_file(rt, exe)?;
    let supplement = match sup {
        Some(path) => Some(read_file(rt, path.as_str())?),
        None => None,
    };
    Ok((image, supplement))
}

// Loads a file with its supplement, both decompressed, or the debug file that is found for it.
fn load_from<R: Files + AllocGlobal, E: Write>(
    rt: &R,
    exe: &str,
    sup: Option<String>,
    sources: &DebugSources,
    err: &mut E,
) -> Result<Loader, Ended> {
    let (image, supplement) = match read_all_of(rt, exe, sup) {
        Ok(files) => files,
        Err(error) => return Err(refuse(err, error)),
    };
    match &sources.folders {
        Some(folders) => load_by_search(rt, exe, image, supplement, folders, err),
        None => load_decompressed(rt.alloc(), image, supplement, err),
    }
}

// Loads the debug file that is found for a program, or the program itself.
fn load_by_search<R: Files + AllocGlobal, E: Write>(
    rt: &R,
    exe: &str,
    image: Bytes,
    supplement: Option<Bytes>,
    folders: &[String],
    err: &mut E,
) -> Result<Loader, Ended> {
    let alloc = rt.alloc();
    match paths_of(rt, exe, image, folders) {
        Ok((program, folders)) => {
            let mut files = SystemFiles::new(rt);
            load_found(alloc, exe, &program, &folders, supplement, &mut files, err)
        }
        Err(_) => Err(load_out_of_memory(err)),
    }
}

// A program with its own path, and the paths of the folders of debug files.
fn paths_of<R: Files + AllocGlobal>(
    rt: &R,
    exe: &str,
    image: Bytes,
    folders: &[String],
) -> Result<(NamedFile, Vec<Bytes>), AllocError> {
    let alloc = rt.alloc();
    let mut paths = Vec::new(alloc);
    for folder in folders {
        paths.push(Bytes::copy_from_slice(alloc, folder.as_bytes())?)?;
    }
    let path = own_path(rt, exe)?;
    Ok((NamedFile { path, bytes: image }, paths))
}

// The path of a file from the root on and without symbolic links; where that isn't known, as it is
// given.
fn own_path<R: Files + AllocGlobal>(rt: &R, path: &str) -> Result<Bytes, AllocError> {
    match fs::canonicalize(rt, path) {
        Ok(path) => Bytes::copy_from_slice(rt.alloc(), path.as_str().as_bytes()),
        Err(error) if error.kind() == ErrorKind::OutOfMemory => Err(AllocError),
        Err(_) => Bytes::copy_from_slice(rt.alloc(), path.as_bytes()),
    }
}

// Looks addresses up in a file that is loaded, and in its split files, decompressed.
fn look_up_loaded<R: Files + Input + AllocGlobal, O: Write, E: Write>(
    rt: &R,
    loader: Loader,
    options: &Options,
    out: &mut O,
    err: &mut E,
) -> u8 {
    let mut lines = match BufReader::new(rt.alloc(), rt.reader()) {
        Ok(lines) => lines,
        Err(_) => return out_of_memory(err).status,
    };
    let source = DecompressedSource::new(rt.alloc(), FileSource::new(rt));
    run_loaded(rt.alloc(), options, loader, source, &mut lines, out, err).status
}

// Ends after a file that is not read.
fn refuse<E: Write>(err: &mut E, error: LoadError) -> Ended {
    match error {
        LoadError::Memory => load_out_of_memory(err),
        _ => cannot_load(err),
    }
}
