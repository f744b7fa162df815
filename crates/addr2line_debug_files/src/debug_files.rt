//! The debug file of a program, and that file's supplement.

ghost use Rattle.std.specs.Prelude.{◌≡◌, ◌≢◌, Err, IfOk, IfErr};
ghost use Rattle.addr2line_elf.specs.ElfImages.{image_of};
ghost use Rattle.addr2line_elf.specs.declared.error.LoadError.TheVariants.{Memory};
ghost use Rattle.addr2line_debug_files.specs.Searches.{supplement_names_of, FindsDebugFile, FindsSupplement, FindsDebugFiles};

use crate::candidates::{Candidate, debug_file_names, supplement_names};
use crate::files::{FilesByPath, NamedFile};
use crate::links::has_debug_info;
use crate::readable::if_readable;
use crate::search::find_first;
use addr2line_elf::{Elf, LoadError};
use bytes::Bytes;
use std::alloc::{AllocError, Global};

/// The files with the debugging information of a program.
#[derive(Debug, Drop)]
pub struct DebugFiles {
    /// The program itself, if it has debugging information, or else the file that was found.
    pub debug_file: Option<NamedFile>,
    /// The supplement of that file.
    pub supplement: Option<NamedFile>,
}

/// The debug file of a program, and that file's supplement. A program that has debugging
/// information of its own is its debug file. Refused is a program whose headers can't be read, and
/// out of memory; a file that can't be read is none. The program's path is taken as it is: from the
/// root on and without symbolic links, it leads to all files that count from its folder. The files
/// are opened at which `debug_file_names` and `supplement_names` say that they may be, up to the
/// first that is the one that is named.
pub fn find_debug_files<F: FilesByPath>(
    alloc: Global,
    program: &NamedFile,
    debug_folders: &[Bytes],
    files: &mut F,
) -> Result<DebugFiles, LoadError>
    ensures files { IfOk result (λ found.
        FindsDebugFiles F.answers program.now debug_folders.now files.old found files.new) }
    ensures refusal { IfErr result (λ e. e ≢ Memory → image_of program.now.bytes ≡ Err e) }
{
    let elf = Elf::parse(alloc, program.bytes.clone()?)?;
    let debug_file = find_debug_file(alloc, &elf, program, debug_folders, files)?;
    let supplement = find_supplement(alloc, &debug_file, debug_folders, files)?;
    Ok(DebugFiles {
        debug_file,
        supplement,
    })
}

// The debug file of a program whose headers are read.
fn find_debug_file<F: FilesByPath>(
    alloc: Global,
    elf: &Elf,
    program: &NamedFile,
    debug_folders: &[Bytes],
    files: &mut F,
) -> Result<Option<NamedFile>, AllocError>
    ensures { IfOk result (λ found. FindsDebugFile F.answers elf.now program.now
        debug_folders.now files.old found files.new) }
{
    if has_debug_info(elf)? {
        return Ok(Some(program.clone()?));
    }
    let names = debug_file_names(alloc, elf, program.path.as_slice(), debug_folders)?;
    find_first(alloc, &names, files)
}

// The supplement of a file that may be there.
fn find_supplement<F: FilesByPath>(
    alloc: Global,
    debug_file: &Option<NamedFile>,
    debug_folders: &[Bytes],
    files: &mut F,
) -> Result<Option<NamedFile>, AllocError>
    ensures { IfOk result (λ found. FindsSupplement F.answers debug_file.now debug_folders.now
        files.old found files.new) }
{
    match debug_file {
        Some(file) => {
            let names = supplement_names_of(alloc, file, debug_folders)?;
            find_first(alloc, &names, files)
        }
        None => Ok(None),
    }
}

// Where the supplement of a file may be.
fn supplement_names_of(
    alloc: Global,
    file: &NamedFile,
    debug_folders: &[Bytes],
) -> Result<Vec<Candidate>, AllocError>
    ensures { IfOk result (λ names. names.items
        ≡ supplement_names_of file.now debug_folders.now) }
{
    match if_readable(Elf::parse(alloc, file.bytes.clone()?))? {
        Some(elf) => supplement_names(alloc, &elf, file.path.as_slice(), debug_folders),
        None => Ok(Vec::new(alloc)),
    }
}
