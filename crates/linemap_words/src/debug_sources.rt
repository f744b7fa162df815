//! Where the debug information of a file comes from, beside the file itself.
ghost use Rattle.std.specs.Prelude.{◌≡◌, IfErr, IfOk, Some, codes, option_map};
ghost use Rattle.clap.specs.Words.{found_of, kind_of, rows_of};
ghost use Rattle.linemap_words.specs.WordsRequest.{AreSourcesOf, IsMismatch, folders_of, texts_of, usual_folders};

use crate::command_line::{DEBUG_DIR, DECOMPRESS, FIND_DEBUG, lookup_command};
use crate::matches::{is_set, texts_at};
use crate::request::Mismatch;
use clap::ArgMatches;
use clap::error::ErrorKind;
use std::alloc::{AllocError, Global};

/// Where separate debug files are looked for, if no folder is named.
pub const DEBUG_FOLDER: &str = "/usr/lib/debug";

/// Where the debug information of a file comes from, beside the file itself.
#[derive(Debug, Drop)]
pub struct DebugSources {
    /// Whether compressed sections are decompressed. They are in separate debug files.
    pub decompress: bool,
    /// The folders in which separate debug files are looked for; none where they aren't.
    pub folders: Option<Vec<String>>,
}

/// Where the matches of `lookup` take debug information from.
pub(crate) fn debug_sources_in(
    alloc: Global,
    matches: &ArgMatches<'_>,
) -> Result<DebugSources, Mismatch>
    ensures sources { IfOk result
        (λ sources. AreSourcesOf sources (rows_of (found_of matches.now))) }
    ensures refusal { IfErr result
        (λ why. IsMismatch why (Some (codes "lookup", rows_of (found_of matches.now)))) }
{
    let find_debug = is_set(matches, FIND_DEBUG);
    let named = texts_at(alloc, matches, DEBUG_DIR)?;
    if !find_debug && named.is_some() {
        return Err(Mismatch::UnusedFolder);
    }
    Ok(DebugSources {
        decompress: find_debug || is_set(matches, DECOMPRESS),
        folders: folders_of(alloc, find_debug, named)?,
    })
}

// The folders in which debug files are looked for, if they are: those that are named, or else the
// usual one.
fn folders_of(
    alloc: Global,
    find_debug: bool,
    named: Option<Vec<String>>,
) -> Result<Option<Vec<String>>, AllocError>
    ensures { IfOk result (λ folders. option_map texts_of folders
        ≡ folders_of find_debug (option_map texts_of named)) }
{
    match named {
        _ if !find_debug => Ok(None),
        Some(named) => Ok(Some(named)),
        None => Ok(Some(usual_folder(alloc)?)),
    }
}

// The usual folder of debug files.
fn usual_folder(alloc: Global) -> Result<Vec<String>, AllocError>
    ensures { IfOk result (λ folders. texts_of folders ≡ usual_folders) }
{
    let folders = vec![in alloc; String::from_str(alloc, DEBUG_FOLDER)?]?;
    Ok(folders)
}

// The error of matches of `lookup` that name a folder of debug files where none are looked for.
pub(crate) fn unused_folder(alloc: Global) -> Result<clap::Error, AllocError>
    ensures { IfOk result (λ error. kind_of error ≡ ErrorKind.MissingRequiredArgument) }
{
    let mut command = lookup_command(alloc)?.bin_name("linemap lookup")?;
    let message = "the following required arguments were not provided:\n  --find-debug";
    command.error(ErrorKind::MissingRequiredArgument, message)
}
