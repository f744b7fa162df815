//! The numbers of a unit's files.

ghost use Rattle.std.specs.Prelude.{◌≡◌, ◌<◌, length};
ghost use Rattle.linemap_emit_programs.specs.EmittedFiles.{file_number};

use linemap_emit_programs::FileId;

/// The number by which calls name a file of a unit, whose files have these ids in a line number
/// program of a version.
pub fn number_in(version: u16, ids: &[FileId], file: u64) -> u64
    requires { file < length ids.now }
    ensures { result ≡ file_number version ids.now file }
{
    ids[file as usize].raw(version)
}
