//! Numbers and digests, which are within the ranges of their types.

ghost use Rattle.std.specs.Prelude.{◌<◌, ◌^◌, All, length, map};
ghost use Rattle.gimli_lines_write_laws.specs.FileTables.{info_of};
ghost use Rattle.gimli_lines_write_laws.specs.EntryFields.{IsDigest};
ghost use Rattle.gimli_lines_write_laws.specs.ProgramReadBack.{InfoFits};

use gimli_lines_write_laws::{FileInfo, LineString};

/// A slice has fewer texts than 2^64.
pub fn are_few(texts: &[LineString])
    ensures { length texts.now < 2 ^ 64 }
{
    let _count = texts.len();
}

// A number has 64 bits.
fn is_word(n: u64)
    ensures { n < 2 ^ 64 }
{
    let _n = n;
}

// Bytes are below 256.
fn are_bytes(bytes: &[u8])
    ensures { All (λ b. b < 256) bytes.now }
{}

// A digest has sixteen bytes.
fn is_digest(md5: &[u8; 16])
    ensures { IsDigest md5.now }
{
    let _count = md5.len();
    are_bytes(md5);
}

// What is recorded of a file has the ranges of its types.
fn is_in_range(info: &FileInfo)
    ensures { InfoFits (info_of info.now) }
{
    is_word(info.timestamp);
    is_word(info.size);
    is_digest(&info.md5);
}

/// What is recorded of files has the ranges of its types.
pub fn are_in_range(infos: &[FileInfo])
    ensures { All InfoFits (map info_of infos.now) }
{
    for info in infos {
        is_in_range(info);
    }
}
