use crate::LineString;

/// A directory of a program, by its place among them.
#[derive(Clone, Copy, Debug, PartialEq, Eq, PartialOrd, Ord, Hash)]
pub struct DirectoryId(pub usize);

/// What is recorded of a file (DWARF 5, 6.2.4.1).
#[derive(Debug, Drop)]
pub struct FileInfo {
    /// When the file was modified, 0 where it isn't known.
    pub timestamp: u64,
    /// The bytes of the file, 0 where they aren't known.
    pub size: u64,
    /// The digest of the file's bytes.
    pub md5: [u8; 16],
    /// The text of the file.
    pub source: Option<LineString>,
}

impl Default for FileInfo {
    ghost use Rattle.std.specs.Prelude.{◌≡◌};
    ghost use Rattle.gimli_lines_write_tables.specs.FileTables.{info_of, no_info};

    ghost is_default = { λ i. info_of i ≡ no_info };

    /// Nothing is recorded.
    fn default() -> Self {
        FileInfo {
            timestamp: 0,
            size: 0,
            md5: [0; 16],
            source: None,
        }
    }
}

/// A file, by its path and its directory.
#[derive(Debug, Drop, PartialEq, Eq, Hash)]
pub struct FileKey {
    pub path: LineString,
    pub directory: DirectoryId,
}
