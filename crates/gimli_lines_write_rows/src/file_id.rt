ghost use Rattle.std.specs.Prelude.{◌≡◌};
ghost use Rattle.gimli_lines_write_rows.specs.BuiltRows.{raw_file};

/// A file of a program that is built, by its place among them.
#[derive(Clone, Copy, Debug, PartialEq, Eq, PartialOrd, Ord, Hash)]
pub struct FileId(pub usize);

impl FileId {
    /// The number by which rows name the file: from 1 on up to version 4, from 0 on in version 5
    /// (DWARF 5, 6.2.4).
    pub fn raw(self, version: u16) -> u64
        ensures { result ≡ raw_file version self.0 }
    {
        if version <= 4 {
            (self.0 as u64).wrapping_add(1)
        } else {
            self.0 as u64
        }
    }
}
