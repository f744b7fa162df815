/// What a header of version 5 records of files beside their paths and directories (DWARF 5,
/// 6.2.4.1).
#[derive(Clone, Copy, Debug, PartialEq, Eq)]
pub struct FileDetails {
    pub has_timestamp: bool,
    pub has_size: bool,
    pub has_md5: bool,
    /// The texts of the files.
    pub has_source: bool,
}
