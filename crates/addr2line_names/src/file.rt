/// Which of a context's files something is in.
#[derive(Clone, Copy, Debug, PartialEq, Eq)]
pub enum DebugFile {
    /// The main file.
    Primary,
    /// The main file's supplement (DWARF 5, 7.3.6).
    Supplementary,
    /// A split file (DWARF 5, 7.3.2).
    Dwo,
}
