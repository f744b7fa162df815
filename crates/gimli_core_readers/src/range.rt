/// The addresses from `begin` up to, and without, `end` (DWARF 5, 2.17.3).
#[derive(Clone, Copy, Debug, PartialEq, Eq, Hash)]
pub struct Range {
    pub begin: u64,
    pub end: u64,
}
