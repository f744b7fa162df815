use crate::Reader;

/// The bytes of a DWARF expression (DWARF 5, 2.5), which aren't evaluated here.
#[derive(Debug, Drop)]
pub struct Expression<R: Reader>(pub R);
