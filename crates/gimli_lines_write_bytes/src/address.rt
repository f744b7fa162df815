/// An address that is written: known now, or by the linker alone.
#[derive(Clone, Copy, Debug, PartialEq, Eq)]
pub enum Address {
    /// A number.
    Constant(u64),
    /// A place that a relocation names.
    Symbol {
        /// The symbol, as the writer numbers it.
        symbol: usize,
        /// How far after the symbol the place is.
        addend: i64,
    },
}
