//! What settling a lookup gives.

/// Whether a lookup waits, and else what answers it, if something does.
#[derive(Drop)]
pub enum Settled<P> {
    /// A load needs an answer before.
    Waits,
    /// Nothing answers.
    Nothing,
    /// This answers.
    Found(P),
}
