//! A counter that takes no bytes. What it counts shows in contracts alone.

ghost use Rattle.std.specs.Prelude.{◌≡◌, ℕ, ◌+◌};
ghost use Rattle.std.specs.Borrow.{ftrue};

use std::marker::Model;

/// How often something was done. It takes no bytes, and `raise` alone changes it. Of two counters
/// that were made apart nothing says that their names are equal, so none can stand in for another.
#[derive(Drop)]
pub struct Tally {
    seal: (),
    pub ghost name: { ℕ },
    pub ghost count: { ℕ },
}

impl Model for Tally {
    ghost also_owns = { λ _. ftrue };
}

/// The name of a counter. It takes no bytes.
#[derive(Drop)]
pub struct Mark {
    seal: (),
    pub ghost name: { ℕ },
}

impl Model for Mark {
    ghost also_owns = { λ _. ftrue };
}

impl Tally {
    /// A counter at 0.
    pub fn new() -> Self
        ensures { result.count ≡ 0 }
    {
        Tally { seal: () }
    }

    // A counter at 0 of this name.
    pub(crate) fn named(mark: &Mark) -> Self
        ensures { (result.name ≡ mark.now.name) × (result.count ≡ 0) }
    {
        Tally { seal: () }
    }

    /// Counts one more.
    pub fn raise(&mut self)
        ensures { self.new ≡ record self.old { count = self.old.count + 1 } }
    {}

    /// Its name.
    pub fn mark(&self) -> Mark
        ensures { result.name ≡ self.now.name }
    {
        Mark { seal: () }
    }
}
