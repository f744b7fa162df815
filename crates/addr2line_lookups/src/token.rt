//! Tokens for answers to loads.

ghost use Rattle.std.specs.Prelude.{◌≡◌};

use std::marker::Model;

/// The unit whose load is to be answered, in the context that gave the token.
#[derive(Clone, Copy)]
pub struct UnitToken {
    number: usize,
}

impl Model for UnitToken {
    ghost use Rattle.std.specs.Prelude.{ℕ};

    ghost Value = { ℕ };

    ghost view = { λ t. t.number };

    ghost inverse = { λ n. record { number = n } };
}

impl UnitToken {
    pub fn new(number: usize) -> Self
        ensures { result ≡ number }
    {
        UnitToken { number }
    }

    // The number of the unit.
    pub fn number(self) -> usize
        ensures { result ≡ self }
    {
        self.number
    }
}
