//! When commands are given.

ghost use Rattle.std.specs.Prelude.{◌≡◌, ◌<◌, ◌^◌};

use std::marker::Model;

/// When a command was given, in seconds, 0 to 4,294,967,295.
#[derive(Clone, Copy, Debug, PartialEq, Eq)]
pub struct Moment {
    number: u32,
}

impl Model for Moment {
    ghost use Rattle.std.specs.Prelude.{ℕ, ◌<◌, ◌^◌};

    ghost Value = { ℕ };

    ghost view = { λ m. m.number };

    ghost invariant = { λ m. m.number < 2 ^ 32 };

    ghost inverse = { λ n. record { number = n } };
}

impl Moment {
    /// The moment of this many seconds.
    pub fn new(number: u32) -> Moment
        ensures { result ≡ number }
    {
        Moment { number }
    }

    /// The moment in seconds.
    pub fn number(&self) -> u32
        ensures value { result ≡ self.now }
        ensures below { result < 2 ^ 32 }
    {
        self.number
    }
}
