//! The class of usage of a group.

ghost use Rattle.std.specs.Prelude.{◌≡◌, ◌<◌, ℕ};

use std::marker::Model;

/// In which way a radio takes part in a group (clause 16.10, class of usage): a number of three bits.
///
/// A class is modelled as its number.
#[derive(Clone, Copy, Debug, PartialEq, Eq)]
pub struct ClassOfUsage {
    number: u8,
}

impl Model for ClassOfUsage {
    ghost Value = { ℕ };

    ghost view = { λ c. c.number };

    ghost invariant = { λ c. c.number < 8 };

    ghost inverse = { λ n. record { number = n } };
}

impl ClassOfUsage {
    /// The class of this number, which has three bits.
    pub fn new(number: u8) -> ClassOfUsage
        requires { number < 8 }
        ensures { result ≡ number }
    {
        ClassOfUsage { number }
    }

    /// Its number, 0 to 7.
    pub fn number(self) -> u8
        ensures value { result ≡ self }
        ensures small { result < 8 }
    {
        self.number
    }
}
