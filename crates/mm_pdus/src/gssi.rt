//! Groups within one network.

ghost use Rattle.std.specs.Prelude.{◌≡◌, ◌<◌, ◌^◌, ℕ};

use std::marker::Model;

/// A group's number within its network (GSSI, ETSI EN 300 392-1, clause 7): 24 bits.
///
/// It is modelled as its number.
#[derive(Clone, Copy, Debug, PartialEq, Eq)]
pub struct Gssi {
    number: u32,
}

impl Model for Gssi {
    ghost Value = { ℕ };

    ghost view = { λ g. g.number };

    ghost invariant = { λ g. g.number < 2 ^ 24 };

    ghost inverse = { λ n. record { number = n } };
}

impl Gssi {
    /// The group of this number, which has 24 bits.
    pub fn new(number: u32) -> Gssi
        requires { number < 2 ^ 24 }
        ensures { result ≡ number }
    {
        Gssi { number }
    }

    /// Its number, 0 to 16,777,215.
    pub fn number(self) -> u32
        ensures value { result ≡ self }
        ensures below { result < 2 ^ 24 }
    {
        self.number
    }
}
