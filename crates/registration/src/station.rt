//! Base stations.

ghost use Rattle.std.specs.Prelude.{◌≡◌, ◌<◌, ◌^◌};

use std::marker::Model;

/// A base station, by its number of 16 bits. A register counts its stations from 1 to its limit; 0 is none
/// of them and is refused as an unknown station.
#[derive(Clone, Copy, Debug, PartialEq, Eq)]
pub struct Station {
    number: u16,
}

impl Model for Station {
    ghost use Rattle.std.specs.Prelude.{ℕ, ◌<◌, ◌^◌};

    ghost Value = { ℕ };

    ghost view = { λ s. s.number };

    ghost invariant = { λ s. s.number < 2 ^ 16 };

    ghost inverse = { λ n. record { number = n } };
}

impl Station {
    /// The station of this number.
    pub fn new(number: u16) -> Station
        ensures { result ≡ number }
    {
        Station { number }
    }

    /// Its number, 0 to 65,535.
    pub fn number(&self) -> u16
        ensures value { result ≡ self.now }
        ensures below { result < 2 ^ 16 }
    {
        self.number
    }
}
