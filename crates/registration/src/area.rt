//! Location areas.

ghost use Rattle.std.specs.Prelude.{◌≡◌, ◌<◌, ◌^◌, ◌↔◌, IsSome, IfSome};

use std::marker::Model;

/// A location area of the network (clause 16.10, location area): a number of 14 bits.
#[derive(Clone, Copy, Debug, PartialEq, Eq)]
pub struct LocationArea {
    number: u16,
}

impl Model for LocationArea {
    ghost use Rattle.std.specs.Prelude.{ℕ, ◌<◌, ◌^◌};

    ghost Value = { ℕ };

    ghost view = { λ a. a.number };

    ghost invariant = { λ a. a.number < 2 ^ 14 };

    ghost inverse = { λ n. record { number = n } };
}

impl LocationArea {
    /// The location area of this number, or `None` above 16,383.
    pub fn new(number: u32) -> Option<LocationArea>
        ensures fits { IsSome result ↔ (number < 2 ^ 14) }
        ensures value { IfSome result (λ area. area ≡ number) }
    {
        if number < 1 << 14 {
            Some(LocationArea {
                number: number as u16,
            })
        } else {
            None
        }
    }

    /// Its number, 0 to 16,383.
    pub fn number(&self) -> u32
        ensures value { result ≡ self.now }
        ensures below { result < 2 ^ 14 }
    {
        u32::from(self.number)
    }
}
