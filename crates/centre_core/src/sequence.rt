//! Places of commands among those of their station.

ghost use Rattle.std.specs.Prelude.{◌≡◌, ◌<◌, ◌^◌, ◌↔◌, IsSome, IfSome};

use std::marker::Model;

/// The place of a command among those of its station: a number of 32 bits, counted from 1.
#[derive(Clone, Copy, Debug, PartialEq, Eq)]
pub struct Sequence {
    number: u32,
}

impl Model for Sequence {
    ghost use Rattle.std.specs.Prelude.{ℕ, ◌<◌, ◌^◌};

    ghost Value = { ℕ };

    ghost view = { λ s. s.number };

    ghost invariant = { λ s. (0 < s.number) × (s.number < 2 ^ 32) };

    ghost inverse = { λ n. record { number = n } };
}

impl Sequence {
    /// The sequence of this number; `None` for 0.
    pub fn new(number: u32) -> Option<Sequence>
        ensures fits { IsSome result ↔ (0 < number) }
        ensures value { IfSome result (λ sequence. sequence ≡ number) }
    {
        if number > 0 {
            Some(Sequence { number })
        } else {
            None
        }
    }

    /// Its number, 1 to 4,294,967,295.
    pub fn number(&self) -> u32
        ensures value { result ≡ self.now }
        ensures above { 0 < result }
        ensures below { result < 2 ^ 32 }
    {
        self.number
    }
}
