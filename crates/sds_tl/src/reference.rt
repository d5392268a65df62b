//! Message references.

ghost use Rattle.std.specs.Prelude.{◌≡◌, ◌<◌, ◌^◌};

use std::marker::Model;

/// The number by which reports name a message, 0 to 255 (clause 29.4.3.7).
#[derive(Clone, Copy, Debug, PartialEq, Eq)]
pub struct MessageReference {
    number: u8,
}

impl Model for MessageReference {
    ghost use Rattle.std.specs.Prelude.{ℕ, ◌<◌, ◌^◌};

    ghost Value = { ℕ };

    ghost view = { λ r. r.number };

    ghost invariant = { λ r. r.number < 2 ^ 8 };

    ghost inverse = { λ n. record { number = n } };
}

impl MessageReference {
    /// The reference of this number.
    pub fn new(number: u8) -> MessageReference
        ensures { result ≡ number }
    {
        MessageReference { number }
    }

    /// Its number, 0 to 255.
    pub fn number(&self) -> u8
        ensures value { result ≡ self.now }
        ensures below { result < 2 ^ 8 }
    {
        self.number
    }
}
