//! Reject causes of location updates.

ghost use Rattle.std.specs.Prelude.{◌≡◌, ◌<◌, ℕ};

use std::marker::Model;

/// Why a location update is rejected (clause 16.10, reject cause): a number of five bits.
///
/// A cause is modelled as its number.
#[derive(Clone, Copy, Debug, PartialEq, Eq)]
pub struct RejectCause {
    number: u8,
}

impl Model for RejectCause {
    ghost Value = { ℕ };

    ghost view = { λ c. c.number };

    ghost invariant = { λ c. c.number < 32 };

    ghost inverse = { λ n. record { number = n } };
}

impl RejectCause {
    /// The network does not know the identity.
    pub const ITSI_UNKNOWN: RejectCause = RejectCause { number: 1 };
    /// The radio may not use this location area.
    pub const LA_NOT_ALLOWED: RejectCause = RejectCause { number: 3 };
    /// The network is full.
    pub const CONGESTION: RejectCause = RejectCause { number: 6 };
    /// The network serves no radios of other networks.
    pub const MIGRATION_NOT_SUPPORTED: RejectCause = RejectCause { number: 12 };

    /// The cause of this number, which has five bits.
    pub fn new(number: u8) -> RejectCause
        requires { number < 32 }
        ensures { result ≡ number }
    {
        RejectCause { number }
    }

    /// Its number, 0 to 31.
    pub fn number(self) -> u8
        ensures value { result ≡ self }
        ensures small { result < 32 }
    {
        self.number
    }
}
