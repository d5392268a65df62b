//! What a rule allows.

ghost use Rattle.std.specs.Prelude.{◌≡◌, ◌≤◌, ◌↔◌, IsSome, IfSome};

use crate::LocationArea;
use base::TryCopy;
use mm_pdus::Lifetime;
use std::alloc::AllocError;
use std::marker::Model;

/// How the identities under a prefix are served.
#[derive(Clone, Copy, Debug, PartialEq, Eq)]
pub struct Rule {
    low: LocationArea,
    high: LocationArea,
    lifetime: Lifetime,
    keep: u32,
}

impl Model for Rule {
    ghost use Rattle.std.specs.Prelude.{◌≤◌};
    ghost use Rattle.registration.specs.Rule.{Rule};

    ghost Value = { Rule };

    ghost view = { λ r. record { low = r.low; high = r.high; lifetime = r.lifetime; keep = r.keep } };

    ghost invariant = { λ r. r.low ≤ r.high };

    ghost inverse = { λ t. record { low = t.low; high = t.high; lifetime = t.lifetime; keep = t.keep } };
}

impl Rule {
    /// The rule that allows the location areas from `low` to `high`, lets groups stay attached for
    /// `lifetime` and keeps messages for `keep` seconds; `None` where `low` is above `high`.
    pub fn new(low: LocationArea, high: LocationArea, lifetime: Lifetime, keep: u32) -> Option<Rule>
        ensures fits { IsSome result ↔ (low ≤ high) }
        ensures value { IfSome result (λ rule. rule ≡ record { low = low; high = high; lifetime = lifetime; keep = keep }) }
    {
        if low.number() <= high.number() {
            Some(Rule {
                low,
                high,
                lifetime,
                keep,
            })
        } else {
            None
        }
    }

    /// The lowest location area that it allows.
    pub fn low(&self) -> LocationArea
        ensures value { result ≡ self.now.low }
        ensures in_order { self.now.low ≤ self.now.high }
    {
        self.low
    }

    /// The highest location area that it allows.
    pub fn high(&self) -> LocationArea
        ensures { result ≡ self.now.high }
    {
        self.high
    }

    /// How long groups stay attached.
    pub fn lifetime(&self) -> Lifetime
        ensures { result ≡ self.now.lifetime }
    {
        self.lifetime
    }

    /// For how many seconds a message is kept.
    pub fn keep(&self) -> u32
        ensures { result ≡ self.now.keep }
    {
        self.keep
    }
}

impl TryCopy for Rule {
    fn try_copy(&self) -> Result<Rule, AllocError> {
        Ok(*self)
    }
}
