//! Where each part of a disk lies.
ghost use Rattle.checkpoint.specs.Half.{IsHalfSize};

use crate::Side;
use registration::Limits;

/// The fewest sectors of a half.
const FEWEST: u32 = 38;

/// The most sectors of a half.
const MOST: u32 = 65_536;

/// Where the parts of a disk lie, by the limits of its register and the number of sectors in a half of its journal.
///
/// Sector 0 holds the label, and sectors 1 and 2 the roots of the sides A and B. The slots of A and B follow, each with a
/// sector for every row that the limits allow, and then the halves of A and B.
#[derive(Clone, Copy, Debug, PartialEq, Eq, Drop)]
pub struct Layout {
    limits: Limits,
    journal: u32,
    ghost in_range: { IsHalfSize journal },
}

impl Layout {
    ghost use Rattle.std.specs.Prelude.{◌≡◌, ◌↔◌, ◌^◌, ◌<◌, ◌≤◌, IfSome, IsSome};
    ghost use Rattle.checkpoint.specs.Layout.{disk_size, half_at, half_end, root_at, slot_at, slot_size};

    /// The layout for these limits, with halves of so many sectors, 38 to 65,536; `None` for any other number.
    pub fn new(limits: Limits, journal: u32) -> Option<Layout>
        ensures fits { IsSome result ↔ IsHalfSize journal }
        ensures value { IfSome result (λ layout. (layout.limits ≡ limits) × (layout.journal ≡ journal)) }
    {
        if !(FEWEST..=MOST).contains(&journal) {
            return None;
        }
        Some(Layout { limits, journal })
    }

    /// The limits of the register.
    pub fn limits(&self) -> Limits
        ensures { result ≡ self.now.limits }
    {
        self.limits
    }

    /// How many sectors a half has, 38 to 65,536.
    pub fn journal(&self) -> u32
        ensures value { result ≡ self.now.journal }
        ensures fits { IsHalfSize result }
    {
        self.journal
    }

    /// How many sectors a slot has.
    pub fn slot_len(&self) -> u64
        ensures value { result ≡ slot_size self.now }
        ensures most { result ≤ 135_233 }
    {
        let limits = self.limits;
        1 + u64::from(limits.rules)
            + u64::from(limits.radios)
            + u64::from(limits.mail)
            + u64::from(limits.stations)
    }

    /// The fewest sectors that a disk may have.
    pub fn sectors(&self) -> u64
        ensures { result ≡ disk_size self.now }
    {
        3 + 2 * self.slot_len() + 2 * u64::from(self.journal)
    }

    /// The sector of a side's root.
    pub fn root(&self, side: Side) -> u64
        ensures { result ≡ root_at side }
    {
        match side {
            Side::A => 1,
            Side::B => 2,
        }
    }

    /// The first sector of a side's slot.
    pub fn slot(&self, side: Side) -> u64
        ensures { result ≡ slot_at self.now side }
    {
        match side {
            Side::A => 3,
            Side::B => 3 + self.slot_len(),
        }
    }

    /// The first sector of a side's half.
    pub fn half(&self, side: Side) -> u64
        ensures { result ≡ half_at self.now side }
    {
        let first = 3 + 2 * self.slot_len();
        match side {
            Side::A => first,
            Side::B => first + u64::from(self.journal),
        }
    }
}
