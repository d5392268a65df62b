// The groups of a radio's row, as they are read.
ghost use Rattle.std.specs.Prelude.{◌≡◌, ◌==◌, IfSome, drop, length, option_map, slice_get};
ghost use Rattle.image_rows.specs.RowText.{group_in};
ghost use Rattle.image_rows.specs.RowReading.{group_at, groups_at, usage_of};

use command_bytes::fields::{gtsi_of, number};
use group_attach::Attachment;
use identity::Itsi;
use mm_pdus::{ClassOfUsage, Lifetime};
use std::marker::Model;

/// The groups of a radio's row. They are still in the bytes they are read from.
#[derive(Drop)]
pub struct PackedGroups<'a> {
    count: u64,
    bytes: &'a [u8],
}

impl<'a> Model for PackedGroups<'a> {
    ghost use Rattle.std.specs.Prelude.{List, IsSome};
    ghost use Rattle.image_rows.specs.Rows.{Group};
    ghost use Rattle.image_rows.specs.RowReading.{groups_at};
    ghost use Rattle.image_rows.specs.Inside.GroupViews.{groups_from};

    ghost Value = { List Group };

    ghost view = { λ g. groups_from g.count g.bytes.now };

    ghost invariant = { λ g. IsSome (groups_at g.count g.bytes.now) };
}

// How a radio is attached to a group: the class of usage and the lifetime.
fn usage(number: u64) -> Option<(ClassOfUsage, Lifetime)>
    ensures { result ≡ usage_of number }
{
    if number >= 32 {
        return None;
    }
    let lifetime = Lifetime::from_number((number % 4) as u8)?;
    Some((ClassOfUsage::new((number / 4) as u8), lifetime))
}

// The group that the bytes begin with, as an attachment of this radio, and the bytes after it.
#[tactic(auto, unfolding(crate::specs::RowReading::group_at))]
fn group(itsi: Itsi, bytes: &[u8]) -> Option<(Attachment, &[u8])>
    ensures value { option_map (λ x. (group_in x.0, x.1.now)) result ≡ group_at bytes.now }
    ensures radio { IfSome result (λ x. x.0.itsi ≡ itsi) }
{
    let (gtsi, rest) = number(bytes, 6)?;
    let (number, rest) = number(rest, 1)?;
    let Some((class, lifetime)) = usage(number) else {
        return None;
    };
    let attachment = Attachment {
        itsi,
        gtsi: gtsi_of(gtsi),
        class,
        lifetime,
    };
    Some((attachment, rest))
}

// The bytes after the first `count` groups.
fn after_groups(itsi: Itsi, count: u64, bytes: &[u8]) -> Option<&[u8]>
    ensures { option_map (λ rest. rest.now) result ≡ option_map (λ x. x.1) (groups_at count bytes.now) }
{
    let mut rest = bytes;
    for _ in 0..count {
        let Some((_first, after)) = group(itsi, rest) else {
            return None;
        };
        rest = after;
    }
    Some(rest)
}

/// The `count` groups of a radio that the bytes begin with.
pub fn groups(itsi: Itsi, count: u64, bytes: &[u8]) -> Option<PackedGroups<'_>>
    ensures { option_map (λ groups. groups) result ≡ option_map (λ x. x.0) (groups_at count bytes.now) }
{
    let _after = after_groups(itsi, count, bytes)?;
    Some(PackedGroups { count, bytes })
}

impl<'a> PackedGroups<'a> {
    /// Whether there are no groups.
    pub fn is_empty(&self) -> bool
        ensures { result ≡ (length self.now == 0) }
    {
        self.count == 0
    }

    /// Takes the first of the groups, as an attachment of this radio.
    pub fn next(&mut self, itsi: Itsi) -> Option<Attachment>
        ensures value { option_map group_in result ≡ slice_get self.old 0 }
        ensures radio { IfSome result (λ a. a.itsi ≡ itsi) }
        ensures rest { self.new ≡ drop 1 self.old }
    {
        if self.count == 0 {
            return None;
        }
        let Some((attachment, rest)) = group(itsi, self.bytes) else {
            return None;
        };
        self.count -= 1;
        self.bytes = rest;
        Some(attachment)
    }
}
