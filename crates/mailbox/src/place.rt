//! An item's place in the order of all.

ghost use Rattle.std.specs.Prelude.{◌≡◌, ◌↔◌, IsTrue};
ghost use Rattle.std.specs.Ordering.{nat_cmp};
ghost use Rattle.std.specs.declared.cmp.Ordering.TheVariants.{Less};
ghost use Rattle.std.specs.Cmp.Lexicographic.{slice_cmp};
ghost use Rattle.prefix_tree.specs.Following.{is_after};
ghost use Rattle.mailbox.specs.Order.{kind_number, place_at, named_cmp};
ghost use Rattle.mailbox.specs.Inside.Boxes.{name_of};
ghost use Rattle.mailbox.specs.Inside.Places.{place_cmp};

use crate::{Key, Kind};
use std::cmp::Ordering;

/// Where an item is among all that wait, in order of number, then of key; and the moment at which it ends.
#[derive(Clone, Copy, Debug, PartialEq, Eq)]
pub(crate) struct ItemPlace {
    pub(crate) number: u64,
    pub(crate) key: Key,
    pub(crate) deadline: u64,
}

impl ItemPlace {
    /// Whether it comes before this number and key.
    pub(crate) fn is_before(&self, number: u64, key: &Key) -> bool
        ensures { IsTrue result ↔ slice_cmp nat_cmp (place_at self.now.number self.now.key) (place_at number key.now) ≡ Less }
    {
        named_cmp(self.number, &self.key, number, key) == Ordering::Less
    }

    /// Whether it comes after this number and key. Each place comes after `None`.
    pub(crate) fn is_after(&self, after: &Option<(u64, Key)>) -> bool
        ensures { result ≡ is_after named_cmp name_of after.now self.now }
    {
        match after {
            Some((number, key)) => {
                named_cmp(*number, key, self.number, &self.key) == Ordering::Less
            }
            None => true,
        }
    }

    pub(crate) fn cmp(&self, other: &ItemPlace) -> Ordering
        ensures { result ≡ place_cmp self.now other.now }
    {
        named_cmp(self.number, &self.key, other.number, &other.key)
    }
}

// The order of two numbers with their keys. Where the numbers differ, no key is read.
#[inline(always)]
fn named_cmp(number: u64, key: &Key, other: u64, other_key: &Key) -> Ordering
    ensures { result ≡ named_cmp (number, key.now) (other, other_key.now) }
{
    match number.cmp(&other) {
        Ordering::Less => Ordering::Less,
        Ordering::Greater => Ordering::Greater,
        Ordering::Equal => numbers(number, key).cmp(&numbers(other, other_key)),
    }
}

// The numbers by which a number and key are compared.
fn numbers(number: u64, key: &Key) -> [u64; 5]
    ensures { result ≡ place_at number key.now }
{
    [
        number,
        key.destination.number(),
        key.source.number(),
        u64::from(key.reference.number()),
        kind_number(key.kind),
    ]
}

fn kind_number(kind: Kind) -> u64
    ensures { result ≡ kind_number kind }
{
    match kind {
        Kind::Message => 0,
        Kind::Report => 1,
    }
}
