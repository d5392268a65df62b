//! Searches among the items of one destination.

ghost use Rattle.std.specs.Prelude.{◌≡◌, not, length};
ghost use Rattle.std.specs.List.{filter, find, list_all, list_any};
ghost use Rattle.std.specs.Option.{option_copied, option_map};
ghost use Rattle.mailbox.specs.Order.{place_of};
ghost use Rattle.mailbox.specs.Item.{is_at, is_reported, is_ended_by, is_confirmed};

use crate::place::ItemPlace;
use crate::{Envelope, Item, Key};
use sds_tl::DeliveryStatus;
use std::alloc::Allocator;

/// Whether an item is at the key.
pub(crate) fn any_at<A: Allocator>(items: &[Item<A>], key: &Key) -> bool
    ensures { result ≡ list_any (is_at key.now) items.now }
{
    items.iter().any(|item| item.is_at(key))
}

/// Whether no item is at another key.
pub(crate) fn all_at<A: Allocator>(items: &[Item<A>], key: &Key) -> bool
    ensures { result ≡ list_all (is_at key.now) items.now }
{
    items.iter().all(|item| item.is_at(key))
}

/// The item at the key.
pub(crate) fn item_at<'i, A: Allocator>(items: &'i [Item<A>], key: &Key) -> Option<&'i Item<A>>
    ensures { option_copied result ≡ find (is_at key.now) items.now }
{
    items.iter().find(|item| item.is_at(key))
}

/// The place of the item at the key.
pub(crate) fn place_at<A: Allocator>(items: &[Item<A>], key: &Key) -> Option<ItemPlace>
    ensures { result ≡ option_map place_of (find (is_at key.now) items.now) }
{
    match item_at(items, key) {
        Some(item) => Some(item.place()),
        None => None,
    }
}

/// Whether an item at the key asks for no answer.
pub(crate) fn any_confirmed<A: Allocator>(items: &[Item<A>], key: &Key) -> bool
    ensures { result ≡ list_any (is_confirmed key.now) items.now }
{
    items.iter().any(|item| item.is_confirmed(key))
}

/// Whether an item is a message that the report ends.
pub(crate) fn any_reported<A: Allocator>(
    items: &[Item<A>],
    envelope: &Envelope,
    status: DeliveryStatus,
) -> bool
    ensures { result ≡ list_any (is_reported envelope.now status) items.now }
{
    items.iter().any(|item| item.is_reported(envelope, status))
}

/// How many are at the key.
pub(crate) fn count_at<A: Allocator>(items: &[Item<A>], key: &Key) -> usize
    ensures { result ≡ length (filter (is_at key.now) items.now) }
{
    items.iter().filter(|item| item.is_at(key)).count()
}

/// How many are messages that the report ends.
pub(crate) fn count_reported<A: Allocator>(
    items: &[Item<A>],
    envelope: &Envelope,
    status: DeliveryStatus,
) -> usize
    ensures { result ≡ length (filter (is_reported envelope.now status) items.now) }
{
    items
        .iter()
        .filter(|item| item.is_reported(envelope, status))
        .count()
}

/// How many the report would neither end nor replace.
pub(crate) fn count_left<A: Allocator>(
    items: &[Item<A>],
    envelope: &Envelope,
    status: DeliveryStatus,
) -> usize
    ensures { result ≡ length (filter (λ w. not (is_ended_by envelope.now status w)) items.now) }
{
    items
        .iter()
        .filter(|item| !item.is_ended_by(envelope, status))
        .count()
}
