//! The items of one destination.

ghost use Rattle.std.specs.Prelude.{◌≡◌, ◌<◌, [], true, false, not, Some, OnOk, OnErr, IfOk, vec_len, vec_capacity};
ghost use Rattle.std.specs.List.{filter, find, list_any};
ghost use Rattle.std.specs.Option.{option_map};
ghost use Rattle.mailbox.specs.Item.{is_at};
ghost use Rattle.mailbox.specs.Inside.Boxes.{box_of, put_last};
ghost use Rattle.mailbox.specs.Order.{place_of};

use crate::items::{any_at, place_at};
use crate::place::ItemPlace;
use crate::{Item, Key};
use base::TryCopy;
use std::alloc::{AllocError, Allocator};
use std::marker::Model;

/// What waits for one destination, the oldest first.
#[derive(Drop)]
pub(crate) struct Inbox<A: Allocator> {
    items: Vec<Item<A>, A>,
}

impl<A: Allocator> Model for Inbox<A> {
    ghost use Rattle.std.specs.Prelude.{List};
    ghost use Rattle.std.specs.Coded.{coded_list};
    ghost use Rattle.mailbox.specs.Values.{Item, coded_item};

    ghost Value = { List Item };

    ghost coded = { coded_list coded_item };

    ghost view = { λ i. i.items.items };
}

impl<A: Allocator> Inbox<A> {
    pub(crate) fn new(alloc: A) -> Self
        ensures { result ≡ [] }
    {
        Inbox {
            items: Vec::new(alloc),
        }
    }

    pub(crate) fn as_slice(&self) -> &[Item<A>]
        ensures { result.now ≡ self.now }
    {
        &self.items
    }

    /// Puts the item at the end, in place of any at its key. Replacing takes no memory. When memory runs
    /// out, nothing changes.
    pub(crate) fn put(&mut self, item: Item<A>) -> Result<(), AllocError>
        ensures ok { OnOk result (self.new ≡ put_last self.old item) }
        ensures err { OnErr result (self.new ≡ self.old) }
        ensures memory { OnErr result (list_any (is_at item.key) self.old ≡ false) }
    {
        make_room(&mut self.items, &item.key())?;
        let _ = self.items.push(item);
        Ok(())
    }

    /// What `put` returns, and the inbox after it. The inbox is as it was when memory runs out.
    pub(crate) fn with(mut self, item: Item<A>) -> (Result<(), AllocError>, Option<Self>)
        ensures ok { OnOk result.0 (result.1 ≡ Some (put_last self item)) }
        ensures err { OnErr result.0 (result.1 ≡ Some self) }
        ensures memory { OnErr result.0 (list_any (is_at item.key) self ≡ false) }
    {
        let put = self.put(item);
        (put, Some(self))
    }

    /// The place of the item at the key, and the inbox without it, or `None` if that is empty.
    pub(crate) fn without(mut self, key: &Key) -> (Option<ItemPlace>, Option<Self>)
        ensures place { result.0 ≡ option_map place_of (find (is_at key.now) self) }
        ensures left { result.1 ≡ box_of (filter (λ w. not (is_at key.now w)) self) }
    {
        let place = place_at(&self.items, key);
        remove_at(&mut self.items, key);
        if self.items.is_empty() {
            (place, None)
        } else {
            (place, Some(self))
        }
    }
}

impl<A: Allocator + Clone> TryCopy for Inbox<A> {
    fn try_copy(&self) -> Result<Self, AllocError> {
        Ok(Inbox {
            items: copy_items(self.items.allocator(), &self.items)?,
        })
    }
}

fn copy_items<A: Allocator + Clone>(
    alloc: &A,
    items: &[Item<A>],
) -> Result<Vec<Item<A>, A>, AllocError>
    ensures { IfOk result (λ copy. copy.items ≡ items.now) }
{
    let mut copy = Vec::new(alloc.clone()?);
    for item in items {
        copy.push(item.copy(alloc.clone()?)?)?;
    }
    Ok(copy)
}

/// Removes the item at the key. If there is none, it makes room for one.
fn make_room<A: Allocator>(items: &mut Vec<Item<A>, A>, key: &Key) -> Result<(), AllocError>
    ensures ok { OnOk result (items.new.items ≡ filter (λ w. not (is_at key.now w)) items.old.items) }
    ensures room { OnOk result (vec_len items.new < vec_capacity items.new) }
    ensures err { OnErr result (items.new.items ≡ items.old.items) }
    ensures memory { OnErr result (list_any (is_at key.now) items.old.items ≡ false) }
{
    if any_at(items, key) {
        remove_at(items, key);
        return Ok(());
    }
    if items.is_empty() {
        // `reserve` would take a first block for four items.
        return items.reserve_exact(1);
    }
    items.reserve(1)
}

fn remove_at<A: Allocator>(items: &mut Vec<Item<A>, A>, key: &Key)
    ensures left { items.new.items ≡ filter (λ w. not (is_at key.now w)) items.old.items }
    ensures room { list_any (is_at key.now) items.old.items ≡ true → vec_len items.new < vec_capacity items.new }
{
    items.retain(|item| !item.is_at(key));
}
