//! The inboxes of all destinations.

ghost use Rattle.std.specs.Prelude.{◌≡◌, ◌<◌, ◌^◌, ◌++◌, [], true, false, map, None, OnOk, OnErr, IfOk, IsSome};
ghost use Rattle.std.specs.List.{cons_option, find, list_all, list_any};
ghost use Rattle.std.specs.Option.{is_none, option_copied, option_map};
ghost use Rattle.std.specs.FinMap as finite;
ghost use Rattle.identity.specs.Path.{id_path};
ghost use Rattle.mailbox.specs.Item.{is_at};
ghost use Rattle.mailbox.specs.Inside.Places.{places_of};
ghost use Rattle.mailbox.specs.Inside.Boxes.{items_under, with_items, swept, put, put_last, item_at, is_filed, in_order};
ghost use Rattle.mailbox.specs.Order.{place_of};

use crate::inbox::Inbox;
use crate::node::Link;
use crate::order::Order;
use crate::place::ItemPlace;
use crate::{Item, Key, items};
use base::TryCopy;
use identity::{Itsi, Prefix};
use prefix_tree::LazyMap;
use std::alloc::{AllocError, Allocator};
use std::marker::Model;

/// The inboxes of all destinations for which something waits.
#[derive(Drop)]
pub(crate) struct Boxes<A: Allocator> {
    inboxes: LazyMap<Inbox<A>, A>,
}

impl<A: Allocator> Model for Boxes<A> {
    ghost use Rattle.std.specs.Coded.{coded_list};
    ghost use Rattle.prefix_tree.specs.Table.{coded_table};
    ghost use Rattle.mailbox.specs.Values.{coded_item};
    ghost use Rattle.prefix_tree.specs.Table.{PathMap};
    ghost use Rattle.std.specs.Prelude.{List};
    ghost use Rattle.mailbox.specs.Values.{Item};

    ghost Value = { PathMap (List Item) };

    ghost coded = { coded_table (coded_list coded_item) };

    ghost view = { λ b. b.inboxes };
}

impl<A: Allocator> Boxes<A> {
    /// No inboxes. It takes no memory.
    pub(crate) fn new() -> Self
        ensures { result ≡ finite.empty }
    {
        Boxes {
            inboxes: LazyMap::new(),
        }
    }

    /// What waits for a destination.
    pub(crate) fn items_of(&self, destination: Itsi) -> &[Item<A>]
        ensures items { result.now ≡ items_under self.now (id_path destination) }
        ensures whole { destination < 2 ^ 48 }
    {
        let path = Prefix::whole(destination.number());
        match self.inboxes.find(&path) {
            Some(inbox) => inbox.as_slice(),
            None => &[],
        }
    }

    /// The item at a key.
    pub(crate) fn item_at(&self, key: &Key) -> Option<&Item<A>>
        ensures { option_copied result ≡ item_at self.now key.now }
    {
        items::item_at(self.items_of(key.destination), key)
    }

    /// The items at these places. A place without an item is left out.
    pub(crate) fn items_at<B: Allocator>(
        &self,
        alloc: B,
        order: &Order<A>,
    ) -> Result<Vec<&Item<A>, B>, AllocError>
        ensures { IfOk result (λ items. map (λ i. i.now) items.items ≡ in_order self.now order.now) }
    {
        let mut items = Vec::new(alloc);
        push_items(&mut items, self, order.root())?;
        Ok(items)
    }

    /// Removes the item at a key, and the inbox if it is then empty, and returns the item's place. If the caller says
    /// by `is_alone` that nothing else is in the inbox, it searches the tree only once. It takes no memory.
    pub(crate) fn remove_at(&mut self, key: &Key, is_alone: bool) -> Option<ItemPlace>
        requires { is_alone ≡ true → list_all (is_at key.now) (items_under self.old (id_path key.now.destination)) ≡ true }
        ensures left { self.new ≡ swept self.old (id_path key.now.destination) (is_at key.now) }
        ensures place { result ≡ option_map place_of (item_at self.old key.now) }
    {
        if is_alone {
            remove_alone(&mut self.inboxes, key)
        } else {
            remove_at(&mut self.inboxes, key)
        }
    }
}

impl<A: Allocator + Clone> Boxes<A> {
    /// Puts the item at the end of its destination's inbox, in place of any at its key. Replacing takes
    /// no memory. When memory runs out, nothing changes. The caller says by `is_first` whether there is no
    /// inbox yet.
    pub(crate) fn put(&mut self, alloc: &A, item: Item<A>, is_first: bool) -> Result<(), AllocError>
        requires { is_first ≡ is_none (finite.get self.old (id_path item.key.destination)) }
        ensures ok { OnOk result (self.new ≡ put self.old item) }
        ensures err { OnErr result (self.new ≡ self.old) }
        ensures memory { OnErr result (is_filed self.old item.key ≡ false) }
        ensures whole { item.key.destination < 2 ^ 48 }
    {
        let path = Prefix::whole(item.key().destination.number());
        if is_first {
            put_first(&mut self.inboxes, alloc, path, item)
        } else {
            put_there(&mut self.inboxes, &path, item)
        }
    }
}

impl<A: Allocator + Clone> TryCopy for Boxes<A> {
    fn try_copy(&self) -> Result<Self, AllocError> {
        Ok(Boxes {
            inboxes: self.inboxes.try_copy()?,
        })
    }
}

/// Adds the items at the places under the link. A place without an item is left out.
#[cycle(push_items)]
fn push_items<'i, A: Allocator, B: Allocator>(
    items: &mut Vec<&'i Item<A>, B>,
    boxes: &'i Boxes<A>,
    link: &Option<Link<A>>,
) -> Result<(), AllocError>
    ensures { OnOk result (map (λ i. i.now) items.new.items ≡ map (λ i. i.now) items.old.items ++ in_order boxes.now (places_of link.now)) }
{
    let Some(node) = link else {
        return Ok(());
    };
    let (place, earlier, later) = node.parts();
    push_items(items, boxes, earlier)?;
    push_some(items, boxes.item_at(&place.key))?;
    push_items(items, boxes, later)
}

fn push_some<'i, A: Allocator, B: Allocator>(
    items: &mut Vec<&'i Item<A>, B>,
    item: Option<&'i Item<A>>,
) -> Result<(), AllocError>
    ensures { OnOk result (map (λ i. i.now) items.new.items ≡ map (λ i. i.now) items.old.items ++ cons_option (option_copied item.entry) []) }
{
    if let Some(item) = item {
        items.push(item)?;
    }
    Ok(())
}

// Puts the item into a new inbox. There must be none yet.
fn put_first<A: Allocator + Clone>(
    inboxes: &mut LazyMap<Inbox<A>, A>,
    alloc: &A,
    path: Prefix,
    item: Item<A>,
) -> Result<(), AllocError>
    requires { finite.get inboxes.old path ≡ None }
    ensures ok { OnOk result (inboxes.new ≡ with_items inboxes.old path (put_last (items_under inboxes.old path) item)) }
    ensures err { OnErr result (inboxes.new ≡ inboxes.old) }
    ensures memory { OnErr result (list_any (is_at item.key) (items_under inboxes.old path) ≡ false) }
{
    let mut inbox = Inbox::new(alloc.clone()?);
    inbox.put(item)?;
    inboxes.insert(alloc, path, inbox)?;
    Ok(())
}

// Puts the item into its inbox, which must be there.
fn put_there<A: Allocator>(
    inboxes: &mut LazyMap<Inbox<A>, A>,
    path: &Prefix,
    item: Item<A>,
) -> Result<(), AllocError>
    requires { IsSome (finite.get inboxes.old path.now) }
    ensures ok { OnOk result (inboxes.new ≡ finite.insert inboxes.old path.now (put_last (items_under inboxes.old path.now) item)) }
    ensures err { OnErr result (inboxes.new ≡ inboxes.old) }
    ensures memory { OnErr result (list_any (is_at item.key) (items_under inboxes.old path.now) ≡ false) }
{
    inboxes
        .change(path, |inbox| inbox.with(item))
        .unwrap_or(Ok(()))
}

// Removes the item at the key, and its destination's inbox if it is then empty.
fn remove_at<A: Allocator>(inboxes: &mut LazyMap<Inbox<A>, A>, key: &Key) -> Option<ItemPlace>
    ensures left { inboxes.new ≡ swept inboxes.old (id_path key.now.destination) (is_at key.now) }
    ensures place { result ≡ option_map place_of (find (is_at key.now) (items_under inboxes.old (id_path key.now.destination))) }
{
    inboxes.change(&key.destination.path(), |inbox| inbox.without(key))?
}

// Removes the inbox of the key's destination. Only the item at the key may be in it.
fn remove_alone<A: Allocator>(inboxes: &mut LazyMap<Inbox<A>, A>, key: &Key) -> Option<ItemPlace>
    requires { list_all (is_at key.now) (items_under inboxes.old (id_path key.now.destination)) ≡ true }
    ensures left { inboxes.new ≡ swept inboxes.old (id_path key.now.destination) (is_at key.now) }
    ensures place { result ≡ option_map place_of (find (is_at key.now) (items_under inboxes.old (id_path key.now.destination))) }
{
    let inbox = inboxes.take(&key.destination.path())?;
    items::place_at(inbox.as_slice(), key)
}
