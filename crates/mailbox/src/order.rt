//! The places of all items, in order.

ghost use Rattle.std.specs.Prelude.{◌≡◌, ℕ, ◌+◌, ◌*◌, ◌<◌, ◌≤◌, ◌^◌, ◌++◌, ◌∷◌, [], not, true, length, is_some, if◌then◌else◌, OnOk};
ghost use Rattle.std.specs.List.{filter, find, list_any};
ghost use Rattle.std.specs.Option.{option_copied};
ghost use Rattle.prefix_tree.specs.Following.{next_of};
ghost use Rattle.mailbox.specs.Order.{named_cmp};
ghost use Rattle.mailbox.specs.Cost.{next_due_steps};
ghost use Rattle.mailbox.specs.Inside.Boxes.{name_of};
ghost use Rattle.mailbox.specs.Inside.Places.{same_place, InOrder, is_due, is_due_after, places_of, IsAbove, IsLastOf, EndsWith};

use crate::node::{self, Link, Node};
use crate::place::ItemPlace;
use crate::{Key, Moment, due};
use base::{Steps, TryCopy};
use std::alloc::{AllocError, Allocator};
use std::marker::{Brand, Model};
use std::sync::ledger::{Blank, Ledger};

/// The places of all items, in order of number, then of key: a tree with a node for each.
#[derive(Drop)]
pub(crate) struct Order<A: Allocator> {
    alloc: A,
    count: usize,
    root: Option<Link<A>>,
}

impl<A: Allocator> Model for Order<A> {
    ghost use Rattle.std.specs.Prelude.{◌≡◌, List, length};
    ghost use Rattle.mailbox.specs.declared.place.ItemPlace.{ItemPlace};
    ghost use Rattle.mailbox.specs.Inside.Places.{coded_places, places_of};

    ghost Value = { List ItemPlace };

    ghost coded = { coded_places };

    ghost view = { λ o. places_of o.root };

    ghost invariant = { λ o. o.count ≡ length (places_of o.root) };
}

impl<A: Allocator> Order<A> {
    /// No places. It takes no memory.
    pub(crate) fn new(alloc: A) -> Self
        ensures { result ≡ [] }
    {
        Order {
            alloc,
            count: 0,
            root: None,
        }
    }

    /// The allocator of its nodes.
    pub(crate) fn allocator(&self) -> &A {
        &self.alloc
    }

    pub(crate) fn len(&self) -> usize
        ensures { result ≡ length self.now }
    {
        self.count
    }

    /// The root of the tree.
    pub(crate) fn root(&self) -> &Option<Link<A>>
        ensures { places_of result.now ≡ self.now }
    {
        &self.root
    }

    pub(crate) fn last(&self) -> Option<&ItemPlace>
        ensures { EndsWith self.now (option_copied result) }
    {
        node::last(&self.root)
    }

    /// The first place after this number and key, or the first of all.
    pub(crate) fn first_after(&self, after: &Option<(u64, Key)>) -> Option<&ItemPlace>
        requires { InOrder self.now }
        ensures { option_copied result ≡ next_of named_cmp name_of self.now after.now }
    {
        node::first_after(&self.root, after)
    }

    /// The first place whose item has ended by the moment. Each visited node is a step.
    pub(crate) fn first_due<L: Ledger>(
        &self,
        moment: Moment,
        steps: &mut Steps<L>,
    ) -> Option<&ItemPlace>
        ensures first { option_copied result ≡ find (is_due moment) self.now }
        ensures cost { (height : ℕ) → IsAbove height self.now → steps.new ≤ steps.old + (if is_some result then 2 * height else 1) }
    {
        let _low = node::height(&self.root);
        node::first_due(&self.root, u64::from(moment.number()), steps)
    }

    /// The first place after this number and key, or the first of all, whose item has ended by the moment. Each
    /// visited node is a step.
    pub(crate) fn first_due_after<L: Ledger>(
        &self,
        moment: Moment,
        after: &Option<(u64, Key)>,
        steps: &mut Steps<L>,
    ) -> Option<&ItemPlace>
        requires { InOrder self.now }
        ensures first { option_copied result ≡ find (is_due_after moment after.now) self.now }
        ensures cost { (height : ℕ) → IsAbove height self.now → steps.new ≤ steps.old + next_due_steps height }
    {
        let _low = node::height(&self.root);
        due::first_due_after(&self.root, u64::from(moment.number()), after, steps)
    }

    /// Puts the place at the end, in a node in the given box.
    pub(crate) fn append(&mut self, place: &ItemPlace, spare: Link<A>)
        requires { length self.old + 1 < 2 ^ 64 }
        ensures { self.new ≡ self.old ++ place.now ∷ [] }
    {
        self.count += 1;
        node::append(&mut self.root, place, spare);
    }

    /// Removes the place, if it is there. Each visited node is a step.
    pub(crate) fn remove_counted<L: Ledger>(&mut self, place: &ItemPlace, steps: &mut Steps<L>)
        requires { InOrder self.old }
        ensures places { self.new ≡ filter (λ other. not (same_place place.now other)) self.old }
        ensures cost { (height : ℕ) → IsAbove height self.old → steps.new ≤ steps.old + height }
    {
        let _low = node::height(&self.root);
        if node::remove_counted(&mut self.root, place, steps).is_some() {
            self.count -= 1;
        }
    }

    /// Removes a place, which must be there, and puts another at the end. It takes no memory.
    pub(crate) fn renew(&mut self, old: &ItemPlace, place: &ItemPlace)
        requires order { InOrder self.old }
        requires there { list_any (same_place old.now) self.old ≡ true }
        ensures { self.new ≡ filter (λ other. not (same_place old.now other)) self.old ++ place.now ∷ [] }
    {
        renew_from::<A, Brand>(self, old, place, Blank::new(1));
    }

    /// Removes the last place, and returns it.
    pub(crate) fn pop(&mut self) -> Option<ItemPlace>
        ensures { IsLastOf self.old self.new result }
    {
        let place = node::pop_last(&mut self.root)?;
        self.count -= 1;
        Some(place)
    }
}

impl<A: Allocator + Clone> Order<A> {
    /// A box for one more place.
    pub(crate) fn spare(&self, place: &ItemPlace) -> Result<Link<A>, AllocError>
        ensures { OnOk result (length self.now + 1 < 2 ^ 64) }
    {
        if self.count == usize::MAX {
            return Err(AllocError);
        }
        Ok(Box::new(self.alloc.clone()?, Node::of(*place, None, None))?)
    }
}

impl<A: Allocator + Clone> TryCopy for Order<A> {
    fn try_copy(&self) -> Result<Self, AllocError> {
        Ok(Order {
            alloc: self.alloc.clone()?,
            count: self.count,
            root: node::copy_nodes(&self.root, &self.alloc)?,
        })
    }
}

// `renew`, with a step counter over this ledger.
fn renew_from<A: Allocator, L: Ledger>(
    order: &mut Order<A>,
    old: &ItemPlace,
    place: &ItemPlace,
    blank: Blank,
)
    requires name { blank.name ≡ L.name }
    requires parts { blank.parts ≡ L.parts }
    requires some { 0 < blank.parts }
    requires order { InOrder order.old }
    requires there { list_any (same_place old.now) order.old ≡ true }
    ensures { order.new ≡ filter (λ other. not (same_place old.now other)) order.old ++ place.now ∷ [] }
{
    let mut steps = Steps::<L>::new(blank);
    if let Some(spare) = node::remove_counted(&mut order.root, old, &mut steps) {
        node::append(&mut order.root, place, spare);
    }
}
