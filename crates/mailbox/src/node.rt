//! The nodes of the tree of places, an AVL tree: neither side of a node is more than one level higher than the other.
//! A way down visits about as many nodes as the number of places has binary digits, half as many again at most.

ghost use Rattle.std.specs.Prelude.{◌≡◌, ◌+◌, ◌*◌, ◌<◌, ◌≤◌, ◌^◌, ◌++◌, ◌∷◌, [], not, true, length, max, nat_lt, is_some, IsSome, IfNone, IfOk, if◌then◌else◌};
ghost use Rattle.std.specs.List.{filter, find, list_any};
ghost use Rattle.std.specs.Option.{option_copied, option_map};
ghost use Rattle.prefix_tree.specs.Following.{next_of};
ghost use Rattle.mailbox.specs.Order.{named_cmp};
ghost use Rattle.mailbox.specs.Inside.Boxes.{name_of};
ghost use Rattle.mailbox.specs.Inside.Places.{same_place, InOrder, soonest, is_due, places_of, height_of, all_of, branch};
ghost use Rattle.mailbox.specs.Inside.Places.{IsLow, IsBalanced, IsFirstOf, IsLastOf, EndsWith};

use crate::Key;
use crate::place::ItemPlace;
use base::Steps;
use std::alloc::{AllocError, Allocator};
use std::cmp::Ordering;
use std::marker::Model;
use std::sync::ledger::Ledger;

/// A node in a box of its own.
pub(crate) type Link<A> = Box<Node<A>, A>;

/// A place, with the places before it on one side and those after it on the other.
#[derive(Drop)]
pub(crate) struct Node<A: Allocator> {
    place: ItemPlace,
    height: u8,
    // The earliest deadline in this node and under it.
    least: u64,
    earlier: Option<Link<A>>,
    later: Option<Link<A>>,
}

impl<A: Allocator> Model for Node<A> {
    ghost use Rattle.std.specs.Prelude.{length};
    ghost use Rattle.mailbox.specs.Inside.Places.{Branch, coded_branch, branch, IsNode};

    ghost Value = { Branch };

    ghost coded = { coded_branch };

    ghost view = { λ n. branch n.place n.earlier n.later };

    ghost invariant = { λ n. IsNode n.height n.least n.place n.earlier n.later };

    ghost size = { λ b. length b.places };

    ghost use Rattle.std.proofs.Common.{arith, length-append};

    ghost size_decreases = { λ a h. Prim.grind (arith, length-append) };
}

impl<A: Allocator> Node<A> {
    /// A node with these sides. Neither may be more than one level higher than the other.
    pub(crate) fn of(place: ItemPlace, earlier: Option<Link<A>>, later: Option<Link<A>>) -> Self
        requires earlier { height_of earlier ≤ height_of later + 1 }
        requires later { height_of later ≤ height_of earlier + 1 }
        requires few { length (places_of earlier) + length (places_of later) + 1 < 2 ^ 64 }
        ensures { result ≡ branch place earlier later }
    {
        let height = height(&earlier).max(height(&later)) + 1;
        let least = place.deadline.min(least(&earlier)).min(least(&later));
        Node {
            place,
            height,
            least,
            earlier,
            later,
        }
    }

    /// Its place and its sides.
    pub(crate) fn parts(&self) -> (&ItemPlace, &Option<Link<A>>, &Option<Link<A>>)
        ensures parts { branch result.0.now result.1.now result.2.now ≡ self.now }
        ensures earlier { height_of result.1.now ≤ height_of result.2.now + 1 }
        ensures later { height_of result.2.now ≤ height_of result.1.now + 1 }
        ensures few { length (places_of result.1.now) + length (places_of result.2.now) + 1 < 2 ^ 64 }
    {
        (&self.place, &self.earlier, &self.later)
    }

    /// Whether no item in this node or under it has ended by the moment.
    pub(crate) fn is_later_than(&self, moment: u64) -> bool
        ensures { result ≡ nat_lt moment (soonest self.now.places) }
    {
        self.least > moment
    }

    /// Its place, and its sides taken out of it.
    fn take_apart(&mut self) -> (ItemPlace, Option<Link<A>>, Option<Link<A>>)
        ensures parts { branch result.0 result.1 result.2 ≡ self.old }
        ensures earlier { height_of result.1 ≤ height_of result.2 + 1 }
        ensures later { height_of result.2 ≤ height_of result.1 + 1 }
        ensures few { length (places_of result.1) + length (places_of result.2) + 1 < 2 ^ 64 }
    {
        self.height = 1;
        self.least = self.place.deadline;
        (self.place, self.earlier.take(), self.later.take())
    }
}

pub(crate) fn height<A: Allocator>(link: &Option<Link<A>>) -> u8
    ensures value { result ≡ height_of link.now }
    ensures low { IsLow (height_of link.now) (length (places_of link.now)) }
{
    match link {
        Some(node) => node.height,
        None => 0,
    }
}

// The earliest deadline under the link.
fn least<A: Allocator>(link: &Option<Link<A>>) -> u64
    ensures { result ≡ soonest (places_of link.now) }
{
    match link {
        Some(node) => node.least,
        None => u64::MAX,
    }
}

// The parts of a node, turned so that its later side is no lower than its earlier one: if it is lower, the node of the
// earlier side comes to the top.
fn leaning_later<A: Allocator>(node: &mut Node<A>) -> (ItemPlace, Option<Link<A>>, Option<Link<A>>)
    ensures places { all_of result.0 result.1 result.2 ≡ node.old.places }
    ensures later { height_of result.2 + 1 ≡ node.old.height }
    ensures earlier { height_of result.1 < node.old.height }
    ensures even { node.old.height ≤ height_of result.1 + 3 }
{
    let (place, earlier, later) = node.take_apart();
    if height(&earlier) <= height(&later) {
        return (place, earlier, later);
    }
    let Some(mut up) = earlier else {
        return (place, None, later);
    };
    let (next, first, between) = up.take_apart();
    *up = Node::of(place, between, later);
    (next, first, Some(up))
}

// The same, turned so that the earlier side is no lower than the later one.
fn leaning_earlier<A: Allocator>(
    node: &mut Node<A>,
) -> (ItemPlace, Option<Link<A>>, Option<Link<A>>)
    ensures places { all_of result.0 result.1 result.2 ≡ node.old.places }
    ensures earlier { height_of result.1 + 1 ≡ node.old.height }
    ensures later { height_of result.2 < node.old.height }
    ensures even { node.old.height ≤ height_of result.2 + 3 }
{
    let (place, earlier, later) = node.take_apart();
    if height(&later) <= height(&earlier) {
        return (place, earlier, later);
    }
    let Some(mut up) = later else {
        return (place, earlier, None);
    };
    let (next, between, last) = up.take_apart();
    *up = Node::of(place, earlier, between);
    (next, Some(up), last)
}

// The node where the later side is two levels higher: the node of that side comes to the top.
fn turn_earlier<A: Allocator>(
    place: ItemPlace,
    earlier: Option<Link<A>>,
    later: Option<Link<A>>,
) -> Node<A>
    requires higher { height_of later ≡ height_of earlier + 2 }
    requires few { length (places_of earlier) + length (places_of later) + 1 < 2 ^ 64 }
    ensures places { result.places ≡ all_of place earlier later }
    ensures low { height_of later ≤ result.height }
    ensures high { result.height ≤ height_of later + 1 }
{
    let Some(mut up) = later else {
        return Node::of(place, earlier, None);
    };
    let (next, between, last) = leaning_later(&mut up);
    *up = Node::of(place, earlier, between);
    Node::of(next, Some(up), last)
}

// The node where the earlier side is two levels higher: the node of that side comes to the top.
fn turn_later<A: Allocator>(
    place: ItemPlace,
    earlier: Option<Link<A>>,
    later: Option<Link<A>>,
) -> Node<A>
    requires higher { height_of earlier ≡ height_of later + 2 }
    requires few { length (places_of earlier) + length (places_of later) + 1 < 2 ^ 64 }
    ensures places { result.places ≡ all_of place earlier later }
    ensures low { height_of earlier ≤ result.height }
    ensures high { result.height ≤ height_of earlier + 1 }
{
    let Some(mut up) = earlier else {
        return Node::of(place, None, later);
    };
    let (next, first, between) = leaning_earlier(&mut up);
    *up = Node::of(place, between, later);
    Node::of(next, first, Some(up))
}

// A balanced node with these sides. One may be two levels higher than the other.
fn balanced<A: Allocator>(
    place: ItemPlace,
    earlier: Option<Link<A>>,
    later: Option<Link<A>>,
) -> Node<A>
    requires earlier { height_of earlier ≤ height_of later + 2 }
    requires later { height_of later ≤ height_of earlier + 2 }
    requires few { length (places_of earlier) + length (places_of later) + 1 < 2 ^ 64 }
    ensures places { result.places ≡ all_of place earlier later }
    ensures height { IsBalanced (height_of earlier) (height_of later) result.height }
{
    let earlier_height = height(&earlier);
    let later_height = height(&later);
    if later_height > earlier_height.saturating_add(1) {
        return turn_earlier(place, earlier, later);
    }
    if earlier_height > later_height.saturating_add(1) {
        return turn_later(place, earlier, later);
    }
    Node::of(place, earlier, later)
}

/// Puts the place at the end, in a node in the given box.
#[cycle(append)]
pub(crate) fn append<A: Allocator>(link: &mut Option<Link<A>>, place: &ItemPlace, spare: Link<A>)
    requires few { length (places_of link.old) + 1 < 2 ^ 64 }
    ensures places { places_of link.new ≡ places_of link.old ++ place.now ∷ [] }
    ensures grows { height_of link.old ≤ height_of link.new }
    ensures little { height_of link.new ≤ height_of link.old + 1 }
{
    let Some(mut node) = link.take() else {
        let mut spare = spare;
        *spare = Node::of(*place, None, None);
        *link = Some(spare);
        return;
    };
    let (own, earlier, mut later) = node.take_apart();
    append(&mut later, place, spare);
    *node = balanced(own, earlier, later);
    *link = Some(node);
}

/// Removes the first place, and returns it with a free box. Each visited node is a step.
#[cycle(pop_first)]
fn pop_first<A: Allocator, L: Ledger>(
    link: &mut Option<Link<A>>,
    steps: &mut Steps<L>,
) -> Option<(ItemPlace, Link<A>)>
    ensures cost { steps.new ≤ steps.old + height_of link.old }
    ensures places { IsFirstOf (places_of link.old) (places_of link.new) (option_map (λ r. r.0) result) }
    ensures none { IfNone result (height_of link.old ≡ 0) }
    ensures shrinks { height_of link.new ≤ height_of link.old }
    ensures little { height_of link.old ≤ height_of link.new + 1 }
{
    let Some(mut node) = link.take() else {
        return None;
    };
    steps.tick();
    let (own, mut earlier, later) = node.take_apart();
    match pop_first(&mut earlier, steps) {
        Some(first) => {
            *node = balanced(own, earlier, later);
            *link = Some(node);
            Some(first)
        }
        None => {
            *link = later;
            Some((own, node))
        }
    }
}

/// Removes the last place, and returns it.
#[cycle(pop_last)]
pub(crate) fn pop_last<A: Allocator>(link: &mut Option<Link<A>>) -> Option<ItemPlace>
    ensures places { IsLastOf (places_of link.old) (places_of link.new) result }
    ensures none { IfNone result (height_of link.old ≡ 0) }
    ensures count { length (places_of link.new) + (if is_some result then 1 else 0) ≡ length (places_of link.old) }
    ensures shrinks { height_of link.new ≤ height_of link.old }
    ensures little { height_of link.old ≤ height_of link.new + 1 }
{
    let Some(mut node) = link.take() else {
        return None;
    };
    let (own, earlier, mut later) = node.take_apart();
    match pop_last(&mut later) {
        Some(last) => {
            *node = balanced(own, earlier, later);
            *link = Some(node);
            Some(last)
        }
        None => {
            *link = earlier;
            Some(own)
        }
    }
}

// Joins two sides to one. Each visited node is a step.
fn join<A: Allocator, L: Ledger>(
    earlier: Option<Link<A>>,
    later: Option<Link<A>>,
    steps: &mut Steps<L>,
) -> Option<Link<A>>
    requires earlier { height_of earlier ≤ height_of later + 1 }
    requires later { height_of later ≤ height_of earlier + 1 }
    requires few { length (places_of earlier) + length (places_of later) + 1 < 2 ^ 64 }
    ensures places { places_of result ≡ places_of earlier ++ places_of later }
    ensures low { max (height_of earlier) (height_of later) ≤ height_of result }
    ensures high { height_of result ≤ max (height_of earlier) (height_of later) + 1 }
    ensures cost { steps.new ≤ steps.old + height_of later }
{
    let mut later = later;
    match pop_first(&mut later, steps) {
        Some((first, mut top)) => {
            *top = balanced(first, earlier, later);
            Some(top)
        }
        None => earlier,
    }
}

/// Removes the place if it is there, and then returns a free box. Each visited node is a step.
#[cycle(remove_counted)]
pub(crate) fn remove_counted<A: Allocator, L: Ledger>(
    link: &mut Option<Link<A>>,
    place: &ItemPlace,
    steps: &mut Steps<L>,
) -> Option<Link<A>>
    requires { InOrder (places_of link.old) }
    ensures places { places_of link.new ≡ filter (λ other. not (same_place place.now other)) (places_of link.old) }
    ensures there { list_any (same_place place.now) (places_of link.old) ≡ true → IsSome result }
    ensures count { length (places_of link.new) + (if is_some result then 1 else 0) ≡ length (places_of link.old) }
    ensures shrinks { height_of link.new ≤ height_of link.old }
    ensures little { height_of link.old ≤ height_of link.new + 1 }
    ensures cost { steps.new ≤ steps.old + height_of link.old }
{
    let Some(mut node) = link.take() else {
        return None;
    };
    steps.tick();
    let (own, mut earlier, mut later) = node.take_apart();
    let spare = match place.cmp(&own) {
        Ordering::Less => remove_counted(&mut earlier, place, steps),
        Ordering::Greater => remove_counted(&mut later, place, steps),
        Ordering::Equal => {
            *link = join(earlier, later, steps);
            return Some(node);
        }
    };
    *node = balanced(own, earlier, later);
    *link = Some(node);
    spare
}

/// The last place.
#[cycle(last)]
pub(crate) fn last<A: Allocator>(link: &Option<Link<A>>) -> Option<&ItemPlace>
    ensures { EndsWith (places_of link.now) (option_copied result) }
{
    let Some(node) = link else {
        return None;
    };
    let (place, _, later) = node.parts();
    match last(later) {
        Some(last) => Some(last),
        None => Some(place),
    }
}

/// The first place after this number and key, or the first of all.
#[cycle(first_after)]
pub(crate) fn first_after<'n, A: Allocator>(
    link: &'n Option<Link<A>>,
    after: &Option<(u64, Key)>,
) -> Option<&'n ItemPlace>
    requires { InOrder (places_of link.now) }
    ensures { option_copied result ≡ next_of named_cmp name_of (places_of link.now) after.now }
{
    let Some(node) = link else {
        return None;
    };
    let (place, earlier, later) = node.parts();
    if !place.is_after(after) {
        return first_after(later, after);
    }
    match first_after(earlier, after) {
        Some(first) => Some(first),
        None => Some(place),
    }
}

/// The first place whose item has ended by the moment. Each visited node is a step.
#[cycle(first_due)]
pub(crate) fn first_due<'n, A: Allocator, L: Ledger>(
    link: &'n Option<Link<A>>,
    moment: u64,
    steps: &mut Steps<L>,
) -> Option<&'n ItemPlace>
    requires { moment < 18446744073709551615 }
    ensures first { option_copied result ≡ find (is_due moment) (places_of link.now) }
    ensures cost { steps.new ≤ steps.old + (if is_some result then 2 * height_of link.now else 1) }
{
    let Some(node) = link else {
        return None;
    };
    steps.tick();
    if node.is_later_than(moment) {
        return None;
    }
    let (place, earlier, later) = node.parts();
    if let Some(first) = first_due(earlier, moment, steps) {
        return Some(first);
    }
    if place.deadline <= moment {
        return Some(place);
    }
    first_due(later, moment, steps)
}

/// A copy of the nodes, in boxes of their own.
#[cycle(copy_nodes)]
pub(crate) fn copy_nodes<A: Allocator + Clone>(
    link: &Option<Link<A>>,
    alloc: &A,
) -> Result<Option<Link<A>>, AllocError>
    ensures places { IfOk result (λ copy. places_of copy ≡ places_of link.now) }
    ensures height { IfOk result (λ copy. height_of copy ≡ height_of link.now) }
{
    let Some(node) = link else {
        return Ok(None);
    };
    let (place, earlier, later) = node.parts();
    let copy = Node::of(
        *place,
        copy_nodes(earlier, alloc)?,
        copy_nodes(later, alloc)?,
    );
    Ok(Some(Box::new(alloc.clone()?, copy)?))
}
