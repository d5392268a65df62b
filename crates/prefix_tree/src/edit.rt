//! Changing the tree. An insert makes at most two nodes, and makes both before it links either. A node that is left
//! without a value and with one side at most is removed.

ghost use Rattle.std.specs.Prelude.{◌≡◌, cond, Option, Some, None, ◌+◌, ◌<◌, ◌≤◌, ◌∷◌, ◌++◌, [], true, false, not, length};
ghost use Rattle.std.specs.Prelude.{IsTrue, IsSome, IsOk, OnOk, IfOk, IfErr};
ghost use Rattle.std.specs.FinMap as map;
ghost use Rattle.std.specs.Option.{is_some};
ghost use Rattle.identity.specs.Path.{begins};
ghost use Rattle.prefix_tree.specs.Change.{IsChanged, Makes};
ghost use Rattle.prefix_tree.specs.Inside.Around.{table_of, nodes_of, leads_to, spread, is_lone, link_visits};
ghost use Rattle.prefix_tree.specs.Inside.Around.{KeysUnder, IsFirm, IsUnder, IsLoose, IsLooseUnder, PartsAt};
ghost use Rattle.prefix_tree.specs.Visits.{is_place, visits_beyond};

use crate::node::{Link, Node};
use crate::path;
use base::Steps;
use identity::Prefix;
use std::alloc::{AllocError, Allocator};
use std::sync::ledger::Ledger;

impl<V: Drop, A: Allocator + Clone> Node<V, A> {
    /// Sets the value at this very prefix, and answers the one before. When memory runs out, the new value is returned,
    /// and nothing is changed.
    #[cycle(insert)]
    pub(crate) fn insert(&mut self, alloc: &A, key: &Prefix, value: V) -> Result<Option<V>, V>
        requires within { IsTrue (begins self.old.at key.now) }
        requires sound { IsTrue self.old.sound }
        ensures at { self.new.at ≡ self.old.at }
        ensures sound { IsTrue self.new.sound }
        ensures before { IfOk result (λ before. before ≡ map.get self.old.table key.now) }
        ensures ok { OnOk result (self.new.table ≡ map.insert self.old.table key.now value) }
        ensures err { IfErr result (λ back. (back ≡ value) × (self.new ≡ self.old)) }
        ensures overwrite_succeeds { IsSome (map.get self.old.table key.now) → IsOk result }
        ensures few { self.new.nodes ≤ self.old.nodes + 2 }
    {
        if self.at.len() == key.len() {
            return Ok(self.value.replace(value));
        }
        if path::side(&self.at, key) {
            Node::insert_below(&mut self.one, alloc, key, value)
        } else {
            Node::insert_below(&mut self.zero, alloc, key, value)
        }
    }

    // As `insert`, at or below the node that a link leads to.
    #[cycle(insert)]
    fn insert_below(
        link: &mut Option<Link<V, A>>,
        alloc: &A,
        key: &Prefix,
        value: V,
    ) -> Result<Option<V>, V>
        requires { IsUnder [] link.old }
        ensures before { IfOk result (λ before. before ≡ map.get (table_of link.old) key.now) }
        ensures ok { OnOk result (table_of link.new ≡ map.insert (table_of link.old) key.now value) }
        ensures err { IfErr result (λ back. (back ≡ value) × (link.new ≡ link.old)) }
        ensures overwrite_succeeds { IsSome (map.get (table_of link.old) key.now) → IsOk result }
        ensures under { (p : _) → IsUnder p link.old → IsTrue (begins p key.now) → IsUnder p link.new }
        ensures few { nodes_of link.new ≤ nodes_of link.old + 2 }
    {
        if !leads(link, key) {
            return grow(link, alloc, key, value);
        }
        let Some(node) = link else { unreachable!() };
        node.insert(alloc, key, value)
    }
}

impl<V, A: Allocator> Node<V, A> {
    // A node with `old` under the bit `side`, and `other` under the other bit.
    fn above(
        at: Prefix,
        value: Option<V>,
        side: bool,
        old: Option<Link<V, A>>,
        other: Option<Link<V, A>>,
    ) -> Self
        requires old { IsUnder (at ++ side ∷ []) old }
        requires other { IsUnder (at ++ not side ∷ []) other }
        ensures at { result.at ≡ at }
        ensures table { result.table ≡ spread at value side (table_of old) (table_of other) }
        ensures keys { KeysUnder at result.table }
        ensures count { result.nodes ≡ nodes_of old + nodes_of other + 1 }
        ensures sound { IsTrue result.sound }
        ensures valued { IsTrue (is_some value) → IsTrue (is_place result.table at) }
        ensures forked { IsTrue (is_some old) → IsTrue (is_some other) → IsTrue (is_place result.table at) }
    {
        if side {
            Node {
                at,
                value,
                zero: other,
                one: old,
            }
        } else {
            Node {
                at,
                value,
                zero: old,
                one: other,
            }
        }
    }
}

// Whether the link leads to a node that begins the key.
pub(crate) fn leads<V, A: Allocator>(link: &Option<Link<V, A>>, key: &Prefix) -> bool
    ensures { result ≡ leads_to link.now key.now }
{
    match link {
        Some(node) => path::begins(&node.at, key),
        None => false,
    }
}

/// As `leads`. It counts a step where there is a node.
pub(crate) fn visit<V, A: Allocator, L: Ledger>(
    link: &Option<Link<V, A>>,
    key: &Prefix,
    steps: &mut Steps<L>,
) -> bool
    ensures value { result ≡ leads_to link.now key.now }
    ensures cost { steps.new ≡ steps.old + cond (is_some link.now) 1 0 }
{
    if link.is_some() {
        steps.tick();
    }
    leads(link, key)
}

// Where the ways to the link's node and to the key part, and the bit with which the way to the node goes on.
fn parting<V, A: Allocator>(link: &Option<Link<V, A>>, key: &Prefix) -> Option<(Prefix, bool)>
    requires under { IsUnder [] link.now }
    requires beside { leads_to link.now key.now ≡ false }
    ensures { PartsAt link.now key.now result }
{
    let Some(node) = link else {
        return None;
    };
    let at = path::common(&node.at, key);
    Some((at, path::side(&at, &node.at)))
}

// A node without a value and without sides, in a box of its own.
fn place<V: Drop, A: Allocator + Clone>(alloc: &A, at: Prefix) -> Result<Link<V, A>, AllocError> {
    Ok(Box::new(alloc.clone()?, Node::leaf(at, None))?)
}

// A node with this value and without sides, in a box of its own.
fn sprout<V: Drop, A: Allocator + Clone>(alloc: &A, at: Prefix, value: V) -> Result<Link<V, A>, V>
    ensures at { IfOk result (λ node. node.value.at ≡ at) }
    ensures table { IfOk result (λ node. node.value.table ≡ map.insert map.empty at value) }
    ensures count { IfOk result (λ node. node.value.nodes ≡ 1) }
    ensures firm { IfOk result (λ node. (p : _) → IsTrue (begins p at) → IsFirm p node.value) }
    ensures err { IfErr result (λ back. back ≡ value) }
{
    let Ok(mut node) = place(alloc, at) else {
        return Err(value);
    };
    *node = Node::leaf(at, Some(value));
    Ok(node)
}

// Makes a node for the key, where the link's node, if there is one, does not begin it. Where the key does not begin
// that node either, a second new node goes above both.
fn grow<V: Drop, A: Allocator + Clone>(
    link: &mut Option<Link<V, A>>,
    alloc: &A,
    key: &Prefix,
    value: V,
) -> Result<Option<V>, V>
    requires under { IsUnder [] link.old }
    requires beside { leads_to link.old key.now ≡ false }
    ensures before { IfOk result (λ before. before ≡ None) }
    ensures ok { OnOk result (table_of link.new ≡ map.insert (table_of link.old) key.now value) }
    ensures err { IfErr result (λ back. (back ≡ value) × (link.new ≡ link.old)) }
    ensures under { (p : _) → IsUnder p link.old → IsTrue (begins p key.now) → IsUnder p link.new }
    ensures few { nodes_of link.new ≤ nodes_of link.old + 2 }
{
    let Some((at, side)) = parting(link, key) else {
        return match sprout(alloc, *key, value) {
            Ok(leaf) => {
                *link = Some(leaf);
                Ok(None)
            }
            Err(value) => Err(value),
        };
    };
    let Ok(mut top) = place(alloc, at) else {
        return Err(value);
    };
    if at.len() == key.len() {
        *top = Node::above(at, Some(value), side, link.take(), None);
        *link = Some(top);
        return Ok(None);
    }
    match sprout(alloc, *key, value) {
        Ok(leaf) => {
            *top = Node::above(at, None, side, link.take(), Some(leaf));
            *link = Some(top);
            Ok(None)
        }
        Err(value) => Err(value),
    }
}

impl<V: Drop, A: Allocator> Node<V, A> {
    /// What the closure answers of the value at this very prefix, which it changes or drops. A node below this one that
    /// is left without a value and with one side at most is removed.
    #[cycle(change)]
    pub(crate) fn change<R, F: FnOnce(V) -> (R, Option<V>), L: Ledger>(
        &mut self,
        key: &Prefix,
        change: F,
        steps: &mut Steps<L>,
    ) -> Option<R>
        requires within { IsTrue (begins self.old.at key.now) }
        requires sound { IsTrue self.old.sound }
        requires callable { F.IsAlwaysCallable change }
        ensures at { self.new.at ≡ self.old.at }
        ensures sound { IsTrue self.new.sound }
        ensures changed { IsChanged (F.post change) self.old.table key.now self.new.table result }
        ensures cost { steps.new ≡ steps.old + visits_beyond self.old.table self.old.at key.now }
    {
        if self.at.len() == key.len() {
            return apply(&mut self.value, change);
        }
        if path::side(&self.at, key) {
            Node::change_below(&mut self.one, key, change, steps)
        } else {
            Node::change_below(&mut self.zero, key, change, steps)
        }
    }

    // As `change`, at or below the node that a link leads to.
    #[cycle(change)]
    fn change_below<R, F: FnOnce(V) -> (R, Option<V>), L: Ledger>(
        link: &mut Option<Link<V, A>>,
        key: &Prefix,
        change: F,
        steps: &mut Steps<L>,
    ) -> Option<R>
        requires under { IsUnder [] link.old }
        requires callable { F.IsAlwaysCallable change }
        ensures changed { IsChanged (F.post change) (table_of link.old) key.now (table_of link.new) result }
        ensures under { (p : _) → IsUnder p link.old → IsUnder p link.new }
        ensures cost { steps.new ≡ steps.old + link_visits link.old key.now }
    {
        if !visit(link, key, steps) {
            return None;
        }
        let Some(node) = link else { unreachable!() };
        let answer = node.change(key, change, steps);
        join(link);
        answer
    }
}

// What the closure answers of the value, if there is one. `value` becomes what it leaves.
fn apply<V: Drop, R, F: FnOnce(V) -> (R, Option<V>)>(value: &mut Option<V>, change: F) -> Option<R>
    requires { F.IsAlwaysCallable change }
    ensures { Makes (F.post change) value.old result value.new }
{
    let old = value.take()?;
    let (answer, left) = change(old);
    *value = left;
    Some(answer)
}

// Replaces a node without a value and with one side at most by that side.
fn join<V: Drop, A: Allocator>(link: &mut Option<Link<V, A>>)
    requires { IsLooseUnder [] link.old }
    ensures table { table_of link.new ≡ table_of link.old }
    ensures under { (p : _) → IsLooseUnder p link.old → IsUnder p link.new }
{
    if is_lone(link) {
        *link = only_side(link);
    }
}

// Whether the link's node has no value, and one side at most.
fn is_lone<V, A: Allocator>(link: &Option<Link<V, A>>) -> bool
    requires { IsLooseUnder [] link.now }
    ensures { result ≡ is_lone link.now }
{
    match link {
        Some(node) => !node.is_full(),
        None => false,
    }
}

// Takes the one side out of a node without a value.
fn only_side<V, A: Allocator>(link: &mut Option<Link<V, A>>) -> Option<Link<V, A>>
    requires loose { IsLooseUnder [] link.old }
    requires lone { IsTrue (is_lone link.old) }
    ensures table { table_of result ≡ table_of link.old }
    ensures under { (p : _) → IsLooseUnder p link.old → IsUnder p result }
{
    match link {
        Some(node) => node.take_side(),
        None => None,
    }
}

impl<V, A: Allocator> Node<V, A> {
    // Whether it has a value, or both sides.
    fn is_full(&self) -> bool
        requires { IsTrue self.now.sound }
        ensures { result ≡ is_place self.now.table self.now.at }
    {
        self.value.is_some() || self.zero.is_some() && self.one.is_some()
    }

    // Takes the one side out, where there is no value.
    fn take_side(&mut self) -> Option<Link<V, A>>
        requires sound { IsTrue self.old.sound }
        requires lone { is_place self.old.table self.old.at ≡ false }
        ensures table { table_of result ≡ self.old.table }
        ensures under { (p : _) → IsLoose p self.old → IsUnder p result }
    {
        if self.one.is_none() {
            self.zero.take()
        } else {
            self.one.take()
        }
    }
}
