//! A value of the tree, borrowed for writing.

ghost use Rattle.std.specs.Prelude.{◌≡◌, ◌+◌, ◌<◌, ◌≤◌, ◌==◌, IsTrue, IfSome, IfNone, length};
ghost use Rattle.std.specs.FinMap as map;
ghost use Rattle.std.specs.Option.{option_copied_mut};
ghost use Rattle.std.specs.Borrow.{sem};
ghost use Rattle.identity.specs.Path.{begins};
ghost use Rattle.prefix_tree.specs.Visits.{visits_beyond};
ghost use Rattle.prefix_tree.specs.Inside.Grafting.{steps_at_key, IsOnWay, BorrowsBelow, BorrowsValue, BorrowsInside};

use crate::edit::visit;
use crate::node::{Link, Node};
use crate::path;
use base::Steps;
use identity::Prefix;
use std::alloc::Allocator;
use std::sync::ledger::Ledger;

impl<V, A: Allocator> Node<V, A> {
    /// The value at this very prefix, for writing.
    pub(crate) fn get_mut<L: Ledger>(
        &mut self,
        key: &Prefix,
        steps: &mut Steps<L>,
    ) -> Option<&mut V>
        requires within { IsTrue (begins self.old.at key.now) }
        requires sound { IsTrue self.old.sound }
        ensures* writes_back { sem 𝓛 (BorrowsValue V.row A.row A.Allocator self.entry key.now result) }
        ensures value { option_copied_mut result ≡ map.get self.old.table key.now }
        ensures cost { steps.new ≡ steps.old + 1 + visits_beyond self.old.table self.old.at key.now }
    {
        steps.tick();
        if self.at.len() == key.len() {
            return self.own_mut();
        }
        inside(self.down_64(key, steps)?).own_mut()
    }

    // The value at the node itself, for writing.
    fn own_mut(&mut self) -> Option<&mut V>
        requires { IsTrue self.old.sound }
        ensures* writes_back { sem 𝓛 (BorrowsValue V.row A.row A.Allocator self.entry self.old.at result) }
        ensures value { option_copied_mut result ≡ map.get self.old.table self.old.at }
    {
        self.value.as_mut()
    }

    // The link that is so many nodes down on the way to the key, or the link to the key's own node. The checker
    // proves no borrow that a function gets by calling itself. So each of these calls the one before it twice.
    fn down_1<L: Ledger>(&mut self, key: &Prefix, steps: &mut Steps<L>) -> Option<&mut Link<V, A>>
        requires within { IsTrue (begins self.old.at key.now) }
        requires longer { length self.old.at < length key.now }
        requires sound { IsTrue self.old.sound }
        ensures* writes_back { sem 𝓛 (BorrowsBelow V.row A.row A.Allocator self.entry result) }
        ensures on_way { IfSome result (λ link. IsOnWay self.old key.now link.now.value) }
        ensures far { IfSome result (λ link. (n : _) → n ≤ length self.old.at + 1 → n ≤ length key.now → n ≤ length link.now.value.at) }
        ensures none { IfNone result (map.get self.old.table key.now ≡ None) }
        ensures cost { IfSome result (λ link. steps_at_key steps.new link.now.value key.now ≡ steps_at_key steps.old self.old key.now) }
        ensures cost_of_none { IfNone result (steps.new ≡ steps_at_key steps.old self.old key.now) }
    {
        if path::side(&self.at, key) {
            if !visit(&self.one, key, steps) {
                return None;
            }
            self.one.as_mut()
        } else {
            if !visit(&self.zero, key, steps) {
                return None;
            }
            self.zero.as_mut()
        }
    }

    fn down_2<L: Ledger>(&mut self, key: &Prefix, steps: &mut Steps<L>) -> Option<&mut Link<V, A>>
        requires within { IsTrue (begins self.old.at key.now) }
        requires longer { length self.old.at < length key.now }
        requires sound { IsTrue self.old.sound }
        ensures* writes_back { sem 𝓛 (BorrowsBelow V.row A.row A.Allocator self.entry result) }
        ensures on_way { IfSome result (λ link. IsOnWay self.old key.now link.now.value) }
        ensures far { IfSome result (λ link. (n : _) → n ≤ length self.old.at + 2 → n ≤ length key.now → n ≤ length link.now.value.at) }
        ensures none { IfNone result (map.get self.old.table key.now ≡ None) }
        ensures cost { IfSome result (λ link. steps_at_key steps.new link.now.value key.now ≡ steps_at_key steps.old self.old key.now) }
        ensures cost_of_none { IfNone result (steps.new ≡ steps_at_key steps.old self.old key.now) }
    {
        let link = self.down_1(key, steps)?;
        if is_at(link, key) {
            return Some(link);
        }
        inside(link).down_1(key, steps)
    }

    fn down_4<L: Ledger>(&mut self, key: &Prefix, steps: &mut Steps<L>) -> Option<&mut Link<V, A>>
        requires within { IsTrue (begins self.old.at key.now) }
        requires longer { length self.old.at < length key.now }
        requires sound { IsTrue self.old.sound }
        ensures* writes_back { sem 𝓛 (BorrowsBelow V.row A.row A.Allocator self.entry result) }
        ensures on_way { IfSome result (λ link. IsOnWay self.old key.now link.now.value) }
        ensures far { IfSome result (λ link. (n : _) → n ≤ length self.old.at + 4 → n ≤ length key.now → n ≤ length link.now.value.at) }
        ensures none { IfNone result (map.get self.old.table key.now ≡ None) }
        ensures cost { IfSome result (λ link. steps_at_key steps.new link.now.value key.now ≡ steps_at_key steps.old self.old key.now) }
        ensures cost_of_none { IfNone result (steps.new ≡ steps_at_key steps.old self.old key.now) }
    {
        let link = self.down_2(key, steps)?;
        if is_at(link, key) {
            return Some(link);
        }
        inside(link).down_2(key, steps)
    }

    fn down_8<L: Ledger>(&mut self, key: &Prefix, steps: &mut Steps<L>) -> Option<&mut Link<V, A>>
        requires within { IsTrue (begins self.old.at key.now) }
        requires longer { length self.old.at < length key.now }
        requires sound { IsTrue self.old.sound }
        ensures* writes_back { sem 𝓛 (BorrowsBelow V.row A.row A.Allocator self.entry result) }
        ensures on_way { IfSome result (λ link. IsOnWay self.old key.now link.now.value) }
        ensures far { IfSome result (λ link. (n : _) → n ≤ length self.old.at + 8 → n ≤ length key.now → n ≤ length link.now.value.at) }
        ensures none { IfNone result (map.get self.old.table key.now ≡ None) }
        ensures cost { IfSome result (λ link. steps_at_key steps.new link.now.value key.now ≡ steps_at_key steps.old self.old key.now) }
        ensures cost_of_none { IfNone result (steps.new ≡ steps_at_key steps.old self.old key.now) }
    {
        let link = self.down_4(key, steps)?;
        if is_at(link, key) {
            return Some(link);
        }
        inside(link).down_4(key, steps)
    }

    fn down_16<L: Ledger>(&mut self, key: &Prefix, steps: &mut Steps<L>) -> Option<&mut Link<V, A>>
        requires within { IsTrue (begins self.old.at key.now) }
        requires longer { length self.old.at < length key.now }
        requires sound { IsTrue self.old.sound }
        ensures* writes_back { sem 𝓛 (BorrowsBelow V.row A.row A.Allocator self.entry result) }
        ensures on_way { IfSome result (λ link. IsOnWay self.old key.now link.now.value) }
        ensures far { IfSome result (λ link. (n : _) → n ≤ length self.old.at + 16 → n ≤ length key.now → n ≤ length link.now.value.at) }
        ensures none { IfNone result (map.get self.old.table key.now ≡ None) }
        ensures cost { IfSome result (λ link. steps_at_key steps.new link.now.value key.now ≡ steps_at_key steps.old self.old key.now) }
        ensures cost_of_none { IfNone result (steps.new ≡ steps_at_key steps.old self.old key.now) }
    {
        let link = self.down_8(key, steps)?;
        if is_at(link, key) {
            return Some(link);
        }
        inside(link).down_8(key, steps)
    }

    fn down_32<L: Ledger>(&mut self, key: &Prefix, steps: &mut Steps<L>) -> Option<&mut Link<V, A>>
        requires within { IsTrue (begins self.old.at key.now) }
        requires longer { length self.old.at < length key.now }
        requires sound { IsTrue self.old.sound }
        ensures* writes_back { sem 𝓛 (BorrowsBelow V.row A.row A.Allocator self.entry result) }
        ensures on_way { IfSome result (λ link. IsOnWay self.old key.now link.now.value) }
        ensures far { IfSome result (λ link. (n : _) → n ≤ length self.old.at + 32 → n ≤ length key.now → n ≤ length link.now.value.at) }
        ensures none { IfNone result (map.get self.old.table key.now ≡ None) }
        ensures cost { IfSome result (λ link. steps_at_key steps.new link.now.value key.now ≡ steps_at_key steps.old self.old key.now) }
        ensures cost_of_none { IfNone result (steps.new ≡ steps_at_key steps.old self.old key.now) }
    {
        let link = self.down_16(key, steps)?;
        if is_at(link, key) {
            return Some(link);
        }
        inside(link).down_16(key, steps)
    }

    fn down_64<L: Ledger>(&mut self, key: &Prefix, steps: &mut Steps<L>) -> Option<&mut Link<V, A>>
        requires within { IsTrue (begins self.old.at key.now) }
        requires longer { length self.old.at < length key.now }
        requires sound { IsTrue self.old.sound }
        ensures* writes_back { sem 𝓛 (BorrowsBelow V.row A.row A.Allocator self.entry result) }
        ensures on_way { IfSome result (λ link. IsOnWay self.old key.now link.now.value) }
        ensures far { IfSome result (λ link. (n : _) → n ≤ length self.old.at + 64 → n ≤ length key.now → n ≤ length link.now.value.at) }
        ensures none { IfNone result (map.get self.old.table key.now ≡ None) }
        ensures cost { IfSome result (λ link. steps_at_key steps.new link.now.value key.now ≡ steps_at_key steps.old self.old key.now) }
        ensures cost_of_none { IfNone result (steps.new ≡ steps_at_key steps.old self.old key.now) }
    {
        let link = self.down_32(key, steps)?;
        if is_at(link, key) {
            return Some(link);
        }
        inside(link).down_32(key, steps)
    }
}

// Whether the link leads to the key's own node.
fn is_at<V, A: Allocator>(link: &Link<V, A>, key: &Prefix) -> bool
    ensures { result ≡ (length link.now.value.at == length key.now) }
{
    link.at.len() == key.len()
}

// The node in the box.
fn inside<V, A: Allocator>(link: &mut Link<V, A>) -> &mut Node<V, A>
    ensures* writes_back { sem 𝓛 (BorrowsInside V.row A.row A.Allocator link.entry result) }
    ensures value { result.now ≡ link.old.value }
{
    link.as_mut()
}
