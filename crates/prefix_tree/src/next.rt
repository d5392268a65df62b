//! The entry after a key, found without taking memory.

ghost use Rattle.std.specs.Prelude.{◌≡◌, ◌+◌, ◌*◌, ◌≤◌, ◌++◌, ◌∷◌, Some, None, [], IsTrue, IfNone, true, false, length};
ghost use Rattle.std.specs.FinMap as map;
ghost use Rattle.std.specs.Option.{option_map, option_or};
ghost use Rattle.std.specs.Ordering.{is_lt};
ghost use Rattle.identity.specs.Path.{begins, path_cmp};
ghost use Rattle.prefix_tree.specs.Inside.Around.{table_of, own_entry, IsUnder};
ghost use Rattle.prefix_tree.specs.Next.{first_entry, entry_past};

use crate::node::{Link, Node};
use crate::path;
use base::Steps;
use identity::Prefix;
use std::alloc::Allocator;
use std::sync::ledger::Ledger;

impl<V, A: Allocator> Node<V, A> {
    /// The first entry at or below the node.
    #[cycle(first)]
    pub(crate) fn first<L: Ledger>(&self, steps: &mut Steps<L>) -> Option<(Prefix, &V)>
        requires { IsTrue self.now.sound }
        ensures found { option_map (λ e. (e.0, e.1.now)) result ≡ first_entry (map.entries self.now.table) }
        ensures cost { steps.new + length self.now.at ≤ steps.old + 49 }
    {
        let _ = self.at.len();
        steps.tick();
        if let Some(value) = &self.value {
            return Some((self.at, value));
        }
        match Node::first_below(&self.zero, steps) {
            Some(found) => Some(found),
            None => Node::first_below(&self.one, steps),
        }
    }

    #[cycle(first)]
    fn first_below<'t, L: Ledger>(
        link: &'t Option<Link<V, A>>,
        steps: &mut Steps<L>,
    ) -> Option<(Prefix, &'t V)>
        requires { IsUnder [] link.now }
        ensures found { option_map (λ e. (e.0, e.1.now)) result ≡ first_entry (map.entries (table_of link.now)) }
        ensures cost { (p : _) → IsUnder p link.now → length p ≤ 49 → steps.new + length p ≤ steps.old + 49 }
        ensures none { IfNone result (steps.new ≡ steps.old) }
    {
        match link {
            Some(node) => node.first(steps),
            None => None,
        }
    }

    /// The first entry below the node that comes after a key. The node begins the key.
    #[cycle(past)]
    pub(crate) fn past<L: Ledger>(&self, key: &Prefix, steps: &mut Steps<L>) -> Option<(Prefix, &V)>
        requires within { IsTrue (begins self.now.at key.now) }
        requires sound { IsTrue self.now.sound }
        ensures found { option_map (λ e. (e.0, e.1.now)) result ≡ entry_past key.now (map.entries self.now.table) }
        ensures cost { steps.new + 2 * length self.now.at ≤ steps.old + 98 }
        ensures none { IfNone result (steps.new + length self.now.at ≤ steps.old + 49) }
    {
        let _ = self.at.len();
        steps.tick();
        if goes_on_with_one(&self.at, key) {
            return Node::past_below(&self.one, key, steps);
        }
        match Node::past_below(&self.zero, key, steps) {
            Some(found) => Some(found),
            None => Node::first_below(&self.one, steps),
        }
    }

    #[cycle(past)]
    fn past_below<'t, L: Ledger>(
        link: &'t Option<Link<V, A>>,
        key: &Prefix,
        steps: &mut Steps<L>,
    ) -> Option<(Prefix, &'t V)>
        requires { IsUnder [] link.now }
        ensures found { option_map (λ e. (e.0, e.1.now)) result ≡ entry_past key.now (map.entries (table_of link.now)) }
        ensures cost { (p : _) → IsUnder p link.now → length p ≤ 49 → steps.new + 2 * length p ≤ steps.old + 98 }
        ensures none { IfNone result ((p : _) → IsUnder p link.now → length p ≤ 49 → steps.new + length p ≤ steps.old + 49) }
    {
        let Some(node) = link else {
            return None;
        };
        if path::begins(&node.at, key) {
            return node.past(key, steps);
        }
        if comes_before(key, &node.at) {
            return node.first(steps);
        }
        steps.tick();
        None
    }
}

// Whether the key goes on with 1 from a path that begins it.
fn goes_on_with_one(at: &Prefix, key: &Prefix) -> bool
    requires { IsTrue (begins at.now key.now) }
    ensures { result ≡ begins (at.now ++ true ∷ []) key.now }
{
    at.len() < key.len() && path::side(at, key)
}

// Whether the key comes before a path that does not begin it.
fn comes_before(key: &Prefix, at: &Prefix) -> bool
    requires { begins at.now key.now ≡ false }
    ensures before { result ≡ is_lt (path_cmp key.now at.now) }
    ensures short { length at.now ≤ 48 }
{
    let _ = at.len();
    let common = path::common(at, key);
    common.len() == key.len() || path::side(&common, at)
}
