//! The nodes of the tree.

ghost use Rattle.std.specs.Prelude.{◌≡◌, Some, None, ◌+◌, ◌<◌, ◌≤◌, ◌-◌, ◌*◌, ◌^◌, ◌∷◌, ◌++◌, [], IsTrue, IfSome, true, false, length};
ghost use Rattle.std.specs.FinMap as map;
ghost use Rattle.std.specs.Option.{option_copied, option_map, is_some};
ghost use Rattle.prefix_tree.specs.Table.{longest};
ghost use Rattle.identity.specs.Path.{begins};
ghost use Rattle.prefix_tree.specs.Inside.Around.{table_of, nodes_of, IsUnder};
ghost use Rattle.prefix_tree.specs.Visits.{is_place, visits_beyond};

use crate::path;
use base::Steps;
use identity::Prefix;
use std::alloc::Allocator;
use std::marker::Model;
use std::sync::ledger::Ledger;

/// A node in a box of its own.
pub(crate) type Link<V, A> = Box<Node<V, A>, A>;

/// A place where prefixes part, or where one ends: its whole prefix, the links to what goes on with each bit, and its
/// value. The fields that a walk reads of every node come first, so that they are together in memory.
#[derive(Drop)]
pub(crate) struct Node<V, A: Allocator> {
    pub(crate) at: Prefix,
    pub(crate) zero: Option<Link<V, A>>,
    pub(crate) one: Option<Link<V, A>>,
    pub(crate) value: Option<V>,
}

impl<V, A: Allocator> Model for Node<V, A> {
    ghost use Rattle.prefix_tree.specs.Inside.Around.{NodeModel, coded_node, node_view};

    ghost Value = { NodeModel V };

    ghost coded = { coded_node V.code };

    ghost view = { λ n. node_view n.at n.value n.zero n.one };

    ghost size = { λ d. d.nodes };

    ghost use Rattle.std.proofs.Common.{arith};

    ghost size_decreases = { λ a h. Prim.grind (arith) };
}

impl<V, A: Allocator> Node<V, A> {
    /// A node with this value, if there is one, and without sides.
    pub(crate) fn leaf(at: Prefix, value: Option<V>) -> Self
        ensures at { result.at ≡ at }
        ensures table { (v : V) → value ≡ Some v → result.table ≡ map.insert map.empty at v }
        ensures bare { value ≡ None → result.table ≡ map.empty }
        ensures sound { IsTrue result.sound }
        ensures count { result.nodes ≡ 1 }
    {
        Node {
            at,
            value,
            zero: None,
            one: None,
        }
    }

    /// The link to what goes on with this bit.
    pub(crate) fn below(&self, one: bool) -> &Option<Link<V, A>>
        requires { IsTrue self.now.sound }
        ensures under { IsUnder (self.now.at ++ one ∷ []) result.now }
        ensures table { (q : _) → IsTrue (begins (self.now.at ++ one ∷ []) q) → map.get self.now.table q ≡ map.get (table_of result.now) q }
    {
        if one { &self.one } else { &self.zero }
    }

    /// The value at the node itself.
    pub(crate) fn own(&self) -> Option<&V>
        requires { IsTrue self.now.sound }
        ensures { option_copied result ≡ map.get self.now.table self.now.at }
    {
        match &self.value {
            Some(value) => Some(value),
            None => None,
        }
    }

    /// The value at this very prefix.
    pub(crate) fn get<L: Ledger>(&self, key: &Prefix, steps: &mut Steps<L>) -> Option<&V>
        requires within { IsTrue (begins self.now.at key.now) }
        requires sound { IsTrue self.now.sound }
        ensures value { option_copied result ≡ map.get self.now.table key.now }
        ensures cost { steps.new ≡ steps.old + 1 + visits_beyond self.now.table self.now.at key.now }
    {
        let mut here = self;
        steps.tick();
        while here.at.len() < key.len() {
            let Some(node) = here.below(path::side(&here.at, key)) else {
                return None;
            };
            steps.tick();
            if !path::begins(&node.at, key) {
                return None;
            }
            here = node;
        }
        here.own()
    }

    /// The entry under the longest prefix that begins the key. The node is the root.
    pub(crate) fn longest<L: Ledger>(
        &self,
        key: &Prefix,
        steps: &mut Steps<L>,
    ) -> Option<(Prefix, &V)>
        requires root { self.now.at ≡ [] }
        requires sound { IsTrue self.now.sound }
        ensures found { option_map (λ e. (e.0, e.1.now)) result ≡ longest self.now.table key.now }
        ensures cost { steps.new ≡ steps.old + 1 + visits_beyond self.now.table self.now.at key.now }
    {
        let mut here = self;
        let mut best = None;
        steps.tick();
        while here.at.len() < key.len() {
            if let Some(value) = here.own() {
                best = Some((here.at, value));
            }
            let Some(node) = here.below(path::side(&here.at, key)) else {
                return best;
            };
            steps.tick();
            if !path::begins(&node.at, key) {
                return best;
            }
            here = node;
        }
        match here.own() {
            Some(value) => Some((here.at, value)),
            None => best,
        }
    }
}

impl<V, A: Allocator> Node<V, A> {
    /// How many nodes it and those below it are. It takes no memory.
    #[cycle(nodes)]
    pub(crate) fn nodes(&self) -> usize
        requires { IsTrue self.now.sound }
        ensures value { result ≡ self.now.nodes }
        ensures few { result ≤ 2 * map.len self.now.table + 1 }
        ensures full { IsTrue (is_place self.now.table self.now.at) → result + 1 ≤ 2 * map.len self.now.table }
        ensures fits { result < 2 ^ (49 - length self.now.at) }
        ensures short { length self.now.at ≤ 48 }
    {
        let _ = self.at.len();
        1 + Node::nodes_below(&self.zero) + Node::nodes_below(&self.one)
    }

    // As `nodes`, of the node that a link leads to.
    #[cycle(nodes)]
    fn nodes_below(link: &Option<Link<V, A>>) -> usize
        requires { IsUnder [] link.now }
        ensures value { result ≡ nodes_of link.now }
        ensures few { result ≤ 2 * map.len (table_of link.now) }
        ensures full { IsTrue (is_some link.now) → result + 1 ≤ 2 * map.len (table_of link.now) }
        ensures fits { (p : _) (k : _) → IsUnder p link.now → length p ≡ k + 1 → k ≤ 48 → result < 2 ^ (48 - k) }
    {
        match link {
            Some(node) => node.nodes(),
            None => 0,
        }
    }
}
