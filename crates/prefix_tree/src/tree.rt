//! The map as a tree with a node only where prefixes part.

ghost use Rattle.std.specs.Prelude.{◌≡◌, Option, ◌+◌, ◌*◌, ◌<◌, ◌≤◌, IfNone, IfOk, IfErr, OnOk, OnSome, IsOk, IsSome};
ghost use Rattle.std.specs.Option.{option_copied, option_copied_mut, option_map};
ghost use Rattle.std.specs.Borrow.{sem};
ghost use Rattle.std.specs.FinMap as map;
ghost use Rattle.identity.specs.Path.{id_path};
ghost use Rattle.prefix_tree.specs.Table.{longest};
ghost use Rattle.prefix_tree.specs.Walk.{seen};
ghost use Rattle.prefix_tree.specs.Change.{IsChanged};
ghost use Rattle.prefix_tree.specs.Borrowing.{BorrowsEntry};
ghost use Rattle.prefix_tree.specs.Next.{next_entry};
ghost use Rattle.prefix_tree.specs.Visits.{nodes_on_way};

use crate::node::Node;
use base::{Steps, TryCopy};
use identity::Prefix;
use std::alloc::{AllocError, Allocator};
use std::marker::{Brand, Model};
use std::mem;
use std::sync::ledger::{Blank, Ledger};

/// A finite map from prefixes, kept as a tree with a node only where prefixes part or one ends.
///
/// The root is a field of the map. Each other node is in a box under the map's allocator, and has a value, or nodes
/// on both sides.
#[derive(Drop)]
pub struct PrefixTree<V, A: Allocator> {
    alloc: A,
    root: Node<V, A>,
}

impl<V, A: Allocator> Model for PrefixTree<V, A> {
    ghost use Rattle.prefix_tree.specs.Table.{PathMap, coded_table};
    ghost use Rattle.std.specs.Prelude.{◌≡◌, [], IsTrue};

    ghost Value = { PathMap V };

    ghost coded = { coded_table V.code };

    ghost view = { λ t. t.root.table };

    ghost invariant = { λ t. (t.root.at ≡ []) × IsTrue t.root.sound };
}

impl<V, A: Allocator> PrefixTree<V, A> {
    /// The empty map. It takes no memory.
    pub fn new_in(alloc: A) -> Self
        ensures { result ≡ map.empty }
    {
        PrefixTree {
            alloc,
            root: Node::leaf(Prefix::of(0, 0), None),
        }
    }

    /// The value at this very prefix; each node that is visited is a step, 49 at most.
    pub fn get<L: Ledger>(&self, prefix: &Prefix, steps: &mut Steps<L>) -> Option<&V>
        ensures value { option_copied result ≡ map.get self.now prefix.now }
        ensures cost { steps.new ≤ steps.old + 49 }
        ensures visits { steps.new ≡ steps.old + nodes_on_way self.now prefix.now }
    {
        let _ = prefix.len();
        self.root.get(prefix, steps)
    }

    /// As `get`, for a caller that counts nothing.
    pub fn find(&self, prefix: &Prefix) -> Option<&V>
        ensures { option_copied result ≡ map.get self.now prefix.now }
    {
        find_from::<V, A, Brand>(self, prefix, Blank::new(1))
    }

    /// The entry under the longest prefix that begins the identity's 48 bits; each node that is
    /// visited is a step, 49 at most.
    pub fn longest<L: Ledger>(&self, identity: u64, steps: &mut Steps<L>) -> Option<(Prefix, &V)>
        ensures found { option_map (λ e. (e.0, e.1.now)) result ≡ longest self.now (id_path identity) }
        ensures cost { steps.new ≤ steps.old + 49 }
        ensures visits { steps.new ≡ steps.old + nodes_on_way self.now (id_path identity) }
    {
        self.root.longest(&Prefix::whole(identity), steps)
    }

    /// As `longest`, for a caller that counts nothing.
    pub fn find_longest(&self, identity: u64) -> Option<(Prefix, &V)>
        ensures { option_map (λ e. (e.0, e.1.now)) result ≡ longest self.now (id_path identity) }
    {
        find_longest_from::<V, A, Brand>(self, identity, Blank::new(1))
    }

    /// All entries in order: a prefix before its extensions, and else by the first bit that differs.
    pub fn walk<B: Allocator>(&self, alloc: B) -> Result<Vec<(Prefix, &V), B>, AllocError>
        ensures { IfOk result (λ list. seen list.items ≡ map.entries self.now) }
    {
        let mut list = Vec::new(alloc);
        self.root.push_entries(&mut list)?;
        Ok(list)
    }

    /// The first entry after this prefix in the order of `walk`, also where the prefix has none itself, or the
    /// first of all. It takes no memory; each node that is visited is a step, 98 at most.
    pub fn next_counted<L: Ledger>(
        &self,
        after: Option<Prefix>,
        steps: &mut Steps<L>,
    ) -> Option<(Prefix, &V)>
        ensures found { option_map (λ e. (e.0, e.1.now)) result ≡ next_entry self.now after }
        ensures cost { steps.new ≤ steps.old + 98 }
    {
        match after {
            None => self.root.first(steps),
            Some(prefix) => self.root.past(&prefix, steps),
        }
    }

    /// As `next_counted`, for a caller that counts nothing.
    pub fn next(&self, after: Option<Prefix>) -> Option<(Prefix, &V)>
        ensures { option_map (λ e. (e.0, e.1.now)) result ≡ next_entry self.now after }
    {
        next_from::<V, A, Brand>(self, after, Blank::new(1))
    }

    /// How many nodes there are, the root with them. It takes no memory.
    pub fn nodes(&self) -> usize
        ensures { result ≤ 2 * map.len self.now + 1 }
    {
        self.root.nodes()
    }

    /// The value at this very prefix, for writing. It takes no memory; each node that is visited is
    /// a step, 49 at most.
    pub fn get_mut<L: Ledger>(&mut self, prefix: &Prefix, steps: &mut Steps<L>) -> Option<&mut V>
        ensures* writes_back { sem 𝓛 (BorrowsEntry V.row A.row A.Allocator self.entry prefix.now result) }
        ensures value { option_copied_mut result ≡ map.get self.old prefix.now }
        ensures cost { steps.new ≤ steps.old + 49 }
        ensures visits { steps.new ≡ steps.old + nodes_on_way self.old prefix.now }
    {
        let _ = prefix.len();
        self.root.get_mut(prefix, steps)
    }

    /// Sets the value at a prefix, and answers the one before. When memory runs out, the pair is returned,
    /// and nothing is changed.
    pub fn insert(&mut self, prefix: Prefix, value: V) -> Result<Option<V>, (Prefix, V)>
    where
        V: Drop,
        A: Clone,
        ensures before { IfOk result (λ before. before ≡ map.get self.old prefix) }
        ensures ok { OnOk result (self.new ≡ map.insert self.old prefix value) }
        ensures err { IfErr result (λ pair. (pair ≡ (prefix, value)) × (self.new ≡ self.old)) }
        ensures overwrite_succeeds { IsSome (map.get self.old prefix) → IsOk result }
    {
        match self.root.insert(&self.alloc, &prefix, value) {
            Ok(before) => Ok(before),
            Err(value) => Err((prefix, value)),
        }
    }

    /// Sets the value at a prefix that has one, and answers the one before. It takes no memory.
    pub fn replace(&mut self, prefix: &Prefix, value: V) -> Option<V>
    where
        V: Drop,
        ensures before { result ≡ map.get self.old prefix.now }
        ensures there { OnSome result (self.new ≡ map.insert self.old prefix.now value) }
        ensures absent { IfNone result (self.new ≡ self.old) }
    {
        replace_from::<V, A, Brand>(self, prefix, value, Blank::new(1))
    }

    /// Takes the value at a prefix out, and removes each node that is left without a value and with one side at
    /// most. It takes no memory; each node that is visited is a step, 49 at most.
    pub fn remove<L: Ledger>(&mut self, prefix: &Prefix, steps: &mut Steps<L>) -> Option<V>
    where
        V: Drop,
        ensures before { result ≡ map.get self.old prefix.now }
        ensures removed { self.new ≡ map.remove self.old prefix.now }
        ensures cost { steps.new ≤ steps.old + 49 }
        ensures visits { steps.new ≡ steps.old + nodes_on_way self.old prefix.now }
    {
        let _ = prefix.len();
        steps.tick();
        self.root.change(prefix, |value| (value, None), steps)
    }

    /// As `remove`, for a caller that counts nothing.
    pub fn take(&mut self, prefix: &Prefix) -> Option<V>
    where
        V: Drop,
        ensures before { result ≡ map.get self.old prefix.now }
        ensures removed { self.new ≡ map.remove self.old prefix.now }
    {
        take_from::<V, A, Brand>(self, prefix, Blank::new(1))
    }

    /// What the closure answers of the value at a prefix, if there is one. The value becomes what the closure leaves
    /// of it; where that is nothing, the value is removed as by `remove`. It takes no memory, and goes down the tree
    /// once.
    pub fn change<R, F: FnOnce(V) -> (R, Option<V>)>(
        &mut self,
        prefix: &Prefix,
        change: F,
    ) -> Option<R>
    where
        V: Drop,
        requires { F.IsAlwaysCallable change }
        ensures { IsChanged (F.post change) self.old prefix.now self.new result }
    {
        change_from::<V, A, R, F, Brand>(self, prefix, change, Blank::new(1))
    }
}

impl<V: TryCopy + Drop, A: Allocator> PrefixTree<V, A> {
    /// All entries in the order of `walk`, with copies of their values.
    pub fn entries<B: Allocator>(&self, alloc: B) -> Result<Vec<(Prefix, V), B>, AllocError>
        ensures { IfOk result (λ list. list.items ≡ map.entries self.now) }
    {
        let mut list = Vec::new(alloc);
        self.root.copy_entries(&mut list)?;
        Ok(list)
    }
}

impl<V: TryCopy + Drop, A: Allocator + Clone> TryCopy for PrefixTree<V, A> {
    fn try_copy(&self) -> Result<Self, AllocError> {
        Ok(PrefixTree {
            alloc: self.alloc.clone()?,
            root: self.root.try_copy(&self.alloc)?,
        })
    }
}

// As `get`, counted by this ledger.
fn find_from<'t, V, A: Allocator, L: Ledger>(
    tree: &'t PrefixTree<V, A>,
    prefix: &Prefix,
    blank: Blank,
) -> Option<&'t V>
    requires name { blank.name ≡ L.name }
    requires parts { blank.parts ≡ L.parts }
    requires some { 0 < blank.parts }
    ensures { option_copied result ≡ map.get tree.now prefix.now }
{
    let mut steps = Steps::<L>::new(blank);
    tree.get(prefix, &mut steps)
}

// As `longest`, counted by this ledger.
fn find_longest_from<V, A: Allocator, L: Ledger>(
    tree: &PrefixTree<V, A>,
    identity: u64,
    blank: Blank,
) -> Option<(Prefix, &V)>
    requires name { blank.name ≡ L.name }
    requires parts { blank.parts ≡ L.parts }
    requires some { 0 < blank.parts }
    ensures { option_map (λ e. (e.0, e.1.now)) result ≡ longest tree.now (id_path identity) }
{
    let mut steps = Steps::<L>::new(blank);
    tree.longest(identity, &mut steps)
}

// As `next_counted`, counted by this ledger.
fn next_from<V, A: Allocator, L: Ledger>(
    tree: &PrefixTree<V, A>,
    after: Option<Prefix>,
    blank: Blank,
) -> Option<(Prefix, &V)>
    requires name { blank.name ≡ L.name }
    requires parts { blank.parts ≡ L.parts }
    requires some { 0 < blank.parts }
    ensures { option_map (λ e. (e.0, e.1.now)) result ≡ next_entry tree.now after }
{
    let mut steps = Steps::<L>::new(blank);
    tree.next_counted(after, &mut steps)
}

// As `remove`, counted by this ledger.
fn take_from<V: Drop, A: Allocator, L: Ledger>(
    tree: &mut PrefixTree<V, A>,
    prefix: &Prefix,
    blank: Blank,
) -> Option<V>
    requires name { blank.name ≡ L.name }
    requires parts { blank.parts ≡ L.parts }
    requires some { 0 < blank.parts }
    ensures before { result ≡ map.get tree.old prefix.now }
    ensures removed { tree.new ≡ map.remove tree.old prefix.now }
{
    let mut steps = Steps::<L>::new(blank);
    tree.remove(prefix, &mut steps)
}

// As `change`, counted by this ledger.
fn change_from<V: Drop, A: Allocator, R, F: FnOnce(V) -> (R, Option<V>), L: Ledger>(
    tree: &mut PrefixTree<V, A>,
    prefix: &Prefix,
    change: F,
    blank: Blank,
) -> Option<R>
    requires name { blank.name ≡ L.name }
    requires parts { blank.parts ≡ L.parts }
    requires some { 0 < blank.parts }
    requires callable { F.IsAlwaysCallable change }
    ensures { IsChanged (F.post change) tree.old prefix.now tree.new result }
{
    let mut steps = Steps::<L>::new(blank);
    tree.root.change(prefix, change, &mut steps)
}

// As `replace`, counted by this ledger.
fn replace_from<V: Drop, A: Allocator, L: Ledger>(
    tree: &mut PrefixTree<V, A>,
    prefix: &Prefix,
    value: V,
    blank: Blank,
) -> Option<V>
    requires name { blank.name ≡ L.name }
    requires parts { blank.parts ≡ L.parts }
    requires some { 0 < blank.parts }
    ensures before { result ≡ map.get tree.old prefix.now }
    ensures there { OnSome result (tree.new ≡ map.insert tree.old prefix.now value) }
    ensures absent { IfNone result (tree.new ≡ tree.old) }
{
    let mut steps = Steps::<L>::new(blank);
    match tree.get_mut(prefix, &mut steps) {
        Some(place) => Some(mem::replace(place, value)),
        None => None,
    }
}
