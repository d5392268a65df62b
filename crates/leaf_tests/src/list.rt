//! The same map as `PrefixTree`, as one list in the order of its prefixes.

ghost use Rattle.std.specs.Prelude.{◌≡◌, IfOk, IfErr, IfNone, OnOk, OnSome, IsOk, IsSome, find, length, reverse};
ghost use Rattle.std.specs.Option.{option_copied, option_map};
ghost use Rattle.std.specs.List.Sorted.{IsBinarySearchResult, IsSearchInRange};
ghost use Rattle.std.specs.FinMap as map;
ghost use Rattle.identity.specs.Path.{path_cmp, id_path, begins};
ghost use Rattle.prefix_tree.specs.Table.{longest};

use base::TryCopy;
use identity::Prefix;
use prefix_tree::prefix_order;
use std::alloc::{AllocError, Allocator};
use std::marker::Model;
use std::mem;

/// A finite map from prefixes, kept as one list in the order of its prefixes.
#[derive(Drop)]
pub struct PrefixList<V, A: Allocator> {
    entries: Vec<(Prefix, V), A>,
}

impl<V, A: Allocator> Model for PrefixList<V, A> {
    ghost use Rattle.prefix_tree.specs.Table.{PathMap, coded_table};
    ghost use Rattle.leaf_tests.specs.PrefixList.{map_of, IsInOrder};

    ghost Value = { PathMap V };

    ghost coded = { coded_table V.code };

    ghost view = { λ t. map_of t.entries.items };

    ghost invariant = { λ t. IsInOrder t.entries.items };
}

impl<V, A: Allocator> PrefixList<V, A> {
    /// The empty map. It takes no memory until the first `insert`.
    pub fn new_in(alloc: A) -> Self
        ensures { result ≡ map.empty }
    {
        PrefixList {
            entries: Vec::new(alloc),
        }
    }

    /// How many prefixes have a value.
    pub fn len(&self) -> usize
        ensures { result ≡ map.len self.now }
    {
        self.entries.len()
    }

    /// The value at this very prefix.
    pub fn get(&self, prefix: &Prefix) -> Option<&V>
        ensures { option_copied result ≡ map.get self.now prefix.now }
    {
        match place(&self.entries, prefix) {
            Ok(at) => Some(&self.entries[at].1),
            Err(_) => None,
        }
    }

    /// The entry under the longest prefix that begins the identity's 48 bits. It looks through the
    /// entries once.
    pub fn longest(&self, identity: u64) -> Option<(Prefix, &V)>
        ensures { option_map (λ e. (e.0, e.1.now)) result ≡ longest self.now (id_path identity) }
    {
        match last_beginning(&self.entries, identity) {
            Some(entry) => Some((entry.0, &entry.1)),
            None => None,
        }
    }

    /// Sets the value at a prefix, and answers the one before. When memory runs out, the pair is
    /// returned, and nothing is changed.
    pub fn insert(&mut self, prefix: Prefix, value: V) -> Result<Option<V>, (Prefix, V)>
        ensures before { IfOk result (λ before. before ≡ map.get self.old prefix) }
        ensures ok { OnOk result (self.new ≡ map.insert self.old prefix value) }
        ensures err { IfErr result (λ pair. (pair ≡ (prefix, value)) × (self.new ≡ self.old)) }
        ensures overwrite_succeeds { IsSome (map.get self.old prefix) → IsOk result }
    {
        let at = match place(&self.entries, &prefix) {
            Ok(at) => return Ok(Some(mem::replace(&mut self.entries[at].1, value))),
            Err(at) => at,
        };
        if let Err(failed) = self.entries.insert(at, (prefix, value)) {
            return Err(failed.value);
        }
        Ok(None)
    }
}

impl<V: Drop, A: Allocator> PrefixList<V, A> {
    /// Sets the value at a prefix that has one, and answers the one before. It takes no memory.
    pub fn replace(&mut self, prefix: &Prefix, value: V) -> Option<V>
        ensures before { result ≡ map.get self.old prefix.now }
        ensures there { OnSome result (self.new ≡ map.insert self.old prefix.now value) }
        ensures absent { IfNone result (self.new ≡ self.old) }
    {
        match place(&self.entries, prefix) {
            Ok(at) => Some(mem::replace(&mut self.entries[at].1, value)),
            Err(_) => None,
        }
    }

    /// Takes the value at a prefix out. It takes no memory.
    pub fn remove(&mut self, prefix: &Prefix) -> Option<V>
        ensures before { result ≡ map.get self.old prefix.now }
        ensures removed { self.new ≡ map.remove self.old prefix.now }
    {
        match place(&self.entries, prefix) {
            Ok(at) => Some(self.entries.remove(at).1),
            Err(_) => None,
        }
    }
}

impl<V: TryCopy + Drop, A: Allocator> PrefixList<V, A> {
    /// All entries in order: a prefix before its extensions, and else by the first bit that differs.
    pub fn entries<B: Allocator>(&self, alloc: B) -> Result<Vec<(Prefix, V), B>, AllocError>
        ensures { IfOk result (λ list. list.items ≡ map.entries self.now) }
    {
        copied(alloc, &self.entries)
    }
}

impl<V: TryCopy + Drop, A: Allocator + Clone> TryCopy for PrefixList<V, A> {
    fn try_copy(&self) -> Result<Self, AllocError> {
        Ok(PrefixList {
            entries: copied(self.entries.allocator().clone()?, &self.entries)?,
        })
    }
}

// A copy of the entries, under this allocator.
fn copied<V: TryCopy + Drop, A: Allocator>(
    alloc: A,
    entries: &[(Prefix, V)],
) -> Result<Vec<(Prefix, V), A>, AllocError>
    ensures { IfOk result (λ copy. copy.items ≡ entries.now) }
{
    let mut copy = Vec::with_capacity(alloc, entries.len())?;
    for entry in entries {
        copy.push((entry.0, entry.1.try_copy()?))?;
    }
    Ok(copy)
}

// The last entry that begins the identity.
fn last_beginning<V>(entries: &[(Prefix, V)], identity: u64) -> Option<&(Prefix, V)>
    ensures { option_copied result ≡ find (λ e. begins e.0 (id_path identity)) (reverse entries.now) }
{
    entries.iter().rev().find(|entry| entry.0.begins(identity))
}

// Where the prefix is, or would go.
fn place<V>(entries: &[(Prefix, V)], prefix: &Prefix) -> Result<usize, usize>
    ensures within { IsSearchInRange result (length entries.now) }
    ensures place { IsBinarySearchResult (λ e. path_cmp e.0 prefix.now) entries.now result }
{
    entries.binary_search_by(|entry| prefix_order(&entry.0, prefix))
}
