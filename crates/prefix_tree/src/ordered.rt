//! A finite map from prefixes, kept in order.

ghost use Rattle.std.specs.Prelude.{◌≡◌, true, false, None, Option, IfOk, IsOk, IsSome, OnErr, OnOk};
ghost use Rattle.std.specs.FinMap as map;
ghost use Rattle.std.specs.Option.{option_copied};
ghost use Rattle.prefix_tree.specs.Change.{IsChanged};

use crate::key::Key;
use base::TryCopy;
use identity::Prefix;
use std::alloc::{AllocError, Allocator};
use std::collections::BTreeMap;
use std::marker::Model;

// A value. It is absent only while it is changed.
#[derive(Drop)]
struct Held<V> {
    value: Option<V>,
}

impl<V: TryCopy + Drop> Clone for Held<V> {
    ghost is_clone = { λ own other. other ≡ own };

    fn clone(&self) -> Result<Self, AllocError> {
        match &self.value {
            Some(value) => Ok(Held {
                value: Some(value.try_copy()?),
            }),
            None => Ok(Held { value: None }),
        }
    }
}

/// A finite map from prefixes, for callers that ask for whole keys only. Many keys share a node, and so are together in
/// memory; in a `PrefixTree` each level is another load.
#[derive(Drop)]
pub(crate) struct OrderedMap<V, A: Allocator> {
    by_prefix: BTreeMap<Key, Held<V>, A>,
}

impl<V, A: Allocator> Model for OrderedMap<V, A> {
    ghost use Rattle.prefix_tree.specs.Table.{PathMap, coded_table};
    ghost use Rattle.prefix_tree.specs.Inside.Ordered.{map_held};

    ghost Value = { PathMap V };

    ghost coded = { coded_table V.code };

    ghost view = { λ m. map_held m.by_prefix.entries };
}

impl<V, A: Allocator> OrderedMap<V, A> {
    /// The empty map. It takes no memory.
    pub(crate) fn new(alloc: A) -> Self
        ensures { result ≡ map.empty }
    {
        OrderedMap {
            by_prefix: BTreeMap::new(alloc),
        }
    }

    /// Whether it is empty.
    pub(crate) fn is_empty(&self) -> bool
        ensures { result ≡ true → self.now ≡ map.empty }
    {
        self.by_prefix.is_empty()
    }

    /// The value at this very prefix.
    pub(crate) fn find(&self, prefix: &Prefix) -> Option<&V>
        ensures { option_copied result ≡ map.get self.now prefix.now }
    {
        let held = self.by_prefix.get(&Key::new(prefix))?;
        match &held.value {
            Some(value) => Some(value),
            None => None,
        }
    }

    /// Takes the value at a prefix out. It takes no memory.
    pub(crate) fn take(&mut self, prefix: &Prefix) -> Option<V>
    where
        V: Drop,
        ensures before { result ≡ map.get self.old prefix.now }
        ensures removed { self.new ≡ map.remove self.old prefix.now }
    {
        let held = self.by_prefix.remove(&Key::new(prefix))?;
        held.value
    }

    /// What the closure answers of the value at a prefix, if there is one. The value becomes what the closure leaves
    /// of it; where that is nothing, the value is removed. It takes no memory. It searches the map once where the value
    /// stays.
    pub(crate) fn change<R, F: FnOnce(V) -> (R, Option<V>)>(
        &mut self,
        prefix: &Prefix,
        change: F,
    ) -> Option<R>
    where
        V: Drop,
        requires { F.IsAlwaysCallable change }
        ensures { IsChanged (F.post change) self.old prefix.now self.new result }
    {
        let key = Key::new(prefix);
        let held = self.by_prefix.get_mut(&key)?;
        let value = held.value.take()?;
        let (answer, left) = change(value);
        let stays = left.is_some();
        held.value = left;
        self.sweep(&key, stays);
        Some(answer)
    }

    // Removes the key where no value stays under it.
    fn sweep(&mut self, key: &Key, stays: bool)
    where
        V: Drop,
        requires { stays ≡ false → map.get self.old key.now ≡ None }
        ensures { self.new ≡ self.old }
    {
        if !stays {
            drop(self.by_prefix.remove(key));
        }
    }

    /// Sets the value at a prefix, and answers the one before. It takes memory only where there was none. When memory
    /// runs out, nothing is changed.
    pub(crate) fn insert(&mut self, prefix: Prefix, value: V) -> Result<Option<V>, AllocError>
    where
        V: Drop,
        A: Clone,
        ensures before { IfOk result (λ before. before ≡ map.get self.old prefix) }
        ensures ok { OnOk result (self.new ≡ map.insert self.old prefix value) }
        ensures err { OnErr result (self.new ≡ self.old) }
        ensures overwrites { IsSome (map.get self.old prefix) → IsOk result }
    {
        let held = Held { value: Some(value) };
        match self.by_prefix.insert(Key::new(&prefix), held)? {
            Some(before) => Ok(before.value),
            None => Ok(None),
        }
    }
}

impl<V: TryCopy + Drop, A: Allocator + Clone> TryCopy for OrderedMap<V, A> {
    fn try_copy(&self) -> Result<Self, AllocError> {
        Ok(OrderedMap {
            by_prefix: self.by_prefix.clone()?,
        })
    }
}
