//! A map that is made for its first value.

ghost use Rattle.std.specs.Prelude.{◌≡◌, Option, IfOk, IsOk, IsSome, OnErr, OnOk};
ghost use Rattle.std.specs.FinMap as map;
ghost use Rattle.std.specs.Option.{option_copied};
ghost use Rattle.prefix_tree.specs.Change.{IsChanged};

use crate::ordered::OrderedMap;
use base::TryCopy;
use identity::Prefix;
use std::alloc::{AllocError, Allocator};
use std::marker::Model;

/// A finite map from prefixes, kept as an ordered map that is made for the first value and freed with the last. So an
/// empty one needs no allocator, and several of them can share an allocator that is kept beside them.
#[derive(Drop)]
pub struct LazyMap<V, A: Allocator> {
    ordered: Option<OrderedMap<V, A>>,
}

impl<V, A: Allocator> Model for LazyMap<V, A> {
    ghost use Rattle.prefix_tree.specs.Table.{PathMap, coded_table};
    ghost use Rattle.std.specs.Prelude.{unwrap_or};
    ghost use Rattle.std.specs.FinMap as map;

    ghost Value = { PathMap V };

    ghost coded = { coded_table V.code };

    ghost view = { λ m. unwrap_or m.ordered map.empty };
}

impl<V, A: Allocator> LazyMap<V, A> {
    /// The empty map. It takes no memory.
    pub fn new() -> Self
        ensures { result ≡ map.empty }
    {
        LazyMap { ordered: None }
    }

    /// The value at this very prefix.
    pub fn find(&self, prefix: &Prefix) -> Option<&V>
        ensures { option_copied result ≡ map.get self.now prefix.now }
    {
        match &self.ordered {
            Some(map) => map.find(prefix),
            None => None,
        }
    }

    /// Takes the value at a prefix out. It takes no memory.
    pub fn take(&mut self, prefix: &Prefix) -> Option<V>
    where
        V: Drop,
        ensures before { result ≡ map.get self.old prefix.now }
        ensures removed { self.new ≡ map.remove self.old prefix.now }
    {
        let Some(map) = &mut self.ordered else {
            return None;
        };
        let value = map.take(prefix);
        self.shrink();
        value
    }

    /// What the closure answers of the value at a prefix, if there is one. The value becomes what the closure leaves
    /// of it; where that is nothing, the value is removed. It takes no memory. It searches the map once where the value
    /// stays.
    pub fn change<R, F: FnOnce(V) -> (R, Option<V>)>(
        &mut self,
        prefix: &Prefix,
        change: F,
    ) -> Option<R>
    where
        V: Drop,
        requires { F.IsAlwaysCallable change }
        ensures { IsChanged (F.post change) self.old prefix.now self.new result }
    {
        let Some(map) = &mut self.ordered else {
            return None;
        };
        let answer = map.change(prefix, change);
        self.shrink();
        answer
    }

    /// Sets the value at a prefix, and answers the one before. It takes memory only where there was none. When memory
    /// runs out, nothing is changed.
    pub fn insert(&mut self, alloc: &A, prefix: Prefix, value: V) -> Result<Option<V>, AllocError>
    where
        V: Drop,
        A: Clone,
        ensures before { IfOk result (λ before. before ≡ map.get self.old prefix) }
        ensures ok { OnOk result (self.new ≡ map.insert self.old prefix value) }
        ensures err { OnErr result (self.new ≡ self.old) }
        ensures overwrites { IsSome (map.get self.old prefix) → IsOk result }
    {
        if let Some(map) = &mut self.ordered {
            return map.insert(prefix, value);
        }
        let mut map = OrderedMap::new(alloc.clone()?);
        let before = map.insert(prefix, value)?;
        self.ordered = Some(map);
        Ok(before)
    }

    // Frees an ordered map that is empty.
    fn shrink(&mut self)
    where
        V: Drop,
        ensures { self.new ≡ self.old }
    {
        if let Some(map) = &self.ordered
            && map.is_empty()
        {
            self.ordered = None;
        }
    }
}

impl<V: TryCopy + Drop, A: Allocator + Clone> TryCopy for LazyMap<V, A> {
    fn try_copy(&self) -> Result<Self, AllocError> {
        match &self.ordered {
            Some(map) => Ok(LazyMap {
                ordered: Some(map.try_copy()?),
            }),
            None => Ok(LazyMap { ordered: None }),
        }
    }
}
