//! The groups that one PDU names.

ghost use Rattle.std.specs.Prelude.{◌≡◌, ◌==◌, ◌<◌, ◌≤◌, ◌++◌, ◌∷◌, [], List, length, nat_lt, if◌then◌else◌, OnOk, OnErr, IfErr};
ghost use Rattle.mm_pdus.specs.declared.fault.MmFault.TheVariants.{TooMany, NoMemory};
ghost use Rattle.mm_pdus.specs.Values.{most_groups};

use crate::MmFault;
use std::alloc::Allocator;
use std::marker::Model;

/// How many groups one PDU may name.
pub const MOST_GROUPS: usize = 32;

/// The groups of a PDU in order: at most 32, each a `GroupUp` or a `GroupDown`.
///
/// They are modelled as a list.
#[derive(Drop)]
pub struct GroupItems<T: Copy, A: Allocator> {
    items: Vec<T, A>,
}

impl<T: Copy, A: Allocator> Model for GroupItems<T, A> {
    ghost Value = { List T };

    ghost view = { λ g. g.items.items };

    ghost invariant = { λ g. length g.items.items ≤ most_groups };
}

impl<T: Copy, A: Allocator> GroupItems<T, A> {
    /// No groups yet.
    pub fn new(alloc: A) -> GroupItems<T, A>
        ensures { result ≡ [] }
    {
        GroupItems {
            items: Vec::new(alloc),
        }
    }

    /// How many groups there are, at most 32.
    pub fn len(&self) -> usize
        ensures value { result ≡ length self.now }
        ensures few { result ≤ most_groups }
    {
        self.items.len()
    }

    /// Whether there are no groups.
    pub fn is_empty(&self) -> bool
        ensures { result ≡ (length self.now == 0) }
    {
        self.items.is_empty()
    }

    /// All of them in order.
    pub fn as_slice(&self) -> &[T]
        ensures value { result.now ≡ self.now }
        ensures few { length result.now ≤ most_groups }
    {
        self.items.as_slice()
    }

    /// Whether one more may be appended.
    pub fn has_room(&self) -> bool
        ensures { result ≡ nat_lt (length self.now) most_groups }
    {
        self.len() < MOST_GROUPS
    }

    /// Appends a group. On `NoMemory` nothing has changed.
    pub(crate) fn add(&mut self, item: T) -> Result<(), MmFault>
        requires { length self.now < most_groups }
        ensures ok { OnOk result (self.new ≡ self.old ++ item ∷ []) }
        ensures err { IfErr result (λ e. e ≡ NoMemory) }
        ensures unchanged { OnErr result (self.new ≡ self.old) }
    {
        match self.items.push(item) {
            Ok(()) => Ok(()),
            Err(_) => Err(MmFault::NoMemory),
        }
    }

    /// Appends a group. `TooMany` where there are 32, else `NoMemory` where memory runs out. On both nothing has changed.
    pub fn push(&mut self, item: T) -> Result<(), MmFault>
        ensures ok { OnOk result (self.new ≡ self.old ++ item ∷ []) }
        ensures err { IfErr result (λ e. e ≡ (if nat_lt (length self.old) most_groups then NoMemory else TooMany)) }
        ensures unchanged { OnErr result (self.new ≡ self.old) }
    {
        if !self.has_room() {
            return Err(MmFault::TooMany);
        }
        self.add(item)
    }
}
