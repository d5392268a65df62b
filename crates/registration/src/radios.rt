//! The radios that are known, by their identities.

ghost use Rattle.std.specs.Prelude.{◌≡◌, ◌<◌, ◌≤◌, ◌^◌, IfOk, IfNone, OnOk, OnErr, OnSome, IsOk, IsSome, None};
ghost use Rattle.std.specs.List.{last_or};
ghost use Rattle.std.specs.Option.{option_map};
ghost use Rattle.std.specs.FinMap as map;
ghost use Rattle.identity.specs.Path.{id_path};
ghost use Rattle.prefix_tree.specs.Next.{next_entry};
ghost use Rattle.registration.specs.Listed.{under_bits, under_its_bits};
ghost use Rattle.registration.specs.Inside.Radios.{past};

use crate::Radio;
use base::TryCopy;
use identity::Itsi;
use std::alloc::{AllocError, Allocator};
use std::collections::BTreeMap;
use std::marker::Model;
use std::mem;

/// The known radios, in the order of their identities' numbers. A radio is asked for only by its whole identity. So a
/// map with many keys in a node, which are together in memory, is faster than a tree of prefixes.
#[derive(Drop)]
pub(crate) struct Radios<A: Allocator> {
    by_number: BTreeMap<u64, Radio, A>,
}

impl<A: Allocator> Model for Radios<A> {
    ghost use Rattle.prefix_tree.specs.Table.{PathMap, coded_table};
    ghost use Rattle.registration.specs.declared.radio.Radio.{Radio};
    ghost use Rattle.registration.specs.contracts.radio.Radio as radio;
    ghost use Rattle.registration.specs.Inside.Radios.{radios_of, AreInOrder};

    ghost Value = { PathMap Radio };

    ghost coded = { coded_table (radio.the_row).coded };

    ghost view = { λ r. radios_of r.by_number.entries };

    ghost invariant = { λ r. AreInOrder r.by_number.entries };
}

impl<A: Allocator + Clone> Radios<A> {
    /// No radio. It takes no memory.
    pub(crate) fn new(alloc: A) -> Self
        ensures { result ≡ map.empty }
    {
        Radios {
            by_number: BTreeMap::new(alloc),
        }
    }

    /// The radio of this identity.
    pub(crate) fn find(&self, itsi: Itsi) -> Option<Radio>
        ensures { result ≡ map.get self.now (id_path itsi) }
    {
        self.by_number.get(&itsi.number()).copied()
    }

    /// Sets the radio of an identity, and answers the one before. It takes memory only where there was none. When memory
    /// runs out, nothing is changed.
    pub(crate) fn insert(&mut self, itsi: Itsi, radio: Radio) -> Result<Option<Radio>, AllocError>
        ensures before { IfOk result (λ before. before ≡ map.get self.old (id_path itsi)) }
        ensures ok { OnOk result (self.new ≡ map.insert self.old (id_path itsi) radio) }
        ensures err { OnErr result (self.new ≡ self.old) }
        ensures overwrite_succeeds { IsSome (map.get self.old (id_path itsi)) → IsOk result }
    {
        let before = self.by_number.insert(itsi.number(), radio)?;
        Ok(before)
    }

    /// Sets the radio of an identity that has one, and answers the one before. It takes no memory.
    pub(crate) fn replace(&mut self, itsi: Itsi, radio: Radio) -> Option<Radio>
        ensures before { result ≡ map.get self.old (id_path itsi) }
        ensures there { OnSome result (self.new ≡ map.insert self.old (id_path itsi) radio) }
        ensures absent { IfNone result (self.new ≡ self.old) }
    {
        let there = self.by_number.get_mut(&itsi.number())?;
        Some(mem::replace(there, radio))
    }

    /// Takes the radio of an identity out. It takes no memory.
    pub(crate) fn take(&mut self, itsi: Itsi) -> Option<Radio>
        ensures before { result ≡ map.get self.old (id_path itsi) }
        ensures removed { self.new ≡ map.remove self.old (id_path itsi) }
    {
        self.by_number.remove(&itsi.number())
    }

    /// All radios in order, each with its identity.
    pub(crate) fn entries<B: Allocator>(
        &self,
        alloc: B,
    ) -> Result<Vec<(Itsi, Radio), B>, AllocError>
        ensures { IfOk result (λ list. under_bits list.items ≡ map.entries self.now) }
    {
        let mut list = Vec::with_capacity(alloc, self.by_number.len())?;
        for (number, radio) in self.by_number.iter() {
            list.push((itsi_of(*number), *radio))?;
        }
        Ok(list)
    }

    /// The first radio after this identity, or the first of all. It takes no memory.
    pub(crate) fn next(&self, after: Option<Itsi>) -> Option<(Itsi, Radio)>
        ensures { option_map under_its_bits result ≡ next_entry self.now (option_map id_path after) }
    {
        let (number, radio) = self.by_number.range(first_past(after)..).next()?;
        Some((itsi_of(*number), *radio))
    }

    /// The identity of the last radio. It takes no memory.
    pub(crate) fn last(&self) -> Option<Itsi>
        ensures { option_map id_path result ≡ last_or None (map.keys self.now) }
    {
        let (number, _) = self.by_number.last_key_value()?;
        Some(itsi_of(*number))
    }
}

impl<A: Allocator + Clone> TryCopy for Radios<A> {
    fn try_copy(&self) -> Result<Self, AllocError> {
        Ok(Radios {
            by_number: self.by_number.clone()?,
        })
    }
}

/// The least number that comes after this identity; 0 where there is none.
fn first_past(after: Option<Itsi>) -> u64
    ensures value { result ≡ past after }
    ensures below { result ≤ 2 ^ 48 }
{
    match after {
        Some(itsi) => itsi.number() + 1,
        None => 0,
    }
}

/// The identity of this number.
fn itsi_of(number: u64) -> Itsi
    requires { number < 2 ^ 48 }
    ensures { result ≡ number }
{
    Itsi::from_number(number).unwrap()
}
