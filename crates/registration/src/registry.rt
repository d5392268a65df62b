//! The register: rules, radios, and the calls that change them.

ghost use Rattle.std.specs.Prelude.{◌≡◌, ◌↔◌, nat_lt, None, Some, OnOk, OnErr, OnSome, IfOk, IfErr, IfNone, IsOk, IsSome, unwrap_or};
ghost use Rattle.std.specs.Option.{option_map};
ghost use Rattle.std.specs.List.{last_or};
ghost use Rattle.std.specs.FinMap as map;
ghost use Rattle.identity.specs.Path.{id_path};
ghost use Rattle.prefix_tree.specs.Next.{next_entry};
ghost use Rattle.registration.specs.Listed.{under_bits, under_its_bits};
ghost use Rattle.registration.specs.Registered.{empty_registered, set_refusal, has_rule, longest_rule, rule_of, with_rule, without_rule};
ghost use Rattle.registration.specs.Registered.{type_refusal, area_refusal, service_refusal, room_refusal, locate_refusal, detach_refusal};
ghost use Rattle.registration.specs.Registered.{has_radio, radio_of, is_present, located, detached, with_radio, without_radio};
ghost use Rattle.registration.specs.declared.fault.RegFault.TheVariants.{NoMemory};

use crate::radios::Radios;
use crate::{Limits, LocationArea, Radio, RegFault, Rule, Station};
use base::TryCopy;
use identity::{Itsi, Prefix};
use mm_pdus::LocationUpdateType;
use prefix_tree::PrefixTree;
use std::alloc::{AllocError, Allocator};
use std::marker::Model;

/// The rules under their prefixes, and where each radio is.
#[derive(Drop)]
pub struct Registry<A: Allocator> {
    limits: Limits,
    rules: PrefixTree<Rule, A>,
    rule_count: u32,
    radios: Radios<A>,
    radio_count: u32,
}

impl<A: Allocator> Model for Registry<A> {
    ghost use Rattle.registration.specs.Registered.{Registered, AreWhole, coded_registered};

    ghost Value = { Registered };

    ghost coded = { coded_registered };

    ghost view = { λ r. record { limits = r.limits; rules = r.rules; radios = r.radios } };

    ghost use Rattle.std.specs.Prelude.{◌≡◌};
    ghost use Rattle.std.specs.FinMap as map;

    ghost invariant = { λ r. (r.rule_count ≡ map.len r.rules) × (r.radio_count ≡ map.len r.radios) × AreWhole r.radios };
}

impl<A: Allocator + Clone> Registry<A> {
    /// A register without rules and radios. It fails only where the allocator can't be cloned.
    pub fn new(alloc: A, limits: Limits) -> Result<Self, AllocError>
        ensures { IfOk result (λ registry. registry ≡ empty_registered limits) }
    {
        let rules = PrefixTree::new_in(alloc.clone()?);
        Ok(Registry {
            limits,
            rules,
            rule_count: 0,
            radios: Radios::new(alloc),
            radio_count: 0,
        })
    }

    /// How much it holds at most.
    pub fn limits(&self) -> Limits
        ensures { result ≡ self.now.limits }
    {
        self.limits
    }

    /// How many rules it holds.
    pub fn rule_count(&self) -> u32
        ensures { result ≡ map.len self.now.rules }
    {
        self.rule_count
    }

    /// How many radios it knows, present or not.
    pub fn radio_count(&self) -> u32
        ensures { result ≡ map.len self.now.radios }
    {
        self.radio_count
    }

    /// The rule that serves an identity, of a radio or of a group, given by its number: the one under
    /// the longest prefix that begins its 48 bits.
    pub fn rule_of(&self, identity: u64) -> Option<Rule>
        ensures { result ≡ rule_of self.now identity }
    {
        let (_, rule) = self.longest_rule(identity)?;
        Some(rule)
    }

    /// The rule that serves an identity, and the prefix that it is under.
    pub fn longest_rule(&self, identity: u64) -> Option<(Prefix, Rule)>
        ensures { result ≡ longest_rule self.now identity }
    {
        match self.rules.find_longest(identity) {
            Some((prefix, rule)) => Some((prefix, *rule)),
            None => None,
        }
    }

    /// Where the radio is, or was when it left; `None` if it never came.
    pub fn where_is(&self, itsi: Itsi) -> Option<Radio>
        ensures { result ≡ radio_of self.now itsi }
    {
        self.radios.find(itsi)
    }

    /// Whether the radio is present: it came, and has not left since.
    pub fn is_present(&self, itsi: Itsi) -> bool
        ensures { result ≡ is_present (radio_of self.now itsi) }
    {
        self.where_is(itsi).is_some_and(|radio| radio.present)
    }

    /// All rules, each under its prefix: a prefix before its extensions, and else by the first bit
    /// that differs.
    pub fn rules<B: Allocator>(&self, alloc: B) -> Result<Vec<(Prefix, Rule), B>, AllocError>
        ensures { IfOk result (λ list. list.items ≡ map.entries self.now.rules) }
    {
        self.rules.entries(alloc)
    }

    /// All radios with their identities, in order of their bits.
    pub fn radios<B: Allocator>(&self, alloc: B) -> Result<Vec<(Itsi, Radio), B>, AllocError>
        ensures { IfOk result (λ list. under_bits list.items ≡ map.entries self.now.radios) }
    {
        self.radios.entries(alloc)
    }

    /// The first rule after this prefix in the order of `rules`, also where no rule is under it, or the first of
    /// all. It takes no memory.
    pub fn next_rule(&self, after: Option<Prefix>) -> Option<(Prefix, Rule)>
        ensures { result ≡ next_entry self.now.rules after }
    {
        match self.rules.next(after) {
            Some((next, rule)) => Some((next, *rule)),
            None => None,
        }
    }

    /// The first radio after this one in the order of `radios`, also where this one never came, or the first of
    /// all. It takes no memory.
    pub fn next_radio(&self, after: Option<Itsi>) -> Option<(Itsi, Radio)>
        ensures { option_map under_its_bits result ≡ next_entry self.now.radios (option_map id_path after) }
    {
        self.radios.next(after)
    }

    /// The identity of the last radio in the order of `radios`; `None` where there is no radio. It takes no memory.
    pub fn last_radio(&self) -> Option<Itsi>
        ensures { option_map id_path result ≡ last_or None (map.keys self.now.radios) }
    {
        self.radios.last()
    }

    /// Why `set_rule` would refuse a rule under this prefix, memory aside.
    pub fn set_refusal(&self, prefix: &Prefix) -> Option<RegFault>
        ensures { result ≡ set_refusal self.now prefix.now }
    {
        if self.rules.find(prefix).is_some() {
            return None;
        }
        if self.rule_count < self.limits.rules {
            None
        } else {
            Some(RegFault::RulesFull)
        }
    }

    /// Sets the rule under a prefix, or replaces the one that is there. `RulesFull` where the prefix
    /// is new and there are `limits.rules` rules, `NoMemory` only where it is new; a refusal changes
    /// nothing.
    pub fn set_rule(&mut self, prefix: Prefix, rule: Rule) -> Result<(), RegFault>
        ensures ok { OnOk result ((set_refusal self.old prefix ≡ None) × (self.new ≡ with_rule self.old prefix rule)) }
        ensures err { IfErr result (λ e. (e ≡ unwrap_or (set_refusal self.old prefix) NoMemory) × (self.new ≡ self.old)) }
        ensures replaces { IsSome (map.get self.old.rules prefix) → IsOk result }
    {
        if let Some(fault) = self.set_refusal(&prefix) {
            return Err(fault);
        }
        match self.rules.insert(prefix, rule) {
            Ok(Some(_)) => Ok(()),
            Ok(None) => {
                self.rule_count += 1;
                Ok(())
            }
            Err(_) => Err(RegFault::NoMemory),
        }
    }

    /// Removes the rule under exactly this prefix, and returns whether there was one. It takes no memory.
    pub fn clear_rule(&mut self, prefix: &Prefix) -> bool
        ensures there { result ≡ has_rule self.old prefix.now }
        ensures gone { self.new ≡ without_rule self.old prefix.now }
    {
        match self.rules.take(prefix) {
            Some(_) => {
                self.rule_count -= 1;
                true
            }
            None => false,
        }
    }

    /// Why `locate` would refuse this location update for any radio, known or new: `UnsupportedType`, `Migration`,
    /// `UnknownIdentity` and `LaNotAllowed`, in this order.
    pub fn service_refusal(
        &self,
        itsi: Itsi,
        area: LocationArea,
        update: LocationUpdateType,
    ) -> Option<RegFault>
        ensures { result ≡ service_refusal self.now itsi area update }
    {
        if let Some(fault) = type_refusal(update) {
            return Some(fault);
        }
        area_refusal(self.rule_of(itsi.number()), area)
    }

    /// The radio is present at this station and location area from now on (clause 16.4, location
    /// updating). The refusals are those of `service_refusal`, then `Congestion`, and `NoMemory` for a new radio alone; a
    /// refusal changes nothing.
    pub fn locate(
        &mut self,
        itsi: Itsi,
        station: Station,
        area: LocationArea,
        update: LocationUpdateType,
    ) -> Result<(), RegFault>
        ensures ok { OnOk result ((locate_refusal self.old itsi area update ≡ None) × (self.new ≡ located self.old itsi station area)) }
        ensures err { IfErr result (λ e. (e ≡ unwrap_or (locate_refusal self.old itsi area update) NoMemory) × (self.new ≡ self.old)) }
        ensures moves { IsSome (radio_of self.old itsi) → locate_refusal self.old itsi area update ≡ None → IsOk result }
    {
        if let Some(fault) = self.service_refusal(itsi, area, update) {
            return Err(fault);
        }
        self.restore(itsi, Radio::at(station, area))
    }

    /// As `locate`, after `service_refusal` has answered `None`: it reads no rule. It returns whether the radio was known
    /// before. `Congestion` where it is new and there are `limits.radios` radios, `NoMemory` only where it is new; a
    /// refusal changes nothing.
    pub fn place(
        &mut self,
        itsi: Itsi,
        station: Station,
        area: LocationArea,
    ) -> Result<bool, RegFault>
        ensures ok { OnOk result ((room_refusal self.old itsi ≡ None) × (self.new ≡ located self.old itsi station area)) }
        ensures known { IfOk result (λ known. known ≡ has_radio self.old itsi) }
        ensures err { IfErr result (λ e. (e ≡ unwrap_or (room_refusal self.old itsi) NoMemory) × (self.new ≡ self.old)) }
        ensures moves { IsSome (radio_of self.old itsi) → IsOk result }
    {
        // Most radios are known already, and changing one in its place is cheaper than an insert.
        if self.renew(itsi, Radio::at(station, area)).is_some() {
            return Ok(true);
        }
        if !self.has_room() {
            return Err(RegFault::Congestion);
        }
        match self.put(itsi, Radio::at(station, area)) {
            Ok(()) => Ok(false),
            Err(_) => Err(RegFault::NoMemory),
        }
    }

    /// Sets where the radio is, or was when it left, as it was stored; it reads no rule. `Congestion` where it is new and
    /// there are `limits.radios` radios, `NoMemory` only where it is new; a refusal changes nothing.
    pub fn restore(&mut self, itsi: Itsi, radio: Radio) -> Result<(), RegFault>
        ensures ok { OnOk result ((room_refusal self.old itsi ≡ None) × (self.new ≡ with_radio self.old itsi radio)) }
        ensures err { IfErr result (λ e. (e ≡ unwrap_or (room_refusal self.old itsi) NoMemory) × (self.new ≡ self.old)) }
        ensures moves { IsSome (radio_of self.old itsi) → IsOk result }
    {
        if !self.has_room() {
            return self.renew(itsi, radio).ok_or(RegFault::Congestion);
        }
        self.put(itsi, radio).map_err(|_| RegFault::NoMemory)
    }

    /// Forgets the radio, as if it had never come, and returns whether it was known. It takes no memory.
    pub fn forget(&mut self, itsi: Itsi) -> bool
        ensures there { result ≡ has_radio self.old itsi }
        ensures gone { self.new ≡ without_radio self.old itsi }
    {
        match self.radios.take(itsi) {
            Some(_) => {
                self.radio_count -= 1;
                true
            }
            None => false,
        }
    }

    // Sets a radio for which there is room.
    fn put(&mut self, itsi: Itsi, radio: Radio) -> Result<(), AllocError>
        requires room { room_refusal self.old itsi ≡ None }
        ensures ok { OnOk result (self.new ≡ with_radio self.old itsi radio) }
        ensures err { OnErr result (self.new ≡ self.old) }
        ensures moves { IsSome (radio_of self.old itsi) → IsOk result }
    {
        match self.radios.insert(itsi, radio) {
            Ok(Some(_)) => Ok(()),
            Ok(None) => {
                self.radio_count += 1;
                Ok(())
            }
            Err(_) => Err(AllocError),
        }
    }

    // Replaces a radio that is known by this one; `None` where it is not known. It takes no memory.
    fn renew(&mut self, itsi: Itsi, radio: Radio) -> Option<()>
        ensures known { IsSome result ↔ IsSome (radio_of self.old itsi) }
        ensures there { OnSome result (self.new ≡ with_radio self.old itsi radio) }
        ensures absent { IfNone result (self.new ≡ self.old) }
    {
        match self.radios.replace(itsi, radio) {
            Some(_) => Some(()),
            None => None,
        }
    }

    /// The radio is no longer present; its station and location area stay. `NotAttached` where it is
    /// not present, and then nothing changes. It takes no memory.
    pub fn detach(&mut self, itsi: Itsi) -> Result<(), RegFault>
        ensures ok { OnOk result ((detach_refusal self.old itsi ≡ None) × (self.new ≡ detached self.old itsi)) }
        ensures err { IfErr result (λ e. (detach_refusal self.old itsi ≡ Some e) × (self.new ≡ self.old)) }
    {
        let Some(radio) = self.where_is(itsi) else {
            return Err(RegFault::NotAttached);
        };
        if !radio.present {
            return Err(RegFault::NotAttached);
        }
        let absent = Radio {
            present: false,
            ..radio
        };
        let _ = self.radios.replace(itsi, absent);
        Ok(())
    }

    // Whether one more radio may be known.
    fn has_room(&self) -> bool
        ensures { result ≡ nat_lt (map.len self.now.radios) self.now.limits.radios }
    {
        self.radio_count < self.limits.radios
    }
}

impl<A: Allocator + Clone> TryCopy for Registry<A> {
    fn try_copy(&self) -> Result<Self, AllocError> {
        Ok(Registry {
            limits: self.limits,
            rules: self.rules.try_copy()?,
            rule_count: self.rule_count,
            radios: self.radios.try_copy()?,
            radio_count: self.radio_count,
        })
    }
}

fn type_refusal(update: LocationUpdateType) -> Option<RegFault>
    ensures { result ≡ type_refusal update }
{
    match update {
        LocationUpdateType::DisabledMs => Some(RegFault::UnsupportedType),
        LocationUpdateType::Migrating | LocationUpdateType::ServiceRestorationMigrating => {
            Some(RegFault::Migration)
        }
        LocationUpdateType::Roaming
        | LocationUpdateType::Periodic
        | LocationUpdateType::ItsiAttach
        | LocationUpdateType::ServiceRestorationRoaming
        | LocationUpdateType::Demand => None,
    }
}

fn area_refusal(rule: Option<Rule>, area: LocationArea) -> Option<RegFault>
    ensures { result ≡ area_refusal rule area }
{
    match rule {
        None => Some(RegFault::UnknownIdentity),
        Some(rule) => {
            if rule.low().number() <= area.number() && area.number() <= rule.high().number() {
                None
            } else {
                Some(RegFault::LaNotAllowed)
            }
        }
    }
}
