// Builds the tables of a register anew. Each entry is put by the call that a loader of images uses.
ghost use Rattle.std.specs.Prelude.{◌≡◌, [], IfSome, Some};
ghost use Rattle.std.specs.List.{All};
ghost use Rattle.group_attach.specs.Attached.{groups_of};
ghost use Rattle.group_attach.specs.InOrder.{IsInOrder};
ghost use Rattle.bench_registers.specs.Building.{EndsBy};

use centre_core::Register;
use group_attach::Groups;
use identity::Itsi;
use mailbox::{Key, Mail};
use mm_pdus::LocationUpdateType;
use registration::{Limits, LocationArea, Radio, Registry, Station};
use std::alloc::Global;

// The tables that entries are put in one by one.
#[derive(Drop)]
pub(crate) struct Tables {
    registry: Registry<Global>,
    groups: Groups<Global>,
    mail: Mail<Global>,
}

impl Tables {
    // Empty tables.
    pub(crate) fn new(alloc: Global, limits: Limits) -> Option<Tables>
        ensures { IfSome result (λ tables. tables.mail.items ≡ []) }
    {
        let Ok(registry) = Registry::new(alloc, limits) else {
            return None;
        };
        Some(Tables {
            registry,
            groups: Groups::new(alloc),
            mail: Mail::new(alloc, limits),
        })
    }

    // Puts all entries of the register's tables, in order; whether all were put.
    pub(crate) fn fill(&mut self, alloc: Global, from: &Register<Global>) -> bool
        requires { self.old.mail.items ≡ [] }
    {
        put_rules(from.registry(), &mut self.registry)
            && put_radios(from, &mut self.registry, &mut self.groups)
            && put_items(alloc, from.mail(), &mut self.mail)
    }

    // An ITSI attach of the radio; whether it was accepted.
    pub(crate) fn attach(&mut self, itsi: Itsi, station: Station, area: LocationArea) -> bool {
        let update = LocationUpdateType::ItsiAttach;
        self.groups.on_update(itsi, update);
        self.registry.locate(itsi, station, area, update).is_ok()
    }
}

// The attachments of a radio are its own and in order, as `restore` requires.
fn borrowed_can_be_restored(groups: &Groups<Global>, itsi: Itsi)
    ensures own { All (λ a. a.itsi ≡ itsi) (groups_of groups.now itsi) }
    ensures in_order { IsInOrder (groups_of groups.now itsi) }
{}

// Puts the radio with its attachments, which are borrowed.
fn put_radio(
    from: &Groups<Global>,
    itsi: Itsi,
    radio: Radio,
    registry: &mut Registry<Global>,
    groups: &mut Groups<Global>,
) -> bool {
    borrowed_can_be_restored(from, itsi);
    let own = from.attachments(itsi);
    registry.restore(itsi, radio).is_ok() && groups.restore(itsi, own).is_ok()
}

fn put_radios(
    from: &Register<Global>,
    registry: &mut Registry<Global>,
    groups: &mut Groups<Global>,
) -> bool {
    let mut last = None;
    for _ in 0..from.registry().radio_count() {
        let Some((itsi, radio)) = from.registry().next_radio(last) else {
            return false;
        };
        if !put_radio(from.groups(), itsi, radio, registry, groups) {
            return false;
        }
        last = Some(itsi);
    }
    true
}

fn put_rules(from: &Registry<Global>, to: &mut Registry<Global>) -> bool {
    let mut last = None;
    for _ in 0..from.rule_count() {
        let Some((prefix, rule)) = from.next_rule(last) else {
            return false;
        };
        if to.set_rule(prefix, rule).is_err() {
            return false;
        }
        last = Some(prefix);
    }
    true
}

fn put_items(alloc: Global, from: &Mail<Global>, to: &mut Mail<Global>) -> bool
    requires { to.old.items ≡ [] }
{
    let mut last = None;
    for _ in 0..from.len() {
        let Some(place) = put_item(alloc, from, to, last) else {
            return false;
        };
        last = Some(place);
    }
    true
}

// Puts a copy of the item after this number and key, if there is one, and returns its number and key.
fn put_item(
    alloc: Global,
    from: &Mail<Global>,
    to: &mut Mail<Global>,
    last: Option<(u64, Key)>,
) -> Option<(u64, Key)>
    requires { EndsBy to.old last }
    ensures { IfSome result (λ place. EndsBy to.new (Some place)) }
{
    let Some(item) = from.next(last) else {
        return None;
    };
    let Ok(copy) = item.copy(alloc) else {
        return None;
    };
    let place = (copy.number(), copy.key());
    match to.restore(copy) {
        Ok(()) => Some(place),
        Err(_) => None,
    }
}
