//! Radios, groups and PDUs of the tests.

use identity::{Gtsi, Itsi};
use mm_pdus::{
    ClassOfUsage, GroupAddress, GroupItems, GroupUp, Gssi, LeaveReason, Lifetime,
    LocationUpdateType,
};
use registration::{Limits, LocationArea, Registry, Rule, Station};
use std::alloc::Allocator;
use std::test::Fail;

fn limits() -> Limits {
    Limits {
        rules: 16,
        radios: 16,
        mail: 256,
        stations: 4,
    }
}

pub fn radio(ssi: u16) -> Result<Itsi, Fail> {
    Ok(Itsi::new(234, 14, ssi.into()).ok_or("an identity")?)
}

pub fn group(ssi: u16) -> Result<Gtsi, Fail> {
    Ok(Gtsi::new(234, 14, ssi.into()).ok_or("a group")?)
}

fn short(ssi: u16) -> GroupAddress {
    GroupAddress::Short(Gssi::new(ssi.into()))
}

/// What is asked about a group.
#[derive(Clone, Copy)]
pub enum Ask {
    Attach(u16),
    Leave(u16),
}

fn item(ask: Ask) -> GroupUp {
    match ask {
        Ask::Attach(ssi) => GroupUp::Attach {
            class: ClassOfUsage::new(4),
            address: short(ssi),
        },
        Ask::Leave(ssi) => GroupUp::Leave {
            reason: LeaveReason::UserInitiated,
            address: short(ssi),
        },
    }
}

pub fn items<A: Allocator>(alloc: A, asks: &[Ask]) -> GroupItems<GroupUp, A> {
    let mut items = GroupItems::new(alloc);
    for ask in asks {
        let _ = items.push(item(*ask));
    }
    items
}

fn rule(lifetime: Lifetime) -> Result<Rule, Fail> {
    let area = LocationArea::new(7).ok_or("a location area")?;
    Ok(Rule::new(area, area, lifetime, 60).ok_or("a rule")?)
}

fn make_present<A: Allocator + Clone>(registry: &mut Registry<A>, ssi: u16) -> Result<(), Fail> {
    let area = LocationArea::new(7).ok_or("a location area")?;
    let attach = LocationUpdateType::ItsiAttach;
    let _ = registry.locate(radio(ssi)?, Station::new(1), area, attach);
    Ok(())
}

const RULES: [(u16, Lifetime); 6] = [
    (2001, Lifetime::NotNeeded),
    (2002, Lifetime::NotNeeded),
    (1, Lifetime::NotNeeded),
    (2, Lifetime::NextItsiAttach),
    (3, Lifetime::NotAllowedAtNextItsiAttach),
    (4, Lifetime::NextLocationUpdate),
];

fn fill<A: Allocator + Clone>(registry: &mut Registry<A>) -> Result<(), Fail> {
    for (ssi, lifetime) in RULES {
        let _ = registry.set_rule(radio(ssi)?.path(), rule(lifetime)?);
    }
    make_present(registry, 2001)?;
    make_present(registry, 2002)
}

/// Radios 2001 and 2002 are present, groups 1 to 4 have the four lifetimes, group 9 has no rule.
pub fn register<A: Allocator + Clone>(alloc: A) -> Result<Registry<A>, Fail> {
    let mut registry = Registry::new(alloc, limits())?;
    fill(&mut registry)?;
    Ok(registry)
}
