//! From each rule and each radio to the next, without taking memory.

use identity::{Itsi, Prefix};
use mm_pdus::{Lifetime, LocationUpdateType};
use registration::{Limits, LocationArea, Registry, Rule, Station};
use std::alloc::Global;
use std::test::Fail;

fn radio(ssi: u32) -> Result<Itsi, Fail> {
    Ok(Itsi::new(234, 14, ssi).ok_or("an identity")?)
}

fn first_bits(ssi: u32, len: u32) -> Result<Prefix, Fail> {
    Ok(Prefix::of(radio(ssi)?.number(), len.min(48)))
}

fn area() -> Result<LocationArea, Fail> {
    Ok(LocationArea::new(5).ok_or("a location area")?)
}

fn rule(keep: u32) -> Result<Rule, Fail> {
    let area = area()?;
    let rule = Rule::new(area, area, Lifetime::NextItsiAttach, keep);
    Ok(rule.ok_or("a rule")?)
}

const RULES: [(u32, u32); 4] = [(2001, 48), (0, 24), (0, 0), (2000, 47)];

const RULES_IN_ORDER: [(u32, u32); 4] = [(0, 0), (0, 24), (2000, 47), (2001, 48)];

// A prefix without a rule, and the prefix of the rule after it.
const BESIDE_RULES: [(u32, u32, u32, u32); 3] = [
    (0, 1, 0, 24),
    (0, 48, 2000, 47),
    (2000, 48, 2001, 48),
];

const RADIOS: [u32; 3] = [2002, 7, 2001];

const RADIOS_IN_ORDER: [u32; 3] = [7, 2001, 2002];

// Sets the rules and the radios, in another order than theirs. Each rule keeps messages for as many seconds as its prefix has
// bits, and each radio comes by the station of its number.
fn fill(registry: &mut Registry<Global>) -> Result<(), Fail> {
    for (ssi, len) in RULES {
        registry.set_rule(first_bits(ssi, len)?, rule(len)?)?;
    }
    for ssi in RADIOS {
        registry.locate(
            radio(ssi)?,
            Station::new(ssi as u16),
            area()?,
            LocationUpdateType::ItsiAttach,
        )?;
    }
    Ok(())
}

// Whether the rule after this prefix, or the first of all, is the one under the wanted prefix.
fn is_next_rule(registry: &Registry<Global>, after: Option<Prefix>, want: Option<Prefix>) -> bool {
    match (registry.next_rule(after), want) {
        (Some((prefix, rule)), Some(want)) => prefix.same(&want) && rule.keep() == want.len(),
        (None, None) => true,
        _ => false,
    }
}

// Whether the rules come one after another, and then none, and one comes after each prefix without a rule.
fn rules_follow(registry: &Registry<Global>) -> Result<bool, Fail> {
    let (mut after, mut right) = (None, true);
    for (ssi, len) in RULES_IN_ORDER {
        let want = Some(first_bits(ssi, len)?);
        right = is_next_rule(registry, after, want) && right;
        after = want;
    }
    for (ssi, len, next_ssi, next_len) in BESIDE_RULES {
        let (beside, want) = (first_bits(ssi, len)?, first_bits(next_ssi, next_len)?);
        right = is_next_rule(registry, Some(beside), Some(want)) && right;
    }
    Ok(right && is_next_rule(registry, after, None))
}

// The number of the radio after this one, by its identity and by its station; 0 where there is none.
fn next_ssi(registry: &Registry<Global>, after: Option<Itsi>) -> (u32, u32) {
    match registry.next_radio(after) {
        Some((itsi, radio)) => (itsi.ssi(), u32::from(radio.station.number())),
        None => (0, 0),
    }
}

// Whether the radios come one after another, and then none, and one comes after a radio that never came.
fn radios_follow(registry: &Registry<Global>) -> Result<bool, Fail> {
    let (mut after, mut right) = (None, true);
    for ssi in RADIOS_IN_ORDER {
        right = next_ssi(registry, after) == (ssi, ssi) && right;
        after = Some(radio(ssi)?);
    }
    let beside = next_ssi(registry, Some(radio(8)?)) == (2001, 2001);
    let last = registry.last_radio() == Some(radio(2002)?);
    Ok(right && beside && last && next_ssi(registry, after) == (0, 0))
}

fn follow(alloc: Global) -> Result<[bool; 2], Fail> {
    let limits = Limits::new(8, 8, 8, 1).ok_or("limits")?;
    let mut registry = Registry::new(alloc, limits)?;
    let none = registry.last_radio().is_none();
    fill(&mut registry)?;
    Ok([none && rules_follow(&registry)?, radios_follow(&registry)?])
}

#[test]
fn rules_and_radios_follow_one_another(rt: HostRuntime) -> Result<(), Fail> {
    assert!(rt; follow(rt.alloc())? == [true, true]);
    Ok(())
}
