//! A registry in small heaps, and the values in it. What its calls answer is tested by the program's rows, in
//! tests/program/rows.

use base::TryCopy;
use identity::{Itsi, Prefix};
use linked_list_allocator::LocalHeap;
use mm_pdus::{Lifetime, LocationUpdateType};
use registration::{Limits, LocationArea, Radio, RegFault, Registry, Rule, Station};
use std::alloc::{AllocError, Global};
use std::test::Fail;

fn limits() -> Limits {
    Limits {
        rules: 16,
        radios: 16,
        mail: 256,
        stations: 4,
    }
}

fn radio(ssi: u32) -> Result<Itsi, Fail> {
    Ok(Itsi::new(234, 14, ssi).ok_or("an identity")?)
}

fn area(number: u32) -> Result<LocationArea, Fail> {
    Ok(LocationArea::new(number).ok_or("a location area")?)
}

fn rule(keep: u32) -> Result<Rule, Fail> {
    let rule = Rule::new(area(1)?, area(99)?, Lifetime::NextItsiAttach, keep);
    Ok(rule.ok_or("a rule")?)
}

/// Limits of which one is out of its range.
const OUT_OF_RANGE: [(u32, u32, u32, u32); 8] = [
    (0, 1, 1, 1),
    (4097, 1, 1, 1),
    (1, 0, 1, 1),
    (1, 65_537, 1, 1),
    (1, 1, 0, 1),
    (1, 1, 65_537, 1),
    (1, 1, 1, 0),
    (1, 1, 1, 65),
];

fn are_limits(rules: u32, radios: u32, mail: u32, stations: u32) -> bool {
    let Some(limits) = Limits::new(rules, radios, mail, stations) else {
        return false;
    };
    (limits.rules, limits.radios, limits.mail, limits.stations) == (rules, radios, mail, stations)
}

fn are_refused() -> bool {
    for (rules, radios, mail, stations) in OUT_OF_RANGE {
        if Limits::new(rules, radios, mail, stations).is_some() {
            return false;
        }
    }
    true
}

#[test]
fn limits_have_their_ranges(rt: HostRuntime) {
    assert!(rt; are_refused() && are_limits(1, 1, 1, 1) && are_limits(4096, 65_536, 65_536, 64));
}

fn has_terms(rule: &Rule, low: LocationArea, high: LocationArea) -> bool {
    (rule.low(), rule.high(), rule.keep()) == (low, high, 7)
        && rule.lifetime() == Lifetime::NextLocationUpdate
}

fn is_in_order(low: LocationArea, high: LocationArea) -> bool {
    match Rule::new(low, high, Lifetime::NextLocationUpdate, 7) {
        Some(rule) => {
            has_terms(&rule, low, high) && Rule::new(high, low, Lifetime::NotNeeded, 0).is_none()
        }
        None => false,
    }
}

#[test]
fn a_rule_has_its_areas_in_order(rt: HostRuntime) -> Result<(), Fail> {
    assert!(rt; is_in_order(area(5)?, area(9)?) && LocationArea::new(16384).is_none());
    Ok(())
}

#[test]
fn a_station_has_any_number(rt: HostRuntime) {
    for number in [0, 1, 64, u16::MAX] {
        assert!(rt; Station::new(number).number() == number);
    }
    assert!(rt; Station::new(1) == Station::new(1) && Station::new(1) != Station::new(2));
}

/// All rules and radios: the bits of each prefix, or identity, with two numbers of what is there.
fn listed(alloc: Global, registry: &Registry<&LocalHeap>) -> Result<Vec<(u64, u32, u32)>, Fail> {
    let mut list = Vec::new(alloc);
    for (prefix, rule) in registry.rules(alloc)? {
        list.push((prefix.bits(), prefix.len(), rule.keep()))?;
    }
    for (itsi, radio) in registry.radios(alloc)? {
        list.push((
            itsi.number(),
            u32::from(radio.station.number()),
            radio.area.number(),
        ))?;
    }
    Ok(list)
}

/// A radio that left at station 2.
fn left(area: LocationArea) -> Radio {
    Radio {
        station: Station::new(2),
        area,
        present: false,
    }
}

/// How many calls there are: of three rules, and of more radios than one node of their map holds.
const CALLS: u32 = 19;

/// The call of this turn: rules under 0, 3 and 9 bits, then radios, of which the first attaches.
fn called(
    registry: &mut Registry<&LocalHeap>,
    turn: u32,
    here: Itsi,
    rule: Rule,
) -> Result<(), RegFault> {
    let (area, attach) = (rule.low(), LocationUpdateType::ItsiAttach);
    match turn {
        0 => registry.set_rule(Prefix::of(here.number(), 0), rule),
        1 => registry.set_rule(Prefix::of(here.number(), 3), rule),
        2 => registry.set_rule(Prefix::of(here.number(), 9), rule),
        3 => registry.locate(here, Station::new(1), area, attach),
        _ => registry.restore(here, left(area)),
    }
}

/// How many calls have memory in a heap, a copy and the lists among them as the last. `unchanged`: the first refused call
/// left the heap and the registry as they were.
#[derive(Clone, Copy)]
struct Taken {
    calls: u32,
    unchanged: bool,
}

/// Nothing where the call of this turn has memory; else whether it left all as it was.
fn turn(
    alloc: Global,
    heap: &LocalHeap,
    registry: &mut Registry<&LocalHeap>,
    turn: u32,
) -> Result<Option<bool>, Fail> {
    let (here, rule) = (radio(2001_u32.saturating_sub(turn))?, rule(turn)?);
    let (before, used) = (listed(alloc, registry)?, heap.used());
    match called(registry, turn, here, rule) {
        Ok(()) => Ok(None),
        Err(fault) => {
            let same = listed(alloc, registry)? == before && heap.used() == used;
            Ok(Some(same && fault == RegFault::NoMemory))
        }
    }
}

fn is_copied(registry: &Registry<&LocalHeap>, heap: &LocalHeap) -> bool {
    registry.try_copy().is_ok() && registry.rules(heap).is_ok() && registry.radios(heap).is_ok()
}

fn calls_until_refused(
    alloc: Global,
    heap: &LocalHeap,
    registry: &mut Registry<&LocalHeap>,
) -> Result<Taken, Fail> {
    for calls in 0..CALLS {
        if let Some(unchanged) = turn(alloc, heap, registry, calls)? {
            return Ok(Taken { calls, unchanged });
        }
    }
    let calls = CALLS + u32::from(is_copied(registry, heap));
    Ok(Taken {
        calls,
        unchanged: true,
    })
}

fn calls_taken(alloc: Global, size: usize) -> Result<Taken, Fail> {
    let heap = LocalHeap::new(alloc, size)?;
    let mut registry = Registry::new(&heap, limits())?;
    calls_until_refused(alloc, &heap, &mut registry)
}

/// How many calls have memory in the largest of these heaps, and how often a larger heap has memory for more calls. In no
/// heap there may be fewer than in the one before.
fn most_calls(alloc: Global) -> Result<Option<(u32, u32)>, Fail> {
    let (mut last, mut ends) = (0u32, 0u32);
    for size in 2..256usize {
        let next = calls_taken(alloc, 32 * size)?;
        if !next.unchanged || next.calls < last {
            return Ok(None);
        }
        ends = ends.saturating_add(u32::from(next.calls > last));
        last = next.calls;
    }
    Ok(Some((last, ends)))
}

// Each rule takes a node, and so does the first radio. Fourteen more radios are in that node; the next one takes two nodes
// at once, and then the copy and the lists take theirs.
#[test]
fn each_growth_is_refused_in_turn(rt: HostRuntime) -> Result<(), Fail> {
    assert!(rt; most_calls(rt.alloc())? == Some((20, 6)));
    Ok(())
}

/// A registry in which the radio is present.
fn with_radio(alloc: Global, here: Itsi, rule: Rule) -> Result<Registry<Global>, AllocError> {
    let mut registry = Registry::new(alloc, limits())?;
    let _ = registry.set_rule(here.path(), rule);
    let attach = LocationUpdateType::ItsiAttach;
    let _ = registry.locate(here, Station::new(1), rule.low(), attach);
    Ok(registry)
}

/// Whether the radio is present in a copy, and in the registry from which it then detaches.
fn is_present_apart(registry: &mut Registry<Global>, here: Itsi) -> [bool; 2] {
    let Ok(copy) = registry.try_copy() else {
        return [false; 2];
    };
    let _ = registry.detach(here);
    [copy.is_present(here), registry.is_present(here)]
}

fn parted(alloc: Global, here: Itsi, rule: Rule) -> Result<[bool; 2], AllocError> {
    let mut registry = with_radio(alloc, here, rule)?;
    Ok(is_present_apart(&mut registry, here))
}

#[test]
fn a_copy_is_apart(rt: HostRuntime) -> Result<(), Fail> {
    let (here, rule) = (radio(2001)?, rule(60)?);
    assert!(rt; parted(rt.alloc(), here, rule)? == [true, false]);
    Ok(())
}

/// Where a radio is that was restored without a rule, and what restoring a second one answers where only one may be known.
fn restored(
    alloc: Global,
    here: Itsi,
    other: Itsi,
    area: LocationArea,
) -> Result<(Option<Radio>, Result<(), RegFault>), AllocError> {
    let one = Limits {
        rules: 1,
        radios: 1,
        mail: 1,
        stations: 1,
    };
    let mut registry = Registry::new(alloc, one)?;
    let _ = registry.restore(here, left(area));
    let second = registry.restore(other, left(area));
    Ok((registry.where_is(here), second))
}

#[test]
fn a_radio_is_restored_where_it_was(rt: HostRuntime) -> Result<(), Fail> {
    let (here, other, area) = (radio(2001)?, radio(2000)?, area(77)?);
    let (at, second) = restored(rt.alloc(), here, other, area)?;
    assert!(rt; at == Some(left(area)) && second == Err(RegFault::Congestion));
    Ok(())
}

/// Whether a radio that comes and is forgotten leaves the registry and the heap as they were, with the rule and the other radio.
fn is_forgotten(heap: &LocalHeap, here: Itsi, other: Itsi, rule: Rule) -> Result<bool, AllocError> {
    let mut registry = Registry::new(heap, limits())?;
    let _ = registry.set_rule(here.path(), rule);
    let _ = registry.restore(other, left(rule.low()));
    let used = heap.used();
    let _ = registry.restore(here, left(rule.low()));
    let counted = (registry.rule_count(), registry.radio_count()) == (1, 2);
    let forgotten = [registry.forget(here), registry.forget(here)] == [true, false];
    let is_as_before = registry.radio_count() == 1
        && registry.where_is(here).is_none()
        && registry.where_is(other) == Some(left(rule.low()));
    Ok(counted && forgotten && is_as_before && heap.used() == used)
}

#[test]
fn a_forgotten_radio_leaves_no_trace(rt: HostRuntime) -> Result<(), Fail> {
    let (here, other, rule) = (radio(2001)?, radio(2000)?, rule(60)?);
    let heap = LocalHeap::new(rt.alloc(), 4096)?;
    assert!(rt; is_forgotten(&heap, here, other, rule)?);
    Ok(())
}
