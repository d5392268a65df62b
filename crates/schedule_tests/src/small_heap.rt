//! Refused allocations change nothing.

use crate::commands::{Made, event};
use linked_list_allocator::LocalHeap;
use registration::Station;
use schedule::{StepFault, World};
use std::alloc::Global;
use std::test::Fail;

/// The events of a round, with sequences counted from the round's first. The crash comes only in the last round.
const ROUND: [Made; 15] = [
    Made::Submit(1, 1),
    Made::Submit(1, 2),
    Made::Submit(1, 3),
    Made::Submit(1, 4),
    Made::Seal(1),
    Made::Seal(1),
    Made::CommitBegin,
    Made::CommitEnd,
    Made::Publish,
    Made::Answer(1),
    Made::Answer(1),
    Made::Read(1),
    Made::CheckpointBegin,
    Made::CheckpointEnd,
    Made::Crash(0),
];

const LAST_ROUND: u32 = 19;

/// The event as it is in that round.
fn made_in(round: u32, made: Made) -> Made {
    match made {
        Made::Submit(station, sequence) => Made::Submit(
            station,
            round.saturating_mul(4).saturating_add(sequence),
        ),
        Made::Crash(_) if round < LAST_ROUND => Made::Publish,
        _ => made,
    }
}

fn numbers(world: &World<&LocalHeap>) -> (u64, u64, u64, bool) {
    (
        world.accepted(),
        world.durable(),
        world.published(),
        world.last_answer(Station::new(1)).is_some(),
    )
}

/// A round in this world: the place of the first event that runs out of memory, if there is one, and whether
/// that event changed nothing.
fn refused_in(
    heap: &LocalHeap,
    world: &mut World<&LocalHeap>,
    round: u32,
) -> Result<Option<(usize, bool)>, Fail> {
    for (place, made) in ROUND.iter().enumerate() {
        let next = event(made_in(round, *made))?;
        let (before, used) = (numbers(world), heap.used());
        if let Err(fault) = world.step(&next) {
            let same = numbers(world) == before && heap.used() == used;
            return Ok(Some((place, same && fault == StepFault::NoMemory)));
        }
    }
    Ok(None)
}

/// All rounds in this world, as above.
fn refused_first(
    heap: &LocalHeap,
    world: &mut World<&LocalHeap>,
) -> Result<Option<(usize, bool)>, Fail> {
    for round in 0..=LAST_ROUND {
        let stop = refused_in(heap, world, round)?;
        if stop.is_some() {
            return Ok(stop);
        }
    }
    Ok(None)
}

/// All rounds in a heap of this size, as above. Nothing is refused if there is no room for a world.
fn refused(alloc: Global, size: usize) -> Result<Option<(usize, bool)>, Fail> {
    let heap = LocalHeap::new(alloc, size)?;
    let Ok(mut world) = World::new(&heap, 1) else {
        return Ok(None);
    };
    let stop = refused_first(&heap, &mut world);
    drop(world);
    stop
}

/// How many events of a round ran out of memory in some heap; an error if one of them changed something.
fn places_refused(alloc: Global) -> Result<usize, Fail> {
    let mut places = [false; 15];
    for pieces in 0..1024usize {
        if let Some((place, same)) = refused(alloc, 4096 + pieces * 64)? {
            if !same || place >= places.len() {
                return Err(Fail::from("a refused growth changed something"));
            }
            places[place] = true;
        }
    }
    Ok(places.iter().filter(|place| **place).count())
}

#[test]
fn refused_growths(rt: HostRuntime) -> Result<(), Fail> {
    assert!(rt; places_refused(rt.alloc())? >= 3);
    Ok(())
}
