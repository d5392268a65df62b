//! Groups in heaps of rising size: each growth is refused in turn, and then nothing is changed.

use crate::fixture::Ask::{Attach, Leave};
use crate::fixture::{Ask, group, items, radio, register};
use base::TryCopy;
use group_attach::{Attachment, GroupFault, Groups, answers};
use linked_list_allocator::LocalHeap;
use mm_pdus::{GroupItems, GroupMode, GroupUp};
use registration::Registry;
use std::alloc::Global;
use std::test::Fail;

const RADIOS: [u16; 2] = [2001, 2002];

const GROUPS: [u16; 3] = [1, 2, 4];

// The attachments of each radio, and then those of each group.
fn all_lists(alloc: Global, groups: &Groups<&LocalHeap>) -> Result<Vec<Attachment>, Fail> {
    let mut list = Vec::new(alloc);
    for ssi in RADIOS {
        list.extend_from_slice(&groups.groups_of(alloc, radio(ssi)?)?)?;
    }
    for ssi in GROUPS {
        list.extend_from_slice(&groups.members_of(alloc, group(ssi)?)?)?;
    }
    Ok(list)
}

// The commands, in order.
const COMMANDS: [(u16, GroupMode, [Ask; 2]); 5] = [
    (2001, GroupMode::Amendment, [Attach(1), Attach(2)]),
    (2002, GroupMode::Amendment, [Attach(2), Attach(2)]),
    (2001, GroupMode::DetachAllFirst, [Attach(4), Attach(2)]),
    (2001, GroupMode::Amendment, [Leave(2), Leave(4)]),
    (2002, GroupMode::Amendment, [Leave(1), Leave(2)]),
];

// The answer to a command.
fn changed(
    alloc: Global,
    registry: &Registry<Global>,
    groups: &mut Groups<&LocalHeap>,
    turn: usize,
) -> Result<Result<(), GroupFault>, Fail> {
    let (ssi, mode, asks) = COMMANDS[turn.min(4)];
    let itsi = radio(ssi)?;
    Ok(groups.change(registry, itsi, mode, &items(alloc, &asks)))
}

// `None` if the command is carried out, else whether it left all as it was, the heap too.
fn tried(
    alloc: Global,
    heap: &LocalHeap,
    registry: &Registry<Global>,
    groups: &mut Groups<&LocalHeap>,
    turn: usize,
) -> Result<Option<bool>, Fail> {
    let (before, used) = (all_lists(alloc, groups)?, heap.used());
    let Err(fault) = changed(alloc, registry, groups, turn)? else {
        return Ok(None);
    };
    let same = fault == GroupFault::NoMemory && heap.used() == used;
    Ok(Some(all_lists(alloc, groups)? == before && same))
}

// How many commands are carried out until one is refused; `None` if the refusal changed something.
fn taken(
    alloc: Global,
    heap: &LocalHeap,
    registry: &Registry<Global>,
    groups: &mut Groups<&LocalHeap>,
) -> Result<Option<usize>, Fail> {
    for turn in 0..5usize {
        if let Some(unchanged) = tried(alloc, heap, registry, groups, turn)? {
            return Ok(unchanged.then_some(turn));
        }
    }
    Ok(Some(5))
}

fn taken_in(
    alloc: Global,
    registry: &Registry<Global>,
    size: usize,
) -> Result<Option<usize>, Fail> {
    let heap = LocalHeap::new(alloc, size)?;
    let mut groups = Groups::new(&heap);
    taken(alloc, &heap, registry, &mut groups)
}

/// Whether heaps of rising size run out of memory after none, one and two commands, and at last carry out all.
fn are_ends_seen(alloc: Global, registry: &Registry<Global>) -> Result<bool, Fail> {
    let mut ends = [false; 6];
    for size in 2..1500usize {
        let Some(count) = taken_in(alloc, registry, 16 * size)? else {
            return Err(Fail::from("a refusal changed something"));
        };
        ends[count.min(5)] = true;
    }
    let [first, second, third, _, _, all] = ends;
    Ok(first && second && third && all)
}

fn is_refused_in_turn(alloc: Global) -> Result<bool, Fail> {
    let registry = register(alloc)?;
    are_ends_seen(alloc, &registry)
}

#[test]
fn each_growth_is_refused_in_turn(rt: HostRuntime) -> Result<(), Fail> {
    assert!(rt; is_refused_in_turn(rt.alloc())?);
    Ok(())
}

const BOTH: [Ask; 2] = [Attach(1), Attach(2)];

/// What a heap has memory for: 0 not even the answers to a PDU that attaches to two groups, 1 only these, 2 also its change,
/// 3 also a copy of the groups.
fn reached(
    heap: &LocalHeap,
    registry: &Registry<Global>,
    groups: &mut Groups<&LocalHeap>,
    asked: &GroupItems<GroupUp, Global>,
) -> Result<usize, Fail> {
    let here = radio(2001)?;
    if answers(heap, registry, here, asked).is_err() {
        return Ok(0);
    }
    if groups
        .apply(heap, registry, here, GroupMode::Amendment, asked)
        .is_err()
    {
        return Ok(1);
    }
    Ok(2 + usize::from(groups.try_copy().is_ok()))
}

fn reached_in(alloc: Global, registry: &Registry<Global>, size: usize) -> Result<usize, Fail> {
    let heap = LocalHeap::new(alloc, size)?;
    let mut groups = Groups::new(&heap);
    reached(&heap, registry, &mut groups, &items(alloc, &BOTH))
}

fn are_reached(alloc: Global, registry: &Registry<Global>) -> Result<[bool; 4], Fail> {
    let mut seen = [false; 4];
    for step in 1..40usize {
        seen[reached_in(alloc, registry, step * step * 32)?.min(3)] = true;
    }
    Ok(seen)
}

fn all_reached(alloc: Global) -> Result<[bool; 4], Fail> {
    let registry = register(alloc)?;
    are_reached(alloc, &registry)
}

#[test]
fn answers_and_copies_may_be_refused(rt: HostRuntime) -> Result<(), Fail> {
    assert!(rt; all_reached(rt.alloc())? == [true; 4]);
    Ok(())
}

/// Whether both radios are attached to both groups.
fn are_attached(
    alloc: Global,
    registry: &Registry<Global>,
    groups: &mut Groups<Global>,
) -> Result<bool, Fail> {
    let (first, second) = (radio(2001)?, radio(2002)?);
    let (asked, mode) = (items(alloc, &BOTH), GroupMode::Amendment);
    Ok(
        groups.change(registry, first, mode, &asked).is_ok()
            && groups.change(registry, second, mode, &asked).is_ok(),
    )
}

/// Whether this heap has too little memory for lists of two attachments.
fn are_lists_refused(heap: &LocalHeap, groups: &Groups<Global>) -> Result<bool, Fail> {
    let (here, there) = (radio(2001)?, group(1)?);
    Ok(groups.groups_of(heap, here).is_err() && groups.members_of(heap, there).is_err())
}

fn are_refused_once_attached(
    alloc: Global,
    heap: &LocalHeap,
    registry: &Registry<Global>,
    groups: &mut Groups<Global>,
) -> Result<bool, Fail> {
    Ok(are_attached(alloc, registry, groups)? && are_lists_refused(heap, groups)?)
}

fn are_refused(alloc: Global, heap: &LocalHeap) -> Result<bool, Fail> {
    let registry = register(alloc)?;
    let mut groups = Groups::new(alloc);
    are_refused_once_attached(alloc, heap, &registry, &mut groups)
}

#[test]
fn lists_may_be_refused(rt: HostRuntime) -> Result<(), Fail> {
    let heap = LocalHeap::new(rt.alloc(), 32)?;
    assert!(rt; are_refused(rt.alloc(), &heap)?);
    Ok(())
}
