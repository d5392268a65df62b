//! Groups in a heap of fixed size: 1,000 rounds of ten changes, each of which ends with no attachment, leave the heap as it
//! was. Once the groups are dropped, every byte is free again.

use crate::fixture::Ask::{Attach, Leave};
use crate::fixture::{Ask, items, radio, register};
use group_attach::Groups;
use linked_list_allocator::LocalHeap;
use mm_pdus::{GroupMode, LocationUpdateType};
use registration::Registry;
use std::alloc::Global;
use std::test::Fail;

#[derive(Clone, Copy)]
enum Change {
    Pdu(GroupMode, [Ask; 2]),
    Update(LocationUpdateType),
}

const AMEND: GroupMode = GroupMode::Amendment;

const RENEW: GroupMode = GroupMode::DetachAllFirst;

/// The changes of a round: attachments end by leaving, by leaving all, by an ITSI attach and by another update.
const ROUND: [(u16, Change); 10] = [
    (2001, Change::Pdu(AMEND, [Attach(1), Attach(2)])),
    (2002, Change::Pdu(AMEND, [Attach(2), Attach(4)])),
    (2002, Change::Update(LocationUpdateType::Demand)),
    (2001, Change::Pdu(RENEW, [Attach(4), Attach(2)])),
    (2001, Change::Update(LocationUpdateType::ItsiAttach)),
    (2002, Change::Pdu(AMEND, [Leave(2), Leave(4)])),
    (2001, Change::Pdu(AMEND, [Attach(3), Attach(1)])),
    (2001, Change::Pdu(RENEW, [Attach(9), Leave(1)])),
    (2002, Change::Pdu(AMEND, [Attach(1), Attach(2)])),
    (2002, Change::Pdu(AMEND, [Leave(1), Leave(2)])),
];

/// Makes this change of a radio, and returns whether it succeeds.
fn is_made(
    alloc: Global,
    heap: &LocalHeap,
    registry: &Registry<Global>,
    groups: &mut Groups<&LocalHeap>,
    (ssi, change): (u16, Change),
) -> Result<bool, Fail> {
    let itsi = radio(ssi)?;
    match change {
        Change::Pdu(mode, asks) => {
            let asked = items(alloc, &asks);
            Ok(groups.apply(heap, registry, itsi, mode, &asked).is_ok())
        }
        Change::Update(update) => {
            groups.on_update(itsi, update);
            Ok(true)
        }
    }
}

/// Makes the changes of a round, and returns whether each succeeds.
fn is_round_made(
    alloc: Global,
    heap: &LocalHeap,
    registry: &Registry<Global>,
    groups: &mut Groups<&LocalHeap>,
) -> Result<bool, Fail> {
    for made in ROUND {
        if !is_made(alloc, heap, registry, groups, made)? {
            return Ok(false);
        }
    }
    Ok(true)
}

/// Makes so many rounds, and returns whether each leaves the heap as it was.
fn is_even(
    alloc: Global,
    heap: &LocalHeap,
    registry: &Registry<Global>,
    groups: &mut Groups<&LocalHeap>,
    rounds: u32,
) -> Result<bool, Fail> {
    let used = heap.used();
    for _ in 0..rounds {
        if !is_round_made(alloc, heap, registry, groups)? || heap.used() != used {
            return Ok(false);
        }
    }
    Ok(true)
}

fn leaves_no_trace(alloc: Global, heap: &LocalHeap) -> Result<bool, Fail> {
    let registry = register(alloc)?;
    let mut groups = Groups::new(heap);
    is_even(alloc, heap, &registry, &mut groups, 1000)
}

#[test]
fn ten_thousand_changes_leave_no_trace(rt: HostRuntime) -> Result<(), Fail> {
    let heap = LocalHeap::new(rt.alloc(), 1 << 15)?;
    let empty = heap.used();
    assert!(rt; leaves_no_trace(rt.alloc(), &heap)? && heap.used() == empty);
    Ok(())
}
