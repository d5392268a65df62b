//! Restores a radio's attachments, in place of those that it had.

use crate::fixture::{Ask, group, items, radio, register};
use group_attach::{Attachment, GroupFault, Groups};
use identity::{Gtsi, Itsi};
use linked_list_allocator::LocalHeap;
use mm_pdus::{ClassOfUsage, GroupMode, Lifetime};
use registration::Registry;
use std::alloc::{Allocator, Global};
use std::test::Fail;

const BEFORE: [Ask; 3] = [Ask::Attach(3), Ask::Attach(1), Ask::Attach(4)];

/// Restores one attachment. No PDU would give it this class and this lifetime.
fn restored<A: Allocator + Clone>(
    groups: &mut Groups<A>,
    itsi: Itsi,
    gtsi: Gtsi,
) -> Result<(), GroupFault> {
    let attachment = Attachment {
        itsi,
        gtsi,
        class: ClassOfUsage::new(7),
        lifetime: Lifetime::NextLocationUpdate,
    };
    groups.restore(itsi, &[attachment])
}

/// The group, class and lifetime of the radio's attachment, if it has exactly one.
fn only_one<A: Allocator>(groups: &Groups<A>, itsi: Itsi) -> Option<(Gtsi, u8, Lifetime)> {
    let first = groups.next_of(itsi, None)?;
    match groups.next_of(itsi, Some(first.gtsi)) {
        Some(_) => None,
        None => Some((first.gtsi, first.class.number(), first.lifetime)),
    }
}

fn how_many(alloc: Global, groups: &Groups<Global>, ssi: u16) -> Result<usize, Fail> {
    Ok(groups.members_of(alloc, group(ssi)?)?.len())
}

fn members(alloc: Global, groups: &Groups<Global>) -> Result<[usize; 4], Fail> {
    Ok([
        how_many(alloc, groups, 1)?,
        how_many(alloc, groups, 3)?,
        how_many(alloc, groups, 4)?,
        how_many(alloc, groups, 9)?,
    ])
}

fn restored_beside(
    alloc: Global,
    registry: &Registry<Global>,
    groups: &mut Groups<Global>,
) -> Result<bool, Fail> {
    let (one, other, ninth) = (radio(2001)?, radio(2002)?, group(9)?);
    let before = items(alloc, &BEFORE);
    for itsi in [one, other] {
        let _ = groups.change(registry, itsi, GroupMode::Amendment, &before);
    }
    let _ = restored(groups, one, ninth);
    let is_there = only_one(groups, one) == Some((ninth, 7, Lifetime::NextLocationUpdate));
    Ok(is_there && members(alloc, groups)? == [1, 1, 1, 1])
}

fn is_restored(alloc: Global) -> Result<bool, Fail> {
    let registry = register(alloc)?;
    restored_beside(alloc, &registry, &mut Groups::new(alloc))
}

#[test]
fn attachments_are_restored_in_the_place_of_others(rt: HostRuntime) -> Result<(), Fail> {
    assert!(rt; is_restored(rt.alloc())?);
    Ok(())
}

/// Whether a heap of this size has memory for the first attachment; `None` if a refusal leaves something.
fn restored_in(alloc: Global, size: usize) -> Result<Option<bool>, Fail> {
    let (one, ninth) = (radio(2001)?, group(9)?);
    let heap = LocalHeap::new(alloc, size)?;
    let mut groups = Groups::new(&heap);
    match restored(&mut groups, one, ninth) {
        Ok(()) => Ok(Some(true)),
        Err(fault) => {
            let same = groups.next_of(one, None).is_none() && heap.used() == 0;
            Ok((same && fault == GroupFault::NoMemory).then_some(false))
        }
    }
}

/// The smallest heap with memory for the attachment, in units of 16 bytes.
fn least_heap(alloc: Global) -> Result<Option<usize>, Fail> {
    for size in 2..200usize {
        match restored_in(alloc, 16 * size)? {
            Some(true) => return Ok(Some(size)),
            Some(false) => {}
            None => return Ok(None),
        }
    }
    Ok(None)
}

#[test]
fn each_growth_of_a_restored_attachment_is_refused(rt: HostRuntime) -> Result<(), Fail> {
    assert!(rt; least_heap(rt.alloc())?.is_some_and(|size| size > 10));
    Ok(())
}
