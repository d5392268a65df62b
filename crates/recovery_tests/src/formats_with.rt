//! Disks formatted for a register that is already there.

use crate::made::{self, ATTACH, Given, SECOND_ATTACH};
use crate::runs::{begin, opens_to, run};
use centre_core::Register;
use checkpoint::Layout;
use recovery::{Store, StoreFault, format_with};
use sector_disk::{Disk, MemoryDisk};
use std::alloc::Global;

/// TETRALOC, layout 1, 16 rules, 16 radios, 256 items, 4 stations, 40 sectors a half.
const LABEL: [u8; 30] = [
    0x54, 0x45, 0x54, 0x52, 0x41, 0x4c, 0x4f, 0x43, 0, 1, 0, 0, 0, 0x10, 0, 0, 0, 0x10, 0, 0, 1, 0,
    0, 0, 0, 4, 0, 0, 0, 0x28,
];

/// A header of epoch 1: 2 commands, a rule, a radio, no item, one station.
const HEADER: [u8; 33] = [
    0x16, 0, 0, 0, 0, 0, 0, 0, 1, 0, 0, 0, 0, 0, 0, 0, 2, 0, 0, 0, 1, 0, 0, 0, 1, 0, 0, 0, 0, 0, 0,
    0, 1,
];

/// The row of the rule.
const RULE: [u8; 17] = [
    0x11, 0x18, 0x3a, 0x80, 0x0e, 0, 0, 0, 0, 1, 0, 0x63, 1, 0, 0, 0x0e, 0x10,
];

/// How the sectors begin: the label, both roots, the first rows, and the first gates of both halves.
const WRITTEN: [(u64, &[u8]); 7] = [
    (0, &LABEL),
    (1, &[1]),
    (2, &[0]),
    (3, &HEADER),
    (4, &RULE),
    (589, &[0]),
    (629, &[0]),
];

/// Formats a new disk of so many sectors, 40 of them a half, for this register.
fn format_for(
    alloc: Global,
    sectors: usize,
    register: &Register<Global>,
) -> Option<(Result<(), StoreFault>, MemoryDisk<Global>)> {
    let layout = Layout::new(register.limits(), 40)?;
    let mut disk = MemoryDisk::new(alloc, sectors, 999).ok()?;
    let formatted = format_with(&mut disk, &layout, register);
    Some((formatted, disk))
}

/// Whether a disk of 668 sectors is too small for this register.
fn is_too_small(alloc: Global, register: &Register<Global>) -> bool {
    match format_for(alloc, 668, register) {
        Some((Err(fault), _)) => fault == StoreFault::BadGeometry,
        _ => false,
    }
}

/// A disk of 669 sectors for the register of this store.
fn copied<D: Disk>(alloc: Global, store: &Store<Global, D>) -> Option<MemoryDisk<Global>> {
    let register = store.register()?;
    if !is_too_small(alloc, register) {
        return None;
    }
    match format_for(alloc, 669, register) {
        Some((Ok(()), disk)) => Some(disk),
        _ => None,
    }
}

/// And for the register of this disk.
fn copy<D: Disk + Drop>(alloc: Global, disk: D) -> Option<MemoryDisk<Global>> {
    match Store::open(alloc, disk) {
        Ok(store) => {
            let copy = copied(alloc, &store);
            drop(store.into_disk());
            copy
        }
        Err((_, disk)) => {
            drop(disk);
            None
        }
    }
}

const BOTH: [Given; 2] = [Given::Rule, ATTACH];

/// A copy of a disk with a rule and an attach.
fn copy_of_both(alloc: Global) -> Option<MemoryDisk<Global>> {
    let (answered, disk) = run(alloc, made::formatted(alloc)?, &BOTH);
    let copy = copy(alloc, disk);
    if answered == 2 { copy } else { None }
}

/// The copy then takes another attach.
fn goes_on(alloc: Global) -> Option<bool> {
    let mut disk = copy_of_both(alloc)?;
    let written = begin(&mut disk, &WRITTEN);
    let (more, disk) = run(alloc, disk, &[SECOND_ATTACH]);
    let (count, disk) = opens_to(alloc, disk);
    drop(disk);
    Some(written && more == 1 && count == Some(3))
}

#[test]
fn a_register_goes_on_on_another_disk(rt: HostRuntime) {
    assert!(rt; goes_on(rt.alloc()) == Some(true));
}
