//! Disks of both layouts. A disk of layout 1 keeps its form until its first checkpoint. No record passes for one of the other
//! form, or for one of another number.

use crate::commits::is_checkpointed;
use crate::made::Given;
use crate::ongoing::run_from;
use crate::opens::{
    OPEN, PLAIN_FIRST, Row, SET_RULE, after, disk, expiry, first_wrong, opened, put,
};
use crate::runs::{begin, opens_to, run, stop};
use recovery::{Store, StoreFault};
use sector_disk::{Disk, Failing, FailingDisk, MemoryDisk};
use std::alloc::Global;

/// The record of a rule in layout 1, sequence 1 of station 1.
const PLAIN_RULE: [u8; 33] = [
    0, 1, 0, 0, 0, 0x1b, 0, 1, 0, 0, 0, 1, 0, 0, 0, 0, 1, 0x18, 0x3a, 0x80, 0x0e, 0, 0, 0, 0, 1, 0,
    0x63, 1, 0, 0, 0x0e, 0x10,
];

/// How the record of an expiry begins in layout 1.
const PLAIN_EXPIRY: [u8; 6] = [0, 1, 0, 0, 0, 0x0b];

// ---- layout 1

/// A disk of layout 1, with a rule.
pub fn old(alloc: Global) -> Option<MemoryDisk<Global>> {
    disk(
        alloc,
        &[(3, &PLAIN_FIRST), (589, &OPEN), (590, &PLAIN_RULE)],
    )
}

/// A record of an expiry of station 1 with this sequence, in layout 1.
fn plain_expiry(sequence: u8) -> [u8; 17] {
    [0, 1, 0, 0, 0, 0x0b, 0, 1, 0, 0, 0, sequence, 0, 0, 0, 0, 6]
}

/// Puts 18 expiries after the rule, and opens their gates.
fn put_plain_expiries<D: Disk>(disk: &mut D) -> bool {
    for k in 0..18u8 {
        let gate = 591 + 2 * u64::from(k);
        let expiry = plain_expiry(k.saturating_add(2));
        if !put(disk, &[(gate, &OPEN), (gate + 1, &expiry)]) {
            return false;
        }
    }
    disk.sync().is_ok()
}

/// The same with 18 expiries after the rule, which fill its half.
fn old_filled(alloc: Global) -> Option<MemoryDisk<Global>> {
    let mut disk = old(alloc)?;
    let is_put = put_plain_expiries(&mut disk);
    if is_put { Some(disk) } else { None }
}

/// Commits those expiries, each on the disk opened anew, so that no checkpoint ends between them. Returns how many were kept.
fn run_expiries(alloc: Global, disk: MemoryDisk<Global>) -> (u64, MemoryDisk<Global>) {
    let (mut disk, mut kept) = (disk, 0u64);
    for sequence in 2..=19 {
        let (answered, given) = run(alloc, disk, &[Given::OwnExpiry(sequence)]);
        kept = kept.saturating_add(answered);
        disk = given;
    }
    (kept, disk)
}

/// How many commands a disk of layout 1 opens to.
fn old_count(alloc: Global) -> Option<Result<u64, StoreFault>> {
    let (first, disk) = opened(alloc, old(alloc)?);
    drop(disk);
    Some(first)
}

const IN_ITS_FORM: [(u64, &[u8]); 7] = [
    (2, &[0]),
    (3, &PLAIN_FIRST),
    (591, &[1]),
    (592, &PLAIN_EXPIRY),
    (625, &[1]),
    (626, &PLAIN_EXPIRY),
    (627, &[0]),
];

/// Its records stay plain, and so does its header.
fn goes_on(alloc: Global) -> Option<bool> {
    let (kept, disk) = run_expiries(alloc, old(alloc)?);
    let (count, mut disk) = opens_to(alloc, disk);
    let written = begin(&mut disk, &IN_ITS_FORM);
    Some(kept == 18 && count == Some(19) && written)
}

#[test]
fn a_disk_of_layout_1_goes_on_in_its_form(rt: HostRuntime) {
    assert!(rt; old_count(rt.alloc()) == Some(Ok(1)));
    assert!(rt; goes_on(rt.alloc()) == Some(true));
}

fn is_moved(alloc: Global) -> Option<bool> {
    Some(is_checkpointed(alloc, old_filled(alloc)?))
}

#[test]
fn its_first_checkpoint_moves_it(rt: HostRuntime) {
    assert!(rt; is_moved(rt.alloc()) == Some(true));
}

const MOVED_BESIDE: [(u64, &[u8]); 6] = [
    (2, &[1]),
    (3, &PLAIN_FIRST),
    (296, &[22]),
    (610, &PLAIN_EXPIRY),
    (628, &[1]),
    (629, &[0, 1, 0, 0, 0, 0, 0, 0, 0, 11]),
];

/// In one run a checkpoint begins with the tenth command, and ends with the eleventh: its side is of layout 2.
fn moves_beside(alloc: Global) -> Option<bool> {
    let (answered, disk) = run_from(alloc, old(alloc)?, 2, 11);
    let (count, mut disk) = opens_to(alloc, disk);
    let written = begin(&mut disk, &MOVED_BESIDE);
    Some(answered == 10 && count == Some(11) && written)
}

#[test]
fn a_checkpoint_beside_its_commits_moves_it(rt: HostRuntime) {
    assert!(rt; moves_beside(rt.alloc()) == Some(true));
}

/// Whether a checkpoint of the disk is answered; and the disk.
pub fn checkpoint<D: Disk>(alloc: Global, disk: D) -> (bool, D) {
    match Store::open(alloc, disk) {
        Ok(mut store) => {
            let made = store.checkpoint() == Ok(());
            (made, store.into_disk())
        }
        Err((_, disk)) => (false, disk),
    }
}

/// The first checkpoint of such a disk while this call fails, and a stop after it: whether it was answered, and whether
/// the disk opens to 19 commands.
fn is_move_stopped(alloc: Global, call: u64, byte: u8) -> Option<(bool, bool)> {
    let disk = FailingDisk::new(old_filled(alloc)?, call, Failing::Always);
    let (made, disk) = checkpoint(alloc, disk);
    let (count, disk) = opens_to(alloc, stop(alloc, disk.into_inner(), [byte; 512])?);
    drop(disk);
    Some((made, count == Some(19)))
}

/// How many calls failed, from the first one on, until the checkpoint was made; `None` if a stop left something else.
fn move_stops(alloc: Global, byte: u8) -> Option<u64> {
    for call in 1..200 {
        match is_move_stopped(alloc, call, byte) {
            Some((true, true)) => return Some(call - 1),
            Some((false, true)) => {}
            _ => return None,
        }
    }
    None
}

#[test]
fn a_stop_in_it_leaves_19_commands(rt: HostRuntime) {
    for byte in [0, 1, 77] {
        assert!(rt; move_stops(rt.alloc(), byte).is_some_and(|calls| calls > 50));
    }
}

// ---- forms and numbers

const FORMS: [Row; 2] = [
    (
        &[(589, &OPEN), (590, &PLAIN_RULE)],
        Err(StoreFault::Damaged(590)),
    ),
    (
        &[(3, &PLAIN_FIRST), (589, &OPEN), (590, &SET_RULE)],
        Err(StoreFault::Damaged(590)),
    ),
];

#[test]
fn a_record_is_of_the_form_that_the_slot_states(rt: HostRuntime) {
    assert!(rt; first_wrong(rt.alloc(), &FORMS).is_none());
}

/// What a half opens to that has a rule, nine expiries and then the record of an expiry with this sequence and number.
fn after_ten(alloc: Global, sequence: u8) -> Option<Result<u64, StoreFault>> {
    after(alloc, 9, &[(609, &OPEN), (610, &expiry(sequence))])
}

fn are_numbered(alloc: Global) -> bool {
    after_ten(alloc, 11) == Some(Ok(11))
        && after_ten(alloc, 12) == Some(Err(StoreFault::Damaged(610)))
        && after_ten(alloc, 10) == Some(Err(StoreFault::Damaged(610)))
}

#[test]
fn a_record_states_the_next_number(rt: HostRuntime) {
    assert!(rt; are_numbered(rt.alloc()));
}
