//! The greatest record: 64 messages of 2,047 bits in one commit.

use crate::made::{self, ATTACH, Given, SECOND_ATTACH};
use crate::runs::{begin, commit_all, commit_batch, opens_to, serve};
use centre_core::Command;
use recovery::{Store, StoreFault};
use sector_disk::{Disk, MemoryDisk};
use std::alloc::Global;

/// A header of epoch 2: 3 commands, a rule, two radios, nothing that waits, one station.
const SECOND: [u8; 33] = [
    22, 0, 0, 0, 0, 0, 0, 0, 2, 0, 0, 0, 0, 0, 0, 0, 3, 0, 0, 0, 1, 0, 0, 0, 2, 0, 0, 0, 0, 0, 0,
    0, 1,
];

/// How the record begins: 64 commands from number 4 on, of 281 bytes, the first of them of station 1 with sequence 4 at moment 20, from
/// 234-14-2001 to 234-14-2002, 2,047 bits with reference 0.
const HEAD: [u8; 44] = [
    0, 0x40, 0, 0, 0, 0, 0, 0, 0, 4, 0, 0, 0x46, 0x40, 0, 1, 0, 0, 0, 4, 0, 0, 0, 0x14, 4, 0x3a,
    0x80, 0x0e, 0, 0x07, 0xd1, 0x3a, 0x80, 0x0e, 0, 0x07, 0xd2, 0x07, 0xff, 0x82, 0, 0, 0xff, 0xff,
];

/// Its 36th data sector: of the 14 bytes of its head and of the 64 times 281 ones 78 are left, all of the last
/// message's user data, after whose last bit a 0 fills.
fn last_sector() -> [u8; 512] {
    let mut bytes = [0; 512];
    for byte in bytes.iter_mut().take(77) {
        *byte = 255;
    }
    bytes[77] = 254;
    bytes
}

/// A header of epoch 3: 67 commands, a rule, two radios, 64 messages that wait, one station.
const THIRD: [u8; 33] = [
    22, 0, 0, 0, 0, 0, 0, 0, 3, 0, 0, 0, 0, 0, 0, 0, 67, 0, 0, 0, 1, 0, 0, 0, 2, 0, 0, 0, 64, 0, 0,
    0, 1,
];

/// The record of an expiry, number 68.
const EXPIRY_ALONE: [u8; 14] = [0, 1, 0, 0, 0, 0, 0, 0, 0, 68, 0, 0, 0, 0x0b];

/// In one record, so that the half has room for 35 data sectors more.
const THREE: [Given; 3] = [Given::Rule, ATTACH, SECOND_ATTACH];

/// Makes the 64 messages; whether there was memory for them.
fn make_messages(alloc: Global, messages: &mut Vec<Command<Global>>) -> bool {
    for k in 0..64u8 {
        let sequence = u32::from(k).saturating_add(4);
        let Some(message) = made::message(alloc, sequence, k, 42) else {
            return false;
        };
        if messages.push(message).is_err() {
            return false;
        }
    }
    messages.len() == 64
}

/// A record that does not fit waits for a checkpoint.
fn is_kept_after_a_checkpoint<D: Disk>(
    alloc: Global,
    store: &mut Store<Global, D>,
    messages: &[Command<Global>],
) -> bool {
    commit_all(alloc, store, messages) == Err(StoreFault::Unready)
        && store.checkpoint() == Ok(())
        && commit_all(alloc, store, messages) == Ok(true)
}

/// Three commands, and then the 64 messages.
fn commit_greatest<D: Disk>(alloc: Global, store: &mut Store<Global, D>) -> bool {
    let mut messages = Vec::new(alloc);
    make_messages(alloc, &mut messages)
        && commit_batch(alloc, store, &THREE) == Ok(true)
        && is_kept_after_a_checkpoint(alloc, store, &messages)
}

/// The disk after these commits, and whether all were answered.
fn greatest<D: Disk>(alloc: Global, disk: D) -> (bool, D) {
    match Store::open(alloc, disk) {
        Ok(mut store) => {
            let all = commit_greatest(alloc, &mut store);
            (all, store.into_disk())
        }
        Err((_, disk)) => (false, disk),
    }
}

/// Sectors of half B.
fn is_in_half_b<D: Disk>(disk: &mut D) -> bool {
    let last = last_sector();
    begin(disk, &FIRST_OF_B) && begin(disk, &[(664, &last), (665, &[0; 512])])
}

/// The record needs 36 data sectors: it waits for a checkpoint, and is the first one of half B, which it fills.
const FIRST_OF_B: [(u64, &[u8]); 4] = [(2, &[1]), (296, &SECOND), (628, &[1]), (629, &HEAD)];

fn fills_a_half(alloc: Global) -> Option<bool> {
    let (all, disk) = greatest(alloc, made::formatted(alloc)?);
    let mut disk = disk;
    Some(all && is_in_half_b(&mut disk))
}

#[test]
fn the_greatest_record_fills_a_half(rt: HostRuntime) {
    assert!(rt; fills_a_half(rt.alloc()) == Some(true));
}

const FIRST_OF_A: [(u64, &[u8]); 4] = [(3, &THIRD), (589, &[1]), (590, &EXPIRY_ALONE), (591, &[0])];

/// No room is left after it: a desk makes a checkpoint for the next command, and its record is the first one of half A.
fn is_followed(alloc: Global) -> Option<bool> {
    let (all, disk) = greatest(alloc, made::formatted(alloc)?);
    let (before, disk) = opens_to(alloc, disk);
    let (answered, disk) = serve(alloc, disk, Given::Expiry(1), 68);
    let (after, mut disk) = opens_to(alloc, disk);
    let kept = before == Some(67) && answered && after == Some(68);
    Some(all && kept && begin(&mut disk, &FIRST_OF_A))
}

#[test]
fn a_checkpoint_comes_after_the_greatest_record(rt: HostRuntime) {
    assert!(rt; is_followed(rt.alloc()) == Some(true));
}
