//! A message to a group: a stop comes while the gate of its record is opened, and a checkpoint is made after the stop.

use crate::made::{self, ATTACH, Given, OUTSIDER, RECEIVER, SENDER};
use crate::runs::{is_pending, run, stop};
use centre_core::{Query, QueryAnswer, Register};
use identity::Itsi;
use mailbox::{Item, Kind};
use recovery::Store;
use sector_disk::{Disk, Failing, FailingDisk, MemoryDisk};
use std::alloc::Global;

/// The message: 48 bits.
const TEXT: [u8; 6] = [0x82, 0x04, 0x06, 0x01, 0x48, 0x49];

/// A rule, 2001 and 2002 attached, and each of them to the group, and 2003 attached.
const MEMBERS: [Given; 6] = [
    Given::Rule,
    ATTACH,
    Given::AttachToGroup(3, SENDER),
    Given::Attach(4, RECEIVER),
    Given::AttachToGroup(5, RECEIVER),
    Given::Attach(6, OUTSIDER),
];

/// Commits these commands, each on the disk opened anew. Returns how many were answered.
fn with_members(alloc: Global, disk: MemoryDisk<Global>) -> (u64, MemoryDisk<Global>) {
    let (mut disk, mut kept) = (disk, 0u64);
    for given in MEMBERS {
        let (answered, next) = run(alloc, disk, &[given]);
        kept = kept.saturating_add(answered);
        disk = next;
    }
    (kept, disk)
}

/// The message is committed while the call that makes its gate last fails: the opening makes 19 calls, the commit five. A
/// stop leaves this byte in the gate, which is the one sector that is pending.
fn stopped(alloc: Global, byte: u8) -> Option<MemoryDisk<Global>> {
    let (kept, disk) = with_members(alloc, made::formatted(alloc)?);
    let disk = FailingDisk::new(disk, 24, Failing::Always);
    let (answered, disk) = run(alloc, disk, &[Given::GroupMessage(7)]);
    let disk = disk.into_inner();
    let gate = is_pending(alloc, &disk, 601)?;
    if kept == 6 && answered == 0 && gate {
        stop(alloc, disk, [byte; 512])
    } else {
        None
    }
}

/// Whether it is the copy for this radio, as it was sent, under number 7.
fn is_copy(item: &Item<Global>, itsi: Itsi) -> bool {
    let key = item.key();
    key.destination == itsi
        && key.source.number() == OUTSIDER
        && key.reference.number() == 6
        && key.kind == Kind::Message
        && item.number() == 7
        && item.deadline() == 3_720
        && item.group() == made::group()
        && item.pdu().len() == 48
        && item.pdu().as_bytes() == TEXT.as_slice()
}

/// How many copies wait for a radio, none or one; `None` if something else waits.
fn copies(alloc: Global, register: &Register<Global>, itsi: Itsi) -> Option<usize> {
    let Ok(QueryAnswer::Waiting { items, .. }) = register.query(alloc, &Query::Waiting(itsi)) else {
        return None;
    };
    match items.as_slice() {
        [] => Some(0),
        [item] if is_copy(item, itsi) => Some(1),
        _ => None,
    }
}

/// How many commands were accepted, and how many copies wait for each of the two members.
fn seen<D: Disk>(alloc: Global, store: &Store<Global, D>) -> Option<(u64, usize, usize)> {
    let register = store.register()?;
    let first = copies(alloc, register, Itsi::from_number(SENDER)?)?;
    let second = copies(alloc, register, Itsi::from_number(RECEIVER)?)?;
    Some((register.count(), first, second))
}

/// The same of a disk that is opened; and the disk, after a checkpoint.
fn checkpointed<D: Disk>(alloc: Global, disk: D) -> (Option<(u64, usize, usize)>, D) {
    match Store::open(alloc, disk) {
        Ok(mut store) => {
            let before = seen(alloc, &store);
            let made = store.checkpoint() == Ok(());
            (if made { before } else { None }, store.into_disk())
        }
        Err((_, disk)) => (None, disk),
    }
}

/// The disk after a checkpoint and a stop, if this is seen when it is opened.
fn seen_so(
    alloc: Global,
    disk: MemoryDisk<Global>,
    byte: u8,
    wanted: (u64, usize, usize),
) -> Option<MemoryDisk<Global>> {
    let (seen, disk) = checkpointed(alloc, disk);
    if seen == Some(wanted) {
        stop(alloc, disk, [byte; 512])
    } else {
        None
    }
}

/// Whether this is seen when the disk is opened, and again after a checkpoint and a stop, and after another of both.
fn is_seen(alloc: Global, byte: u8, wanted: (u64, usize, usize)) -> Option<bool> {
    let disk = stopped(alloc, byte)?;
    let disk = seen_so(alloc, disk, byte, wanted)?;
    let disk = seen_so(alloc, disk, byte, wanted)?;
    let disk = seen_so(alloc, disk, byte, wanted)?;
    drop(disk);
    Some(true)
}

fn are_all_or_none(alloc: Global) -> bool {
    is_seen(alloc, 0, (6, 0, 0)) == Some(true)
        && is_seen(alloc, 1, (7, 1, 1)) == Some(true)
        && is_seen(alloc, 77, (6, 0, 0)) == Some(true)
}

#[test]
fn a_group_message_has_all_its_copies_or_none(rt: HostRuntime) {
    assert!(rt; are_all_or_none(rt.alloc()));
}
