//! A command sent again after a stop.

use crate::commits::with_rule;
use crate::made::{ATTACH, command};
use crate::runs::{count, is_pending, run, stop};
use centre_core::{Command, Reply};
use desk::Desk;
use identity::Bits;
use recovery::Store;
use sector_disk::{Disk, Failing, FailingDisk, MemoryDisk};
use std::alloc::{Allocator, Global};

/// What a desk answers to the second command: `ok 2 8:56`, `kept 2 8:56`, or something else.
#[derive(Clone, Copy, Debug, PartialEq, Eq)]
enum Word {
    Ok,
    Kept,
    Other,
}

/// Whether a PDU is the D-LOCATION UPDATE ACCEPT of an ITSI attach, `8:56`.
fn is_accept<C: Allocator>(pdu: &Option<Bits<C>>) -> bool {
    match pdu {
        Some(bits) => bits.len() == 8 && bits.as_bytes() == [0x56].as_slice(),
        None => false,
    }
}

fn said<C: Allocator>(reply: &Reply<C>) -> Word {
    match reply {
        Reply::Accepted { number: 2, pdu } if is_accept(pdu) => Word::Ok,
        Reply::Kept { number: 2, pdu } if is_accept(pdu) => Word::Kept,
        _ => Word::Other,
    }
}

fn answer<T: Desk<Global>>(alloc: Global, desk: &mut T, command: &Command<Global>) -> Word {
    match desk.apply(alloc, command) {
        Ok(reply) => said(&reply),
        Err(_) => Word::Other,
    }
}

/// After the rule an attach is committed while the call that makes its gate last fails: the opening makes nine calls, the
/// commit five. A stop leaves this byte in the gate, which is the one sector that is pending.
fn stopped(alloc: Global, byte: u8) -> Option<MemoryDisk<Global>> {
    let disk = FailingDisk::new(with_rule(alloc)?, 14, Failing::Always);
    let (lost, disk) = run(alloc, disk, &[ATTACH]);
    let disk = disk.into_inner();
    let pending = is_pending(alloc, &disk, 591)?;
    if lost == 0 && pending {
        stop(alloc, disk, [byte; 512])
    } else {
        None
    }
}

/// How many commands the register of a store has accepted, and what it answers to the attach.
fn again<D: Disk>(alloc: Global, store: &mut Store<Global, D>) -> Option<(u64, Word)> {
    let attach = command(alloc, ATTACH)?;
    let accepted = count(store);
    let word = answer(alloc, store, &attach);
    Some((accepted?, word))
}

/// The same of the disk after that stop.
fn answered(alloc: Global, byte: u8) -> Option<(u64, Word)> {
    match Store::open(alloc, stopped(alloc, byte)?) {
        Ok(mut store) => {
            let answered = again(alloc, &mut store);
            drop(store.into_disk());
            answered
        }
        Err((_, disk)) => {
            drop(disk);
            None
        }
    }
}

fn are_answered(alloc: Global) -> bool {
    answered(alloc, 0) == Some((1, Word::Ok))
        && answered(alloc, 1) == Some((2, Word::Kept))
        && answered(alloc, 77) == Some((1, Word::Ok))
}

#[test]
fn a_resend_is_new_where_it_was_lost(rt: HostRuntime) {
    assert!(rt; are_answered(rt.alloc()));
}
