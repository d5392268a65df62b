//! Batches of commands that are kept on a disk, and checkpoints.

use crate::made::{self, ATTACH, Given};
use crate::opens::{disk, with_expiries};
use crate::runs::{
    begin, commit_batch, commit_each, commit_one, count, is_pending, opens_to, run, run_as_one,
    serve, stop,
};
use centre_core::{Refusal, Reply};
use desk::{Desk, Outage};
use recovery::{Outcome, Store, StoreFault};
use sector_disk::{Disk, Failing, FailingDisk, MemoryDisk};
use std::alloc::Global;

/// What a stop puts into sectors that are pending.
const BYTES: [u8; 3] = [0, 1, 77];

// ---- one after the other

/// The record of the rule, alone, number 1.
const RULE_ALONE: [u8; 14] = [0, 1, 0, 0, 0, 0, 0, 0, 0, 1, 0, 0, 0, 0x1b];

/// The record of an attach, number 2.
const ATTACH_ALONE: [u8; 14] = [0, 1, 0, 0, 0, 0, 0, 0, 0, 2, 0, 0, 0, 0x17];

const BOTH: [Given; 2] = [Given::Rule, ATTACH];

const RECORDED: [(u64, &[u8]); 5] = [
    (589, &[1]),
    (590, &RULE_ALONE),
    (591, &[1]),
    (592, &ATTACH_ALONE),
    (593, &[0]),
];

fn are_recorded(alloc: Global) -> Option<bool> {
    let (answered, disk) = run(alloc, made::formatted(alloc)?, &BOTH);
    let (count, mut disk) = opens_to(alloc, disk);
    let written = begin(&mut disk, &RECORDED);
    Some(answered == 2 && count == Some(2) && written)
}

#[test]
fn commands_are_recorded_one_after_the_other(rt: HostRuntime) {
    assert!(rt; are_recorded(rt.alloc()) == Some(true));
}

/// A disk on which a rule is kept.
pub fn with_rule(alloc: Global) -> Option<MemoryDisk<Global>> {
    let (_, disk) = run(alloc, made::formatted(alloc)?, &[Given::Rule]);
    Some(disk)
}

/// Whether this gate is all that is pending; how many commands the disk opens to after a stop that leaves this byte in each
/// pending sector; and the disk.
fn after_stop(
    alloc: Global,
    disk: MemoryDisk<Global>,
    gate: u64,
    byte: u8,
) -> Option<(bool, Option<u64>, MemoryDisk<Global>)> {
    let pending = is_pending(alloc, &disk, gate)?;
    let (count, disk) = opens_to(alloc, stop(alloc, disk, [byte; 512])?);
    Some((pending, count, disk))
}

/// After the rule an attach is committed while this call of the disk fails; then a stop leaves this byte in each pending
/// sector. Whether the attach is there where it was answered, or where its gate was pending and its byte is 1.
fn is_stopped_well(alloc: Global, call: u64, byte: u8) -> Option<bool> {
    let disk = FailingDisk::new(with_rule(alloc)?, call, Failing::Always);
    let (answered, disk) = run(alloc, disk, &[ATTACH]);
    let (gate, count, disk) = after_stop(alloc, disk.into_inner(), 591, byte)?;
    drop(disk);
    let whole = answered == 1 || gate && byte == 1;
    Some(count == Some(if whole { 2 } else { 1 }))
}

/// The opening makes nine calls, the commit the next five, of which the last one syncs the gate.
fn are_stopped_well(alloc: Global, byte: u8) -> bool {
    for call in 1..=18 {
        if is_stopped_well(alloc, call, byte) != Some(true) {
            return false;
        }
    }
    true
}

#[test]
fn a_command_counts_once_its_gate_is_open(rt: HostRuntime) {
    for byte in BYTES {
        assert!(rt; are_stopped_well(rt.alloc(), byte));
    }
}

// ---- several in one record

/// The head of a record of 27, 23 and 11 bytes, from number 1 on.
const THREE: [u8; 14] = [0, 3, 0, 0, 0, 0, 0, 0, 0, 1, 0, 0, 0, 0x3d];

const GIVEN_THREE: [Given; 3] = [Given::Rule, ATTACH, Given::Expiry(1)];

const RECORDED_THREE: [(u64, &[u8]); 3] = [(589, &[1]), (590, &THREE), (591, &[0])];

/// Three commands are committed at once while this call of the disk fails; then a stop as above. Whether all of them are there
/// where they were answered, in one record, or where its gate was pending and its byte is 1, and else none.
fn are_three_stopped_well(alloc: Global, call: u64, byte: u8) -> Option<bool> {
    let disk = FailingDisk::new(made::formatted(alloc)?, call, Failing::Always);
    let (answered, disk) = run_as_one(alloc, disk, &GIVEN_THREE);
    let (gate, count, mut disk) = after_stop(alloc, disk.into_inner(), 589, byte)?;
    let written = !answered || begin(&mut disk, &RECORDED_THREE);
    let whole = answered || gate && byte == 1;
    Some(written && count == Some(if whole { 3 } else { 0 }))
}

fn are_stopped_as_one(alloc: Global, byte: u8) -> bool {
    for call in 1..=18 {
        if are_three_stopped_well(alloc, call, byte) != Some(true) {
            return false;
        }
    }
    true
}

#[test]
fn three_commands_count_together_or_not_at_all(rt: HostRuntime) {
    for byte in BYTES {
        assert!(rt; are_stopped_as_one(rt.alloc(), byte));
    }
}

/// An empty list changes nothing, and writes nothing, also where the half is full.
fn is_nothing_written<D: Disk>(alloc: Global, store: &mut Store<Global, D>) -> bool {
    let before = count(store);
    matches!(store.commit::<Global, Global>(alloc, &[]), Ok(outcomes) if outcomes.is_empty())
        && count(store) == before
}

// ---- a full half

/// A disk whose half A is full: the records of a rule and of 18 expiries, all of station 1.
fn filled(alloc: Global) -> Option<MemoryDisk<Global>> {
    with_expiries(alloc, 18, &[])
}

/// The header of the other slot: epoch 2, 19 commands, one rule, and what is kept of a station.
const SECOND: [u8; 33] = [
    22, 0, 0, 0, 0, 0, 0, 0, 2, 0, 0, 0, 0, 0, 0, 0, 19, 0, 0, 0, 1, 0, 0, 0, 0, 0, 0, 0, 0, 0, 0,
    0, 1,
];

/// The record of an expiry, number 20.
const EXPIRY_ALONE: [u8; 14] = [0, 1, 0, 0, 0, 0, 0, 0, 0, 20, 0, 0, 0, 0x0b];

/// The next command.
const NEXT: Given = Given::OwnExpiry(20);

/// Whether the next command finds the store unready, and changes nothing; and after a checkpoint it is kept.
fn is_unready<D: Disk>(alloc: Global, store: &mut Store<Global, D>) -> bool {
    commit_one(alloc, store, NEXT) == Err(StoreFault::Unready)
        && count(store) == Some(19)
        && is_nothing_written(alloc, store)
        && store.checkpoint() == Ok(())
        && commit_one(alloc, store, NEXT) == Ok(true)
}

fn made_ready<D: Disk>(alloc: Global, disk: D) -> (bool, D) {
    match Store::open(alloc, disk) {
        Ok(mut store) => {
            let unready = is_unready(alloc, &mut store);
            (unready, store.into_disk())
        }
        Err((_, disk)) => (false, disk),
    }
}

/// The half is full.
const FULL: [(u64, &[u8]); 3] = [(2, &[0]), (625, &[1]), (627, &[0])];

/// Root 2 is opened, and the record of the next command is the first of half B.
const MOVED: [(u64, &[u8]); 5] = [
    (2, &[1]),
    (296, &SECOND),
    (628, &[1]),
    (629, &EXPIRY_ALONE),
    (630, &[0]),
];

/// The next command on a disk whose half is full waits for a checkpoint.
pub fn is_checkpointed(alloc: Global, disk: MemoryDisk<Global>) -> bool {
    let mut disk = disk;
    let full = begin(&mut disk, &FULL);
    let (unready, disk) = made_ready(alloc, disk);
    let (count, mut disk) = opens_to(alloc, disk);
    full && unready && count == Some(20) && begin(&mut disk, &MOVED)
}

fn waits_for_a_checkpoint(alloc: Global) -> Option<bool> {
    Some(is_checkpointed(alloc, filled(alloc)?))
}

#[test]
fn a_full_half_waits_for_a_checkpoint(rt: HostRuntime) {
    assert!(rt; waits_for_a_checkpoint(rt.alloc()) == Some(true));
}

const MOVED_RECORD: [(u64, &[u8]); 1] = [(629, &EXPIRY_ALONE)];

/// A desk makes that checkpoint: the same while this call of the disk fails, and a stop after it. Returns whether it was answered, and whether the disk
/// opens to 20 commands if it was or if its gate is open, and else to 19.
fn is_checkpoint_stopped(alloc: Global, call: u64, byte: u8) -> Option<(bool, bool)> {
    let disk = FailingDisk::new(filled(alloc)?, call, Failing::Always);
    let (answered, disk) = serve(alloc, disk, NEXT, 20);
    let (gate, count, mut disk) = after_stop(alloc, disk.into_inner(), 628, byte)?;
    let last = gate && begin(&mut disk, &MOVED_RECORD) && byte == 1;
    let whole = answered || last;
    Some((answered, count == Some(if whole { 20 } else { 19 })))
}

/// How many calls failed, from the first one on, until the command was answered; `None` if a stop left something else.
fn checkpoint_stops(alloc: Global, byte: u8) -> Option<u64> {
    for call in 1..200 {
        match is_checkpoint_stopped(alloc, call, byte) {
            Some((true, true)) => return Some(call - 1),
            Some((false, true)) => {}
            _ => return None,
        }
    }
    None
}

#[test]
fn a_stop_in_a_checkpoint_leaves_19_commands_or_20(rt: HostRuntime) {
    for byte in BYTES {
        assert!(rt; checkpoint_stops(rt.alloc(), byte).is_some_and(|calls| calls > 50));
    }
}

// ---- a failing disk

/// A call of a disk that fails, how, and what a stop then leaves in each pending sector. Then 60 commits more follow, or none.
#[derive(Clone, Copy)]
struct Stop {
    failing: Failing,
    bytes: [u8; 512],
    is_long: bool,
}

/// Two expiries that are committed at once.
const TWO: [Given; 2] = [Given::Expiry(2), Given::Expiry(3)];

/// A rule, an attach and an expiry one by one, a checkpoint, and then two expiries at once. Returns how many commands were
/// acknowledged, up to the first fault; `None` if a call after a fault answers something else than `Broken`.
fn script<D: Disk>(alloc: Global, store: &mut Store<Global, D>) -> Option<u64> {
    let singly = commit_each(alloc, store, &GIVEN_THREE);
    if singly == 3 && store.checkpoint() == Ok(()) && commit_batch(alloc, store, &TWO) == Ok(true) {
        return Some(5);
    }
    is_broken(alloc, store, Given::Expiry(2)).then_some(singly)
}

fn is_broken<D: Disk>(alloc: Global, store: &mut Store<Global, D>, given: Given) -> bool {
    store.register().is_none()
        && commit_one(alloc, store, given) == Err(StoreFault::Broken)
        && store.checkpoint() == Err(StoreFault::Broken)
        && matches!(
            store.commit::<Global, Global>(alloc, &[]),
            Err(StoreFault::Broken)
        )
}

/// Two checkpoints begin and end between the commits of the expiries with these sequences; 5 commands are kept before.
fn long_script<D: Disk>(alloc: Global, store: &mut Store<Global, D>) -> Option<u64> {
    for sequence in 4..=63 {
        let next = Given::Expiry(sequence);
        if commit_one(alloc, store, next) != Ok(true) {
            let kept = u64::from(sequence).saturating_add(1);
            return is_broken(alloc, store, next).then_some(kept);
        }
    }
    Some(65)
}

/// The script, and the other after it.
fn scripts<D: Disk>(alloc: Global, store: &mut Store<Global, D>, is_long: bool) -> Option<u64> {
    let short = script(alloc, store);
    if is_long && short == Some(5) {
        long_script(alloc, store)
    } else {
        short
    }
}

/// Runs the script on a disk. Returns as it does; none was acknowledged where the disk does not open.
fn run_script<D: Disk>(alloc: Global, disk: D, is_long: bool) -> (Option<u64>, D) {
    match Store::open(alloc, disk) {
        Ok(mut store) => {
            let acknowledged = scripts(alloc, &mut store, is_long);
            (acknowledged, store.into_disk())
        }
        Err((_, disk)) => (Some(0), disk),
    }
}

/// Whether so many commands are those that were acknowledged, or these and those of the commit that failed.
fn is_prefix(count: Option<u64>, acknowledged: u64) -> bool {
    let next = if acknowledged == 3 { 2 } else { 1 };
    count == Some(acknowledged) || count == Some(acknowledged.saturating_add(next))
}

/// How many commands were acknowledged where this call has failed, if they are there after a stop.
fn stored(alloc: Global, call: u64, how: &Stop) -> Option<u64> {
    let disk = FailingDisk::new(made::formatted(alloc)?, call, how.failing);
    let (acknowledged, disk) = run_script(alloc, disk, how.is_long);
    let (count, disk) = opens_to(alloc, stop(alloc, disk.into_inner(), how.bytes)?);
    drop(disk);
    match acknowledged {
        Some(commands) if is_prefix(count, commands) => Some(commands),
        _ => None,
    }
}

/// How many calls failed, from the first one on, until none did; `None` if something was lost.
fn script_stops(alloc: Global, how: &Stop) -> Option<u64> {
    let (calls, all) = if how.is_long { (1_000, 65) } else { (100, 5) };
    for call in 1..calls {
        let commands = stored(alloc, call, how)?;
        if commands == all {
            return Some(call - 1);
        }
    }
    None
}

fn short_stops(alloc: Global, failing: Failing, bytes: [u8; 512]) -> Option<u64> {
    let how = Stop {
        failing,
        bytes,
        is_long: false,
    };
    script_stops(alloc, &how)
}

/// However it fails, and whatever a stop leaves, so many calls failed.
fn are_there_after_a_stop(alloc: Global) -> bool {
    let zeros = short_stops(alloc, Failing::Always, [0; 512]);
    zeros.is_some_and(|calls| calls > 30)
        && short_stops(alloc, Failing::Always, [255; 512]) == zeros
        && short_stops(alloc, Failing::Always, made::sector(&[1])) == zeros
        && short_stops(alloc, Failing::Once, [0; 512]) == zeros
}

#[test]
fn what_was_acknowledged_is_there_after_a_stop(rt: HostRuntime) {
    assert!(rt; are_there_after_a_stop(rt.alloc()));
}

// ---- the same with 60 commits after it

/// Whether all 428 calls that the script makes may fail.
fn may_all_fail(alloc: Global, failing: Failing, bytes: [u8; 512]) -> bool {
    let how = Stop {
        failing,
        bytes,
        is_long: true,
    };
    script_stops(alloc, &how) == Some(428)
}

#[test]
fn zeros_leave_what_was_acknowledged(rt: HostRuntime) {
    assert!(rt; may_all_fail(rt.alloc(), Failing::Always, [0; 512]));
}

#[test]
fn bytes_of_255_leave_what_was_acknowledged(rt: HostRuntime) {
    assert!(rt; may_all_fail(rt.alloc(), Failing::Always, [255; 512]));
}

#[test]
fn open_gates_leave_what_was_acknowledged(rt: HostRuntime) {
    assert!(rt; may_all_fail(rt.alloc(), Failing::Always, made::sector(&[1])));
}

#[test]
fn a_call_that_fails_once_leaves_what_was_acknowledged(rt: HostRuntime) {
    assert!(rt; may_all_fail(rt.alloc(), Failing::Once, [0; 512]));
}

// ---- numbers that end

/// A header of epoch 1 and 2 to the 62nd commands.
const LAST_COMMAND: [u8; 17] = [22, 0, 0, 0, 0, 0, 0, 0, 1, 0x40, 0, 0, 0, 0, 0, 0, 0];

/// A header of the last epoch, 2 to the 62nd.
pub const LAST_EPOCH: [u8; 9] = [22, 0x40, 0, 0, 0, 0, 0, 0, 0];

/// A disk ready for a register with this header.
pub fn headed(alloc: Global, header: &[u8]) -> Option<MemoryDisk<Global>> {
    disk(alloc, &[(3, header)])
}

fn are_numbers_used_up<D: Disk>(alloc: Global, store: &mut Store<Global, D>) -> bool {
    let Some(expiry) = made::command(alloc, Given::Expiry(1)) else {
        return false;
    };
    match store.commit(alloc, &[&expiry]) {
        Ok(outcomes) => matches!(
            outcomes.first(),
            Some(Outcome::Replied(Reply::Refused(Refusal::NumbersUsedUp)))
        ),
        Err(_) => false,
    }
}

fn ends_numbers<D: Disk>(alloc: Global, disk: D) -> (bool, D) {
    match Store::open(alloc, disk) {
        Ok(mut store) => {
            let used_up = are_numbers_used_up(alloc, &mut store);
            (used_up, store.into_disk())
        }
        Err((_, disk)) => (false, disk),
    }
}

/// What is refused is not written.
fn is_refused_without_numbers(alloc: Global) -> Option<bool> {
    let (used_up, disk) = ends_numbers(alloc, headed(alloc, &LAST_COMMAND)?);
    let pending = disk.pending(alloc).ok()?;
    Some(used_up && pending.is_empty())
}

#[test]
fn numbers_are_used_up(rt: HostRuntime) {
    assert!(rt; is_refused_without_numbers(rt.alloc()) == Some(true));
}

/// The outage word that a desk answers in place of a reply.
fn word<T: Desk<Global>>(alloc: Global, desk: &mut T, given: Given) -> Option<Outage> {
    let command = made::command(alloc, given)?;
    match desk.apply(alloc, &command) {
        Ok(_) => None,
        Err(word) => Some(word),
    }
}

/// Commits 19 expiries, one by one.
fn fill<D: Disk>(alloc: Global, store: &mut Store<Global, D>) -> bool {
    for sequence in 1..=19 {
        if commit_one(alloc, store, Given::Expiry(sequence)) != Ok(true) {
            return false;
        }
    }
    true
}

/// Fills the half. Then no checkpoint can be made any more, neither between commits nor at once, and nothing is changed.
fn are_epochs_used_up<D: Disk>(alloc: Global, store: &mut Store<Global, D>) -> bool {
    let next = Given::Expiry(20);
    fill(alloc, store)
        && commit_one(alloc, store, next) == Err(StoreFault::Unready)
        && store.checkpoint() == Err(StoreFault::EpochsUsedUp)
        && word(alloc, store, next) == Some(Outage::Epochs)
        && count(store) == Some(19)
}

fn is_refused_without_epochs(alloc: Global) -> Option<bool> {
    match Store::open(alloc, headed(alloc, &LAST_EPOCH)?) {
        Ok(mut store) => {
            let used_up = are_epochs_used_up(alloc, &mut store);
            drop(store.into_disk());
            Some(used_up)
        }
        Err(_) => None,
    }
}

#[test]
fn epochs_are_used_up(rt: HostRuntime) {
    assert!(rt; is_refused_without_epochs(rt.alloc()) == Some(true));
}
