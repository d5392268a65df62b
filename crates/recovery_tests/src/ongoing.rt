//! A checkpoint that is written between commits.

use crate::calls::{Call, NotingDisk};
use crate::made::{self, Given};
use crate::opens::{expiry, opened};
use crate::runs::{begin, commit_one, count, is_served, opens_to, stop};
use linked_list_allocator::LocalHeap;
use recovery::{Store, StoreFault};
use sector_disk::{Disk, Failing, FailingDisk, MemoryDisk};
use std::alloc::{Allocator, Global};

/// What a stop puts into sectors that are pending.
const BYTES: [u8; 3] = [0, 1, 255];

/// The rule first, and then an expiry: all of station 1.
fn given(sequence: u32) -> Given {
    if sequence == 1 {
        Given::Rule
    } else {
        Given::OwnExpiry(sequence)
    }
}

/// Commits the commands of these sequences one by one; returns how many were answered.
pub fn commit_from<D: Disk>(
    alloc: Global,
    store: &mut Store<Global, D>,
    first: u32,
    last: u32,
) -> u32 {
    for sequence in first..=last {
        if commit_one(alloc, store, given(sequence)) != Ok(true) {
            return sequence.saturating_sub(first);
        }
    }
    last.saturating_add(1).saturating_sub(first)
}

/// The same on a disk that is opened; and the disk.
pub fn run_from<D: Disk>(alloc: Global, disk: D, first: u32, last: u32) -> (u32, D) {
    match Store::open(alloc, disk) {
        Ok(mut store) => {
            let answered = commit_from(alloc, &mut store, first, last);
            (answered, store.into_disk())
        }
        Err((_, disk)) => (0, disk),
    }
}

/// The disk after so many commands, whose calls it has noted.
fn noted(alloc: Global, last: u32) -> Option<NotingDisk> {
    let disk = NotingDisk::new(alloc, made::formatted(alloc)?);
    let (answered, disk) = run_from(alloc, disk, 1, last);
    if answered == last { Some(disk) } else { None }
}

/// Whether these are the last calls of so many commands.
fn ends_with(alloc: Global, last: u32, calls: &[Call]) -> bool {
    match noted(alloc, last) {
        Some(disk) => disk.got_last(calls),
        None => false,
    }
}

// ---- its calls

/// The last record before half of the sectors are used.
const NINTH: [Call; 5] = [
    Call::Write(606),
    Call::Write(607),
    Call::Sync,
    Call::Write(605),
    Call::Sync,
];

/// The record, and then root 2 is read and the first gate of half B closed.
const TENTH: [Call; 8] = [
    Call::Write(608),
    Call::Write(609),
    Call::Sync,
    Call::Write(607),
    Call::Sync,
    Call::Read(2),
    Call::Write(628),
    Call::Sync,
];

/// The record in both halves, three rows, and root 2 is opened.
const ELEVENTH: [Call; 14] = [
    Call::Write(610),
    Call::Write(611),
    Call::Write(629),
    Call::Write(630),
    Call::Sync,
    Call::Write(609),
    Call::Write(628),
    Call::Sync,
    Call::Write(296),
    Call::Write(297),
    Call::Write(298),
    Call::Sync,
    Call::Write(2),
    Call::Sync,
];

/// The next record is one of half B alone.
const TWELFTH: [Call; 5] = [
    Call::Write(631),
    Call::Write(632),
    Call::Sync,
    Call::Write(630),
    Call::Sync,
];

#[test]
fn it_begins_where_half_of_the_sectors_are_used(rt: HostRuntime) {
    assert!(rt; ends_with(rt.alloc(), 9, &NINTH));
    assert!(rt; ends_with(rt.alloc(), 10, &TENTH));
}

#[test]
fn it_ends_with_the_last_row(rt: HostRuntime) {
    assert!(rt; ends_with(rt.alloc(), 11, &ELEVENTH));
    assert!(rt; ends_with(rt.alloc(), 12, &TWELFTH));
}

// ---- what it writes

/// The header: epoch 2, ten commands, a rule, and what is kept of a station.
const SECOND: [u8; 33] = [
    22, 0, 0, 0, 0, 0, 0, 0, 2, 0, 0, 0, 0, 0, 0, 0, 10, 0, 0, 0, 1, 0, 0, 0, 0, 0, 0, 0, 0, 0, 0,
    0, 1,
];

const RULE: [u8; 17] = [
    0x11, 0x18, 0x3a, 0x80, 0x0e, 0, 0, 0, 0, 1, 0, 0x63, 1, 0, 0, 0x0e, 0x10,
];

/// Station 1: sequence 10, number 10.
const SERVED: [u8; 15] = [0x14, 0, 1, 0, 0, 0, 10, 0, 0, 0, 0, 0, 0, 0, 10];

/// The record of the 11th command.
const ELEVEN: [u8; 25] = [
    0, 1, 0, 0, 0, 0, 0, 0, 0, 11, 0, 0, 0, 0x0b, 0, 1, 0, 0, 0, 11, 0, 0, 0, 0, 6,
];

/// Both halves have it, and slot B has the image of the ten before it.
const WRITTEN: [(u64, &[u8]); 10] = [
    (1, &[1]),
    (2, &[1]),
    (296, &SECOND),
    (297, &RULE),
    (298, &SERVED),
    (609, &[1]),
    (610, &ELEVEN),
    (628, &[1]),
    (629, &ELEVEN),
    (630, &[0]),
];

/// The disk after eleven commands.
fn after_eleven(alloc: Global) -> Option<MemoryDisk<Global>> {
    Some(noted(alloc, 11)?.into_inner())
}

fn is_switched(alloc: Global) -> Option<bool> {
    let (count, mut disk) = opens_to(alloc, after_eleven(alloc)?);
    Some(count == Some(11) && begin(&mut disk, &WRITTEN))
}

#[test]
fn both_halves_have_the_record(rt: HostRuntime) {
    assert!(rt; is_switched(rt.alloc()) == Some(true));
}

/// What the disk opens to where that record states the number 12 in half B.
fn misnumbered(alloc: Global) -> Option<Result<u64, StoreFault>> {
    let mut disk = after_eleven(alloc)?;
    let mut record = expiry(11);
    record[9] = 12;
    let is_put = disk.write(629, &made::sector(&record)).is_ok();
    let (answer, disk) = opened(alloc, disk);
    drop(disk);
    is_put.then_some(answer)
}

#[test]
fn its_records_follow_its_image(rt: HostRuntime) {
    assert!(rt; misnumbered(rt.alloc()) == Some(Err(StoreFault::Damaged(629))));
}

// ---- stops

/// Nine commands are kept. The next three are committed while this call of the disk fails, and then a stop leaves this byte in
/// each pending sector: whether the disk opens to those that were answered, or to one more; and whether all were.
fn is_stopped_well(alloc: Global, call: u64, byte: u8) -> Option<(bool, bool)> {
    let disk = noted(alloc, 9)?.into_inner();
    let disk = FailingDisk::new(disk, call, Failing::Always);
    let (answered, disk) = run_from(alloc, disk, 10, 12);
    let (count, disk) = opens_to(alloc, stop(alloc, disk.into_inner(), [byte; 512])?);
    drop(disk);
    let kept = u64::from(answered).saturating_add(9);
    let well = count == Some(kept) || count == Some(kept.saturating_add(1)) && answered < 3;
    Some((well, answered == 3))
}

/// How many calls failed, from the first one on, until all were answered; `None` if a stop left something else.
fn stops(alloc: Global, byte: u8) -> Option<u64> {
    for call in 1..100 {
        match is_stopped_well(alloc, call, byte) {
            Some((true, true)) => return Some(call - 1),
            Some((true, false)) => {}
            _ => return None,
        }
    }
    None
}

/// The opening makes 25 calls, and the commits 27.
#[test]
fn a_stop_leaves_what_was_answered_or_one_more(rt: HostRuntime) {
    for byte in BYTES {
        assert!(rt; stops(rt.alloc(), byte) == Some(52));
    }
}

// ---- in more than one commit

/// Commits so many rules one by one, and then makes a checkpoint at once, or not; whether all were answered.
fn commit_rules<D: Disk>(
    alloc: Global,
    store: &mut Store<Global, D>,
    last: u32,
    at_once: bool,
) -> bool {
    for sequence in 1..=last {
        if commit_one(alloc, store, Given::RuleFor(sequence)) != Ok(true) {
            return false;
        }
    }
    !at_once || store.checkpoint() == Ok(())
}

fn run_rules<D: Disk>(alloc: Global, disk: D, last: u32, at_once: bool) -> (bool, D) {
    match Store::open(alloc, disk) {
        Ok(mut store) => {
            let kept = commit_rules(alloc, &mut store, last, at_once);
            (kept, store.into_disk())
        }
        Err((_, disk)) => (false, disk),
    }
}

/// The disk after that, which has noted its calls.
fn with_rules(alloc: Global, last: u32, at_once: bool) -> Option<NotingDisk> {
    let disk = NotingDisk::new(alloc, made::formatted(alloc)?);
    let (kept, disk) = run_rules(alloc, disk, last, at_once);
    if kept { Some(disk) } else { None }
}

/// The record in both halves, and the first eight of twelve rows, which are pending.
const FIRST_EIGHT: [Call; 16] = [
    Call::Write(610),
    Call::Write(611),
    Call::Write(629),
    Call::Write(630),
    Call::Sync,
    Call::Write(609),
    Call::Write(628),
    Call::Sync,
    Call::Write(296),
    Call::Write(297),
    Call::Write(298),
    Call::Write(299),
    Call::Write(300),
    Call::Write(301),
    Call::Write(302),
    Call::Write(303),
];

/// The next record in both halves, the other four rows, and root 2 is opened.
const LAST_FOUR: [Call; 15] = [
    Call::Write(612),
    Call::Write(613),
    Call::Write(631),
    Call::Write(632),
    Call::Sync,
    Call::Write(611),
    Call::Write(630),
    Call::Sync,
    Call::Write(304),
    Call::Write(305),
    Call::Write(306),
    Call::Write(307),
    Call::Sync,
    Call::Write(2),
    Call::Sync,
];

fn are_written_apart(alloc: Global) -> Option<bool> {
    let first = with_rules(alloc, 11, false)?;
    let called = first.got_last(&FIRST_EIGHT);
    drop(first);
    let second = with_rules(alloc, 12, false)?;
    let called = called && second.got_last(&LAST_FOUR);
    let (count, disk) = opens_to(alloc, second);
    drop(disk);
    Some(called && count == Some(12))
}

#[test]
fn a_commit_writes_eight_rows_at_most(rt: HostRuntime) {
    assert!(rt; are_written_apart(rt.alloc()) == Some(true));
}

// ---- given up

/// The gate of the first record of half B is closed, and a whole image of 13 rows is written.
const AT_ONCE: [Call; 19] = [
    Call::Read(2),
    Call::Write(628),
    Call::Sync,
    Call::Write(296),
    Call::Write(297),
    Call::Write(298),
    Call::Write(299),
    Call::Write(300),
    Call::Write(301),
    Call::Write(302),
    Call::Write(303),
    Call::Write(304),
    Call::Write(305),
    Call::Write(306),
    Call::Write(307),
    Call::Write(308),
    Call::Sync,
    Call::Write(2),
    Call::Sync,
];

const GIVEN_UP: [(u64, &[u8]); 4] = [(609, &[1]), (610, &[0, 1]), (628, &[0]), (629, &[0, 1])];

fn is_given_up(alloc: Global) -> Option<bool> {
    let disk = with_rules(alloc, 11, true)?;
    let called = disk.got_last(&AT_ONCE);
    let (count, mut disk) = opens_to(alloc, disk);
    let written = begin(&mut disk, &GIVEN_UP);
    Some(called && count == Some(11) && written)
}

#[test]
fn a_checkpoint_gives_up_one_under_way(rt: HostRuntime) {
    assert!(rt; is_given_up(rt.alloc()) == Some(true));
}

const BEGUN: [Call; 4] = [Call::Sync, Call::Read(2), Call::Write(628), Call::Sync];

/// Whether the disk was opened with one under way, which is then forgotten: the 12th command begins another one.
fn is_forgotten(alloc: Global) -> Option<bool> {
    let disk = NotingDisk::new(alloc, with_rules(alloc, 11, false)?.into_inner());
    let (answered, disk) = run_from(alloc, disk, 12, 12);
    let called = disk.got_last(&BEGUN);
    let (count, disk) = opens_to(alloc, disk);
    drop(disk);
    Some(answered == 1 && called && count == Some(12))
}

#[test]
fn an_opening_forgets_one_under_way(rt: HostRuntime) {
    assert!(rt; is_forgotten(rt.alloc()) == Some(true));
}

// ---- without memory

/// Commits a command, with outcomes under this allocator; whether it was accepted.
fn is_kept_with<A: Allocator + Copy, D: Disk>(
    alloc: Global,
    store: &mut Store<A, D>,
    given: Given,
) -> bool {
    let Some(command) = made::command(alloc, given) else {
        return false;
    };
    let before = count(store);
    let is_kept = store.commit(alloc, &[&command]).is_ok();
    is_kept && count(store) != before
}

/// Commits the commands of these sequences one by one; returns how many were answered.
fn commit_with<A: Allocator + Copy, D: Disk>(
    alloc: Global,
    store: &mut Store<A, D>,
    first: u32,
    last: u32,
) -> u32 {
    for sequence in first..=last {
        if !is_kept_with(alloc, store, given(sequence)) {
            return sequence.saturating_sub(first);
        }
    }
    last.saturating_add(1).saturating_sub(first)
}

/// The pieces in which a heap is taken, the greatest first.
const PIECES: [usize; 17] = [
    65_536, 32_768, 16_384, 8_192, 4_096, 2_048, 1_024, 512, 256, 128, 64, 32, 16, 8, 4, 2, 1,
];

/// Takes all memory that a heap of less than 4 MiB has left; whether there was room to note what was taken.
fn take_rest<'a>(heap: &'a LocalHeap, rest: &mut Vec<Vec<u8, &'a LocalHeap>, Global>) -> bool {
    for size in PIECES {
        for _ in 0..64 {
            match Vec::with_capacity(heap, size) {
                Ok(taken) => {
                    if rest.push(taken).is_err() {
                        return false;
                    }
                }
                Err(_) => break,
            }
        }
    }
    true
}

/// Whether a commit of this command finds the store unready.
fn is_unready<A: Allocator + Copy, D: Disk>(
    alloc: Global,
    store: &mut Store<A, D>,
    given: Given,
) -> bool {
    let Some(command) = made::command(alloc, given) else {
        return false;
    };
    matches!(store.commit(alloc, &[&command]), Err(StoreFault::Unready))
}

/// The copy is refused at every commit: 19 commands are kept, the next finds the store unready, and a desk keeps it.
fn are_kept_without_memory<A: Allocator + Copy, D: Disk>(
    alloc: Global,
    store: &mut Store<A, D>,
) -> bool {
    commit_with(alloc, store, 2, 19) == 18
        && is_unready(alloc, store, given(20))
        && count(store) == Some(19)
        && is_served(alloc, store, given(20), 20)
}

/// The same in a heap that is full after the rule.
fn are_kept_in<'a, D: Disk>(
    alloc: Global,
    heap: &'a LocalHeap,
    store: &mut Store<&'a LocalHeap, D>,
) -> bool {
    let first = commit_with(alloc, store, 1, 1);
    let mut rest = Vec::new(alloc);
    let is_full = take_rest(heap, &mut rest);
    let kept = is_full && are_kept_without_memory(alloc, store);
    drop(rest);
    first == 1 && kept
}

fn run_full<'a>(alloc: Global, heap: &'a LocalHeap, disk: NotingDisk) -> (bool, NotingDisk) {
    match Store::open(heap, disk) {
        Ok(mut store) => {
            let kept = are_kept_in(alloc, heap, &mut store);
            (kept, store.into_disk())
        }
        Err((_, disk)) => (false, disk),
    }
}

/// After the gate of the 19th record come the calls of a whole checkpoint and of the 20th.
const UNREADY: [Call; 16] = [
    Call::Write(625),
    Call::Sync,
    Call::Read(2),
    Call::Write(628),
    Call::Sync,
    Call::Write(296),
    Call::Write(297),
    Call::Write(298),
    Call::Sync,
    Call::Write(2),
    Call::Sync,
    Call::Write(629),
    Call::Write(630),
    Call::Sync,
    Call::Write(628),
    Call::Sync,
];

fn is_refused_in_a_full_heap(alloc: Global) -> Option<bool> {
    let heap = LocalHeap::new(alloc, 60_000).ok()?;
    let disk = NotingDisk::new(alloc, made::formatted(alloc)?);
    let (kept, disk) = run_full(alloc, &heap, disk);
    let called = disk.got_last(&UNREADY);
    let (count, disk) = opens_to(alloc, disk);
    drop(disk);
    Some(kept && called && count == Some(20) && heap.used() == 0)
}

#[test]
fn without_a_copy_the_half_fills_up(rt: HostRuntime) {
    assert!(rt; is_refused_in_a_full_heap(rt.alloc()) == Some(true));
}

/// Eleven commits, whose store is in this heap; returns how many were answered, and the disk.
fn run_in<'a>(
    alloc: Global,
    heap: &'a LocalHeap,
    disk: MemoryDisk<Global>,
) -> (u32, MemoryDisk<Global>) {
    match Store::open(heap, disk) {
        Ok(mut store) => {
            let answered = commit_with(alloc, &mut store, 1, 11);
            (answered, store.into_disk())
        }
        Err((_, disk)) => (0, disk),
    }
}

/// Whether a checkpoint ended beside the commits, in a heap of this size; `None` if one of them was not answered, the disk is
/// for other commands, or not all memory comes back.
fn ended_in(alloc: Global, size: usize) -> Option<bool> {
    let heap = LocalHeap::new(alloc, size).ok()?;
    let (answered, disk) = run_in(alloc, &heap, made::formatted(alloc)?);
    let (count, mut disk) = opens_to(alloc, disk);
    let ended = begin(&mut disk, &[(2, &[1])]);
    drop(disk);
    (answered == 11 && count == Some(11) && heap.used() == 0).then_some(ended)
}

/// In how many heaps of rising size none could begin, up to the first in which one ended. The journals of both halves have a buffer
/// of 18,944 bytes each.
fn refused(alloc: Global) -> Option<usize> {
    for k in 0..400 {
        match ended_in(alloc, 36_800 + 16 * k) {
            Some(false) => {}
            Some(true) => return Some(k),
            None => return None,
        }
    }
    None
}

#[test]
fn each_growth_for_it_is_refused_in_turn(rt: HostRuntime) {
    assert!(rt; refused(rt.alloc()).is_some_and(|heaps| heaps > 20));
}
