//! Disks that are opened: what is on them is put there by hand.

use crate::made::{formatted, sector};
use linked_list_allocator::LocalHeap;
use recovery::{Store, StoreFault};
use sector_disk::{Disk, Failing, FailingDisk, MemoryDisk};
use std::alloc::{Allocator, Global};

/// TETRALOC, layout 1, 16 rules, 16 radios, 256 items, 4 stations, 39 sectors a half.
const LABEL: [u8; 30] = [
    0x54, 0x45, 0x54, 0x52, 0x41, 0x4c, 0x4f, 0x43, 0, 1, 0, 0, 0, 0x10, 0, 0, 0, 0x10, 0, 0, 1, 0,
    0, 0, 0, 4, 0, 0, 0, 0x27,
];

/// A header of layout 1, of epoch 1.
pub const PLAIN_FIRST: [u8; 9] = [0x10, 0, 0, 0, 0, 0, 0, 0, 1];

/// Headers of epochs 1 and 2.
pub const FIRST: [u8; 9] = [0x16, 0, 0, 0, 0, 0, 0, 0, 1];

const SECOND: [u8; 9] = [0x16, 0, 0, 0, 0, 0, 0, 0, 2];

/// A header of epoch 2 with a rule, and the rule.
pub const WITH_RULE: [u8; 33] = [
    0x16, 0, 0, 0, 0, 0, 0, 0, 2, 0, 0, 0, 0, 0, 0, 0, 1, 0, 0, 0, 1, 0, 0, 0, 0, 0, 0, 0, 0, 0, 0,
    0, 0,
];

pub const RULE: [u8; 17] = [
    0x11, 0x18, 0x3a, 0x80, 0x0e, 0, 0, 0, 0, 1, 0, 0x63, 1, 0, 0, 0x0e, 0x10,
];

/// A record of a rule, number 1, sequence 1 of station 1.
pub const SET_RULE: [u8; 41] = [
    0, 1, 0, 0, 0, 0, 0, 0, 0, 1, 0, 0, 0, 0x1b, 0, 1, 0, 0, 0, 1, 0, 0, 0, 0, 1, 0x18, 0x3a, 0x80,
    0x0e, 0, 0, 0, 0, 1, 0, 0x63, 1, 0, 0, 0x0e, 0x10,
];

/// The same command again, number 2.
const SET_RULE_AGAIN: [u8; 41] = [
    0, 1, 0, 0, 0, 0, 0, 0, 0, 2, 0, 0, 0, 0x1b, 0, 1, 0, 0, 0, 1, 0, 0, 0, 0, 1, 0x18, 0x3a, 0x80,
    0x0e, 0, 0, 0, 0, 1, 0, 0x63, 1, 0, 0, 0x0e, 0x10,
];

/// A record of an expiry, number 1, sequence 1 of station 5, of which there is none.
pub const FROM_STATION_5: [u8; 25] = [
    0, 1, 0, 0, 0, 0, 0, 0, 0, 1, 0, 0, 0, 0x0b, 0, 5, 0, 0, 0, 1, 0, 0, 0, 0, 6,
];

/// A gate that is open.
pub const OPEN: [u8; 1] = [1];

/// Puts these bytes and zeros into these sectors.
pub fn put<D: Disk>(disk: &mut D, sectors: &[(u64, &[u8])]) -> bool {
    for (at, prefix) in sectors {
        if disk.write(*at, &sector(prefix)).is_err() {
            return false;
        }
    }
    true
}

/// The worked disk, formatted, with these sectors written to it.
pub fn disk(alloc: Global, sectors: &[(u64, &[u8])]) -> Option<MemoryDisk<Global>> {
    let mut disk = formatted(alloc)?;
    let is_put = put(&mut disk, sectors);
    if is_put { Some(disk) } else { None }
}

/// How many commands the register of the disk has accepted, or why it does not open; and the disk.
pub fn opened<A: Allocator + Copy, D: Disk>(alloc: A, disk: D) -> (Result<u64, StoreFault>, D) {
    match Store::open(alloc, disk) {
        Ok(store) => (counted(&store), store.into_disk()),
        Err((fault, disk)) => (Err(fault), disk),
    }
}

fn counted<A: Allocator + Copy, D: Disk>(store: &Store<A, D>) -> Result<u64, StoreFault> {
    match store.register() {
        Some(register) => Ok(register.count()),
        None => Err(StoreFault::Broken),
    }
}

/// The same of the worked disk with these sectors; `None` if it could not be made.
fn with(alloc: Global, sectors: &[(u64, &[u8])]) -> Option<Result<u64, StoreFault>> {
    let (answer, disk) = opened(alloc, disk(alloc, sectors)?);
    drop(disk);
    Some(answer)
}

/// What sectors of the worked disk begin with, and what it then opens to.
pub type Row = (&'static [(u64, &'static [u8])], Result<u64, StoreFault>);

/// The first of these rows whose disk opens to something else.
pub fn first_wrong(alloc: Global, rows: &[Row]) -> Option<usize> {
    for k in 0..rows.len() {
        let (sectors, want) = rows[k];
        if with(alloc, sectors) != Some(want) {
            return Some(k);
        }
    }
    None
}

#[test]
fn a_disk_made_ready_opens_to_an_empty_register(rt: HostRuntime) {
    assert!(rt; with(rt.alloc(), &[]) == Some(Ok(0)));
}

/// What the worked disk opens to with this byte at a place in its label.
fn labelled(alloc: Global, at: usize, byte: u8) -> Option<Result<u64, StoreFault>> {
    let mut label = sector(&LABEL);
    if let Some(place) = label.get_mut(at) {
        *place = byte;
    }
    with(alloc, &[(0, &label)])
}

/// A place, a byte, and what the disk then opens to.
type LabelRow = (usize, u8, Result<u64, StoreFault>);

/// The first of these rows whose disk opens to something else.
fn first_wrong_label(alloc: Global, rows: &[LabelRow]) -> Option<usize> {
    for k in 0..rows.len() {
        let (at, byte, want) = rows[k];
        if labelled(alloc, at, byte) != Some(want) {
            return Some(k);
        }
    }
    None
}

const NO_LABEL: [Row; 1] = [(&[(0, &[])], Err(StoreFault::Unformatted))];

const NO_NAME: [LabelRow; 1] = [(7, 0x44, Err(StoreFault::Unformatted))];

#[test]
fn a_disk_without_the_name_is_unformatted(rt: HostRuntime) {
    assert!(rt; first_wrong(rt.alloc(), &NO_LABEL).is_none());
    assert!(rt; first_wrong_label(rt.alloc(), &NO_NAME).is_none());
}

const LABELS: [LabelRow; 5] = [
    (9, 9, Err(StoreFault::BadGeometry)),
    (13, 0, Err(StoreFault::BadGeometry)),
    (25, 65, Err(StoreFault::BadGeometry)),
    (29, 37, Err(StoreFault::BadGeometry)),
    (29, 38, Ok(0)),
];

#[test]
fn a_label_is_of_layout_1_and_in_its_ranges(rt: HostRuntime) {
    assert!(rt; first_wrong_label(rt.alloc(), &LABELS).is_none());
}

/// What a disk of so many sectors opens to that has nothing but the label, where it has a sector.
fn of_size(alloc: Global, sectors: usize) -> Option<Result<u64, StoreFault>> {
    let mut disk = MemoryDisk::new(alloc, sectors, 99).ok()?;
    let _put = put(&mut disk, &[(0, &LABEL)]);
    let (answer, disk) = opened(alloc, disk);
    drop(disk);
    Some(answer)
}

fn are_too_small(alloc: Global) -> bool {
    of_size(alloc, 0) == Some(Err(StoreFault::Unformatted))
        && of_size(alloc, 666) == Some(Err(StoreFault::BadGeometry))
        && of_size(alloc, 667) == Some(Err(StoreFault::Damaged(1)))
}

#[test]
fn a_disk_of_666_sectors_is_too_small(rt: HostRuntime) {
    assert!(rt; are_too_small(rt.alloc()));
}

const ROOTS: [Row; 2] = [
    (&[(1, &[77])], Err(StoreFault::Damaged(1))),
    (&[(1, &[1, 255])], Ok(0)),
];

#[test]
fn a_root_is_open_by_its_first_byte(rt: HostRuntime) {
    assert!(rt; first_wrong(rt.alloc(), &ROOTS).is_none());
}

const HEADERS: [Row; 4] = [
    (&[(3, &[])], Err(StoreFault::Damaged(3))),
    (&[(3, &[]), (2, &OPEN)], Err(StoreFault::Damaged(3))),
    (&[(2, &OPEN)], Err(StoreFault::Damaged(296))),
    (&[(2, &OPEN), (296, &FIRST)], Err(StoreFault::Damaged(2))),
];

#[test]
fn an_open_side_has_a_header(rt: HostRuntime) {
    assert!(rt; first_wrong(rt.alloc(), &HEADERS).is_none());
}

const EPOCHS: [Row; 3] = [
    (&[(2, &OPEN), (296, &WITH_RULE), (297, &RULE)], Ok(1)),
    (
        &[(2, &OPEN), (296, &FIRST), (3, &WITH_RULE), (4, &RULE)],
        Ok(1),
    ),
    (&[(2, &OPEN), (296, &SECOND)], Ok(0)),
];

#[test]
fn the_side_of_the_greater_epoch_counts(rt: HostRuntime) {
    assert!(rt; first_wrong(rt.alloc(), &EPOCHS).is_none());
}

const BAD_ROWS: [Row; 2] = [
    (&[(3, &WITH_RULE)], Err(StoreFault::Damaged(4))),
    (
        &[(2, &OPEN), (296, &WITH_RULE)],
        Err(StoreFault::Damaged(297)),
    ),
];

#[test]
fn the_first_bad_row_is_stated(rt: HostRuntime) {
    assert!(rt; first_wrong(rt.alloc(), &BAD_ROWS).is_none());
}

const GATES: [Row; 3] = [
    (&[(589, &OPEN), (590, &SET_RULE)], Ok(1)),
    (&[(589, &[77]), (590, &SET_RULE)], Ok(0)),
    (&[(589, &OPEN), (590, &[])], Err(StoreFault::Damaged(590))),
];

#[test]
fn records_are_read_after_open_gates(rt: HostRuntime) {
    assert!(rt; first_wrong(rt.alloc(), &GATES).is_none());
}

/// The last one: all records are judged before a command is tried.
const REFUSED: [Row; 3] = [
    (
        &[
            (589, &OPEN),
            (590, &SET_RULE),
            (591, &OPEN),
            (592, &SET_RULE_AGAIN),
        ],
        Err(StoreFault::Damaged(592)),
    ),
    (
        &[(589, &OPEN), (590, &FROM_STATION_5)],
        Err(StoreFault::Damaged(590)),
    ),
    (
        &[
            (589, &OPEN),
            (590, &FROM_STATION_5),
            (591, &OPEN),
            (592, &[]),
        ],
        Err(StoreFault::Damaged(592)),
    ),
];

#[test]
fn each_command_has_to_be_accepted(rt: HostRuntime) {
    assert!(rt; first_wrong(rt.alloc(), &REFUSED).is_none());
}

/// A record of an expiry of station 1 with this sequence, which is its number too.
pub fn expiry(sequence: u8) -> [u8; 25] {
    [
        0, 1, 0, 0, 0, 0, 0, 0, 0, sequence, 0, 0, 0, 0x0b, 0, 1, 0, 0, 0, sequence, 0, 0, 0, 0, 6,
    ]
}

/// Puts so many expiries from the gate 591 on, two sectors each, and opens the gates.
pub fn put_expiries<D: Disk>(disk: &mut D, count: u8) -> bool {
    for k in 0..count {
        let gate = 591 + 2 * u64::from(k);
        if !put(
            disk,
            &[(gate, &OPEN), (gate + 1, &expiry(k.saturating_add(2)))],
        ) {
            return false;
        }
    }
    true
}

/// A disk with a rule and so many expiries, and these sectors.
pub fn with_expiries(
    alloc: Global,
    count: u8,
    sectors: &[(u64, &[u8])],
) -> Option<MemoryDisk<Global>> {
    let mut disk = disk(alloc, &[(589, &OPEN), (590, &SET_RULE)])?;
    let is_put = put_expiries(&mut disk, count) && put(&mut disk, sectors) && disk.sync().is_ok();
    if is_put { Some(disk) } else { None }
}

/// What a half opens to that a rule and so many expiries are in, and these sectors.
pub fn after(
    alloc: Global,
    count: u8,
    sectors: &[(u64, &[u8])],
) -> Option<Result<u64, StoreFault>> {
    let (answer, disk) = opened(alloc, with_expiries(alloc, count, sectors)?);
    drop(disk);
    Some(answer)
}

/// Eighteen expiries fill the half up to its last sector, the gate 627, which has a byte of its own.
fn is_filled(alloc: Global) -> bool {
    after(alloc, 18, &[(627, &[0])]) == Some(Ok(19))
        && after(alloc, 18, &[(627, &[1])]) == Some(Err(StoreFault::Damaged(627)))
        && after(alloc, 18, &[(627, &[77])]) == Some(Ok(19))
}

#[test]
fn no_record_begins_in_the_last_sector(rt: HostRuntime) {
    assert!(rt; is_filled(rt.alloc()));
}

/// A rule in the journal of a disk whose call of this number fails: what it opens to, how often it failed, and what the
/// disk that was returned opens to.
fn failing(alloc: Global, call: u64) -> Option<(Result<u64, StoreFault>, u64, bool)> {
    let disk = disk(alloc, &[(589, &OPEN), (590, &SET_RULE)])?;
    let (answer, disk) = opened(alloc, FailingDisk::new(disk, call, Failing::Once));
    let failures = disk.failures();
    let (again, disk) = opened(alloc, disk.into_inner());
    drop(disk);
    Some((answer, failures, again == Ok(1)))
}

fn may_fail(alloc: Global) -> bool {
    for call in 1..=9 {
        if failing(alloc, call) != Some((Err(StoreFault::DiskFault), 1, true)) {
            return false;
        }
    }
    failing(alloc, 10) == Some((Ok(1), 0, true))
}

/// A sync, the label, root A, its header, root B, the header again as a row, a gate, a data sector and the next gate.
#[test]
fn each_of_nine_calls_may_fail(rt: HostRuntime) {
    assert!(rt; may_fail(rt.alloc()));
}

/// What the disk opens to in a heap, which gets all of its memory back; and the disk.
fn in_heap<'a, D: Disk>(heap: &'a LocalHeap, disk: D) -> (Result<u64, StoreFault>, D) {
    opened(heap, disk)
}

/// The same in a heap of this size; `None` where the heap did not get all of its memory back.
fn in_size(
    alloc: Global,
    size: usize,
    disk: MemoryDisk<Global>,
) -> Option<(Result<u64, StoreFault>, MemoryDisk<Global>)> {
    let heap = LocalHeap::new(alloc, size).ok()?;
    let (answer, disk) = in_heap(&heap, disk);
    if heap.used() > 0 {
        return None;
    }
    Some((answer, disk))
}

/// How many heaps were too small before the disk opened; `None` if one didn't get all of its memory back.
fn refused(alloc: Global) -> Option<usize> {
    let mut disk = disk(alloc, &[(589, &OPEN), (590, &SET_RULE)])?;
    for k in 0..800 {
        let (answer, given) = in_size(alloc, 200 + 32 * k, disk)?;
        disk = given;
        match answer {
            Ok(count) => return (count == 1).then_some(k),
            Err(StoreFault::NoMemory) => {}
            Err(_) => return None,
        }
    }
    None
}

#[test]
fn each_growth_is_refused_in_turn(rt: HostRuntime) {
    assert!(rt; refused(rt.alloc()).is_some_and(|heaps| heaps > 500));
}
