//! Disks that are checked: what is on them is put there by hand, or by a checkpoint.

use crate::layouts::checkpoint;
use crate::opens::{
    FIRST, FROM_STATION_5, OPEN, RULE, SET_RULE, WITH_RULE, disk, opened, with_expiries,
};
use checkpoint::Side;
use linked_list_allocator::LocalHeap;
use recovery::{
    Checked, Damage, DamageKind, Figures, Reason, SideState, StoreFault, check, damage_of,
};
use sector_disk::{Disk, Failing, FailingDisk, MemoryDisk};
use std::alloc::Global;

/// A header of epoch 3.
const THIRD: [u8; 9] = [0x16, 0, 0, 0, 0, 0, 0, 0, 3];

/// What a side of layout 2 is found as.
#[derive(Clone, Copy)]
enum Found {
    Unused,
    /// Whole, with this epoch, so many commands, and this gate.
    Whole(u64, u64, u64),
    /// Damaged, with its epoch, if it is known, and a sector.
    Damaged(Option<u64>, u64),
}

/// A whole side of layout 2, whose half ends before sector `end`.
fn whole(side: Side, epoch: u64, count: u64, gate: u64) -> SideState {
    let end = if side == Side::A { 628 } else { 667 };
    SideState::Whole(Figures {
        layout: 2,
        side,
        epoch,
        epochs_left: (1u64 << 62).saturating_sub(epoch),
        gate,
        free: u64::saturating_sub(end, gate),
        count,
    })
}

fn state(side: Side, found: Found) -> SideState {
    match found {
        Found::Unused => SideState::Unused,
        Found::Whole(epoch, count, gate) => whole(side, epoch, count, gate),
        Found::Damaged(epoch, sector) => SideState::Damaged { epoch, sector },
    }
}

/// What a check finds on the sides A and B, and which one opening takes, or at which sector it stops.
type Wanted = (Found, Found, Result<Side, u64>);

/// What a check finds on a disk, and what opening answers; `None` if the check fails.
fn checked(alloc: Global, disk: MemoryDisk<Global>) -> Option<(Checked, Result<u64, StoreFault>)> {
    let mut disk = disk;
    let found = check(alloc, &mut disk);
    let (answer, disk) = opened(alloc, disk);
    drop(disk);
    match found {
        Ok(checked) => Some((checked, answer)),
        Err(_) => None,
    }
}

/// Whether a check of this disk finds these states, and opening takes this side or stops at this sector.
fn finds(alloc: Global, disk: MemoryDisk<Global>, wanted: Wanted) -> bool {
    let (a, b, taken) = wanted;
    match checked(alloc, disk) {
        Some((checked, answer)) => {
            checked.a == state(Side::A, a)
                && checked.b == state(Side::B, b)
                && is_opened(&checked, taken)
                && answer == answer_of(&checked)
        }
        None => false,
    }
}

/// Whether opening takes this side with what is on it, or stops at this sector.
fn is_opened(checked: &Checked, taken: Result<Side, u64>) -> bool {
    match (checked.opened(), taken) {
        (Ok(figures), Ok(taken)) => {
            let state = if taken == Side::A {
                checked.a
            } else {
                checked.b
            };
            figures.side == taken && state == SideState::Whole(figures)
        }
        (Err(sector), Err(taken)) => sector == taken,
        _ => false,
    }
}

/// How many commands the register has accepted, or why the disk does not open.
fn answer_of(checked: &Checked) -> Result<u64, StoreFault> {
    match checked.opened() {
        Ok(figures) => Ok(figures.count),
        Err(sector) => Err(StoreFault::Damaged(sector)),
    }
}

/// What sectors of the worked disk begin with, and what a check then finds.
type Row = (&'static [(u64, &'static [u8])], Wanted);

/// The first of these rows on whose disk something else is found.
fn first_wrong(alloc: Global, rows: &[Row]) -> Option<usize> {
    for k in 0..rows.len() {
        let (sectors, wanted) = rows[k];
        let is_found = match disk(alloc, sectors) {
            Some(disk) => finds(alloc, disk, wanted),
            None => false,
        };
        if !is_found {
            return Some(k);
        }
    }
    None
}

/// A new disk.
const NEW: [Row; 1] = [(&[], (Found::Whole(1, 0, 589), Found::Unused, Ok(Side::A)))];

#[test]
fn a_new_disk_has_one_whole_side(rt: HostRuntime) {
    assert!(rt; first_wrong(rt.alloc(), &NEW).is_none());
}

/// A disk with a rule and nine expiries.
fn used(alloc: Global) -> Option<MemoryDisk<Global>> {
    with_expiries(alloc, 9, &[])
}

/// What is found on it.
const USED: Wanted = (Found::Whole(1, 10, 609), Found::Unused, Ok(Side::A));

fn are_counted(alloc: Global) -> Option<bool> {
    Some(finds(alloc, used(alloc)?, USED))
}

#[test]
fn its_records_count(rt: HostRuntime) {
    assert!(rt; are_counted(rt.alloc()) == Some(true));
}

/// What is found on it after a checkpoint.
const BOTH: Wanted = (
    Found::Whole(1, 10, 609),
    Found::Whole(2, 10, 628),
    Ok(Side::B),
);

fn are_both_whole(alloc: Global) -> Option<bool> {
    let (made, disk) = checkpoint(alloc, used(alloc)?);
    Some(finds(alloc, disk, BOTH) && made)
}

#[test]
fn after_a_checkpoint_both_sides_are_whole(rt: HostRuntime) {
    assert!(rt; are_both_whole(rt.alloc()) == Some(true));
}

/// A row, a record and a header are damaged.
const COUNTING: [Row; 3] = [
    (
        &[(2, &OPEN), (296, &WITH_RULE)],
        (
            Found::Whole(1, 0, 589),
            Found::Damaged(Some(2), 297),
            Err(297),
        ),
    ),
    (
        &[(589, &OPEN), (590, &[])],
        (Found::Damaged(Some(1), 590), Found::Unused, Err(590)),
    ),
    (
        &[(2, &OPEN)],
        (Found::Whole(1, 0, 589), Found::Damaged(None, 296), Err(296)),
    ),
];

#[test]
fn damage_on_the_side_that_counts_stops_opening(rt: HostRuntime) {
    assert!(rt; first_wrong(rt.alloc(), &COUNTING).is_none());
}

/// A row and a record are damaged.
const OTHER: [Row; 2] = [
    (
        &[(3, &WITH_RULE), (2, &OPEN), (296, &THIRD)],
        (
            Found::Damaged(Some(2), 4),
            Found::Whole(3, 0, 628),
            Ok(Side::B),
        ),
    ),
    (
        &[
            (589, &OPEN),
            (590, &[]),
            (2, &OPEN),
            (296, &WITH_RULE),
            (297, &RULE),
        ],
        (
            Found::Damaged(Some(1), 590),
            Found::Whole(2, 1, 628),
            Ok(Side::B),
        ),
    ),
];

#[test]
fn damage_on_the_other_side_does_not(rt: HostRuntime) {
    assert!(rt; first_wrong(rt.alloc(), &OTHER).is_none());
}

/// Both are closed; both are open, with the same epoch.
const ROOTS: [Row; 2] = [
    (&[(1, &[])], (Found::Unused, Found::Unused, Err(1))),
    (
        &[(2, &OPEN), (296, &FIRST)],
        (Found::Whole(1, 0, 589), Found::Whole(1, 0, 628), Err(2)),
    ),
];

#[test]
fn roots_may_be_at_fault(rt: HostRuntime) {
    assert!(rt; first_wrong(rt.alloc(), &ROOTS).is_none());
}

/// Why a check of a disk without a label is refused.
fn refusal(alloc: Global) -> Option<StoreFault> {
    let mut disk = disk(alloc, &[(0, &[])])?;
    check(alloc, &mut disk).err()
}

#[test]
fn a_disk_without_a_layout_is_refused(rt: HostRuntime) {
    assert!(rt; refusal(rt.alloc()) == Some(StoreFault::Unformatted));
}

/// A header of epoch 1 with two rules, a radio, an item and a station.
const OF_EACH_KIND: [u8; 33] = [
    0x16, 0, 0, 0, 0, 0, 0, 0, 1, 0, 0, 0, 0, 0, 0, 0, 0, 0, 0, 0, 2, 0, 0, 0, 1, 0, 0, 0, 1, 0, 0,
    0, 1,
];

/// A damaged sector: what it is to hold, and what is wrong with it.
type Bad = (u64, DamageKind, Reason);

/// Whether these are the damaged sectors.
fn are_same(found: &[Damage], wanted: &[Bad]) -> bool {
    if found.len() != wanted.len() {
        return false;
    }
    for (damage, bad) in found.iter().zip(wanted) {
        if (damage.sector, damage.kind, damage.reason) != *bad {
            return false;
        }
    }
    true
}

/// Whether just these sectors of the sides are damaged.
fn damages(alloc: Global, disk: MemoryDisk<Global>, a: &[Bad], b: &[Bad]) -> bool {
    let mut disk = disk;
    let Ok(checked) = check(alloc, &mut disk) else {
        return false;
    };
    let found_a = damage_of(alloc, &mut disk, &checked.layout, Side::A, &checked.a);
    let found_b = damage_of(alloc, &mut disk, &checked.layout, Side::B, &checked.b);
    match (found_a, found_b) {
        (Ok(found_a), Ok(found_b)) => are_same(&found_a, a) && are_same(&found_b, b),
        _ => false,
    }
}

/// The same of the worked disk with these sectors.
fn has_damage(alloc: Global, sectors: &[(u64, &[u8])], a: &[Bad], b: &[Bad]) -> bool {
    match disk(alloc, sectors) {
        Some(disk) => damages(alloc, disk, a, b),
        None => false,
    }
}

/// Rows of each kind and a record on side A; a row of a rule on side B.
const EACH_KIND: [(u64, &[u8]); 11] = [
    (3, &OF_EACH_KIND),
    (4, &[]),
    (5, &RULE),
    (6, &RULE),
    (7, &[]),
    (8, &RULE),
    (589, &OPEN),
    (590, &[]),
    (2, &OPEN),
    (296, &WITH_RULE),
    (297, &RULE),
];

const BAD_OF_EACH_KIND: [Bad; 5] = [
    (4, DamageKind::Rule, Reason::Unreadable),
    (6, DamageKind::Radio, Reason::OutOfPlace),
    (7, DamageKind::Item, Reason::Unreadable),
    (8, DamageKind::Station, Reason::OutOfPlace),
    (590, DamageKind::Record(0), Reason::Unreadable),
];

#[test]
fn each_damaged_sector_is_found(rt: HostRuntime) {
    assert!(rt; has_damage(rt.alloc(), &EACH_KIND, &BAD_OF_EACH_KIND, &[]));
}

/// A record that is refused on side A, and no header on side B.
const REFUSED: [(u64, &[u8]); 5] = [
    (589, &OPEN),
    (590, &FROM_STATION_5),
    (2, &OPEN),
    (297, &[]),
    (628, &OPEN),
];

const BAD_RECORD: [Bad; 1] = [(590, DamageKind::Record(1), Reason::Refused)];

const BAD_HEADER: [Bad; 1] = [(296, DamageKind::Header, Reason::Unreadable)];

#[test]
fn nothing_is_judged_after_a_header_or_a_record(rt: HostRuntime) {
    assert!(rt; has_damage(rt.alloc(), &REFUSED, &BAD_RECORD, &BAD_HEADER));
}

/// A damaged record on side A of epoch 3, and a rule on side B, which counts.
const HALF_DAMAGED: [(u64, &[u8]); 7] = [
    (3, &THIRD),
    (2, &OPEN),
    (296, &WITH_RULE),
    (297, &RULE),
    (589, &OPEN),
    (590, &SET_RULE),
    (591, &OPEN),
];

/// The result of a check, of which this call fails; and how often the disk failed.
fn failing(alloc: Global, call: u64) -> Option<(Option<StoreFault>, u64)> {
    let mut disk = FailingDisk::new(disk(alloc, &HALF_DAMAGED)?, call, Failing::Once);
    let fault = check(alloc, &mut disk).err();
    Some((fault, disk.failures()))
}

fn may_fail(alloc: Global) -> bool {
    for call in 1..=16 {
        if failing(alloc, call) != Some((Some(StoreFault::DiskFault), 1)) {
            return false;
        }
    }
    failing(alloc, 17) == Some((None, 0))
}

/// A sync, the label; root A, its header, the header again as a row, a gate, its data, a gate, its data, the last two again; root B,
/// its header, the header as a row, the rule, a gate.
#[test]
fn each_of_sixteen_calls_may_fail(rt: HostRuntime) {
    assert!(rt; may_fail(rt.alloc()));
}

/// What a check in a heap finds; the heap gets all of its memory back.
fn in_heap<'a, D: Disk>(heap: &'a LocalHeap, disk: &mut D) -> Result<Checked, StoreFault> {
    check(heap, disk)
}

/// The same in a heap of this size; `None` where the heap did not get all of its memory back.
fn in_size(
    alloc: Global,
    size: usize,
    disk: &mut MemoryDisk<Global>,
) -> Option<Result<Checked, StoreFault>> {
    let heap = LocalHeap::new(alloc, size).ok()?;
    let answer = in_heap(&heap, disk);
    (heap.used() == 0).then_some(answer)
}

/// What a check finds in a heap of this number, counted from the smallest.
fn in_numbered(
    alloc: Global,
    number: usize,
    disk: &mut MemoryDisk<Global>,
) -> Option<Result<Checked, StoreFault>> {
    let more = usize::saturating_mul(32, number);
    in_size(alloc, usize::saturating_add(200, more), disk)
}

/// The first heap, from this one on, in which a check has another answer than this fault.
fn first_without(
    alloc: Global,
    disk: &mut MemoryDisk<Global>,
    fault: StoreFault,
    from: usize,
) -> Option<usize> {
    for number in from..800 {
        let answer = in_numbered(alloc, number, disk)?;
        if answer.err() != Some(fault) {
            return Some(number);
        }
    }
    None
}

/// How many heaps were too small to find the damage to side A, and how many to read both sides. In those between, the damage is reported.
/// `None` if a heap didn't get all of its memory back, or if damage was not found.
fn refused(alloc: Global) -> Option<(usize, usize)> {
    let mut disk = disk(alloc, &HALF_DAMAGED)?;
    let one = first_without(alloc, &mut disk, StoreFault::NoMemory, 0)?;
    let both = first_without(alloc, &mut disk, StoreFault::Damaged(592), one)?;
    let checked = in_numbered(alloc, both, &mut disk)?.ok()?;
    let damaged = state(Side::A, Found::Damaged(Some(3), 592));
    (checked.a == damaged).then_some((one, both))
}

#[test]
fn each_growth_of_a_check_is_refused_in_turn(rt: HostRuntime) {
    assert!(rt; refused(rt.alloc()).is_some_and(|(one, both)| 0 < one && one < both && both > 500));
}
