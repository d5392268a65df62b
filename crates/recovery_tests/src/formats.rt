//! Formatting disks.

use crate::made::layout;
use crate::runs::is_pending;
use recovery::{StoreFault, format};
use sector_disk::{Disk, DiskError, Failing, FailingDisk, MemoryDisk};
use std::alloc::Global;

/// TETRALOC, layout 1, 16 rules, 16 radios, 256 items, 4 stations, 39 sectors a half.
const LABEL: [u8; 30] = [
    0x54, 0x45, 0x54, 0x52, 0x41, 0x4c, 0x4f, 0x43, 0, 1, 0, 0, 0, 0x10, 0, 0, 0, 0x10, 0, 0, 1, 0,
    0, 0, 0, 4, 0, 0, 0, 0x27,
];

/// A header of epoch 1.
const HEADER: [u8; 9] = [0x16, 0, 0, 0, 0, 0, 0, 0, 1];

/// The sectors that a format writes, and with which bytes they begin: the label, both roots, the header of side A and
/// the first gates of both halves.
const WRITTEN: [(u64, &[u8]); 6] = [
    (0, &LABEL),
    (1, &[1]),
    (2, &[0]),
    (3, &HEADER),
    (589, &[0]),
    (628, &[0]),
];

/// What is on a disk before.
const NINES: [u8; 512] = [9; 512];

/// Sectors that a format leaves.
const LEFT: [(u64, &[u8]); 3] = [(4, &NINES), (588, &NINES), (666, &NINES)];

fn has_667_sectors() -> bool {
    match layout() {
        Some(layout) => layout.sectors() == 667,
        None => false,
    }
}

#[test]
fn the_disk_has_667_sectors(rt: HostRuntime) {
    assert!(rt; has_667_sectors());
}

/// Whether the sector begins so, and has zeros after.
fn is(sector: &[u8; 512], prefix: &[u8]) -> bool {
    sector.starts_with(prefix) && sector.iter().skip(prefix.len()).all(|byte| *byte == 0)
}

fn holds<D: Disk>(disk: &mut D, at: u64, prefix: &[u8]) -> Result<bool, DiskError> {
    let mut sector = [7; 512];
    disk.read(at, &mut sector)?;
    Ok(is(&sector, prefix))
}

/// The first sector of these that does not begin so, or could not be read.
fn first_wrong<D: Disk>(disk: &mut D, written: &[(u64, &[u8])]) -> Option<u64> {
    for (at, prefix) in written {
        if holds(disk, *at, prefix) != Ok(true) {
            return Some(*at);
        }
    }
    None
}

/// Writes bytes that no format writes to so many sectors; whether the disk took them.
fn use_all<D: Disk>(disk: &mut D, sectors: u64) -> bool {
    for at in 0..sectors {
        if disk.write(at, &NINES).is_err() {
            return false;
        }
    }
    true
}

/// A disk whose sectors all hold such bytes.
fn used(alloc: Global, sectors: usize) -> Option<MemoryDisk<Global>> {
    let mut disk = MemoryDisk::new(alloc, sectors, 999).ok()?;
    let used = use_all(&mut disk, sectors as u64);
    if used { Some(disk) } else { None }
}

/// What a format of the disk for an empty register answers.
fn made_ready<D: Disk>(disk: &mut D) -> Option<Result<(), StoreFault>> {
    let layout = layout()?;
    Some(format::<Global, D>(disk, &layout))
}

/// The other sectors stay as they were.
fn is_written(alloc: Global) -> Option<bool> {
    let mut disk = used(alloc, 667)?;
    let ready = made_ready(&mut disk) == Some(Ok(()));
    let written = first_wrong(&mut disk, &WRITTEN).is_none();
    let left = first_wrong(&mut disk, &LEFT).is_none();
    let pending = disk.pending(alloc).ok()?;
    Some(ready && written && left && pending.is_empty())
}

#[test]
fn a_format_writes_six_sectors(rt: HostRuntime) {
    assert!(rt; is_written(rt.alloc()) == Some(true));
}

/// No call of the disk is made: it would fail.
fn is_too_small(alloc: Global) -> Option<bool> {
    let mut disk = FailingDisk::new(used(alloc, 666)?, 0, Failing::Always);
    let refused = made_ready(&mut disk) == Some(Err(StoreFault::BadGeometry));
    let mut disk = disk.into_inner();
    let is_left = first_wrong(&mut disk, &[(0, &NINES)]).is_none();
    Some(refused && disk.failures() == 0 && is_left)
}

#[test]
fn a_disk_of_666_sectors_is_too_small(rt: HostRuntime) {
    assert!(rt; is_too_small(rt.alloc()) == Some(true));
}

/// What a stop leaves that puts this byte into each sector that a format writes and that is pending.
fn stopped(disk: MemoryDisk<Global>, byte: u8) -> MemoryDisk<Global> {
    let bytes = [byte; 512];
    disk.crash(&[
        (0, bytes),
        (1, bytes),
        (2, bytes),
        (3, bytes),
        (589, bytes),
        (628, bytes),
    ])
}

/// Whether a format does not fail, and the disk is then ready.
fn is_ready(disk: MemoryDisk<Global>) -> bool {
    let mut disk = disk;
    made_ready(&mut disk) == Some(Ok(())) && first_wrong(&mut disk, &WRITTEN).is_none()
}

/// A format whose call of this number fails, then a stop that leaves these bytes in each pending sector that a format
/// writes, then a format that does not fail.
fn is_mended(alloc: Global, call: u64, byte: u8) -> Option<bool> {
    let mut disk = FailingDisk::new(used(alloc, 667)?, call, Failing::Once);
    let failed = made_ready(&mut disk) == Some(Err(StoreFault::DiskFault));
    let ready = is_ready(stopped(disk.into_inner(), byte));
    Some(failed && ready)
}

fn are_mended(alloc: Global, byte: u8) -> bool {
    for call in 1..=8 {
        if is_mended(alloc, call, byte) != Some(true) {
            return false;
        }
    }
    true
}

#[test]
fn each_of_the_eight_calls_may_fail(rt: HostRuntime) {
    for byte in [0, 1, 77] {
        assert!(rt; are_mended(rt.alloc(), byte));
    }
}

/// The ninth call would fail: there is none.
fn is_the_last(alloc: Global) -> Option<bool> {
    let mut disk = FailingDisk::new(used(alloc, 667)?, 9, Failing::Once);
    let ready = made_ready(&mut disk) == Some(Ok(()));
    let mut disk = disk.into_inner().crash(&[]);
    Some(ready && first_wrong(&mut disk, &WRITTEN).is_none())
}

#[test]
fn a_format_makes_eight_calls(rt: HostRuntime) {
    assert!(rt; is_the_last(rt.alloc()) == Some(true));
}

/// The disk without its label, and with what else a format writes first.
const UNLABELLED: [(u64, &[u8]); 3] = [(0, &[0]), (1, &[1]), (3, &HEADER)];

/// Between the two syncs only the label is pending: a stop leaves the disk without its label, or with it.
fn is_labelled_last(alloc: Global) -> Option<bool> {
    let mut disk = FailingDisk::new(used(alloc, 667)?, 8, Failing::Once);
    let failed = made_ready(&mut disk) == Some(Err(StoreFault::DiskFault));
    let disk = disk.into_inner();
    let label = is_pending(alloc, &disk, 0)?;
    let mut disk = disk.crash(&[(0, [0; 512])]);
    Some(failed && label && first_wrong(&mut disk, &UNLABELLED).is_none())
}

#[test]
fn the_label_is_written_last(rt: HostRuntime) {
    assert!(rt; is_labelled_last(rt.alloc()) == Some(true));
}
