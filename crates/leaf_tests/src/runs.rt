//! Runs of sectors, written by one call of a disk.

use crate::sectors::{DeadDisk, are_pending, byte_of};
use sector_disk::{Disk, DiskError, Failing, FailingDisk, MemoryDisk};
use std::alloc::{AllocError, Global};
use std::test::Fail;

const FAULT: Result<(), DiskError> = Err(DiskError::DiskFault);

/// The bytes of three sectors, each of the same byte.
fn three(bytes: [u8; 3]) -> [u8; 1536] {
    let mut run = [0; 1536];
    for k in 0..512 {
        run[k] = bytes[0];
        run[512 + k] = bytes[1];
        run[1024 + k] = bytes[2];
    }
    run
}

/// Writes a run of three sectors from the second sector on. `None` where the disk has fewer than five sectors.
fn write_three<D: Disk>(disk: &mut D, run: &[u8; 1536]) -> Option<Result<(), DiskError>> {
    if disk.sectors() < 5 {
        return None;
    }
    Some(disk.write_run(1, run))
}

/// Whether the first five sectors each hold one byte, these ones.
fn are_five<D: Disk>(disk: &mut D, want: [u8; 5]) -> bool {
    for at in 0..5 {
        if byte_of(disk, at as u64) != Ok(want[at]) {
            return false;
        }
    }
    true
}

/// A disk of five sectors that hold 10 to 14, none of them pending. Its record has room for 99 calls.
fn five(alloc: Global) -> Result<MemoryDisk<Global>, AllocError> {
    let mut disk = MemoryDisk::new(alloc, 5, 99)?;
    for at in 0..5u8 {
        let _ = disk.write(u64::from(at), &[10 + at; 512]);
    }
    let _ = disk.sync();
    Ok(disk)
}

/// Whether three sectors are written, the others stay, and exactly the three are pending until the next sync.
fn is_whole(alloc: Global) -> Result<bool, AllocError> {
    let mut disk = five(alloc)?;
    let before = are_five(&mut disk, [10, 11, 12, 13, 14]);
    let written = write_three(&mut disk, &three([21, 22, 23])) == Some(Ok(()));
    let pending = are_pending(alloc, &disk, &[1, 2, 3]);
    let after = are_five(&mut disk, [10, 21, 22, 23, 14]);
    let synced = disk.sync().is_ok() && are_pending(alloc, &disk, &[]);
    Ok(before && written && pending && after && synced && disk.failures() == 0)
}

#[test]
fn a_run_is_written_whole(rt: HostRuntime) -> Result<(), Fail> {
    assert!(rt; is_whole(rt.alloc())?);
    Ok(())
}

/// Bytes that differ by their places.
fn pattern() -> [u8; 1536] {
    let mut run = [0; 1536];
    for at in 0..1536 {
        run[at] = (at % 251) as u8;
    }
    run
}

/// Whether a sector holds these bytes.
fn holds<D: Disk>(disk: &mut D, at: u64, want: Option<&[u8]>) -> bool {
    let mut bytes = [0; 512];
    disk.read(at, &mut bytes).is_ok() && want == Some(bytes.as_slice())
}

/// Whether each sector holds its own part of the run.
fn is_in_order(alloc: Global) -> Result<bool, AllocError> {
    let run = pattern();
    let mut disk = five(alloc)?;
    let written = write_three(&mut disk, &run) == Some(Ok(()));
    let first = holds(&mut disk, 1, run.get(..512));
    let second = holds(&mut disk, 2, run.get(512..1024));
    Ok(written && first && second && holds(&mut disk, 3, run.get(1024..)))
}

#[test]
fn a_run_is_written_in_order(rt: HostRuntime) -> Result<(), Fail> {
    assert!(rt; is_in_order(rt.alloc())?);
    Ok(())
}

/// What a stop may leave of a run of 21, 22 and 23 over 11, 12 and 13.
const LEFT: [[u8; 3]; 8] = [
    [11, 12, 13],
    [11, 12, 23],
    [11, 22, 13],
    [11, 22, 23],
    [21, 12, 13],
    [21, 12, 23],
    [21, 22, 13],
    [21, 22, 23],
];

/// Bytes for each sector, of which a stop may leave those of pending sectors.
fn fill_of(left: [u8; 3]) -> [(u64, [u8; 512]); 5] {
    [
        (0, [90; 512]),
        (1, [left[0]; 512]),
        (2, [left[1]; 512]),
        (3, [left[2]; 512]),
        (4, [94; 512]),
    ]
}

/// Whether a stop before the sync leaves these bytes in the run, and the sectors beside it as they were. After the sync it leaves
/// the run.
fn is_left(alloc: Global, left: [u8; 3]) -> Result<bool, AllocError> {
    let mut unsynced = five(alloc)?;
    let mut synced = five(alloc)?;
    let run = three([21, 22, 23]);
    let written = write_three(&mut unsynced, &run) == Some(Ok(()))
        && write_three(&mut synced, &run) == Some(Ok(()))
        && synced.sync().is_ok();
    let before = are_five(
        &mut unsynced.crash(&fill_of(left)),
        [10, left[0], left[1], left[2], 14],
    );
    let after = are_five(&mut synced.crash(&fill_of(left)), [10, 21, 22, 23, 14]);
    Ok(written && before && after)
}

#[test]
fn a_stop_leaves_each_sector_of_a_run_old_or_new(rt: HostRuntime) -> Result<(), Fail> {
    for left in LEFT {
        assert!(rt; is_left(rt.alloc(), left)?);
    }
    Ok(())
}

/// The number of the call that fails, and whether all later ones do. Then what the run answers, the failures, and what its
/// sectors hold after it.
const FAILING: [(u64, Failing, Result<(), DiskError>, u64, [u8; 3]); 8] = [
    (1, Failing::Once, FAULT, 1, [11, 12, 13]),
    (2, Failing::Once, FAULT, 1, [21, 12, 13]),
    (3, Failing::Once, FAULT, 1, [21, 22, 13]),
    (4, Failing::Once, Ok(()), 0, [21, 22, 23]),
    (1, Failing::Always, FAULT, 1, [11, 12, 13]),
    (2, Failing::Always, FAULT, 1, [21, 12, 13]),
    (3, Failing::Always, FAULT, 1, [21, 22, 13]),
    (4, Failing::Always, Ok(()), 0, [21, 22, 23]),
];

/// Whether a run answers this, with so many failures, and leaves these bytes. A sector of the run is a call, so a failure ends it.
fn is_ended(
    alloc: Global,
    call: u64,
    failing: Failing,
    want: Result<(), DiskError>,
    left: (u64, [u8; 3]),
) -> Result<bool, AllocError> {
    let (failures, bytes) = left;
    let mut disk = FailingDisk::new(five(alloc)?, call, failing);
    let answered = write_three(&mut disk, &three([21, 22, 23])) == Some(want);
    let counted = disk.failures() == failures;
    let mut inner = disk.into_inner();
    let after = are_five(&mut inner, [10, bytes[0], bytes[1], bytes[2], 14]);
    Ok(answered && counted && after && inner.failures() == 0)
}

#[test]
fn a_run_ends_at_the_sector_that_fails(rt: HostRuntime) -> Result<(), Fail> {
    for (call, failing, want, failures, bytes) in FAILING {
        assert!(rt;
            is_ended(rt.alloc(), call, failing, want, (failures, bytes))?,
            "call {call}"
        );
    }
    Ok(())
}

/// Whether a run of three ends where the record is full, after two sectors.
fn is_cut_short(alloc: Global) -> Result<bool, AllocError> {
    let mut disk = MemoryDisk::new(alloc, 5, 2)?;
    let answered = write_three(&mut disk, &three([21, 22, 23])) == Some(FAULT);
    let pending = are_pending(alloc, &disk, &[1, 2]) && disk.failures() == 1;
    // A stop empties the record, so that both sectors can be read.
    let mut first = disk.crash(&[]);
    let written = byte_of(&mut first, 1) == Ok(21) && byte_of(&mut first, 2) == Ok(22);
    let mut last = first.crash(&[]);
    let others = byte_of(&mut last, 3) == Ok(0) && byte_of(&mut last, 4) == Ok(0);
    Ok(answered && pending && written && others)
}

#[test]
fn a_run_ends_where_the_record_is_full(rt: HostRuntime) -> Result<(), Fail> {
    assert!(rt; is_cut_short(rt.alloc())?);
    Ok(())
}

/// Writes a run of one sector, the last of five. `None` where the disk has fewer.
fn write_last<D: Disk>(disk: &mut D, bytes: &[u8; 512]) -> Option<Result<(), DiskError>> {
    if disk.sectors() < 5 {
        return None;
    }
    Some(disk.write_run(4, bytes))
}

/// Whether a run of one sector is one call that writes it.
fn is_one(alloc: Global) -> Result<bool, AllocError> {
    let mut disk = five(alloc)?;
    let written = write_last(&mut disk, &[24; 512]) == Some(Ok(()));
    let pending = are_pending(alloc, &disk, &[4]);
    let after = are_five(&mut disk, [10, 11, 12, 13, 24]);
    let mut failing = FailingDisk::new(five(alloc)?, 2, Failing::Once);
    let first = write_last(&mut failing, &[24; 512]) == Some(Ok(()));
    let second = write_last(&mut failing, &[34; 512]) == Some(FAULT);
    let kept = are_five(&mut failing.into_inner(), [10, 11, 12, 13, 24]);
    Ok(written && pending && after && first && second && kept)
}

#[test]
fn a_run_of_one_sector_is_a_write(rt: HostRuntime) -> Result<(), Fail> {
    assert!(rt; is_one(rt.alloc())?);
    Ok(())
}

/// Writes no sector after the last of five. `None` where the disk has fewer.
fn write_none<D: Disk>(disk: &mut D) -> Option<Result<(), DiskError>> {
    if disk.sectors() < 5 {
        return None;
    }
    Some(disk.write_run(5, &[]))
}

/// Whether an empty run makes no call: none fails, and none is counted.
fn is_nothing(alloc: Global) -> Result<bool, AllocError> {
    let mut disk = FailingDisk::new(five(alloc)?, 1, Failing::Once);
    let nothing = write_none(&mut disk) == Some(Ok(())) && disk.failures() == 0;
    let first = disk.write(0, &[20; 512]) == FAULT && disk.failures() == 1;
    let mut inner = disk.into_inner();
    let settled = are_pending(alloc, &inner, &[]);
    Ok(nothing && first && settled && are_five(&mut inner, [10, 11, 12, 13, 14]))
}

#[test]
fn an_empty_run_is_no_call(rt: HostRuntime) -> Result<(), Fail> {
    assert!(rt; is_nothing(rt.alloc())?);
    Ok(())
}

#[test]
fn a_run_of_a_dead_disk_fails_once(rt: HostRuntime) {
    let mut dead = DeadDisk {
        sectors: 5,
        failures: 7,
    };
    assert!(rt; write_three(&mut dead, &three([21, 22, 23])) == Some(FAULT));
    assert!(rt; dead.failures() == 8);
}
