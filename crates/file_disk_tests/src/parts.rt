//! A disk over a file whose calls move less than asked for, are interrupted, or fail.

use crate::part_file::{PartFile, Plan};
use file_disk::FileDisk;
use sector_disk::{Disk, DiskError, MemoryDisk};
use std::alloc::{AllocError, Global};
use std::test::Fail;

const FAULT: Result<(), DiskError> = Err(DiskError::DiskFault);

/// The most bytes that a call moves, and which calls move none. Then what a write of a sector answers, and how many calls there
/// were; what a read of it answers after that, and how many calls there were in all.
struct Row {
    most: usize,
    plan: Plan,
    write: Result<(), DiskError>,
    written: u64,
    read: Result<(), DiskError>,
    turns: u64,
}

const ROWS: [Row; 9] = [
    Row {
        most: 512,
        plan: Plan::Calm,
        write: Ok(()),
        written: 1,
        read: Ok(()),
        turns: 2,
    },
    Row {
        most: 1,
        plan: Plan::Calm,
        write: Ok(()),
        written: 512,
        read: Ok(()),
        turns: 1024,
    },
    Row {
        most: 511,
        plan: Plan::Calm,
        write: Ok(()),
        written: 2,
        read: Ok(()),
        turns: 4,
    },
    // The last byte comes with the 1,024th call.
    Row {
        most: 1,
        plan: Plan::OddInterrupted,
        write: Ok(()),
        written: 1024,
        read: Ok(()),
        turns: 2048,
    },
    Row {
        most: 512,
        plan: Plan::Interrupted,
        write: FAULT,
        written: 1024,
        read: FAULT,
        turns: 2048,
    },
    Row {
        most: 512,
        plan: Plan::Fails(1),
        write: FAULT,
        written: 1,
        read: Ok(()),
        turns: 2,
    },
    Row {
        most: 1,
        plan: Plan::Fails(600),
        write: Ok(()),
        written: 512,
        read: FAULT,
        turns: 600,
    },
    Row {
        most: 100,
        plan: Plan::Nothing(3),
        write: FAULT,
        written: 3,
        read: Ok(()),
        turns: 9,
    },
    Row {
        most: 512,
        plan: Plan::Nothing(2),
        write: Ok(()),
        written: 1,
        read: FAULT,
        turns: 2,
    },
];

// The first and last sectors of the pieces of 300 sectors
const ENDS: [u64; 6] = [0, 127, 128, 255, 256, 299];

/// Bytes that differ by their places.
pub fn pattern() -> [u8; 512] {
    let mut bytes = [0; 512];
    for at in 0..512 {
        bytes[at] = (at % 251) as u8;
    }
    bytes
}

fn file(
    alloc: Global,
    most: usize,
    plan: Plan,
) -> Result<PartFile<MemoryDisk<Global>>, AllocError> {
    Ok(PartFile::new(MemoryDisk::new(alloc, 3, 5000)?, most, plan))
}

fn is_fault(answer: Result<(), DiskError>) -> u64 {
    u64::from(answer.is_err())
}

/// Whether the middle sector of three is written and read back as the row states.
fn is_as_stated(alloc: Global, row: &Row) -> Result<bool, AllocError> {
    let bytes = pattern();
    let Ok(mut disk) = FileDisk::over(file(alloc, row.most, row.plan)?) else {
        return Ok(false);
    };
    let written = disk.write(1, &bytes) == row.write && disk.failures() == is_fault(row.write);
    let file = disk.into_file();
    let turns = file.turns();
    let Ok(mut disk) = FileDisk::over(file) else {
        return Ok(false);
    };
    let mut back = [9; 512];
    let read = disk.read(1, &mut back) == row.read && disk.failures() == is_fault(row.read);
    let is_whole = row.write.is_err() || row.read.is_err() || back == bytes;
    Ok(written && turns == row.written && read && is_whole && disk.into_file().turns() == row.turns)
}

#[test]
fn a_sector_is_moved_whole_or_is_a_fault(rt: HostRuntime) -> Result<(), Fail> {
    for row in &ROWS {
        assert!(rt; is_as_stated(rt.alloc(), row)?);
    }
    Ok(())
}

/// Whether the sectors beside the written one stay zeros, and the bytes after the last sector are no sector.
fn is_alone(alloc: Global) -> Result<bool, AllocError> {
    let Ok(mut disk) = FileDisk::over(file(alloc, 100, Plan::OddInterrupted)?) else {
        return Ok(false);
    };
    let written = disk.write(1, &pattern()).is_ok();
    let (mut before, mut after) = ([9; 512], [9; 512]);
    let read = disk.read(0, &mut before).is_ok() && disk.read(2, &mut after).is_ok();
    let none = disk.read(3, &mut [0; 512]) == Err(DiskError::OutOfRange);
    Ok(written && read && none && before == [0; 512] && after == [0; 512] && disk.sectors() == 3)
}

#[test]
fn other_sectors_stay(rt: HostRuntime) -> Result<(), Fail> {
    assert!(rt; is_alone(rt.alloc())?);
    Ok(())
}

/// Whether after a failed sync each call in range is a fault, and the file is not called.
fn is_lost(alloc: Global) -> Result<bool, AllocError> {
    let Ok(mut disk) = FileDisk::over(file(alloc, 512, Plan::SyncFails)?) else {
        return Ok(false);
    };
    let written = disk.write(1, &pattern()).is_ok() && disk.failures() == 0;
    let lost = disk.sync() == FAULT && disk.failures() == 1;
    let read = disk.read(1, &mut [0; 512]) == FAULT && disk.failures() == 2;
    let write = disk.write(1, &[0; 512]) == FAULT && disk.failures() == 3;
    let again = disk.sync() == FAULT && disk.failures() == 4;
    let none = disk.write(3, &[0; 512]) == Err(DiskError::OutOfRange) && disk.failures() == 4;
    Ok(written && lost && read && write && again && none && disk.into_file().turns() == 1)
}

#[test]
fn a_failed_sync_loses_the_disk(rt: HostRuntime) -> Result<(), Fail> {
    assert!(rt; is_lost(rt.alloc())?);
    Ok(())
}

/// Whether a stop leaves a synced sector as written, and other bytes in one that was not synced.
fn is_left(alloc: Global) -> Result<bool, AllocError> {
    let Ok(mut disk) = FileDisk::blank(file(alloc, 512, Plan::Calm)?) else {
        return Ok(false);
    };
    let bytes = pattern();
    let written = disk.write(0, &bytes).is_ok()
        && disk.sync().is_ok()
        && disk.write(2, &bytes).is_ok();
    let stopped = disk
        .into_file()
        .into_disk()
        .crash(&[(0, [7; 512]), (2, [7; 512])]);
    let Ok(mut disk) = FileDisk::over(PartFile::new(stopped, 512, Plan::Calm)) else {
        return Ok(false);
    };
    let (mut first, mut last) = ([0; 512], [0; 512]);
    let read = disk.read(0, &mut first).is_ok() && disk.read(2, &mut last).is_ok();
    Ok(written && read && first == bytes && last == [7; 512])
}

#[test]
fn a_stop_leaves_what_was_synced(rt: HostRuntime) -> Result<(), Fail> {
    assert!(rt; is_left(rt.alloc())?);
    Ok(())
}

/// Writes bytes that are no zeros to sectors at both ends of each piece.
fn write_ends<D: Disk>(disk: &mut D) -> Option<()> {
    for at in ENDS {
        disk.write(at, &pattern()).ok()?;
    }
    Some(())
}

/// Whether these sectors read as zeros.
fn are_zeros<D: Disk>(disk: &mut D) -> Option<bool> {
    let mut all = true;
    for at in ENDS {
        let mut bytes = [9; 512];
        disk.read(at, &mut bytes).ok()?;
        all = all && bytes == [0; 512];
    }
    Some(all)
}

/// How many calls write zeros into 300 sectors, if all read as zeros.
fn blank_turns(alloc: Global, most: usize, plan: Plan) -> Option<u64> {
    let disk = MemoryDisk::new(alloc, 300, 1000).ok()?;
    let mut disk = FileDisk::over(PartFile::new(disk, 512, Plan::Calm)).ok()?;
    write_ends(&mut disk)?;
    let file = PartFile::new(disk.into_file().into_disk(), most, plan);
    let mut disk = FileDisk::blank(file).ok()?;
    let blank = are_zeros(&mut disk)?;
    let turns = disk.into_file().turns().checked_sub(ENDS.len() as u64)?;
    blank.then_some(turns)
}

#[test]
fn zeros_go_into_each_sector_of_a_piece_that_was_written_in_part(rt: HostRuntime) {
    assert!(rt; blank_turns(rt.alloc(), 512, Plan::Calm) == Some(302));
}
