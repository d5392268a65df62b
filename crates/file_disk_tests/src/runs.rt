//! Runs of sectors of a disk over a file, and the calls of the file that they take.

use crate::step_file::{Step, StepFile};
use file_disk::FileDisk;
use sector_disk::{Disk, DiskError};
use std::test::Fail;

const FAULT: Result<(), DiskError> = Err(DiskError::DiskFault);

/// Bytes that differ by their places, for three sectors.
pub fn pattern() -> [u8; 1536] {
    let mut bytes = [0; 1536];
    for at in 0..1536 {
        bytes[at] = (at % 251) as u8;
    }
    bytes
}

/// What the first calls of the file do. Then what a run of three sectors answers, and how many calls of the file there were.
struct Row {
    steps: &'static [Step],
    answer: Result<(), DiskError>,
    turns: u64,
}

const ROWS: [Row; 14] = [
    // One call writes the whole run.
    Row {
        steps: &[],
        answer: Ok(()),
        turns: 1,
    },
    // One call writes a part of the run. Then each of the three sectors takes a call.
    Row {
        steps: &[Step::Moves(1)],
        answer: Ok(()),
        turns: 4,
    },
    Row {
        steps: &[Step::Moves(512)],
        answer: Ok(()),
        turns: 4,
    },
    Row {
        steps: &[Step::Moves(700)],
        answer: Ok(()),
        turns: 4,
    },
    Row {
        steps: &[Step::Moves(1535)],
        answer: Ok(()),
        turns: 4,
    },
    // The first sector takes two calls: 200 bytes, and the other 312.
    Row {
        steps: &[Step::Moves(1024), Step::Moves(200)],
        answer: Ok(()),
        turns: 5,
    },
    Row {
        steps: &[Step::Interrupted],
        answer: Ok(()),
        turns: 4,
    },
    // The first sector takes four calls: 100 bytes, none, 411 and 1.
    Row {
        steps: &[
            Step::Interrupted,
            Step::Moves(100),
            Step::Interrupted,
            Step::Moves(411),
        ],
        answer: Ok(()),
        turns: 7,
    },
    // The first sector comes with the last of its 1,024 calls.
    Row {
        steps: &[Step::Interrupted; 1024],
        answer: Ok(()),
        turns: 1027,
    },
    // One call more is too many.
    Row {
        steps: &[Step::Interrupted; 1025],
        answer: FAULT,
        turns: 1025,
    },
    // The call for the whole run fails, or moves no byte. No sector is tried after it.
    Row {
        steps: &[Step::Fails],
        answer: FAULT,
        turns: 1,
    },
    Row {
        steps: &[Step::Moves(0)],
        answer: FAULT,
        turns: 1,
    },
    // The call for the first sector fails, and the one for the last moves no byte.
    Row {
        steps: &[Step::Moves(1535), Step::Fails],
        answer: FAULT,
        turns: 2,
    },
    Row {
        steps: &[
            Step::Moves(512),
            Step::Moves(512),
            Step::Moves(512),
            Step::Moves(0),
        ],
        answer: FAULT,
        turns: 4,
    },
];

/// A disk of the six sectors of a file.
fn over(steps: &[Step], is_synced: bool) -> Option<FileDisk<StepFile<'_>>> {
    FileDisk::over(StepFile::new(steps, is_synced)).ok()
}

/// Writes a run of three sectors from the second sector on. `None` where the disk has fewer than six sectors.
pub fn write_three<D: Disk>(disk: &mut D, run: &[u8; 1536]) -> Option<Result<(), DiskError>> {
    if disk.sectors() < 6 {
        return None;
    }
    Some(disk.write_run(1, run))
}

/// Whether the file holds the run, with the other sectors as they were, after so many calls.
fn is_held(file: &StepFile<'_>, run: &[u8; 1536], turns: u64) -> bool {
    file.run() == Some(run.as_slice()) && file.turns() == turns
}

/// Whether a run is answered as the row states. One that is `Ok` is in the file. After one that failed the next run is written
/// by one call.
fn is_as_stated(row: &Row) -> Option<bool> {
    let run = pattern();
    let mut disk = over(row.steps, true)?;
    let answered = write_three(&mut disk, &run)? == row.answer;
    let failed = row.answer.is_err();
    let counted = disk.failures() == u64::from(failed);
    let again = !failed || (write_three(&mut disk, &run)? == Ok(()) && disk.failures() == 1);
    let turns = row.turns.saturating_add(u64::from(failed));
    Some(answered && counted && again && is_held(&disk.into_file(), &run, turns))
}

#[test]
fn a_run_takes_one_call_or_more_for_each_sector(rt: HostRuntime) {
    for row in &ROWS {
        assert!(rt; is_as_stated(row) == Some(true));
    }
}

/// Whether after a failed sync a run is a fault, and the file is not called.
fn is_lost() -> Option<bool> {
    let run = pattern();
    let mut disk = over(&[], false)?;
    let written = write_three(&mut disk, &run)? == Ok(()) && disk.failures() == 0;
    let lost = disk.sync() == FAULT && disk.failures() == 1;
    let again = write_three(&mut disk, &[0; 1536])? == FAULT && disk.failures() == 2;
    let empty = write_none(&mut disk)? == FAULT && disk.failures() == 3;
    Some(written && lost && again && empty && is_held(&disk.into_file(), &run, 1))
}

#[test]
fn a_run_of_a_lost_disk_is_a_fault(rt: HostRuntime) {
    assert!(rt; is_lost() == Some(true));
}

/// Writes a run of one sector, the last of six.
fn write_last<D: Disk>(disk: &mut D, bytes: &[u8; 512]) -> Option<Result<(), DiskError>> {
    if disk.sectors() < 6 {
        return None;
    }
    Some(disk.write_run(5, bytes))
}

/// Writes a run of no sector, after the last of six.
fn write_none<D: Disk>(disk: &mut D) -> Option<Result<(), DiskError>> {
    if disk.sectors() < 6 {
        return None;
    }
    Some(disk.write_run(6, &[]))
}

/// How many calls of the file a run of one sector takes, if it is written.
fn turns_of_one(steps: &[Step]) -> Option<u64> {
    let mut disk = over(steps, true)?;
    let written = write_last(&mut disk, &[3; 512])? == Ok(());
    let mut bytes = [0; 512];
    let read = disk.read(5, &mut bytes).is_ok() && bytes == [3; 512];
    let turns = disk.into_file().turns().checked_sub(1)?;
    (written && read).then_some(turns)
}

#[test]
fn a_run_of_one_sector_goes_on_where_a_call_ended(rt: HostRuntime) {
    assert!(rt; turns_of_one(&[]) == Some(1));
    assert!(rt; turns_of_one(&[Step::Moves(100)]) == Some(2));
    assert!(rt; turns_of_one(&[Step::Interrupted, Step::Moves(511)]) == Some(3));
}

/// How many calls of the file an empty run takes, if it is `Ok`.
fn turns_of_none() -> Option<u64> {
    let mut disk = over(&[Step::Fails], true)?;
    let written = write_none(&mut disk)? == Ok(()) && disk.failures() == 0;
    written.then_some(disk.into_file().turns())
}

#[test]
fn an_empty_run_takes_no_call(rt: HostRuntime) {
    assert!(rt; turns_of_none() == Some(0));
}
