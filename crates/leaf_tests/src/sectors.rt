//! Runs of the disks, and what a stop leaves.

use sector_disk::{Disk, DiskError, Failing, FailingDisk, MemoryDisk};
use std::alloc::{AllocError, Global};
use std::test::Fail;

/// A disk that is never honest, and fails each call in range.
#[derive(Drop)]
pub struct DeadDisk {
    pub sectors: u64,
    pub failures: u64,
}

impl Disk for DeadDisk {
    ghost use Rattle.std.specs.Prelude.{ℕ, false, []};
    ghost use Rattle.sector_disk.specs.Disk.{View};

    ghost view = { λ disk. record {
      sectors = disk.sectors;
      reads = [];
      pending = λ k. false;
      moment = 0;
      since = λ t image. ⊥;
      calls = [];
      failures = disk.failures;
      honest = ⊥;
    } };

    ghost sound = { λ disk honest. absurd honest };

    fn sectors(&self) -> u64 {
        self.sectors
    }

    fn read(&mut self, at: u64, _bytes: &mut [u8; 512]) -> Result<(), DiskError> {
        let failures = self.failures;
        if at >= self.sectors {
            return Err(DiskError::OutOfRange);
        }
        self.failures = failures.saturating_add(1);
        Err(DiskError::DiskFault)
    }

    fn write(&mut self, at: u64, _bytes: &[u8; 512]) -> Result<(), DiskError> {
        let failures = self.failures;
        if at >= self.sectors {
            return Err(DiskError::OutOfRange);
        }
        self.failures = failures.saturating_add(1);
        Err(DiskError::DiskFault)
    }

    fn sync(&mut self) -> Result<(), DiskError> {
        self.failures = self.failures.saturating_add(1);
        Err(DiskError::DiskFault)
    }

    fn failures(&self) -> u64 {
        self.failures
    }
}

/// A call of a disk, and what it answers.
#[derive(Clone, Copy)]
enum Call {
    /// Reads a sector whose bytes are all this one.
    Read(u64, Result<u8, DiskError>),
    /// Writes a sector whose bytes are all this one.
    Write(u64, u8, Result<(), DiskError>),
    Sync(Result<(), DiskError>),
    Failures(u64),
}

/// The byte that a read gives, where all are alike; else 255.
pub fn byte_of<D: Disk>(disk: &mut D, at: u64) -> Result<u8, DiskError> {
    let mut bytes = [7; 512];
    disk.read(at, &mut bytes)?;
    let byte = bytes[0];
    Ok(if bytes == [byte; 512] { byte } else { 255 })
}

fn is_answered<D: Disk>(disk: &mut D, call: &Call) -> bool {
    match call {
        Call::Read(at, want) => byte_of(disk, *at) == *want,
        Call::Write(at, byte, want) => disk.write(*at, &[*byte; 512]) == *want,
        Call::Sync(want) => disk.sync() == *want,
        Call::Failures(want) => disk.failures() == *want,
    }
}

fn are_answered<D: Disk>(disk: &mut D, calls: &[Call]) -> bool {
    for call in calls {
        if !is_answered(disk, call) {
            return false;
        }
    }
    true
}

pub fn are_pending(alloc: Global, disk: &MemoryDisk<Global>, want: &[u64]) -> bool {
    match disk.pending(alloc) {
        Ok(pending) => pending.as_slice() == want,
        Err(_) => false,
    }
}

const NEW: [Call; 4] = [
    Call::Failures(0),
    Call::Read(0, Ok(0)),
    Call::Read(1, Ok(0)),
    Call::Read(2, Ok(0)),
];

fn is_zeros(alloc: Global) -> Result<bool, AllocError> {
    let mut disk = MemoryDisk::new(alloc, 3, 9)?;
    let new = disk.sectors() == 3 && are_pending(alloc, &disk, &[]);
    Ok(new && are_answered(&mut disk, &NEW))
}

#[test]
fn a_new_disk_is_zeros(rt: HostRuntime) -> Result<(), Fail> {
    assert!(rt; is_zeros(rt.alloc())?);
    Ok(())
}

const BEFORE_THE_STOP: [Call; 6] = [
    Call::Write(0, 10, Ok(())),
    Call::Sync(Ok(())),
    Call::Write(3, 13, Ok(())),
    Call::Write(1, 11, Ok(())),
    Call::Write(4, 14, Ok(())),
    Call::Read(3, Ok(13)),
];

/// A settled sector, one out of range, a pending one, and one that is named twice.
const FILL: [(u64, [u8; 512]); 5] = [
    (0, [70; 512]),
    (5, [75; 512]),
    (3, [73; 512]),
    (4, [74; 512]),
    (4, [84; 512]),
];

const AFTER_THE_STOP: [Call; 5] = [
    Call::Read(0, Ok(10)),
    Call::Read(1, Ok(11)),
    Call::Read(2, Ok(0)),
    Call::Read(3, Ok(73)),
    Call::Read(4, Ok(84)),
];

/// A disk that stopped, if all calls before were answered as they must be.
fn stopped(alloc: Global) -> Result<Option<MemoryDisk<Global>>, AllocError> {
    let mut disk = MemoryDisk::new(alloc, 5, 99)?;
    let before = are_answered(&mut disk, &BEFORE_THE_STOP) && are_pending(alloc, &disk, &[1, 3, 4]);
    Ok(before.then_some(disk.crash(&FILL)))
}

fn is_filled(alloc: Global) -> Result<bool, AllocError> {
    let Some(mut disk) = stopped(alloc)? else {
        return Ok(false);
    };
    Ok(are_answered(&mut disk, &AFTER_THE_STOP) && are_pending(alloc, &disk, &[]))
}

#[test]
fn a_stop_leaves_what_is_named_in_pending_sectors(rt: HostRuntime) -> Result<(), Fail> {
    assert!(rt; is_filled(rt.alloc())?);
    Ok(())
}

const FAULT: DiskError = DiskError::DiskFault;

const OUT: DiskError = DiskError::OutOfRange;

/// The record has room for three calls in range.
const UNTIL_FULL: [Call; 10] = [
    Call::Write(0, 1, Ok(())),
    Call::Write(1, 1, Err(OUT)),
    Call::Read(0, Ok(1)),
    Call::Read(1, Err(OUT)),
    Call::Sync(Ok(())),
    Call::Failures(0),
    Call::Write(0, 2, Err(FAULT)),
    Call::Read(0, Err(FAULT)),
    Call::Sync(Err(FAULT)),
    Call::Failures(3),
];

const EMPTY_AGAIN: [Call; 5] = [
    Call::Read(0, Ok(1)),
    Call::Failures(3),
    Call::Sync(Ok(())),
    Call::Sync(Ok(())),
    Call::Sync(Err(FAULT)),
];

fn is_full(alloc: Global) -> Result<bool, AllocError> {
    let mut disk = MemoryDisk::new(alloc, 1, 3)?;
    let full = are_answered(&mut disk, &UNTIL_FULL) && are_pending(alloc, &disk, &[]);
    Ok(full && are_answered(&mut disk.crash(&[]), &EMPTY_AGAIN))
}

#[test]
fn a_full_record_fails(rt: HostRuntime) -> Result<(), Fail> {
    assert!(rt; is_full(rt.alloc())?);
    Ok(())
}

/// Whether of six calls exactly the wanted ones fail. Two calls out of range among them are not counted.
fn are_failing<D: Disk>(disk: &mut D, want: [bool; 6]) -> bool {
    let mut bytes = [0; 512];
    let _ = disk.read(9, &mut bytes);
    let first = disk.write(0, &[1; 512]).is_err();
    let second = disk.read(0, &mut bytes).is_err();
    let _ = disk.write(9, &bytes);
    let third = disk.sync().is_err();
    let fourth = disk.write(1, &[2; 512]).is_err();
    let fifth = disk.read(1, &mut bytes).is_err();
    [first, second, third, fourth, fifth, disk.sync().is_err()] == want
}

/// The number of the call that fails, whether all later ones do, which of six do, and how many.
const FAILING: [(u64, Failing, [bool; 6], u64); 16] = [
    (
        0,
        Failing::Once,
        [false, false, false, false, false, false],
        0,
    ),
    (
        1,
        Failing::Once,
        [true, false, false, false, false, false],
        1,
    ),
    (
        2,
        Failing::Once,
        [false, true, false, false, false, false],
        1,
    ),
    (
        3,
        Failing::Once,
        [false, false, true, false, false, false],
        1,
    ),
    (
        4,
        Failing::Once,
        [false, false, false, true, false, false],
        1,
    ),
    (
        5,
        Failing::Once,
        [false, false, false, false, true, false],
        1,
    ),
    (
        6,
        Failing::Once,
        [false, false, false, false, false, true],
        1,
    ),
    (
        7,
        Failing::Once,
        [false, false, false, false, false, false],
        0,
    ),
    (0, Failing::Always, [true, true, true, true, true, true], 6),
    (1, Failing::Always, [true, true, true, true, true, true], 6),
    (2, Failing::Always, [false, true, true, true, true, true], 5),
    (
        3,
        Failing::Always,
        [false, false, true, true, true, true],
        4,
    ),
    (
        4,
        Failing::Always,
        [false, false, false, true, true, true],
        3,
    ),
    (
        5,
        Failing::Always,
        [false, false, false, false, true, true],
        2,
    ),
    (
        6,
        Failing::Always,
        [false, false, false, false, false, true],
        1,
    ),
    (
        7,
        Failing::Always,
        [false, false, false, false, false, false],
        0,
    ),
];

/// Whether exactly the wanted calls fail, and none of the disk inside.
fn is_failing(
    alloc: Global,
    call: u64,
    failing: Failing,
    want: [bool; 6],
    failures: u64,
) -> Result<bool, AllocError> {
    let mut disk = FailingDisk::new(MemoryDisk::new(alloc, 2, 6)?, call, failing);
    let same = disk.sectors() == 2 && are_failing(&mut disk, want);
    Ok(same && disk.failures() == failures && disk.into_inner().failures() == 0)
}

#[test]
fn the_call_of_the_number_fails(rt: HostRuntime) -> Result<(), Fail> {
    for (call, failing, want, failures) in FAILING {
        assert!(rt;
            is_failing(rt.alloc(), call, failing, want, failures)?,
            "call {call}"
        );
    }
    Ok(())
}

/// Whether a failure of the disk inside is passed on: its second call fails.
fn is_passed_on(alloc: Global) -> Result<bool, AllocError> {
    let inner = FailingDisk::new(MemoryDisk::new(alloc, 2, 5)?, 2, Failing::Once);
    let mut disk = FailingDisk::new(inner, 0, Failing::Once);
    let same = are_failing(&mut disk, [false, true, false, false, false, false]);
    Ok(same && disk.failures() == 1)
}

#[test]
fn a_failure_of_the_disk_inside_is_passed_on(rt: HostRuntime) -> Result<(), Fail> {
    assert!(rt; is_passed_on(rt.alloc())?);
    Ok(())
}

const NINES: [(u64, [u8; 512]); 3] = [(0, [9; 512]), (1, [9; 512]), (2, [9; 512])];

fn are_bytes<D: Disk>(disk: &mut D, want: [u8; 3]) -> bool {
    let [first, second, third] = want;
    byte_of(disk, 0) == Ok(first) && byte_of(disk, 1) == Ok(second) && byte_of(disk, 2) == Ok(third)
}

/// Writes two sectors, and the third only once no stop can undo these two.
fn write_in_order<D: Disk>(disk: &mut D) -> Result<(), DiskError> {
    disk.write(0, &[1; 512])?;
    disk.write(1, &[2; 512])?;
    disk.sync()?;
    disk.write(2, &[3; 512])
}

/// Whether three sectors hold these bytes after writing in order and a stop that leaves 9 in each pending sector. The call of
/// that number fails, and all later ones.
fn is_in_order(alloc: Global, call: u64, want: [u8; 3]) -> Result<bool, AllocError> {
    let mut disk = FailingDisk::new(MemoryDisk::new(alloc, 3, 20)?, call, Failing::Always);
    let written = write_in_order(&mut disk).is_ok();
    let mut disk = disk.into_inner().crash(&NINES);
    Ok(written == (call > 4) && are_bytes(&mut disk, want))
}

const ORDER: [(u64, [u8; 3]); 5] = [
    (1, [0, 0, 0]),
    (2, [9, 0, 0]),
    (3, [9, 9, 0]),
    (4, [1, 2, 0]),
    (5, [1, 2, 9]),
];

#[test]
fn a_stop_leaves_the_order(rt: HostRuntime) -> Result<(), Fail> {
    for (call, want) in ORDER {
        assert!(rt; is_in_order(rt.alloc(), call, want)?, "call {call}");
    }
    Ok(())
}

const DEAD: [Call; 2] = [Call::Sync(Err(FAULT)), Call::Failures(u64::MAX)];

/// Failures are counted up to the greatest number.
const STILL_DEAD: [Call; 2] = [Call::Read(4, Err(OUT)), Call::Failures(u64::MAX)];

fn is_dead<D: Disk>(disk: &mut D) -> bool {
    are_answered(disk, &DEAD)
        && disk.sectors() > 2
        && write_in_order(disk) == Err(FAULT)
        && are_answered(disk, &STILL_DEAD)
}

#[test]
fn a_dead_disk_is_a_disk(rt: HostRuntime) {
    let dead = DeadDisk {
        sectors: 4,
        failures: u64::MAX - 1,
    };
    assert!(rt; is_dead(&mut FailingDisk::new(dead, 1, Failing::Once)));
}
