//! Which calls of a disk an opening, a commit and a format make, in order.

use crate::commits;
use crate::made::{self, ATTACH};
use crate::opens::opened;
use crate::runs::run;
use recovery::{StoreFault, format};
use sector_disk::{Disk, DiskError, MemoryDisk};
use std::alloc::Global;

/// A call of a disk.
#[derive(Clone, Copy, Debug, PartialEq, Eq, Drop)]
pub enum Call {
    Read(u64),
    Write(u64),
    Sync,
}

/// A disk that notes each call that the disk within has answered by `Ok`, the last one last. A call for which there is no
/// memory is left out.
#[derive(Drop)]
pub struct NotingDisk {
    inner: MemoryDisk<Global>,
    calls: Vec<Call, Global>,
}

impl NotingDisk {
    pub fn new(alloc: Global, inner: MemoryDisk<Global>) -> Self {
        NotingDisk {
            inner,
            calls: Vec::new(alloc),
        }
    }

    /// Whether the disk got just these calls.
    fn got(&self, calls: &[Call]) -> bool {
        self.calls.as_slice() == calls
    }

    /// Whether these calls were the last ones.
    pub fn got_last(&self, calls: &[Call]) -> bool {
        self.calls.as_slice().ends_with(calls)
    }

    pub fn into_inner(self) -> MemoryDisk<Global> {
        self.inner
    }
}

impl Disk for NotingDisk {
    ghost use Rattle.sector_disk.specs.Memory.{memory_view};
    ghost use Rattle.sector_disk.specs.Inside.Past.{memory_sound};

    ghost view = { λ disk. memory_view disk.inner };

    ghost sound = { λ disk honest. memory_sound disk.inner honest };

    fn sectors(&self) -> u64 {
        self.inner.sectors()
    }

    fn read(&mut self, at: u64, bytes: &mut [u8; 512]) -> Result<(), DiskError> {
        self.inner.read(at, bytes)?;
        let _ = self.calls.push(Call::Read(at));
        Ok(())
    }

    fn write(&mut self, at: u64, bytes: &[u8; 512]) -> Result<(), DiskError> {
        self.inner.write(at, bytes)?;
        let _ = self.calls.push(Call::Write(at));
        Ok(())
    }

    fn sync(&mut self) -> Result<(), DiskError> {
        self.inner.sync()?;
        let _ = self.calls.push(Call::Sync);
        Ok(())
    }

    fn failures(&self) -> u64 {
        self.inner.failures()
    }
}

/// Eight writes and syncs: the header, root and gates of the sides, then the label.
const FORMAT: [Call; 8] = [
    Call::Write(3),
    Call::Write(1),
    Call::Write(2),
    Call::Write(589),
    Call::Write(628),
    Call::Sync,
    Call::Write(0),
    Call::Sync,
];

fn is_format_noted(alloc: Global) -> Option<bool> {
    let layout = made::layout()?;
    let mut disk = NotingDisk::new(alloc, MemoryDisk::new(alloc, 667, 99).ok()?);
    let ready = format::<Global, NotingDisk>(&mut disk, &layout) == Ok(());
    Some(ready && disk.got(&FORMAT))
}

#[test]
fn a_format_writes_the_label_between_two_syncs(rt: HostRuntime) {
    assert!(rt; is_format_noted(rt.alloc()) == Some(true));
}

/// A disk on which a rule is kept.
fn with_rule(alloc: Global) -> Option<NotingDisk> {
    Some(NotingDisk::new(alloc, commits::with_rule(alloc)?))
}

/// A sync, the label, root A, its header, root B, the header again as a row, a gate, a data sector and the next gate.
const OPENING: [Call; 9] = [
    Call::Sync,
    Call::Read(0),
    Call::Read(1),
    Call::Read(3),
    Call::Read(2),
    Call::Read(3),
    Call::Read(589),
    Call::Read(590),
    Call::Read(591),
];

fn is_opening_noted(alloc: Global) -> Option<bool> {
    let (answer, disk) = opened(alloc, with_rule(alloc)?);
    Some(answer == Ok(1) && disk.got(&OPENING))
}

/// An opening that is refused begins so too.
fn is_refusal_noted(alloc: Global) -> Option<bool> {
    let disk = NotingDisk::new(alloc, MemoryDisk::new(alloc, 667, 99).ok()?);
    let (answer, disk) = opened(alloc, disk);
    Some(answer == Err(StoreFault::Unformatted) && disk.got(&REFUSAL))
}

const REFUSAL: [Call; 2] = [Call::Sync, Call::Read(0)];

#[test]
fn an_opening_syncs_first_and_then_reads(rt: HostRuntime) {
    assert!(rt; is_opening_noted(rt.alloc()) == Some(true));
    assert!(rt; is_refusal_noted(rt.alloc()) == Some(true));
}

/// The record after the rule's and the next gate, closed; and, once they are safe, the record's gate.
const COMMIT: [Call; 5] = [
    Call::Write(592),
    Call::Write(593),
    Call::Sync,
    Call::Write(591),
    Call::Sync,
];

/// The nine calls of the opening come before them.
fn is_commit_noted(alloc: Global) -> Option<bool> {
    let (answered, disk) = run(alloc, with_rule(alloc)?, &[ATTACH]);
    Some(answered == 1 && disk.calls.len() == 14 && disk.got_last(&COMMIT))
}

#[test]
fn a_commit_opens_its_gate_between_two_syncs(rt: HostRuntime) {
    assert!(rt; is_commit_noted(rt.alloc()) == Some(true));
}
