use sector_disk::{Disk, DiskError, Failing, FailingDisk, MemoryDisk};
use std::alloc::Global;

/// A disk that passes each call on to a disk within. It counts the writes and syncs that succeed.
#[derive(Drop)]
pub struct CountingDisk<D: Disk> {
    inner: D,
    writes: u64,
    syncs: u64,
}

/// A disk in memory that may fail a call, and counts its writes and syncs.
pub type WatchedDisk = CountingDisk<FailingDisk<MemoryDisk<Global>>>;

/// A `WatchedDisk` over this disk. With `Once` it fails the call numbered `call`, counted from 1; with `Always` also all later ones. With
/// 0, `Once` fails none and `Always` fails all.
pub fn watched(disk: MemoryDisk<Global>, call: u64, failing: Failing) -> WatchedDisk {
    CountingDisk::new(FailingDisk::new(disk, call, failing))
}

impl<D: Disk> CountingDisk<D> {
    /// Nothing is counted yet.
    pub fn new(inner: D) -> Self {
        CountingDisk {
            inner,
            writes: 0,
            syncs: 0,
        }
    }

    /// How many sectors were written.
    pub fn writes(&self) -> u64 {
        self.writes
    }

    /// How many syncs there were.
    pub fn syncs(&self) -> u64 {
        self.syncs
    }

    /// The disk within.
    pub fn into_inner(self) -> D {
        self.inner
    }
}

impl<D: Disk> Disk for CountingDisk<D> {
    ghost view = { λ disk. D.view disk.inner };

    ghost sound = { λ disk honest. D.sound disk.inner honest };

    fn sectors(&self) -> u64 {
        self.inner.sectors()
    }

    fn read(&mut self, at: u64, bytes: &mut [u8; 512]) -> Result<(), DiskError> {
        self.inner.read(at, bytes)
    }

    fn write(&mut self, at: u64, bytes: &[u8; 512]) -> Result<(), DiskError> {
        self.inner.write(at, bytes)?;
        self.writes = self.writes.saturating_add(1);
        Ok(())
    }

    fn sync(&mut self) -> Result<(), DiskError> {
        self.inner.sync()?;
        self.syncs = self.syncs.saturating_add(1);
        Ok(())
    }

    fn failures(&self) -> u64 {
        self.inner.failures()
    }
}
