// A disk whose writes and syncs are noted.

use sector_disk::{Disk, DiskError};
use std::alloc::Global;
use std::cell::RefCell;

/// A call of a disk that changes what a stop may leave.
#[derive(Drop)]
pub(crate) enum Call {
    Write(u64, [u8; 512]),
    Sync,
}

/// The calls that a disk got, in order.
pub(crate) type Calls = RefCell<Vec<Call, Global>>;

/// A disk that notes each call that the disk within has answered by `Ok`. A call for which there is no memory is left out.
#[derive(Drop)]
pub(crate) struct WatchedDisk<'a, D> {
    inner: D,
    calls: &'a Calls,
}

impl<'a, D: Disk> WatchedDisk<'a, D> {
    pub(crate) fn new(inner: D, calls: &'a Calls) -> Self {
        WatchedDisk { inner, calls }
    }

    fn note(&self, call: Call) {
        if let Ok(mut calls) = self.calls.try_borrow_mut() {
            let _ = calls.push(call);
        }
    }
}

impl<'a, D: Disk> Disk for WatchedDisk<'a, D> {
    ghost view = { λ disk. D.view disk.inner };

    ghost sound = { λ disk honest. D.sound disk.inner honest };

    fn sectors(&self) -> u64 {
        self.inner.sectors()
    }

    fn read(&mut self, at: u64, bytes: &mut [u8; 512]) -> Result<(), DiskError> {
        self.inner.read(at, bytes)
    }

    fn write(&mut self, at: u64, bytes: &[u8; 512]) -> Result<(), DiskError> {
        self.inner.write(at, bytes)?;
        self.note(Call::Write(at, *bytes));
        Ok(())
    }

    fn sync(&mut self) -> Result<(), DiskError> {
        self.inner.sync()?;
        self.note(Call::Sync);
        Ok(())
    }

    fn failures(&self) -> u64 {
        self.inner.failures()
    }
}
