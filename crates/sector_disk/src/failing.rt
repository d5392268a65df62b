// A disk that fails some of its calls.
ghost use Rattle.std.specs.Prelude.{◌≡◌, ◌<◌, ◌≤◌, ◌+◌, ◌-◌, ◌^◌, true, false, min, Err, IsErrOf, Ok};
ghost use Rattle.sector_disk.specs.Disk.{HasCause, IsCalled, HasRead, HasSynced, HasWritten};
ghost use Rattle.sector_disk.specs.declared.record.Call.TheVariants.{Read, Sync, Write};
ghost use Rattle.sector_disk.specs.declared.disk.DiskError.TheVariants.{DiskFault, OutOfRange};

use crate::{Disk, DiskError};

/// Which calls fail.
#[derive(Clone, Copy, Debug, PartialEq, Eq, Drop)]
pub enum Failing {
    /// That call alone.
    Once,
    /// That call and all later ones.
    Always,
}

/// A disk that counts its calls `read`, `write` and `sync`. It fails a given one, or all from there on.
///
/// A call that fails does not reach the disk within. A call out of range is not counted.
#[derive(Debug, Drop)]
pub struct FailingDisk<D> {
    inner: D,
    call: u64,
    failing: Failing,
    made: u64,
    failed: u64,
}

impl<D: Disk> FailingDisk<D> {
    ghost use Rattle.sector_disk.specs.Failing.{disk_within, failing_disk, fails_next};

    /// Fails the call of that number, counted from 1. With 0, `Once` fails none and `Always` fails all.
    pub fn new(inner: D, call: u64, failing: Failing) -> Self
        ensures { result ≡ failing_disk inner call failing }
    {
        FailingDisk {
            inner,
            call,
            failing,
            made: 0,
            failed: 0,
        }
    }

    /// The disk within, as the calls left it.
    pub fn into_inner(self) -> D
        ensures { result ≡ disk_within self }
    {
        let FailingDisk {
            inner,
            call: _,
            failing: _,
            made: _,
            failed: _,
        } = self;
        inner
    }

    fn fails_next(&self) -> bool
        ensures { result ≡ fails_next self.now }
    {
        match self.failing {
            Failing::Once => self.made < self.call && self.call - self.made == 1,
            Failing::Always => self.call <= self.made || self.call - self.made == 1,
        }
    }

    // Counts a call, and returns whether it fails.
    fn count(&mut self) -> Result<(), DiskError>
        ensures made { self.new.made ≡ min (self.old.made + 1) (2 ^ 64 - 1) }
        ensures inner { self.new.inner ≡ self.old.inner }
        ensures same { (self.new.call ≡ self.old.call) × (self.new.failing ≡ self.old.failing) }
        ensures fails { fails_next self.old ≡ true
            → (result ≡ Err DiskFault) × (self.new.failed ≡ min (self.old.failed + 1) (2 ^ 64 - 1)) }
        ensures passes { fails_next self.old ≡ false → (result ≡ Ok tt) × (self.new.failed ≡ self.old.failed) }
    {
        let fails = self.fails_next();
        self.made = self.made.saturating_add(1);
        if fails {
            self.failed = self.failed.saturating_add(1);
            return Err(DiskError::DiskFault);
        }
        Ok(())
    }
}

impl<D: Disk> Disk for FailingDisk<D> {
    ghost use Rattle.sector_disk.specs.Failing.{HasCounted, failing_sound, failing_view};

    ghost view = { failing_view D.view };

    ghost sound = { λ disk honest. failing_sound D.view disk (D.sound disk.inner honest) };

    fn sectors(&self) -> u64 {
        self.inner.sectors()
    }

    fn read(&mut self, at: u64, bytes: &mut [u8; 512]) -> Result<(), DiskError>
        ensures effect { at < (failing_view D.view self.old).sectors → (failing_view D.view self.old).honest
            → HasRead (failing_view D.view self.old) (failing_view D.view self.new) at bytes.new result }
        ensures cause { HasCause (failing_view D.view self.old) (failing_view D.view self.new) result }
        ensures called { IsCalled (failing_view D.view self.old) (failing_view D.view self.new) (Read at) result }
        ensures out_of_range { (failing_view D.view self.old).sectors ≤ at
            → (result ≡ Err OutOfRange) × (self.new ≡ self.old) }
        ensures in_range { IsErrOf result OutOfRange → (failing_view D.view self.old).sectors ≤ at }
        ensures counted { at < (failing_view D.view self.old).sectors → HasCounted D.view self.old self.new result }
    {
        if at >= self.sectors() {
            return Err(DiskError::OutOfRange);
        }
        self.count()?;
        self.inner.read(at, bytes)
    }

    fn write(&mut self, at: u64, bytes: &[u8; 512]) -> Result<(), DiskError>
        ensures effect { at < (failing_view D.view self.old).sectors → (failing_view D.view self.old).honest
            → HasWritten (failing_view D.view self.old) (failing_view D.view self.new) at bytes.now result }
        ensures cause { HasCause (failing_view D.view self.old) (failing_view D.view self.new) result }
        ensures called { IsCalled (failing_view D.view self.old) (failing_view D.view self.new) (Write at bytes.now) result }
        ensures out_of_range { (failing_view D.view self.old).sectors ≤ at
            → (result ≡ Err OutOfRange) × (self.new ≡ self.old) }
        ensures in_range { IsErrOf result OutOfRange → (failing_view D.view self.old).sectors ≤ at }
        ensures counted { at < (failing_view D.view self.old).sectors → HasCounted D.view self.old self.new result }
    {
        if at >= self.sectors() {
            return Err(DiskError::OutOfRange);
        }
        self.count()?;
        self.inner.write(at, bytes)
    }

    fn sync(&mut self) -> Result<(), DiskError>
        ensures effect { (failing_view D.view self.old).honest
            → HasSynced (failing_view D.view self.old) (failing_view D.view self.new) result }
        ensures cause { HasCause (failing_view D.view self.old) (failing_view D.view self.new) result }
        ensures called { IsCalled (failing_view D.view self.old) (failing_view D.view self.new) Sync result }
        ensures in_range { IsErrOf result OutOfRange → ⊥ }
        ensures counted { HasCounted D.view self.old self.new result }
    {
        self.count()?;
        self.inner.sync()
    }

    fn failures(&self) -> u64 {
        self.inner.failures().saturating_add(self.failed)
    }
}
