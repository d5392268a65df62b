// A disk as its users see it.
ghost use Rattle.std.specs.Prelude.{◌≡◌, ◌<◌, ◌≤◌, ◌+◌, ◌*◌, ◌^◌, ℕ, Err, IsErrOf, length};
ghost use Rattle.sector_disk.specs.Disk.{View, IsSound, HasRead, HasWritten, HasSynced, HasCause, IsCalled};
ghost use Rattle.sector_disk.specs.Filling.{HasFilled, Runs, part_of, sectors_in};
ghost use Rattle.sector_disk.specs.Run.{writes};
ghost use Rattle.sector_disk.specs.declared.record.Call.TheVariants.{Read, Sync, Write};
ghost use Rattle.sector_disk.specs.declared.disk.DiskError.TheVariants.{OutOfRange};

use crate::sector_in;
use thiserror::Error;

/// Why a call of a disk is refused.
#[derive(Clone, Copy, Debug, PartialEq, Eq, Drop, Error)]
pub enum DiskError {
    /// The device failed. What the call did is not known.
    #[error("the disk has failed")]
    DiskFault,
    /// The disk has no sector of that number. Nothing was done.
    #[error("the disk has no such sector")]
    OutOfRange,
}

/// Sectors of 512 bytes, numbered from 0. No call takes memory.
///
/// What clauses state of an honest disk has a premise: that the device does so. Each call passes that premise on.
pub trait Disk {
    /// What it is modelled as.
    ghost view: { Self → View };

    /// How many sectors it has.
    fn sectors(&self) -> u64
        ensures { result ≡ (view self.now).sectors };

    /// Reads one sector.
    ///
    /// After a `DiskFault` the bytes may hold anything.
    fn read(&mut self, at: u64, bytes: &mut [u8; 512]) -> Result<(), DiskError>
        ensures effect { at < (view self.old).sectors → (view self.old).honest
            → HasRead (view self.old) (view self.new) at bytes.new result }
        ensures cause { HasCause (view self.old) (view self.new) result }
        ensures called { IsCalled (view self.old) (view self.new) (Read at) result }
        ensures out_of_range { (view self.old).sectors ≤ at
            → (result ≡ Err OutOfRange) × (self.new ≡ self.old) }
        ensures in_range { IsErrOf result OutOfRange → (view self.old).sectors ≤ at };

    /// Writes one sector. Until the next sync that succeeds, a stop may leave any bytes in it.
    ///
    /// After a `DiskFault` the sector may read as anything.
    fn write(&mut self, at: u64, bytes: &[u8; 512]) -> Result<(), DiskError>
        ensures effect { at < (view self.old).sectors → (view self.old).honest
            → HasWritten (view self.old) (view self.new) at bytes.now result }
        ensures cause { HasCause (view self.old) (view self.new) result }
        ensures called { IsCalled (view self.old) (view self.new) (Write at bytes.now) result }
        ensures out_of_range { (view self.old).sectors ≤ at
            → (result ≡ Err OutOfRange) × (self.new ≡ self.old) }
        ensures in_range { IsErrOf result OutOfRange → (view self.old).sectors ≤ at };

    /// Writes a run of sectors, one after another, from the sector `at` on. Until the next sync that succeeds, a stop may leave any
    /// bytes in them.
    ///
    /// After a `DiskFault` they may read as anything.
    fn write_run(&mut self, at: u64, bytes: &[u8]) -> Result<(), DiskError>
        requires whole { length bytes.now ≡ 512 * sectors_in bytes.now }
        requires room { at + sectors_in bytes.now ≤ (view self.old).sectors }
        requires fits { at + sectors_in bytes.now < 2 ^ 64 }
        ensures effect { (view self.old).honest → HasFilled (view self.old) (view self.new) at (sectors_in bytes.now) (part_of bytes.now) result }
        ensures runs { Runs (view self.old) (view self.new) (writes at (sectors_in bytes.now) (part_of bytes.now)) result }
    {
        for k in 0..bytes.len() / 512 {
            self.write(at + k as u64, sector_in(bytes, k))?;
        }
        Ok(())
    }

    /// Makes what was written durable. Once it has answered `Ok`, a stop leaves what a read gives.
    ///
    /// After a `DiskFault` each sector that was pending still is.
    fn sync(&mut self) -> Result<(), DiskError>
        ensures effect { (view self.old).honest → HasSynced (view self.old) (view self.new) result }
        ensures cause { HasCause (view self.old) (view self.new) result }
        ensures called { IsCalled (view self.old) (view self.new) Sync result }
        ensures in_range { IsErrOf result OutOfRange → ⊥ };

    /// How often the device has failed, up to the greatest `u64`.
    fn failures(&self) -> u64
        ensures { result ≡ (view self.now).failures };

    /// An honest disk is sound.
    ghost sound: { (disk : Self) → (view disk).honest → IsSound (view disk) };
}
