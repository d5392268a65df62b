// Where a journal is on its disk, and how a record is written there.
ghost use Rattle.std.specs.Prelude.{◌≡◌, ◌+◌, ◌-◌, ◌*◌, ◌<◌, ◌≤◌, ◌^◌, ℕ, ◌++◌, Err, IfErr, drop, length, replicate, false, IsErrOf, OnOk, OnErr};
ghost use Rattle.sector_disk.specs.Effects.{KeepsDisk};
ghost use Rattle.sector_disk.specs.Run.{writes};
ghost use Rattle.sector_disk.specs.Filling.{HasFilled, Runs};
ghost use Rattle.gated_journal.specs.declared.fault.JournalError.TheVariants.{DiskFault, JournalFull};
ghost use Rattle.gated_journal.specs.Adding.{IsOfAppend};
ghost use Rattle.gated_journal.specs.Calls.{settled_calls};
ghost use Rattle.gated_journal.specs.Inside.Adding.{AddsText};
ghost use Rattle.gated_journal.specs.Record.{data_sector, data_size, sectors_for};
ghost use Rattle.gated_journal.specs.Settled.{room_of};

use crate::padded::Padded;
use crate::{Form, JournalError};
use sector_disk::{Disk, DiskError};
use std::alloc::Allocator;

/// The place of a half of a disk, and the gate at which its next record goes.
#[derive(Clone, Copy, Debug, PartialEq, Eq, Drop)]
pub struct Place {
    /// The half's first sector.
    pub first: u64,
    /// The sector after the half's last one.
    pub end: u64,
    /// The next record's gate.
    pub next: u64,
    /// The form of the half's records.
    pub form: Form,
    /// How many commands were accepted before those of the next record.
    pub count: u64,
}

impl Place {
    // The most data sectors that the next record may have.
    pub(crate) fn room(self) -> u64
        ensures { result ≡ room_of self }
    {
        self.end.saturating_sub(self.next).saturating_sub(2)
    }

    // Adds a record with this text, whose commands are under the allocator A. The caller adds them to `count`. The padded text
    // is written by one call of the disk if it ends with the sector of the next gate.
    pub(crate) fn append_text<A: Allocator, D: Disk>(
        &mut self,
        disk: &mut D,
        data: &Padded<'_>,
    ) -> Result<(), JournalError>
        requires end { self.old.end ≤ (D.view disk.old).sectors }
        requires up { self.old.first ≤ self.old.next }
        requires some { 0 < length data.now.text.now }
        requires small { length data.now.text.now < 2 ^ 32 }

        // A stop leaves the records with the new one or without it. At `Ok` a stop after the call leaves the new one too.
        ensures adds { AddsText A (D.view disk.old) (D.view disk.new) self.old self.new data.now.text.now result }
        ensures same { OnErr result (self.new ≡ self.old) }
        ensures keeps { KeepsDisk (D.view disk.old) (D.view disk.new) (IsErrOf result JournalError.DiskFault) }

        // It fails only where the record has no room, or where the device has failed.
        ensures kinds { IfErr result IsOfAppend }
        ensures full { IsErrOf result JournalError.JournalFull → room_of self.old < data_size data.now.text.now }
        ensures no_room { room_of self.old < data_size data.now.text.now → (result ≡ Err JournalError.JournalFull) × (disk.new ≡ disk.old) }
    {
        let size = sectors_for(data.text.len() as u64);
        if self.room() < size {
            return Err(JournalError::JournalFull);
        }
        // The text and the gate after it, closed. Then the record's gate, open.
        settle(disk, self.next + 1, size + 1, data)?;
        let open = Padded {
            text: &[1],
            bytes: &[1],
        };
        settle(disk, self.next, 1, &open)?;
        self.next += size + 1;
        Ok(())
    }
}

// How many sectors so many bytes take.
pub(crate) fn sectors_for(bytes: u64) -> u64
    requires { bytes + 511 < 2 ^ 64 }
    ensures { result ≡ sectors_for bytes }
{
    (bytes + 511) / 512
}

// A sector that begins with these bytes, with zeros after them.
fn padded(prefix: &[u8]) -> [u8; 512]
    requires { length prefix.now ≤ 512 }
    ensures { result ≡ prefix.now ++ replicate (512 - length prefix.now) 0 }
{
    let mut bytes = [0; 512];
    put_prefix(&mut bytes, prefix);
    bytes
}

fn put_prefix(bytes: &mut [u8], prefix: &[u8])
    requires { length prefix.now ≤ length bytes.old }
    ensures { bytes.new ≡ prefix.now ++ drop (length prefix.now) bytes.old }
{
    bytes[..prefix.len()].copy_from_slice(prefix);
}

// The sector k of a text.
fn sector_of(text: &[u8], k: usize) -> [u8; 512]
    requires { k < 2 ^ 32 }
    ensures { result ≡ data_sector text.now k }
{
    let begin = text.len().min(512 * k);
    let end = text.len().min(512 * k + 512);
    padded(&text[begin..end])
}

// Writes the first n sectors of a text from the disk's sector `at` on: by one call if these are all the padded bytes.
pub(crate) fn fill<D: Disk>(
    disk: &mut D,
    at: u64,
    n: u64,
    data: &Padded<'_>,
) -> Result<(), DiskError>
    requires room { at + n ≤ (D.view disk.old).sectors }
    requires fits { at + n < 2 ^ 64 }
    requires small { n < 2 ^ 32 }
    ensures effect { (D.view disk.old).honest → HasFilled (D.view disk.old) (D.view disk.new) at n (data_sector data.now.text.now) result }
    ensures runs { Runs (D.view disk.old) (D.view disk.new) (writes at n (data_sector data.now.text.now)) result }
{
    if data.bytes.len() as u64 == 512 * n {
        return disk.write_run(at, data.bytes);
    }
    for k in 0..n {
        disk.write(at + k, &sector_of(data.text, k as usize))?;
    }
    Ok(())
}

// Writes the first n sectors of a text from the disk's sector `at` on, and syncs them.
fn settle<D: Disk>(disk: &mut D, at: u64, n: u64, data: &Padded<'_>) -> Result<(), DiskError>
    requires room { at + n ≤ (D.view disk.old).sectors }
    requires fits { at + n < 2 ^ 64 }
    requires small { n < 2 ^ 32 }
    ensures effect { (D.view disk.old).honest → HasFilled (D.view disk.old) (D.view disk.new) at n (data_sector data.now.text.now) result }
    ensures durable { (D.view disk.old).honest → OnOk result ((k : ℕ) → (D.view disk.new).pending k ≡ false) }
    ensures runs { Runs (D.view disk.old) (D.view disk.new) (settled_calls at n data.now.text.now) result }
{
    fill(disk, at, n, data)?;
    disk.sync()
}
