// A disk in memory, which keeps a record of its calls.
ghost use Rattle.std.specs.Prelude.{◌≡◌, ◌<◌, ◌≤◌, ◌==◌, ℕ, Err, IfOk, IsErrOf, false, true, filter, if◌then◌else◌, length, map, replicate, set, vec_len};
ghost use Rattle.std.specs.List.{range_with_len};
ghost use Rattle.sector_disk.specs.Crash.{IsFilled, is_pending};
ghost use Rattle.sector_disk.specs.Disk.{AreSectors, HasCause, IsCalled, HasRead, HasSynced, HasWritten, sector};
ghost use Rattle.sector_disk.specs.declared.record.Call.TheVariants.{Read, Sync, Write};
ghost use Rattle.sector_disk.specs.declared.disk.DiskError.TheVariants.{OutOfRange};

use crate::record::{Call, Record};
use crate::{Disk, DiskError};
use std::alloc::{AllocError, Allocator};

/// An honest disk in memory. A caller can see its pending sectors, and choose what a stop leaves in them.
///
/// It keeps a record of its calls `read`, `write` and `sync`. Once the record is full, each such call in range is a `DiskFault`.
#[derive(Drop)]
pub struct MemoryDisk<A: Allocator> {
    base: Vec<[u8; 512], A>,
    record: Record<A>,
    sectors: Vec<[u8; 512], A>,
    pending: Vec<bool, A>,
    ghost marks: { vec_len pending ≡ vec_len sectors },
    ghost bases: { vec_len base ≡ vec_len sectors },
}

impl<A: Allocator + Clone> MemoryDisk<A> {
    ghost use Rattle.sector_disk.specs.Memory.{IsBlank};

    /// A disk of zeros, nothing of it pending, with room for a record of so many calls.
    pub fn new(alloc: A, sectors: usize, calls: usize) -> Result<Self, AllocError>
        ensures { IfOk result (λ disk. IsBlank disk sectors calls) }
    {
        let base = zeros(alloc.clone()?, sectors)?;
        let now = zeros(alloc.clone()?, sectors)?;
        let pending = vec![in alloc.clone()?; false; sectors]?;
        let record = Record::new(alloc, calls)?;
        Ok(MemoryDisk {
            base,
            record,
            sectors: now,
            pending,
        })
    }
}

impl<A: Allocator> MemoryDisk<A> {
    ghost use Rattle.sector_disk.specs.Disk.{IsImageOf};
    ghost use Rattle.sector_disk.specs.Memory.{IsRestarted, memory_view};

    /// The numbers of the pending sectors, in order.
    pub fn pending<B: Allocator>(&self, alloc: B) -> Result<Vec<u64, B>, AllocError>
        ensures { let disk = memory_view self.now in IfOk result (λ all. all.items ≡ filter disk.pending (range_with_len 0 disk.sectors)) }
    {
        let mut all = Vec::new(alloc);
        for k in 0..self.pending.len() {
            if self.pending[k] {
                all.push(k as u64)?;
            }
        }
        Ok(all)
    }

    /// The disk that a stop leaves: each pending sector that is named holds these bytes. All others hold what a read gave.
    ///
    /// A sector that is named twice holds the bytes named last. Takes no memory. The record is empty, and has all its room.
    pub fn crash(self, fill: &[(u64, [u8; 512])]) -> MemoryDisk<A>
        ensures image { (memory_view self).honest → IsImageOf (memory_view self) (memory_view result).reads }
        ensures filled { IsFilled (memory_view self).reads (memory_view self).pending fill.now (memory_view result).reads }
        ensures restarted { IsRestarted self result }
    {
        let MemoryDisk {
            mut base,
            mut record,
            mut sectors,
            mut pending,
        } = self;
        fill_pending(&mut sectors, &pending, fill);
        clear(&mut pending);
        base.copy_from_slice(&sectors);
        record.clear();
        MemoryDisk {
            base,
            record,
            sectors,
            pending,
        }
    }
}

fn zeros<A: Allocator>(alloc: A, count: usize) -> Result<Vec<[u8; 512], A>, AllocError>
    ensures { IfOk result (λ all. all.items ≡ replicate count (replicate 512 0)) }
{
    let mut all = Vec::with_capacity(alloc, count)?;
    for k in 0..count {
        all.push([0; 512])?;
    }
    Ok(all)
}

// Puts bytes into the pending ones of the named sectors. Of bytes for one sector the last ones stay.
fn fill_pending(sectors: &mut [[u8; 512]], pending: &[bool], fill: &[(u64, [u8; 512])])
    requires { length pending.now ≡ length sectors.old }
    ensures filled { IsFilled sectors.old (is_pending pending.now) fill.now sectors.new }
    ensures whole { AreSectors sectors.old → AreSectors sectors.new }
{
    for (at, bytes) in fill {
        put_pending(sectors, pending, *at, bytes);
    }
}

// Puts bytes into a sector, if it is pending.
fn put_pending(sectors: &mut [[u8; 512]], pending: &[bool], at: u64, bytes: &[u8; 512])
    requires { length pending.now ≡ length sectors.old }
    ensures count { length sectors.new ≡ length sectors.old }
    ensures chosen { (k : ℕ) → k < length sectors.old → is_pending pending.now k ≡ true
        → sector sectors.new k ≡ (if at == k then bytes.now else sector sectors.old k) }
    ensures settled { (k : ℕ) → is_pending pending.now k ≡ false → sector sectors.new k ≡ sector sectors.old k }
    ensures whole { AreSectors sectors.old → AreSectors sectors.new }
{
    if at < sectors.len() as u64 && pending[at as usize] {
        put(sectors, at as usize, bytes);
    }
}

fn put(sectors: &mut [[u8; 512]], at: usize, bytes: &[u8; 512])
    requires { at < length sectors.old }
    ensures written { sectors.new ≡ set sectors.old at bytes.now }
    ensures whole { AreSectors sectors.old → AreSectors sectors.new }
{
    sectors[at].copy_from_slice(bytes);
}

fn get(sectors: &[[u8; 512]], at: usize, bytes: &mut [u8; 512])
    requires { at < length sectors.now }
    ensures { bytes.new ≡ sector sectors.now at }
{
    *bytes = sectors[at];
}

// Leaves no mark set.
fn clear(marks: &mut [bool])
    ensures { marks.new ≡ map (λ mark. false) marks.old }
{
    for mark in marks.iter_mut() {
        *mark = false;
    }
}

impl<A: Allocator> Disk for MemoryDisk<A> {
    ghost use Rattle.sector_disk.specs.Memory.{HasRecorded, memory_view};
    ghost use Rattle.sector_disk.specs.Inside.Past.{memory_sound};

    ghost view = { memory_view };

    ghost sound = { memory_sound };

    fn sectors(&self) -> u64 {
        self.sectors.len() as u64
    }

    fn read(&mut self, at: u64, bytes: &mut [u8; 512]) -> Result<(), DiskError>
        ensures effect { at < (memory_view self.old).sectors → (memory_view self.old).honest
            → HasRead (memory_view self.old) (memory_view self.new) at bytes.new result }
        ensures cause { HasCause (memory_view self.old) (memory_view self.new) result }
        ensures called { IsCalled (memory_view self.old) (memory_view self.new) (Read at) result }
        ensures out_of_range { (memory_view self.old).sectors ≤ at
            → (result ≡ Err OutOfRange) × (self.new ≡ self.old) }
        ensures in_range { IsErrOf result OutOfRange → (memory_view self.old).sectors ≤ at }
        ensures recorded { at < (memory_view self.old).sectors → HasRecorded self.old self.new result }
    {
        if at >= self.sectors() {
            return Err(DiskError::OutOfRange);
        }
        self.record.note(Call::Read(at))?;
        get(&self.sectors, at as usize, bytes);
        Ok(())
    }

    fn write(&mut self, at: u64, bytes: &[u8; 512]) -> Result<(), DiskError>
        ensures effect { at < (memory_view self.old).sectors → (memory_view self.old).honest
            → HasWritten (memory_view self.old) (memory_view self.new) at bytes.now result }
        ensures cause { HasCause (memory_view self.old) (memory_view self.new) result }
        ensures called { IsCalled (memory_view self.old) (memory_view self.new) (Write at bytes.now) result }
        ensures out_of_range { (memory_view self.old).sectors ≤ at
            → (result ≡ Err OutOfRange) × (self.new ≡ self.old) }
        ensures in_range { IsErrOf result OutOfRange → (memory_view self.old).sectors ≤ at }
        ensures recorded { at < (memory_view self.old).sectors → HasRecorded self.old self.new result }
    {
        if at >= self.sectors() {
            return Err(DiskError::OutOfRange);
        }
        self.record.note(Call::Write(at, *bytes))?;
        put(&mut self.sectors, at as usize, bytes);
        self.pending[at as usize] = true;
        Ok(())
    }

    fn sync(&mut self) -> Result<(), DiskError>
        ensures effect { (memory_view self.old).honest
            → HasSynced (memory_view self.old) (memory_view self.new) result }
        ensures cause { HasCause (memory_view self.old) (memory_view self.new) result }
        ensures called { IsCalled (memory_view self.old) (memory_view self.new) Sync result }
        ensures in_range { IsErrOf result OutOfRange → ⊥ }
        ensures recorded { HasRecorded self.old self.new result }
    {
        self.record.note(Call::Sync)?;
        clear(&mut self.pending);
        Ok(())
    }

    fn failures(&self) -> u64 {
        self.record.failures()
    }
}
