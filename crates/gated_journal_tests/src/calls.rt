//! Which calls of a disk an append makes: one run for the text of a record with the gate after it, and one write for its own gate.

use crate::both::{add_both, eleven};
use crate::made;
use crate::records::are_recorded;
use centre_core::Command;
use gated_journal::{Form, Journal};
use sector_disk::{Disk, DiskError, MemoryDisk};
use std::alloc::{AllocError, Global};
use std::test::Fail;

/// How many calls of each kind were `Ok`, and how many sectors the runs had.
#[derive(Clone, Copy, Debug, PartialEq, Eq, Drop)]
struct Tally {
    runs: u64,
    run_sectors: u64,
    writes: u64,
    syncs: u64,
}

/// A disk that counts the calls that write or sync.
#[derive(Drop)]
struct TallyDisk<D> {
    inner: D,
    tally: Tally,
}

/// A disk of which no call was counted yet.
fn tallied<D: Disk>(inner: D) -> TallyDisk<D> {
    TallyDisk {
        inner,
        tally: Tally {
            runs: 0,
            run_sectors: 0,
            writes: 0,
            syncs: 0,
        },
    }
}

impl<D: Disk> Disk for TallyDisk<D> {
    ghost view = { λ disk. D.view disk.inner };

    ghost sound = { λ disk honest. D.sound disk.inner honest };

    fn sectors(&self) -> u64 {
        self.inner.sectors()
    }

    fn read(&mut self, at: u64, bytes: &mut [u8; 512]) -> Result<(), DiskError> {
        self.inner.read(at, bytes)
    }

    fn write(&mut self, at: u64, bytes: &[u8; 512]) -> Result<(), DiskError> {
        let written = self.inner.write(at, bytes);
        if written.is_ok() {
            self.tally.writes = self.tally.writes.saturating_add(1);
        }
        written
    }

    fn write_run(&mut self, at: u64, bytes: &[u8]) -> Result<(), DiskError> {
        let written = self.inner.write_run(at, bytes);
        if written.is_ok() {
            self.tally.runs = self.tally.runs.saturating_add(1);
            let sectors = (bytes.len() / 512) as u64;
            self.tally.run_sectors = self.tally.run_sectors.saturating_add(sectors);
        }
        written
    }

    fn sync(&mut self) -> Result<(), DiskError> {
        let synced = self.inner.sync();
        if synced.is_ok() {
            self.tally.syncs = self.tally.syncs.saturating_add(1);
        }
        synced
    }

    fn failures(&self) -> u64 {
        self.inner.failures()
    }
}

/// A record of one data sector: that sector and the gate after it, then the record's gate.
const SHORT: Tally = Tally {
    runs: 1,
    run_sectors: 2,
    writes: 1,
    syncs: 2,
};

/// A record of 36 data sectors.
const LONG: Tally = Tally {
    runs: 1,
    run_sectors: 37,
    writes: 1,
    syncs: 2,
};

/// The record of 36 data sectors in both halves, with the same two syncs.
const LONG_TWICE: Tally = Tally {
    runs: 2,
    run_sectors: 74,
    writes: 2,
    syncs: 2,
};

/// Ten records of one data sector, and an eleventh that goes to both halves.
const ELEVEN: Tally = Tally {
    runs: 12,
    run_sectors: 24,
    writes: 12,
    syncs: 22,
};

/// The calls that add one record, whichever its form is.
fn calls_of_each(alloc: Global) -> Result<[Option<Tally>; 4], Fail> {
    let expiry = made::expiry().ok_or("an expiry")?;
    let longest = made::longest(alloc).ok_or("a short data PDU")?;
    let mut calls = [None; 4];
    for k in 0..4 {
        let form = if k % 2 == 0 {
            Form::Plain
        } else {
            Form::Numbered
        };
        let mut disk = tallied(MemoryDisk::new(alloc, 39, 199)?);
        let added = if k < 2 {
            are_recorded(alloc, &mut disk, form, &[&expiry])?
        } else {
            are_recorded(alloc, &mut disk, form, &[&longest; 64])?
        };
        calls[k] = added.then_some(disk.tally);
    }
    Ok(calls)
}

#[test]
fn a_text_is_one_run(rt: HostRuntime) -> Result<(), Fail> {
    let want = [Some(SHORT), Some(SHORT), Some(LONG), Some(LONG)];
    assert!(rt; calls_of_each(rt.alloc())? == want);
    Ok(())
}

/// The calls that add 64 of the longest commands to both halves.
fn calls_of_both(alloc: Global, longest: &Command<Global>) -> Result<Option<Tally>, AllocError> {
    let mut disk = tallied(MemoryDisk::new(alloc, 667, 199)?);
    let mut first = Journal::start(alloc, 589, 39, Form::Plain, 0)?;
    let mut second = Journal::start(alloc, 628, 39, Form::Numbered, 10)?;
    let added = add_both(&mut first, &mut second, &mut disk, &[longest; 64]).is_ok();
    Ok(added.then_some(disk.tally))
}

/// The calls that add ten records to one half, and the eleventh to both.
fn calls_of_eleven(alloc: Global, expiry: &Command<Global>) -> Result<Option<Tally>, AllocError> {
    let mut disk = tallied(MemoryDisk::new(alloc, 667, 199)?);
    let (added, _) = eleven(alloc, &mut disk, expiry)?;
    Ok(added.is_ok().then_some(disk.tally))
}

#[test]
fn a_text_is_one_run_in_each_half(rt: HostRuntime) -> Result<(), Fail> {
    let expiry = made::expiry().ok_or("an expiry")?;
    let longest = made::longest(rt.alloc()).ok_or("a short data PDU")?;
    assert!(rt; calls_of_both(rt.alloc(), &longest)? == Some(LONG_TWICE));
    assert!(rt; calls_of_eleven(rt.alloc(), &expiry)? == Some(ELEVEN));
    Ok(())
}
