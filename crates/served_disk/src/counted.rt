//! A reader, a writer and two disks that pass each call on, and count what went through.
ghost use Rattle.std.specs.Prelude.{◌≡◌};

use crate::Tally;
use sector_disk::{Disk, DiskError};
use std::io;
use std::io::{Read, Write};
use std::rt::Clock;
use std::sync::atomic::{AtomicU64, Ordering};

/// A reader whose lines are counted as they are read.
#[derive(Drop)]
pub struct CountedReader<'t, 'r, R, C> {
    reader: R,
    tally: &'t Tally<'r, C>,
}

impl<'t, 'r, R: Read, C: Clock + Eprint> CountedReader<'t, 'r, R, C> {
    /// This reader. `tally` counts its lines.
    pub fn new(reader: R, tally: &'t Tally<'r, C>) -> Self
        ensures reader { result.reader ≡ reader }
        ensures tally { result.tally.now ≡ tally.now }
    {
        CountedReader { reader, tally }
    }
}

impl<'t, 'r, R: Read, C: Clock + Eprint> Read for CountedReader<'t, 'r, R, C> {
    ghost remaining = { λ counted. R.remaining counted.reader };

    fn read(&mut self, buffer: &mut [u8]) -> io::Result<usize> {
        let given = self.reader.read(buffer);
        if let Ok(n) = &given {
            self.tally.add_lines(&buffer[..*n]);
        }
        given
    }
}

/// A writer whose lines are counted as they are written.
#[derive(Drop)]
pub struct CountedWriter<'t, 'r, W, C> {
    writer: W,
    tally: &'t Tally<'r, C>,
}

impl<'t, 'r, W: Write, C: Clock + Eprint> CountedWriter<'t, 'r, W, C> {
    /// This writer. `tally` counts its lines.
    pub fn new(writer: W, tally: &'t Tally<'r, C>) -> Self
        ensures writer { result.writer ≡ writer }
        ensures tally { result.tally.now ≡ tally.now }
    {
        CountedWriter { writer, tally }
    }
}

impl<'t, 'r, W: Write, C: Clock + Eprint> Write for CountedWriter<'t, 'r, W, C> {
    ghost contents = { λ counted. W.contents counted.writer };

    fn write(&mut self, bytes: &[u8]) -> io::Result<usize> {
        let written = self.writer.write(bytes);
        if let Ok(n) = &written {
            self.tally.add_lines(&bytes[..*n]);
        }
        written
    }

    fn flush(&mut self) -> io::Result<()> {
        self.writer.flush()
    }
}

/// A disk whose sectors are counted as they are read.
#[derive(Drop)]
pub struct CountedDisk<'t, 'r, D, C> {
    disk: D,
    tally: &'t Tally<'r, C>,
}

impl<'t, 'r, D: Disk, C: Clock + Eprint> CountedDisk<'t, 'r, D, C> {
    /// This disk. `tally` counts the sectors that are read.
    pub fn new(disk: D, tally: &'t Tally<'r, C>) -> Self
        ensures disk { result.disk ≡ disk }
        ensures tally { result.tally.now ≡ tally.now }
    {
        CountedDisk { disk, tally }
    }

    /// The disk within, as the calls left it.
    pub fn into_inner(self) -> D
        ensures { result ≡ self.entry.disk }
    {
        let CountedDisk { disk, tally: _ } = self;
        disk
    }
}

impl<'t, 'r, D: Disk, C: Clock + Eprint> Disk for CountedDisk<'t, 'r, D, C> {
    ghost view = { λ counted. D.view counted.disk };

    ghost sound = { λ counted honest. D.sound counted.disk honest };

    fn sectors(&self) -> u64 {
        self.disk.sectors()
    }

    fn read(&mut self, at: u64, bytes: &mut [u8; 512]) -> Result<(), DiskError> {
        let read = self.disk.read(at, bytes);
        if read.is_ok() {
            self.tally.add(1);
        }
        read
    }

    fn write(&mut self, at: u64, bytes: &[u8; 512]) -> Result<(), DiskError> {
        self.disk.write(at, bytes)
    }

    fn write_run(&mut self, at: u64, bytes: &[u8]) -> Result<(), DiskError> {
        self.disk.write_run(at, bytes)
    }

    fn sync(&mut self) -> Result<(), DiskError> {
        self.disk.sync()
    }

    fn failures(&self) -> u64 {
        self.disk.failures()
    }
}

/// A disk whose syncs are counted.
#[derive(Drop)]
pub struct SyncedDisk<'s, D> {
    disk: D,
    syncs: &'s AtomicU64,
}

impl<'s, D: Disk> SyncedDisk<'s, D> {
    /// This disk. `syncs` counts its syncs, also those that fail.
    pub fn new(disk: D, syncs: &'s AtomicU64) -> Self
        ensures disk { result.disk ≡ disk }
        ensures syncs { result.syncs ≡ syncs.entry }
    {
        SyncedDisk { disk, syncs }
    }

    /// The disk within, as the calls left it.
    pub fn into_inner(self) -> D
        ensures { result ≡ self.entry.disk }
    {
        let SyncedDisk { disk, syncs: _ } = self;
        disk
    }
}

impl<'s, D: Disk> Disk for SyncedDisk<'s, D> {
    ghost view = { λ synced. D.view synced.disk };

    ghost sound = { λ synced honest. D.sound synced.disk honest };

    fn sectors(&self) -> u64 {
        self.disk.sectors()
    }

    fn read(&mut self, at: u64, bytes: &mut [u8; 512]) -> Result<(), DiskError> {
        self.disk.read(at, bytes)
    }

    fn write(&mut self, at: u64, bytes: &[u8; 512]) -> Result<(), DiskError> {
        self.disk.write(at, bytes)
    }

    fn write_run(&mut self, at: u64, bytes: &[u8]) -> Result<(), DiskError> {
        self.disk.write_run(at, bytes)
    }

    fn sync(&mut self) -> Result<(), DiskError> {
        self.syncs.fetch_add(1, Ordering::SeqCst);
        self.disk.sync()
    }

    fn failures(&self) -> u64 {
        self.disk.failures()
    }
}
