// A file of the operating system.
ghost use Rattle.std.specs.Prelude.{◌≡◌, ◌^◌, ◌<◌};

use crate::SectorFile;
use crate::file::bytes_moved;
use std::fs::File;
use std::io;
use std::io::ErrorKind;
use std::os::unix::fs::FileExt;

/// A file of the operating system, whose calls are those of Linux.
///
/// Nobody can prove what it gives and keeps, so it is modelled as never honest. A disk over it keeps what was written under
/// the premise that this file does. `sync` is `fdatasync`: on Linux it returns once the kernel has written the file's bytes,
/// and the device has reported that it holds them. A device that reports this too early keeps nothing.
///
/// Reads go through the page cache. After a failed `fdatasync`, Linux can keep the pages that it could not write there,
/// marked as written. Reads then give them, the next `fdatasync` succeeds, and a power cut loses them. So it is for every
/// later opening of the file, until the cache is dropped or the machine is restarted.
#[derive(Drop)]
pub struct HostFile {
    file: File,
    turns: u64,
    failures: u64,
    /// Of what kind the last failure was, if the system told.
    last: Option<ErrorKind>,
    ghost turned: { turns < 2 ^ 64 },
    ghost failed: { failures < 2 ^ 64 },
}

impl HostFile {
    ghost use Rattle.sector_disk.specs.Disk.{HasCause};
    ghost use Rattle.file_disk.specs.File.{moved, one_more};
    ghost use Rattle.file_disk.specs.Host.{host_last, host_turns, host_view};

    // A file of which nothing was read or written yet.
    pub(crate) fn new(file: File) -> HostFile
        ensures { host_turns result ≡ 0 }
    {
        HostFile {
            file,
            turns: 0,
            failures: 0,
            last: None,
        }
    }

    // The open file.
    pub(crate) fn file(&self) -> &File {
        &self.file
    }

    // Of what kind the last failure was, if the system told.
    pub(crate) fn last(&self) -> Option<ErrorKind>
        ensures { result ≡ host_last self.now }
    {
        self.last
    }

    // Counts a call that reads or writes, and whether it failed.
    fn count(&mut self, answer: io::Result<usize>)
        ensures turns { self.new.turns ≡ one_more self.old.turns }
        ensures cause { HasCause (host_view self.old) (host_view self.new) (moved answer) }
    {
        self.turns = self.turns.saturating_add(1);
        if bytes_moved(answer).is_err() {
            self.failures = self.failures.saturating_add(1);
            self.last = kind_of(answer);
        }
    }
}

// Of what kind the error is, if there is one.
fn kind_of<T: Drop>(answer: io::Result<T>) -> Option<ErrorKind> {
    match answer {
        Ok(_) => None,
        Err(error) => Some(error.kind()),
    }
}

impl SectorFile for HostFile {
    ghost use Rattle.file_disk.specs.Host.{host_view, host_turns};

    ghost view = { host_view };

    ghost turns = { host_turns };

    ghost measured = { λ file answer. Unit {0} };

    ghost sound = { λ file honest. absurd honest };

    fn len(&self) -> io::Result<u64> {
        Ok(self.file.metadata()?.len())
    }

    fn read_at(&mut self, bytes: &mut [u8], offset: u64) -> io::Result<usize> {
        let answer = self.file.read_at(bytes, offset);
        self.count(answer);
        answer
    }

    fn write_at(&mut self, bytes: &[u8], offset: u64) -> io::Result<usize> {
        let answer = self.file.write_at(bytes, offset);
        self.count(answer);
        answer
    }

    fn sync(&mut self) -> io::Result<()> {
        let answer = self.file.sync_data();
        if answer.is_err() {
            self.failures = self.failures.saturating_add(1);
            self.last = kind_of(answer);
        }
        answer
    }
}
