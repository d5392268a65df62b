// The calls of a file system.
ghost use Rattle.std.specs.Prelude.{◌≡◌, IfOk, IsTrue};
ghost use Rattle.std.specs.Fs.{IsFile};
ghost use Rattle.file_disk.specs.Reasons.{Answers};

use crate::{HostFile, SectorFile};
use std::fs::{File, FileType, Files, OpenOptions, TryLockError};
use std::io;
use std::io::ErrorKind;
use std::os::fd::AsRawFd;
use std::os::unix::fs::{FileTypeExt, OpenOptionsExt};
use std::path::Path;

// Who may read and write a file that is made: its owner alone. It holds messages.
const OF_ITS_OWNER: u32 = 0o600;

/// Opens and makes files by their names, and prepares each to be a disk.
///
/// Relations say what these calls answer. Only the calls themselves show that one holds. So a clause that states it speaks of what
/// the call answered. The operating system's files are an instance, of which nothing more is known.
pub trait FileSystem<F: SectorFile> {
    /// What the calls answer.
    ghost answers: { Self → Answers F };

    /// Opens the file of this name for reading and writing, or makes it for its owner alone. If it is to be made, it must not exist.
    fn open(&self, name: &str, is_new: bool) -> io::Result<F>
        ensures gives { (answers self.now).opened is_new name.now result }
        ensures turns { IfOk result (λ file. F.turns file ≡ 0) };

    /// Locks a file, unless another process holds its lock.
    fn lock(&self, file: &F) -> Result<(), TryLockError>
        ensures { (answers self.now).locked file.now result };

    /// Whether a file keeps what is written.
    fn keeps(&self, file: &F) -> io::Result<bool>
        ensures { (answers self.now).judged file.now result };

    /// Gives a file a length in bytes, and makes that durable.
    fn set_length(&self, file: &F, bytes: u64) -> io::Result<()>
        ensures { (answers self.now).sized file.now bytes result };

    /// Makes the entry of the file of this name in its folder durable.
    fn sync_folder(&self, name: &str) -> io::Result<()>
        ensures { (answers self.now).entered name.now result };

    /// Of what kind the last failure of a file was, if it is known.
    fn last_failure(&self, file: &F) -> Option<ErrorKind>
        ensures { result ≡ (answers self.now).last file.now };
}

impl<R: Files<File = File>> FileSystem<HostFile> for R {
    ghost use Rattle.file_disk.specs.Host.{host_answers};

    ghost answers = { λ files. host_answers };

    fn open(&self, name: &str, is_new: bool) -> io::Result<HostFile> {
        match open_file(self, name, is_new) {
            Ok(file) => Ok(HostFile::new(file)),
            Err(error) => Err(error),
        }
    }

    fn lock(&self, file: &HostFile) -> Result<(), TryLockError> {
        file.file().try_lock()
    }

    fn keeps(&self, file: &HostFile) -> io::Result<bool> {
        match file.file().metadata() {
            Ok(metadata) => Ok(keeps(metadata.file_type())),
            Err(error) => Err(error),
        }
    }

    fn set_length(&self, file: &HostFile, bytes: u64) -> io::Result<()> {
        file.file().set_len(bytes)?;
        file.file().sync_all()
    }

    fn sync_folder(&self, name: &str) -> io::Result<()> {
        let folder = match Path::new(name).parent() {
            Some(folder) if !folder.as_str().is_empty() => File::open(self, folder)?,
            _ => File::open(self, ".")?,
        };
        folder.sync_all()
    }

    fn last_failure(&self, file: &HostFile) -> Option<ErrorKind> {
        file.last()
    }
}

// Whether files of this kind keep what is written.
fn keeps(kind: FileType) -> bool
    ensures { IsFile kind → IsTrue result }
{
    kind.is_file() || kind.is_block_device()
}

// Opens a file for reading and writing, or makes one.
fn open_file<R: Files<File = File>>(rt: &R, name: &str, is_new: bool) -> io::Result<File> {
    let opened = OpenOptions::new()
        .read(true)
        .write(true)
        .create_new(is_new)
        .mode(OF_ITS_OWNER)
        .open(rt, name);
    opened.and_then(off_the_streams)
}

// The file, under a number that is no standard stream's. Where such a stream was closed, the file may have got its number,
// and what is printed would land in the file.
fn off_the_streams(file: File) -> io::Result<File> {
    if file.as_raw_fd() > 2 {
        return Ok(file);
    }
    file.try_clone()
}
