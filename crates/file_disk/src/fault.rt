// Why a file is not taken as a disk.
ghost use Rattle.std.specs.Prelude.{◌≡◌};
ghost use Rattle.file_disk.specs.Fault.{make_cause, of_last, of_lock, of_making, of_opening, open_cause, or_memory};

use std::fs::TryLockError;
use std::io;
use std::io::ErrorKind;
use thiserror::Error;

/// Why a file was not opened or made.
#[derive(Clone, Copy, Debug, PartialEq, Eq, Drop)]
pub enum OpenCause {
    /// Another process holds its lock.
    Held,
    /// It exists already, and a new file was to be made.
    Exists,
    /// There is no such file, or no such folder on the way to it.
    Missing,
    /// This process may not open it so, or may not make a file there; or its file system is read-only.
    NotAllowed,
    /// It is a folder.
    NotAFile,
    /// Its file system has no space left for it, or its owner may have no more.
    NoSpace,
    /// Another cause, as a file system without locks.
    Other,
}

impl OpenCause {
    /// Why a call that opens or reads a file failed with an error of this kind. It is neither `Held` nor `Exists`.
    pub fn of(kind: ErrorKind) -> OpenCause
        ensures { result ≡ open_cause kind }
    {
        match kind {
            ErrorKind::NotFound | ErrorKind::NotADirectory => OpenCause::Missing,
            ErrorKind::PermissionDenied | ErrorKind::ReadOnlyFilesystem => OpenCause::NotAllowed,
            ErrorKind::IsADirectory => OpenCause::NotAFile,
            ErrorKind::StorageFull | ErrorKind::QuotaExceeded => OpenCause::NoSpace,
            _ => OpenCause::Other,
        }
    }

    // The same of a call that makes a new file.
    fn of_making(kind: ErrorKind) -> OpenCause
        ensures { result ≡ make_cause kind }
    {
        match kind {
            ErrorKind::AlreadyExists => OpenCause::Exists,
            _ => OpenCause::of(kind),
        }
    }
}

/// Why a file is not taken as a disk.
#[derive(Clone, Copy, Debug, PartialEq, Eq, Drop, Error)]
pub enum FileFault {
    /// The file can't be made, opened or locked, or has no space.
    #[error("the file can not be opened")]
    NotOpened(OpenCause),
    /// A call of the open file failed. A new file may be left, with any content.
    #[error("the file has failed")]
    DiskFault,
    /// There was no memory.
    #[error("out of memory")]
    NoMemory,
    /// It is a pipe, a socket or a device without blocks, which keeps nothing.
    #[error("the file keeps nothing")]
    KeepsNothing,
}

impl FileFault {
    /// The fault, or out of memory where the error reports that.
    pub(crate) fn or_memory(self, error: io::Error) -> FileFault
        ensures { result ≡ or_memory self error }
    {
        match error.kind() {
            ErrorKind::OutOfMemory => FileFault::NoMemory,
            _ => self,
        }
    }

    /// For an error of a call that opens a file, or makes a new one.
    pub(crate) fn of_opening(is_new: bool, error: io::Error) -> FileFault
        ensures { result ≡ of_opening is_new error }
    {
        let kind = error.kind();
        let cause = if is_new {
            OpenCause::of_making(kind)
        } else {
            OpenCause::of(kind)
        };
        FileFault::NotOpened(cause).or_memory(error)
    }

    /// For a call of a new file that failed with an error of this kind, as the file got its sectors.
    pub(crate) fn of_making(kind: ErrorKind) -> FileFault
        ensures { result ≡ of_making kind }
    {
        match kind {
            ErrorKind::StorageFull | ErrorKind::QuotaExceeded => FileFault::NotOpened(
                OpenCause::NoSpace,
            ),
            ErrorKind::OutOfMemory => FileFault::NoMemory,
            _ => FileFault::DiskFault,
        }
    }

    /// For what the last failure of a new file was, as the file got its sectors.
    pub(crate) fn of_last(last: Option<ErrorKind>) -> FileFault
        ensures { result ≡ of_last last }
    {
        match last {
            Some(kind) => FileFault::of_making(kind),
            None => FileFault::DiskFault,
        }
    }

    /// For a lock that was refused.
    pub(crate) fn of_lock(error: TryLockError) -> FileFault
        ensures { result ≡ of_lock error }
    {
        match error {
            TryLockError::WouldBlock => FileFault::NotOpened(OpenCause::Held),
            TryLockError::Error(error) => FileFault::of_opening(false, error),
        }
    }
}
