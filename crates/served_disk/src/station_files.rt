//! How the files of stations are opened.
ghost use Rattle.std.specs.Prelude.{List, Result};
ghost use Rattle.std.specs.declared.fs.File.{File};
ghost use Rattle.std.specs.declared.io.Error.{Error};
ghost use Rattle.sector_disk.specs.Numbers.{Byte};

use std::fs::{File, Files, OpenOptions};
use std::io;
use std::os::unix::fs::OpenOptionsExt;

/// Opens the files of stations by their names.
///
/// Two relations say what these calls answer, as those of `DiskFiles` do. The operating system's files are an instance, of which
/// nothing more is known.
pub trait StationFiles {
    // What opening the file of a name to read it answers.
    ghost opened: { Self → List Byte → Result File Error → Type 0 };

    // What opening the file of a name to append to it answers.
    ghost appended: { Self → List Byte → Result File Error → Type 0 };

    /// Opens the file of this name to read it. Opening a FIFO waits for its other end.
    fn open_input(&self, name: &str) -> io::Result<File>
        ensures { opened self.now name.now result };

    /// Opens the file of this name to append to it. It is made if it is missing, for its owner alone. Opening a FIFO waits for its
    /// other end.
    fn open_output(&self, name: &str) -> io::Result<File>
        ensures { appended self.now name.now result };
}

impl<R: Files<File = File>> StationFiles for R {
    ghost opened = { λ files name given. Unit {0} };

    ghost appended = { λ files name given. Unit {0} };

    fn open_input(&self, name: &str) -> io::Result<File> {
        File::open(self, name)
    }

    fn open_output(&self, name: &str) -> io::Result<File> {
        OpenOptions::new()
            .append(true)
            .create(true)
            .mode(0o600)
            .open(self, name)
    }
}
