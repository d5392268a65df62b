//! Why a disk in a file was not made, opened, shown, dumped or checked.
ghost use Rattle.std.specs.Prelude.{◌≡◌, Some, None};
ghost use Rattle.served_disk.specs.Faults.{IsOfDump, IsOfFile, of_store};

use crate::{DiskDumpFault, Fault};
use file_disk::{FileDisk, FileFault, SectorFile};
use recovery::StoreFault;

/// Why the disk in a file was not made, opened, shown, dumped or checked; and the disk, if the file gave one.
#[derive(Drop)]
pub struct Refused<'a, F> {
    /// Why it was refused.
    pub fault: Fault<'a>,
    /// The disk, as the calls left it.
    pub disk: Option<FileDisk<F>>,
}

impl<'a, F: SectorFile> Refused<'a, F> {
    /// For a file of this name that is no disk.
    pub(crate) fn of_file(fault: FileFault, name: &'a str) -> Refused<'a, F>
        ensures fault { IsOfFile fault name.now result.fault }
        ensures disk { result.disk ≡ None }
    {
        Refused {
            fault: Fault::of_file(fault, name),
            disk: None,
        }
    }

    /// For a disk that gives no register, or is not made ready for one.
    pub(crate) fn of_store(fault: StoreFault, disk: FileDisk<F>) -> Refused<'a, F>
        ensures fault { result.fault ≡ of_store fault }
        ensures disk { result.disk ≡ Some disk }
    {
        Refused {
            fault: Fault::of_store(fault),
            disk: Some(disk),
        }
    }

    /// For a disk whose register was not dumped.
    pub(crate) fn of_dump(fault: DiskDumpFault, disk: FileDisk<F>) -> Refused<'a, F>
        ensures fault { IsOfDump fault result.fault }
        ensures disk { result.disk ≡ Some disk }
    {
        Refused {
            fault: Fault::of_dump(fault),
            disk: Some(disk),
        }
    }
}

impl<'a, F: SectorFile> From<Refused<'a, F>> for Fault<'a> {
    ghost from_gives = { λ refused fault. fault ≡ refused.fault };

    fn from(refused: Refused<'a, F>) -> Self {
        refused.fault
    }
}
