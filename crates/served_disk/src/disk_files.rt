//! Files that are opened and made by their names, as disks.
ghost use Rattle.std.specs.Prelude.{◌≡◌, List, Result, IfOk, IsErrOf};
ghost use Rattle.sector_disk.specs.Numbers.{Byte, Sectors};
ghost use Rattle.file_disk.specs.Disk.{IsNew};
ghost use Rattle.file_disk.specs.declared.disk.FileDisk.{FileDisk};
ghost use Rattle.file_disk.specs.declared.fault.FileFault.{FileFault};
ghost use Rattle.file_disk.specs.declared.fault.FileFault.TheVariants.{KeepsNothing, NotOpened};
ghost use Rattle.file_disk.specs.declared.fault.OpenCause.TheVariants.{Exists};
ghost use Rattle.served_disk.specs.Calls.{IsBlankOf};

use file_disk::{FileDisk, FileFault, FileSystem, SectorFile};

/// Opens and makes files by their names, each as a disk.
///
/// Two relations say what these calls answer. Only the calls themselves show that one holds. So a clause that states it of a disk
/// or of a fault speaks of what the call answered for that name. Each file system is an instance (`FileSystem`): for it the
/// relations say which of its calls failed, and what it answered. The operating system is such a file system, and nothing is known
/// of what that answers.
pub trait DiskFiles<F: SectorFile> {
    // What opening the file of a name answers.
    ghost adopted: { Self → List Byte → Result (FileDisk F) FileFault → Type 0 };

    // What making a file of a name answers, with so many sectors.
    ghost created: { Self → List Byte → Sectors → Result (FileDisk F) FileFault → Type 0 };

    /// Opens the file of this name as it is. Its disk has had no call.
    fn adopt(&self, name: &str) -> Result<FileDisk<F>, FileFault>
        ensures gives { adopted self.now name.now result }
        ensures new { IfOk result IsNew }
        ensures refused { IsErrOf result (NotOpened Exists) → ⊥ };

    /// Makes a file of this name, of so many sectors of zeros, which are durable.
    fn create(&self, name: &str, sectors: u64) -> Result<FileDisk<F>, FileFault>
        ensures gives { created self.now name.now sectors result }
        ensures kind { IsErrOf result KeepsNothing → ⊥ }
        ensures blank { IfOk result (IsBlankOf sectors) };
}

impl<F: SectorFile, R: FileSystem<F>> DiskFiles<F> for R {
    ghost use Rattle.served_disk.specs.Systems.{Adopts, Creates};

    ghost adopted = { λ system name given. Adopts F.measured (R.answers system) name given };

    ghost created = { λ system name sectors given. Creates F.view F.turns F.measured (R.answers system) name sectors given };

    fn adopt(&self, name: &str) -> Result<FileDisk<F>, FileFault> {
        FileDisk::<F>::adopt(self, name)
    }

    fn create(&self, name: &str, sectors: u64) -> Result<FileDisk<F>, FileFault> {
        FileDisk::<F>::create(self, name, sectors)
    }
}
