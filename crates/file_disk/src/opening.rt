// Files as disks, by their names.
ghost use Rattle.std.specs.Prelude.{◌≡◌, ◌⊎◌, ◌*◌, false, true, Ok, IfErr, IfOk, IsErrOf, OnErr, OnOk};
ghost use Rattle.file_disk.specs.Fault.{IsOfKind, IsOfLock, IsOfOpening};
ghost use Rattle.file_disk.specs.Reasons.{HasOpened, IsOfOtherKind, IsUnentered, IsUnlocked, IsUnopened, IsUnsized};
ghost use Rattle.file_disk.specs.declared.fault.FileFault.TheVariants.{KeepsNothing};

use crate::{FileDisk, FileFault, FileSystem, SectorFile};
use sector_disk::Disk;

impl<F: SectorFile> FileDisk<F> {
    ghost use Rattle.file_disk.specs.Disk.{IsNew, blank_calls, calls_of, file_of, is_lost};
    ghost use Rattle.file_disk.specs.Reasons.{IsAdopted, IsCreated, IsNotAdopted, IsNotCreated};
    ghost use Rattle.file_disk.specs.declared.fault.FileFault.TheVariants.{KeepsNothing, NotOpened};
    ghost use Rattle.file_disk.specs.declared.fault.OpenCause.TheVariants.{Exists};

    /// Makes a file of that many sectors of zeros for its owner alone (mode 0600), and keeps it locked. A file that exists is
    /// `NotOpened(Exists)`, and one for which there is no space `NotOpened(NoSpace)`.
    ///
    /// Every sector is written and synced, so that a device without room for them fails now. At `Ok` the file, its length and
    /// its entry in the folder are durable, as far as `fsync` of a file and of its folder on Linux makes them so. The entries
    /// of the folders above are the caller's. A file that it made and could not finish is left: delete it by hand.
    pub fn create<R: FileSystem<F>>(rt: &R, path: &str, sectors: u64) -> Result<Self, FileFault>
        ensures sectors { IfOk result (λ disk. disk.sectors ≡ sectors) }
        ensures calls { IfOk result (λ disk. calls_of disk ≡ blank_calls sectors) }
        ensures failures { IfOk result (λ disk. disk.failures ≡ 0) }
        ensures kept { IfOk result (λ disk. is_lost disk ≡ false) }
        ensures kind { IsErrOf result KeepsNothing → ⊥ }
        ensures made { IfOk result (λ disk. IsCreated F.measured (R.answers rt.now) path.now sectors) }
        ensures reason { IfErr result (IsNotCreated F.measured (R.answers rt.now) path.now F.view F.turns sectors) }
    {
        let Some(bytes) = sectors.checked_mul(512) else {
            return Err(FileFault::DiskFault);
        };
        let file = open_locked(rt, path, true)?;
        set_length(rt, &file, bytes)?;
        let mut disk = FileDisk::over(file)?;
        if disk.clear().is_err() {
            let file = disk.into_file();
            return Err(FileFault::of_last(rt.last_failure(&file)));
        }
        sync_folder(rt, path)?;
        if disk.sectors() != sectors {
            return Err(FileFault::DiskFault);
        }
        Ok(disk)
    }

    /// Opens a file as it is, and keeps it locked. Each whole sector of the file is one of the disk; a rest is ignored. A pipe, a
    /// socket or a device without blocks is `KeepsNothing`.
    ///
    /// Where an earlier sync of the file has failed, reads may give what the device does not hold (`HostFile` says why).
    pub fn adopt<R: FileSystem<F>>(rt: &R, path: &str) -> Result<Self, FileFault>
        ensures new { IfOk result IsNew }
        ensures untouched { IfOk result (λ disk. F.turns (file_of disk) ≡ 0) }
        ensures refused { IsErrOf result (NotOpened Exists) → ⊥ }
        ensures taken { IfOk result (λ disk. IsAdopted F.measured (R.answers rt.now) path.now (file_of disk) disk.sectors) }
        ensures reason { IfErr result (IsNotAdopted F.measured (R.answers rt.now) path.now) }
    {
        let file = open_locked(rt, path, false)?;
        check_kind(rt, &file)?;
        FileDisk::over(file)
    }
}

// Refuses a file that keeps nothing.
fn check_kind<F: SectorFile, R: FileSystem<F>>(rt: &R, file: &F) -> Result<(), FileFault>
    ensures kept { OnOk result ((R.answers rt.now).judged file.now (Ok true)) }
    ensures reason { IfErr result (IsOfOtherKind (R.answers rt.now) file.now) }
    ensures kinds { IfErr result IsOfKind }
{
    match rt.keeps(file) {
        Ok(true) => Ok(()),
        Ok(false) => Err(FileFault::KeepsNothing),
        Err(error) => Err(FileFault::DiskFault.or_memory(error)),
    }
}

// Opens a file for reading and writing, or makes one, and locks it.
fn open_locked<F: SectorFile, R: FileSystem<F>>(
    rt: &R,
    path: &str,
    is_new: bool,
) -> Result<F, FileFault>
    ensures opened { IfOk result (HasOpened (R.answers rt.now) path.now is_new) }
    ensures turns { IfOk result (λ file. F.turns file ≡ 0) }
    ensures reason { IfErr result (λ fault. IsUnopened (R.answers rt.now) path.now is_new fault ⊎ IsUnlocked (R.answers rt.now) path.now is_new fault) }
    ensures kinds { IfErr result (λ fault. IsOfOpening is_new fault ⊎ IsOfLock fault) }
{
    match rt.open(path, is_new) {
        Ok(file) => match rt.lock(&file) {
            Ok(()) => Ok(file),
            Err(error) => Err(FileFault::of_lock(error)),
        },
        Err(error) => Err(FileFault::of_opening(is_new, error)),
    }
}

// Gives a new file its length, and makes that durable.
fn set_length<F: SectorFile, R: FileSystem<F>>(
    rt: &R,
    file: &F,
    bytes: u64,
) -> Result<(), FileFault>
    ensures sized { OnOk result ((R.answers rt.now).sized file.now bytes (Ok tt)) }
    ensures reason { IfErr result (IsUnsized (R.answers rt.now) file.now bytes) }
    ensures kind { IsErrOf result KeepsNothing → ⊥ }
{
    match rt.set_length(file, bytes) {
        Ok(()) => Ok(()),
        Err(error) => Err(FileFault::of_making(error.kind())),
    }
}

// Makes the entry of a new file in its folder durable.
fn sync_folder<F: SectorFile, R: FileSystem<F>>(rt: &R, path: &str) -> Result<(), FileFault>
    ensures entered { OnOk result ((R.answers rt.now).entered path.now (Ok tt)) }
    ensures reason { IfErr result (IsUnentered (R.answers rt.now) path.now) }
    ensures kind { IsErrOf result KeepsNothing → ⊥ }
{
    match rt.sync_folder(path) {
        Ok(()) => Ok(()),
        Err(error) => Err(FileFault::of_making(error.kind())),
    }
}
