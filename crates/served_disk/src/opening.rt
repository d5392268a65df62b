//! The register on a disk in a file.
ghost use Rattle.std.specs.Prelude.{◌≡◌, IfErr, IfOk, None, Ok, false};
ghost use Rattle.file_disk.specs.Disk.{IsNew, calls_of};
ghost use Rattle.recovery.specs.Lives.{view_of};
ghost use Rattle.served_disk.specs.Calls.{IsOnlyRead, IsReadRefused};
ghost use Rattle.served_disk.specs.Making.{IsOfOpening, IsOfTaking};
ghost use Rattle.served_disk.specs.Named.{IsNoDisk, IsRefusedIn, IsStoreIn};
ghost use Rattle.served_disk.specs.Refusals.{IsUnopened, Reports};

use crate::{DiskFiles, Refused, SyncedDisk};
use file_disk::{FileDisk, SectorFile};
use recovery::Store;
use std::alloc::Global;
use std::sync::atomic::AtomicU64;

/// The disk in the file of this name, which is kept locked. It has had no call.
pub(crate) fn adopt_disk<'a, F: SectorFile, R: DiskFiles<F>>(
    rt: &R,
    name: &'a str,
) -> Result<FileDisk<F>, Refused<'a, F>>
    ensures gives { IfOk result (λ disk. R.adopted rt.now name.now (Ok disk)) }
    ensures new { IfOk result IsNew }
    ensures no_disk { IfErr result (λ e. IsNoDisk (R.adopted rt.now name.now) IsNew name.now e.fault e.disk) }
    ensures kinds { IfErr result (λ e. IsOfOpening name.now e.fault) }
    ensures of_file { IfErr result (λ e. IsOfTaking name.now e.fault) }
    ensures none { IfErr result (λ e. e.disk ≡ None) }
{
    match rt.adopt(name) {
        Ok(disk) => Ok(disk),
        Err(fault) => Err(Refused::of_file(fault, name)),
    }
}

/// Opens the register that is kept on the disk in the file of this name, and keeps that file locked. The disk is synced once,
/// and then only read. After a fault the disk is returned, if the file gave one. `syncs` counts the syncs of the disk.
///
/// # Errors
/// `File` if the file can't be opened or another process holds it; `Unformatted`, `BadGeometry` or `Damaged` for what is on the
/// disk; `Device` only if the file can't be taken as a disk or the disk has failed; and `Memory`. Out of memory hides no bad row or record
/// that was read.
pub fn open_disk<'a, 's, F: SectorFile, R: DiskFiles<F>>(
    rt: &R,
    alloc: Global,
    name: &'a str,
    syncs: &'s AtomicU64,
) -> Result<Store<Global, SyncedDisk<'s, FileDisk<F>>>, Refused<'a, F>>
    // If the disk in the file is honest, the store has the register that it opens to.
    ensures opened { IfOk result (λ store. IsStoreIn F.view (R.adopted rt.now) name.now (view_of store)) }
    ensures refused { IfErr result (IsRefusedIn F.view (R.adopted rt.now) name.now (Reports (IsUnopened Global))) }
    ensures sound { IfOk result (λ store. store.broken ≡ false) }
    ensures calls { IfOk result (λ store. IsOnlyRead (calls_of store.disk.disk)) }
    ensures reading { IfErr result (IsReadRefused IsOfOpening name.now) }
{
    match adopt_disk(rt, name) {
        Ok(disk) => match Store::open(alloc, SyncedDisk::new(disk, syncs)) {
            Ok(store) => Ok(store),
            Err((fault, disk)) => Err(Refused::of_store(fault, disk.into_inner())),
        },
        Err(refused) => Err(refused),
    }
}
