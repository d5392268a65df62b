//! One query of the register on a disk, or the disk's figures.
ghost use Rattle.std.specs.Prelude.{◌≡◌, IfErr, IfOk, false};
ghost use Rattle.file_disk.specs.Disk.{calls_of};
ghost use Rattle.recovery.specs.declared.fault.StoreFault.TheVariants.{DiskFault};
ghost use Rattle.recovery.specs.Figures.{figures_at};
ghost use Rattle.recovery.specs.Lives.{view_of};
ghost use Rattle.recovery.specs.Opening.{IsOfOpening as IsOfStoreOpening};
ghost use Rattle.served_disk.specs.Calls.{IsOnlyRead, IsReadRefused, WasRead, WasReadAtMost};
ghost use Rattle.served_disk.specs.Making.{IsOfOpening};
ghost use Rattle.served_disk.specs.Named.{InFile, IsRefusedIn};
ghost use Rattle.served_disk.specs.Refusals.{IsUnshown, Reports};
ghost use Rattle.served_disk.specs.Showing.{IsShownBy, IsShownFor};

use crate::opening::adopt_disk;
use crate::showing_figures::show_figures;
use crate::{DiskFiles, Refused, Shown, show};
use file_disk::{FileDisk, SectorFile};
use recovery::{Store, StoreFault};
use sector_disk::Disk;
use std::alloc::{AllocError, Allocator, Global};

/// Answers a line about a store that is not broken: `disk` by the figures of its disk, any other line by its register.
fn show_store<A: Allocator + Copy + Drop, D: Disk>(
    alloc: A,
    store: &Store<A, D>,
    line: &[u8],
) -> Result<Shown<A>, AllocError>
    requires sound { store.now.broken ≡ false }
    ensures { IfOk result (λ shown. IsShownFor A (figures_at (view_of store.now)) store.now.register line.now shown.text.items shown.troubled) }
{
    if line == b"disk".as_slice() {
        return show_figures(alloc, &store.figures().unwrap());
    }
    show(alloc, store.register().unwrap(), line)
}

/// Answers `disk` by the figures of a disk, or a query of the register that is kept on it, as the only line of a station. The disk
/// is synced once, and then only read. It is returned, also after a fault.
///
/// # Errors
/// A fault of what is on the disk, a device that has failed, or out of memory. Out of memory hides no bad row or record that was read.
pub fn show_on<A: Allocator + Copy + Drop, D: Disk>(
    alloc: A,
    disk: D,
    line: &[u8],
) -> Result<(Shown<A>, D), (StoreFault, D)>
    ensures shown { IfOk result (λ r. IsShownBy A line.now r.0.text.items r.0.troubled (D.view disk)) }
    ensures refused { IfErr result (λ e. IsUnshown A (D.view disk) (D.view e.1) e.0) }
    ensures calls { IfOk result (λ r. WasRead (D.view disk) (D.view r.1)) }
    ensures some_calls { IfErr result (λ e. WasReadAtMost (e.0 ≡ DiskFault) (D.view disk) (D.view e.1)) }
    ensures kinds { IfErr result (λ e. IsOfStoreOpening e.0) }
{
    let store = Store::open(alloc, disk)?;
    let shown = show_store(alloc, &store, line);
    let disk = store.into_disk();
    match shown {
        Ok(shown) => Ok((shown, disk)),
        Err(_) => Err((StoreFault::NoMemory, disk)),
    }
}

/// Answers a line about the disk in the file of this name, as `show_on` does about a disk.
///
/// # Errors
/// Those of `open_disk`. `Memory` also comes if there is no memory for a text of 1,024 bytes.
pub fn show_disk<'a, F: SectorFile, R: DiskFiles<F>>(
    rt: &R,
    alloc: Global,
    name: &'a str,
    line: &[u8],
) -> Result<(Shown<Global>, FileDisk<F>), Refused<'a, F>>
    ensures shown { IfOk result (λ r. InFile F.view (R.adopted rt.now) name.now (IsShownBy Global line.now r.0.text.items r.0.troubled)) }
    ensures refused { IfErr result (IsRefusedIn F.view (R.adopted rt.now) name.now (Reports (IsUnshown Global))) }
    ensures calls { IfOk result (λ r. IsOnlyRead (calls_of r.1)) }
    ensures reading { IfErr result (IsReadRefused IsOfOpening name.now) }
{
    let disk = adopt_disk(rt, name)?;
    match show_on(alloc, disk, line) {
        Ok(shown) => Ok(shown),
        Err((fault, disk)) => Err(Refused::of_store(fault, disk)),
    }
}
