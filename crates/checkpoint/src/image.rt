// The image of a register written to the other side of a disk.
ghost use Rattle.std.specs.Prelude.{◌≡◌, ◌≤◌, ◌<◌, ◌+◌, ◌^◌, Err, IsErrOf, OnOk, length};
ghost use Rattle.sector_disk.specs.Effects.{KeepsDisk};
ghost use Rattle.image_rows.specs.Rows.{last_epoch, rows_of};
ghost use Rattle.checkpoint.specs.declared.fault.CheckpointError.TheVariants.{DiskFault, EpochsUsedUp};
ghost use Rattle.checkpoint.specs.Layout.{other_of};
ghost use Rattle.checkpoint.specs.OnSide.{HasFreshImage, KeepsSide};
ghost use Rattle.checkpoint.specs.Calls.{MakesImageCalls, row_sector};
ghost use Rattle.checkpoint.specs.Writing.{HasRoomFor, WritesRows};

use crate::{CheckpointError, Layout, Side, begin};
use centre_core::Register;
use image_rows::{LAST_EPOCH, row_after};
use sector_disk::{Disk, DiskError};
use std::alloc::Allocator;

/// Writes the rows of a register's image with this epoch from the sector `at` on, one row a sector. Takes no memory, reads nothing,
/// and syncs nothing: a stop may tear these rows until the next sync.
pub fn write_rows<A: Allocator + Clone, D: Disk>(
    disk: &mut D,
    at: u64,
    epoch: u64,
    register: &Register<A>,
) -> Result<(), DiskError>
    requires room { at + length (rows_of epoch register.now) ≤ (D.view disk.old).sectors }
    requires fits { at + length (rows_of epoch register.now) < 2 ^ 64 }
    ensures rows { WritesRows (D.view disk.old) (D.view disk.new) at (length (rows_of epoch register.now)) (row_sector (epoch, register.now)) result }
{
    centre_core::laws::registers(register);
    let mut written = 0;
    let mut coming = row_after(register, epoch, None);
    while let Some(next) = &coming {
        disk.write(at + written, &next.1)?;
        written += 1;
        coming = row_after(register, epoch, Some(next.0));
    }
    Ok(())
}

/// Writes the image of the register to the other side of the disk, in layout 2. `epoch` is that of the current side's image,
/// and the new image has the next one. The current side stays current until `switch`. Takes no memory.
///
/// The register has the layout's limits. A stop at any moment, also after a `DiskFault`, leaves what the current side held.
/// `EpochsUsedUp` comes where `epoch` is the last one, 2 to the 62nd.
pub fn write_image<A: Allocator + Clone, D: Disk>(
    disk: &mut D,
    layout: &Layout,
    current: Side,
    epoch: u64,
    register: &Register<A>,
) -> Result<(), CheckpointError>
    requires fits { HasRoomFor layout.now register.now (D.view disk.old) }

    // A stop at any moment of the call leaves the disk on the current side, with the register and records that it had there.
    ensures any_moment { KeepsSide A layout.now current (D.view disk.old) (D.view disk.new) }

    // At `Ok` each stop leaves the other side ready: its slot has the image, with the next epoch, and its root is closed. Its
    // half has no record.
    ensures ready { OnOk result ((D.view disk.old).honest → HasFreshImage A layout.now (other_of current) (epoch + 1, register.now) (D.view disk.new)) }

    // The other side's root is read, and written only where it reads as open. Its first gate is closed, and then each row is
    // written once. A call that fails is the last.
    ensures made { MakesImageCalls (D.view disk.old) (D.view disk.new) layout.now (other_of current) (epoch + 1, register.now) result }

    // It fails only where the device has failed, or where `epoch` is the last one.
    ensures keeps { KeepsDisk (D.view disk.old) (D.view disk.new) (IsErrOf result DiskFault) }
    ensures epochs { IsErrOf result EpochsUsedUp → last_epoch ≤ epoch }
    ensures used_up { last_epoch ≤ epoch → (result ≡ Err EpochsUsedUp) × (disk.new ≡ disk.old) }
{
    if LAST_EPOCH <= epoch {
        return Err(CheckpointError::EpochsUsedUp);
    }
    centre_core::laws::registers(register);
    begin::<A, D>(disk, layout, current)?;
    write_rows(disk, layout.slot(current.other()), epoch + 1, register)?;
    disk.sync()?;
    Ok(())
}
