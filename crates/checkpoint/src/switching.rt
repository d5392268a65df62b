// The switch from one side of a disk to the other.
ghost use Rattle.std.specs.Prelude.{◌≤◌, IsErrOf, OnOk};
ghost use Rattle.sector_disk.specs.Effects.{KeepsDisk};
ghost use Rattle.checkpoint.specs.declared.fault.CheckpointError.TheVariants.{DiskFault, EpochsUsedUp};
ghost use Rattle.checkpoint.specs.Layout.{disk_size, other_of};
ghost use Rattle.checkpoint.specs.OnSide.{ChangesSide, KeepsEitherSide};
ghost use Rattle.checkpoint.specs.Calls.{MakesCalls, switch_calls};

use crate::{CheckpointError, Layout, Side};
use sector_disk::Disk;
use std::alloc::Allocator;

/// Makes the other side of the disk the current one, once its image is written and synced: opens its root. Takes no
/// memory.
///
/// A stop at any moment, also after a `DiskFault`, leaves what was there before, or the new image with the records after it.
/// At `Ok` each stop leaves the latter.
pub fn switch<A: Allocator, D: Disk>(
    disk: &mut D,
    layout: &Layout,
    current: Side,
) -> Result<(), CheckpointError>
    requires room { disk_size layout.now ≤ (D.view disk.old).sectors }

    // Where the other side is ready with a greater epoch, a stop at any moment of the call leaves the disk on one side or the
    // other.
    ensures any_moment { KeepsEitherSide A layout.now current (D.view disk.old) (D.view disk.new) }

    // At `Ok` each stop then leaves it on the other side, with the register and records there.
    ensures switched { OnOk result (ChangesSide A layout.now current (D.view disk.old) (D.view disk.new)) }

    // The other side's root is opened, and synced. A call that fails is the last.
    ensures made { MakesCalls (D.view disk.old) (D.view disk.new) (switch_calls (other_of current)) result }

    // It fails only where the device has failed.
    ensures keeps { KeepsDisk (D.view disk.old) (D.view disk.new) (IsErrOf result DiskFault) }
    ensures epochs { IsErrOf result EpochsUsedUp → ⊥ }
{
    let mut root = [0; 512];
    root[0] = 1;
    disk.write(layout.root(current.other()), &root)?;
    disk.sync()?;
    Ok(())
}
