//! The other side of a disk, closed before an image is written there.
ghost use Rattle.std.specs.Prelude.{◌≤◌, ◌<◌, IsErrOf, OnOk};
ghost use Rattle.sector_disk.specs.Disk.{HasCause, sector};
ghost use Rattle.sector_disk.specs.declared.disk.DiskError.TheVariants.{OutOfRange};
ghost use Rattle.gated_journal.specs.Half.{IsClosed};
ghost use Rattle.checkpoint.specs.Layout.{disk_size, other_of, root_at};
ghost use Rattle.checkpoint.specs.OnSide.{IsShut, KeepsSide};
ghost use Rattle.checkpoint.specs.Calls.{MakesCallsByRoot, close_calls_by, root_calls_by};

use crate::{Layout, Side};
use sector_disk::{Disk, DiskError};
use std::alloc::Allocator;

// Closes the other side's root. The root is written only where it reads as open: a torn write of a closed root could open it.
fn close_root<A: Allocator, D: Disk>(
    disk: &mut D,
    layout: &Layout,
    current: Side,
) -> Result<(), DiskError>
    requires inside { root_at (other_of current) < (D.view disk.old).sectors }
    ensures any_moment { KeepsSide A layout.now current (D.view disk.old) (D.view disk.new) }
    ensures closed { OnOk result ((D.view disk.old).honest → IsClosed (sector (D.view disk.new).reads (root_at (other_of current)))) }
    ensures made { MakesCallsByRoot (D.view disk.old) (D.view disk.new) (other_of current) (root_calls_by (other_of current)) result }
    ensures cause { HasCause (D.view disk.old) (D.view disk.new) result }
    ensures in_range { IsErrOf result OutOfRange → ⊥ }
    ensures honest { (D.view disk.old).honest → (D.view disk.new).honest }
{
    let root = layout.root(current.other());
    let mut bytes = [0; 512];
    disk.read(root, &mut bytes)?;
    if bytes[0] != 1 {
        return Ok(());
    }
    disk.write(root, &[0; 512])?;
    Ok(())
}

/// Begins a checkpoint: closes the root of the side that is not current, and the first gate of its half. Takes no memory.
///
/// At `Ok` nothing is pending, and rows and records can be written to that side. A stop at any moment, also after a
/// `DiskFault`, leaves what the current side held.
pub fn begin<A: Allocator, D: Disk>(
    disk: &mut D,
    layout: &Layout,
    current: Side,
) -> Result<(), DiskError>
    requires room { disk_size layout.now ≤ (D.view disk.old).sectors }

    // A stop at any moment of the call leaves the disk on the current side, with the register and records that it had there.
    ensures any_moment { KeepsSide A layout.now current (D.view disk.old) (D.view disk.new) }
    ensures shut { OnOk result ((D.view disk.old).honest → IsShut layout.now (other_of current) (D.view disk.new)) }

    // The root is read, and written only where it reads as open. Then the gate is closed. A call that fails is the last.
    ensures made { MakesCallsByRoot (D.view disk.old) (D.view disk.new) (other_of current) (close_calls_by layout.now (other_of current)) result }

    // It fails only where the device has failed.
    ensures cause { HasCause (D.view disk.old) (D.view disk.new) result }
    ensures in_range { IsErrOf result OutOfRange → ⊥ }
    ensures honest { (D.view disk.old).honest → (D.view disk.new).honest }
{
    close_root::<A, D>(disk, layout, current)?;
    disk.write(layout.half(current.other()), &[0; 512])?;
    disk.sync()?;
    Ok(())
}
