//! A disk formatted for a register that is already there.
ghost use Rattle.std.specs.Prelude.{◌≡◌, ◌≤◌, ◌<◌, [], Err, IfErr, IsErr, IsErrOf, Ok, OnOk};
ghost use Rattle.sector_disk.specs.Disk.{HasFailed};
ghost use Rattle.sector_disk.specs.Effects.{KeepsDisk};
ghost use Rattle.sector_disk.specs.Run.{HasCalled, HasMade};
ghost use Rattle.sector_disk.specs.declared.disk.DiskError.TheVariants.{OutOfRange};
ghost use Rattle.gated_journal.specs.declared.form.Form.TheVariants.{Numbered};
ghost use Rattle.checkpoint.specs.declared.side.Side.TheVariants.{A};
ghost use Rattle.checkpoint.specs.Layout.{disk_size, half_at};
ghost use Rattle.checkpoint.specs.OnSide.{EachIsOnSide, InEach, fresh};
ghost use Rattle.recovery.specs.declared.fault.StoreFault.TheVariants.{BadGeometry, DiskFault};
ghost use Rattle.recovery.specs.FormatWith.{filled_calls, format_with_calls};
ghost use Rattle.recovery.specs.Opens.{opening, opens};
ghost use Rattle.recovery.specs.Inside.Filled.{AreFilled};
ghost use Rattle.recovery.specs.Lives.{Closed, IsLife};

use crate::StoreFault;
use crate::formatting::{label_sector, write_sides};
use centre_core::Register;
use checkpoint::{Layout, Side, write_rows};
use sector_disk::{Disk, DiskError};
use std::alloc::Allocator;

// Writes and syncs all but the label: the sides for an empty register, then the image of this one on side A.
fn fill_sides<A: Allocator + Clone, D: Disk>(
    disk: &mut D,
    layout: &Layout,
    register: &Register<A>,
) -> Result<(), DiskError>
    requires room { disk_size layout.now ≤ (D.view disk.old).sectors }
    requires limits { register.now.registered.limits ≡ layout.now.limits }
    ensures filled { OnOk result ((D.view disk.old).honest → AreFilled layout.now register.now (D.view disk.new)) }
    ensures calls { OnOk result (HasCalled (D.view disk.old) (D.view disk.new) (filled_calls layout.now register.now)) }
    ensures some_calls { HasMade (D.view disk.old) (D.view disk.new) (filled_calls layout.now register.now) }
    ensures in_range { IsErrOf result OutOfRange → ⊥ }
    ensures keeps { KeepsDisk (D.view disk.old) (D.view disk.new) (IsErr result) }
{
    centre_core::laws::registers(register);
    write_sides(disk, layout)?;
    write_rows(disk, layout.slot(Side::A), 1, register)?;
    disk.sync()?;
    Ok(())
}

/// Formats a disk for this register, with epoch 1 on side A. Takes no memory.
///
/// The register has the layout's limits. `BadGeometry`: the disk has fewer sectors than the layout needs, and nothing is
/// written. After a `DiskFault` the disk may hold anything.
pub fn format_with<A: Allocator + Clone, D: Disk>(
    disk: &mut D,
    layout: &Layout,
    register: &Register<A>,
) -> Result<(), StoreFault>
    requires limits { register.now.registered.limits ≡ layout.now.limits }

    // At `Ok` each stop leaves a disk on side A that opens to the register, without a record.
    ensures on_side { OnOk result ((D.view disk.old).honest
        → EachIsOnSide {A = A} (D.view disk.new) layout.now Side.A Numbered (1, register.now) (fresh layout.now Side.A)) }
    ensures opens { OnOk result ((D.view disk.old).honest → InEach (D.view disk.new) (λ image.
        opens A image ≡ Ok (opening layout.now Side.A 1 (half_at layout.now Side.A) register.now))) }

    // The sides and the rows are written and synced, then the label: a blank disk stays unformatted up to there. Nothing
    // is read. A call that fails is the last.
    ensures calls { OnOk result (HasCalled (D.view disk.old) (D.view disk.new) (format_with_calls layout.now register.now)) }
    ensures some_calls { disk_size layout.now ≤ (D.view disk.old).sectors
        → HasMade (D.view disk.old) (D.view disk.new) (format_with_calls layout.now register.now) }

    // It fails only for these reasons.
    ensures geometry { (D.view disk.old).sectors < disk_size layout.now → (result ≡ Err BadGeometry) × (disk.new ≡ disk.old) }
    ensures fault { disk_size layout.now ≤ (D.view disk.old).sectors
        → IfErr result (λ e. (e ≡ DiskFault) × HasFailed (D.view disk.old) (D.view disk.new)) }
    ensures keeps { KeepsDisk (D.view disk.old) (D.view disk.new) (IsErrOf result DiskFault) }

    // The life of the disk begins with the register.
    ensures begins { OnOk result ((D.view disk.old).honest → IsLife A D.view register.now [] (Closed disk.new)) }
{
    if disk.sectors() < layout.sectors() {
        return Err(StoreFault::BadGeometry);
    }
    centre_core::laws::registers(register);
    fill_sides(disk, layout, register)?;
    disk.write(0, &label_sector(layout))?;
    disk.sync()?;
    Ok(())
}
