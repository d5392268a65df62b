// The register in a side's slot, read back.
ghost use Rattle.std.specs.Prelude.{◌≡◌, ◌+◌, ◌<◌, ◌≤◌, ◌∷◌, [], ℕ, IfOk, IfSome, IsErrOf, IsSome, None, OnOk, Some};
ghost use Rattle.sector_disk.specs.Effects.{OnlyReads};
ghost use Rattle.sector_disk.specs.Run.{HasMade};
ghost use Rattle.sector_disk.specs.declared.record.Call.TheVariants.{Read};
ghost use Rattle.image_rows.specs.Loading.{begun, finished};
ghost use Rattle.checkpoint.specs.declared.read_fault.ReadFault.TheVariants.{Damaged, DiskFault, NoMemory};
ghost use Rattle.checkpoint.specs.Calls.{MakesCalls};
ghost use Rattle.checkpoint.specs.Layout.{disk_size, slot_at, slot_size};
ghost use Rattle.checkpoint.specs.Reading.{HasReadImage, RefusesImage, read_calls};
ghost use Rattle.checkpoint.specs.Inside.Taken.{HasReadGood, taken_at};

use crate::{Layout, ReadFault, Side};
use centre_core::Register;
use image_rows::Loader;
use sector_disk::Disk;
use std::alloc::Allocator;

// Reads a sector, and gives its row to the loader.
#[tactic(auto, using(sector_disk::proofs::Reading::one_read))]
fn take_row<A: Allocator + Clone, D: Disk>(
    disk: &mut D,
    at: u64,
    loader: &mut Loader<A>,
) -> Result<(), ReadFault>
    requires inside { at < (D.view disk.old).sectors }
    ensures taken { OnOk result ((D.view disk.old).honest → taken_at (D.view disk.old) at loader.old ≡ Some loader.new) }
    ensures damaged { (s : ℕ) → IsErrOf result (Damaged s) → (s ≡ at) × ((D.view disk.old).honest → taken_at (D.view disk.old) at loader.old ≡ None) }
    ensures memory { IsErrOf result NoMemory → HasReadGood (D.view disk.old) (D.view disk.new) at loader.old }
    ensures reads { OnlyReads (D.view disk.old) (D.view disk.new) (IsErrOf result DiskFault) }
    ensures made { MakesCalls (D.view disk.old) (D.view disk.new) (Read at ∷ []) result }
    ensures limits { loader.new.state.registered.limits ≡ loader.old.state.registered.limits }
{
    let mut row = [0; 512];
    disk.read(at, &mut row)?;
    if !loader.take(&row)? {
        return Err(ReadFault::Damaged(at));
    }
    Ok(())
}

// Gives the rows of a slot to the loader, up to the last one of the image.
fn take_rows<A: Allocator + Clone, D: Disk>(
    disk: &mut D,
    layout: &Layout,
    side: Side,
    loader: &mut Loader<A>,
) -> Result<(), ReadFault>
    requires inside { slot_at layout.now side + slot_size layout.now < (D.view disk.old).sectors }
    requires begun { loader.old ≡ begun layout.now.limits }
    ensures whole { OnOk result (IsSome (finished loader.new)) }
    ensures image { OnOk result (IfSome (finished loader.new) (HasReadImage layout.now side (D.view disk.old) (D.view disk.new))) }
    ensures refused { RefusesImage layout.now side (D.view disk.old) (D.view disk.new) result }
    ensures reads { OnlyReads (D.view disk.old) (D.view disk.new) (IsErrOf result DiskFault) }
    ensures some_calls { HasMade (D.view disk.old) (D.view disk.new) (read_calls (slot_at layout.now side) (slot_size layout.now)) }
    ensures limits { loader.new.state.registered.limits ≡ layout.now.limits }
{
    let first = layout.slot(side);
    let sectors = layout.slot_len();
    let mut read = 0;
    while !loader.is_whole() {
        if read == sectors {
            return Err(ReadFault::Damaged(first + read));
        }
        take_row(disk, first + read, loader)?;
        read += 1;
    }
    Ok(())
}

/// Reads the image of a register back from a side's slot. Returns the image's epoch and its register, which has the layout's limits.
/// An epoch is at least 1 and at most 2^62. The image's sectors are read in order, up to its last one, one in memory at a time.
///
/// `Damaged` names the slot's first bad sector: it holds no row, or a row that can't come there. `NoMemory` means that no bad sector
/// was read before memory ran out. Nothing is written. After an error, what was read is dropped.
pub fn read_image<A: Allocator + Clone, D: Disk>(
    disk: &mut D,
    layout: &Layout,
    side: Side,
    alloc: A,
) -> Result<(u64, Register<A>), ReadFault>
    requires room { disk_size layout.now ≤ (D.view disk.old).sectors }

    // `Ok` returns the image in the slot. Its sectors are read, each once.
    ensures image { IfOk result (HasReadImage layout.now side (D.view disk.old) (D.view disk.new)) }

    // `Damaged` names the slot's first bad sector. Out of memory never masks damage: all sectors that were read are good.
    ensures refused { RefusesImage layout.now side (D.view disk.old) (D.view disk.new) result }

    // It only reads: the sectors of the slot from the first on, each once. `DiskFault` comes only where the device has failed.
    ensures reads { OnlyReads (D.view disk.old) (D.view disk.new) (IsErrOf result DiskFault) }
    ensures some_calls { HasMade (D.view disk.old) (D.view disk.new) (read_calls (slot_at layout.now side) (slot_size layout.now)) }
{
    let mut loader = Loader::new(alloc, layout.limits())?;
    match take_rows(disk, layout, side, &mut loader) {
        Ok(()) => Ok(loader.finish().unwrap()),
        Err(fault) => {
            drop(loader);
            Err(fault)
        }
    }
}
