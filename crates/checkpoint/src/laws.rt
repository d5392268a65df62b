//! What holds of the layout of a disk, and of what its images open to, by their definitions alone.
//! These functions do nothing: calling one gives its clauses.

ghost use Rattle.std.specs.Prelude.{◌≡◌, ℕ, List, false};
ghost use Rattle.sector_disk.specs.Disk.{IsImageOf};
ghost use Rattle.checkpoint.specs.declared.layout.Layout.{Layout as LayoutValue};
ghost use Rattle.checkpoint.specs.Adding.{MayAddRecords, StaysWithRecords};
ghost use Rattle.checkpoint.specs.Worked.{AreSideBySide, HasWorkedLimits, IsWorkedDisk};

use sector_disk::Disk;
use std::alloc::Allocator;

/// Where the parts of the worked disk lie, and how its label is spelt.
pub fn worked_layout()
    ensures { (layout : LayoutValue) → HasWorkedLimits layout → IsWorkedDisk layout }
{}

/// The parts lie side by side: none overlaps another, and no sector lies between two.
pub fn side_by_side()
    ensures { (layout : LayoutValue) → AreSideBySide layout }
{}

/// Where nothing is pending, the only image of the disk is what it reads as.
pub fn settled<D: Disk>()
    ensures { (disk : D) (image : List (List ℕ)) → ((k : ℕ) → (D.view disk).pending k ≡ false) → IsImageOf (D.view disk) image
        → image ≡ (D.view disk).reads }
{}

/// Where every image is on a side, `Journal::append` may add to the side's half. An image that has changed nowhere but in
/// that half is still on the side, with the records that the half then holds.
pub fn records_added<A: Allocator, D: Disk>()
    ensures before { (disk : D) → MayAddRecords A (D.view disk) }
    ensures after { (disk : D) → StaysWithRecords A (D.view disk) }
{}
