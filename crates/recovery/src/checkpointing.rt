//! A checkpoint of a register that is kept on a disk.

ghost use Rattle.std.specs.Prelude.{◌≡◌, ◌≤◌, [], Err, IsErrOf, OnOk, true, false};
ghost use Rattle.sector_disk.specs.Effects.{KeepsDisk};
ghost use Rattle.image_rows.specs.Rows.{last_epoch};
ghost use Rattle.checkpoint.specs.declared.fault.CheckpointError.TheVariants as checkpoint;
ghost use Rattle.checkpoint.specs.Layout.{disk_size};
ghost use Rattle.recovery.specs.declared.fault.StoreFault.TheVariants.{Broken, DiskFault, EpochsUsedUp};
ghost use Rattle.recovery.specs.AfterCommit.{HasMoved};
ghost use Rattle.recovery.specs.Checkpointed.{FailsInCheckpoint, HoldsRegister, IsOnOtherSide, KeepsPlace};
ghost use Rattle.recovery.specs.Commits.{CheckpointCalls};
ghost use Rattle.recovery.specs.Inside.Written.{LeavesEitherSide, MovesToOtherSide};
ghost use Rattle.recovery.specs.Lives.{IsCall, Open, Unanswered, view_of};

use crate::before::Before;
use crate::{Store, StoreFault};
use centre_core::Register;
use checkpoint::{CheckpointError, Layout, Side, switch, write_image};
use gated_journal::Form;
use sector_disk::Disk;
use std::alloc::Allocator;

// Writes the register's image to the other side of the disk, and switches to that side.
fn write_side<A: Allocator + Clone, D: Disk>(
    disk: &mut D,
    layout: &Layout,
    current: Side,
    epoch: u64,
    register: &Register<A>,
) -> Result<(), CheckpointError>
    requires room { disk_size layout.now ≤ (D.view disk.old).sectors }
    requires limits { register.now.registered.limits ≡ layout.now.limits }
    ensures any_moment { LeavesEitherSide A layout.now current epoch register.now (D.view disk.old) (D.view disk.new) }
    ensures switched { OnOk result (MovesToOtherSide A layout.now current epoch register.now (D.view disk.old) (D.view disk.new)) }
    ensures calls { CheckpointCalls layout.now current epoch register.now (D.view disk.old) (D.view disk.new) result }
    ensures keeps { KeepsDisk (D.view disk.old) (D.view disk.new) (IsErrOf result checkpoint.DiskFault) }
    ensures epochs { IsErrOf result checkpoint.EpochsUsedUp → (last_epoch ≤ epoch) × (disk.new ≡ disk.old) }
    ensures used_up { last_epoch ≤ epoch → result ≡ Err checkpoint.EpochsUsedUp }
{
    write_image(disk, layout, current, epoch, register)?;
    switch::<A, D>(disk, layout, current)
}

impl<A: Allocator + Clone, D: Disk> Store<A, D> {
    /// Makes a checkpoint: writes the register's image to the other side of the disk, with the next epoch. That side then
    /// counts, and has no record. A checkpoint that is under way is abandoned. Takes no memory.
    ///
    /// `Broken`: the device has failed in an earlier call. `EpochsUsedUp`: the register's image has the last epoch, 2 to the
    /// 62nd. After these nothing is changed. After `DiskFault` the disk must be opened again.
    pub fn checkpoint(&mut self) -> Result<(), StoreFault>
        // A stop at any moment of the call, also of one that fails, leaves a disk that opens to the register. At `Ok` each stop
        // leaves it on the other side.
        ensures on_disk { HoldsRegister A D.view (view_of self.old) (view_of self.new) result }
        ensures moved { OnOk result (IsOnOtherSide A D.view (view_of self.old) (view_of self.new)) }
        ensures keeps { KeepsDisk (D.view self.old.disk) (D.view self.new.disk) (IsErrOf result DiskFault) }

        // Where it leaves the store.
        ensures sides { OnOk result (HasMoved (view_of self.old) (view_of self.new)) }
        ensures stays { KeepsPlace (view_of self.old) (view_of self.new) result }
        ensures sound { OnOk result (self.new.broken ≡ false) }

        // The other side's root is read, and closed if it reads as open. Its first gate is closed. Then each row is written
        // once, and the root is opened.
        ensures calls { CheckpointCalls self.old.layout self.old.side self.old.epoch self.old.register (D.view self.old.disk) (D.view self.new.disk) result }

        // When it is refused, and what then stays.
        ensures broken { self.old.broken ≡ true → result ≡ Err Broken }
        ensures used_up { self.old.broken ≡ false → last_epoch ≤ self.old.epoch → result ≡ Err EpochsUsedUp }
        ensures fails { FailsInCheckpoint self.old self.new result }

        // In the life of the disk this is a call that accepts nothing.
        ensures call { (D.view self.old.disk).honest → IsCall A D.view (Open (view_of self.old)) (Unanswered []) (Open (view_of self.new)) }
    {
        if self.broken {
            return Err(StoreFault::Broken);
        }
        self.before = Before::of(&self.register);
        self.ongoing = None;
        let (side, epoch) = (self.side, self.epoch);
        match write_side(&mut self.disk, &self.layout, side, epoch, &self.register) {
            Ok(()) => {
                self.side = side.other();
                self.epoch = epoch + 1;
                let first = self.layout.half(self.side);
                self.journal.restart(
                    first,
                    u64::from(self.layout.journal()),
                    Form::Numbered,
                    self.register.count(),
                );
                Ok(())
            }
            Err(CheckpointError::EpochsUsedUp) => Err(StoreFault::EpochsUsedUp),
            Err(CheckpointError::DiskFault) => {
                self.broken = true;
                Err(StoreFault::DiskFault)
            }
        }
    }
}
