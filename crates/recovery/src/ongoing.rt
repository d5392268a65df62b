// A checkpoint that is written a few rows at a time, between commits.
ghost use Rattle.std.specs.Prelude.{◌≡◌, ◌≤◌, ◌+◌, ℕ, IfSome, IsErr, None, OnOk, Some, length, nat_eq, true, false};
ghost use Rattle.sector_disk.specs.Effects.{KeepsDisk};
ghost use Rattle.sector_disk.specs.Run.{HasCalled, HasMade};
ghost use Rattle.image_rows.specs.Rows.{rows_of};
ghost use Rattle.checkpoint.specs.Layout.{disk_size};
ghost use Rattle.recovery.specs.Calls.{end_calls};
ghost use Rattle.recovery.specs.Checkpointed.{HoldsRegister};
ghost use Rattle.recovery.specs.Commits.{OngoingCalls};
ghost use Rattle.recovery.specs.AfterCommit.{GoesOn, HasBegun, HasEnded, HasNextRows, Stays};
ghost use Rattle.recovery.specs.Inside.InCall.{StepsInCall, end_calls_of, rows_calls_of};
ghost use Rattle.recovery.specs.Lives.{view_of};
ghost use Rattle.recovery.specs.UnderWay.{BelongsTo, MayBegin, SwitchLeaves, SwitchStores};
ghost use Rattle.gated_journal.specs.declared.place.Place.{Place};

use crate::{Store, StoreFault};
use base::TryCopy;
use centre_core::Register;
use centre_core::laws::registers;
use checkpoint::{CheckpointError, ImageProgress, Layout, Side, begin, switch, write_next_rows};
use gated_journal::{Form, Journal};
use image_rows::LAST_EPOCH;
use sector_disk::Disk;
use std::alloc::Allocator;

// A checkpoint that is under way: the register as it was when the checkpoint began, how many rows of its image are
// written, and the journal of the other half.
#[derive(Drop)]
pub(crate) struct Ongoing<A: Allocator> {
    pub(crate) register: Register<A>,
    pub(crate) progress: ImageProgress,
    pub(crate) journal: Journal<A>,
}

// Syncs the rows of the checkpoint, which are all written, and switches to its side.
fn end_side<A: Allocator + Clone, D: Disk>(
    disk: &mut D,
    layout: &Layout,
    side: Side,
    epoch: u64,
    ongoing: &Ongoing<A>,
) -> Result<(), CheckpointError>
    requires room { disk_size layout.now ≤ (D.view disk.old).sectors }
    requires belongs { (current : Place) × (count : ℕ) × BelongsTo layout.now side epoch current count ongoing.now }
    requires whole { ongoing.now.progress.written ≡ length (rows_of (epoch + 1) ongoing.now.register) }
    ensures any_moment { SwitchLeaves A layout.now side epoch ongoing.now (D.view disk.old) (D.view disk.new) }
    ensures ended { OnOk result (SwitchStores A layout.now side epoch ongoing.now (D.view disk.old) (D.view disk.new)) }
    ensures calls { OnOk result (HasCalled (D.view disk.old) (D.view disk.new) (end_calls side true)) }
    ensures some_calls { HasMade (D.view disk.old) (D.view disk.new) (end_calls side true) }
    ensures keeps { KeepsDisk (D.view disk.old) (D.view disk.new) (IsErr result) }
{
    registers(&ongoing.register);
    disk.sync()?;
    switch::<A, D>(disk, layout, side)
}

impl<A: Allocator + Copy, D: Disk> Store<A, D> {
    // Whether half of the journal's sectors are used and the epoch is not the last one.
    fn may_begin(&self) -> bool
        ensures may { result ≡ true → MayBegin self.now.layout self.now.epoch self.now.journal }
        ensures may_not { result ≡ false → ¬ MayBegin self.now.layout self.now.epoch self.now.journal }
    {
        u64::from(self.layout.journal()) <= 2 * self.journal.used() && self.epoch < LAST_EPOCH
    }

    // Begins a checkpoint of the register as it is, if one may begin. None is under way. Without memory for it nothing is
    // done.
    #[tactic(auto, using(crate::proofs::InCall::in_call))]
    fn begin_checkpoint(&mut self) -> Result<(), StoreFault>
        requires { (self.old.broken ≡ true) × (self.old.ongoing ≡ None) }
        ensures on_disk { HoldsRegister A D.view (view_of self.old) (view_of self.new) result }
        ensures stays { Stays (view_of self.old) (view_of self.new) }
        ensures begun { OnOk result (IfSome self.new.ongoing (HasBegun (view_of self.old) (view_of self.new))) }
        ensures calls { OngoingCalls A D.view (view_of self.old) (view_of self.new) None result }
        ensures steps { StepsInCall D.view self.old self.new result }
    {
        if !self.may_begin() {
            return Ok(());
        }
        let first = self.layout.half(self.side.other());
        let sectors = u64::from(self.layout.journal());
        let count = self.register.count();
        let Ok(journal) = Journal::start(self.alloc, first, sectors, Form::Numbered, count) else {
            return Ok(());
        };
        let Ok(register) = self.register.try_copy() else {
            drop(journal);
            return Ok(());
        };
        if begin::<A, D>(&mut self.disk, &self.layout, self.side).is_err() {
            drop(journal);
            drop(register);
            return Err(StoreFault::DiskFault);
        }
        let progress = ImageProgress::begun(self.epoch + 1, &register);
        drop(
            self.ongoing.replace(Ongoing {
                register,
                progress,
                journal,
            }),
        );
        Ok(())
    }

    // Writes the next rows of the checkpoint under way.
    #[tactic(auto, using(crate::proofs::InCall::in_call))]
    fn write_rows(&mut self) -> Result<(), StoreFault>
        requires in_call { self.old.broken ≡ true }
        ensures on_disk { HoldsRegister A D.view (view_of self.old) (view_of self.new) result }
        ensures stays { Stays (view_of self.old) (view_of self.new) }
        ensures gone { OnOk result (IfSome self.old.ongoing (HasNextRows (view_of self.old) (view_of self.new))) }
        ensures calls { OnOk result (IfSome self.old.ongoing (λ was.
            HasCalled (D.view self.old.disk) (D.view self.new.disk) (rows_calls_of (view_of self.old) was))) }
        ensures some_calls { IfSome self.old.ongoing (λ was.
            HasMade (D.view self.old.disk) (D.view self.new.disk) (rows_calls_of (view_of self.old) was)) }
        ensures steps { StepsInCall D.view self.old self.new result }
    {
        let Some(ongoing) = &mut self.ongoing else {
            return Ok(());
        };
        registers(&ongoing.register);
        let written = write_next_rows(
            &mut self.disk,
            &self.layout,
            self.side,
            &ongoing.register,
            &mut ongoing.progress,
        );
        if written.is_err() {
            return Err(StoreFault::DiskFault);
        }
        Ok(())
    }

    // Whether all rows of the checkpoint under way are written.
    fn is_written(&self) -> bool
        ensures { IfSome self.now.ongoing (λ it. result ≡ nat_eq it.progress.written (length (rows_of (self.now.epoch + 1) it.register))) }
    {
        match &self.ongoing {
            Some(ongoing) => ongoing.progress.is_whole(&ongoing.register),
            None => false,
        }
    }

    // Switches to the other side. All rows are written.
    #[tactic(auto, using(crate::proofs::InCall::in_call))]
    fn end_checkpoint(&mut self) -> Result<(), StoreFault>
        requires in_call { self.old.broken ≡ true }
        requires whole { IfSome self.old.ongoing (λ it. it.progress.written ≡ length (rows_of (self.old.epoch + 1) it.register)) }
        ensures on_disk { HoldsRegister A D.view (view_of self.old) (view_of self.new) result }
        ensures ended { OnOk result (IfSome self.old.ongoing (HasEnded (view_of self.old) (view_of self.new))) }
        ensures calls { OnOk result (IfSome self.old.ongoing (λ was.
            HasCalled (D.view self.old.disk) (D.view self.new.disk) (end_calls_of (view_of self.old)))) }
        ensures some_calls { HasMade (D.view self.old.disk) (D.view self.new.disk) (end_calls_of (view_of self.old)) }
        ensures steps { StepsInCall D.view self.old self.new result }
    {
        let Some(ongoing) = self.ongoing.take() else {
            return Ok(());
        };
        let ended = end_side(
            &mut self.disk,
            &self.layout,
            self.side,
            self.epoch,
            &ongoing,
        );
        let Ongoing {
            register,
            journal,
            ..
        } = ongoing;
        drop(register);
        if ended.is_err() {
            drop(journal);
            return Err(StoreFault::DiskFault);
        }
        self.side = self.side.other();
        self.epoch += 1;
        self.journal = journal;
        Ok(())
    }

    // After a record: the checkpoint that is under way continues, and after its last row its side counts. If none is
    // under way, one may begin.
    pub(crate) fn advance_checkpoint(&mut self) -> Result<(), StoreFault>
        requires in_call { self.old.broken ≡ true }
        ensures on_disk { HoldsRegister A D.view (view_of self.old) (view_of self.new) result }
        ensures goes { OnOk result (GoesOn (view_of self.old) (view_of self.new) self.old.ongoing) }
        ensures calls { OngoingCalls A D.view (view_of self.old) (view_of self.new) self.old.ongoing result }
        ensures steps { StepsInCall D.view self.old self.new result }
    {
        if self.ongoing.is_none() {
            return self.begin_checkpoint();
        }
        self.write_rows()?;
        if self.is_written() {
            return self.end_checkpoint();
        }
        Ok(())
    }
}
