// The record of a commit: in the journal, and in the other half's journal if a checkpoint is under way.
ghost use Rattle.std.specs.Prelude.{◌≡◌, ◌≤◌, [], IfErr, IfSome, IsErr, None, Some, OnErr, OnOk, is_some, length, true};
ghost use Rattle.sector_disk.specs.Effects.{KeepsDisk};
ghost use Rattle.centre_core.specs.State.{IsState};
ghost use Rattle.gated_journal.specs.Adding.{AddsToBoth};
ghost use Rattle.gated_journal.specs.Record.{given};
ghost use Rattle.gated_journal.specs.Settled.{following_given};
ghost use Rattle.recovery.specs.Commits.{KeepCalls};
ghost use Rattle.recovery.specs.Inside.Added.{AddsRecord, KeepsApplied, MayAdd};
ghost use Rattle.recovery.specs.Inside.BothHalves.{MayAddToBoth};
ghost use Rattle.recovery.specs.Inside.InCall.{StepsInCall};
ghost use Rattle.recovery.specs.Lives.{view_of};

use crate::ongoing::Ongoing;
use crate::{Store, StoreFault};
use centre_core::Command;
use centre_core::laws::registers;
use gated_journal::{Journal, JournalError};
use sector_disk::Disk;
use std::alloc::Allocator;

// Adds a record of these commands to the journal and to the checkpoint's journal, in the same two syncs.
fn append_also<A: Allocator, B: Allocator, D: Disk>(
    disk: &mut D,
    journal: &mut Journal<A>,
    ongoing: &mut Ongoing<A>,
    commands: &[&Command<B>],
) -> Result<(), JournalError>
    requires { MayAddToBoth A (D.view disk.old).sectors journal.old ongoing.old.journal commands.now }
    ensures adds { AddsToBoth A (D.view disk.old) (D.view disk.new) journal.old journal.new ongoing.old.journal ongoing.new.journal commands.now result }
    ensures ongoing_next { OnOk result (ongoing.new ≡ record ongoing.old { journal = following_given A ongoing.old.journal commands.now }) }
    ensures same { OnErr result ((journal.new ≡ journal.old) × (ongoing.new ≡ ongoing.old)) }
    ensures keeps { KeepsDisk (D.view disk.old) (D.view disk.new) (IsErr result) }
    ensures kinds { IfErr result (λ e. e ≡ JournalError.DiskFault) }
    ensures state { IsState ongoing.old.register }
{
    registers(&ongoing.register);
    journal.append_both(disk, &mut ongoing.journal, commands)
}

// Adds a record of these commands to the journal and to that of the checkpoint in an `Option`, in the same two syncs. Callers
// make sure that there is one.
fn append_ongoing<A: Allocator, B: Allocator, D: Disk>(
    disk: &mut D,
    journal: &mut Journal<A>,
    ongoing: &mut Option<Ongoing<A>>,
    commands: &[&Command<B>],
) -> Result<(), JournalError>
    requires under_way { is_some ongoing.old ≡ true }
    requires room { IfSome ongoing.old (λ it. MayAddToBoth A (D.view disk.old).sectors journal.old it.journal commands.now) }
    ensures adds { IfSome ongoing.old (λ it. (is : Ongoing A) × (ongoing.new ≡ Some is)
        × AddsToBoth A (D.view disk.old) (D.view disk.new) journal.old journal.new it.journal is.journal commands.now result) }
    ensures ongoing_next { OnOk result (IfSome ongoing.old (λ was.
        ongoing.new ≡ Some (record was { journal = following_given A was.journal commands.now }))) }
    ensures same { OnErr result ((journal.new ≡ journal.old) × (ongoing.new ≡ ongoing.old)) }
    ensures keeps { KeepsDisk (D.view disk.old) (D.view disk.new) (IsErr result) }
    ensures kinds { IfErr result (λ e. e ≡ JournalError.DiskFault) }
    ensures state { IfSome ongoing.old (λ it. IsState it.register) }
{
    match ongoing {
        Some(it) => append_also::<A, B, D>(disk, journal, it, commands),
        None => Ok(()),
    }
}

impl<A: Allocator + Copy, D: Disk> Store<A, D> {
    // Adds a record of these commands, at least one, to the journal. No checkpoint is under way.
    #[tactic(auto, using(crate::proofs::InCall::in_call))]
    fn append_one<B: Allocator>(&mut self, accepted: &[&Command<B>]) -> Result<(), StoreFault>
        requires idle { self.old.ongoing ≡ None }
        requires some { 1 ≤ length accepted.now }
        requires room { MayAdd self.old accepted.now }
        ensures adds { AddsRecord D.view self.old self.new accepted.now result }
    {
        registers(&self.register);
        if self.journal.append(&mut self.disk, accepted).is_err() {
            self.broken = true;
            return Err(StoreFault::DiskFault);
        }
        Ok(())
    }

    // Adds a record of these commands, at least one, to the journals of both halves, in the same two syncs. A checkpoint
    // is under way.
    #[tactic(auto, using(crate::proofs::InCall::in_call))]
    fn append_two<B: Allocator>(&mut self, accepted: &[&Command<B>]) -> Result<(), StoreFault>
        requires under_way { is_some self.old.ongoing ≡ true }
        requires some { 1 ≤ length accepted.now }
        requires room { MayAdd self.old accepted.now }
        ensures adds { AddsRecord D.view self.old self.new accepted.now result }
    {
        registers(&self.register);
        let added = append_ongoing::<A, B, D>(
            &mut self.disk,
            &mut self.journal,
            &mut self.ongoing,
            accepted,
        );
        if added.is_err() {
            self.broken = true;
            return Err(StoreFault::DiskFault);
        }
        Ok(())
    }

    // Adds a record of these commands, at least one, to the journal, and to the other half's journal if a checkpoint is
    // under way. The register has applied and counted them already.
    fn add_record<B: Allocator>(&mut self, accepted: &[&Command<B>]) -> Result<(), StoreFault>
        requires some { 1 ≤ length accepted.now }
        requires room { MayAdd self.old accepted.now }
        ensures adds { AddsRecord D.view self.old self.new accepted.now result }
    {
        if self.ongoing.is_none() {
            return self.append_one(accepted);
        }
        self.append_two(accepted)
    }

    // Adds a record of these commands and continues the checkpoint. Without commands nothing is done. The register has
    // applied and counted them already.
    pub(crate) fn persist<B: Allocator>(
        &mut self,
        accepted: &[&Command<B>],
    ) -> Result<(), StoreFault>
        requires { MayAdd self.old accepted.now }
        ensures on_disk { KeepsApplied D.view self.old self.new accepted.now result }
        ensures none { accepted.now ≡ [] → self.new ≡ self.old }
        ensures calls { KeepCalls A D.view (view_of self.old) (view_of self.new) (given A accepted.now) result }
        ensures steps { StepsInCall D.view self.old self.new result }
    {
        if accepted.is_empty() {
            return Ok(());
        }
        self.add_record(accepted)?;
        self.advance_checkpoint()
    }
}
