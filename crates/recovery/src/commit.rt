//! A batch of commands kept on a disk.

ghost use Rattle.std.specs.Prelude.{◌≡◌, ◌≤◌, IsErrOf, length};
ghost use Rattle.sector_disk.specs.Effects.{KeepsDisk};
ghost use Rattle.gated_journal.specs.Record.{most_commands};
ghost use Rattle.recovery.specs.declared.fault.StoreFault.TheVariants.{DiskFault};
ghost use Rattle.recovery.specs.Batch.{AnswersBatch, HoldsBatch, RefusesBatch};
ghost use Rattle.recovery.specs.Commits.{CommitCalls};
ghost use Rattle.recovery.specs.Lives.{view_of};
ghost use Rattle.recovery.specs.Outcomes.{asked};

use crate::batch::apply_all;
use crate::before::Before;
use crate::{Outcome, Store, StoreFault};
use centre_core::Command;
use sector_disk::Disk;
use std::alloc::Allocator;

impl<A: Allocator + Copy, D: Disk> Store<A, D> {
    /// Applies the commands, at most 64, in turn. The accepted ones are written to the disk as one record. If a checkpoint
    /// is under way, at most 8 rows of its image are written after the record; after the last row its side counts. Returns
    /// the outcome of each command, under `alloc`.
    ///
    /// `Broken`: the device has failed in an earlier call. `Unready`: a record of all commands would not fit, so a checkpoint
    /// must be made first. `NoMemory`: such a record would fit, but there is no memory for the outcomes or for the list of
    /// accepted commands. After these nothing is changed. After `DiskFault` the disk must be opened again. It then opens to
    /// the register before the call, with none or all of the accepted commands.
    pub fn commit<B: Allocator, C: Allocator + Copy>(
        &mut self,
        alloc: C,
        commands: &[&Command<B>],
    ) -> Result<Vec<Outcome<C>, C>, StoreFault>
        requires { length commands.now ≤ most_commands }
        // What is on the disk, at any moment and at the end.
        ensures on_disk { HoldsBatch A D.view (view_of self.old) (view_of self.new) (asked commands.now) result }
        ensures keeps { KeepsDisk (D.view self.old.disk) (D.view self.new.disk) (IsErrOf result DiskFault) }
        // What it answers, when it is refused, and what stays.
        ensures answers { AnswersBatch self.old self.new commands.now result }
        ensures refuses { RefusesBatch self.old self.new commands.now result }
        ensures layout { self.new.layout ≡ self.old.layout }
        ensures found { self.new.found.value ≡ self.old.found.value }
        // Which calls of the disk it makes.
        ensures calls { CommitCalls A D.view (view_of self.old) (view_of self.new) (asked commands.now) result }
    {
        if self.broken {
            return Err(StoreFault::Broken);
        }
        if commands.is_empty() {
            return Ok(Vec::new(alloc));
        }
        if !self.journal.has_room(commands) {
            return Err(StoreFault::Unready);
        }
        let mut outcomes = Vec::with_capacity(alloc, commands.len())?;
        let mut accepted = Vec::with_capacity(alloc, commands.len())?;
        self.before = Before::of(&self.register);
        apply_all(
            &mut self.register,
            alloc,
            commands,
            &mut outcomes,
            &mut accepted,
        );
        self.broken = true;
        self.persist(&accepted)?;
        self.broken = false;
        Ok(outcomes)
    }
}
