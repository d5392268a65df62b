// One command kept on a disk.
ghost use Rattle.std.specs.Prelude.{◌≡◌, ◌≤◌, ◌∷◌, [], IfOk, IsErrOf, Ok, OnOk, length, false, if◌then◌else◌};
ghost use Rattle.sector_disk.specs.Effects.{KeepsDisk};
ghost use Rattle.centre_core.specs.History.{is_acceptance};
ghost use Rattle.centre_core.specs.Step.{step};
ghost use Rattle.gated_journal.specs.Record.{data_size, most_commands};
ghost use Rattle.gated_journal.specs.Settled.{room_of, text_at};
ghost use Rattle.recovery.specs.declared.fault.StoreFault.TheVariants.{DiskFault, EpochsUsedUp};
ghost use Rattle.recovery.specs.AfterCommit.{HasRoom};
ghost use Rattle.recovery.specs.Calls.{LacksRoom, fits_in};
ghost use Rattle.recovery.specs.Checkpointed.{FailsInCheckpoint, HoldsRegister, KeepsPlace};
ghost use Rattle.recovery.specs.Commits.{RoomCalls};
ghost use Rattle.recovery.specs.Inside.OneCommand.{RefusesOne};
ghost use Rattle.recovery.specs.Lives.{IsCall, Open, Unanswered, view_of};
ghost use Rattle.recovery.specs.Serving.{DeskCalls, HoldsOne};

use crate::before::Before;
use crate::{Store, StoreFault};
use centre_core::{Command, Reply};
use sector_disk::Disk;
use std::alloc::Allocator;

// The commands if this reply accepts them, else none.
fn if_accepted<'a, B: Allocator, C: Allocator>(
    reply: &Reply<C>,
    commands: &'a [&'a Command<B>],
) -> &'a [&'a Command<B>]
    ensures { result.now ≡ if is_acceptance reply.now then commands.now else [] }
{
    if reply.is_acceptance() {
        return commands;
    }
    &commands[..0]
}

impl<A: Allocator + Copy, D: Disk> Store<A, D> {
    // Makes a checkpoint if a record of these commands would not fit.
    pub(crate) fn make_room<B: Allocator>(
        &mut self,
        commands: &[&Command<B>],
    ) -> Result<(), StoreFault>
        requires { length commands.now ≤ most_commands }
        ensures on_disk { HoldsRegister A D.view (view_of self.old) (view_of self.new) result }
        ensures keeps { KeepsDisk (D.view self.old.disk) (D.view self.new.disk) (IsErrOf result DiskFault) }
        ensures fits { OnOk result (data_size (text_at A self.new.journal commands.now) ≤ room_of self.new.journal) }
        ensures untouched { data_size (text_at A self.old.journal commands.now) ≤ room_of self.old.journal → (result ≡ Ok tt) × (self.new ≡ self.old) }
        ensures calls { RoomCalls A D.view (view_of self.old) (view_of self.new) (fits_in A self.old.journal commands.now) result }
        ensures place { OnOk result (HasRoom (view_of self.old) (view_of self.new) (fits_in A self.old.journal commands.now)) }
        ensures stays { KeepsPlace (view_of self.old) (view_of self.new) result }
        ensures fails { FailsInCheckpoint self.old self.new result }
        ensures lacks { IsErrOf result EpochsUsedUp → LacksRoom A self.old.journal commands.now }
        ensures sound { OnOk result (self.old.broken ≡ false → self.new.broken ≡ false) }
        ensures call { (D.view self.old.disk).honest → IsCall A D.view (Open (view_of self.old)) (Unanswered []) (Open (view_of self.new)) }
    {
        if self.journal.has_room(commands) {
            return Ok(());
        }
        self.checkpoint()
    }

    // A commit of one command. It takes no list, so it runs out of memory only if the command needs memory.
    pub(crate) fn commit_one<B: Allocator, C: Allocator + Copy>(
        &mut self,
        alloc: C,
        command: &Command<B>,
    ) -> Result<Reply<C>, StoreFault>
        ensures replied { IfOk result (λ reply. (self.new.register, reply) ≡ step self.old.register command.now) }
        ensures on_disk { HoldsOne A D.view (view_of self.old) (view_of self.new) command.now }
        ensures layout { self.new.layout ≡ self.old.layout }
        ensures found { self.new.found.value ≡ self.old.found.value }
        ensures calls { DeskCalls A D.view (view_of self.old) (view_of self.new)
            (fits_in A self.old.journal (command.entry ∷ [])) (command.now ∷ []) result }
        ensures refuses { RefusesOne D.view self.old self.new command.entry result }
        ensures honest { (D.view self.old.disk).honest → (D.view self.new.disk).honest }
    {
        if self.broken {
            return Err(StoreFault::Broken);
        }
        let commands = [command];
        self.make_room(&commands)?;
        self.before = Before::of(&self.register);
        self.broken = true;
        let Ok(reply) = self.register.apply(alloc, command) else {
            self.broken = false;
            return Err(StoreFault::NoMemory);
        };
        self.persist(if_accepted(&reply, &commands))?;
        self.broken = false;
        Ok(reply)
    }
}
