//! The register and its calls.
ghost use Rattle.std.specs.Prelude.{◌≡◌, IfOk, OnErr, IsTrue};
ghost use Rattle.centre_core.specs.State.{empty, IsState};
ghost use Rattle.centre_core.specs.StateRanges.{StateInRange};
ghost use Rattle.centre_core.specs.Step.{step};
ghost use Rattle.centre_core.specs.Memory.{needs_memory};
ghost use Rattle.centre_core.specs.Queries.{AsksForList, answer_to};
ghost use Rattle.centre_core.specs.History.{is_acceptance, names};
ghost use Rattle.centre_core.specs.Laws.{MessagesStay};

use crate::tables::Tables;
use crate::{Command, LastAccepted, Parts, Query, QueryAnswer, Reply};
use base::TryCopy;
use group_attach::Groups;
use mailbox::Mail;
use registration::{Limits, Registry};
use std::alloc::{AllocError, Allocator};
use std::marker::Model;

/// The location register and message centre as one value: rules, radios and their groups, the waiting items of
/// the mail, and each station's last accepted command. It keeps everything in its own allocator. Each part is in
/// its range (`laws::registers`).
#[derive(Drop)]
pub struct Register<A: Allocator> {
    tables: Tables<A>,
}

impl<A: Allocator> Model for Register<A> {
    ghost use Rattle.centre_core.specs.State.{State, coded_state};
    ghost use Rattle.centre_core.specs.StateRanges.{StateInRange};

    ghost Value = { State };

    ghost coded = { coded_state };

    ghost view = { λ r. r.tables };

    ghost invariant = { λ r. StateInRange r.tables };
}

impl<A: Allocator> Register<A> {
    /// The register of these parts, which make a state and are in range.
    pub fn from_parts(parts: Parts<A>) -> Self
        requires state { IsState parts }
        requires ranges { StateInRange parts }
        ensures { result ≡ parts }
    {
        Register {
            tables: Tables::of(parts),
        }
    }

    /// Its rules and radios.
    pub fn registry(&self) -> &Registry<A>
        ensures { result.now ≡ self.now.registered }
    {
        self.tables.registry()
    }

    /// The groups to which its radios are attached.
    pub fn groups(&self) -> &Groups<A>
        ensures { result.now ≡ self.now.groups }
    {
        self.tables.groups()
    }

    /// The waiting items.
    pub fn mail(&self) -> &Mail<A>
        ensures { result.now ≡ self.now.mail }
    {
        self.tables.mail()
    }

    /// Each station's last accepted command, if there is one. The entry of station 1 comes first.
    pub fn served(&self) -> &[Option<LastAccepted<A>>]
        ensures { result.now ≡ self.now.served }
    {
        self.tables.served()
    }

    // States what its tables keep.
    pub(crate) fn facts_of_state(&self)
        ensures state { IsState self.now }
        ensures ranges { StateInRange self.now }
    {
        self.tables.facts_of_state()
    }
}

impl<A: Allocator + Clone> Register<A> {
    /// A register with no rules, no radios, no attachments, nothing that waits and no command accepted.
    pub fn new(alloc: A, limits: Limits) -> Result<Self, AllocError>
        ensures { IfOk result (λ register. register ≡ empty limits) }
    {
        let tables = Tables::new(alloc, limits)?;
        Ok(Register { tables })
    }

    /// The limits that it was made with.
    pub fn limits(&self) -> Limits
        ensures { result ≡ self.now.registered.limits }
    {
        self.tables.limits()
    }

    /// How many commands were accepted.
    pub fn count(&self) -> u64
        ensures { result ≡ self.now.count }
    {
        self.tables.count()
    }

    /// The answer to a query, allocated in `alloc`. Only a list takes memory.
    pub fn query<C: Allocator + Copy>(
        &self,
        alloc: C,
        query: &Query,
    ) -> Result<QueryAnswer<C>, AllocError>
        ensures ok { IfOk result (λ answer. answer ≡ answer_to self.now query.now) }
        ensures memory { OnErr result (AsksForList query.now) }
    {
        self.tables.query(alloc, query)
    }
}

impl<A: Allocator + Copy> Register<A> {
    /// The reply to a command, allocated in `alloc`. When memory runs out, nothing is changed. Only a command that
    /// needs memory can fail so.
    pub fn apply<B: Allocator, C: Allocator + Copy>(
        &mut self,
        alloc: C,
        command: &Command<B>,
    ) -> Result<Reply<C>, AllocError>
        ensures ok { IfOk result (λ reply. (self.new, reply) ≡ step self.old command.now) }
        // No message is lost but those that the command ends.
        ensures messages { IfOk result (λ reply. MessagesStay self.old.mail self.new.mail (is_acceptance reply) (names command.now)) }
        ensures err { OnErr result (self.new ≡ self.old) }
        ensures memory { OnErr result (IsTrue (needs_memory self.old command.now)) }
    {
        command.facts_of_ranges();
        self.tables.apply(alloc, command)
    }
}

impl<A: Allocator + Clone> TryCopy for Register<A> {
    fn try_copy(&self) -> Result<Self, AllocError> {
        let tables = self.tables.try_copy()?;
        Ok(Register { tables })
    }
}
