//! The tables of a register, and the calls that change them.

mod group_messages;
mod messages;

ghost use Rattle.std.specs.Prelude.{◌≡◌, ◌<◌, ◌≤◌, ◌+◌, IfErr, IfOk, OnErr, OnOk, IsOk, IfSome, IsTrue, IsSome, None, unwrap_or};
ghost use Rattle.std.specs.Option.{is_none};
ghost use Rattle.mm_pdus.specs.UplinkReading.{reading_up};
ghost use Rattle.registration.specs.Registered.{radio_of, room_refusal};
ghost use Rattle.registration.specs.declared.fault.RegFault.TheVariants.{NoMemory};
ghost use Rattle.group_attach.specs.Attached.{groups_of};
ghost use Rattle.group_attach.specs.Applied.{apply_refusal};
ghost use Rattle.centre_core.specs.State.{empty, IsState};
ghost use Rattle.centre_core.specs.Step.{step, step_new, step_mm, step_rule, step_clear, step_locate, step_detach, step_groups};
ghost use Rattle.centre_core.specs.Step.{accept_pdu, acknowledge_pdu, accepted, radio_located, IsOfStation, IsNew, CanBeAccepted};
ghost use Rattle.centre_core.specs.declared.command.Body.TheVariants.{Mm};
ghost use Rattle.centre_core.specs.Memory.{needs_rule, needs_update, needs_body, needs_new, needs_memory};
ghost use Rattle.centre_core.specs.Queries.{AsksForList, present_members, answer_to};
ghost use Rattle.centre_core.specs.History.{is_acceptance, names};
ghost use Rattle.centre_core.specs.Laws.{MessagesStay};

use crate::answers::{accept_pdu, acknowledge_pdu, location_refusal, registration_refusal};
use crate::last_accepted::{LastAccepted, bits_copy, copy_all, count_accepted, none_accepted};
use crate::{Attachments, Body, Command, Parts, Query, QueryAnswer, Refusal, Reply};
use base::TryCopy;
use group_attach::{Attachment, Groups};
use identity::{Bits, Gtsi, Itsi, Prefix};
use mailbox::Mail;
use mm_pdus::{GroupItems, GroupMode, GroupUp, LocationUpdateType, MmFault, MmUp, read_up};
use registration::{Limits, LocationArea, RegFault, Registry, Rule, Station};
use std::alloc::{AllocError, Allocator};
use std::marker::Model;

/// The greatest number of an accepted command, 2 to the 62nd.
pub const LAST_NUMBER: u64 = 1 << 62;

/// The tables of a register: rules, radios and their groups, the waiting items of the mail, and each station's
/// last accepted command.
#[derive(Drop)]
pub(crate) struct Tables<A: Allocator> {
    alloc: A,
    registry: Registry<A>,
    groups: Groups<A>,
    mail: Mail<A>,
    // The entry of station 1 comes first. Each station has one from the start, so that an accepted
    // command is kept without memory.
    served: Vec<Option<LastAccepted<A>>, A>,
    count: u64,
}

impl<A: Allocator> Model for Tables<A> {
    ghost use Rattle.centre_core.specs.State.{State, coded_state, IsState};

    ghost Value = { State };

    ghost coded = { coded_state };

    ghost view = { λ r. record { registered = r.registry; groups = r.groups; mail = r.mail; served = r.served.items; count = r.count } };

    ghost invariant = { λ r. IsState (record { registered = r.registry; groups = r.groups; mail = r.mail; served = r.served.items; count = r.count }) };
}

impl<A: Allocator> Tables<A> {
    // The tables of these parts, which make a state.
    pub(crate) fn of(parts: Parts<A>) -> Self
        requires { IsState parts }
        ensures { result ≡ parts }
    {
        Tables {
            alloc: parts.alloc,
            registry: parts.registry,
            groups: parts.groups,
            mail: parts.mail,
            served: parts.served,
            count: parts.count,
        }
    }

    pub(crate) fn registry(&self) -> &Registry<A>
        ensures { result.now ≡ self.now.registered }
    {
        &self.registry
    }

    pub(crate) fn groups(&self) -> &Groups<A>
        ensures { result.now ≡ self.now.groups }
    {
        &self.groups
    }

    pub(crate) fn mail(&self) -> &Mail<A>
        ensures { result.now ≡ self.now.mail }
    {
        &self.mail
    }

    pub(crate) fn served(&self) -> &[Option<LastAccepted<A>>]
        ensures { result.now ≡ self.now.served }
    {
        &self.served
    }

    // States what its fields keep.
    pub(crate) fn facts_of_state(&self)
        ensures { IsState self.now }
    {
        let _count = self.count;
    }
}

impl<A: Allocator + Clone> Tables<A> {
    // No rules, no radios, no attachments, no waiting items and no accepted command.
    pub(crate) fn new(alloc: A, limits: Limits) -> Result<Self, AllocError>
        ensures { IfOk result (λ tables. tables ≡ empty limits) }
    {
        Ok(Tables {
            registry: Registry::new(alloc.clone()?, limits)?,
            groups: Groups::new(alloc.clone()?),
            mail: Mail::new(alloc.clone()?, limits),
            served: none_accepted(&alloc, limits.stations)?,
            count: 0,
            alloc,
        })
    }

    pub(crate) fn limits(&self) -> Limits
        ensures { result ≡ self.now.registered.limits }
    {
        self.registry.limits()
    }

    pub(crate) fn count(&self) -> u64
        ensures { result ≡ self.now.count }
    {
        self.count
    }

    pub(crate) fn query<C: Allocator + Copy>(
        &self,
        alloc: C,
        query: &Query,
    ) -> Result<QueryAnswer<C>, AllocError>
        ensures ok { IfOk result (λ answer. answer ≡ answer_to self.now query.now) }
        ensures memory { OnErr result (AsksForList query.now) }
    {
        match *query {
            Query::Whereabouts(itsi) => Ok(QueryAnswer::Whereabouts {
                itsi,
                radio: self.registry.where_is(itsi),
            }),
            Query::Look(itsi) => Ok(QueryAnswer::Look {
                itsi,
                rule: self.registry.longest_rule(itsi.number()),
            }),
            Query::GroupsOf(itsi) => Ok(QueryAnswer::Groups {
                itsi,
                groups: Attachments {
                    items: self.attachments_of(alloc, itsi)?,
                },
            }),
            Query::MembersOf(gtsi) => Ok(QueryAnswer::Members {
                gtsi,
                members: Attachments {
                    items: self.present_members(alloc, gtsi)?,
                },
            }),
            Query::Waiting(itsi) => Ok(QueryAnswer::Waiting {
                itsi,
                items: self.waiting(alloc, itsi)?,
            }),
            Query::Total => Ok(QueryAnswer::Total(self.count)),
        }
    }

    // The attachments of a radio.
    fn attachments_of<C: Allocator>(
        &self,
        alloc: C,
        itsi: Itsi,
    ) -> Result<Vec<Attachment, C>, AllocError>
        ensures { IfOk result (λ list. list.items ≡ groups_of self.now.groups itsi) }
    {
        self.groups.groups_of(alloc, itsi)
    }

    // The attachments to a group whose radios are present.
    fn present_members<C: Allocator>(
        &self,
        alloc: C,
        gtsi: Gtsi,
    ) -> Result<Vec<Attachment, C>, AllocError>
        ensures { IfOk result (λ list. list.items ≡ present_members self.now gtsi) }
    {
        let mut members = self.groups.members_of(alloc, gtsi)?;
        members.retain(|member| self.registry.is_present(member.itsi));
        Ok(members)
    }
}

// Copying the allocator can't fail, as cloning could.
impl<A: Allocator + Copy> Tables<A> {
    pub(crate) fn apply<B: Allocator, C: Allocator + Copy>(
        &mut self,
        alloc: C,
        command: &Command<B>,
    ) -> Result<Reply<C>, AllocError>
        ensures ok { IfOk result (λ reply. (self.new, reply) ≡ step self.old command.now) }
        // No message is lost but those that the command ends.
        ensures messages { IfOk result (λ reply. MessagesStay self.old.mail self.new.mail (is_acceptance reply) (names command.now)) }
        ensures err { OnErr result (self.new ≡ self.old) }
        ensures memory { OnErr result (IsTrue (needs_memory self.old command.now)) }
    {
        self.step(alloc, command)
    }

    #[tactic(auto, using(crate::proofs::StepLaws::new_step, crate::proofs::StepLaws::new_memory))]
    fn step<B: Allocator, C: Allocator + Copy>(
        &mut self,
        alloc: C,
        command: &Command<B>,
    ) -> Result<Reply<C>, AllocError>
        ensures ok { IfOk result (λ reply. (self.new, reply) ≡ step self.old command.now) }
        ensures err { OnErr result (self.new ≡ self.old) }
        ensures memory { OnErr result (IsTrue (needs_memory self.old command.now)) }
    {
        if let Some(reply) = self.settled(alloc, command)? {
            return Ok(reply);
        }
        self.apply_new(alloc, command)
    }

    // A command whose sequence is new to its station.
    fn apply_new<B: Allocator, C: Allocator + Copy>(
        &mut self,
        alloc: C,
        command: &Command<B>,
    ) -> Result<Reply<C>, AllocError>
        requires { IsOfStation self.old command.now }
        ensures ok { IfOk result (λ reply. (self.new, reply) ≡ step_new self.old command.now) }
        ensures err { OnErr result (self.new ≡ self.old) }
        ensures memory { OnErr result (IsTrue (needs_new self.old command.now)) }
    {
        if self.count >= LAST_NUMBER {
            return Ok(Reply::Refused(Refusal::NumbersUsedUp));
        }
        match &command.body {
            Body::RuleSet { prefix, rule } => self.set_rule(command, *prefix, *rule),
            Body::RuleClear { prefix } => Ok(self.clear_rule(command, prefix)),
            Body::Mm { itsi, area, pdu } => self.mobility(alloc, command, *itsi, *area, pdu),
            Body::Sds {
                source,
                destination,
                pdu,
            } => self.short_data(command, *source, *destination, pdu),
            Body::GroupSds { source, group, pdu } => {
                self.group_short_data(alloc, command, *source, *group, pdu)
            }
            Body::Sent(key) => Ok(self.sent(command, key)),
            Body::Expire => Ok(self.expire(command)),
            Body::Delete(key) => Ok(self.delete(command, key)),
        }
    }

    fn mobility<B: Allocator, C: Allocator + Copy>(
        &mut self,
        alloc: C,
        command: &Command<B>,
        itsi: Itsi,
        area: LocationArea,
        pdu: &Bits<B>,
    ) -> Result<Reply<C>, AllocError>
        requires { CanBeAccepted self.old command.now }
        ensures ok { IfOk result (λ reply. (self.new, reply) ≡ step_mm self.old command.now itsi area (reading_up pdu.now)) }
        ensures err { OnErr result (self.new ≡ self.old) }
        ensures memory { OnErr result (IsTrue (needs_body {A = B} self.old command.now.moment (Mm itsi area pdu.now))) }
    {
        match read_up(alloc, pdu) {
            Err(MmFault::NoMemory) => Err(AllocError),
            Err(fault) => Ok(Reply::Refused(Refusal::Pdu(fault))),
            Ok(MmUp::Demand { update }) => self.locate(alloc, command, itsi, area, update),
            Ok(MmUp::Detach) => Ok(self.detach(command, itsi)),
            Ok(MmUp::Groups { mode, items }) => {
                self.change_groups(alloc, command, itsi, mode, &items)
            }
        }
    }

    #[tactic(auto, using(crate::proofs::ShortPdus::service_never, crate::proofs::ShortPdus::new_needs))]
    fn locate<B: Allocator, C: Allocator + Copy>(
        &mut self,
        alloc: C,
        command: &Command<B>,
        itsi: Itsi,
        area: LocationArea,
        update: LocationUpdateType,
    ) -> Result<Reply<C>, AllocError>
        requires { CanBeAccepted self.old command.now }
        ensures ok { IfOk result (λ reply. (self.new, reply) ≡ step_locate self.old command.now itsi area update) }
        ensures err { OnErr result (self.new ≡ self.old) }
        ensures memory { OnErr result (IsTrue (needs_update self.old itsi area update)) }
    {
        if let Some(fault) = self.registry.service_refusal(itsi, area, update) {
            return Ok(Reply::Refused(location_refusal(alloc, update, fault)?));
        }
        let (kept, pdu) = self.accept_pdus(alloc, update)?;
        if let Err(fault) = self.place(itsi, command.station, area, update) {
            return Ok(Reply::Refused(location_refusal(alloc, update, fault)?));
        }
        let number = self.accept(command, kept);
        Ok(Reply::Accepted { number, pdu })
    }

    // The PDU that accepts a location update, twice: one copy to keep and one to answer. None for a type that is
    // never accepted. It takes no memory, as the PDU is short.
    #[tactic(auto, using(crate::proofs::ShortPdus::accept_short))]
    fn accept_pdus<C: Allocator>(
        &self,
        alloc: C,
        update: LocationUpdateType,
    ) -> Result<(Option<Bits<A>>, Option<Bits<C>>), AllocError>
        ensures ok { IfOk result (λ pdus. pdus ≡ (accept_pdu update, accept_pdu update)) }
        ensures never { IsOk result }
    {
        let Some(accepted) = update.accept_type() else {
            return Ok((None, None));
        };
        let kept = accept_pdu(self.alloc, accepted)?;
        let pdu = bits_copy(alloc, &kept)?;
        Ok((Some(kept), Some(pdu)))
    }
}

impl<A: Allocator + Clone> Tables<A> {
    // The reply to a command that is not new to its station. None for one that is.
    #[tactic(auto, unfolding(crate::specs::Step::step, crate::specs::Memory::needs_memory))]
    fn settled<B: Allocator, C: Allocator + Copy>(
        &self,
        alloc: C,
        command: &Command<B>,
    ) -> Result<Option<Reply<C>>, AllocError>
        ensures ok { IfOk result (λ found. IfSome found (λ reply. (self.now, reply) ≡ step self.now command.now)) }
        ensures new { IfOk result (λ found. found ≡ None → IsNew self.now command.now) }
        ensures memory { OnErr result (IsTrue (needs_memory self.now command.now)) }
    {
        let station = command.station.number();
        if station == 0 || u32::from(station) > self.registry.limits().stations {
            return Ok(Some(Reply::Refused(Refusal::UnknownStation)));
        }
        if let Some(last) = &self.served[usize::from(station) - 1] {
            if command.sequence.number() < last.sequence.number() {
                return Ok(Some(Reply::Refused(Refusal::OldSequence {
                    last: last.sequence,
                })));
            }
            if command.sequence == last.sequence {
                return Ok(Some(last.kept_reply(alloc)?));
            }
        }
        Ok(None)
    }

    fn set_rule<B: Allocator, C: Allocator>(
        &mut self,
        command: &Command<B>,
        prefix: Prefix,
        rule: Rule,
    ) -> Result<Reply<C>, AllocError>
        requires { CanBeAccepted self.old command.now }
        ensures ok { IfOk result (λ reply. (self.new, reply) ≡ step_rule self.old command.now prefix rule) }
        ensures err { OnErr result (self.new ≡ self.old) }
        ensures memory { OnErr result (IsTrue (needs_rule self.old prefix)) }
    {
        if let Err(fault) = self.registry.set_rule(prefix, rule) {
            return Ok(Reply::Refused(registration_refusal(fault)?));
        }
        let number = self.accept(command, None);
        Ok(Reply::Accepted { number, pdu: None })
    }

    // It takes no memory.
    fn clear_rule<B: Allocator, C: Allocator>(
        &mut self,
        command: &Command<B>,
        prefix: &Prefix,
    ) -> Reply<C>
        requires { CanBeAccepted self.old command.now }
        ensures { (self.new, result) ≡ step_clear self.old command.now prefix.now }
    {
        self.registry.clear_rule(prefix);
        let number = self.accept(command, None);
        Reply::Accepted { number, pdu: None }
    }

    // Locates a radio that a rule serves, where there is room for it. The update ends attachments, of which a new radio
    // has none.
    fn place(
        &mut self,
        itsi: Itsi,
        station: Station,
        area: LocationArea,
        update: LocationUpdateType,
    ) -> Result<(), RegFault>
        ensures ok { OnOk result ((room_refusal self.old.registered itsi ≡ None) × (self.new ≡ radio_located self.old itsi station area update)) }
        ensures err { IfErr result (λ e. (e ≡ unwrap_or (room_refusal self.old.registered itsi) NoMemory) × (self.new ≡ self.old)) }
        ensures moves { IsSome (radio_of self.old.registered itsi) → IsOk result }
    {
        let known = self.registry.place(itsi, station, area)?;
        if known {
            self.groups.on_update(itsi, update);
        }
        Ok(())
    }

    fn change_groups<B: Allocator, C: Allocator + Copy>(
        &mut self,
        alloc: C,
        command: &Command<B>,
        itsi: Itsi,
        mode: GroupMode,
        items: &GroupItems<GroupUp, C>,
    ) -> Result<Reply<C>, AllocError>
        requires { CanBeAccepted self.old command.now }
        ensures ok { IfOk result (λ reply. (self.new, reply) ≡ step_groups self.old command.now itsi mode items.now) }
        ensures err { OnErr result (self.new ≡ self.old) }
        ensures memory { OnErr result (IsTrue (is_none (apply_refusal self.old.registered self.old.groups itsi mode items.now))) }
    {
        if let Some(fault) = self.groups.apply_refusal(&self.registry, itsi, mode, items) {
            return Ok(Reply::Refused(Refusal::Groups(fault)));
        }
        let (kept, pdu) = self.acknowledge_pdus(alloc, itsi, items)?;
        let Ok(()) = self.groups.change(&self.registry, itsi, mode, items) else {
            return Err(AllocError);
        };
        let number = self.accept(command, Some(kept));
        Ok(Reply::Accepted {
            number,
            pdu: Some(pdu),
        })
    }

    // The acknowledgement, twice: one copy to keep and one to answer.
    fn acknowledge_pdus<C: Allocator + Copy>(
        &self,
        alloc: C,
        itsi: Itsi,
        items: &GroupItems<GroupUp, C>,
    ) -> Result<(Bits<A>, Bits<C>), AllocError>
        ensures { let text = acknowledge_pdu self.now.registered itsi items.now in IfOk result (λ pdus. pdus ≡ (text, text)) }
    {
        let kept = acknowledge_pdu(self.alloc.clone()?, alloc, &self.registry, itsi, items)?;
        let pdu = bits_copy(alloc, &kept)?;
        Ok((kept, pdu))
    }

    // It takes no memory.
    fn detach<B: Allocator, C: Allocator>(&mut self, command: &Command<B>, itsi: Itsi) -> Reply<C>
        requires { CanBeAccepted self.old command.now }
        ensures { (self.new, result) ≡ step_detach self.old command.now itsi }
    {
        if let Err(fault) = self.registry.detach(itsi) {
            return Reply::Refused(Refusal::Registration(fault));
        }
        let number = self.accept(command, None);
        Reply::Accepted { number, pdu: None }
    }

    // Counts an accepted command and keeps its entry, without memory. The result is its number.
    fn accept<B: Allocator>(&mut self, command: &Command<B>, pdu: Option<Bits<A>>) -> u64
        requires { CanBeAccepted self.old command.now }
        ensures number { result ≡ self.old.count + 1 }
        ensures kept { self.new ≡ accepted self.old command.now pdu }
    {
        count_accepted(&mut self.served, &mut self.count, command, pdu);
        self.count
    }
}

impl<A: Allocator + Clone> TryCopy for Tables<A> {
    fn try_copy(&self) -> Result<Self, AllocError> {
        Ok(Tables {
            alloc: self.alloc.clone()?,
            registry: self.registry.try_copy()?,
            groups: self.groups.try_copy()?,
            mail: self.mail.try_copy()?,
            served: copy_all(&self.alloc, &self.served)?,
            count: self.count,
        })
    }
}
