//! Short messages in the tables.
ghost use Rattle.std.specs.Prelude.{◌≡◌, ◌+◌, IfOk, OnErr, IsTrue, None};
ghost use Rattle.std.specs.Option.{is_none};
ghost use Rattle.sds_tl.specs.Reading.{heading, cleared};
ghost use Rattle.mailbox.specs.declared.key.Kind.TheVariants as kind;
ghost use Rattle.mailbox.specs.Mail.{waiting};
ghost use Rattle.mailbox.specs.Refusals.{post_refusal, report_refusal};
ghost use Rattle.mailbox.specs.Sound.{is_head_of};
ghost use Rattle.centre_core.specs.Step.{CanBeAccepted, envelope, message_of, report_of, step_made};
ghost use Rattle.centre_core.specs.Step.{step_sds, step_message, step_report, step_ack, step_sent, step_expire, step_delete};
ghost use Rattle.centre_core.specs.Memory.{needs_head};

use crate::last_accepted::{bits_copy, count_accepted};
use crate::tables::Tables;
use crate::{Command, Items, Refusal, Reply};
use identity::{Bits, Itsi};
use mailbox::{Envelope, Item, Key, Stamp};
use sds_tl::{DeliveryStatus, Head, MessageReference};
use std::alloc::{AllocError, Allocator};

impl<A: Allocator + Clone> Tables<A> {
    // Copies of the items that wait for a radio.
    pub(crate) fn waiting<C: Allocator + Copy>(
        &self,
        alloc: C,
        itsi: Itsi,
    ) -> Result<Items<C>, AllocError>
        ensures { IfOk result (λ items. items ≡ waiting self.now.mail itsi) }
    {
        Ok(Items {
            items: copies(alloc, self.mail.items_of(itsi))?,
        })
    }

    // A short data PDU of a radio for another one.
    pub(crate) fn short_data<B: Allocator, C: Allocator>(
        &mut self,
        command: &Command<B>,
        source: Itsi,
        destination: Itsi,
        pdu: &Bits<B>,
    ) -> Result<Reply<C>, AllocError>
        requires { CanBeAccepted self.old command.now }
        ensures ok { IfOk result (λ reply. (self.new, reply) ≡ step_sds self.old command.now source destination pdu.now (heading pdu.now)) }
        ensures err { OnErr result (self.new ≡ self.old) }
        ensures memory { OnErr result (IsTrue (needs_head self.old command.now.moment source destination pdu.now (heading pdu.now))) }
    {
        let head = match sds_tl::head(pdu) {
            Ok(head) => head,
            Err(fault) => return Ok(Reply::Refused(Refusal::ShortData(fault))),
        };
        match &head {
            Head::Transfer { reference, .. } => {
                let envelope = envelope(source, destination, *reference);
                self.post(command, &envelope, pdu)
            }
            Head::Report {
                status,
                reference,
                ..
            } => {
                let envelope = envelope(source, destination, *reference);
                self.report(command, &envelope, *status, pdu)
            }
            Head::Ack { reference, .. } => {
                let envelope = envelope(source, destination, *reference);
                Ok(self.acknowledge(command, &envelope))
            }
        }
    }

    fn post<B: Allocator, C: Allocator>(
        &mut self,
        command: &Command<B>,
        envelope: &Envelope,
        pdu: &Bits<B>,
    ) -> Result<Reply<C>, AllocError>
        requires command { CanBeAccepted self.old command.now }
        requires pdu { IsTrue (is_head_of kind.Message envelope.now.reference (heading pdu.now)) }
        ensures ok { IfOk result (λ reply. (self.new, reply) ≡ step_message self.old command.now
            (message_of self.old command.now.moment envelope.now pdu.now)) }
        ensures err { OnErr result (self.new ≡ self.old) }
        ensures memory { OnErr result (IsTrue (is_none (post_refusal self.old.registered self.old.mail
            (message_of self.old command.now.moment envelope.now pdu.now)))) }
    {
        let opening = match self.mail.judge_post(&self.registry, envelope) {
            Ok(opening) => opening,
            Err(fault) => return Ok(Reply::Refused(Refusal::Mail(fault))),
        };
        let bits = bits_copy(self.alloc.clone()?, pdu)?;
        let stamp = self.stamp(command);
        self.mail.post_judged(&opening, stamp, bits)?;
        // The item has the next number already; now it is counted.
        count_accepted(&mut self.served, &mut self.count, command, None);
        Ok(Reply::Accepted {
            number: self.count,
            pdu: None,
        })
    }

    fn report<B: Allocator, C: Allocator>(
        &mut self,
        command: &Command<B>,
        envelope: &Envelope,
        status: DeliveryStatus,
        pdu: &Bits<B>,
    ) -> Result<Reply<C>, AllocError>
        requires command { CanBeAccepted self.old command.now }
        requires pdu { IsTrue (is_head_of kind.Report envelope.now.reference (heading pdu.now)) }
        ensures ok { IfOk result (λ reply. (self.new, reply) ≡ step_report self.old command.now envelope.now status
            (report_of self.old command.now.moment envelope.now pdu.now)) }
        ensures err { OnErr result (self.new ≡ self.old) }
        ensures memory { OnErr result (IsTrue (is_none (report_refusal self.old.registered self.old.mail envelope.now status
            (report_of self.old command.now.moment envelope.now pdu.now)))) }
    {
        let judged = match self.mail.judge_report(&self.registry, envelope, status) {
            Ok(judged) => judged,
            Err(fault) => return Ok(Reply::Refused(Refusal::Mail(fault))),
        };
        let Ok(bits) = sds_tl::canonical(self.alloc.clone()?, pdu) else {
            return Err(AllocError);
        };
        let stamp = self.stamp(command);
        self.mail
            .report_judged(&judged, envelope, status, stamp, bits)?;
        // The item has the next number already; now it is counted.
        count_accepted(&mut self.served, &mut self.count, command, None);
        Ok(Reply::Accepted {
            number: self.count,
            pdu: None,
        })
    }

    // It takes no memory.
    fn acknowledge<B: Allocator, C: Allocator>(
        &mut self,
        command: &Command<B>,
        envelope: &Envelope,
    ) -> Reply<C>
        requires { CanBeAccepted self.old command.now }
        ensures { (self.new, result) ≡ step_ack self.old command.now envelope.now }
    {
        if let Err(fault) = self.mail.ack(&self.registry, envelope) {
            return Reply::Refused(Refusal::Mail(fault));
        }
        self.accepted_without_pdu(command)
    }

    // It takes no memory.
    pub(crate) fn sent<B: Allocator, C: Allocator>(
        &mut self,
        command: &Command<B>,
        key: &Key,
    ) -> Reply<C>
        requires { CanBeAccepted self.old command.now }
        ensures { (self.new, result) ≡ step_sent self.old command.now key.now }
    {
        if let Err(fault) = self.mail.sent(&self.registry, key) {
            return Reply::Refused(Refusal::Mail(fault));
        }
        self.accepted_without_pdu(command)
    }

    // It takes no memory.
    pub(crate) fn expire<B: Allocator, C: Allocator>(&mut self, command: &Command<B>) -> Reply<C>
        requires { CanBeAccepted self.old command.now }
        ensures { (self.new, result) ≡ step_expire self.old command.now }
    {
        self.mail.expire(command.moment);
        self.accepted_without_pdu(command)
    }

    // It takes no memory.
    pub(crate) fn delete<B: Allocator, C: Allocator>(
        &mut self,
        command: &Command<B>,
        key: &Key,
    ) -> Reply<C>
        requires { CanBeAccepted self.old command.now }
        ensures { (self.new, result) ≡ step_delete self.old command.now key.now }
    {
        if let Err(fault) = self.mail.delete(key) {
            return Reply::Refused(Refusal::Mail(fault));
        }
        self.accepted_without_pdu(command)
    }

    // The number and moment that an item gets from its command, which is the next to be accepted.
    pub(crate) fn stamp<B: Allocator>(&self, command: &Command<B>) -> Stamp
        requires { CanBeAccepted self.now command.now }
        ensures { result ≡ record { number = self.now.count + 1; moment = command.now.moment } }
    {
        Stamp {
            number: self.count + 1,
            moment: command.moment,
        }
    }

    fn accepted_without_pdu<B: Allocator, C: Allocator>(&mut self, command: &Command<B>) -> Reply<C>
        requires { CanBeAccepted self.old command.now }
        ensures { (self.new, result) ≡ step_made self.old command.now self.old None None }
    {
        let number = self.accept(command, None);
        Reply::Accepted { number, pdu: None }
    }
}

fn envelope(source: Itsi, destination: Itsi, reference: MessageReference) -> Envelope
    ensures { result ≡ envelope source destination reference }
{
    Envelope {
        source,
        destination,
        reference,
    }
}

fn copies<A: Allocator, B: Allocator + Copy>(
    alloc: B,
    items: &[Item<A>],
) -> Result<Vec<Item<B>, B>, AllocError>
    ensures { IfOk result (λ copies. copies.items ≡ items.now) }
{
    let mut copies = Vec::with_capacity(alloc, items.len())?;
    for item in items {
        copies.push(item.copy(alloc)?)?;
    }
    Ok(copies)
}
