//! Messages to groups in the tables.
ghost use Rattle.std.specs.Prelude.{◌≡◌, IfOk, OnErr, IsTrue, map};
ghost use Rattle.sds_tl.specs.Reading.{heading};
ghost use Rattle.sds_tl.specs.Transfers.{transfer_reference};
ghost use Rattle.mailbox.specs.declared.key.Kind.TheVariants as kind;
ghost use Rattle.mailbox.specs.Sound.{is_head_of};
ghost use Rattle.centre_core.specs.Step.{CanBeAccepted, members, copies_of, step_copies, step_group_sds};
ghost use Rattle.centre_core.specs.Memory.{needs_reference};

use crate::last_accepted::{bits_copy, count_accepted};
use crate::tables::Tables;
use crate::{Command, Refusal, Reply};
use group_attach::Attachment;
use identity::{Bits, Gtsi, Itsi};
use mailbox::GroupEnvelope;
use std::alloc::{AllocError, Allocator};

impl<A: Allocator + Clone> Tables<A> {
    // A message of a radio to a group. The list of the members is allocated in `alloc` meanwhile.
    pub(crate) fn group_short_data<B: Allocator, C: Allocator + Copy>(
        &mut self,
        alloc: C,
        command: &Command<B>,
        source: Itsi,
        group: Gtsi,
        pdu: &Bits<B>,
    ) -> Result<Reply<C>, AllocError>
        requires { CanBeAccepted self.old command.now }
        ensures ok { IfOk result (λ reply.
            (self.new, reply) ≡ step_group_sds self.old command.now source group pdu.now (transfer_reference (heading pdu.now))) }
        ensures err { OnErr result (self.new ≡ self.old) }
        ensures memory { OnErr result (IsTrue (needs_reference (transfer_reference (heading pdu.now)))) }
    {
        match sds_tl::transfer_reference(pdu) {
            Ok(reference) => {
                let envelope = GroupEnvelope {
                    source,
                    group,
                    reference,
                };
                self.post_to_group(alloc, command, &envelope, pdu)
            }
            Err(fault) => Ok(Reply::Refused(Refusal::ShortData(fault))),
        }
    }

    fn post_to_group<B: Allocator, C: Allocator + Copy>(
        &mut self,
        alloc: C,
        command: &Command<B>,
        envelope: &GroupEnvelope,
        pdu: &Bits<B>,
    ) -> Result<Reply<C>, AllocError>
        requires command { CanBeAccepted self.old command.now }
        requires pdu { IsTrue (is_head_of kind.Message envelope.now.reference (heading pdu.now)) }
        ensures ok { IfOk result (λ reply. (self.new, reply) ≡ step_copies self.old command.now envelope.now
            (copies_of self.old command.now.moment envelope.now pdu.now)) }
        ensures err { OnErr result (self.new ≡ self.old) }
    {
        let list = self.members(alloc, envelope.group)?;
        let members = list.as_slice();
        if let Some(fault) = self.mail.group_refusal(&self.registry, envelope, members) {
            return Ok(Reply::Refused(Refusal::Mail(fault)));
        }
        let bits = bits_copy(self.alloc.clone()?, pdu)?;
        let stamp = self.stamp(command);
        let Ok(()) = self
            .mail
            .post_group(&self.registry, envelope, members, stamp, bits)
        else {
            return Err(AllocError);
        };
        // The copies have the next number already; now it is counted.
        count_accepted(&mut self.served, &mut self.count, command, None);
        Ok(Reply::Accepted {
            number: self.count,
            pdu: None,
        })
    }

    // The radios that are attached to a group, in order of number.
    fn members<C: Allocator + Copy>(
        &self,
        alloc: C,
        group: Gtsi,
    ) -> Result<Vec<Itsi, C>, AllocError>
        ensures { IfOk result (λ list. list.items ≡ members self.now group) }
    {
        let attachments = self.groups.members_of(alloc, group)?;
        radios(alloc, &attachments)
    }
}

// The radio of each attachment.
fn radios<A: Allocator>(alloc: A, attachments: &[Attachment]) -> Result<Vec<Itsi, A>, AllocError>
    ensures { IfOk result (λ radios. radios.items ≡ map (λ a. a.itsi) attachments.now) }
{
    let mut radios = Vec::new(alloc);
    for attachment in attachments {
        radios.push(attachment.itsi)?;
    }
    Ok(radios)
}
