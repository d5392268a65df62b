//! Messages to a group.

ghost use Rattle.std.specs.Prelude.{◌≡◌, ◌<◌, ◌≤◌, ◌++◌, ◌&&◌, false, true, length, map, take, None, OnOk, OnErr, IfErr, unwrap_or, [], ◌∷◌};
ghost use Rattle.std.specs.List.{All, AllPairs, filter, list_any};
ghost use Rattle.mailbox.specs.declared.fault.MailFault.TheVariants.{NoMemory};
ghost use Rattle.mailbox.specs.Mail.{holds};
ghost use Rattle.mailbox.specs.Order.{ComesLast};
ghost use Rattle.mailbox.specs.GroupPost.{copy_for, copies, is_receiver, group_posted, group_refusal, addressed, shortened};

use crate::group_refusal::is_receiver;
use crate::mail::deadline_by;
use crate::{GroupEnvelope, Item, Mail, MailFault, Stamp};
use identity::{Bits, Itsi};
use registration::Registry;
use std::alloc::{AllocError, Allocator};

impl<A: Allocator + Clone> Mail<A> {
    /// Puts a copy of a message (SDS-TRANSFER) at the end for each member of a group that is present,
    /// but not for the sender. The copies are in order of key, all under the command's number. This must
    /// be greater than those of all items. The group's rule says how long the copies are kept. The
    /// members must be in order of number. The refusals are those of `group_refusal`, and `NoMemory`. A
    /// refusal changes nothing, so either each of these members gets a copy or nobody does.
    pub fn post_group(
        &mut self,
        registry: &Registry<A>,
        envelope: &GroupEnvelope,
        members: &[Itsi],
        stamp: Stamp,
        pdu: Bits<A>,
    ) -> Result<(), MailFault>
        requires rising { AllPairs (λ a b. a < b) members.now }
        requires newest { All (λ o. o.number < stamp.number) self.old.items }
        ensures ok { let ws = copies registry.now envelope.now members.now stamp pdu in
            OnOk result ((group_refusal registry.now self.old envelope.now ws ≡ None) × (self.new ≡ group_posted self.old ws)) }
        ensures err { let ws = copies registry.now envelope.now members.now stamp pdu in
            IfErr result (λ e. (e ≡ unwrap_or (group_refusal registry.now self.old envelope.now ws) NoMemory) × (self.new ≡ self.old)) }
    {
        if let Some(fault) = self.group_refusal(registry, envelope, members) {
            return Err(fault);
        }
        let message = original(registry, envelope, stamp, pdu);
        let before = self.len();
        let Ok(()) = self.put_copies(registry, &message, members) else {
            self.truncate(before);
            return Err(MailFault::NoMemory);
        };
        Ok(())
    }

    /// Puts the copies at the end. When memory runs out, some of them follow the items before.
    fn put_copies(
        &mut self,
        registry: &Registry<A>,
        original: &Item<A>,
        members: &[Itsi],
    ) -> Result<(), AllocError>
        requires rising { AllPairs (λ a b. a < b) members.now }
        requires newest { All (λ o. o.number < original.now.number) self.old.items }
        requires free { list_any (λ d. is_receiver registry.now original.now.key.source d && holds self.old (addressed original.now d).key)
            members.now ≡ false }
        ensures ok { OnOk result (self.new ≡ group_posted self.old
            (map (addressed original.now) (filter (is_receiver registry.now original.now.key.source) members.now))) }
        ensures err { OnErr result (shortened self.new (length self.old.items) ≡ self.old) }
    {
        for member in members {
            self.put_copy(registry, original, *member)?;
        }
        Ok(())
    }

    /// Puts a member's copy at the end, if it gets one. When memory runs out, nothing changes.
    fn put_copy(
        &mut self,
        registry: &Registry<A>,
        original: &Item<A>,
        member: Itsi,
    ) -> Result<(), AllocError>
        requires { is_receiver registry.now original.now.key.source member ≡ true
            → ComesLast self.old original.now.number (addressed original.now member).key
            × (holds self.old (addressed original.now member).key ≡ false) }
        ensures ok { OnOk result (self.new ≡ group_posted self.old
            (map (addressed original.now) (filter (is_receiver registry.now original.now.key.source) (member ∷ [])))) }
        ensures err { OnErr result (self.new ≡ self.old) }
    {
        if !is_receiver(registry, original.key().source, member) {
            return Ok(());
        }
        let copy = original.copied_to(self.allocator().clone()?, member)?;
        self.put_new(copy)
    }
}

/// A message to a group before it is copied for the members. Its destination is still its sender.
fn original<A: Allocator + Clone>(
    registry: &Registry<A>,
    envelope: &GroupEnvelope,
    stamp: Stamp,
    pdu: Bits<A>,
) -> Item<A>
    ensures { result ≡ copy_for registry.now envelope.now stamp pdu envelope.now.source }
{
    let rule = registry.rule_of(envelope.group.number());
    let deadline = deadline_by(rule, stamp.moment);
    let key = envelope.key(envelope.source);
    Item::new(key, stamp.number, deadline, pdu, Some(envelope.group))
}
