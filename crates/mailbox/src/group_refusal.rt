//! Why the mail would refuse a message to a group if there were memory.

ghost use Rattle.std.specs.Prelude.{◌≡◌, ◌+◌, ◌<◌, ◌==◌, ◌&&◌, nat_le, nat_lt, not, length, count_by, Bool, List};
ghost use Rattle.std.specs.List.{AllPairs, list_any};
ghost use Rattle.mailbox.specs.declared.key.Stamp.{Stamp};
ghost use Rattle.mailbox.specs.Item.{is_to};
ghost use Rattle.mailbox.specs.Mail.{holds};
ghost use Rattle.mailbox.specs.Refusals.{most_for_one};
ghost use Rattle.mailbox.specs.GroupPost.{copy_key, is_receiver, copies, first_of_copies, group_refusal};

use crate::refusal::{MOST_FOR_ONE, absent_refusal, unknown_refusal};
use crate::{GroupEnvelope, Mail, MailFault};
use identity::Itsi;
use registration::Registry;
use std::alloc::Allocator;

/// Whether a member of a group gets a copy of a message: it is present, and not the sender.
pub(crate) fn is_receiver<A: Allocator + Clone>(
    registry: &Registry<A>,
    source: Itsi,
    member: Itsi,
) -> bool
    ensures { result ≡ is_receiver registry.now source member }
{
    registry.is_present(member) && member.number() != source.number()
}

/// How many members get a copy.
fn count_receivers<A: Allocator + Clone>(
    registry: &Registry<A>,
    source: Itsi,
    members: &[Itsi],
) -> usize
    ensures { result ≡ count_by (is_receiver registry.now source) members.now }
{
    members
        .iter()
        .filter(|member| is_receiver(registry, source, **member))
        .count()
}

impl<A: Allocator + Clone> Mail<A> {
    /// Why `post_group` would refuse a message: `UnknownDestination` (the group), `NotAttached` (the
    /// source), `NoMembers`, `ReferenceBusy`, `MailboxFull` and `CentreFull`, in this order. The
    /// members must be in order of number. It takes no memory.
    pub fn group_refusal(
        &self,
        registry: &Registry<A>,
        envelope: &GroupEnvelope,
        members: &[Itsi],
    ) -> Option<MailFault>
        requires { AllPairs (λ a b. a < b) members.now }
        ensures { (stamp : Stamp) (pdu : List Bool)
            → result ≡ group_refusal registry.now self.now envelope.now (copies registry.now envelope.now members.now stamp pdu) }
    {
        let rule = registry.rule_of(envelope.group.number());
        if let Some(fault) = unknown_refusal(rule) {
            return Some(fault);
        }
        if let Some(fault) = absent_refusal(registry, envelope.source) {
            return Some(fault);
        }
        self.copies_refusal(registry, envelope, members)
    }

    /// Why the copies for these members are refused.
    fn copies_refusal(
        &self,
        registry: &Registry<A>,
        envelope: &GroupEnvelope,
        members: &[Itsi],
    ) -> Option<MailFault>
        ensures { let receives = is_receiver registry.now envelope.now.source in
            result ≡ first_of_copies
            (count_by receives members.now == 0)
            (list_any (λ d. receives d && holds self.now (copy_key envelope.now d)) members.now)
            (list_any (λ d. receives d && nat_le most_for_one (count_by (is_to d) self.now.items)) members.now)
            (nat_lt self.now.room (length self.now.items + count_by receives members.now)) }
    {
        let count = count_receivers(registry, envelope.source, members);
        if count == 0 {
            return Some(MailFault::NoMembers);
        }
        if self.any_busy(registry, envelope, members) {
            return Some(MailFault::ReferenceBusy);
        }
        if self.any_full(registry, envelope.source, members) {
            return Some(MailFault::MailboxFull);
        }
        if self.len().saturating_add(count) > self.room() as usize {
            return Some(MailFault::CentreFull);
        }
        None
    }

    /// Whether the key of a copy is taken.
    fn any_busy(&self, registry: &Registry<A>, envelope: &GroupEnvelope, members: &[Itsi]) -> bool
        ensures { result ≡ list_any (λ d. is_receiver registry.now envelope.now.source d && holds self.now (copy_key envelope.now d)) members.now }
    {
        members.iter().any(|member| {
            is_receiver(registry, envelope.source, *member) && self.holds(&envelope.key(*member))
        })
    }

    /// Whether a member that gets a copy has as many items waiting as may.
    fn any_full(&self, registry: &Registry<A>, source: Itsi, members: &[Itsi]) -> bool
        ensures { result ≡ list_any (λ d. is_receiver registry.now source d && nat_le most_for_one (count_by (is_to d) self.now.items)) members.now }
    {
        members.iter().any(|member| {
            is_receiver(registry, source, *member) && self.count_to(*member) >= MOST_FOR_ONE
        })
    }
}
