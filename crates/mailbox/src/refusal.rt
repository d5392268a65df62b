//! Why the mail would refuse a call if there were memory.

ghost use Rattle.std.specs.Prelude.{◌≡◌, ◌==◌, ◌+◌, ◌&&◌, not, ℕ, [], ◌∷◌, length, count_by, Bool, List, Option, IfOk};
ghost use Rattle.mailbox.specs.declared.key.Kind.TheVariants as kind;
ghost use Rattle.mailbox.specs.declared.key.Stamp.{Stamp};
ghost use Rattle.mailbox.specs.Item.{key_of, answered, is_at, is_to, is_ended_by};
ghost use Rattle.std.specs.List.{list_all};
ghost use Rattle.std.specs.Result.{result_err};
ghost use Rattle.registration.specs.Refusals.{first_of};
ghost use Rattle.registration.specs.Registered.{rule_of};
ghost use Rattle.mailbox.specs.Mail.{without, waiting, message_item, report_item};
ghost use Rattle.mailbox.specs.Judged.{keep_of, opening, waits_alone, item_in, report_opening};
ghost use Rattle.mailbox.specs.Refusals.{unknown_refusal, absent_refusal, busy_refusal, missing_refusal, crowd_refusal};
ghost use Rattle.mailbox.specs.Refusals.{restore_refusal, post_refusal, report_refusal, ack_refusal, sent_refusal};

use crate::items::{all_at, any_at, any_reported, count_at, count_left, count_reported, place_at};
use crate::{Envelope, Item, Key, Kind, Mail, MailFault, Opening, ReportOpening};
use identity::Itsi;
use registration::{Registry, Rule};
use sds_tl::DeliveryStatus;
use std::alloc::Allocator;

/// The most items that may wait for one destination.
pub(crate) const MOST_FOR_ONE: usize = 128;

pub(crate) fn unknown_refusal(rule: Option<Rule>) -> Option<MailFault>
    ensures { result ≡ unknown_refusal rule }
{
    match rule {
        Some(_) => None,
        None => Some(MailFault::UnknownDestination),
    }
}

pub(crate) fn absent_refusal<A: Allocator + Clone>(
    registry: &Registry<A>,
    itsi: Itsi,
) -> Option<MailFault>
    ensures { result ≡ absent_refusal registry.now itsi }
{
    if registry.is_present(itsi) {
        None
    } else {
        Some(MailFault::NotAttached)
    }
}

/// Why one more item is refused where so many wait for its destination, and so many in all.
fn crowd_refusal(room: u32, for_one: usize, in_all: usize) -> Option<MailFault>
    ensures { result ≡ crowd_refusal room (for_one + 1) (in_all + 1) }
{
    if for_one >= MOST_FOR_ONE {
        return Some(MailFault::MailboxFull);
    }
    if in_all >= room as usize {
        return Some(MailFault::CentreFull);
    }
    None
}

impl<A: Allocator> Mail<A> {
    fn missing_refusal(&self, key: &Key) -> Option<MailFault>
        ensures { result ≡ missing_refusal self.now key.now }
    {
        self.judge_at(key).err()
    }

    /// Whether only the item at the key waits for its destination; `NoSuchMessage` if no item is at the key.
    pub(crate) fn judge_at(&self, key: &Key) -> Result<bool, MailFault>
        ensures refusal { result_err result ≡ missing_refusal self.now key.now }
        ensures alone { IfOk result (λ b. b ≡ waits_alone self.now key.now) }
    {
        let items = self.items_of(key.destination);
        if !any_at(items, key) {
            return Err(MailFault::NoSuchMessage);
        }
        Ok(all_at(items, key))
    }

    // Why one more item at this key is refused. The items are those of its destination.
    fn item_refusal(&self, items: &[Item<A>], key: &Key) -> Option<MailFault>
        requires { items.now ≡ waiting self.now key.now.destination }
        ensures { result ≡ first_of (busy_refusal self.now key.now
            ∷ crowd_refusal self.now.room (count_by (is_to key.now.destination) self.now.items + 1) (length self.now.items + 1) ∷ []) }
    {
        if any_at(items, key) {
            return Some(MailFault::ReferenceBusy);
        }
        crowd_refusal(self.room(), items.len(), self.len())
    }

    /// Why `restore` would refuse an item with this key: `ReferenceBusy`, `MailboxFull` and `CentreFull`,
    /// in this order.
    pub fn restore_refusal(&self, key: &Key) -> Option<MailFault>
        ensures { (number deadline : ℕ) (pdu : List Bool) (group : Option ℕ)
            → result ≡ restore_refusal self.now (record { key = key.now; number = number; deadline = deadline; pdu = pdu; group = group }) }
    {
        self.item_refusal(self.items_of(key.destination), key)
    }

    // Why there is no room for a report, by what waits for its source and for its destination.
    fn full_by_report(
        &self,
        at_source: &[Item<A>],
        at_destination: &[Item<A>],
        envelope: &Envelope,
        status: DeliveryStatus,
    ) -> Option<MailFault>
        requires source { at_source.now ≡ waiting self.now envelope.now.source }
        requires destination { at_destination.now ≡ waiting self.now envelope.now.destination }
        ensures { let left = without (is_ended_by envelope.now status) self.now in
            result ≡ crowd_refusal self.now.room (count_by (is_to envelope.now.destination) left.items + 1) (length left.items + 1) }
    {
        // (what the report ends only makes more room)
        if crowd_refusal(self.room(), at_destination.len(), self.len()).is_none() {
            return None;
        }
        let for_one = count_left(at_destination, envelope, status);
        let ended = count_reported(at_source, envelope, status);
        let replaced = count_at(at_destination, &envelope.key(Kind::Report));
        let in_all = self.len() - ended - replaced;
        crowd_refusal(self.room(), for_one, in_all)
    }
}

impl<A: Allocator + Clone> Mail<A> {
    /// What `post_judged` needs, or why `post` would refuse the message: `UnknownDestination`, `NotAttached` (the
    /// source), `ReferenceBusy`, `MailboxFull` and `CentreFull`, in this order. It takes no memory.
    pub fn judge_post(
        &self,
        registry: &Registry<A>,
        envelope: &Envelope,
    ) -> Result<Opening, MailFault>
        ensures refusal { (stamp : Stamp) (pdu : List Bool)
            → result_err result ≡ post_refusal registry.now self.now (message_item registry.now envelope.now stamp pdu) }
        ensures found { let k = key_of envelope.now kind.Message in IfOk result (λ o. o ≡ opening self.now (keep_of (rule_of registry.now k.destination)) k) }
        ensures item { IfOk result (λ o. (stamp : Stamp) (pdu : List Bool) → item_in o stamp pdu ≡ message_item registry.now envelope.now stamp pdu) }
    {
        let Some(rule) = registry.rule_of(envelope.destination.number()) else {
            return Err(MailFault::UnknownDestination);
        };
        if let Some(fault) = absent_refusal(registry, envelope.source) {
            return Err(fault);
        }
        let key = envelope.key(Kind::Message);
        let items = self.items_of(envelope.destination);
        if let Some(fault) = self.item_refusal(items, &key) {
            return Err(fault);
        }
        Ok(opening(items, key, rule))
    }

    /// What `report_judged` needs, or why `report` would refuse a report of this status: `UnknownDestination`,
    /// `NotAttached` (the source), `NoSuchMessage`, `MailboxFull` and `CentreFull`, in this order. It judges the last
    /// two on the mail as the report would leave it. It takes no memory.
    pub fn judge_report(
        &self,
        registry: &Registry<A>,
        envelope: &Envelope,
        status: DeliveryStatus,
    ) -> Result<ReportOpening, MailFault>
        ensures refusal { (stamp : Stamp) (pdu : List Bool)
            → result_err result ≡ report_refusal registry.now self.now envelope.now status (report_item registry.now envelope.now stamp pdu) }
        ensures found { IfOk result (λ o. o ≡ report_opening self.now (keep_of (rule_of registry.now envelope.now.destination)) envelope.now status) }
        ensures item { IfOk result (λ o. (stamp : Stamp) (pdu : List Bool)
            → item_in o.opening stamp pdu ≡ report_item registry.now envelope.now stamp pdu) }
    {
        let Some(rule) = registry.rule_of(envelope.destination.number()) else {
            return Err(MailFault::UnknownDestination);
        };
        if let Some(fault) = absent_refusal(registry, envelope.source) {
            return Err(fault);
        }
        let at_source = self.items_of(envelope.source);
        if !any_at(at_source, &envelope.answered_key(Kind::Message)) {
            return Err(MailFault::NoSuchMessage);
        }
        let at_destination = self.items_of(envelope.destination);
        if let Some(fault) = self.full_by_report(at_source, at_destination, envelope, status) {
            return Err(fault);
        }
        let key = envelope.key(Kind::Report);
        Ok(ReportOpening {
            opening: opening(at_destination, key, rule),
            earlier: place_at(at_destination, &key),
            ends: any_reported(at_source, envelope, status),
            is_alone: is_alone(at_source, envelope),
        })
    }

    /// Whether only the report that is acknowledged waits for its destination, or why `ack` would refuse:
    /// `UnknownDestination`, `NotAttached` (the source) and `NoSuchMessage`, in this order.
    pub(crate) fn judge_ack(
        &self,
        registry: &Registry<A>,
        envelope: &Envelope,
    ) -> Result<bool, MailFault>
        ensures refusal { result_err result ≡ ack_refusal registry.now self.now envelope.now }
        ensures alone { IfOk result (λ b. b ≡ waits_alone self.now (answered envelope.now kind.Report)) }
    {
        let rule = registry.rule_of(envelope.destination.number());
        if let Some(fault) = unknown_refusal(rule) {
            return Err(fault);
        }
        if let Some(fault) = absent_refusal(registry, envelope.source) {
            return Err(fault);
        }
        self.judge_at(&envelope.answered_key(Kind::Report))
    }

    /// Why `sent` would refuse this key: `NotAttached` (the destination) and `NoSuchMessage`, in this
    /// order.
    pub(crate) fn sent_refusal(&self, registry: &Registry<A>, key: &Key) -> Option<MailFault>
        ensures { result ≡ sent_refusal registry.now self.now key.now }
    {
        if let Some(fault) = absent_refusal(registry, key.destination) {
            return Some(fault);
        }
        self.missing_refusal(key)
    }
}

/// The opening of an item at this key. The rule serves its destination, for which these items wait.
fn opening<A: Allocator>(items: &[Item<A>], key: Key, rule: Rule) -> Opening
    ensures { result ≡ record { key = key; keep = rule.keep; is_first = length items.now == 0 } }
{
    Opening {
        key,
        keep: rule.keep(),
        is_first: items.is_empty(),
    }
}

/// Whether only the message that a report in this envelope is on waits for the report's source, once the report is put.
/// The items are those that wait for the source now.
fn is_alone<A: Allocator>(at_source: &[Item<A>], envelope: &Envelope) -> bool
    ensures { result ≡ (not (envelope.now.destination == envelope.now.source) && list_all (is_at (answered envelope.now kind.Message)) at_source.now) }
{
    envelope.destination != envelope.source
        && all_at(at_source, &envelope.answered_key(Kind::Message))
}
