//! The mail, and the calls that change it.

ghost use Rattle.std.specs.Prelude.{◌≡◌, ◌↔◌, IsTrue, ℕ, ◌+◌, ◌*◌, ◌<◌, ◌≤◌, ◌-◌, is_some, if◌then◌else◌, length, count_by, true, false, map};
ghost use Rattle.std.specs.Prelude.{None, OnOk, OnErr, IfOk, IfErr, unwrap_or};
ghost use Rattle.std.specs.List.{AllPairs, find, list_any};
ghost use Rattle.std.specs.Option.{option_copied, option_map};
ghost use Rattle.mailbox.specs.declared.fault.MailFault.TheVariants.{NoMemory};
ghost use Rattle.mailbox.specs.declared.key.Kind.TheVariants as kind;
ghost use Rattle.mailbox.specs.Values.{empty_mailed, latest_deadline};
ghost use Rattle.mailbox.specs.Item.{same_key, key_of, answered, is_to, is_at, is_reported, is_expired};
ghost use Rattle.mailbox.specs.Order.{IsBefore, ComesLast, next_item, next_due, place_of};
ghost use Rattle.mailbox.specs.Mail.{holds, without, with_item, deadline_by, message_item, report_item, waiting};
ghost use Rattle.mailbox.specs.Mail.{posted, reported, acknowledged, confirmed, expired, deleted};
ghost use Rattle.mailbox.specs.Cost.{IsAboveAll, next_due_steps, expiry_steps};
ghost use Rattle.mailbox.specs.GroupPost.{shortened};
ghost use Rattle.mailbox.specs.Judged.{none_waits, waits_alone, item_in, report_opening, MayPost, MayReport};
ghost use Rattle.mailbox.specs.Refusals.{restore_refusal, post_refusal, report_refusal, ack_refusal, sent_refusal, delete_refusal};

use crate::boxes::Boxes;
use crate::items::{all_at, any_at, any_confirmed};
use crate::order::Order;
use crate::place::ItemPlace;
use crate::{Envelope, Item, Key, Kind, MailFault, Moment, Opening, ReportOpening, Stamp};
use base::{Steps, TryCopy};
use identity::{Bits, Itsi};
use registration::{Limits, Registry, Rule};
use sds_tl::DeliveryStatus;
use std::alloc::{AllocError, Allocator};
use std::marker::{Brand, Model};
use std::sync::ledger::{Blank, Ledger};

/// All that waits, by destination, and the places of all items in order of the commands that made them.
#[derive(Drop)]
pub struct Mail<A: Allocator> {
    room: u32,
    boxes: Boxes<A>,
    order: Order<A>,
}

impl<A: Allocator> Model for Mail<A> {
    ghost use Rattle.mailbox.specs.Values.{Mailed, coded_mailed};

    ghost Value = { Mailed };

    ghost coded = { coded_mailed };

    ghost use Rattle.mailbox.specs.Inside.Boxes.{AreFiled, in_order};

    ghost view = { λ m. record { room = m.room; items = in_order m.boxes m.order } };

    ghost invariant = { λ m. AreFiled (in_order m.boxes m.order) m.boxes m.order };
}

impl<A: Allocator> Mail<A> {
    /// The empty mail, for at most `limits.mail` items. It takes no memory.
    pub fn new(alloc: A, limits: Limits) -> Self
        ensures { result ≡ empty_mailed limits }
    {
        Mail {
            room: limits.mail,
            boxes: Boxes::new(),
            order: Order::new(alloc),
        }
    }

    // States by its clauses that the items are in order, and that no two have the same key.
    pub(crate) fn facts_of_order(&self)
        ensures order { AllPairs IsBefore self.now.items }
        ensures apart { AllPairs (λ a b. same_key b.key a.key ≡ false) self.now.items }
    {
        let _room = self.room;
    }

    /// How many items may wait.
    pub(crate) fn room(&self) -> u32
        ensures { result ≡ self.now.room }
    {
        self.room
    }

    /// How many items wait.
    pub fn len(&self) -> usize
        ensures { result ≡ length self.now.items }
    {
        self.order.len()
    }

    /// The allocator of its memory.
    pub(crate) fn allocator(&self) -> &A {
        self.order.allocator()
    }

    /// What waits for a destination, in order of number, then of key.
    pub fn items_of(&self, destination: Itsi) -> &[Item<A>]
        ensures items { result.now ≡ waiting self.now destination }
        ensures apart { AllPairs (λ a b. same_key b.key a.key ≡ false) self.now.items }
    {
        self.boxes.items_of(destination)
    }

    /// Whether an item waits at the key.
    pub(crate) fn holds(&self, key: &Key) -> bool
        ensures { result ≡ holds self.now key.now }
    {
        any_at(self.items_of(key.destination), key)
    }

    /// How many items wait for a destination.
    pub(crate) fn count_to(&self, destination: Itsi) -> usize
        ensures { result ≡ count_by (is_to destination) self.now.items }
    {
        self.items_of(destination).len()
    }

    /// Whether an item of this number and key would come after all that wait.
    pub fn is_next(&self, number: u64, key: &Key) -> bool
        ensures { IsTrue result ↔ ComesLast self.now number key.now }
    {
        let Some(last) = self.order.last() else {
            return true;
        };
        last.is_before(number, key)
    }

    /// The first item after this number and key in order of number, then of key, or the first of all for `None`. No
    /// item need wait under this number and key. It takes no memory.
    pub fn next(&self, after: Option<(u64, Key)>) -> Option<&Item<A>>
        ensures { option_copied result ≡ next_item self.now after }
    {
        match self.order.first_after(&after) {
            Some(place) => self.boxes.item_at(&place.key),
            None => None,
        }
    }

    /// The first item after this number and key in order of number, then of key, or the first of all for `None`, whose
    /// deadline is at most the moment. No item need wait under this number and key. It takes no memory.
    pub fn next_due(&self, moment: Moment, after: Option<(u64, Key)>) -> Option<&Item<A>>
        ensures { option_copied result ≡ next_due self.now moment after }
    {
        next_due_from::<A, Brand>(self, moment, after, Blank::new(1))
    }

    /// The same. Each visited node of the tree of places is a step. If every tree of so many places is lower than
    /// `height`, it takes at most four times `height` steps, and one more.
    pub fn next_due_counted<L: Ledger>(
        &self,
        moment: Moment,
        after: Option<(u64, Key)>,
        steps: &mut Steps<L>,
    ) -> Option<&Item<A>>
        ensures item { option_copied result ≡ next_due self.now moment after }
        ensures cost { (height : ℕ) → IsAboveAll height self.now → steps.new ≤ steps.old + next_due_steps height }
    {
        match self.order.first_due_after(moment, &after, steps) {
            Some(place) => self.boxes.item_at(&place.key),
            None => None,
        }
    }

    /// Removes every item whose deadline is at most the moment. It takes no memory.
    pub fn expire(&mut self, moment: Moment)
        ensures { self.new ≡ expired self.old moment }
    {
        expire_from::<A, Brand>(self, moment, Blank::new(1));
    }

    /// The same. Each visited node of the tree of places is a step. If every tree of so many places is lower than
    /// `height`, it takes at most three times `height` steps for each item that it removes, and one more.
    pub fn expire_counted<L: Ledger>(&mut self, moment: Moment, steps: &mut Steps<L>)
        ensures items { self.new ≡ expired self.old moment }
        ensures cost { (height : ℕ) → IsAboveAll height self.old → steps.new ≤ steps.old + expiry_steps height (length self.old.items - length self.new.items) }
    {
        while let Some(place) = self.first_due(moment, steps) {
            self.remove_counted(&place.key, false, steps);
        }
    }

    /// The place of the first item that has expired. Each visited node is a step.
    fn first_due<L: Ledger>(&self, moment: Moment, steps: &mut Steps<L>) -> Option<ItemPlace>
        ensures first { result ≡ option_map place_of (find (is_expired moment) self.now.items) }
        ensures apart { AllPairs (λ a b. same_key b.key a.key ≡ false) self.now.items }
        ensures cost { (height : ℕ) → IsAboveAll height self.now → steps.new ≤ steps.old + (if is_some result then 2 * height else 1) }
    {
        self.order.first_due(moment, steps).copied()
    }

    /// Removes the item at the key. If there is none, it is `NoSuchMessage`, and nothing changes. It takes
    /// no memory.
    pub fn delete(&mut self, key: &Key) -> Result<(), MailFault>
        ensures ok { OnOk result ((delete_refusal self.old key.now ≡ None) × (self.new ≡ deleted self.old key.now)) }
        ensures err { IfErr result (λ e. (delete_refusal self.old key.now ≡ Some e) × (self.new ≡ self.old)) }
    {
        let is_alone = self.judge_at(key)?;
        self.remove_at(key, is_alone);
        Ok(())
    }

    /// Removes the item at the key, if there is one. If the caller says by `is_alone` that nothing else waits for its
    /// destination, it searches for the inbox only once.
    fn remove_at(&mut self, key: &Key, is_alone: bool)
        requires { is_alone ≡ true → waits_alone self.old key.now ≡ true }
        ensures { self.new ≡ deleted self.old key.now }
    {
        remove_from::<A, Brand>(self, key, is_alone, Blank::new(1));
    }

    /// The same. Each visited node of the tree of places is a step.
    fn remove_counted<L: Ledger>(&mut self, key: &Key, is_alone: bool, steps: &mut Steps<L>)
        requires { is_alone ≡ true → waits_alone self.old key.now ≡ true }
        ensures items { self.new ≡ deleted self.old key.now }
        ensures cost { (height : ℕ) → IsAboveAll height self.old → steps.new ≤ steps.old + height }
    {
        let _whole = key.destination.number();
        if let Some(place) = self.boxes.remove_at(key, is_alone) {
            self.order.remove_counted(&place, steps);
        }
    }

    fn remove_confirmed(&mut self, key: &Key)
        ensures { self.new ≡ confirmed self.old key.now }
    {
        let items = self.items_of(key.destination);
        if any_confirmed(items, key) {
            let is_alone = all_at(items, key);
            self.remove_at(key, is_alone);
        }
    }

    /// Removes the message that a report in this envelope ends, if it ends one.
    fn remove_reported(
        &mut self,
        envelope: &Envelope,
        status: DeliveryStatus,
        ends: bool,
        is_alone: bool,
    )
        requires ends { ends ≡ list_any (is_reported envelope.now status) self.old.items }
        requires alone { is_alone ≡ true → waits_alone self.old (answered envelope.now kind.Message) ≡ true }
        ensures { self.new ≡ without (is_reported envelope.now status) self.old }
    {
        if ends {
            self.facts_of_order();
            self.remove_at(&envelope.answered_key(Kind::Message), is_alone);
        }
    }

    /// Removes the newest items until at most this many wait. It takes no memory.
    pub(crate) fn truncate(&mut self, len: usize)
        ensures { self.new ≡ shortened self.old len }
    {
        while self.len() > len {
            self.drop_newest();
        }
    }

    fn drop_newest(&mut self)
        ensures { self.new ≡ shortened self.old (length self.old.items - 1) }
    {
        let Some(place) = self.order.pop() else {
            return;
        };
        let _ = self.boxes.remove_at(&place.key, false);
    }

    /// All that waits, in order of number, then of key.
    pub fn items<B: Allocator>(&self, alloc: B) -> Result<Vec<&Item<A>, B>, AllocError>
        ensures { IfOk result (λ items. map (λ i. i.now) items.items ≡ self.now.items) }
    {
        self.boxes.items_at(alloc, &self.order)
    }

    /// What waits for a radio, in order of number, then of key.
    pub fn waiting<B: Allocator>(
        &self,
        alloc: B,
        itsi: Itsi,
    ) -> Result<Vec<&Item<A>, B>, AllocError>
        ensures { IfOk result (λ items. map (λ i. i.now) items.items ≡ waiting self.now itsi) }
    {
        self.items_of(itsi).iter().collect(alloc)
    }
}

impl<A: Allocator + Clone> Mail<A> {
    /// Puts a message (SDS-TRANSFER) at the end. The rule of its destination says how long it is kept. Its
    /// number and key must come after those of all items. The refusals are those of `judge_post`, and
    /// `NoMemory`. A refusal changes nothing.
    pub fn post(
        &mut self,
        registry: &Registry<A>,
        envelope: &Envelope,
        stamp: Stamp,
        pdu: Bits<A>,
    ) -> Result<(), MailFault>
        requires { ComesLast self.old stamp.number (key_of envelope.now kind.Message) }
        ensures ok { let w = message_item registry.now envelope.now stamp pdu in
            OnOk result ((post_refusal registry.now self.old w ≡ None) × (self.new ≡ posted self.old w)) }
        ensures err { let w = message_item registry.now envelope.now stamp pdu in
            IfErr result (λ e. (e ≡ unwrap_or (post_refusal registry.now self.old w) NoMemory) × (self.new ≡ self.old)) }
    {
        let opening = self.judge_post(registry, envelope)?;
        let Ok(()) = self.post_judged(&opening, stamp, pdu) else {
            return Err(MailFault::NoMemory);
        };
        Ok(())
    }

    /// Puts a message at the end that `judge_post` of this mail has let pass, by what it found. When
    /// memory runs out, nothing changes.
    pub fn post_judged(
        &mut self,
        opening: &Opening,
        stamp: Stamp,
        pdu: Bits<A>,
    ) -> Result<(), AllocError>
        requires last { ComesLast self.old stamp.number opening.now.key }
        requires found { opening.now.is_first ≡ none_waits self.old opening.now.key.destination }
        requires refusal { MayPost self.old (item_in opening.now stamp pdu) }
        ensures ok { OnOk result (self.new ≡ posted self.old (item_in opening.now stamp pdu)) }
        ensures err { OnErr result (self.new ≡ self.old) }
    {
        self.put_last(item_in(opening, stamp, pdu), opening.is_first)
    }

    /// Takes a delivery report (SDS-REPORT) on a message that waits, from the message's destination to
    /// its source. It removes the message if the status ends it, replaces any earlier report on it, and
    /// puts this one at the end. Its number and key must come after those of all items. The refusals are
    /// those of `judge_report`, and `NoMemory`. Replacing a report takes no memory. A refusal changes
    /// nothing.
    pub fn report(
        &mut self,
        registry: &Registry<A>,
        envelope: &Envelope,
        status: DeliveryStatus,
        stamp: Stamp,
        pdu: Bits<A>,
    ) -> Result<(), MailFault>
        requires { ComesLast self.old stamp.number (key_of envelope.now kind.Report) }
        ensures ok { let w = report_item registry.now envelope.now stamp pdu in
            OnOk result ((report_refusal registry.now self.old envelope.now status w ≡ None) × (self.new ≡ reported self.old envelope.now status w)) }
        ensures err { let w = report_item registry.now envelope.now stamp pdu in
            IfErr result (λ e. (e ≡ unwrap_or (report_refusal registry.now self.old envelope.now status w) NoMemory) × (self.new ≡ self.old)) }
        ensures memory { let w = report_item registry.now envelope.now stamp pdu in
            OnErr result (report_refusal registry.now self.old envelope.now status w ≡ None
            → holds self.old (key_of envelope.now kind.Report) ≡ false) }
    {
        let judged = self.judge_report(registry, envelope, status)?;
        let Ok(()) = self.report_judged(&judged, envelope, status, stamp, pdu) else {
            return Err(MailFault::NoMemory);
        };
        Ok(())
    }

    /// Takes a report that `judge_report` of this mail has let pass, by what it found. When memory runs
    /// out, nothing changes. Replacing an earlier report takes no memory.
    pub fn report_judged(
        &mut self,
        judged: &ReportOpening,
        envelope: &Envelope,
        status: DeliveryStatus,
        stamp: Stamp,
        pdu: Bits<A>,
    ) -> Result<(), AllocError>
        requires last { ComesLast self.old stamp.number (key_of envelope.now kind.Report) }
        requires found { judged.now ≡ report_opening self.old judged.now.opening.keep envelope.now status }
        requires refusal { MayReport self.old envelope.now status (item_in judged.now.opening stamp pdu) }
        ensures ok { OnOk result (self.new ≡ reported self.old envelope.now status (item_in judged.now.opening stamp pdu)) }
        ensures err { OnErr result (self.new ≡ self.old) }
        ensures memory { OnErr result (holds self.old (key_of envelope.now kind.Report) ≡ false) }
    {
        let opening = &judged.opening;
        self.put(
            item_in(opening, stamp, pdu),
            &judged.earlier,
            opening.is_first,
        )?;
        self.remove_reported(envelope, status, judged.ends, judged.is_alone);
        Ok(())
    }

    /// Takes an acknowledgement (SDS-ACK) of a report that waits, from the report's destination to its
    /// source. It removes the report, whatever status is acknowledged. The refusals are
    /// `UnknownDestination`, `NotAttached` (the source) and `NoSuchMessage`, in this order. A refusal
    /// changes nothing. It takes no memory.
    pub fn ack(&mut self, registry: &Registry<A>, envelope: &Envelope) -> Result<(), MailFault>
        ensures ok { OnOk result ((ack_refusal registry.now self.old envelope.now ≡ None) × (self.new ≡ acknowledged self.old envelope.now)) }
        ensures err { IfErr result (λ e. (ack_refusal registry.now self.old envelope.now ≡ Some e) × (self.new ≡ self.old)) }
    {
        let is_alone = self.judge_ack(registry, envelope)?;
        self.remove_at(&envelope.answered_key(Kind::Report), is_alone);
        Ok(())
    }

    /// An item was sent to its destination. It removes a message that asks for no report, and a report
    /// that asks for no acknowledgement. Any other item waits on. The refusals are `NotAttached` (the
    /// destination) and `NoSuchMessage`, in this order. A refusal changes nothing. It takes no memory.
    pub fn sent(&mut self, registry: &Registry<A>, key: &Key) -> Result<(), MailFault>
        ensures ok { OnOk result ((sent_refusal registry.now self.old key.now ≡ None) × (self.new ≡ confirmed self.old key.now)) }
        ensures err { IfErr result (λ e. (sent_refusal registry.now self.old key.now ≡ Some e) × (self.new ≡ self.old)) }
    {
        if let Some(fault) = self.sent_refusal(registry, key) {
            return Err(fault);
        }
        self.remove_confirmed(key);
        Ok(())
    }

    /// Puts an item at the end as it was stored; rules and radios do not matter. Its number and key must
    /// come after those of all items. The refusals are those of `restore_refusal`, and `NoMemory`. A
    /// refusal changes nothing.
    pub fn restore(&mut self, item: Item<A>) -> Result<(), MailFault>
        requires { ComesLast self.old item.number item.key }
        ensures ok { OnOk result ((restore_refusal self.old item ≡ None) × (self.new ≡ with_item self.old item)) }
        ensures err { IfErr result (λ e. (e ≡ unwrap_or (restore_refusal self.old item) NoMemory) × (self.new ≡ self.old)) }
    {
        if let Some(fault) = self.restore_refusal(&item.key()) {
            return Err(fault);
        }
        let Ok(()) = self.put_new(item) else {
            return Err(MailFault::NoMemory);
        };
        Ok(())
    }

    /// Puts an item at the end. No item may wait at its key, and its number and key must come after those
    /// of all items. When memory runs out, nothing changes.
    pub(crate) fn put_new(&mut self, item: Item<A>) -> Result<(), AllocError>
        requires last { ComesLast self.old item.number item.key }
        requires free { holds self.old item.key ≡ false }
        ensures ok { OnOk result (self.new ≡ with_item self.old item) }
        ensures err { OnErr result (self.new ≡ self.old) }
    {
        let is_first = self.items_of(item.key().destination).is_empty();
        self.put_last(item, is_first)
    }

    /// As above. The caller says by `is_first` whether nothing waits for its destination.
    fn put_last(&mut self, item: Item<A>, is_first: bool) -> Result<(), AllocError>
        requires last { ComesLast self.old item.number item.key }
        requires free { holds self.old item.key ≡ false }
        requires first { is_first ≡ none_waits self.old item.key.destination }
        ensures ok { OnOk result (self.new ≡ with_item self.old item) }
        ensures err { OnErr result (self.new ≡ self.old) }
    {
        let place = item.place();
        let _whole = place.key.destination.number();
        let spare = self.order.spare(&place)?;
        self.boxes.put(self.order.allocator(), item, is_first)?;
        self.order.append(&place, spare);
        Ok(())
    }

    /// Puts the item at the end, in place of any at its key: `earlier` is the place of that one.
    /// Replacing takes no memory. Its number and key must come after those of all items. When memory
    /// runs out, nothing changes.
    fn put(
        &mut self,
        item: Item<A>,
        earlier: &Option<ItemPlace>,
        is_first: bool,
    ) -> Result<(), AllocError>
        requires last { ComesLast self.old item.number item.key }
        requires earlier { earlier.now ≡ option_map place_of (find (is_at item.key) self.old.items) }
        requires first { is_first ≡ none_waits self.old item.key.destination }
        ensures ok { OnOk result (self.new ≡ with_item (without (is_at item.key) self.old) item) }
        ensures err { OnErr result (self.new ≡ self.old) }
        ensures memory { OnErr result (holds self.old item.key ≡ false) }
    {
        let Some(old) = earlier else {
            return self.put_last(item, is_first);
        };
        let place = item.place();
        let _whole = place.key.destination.number();
        self.boxes.put(self.order.allocator(), item, is_first)?;
        self.order.renew(old, &place);
        Ok(())
    }
}

impl<A: Allocator + Clone> TryCopy for Mail<A> {
    fn try_copy(&self) -> Result<Self, AllocError> {
        Ok(Mail {
            room: self.room,
            boxes: self.boxes.try_copy()?,
            order: self.order.try_copy()?,
        })
    }
}

/// When an item ends that is made at this moment, in seconds: after the keep of the rule.
pub(crate) fn deadline_by(rule: Option<Rule>, moment: Moment) -> u64
    ensures deadline { result ≡ deadline_by rule moment }
    ensures latest { result ≤ latest_deadline }
{
    match rule {
        Some(rule) => u64::from(moment.number()) + u64::from(rule.keep()),
        None => u64::from(moment.number()),
    }
}

/// The item that a command makes, by what judging found.
fn item_in<A: Allocator>(opening: &Opening, stamp: Stamp, pdu: Bits<A>) -> Item<A>
    ensures { result ≡ item_in opening.now stamp pdu }
{
    let deadline = u64::from(stamp.moment.number()) + u64::from(opening.keep);
    Item::new(opening.key, stamp.number, deadline, pdu, None)
}

// `remove_counted`, with a step counter over this ledger.
fn remove_from<A: Allocator, L: Ledger>(mail: &mut Mail<A>, key: &Key, is_alone: bool, blank: Blank)
    requires name { blank.name ≡ L.name }
    requires parts { blank.parts ≡ L.parts }
    requires some { 0 < blank.parts }
    requires alone { is_alone ≡ true → waits_alone mail.old key.now ≡ true }
    ensures { mail.new ≡ deleted mail.old key.now }
{
    let mut steps = Steps::<L>::new(blank);
    mail.remove_counted(key, is_alone, &mut steps);
}

// `expire_counted`, with a step counter over this ledger.
fn expire_from<A: Allocator, L: Ledger>(mail: &mut Mail<A>, moment: Moment, blank: Blank)
    requires name { blank.name ≡ L.name }
    requires parts { blank.parts ≡ L.parts }
    requires some { 0 < blank.parts }
    ensures { mail.new ≡ expired mail.old moment }
{
    let mut steps = Steps::<L>::new(blank);
    mail.expire_counted(moment, &mut steps);
}

// `next_due_counted`, with a step counter over this ledger.
fn next_due_from<'m, A: Allocator, L: Ledger>(
    mail: &'m Mail<A>,
    moment: Moment,
    after: Option<(u64, Key)>,
    blank: Blank,
) -> Option<&'m Item<A>>
    requires name { blank.name ≡ L.name }
    requires parts { blank.parts ≡ L.parts }
    requires some { 0 < blank.parts }
    ensures { option_copied result ≡ next_due mail.now moment after }
{
    let mut steps = Steps::<L>::new(blank);
    mail.next_due_counted(moment, after, &mut steps)
}
