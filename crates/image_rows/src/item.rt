// A waiting item, as it is read.
ghost use Rattle.std.specs.Prelude.{◌≡◌, ◌≤◌, IfOk, option_map, true};
ghost use Rattle.mailbox.specs.Sound.{is_as_named, may_have_group};
ghost use Rattle.mailbox.specs.Values.{latest_deadline};
ghost use Rattle.image_rows.specs.Rows.{MailRow};
ghost use Rattle.image_rows.specs.RowReading.{settled};
ghost use Rattle.image_rows.specs.ItemViews.{item_view};

use crate::pdu::is_of_key;
use crate::unchecked_item::UncheckedItem;
use identity::{Bits, Gtsi};
use mailbox::{Item, Key, Kind};
use sds_tl::canonical;
use std::alloc::{AllocError, Allocator};
use std::marker::Model;

/// A waiting item. Its PDU is still in the bytes it was read from.
#[derive(Drop)]
pub struct ReadItem<'a> {
    item: UncheckedItem<'a>,
}

impl<'a> Model for ReadItem<'a> {
    ghost use Rattle.std.specs.Prelude.{◌≡◌, ◌≤◌, true};
    ghost use Rattle.sds_tl.specs.Reading.{cleared};
    ghost use Rattle.mailbox.specs.Values.{Item, coded_item, latest_deadline};
    ghost use Rattle.mailbox.specs.Sound.{is_as_named};
    ghost use Rattle.image_rows.specs.ItemViews.{item_view};

    ghost Value = { Item };

    ghost coded = { coded_item };

    ghost view = { λ i. record (item_view i.item) { pdu = cleared i.item.pdu } };

    ghost invariant = { λ i. (is_as_named (item_view i.item) ≡ true) × (i.item.deadline ≤ latest_deadline) };
}

// Whether an item of this kind may have the group: only a message is sent to one.
fn may_have_group(kind: Kind, group: &Option<Gtsi>) -> bool
    ensures { result ≡ may_have_group kind group.now }
{
    match group {
        None => true,
        Some(_) => kind == Kind::Message,
    }
}

/// The item, if its PDU has the kind and the reference of its key, and it is a message if it is a copy.
pub fn checked(item: UncheckedItem<'_>) -> Option<ReadItem<'_>>
    requires { item.deadline ≤ latest_deadline }
    ensures { option_map (λ i. MailRow i) result ≡ settled (MailRow (item_view item.entry)) }
{
    if !may_have_group(item.key.kind, &item.group) || !is_of_key(&item.pdu, &item.key) {
        return None;
    }
    Some(ReadItem { item })
}

impl<'a> ReadItem<'a> {
    /// The key that names it.
    pub fn key(&self) -> Key
        ensures { result ≡ self.now.key }
    {
        self.item.key
    }

    /// The number of the command that made it.
    pub fn number(&self) -> u64
        ensures { result ≡ self.now.number }
    {
        self.item.number
    }

    /// The moment at which it expires, in seconds: at most 8,589,934,590.
    pub fn deadline(&self) -> u64
        ensures value { result ≡ self.now.deadline }
        ensures latest { result ≤ latest_deadline }
    {
        self.item.deadline
    }

    /// The group that it was sent to, if it is a copy of a message to a group.
    pub fn group(&self) -> Option<Gtsi>
        ensures { result ≡ self.now.group }
    {
        self.item.group
    }

    // Does nothing. Its clause says that the PDU fits the key.
    pub(crate) fn facts_of_known(&self)
        ensures { is_as_named self.now ≡ true }
    {
        let _number = self.item.number;
    }

    // A copy of its PDU, with the reserved bits 0.
    fn pdu<A: Allocator + Clone>(&self, alloc: &A) -> Result<Bits<A>, AllocError>
        ensures { IfOk result (λ bits. bits ≡ self.now.pdu) }
    {
        let bits = self.item.pdu.copy(alloc.clone()?)?;
        match self.item.key.kind {
            Kind::Message => Ok(bits),
            Kind::Report => canonical(alloc.clone()?, &bits).or(Err(AllocError)),
        }
    }

    /// A copy of the item, with the PDU in memory of its own. It fails only when it is out of memory.
    pub fn copy<A: Allocator + Clone>(&self, alloc: &A) -> Result<Item<A>, AllocError>
        ensures { IfOk result (λ item. item ≡ self.now) }
    {
        let pdu = self.pdu(alloc)?;
        Ok(Item::new(
            self.key(),
            self.number(),
            self.deadline(),
            pdu,
            self.group(),
        ))
    }
}
