//! One message or report that waits.

ghost use Rattle.std.specs.Prelude.{◌≡◌, ◌≤◌, IfOk};
ghost use Rattle.sds_tl.specs.Reading.{heading};
ghost use Rattle.mailbox.specs.Values.{latest_deadline};
ghost use Rattle.mailbox.specs.Order.{place_of};
ghost use Rattle.mailbox.specs.GroupPost.{addressed};
ghost use Rattle.mailbox.specs.Item.{request_of, asks_nothing, asks_consumed, wants_acknowledgement, ends_request};
ghost use Rattle.mailbox.specs.Item.{is_at, is_reported, is_ended_by, is_answerless, is_confirmed};

use crate::place::ItemPlace;
use crate::{Envelope, Key, Kind};
use identity::{Bits, Gtsi, Itsi};
use sds_tl::{DeliveryReportRequest, DeliveryStatus, Head};
use std::alloc::{AllocError, Allocator};
use std::marker::Model;

/// A message or a report that waits.
#[derive(Drop)]
pub struct Item<A: Allocator> {
    key: Key,
    number: u64,
    deadline: u64,
    pdu: Bits<A>,
    group: Option<Gtsi>,
}

impl<A: Allocator> Model for Item<A> {
    ghost use Rattle.std.specs.Prelude.{◌≤◌};
    ghost use Rattle.mailbox.specs.Values.{Item, coded_item, latest_deadline};

    ghost Value = { Item };

    ghost coded = { coded_item };

    ghost view = { λ i. record { key = i.key; number = i.number; deadline = i.deadline; pdu = i.pdu; group = i.group } };

    ghost invariant = { λ i. i.deadline ≤ latest_deadline };
}

impl<A: Allocator> Item<A> {
    /// The item at a key that the command of this number made. It ends at the moment `deadline`, in
    /// seconds: at most 8,589,934,590, the greatest moment plus the greatest keep. A copy of a message
    /// to a group names that group.
    pub fn new(key: Key, number: u64, deadline: u64, pdu: Bits<A>, group: Option<Gtsi>) -> Item<A>
        requires { deadline ≤ latest_deadline }
        ensures { result ≡ record { key = key; number = number; deadline = deadline; pdu = pdu; group = group } }
    {
        Item {
            key,
            number,
            deadline,
            pdu,
            group,
        }
    }

    /// What identifies it.
    pub fn key(&self) -> Key
        ensures { result ≡ self.now.key }
    {
        self.key
    }

    /// The number of the command that made it.
    pub fn number(&self) -> u64
        ensures { result ≡ self.now.number }
    {
        self.number
    }

    /// The moment at which it expires, in seconds: at most 8,589,934,590.
    pub fn deadline(&self) -> u64
        ensures value { result ≡ self.now.deadline }
        ensures latest { result ≤ latest_deadline }
    {
        self.deadline
    }

    /// Its PDU: the SDS-TRANSFER of a message, the SDS-REPORT of a report.
    pub fn pdu(&self) -> &Bits<A>
        ensures { result.now ≡ self.now.pdu }
    {
        &self.pdu
    }

    /// The group that it was sent to, if it is a copy of a message to a group.
    pub fn group(&self) -> Option<Gtsi>
        ensures { result ≡ self.now.group }
    {
        self.group
    }

    /// A copy in memory of the given allocator. It fails only when memory runs out.
    pub fn copy<B: Allocator>(&self, alloc: B) -> Result<Item<B>, AllocError>
        ensures { IfOk result (λ copy. copy ≡ self.now) }
    {
        self.copied_to(alloc, self.key.destination)
    }

    /// A copy for this destination, in memory of the given allocator. It fails only when memory runs out.
    pub(crate) fn copied_to<B: Allocator>(
        &self,
        alloc: B,
        destination: Itsi,
    ) -> Result<Item<B>, AllocError>
        ensures { IfOk result (λ copy. copy ≡ addressed self.now destination) }
    {
        let Ok(pdu) = self.pdu.try_copy(alloc) else {
            return Err(AllocError);
        };
        Ok(Item {
            key: self.key.with_destination(destination),
            number: self.number,
            deadline: self.deadline,
            pdu,
            group: self.group,
        })
    }

    pub(crate) fn place(&self) -> ItemPlace
        ensures { result ≡ place_of self.now }
    {
        ItemPlace {
            number: self.number(),
            key: self.key(),
            deadline: self.deadline(),
        }
    }

    pub(crate) fn is_at(&self, key: &Key) -> bool
        ensures { result ≡ is_at key.now self.now }
    {
        *key == self.key
    }

    /// Whether it is a message that a report in this envelope ends.
    pub(crate) fn is_reported(&self, envelope: &Envelope, status: DeliveryStatus) -> bool
        ensures { result ≡ is_reported envelope.now status self.now }
    {
        self.is_at(&envelope.answered_key(Kind::Message))
            && ends_request(status, request_of(&self.pdu))
    }

    /// Whether it is a message that a report in this envelope ends, or a report that it replaces.
    pub(crate) fn is_ended_by(&self, envelope: &Envelope, status: DeliveryStatus) -> bool
        ensures { result ≡ is_ended_by envelope.now status self.now }
    {
        self.is_reported(envelope, status) || self.is_at(&envelope.key(Kind::Report))
    }

    fn is_answerless(&self) -> bool
        ensures { result ≡ is_answerless self.now.key.kind self.now.pdu }
    {
        match self.key.kind {
            Kind::Message => asks_nothing(request_of(&self.pdu)),
            Kind::Report => !wants_acknowledgement(&self.pdu),
        }
    }

    /// Whether it is at the key and asks for no answer.
    pub(crate) fn is_confirmed(&self, key: &Key) -> bool
        ensures { result ≡ is_confirmed key.now self.now }
    {
        self.is_at(key) && self.is_answerless()
    }
}

fn request_of<A: Allocator>(pdu: &Bits<A>) -> DeliveryReportRequest
    ensures { result ≡ request_of pdu.now }
{
    match sds_tl::head(pdu) {
        Ok(Head::Transfer { request, .. }) => request,
        Ok(Head::Report { .. } | Head::Ack { .. }) | Err(_) => DeliveryReportRequest::None,
    }
}

fn wants_acknowledgement<A: Allocator>(pdu: &Bits<A>) -> bool
    ensures { result ≡ wants_acknowledgement pdu.now }
{
    match sds_tl::head(pdu) {
        Ok(Head::Report { acknowledge, .. }) => acknowledge,
        Ok(Head::Transfer { .. } | Head::Ack { .. }) | Err(_) => false,
    }
}

fn asks_nothing(request: DeliveryReportRequest) -> bool
    ensures { result ≡ asks_nothing request }
{
    match request {
        DeliveryReportRequest::None => true,
        DeliveryReportRequest::Received
        | DeliveryReportRequest::Consumed
        | DeliveryReportRequest::Both => false,
    }
}

fn asks_consumed(request: DeliveryReportRequest) -> bool
    ensures { result ≡ asks_consumed request }
{
    match request {
        DeliveryReportRequest::None | DeliveryReportRequest::Received => false,
        DeliveryReportRequest::Consumed | DeliveryReportRequest::Both => true,
    }
}

/// Whether a report of this status ends a message with this request.
fn ends_request(status: DeliveryStatus, request: DeliveryReportRequest) -> bool
    ensures { result ≡ ends_request status request }
{
    status.is_consumed() || (status.is_received() && !asks_consumed(request))
}
