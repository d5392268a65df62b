//! Radios, a register, and calls of the mail.

use identity::{Bits, Itsi, Prefix, parse_bits};
use mailbox::{Envelope, Kind, Mail, MailFault, Moment, Stamp};
use mm_pdus::{Lifetime, LocationUpdateType};
use registration::{Limits, LocationArea, Registry, Rule, Station};
use sds_tl::{DeliveryStatus, MessageReference};
use std::alloc::Allocator;
use std::test::Fail;

/// A call of the mail.
#[derive(Clone, Copy)]
pub enum Call {
    /// A message with this delivery report request, 0 to 3.
    Post(u8),
    /// A report of this status, with or without an acknowledgement required.
    Report(u8, bool),
    Ack,
    Sent(Kind),
    Delete(Kind),
    /// The moment in seconds.
    Expire(u32),
}

/// A call, its envelope, and the number and moment of its command.
#[derive(Clone, Copy)]
pub struct Made {
    pub call: Call,
    pub envelope: Envelope,
    pub stamp: Stamp,
}

/// Limits with room for so many items.
pub fn limits(mail: u32) -> Result<Limits, Fail> {
    Ok(Limits::new(16, 16, mail, 4).ok_or("limits")?)
}

/// A radio of network 234-14; from 100 on one of network 235-14.
pub fn radio(number: u32) -> Result<Itsi, Fail> {
    let mcc = if number < 100 { 234 } else { 235 };
    Ok(Itsi::new(mcc, 14, number).ok_or("an identity")?)
}

pub fn envelope(source: u32, destination: u32, reference: u8) -> Result<Envelope, Fail> {
    Ok(Envelope {
        source: radio(source)?,
        destination: radio(destination)?,
        reference: MessageReference::new(reference),
    })
}

fn rule(area: LocationArea) -> Result<Rule, Fail> {
    Ok(Rule::new(area, area, Lifetime::NextItsiAttach, 3600).ok_or("a rule")?)
}

fn fill<A: Allocator + Clone>(registry: &mut Registry<A>, network: Itsi, rule: Rule) {
    let _ = registry.set_rule(Prefix::of(network.number(), 24), rule);
    let (station, attach) = (Station::new(1), LocationUpdateType::ItsiAttach);
    for number in 1..4 {
        if let Some(itsi) = Itsi::new(234, 14, number) {
            let _ = registry.locate(itsi, station, rule.low(), attach);
        }
    }
}

/// A register whose one rule, for network 234-14, keeps messages for an hour; radios 1, 2 and 3 are present.
pub fn registry<A: Allocator + Clone>(alloc: A) -> Result<Registry<A>, Fail> {
    let area = LocationArea::new(7).ok_or("a location area")?;
    let (limits, network, rule) = (limits(16)?, radio(0)?, rule(area)?);
    let mut registry = Registry::new(alloc, limits)?;
    fill(&mut registry, network, rule);
    Ok(registry)
}

/// The PDU of a call: an SDS-TRANSFER of one character, or an SDS-REPORT.
pub fn text(call: Call) -> &'static str {
    match call {
        Call::Post(0) => "32:82000549",
        Call::Post(1) => "32:82040549",
        Call::Post(2) => "32:82080549",
        Call::Post(_) => "32:820C0549",
        Call::Report(_, true) => "32:82180005",
        _ => "32:82100005",
    }
}

pub fn pdu<A: Allocator>(alloc: A, call: Call) -> Result<Bits<A>, Fail> {
    Ok(parse_bits(alloc, text(call).as_bytes())?)
}

/// Whether a call that is judged before it is made would be refused for this cause. The other calls are never judged alone.
pub fn is_judged<A: Allocator + Clone>(
    registry: &Registry<A>,
    mail: &Mail<A>,
    made: &Made,
    want: Option<MailFault>,
) -> bool {
    let envelope = &made.envelope;
    match made.call {
        Call::Post(_) => mail.judge_post(registry, envelope).err() == want,
        Call::Report(code, _) => {
            let status = DeliveryStatus::new(code);
            mail.judge_report(registry, envelope, status).err() == want
        }
        Call::Ack | Call::Sent(_) | Call::Delete(_) | Call::Expire(_) => true,
    }
}

/// Puts a message. Its number must be greater than those of all items.
fn post<A: Allocator + Clone>(
    registry: &Registry<A>,
    mail: &mut Mail<A>,
    made: &Made,
    pdu: Bits<A>,
) -> Result<(), MailFault> {
    let (envelope, stamp) = (&made.envelope, made.stamp);
    if !mail.is_next(stamp.number, &envelope.key(Kind::Message)) {
        return Err(MailFault::NoMembers);
    }
    mail.post(registry, envelope, stamp, pdu)
}

/// Takes a report. Its number must be greater than those of all items.
fn report<A: Allocator + Clone>(
    registry: &Registry<A>,
    mail: &mut Mail<A>,
    made: &Made,
    code: u8,
    pdu: Bits<A>,
) -> Result<(), MailFault> {
    let (envelope, stamp) = (&made.envelope, made.stamp);
    if !mail.is_next(stamp.number, &envelope.key(Kind::Report)) {
        return Err(MailFault::NoMembers);
    }
    mail.report(registry, envelope, DeliveryStatus::new(code), stamp, pdu)
}

/// The answer to the call.
pub fn called<A: Allocator + Clone>(
    registry: &Registry<A>,
    mail: &mut Mail<A>,
    made: &Made,
    pdu: Bits<A>,
) -> Result<(), MailFault> {
    let envelope = &made.envelope;
    match made.call {
        Call::Post(_) => post(registry, mail, made, pdu),
        Call::Report(code, _) => report(registry, mail, made, code, pdu),
        Call::Ack => mail.ack(registry, envelope),
        Call::Sent(kind) => mail.sent(registry, &envelope.key(kind)),
        Call::Delete(kind) => mail.delete(&envelope.key(kind)),
        Call::Expire(moment) => {
            mail.expire(Moment::new(moment));
            Ok(())
        }
    }
}
