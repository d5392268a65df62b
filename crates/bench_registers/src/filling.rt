// A register filled by commands: rules, radios with their groups, and what waits.
use centre_core::{Body, Command, Register, Sequence};
use identity::{BitWriter, Bits, Itsi, Prefix};
use mailbox::Moment;
use mm_pdus::Lifetime;
use registration::{LocationArea, Rule, Station};
use std::alloc::Global;

// What a register is filled with.
#[derive(Clone, Copy, Drop)]
pub(crate) struct Filling {
    pub(crate) radios: u32,
    pub(crate) rules: u32,
    pub(crate) items: u32,
}

// In how many groups each radio is.
const GROUPS: u64 = 16;
// How many items wait for one radio.
const FOR_ONE: u32 = 128;
// Mobile country code 234, network 14.
const NETWORK: u64 = 0x3a80_0e00_0000;

pub(crate) fn itsi(k: u32) -> Option<Itsi> {
    Itsi::from_number(NETWORK + u64::from(k))
}

fn serve(register: &mut Register<Global>, alloc: Global, body: Body<Global>) -> Option<()> {
    let sequence = u32::try_from(register.count()).ok()?.checked_add(1)?;
    let sequence = Sequence::new(sequence)?;
    let command = Command::new(Station::new(1), sequence, Moment::new(0), body)?;
    register.apply(alloc, &command).ok()?;
    Some(())
}

// The first rule serves all; the others are under identities, each 16 after the one before.
fn set_rules(register: &mut Register<Global>, alloc: Global, rules: u32) -> Option<()> {
    let area = LocationArea::new(7)?;
    let rule = Rule::new(area, area, Lifetime::NextItsiAttach, 60)?;
    for k in 0..rules {
        let len = if k == 0 { 0 } else { 48 };
        let prefix = Prefix::of(NETWORK + 16 * u64::from(k), len);
        serve(register, alloc, Body::RuleSet { prefix, rule })?;
    }
    Some(())
}

// A location update of type ITSI attach.
pub(crate) fn update(alloc: Global) -> Option<Bits<Global>> {
    let mut writer = BitWriter::new(alloc);
    writer.put(0x98, 10).ok()?;
    Some(writer.finish())
}

// A group PDU with one element of 16 items of 30 bits: each attaches the radio to a group with class of usage 4.
fn attachments(alloc: Global) -> Option<Bits<Global>> {
    let mut writer = BitWriter::new(alloc);
    writer.put(0x738, 12).ok()?;
    writer.put(6 + 30 * GROUPS, 11).ok()?;
    writer.put(GROUPS, 6).ok()?;
    for group in 0..GROUPS {
        writer.put(0x1000_0000 + group, 30).ok()?;
    }
    writer.put(0, 1).ok()?;
    Some(writer.finish())
}

fn add_radios(register: &mut Register<Global>, alloc: Global, radios: u32) -> Option<()> {
    let area = LocationArea::new(7)?;
    for k in 0..radios {
        let itsi = itsi(k)?;
        for pdu in [update(alloc)?, attachments(alloc)?] {
            serve(register, alloc, Body::Mm { itsi, area, pdu })?;
        }
    }
    Some(())
}

// A message with this reference and no text.
pub(crate) fn message(alloc: Global, reference: u32) -> Option<Bits<Global>> {
    let mut writer = BitWriter::new(alloc);
    writer.put(0x8004, 16).ok()?;
    writer.put(u64::from(reference % FOR_ONE), 8).ok()?;
    Some(writer.finish())
}

fn add_items(register: &mut Register<Global>, alloc: Global, items: u32) -> Option<()> {
    let source = itsi(0)?;
    for k in 0..items {
        let destination = itsi(k / FOR_ONE)?;
        let pdu = message(alloc, k)?;
        let body = Body::Sds {
            source,
            destination,
            pdu,
        };
        serve(register, alloc, body)?;
    }
    Some(())
}

// Adds the rules, the radios in 16 groups each, and the items; whether all of that was accepted.
pub(crate) fn is_filled(register: &mut Register<Global>, alloc: Global, filling: &Filling) -> bool {
    let done = set_rules(register, alloc, filling.rules)
        .and(add_radios(register, alloc, filling.radios))
        .and(add_items(register, alloc, filling.items));
    let (radios, rules) = (u64::from(filling.radios), u64::from(filling.rules));
    let commands = rules + 2 * radios + u64::from(filling.items);
    done.is_some() && register.count() == commands
}
