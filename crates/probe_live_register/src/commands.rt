use centre_core::{Body, Command, Sequence};
use identity::{BitWriter, Bits, Itsi, Prefix};
use mailbox::Moment;
use mm_pdus::Lifetime;
use registration::{Limits, LocationArea, Rule, Station};
use std::alloc::Global;

// Mobile country code 234, network 14.
const NETWORK: u64 = 0x3a80_0e00_0000;

/// Room for this many radios, one rule, one item and 64 stations.
pub fn limits(radios: u32) -> Option<Limits> {
    Limits::new(1, radios, 1, 64)
}

/// The radio of this number.
pub fn itsi(number: u32) -> Option<Itsi> {
    Itsi::from_number(NETWORK + u64::from(number))
}

// The rule that serves all radios.
fn rule() -> Option<Body<Global>> {
    let area = LocationArea::new(7)?;
    let rule = Rule::new(area, area, Lifetime::NextItsiAttach, 60)?;
    let prefix = Prefix::of(NETWORK, 0);
    Some(Body::RuleSet { prefix, rule })
}

// U-LOCATION UPDATE DEMAND with type ITSI attach.
fn update(alloc: Global) -> Option<Bits<Global>> {
    let mut writer = BitWriter::new(alloc);
    writer.put(0x98, 10).ok()?;
    Some(writer.finish())
}

fn attach(alloc: Global, number: u32) -> Option<Body<Global>> {
    let itsi = itsi(number)?;
    let area = LocationArea::new(7)?;
    let pdu = update(alloc)?;
    Some(Body::Mm { itsi, area, pdu })
}

/// The command with this number, from 1 on, of station 1. The first sets a rule for all radios, each later one attaches this
/// radio.
pub fn command_for(alloc: Global, number: u32, radio: u32) -> Option<Command<Global>> {
    let sequence = Sequence::new(number)?;
    let body = if number == 1 {
        rule()?
    } else {
        attach(alloc, radio)?
    };
    Command::new(Station::new(1), sequence, Moment::new(0), body)
}

/// The same, but each later command attaches the radio of its own number. After `number` commands the radios 2 to `number`
/// are present.
pub fn command(alloc: Global, number: u32) -> Option<Command<Global>> {
    command_for(alloc, number, number)
}
