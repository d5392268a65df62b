ghost use Rattle.std.specs.Prelude.{◌≡◌, IfSome};

use centre_core::{Body, Command, Sequence};
use identity::{BitReader, BitWriter, Bits, Itsi, Prefix};
use mailbox::Moment;
use mm_pdus::Lifetime;
use registration::{LocationArea, Rule, Station};
use std::alloc::Global;

// Mobile country code 234, network 14.
const NETWORK: u64 = 0x3a80_0e00_0000;

// The PDU of an accepted location update of the kind ITSI attach, D-LOCATION UPDATE ACCEPT: these 8 bits.
const ACCEPT: u64 = 0x56;

/// The radio of this number in the network 234-14.
pub fn radio(number: u32) -> Option<Itsi> {
    Itsi::from_number(NETWORK + u64::from(number))
}

fn command(
    station: Station,
    sequence: u32,
    moment: u32,
    body: Body<Global>,
) -> Option<Command<Global>>
    ensures { IfSome result (λ command. command.station ≡ station) }
{
    let sequence = Sequence::new(sequence)?;
    Command::new(station, sequence, Moment::new(moment), body)
}

/// A rule for the radios of the network, with the location areas 1 to 99.
pub fn rule(station: Station, sequence: u32) -> Option<Command<Global>>
    ensures { IfSome result (λ command. command.station ≡ station) }
{
    let prefix = Prefix::new(NETWORK, 24)?;
    let low = LocationArea::new(1)?;
    let high = LocationArea::new(99)?;
    let rule = Rule::new(low, high, Lifetime::NextItsiAttach, 3_600)?;
    command(station, sequence, 0, Body::RuleSet { prefix, rule })
}

// U-LOCATION UPDATE DEMAND of the kind ITSI attach, 10 bits.
fn update(alloc: Global) -> Option<Bits<Global>> {
    let mut writer = BitWriter::new(alloc);
    writer.put(0x98, 10).ok()?;
    Some(writer.finish())
}

/// The attach of a radio in location area 7.
pub fn attach(
    alloc: Global,
    station: Station,
    sequence: u32,
    number: u32,
) -> Option<Command<Global>>
    ensures { IfSome result (λ command. command.station ≡ station) }
{
    let itsi = radio(number)?;
    let area = LocationArea::new(7)?;
    let pdu = update(alloc)?;
    command(station, sequence, 10, Body::Mm { itsi, area, pdu })
}

/// An expiry: it is accepted, whatever waits.
pub fn expiry(station: Station, sequence: u32) -> Option<Command<Global>>
    ensures { IfSome result (λ command. command.station ≡ station) }
{
    command(station, sequence, 11, Body::Expire)
}

/// Whether the PDU is D-LOCATION UPDATE ACCEPT for an attach, `8:56`.
pub fn is_accept(pdu: &Option<Bits<Global>>) -> bool {
    match pdu {
        Some(bits) => bits.len() == 8 && BitReader::new(bits).take(8) == Ok(ACCEPT),
        None => false,
    }
}
