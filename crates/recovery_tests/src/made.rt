//! The disk and the commands of the tests.

use centre_core::{Body, Command, Sequence};
use checkpoint::Layout;
use identity::{BitWriter, Bits, Gtsi, Itsi, Prefix, parse_bits};
use mailbox::Moment;
use mm_pdus::Lifetime;
use recovery::format;
use registration::{Limits, LocationArea, Rule, Station};
use sector_disk::MemoryDisk;
use std::alloc::Global;

/// The layout of the worked disk: 667 sectors, the halves from 589 and from 628 on.
pub fn layout() -> Option<Layout> {
    Layout::new(Limits::new(16, 16, 256, 4)?, 39)
}

/// The worked disk, ready for an empty register.
pub fn formatted(alloc: Global) -> Option<MemoryDisk<Global>> {
    let layout = layout()?;
    let mut disk = MemoryDisk::new(alloc, 667, 4_000).ok()?;
    match format::<Global, MemoryDisk<Global>>(&mut disk, &layout) {
        Ok(()) => Some(disk),
        Err(_) => None,
    }
}

/// A command of the tests. A number is a sequence of its station.
#[derive(Clone, Copy)]
pub enum Given {
    /// A rule for the radios of a network, sequence 1 of station 1: 27 bytes.
    Rule,
    /// A rule for the radio of this number alone, of station 1.
    RuleFor(u32),
    /// The ITSI attach of a radio, of station 1: 23 bytes.
    Attach(u32, u64),
    /// The attachment of a radio to the group, of station 1: the PDU `60:7380480A00007D0`.
    AttachToGroup(u32, u64),
    /// A message from 234-14-2001 to 234-14-2002, of 199 bits of user data and reference 0, of station 1.
    Message(u32),
    /// The message `48:820406014849` from 234-14-2003 to the group at moment 120, of station 1.
    GroupMessage(u32),
    /// An expiry of station 1: 11 bytes.
    OwnExpiry(u32),
    /// An expiry of station 2: 11 bytes.
    Expiry(u32),
}

/// The ITSI attach of 234-14-2001, sequence 2 of station 1.
pub const ATTACH: Given = Given::Attach(2, SENDER);

/// The ITSI attach of 234-14-2002, sequence 3 of station 1.
pub const SECOND_ATTACH: Given = Given::Attach(3, RECEIVER);

/// The radios 234-14-2001, 2002 and 2003.
pub const SENDER: u64 = 0x3a80_0e00_07d1;

pub const RECEIVER: u64 = 0x3a80_0e00_07d2;

pub const OUTSIDER: u64 = 0x3a80_0e00_07d3;

/// The command itself.
pub fn command(alloc: Global, given: Given) -> Option<Command<Global>> {
    match given {
        Given::Rule => rule(),
        Given::RuleFor(sequence) => rule_for(sequence),
        Given::Attach(sequence, number) => attach_of(alloc, sequence, number),
        Given::AttachToGroup(sequence, number) => attach_to_group(alloc, sequence, number),
        Given::Message(sequence) => message(alloc, sequence, 0, 4),
        Given::GroupMessage(sequence) => group_message(alloc, sequence),
        Given::OwnExpiry(sequence) => made(1, sequence, Moment::new(0), Body::Expire),
        Given::Expiry(sequence) => made(2, sequence, Moment::new(11), Body::Expire),
    }
}

/// A command of a station.
fn made(
    station: u16,
    sequence: u32,
    moment: Moment,
    body: Body<Global>,
) -> Option<Command<Global>> {
    Command::new(
        Station::new(station),
        Sequence::new(sequence)?,
        moment,
        body,
    )
}

fn rule() -> Option<Command<Global>> {
    let prefix = Prefix::new(0x3a80_0e00_0000, 24)?;
    let low = LocationArea::new(1)?;
    let high = LocationArea::new(99)?;
    let rule = Rule::new(low, high, Lifetime::NextItsiAttach, 3_600)?;
    made(1, 1, Moment::new(0), Body::RuleSet { prefix, rule })
}

fn rule_for(sequence: u32) -> Option<Command<Global>> {
    let prefix = Prefix::new(0x3a80_0e00_0000 + u64::from(sequence), 48)?;
    let low = LocationArea::new(1)?;
    let rule = Rule::new(low, low, Lifetime::NextItsiAttach, 3_600)?;
    made(1, sequence, Moment::new(0), Body::RuleSet { prefix, rule })
}

/// The bits of a PDU.
fn bits(alloc: Global, text: &str) -> Option<Bits<Global>> {
    parse_bits(alloc, text.as_bytes()).ok()
}

fn attach_of(alloc: Global, sequence: u32, number: u64) -> Option<Command<Global>> {
    let itsi = Itsi::from_number(number)?;
    let area = LocationArea::new(7)?;
    let pdu = bits(alloc, "10:260")?;
    made(1, sequence, Moment::new(10), Body::Mm { itsi, area, pdu })
}

fn attach_to_group(alloc: Global, sequence: u32, number: u64) -> Option<Command<Global>> {
    let itsi = Itsi::from_number(number)?;
    let area = LocationArea::new(7)?;
    let pdu = bits(alloc, "60:7380480A00007D0")?;
    made(1, sequence, Moment::new(20), Body::Mm { itsi, area, pdu })
}

/// The group 234-14-1000.
pub fn group() -> Option<Gtsi> {
    Gtsi::from_number(0x3a80_0e00_03e8)
}

fn group_message(alloc: Global, sequence: u32) -> Option<Command<Global>> {
    let (source, group) = (Itsi::from_number(OUTSIDER)?, group()?);
    let pdu = bits(alloc, "48:820406014849")?;
    let body = Body::GroupSds { source, group, pdu };
    made(1, sequence, Moment::new(120), body)
}

/// An SDS-TRANSFER of text messaging that asks for no report, with this reference: its user data are so many times 48
/// bits, and seven more, all 1. With 42 times these are 2,047 bits.
fn transfer(alloc: Global, reference: u8, times: u32) -> Option<Bits<Global>> {
    let mut writer = BitWriter::new(alloc);
    writer.put(0x82_0000 + u64::from(reference), 24).ok()?;
    for _ in 0..times {
        writer.put(0xffff_ffff_ffff, 48).ok()?;
    }
    writer.put(0x7f, 7).ok()?;
    Some(writer.finish())
}

/// That message from 234-14-2001 to 234-14-2002, with this sequence of station 1.
pub fn message(alloc: Global, sequence: u32, reference: u8, times: u32) -> Option<Command<Global>> {
    let source = Itsi::from_number(SENDER)?;
    let destination = Itsi::from_number(RECEIVER)?;
    let pdu = transfer(alloc, reference, times)?;
    let body = Body::Sds {
        source,
        destination,
        pdu,
    };
    made(1, sequence, Moment::new(20), body)
}

/// A sector that begins with these bytes, with zeros after them.
pub fn sector(prefix: &[u8]) -> [u8; 512] {
    let mut bytes = [0; 512];
    for (byte, given) in bytes.iter_mut().zip(prefix) {
        *byte = *given;
    }
    bytes
}
