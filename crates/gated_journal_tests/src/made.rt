//! The commands of the tests.

ghost use Rattle.std.specs.Prelude.{◌≡◌, ◌+◌};

use centre_core::{Body, Command, Sequence};
use gated_journal::{Form, Place};
use identity::{BitWriter, Itsi, Prefix};
use mailbox::Moment;
use mm_pdus::Lifetime;
use registration::{LocationArea, Rule, Station};
use std::alloc::Global;

/// The place of a half with no record, after no command.
pub fn place(first: u32, sectors: u32, form: Form) -> Place
    ensures { result ≡ record { first = first; end = first + sectors; next = first; form = form; count = 0 } }
{
    let first = u64::from(first);
    Place {
        first,
        end: first + u64::from(sectors),
        next: first,
        form,
        count: 0,
    }
}

/// A command of station 1.
fn made(sequence: u32, moment: Moment, body: Body<Global>) -> Option<Command<Global>> {
    Command::new(Station::new(1), Sequence::new(sequence)?, moment, body)
}

/// A rule for the radios of a network: 27 bytes.
pub fn rule() -> Option<Command<Global>> {
    let prefix = Prefix::new(0x3a80_0e00_0000, 24)?;
    let low = LocationArea::new(1)?;
    let high = LocationArea::new(99)?;
    let rule = Rule::new(low, high, Lifetime::NextItsiAttach, 3_600)?;
    made(1, Moment::new(0), Body::RuleSet { prefix, rule })
}

/// A location update: 23 bytes.
pub fn update(alloc: Global) -> Option<Command<Global>> {
    let itsi = Itsi::from_number(0x3a80_0e00_07d1)?;
    let area = LocationArea::new(7)?;
    let mut writer = BitWriter::new(alloc);
    writer.put(0x98, 10).ok()?;
    let pdu = writer.finish();
    made(2, Moment::new(10), Body::Mm { itsi, area, pdu })
}

/// An expiry: 11 bytes.
pub fn expiry() -> Option<Command<Global>> {
    made(3, Moment::new(11), Body::Expire)
}

/// A short data PDU of 2,047 bits: 281 bytes.
pub fn longest(alloc: Global) -> Option<Command<Global>> {
    let source = Itsi::from_number(1)?;
    let destination = Itsi::from_number(2)?;
    let mut writer = BitWriter::new(alloc);
    for _ in 0..89 {
        writer.put(1, 23).ok()?;
    }
    let pdu = writer.finish();
    made(
        4,
        Moment::new(12),
        Body::Sds {
            source,
            destination,
            pdu,
        },
    )
}
