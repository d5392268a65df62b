//! Commands and events of the tests.

use centre_core::{Body, Command, Sequence};
use identity::Prefix;
use mailbox::Moment;
use mm_pdus::Lifetime;
use registration::{LocationArea, Rule, Station};
use schedule::Event;
use std::alloc::Allocator;
use std::test::Fail;

/// An event; its commands are named by station and sequence.
#[derive(Clone, Copy)]
pub enum Made {
    /// An `expire` at moment 0.
    Submit(u16, u32),
    /// The rule of a network, at moment 0.
    SubmitRule(u16, u32),
    Seal(u16),
    CommitBegin,
    CommitEnd,
    Publish,
    Answer(u16),
    Read(u16),
    CheckpointBegin,
    CheckpointEnd,
    Crash(usize),
    Reopen,
}

/// The rule of network 234-14: location areas 1 to 99, and a message is kept for an hour.
fn rule<A: Allocator>() -> Option<Body<A>> {
    let prefix = Prefix::new(0x3a80_0e00_0000, 24)?;
    let low = LocationArea::new(1)?;
    let high = LocationArea::new(99)?;
    let rule = Rule::new(low, high, Lifetime::NextItsiAttach, 3_600)?;
    Some(Body::RuleSet { prefix, rule })
}

fn submit<A: Allocator>(station: u16, sequence: u32, body: Body<A>) -> Result<Event<A>, Fail> {
    let station = Station::new(station);
    let sequence = Sequence::new(sequence).ok_or("a sequence")?;
    let command = Command::new(station, sequence, Moment::new(0), body);
    Ok(Event::Submit(station, command.ok_or("a command")?))
}

/// The event.
pub fn event<A: Allocator>(made: Made) -> Result<Event<A>, Fail> {
    Ok(match made {
        Made::Submit(station, sequence) => submit(station, sequence, Body::Expire)?,
        Made::SubmitRule(station, sequence) => submit(station, sequence, rule().ok_or("a rule")?)?,
        Made::Seal(station) => Event::Seal(Station::new(station)),
        Made::CommitBegin => Event::CommitBegin,
        Made::CommitEnd => Event::CommitEnd,
        Made::Publish => Event::Publish,
        Made::Answer(station) => Event::Answer(Station::new(station)),
        Made::Read(station) => Event::Read(Station::new(station)),
        Made::CheckpointBegin => Event::CheckpointBegin,
        Made::CheckpointEnd => Event::CheckpointEnd,
        Made::Crash(count) => Event::Crash(count),
        Made::Reopen => Event::Reopen,
    })
}
