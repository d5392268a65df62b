// Commands as they are read.
ghost use Rattle.std.specs.Prelude.{◌≡◌, ◌<◌, IfOk, IfSome, IsSome, OnErr, option_map};
ghost use Rattle.centre_core.specs.Ranges.{pdu_of};
ghost use Rattle.command_bytes.specs.Reading.{command_of, first_command};
ghost use Rattle.command_bytes.specs.Views.{command_view};

use crate::body::{ReadBody, body};
use crate::fields::number;
use centre_core::{Command, Sequence};
use mailbox::Moment;
use registration::Station;
use std::alloc::{AllocError, Allocator};

/// A command. Its PDU is still in the bytes it was read from.
#[derive(Drop)]
pub struct ReadCommand<'a> {
    station: Station,
    sequence: Sequence,
    moment: Moment,
    body: ReadBody<'a>,
}

impl<'a> ReadCommand<'a> {
    /// A copy of the command, with the PDU in memory of its own.
    pub fn copy<A: Allocator>(&self, alloc: A) -> Result<Command<A>, AllocError>
        ensures command { IfOk result (λ command. command ≡ command_view self.now) }
        ensures memory { OnErr result (IsSome (pdu_of (command_view {A = A} self.now).body)) }
    {
        let body = self.body.copy(alloc)?;
        Ok(Command::new(self.station, self.sequence, self.moment, body).unwrap())
    }
}

/// The command that the bytes begin with, and the bytes after it.
#[tactic(auto, unfolding(crate::specs::Reading::first_command))]
pub fn first<A: Allocator>(bytes: &[u8]) -> Option<(ReadCommand<'_>, &[u8])>
    ensures exact { option_map (λ x. (command_view {A = A} x.0, x.1.now)) result ≡ first_command bytes.now }
    ensures above { IfSome result (λ x. 0 < x.0.sequence) }
{
    let (station, rest) = number(bytes, 2)?;
    let (sequence, rest) = number(rest, 4)?;
    let (moment, rest) = number(rest, 4)?;
    let (tag, rest) = number(rest, 1)?;
    let (body, rest) = body::<A>(tag, rest)?;
    let sequence = Sequence::new(sequence as u32)?;
    let command = ReadCommand {
        station: Station::new(station as u16),
        sequence,
        moment: Moment::new(moment as u32),
        body,
    };
    Some((command, rest))
}

/// The command that the bytes are, all of them.
pub fn read_whole<A: Allocator>(bytes: &[u8]) -> Option<ReadCommand<'_>>
    ensures exact { option_map (λ c. command_view {A = A} c) result ≡ command_of bytes.now }
    ensures above { IfSome result (λ c. 0 < c.sequence) }
{
    let (command, rest) = first::<A>(bytes)?;
    if rest.is_empty() { Some(command) } else { None }
}
