// Commands, written as bytes.
ghost use Rattle.std.specs.Prelude.{◌≡◌, ◌≤◌, ◌+◌, ◌++◌, IfOk, length};
ghost use Rattle.identity.specs.BitsText.{most_bits};
ghost use Rattle.centre_core.specs.Ranges.{BodyInRange};
ghost use Rattle.command_bytes.specs.Fields.{big, bytes_for};
ghost use Rattle.command_bytes.specs.Inside.Sizes.{body_size};
ghost use Rattle.command_bytes.specs.Text.{IsCommand, Spells, body_text, command_text, longest, tag_of};

use crate::ByteSink;
use crate::put::{put_bits, put_key, put_number, put_prefix, put_rule};
use centre_core::{Body, Command};
use std::alloc::{AllocError, Allocator};

fn tag<A: Allocator>(body: &Body<A>) -> u8
    ensures { result ≡ tag_of body.now }
{
    match body {
        Body::RuleSet { .. } => 1,
        Body::RuleClear { .. } => 2,
        Body::Mm { .. } => 3,
        Body::Sds { .. } => 4,
        Body::Sent(_) => 5,
        Body::Expire => 6,
        Body::Delete(_) => 7,
        Body::GroupSds { .. } => 8,
    }
}

// How many bytes the text of so many bits has.
fn bits_len(bits: usize) -> usize
    requires { bits ≤ most_bits }
    ensures { result ≡ 2 + bytes_for bits }
{
    2 + (bits + 7) / 8
}

// How many bytes follow the tag.
fn body_len<A: Allocator>(body: &Body<A>) -> usize
    requires { BodyInRange body.now }
    ensures { result ≡ body_size body.now }
{
    match body {
        Body::RuleSet { .. } => 16,
        Body::RuleClear { .. } => 7,
        Body::Mm { pdu, .. } => 8 + bits_len(pdu.len()),
        Body::Sds { pdu, .. } | Body::GroupSds { pdu, .. } => 12 + bits_len(pdu.len()),
        Body::Sent(_) | Body::Delete(_) => 14,
        Body::Expire => 0,
    }
}

#[tactic(auto, using(std::proofs::Common::append_assoc, crate::proofs::Sizes::nothing))]
fn put_body<R: ByteSink, B: Allocator>(out: &mut R, body: &Body<B>)
    requires range { BodyInRange body.now }
    requires room { body_size body.now ≤ R.room out.old }
    ensures held { R.held out.new ≡ R.held out.old ++ body_text body.now }
    ensures room { R.room out.old ≤ R.room out.new + body_size body.now }
{
    match body {
        Body::RuleSet { prefix, rule } => {
            put_prefix(out, prefix);
            put_rule(out, rule);
        }
        Body::RuleClear { prefix } => put_prefix(out, prefix),
        Body::Mm { itsi, area, pdu } => {
            put_number(out, 6, itsi.number());
            put_number(out, 2, u64::from(area.number()));
            put_bits(out, pdu);
        }
        Body::Sds {
            source,
            destination,
            pdu,
        } => {
            put_number(out, 6, source.number());
            put_number(out, 6, destination.number());
            put_bits(out, pdu);
        }
        Body::GroupSds { source, group, pdu } => {
            put_number(out, 6, source.number());
            put_number(out, 6, group.number());
            put_bits(out, pdu);
        }
        Body::Sent(key) | Body::Delete(key) => put_key(out, key),
        Body::Expire => {}
    }
}

/// How many bytes the command's text has.
#[tactic(auto, using(crate::proofs::Sizes::command_size, crate::proofs::Sizes::command_short))]
pub fn text_len<A: Allocator>(command: &Command<A>) -> usize
    ensures value { result ≡ length (command_text command.now) }
    ensures most { result ≤ longest }
{
    facts_of_ranges(command);
    11 + body_len(&command.body)
}

// Does nothing. Its clause names the ranges that the types of the fields keep.
fn facts_of_ranges<A: Allocator>(command: &Command<A>)
    ensures { IsCommand command.now }
{
    let _station = command.station.number();
}

// What comes before a command's body: station, sequence, moment and tag.
fn head_of<A: Allocator>(command: &Command<A>) -> [u8; 11]
    ensures { result ≡ big 2 command.now.station ++ big 4 command.now.sequence ++ big 4 command.now.moment ++ big 1 (tag_of command.now.body) }
{
    let station = command.station.number().to_be_bytes();
    let sequence = command.sequence.number().to_be_bytes();
    let moment = command.moment.number().to_be_bytes();
    [
        station[0],
        station[1],
        sequence[0],
        sequence[1],
        sequence[2],
        sequence[3],
        moment[0],
        moment[1],
        moment[2],
        moment[3],
        tag(&command.body),
    ]
}

/// Appends the command's text to what has room for it. It never allocates.
#[tactic(auto, unfolding(crate::specs::Text::command_text), using(std::proofs::Common::append_assoc, crate::proofs::Sizes::command_size))]
pub fn append<R: ByteSink, B: Allocator>(out: &mut R, command: &Command<B>)
    requires room { length (command_text command.now) ≤ R.room out.old }
    ensures held { R.held out.new ≡ R.held out.old ++ command_text command.now }
    ensures room { R.room out.old ≤ R.room out.new + length (command_text command.now) }
    ensures is_command { IsCommand command.now }
{
    facts_of_ranges(command);
    out.put(&head_of(command));
    put_body(out, &command.body);
}

/// The command's text, in memory of its own.
pub fn encode<A: Allocator, B: Allocator>(
    alloc: A,
    command: &Command<B>,
) -> Result<Vec<u8, A>, AllocError>
    ensures spelt { IfOk result (λ bytes. Spells command.now bytes.items) }
{
    let mut out = Vec::with_capacity(alloc, text_len(command))?;
    append(&mut out, command);
    Ok(out)
}
