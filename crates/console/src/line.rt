ghost use Rattle.std.specs.Prelude.{◌≡◌, Some, IfOk, IfErr, OnErr, IsSome};
ghost use Rattle.centre_core.specs.Ranges.{BodyInRange, IsShort, pdu_of};
ghost use Rattle.console.specs.declared.line.Line.TheVariants.{Apply, Ask, Print, Mark as MarkLine};
ghost use Rattle.console.specs.Reading.{reading, sequence_of, words, of_words, of_form, command_line, command_of, line_of};
ghost use Rattle.console.specs.Inside.Counts.{command_count, count_of};
ghost use Rattle.console.specs.Inside.Left.{bytes_left, words_in};

use crate::body::{Head, body_in, head_in, listing_in, query_in};
use crate::form::{BodyForm, Form, MOST_WORDS, Words, form_of};
use crate::mark::Mark;
use crate::spaces::{Rest, whole_line};
use crate::split::{cut, next_word};
use centre_core::{Body, Command, Query, Sequence};
use listings::Listing;
use registration::Station;
use std::alloc::{AllocError, Allocator};

/// The most bytes of a line, without its end.
pub(crate) const LONGEST: usize = 1024;

/// What is wrong with a line.
#[derive(Clone, Copy, Debug, PartialEq, Eq)]
pub enum LineFault {
    /// Its words fit no form.
    Syntax,
    /// One of its words is malformed or out of range, or the low area of a rule is above the high one.
    Value,
    /// It has more than 1,024 bytes.
    TooLong,
}

/// A line, as it is read.
#[derive(Drop)]
pub enum Line<A: Allocator> {
    /// It is empty or a comment.
    Silent,
    /// It is bad.
    Bad(LineFault),
    /// A command.
    Apply(Command<A>),
    /// A query.
    Ask(Query),
    /// A listing.
    Print(Listing),
    /// A mark, which is answered by itself.
    Mark(Mark),
    /// The question which station this is, and that station.
    OwnStation(Station),
    /// The question for the figures of the service.
    Service,
    /// An order of this sequence, by a station that may give none. [`parse_line`] never returns it.
    Forbidden(Sequence),
}

/// Memory ran out for the PDU of the command of this sequence.
#[derive(Drop)]
pub(crate) struct Unread {
    pub(crate) sequence: Sequence,
}

/// Reads a station's line, which is given without its end. Memory can run out only for a command's PDU of more than 64 bits.
pub fn parse_line<A: Allocator>(
    alloc: A,
    station: Station,
    line: &[u8],
) -> Result<Line<A>, AllocError>
    ensures ok { IfOk result (λ said. said ≡ reading station line.now) }
    ensures err { OnErr result (IsSome (sequence_of (reading {A = A} station line.now))) }
{
    match read_line(alloc, station, line) {
        Ok(said) => Ok(said),
        Err(_) => Err(AllocError),
    }
}

/// As `parse_line`. When memory runs out for a PDU, the fault has the sequence of its command.
#[inline(always)]
pub(crate) fn read_line<A: Allocator>(
    alloc: A,
    station: Station,
    line: &[u8],
) -> Result<Line<A>, Unread>
    ensures ok { IfOk result (λ said. said ≡ reading station line.now) }
    ensures err { IfErr result (λ unread. sequence_of (reading {A = A} station line.now) ≡ Some unread.sequence) }
{
    if line.len() > LONGEST {
        return Ok(Line::Bad(LineFault::TooLong));
    }
    match line {
        [] => Ok(Line::Silent),
        [b'#', ..] => Ok(Line::Silent),
        _ => read_text(alloc, station, line),
    }
}

fn read_text<A: Allocator>(alloc: A, station: Station, line: &[u8]) -> Result<Line<A>, Unread>
    ensures ok { IfOk result (λ said. said ≡ of_words station (words line.now)) }
    ensures err { IfErr result (λ unread. sequence_of (of_words {A = A} station (words line.now)) ≡ Some unread.sequence) }
{
    match whole_line(line) {
        Some(rest) => read_marked(alloc, station, rest),
        None => read_any(alloc, station, line),
    }
}

/// As `read_text`, for a line whose spaces are marked.
#[inline(always)]
fn read_marked<A: Allocator>(alloc: A, station: Station, line: Rest<'_>) -> Result<Line<A>, Unread>
    ensures ok { IfOk result (λ said. said ≡ of_words station (words (bytes_left line.entry))) }
    ensures err { IfErr result (λ unread. sequence_of (of_words {A = A} station (words (bytes_left line.entry))) ≡ Some unread.sequence) }
{
    let mut words = Words {
        places: [line.line; MOST_WORDS],
        count: 1,
    };
    let mut rest = line;
    for at in 0..MOST_WORDS {
        let (word, following) = next_word(rest);
        words.places[at] = word;
        let Some(following) = following else {
            words.count = at + 1;
            return read_words(alloc, station, &words);
        };
        rest = following;
    }
    Ok(Line::Bad(LineFault::Syntax))
}

/// As `read_text`, for a line of any length.
fn read_any<A: Allocator>(alloc: A, station: Station, line: &[u8]) -> Result<Line<A>, Unread>
    ensures ok { IfOk result (λ said. said ≡ of_words station (words line.now)) }
    ensures err { IfErr result (λ unread. sequence_of (of_words {A = A} station (words line.now)) ≡ Some unread.sequence) }
{
    let mut words = Words {
        places: [line; MOST_WORDS],
        count: 1,
    };
    let mut rest = line;
    for at in 0..MOST_WORDS {
        let (word, following) = cut(rest);
        words.places[at] = word;
        let Some(following) = following else {
            words.count = at + 1;
            return read_words(alloc, station, &words);
        };
        rest = following;
    }
    Ok(Line::Bad(LineFault::Syntax))
}

/// Finds the form of the words. Only then are they judged.
#[inline(always)]
#[tactic(auto, using(crate::proofs::Forms::counted))]
fn read_words<A: Allocator>(
    alloc: A,
    station: Station,
    words: &Words<'_>,
) -> Result<Line<A>, Unread>
    ensures ok { IfOk result (λ said. said ≡ of_words station (words_in words.now)) }
    ensures err { IfErr result (λ unread. sequence_of (of_words {A = A} station (words_in words.now)) ≡ Some unread.sequence) }
{
    if let Some(form) = form_of(words.keyword(), words.count) {
        read_form(alloc, station, form, words)
    } else {
        Ok(Line::Bad(LineFault::Syntax))
    }
}

/// Judges words of this form.
#[inline(always)]
fn read_form<A: Allocator>(
    alloc: A,
    station: Station,
    form: Form,
    words: &Words<'_>,
) -> Result<Line<A>, Unread>
    requires { words.now.count ≡ count_of form }
    ensures ok { IfOk result (λ said. said ≡ of_form station form (words_in words.now)) }
    ensures err { IfErr result (λ unread. sequence_of (of_form {A = A} station form (words_in words.now)) ≡ Some unread.sequence) }
{
    match form {
        Form::Apply(form) => read_command(alloc, station, form, words),
        Form::Ask(form) => Ok(query_line(query_in(form, words))),
        Form::Print(form) => Ok(listing_line(listing_in(form, words))),
        Form::Mark => Ok(mark_line(Mark::new(words.at(1)))),
        Form::OwnStation => Ok(Line::OwnStation(station)),
        Form::Service => Ok(Line::Service),
    }
}

fn query_line<A: Allocator>(query: Option<Query>) -> Line<A>
    ensures { result ≡ line_of Ask query }
{
    match query {
        Some(query) => Line::Ask(query),
        None => Line::Bad(LineFault::Value),
    }
}

fn listing_line<A: Allocator>(listing: Option<Listing>) -> Line<A>
    ensures { result ≡ line_of Print listing }
{
    match listing {
        Some(listing) => Line::Print(listing),
        None => Line::Bad(LineFault::Value),
    }
}

fn mark_line<A: Allocator>(mark: Option<Mark>) -> Line<A>
    ensures { result ≡ line_of MarkLine mark }
{
    match mark {
        Some(mark) => Line::Mark(mark),
        None => Line::Bad(LineFault::Value),
    }
}

/// Judges the words of a command.
#[inline(always)]
#[tactic(auto, using(crate::proofs::Forms::unread))]
fn read_command<A: Allocator>(
    alloc: A,
    station: Station,
    form: BodyForm,
    words: &Words<'_>,
) -> Result<Line<A>, Unread>
    requires { words.now.count ≡ command_count form }
    ensures ok { IfOk result (λ said. said ≡ command_line station form (words_in words.now)) }
    ensures err { IfErr result (λ unread. sequence_of (command_line {A = A} station form (words_in words.now)) ≡ Some unread.sequence) }
{
    let Some(head) = head_in(words.at(0), words.at(1)) else {
        return Ok(Line::Bad(LineFault::Value));
    };
    match body_in(alloc, form, words) {
        Ok(Some(body)) => Ok(line_of_command(station, head, body)),
        Ok(None) => Ok(Line::Bad(LineFault::Value)),
        Err(AllocError) => Err(Unread {
            sequence: head.sequence,
        }),
    }
}

/// A command with this body.
#[inline(always)]
fn line_of_command<A: Allocator>(station: Station, head: Head, body: Body<A>) -> Line<A>
    requires { IsShort (pdu_of body) }
    ensures { result ≡ line_of Apply (command_of station (Some head) (Some body)) }
{
    let Head { sequence, moment } = head;
    let _head = (sequence.number(), moment.number());
    facts_of_ranges(&body);
    Line::Apply(Command {
        station,
        sequence,
        moment,
        body,
    })
}

// Does nothing. Its clause names the ranges that the types of the parts keep.
#[inline(always)]
fn facts_of_ranges<A: Allocator>(body: &Body<A>)
    requires { IsShort (pdu_of body.now) }
    ensures { BodyInRange body.now }
{
    match body {
        Body::RuleSet { prefix, rule } => {
            let _bits = prefix.len();
            let _rule = (rule.low(), rule.high().number(), rule.keep());
        }
        Body::RuleClear { prefix } => {
            let _bits = prefix.len();
        }
        Body::Mm { itsi, area, .. } => {
            let _parts = (itsi.number(), area.number());
        }
        Body::Sds {
            source,
            destination,
            ..
        } => {
            let _parts = (source.number(), destination.number());
        }
        Body::GroupSds { source, group, .. } => {
            let _parts = (source.number(), group.number());
        }
        Body::Sent(key) | Body::Delete(key) => {
            let _identities = (key.destination.number(), key.source.number());
            let _reference = key.reference.number();
        }
        Body::Expire => {}
    }
}
