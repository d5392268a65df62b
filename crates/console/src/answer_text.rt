//! The texts of answers. Each `put_` adds its text; when memory runs out, a prefix of it.
ghost use Rattle.std.specs.Prelude.{◌≡◌, ◌≤◌, ◌<◌, ◌+◌, ◌++◌, OnOk, OnErr, length, vec_len, vec_capacity, codes, decimal};
ghost use Rattle.std.specs.List.{flat_map};
ghost use Rattle.identity.specs.NumberText.{IsPrefixOf};
ghost use Rattle.identity.specs.IdentityText.{identity_text};
ghost use Rattle.centre_core.specs.Ranges.{IsShort};
ghost use Rattle.desk.specs.Replies.{HasShortPdu, HasShortReject};
ghost use Rattle.listings.specs.Parts.{part_text, part_room, pdu_room};
ghost use Rattle.listings.specs.Words.{pdu_text, presence_text};
ghost use Rattle.console.specs.Answer.{text, reply_text, refusal_text, query_answer_text, whereabouts_text, rule_text};
ghost use Rattle.listings.specs.Lines.{radio_words, rule_words};
ghost use Rattle.listings.specs.Parts.{answer_room};
ghost use Rattle.console.specs.Answer.{IsOneLine, IsLine};

use crate::answer::Answer;
use crate::lists::{put_count, put_groups, put_items, put_members};
use crate::mark::Mark;
use crate::words::{group_word, line_word, mail_word, mm_word, registration_word, sds_word};
use centre_core::{QueryAnswer, Refusal, Reply, Sequence};
use desk::Outage;
use identity::{Bits, Itsi, Prefix, print_bits, print_itsi, print_number};
use listings::{Part, put_parts};
use registration::{Radio, Rule, Station};
use std::alloc::{AllocError, Allocator};

#[inline(always)]
pub(crate) fn put_answer<A: Allocator, B: Allocator>(
    out: &mut Vec<u8, A>,
    answer: &Answer<B>,
) -> Result<(), AllocError>
    ensures ok { OnOk result (out.new.items ≡ out.old.items ++ text answer.now) }
    ensures err { OnErr result (IsPrefixOf out.old.items out.new.items) }
    ensures full { OnErr result (vec_capacity out.old < vec_len out.old + length (text answer.now)) }
    ensures capacity { vec_capacity out.old ≤ vec_capacity out.new }
    ensures line { IsLine answer.now → OnErr result (vec_capacity out.old < vec_len out.old + answer_room) }
{
    match answer {
        Answer::Quiet => Ok(()),
        Answer::Bad(line, fault) => put_of_line(out, *line, " bad ", line_word(*fault)),
        Answer::Replied(sequence, reply) => put_reply(out, *sequence, reply),
        Answer::CommandOutage(sequence, word) => put_refused(out, *sequence, word.word()),
        Answer::Queried(query_answer) => put_query_answer(out, query_answer),
        Answer::Listed(lines) => out.extend_from_slice(lines.as_slice()),
        Answer::Service(lines) => out.extend_from_slice(lines.as_slice()),
        Answer::QueryOutage(line, word) => put_of_line(out, *line, " no ", word.word()),
        Answer::ServiceOutage(line) => put_of_line(out, *line, " no ", Outage::Memory.word()),
        Answer::Marked(mark) => put_mark(out, mark),
        Answer::OwnStation(station) => put_station(out, *station),
        Answer::Forbidden(sequence) => put_refused(out, *sequence, "forbidden"),
    }
}

/// `mark WORD`
#[tactic(auto, using(crate::proofs::Fits::mark_fits))]
fn put_mark<A: Allocator>(out: &mut Vec<u8, A>, mark: &Mark) -> Result<(), AllocError>
    ensures ok { OnOk result (out.new.items ≡ out.old.items ++ codes "mark " ++ mark.now ++ codes "\n") }
    ensures err { OnErr result (IsPrefixOf out.old.items out.new.items) }
    ensures full { OnErr result (vec_capacity out.old < vec_len out.old + length (codes "mark " ++ mark.now ++ codes "\n")) }
    ensures capacity { vec_capacity out.old ≤ vec_capacity out.new }
    ensures line { OnErr result (vec_capacity out.old < vec_len out.old + answer_room) }
{
    put_mark_text(out, mark.as_slice())
}

/// The text of `put_mark`.
#[inline(always)]
#[tactic(auto, using(identity::proofs::Printed::printed))]
fn put_mark_text<A: Allocator>(out: &mut Vec<u8, A>, word: &[u8]) -> Result<(), AllocError>
    ensures ok { OnOk result (out.new.items ≡ out.old.items ++ codes "mark " ++ word.now ++ codes "\n") }
    ensures err { OnErr result (IsPrefixOf out.old.items out.new.items) }
    ensures full { OnErr result (vec_capacity out.old < vec_len out.old + length (codes "mark " ++ word.now ++ codes "\n")) }
    ensures capacity { vec_capacity out.old ≤ vec_capacity out.new }
{
    out.extend_from_slice(b"mark ")?;
    out.extend_from_slice(word)?;
    out.push(b'\n')?;
    Ok(())
}

/// `station STATION`
#[tactic(auto, using(std::proofs::Common::append_assoc))]
fn put_station<A: Allocator>(out: &mut Vec<u8, A>, station: Station) -> Result<(), AllocError>
    ensures ok { OnOk result (out.new.items ≡ out.old.items ++ codes "station " ++ decimal station ++ codes "\n") }
    ensures err { OnErr result (IsPrefixOf out.old.items out.new.items) }
    ensures full { OnErr result (vec_capacity out.old < vec_len out.old + length (codes "station " ++ decimal station ++ codes "\n")) }
    ensures capacity { vec_capacity out.old ≤ vec_capacity out.new }
    ensures line { OnErr result (vec_capacity out.old < vec_len out.old + answer_room) }
{
    let line: [Part; 3] = [
        Part::Text("station "),
        Part::Number(u64::from(station.number())),
        Part::Text("\n"),
    ];
    put_parts(out, &line)
}

/// `line N bad WORD` or `line N no WORD`
#[tactic(auto, using(std::proofs::Common::append_assoc))]
fn put_of_line<'a, A: Allocator>(
    out: &mut Vec<u8, A>,
    line: u64,
    verdict: &'a str,
    word: &'a str,
) -> Result<(), AllocError>
    requires verdict { length verdict.now ≤ 5 }
    requires word { length word.now ≤ 32 }
    ensures ok { OnOk result (out.new.items ≡ out.old.items ++ codes "line " ++ decimal line ++ verdict.now ++ word.now ++ codes "\n") }
    ensures err { OnErr result (IsPrefixOf out.old.items out.new.items) }
    ensures full { OnErr result (vec_capacity out.old < vec_len out.old + length (codes "line " ++ decimal line ++ verdict.now ++ word.now ++ codes "\n")) }
    ensures capacity { vec_capacity out.old ≤ vec_capacity out.new }
    ensures line { OnErr result (vec_capacity out.old < vec_len out.old + answer_room) }
{
    let line: [Part; 5] = [
        Part::Text("line "),
        Part::Number(line),
        Part::Text(verdict),
        Part::Text(word),
        Part::Text("\n"),
    ];
    put_parts(out, &line)
}

#[inline(always)]
#[tactic(auto, using(std::proofs::Common::append_assoc))]
pub(crate) fn put_reply<A: Allocator, B: Allocator>(
    out: &mut Vec<u8, A>,
    sequence: Sequence,
    reply: &Reply<B>,
) -> Result<(), AllocError>
    ensures ok { OnOk result (out.new.items ≡ out.old.items ++ decimal sequence ++ reply_text reply.now ++ codes "\n") }
    ensures err { OnErr result (IsPrefixOf out.old.items out.new.items) }
    ensures full { OnErr result (vec_capacity out.old < vec_len out.old + length (decimal sequence ++ reply_text reply.now ++ codes "\n")) }
    ensures capacity { vec_capacity out.old ≤ vec_capacity out.new }
    ensures line { HasShortPdu reply.now → OnErr result (vec_capacity out.old < vec_len out.old + answer_room) }
{
    match reply {
        Reply::Accepted { number, pdu } => put_done(out, sequence, " ok ", *number, pdu),
        Reply::Kept { number, pdu } => put_done(out, sequence, " kept ", *number, pdu),
        Reply::Refused(refusal) => put_refusal(out, sequence, refusal),
    }
}

/// `SEQ ok NUMBER PDU` or `SEQ kept NUMBER PDU`
#[inline(always)]
#[tactic(auto, using(crate::proofs::Fits::done_fits))]
fn put_done<A: Allocator, B: Allocator>(
    out: &mut Vec<u8, A>,
    sequence: Sequence,
    word: &str,
    number: u64,
    pdu: &Option<Bits<B>>,
) -> Result<(), AllocError>
    requires { length word.now ≤ 6 }
    ensures ok { OnOk result (out.new.items ≡ out.old.items
        ++ decimal sequence ++ (word.now ++ decimal number ++ codes " " ++ pdu_text pdu.now) ++ codes "\n") }
    ensures err { OnErr result (IsPrefixOf out.old.items out.new.items) }
    ensures full { OnErr result (vec_capacity out.old < vec_len out.old
        + length (decimal sequence ++ (word.now ++ decimal number ++ codes " " ++ pdu_text pdu.now) ++ codes "\n")) }
    ensures capacity { vec_capacity out.old ≤ vec_capacity out.new }
    ensures line { IsShort pdu.now → OnErr result (vec_capacity out.old < vec_len out.old + answer_room) }
{
    let sequence = u64::from(sequence.number());
    put_done_text(out, sequence, word, number, pdu)
}

/// The text of `put_done`.
#[inline(always)]
#[tactic(auto, using(identity::proofs::Printed::printed))]
fn put_done_text<A: Allocator, B: Allocator>(
    out: &mut Vec<u8, A>,
    sequence: u64,
    word: &str,
    number: u64,
    pdu: &Option<Bits<B>>,
) -> Result<(), AllocError>
    ensures ok { OnOk result (out.new.items ≡ out.old.items
        ++ decimal sequence ++ (word.now ++ decimal number ++ codes " " ++ pdu_text pdu.now) ++ codes "\n") }
    ensures err { OnErr result (IsPrefixOf out.old.items out.new.items) }
    ensures full { OnErr result (vec_capacity out.old < vec_len out.old
        + length (decimal sequence ++ (word.now ++ decimal number ++ codes " " ++ pdu_text pdu.now) ++ codes "\n")) }
    ensures capacity { vec_capacity out.old ≤ vec_capacity out.new }
{
    print_number(out, sequence)?;
    out.extend_from_slice(word.as_bytes())?;
    print_number(out, number)?;
    put_pdu(out, pdu)
}

/// The PDU for the radio, or `-`: the last word of a line.
#[inline(always)]
#[tactic(auto, using(identity::proofs::Printed::printed))]
fn put_pdu<A: Allocator, B: Allocator>(
    out: &mut Vec<u8, A>,
    pdu: &Option<Bits<B>>,
) -> Result<(), AllocError>
    ensures ok { OnOk result (out.new.items ≡ out.old.items ++ (codes " " ++ pdu_text pdu.now ++ codes "\n")) }
    ensures err { OnErr result (IsPrefixOf out.old.items out.new.items) }
    ensures full { OnErr result (vec_capacity out.old < vec_len out.old + length (codes " " ++ pdu_text pdu.now ++ codes "\n")) }
    ensures capacity { vec_capacity out.old ≤ vec_capacity out.new }
{
    let Some(bits) = pdu else {
        return out.extend_from_slice(b" -\n");
    };
    out.push(b' ')?;
    print_bits(out, bits)?;
    out.push(b'\n')?;
    Ok(())
}

/// `SEQ no WORD`
#[tactic(auto, using(crate::proofs::Fits::refused_fits))]
pub(crate) fn put_refused<A: Allocator>(
    out: &mut Vec<u8, A>,
    sequence: Sequence,
    word: &str,
) -> Result<(), AllocError>
    requires { length word.now ≤ 32 }
    ensures ok { OnOk result (out.new.items ≡ out.old.items ++ decimal sequence ++ (codes " no " ++ word.now) ++ codes "\n") }
    ensures err { OnErr result (IsPrefixOf out.old.items out.new.items) }
    ensures full { OnErr result (vec_capacity out.old < vec_len out.old + length (decimal sequence ++ (codes " no " ++ word.now) ++ codes "\n")) }
    ensures capacity { vec_capacity out.old ≤ vec_capacity out.new }
    ensures line { OnErr result (vec_capacity out.old < vec_len out.old + answer_room) }
{
    let sequence = u64::from(sequence.number());
    put_refused_text(out, sequence, word)
}

/// The text of `put_refused`.
#[inline(always)]
#[tactic(auto, using(identity::proofs::Printed::printed))]
fn put_refused_text<A: Allocator>(
    out: &mut Vec<u8, A>,
    sequence: u64,
    word: &str,
) -> Result<(), AllocError>
    ensures ok { OnOk result (out.new.items ≡ out.old.items ++ decimal sequence ++ (codes " no " ++ word.now) ++ codes "\n") }
    ensures err { OnErr result (IsPrefixOf out.old.items out.new.items) }
    ensures full { OnErr result (vec_capacity out.old < vec_len out.old + length (decimal sequence ++ (codes " no " ++ word.now) ++ codes "\n")) }
    ensures capacity { vec_capacity out.old ≤ vec_capacity out.new }
{
    print_number(out, sequence)?;
    out.extend_from_slice(b" no ")?;
    out.extend_from_slice(word.as_bytes())?;
    out.push(b'\n')?;
    Ok(())
}

#[tactic(auto, using(std::proofs::Common::append_assoc))]
fn put_refusal<A: Allocator, B: Allocator>(
    out: &mut Vec<u8, A>,
    sequence: Sequence,
    refusal: &Refusal<B>,
) -> Result<(), AllocError>
    ensures ok { OnOk result (out.new.items ≡ out.old.items ++ decimal sequence ++ (codes " no " ++ refusal_text refusal.now) ++ codes "\n") }
    ensures err { OnErr result (IsPrefixOf out.old.items out.new.items) }
    ensures full { OnErr result (vec_capacity out.old < vec_len out.old
        + length (decimal sequence ++ (codes " no " ++ refusal_text refusal.now) ++ codes "\n")) }
    ensures capacity { vec_capacity out.old ≤ vec_capacity out.new }
    ensures line { HasShortReject refusal.now → OnErr result (vec_capacity out.old < vec_len out.old + answer_room) }
{
    match refusal {
        Refusal::UnknownStation => put_refused(out, sequence, "unknown-station"),
        Refusal::OldSequence { last } => put_refused_at(out, sequence, "old-sequence ", *last),
        Refusal::NumbersUsedUp => put_refused(out, sequence, "numbers-used-up"),
        Refusal::Pdu(fault) => put_refused(out, sequence, mm_word(*fault)),
        Refusal::Registration(fault) => put_refused(out, sequence, registration_word(*fault)),
        Refusal::ShortData(fault) => put_refused(out, sequence, sds_word(*fault)),
        Refusal::Mail(fault) => put_refused(out, sequence, mail_word(*fault)),
        Refusal::Groups(fault) => put_refused(out, sequence, group_word(*fault)),
        Refusal::Location { fault, reject } => put_parts(
            out,
            &[
                Part::Number(u64::from(sequence.number())),
                Part::Text(" no "),
                Part::Text(registration_word(*fault)),
                Part::Text(" "),
                Part::Pdu(reject),
                Part::Text("\n"),
            ],
        ),
    }
}

/// `SEQ no WORD LAST`
#[tactic(auto, using(std::proofs::Common::append_assoc))]
fn put_refused_at<A: Allocator>(
    out: &mut Vec<u8, A>,
    sequence: Sequence,
    word: &str,
    last: Sequence,
) -> Result<(), AllocError>
    requires { length word.now ≤ 32 }
    ensures ok { OnOk result (out.new.items ≡ out.old.items ++ decimal sequence ++ (codes " no " ++ (word.now ++ decimal last)) ++ codes "\n") }
    ensures err { OnErr result (IsPrefixOf out.old.items out.new.items) }
    ensures full { OnErr result (vec_capacity out.old < vec_len out.old
        + length (decimal sequence ++ (codes " no " ++ (word.now ++ decimal last)) ++ codes "\n")) }
    ensures capacity { vec_capacity out.old ≤ vec_capacity out.new }
    ensures line { OnErr result (vec_capacity out.old < vec_len out.old + answer_room) }
{
    let line: [Part; 5] = [
        Part::Number(u64::from(sequence.number())),
        Part::Text(" no "),
        Part::Text(word),
        Part::Number(u64::from(last.number())),
        Part::Text("\n"),
    ];
    put_parts(out, &line)
}

#[tactic(auto, using(identity::proofs::Printed::printed))]
fn put_query_answer<A: Allocator, B: Allocator>(
    out: &mut Vec<u8, A>,
    query_answer: &QueryAnswer<B>,
) -> Result<(), AllocError>
    ensures ok { OnOk result (out.new.items ≡ out.old.items ++ query_answer_text query_answer.now) }
    ensures err { OnErr result (IsPrefixOf out.old.items out.new.items) }
    ensures full { OnErr result (vec_capacity out.old < vec_len out.old + length (query_answer_text query_answer.now)) }
    ensures capacity { vec_capacity out.old ≤ vec_capacity out.new }
    ensures line { IsOneLine query_answer.now → OnErr result (vec_capacity out.old < vec_len out.old + answer_room) }
{
    match query_answer {
        QueryAnswer::Whereabouts { itsi, radio } => put_whereabouts(out, *itsi, radio),
        QueryAnswer::Look { itsi, rule } => put_look(out, *itsi, rule),
        QueryAnswer::Groups { itsi, groups } => {
            let groups = groups.as_slice();
            let whose: [Part; 2] = [Part::Text("groups "), Part::Radio(*itsi)];
            put_parts(out, &whose)?;
            put_count(out, groups.len())?;
            put_groups(out, groups)
        }
        QueryAnswer::Members { gtsi, members } => {
            let members = members.as_slice();
            let whose: [Part; 2] = [Part::Text("members "), Part::Group(*gtsi)];
            put_parts(out, &whose)?;
            put_count(out, members.len())?;
            put_members(out, members)
        }
        QueryAnswer::Waiting { itsi, items } => {
            let items = items.as_slice();
            let whose: [Part; 2] = [Part::Text("mail "), Part::Radio(*itsi)];
            put_parts(out, &whose)?;
            put_count(out, items.len())?;
            put_items(out, items)
        }
        QueryAnswer::Total(count) => put_total(out, *count),
    }
}

#[tactic(auto, using(crate::proofs::Fits::unknown_fits, crate::proofs::Fits::known_fits))]
fn put_whereabouts<A: Allocator>(
    out: &mut Vec<u8, A>,
    itsi: Itsi,
    radio: &Option<Radio>,
) -> Result<(), AllocError>
    ensures ok { OnOk result (out.new.items ≡ out.old.items ++ codes "where " ++ identity_text itsi ++ codes " " ++ whereabouts_text radio.now ++ codes "\n") }
    ensures err { OnErr result (IsPrefixOf out.old.items out.new.items) }
    ensures full { OnErr result (vec_capacity out.old < vec_len out.old
        + length (codes "where " ++ identity_text itsi ++ codes " " ++ whereabouts_text radio.now ++ codes "\n")) }
    ensures capacity { vec_capacity out.old ≤ vec_capacity out.new }
    ensures line { OnErr result (vec_capacity out.old < vec_len out.old + answer_room) }
{
    // Calls of `number` show the prover the ranges, which bound the length of the text.
    let _itsi = itsi.number();
    match radio {
        None => put_unknown(out, itsi),
        Some(radio) => {
            let _place = (radio.station.number(), radio.area.number());
            put_known(out, itsi, radio)
        }
    }
}

/// `where ITSI unknown`
#[inline(always)]
#[tactic(auto, using(identity::proofs::Printed::printed))]
fn put_unknown<A: Allocator>(out: &mut Vec<u8, A>, itsi: Itsi) -> Result<(), AllocError>
    ensures ok { OnOk result (out.new.items ≡ out.old.items ++ codes "where " ++ identity_text itsi ++ codes " unknown\n") }
    ensures err { OnErr result (IsPrefixOf out.old.items out.new.items) }
    ensures full { OnErr result (vec_capacity out.old < vec_len out.old + length (codes "where " ++ identity_text itsi ++ codes " unknown\n")) }
    ensures capacity { vec_capacity out.old ≤ vec_capacity out.new }
{
    out.extend_from_slice(b"where ")?;
    print_itsi(out, itsi)?;
    out.extend_from_slice(b" unknown\n")
}

/// `where ITSI station STATION la AREA present`, or `absent`
#[inline(always)]
#[tactic(auto, using(identity::proofs::Printed::printed))]
fn put_known<A: Allocator>(
    out: &mut Vec<u8, A>,
    itsi: Itsi,
    radio: &Radio,
) -> Result<(), AllocError>
    ensures ok { OnOk result (out.new.items ≡ out.old.items ++ codes "where " ++ identity_text itsi ++ codes " " ++ radio_words radio.now ++ codes "\n") }
    ensures err { OnErr result (IsPrefixOf out.old.items out.new.items) }
    ensures full { OnErr result (vec_capacity out.old < vec_len out.old
        + length (codes "where " ++ identity_text itsi ++ codes " " ++ radio_words radio.now ++ codes "\n")) }
    ensures capacity { vec_capacity out.old ≤ vec_capacity out.new }
{
    out.extend_from_slice(b"where ")?;
    print_itsi(out, itsi)?;
    out.extend_from_slice(b" station ")?;
    print_number(out, u64::from(radio.station.number()))?;
    out.extend_from_slice(b" la ")?;
    print_number(out, u64::from(radio.area.number()))?;
    put_presence(out, radio.present)
}

/// Whether a radio is present: the last word of a line.
#[inline(always)]
fn put_presence<A: Allocator>(out: &mut Vec<u8, A>, present: bool) -> Result<(), AllocError>
    ensures ok { OnOk result (out.new.items ≡ out.old.items ++ (presence_text present ++ codes "\n")) }
    ensures err { OnErr result (out.new.items ≡ out.old.items) }
    ensures full { OnErr result (vec_capacity out.old < vec_len out.old + length (presence_text present ++ codes "\n")) }
    ensures capacity { vec_capacity out.old ≤ vec_capacity out.new }
{
    if present {
        return out.extend_from_slice(b" present\n");
    }
    out.extend_from_slice(b" absent\n")
}

#[tactic(auto, using(std::proofs::Common::append_assoc))]
fn put_look<A: Allocator>(
    out: &mut Vec<u8, A>,
    itsi: Itsi,
    rule: &Option<(Prefix, Rule)>,
) -> Result<(), AllocError>
    ensures ok { OnOk result (out.new.items ≡ out.old.items ++ codes "look " ++ identity_text itsi ++ codes " " ++ rule_text rule.now ++ codes "\n") }
    ensures err { OnErr result (IsPrefixOf out.old.items out.new.items) }
    ensures full { OnErr result (vec_capacity out.old < vec_len out.old
        + length (codes "look " ++ identity_text itsi ++ codes " " ++ rule_text rule.now ++ codes "\n")) }
    ensures capacity { vec_capacity out.old ≤ vec_capacity out.new }
    ensures line { OnErr result (vec_capacity out.old < vec_len out.old + answer_room) }
{
    let Some((prefix, rule)) = rule else {
        let line: [Part; 3] = [
            Part::Text("look "),
            Part::Radio(itsi),
            Part::Text(" none\n"),
        ];
        return put_parts(out, &line);
    };
    let line: [Part; 13] = [
        Part::Text("look "),
        Part::Radio(itsi),
        Part::Text(" "),
        Part::Prefix(*prefix),
        Part::Text(" "),
        Part::Number(u64::from(rule.low().number())),
        Part::Text(" "),
        Part::Number(u64::from(rule.high().number())),
        Part::Text(" "),
        Part::Number(u64::from(rule.lifetime().number())),
        Part::Text(" "),
        Part::Number(u64::from(rule.keep())),
        Part::Text("\n"),
    ];
    put_parts(out, &line)
}

#[tactic(auto, using(std::proofs::Common::append_assoc))]
fn put_total<A: Allocator>(out: &mut Vec<u8, A>, count: u64) -> Result<(), AllocError>
    ensures ok { OnOk result (out.new.items ≡ out.old.items ++ codes "count " ++ decimal count ++ codes "\n") }
    ensures err { OnErr result (IsPrefixOf out.old.items out.new.items) }
    ensures full { OnErr result (vec_capacity out.old < vec_len out.old + length (codes "count " ++ decimal count ++ codes "\n")) }
    ensures capacity { vec_capacity out.old ≤ vec_capacity out.new }
    ensures line { OnErr result (vec_capacity out.old < vec_len out.old + answer_room) }
{
    let line: [Part; 3] = [Part::Text("count "), Part::Number(count), Part::Text("\n")];
    put_parts(out, &line)
}
