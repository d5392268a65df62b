//! Long runs: thousands of pieces, lists after thousands of lines, and a register with more than a thousand rules, radios,
//! members of a group and copies of a message.

use crate::answered::are_answered;
use crate::limits::{limits, usual};
use centre_core::Register;
use console::run;
use identity::print_number;
use registration::Station;
use std::alloc::Global;
use std::io;
use std::io::Read;

/// Lines, and their answers.
#[derive(Drop)]
struct Talk {
    lines: Vec<u8>,
    answers: Vec<u8>,
    /// How many commands there are.
    number: u64,
}

fn silence(alloc: Global) -> Talk {
    Talk {
        lines: Vec::new(alloc),
        answers: Vec::new(alloc),
        number: 0,
    }
}

/// Adds lines and their answers as they are; whether there was memory.
fn add(talk: &mut Talk, lines: &str, answers: &str) -> bool {
    talk.lines.extend_from_slice(lines.as_bytes()).is_ok()
        && talk.answers.extend_from_slice(answers.as_bytes()).is_ok()
}

const COMMANDS: &str = "1 0 rule 234-14-0/24 1 99 1 3600\n\
     2 10 mm 234-14-2001 7 10:260\n\
     3 20 mm 234-14-2001 7 60:7380480A00007D0\n\
     4 100 sds 234-14-2001 234-14-2001 48:820405014849\n";

const REPLIES: &str = "1 ok 1 -\n2 ok 2 8:56\n3 ok 3 62:B3704C0980001F40\n4 ok 4 -\n";

const QUESTIONS: &str =
    "groups 234-14-2001\nmembers 234-14-1000\nmail 234-14-2001\nwhere 234-14-2001\n";

const LISTS: &str = "groups 234-14-2001 1\ngroup 234-14-1000 4 1\n\
     members 234-14-1000 1\nmember 234-14-2001 4\n\
     mail 234-14-2001 1\nitem 4 m 234-14-2001 5 3700 48:820405014849\n\
     where 234-14-2001 station 1 la 7 present\n";

/// Adds so many queries.
fn add_queries(talk: &mut Talk, queries: u32) -> bool {
    for _ in 0..queries {
        if !add(talk, "count\n", "count 4\n") {
            return false;
        }
    }
    true
}

/// Commands, 2,000 queries, and then lists.
fn queries_before_lists(alloc: Global) -> Option<Talk> {
    let mut talk = silence(alloc);
    let are_added = add(&mut talk, COMMANDS, REPLIES)
        && add_queries(&mut talk, 2000)
        && add(&mut talk, QUESTIONS, LISTS);
    are_added.then_some(talk)
}

/// A reader that gives one byte a call.
#[derive(Drop)]
struct ByteByByte<'a> {
    rest: &'a [u8],
}

impl<'a> Read for ByteByByte<'a> {
    fn read(&mut self, buf: &mut [u8]) -> io::Result<usize> {
        match (self.rest, buf) {
            ([first, rest @ ..], [place, ..]) => {
                *place = *first;
                self.rest = rest;
                Ok(1)
            }
            _ => Ok(0),
        }
    }
}

/// Whether lines that come in more than 12,000 pieces get these answers.
fn are_answered_by_the_byte(alloc: Global) -> Option<bool> {
    let (talk, limits) = (queries_before_lists(alloc)?, usual()?);
    let mut desk = Register::new(alloc, limits).ok()?;
    let mut reader = ByteByByte { rest: &talk.lines };
    let mut out = Vec::new(alloc);
    let ran = run(
        alloc,
        &mut reader,
        &mut out,
        Station::new(1),
        1 << 20,
        &mut desk,
    );
    drop(desk);
    Some(ran.is_ok() && out.as_slice() == talk.answers.as_slice())
}

#[test]
fn lists_come_after_twelve_thousand_pieces(rt: HostRuntime) {
    assert!(rt; are_answered_by_the_byte(rt.alloc()) == Some(true));
}

/// Adds a number, with a text before it and after it; whether there was memory.
fn put(out: &mut Vec<u8>, before: &str, number: u64, after: &str) -> bool {
    out.extend_from_slice(before.as_bytes()).is_ok()
        && print_number(out, number).is_ok()
        && out.extend_from_slice(after.as_bytes()).is_ok()
}

/// Adds the next command, which names the radio of this number and is accepted with this PDU.
fn add_command(talk: &mut Talk, before: &str, radio: u64, after: &str, pdu: &str) -> bool {
    talk.number = talk.number.saturating_add(1);
    put(&mut talk.lines, "", talk.number, before)
        && put(&mut talk.lines, "", radio, after)
        && put(&mut talk.answers, "", talk.number, "")
        && put(&mut talk.answers, " ok ", talk.number, pdu)
}

/// A rule, a location update and a group PDU for each radio: the text before its number and after it, and the PDU of the reply.
const FOR_EACH: [(&str, &str, &str); 3] = [
    (" 0 rule 234-14-", "/48 1 99 1 3600\n", " -\n"),
    (" 10 mm 234-14-", " 7 10:260\n", " 8:56\n"),
    (
        " 20 mm 234-14-",
        " 7 60:7380480A00007D0\n",
        " 62:B3704C0980001F40\n",
    ),
];

/// Radios 2001 to 3001 each get a rule of their own, attach and join group 1000.
fn add_each(talk: &mut Talk) -> bool {
    for radio in 2001..3002u64 {
        for (before, after, pdu) in FOR_EACH {
            if !add_command(talk, before, radio, after, pdu) {
                return false;
            }
        }
    }
    true
}

/// The text after the first radio of a message to the group.
const MESSAGE: &str = " 234-14-1000 48:820405014849\n";

/// A rule for all comes before them; then the first sends a message to the group.
fn add_a_thousand(talk: &mut Talk) -> bool {
    add_command(talk, " 0 rule 234-14-", 0, "/24 1 99 1 3600\n", " -\n")
        && add_each(talk)
        && add_command(talk, " 100 gsds 234-14-", 2001, MESSAGE, " -\n")
}

/// Adds the query for the members of the group, and its 1,001 lines.
fn add_members(talk: &mut Talk) -> bool {
    if !add(talk, "members 234-14-1000\n", "members 234-14-1000 1001\n") {
        return false;
    }
    for radio in 2001..3002u64 {
        if !put(&mut talk.answers, "member 234-14-", radio, " 4\n") {
            return false;
        }
    }
    true
}

/// The last radio, its rule, its group and its copy of the message; the first radio has none.
const LAST: (&str, &str) = (
    "where 234-14-3001\nlook 234-14-3001\ngroups 234-14-3001\nmail 234-14-3001\nmail 234-14-2001\ncount\n",
    "where 234-14-3001 station 1 la 7 present\nlook 234-14-3001 234-14-3001/48 1 99 1 3600\n\
     groups 234-14-3001 1\ngroup 234-14-1000 4 1\n\
     mail 234-14-3001 1\nitem 3005 m 234-14-2001 5 3700 48:820405014849 234-14-1000\n\
     mail 234-14-2001 0\ncount 3005\n",
);

fn a_thousand(alloc: Global) -> Option<Talk> {
    let mut talk = silence(alloc);
    let are_added = add_a_thousand(&mut talk)
        && add_members(&mut talk)
        && add(&mut talk, LAST.0, LAST.1);
    are_added.then_some(talk)
}

fn are_a_thousand_answered(alloc: Global) -> Option<bool> {
    let (talk, limits) = (a_thousand(alloc)?, limits(1002, 1001, 1001)?);
    let mut desk = Register::new(alloc, limits).ok()?;
    let answered = are_answered(alloc, alloc, &mut desk, &talk.lines, &talk.answers);
    drop(desk);
    Some(answered)
}

#[test]
fn the_last_of_a_thousand_is_found(rt: HostRuntime) {
    assert!(rt; are_a_thousand_answered(rt.alloc()) == Some(true));
}
