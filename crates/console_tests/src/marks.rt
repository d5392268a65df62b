//! Marks, the question which station a line is from, and orders from a station that may give none.

use crate::limits::usual;
use centre_core::Register;
use console::{Answer, Line, LineFault, Mark, Terms, parse_line, print_answer, run_under};
use registration::Station;
use std::alloc::Global;

/// The answers to the lines of station 3; nothing if the run failed or reported trouble.
fn answers(alloc: Global, orders: bool, lines: &str) -> Option<Vec<u8>> {
    let mut register = Register::new(alloc, usual()?).ok()?;
    let mut out = Vec::new(alloc);
    let mut reader = lines.as_bytes();
    let terms = Terms {
        alloc,
        station: Station::new(3),
        orders,
        turns: 16,
    };
    let (ran, _) = run_under(terms, &mut reader, &mut out, &mut register);
    drop(register);
    match ran {
        Ok(ran) if !ran.troubled => Some(out),
        _ => None,
    }
}

fn are_answered(alloc: Global, orders: bool, lines: &str, want: &str) -> bool {
    match answers(alloc, orders, lines) {
        Some(out) => out.as_slice() == want.as_bytes(),
        None => false,
    }
}

const QUESTIONS: &str = "mark a\nstation\n# station\nmark !~0123456789abcdef0123456789ABCD\ncount";

const SAID: &str = "mark a\nstation 3\nmark !~0123456789abcdef0123456789ABCD\ncount 0\n";

#[test]
fn marks_and_the_station_are_answered(rt: HostRuntime) {
    assert!(rt; are_answered(rt.alloc(), true, QUESTIONS, SAID));
    assert!(rt; are_answered(rt.alloc(), false, QUESTIONS, SAID));
}

const ORDERS: &str = "1 0 rule 234-14-0/24 1 99 1 3600\n\
     2 10 unrule 234-14-0/24\n\
     3 20 mm 234-14-2001 7 10:260\n\
     4 30 expire\n\
     5 40 delete 234-14-2001 234-14-2001 1 m\n\
     6 50 sent 234-14-2001 234-14-2001 1 m\n\
     look 234-14-2001\n\
     1 60 mm 234-14-2001 7 10:260\n";

const OBEYED: &str = "1 ok 1 -\n2 ok 2 -\n3 no unknown-identity 14:7610\n4 ok 3 -\n\
     5 no no-such-message\n6 no not-attached\nlook 234-14-2001 none\n1 no old-sequence 4\n";

const FORBIDDEN: &str =
    "1 no forbidden\n2 no forbidden\n3 no unknown-identity 14:7610\n4 no forbidden\n\
     5 no forbidden\n6 no not-attached\nlook 234-14-2001 none\n1 no unknown-identity 14:7610\n";

#[test]
fn orders_are_obeyed(rt: HostRuntime) {
    assert!(rt; are_answered(rt.alloc(), true, ORDERS, OBEYED));
}

#[test]
fn orders_are_forbidden(rt: HostRuntime) {
    assert!(rt; are_answered(rt.alloc(), false, ORDERS, FORBIDDEN));
}

/// The line of this mark.
fn line_of(alloc: Global, word: &[u8]) -> Option<Vec<u8>> {
    let mut line = Vec::new(alloc);
    line.extend_from_slice(b"mark ").ok()?;
    line.extend_from_slice(word).ok()?;
    Some(line)
}

/// Whether the word is read as a mark, with these bytes.
fn is_mark(alloc: Global, word: &[u8]) -> bool {
    let Some(line) = line_of(alloc, word) else {
        return false;
    };
    let said = parse_line(alloc, Station::new(3), line.as_slice());
    match &said {
        Ok(Line::Mark(mark)) => mark.as_slice() == word,
        _ => false,
    }
}

/// Whether the word is a bad value.
fn is_bad(alloc: Global, word: &[u8]) -> bool {
    let Some(line) = line_of(alloc, word) else {
        return false;
    };
    let is_bad = matches!(
        parse_line(alloc, Station::new(3), line.as_slice()),
        Ok(Line::Bad(LineFault::Value))
    );
    is_bad && Mark::new(word).is_none()
}

fn are_lengths_judged(alloc: Global) -> bool {
    is_mark(alloc, b"a")
        && is_mark(alloc, b"0123456789abcdef0123456789ABCDEF")
        && is_bad(alloc, b"0123456789abcdef0123456789ABCDEFx")
        && is_bad(alloc, b"")
}

fn are_bytes_judged(alloc: Global) -> bool {
    is_mark(alloc, b"!~")
        && is_bad(alloc, b"a\x1fb")
        && is_bad(alloc, b"a\t")
        && is_bad(alloc, b"\x7f")
        && is_bad(alloc, b"a\x80")
}

#[test]
fn marks_are_judged(rt: HostRuntime) {
    assert!(rt; are_lengths_judged(rt.alloc()) && are_bytes_judged(rt.alloc()));
}

fn is_mark_printed(alloc: Global) -> bool {
    let Some(mark) = Mark::new(b"here") else {
        return false;
    };
    let mut out = Vec::new(alloc);
    let answer: Answer<Global> = Answer::Marked(mark);
    let is_printed = print_answer(&mut out, &answer).is_ok();
    is_printed && out.as_slice() == b"mark here\n".as_slice() && !answer.is_trouble()
}

#[test]
fn marks_are_printed(rt: HostRuntime) {
    assert!(rt; is_mark_printed(rt.alloc()));
}
