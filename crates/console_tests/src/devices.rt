//! Runs over lines of any length. Readers give a byte at a time, or fail; writers take a byte at a time, or fail. A line is
//! answered before the next one is read.

use crate::limits::usual;
use centre_core::Register;
use console::{Ran, RunFault, run};
use registration::Station;
use std::alloc::Global;
use std::cell::Cell;
use std::io;
use std::io::{ErrorKind, Read, Write};

/// How a run over a new register ends, with so many turns, and how many commands were accepted; `None` if there is no register.
fn over<R: Read, W: Write>(
    alloc: Global,
    turns: u32,
    reader: &mut R,
    writer: &mut W,
) -> Option<(Result<Ran, RunFault>, u64)> {
    let limits = usual()?;
    let mut desk = Register::new(alloc, limits).ok()?;
    let ran = run(alloc, reader, writer, Station::new(1), turns, &mut desk);
    let count = desk.count();
    drop(desk);
    Some((ran, count))
}

/// A line of so many bytes, with this text after it.
fn line_of(alloc: Global, length: usize, end: &str) -> Option<Vec<u8>> {
    let mut lines = Vec::new(alloc);
    let is_long = lines.resize(length, b'#').is_ok()
        && lines.extend_from_slice(end.as_bytes()).is_ok();
    is_long.then_some(lines)
}

/// Whether such lines get these answers.
fn is_answered(alloc: Global, length: usize, end: &str, answer: &str) -> Option<bool> {
    let lines = line_of(alloc, length, end)?;
    let mut reader = lines.as_slice();
    let mut out = Vec::new(alloc);
    let ran = over(alloc, 9, &mut reader, &mut out);
    Some(matches!(ran, Some((Ok(_), _))) && out.as_slice() == answer.as_bytes())
}

const LENGTHS: [(usize, &str, &str); 7] = [
    (1024, "\n", ""),
    (1024, "\r\n", ""),
    (1024, "", ""),
    (1024, "\r", "line 1 bad too-long\n"),
    (1025, "\n", "line 1 bad too-long\n"),
    (1025, "\r\n", "line 1 bad too-long\n"),
    (70_000, "\ncount\n", "line 1 bad too-long\ncount 0\n"),
];

#[test]
fn lines_have_at_most_1024_bytes(rt: HostRuntime) {
    for (length, end, answer) in LENGTHS {
        assert!(rt;
            is_answered(rt.alloc(), length, end, answer) == Some(true),
            "{length}"
        );
    }
}

/// A reader that gives one byte a call. It may be interrupted at every second call.
#[derive(Drop)]
struct Slow<'a> {
    rest: &'a [u8],
    interrupts: bool,
    due: bool,
}

impl<'a> Read for Slow<'a> {
    fn read(&mut self, buf: &mut [u8]) -> io::Result<usize> {
        if self.interrupts {
            self.due = !self.due;
            if self.due {
                return Err(io::Error::from(ErrorKind::Interrupted));
            }
        }
        match (self.rest, buf) {
            ([first, rest @ ..], [place, ..]) => {
                *place = *first;
                self.rest = rest;
                Ok(1)
            }
            _ => Ok(0),
        }
    }
}

/// A writer that takes an expected text, one byte a call, and fails at any other byte. It may be interrupted at every second
/// call.
#[derive(Drop)]
struct Sparing<'a> {
    due: &'a [u8],
    interrupts: bool,
    turn: bool,
}

impl<'a> Write for Sparing<'a> {
    fn write(&mut self, buf: &[u8]) -> io::Result<usize> {
        if self.interrupts {
            self.turn = !self.turn;
            if self.turn {
                return Err(io::Error::from(ErrorKind::Interrupted));
            }
        }
        match (self.due, buf) {
            ([byte, rest @ ..], [first, ..]) if byte == first => {
                self.due = rest;
                Ok(1)
            }
            _ => Err(io::Error::from(ErrorKind::BrokenPipe)),
        }
    }

    fn flush(&mut self) -> io::Result<()> {
        Ok(())
    }
}

/// How a run with so many turns over a slow reader ends, and how many bytes it writes.
fn over_a_slow_reader(
    alloc: Global,
    turns: u32,
    interrupts: bool,
) -> Option<(Result<Ran, RunFault>, usize)> {
    let mut reader = Slow {
        rest: b"count\n",
        interrupts,
        due: false,
    };
    let mut out = Vec::new(alloc);
    let ran = over(alloc, turns, &mut reader, &mut out);
    match ran {
        Some((ran, _)) => Some((ran, out.len())),
        None => None,
    }
}

const ONE_LINE: Result<Ran, RunFault> = Ok(Ran {
    lines: 1,
    troubled: false,
});

/// So many turns, whether each other call is interrupted, and how the run ends.
const TURNS: [(u32, bool, Result<Ran, RunFault>); 5] = [
    (3, false, Err(RunFault::Read)),
    (6, false, Err(RunFault::Read)),
    (7, false, ONE_LINE),
    (13, true, Err(RunFault::Read)),
    (14, true, ONE_LINE),
];

fn is_bound(alloc: Global, turns: u32, interrupts: bool, want: Result<Ran, RunFault>) -> bool {
    match over_a_slow_reader(alloc, turns, interrupts) {
        Some((ran, written)) => ran == want && (written == 0) == (turns < 6),
        None => false,
    }
}

#[test]
fn turns_bound_the_calls(rt: HostRuntime) {
    for (turns, interrupts, want) in TURNS {
        assert!(rt; is_bound(rt.alloc(), turns, interrupts, want), "{turns}");
    }
}

const LINES: &str = "1 0 rule 234-14-0/24 1 99 1 3600\n1 0 expire\nx\ncount\n";

const ANSWERS: &str = "1 ok 1 -\n1 kept 1 -\nline 3 bad syntax\ncount 1\n";

const FOUR_LINES: Result<Ran, RunFault> = Ok(Ran {
    lines: 4,
    troubled: true,
});

/// How a run ends whose writer takes so many bytes of the answers, one a call; none if it hasn't taken them all.
fn over_a_sparing_writer(
    alloc: Global,
    room: usize,
    interrupts: bool,
) -> Option<Result<Ran, RunFault>> {
    let mut reader = LINES.as_bytes();
    let mut writer = Sparing {
        due: &ANSWERS.as_bytes()[..room.min(ANSWERS.len())],
        interrupts,
        turn: false,
    };
    match over(alloc, 9, &mut reader, &mut writer) {
        Some((ran, _)) if writer.due.is_empty() => Some(ran),
        _ => None,
    }
}

#[test]
fn a_writer_fails(rt: HostRuntime) {
    for room in 0..46usize {
        let ran = over_a_sparing_writer(rt.alloc(), room, false);
        assert!(rt; ran == Some(Err(RunFault::Write)), "{room}");
    }
}

#[test]
fn a_writer_takes_a_byte_a_call(rt: HostRuntime) {
    for interrupts in [false, true] {
        let ran = over_a_sparing_writer(rt.alloc(), 46, interrupts);
        assert!(rt; ran == Some(FOUR_LINES), "{interrupts}");
    }
}

/// A reader that gives one line a call, if the line before is answered, and then the end. It knows whether it was called
/// after that.
#[derive(Drop)]
struct Asking<'a> {
    calls: usize,
    ended: bool,
    answered: &'a Cell<usize>,
    asked_late: &'a Cell<bool>,
}

impl<'a> Read for Asking<'a> {
    fn read(&mut self, buf: &mut [u8]) -> io::Result<usize> {
        if self.ended {
            self.asked_late.set(true);
        }
        if self.answered.get() < self.calls {
            return Err(io::Error::from(ErrorKind::TimedOut));
        }
        if self.calls == 5 || buf.len() < 6 {
            self.ended = true;
            return Ok(0);
        }
        self.calls = self.calls.saturating_add(1);
        buf[..6].copy_from_slice(b"count\n");
        Ok(6)
    }
}

/// A writer that counts the lines that were flushed.
#[derive(Drop)]
struct Counting<'a> {
    lines: usize,
    answered: &'a Cell<usize>,
}

impl<'a> Write for Counting<'a> {
    fn write(&mut self, buf: &[u8]) -> io::Result<usize> {
        for byte in buf {
            if *byte == b'\n' {
                self.lines = self.lines.saturating_add(1);
            }
        }
        Ok(buf.len())
    }

    fn flush(&mut self) -> io::Result<()> {
        self.answered.set(self.lines);
        Ok(())
    }
}

/// How a run over five lines ends, and whether its reader was called after its end.
fn over_five_lines(alloc: Global) -> Option<(Result<Ran, RunFault>, bool)> {
    let answered = Cell::new(0);
    let asked_late = Cell::new(false);
    let mut reader = Asking {
        calls: 0,
        ended: false,
        answered: &answered,
        asked_late: &asked_late,
    };
    let mut writer = Counting {
        lines: 0,
        answered: &answered,
    };
    match over(alloc, 99, &mut reader, &mut writer) {
        Some((ran, _)) => Some((ran, asked_late.get())),
        None => None,
    }
}

const FIVE_LINES: Result<Ran, RunFault> = Ok(Ran {
    lines: 5,
    troubled: false,
});

#[test]
fn a_line_is_answered_before_the_next(rt: HostRuntime) {
    assert!(rt; over_five_lines(rt.alloc()) == Some((FIVE_LINES, false)));
}

/// A reader that gives these pieces, and then fails.
#[derive(Drop)]
struct Broken<'a> {
    parts: &'a [&'a str],
}

impl<'a> Read for Broken<'a> {
    fn read(&mut self, buf: &mut [u8]) -> io::Result<usize> {
        let [part, parts @ ..] = self.parts else {
            return Err(io::Error::from(ErrorKind::ConnectionReset));
        };
        if buf.len() < part.len() {
            return Ok(0);
        }
        self.parts = parts;
        buf[..part.len()].copy_from_slice(part.as_bytes());
        Ok(part.len())
    }
}

/// Whether the lines that were read are answered, and their commands accepted.
fn fails_when_broken(alloc: Global) -> bool {
    let mut reader = Broken {
        parts: &[
            "1 0 rule 234-14-0/24 1 99 1 3600\n2 0 expire\n",
            "count\n3 10 mm 234-14",
        ],
    };
    let mut out = Vec::new(alloc);
    let ran = over(alloc, 9, &mut reader, &mut out);
    let answers = b"1 ok 1 -\n2 ok 2 -\ncount 2\n".as_slice();
    ran == Some((Err(RunFault::Read), 2)) && out.as_slice() == answers
}

#[test]
fn a_reader_fails(rt: HostRuntime) {
    assert!(rt; fails_when_broken(rt.alloc()));
}
