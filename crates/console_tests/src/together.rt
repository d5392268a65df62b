//! Commands that come together: which of them a desk gets in one call, and how they are answered.
ghost use Rattle.std.specs.Prelude.{◌≤◌};

use crate::answered::{answers, put};
use crate::least_heap::least_heap;
use crate::limits::usual;
use centre_core::{Command, Query, QueryAnswer, Register, Reply};
use console::{Desk, Outage, run};
use linked_list_allocator::LocalHeap;
use listings::Listing;
use registration::Station;
use std::alloc::{Allocator, Global};
use std::cell::Cell;
use std::io;
use std::io::Read;

/// A register that takes a number of commands together. It keeps how many each call gave it, two digits a call.
#[derive(Drop)]
struct Counted<'a> {
    register: Register<Global>,
    together: usize,
    calls: &'a Cell<u64>,
    ghost some: { (1 ≤ together) × (together ≤ 64) },
}

impl<'a> Counted<'a> {
    fn note(&self, commands: usize) {
        let before = self.calls.get();
        self.calls
            .set(before.wrapping_mul(100).wrapping_add(commands as u64));
    }
}

impl<'a, A: Allocator + Copy> Desk<A> for Counted<'a> {
    ghost use Rattle.centre_core.specs.State.{State};
    ghost use Rattle.desk.specs.OfRegister.{of_register};

    ghost World = { State };

    ghost world = { λ desk. desk.register };

    ghost rules = { of_register };

    ghost most = { λ desk. desk.together };

    fn most_together(&self) -> usize {
        self.together
    }

    fn apply(&mut self, alloc: A, command: &Command<A>) -> Result<Reply<A>, Outage> {
        self.note(1);
        Desk::apply(&mut self.register, alloc, command)
    }

    fn apply_all(
        &mut self,
        alloc: A,
        commands: &[Command<A>],
        replies: &mut Vec<Result<Reply<A>, Outage>, A>,
    ) {
        self.note(commands.len());
        self.register.apply_all(alloc, commands, replies)
    }

    fn query(&mut self, alloc: A, query: &Query) -> Result<QueryAnswer<A>, Outage> {
        Desk::query(&mut self.register, alloc, query)
    }

    fn list(&mut self, listing: &Listing, out: &mut Vec<u8, A>) -> Result<(), Outage> {
        Desk::list(&mut self.register, listing, out)
    }
}

/// A reader that gives these pieces, one a call.
#[derive(Drop)]
struct Pieces<'a> {
    rest: &'a [&'a [u8]],
}

impl<'a> Read for Pieces<'a> {
    fn read(&mut self, buf: &mut [u8]) -> io::Result<usize> {
        let [piece, rest @ ..] = self.rest else {
            return Ok(0);
        };
        if buf.len() < piece.len() {
            return Ok(0);
        }
        self.rest = rest;
        buf[..piece.len()].copy_from_slice(piece);
        Ok(piece.len())
    }
}

/// What the lines of these pieces get at a new desk that takes so many commands together: the answers, and the calls.
fn served(alloc: Global, most: usize, pieces: &[&[u8]]) -> Option<(Vec<u8>, u64)> {
    let limits = usual()?;
    let calls = Cell::new(0);
    let mut desk = Counted {
        register: Register::new(alloc, limits).ok()?,
        together: most.max(1).min(64),
        calls: &calls,
    };
    let mut out = Vec::new(alloc);
    let mut reader = Pieces { rest: pieces };
    let ran = run(alloc, &mut reader, &mut out, Station::new(1), 99, &mut desk);
    drop(desk);
    match ran {
        Ok(_) => Some((out, calls.get())),
        Err(_) => None,
    }
}

/// Whether they get these answers by these calls.
fn are_served(alloc: Global, most: usize, pieces: &[&[u8]], answers: &str, calls: u64) -> bool {
    match served(alloc, most, pieces) {
        Some((out, seen)) => out.as_slice() == answers.as_bytes() && seen == calls,
        None => false,
    }
}

/// A query and a listing end what is done together, and see all commands before them. A bad line keeps its place.
const MIXED: &[u8] =
    b"1 0 expire\n2 0 expire\ncount\n3 0 expire\n4 0 expire\n5 0 expire\nlast 1\n6 0 expire\n6 0 expire\n6 0 expire x\n7 0 expire\n";

const MIXED_ANSWERS: &str =
    "1 ok 1 -\n2 ok 2 -\ncount 2\n3 ok 3 -\n4 ok 4 -\n5 ok 5 -\nlast 1 5 5 -\n6 ok 6 -\n6 kept 6 -\nline 10 bad syntax\n7 ok 7 -\n";

#[test]
fn a_query_and_a_listing_see_all_commands_before_them(rt: HostRuntime) {
    assert!(rt; are_served(rt.alloc(), 64, &[MIXED], MIXED_ANSWERS, 2_03_02_01));
}

/// A read may end within a line, and within a number. The line waits for the rest; those before it do not.
const CUT: [&[u8]; 4] = [
    b"1 0 expire\n2 0 expire\n3",
    b" 0 expire\n4 0 expire\n5 0 exp",
    b"ire\n",
    b"6 0 expire\n7 0 expire",
];

#[test]
fn a_line_that_is_cut_waits_alone(rt: HostRuntime) {
    let answers = "1 ok 1 -\n2 ok 2 -\n3 ok 3 -\n4 ok 4 -\n5 ok 5 -\n6 ok 6 -\n7 ok 7 -\n";
    assert!(rt; are_served(rt.alloc(), 64, &CUT, answers, 2_01_01_01_01_01));
}

/// Adds so many commands, and their answers.
fn add(lines: &mut Vec<u8>, answers: &mut Vec<u8>, commands: u64) -> Option<()> {
    for number in 1..=commands {
        put(lines, "", number, " 0 expire\n")?;
        put(answers, "", number, " ok ")?;
        put(answers, "", number, " -\n")?;
    }
    Some(())
}

/// The calls by which so many commands of one read come to a desk that takes so many together. `None` if an answer is wrong.
fn calls_of(alloc: Global, most: usize, commands: u64) -> Option<u64> {
    let (mut lines, mut answers) = (Vec::new(alloc), Vec::new(alloc));
    add(&mut lines, &mut answers, commands)?;
    let (out, calls) = served(alloc, most, &[lines.as_slice()])?;
    (out == answers).then_some(calls)
}

/// How many a desk takes together, how many come, and the calls.
const CALLS: [(usize, u64, u64); 6] = [
    (64, 63, 63),
    (64, 64, 64),
    (64, 65, 64_01),
    (64, 129, 64_64_01),
    (3, 8, 3_03_02),
    (1, 3, 1_01_01),
];

#[test]
fn a_desk_gets_at_most_what_it_takes(rt: HostRuntime) {
    for (most, commands, calls) in CALLS {
        assert!(rt;
            calls_of(rt.alloc(), most, commands) == Some(calls),
            "{commands}"
        );
    }
}

const HEAD: &[u8] = b"1 0 rule 234-14-0/24 1 99 1 3600\n2 10 mm 234-14-2001 7 10:260\n";

const HEAD_ANSWERS: &[u8] = b"1 ok 1 -\n2 ok 2 8:56\n";

/// The end of a PDU of 392 bits.
const ZEROS: &str =
    "00000000000000000000000000000000000000000000000000000000000000000000000000000000000000000000\n";

/// Messages to one radio, and their answers if memory suffices for one PDU at a time. Else each is out of memory.
fn add_messages(lines: &mut Vec<u8>, answers: &mut Vec<u8>, suffices: bool) -> Option<()> {
    for number in 3..9u64 {
        put(
            lines,
            "",
            number,
            " 20 sds 234-14-2001 234-14-2001 392:82000",
        )?;
        put(lines, "", number, ZEROS)?;
        put(answers, "", number, if suffices { " ok " } else { "" })?;
        if suffices {
            put(answers, "", number, " -\n")?;
        } else {
            answers.extend_from_slice(b" no memory\n").ok()?;
        }
    }
    Some(())
}

/// Whether they get these answers in a heap that has so many bytes more than a run reserves.
fn are_answered_with(alloc: Global, room: usize, suffices: bool) -> Option<bool> {
    let (mut lines, mut want) = (Vec::new(alloc), Vec::new(alloc));
    lines.extend_from_slice(HEAD).ok()?;
    want.extend_from_slice(HEAD_ANSWERS).ok()?;
    add_messages(&mut lines, &mut want, suffices)?;
    let heap = LocalHeap::new(alloc, least_heap(alloc)?.saturating_add(room)).ok()?;
    let limits = usual()?;
    let mut desk = Register::new(alloc, limits).ok()?;
    let out = answers(alloc, &heap, &mut desk, &lines);
    drop(desk);
    Some(out? == want)
}

/// Six PDUs of 49 bytes do not fit into 128. Each is read again once those before it are done.
#[test]
fn out_of_memory_ends_what_is_done_together(rt: HostRuntime) {
    assert!(rt; are_answered_with(rt.alloc(), 128, true) == Some(true));
    assert!(rt; are_answered_with(rt.alloc(), 32, false) == Some(true));
}
