//! Two stations with writers of their own. The first one's writer fails at its second answer, or at the answers to lines that came
//! together.
ghost use Rattle.std.specs.Prelude.{◌≡◌, ◌≤◌, false, length};

use crate::stores::new_store;
use console::{Ran, RunFault};
use flusher::Gate;
use probe_live_centre::WatchedDisk;
use recovery::Store;
use registration::Station;
use snapshots::{Centre, NewLog};
use stations::{Many, ManyTerms, Orders, Port, StationRun, Watch, run_many};
use std::alloc::Global;
use std::io;
use std::io::{ErrorKind, Read, Write};
use std::marker::Brand;
use std::rt::Clock;
use std::sync::Wait;
use std::sync::atomic::{AtomicU64, Ordering};
use std::test::*;
use std::thread::Threads;

// Station 1 has the sequence 1 already.
const FIRST: &[u8] = b"2 10 expire\n3 10 expire\n4 10 expire\n";

const SECOND: &[u8] = b"1 10 expire\n2 10 expire\n";

// Gives its lines one a call, or all at once.
#[derive(Drop)]
struct Lines<'a> {
    rest: &'a [u8],
    are_apart: bool,
}

// How many bytes the next call gives.
fn next_of(text: &[u8], are_apart: bool) -> usize
    ensures { result ≤ length text.now }
{
    if !are_apart {
        return text.len();
    }
    match text.iter().position(|byte| *byte == b'\n') {
        Some(end) if end < text.len() => end + 1,
        _ => text.len(),
    }
}

impl<'a> Read for Lines<'a> {
    fn read(&mut self, buf: &mut [u8]) -> io::Result<usize> {
        let text = self.rest;
        let count = next_of(text, self.are_apart);
        if buf.len() < count {
            return Ok(0);
        }
        let (given, rest) = text.split_at(count);
        buf[..count].copy_from_slice(given);
        self.rest = rest;
        Ok(count)
    }
}

// Keeps what is written, and fails once it has taken this many writes.
#[derive(Drop)]
struct Failing {
    text: Vec<u8>,
    left: u32,
}

impl Write for Failing {
    fn write(&mut self, buf: &[u8]) -> io::Result<usize> {
        if self.left == 0 {
            return Err(io::Error::from(ErrorKind::BrokenPipe));
        }
        self.left -= 1;
        self.text.write(buf)
    }

    fn flush(&mut self) -> io::Result<()> {
        Ok(())
    }
}

// The calls of a station in order, a digit each: an entry begins (1), is put (2), an answer (3), the end of the run (4).
#[derive(Drop)]
struct Calls {
    digits: AtomicU64,
}

impl Calls {
    fn add(&self, digit: u64) {
        let before = self.digits.load(Ordering::SeqCst);
        self.digits.store(
            before.wrapping_mul(10).wrapping_add(digit),
            Ordering::SeqCst,
        );
    }
}

// The calls of two stations.
#[derive(Drop)]
struct Shown {
    first: Calls,
    second: Calls,
}

impl Shown {
    fn of(&self, station: Station) -> &Calls {
        if station.number() == 1 {
            &self.first
        } else {
            &self.second
        }
    }
}

impl Gate for Shown {
    fn before_commit(&self, _round: u64, _taken: usize) {}
}

impl Watch for Shown {
    fn before_entry(&self, station: Station) {
        self.of(station).add(1);
    }

    fn after_entry(&self, station: Station) {
        self.of(station).add(2);
    }

    fn after_answer(&self, station: Station, is_accepted: bool) {
        if is_accepted {
            self.of(station).add(3);
        }
    }

    fn before_failure(&self, _station: Station) {}

    fn after_run(&self, station: Station, _ran: &Result<Ran, RunFault>) {
        self.of(station).add(4);
    }
}

// How the first station is served: whether its lines come apart, and how many writes its writer takes.
#[derive(Clone, Copy)]
struct First {
    are_apart: bool,
    writes: u32,
}

// The runs of two stations. All lines of the second come together.
fn both<J: Centre + Send + Sync, R: Threads + Wait + Clock + Sync>(
    rt: &R,
    terms: ManyTerms<'_>,
    store: Store<Global, WatchedDisk>,
    first: First,
    shown: &Shown,
) -> Option<Many<WatchedDisk, Lines<'static>, Failing>>
    requires sound { store.broken ≡ false }
    requires centre { (terms.log.seen.book ≡ J.book) × (store.register ≡ J.base) }
{
    let alloc = terms.alloc;
    let ports = vec![in alloc;
        Port {
            reader: Lines {
                rest: FIRST,
                are_apart: first.are_apart
            },
            writer: Failing {
                text: Vec::new(alloc),
                left: first.writes
            },
        },
        Port {
            reader: Lines {
                rest: SECOND,
                are_apart: false
            },
            writer: Failing {
                text: Vec::new(alloc),
                left: 9
            },
        },
    ]
    .ok()?;
    match run_many::<J, WatchedDisk, R, Lines, Failing, Shown>(rt, terms, store, ports, shown) {
        Ok(many) => Some(many),
        Err(unserved) => {
            drop(unserved);
            None
        }
    }
}

// The same over a new disk.
fn served<R: Threads + Wait + Clock + Sync>(
    rt: &R,
    alloc: Global,
    first: First,
    shown: &Shown,
) -> Option<Many<WatchedDisk, Lines<'static>, Failing>> {
    let store = new_store(alloc)?;
    let syncs = AtomicU64::new(0);
    let terms = ManyTerms {
        alloc,
        orders: Orders::OfAll,
        turns: 1_000,
        log: NewLog::new(),
        syncs: &syncs,
    };
    both::<Brand, R>(rt, terms, store, first, shown)
}

// Whether a run ended with this result, after answers of this many bytes with this beginning.
fn is_run(
    run: Option<&StationRun<Lines<'static>, Failing>>,
    (begins, bytes): (&[u8], usize),
    ran: Result<Ran, RunFault>,
) -> bool {
    match run {
        Some(it) => {
            let text = it.writer.text.as_slice();
            text.starts_with(begins) && text.len() == bytes && it.ran == ran
        }
        None => false,
    }
}

// How many commands the register of both has accepted, if the first one's answers have this many bytes with this beginning. The
// numbers in their answers depend on which of them was first.
fn accepted(
    many: &Many<WatchedDisk, Lines<'static>, Failing>,
    answered: (&[u8], usize),
) -> Option<u64> {
    let register = many.store.register()?;
    let runs = many.runs.as_slice();
    let whole = Ok(Ran {
        lines: 2,
        troubled: false,
    });
    let good = runs.len() == 2
        && is_run(runs.first(), answered, Err(RunFault::Write))
        && is_run(runs.get(1), (b"1 ok ", 18), whole);
    if good { Some(register.count()) } else { None }
}

// How many commands were accepted, and the calls of both stations.
fn written<R: Threads + Wait + Clock + Sync>(
    rt: &R,
    alloc: Global,
    first: First,
    answered: (&[u8], usize),
) -> Option<(u64, u64, u64)> {
    let shown = Shown {
        first: Calls {
            digits: AtomicU64::new(0),
        },
        second: Calls {
            digits: AtomicU64::new(0),
        },
    };
    let many = served(rt, alloc, first, &shown)?;
    let count = accepted(&many, answered);
    drop(many);
    let first = shown.first.digits.load(Ordering::SeqCst);
    let second = shown.second.digits.load(Ordering::SeqCst);
    Some((count?, first, second))
}

// The second command of station 1 is accepted, though its answer can't be written. The third one isn't read.
#[test]
fn a_writer_that_fails_ends_its_station_alone(rt: HostRuntime) {
    let first = First {
        are_apart: true,
        writes: 1,
    };
    assert_eq!(rt;
        written(&rt, rt.alloc(), first, (b"2 ok ", 9)),
        Some((5, 123_123_412, 1_233_412))
    );
}

// All commands of a call of its reader are accepted, though no answer can be written.
#[test]
fn a_writer_that_fails_leaves_lines_done_that_came_together(rt: HostRuntime) {
    let first = First {
        are_apart: false,
        writes: 0,
    };
    assert_eq!(rt;
        written(&rt, rt.alloc(), first, (b"", 0)),
        Some((6, 12_333_412, 1_233_412))
    );
}
