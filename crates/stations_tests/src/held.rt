//! Two stations: the second one asks while the gate holds the commit of the first. Then two stations, of which the first one's reader
//! fails.
ghost use Rattle.std.specs.Prelude.{◌≡◌, false};

use crate::stores::new_store;
use console::{Ran, RunFault};
use flusher::Gate;
use probe_live_centre::{WatchedDisk, comes_to};
use recovery::Store;
use registration::Station;
use snapshots::{Centre, NewLog};
use stations::{Many, ManyTerms, Orders, Port, StationRun, Watch, run_many};
use std::alloc::Global;
use std::io;
use std::io::{ErrorKind, Read};
use std::marker::Brand;
use std::rt::Clock;
use std::sync::Wait;
use std::sync::atomic::{AtomicU64, Ordering};
use std::test::*;
use std::thread::Threads;

// The gate was entered with a command.
const ENTERED: u64 = 1;
// The second station has its answer.
const ANSWERED: u64 = 2;

const FIRST: &[u8] = b"2 10 mm 234-14-2001 7 10:260\n";

const SECOND: &[u8] = b"where 234-14-2001\n";

// How far both have come, and how many answers were shown.
#[derive(Drop)]
struct Stages {
    stage: AtomicU64,
    held: AtomicU64,
    shown: AtomicU64,
}

// Holds the first commit until the second station has its answer.
impl Gate for Stages {
    fn before_commit(&self, _round: u64, taken: usize) {
        if taken == 0 || self.stage.load(Ordering::SeqCst) >= ENTERED {
            return;
        }
        self.stage.store(ENTERED, Ordering::SeqCst);
        if comes_to(&self.stage, ANSWERED) {
            self.held.fetch_add(1, Ordering::SeqCst);
        }
    }
}

impl Watch for Stages {
    fn before_entry(&self, _station: Station) {}

    fn after_entry(&self, _station: Station) {}

    fn after_answer(&self, _station: Station, _is_accepted: bool) {
        self.shown.fetch_add(1, Ordering::SeqCst);
    }

    fn before_failure(&self, _station: Station) {}

    fn after_run(&self, _station: Station, _ran: &Result<Ran, RunFault>) {}
}

// What a reader does at its first call.
#[derive(Clone, Copy, PartialEq, Eq)]
enum First {
    Gives,
    Waits,
    Fails,
}

// Gives its line at the first call and the end at the next. It gives the line at once; or once the gate holds the other station's
// commit, which the next call releases; or the first call fails.
#[derive(Drop)]
struct Line<'a> {
    text: &'a [u8],
    first: First,
    stages: &'a Stages,
}

impl<'a> Read for Line<'a> {
    fn read(&mut self, buf: &mut [u8]) -> io::Result<usize> {
        if self.first == First::Fails {
            return Err(io::Error::from(ErrorKind::ConnectionReset));
        }
        let text = self.text;
        if text.is_empty() || buf.len() < text.len() {
            self.stages.stage.fetch_add(1, Ordering::SeqCst);
            return Ok(0);
        }
        if self.first == First::Waits && !comes_to(&self.stages.stage, ENTERED) {
            return Err(io::Error::from(ErrorKind::TimedOut));
        }
        self.text = &[];
        buf[..text.len()].copy_from_slice(text);
        Ok(text.len())
    }
}

// Whether this came of a station.
fn is_run(
    run: Option<&StationRun<Line<'_>, Vec<u8>>>,
    text: &[u8],
    ran: Result<Ran, RunFault>,
) -> bool {
    match run {
        Some(it) => it.writer.as_slice() == text && it.ran == ran,
        None => false,
    }
}

// One line without trouble.
fn one_line() -> Result<Ran, RunFault> {
    Ok(Ran {
        lines: 1,
        troubled: false,
    })
}

// How many commands its register has accepted, and whether these two runs came of it.
fn ends(
    many: &Many<WatchedDisk, Line<'_>, Vec<u8>>,
    first: (&[u8], Result<Ran, RunFault>),
    second: &[u8],
) -> Option<u64> {
    let register = many.store.register()?;
    let runs = many.runs.as_slice();
    let good = runs.len() == 2
        && is_run(runs.first(), first.0, first.1)
        && is_run(runs.get(1), second, one_line());
    if good { Some(register.count()) } else { None }
}

// A port of this line, whose answers wait in memory.
fn port_of<'a>(
    alloc: Global,
    text: &'a [u8],
    first: First,
    stages: &'a Stages,
) -> Port<Line<'a>, Vec<u8>> {
    Port {
        reader: Line {
            text,
            first,
            stages,
        },
        writer: Vec::new(alloc),
    }
}

// The runs of two stations. The first one's reader does this at its first call.
fn both<'a, J: Centre + Send + Sync, R: Threads + Wait + Clock + Sync>(
    rt: &R,
    terms: ManyTerms<'_>,
    store: Store<Global, WatchedDisk>,
    first: First,
    stages: &'a Stages,
) -> Option<Many<WatchedDisk, Line<'a>, Vec<u8>>>
    requires sound { store.broken ≡ false }
    requires centre { (terms.log.seen.book ≡ J.book) × (store.register ≡ J.base) }
{
    let second = if first == First::Fails {
        First::Gives
    } else {
        First::Waits
    };
    let ports = vec![in terms.alloc;
        port_of(terms.alloc, FIRST, first, stages),
        port_of(terms.alloc, SECOND, second, stages),
    ]
    .ok()?;
    match run_many::<J, WatchedDisk, R, Line, Vec<u8>, Stages>(rt, terms, store, ports, stages) {
        Ok(many) => Some(many),
        Err(unserved) => {
            drop(unserved);
            None
        }
    }
}

// The same over a new disk.
fn served<'a, R: Threads + Wait + Clock + Sync>(
    rt: &R,
    alloc: Global,
    first: First,
    stages: &'a Stages,
) -> Option<Many<WatchedDisk, Line<'a>, Vec<u8>>> {
    let store = new_store(alloc)?;
    let syncs = AtomicU64::new(0);
    let terms = ManyTerms {
        alloc,
        orders: Orders::OfAll,
        turns: 1_000,
        log: NewLog::new(),
        syncs: &syncs,
    };
    both::<Brand, R>(rt, terms, store, first, stages)
}

fn new_stages() -> Stages {
    Stages {
        stage: AtomicU64::new(0),
        held: AtomicU64::new(0),
        shown: AtomicU64::new(0),
    }
}

fn asked_while_held<R: Threads + Wait + Clock + Sync>(
    rt: &R,
    alloc: Global,
) -> Option<(u64, u64, u64)> {
    let stages = new_stages();
    let many = served(rt, alloc, First::Gives, &stages)?;
    let count = ends(
        &many,
        (b"2 ok 2 8:56\n", one_line()),
        b"where 234-14-2001 unknown\n",
    );
    drop(many);
    let held = stages.held.load(Ordering::SeqCst);
    Some((count?, held, stages.shown.load(Ordering::SeqCst)))
}

fn served_alone<R: Threads + Wait + Clock + Sync>(rt: &R, alloc: Global) -> Option<u64> {
    let stages = new_stages();
    let many = served(rt, alloc, First::Fails, &stages)?;
    let count = ends(
        &many,
        (b"", Err(RunFault::Read)),
        b"where 234-14-2001 unknown\n",
    );
    drop(many);
    count
}

#[test]
fn a_station_asks_while_the_commit_of_another_is_held(rt: HostRuntime) {
    assert_eq!(rt; asked_while_held(&rt, rt.alloc()), Some((2, 1, 2)));
}

#[test]
fn a_reader_that_fails_ends_its_station_alone(rt: HostRuntime) {
    assert_eq!(rt; served_alone(&rt, rt.alloc()), Some(1));
}
