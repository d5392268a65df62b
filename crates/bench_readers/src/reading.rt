//! Times viewers that read while a publisher publishes all the time, and a loop of queries of a plain register.
ghost use Rattle.std.specs.Prelude.{◌≡◌};

use crate::filling::{RADIOS, attach, empty, is_filled};
use centre_core::{Query, Register};
use probe_live_register::{LiveRegister, itsi, make_live};
use snapshots::{Centre, NewLog, Viewer};
use std::alloc::Global;
use std::marker::Brand;
use std::rt::Clock;
use std::sync::Wait;
use std::sync::atomic::{AtomicU64, Ordering};
use std::thread;
use std::thread::Threads;
use std::time::{Duration, Instant};

// How often each viewer reads.
const READS: u32 = 1_000_000;

// What a failed read adds: more than there are viewers.
const FAILED: u64 = 1_000;

// How often all is measured.
const ROUNDS: u32 = 5;

// The query of this number: where one of the radios is.
fn query(k: u32) -> Option<Query> {
    Some(Query::Whereabouts(itsi(2 + k % RADIOS)?))
}

// Reads `READS` times; whether each read had an answer.
fn is_read<J: Centre>(viewer: Viewer<J>, alloc: Global) -> bool {
    let mut viewer = viewer;
    for k in 0..READS {
        let Some(query) = query(k) else {
            return false;
        };
        if viewer.read(alloc, &query).is_err() {
            return false;
        }
    }
    true
}

// Reads, and then adds 1 to `ended`, or `FAILED` if a read had no answer.
fn read_all<J: Centre>(viewer: Viewer<J>, alloc: Global, ended: &AtomicU64) {
    let step = if is_read(viewer, alloc) { 1 } else { FAILED };
    ended.fetch_add(step, Ordering::SeqCst);
}

// Publishes one command after the other until `viewers` viewers have ended; how many it published.
fn published<J: Centre, R: Wait>(
    rt: &R,
    alloc: Global,
    live: &mut LiveRegister<J>,
    ended: &AtomicU64,
    viewers: u64,
) -> Option<u32> {
    let mut number = RADIOS;
    for _ in 0..u64::MAX {
        if ended.load(Ordering::SeqCst) >= viewers {
            break;
        }
        number = number.checked_add(1)?;
        if !live.apply(attach(alloc, number)?) || live.publish(rt).is_err() {
            return None;
        }
    }
    Some(number.saturating_sub(RADIOS))
}

// Publishes while each viewer reads in a thread; how many commands were published meanwhile.
fn read_beside<J: Centre + Send + Sync, R: Threads + Wait + Sync>(
    rt: &R,
    alloc: Global,
    live: &mut LiveRegister<J>,
    viewers: Vec<Viewer<J>>,
    ended: &AtomicU64,
) -> Option<u32> {
    thread::scope(thread::scope_env(), rt, |scope| {
        let mut started: u64 = 0;
        for viewer in viewers {
            let thread = scope.spawn(move || read_all(viewer, alloc, ended));
            started = started.saturating_add(u64::from(thread.is_ok()));
        }
        published(rt, alloc, live, ended, started)
    })
}

// What was measured: how many viewers read, how long that took, and how many commands were published meanwhile.
#[derive(Clone, Copy, Drop)]
struct Measured {
    viewers: u64,
    took: Duration,
    published: u32,
}

fn timed<J: Centre + Send + Sync, R: Threads + Wait + Clock + Sync>(
    rt: &R,
    alloc: Global,
    log: NewLog,
    register: Register<Global>,
    places: usize,
) -> Option<Measured>
    requires centre { (log.seen.book ≡ J.book) × (register ≡ J.base) }
{
    let (mut live, viewers) = make_live::<J, R>(rt, alloc, log, register, places).ok()?;
    let timed = time(rt, alloc, &mut live, viewers);
    live.close(rt);
    timed
}

fn time<J: Centre + Send + Sync, R: Threads + Wait + Clock + Sync>(
    rt: &R,
    alloc: Global,
    live: &mut LiveRegister<J>,
    viewers: Vec<Viewer<J>>,
) -> Option<Measured> {
    if !is_filled(rt, alloc, live) {
        return None;
    }
    let ended = AtomicU64::new(0);
    let start = Instant::now(rt).ok()?;
    let published = read_beside(rt, alloc, live, viewers, &ended)?;
    let took = start.elapsed(rt).ok()?;
    Some(Measured {
        viewers: ended.load(Ordering::SeqCst),
        took,
        published,
    })
}

// The same for a filled register of its own.
fn timed_with<R: Threads + Wait + Clock + Sync>(
    rt: &R,
    alloc: Global,
    places: usize,
) -> Option<Measured> {
    let register = empty(alloc)?;
    timed::<Brand, R>(rt, alloc, NewLog::new(), register, places)
}

// How long `READS` queries of a plain register take.
fn queried<R: Clock>(rt: &R, alloc: Global, register: &Register<Global>) -> Option<Duration> {
    let start = Instant::now(rt).ok()?;
    for k in 0..READS {
        let query = query(k)?;
        if register.query(alloc, &query).is_err() {
            return None;
        }
    }
    start.elapsed(rt).ok()
}

// Sets the rule and attaches all radios but one; whether both were done.
fn is_attached(alloc: Global, register: &mut Register<Global>) -> bool {
    for number in 1..=RADIOS {
        let Some(command) = attach(alloc, number) else {
            return false;
        };
        if register.apply(alloc, &command).is_err() {
            return false;
        }
    }
    true
}

// The same, after the radios are attached.
fn queried_after<R: Clock>(
    rt: &R,
    alloc: Global,
    register: &mut Register<Global>,
) -> Option<Duration> {
    if !is_attached(alloc, register) {
        return None;
    }
    queried(rt, alloc, register)
}

// Prints a line: what was timed, how many reads, how many nanoseconds, and how many commands were published meanwhile.
fn is_reported<R: Print>(rt: &R, what: &str, reads: u64, took: Duration, published: u32) -> bool {
    let nanoseconds = took.as_nanos();
    println!(rt; "{what} {reads} {nanoseconds} {published}").is_ok()
}

fn is_timed<R: Threads + Wait + Clock + Print + Sync>(
    rt: &R,
    alloc: Global,
    what: &str,
    places: usize,
) -> bool {
    let Some(timed) = timed_with(rt, alloc, places) else {
        return false;
    };
    let reads = timed.viewers.saturating_mul(u64::from(READS));
    is_reported(rt, what, reads, timed.took, timed.published)
}

fn is_queried<R: Clock + Print>(rt: &R, alloc: Global) -> bool {
    let Some(mut register) = empty(alloc) else {
        return false;
    };
    let took = queried_after(rt, alloc, &mut register);
    drop(register);
    match took {
        Some(took) => is_reported(rt, "plain", u64::from(READS), took, 0),
        None => false,
    }
}

/// In each round it prints a line for one viewer, for three, and for the plain register; whether all were measured.
pub fn report<R: Threads + Wait + Clock + Print + Sync>(rt: &R, alloc: Global) -> bool {
    for _ in 0..ROUNDS {
        let reported = is_timed(rt, alloc, "one", 1)
            && is_timed(rt, alloc, "three", 3)
            && is_queried(rt, alloc);
        if !reported {
            return false;
        }
    }
    true
}
