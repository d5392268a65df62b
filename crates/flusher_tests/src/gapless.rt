//! 64 sessions, each in a thread of its own.
ghost use Rattle.std.specs.Prelude.{◌≡◌, false};

use crate::centres::{centre, count};
use flusher::{Answer, Gate, Session};
use probe_live_centre::{Task, WatchedDisk, end_all, expiry, opened, serve_beside, worked_disk};
use recovery::Store;
use snapshots::{Centre, NewLog};
use std::alloc::Global;
use std::marker::Brand;
use std::sync::Wait;
use std::sync::atomic::{AtomicU64, Ordering};
use std::test::*;
use std::thread;
use std::thread::Threads;

const SESSIONS: usize = 64;
// How many commands each submits.
const EACH: u32 = 200;
// How often the flusher lets other threads run before a round.
const PAUSES: u32 = 64;
// How many all submit.
const ALL: usize = 12_800;

// How often each number, from 1 on, was given; and how many sessions had all commands accepted, in order.
#[derive(Drop)]
struct Numbers {
    alloc: Global,
    given: Vec<AtomicU64>,
    good: AtomicU64,
}

// The number of an accepted command.
fn accepted<J: Centre, R: Wait>(rt: &R, session: &mut Session<J>, sequence: u32) -> Option<u64> {
    let command = expiry(session.station(), sequence)?;
    match session.submit(rt, command) {
        Answer::Accepted { number, .. } => Some(number),
        _ => None,
    }
}

impl Numbers {
    // Notes a number; whether it is in range.
    fn give(&self, number: u64) -> bool {
        if number == 0 || number > self.given.len() as u64 {
            return false;
        }
        self.given[number as usize - 1].fetch_add(1, Ordering::SeqCst);
        true
    }

    // Whether each number was given once.
    fn are_whole(&self) -> bool {
        for times in &self.given {
            if times.load(Ordering::SeqCst) != 1 {
                return false;
            }
        }
        true
    }

    // Submits all commands of a session; whether they were accepted in order.
    fn submit_all<J: Centre, R: Wait>(&self, rt: &R, session: &mut Session<J>) -> bool {
        let mut last: u64 = 0;
        for sequence in 1..=EACH {
            let Some(number) = accepted(rt, session, sequence) else {
                return false;
            };
            if number <= last || !self.give(number) {
                return false;
            }
            last = number;
        }
        true
    }
}

impl Gate for Numbers {
    fn before_commit(&self, _round: u64, _taken: usize) {}
}

impl<J: Centre> Task<J> for Numbers {
    // Lets the sessions run, so that each round finds the commands of several.
    fn before_round(&self) {
        for _ in 0..PAUSES {
            thread::yield_now();
        }
    }

    fn act<R: Wait>(&self, rt: &R, session: &mut Session<J>) {
        if self.submit_all(rt, session) {
            self.good.fetch_add(1, Ordering::SeqCst);
        }
    }
}

fn no_numbers(alloc: Global) -> Option<Numbers> {
    let mut given = Vec::with_capacity(alloc, ALL).ok()?;
    for _ in 0..ALL {
        given.push(AtomicU64::new(0)).ok()?;
    }
    Some(Numbers {
        alloc,
        given,
        good: AtomicU64::new(0),
    })
}

// How many commands a register has accepted, and how often its disk was synced.
fn left(store: Store<Global, WatchedDisk>) -> Option<(u64, u64)> {
    let count = count(&store);
    let disk = store.into_disk();
    let syncs = disk.syncs();
    drop(disk);
    Some((count?, syncs))
}

fn numbered<J: Centre + Send + Sync, R: Threads + Wait + Sync>(
    rt: &R,
    log: NewLog,
    store: Store<Global, WatchedDisk>,
    numbers: &Numbers,
) -> Option<(u64, u64)>
    requires sound { store.broken ≡ false }
    requires centre { (log.seen.book ≡ J.book) × (store.register ≡ J.base) }
{
    let alloc = numbers.alloc;
    let Some((mut flusher, mut sessions)) = centre::<J, R>(rt, alloc, log, store, SESSIONS) else {
        return None;
    };
    let done = serve_beside(rt, &mut flusher, &mut sessions, numbers);
    let left = left(end_all(rt, flusher, sessions));
    let good = numbers.good.load(Ordering::SeqCst) == SESSIONS as u64;
    if done && good && numbers.are_whole() {
        left
    } else {
        None
    }
}

// With two syncs for each command there would be 25,600.
fn is_gapless<R: Threads + Wait + Sync>(rt: &R, alloc: Global) -> Option<bool> {
    let numbers = no_numbers(alloc)?;
    let store = opened(alloc, worked_disk(alloc, 64, 8_192, 40_000)?)?;
    let (count, syncs) = numbered::<Brand, R>(rt, NewLog::new(), store, &numbers)?;
    Some(count == 12_800 && syncs < 6_400)
}

#[test]
fn numbers_are_without_gaps(rt: HostRuntime) {
    assert_eq!(rt; is_gapless(&rt, rt.alloc()), Some(true));
}
