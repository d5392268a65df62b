//! Rounds that find the queue empty.
ghost use Rattle.std.specs.Prelude.{◌≡◌, false};
ghost use Rattle.flusher.specs.Served.{IsSettled};
ghost use Rattle.flusher.specs.View.{view_of_flusher};

use crate::centres::{centre, count};
use flusher::{Flusher, Gate};
use probe_live_centre::{WatchedDisk, end_all, opened, with_rule, worked_disk};
use recovery::Store;
use snapshots::{Centre, NewLog};
use std::alloc::Global;
use std::marker::Brand;
use std::sync::Wait;
use std::sync::atomic::{AtomicU64, Ordering};
use std::test::*;

// What the gate saw: how often it was called, the last round, and how many commands were taken.
#[derive(Drop)]
struct Rounds {
    calls: AtomicU64,
    round: AtomicU64,
    taken: AtomicU64,
}

impl Gate for Rounds {
    fn before_commit(&self, round: u64, taken: usize) {
        self.calls.fetch_add(1, Ordering::SeqCst);
        self.round.store(round, Ordering::SeqCst);
        self.taken.fetch_add(taken as u64, Ordering::SeqCst);
    }
}

// Makes two rounds; whether the gate was called in each, with no command taken.
fn are_idle<J: Centre, R: Wait>(rt: &R, flusher: &mut Flusher<J, WatchedDisk>) -> bool
    requires settled { IsSettled J.base (view_of_flusher flusher.old) }
    ensures settled { IsSettled J.base (view_of_flusher flusher.new) }
{
    let reported = Rounds {
        calls: AtomicU64::new(0),
        round: AtomicU64::new(0),
        taken: AtomicU64::new(0),
    };
    flusher.round(rt, &reported);
    flusher.round(rt, &reported);
    reported.calls.load(Ordering::SeqCst) == 2
        && reported.round.load(Ordering::SeqCst) == 2
        && reported.taken.load(Ordering::SeqCst) == 0
}

// How many commands a register has accepted, and how often its disk was written and synced.
fn left(store: Store<Global, WatchedDisk>) -> Option<(u64, u64, u64)> {
    let count = count(&store);
    let disk = store.into_disk();
    let (writes, syncs) = (disk.writes(), disk.syncs());
    drop(disk);
    Some((count?, writes, syncs))
}

fn idle<J: Centre, R: Wait>(
    rt: &R,
    alloc: Global,
    log: NewLog,
    store: Store<Global, WatchedDisk>,
) -> Option<(u64, u64, u64)>
    requires sound { store.broken ≡ false }
    requires centre { (log.seen.book ≡ J.book) × (store.register ≡ J.base) }
{
    let Some((mut flusher, sessions)) = centre::<J, R>(rt, alloc, log, store, 2) else {
        return None;
    };
    let idle = are_idle(rt, &mut flusher);
    let store = end_all(rt, flusher, sessions);
    let left = left(store);
    if idle { left } else { None }
}

fn idle_once<R: Wait>(rt: &R, alloc: Global) -> Option<(u64, u64, u64)> {
    let disk = with_rule(alloc, worked_disk(alloc, 4, 39, 400)?)?;
    let store = opened(alloc, disk)?;
    idle::<Brand, R>(rt, alloc, NewLog::new(), store)
}

#[test]
fn an_empty_round_commits_and_writes_nothing(rt: HostRuntime) {
    assert_eq!(rt; idle_once(&rt, rt.alloc()), Some((1, 0, 1)));
}
