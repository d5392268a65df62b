//! Closing a centre before its flusher has taken the ends of its sessions, and after it.
ghost use Rattle.std.specs.Prelude.{◌≡◌, ◌≤◌, [], ◌∷◌, false, length, vec_capacity};
ghost use Rattle.std.specs.List.{AllZip};
ghost use Rattle.flusher.specs.Closed.{AreSessionsOf, HasFinished};
ghost use Rattle.flusher.specs.Opened.{AreNewSessions};
ghost use Rattle.flusher.specs.Runs.{HasSameEnds};
ghost use Rattle.flusher.specs.Served.{IsSettled};
ghost use Rattle.flusher.specs.Sessions.{IsSameSession};
ghost use Rattle.flusher.specs.View.{view_of_flusher};

use crate::centres::count;
use flusher::{Answer, Ended, Flusher, Session, close, open_centre};
use probe_live_centre::{Idle, TURNS, WatchedDisk, expiry, opened, worked_disk};
use recovery::Store;
use snapshots::{Centre, NewLog};
use std::alloc::Global;
use std::marker::Brand;
use std::sync::Wait;
use std::sync::atomic::{AtomicU64, Ordering};
use std::test::*;
use std::thread;
use std::thread::{Threads, join_mut};

// Both sessions have their answers.
const ANSWERED: u64 = 1;
// No more rounds are made.
const OVER: u64 = 2;

// Submits a command of the session; whether it was accepted.
fn is_accepted<J: Centre, R: Wait>(rt: &R, session: &mut Session<J>) -> bool
    ensures { IsSameSession session.old session.new }
{
    let Some(command) = expiry(session.station(), 1) else {
        return false;
    };
    matches!(session.submit(rt, command), Answer::Accepted { .. })
}

// Submits a command of each, if rounds are still made; whether both were accepted.
fn are_accepted<J: Centre, R: Wait>(
    rt: &R,
    first: &mut Session<J>,
    second: &mut Session<J>,
    stage: &AtomicU64,
) -> bool
    ensures first { IsSameSession first.old first.new }
    ensures second { IsSameSession second.old second.new }
{
    if stage.load(Ordering::SeqCst) == OVER {
        return false;
    }
    let is_first = is_accepted(rt, first);
    let is_second = is_accepted(rt, second);
    stage.store(ANSWERED, Ordering::SeqCst);
    is_first && is_second
}

// Makes rounds until both have their answers.
fn serve<J: Centre, R: Wait>(rt: &R, flusher: &mut Flusher<J, WatchedDisk>, stage: &AtomicU64)
    requires settled { IsSettled J.base (view_of_flusher flusher.old) }
    ensures settled { IsSettled J.base (view_of_flusher flusher.new) }
    ensures same { HasSameEnds (view_of_flusher flusher.old) (view_of_flusher flusher.new) }
{
    for _ in 0..TURNS {
        if stage.load(Ordering::SeqCst) == ANSWERED {
            return;
        }
        flusher.round(rt, &Idle);
        thread::yield_now();
    }
    stage.store(OVER, Ordering::SeqCst);
}

// Makes rounds while both submit a command in another thread; whether both were accepted.
fn are_served<J: Centre + Send + Sync, R: Threads + Wait + Sync>(
    rt: &R,
    flusher: &mut Flusher<J, WatchedDisk>,
    first: &mut Session<J>,
    second: &mut Session<J>,
    stage: &AtomicU64,
) -> bool
    requires settled { IsSettled J.base (view_of_flusher flusher.old) }
    ensures settled { IsSettled J.base (view_of_flusher flusher.new) }
    ensures same { HasSameEnds (view_of_flusher flusher.old) (view_of_flusher flusher.new) }
    ensures first { IsSameSession first.old first.new }
    ensures second { IsSameSession second.old second.new }
{
    let (accepted, _) = join_mut(
        rt,
        &mut || -> bool
            ensures { IsSameSession first.entry.now first.exit.now × IsSameSession second.entry.now second.exit.now }
        { are_accepted(rt, first, second, stage) },
        &mut ||
            requires { IsSettled J.base (view_of_flusher flusher.now) }
            ensures { IsSettled J.base (view_of_flusher flusher.exit.now) × HasSameEnds (view_of_flusher flusher.entry.now) (view_of_flusher flusher.exit.now) }
        { serve(rt, flusher, stage) },
    );
    accepted
}

// The two sessions of a list.
fn two_of<J: Centre>(sessions: Vec<Session<J>>) -> (Session<J>, Session<J>)
    requires two { length sessions.items ≡ 2 }
    ensures { sessions.items ≡ result.0 ∷ result.1 ∷ [] }
{
    let mut sessions = sessions;
    let Some(second) = sessions.pop() else {
        unreachable!()
    };
    let Some(first) = sessions.pop() else {
        unreachable!()
    };
    (first, second)
}

// Ends both sessions. Their ends are then in the queue.
fn finish_both<J: Centre, R: Wait>(
    rt: &R,
    first: Session<J>,
    second: Session<J>,
    ended: Vec<Ended<J>>,
) -> Vec<Ended<J>>
    requires none { ended.items ≡ [] }
    requires room { 2 ≤ vec_capacity ended }
    ensures { AllZip HasFinished (first ∷ second ∷ []) result.items }
{
    let mut ended = ended;
    ended.push_reserved(first.finish(rt));
    ended.push_reserved(second.finish(rt));
    ended
}

// The store, if the centre closes after one more round.
fn closed_later<J: Centre, R: Wait>(
    rt: &R,
    flusher: Flusher<J, WatchedDisk>,
    ended: Vec<Ended<J>>,
) -> Option<Store<Global, WatchedDisk>>
    requires settled { IsSettled J.base (view_of_flusher flusher) }
    requires sessions { AreSessionsOf (view_of_flusher flusher) ended.items }
{
    let mut flusher = flusher;
    flusher.round(rt, &Idle);
    match close(rt, flusher, ended) {
        Ok(store) => Some(store),
        Err((flusher, ended)) => {
            drop(ended);
            drop(flusher.abandon(rt));
            None
        }
    }
}

// How many sessions come back with the flusher at once, and the store after one more round.
fn closed_twice<J: Centre, R: Wait>(
    rt: &R,
    flusher: Flusher<J, WatchedDisk>,
    ended: Vec<Ended<J>>,
) -> Option<(usize, Store<Global, WatchedDisk>)>
    requires settled { IsSettled J.base (view_of_flusher flusher) }
    requires sessions { AreSessionsOf (view_of_flusher flusher) ended.items }
{
    match close(rt, flusher, ended) {
        Ok(store) => {
            drop(store);
            None
        }
        Err((flusher, ended)) => {
            let back = ended.len();
            match closed_later(rt, flusher, ended) {
                Some(store) => Some((back, store)),
                None => None,
            }
        }
    }
}

// The same of a new centre of two sessions, once each has submitted a command and has ended. `None` if one was not accepted.
fn closed_new<J: Centre + Send + Sync, R: Threads + Wait + Sync>(
    rt: &R,
    flusher: Flusher<J, WatchedDisk>,
    sessions: Vec<Session<J>>,
    ended: Vec<Ended<J>>,
) -> Option<(usize, Store<Global, WatchedDisk>)>
    requires settled { IsSettled J.base (view_of_flusher flusher) }
    requires two { length (view_of_flusher flusher).senders ≡ 2 }
    requires sessions { AreNewSessions (view_of_flusher flusher).taker.queue (view_of_flusher flusher).senders sessions.items }
    requires none { ended.items ≡ [] }
    requires room { 2 ≤ vec_capacity ended }
{
    let mut flusher = flusher;
    let (mut first, mut second) = two_of(sessions);
    let stage = AtomicU64::new(0);
    let accepted = are_served(rt, &mut flusher, &mut first, &mut second, &stage);
    let ended = finish_both(rt, first, second, ended);
    let closed = closed_twice(rt, flusher, ended);
    if accepted {
        closed
    } else {
        drop(closed);
        None
    }
}

// The same over this store.
fn closed<J: Centre + Send + Sync, R: Threads + Wait + Sync>(
    rt: &R,
    alloc: Global,
    log: NewLog,
    store: Store<Global, WatchedDisk>,
) -> Option<(usize, Store<Global, WatchedDisk>)>
    requires sound { store.broken ≡ false }
    requires centre { (log.seen.book ≡ J.book) × (store.register ≡ J.base) }
{
    let Ok(ended) = Vec::with_capacity(alloc, 2) else {
        drop(store);
        return None;
    };
    match open_centre::<J, WatchedDisk, R>(rt, alloc, log, store, 2) {
        Ok((flusher, sessions)) => closed_new(rt, flusher, sessions, ended),
        Err(fault) => {
            drop(fault);
            None
        }
    }
}

// How many commands a store has, and how many the store that its disk opens to.
fn counts(alloc: Global, store: Store<Global, WatchedDisk>) -> Option<(u64, u64)> {
    let kept = count(&store);
    let disk = store.into_disk().into_inner().into_inner();
    let Some(store) = opened(alloc, disk) else {
        return None;
    };
    let opened = count(&store);
    drop(store);
    Some((kept?, opened?))
}

// How many sessions came back, and how many commands are in the store that came later and on its disk.
fn closed_once<R: Threads + Wait + Sync>(rt: &R, alloc: Global) -> Option<(usize, u64, u64)> {
    let store = opened(alloc, worked_disk(alloc, 4, 39, 400)?)?;
    let (back, store) = closed::<Brand, R>(rt, alloc, NewLog::new(), store)?;
    let (kept, opened) = counts(alloc, store)?;
    Some((back, kept, opened))
}

#[test]
fn closing_before_the_ends_are_taken_returns_the_sessions(rt: HostRuntime) {
    assert_eq!(rt; closed_once(&rt, rt.alloc()), Some((2, 2, 2)));
}
