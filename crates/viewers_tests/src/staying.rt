//! A viewer that stays inside while two commands are published.
ghost use Rattle.std.specs.Prelude.{◌≡◌, ◌<◌, ◌≤◌};

use crate::publishing::{empty, is_after, publish_one, visited};
use crate::turns::{TURNS, comes_to, rest};
use centre_core::Register;
use probe_live_register::{LiveRegister, make_live};
use snapshots::{Centre, NewLog, Viewer, Visit};
use std::alloc::Global;
use std::marker::Brand;
use std::sync::Wait;
use std::sync::atomic::{AtomicU64, Ordering};
use std::test::*;
use std::thread;
use std::thread::Threads;

// The viewer is inside.
const INSIDE: u64 = 1;
// The first publication has ended, and the second begins.
const SECOND: u64 = 2;
// The viewer saw what it should see.
const GOOD: u64 = 3;

// Stays inside until the second publication has begun, and a while longer; whether the copy stayed as it was.
fn is_as_it_was<J: Centre>(visit: &Visit<J>, alloc: Global, stage: &AtomicU64) -> bool {
    stage.store(INSIDE, Ordering::SeqCst);
    let came = comes_to(stage, SECOND);
    rest();
    came && is_after(visit, alloc, 0)
}

// Reads until both commands are published. False if they never were.
fn is_caught_up<J: Centre>(viewer: Viewer<J>, alloc: Global) -> bool {
    let mut viewer = viewer;
    for _ in 0..TURNS {
        let (next, found) = visited(viewer, alloc);
        viewer = next;
        if found == Some(2) {
            return true;
        }
        thread::yield_now();
    }
    false
}

// Sets the stage to `GOOD` if the viewer saw no command while it stayed, and both afterwards.
fn stay<J: Centre>(viewer: Viewer<J>, alloc: Global, stage: &AtomicU64) {
    let Ok(visit) = viewer.enter() else {
        return;
    };
    let stayed = is_as_it_was(&visit, alloc, stage);
    if is_caught_up(visit.leave(), alloc) && stayed {
        stage.store(GOOD, Ordering::SeqCst);
    }
}

// Publishes one command while the viewer is inside, and then another one; whether both were published.
fn publish_two<J: Centre, R: Wait>(
    rt: &R,
    alloc: Global,
    live: &mut LiveRegister<J>,
    stage: &AtomicU64,
) -> bool {
    let came = comes_to(stage, INSIDE);
    let first = came && publish_one(rt, alloc, live, 1);
    stage.store(SECOND, Ordering::SeqCst);
    first && publish_one(rt, alloc, live, 2)
}

// Publishes two commands while the viewer stays in a thread. True if the thread started and both were published.
fn is_published<J: Centre + Send + Sync, R: Threads + Wait + Sync>(
    rt: &R,
    alloc: Global,
    live: &mut LiveRegister<J>,
    viewers: Vec<Viewer<J>>,
    stage: &AtomicU64,
) -> bool {
    thread::scope(thread::scope_env(), rt, |scope| {
        let mut started = true;
        for viewer in viewers {
            let thread = scope.spawn(move || stay(viewer, alloc, stage));
            started &= thread.is_ok();
        }
        started & publish_two(rt, alloc, live, stage)
    })
}

fn stayed<J: Centre + Send + Sync, R: Threads + Wait + Sync>(
    rt: &R,
    alloc: Global,
    log: NewLog,
    register: Register<Global>,
) -> Option<u64>
    requires centre { (log.seen.book ≡ J.book) × (register ≡ J.base) }
{
    let (mut live, viewers) = make_live::<J, R>(rt, alloc, log, register, 1).ok()?;
    let stage = AtomicU64::new(0);
    let done = is_published(rt, alloc, &mut live, viewers, &stage);
    live.close(rt);
    if done {
        Some(stage.load(Ordering::SeqCst))
    } else {
        None
    }
}

fn is_kept<R: Threads + Wait + Sync>(rt: &R, alloc: Global) -> Option<bool> {
    let register = empty(alloc, 2)?;
    Some(stayed::<Brand, R>(rt, alloc, NewLog::new(), register)? == GOOD)
}

#[test]
fn a_copy_stays_while_a_viewer_is_inside(rt: HostRuntime) {
    assert_eq!(rt; is_kept(&rt, rt.alloc()), Some(true));
}
