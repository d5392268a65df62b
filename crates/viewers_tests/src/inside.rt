//! Viewers that are inside at the same time.
ghost use Rattle.std.specs.Prelude.{◌≡◌, ◌<◌, ◌≤◌};

use crate::publishing::{empty, publish_one};
use crate::turns::comes_to;
use centre_core::Register;
use probe_live_register::{LiveRegister, make_live};
use snapshots::{Centre, NewLog, Viewer};
use std::alloc::Global;
use std::marker::Brand;
use std::sync::Wait;
use std::sync::atomic::{AtomicU64, Ordering};
use std::test::*;
use std::thread;
use std::thread::Threads;

const VIEWERS: u64 = 3;

// Stays inside until all viewers are inside. Adds 1 to `good` if they were.
fn meet<J: Centre>(viewer: Viewer<J>, inside: &AtomicU64, good: &AtomicU64) {
    let Ok(visit) = viewer.enter() else {
        return;
    };
    inside.fetch_add(1, Ordering::SeqCst);
    if comes_to(inside, VIEWERS) {
        good.fetch_add(1, Ordering::SeqCst);
    }
    drop(visit.leave());
}

// Publishes one command while each viewer reads in a thread. True if every thread started and the command was published.
fn is_published<J: Centre + Send + Sync, R: Threads + Wait + Sync>(
    rt: &R,
    alloc: Global,
    live: &mut LiveRegister<J>,
    viewers: Vec<Viewer<J>>,
    good: &AtomicU64,
) -> bool {
    let inside = AtomicU64::new(0);
    let inside = &inside;
    thread::scope(thread::scope_env(), rt, |scope| {
        let mut started = true;
        for viewer in viewers {
            let thread = scope.spawn(move || meet(viewer, inside, good));
            started &= thread.is_ok();
        }
        started & publish_one(rt, alloc, live, 1)
    })
}

fn met<J: Centre + Send + Sync, R: Threads + Wait + Sync>(
    rt: &R,
    alloc: Global,
    log: NewLog,
    register: Register<Global>,
) -> Option<u64>
    requires centre { (log.seen.book ≡ J.book) × (register ≡ J.base) }
{
    let (mut live, viewers) = make_live::<J, R>(rt, alloc, log, register, 3).ok()?;
    let good = AtomicU64::new(0);
    let done = is_published(rt, alloc, &mut live, viewers, &good);
    live.close(rt);
    if done {
        Some(good.load(Ordering::SeqCst))
    } else {
        None
    }
}

fn are_met<R: Threads + Wait + Sync>(rt: &R, alloc: Global) -> Option<bool> {
    let register = empty(alloc, 1)?;
    Some(met::<Brand, R>(rt, alloc, NewLog::new(), register)? == VIEWERS)
}

#[test]
fn viewers_are_inside_at_the_same_time(rt: HostRuntime) {
    assert_eq!(rt; are_met(&rt, rt.alloc()), Some(true));
}
