//! One publisher, and viewers in threads of their own, over a register that grows.
ghost use Rattle.std.specs.Prelude.{◌≡◌};

use crate::publishing::{empty, publish_all, visited};
use crate::turns::TURNS;
use centre_core::{Query, QueryAnswer, Register};
use probe_live_register::{LiveRegister, make_live};
use snapshots::{Centre, NewLog, Viewer};
use std::alloc::Global;
use std::marker::Brand;
use std::sync::Wait;
use std::sync::atomic::{AtomicU64, Ordering};
use std::test::*;
use std::thread;
use std::thread::Threads;

// How many commands are published, each by itself.
const COMMANDS: u32 = 200;

// Reads once: the length of the list, if the register has accepted exactly that many commands.
fn counted<J: Centre>(viewer: &mut Viewer<J>, alloc: Global) -> Option<u32> {
    match viewer.read(alloc, &Query::Total) {
        Ok((QueryAnswer::Total(total), count)) if total == count => u32::try_from(count).ok(),
        _ => None,
    }
}

// Reads twice: the length of the second list, if neither list is shorter than the one seen before it.
fn read_twice<J: Centre>(viewer: Viewer<J>, alloc: Global, seen: u32) -> (Viewer<J>, Option<u32>) {
    let mut viewer = viewer;
    let first = counted(&mut viewer, alloc);
    let (viewer, second) = visited(viewer, alloc);
    match (first, second) {
        (Some(first), Some(second)) if seen <= first && first <= second => (viewer, Some(second)),
        _ => (viewer, None),
    }
}

// Reads until all commands are published. True if no list was shorter than an earlier one, and each copy was the register
// after its list.
fn is_never_shorter<J: Centre>(viewer: Viewer<J>, alloc: Global) -> bool {
    let mut viewer = viewer;
    let mut seen = 0;
    let mut turns: u32 = 0;
    for _ in 0..u64::MAX {
        if seen >= COMMANDS || turns == TURNS {
            break;
        }
        let (next, found) = read_twice(viewer, alloc, seen);
        viewer = next;
        let Some(count) = found else {
            return false;
        };
        turns = if count > seen {
            0
        } else {
            turns.saturating_add(1)
        };
        seen = count;
        thread::yield_now();
    }
    seen == COMMANDS
}

// Adds 1 to `good` if the viewer saw what it should see.
fn watch<J: Centre>(viewer: Viewer<J>, alloc: Global, good: &AtomicU64) {
    if is_never_shorter(viewer, alloc) {
        good.fetch_add(1, Ordering::SeqCst);
    }
}

// Publishes all commands while each viewer reads in a thread. True if every thread started and all was published.
fn is_published<J: Centre + Send + Sync, R: Threads + Wait + Sync>(
    rt: &R,
    alloc: Global,
    live: &mut LiveRegister<J>,
    viewers: Vec<Viewer<J>>,
    good: &AtomicU64,
) -> bool {
    thread::scope(thread::scope_env(), rt, |scope| {
        let mut started = true;
        for viewer in viewers {
            let thread = scope.spawn(move || watch(viewer, alloc, good));
            started &= thread.is_ok();
        }
        started & publish_all(rt, alloc, live, COMMANDS)
    })
}

// How many viewers saw what they should see, if all was published.
fn followed<J: Centre + Send + Sync, R: Threads + Wait + Sync>(
    rt: &R,
    alloc: Global,
    log: NewLog,
    register: Register<Global>,
    places: usize,
) -> Option<u64>
    requires centre { (log.seen.book ≡ J.book) × (register ≡ J.base) }
{
    let (mut live, viewers) = make_live::<J, R>(rt, alloc, log, register, places).ok()?;
    let good = AtomicU64::new(0);
    let done = is_published(rt, alloc, &mut live, viewers, &good)
        && live.publisher().is_caught_up();
    live.close(rt);
    if done {
        Some(good.load(Ordering::SeqCst))
    } else {
        None
    }
}

fn followed_by<R: Threads + Wait + Sync>(rt: &R, alloc: Global, places: usize) -> Option<u64> {
    let register = empty(alloc, COMMANDS)?;
    followed::<Brand, R>(rt, alloc, NewLog::new(), register, places)
}

#[test]
fn one_viewer_sees_a_list_that_grows(rt: HostRuntime) {
    assert_eq!(rt; followed_by(&rt, rt.alloc(), 1), Some(1));
}

#[test]
fn three_viewers_see_a_list_that_grows(rt: HostRuntime) {
    assert_eq!(rt; followed_by(&rt, rt.alloc(), 3), Some(3));
}

#[test]
fn sixty_four_viewers_see_a_list_that_grows(rt: HostRuntime) {
    assert_eq!(rt; followed_by(&rt, rt.alloc(), 64), Some(64));
}
