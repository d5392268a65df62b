//! Times sessions in threads of their own, and the same commands committed in one thread.
ghost use Rattle.std.specs.Prelude.{◌≡◌, ◌≤◌, false, length, IfSome};
ghost use Rattle.flusher.specs.Served.{IsSettled};
ghost use Rattle.flusher.specs.View.{view_of_flusher};

use crate::beside::{Load, Work, serve};
use crate::disks::{disk_in_file, disk_in_memory, ruled};
use crate::together::update;
use centre_core::Command;
use flusher::{Flusher, Session, open_centre};
use recovery::{Outcome, Store, StoreFault};
use registration::Station;
use sector_disk::Disk;
use snapshots::{Centre, NewLog};
use std::alloc::Global;
use std::fs;
use std::fs::{File, Files};
use std::marker::Brand;
use std::rt::Clock;
use std::sync::Wait;
use std::thread::Threads;
use std::time::{Duration, Instant};

// How often all is measured on disks in memory.
const ROUNDS: u32 = 5;

// How many commands each of 64 sessions submits, how many each of 8, and how many a single session.
const EACH: u32 = 500;

const EACH_OF_EIGHT: u32 = 4_000;

const ALONE: u32 = 5_000;

// A centre over this store, with this many sessions.
fn centre<J: Centre, D: Disk + Drop, R: Wait>(
    rt: &R,
    alloc: Global,
    log: NewLog,
    store: Store<Global, D>,
    sessions: usize,
) -> Option<(Flusher<J, D>, Vec<Session<J>>)>
    requires sound { store.broken ≡ false }
    requires centre { (log.seen.book ≡ J.book) × (store.register ≡ J.base) }
    ensures settled { IfSome result (λ r. IsSettled J.base (view_of_flusher r.0)) }
{
    match open_centre::<J, D, R>(rt, alloc, log, store, sessions) {
        Ok(both) => Some(both),
        Err(fault) => {
            drop(fault);
            None
        }
    }
}

// How long it takes the sessions until all their commands are answered.
fn served<J: Centre + Send + Sync, D: Disk + Drop, R: Threads + Wait + Clock + Sync>(
    rt: &R,
    log: NewLog,
    store: Store<Global, D>,
    load: &Load,
) -> Option<Duration>
    requires sound { store.broken ≡ false }
    requires centre { (log.seen.book ≡ J.book) × (store.register ≡ J.base) }
{
    let count = load.work.sessions;
    let Some((mut flusher, sessions)) = centre::<J, D, R>(rt, load.alloc, log, store, count) else {
        return None;
    };
    let start = Instant::now(rt);
    serve(rt, load, &mut flusher, sessions);
    let took = match start {
        Ok(start) => start.elapsed(rt).ok(),
        Err(_) => None,
    };
    drop(flusher.abandon(rt));
    took
}

// The same of sessions with this work. `None` if a command was not accepted.
fn served_once<D: Disk + Drop, R: Threads + Wait + Clock + Sync>(
    rt: &R,
    alloc: Global,
    store: Store<Global, D>,
    work: Work,
) -> Option<Duration>
    requires sound { store.broken ≡ false }
{
    let load = Load::new(alloc, work);
    let took = served::<Brand, D, R>(rt, NewLog::new(), store, &load)?;
    if load.is_done() { Some(took) } else { None }
}

// A batch of `size` commands, one of each of the first stations, each with this sequence.
fn batch(alloc: Global, size: u16, sequence: u32) -> Option<Vec<Command<Global>>> {
    let mut commands = Vec::with_capacity(alloc, usize::from(size)).ok()?;
    for number in 1..=size {
        commands
            .push(update(alloc, Station::new(number), sequence)?)
            .ok()?;
    }
    Some(commands)
}

// References to the commands.
fn borrowed<'a>(
    alloc: Global,
    commands: &'a [Command<Global>],
) -> Option<Vec<&'a Command<Global>>> {
    let mut list = Vec::with_capacity(alloc, commands.len()).ok()?;
    for command in commands {
        list.push(command).ok()?;
    }
    Some(list)
}

// Commits the commands, after a checkpoint if there is no room for them.
fn commit<D: Disk>(
    alloc: Global,
    store: &mut Store<Global, D>,
    commands: &[&Command<Global>],
) -> Result<Vec<Outcome<Global>>, StoreFault>
    requires { length commands.now ≤ 64 }
{
    match store.commit(alloc, commands) {
        Err(StoreFault::Unready) => {
            store.checkpoint()?;
            store.commit(alloc, commands)
        }
        done => done,
    }
}

// Makes a batch and commits it; whether it was committed.
fn is_committed<D: Disk>(
    alloc: Global,
    store: &mut Store<Global, D>,
    size: u16,
    sequence: u32,
) -> Option<()> {
    let commands = batch(alloc, size, sequence)?;
    let list = borrowed(alloc, &commands)?;
    if list.len() > 64 {
        return None;
    }
    commit(alloc, store, &list).ok()?;
    Some(())
}

// How long it takes one thread to make and to commit this many batches.
fn committed<D: Disk, R: Clock>(
    rt: &R,
    alloc: Global,
    store: &mut Store<Global, D>,
    size: u16,
    batches: u32,
) -> Option<Duration> {
    let start = Instant::now(rt).ok()?;
    for k in 0..batches {
        is_committed(alloc, store, size, k.saturating_add(2))?;
    }
    start.elapsed(rt).ok()
}

// Whether the register has accepted this many commands.
fn has_accepted<D: Disk>(store: &Store<Global, D>, count: u64) -> bool {
    match store.register() {
        Some(register) => register.count() == count,
        None => false,
    }
}

fn committed_once<D: Disk + Drop, R: Clock>(
    rt: &R,
    alloc: Global,
    store: Store<Global, D>,
    size: u16,
    batches: u32,
) -> Option<Duration> {
    let mut store = store;
    let took = committed(rt, alloc, &mut store, size, batches);
    let whole = has_accepted(&store, 1 + u64::from(size) * u64::from(batches));
    drop(store);
    if whole { took } else { None }
}

// Prints a line: what was timed, how many commands, and how many nanoseconds.
fn is_reported<R: Print>(rt: &R, what: &str, commands: u32, took: Option<Duration>) -> bool {
    match took {
        Some(took) => {
            let nanoseconds = took.as_nanos();
            println!(rt; "{what} {commands} {nanoseconds}").is_ok()
        }
        None => false,
    }
}

// Sessions that submit their commands one at a time.
fn singly(sessions: usize, each: u32) -> Work {
    Work {
        sessions,
        each,
        singly: true,
    }
}

// The work of 8 sessions that submit 8 at a time.
fn eight() -> Work {
    Work {
        sessions: 8,
        each: EACH_OF_EIGHT,
        singly: false,
    }
}

// How long the sessions take on a disk in memory.
fn served_in_memory<R: Threads + Wait + Clock + Sync>(
    rt: &R,
    alloc: Global,
    work: Work,
) -> Option<Duration> {
    served_once(rt, alloc, ruled(alloc, disk_in_memory(alloc)?)?, work)
}

// How long the batches take on a disk in memory.
fn committed_in_memory<R: Clock>(
    rt: &R,
    alloc: Global,
    size: u16,
    batches: u32,
) -> Option<Duration> {
    let store = ruled(alloc, disk_in_memory(alloc)?)?;
    committed_once(rt, alloc, store, size, batches)
}

// How long the sessions take on a disk in a new file, which is removed.
fn served_in_file<R: Files<File = File> + Threads + Wait + Clock + Sync>(
    rt: &R,
    alloc: Global,
    name: &str,
    work: Work,
) -> Option<Duration> {
    let store = ruled(alloc, disk_in_file(rt, name)?)?;
    let took = served_once(rt, alloc, store, work);
    fs::remove_file(rt, name).ok()?;
    took
}

// How long batches of 64 take on a disk in a new file, which is removed.
fn committed_in_file<R: Files<File = File> + Clock>(
    rt: &R,
    alloc: Global,
    name: &str,
    batches: u32,
) -> Option<Duration> {
    let store = ruled(alloc, disk_in_file(rt, name)?)?;
    let took = committed_once(rt, alloc, store, 64, batches);
    fs::remove_file(rt, name).ok()?;
    took
}

// Prints a line for 64 sessions, for 8 that submit 8 at a time, for batches of 64, for a single session and for single commits,
// on disks in memory; whether all were measured.
fn is_measured_in_memory<R: Threads + Wait + Clock + Print + Sync>(rt: &R, alloc: Global) -> bool {
    let sessions = served_in_memory(rt, alloc, singly(64, EACH));
    let together = served_in_memory(rt, alloc, eight());
    let batches = committed_in_memory(rt, alloc, 64, EACH);
    let alone = served_in_memory(rt, alloc, singly(1, ALONE));
    let single = committed_in_memory(rt, alloc, 1, ALONE);
    is_reported(rt, "sessions", 64 * EACH, sessions)
        && is_reported(rt, "eight", 8 * EACH_OF_EIGHT, together)
        && is_reported(rt, "batches", 64 * EACH, batches)
        && is_reported(rt, "alone", ALONE, alone)
        && is_reported(rt, "singly", ALONE, single)
}

/// Prints these lines in each round; whether all were measured.
pub fn report_in_memory<R: Threads + Wait + Clock + Print + Sync>(rt: &R, alloc: Global) -> bool {
    for _ in 0..ROUNDS {
        if !is_measured_in_memory(rt, alloc) {
            return false;
        }
    }
    true
}

/// Prints a line for 8 sessions that submit 8 at a time and for batches of 64, once, on disks in a file of this name; whether
/// both were measured. There may be no such file before.
pub fn report_in_file<R: Files<File = File> + Threads + Wait + Clock + Print + Sync>(
    rt: &R,
    alloc: Global,
    name: &str,
) -> bool {
    let together = served_in_file(rt, alloc, name, eight());
    let batches = committed_in_file(rt, alloc, name, EACH);
    is_reported(rt, "eight", 8 * EACH_OF_EIGHT, together)
        && is_reported(rt, "batches", 64 * EACH, batches)
}
