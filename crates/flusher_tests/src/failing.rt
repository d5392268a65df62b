//! A disk that fails under 8 sessions.
ghost use Rattle.std.specs.Prelude.{◌≡◌, false};

use crate::centres::centre;
use centre_core::{Query, QueryAnswer, Register};
use flusher::{Answer, Gate, Session};
use probe_live_centre::{Task, WatchedDisk, end_all, expiry, serve_beside, watched, worked_disk};
use recovery::{Store, StoreFault};
use sector_disk::{Failing, MemoryDisk};
use snapshots::{Centre, NewLog};
use std::alloc::Global;
use std::marker::Brand;
use std::sync::Wait;
use std::sync::atomic::{AtomicU64, Ordering};
use std::test::*;
use std::thread::Threads;

const SESSIONS: usize = 8;
// How many commands each submits.
const EACH: u32 = 8;

// The last call of the disk that is made to fail.
const CALLS: u64 = 40;

// How many commands of each station were accepted, how many answers were a fault of the disk, and how many sessions saw
// what they should see.
#[derive(Drop)]
struct Seen {
    alloc: Global,
    accepted: [AtomicU64; 8],
    faults: AtomicU64,
    good: AtomicU64,
}

// Which answer a command got.
#[derive(Clone, Copy, Debug, PartialEq, Eq, Drop)]
enum AnswerKind {
    Accepted,
    Fault,
    Broken,
    Other,
}

fn submitted<J: Centre, R: Wait>(rt: &R, session: &mut Session<J>, sequence: u32) -> AnswerKind {
    let Some(command) = expiry(session.station(), sequence) else {
        return AnswerKind::Other;
    };
    match session.submit(rt, command) {
        Answer::Accepted { .. } => AnswerKind::Accepted,
        Answer::Fault(StoreFault::DiskFault) => AnswerKind::Fault,
        Answer::Fault(StoreFault::Broken) => AnswerKind::Broken,
        _ => AnswerKind::Other,
    }
}

impl Seen {
    // Notes an answer; whether it may come after the one before. After a fault all are `Broken`.
    fn follows(&self, place: usize, before: AnswerKind, now: AnswerKind) -> bool {
        match now {
            AnswerKind::Accepted if before == AnswerKind::Accepted => {
                self.accepted[place % 8].fetch_add(1, Ordering::SeqCst);
                true
            }
            AnswerKind::Fault if before == AnswerKind::Accepted => {
                self.faults.fetch_add(1, Ordering::SeqCst);
                true
            }
            AnswerKind::Broken => true,
            _ => false,
        }
    }

    // Submits all commands of a session; whether each answer may come after the one before.
    fn submit_all<J: Centre, R: Wait>(&self, rt: &R, session: &mut Session<J>) -> bool {
        let place = usize::from(session.station().number()).saturating_sub(1);
        let mut before = AnswerKind::Accepted;
        for sequence in 1..=EACH {
            let now = submitted(rt, session, sequence);
            if !self.follows(place, before, now) {
                return false;
            }
            before = now;
        }
        true
    }
}

// Whether a read still has an answer, and its list is as long as the register's count.
fn is_read<J: Centre>(alloc: Global, session: &mut Session<J>) -> bool {
    match session.read(alloc, &Query::Total) {
        Ok((QueryAnswer::Total(total), count)) => total == count,
        _ => false,
    }
}

impl Gate for Seen {
    fn before_commit(&self, _round: u64, _taken: usize) {}
}

impl<J: Centre> Task<J> for Seen {
    fn before_round(&self) {}

    fn act<R: Wait>(&self, rt: &R, session: &mut Session<J>) {
        if self.submit_all(rt, session) && is_read(self.alloc, session) {
            self.good.fetch_add(1, Ordering::SeqCst);
        }
    }
}

// The disk as the sessions left it, if they saw what they should see.
fn failed<J: Centre + Send + Sync, R: Threads + Wait + Sync>(
    rt: &R,
    log: NewLog,
    store: Store<Global, WatchedDisk>,
    seen: &Seen,
) -> Option<MemoryDisk<Global>>
    requires sound { store.broken ≡ false }
    requires centre { (log.seen.book ≡ J.book) × (store.register ≡ J.base) }
{
    let alloc = seen.alloc;
    let Some((mut flusher, mut sessions)) = centre::<J, R>(rt, alloc, log, store, SESSIONS) else {
        return None;
    };
    let done = serve_beside(rt, &mut flusher, &mut sessions, seen);
    let disk = end_all(rt, flusher, sessions).into_disk();
    let disk = disk.into_inner().into_inner();
    if done && seen.good.load(Ordering::SeqCst) == SESSIONS as u64 {
        Some(disk)
    } else {
        drop(disk);
        None
    }
}

// Whether a register has all that was accepted, and at most one command more of each station.
fn has_all(seen: &Seen, register: &Register<Global>) -> bool {
    let mut count: u64 = 0;
    for (accepted, served) in seen.accepted.iter().zip(register.served()) {
        let kept = match served {
            Some(last) => u64::from(last.sequence.number()),
            None => 0,
        };
        let accepted = accepted.load(Ordering::SeqCst);
        if kept < accepted || kept > accepted + 1 {
            return false;
        }
        count = count.saturating_add(kept);
    }
    register.count() == count
}

// The same of the disk once it is opened again. Each sector that was not synced then holds these bytes.
fn is_kept(alloc: Global, seen: &Seen, disk: MemoryDisk<Global>, bytes: [u8; 512]) -> Option<bool> {
    let mut fill = Vec::new(alloc);
    for at in disk.pending(alloc).ok()?.iter() {
        fill.push((*at, bytes)).ok()?;
    }
    let Ok(store) = Store::open(alloc, disk.crash(fill.as_slice())) else {
        return None;
    };
    let has_all = match store.register() {
        Some(register) => has_all(seen, register),
        None => false,
    };
    drop(store);
    Some(has_all)
}

fn nothing_seen(alloc: Global) -> Seen {
    Seen {
        alloc,
        accepted: [
            AtomicU64::new(0),
            AtomicU64::new(0),
            AtomicU64::new(0),
            AtomicU64::new(0),
            AtomicU64::new(0),
            AtomicU64::new(0),
            AtomicU64::new(0),
            AtomicU64::new(0),
        ],
        faults: AtomicU64::new(0),
        good: AtomicU64::new(0),
    }
}

// With a disk that fails at this call: how many answers were a fault of it, if all that was accepted is kept. 0 also if the disk
// did not open.
fn failed_at<R: Threads + Wait + Sync>(
    rt: &R,
    alloc: Global,
    call: u64,
    failing: Failing,
    bytes: [u8; 512],
) -> Option<u64> {
    let disk = watched(worked_disk(alloc, 8, 39, 2_000)?, call, failing);
    let Ok(store) = Store::open(alloc, disk) else {
        return Some(0);
    };
    let seen = nothing_seen(alloc);
    let disk = failed::<Brand, R>(rt, NewLog::new(), store, &seen)?;
    if is_kept(alloc, &seen, disk, bytes)? {
        Some(seen.faults.load(Ordering::SeqCst))
    } else {
        None
    }
}

// At how many calls of the disk a session saw the fault. `None` if something was lost.
fn seen_at_calls<R: Threads + Wait + Sync>(
    rt: &R,
    alloc: Global,
    failing: Failing,
    bytes: [u8; 512],
) -> Option<u64> {
    let mut seen: u64 = 0;
    for call in 1..=CALLS {
        if failed_at(rt, alloc, call, failing, bytes)? > 0 {
            seen = seen.saturating_add(1);
        }
    }
    Some(seen)
}

// The opening makes 7 calls. There are 8 rounds at least, of 5 calls each.
fn is_seen<R: Threads + Wait + Sync>(rt: &R, alloc: Global, failing: Failing, byte: u8) -> bool {
    seen_at_calls(rt, alloc, failing, [byte; 512]) == Some(CALLS - 7)
}

#[test]
fn a_fault_is_answered_once_and_nothing_is_lost(rt: HostRuntime) {
    assert!(rt; is_seen(&rt, rt.alloc(), Failing::Once, 0));
}

#[test]
fn a_disk_that_fails_from_then_on_loses_nothing(rt: HostRuntime) {
    assert!(rt; is_seen(&rt, rt.alloc(), Failing::Always, 1));
}
