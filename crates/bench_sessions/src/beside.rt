//! Sessions, each in a thread of its own, beside the flusher.
ghost use Rattle.flusher.specs.Served.{IsSettled};
ghost use Rattle.flusher.specs.View.{view_of_flusher};

use crate::together::{TOGETHER, accepted_together, is_accepted};
use flusher::{Flusher, Session};
use probe_live_centre::Idle;
use sector_disk::Disk;
use snapshots::Centre;
use std::alloc::Global;
use std::sync::Wait;
use std::sync::atomic::{AtomicU64, Ordering};
use std::thread;
use std::thread::{Scope, Threads};

/// How many sessions there are, how many commands each submits, and whether one at a time.
#[derive(Clone, Copy, Drop)]
pub(crate) struct Work {
    pub(crate) sessions: usize,
    pub(crate) each: u32,
    pub(crate) singly: bool,
}

/// What sessions do, how many commands were accepted, and how many sessions have ended.
#[derive(Drop)]
pub(crate) struct Load {
    pub(crate) alloc: Global,
    pub(crate) work: Work,
    pub(crate) accepted: AtomicU64,
    pub(crate) ended: AtomicU64,
}

impl Load {
    /// Nothing is done yet.
    pub(crate) fn new(alloc: Global, work: Work) -> Load {
        Load {
            alloc,
            work,
            accepted: AtomicU64::new(0),
            ended: AtomicU64::new(0),
        }
    }

    /// Whether all commands were accepted.
    pub(crate) fn is_done(&self) -> bool {
        let all = (self.work.sessions as u64).saturating_mul(u64::from(self.work.each));
        self.accepted.load(Ordering::SeqCst) == all
    }

    fn count(&self, accepted: u64) {
        self.accepted.fetch_add(accepted, Ordering::SeqCst);
    }

    // Submits the commands of a session one at a time.
    fn submit_singly<J: Centre, R: Wait>(&self, rt: &R, session: &mut Session<J>) {
        for k in 0..self.work.each {
            if is_accepted(rt, self.alloc, session, k.saturating_add(2)) {
                self.count(1);
            }
        }
    }

    // Submits them several at a time.
    fn submit_together<J: Centre, R: Wait>(&self, rt: &R, session: &mut Session<J>) {
        for k in 0..self.work.each / TOGETHER {
            let first = k.saturating_mul(TOGETHER).saturating_add(2);
            match accepted_together(rt, self.alloc, session, first) {
                Some(accepted) => self.count(accepted),
                None => return,
            }
        }
    }
}

// Submits the commands of a session, which then ends.
fn act<J: Centre, R: Wait>(rt: &R, load: &Load, session: Session<J>) {
    let mut session = session;
    if load.work.singly {
        load.submit_singly(rt, &mut session);
    } else {
        load.submit_together(rt, &mut session);
    }
    drop(session);
    load.ended.fetch_add(1, Ordering::SeqCst);
}

// Makes rounds until so many sessions have ended.
fn flush<J: Centre, D: Disk, R: Wait>(
    rt: &R,
    load: &Load,
    flusher: &mut Flusher<J, D>,
    sessions: u64,
)
    requires settled { IsSettled J.base (view_of_flusher flusher.old) }
{
    for _ in 0..u64::MAX {
        if load.ended.load(Ordering::SeqCst) >= sessions {
            return;
        }
        flusher.round(rt, &Idle);
        thread::yield_now();
    }
}

// Lets each session act in a thread of its own; how many threads could be made. The others' sessions do nothing.
fn begin_all<'s, E, J: Centre + Send + Sync + 's, R: Wait + Sync + 's>(
    scope: &Scope<'s, E>,
    rt: &'s R,
    load: &'s Load,
    sessions: Vec<Session<J>>,
) -> u64 {
    let mut begun: u64 = 0;
    for session in sessions {
        let thread = scope.spawn(move || act(rt, load, session));
        begun = begun.saturating_add(u64::from(thread.is_ok()));
    }
    begun
}

/// Makes rounds in this thread until each session has acted in one of its own.
pub(crate) fn serve<J: Centre + Send + Sync, D: Disk, R: Threads + Wait + Sync>(
    rt: &R,
    load: &Load,
    flusher: &mut Flusher<J, D>,
    sessions: Vec<Session<J>>,
)
    requires settled { IsSettled J.base (view_of_flusher flusher.old) }
{
    thread::scope(
        thread::scope_env(),
        rt,
        |scope|
            requires { IsSettled J.base (view_of_flusher flusher.now) }
        {
            let begun = begin_all(scope, rt, load, sessions);
            flush(rt, load, flusher, begun);
        },
    )
}
