//! Sessions, each in a thread of its own, beside the flusher.
ghost use Rattle.flusher.specs.Served.{IsSettled};
ghost use Rattle.flusher.specs.View.{view_of_flusher};

use crate::counting_disk::WatchedDisk;
use crate::turns::TURNS;
use flusher::{Flusher, Gate, Session};
use snapshots::Centre;
use std::sync::Wait;
use std::sync::atomic::{AtomicU64, Ordering};
use std::thread;
use std::thread::{Threads, for_each_mut, join_mut};

/// What each session does in its thread. It is the gate of the rounds too.
pub trait Task<J: Centre>: Gate {
    /// Called before each round, in the thread of the flusher.
    fn before_round(&self);

    /// Does it, in the thread of this session.
    fn act<R: Wait>(&self, rt: &R, session: &mut Session<J>);
}

// More than there are sessions. It is added to how many are left once no more rounds are made.
const OVER: u64 = 1_000;

// Acts, if rounds are still made. Then one session less is left.
fn act<J: Centre, R: Wait, T: Task<J>>(
    rt: &R,
    task: &T,
    session: &mut Session<J>,
    left: &AtomicU64,
) {
    if left.load(Ordering::SeqCst) < OVER {
        task.act(rt, session);
    }
    left.fetch_sub(1, Ordering::SeqCst);
}

// Each session acts in a thread of its own. If none can be made for it, it comes to act when the rounds are over; since it would
// then wait for the flusher, it does not act.
fn act_all<J: Centre + Send + Sync, R: Threads + Wait + Sync, T: Task<J> + Sync>(
    rt: &R,
    sessions: &mut Vec<Session<J>>,
    task: &T,
    left: &AtomicU64,
) {
    let threads = sessions.len();
    if threads == 0 {
        return;
    }
    for_each_mut(
        rt,
        sessions.as_mut_slice(),
        threads,
        &|_place, session: &mut Session<J>| act(rt, task, session, left),
    );
}

// A gate that also counts the commands taken.
#[derive(Drop)]
struct Watched<'a, G: Gate> {
    gate: &'a G,
    taken: &'a AtomicU64,
}

impl<'a, G: Gate> Gate for Watched<'a, G> {
    fn before_commit(&self, round: u64, taken: usize) {
        self.taken.fetch_add(taken as u64, Ordering::SeqCst);
        self.gate.before_commit(round, taken);
    }
}

// Makes one round; whether it took a command.
fn is_taken<J: Centre, R: Wait, G: Gate>(
    rt: &R,
    flusher: &mut Flusher<J, WatchedDisk>,
    gate: &G,
) -> bool
    requires settled { IsSettled J.base (view_of_flusher flusher.old) }
    ensures settled { IsSettled J.base (view_of_flusher flusher.new) }
{
    let taken = AtomicU64::new(0);
    let watched = Watched {
        gate,
        taken: &taken,
    };
    flusher.round(rt, &watched);
    taken.load(Ordering::SeqCst) > 0
}

// Makes rounds until no session is left. False if no command was taken for many rounds.
fn serve<J: Centre, R: Wait, T: Task<J>>(
    rt: &R,
    flusher: &mut Flusher<J, WatchedDisk>,
    task: &T,
    left: &AtomicU64,
) -> bool
    requires settled { IsSettled J.base (view_of_flusher flusher.old) }
    ensures settled { IsSettled J.base (view_of_flusher flusher.new) }
{
    let mut turns: u32 = 0;
    for _ in 0..u64::MAX {
        if left.load(Ordering::SeqCst) == 0 || turns == TURNS {
            break;
        }
        task.before_round();
        turns = if is_taken(rt, flusher, task) {
            0
        } else {
            turns.saturating_add(1)
        };
        thread::yield_now();
    }
    left.fetch_add(OVER, Ordering::SeqCst) == 0
}

// Makes rounds while each session acts in a thread of its own. `left` is how many have still to act.
fn serve_all<J: Centre + Send + Sync, R: Threads + Wait + Sync, T: Task<J> + Sync>(
    rt: &R,
    flusher: &mut Flusher<J, WatchedDisk>,
    sessions: &mut Vec<Session<J>>,
    task: &T,
    left: &AtomicU64,
) -> bool
    requires settled { IsSettled J.base (view_of_flusher flusher.old) }
    ensures settled { IsSettled J.base (view_of_flusher flusher.new) }
{
    let (_, served) = join_mut(
        rt,
        &mut || act_all(rt, sessions, task, left),
        &mut || -> bool
            requires { IsSettled J.base (view_of_flusher flusher.now) }
            ensures { IsSettled J.base (view_of_flusher flusher.exit.now) }
        { serve(rt, flusher, task, left) },
    );
    served
}

/// Makes rounds while each session acts in a thread of its own. False if no command was taken for many rounds before all had
/// acted.
pub fn serve_beside<J: Centre + Send + Sync, R: Threads + Wait + Sync, T: Task<J> + Sync>(
    rt: &R,
    flusher: &mut Flusher<J, WatchedDisk>,
    sessions: &mut Vec<Session<J>>,
    task: &T,
) -> bool
    requires settled { IsSettled J.base (view_of_flusher flusher.old) }
    ensures settled { IsSettled J.base (view_of_flusher flusher.new) }
{
    let left = AtomicU64::new(sessions.len() as u64);
    serve_all(rt, flusher, sessions, task, &left)
}
