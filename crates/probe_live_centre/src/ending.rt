ghost use Rattle.flusher.specs.Served.{IsSettled};
ghost use Rattle.flusher.specs.View.{view_of_flusher};

use crate::counting_disk::WatchedDisk;
use crate::turns::Idle;
use flusher::{Flusher, Session};
use recovery::Store;
use snapshots::Centre;
use std::alloc::Global;
use std::sync::Wait;

// Finishes each session. More than 64 of them would wait for the flusher.
fn finish_all<J: Centre, R: Wait>(rt: &R, sessions: Vec<Session<J>>) {
    for session in sessions {
        drop(session.finish(rt));
    }
}

/// Finishes at most 64 sessions, and lets the flusher take their ends. Then it abandons the flusher, and returns the store.
pub fn end_all<J: Centre, R: Wait>(
    rt: &R,
    flusher: Flusher<J, WatchedDisk>,
    sessions: Vec<Session<J>>,
) -> Store<Global, WatchedDisk>
    requires settled { IsSettled J.base (view_of_flusher flusher) }
{
    let mut flusher = flusher;
    finish_all(rt, sessions);
    flusher.run(rt, &Idle);
    flusher.abandon(rt)
}
