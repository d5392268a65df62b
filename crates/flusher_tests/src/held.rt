//! Two sessions: one reads while the gate holds the commit of the other. Then both submit more.
ghost use Rattle.std.specs.Prelude.{◌≡◌, false};
ghost use Rattle.flusher.specs.Served.{IsSettled};
ghost use Rattle.flusher.specs.View.{view_of_flusher};

use crate::centres::{centre, count};
use centre_core::{Query, QueryAnswer};
use flusher::{Answer, Flusher, Gate, Session};
use probe_live_centre::{
    Task, WatchedDisk, attach, comes_to, end_all, expiry, is_accept, opened, radio, serve_beside,
    with_rule, worked_disk,
};
use recovery::Store;
use registration::Radio;
use snapshots::{Centre, NewLog, Published};
use std::alloc::Global;
use std::marker::Brand;
use std::sync::atomic::{AtomicU64, Ordering};
use std::sync::{Mutex, Wait};
use std::test::*;
use std::thread::Threads;

// The gate was entered with a command.
const ENTERED: u64 = 1;
// The second session has read.
const READ: u64 = 2;
// The first session has its answer, and has read.
const ANSWERED: u64 = 3;

// The radio that is attached.
const RADIO: u32 = 2_001;

// How far both have come, how many of them and the gate saw what they should see, and the list published with the first one's answer.
#[derive(Drop)]
struct Held<J: Centre> {
    alloc: Global,
    stage: AtomicU64,
    good: AtomicU64,
    published: Mutex<Option<Published<J>>>,
}

impl<J: Centre> Held<J> {
    fn count(&self, is_good: bool) {
        if is_good {
            self.good.fetch_add(1, Ordering::SeqCst);
        }
    }
}

// Holds the first commit until the second session has read.
impl<J: Centre> Gate for Held<J> {
    fn before_commit(&self, _round: u64, taken: usize) {
        if taken == 0 || self.stage.load(Ordering::SeqCst) >= ENTERED {
            return;
        }
        self.stage.store(ENTERED, Ordering::SeqCst);
        self.count(taken == 1 && comes_to(&self.stage, READ));
    }
}

// Where the radio is. `None` if the read has no answer.
fn whereabouts<J: Centre>(alloc: Global, session: &mut Session<J>) -> Option<Option<Radio>> {
    let query = Query::Whereabouts(radio(RADIO)?);
    let reported = session.read(alloc, &query);
    match &reported {
        Ok((QueryAnswer::Whereabouts { itsi: _, radio }, _)) => Some(*radio),
        _ => None,
    }
}

fn is_unknown<J: Centre>(alloc: Global, session: &mut Session<J>) -> bool {
    matches!(whereabouts(alloc, session), Some(None))
}

// Whether the radio is present at station 1 in location area 7.
fn is_there<J: Centre>(alloc: Global, session: &mut Session<J>) -> bool {
    match whereabouts(alloc, session) {
        Some(Some(radio)) => {
            radio.station.number() == 1 && radio.area.number() == 7 && radio.present
        }
        _ => false,
    }
}

// Attaches the radio: the list published with the answer, if the command was accepted.
fn attached<J: Centre, R: Wait>(
    rt: &R,
    alloc: Global,
    session: &mut Session<J>,
) -> Option<Published<J>> {
    let command = attach(alloc, session.station(), 2, RADIO)?;
    let Answer::Accepted {
        number,
        pdu,
        published,
    } = session.submit(rt, command)
    else {
        return None;
    };
    if number == 2 && is_accept(&pdu) {
        Some(published)
    } else {
        None
    }
}

// The first session attaches the radio, and then sees it.
fn attach_it<J: Centre, R: Wait>(rt: &R, held: &Held<J>, session: &mut Session<J>) {
    let published = attached(rt, held.alloc, session);
    let is_good = published.is_some() && is_there(held.alloc, session);
    *held.published.lock(rt) = published;
    held.count(is_good);
    held.stage.store(ANSWERED, Ordering::SeqCst);
}

// What was published with the first session's answer.
fn handed_over<J: Centre, R: Wait>(rt: &R, held: &Held<J>) -> Option<Published<J>> {
    held.published.lock(rt).take()
}

// The second session reads while the first one's commit is held, and sees no radio. Once it has learnt what was published
// with the first one's answer it sees the radio.
fn look_for_it<J: Centre, R: Wait>(rt: &R, held: &Held<J>, session: &mut Session<J>) {
    let is_held = comes_to(&held.stage, ENTERED);
    let saw_none = is_unknown(held.alloc, session);
    held.stage.store(READ, Ordering::SeqCst);
    let is_answered = comes_to(&held.stage, ANSWERED);
    let Some(published) = handed_over(rt, held) else {
        return;
    };
    session.learn(&published);
    held.count(is_held && saw_none && is_answered && is_there(held.alloc, session));
}

impl<J: Centre> Task<J> for Held<J> {
    fn before_round(&self) {}

    fn act<R: Wait>(&self, rt: &R, session: &mut Session<J>) {
        if session.station().number() == 1 {
            attach_it(rt, self, session);
        } else {
            look_for_it(rt, self, session);
        }
    }
}

// How many further commands each submits.
const MORE: u32 = 20;

// How many were accepted.
#[derive(Drop)]
struct More {
    accepted: AtomicU64,
}

fn is_accepted<J: Centre, R: Wait>(rt: &R, session: &mut Session<J>, sequence: u32) -> bool {
    let Some(command) = expiry(session.station(), sequence) else {
        return false;
    };
    matches!(
        session.submit(rt, command),
        Answer::Accepted { pdu: None, .. }
    )
}

impl Gate for More {
    fn before_commit(&self, _round: u64, _taken: usize) {}
}

impl<J: Centre> Task<J> for More {
    fn before_round(&self) {}

    fn act<R: Wait>(&self, rt: &R, session: &mut Session<J>) {
        for sequence in 3..3 + MORE {
            if is_accepted(rt, session, sequence) {
                self.accepted.fetch_add(1, Ordering::SeqCst);
            }
        }
    }
}

// Whether the gate and both sessions saw what they should see.
fn is_held<J: Centre + Send + Sync, R: Threads + Wait + Sync>(
    rt: &R,
    alloc: Global,
    flusher: &mut Flusher<J, WatchedDisk>,
    sessions: &mut Vec<Session<J>>,
) -> bool
    requires settled { IsSettled J.base (view_of_flusher flusher.old) }
    ensures settled { IsSettled J.base (view_of_flusher flusher.new) }
{
    let held = Held {
        alloc,
        stage: AtomicU64::new(0),
        good: AtomicU64::new(0),
        published: Mutex::new(None),
    };
    serve_beside(rt, flusher, sessions, &held) && held.good.load(Ordering::SeqCst) == 3
}

// Whether the further commands of both were accepted.
fn is_more<J: Centre + Send + Sync, R: Threads + Wait + Sync>(
    rt: &R,
    flusher: &mut Flusher<J, WatchedDisk>,
    sessions: &mut Vec<Session<J>>,
) -> bool
    requires settled { IsSettled J.base (view_of_flusher flusher.old) }
    ensures settled { IsSettled J.base (view_of_flusher flusher.new) }
{
    let more = More {
        accepted: AtomicU64::new(0),
    };
    serve_beside(rt, flusher, sessions, &more)
        && more.accepted.load(Ordering::SeqCst) == 2 * u64::from(MORE)
}

// How many commands were accepted, if all went well.
fn accepted_by_both<J: Centre + Send + Sync, R: Threads + Wait + Sync>(
    rt: &R,
    alloc: Global,
    log: NewLog,
    store: Store<Global, WatchedDisk>,
) -> Option<u64>
    requires sound { store.broken ≡ false }
    requires centre { (log.seen.book ≡ J.book) × (store.register ≡ J.base) }
{
    let Some((mut flusher, mut sessions)) = centre::<J, R>(rt, alloc, log, store, 2) else {
        return None;
    };
    let held = is_held(rt, alloc, &mut flusher, &mut sessions);
    let more = is_more(rt, &mut flusher, &mut sessions);
    let store = end_all(rt, flusher, sessions);
    let count = count(&store);
    drop(store);
    if held && more { count } else { None }
}

fn accepted_once<R: Threads + Wait + Sync>(rt: &R, alloc: Global) -> Option<u64> {
    let disk = with_rule(alloc, worked_disk(alloc, 4, 39, 4_000)?)?;
    let store = opened(alloc, disk)?;
    accepted_by_both::<Brand, R>(rt, alloc, NewLog::new(), store)
}

#[test]
fn a_read_is_answered_while_a_commit_is_held(rt: HostRuntime) {
    assert_eq!(rt; accepted_once(&rt, rt.alloc()), Some(42));
}
