//! One session, and each kind of answer but those to faults.
ghost use Rattle.std.specs.Prelude.{◌≡◌, false, IfSome};

use crate::centres::{centre, count};
use centre_core::{Command, Query, QueryAnswer, Refusal};
use flusher::{Answer, Gate, Session};
use probe_live_centre::{
    Task, WatchedDisk, attach, end_all, expiry, is_accept, opened, rule, serve_beside, worked_disk,
};
use recovery::Store;
use snapshots::{Centre, NewLog};
use std::alloc::Global;
use std::marker::Brand;
use std::sync::Wait;
use std::sync::atomic::{AtomicU64, Ordering};
use std::test::*;
use std::thread::Threads;

// The radio that is attached.
const RADIO: u32 = 2_001;

// How many answers were right.
#[derive(Drop)]
struct Asked {
    alloc: Global,
    good: AtomicU64,
}

// The parts of an answer, without its list.
#[derive(Clone, Copy, Debug, PartialEq, Eq, Drop)]
enum AnswerParts {
    Accepted(u64, bool),
    Kept(u64, bool),
    Old(u32),
    Other,
}

// The parts of an answer. One with a list of another length than its number is `Other`.
fn reply_of<J: Centre>(answer: &Answer<J>) -> AnswerParts {
    match answer {
        Answer::Accepted {
            number,
            pdu,
            published,
        } => accepted(*number, published.count(), is_accept(pdu)),
        Answer::Kept { number, pdu } => AnswerParts::Kept(*number, is_accept(pdu)),
        Answer::Refused(Refusal::OldSequence { last }) => AnswerParts::Old(last.number()),
        _ => AnswerParts::Other,
    }
}

fn accepted(number: u64, published: u64, is_accept: bool) -> AnswerParts {
    if number == published {
        AnswerParts::Accepted(number, is_accept)
    } else {
        AnswerParts::Other
    }
}

impl Asked {
    fn count(&self, is_good: bool) {
        if is_good {
            self.good.fetch_add(1, Ordering::SeqCst);
        }
    }

    // Submits the command, and compares the answer.
    fn submit<J: Centre, R: Wait>(
        &self,
        rt: &R,
        session: &mut Session<J>,
        command: Option<Command<Global>>,
        want: AnswerParts,
    )
        requires station { IfSome command (λ command. command.station ≡ session.old.sender.station) }
        ensures station { session.new.sender.station ≡ session.old.sender.station }
    {
        match command {
            Some(command) => self.count(reply_of(&session.submit(rt, command)) == want),
            None => {}
        }
    }
}

impl Gate for Asked {
    fn before_commit(&self, _round: u64, _taken: usize) {}
}

impl<J: Centre> Task<J> for Asked {
    fn before_round(&self) {}

    fn act<R: Wait>(&self, rt: &R, session: &mut Session<J>) {
        let station = session.station();
        let again = attach(self.alloc, station, 2, RADIO);
        self.submit(
            rt,
            session,
            rule(station, 1),
            AnswerParts::Accepted(1, false),
        );
        let first = attach(self.alloc, station, 2, RADIO);
        self.submit(rt, session, first, AnswerParts::Accepted(2, true));
        self.submit(rt, session, again, AnswerParts::Kept(2, true));
        self.submit(rt, session, expiry(station, 2), AnswerParts::Kept(2, true));
        self.submit(rt, session, expiry(station, 1), AnswerParts::Old(2));
        let reported = session.read(self.alloc, &Query::Total);
        self.count(matches!(reported, Ok((QueryAnswer::Total(2), 2))));
    }
}

// How many answers were right, and how many commands were accepted.
fn answered<J: Centre + Send + Sync, R: Threads + Wait + Sync>(
    rt: &R,
    alloc: Global,
    log: NewLog,
    store: Store<Global, WatchedDisk>,
) -> Option<(u64, u64)>
    requires sound { store.broken ≡ false }
    requires centre { (log.seen.book ≡ J.book) × (store.register ≡ J.base) }
{
    let asked = Asked {
        alloc,
        good: AtomicU64::new(0),
    };
    let Some((mut flusher, mut sessions)) = centre::<J, R>(rt, alloc, log, store, 1) else {
        return None;
    };
    let done = serve_beside(rt, &mut flusher, &mut sessions, &asked);
    let store = end_all(rt, flusher, sessions);
    let count = count(&store);
    drop(store);
    if done {
        Some((asked.good.load(Ordering::SeqCst), count?))
    } else {
        None
    }
}

fn answered_once<R: Threads + Wait + Sync>(rt: &R, alloc: Global) -> Option<(u64, u64)> {
    let store = opened(alloc, worked_disk(alloc, 4, 39, 400)?)?;
    answered::<Brand, R>(rt, alloc, NewLog::new(), store)
}

#[test]
fn each_command_gets_its_answer(rt: HostRuntime) {
    assert_eq!(rt; answered_once(&rt, rt.alloc()), Some((6, 2)));
}
