//! One session whose allocations are refused from outside. It submits four commands, each again while memory runs out. No
//! round is made between an answer and the next command.
ghost use Rattle.std.specs.Prelude.{◌≡◌, false, IfErr, IfSome};

use centre_core::{Command, Query, QueryAnswer};
use flusher::{Answer, Gate, Session, open_centre};
use identity::Bits;
use probe_live_centre::{
    TURNS, Task, WatchedDisk, attach, end_all, expiry, is_accept, opened, radio, rule,
    serve_beside, worked_disk,
};
use recovery::Store;
use registration::Station;
use snapshots::{Centre, NewLog};
use std::alloc::Global;
use std::marker::Brand;
use std::sync::Wait;
use std::sync::atomic::{AtomicU64, Ordering};
use std::thread;
use std::thread::Threads;

// The radio that is attached by the second command.
const RADIO: u32 = 2_001;

// How many commands are submitted.
const COMMANDS: u32 = 4;

// How often each call is tried.
const TRIES: u32 = 4;

type Kept = Store<Global, WatchedDisk>;

// What the session saw.
#[derive(Drop)]
struct Seen {
    alloc: Global,
    // 1 from the gate of a round that has a command until the next command is submitted.
    paused: AtomicU64,
    // How many commands were taken.
    taken: AtomicU64,
    // How often memory ran out before the centre was opened.
    unopened: AtomicU64,
    // How often memory ran out before a command was sent.
    unsent: AtomicU64,
    // How often a round answered out of memory, with all earlier commands published before.
    refused: AtomicU64,
    // The same, but the command before it was kept, and is only now published.
    caught_up: AtomicU64,
    // The same, but the command before it was kept, and is still not published.
    lagging: AtomicU64,
    // How many commands were kept and not published in their round.
    kept: AtomicU64,
    // How many were accepted or kept.
    done: AtomicU64,
    // How many answers or reads were wrong.
    wrong: AtomicU64,
}

// Which answer a command got. An answer with a wrong number or PDU is `Other`.
#[derive(Clone, Copy, PartialEq, Eq, Drop)]
enum AnswerKind {
    Unsent,
    Refused,
    Kept,
    Accepted,
    Other,
}

fn increase(number: &AtomicU64) {
    number.fetch_add(1, Ordering::SeqCst);
}

fn value(number: &AtomicU64) -> u64 {
    number.load(Ordering::SeqCst)
}

impl Gate for Seen {
    fn before_commit(&self, _round: u64, taken: usize) {
        if taken > 0 {
            self.taken.fetch_add(taken as u64, Ordering::SeqCst);
            self.paused.store(1, Ordering::SeqCst);
        }
    }
}

// The command of this sequence.
fn command(alloc: Global, station: Station, sequence: u32) -> Option<Command<Global>>
    ensures { IfSome result (λ command. command.station ≡ station) }
{
    match sequence {
        1 => rule(station, 1),
        2 => attach(alloc, station, 2, RADIO),
        _ => expiry(station, sequence),
    }
}

fn reply_of<J: Centre>(answer: &Answer<J>, sequence: u32) -> AnswerKind {
    let wanted = u64::from(sequence);
    match answer {
        Answer::NoMemory => AnswerKind::Refused,
        Answer::Kept { number, pdu } => {
            if_right(
                *number == wanted && is_right(pdu, sequence),
                AnswerKind::Kept,
            )
        }
        Answer::Accepted {
            number,
            pdu,
            published,
        } => if_right(
            *number == wanted && published.count() == wanted && is_right(pdu, sequence),
            AnswerKind::Accepted,
        ),
        _ => AnswerKind::Other,
    }
}

// Whether the PDU is right: only the attach is answered by one.
fn is_right(pdu: &Option<Bits<Global>>, sequence: u32) -> bool {
    is_accept(pdu) == (sequence == 2)
}

fn if_right(is_right: bool, word: AnswerKind) -> AnswerKind {
    if is_right { word } else { AnswerKind::Other }
}

impl Seen {
    // Submits the command; rounds are made again.
    fn submit<J: Centre, R: Wait>(
        &self,
        rt: &R,
        session: &mut Session<J>,
        sequence: u32,
    ) -> AnswerKind {
        let Some(command) = command(self.alloc, session.station(), sequence) else {
            return AnswerKind::Unsent;
        };
        let taken = value(&self.taken);
        self.paused.store(0, Ordering::SeqCst);
        let kind = reply_of(&session.submit(rt, command), sequence);
        if kind == AnswerKind::Refused && value(&self.taken) == taken {
            AnswerKind::Unsent
        } else {
            kind
        }
    }

    // How many commands are published, where the radio is known from the second one on.
    fn published<J: Centre>(&self, session: &mut Session<J>) -> Option<u64> {
        let query = Query::Whereabouts(radio(RADIO)?);
        let answer = session.read(self.alloc, &query);
        match &answer {
            Ok((QueryAnswer::Whereabouts { itsi: _, radio }, count))
                if radio.is_some() == (*count >= 2) => { Some(*count) }
            _ => None,
        }
    }

    // Counts the answer to a command, by how many commands are published then. `was_kept`: the one before it was kept.
    fn note(&self, kind: AnswerKind, sequence: u32, published: Option<u64>, was_kept: bool) {
        let before = u64::from(sequence).saturating_sub(1);
        match (kind, published) {
            (AnswerKind::Unsent, _) => increase(&self.unsent),
            (AnswerKind::Accepted, Some(count)) if count == before + 1 => {}
            (AnswerKind::Kept, Some(count)) if count == before => increase(&self.kept),
            (AnswerKind::Refused, Some(count)) if count == before && was_kept => {
                increase(&self.caught_up);
            }
            (AnswerKind::Refused, Some(count)) if count == before => increase(&self.refused),
            (AnswerKind::Refused, Some(count)) if count.saturating_add(1) == before && was_kept => {
                increase(&self.lagging);
            }
            _ => increase(&self.wrong),
        }
    }

    // Submits a command until it is accepted or kept, and returns which. `None` if it was neither.
    fn submit_on<J: Centre, R: Wait>(
        &self,
        rt: &R,
        session: &mut Session<J>,
        sequence: u32,
        was_kept: bool,
    ) -> Option<AnswerKind> {
        for _ in 0..TRIES {
            let kind = self.submit(rt, session, sequence);
            let published = self.published(session);
            self.note(kind, sequence, published, was_kept);
            if kind == AnswerKind::Accepted || kind == AnswerKind::Kept {
                increase(&self.done);
                return Some(kind);
            }
        }
        None
    }
}

impl<J: Centre> Task<J> for Seen {
    // Waits while no round may be made, and then until a command that was about to be sent has come.
    fn before_round(&self) {
        if value(&self.paused) == 0 {
            return;
        }
        for _ in 0..TURNS {
            if value(&self.paused) == 0 {
                break;
            }
            thread::yield_now();
        }
        for _ in 0..1_000 {
            thread::yield_now();
        }
    }

    fn act<R: Wait>(&self, rt: &R, session: &mut Session<J>) {
        let mut was_kept = false;
        for sequence in 1..=COMMANDS {
            match self.submit_on(rt, session, sequence, was_kept) {
                Some(kind) => was_kept = kind == AnswerKind::Kept,
                None => break,
            }
        }
        self.paused.store(0, Ordering::SeqCst);
    }
}

// Opens a centre over the store, serves its session, and returns how many commands the register then has. If memory runs out
// before the centre is opened, the store comes back.
fn served<J: Centre + Send + Sync, R: Threads + Wait + Sync>(
    rt: &R,
    log: NewLog,
    store: Kept,
    seen: &Seen,
) -> Result<Option<u64>, Kept>
    requires sound { store.broken ≡ false }
    requires centre { (log.seen.book ≡ J.book) × (store.register ≡ J.base) }
    ensures { IfErr result (λ store. store.broken ≡ false) }
{
    match open_centre::<J, WatchedDisk, R>(rt, seen.alloc, log, store, 1) {
        Ok((mut flusher, mut sessions)) => {
            let done = serve_beside(rt, &mut flusher, &mut sessions, seen);
            let store = end_all(rt, flusher, sessions);
            let count = counted(done, &store);
            drop(store);
            Ok(count)
        }
        Err((_, store)) => Err(store),
    }
}

fn counted(done: bool, store: &Kept) -> Option<u64> {
    let count = store.register()?.count();
    if done { Some(count) } else { None }
}

// Opens a centre for the second time.
fn served_again<R: Threads + Wait + Sync>(rt: &R, seen: &Seen, store: Kept) -> Option<u64>
    requires sound { store.broken ≡ false }
{
    match served::<Brand, R>(rt, NewLog::new(), store, seen) {
        Ok(count) => count,
        Err(store) => {
            drop(store);
            None
        }
    }
}

// Opens a centre, and once more if memory ran out.
fn served_once<R: Threads + Wait + Sync>(rt: &R, seen: &Seen) -> Option<u64> {
    let store = opened(seen.alloc, worked_disk(seen.alloc, 4, 39, 400)?)?;
    match served::<Brand, R>(rt, NewLog::new(), store, seen) {
        Ok(count) => count,
        Err(store) => {
            increase(&seen.unopened);
            served_again(rt, seen, store)
        }
    }
}

fn nothing_seen(alloc: Global) -> Seen {
    Seen {
        alloc,
        paused: AtomicU64::new(0),
        taken: AtomicU64::new(0),
        unopened: AtomicU64::new(0),
        unsent: AtomicU64::new(0),
        refused: AtomicU64::new(0),
        caught_up: AtomicU64::new(0),
        lagging: AtomicU64::new(0),
        kept: AtomicU64::new(0),
        done: AtomicU64::new(0),
        wrong: AtomicU64::new(0),
    }
}

/// Prints what the session saw, and whether the register has each command once; the exit status.
pub fn report<R: Threads + Wait + Print + Sync>(rt: &R, alloc: Global) -> u8 {
    let seen = nothing_seen(alloc);
    let count = served_once(rt, &seen);
    let word = match count {
        Some(count) if count == value(&seen.done) => "whole",
        Some(_) => "not whole",
        None => "not served",
    };
    let (unopened, unsent, refused) = (
        value(&seen.unopened),
        value(&seen.unsent),
        value(&seen.refused),
    );
    let (caught_up, lagging, kept) = (
        value(&seen.caught_up),
        value(&seen.lagging),
        value(&seen.kept),
    );
    let (done, wrong) = (value(&seen.done), value(&seen.wrong));
    match println!(rt;
        "{unopened} unopened, {unsent} unsent, {refused} refused, {caught_up} caught up, {lagging} behind, {kept} kept, {done} done, {wrong} wrong, {word}"
    ) {
        Ok(()) => 0,
        Err(_) => 5,
    }
}
