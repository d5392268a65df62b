//! How a centre is opened.
ghost use Rattle.std.specs.Prelude.{◌≡◌, ◌<◌, ◌≤◌, ◌+◌, ℕ, [], true, false, cond, All, IfErr, IfOk, Some, length, replicate, slice_get};
ghost use Rattle.std.specs.VecDeque.{deque_capacity};
ghost use Rattle.station_queue.specs.Ends.{sending, taking};
ghost use Rattle.station_queue.specs.Entries.{share_of};
ghost use Rattle.recovery.specs.Lives.{view_of as store_of};
ghost use Rattle.flusher.specs.declared.opening.CentreFault.TheVariants.{NoMemory, NoPlace};
ghost use Rattle.flusher.specs.Opened.{AreNewSessions, AreOpened, IsNewFlusher, IsNewSession, has_place};
ghost use Rattle.flusher.specs.Attempts.{none_tried, tries};
ghost use Rattle.flusher.specs.Served.{IsSettled};
ghost use Rattle.flusher.specs.View.{view_of_flusher};

use crate::batch::{BatchBuffers, MOST};
use crate::committing::{Committer, register_of};
use crate::flusher::Flusher;
use crate::listening::Listening;
use crate::publishing::Publication;
use crate::response::Response;
use crate::session::Session;
use answers::{AnswerSender, open_channel};
use base::TryCopy;
use centre_core::Register;
use recovery::Store;
use sector_disk::Disk;
use snapshots::{Centre, NewLog, Publisher, Viewer, make};
use station_queue::{Sender, SharedCommand, Taker, open_queue, share_of};
use std::alloc::{AllocError, Global};
use std::collections::VecDeque;
use std::sync::Wait;
use thiserror::Error;

/// Why a centre was not opened.
#[derive(Clone, Copy, Debug, PartialEq, Eq, Drop, Error)]
pub enum CentreFault {
    /// Memory ran out.
    #[error("out of memory")]
    NoMemory,
    /// The number of sessions is not from 1 to the register's limit of stations.
    #[error("there is no place for so many sessions")]
    NoPlace,
}

// The ends of a centre: the taker of the queue, the senders of answers, and the sessions.
#[derive(Drop)]
struct Ends<J: Centre> {
    taker: Taker,
    senders: Vec<AnswerSender<Response<J>>>,
    sessions: Vec<Session<J>>,
}

// What rounds write to: room for commands, and a flag for each station.
#[derive(Drop)]
struct Buffers {
    unpublished: VecDeque<SharedCommand>,
    room: BatchBuffers,
    ended: Vec<bool>,
}

/// Whether there is at least one session, and the register has a station for each.
pub fn has_place(register: &Register<Global>, sessions: usize) -> bool
    ensures { result ≡ has_place register.now.registered.limits.stations sessions }
{
    0 < sessions && sessions <= register.limits().stations as usize
}

// A session with this share on a new channel, and the sender of its answers. The channel has room for an answer to each command
// that the session has under way at a time.
fn open_session<J: Centre>(
    alloc: Global,
    base: u64,
    share: usize,
    sender: Sender,
    viewer: Viewer<J>,
) -> Result<(AnswerSender<Response<J>>, Session<J>), AllocError>
    requires base { base ≡ J.base.count }
    requires few { (1 ≤ share) × (share ≤ 64) }
    requires none_sent { sender.sent ≡ [] }
    requires none_seen { viewer ≡ [] }
    ensures new { IfOk result (λ r. IsNewSession sender.queue sender.station r.0 r.1) }
    ensures share { IfOk result (λ r. r.1.share ≡ share) }
{
    let (answers, receiver) = open_channel(alloc, share)?;
    let session = Session {
        sender,
        receiver,
        viewer,
        listening: Listening::new(base),
        share,
        alloc,
    };
    Ok((answers, session))
}

// A session for each of these stations. There is one viewer for each.
fn open_sessions<J: Centre>(
    alloc: Global,
    base: u64,
    taker: Taker,
    stations: Vec<Sender>,
    mut viewers: Vec<Viewer<J>>,
) -> Result<Ends<J>, AllocError>
    requires base { base ≡ J.base.count }
    requires few { (1 ≤ length stations.items) × (length stations.items ≤ 64) }
    requires queue { taker ≡ taking taker.queue (length stations.items) [] [] taker.empty }
    requires stations { (k : ℕ) → k < length stations.items → slice_get stations.items k ≡ Some (sending taker.queue (k + 1) []) }
    requires viewers { length viewers.items ≡ length stations.items }
    requires none_seen { All (λ v. v ≡ []) viewers.items }
    ensures { IfOk result (λ ends. AreOpened (length stations.items) ends.taker ends.senders.items ends.sessions.items) }
{
    let count = stations.len();
    let share = share_of(count);
    let mut senders = Vec::with_capacity(alloc, count)?;
    let mut sessions = Vec::with_capacity(alloc, count)?;
    for sender in stations {
        let Some(viewer) = viewers.pop() else {
            unreachable!()
        };
        let (answers, session) = open_session(alloc, base, share, sender, viewer)?;
        senders.push_reserved(answers);
        sessions.push_reserved(session);
    }
    Ok(Ends {
        taker,
        senders,
        sessions,
    })
}

// A queue, and a session for each viewer: of stations 1, 2 and so on.
fn open_stations<J: Centre>(
    alloc: Global,
    base: u64,
    viewers: Vec<Viewer<J>>,
) -> Result<Ends<J>, AllocError>
    requires base { base ≡ J.base.count }
    requires few { (1 ≤ length viewers.items) × (length viewers.items ≤ 64) }
    requires none_seen { All (λ v. v ≡ []) viewers.items }
    ensures { IfOk result (λ ends. AreOpened (length viewers.items) ends.taker ends.senders.items ends.sessions.items) }
{
    let (taker, stations) = open_queue(alloc, viewers.len() as u16)?;
    open_sessions(alloc, base, taker, stations, viewers)
}

// Room for 64 commands in each buffer, and a flag for each station. No end was taken yet.
fn open_buffers(alloc: Global, stations: usize) -> Result<Buffers, AllocError>
    ensures unpublished { IfOk result (λ b. (b.unpublished.items ≡ []) × (64 ≤ deque_capacity b.unpublished)) }
    ensures room { IfOk result (λ b. b.room.batch.items ≡ []) }
    ensures ended { IfOk result (λ b. b.ended.items ≡ replicate stations false) }
{
    let unpublished = VecDeque::with_capacity(alloc, MOST)?;
    let batch = VecDeque::with_capacity(alloc, MOST)?;
    let copies = VecDeque::with_capacity(alloc, MOST)?;
    let ended = vec![in alloc; false; stations]?;
    Ok(Buffers {
        unpublished,
        room: BatchBuffers {
            batch,
            copies,
            stations: 0,
        },
        ended,
    })
}

// A publisher of a copy of this register, and the ends of this many sessions. If memory runs out for these, the publisher
// is closed. Nobody reads then, so closing does not wait.
fn open_ends<J: Centre, R: Wait>(
    rt: &R,
    alloc: Global,
    log: NewLog,
    register: &Register<Global>,
    sessions: usize,
) -> Result<(Publisher<J>, Ends<J>), AllocError>
    requires centre { (log.seen.book ≡ J.book) × (register.now ≡ J.base) }
    requires place { (0 < sessions) × (sessions ≤ 64) }
    ensures publisher { IfOk result (λ r. (r.0.published ≡ []) × (r.0.appended ≡ []) × (r.0.refusals ≡ 0)) }
    ensures ends { IfOk result (λ r. AreOpened sessions r.1.taker r.1.senders.items r.1.sessions.items) }
{
    let base = register.count();
    let copy = register.try_copy()?;
    let Ok((publisher, viewers)) = make::<J, R>(rt, alloc, log, copy, sessions) else {
        return Err(AllocError);
    };
    match open_stations(alloc, base, viewers) {
        Ok(ends) => Ok((publisher, ends)),
        Err(AllocError) => {
            publisher.close(rt);
            Err(AllocError)
        }
    }
}

/// Opens a centre over a store that is not broken. It returns its flusher, and the sessions of stations 1, 2 and so on, in
/// that order. After a fault the store comes back.
///
/// It returns `NoPlace` exactly if the number of sessions is not from 1 to the register's limit of stations.
pub fn open_centre<J: Centre, D: Disk, R: Wait>(
    rt: &R,
    alloc: Global,
    log: NewLog,
    store: Store<Global, D>,
    sessions: usize,
) -> Result<(Flusher<J, D>, Vec<Session<J>>), (CentreFault, Store<Global, D>)>
    requires sound { store.broken ≡ false }
    requires centre { (log.seen.book ≡ J.book) × (store.register ≡ J.base) }

    // The flusher has the store, and has taken, committed and sent nothing. The sessions are its own.
    ensures flusher { IfOk result (λ r. IsNewFlusher sessions (store_of store) (view_of_flusher r.0)) }
    ensures settled { IfOk result (λ r. IsSettled J.base (view_of_flusher r.0)) }
    ensures uncounted { IfOk result (λ r. r.0.rounds ≡ 0) }
    ensures untried { IfOk result (λ r. (view_of_flusher r.0).attempts ≡ tries none_tried 0) }
    ensures sessions { IfOk result (λ r. AreNewSessions (view_of_flusher r.0).taker.queue (view_of_flusher r.0).senders r.1.items) }

    // All sessions have equal shares of the queue's places.
    ensures shares { IfOk result (λ r. All (λ s. s.share ≡ share_of sessions) r.1.items) }

    // Which fault comes, and that the store comes back as it was.
    ensures place { IfOk result (λ _. has_place store.register.registered.limits.stations sessions ≡ true) }
    ensures fault { IfErr result (λ e. e.0 ≡ cond (has_place store.register.registered.limits.stations sessions) NoMemory NoPlace) }
    ensures same { IfErr result (λ e. e.1 ≡ store) }
{
    if !has_place(register_of(&store), sessions) {
        return Err((CentreFault::NoPlace, store));
    }
    let Ok(buffers) = open_buffers(alloc, sessions) else {
        return Err((CentreFault::NoMemory, store));
    };
    let Ok((publisher, ends)) = open_ends::<J, R>(rt, alloc, log, register_of(&store), sessions)
    else {
        return Err((CentreFault::NoMemory, store));
    };
    let Ends {
        taker,
        senders,
        sessions,
    } = ends;
    let Buffers {
        unpublished,
        room,
        ended,
    } = buffers;
    let publication = Publication {
        publisher,
        unpublished,
    };
    let flusher = Flusher {
        taker,
        senders,
        publication,
        committer: Committer::new(alloc, store),
        room,
        ended,
        rounds: 0,
    };
    Ok((flusher, sessions))
}
