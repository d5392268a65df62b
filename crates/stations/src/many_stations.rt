//! Many stations over one store.
ghost use Rattle.std.specs.Prelude.{◌≡◌, ◌≤◌, [], All, true, false, cond, IfErr, IfOk, length, map, vec_capacity, vec_len};
ghost use Rattle.recovery.specs.Figures.{figures_at};
ghost use Rattle.recovery.specs.Lives.{view_of as store_view};
ghost use Rattle.console.specs.Service.{stations_of};
ghost use Rattle.flusher.specs.declared.opening.CentreFault.TheVariants.{NoMemory, NoPlace};
ghost use Rattle.flusher.specs.Closed.{AreSessionsOf, IsClosed};
ghost use Rattle.flusher.specs.Opened.{AreNewSessions, IsNewFlusher, has_place};
ghost use Rattle.flusher.specs.Runs.{HasTakenEnds};
ghost use Rattle.flusher.specs.Served.{IsSettled};
ghost use Rattle.flusher.specs.View.{view_of_flusher};
ghost use Rattle.stations.specs.Many.{CameOfServing};
ghost use Rattle.stations.specs.Orders.{may};

use crate::job::{Done, Job};
use crate::listing_bound::ListingBound;
use crate::orders::Orders;
use crate::port::Port;
use crate::round_gate::since;
use crate::station_job::Shared;
use crate::station_run::StationRun;
use crate::station_threads::{DroppableFlusher, ThreadRoom, serve_all};
use crate::watch::Watch;
use console::ServiceFigures;
use flusher::{CentreFault, Ended, Flusher, Session, close, has_place, open_centre, register_of};
use recovery::{Figures, Store};
use sector_disk::Disk;
use snapshots::{Centre, NewLog};
use std::alloc::{AllocError, Global};
use std::io::{Read, Write};
use std::rt::Clock;
use std::sync::Wait;
use std::sync::atomic::{AtomicU64, Ordering};
use std::thread::Threads;

/// What a run of many stations is given besides its store and its ports.
#[derive(Drop)]
pub struct ManyTerms<'o> {
    /// Where its memory comes from.
    pub alloc: Global,
    /// Which stations may give orders.
    pub orders: Orders<'o>,
    /// The most calls of each reader.
    pub turns: u32,
    /// The log of its centre.
    pub log: NewLog,
    /// How often its disk was synced.
    pub syncs: &'o AtomicU64,
}

/// What came of a run of many stations.
#[derive(Drop)]
pub struct Many<D: Disk, I, O: Drop> {
    /// The store. It is broken if the disk has failed.
    pub store: Store<Global, D>,
    /// What came of the run of each station, in order.
    pub runs: Vec<StationRun<I, O>>,
}

/// What comes back if no station was served.
#[derive(Drop)]
pub struct Unserved<D: Disk, I: Drop, O: Drop> {
    /// Why no station was served.
    pub fault: CentreFault,
    /// The store, as it was.
    pub store: Store<Global, D>,
    /// The ports, as they were.
    pub ports: Vec<Port<I, O>>,
}

impl<D: Disk, I: Drop, O: Drop> Unserved<D, I, O> {
    fn by(fault: CentreFault, store: Store<Global, D>, ports: Vec<Port<I, O>>) -> Self
        ensures fault { result.fault ≡ fault }
        ensures store { result.store ≡ store }
        ensures ports { result.ports ≡ ports }
    {
        Unserved {
            fault,
            store,
            ports,
        }
    }
}

/// What each port is served under.
#[derive(Drop)]
struct PortTerms<'o> {
    orders: Orders<'o>,
    turns: u32,
}

/// The lists of a run of this many stations, still empty, with room for each station.
#[derive(Drop)]
struct RunLists<J: Centre, I: Read + Drop, O: Write + Drop> {
    stations: usize,
    jobs: Vec<Job<J, I, O>>,
    threads: ThreadRoom<J, I, O>,
    ended: Vec<Ended<J>>,
    runs: Vec<StationRun<I, O>>,
    pub ghost threads_room: { stations ≤ threads.stations },
    pub ghost new: { (jobs.items ≡ []) × (ended.items ≡ []) × (runs.items ≡ []) },
    pub ghost room: { (stations ≤ vec_capacity jobs) × (stations ≤ vec_capacity ended) × (stations ≤ vec_capacity runs) },
}

// Room for the threads of this many stations.
fn thread_room<J: Centre, I: Read + Drop, O: Write + Drop>(
    alloc: Global,
    stations: usize,
) -> Result<ThreadRoom<J, I, O>, AllocError>
    ensures { IfOk result (λ r. r.stations ≡ stations) }
{
    let begun = Vec::with_capacity(alloc, stations)?;
    let done = Vec::with_capacity(alloc, stations)?;
    Ok(ThreadRoom {
        stations,
        begun,
        done,
    })
}

// The lists of a run of this many stations.
fn room_for<J: Centre, I: Read + Drop, O: Write + Drop>(
    alloc: Global,
    stations: usize,
) -> Result<RunLists<J, I, O>, AllocError>
    ensures { IfOk result (λ r. r.stations ≡ stations) }
{
    let jobs = Vec::with_capacity(alloc, stations)?;
    let threads = thread_room(alloc, stations)?;
    let ended = Vec::with_capacity(alloc, stations)?;
    let runs = Vec::with_capacity(alloc, stations)?;
    Ok(RunLists {
        stations,
        jobs,
        threads,
        ended,
        runs,
    })
}

// Each session with its port, in order, whether its station may give orders, and the most calls of its reader.
fn jobs_of<J: Centre, I: Read + Drop, O: Write + Drop>(
    sessions: Vec<Session<J>>,
    ports: Vec<Port<I, O>>,
    terms: PortTerms<'_>,
    mut jobs: Vec<Job<J, I, O>>,
) -> Vec<Job<J, I, O>>
    requires count { length sessions.items ≡ length ports.items }
    requires new { jobs.items ≡ [] }
    requires room { vec_len sessions ≤ vec_capacity jobs }
    ensures sessions { map (λ job. job.session) result.items ≡ sessions.items }
    ensures ports { map (λ job. job.port) result.items ≡ ports.items }
    ensures orders { All (λ job. job.orders ≡ may terms.entry.orders job.session.sender.station) result.items }
    ensures turns { All (λ job. job.turns ≡ terms.entry.turns) result.items }
    ensures count { vec_len result ≡ vec_len sessions }
{
    let mut ports = ports.into_iter();
    for session in sessions {
        let Some(port) = ports.next() else {
            unreachable!()
        };
        let may_order = terms.orders.may(session.station());
        jobs.push_reserved(Job {
            session,
            orders: may_order,
            turns: terms.turns,
            port,
        });
    }
    jobs
}

// The ended sessions, and what came of their runs, each in order.
fn split_done<J: Centre, I, O: Drop>(
    done: Vec<Done<J, I, O>>,
    mut ended: Vec<Ended<J>>,
    mut runs: Vec<StationRun<I, O>>,
) -> (Vec<Ended<J>>, Vec<StationRun<I, O>>)
    requires new { (ended.items ≡ []) × (runs.items ≡ []) }
    requires room { (vec_len done ≤ vec_capacity ended) × (vec_len done ≤ vec_capacity runs) }
    ensures ended { result.0.items ≡ map (λ d. d.ended) done.items }
    ensures runs { result.1.items ≡ map (λ d. d.run) done.items }
{
    for one in done {
        let Done { ended: end, run } = one;
        ended.push_reserved(end);
        runs.push_reserved(run);
    }
    (ended, runs)
}

// Closes the centre of a flusher that has taken the end of each session, and returns its store.
fn store_of<J: Centre, D: Disk, R: Wait>(
    rt: &R,
    flusher: Flusher<J, D>,
    ended: Vec<Ended<J>>,
) -> Store<Global, D>
    requires settled { IsSettled J.base (view_of_flusher flusher) }
    requires sessions { AreSessionsOf (view_of_flusher flusher) ended.items }
    requires ended { HasTakenEnds (view_of_flusher flusher) }
    ensures store { store_view result ≡ (view_of_flusher flusher).store }
    ensures closed { IsClosed J.base (view_of_flusher flusher) ended.items }
{
    match close(rt, flusher, ended) {
        Ok(store) => store,
        Err((flusher, ended)) => {
            drop(ended);
            flusher.abandon(rt)
        }
    }
}

// Serves the stations of a centre that was opened, and closes it.
fn serve_opened<
    J: Centre + Send + Sync,
    D: Disk + Drop,
    R: Threads + Wait + Clock + Sync,
    I: Read + Send + Drop,
    O: Write + Send + Drop,
    V: Watch + Sync,
>(
    shared: &Shared<R, V>,
    opened: (Flusher<J, D>, Vec<Session<J>>),
    ports: Vec<Port<I, O>>,
    terms: PortTerms<'_>,
    room: RunLists<J, I, O>,
) -> Many<D, I, O>
    requires settled { IsSettled J.base (view_of_flusher opened.0) }
    requires flusher { IsNewFlusher (vec_len ports) (view_of_flusher opened.0).store (view_of_flusher opened.0) }
    requires sound { (view_of_flusher opened.0).store.broken ≡ false }
    requires sessions { AreNewSessions (view_of_flusher opened.0).taker.queue (view_of_flusher opened.0).senders opened.1.items }
    requires room { room.stations ≡ vec_len ports }
    ensures { CameOfServing D.view J J.base terms.entry.orders terms.entry.turns I.remaining O.contents (view_of_flusher opened.0).store ports.items result }
{
    let (flusher, sessions) = opened;
    let RunLists {
        stations: _,
        jobs,
        threads,
        ended,
        runs,
    } = room;
    let jobs = jobs_of(sessions, ports, terms, jobs);
    let rt = shared.rt;
    let (held, done) = serve_all(shared, DroppableFlusher { flusher, rt }, jobs, threads);
    let (ended, runs) = split_done(done, ended, runs);
    let store = store_of(rt, held.into_flusher(), ended);
    Many { store, runs }
}

// The figures of a store that is not broken.
fn figures_of<D: Disk>(store: &Store<Global, D>) -> Figures
    requires { store.now.broken ≡ false }
    ensures { result ≡ figures_at (store_view store.now) }
{
    let Some(figures) = store.figures() else {
        unreachable!()
    };
    figures
}

// The figures of a service of this many stations that begins.
fn service_of(
    alloc: Global,
    stations: usize,
    start: &Figures,
    syncs: &AtomicU64,
) -> Result<ServiceFigures, AllocError>
    ensures { IfOk result (λ service. stations_of service ≡ stations) }
{
    let syncs = syncs.load(Ordering::SeqCst);
    ServiceFigures::new(alloc, stations, &since(start, start, syncs))
}

/// Serves the ports as stations 1, 2 and so on over a store that is not broken. Each is served in a thread of its own, by a session of
/// its station, beside one flusher in this thread. The call returns once each has ended.
///
/// A run that ends before its reader's last line ends for its station alone. If no thread can be made for a station, its run ends out of
/// memory before its first line (tested).
///
/// `NoPlace` comes exactly if the number of ports is not from 1 to the register's limit of stations. This call's own `NoMemory` comes
/// before the first thread. After either the store and the ports come back as they were. A station's run takes its memory in its thread.
pub fn run_many<
    J: Centre + Send + Sync,
    D: Disk + Drop,
    R: Threads + Wait + Clock + Sync,
    I: Read + Send + Drop,
    O: Write + Send + Drop,
    V: Watch + Sync,
>(
    rt: &R,
    terms: ManyTerms<'_>,
    store: Store<Global, D>,
    ports: Vec<Port<I, O>>,
    watch: &V,
) -> Result<Many<D, I, O>, Unserved<D, I, O>>
    requires sound { store.broken ≡ false }
    requires centre { (terms.log.seen.book ≡ J.book) × (store.register ≡ J.base) }

    // How each station's lines were answered, why its run ended, and what became of the store. A station that may give no orders gave none.
    ensures served { IfOk result (CameOfServing D.view J J.base terms.entry.orders terms.entry.turns I.remaining O.contents (store_view store) ports.items) }

    // Which fault comes, and that the store and the ports come back as they were.
    ensures place { IfOk result (λ many. has_place store.register.registered.limits.stations (vec_len ports) ≡ true) }
    ensures fault { IfErr result (λ e. e.fault ≡ cond (has_place store.register.registered.limits.stations (vec_len ports)) NoMemory NoPlace) }
    ensures same { IfErr result (λ e. (e.store ≡ store) × (e.ports ≡ ports)) }
{
    let stations = ports.len();
    if !has_place(register_of(&store), stations) {
        return Err(Unserved::by(CentreFault::NoPlace, store, ports));
    }
    let ManyTerms {
        alloc,
        orders,
        turns,
        log,
        syncs,
    } = terms;
    let start = figures_of(&store);
    let Ok(service) = service_of(alloc, stations, &start, syncs) else {
        return Err(Unserved::by(CentreFault::NoMemory, store, ports));
    };
    let Ok(room) = room_for(alloc, stations) else {
        return Err(Unserved::by(CentreFault::NoMemory, store, ports));
    };
    match open_centre::<J, D, R>(rt, alloc, log, store, stations) {
        Ok(opened) => {
            let shared = Shared {
                rt,
                watch,
                alloc,
                refused: AtomicU64::new(0),
                bound: ListingBound::new(stations),
                service,
                syncs,
                start,
            };
            let terms = PortTerms { orders, turns };
            Ok(serve_opened(&shared, opened, ports, terms, room))
        }
        Err((fault, store)) => Err(Unserved::by(fault, store, ports)),
    }
}
