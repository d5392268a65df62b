//! A thread for each station, beside the flusher.
ghost use Rattle.std.specs.Prelude.{◌≡◌, ◌≤◌, [], MatchResult, vec_capacity, vec_len};
ghost use Rattle.std.specs.List.{AllZip};
ghost use Rattle.flusher.specs.Served.{IsSettled};
ghost use Rattle.flusher.specs.View.{view_of_flusher};
ghost use Rattle.stations.specs.Done.{AreDone, IsDone};
ghost use Rattle.stations.specs.Flushed.{HasFlushed};

use crate::job::{Done, Job};
use crate::station_job::{Shared, serve};
use crate::watch::Watch;
use flusher::Flusher;
use sector_disk::Disk;
use snapshots::Centre;
use std::io::{Read, Write};
use std::rt::Clock;
use std::snapshot::Snapshot;
use std::sync::Wait;
use std::thread;
use std::thread::{Promise, PromisedHandle, Scope, Threads};

/// The promise of a thread: what it returns came of this job.
#[derive(Drop)]
pub(crate) struct DoneOf<J: Centre, I: Read + Drop, O: Write + Drop> {
    job: Snapshot<Job<J, I, O>>,
}

impl<J: Centre, I: Read + Drop, O: Write + Drop> Promise<Done<J, I, O>> for DoneOf<J, I, O> {
    ghost use Rattle.stations.specs.Done.{IsDone};

    ghost kept_by = { λ p done. IsDone J J.base I.remaining O.contents p.job.value done };
}

/// A station that was begun: its thread, or what came of the station if no thread could be made.
pub(crate) type Begun<J, I, O> = Result<
    PromisedHandle<Done<J, I, O>, DoneOf<J, I, O>>,
    Done<J, I, O>,
>;

/// A flusher that may be dropped. Its store is then dropped too.
pub(crate) struct DroppableFlusher<'r, R: Wait, J: Centre, D: Disk + Drop> {
    pub(crate) flusher: Flusher<J, D>,
    pub(crate) rt: &'r R,
}

impl<'r, R: Wait, J: Centre, D: Disk + Drop> Drop for DroppableFlusher<'r, R, J, D> {
    fn drop(self) {
        let DroppableFlusher { flusher, rt } = self;
        drop(flusher.abandon(rt));
    }
}

impl<'r, R: Wait, J: Centre, D: Disk + Drop> DroppableFlusher<'r, R, J, D> {
    ghost use Rattle.std.specs.Prelude.{◌≡◌};

    /// The flusher.
    pub(crate) fn into_flusher(self) -> Flusher<J, D>
        ensures { result ≡ self.entry.flusher }
    {
        let DroppableFlusher { flusher, rt: _ } = self;
        flusher
    }
}

// Begins a station in a thread of its own. If none can be made, its session is ended here, before its first line. That never
// waits: the session still has all its places in the queue.
fn begin<
    's,
    E,
    J: Centre + Send + Sync + 's,
    R: Wait + Clock + Sync + 's,
    V: Watch + Sync + 's,
    I: Read + Send + Drop + 's,
    O: Write + Send + Drop + 's,
>(scope: &Scope<'s, E>, shared: &'s Shared<'s, 's, R, V>, job: Job<J, I, O>) -> Begun<J, I, O>
    ensures { MatchResult result (λ h. h.promise.job.value ≡ job) (IsDone J J.base I.remaining O.contents job) }
{
    let station = job.session.station();
    let promise = DoneOf {
        job: Snapshot::of(&job),
    };
    match scope.spawn_with(promise, move || serve(shared, job)) {
        Ok(thread) => Ok(thread),
        Err(refused) => {
            shared.refuse(station);
            Err((refused.value)())
        }
    }
}

// Begins each station, in order.
fn begin_all<
    's,
    E,
    J: Centre + Send + Sync + 's,
    R: Wait + Clock + Sync + 's,
    V: Watch + Sync + 's,
    I: Read + Send + Drop + 's,
    O: Write + Send + Drop + 's,
>(
    scope: &Scope<'s, E>,
    shared: &'s Shared<'s, 's, R, V>,
    jobs: Vec<Job<J, I, O>>,
    mut begun: Vec<Begun<J, I, O>>,
) -> Vec<Begun<J, I, O>>
    requires new { begun.items ≡ [] }
    requires room { vec_len jobs ≤ vec_capacity begun }
    ensures begun { AllZip (λ job b. MatchResult b (λ h. h.promise.job.value ≡ job)
        (IsDone J J.base I.remaining O.contents job)) jobs.items result.items }
    ensures count { vec_len result ≡ vec_len jobs }
{
    for job in jobs {
        begun.push_reserved(begin(scope, shared, job));
    }
    begun
}

// What came of a station, once its thread has returned.
fn end<J: Centre, R: Threads, I: Read + Drop, O: Write + Drop>(
    rt: &R,
    begun: Begun<J, I, O>,
) -> Done<J, I, O>
    ensures { MatchResult begun (λ h. IsDone J J.base I.remaining O.contents h.promise.job.value result) (λ done. result ≡ done) }
{
    match begun {
        Ok(thread) => thread.join(rt),
        Err(done) => done,
    }
}

// What came of each station, in order, once its thread has returned.
fn end_all<J: Centre, R: Threads, I: Read + Drop, O: Write + Drop>(
    rt: &R,
    begun: Vec<Begun<J, I, O>>,
    mut done: Vec<Done<J, I, O>>,
) -> Vec<Done<J, I, O>>
    requires new { done.items ≡ [] }
    requires room { vec_len begun ≤ vec_capacity done }
    ensures { AllZip (λ b d. MatchResult b (λ h. IsDone J J.base I.remaining O.contents h.promise.job.value d) (λ done. d ≡ done)) begun.items result.items }
{
    for one in begun {
        done.push_reserved(end(rt, one));
    }
    done
}

/// Room for this many stations: for their threads, and for what comes of them.
#[derive(Drop)]
pub(crate) struct ThreadRoom<J: Centre, I: Read + Drop, O: Write + Drop> {
    pub(crate) stations: usize,
    pub(crate) begun: Vec<Begun<J, I, O>>,
    pub(crate) done: Vec<Done<J, I, O>>,
    pub ghost new: { (begun.items ≡ []) × (done.items ≡ []) },
    pub ghost room: { (stations ≤ vec_capacity begun) × (stations ≤ vec_capacity done) },
}

// Begins each job, flushes until each session has ended, and ends all threads.
fn serve_in<
    's,
    E,
    J: Centre + Send + Sync + 's,
    D: Disk + Drop,
    R: Threads + Wait + Clock + Sync + 's,
    V: Watch + Sync + 's,
    I: Read + Send + Drop + 's,
    O: Write + Send + Drop + 's,
>(
    scope: &Scope<'s, E>,
    shared: &'s Shared<'s, 's, R, V>,
    flusher: &mut Flusher<J, D>,
    jobs: Vec<Job<J, I, O>>,
    room: ThreadRoom<J, I, O>,
) -> Vec<Done<J, I, O>>
    requires settled { IsSettled J.base (view_of_flusher flusher.old) }
    requires room { vec_len jobs ≤ room.stations }
    ensures flushed { HasFlushed D.view J.base (view_of_flusher flusher.old) (view_of_flusher flusher.new) }
    ensures done { AreDone J J.base I.remaining O.contents jobs.items result.items }
{
    let begun = begin_all(scope, shared, jobs, room.begun);
    flusher.run(shared.rt, &shared.round_gate());
    end_all(shared.rt, begun, room.done)
}

// Begins each job, flushes and ends all threads, as `serve_in` does, with a flusher that is passed by value.
fn serve_held<
    's,
    'r,
    E,
    J: Centre + Send + Sync + 's,
    D: Disk + Drop,
    R: Threads + Wait + Clock + Sync + 's,
    V: Watch + Sync + 's,
    I: Read + Send + Drop + 's,
    O: Write + Send + Drop + 's,
>(
    scope: &Scope<'s, E>,
    shared: &'s Shared<'s, 's, R, V>,
    mut held: DroppableFlusher<'r, R, J, D>,
    jobs: Vec<Job<J, I, O>>,
    room: ThreadRoom<J, I, O>,
) -> (DroppableFlusher<'r, R, J, D>, Vec<Done<J, I, O>>)
    requires settled { IsSettled J.base (view_of_flusher held.flusher) }
    requires room { vec_len jobs ≤ room.stations }
    ensures flushed { HasFlushed D.view J.base (view_of_flusher held.entry.flusher) (view_of_flusher result.0.flusher) }
    ensures done { AreDone J J.base I.remaining O.contents jobs.items result.1.items }
{
    let done = serve_in(scope, shared, &mut held.flusher, jobs, room);
    (held, done)
}

/// Serves each job in a thread of its own, and flushes in this one until the session of each has ended. All threads have then
/// returned.
pub(crate) fn serve_all<
    'r,
    J: Centre + Send + Sync,
    D: Disk + Drop,
    R: Threads + Wait + Clock + Sync,
    V: Watch + Sync,
    I: Read + Send + Drop,
    O: Write + Send + Drop,
>(
    shared: &Shared<R, V>,
    held: DroppableFlusher<'r, R, J, D>,
    jobs: Vec<Job<J, I, O>>,
    room: ThreadRoom<J, I, O>,
) -> (DroppableFlusher<'r, R, J, D>, Vec<Done<J, I, O>>)
    requires settled { IsSettled J.base (view_of_flusher held.flusher) }
    requires room { vec_len jobs ≤ room.stations }
    ensures flushed { HasFlushed D.view J.base (view_of_flusher held.entry.flusher) (view_of_flusher result.0.flusher) }
    ensures done { AreDone J J.base I.remaining O.contents jobs.items result.1.items }
{
    thread::scope(
        thread::scope_env(),
        shared.rt,
        move |scope| -> (DroppableFlusher<R, J, D>, Vec<Done<J, I, O>>)
            requires { IsSettled J.base (view_of_flusher held.flusher) × (vec_len jobs ≤ room.stations) }
            ensures { HasFlushed D.view J.base (view_of_flusher held.entry.flusher) (view_of_flusher result.0.flusher)
                × AreDone J J.base I.remaining O.contents jobs.items result.1.items }
        { serve_held(scope, shared, held, jobs, room) },
    )
}
