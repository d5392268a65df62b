//! The figures of a running service, for the query `service`. Threads share them: the flusher's thread writes those of the store, and
//! the thread of each station those of its station. No answer but that of `service` depends on them.
ghost use Rattle.std.specs.Prelude.{◌≡◌, IfOk, length, min};
ghost use Rattle.console.specs.Service.{no_replies, stations_of, with_reply};

use centre_core::Reply;
use registration::Station;
use std::alloc::{AllocError, Allocator, Global};
use std::sync::atomic::{AtomicU64, Ordering};

/// The figures of the store that is served. Commands, syncs and checkpoints are counted from the start of the service.
#[derive(Clone, Copy, Debug, PartialEq, Eq)]
pub struct StoreFigures {
    /// How many commands were accepted.
    pub commands: u64,
    /// How often the disk was synced.
    pub syncs: u64,
    /// How many checkpoints were completed.
    pub checkpoints: u64,
    /// The epoch of the image.
    pub epoch: u64,
    /// How many sectors are free in the half of the journal that is in use.
    pub free: u64,
}

/// The figures of a station.
#[derive(Clone, Copy, Debug, PartialEq, Eq)]
pub struct StationFigures {
    /// How many of its lines were taken.
    pub lines: u64,
    /// How many of its commands were accepted.
    pub accepted: u64,
    /// How many of its commands were refused, or forbidden.
    pub refused: u64,
    /// How many of its commands were answered `kept`.
    pub kept: u64,
    /// Whether it has submitted a command and waits for the answer.
    pub waits: bool,
}

/// How many replies of each kind there were.
#[derive(Clone, Copy, Debug, PartialEq, Eq)]
pub struct ReplyCounts {
    accepted: u64,
    refused: u64,
    kept: u64,
}

impl ReplyCounts {
    /// None yet.
    pub fn new() -> ReplyCounts
        ensures { result ≡ no_replies }
    {
        ReplyCounts {
            accepted: 0,
            refused: 0,
            kept: 0,
        }
    }

    /// Counts one more.
    pub fn add<B: Allocator>(&mut self, reply: &Reply<B>)
        ensures { self.new ≡ with_reply self.old reply.now }
    {
        match reply {
            Reply::Accepted { .. } => self.accepted = self.accepted.saturating_add(1),
            Reply::Kept { .. } => self.kept = self.kept.saturating_add(1),
            Reply::Refused(_) => self.refused = self.refused.saturating_add(1),
        }
    }
}

/// What is counted of a station. Only its own thread counts.
#[derive(Drop)]
struct StationCounts {
    lines: AtomicU64,
    accepted: AtomicU64,
    refused: AtomicU64,
    kept: AtomicU64,
    /// 1 while it waits for an answer, else 0.
    waits: AtomicU64,
}

impl StationCounts {
    fn new() -> StationCounts {
        StationCounts {
            lines: AtomicU64::new(0),
            accepted: AtomicU64::new(0),
            refused: AtomicU64::new(0),
            kept: AtomicU64::new(0),
            waits: AtomicU64::new(0),
        }
    }

    fn figures(&self) -> StationFigures {
        StationFigures {
            lines: self.lines.load(Ordering::SeqCst),
            accepted: self.accepted.load(Ordering::SeqCst),
            refused: self.refused.load(Ordering::SeqCst),
            kept: self.kept.load(Ordering::SeqCst),
            waits: self.waits.load(Ordering::SeqCst) == 1,
        }
    }
}

/// The figures of a service and of its stations.
#[derive(Drop)]
pub struct ServiceFigures {
    rounds: AtomicU64,
    commands: AtomicU64,
    syncs: AtomicU64,
    checkpoints: AtomicU64,
    epoch: AtomicU64,
    free: AtomicU64,
    /// `None` where no stations are served.
    stations: Option<Vec<StationCounts>>,
}

/// The most stations that a register has.
const MOST_STATIONS: usize = 64;

/// No counts yet, for each of so many stations.
fn no_counts(alloc: Global, stations: usize) -> Result<Vec<StationCounts>, AllocError>
    ensures { IfOk result (λ counts. length counts.items ≡ stations) }
{
    let mut counts = Vec::with_capacity(alloc, stations)?;
    for _ in 0..stations {
        counts.push(StationCounts::new())?;
    }
    Ok(counts)
}

impl ServiceFigures {
    /// The figures of a service that begins, over a store with these figures. The clause is about the number of stations alone.
    pub fn new(alloc: Global, stations: usize, store: &StoreFigures) -> Result<Self, AllocError>
        ensures { IfOk result (λ figures. stations_of figures ≡ stations) }
    {
        let counts = no_counts(alloc, stations)?;
        Ok(ServiceFigures {
            rounds: AtomicU64::new(0),
            commands: AtomicU64::new(store.commands),
            syncs: AtomicU64::new(store.syncs),
            checkpoints: AtomicU64::new(store.checkpoints),
            epoch: AtomicU64::new(store.epoch),
            free: AtomicU64::new(store.free),
            stations: Some(counts),
        })
    }

    /// The figures where no service runs.
    pub(crate) fn none() -> Self {
        ServiceFigures {
            rounds: AtomicU64::new(0),
            commands: AtomicU64::new(0),
            syncs: AtomicU64::new(0),
            checkpoints: AtomicU64::new(0),
            epoch: AtomicU64::new(0),
            free: AtomicU64::new(0),
            stations: None,
        }
    }

    /// Records that the flusher's round of this number has begun.
    pub fn set_rounds(&self, rounds: u64) {
        self.rounds.store(rounds, Ordering::SeqCst);
    }

    /// Records the figures that the store has now.
    pub fn set_store(&self, store: &StoreFigures) {
        self.commands.store(store.commands, Ordering::SeqCst);
        self.syncs.store(store.syncs, Ordering::SeqCst);
        self.checkpoints.store(store.checkpoints, Ordering::SeqCst);
        self.epoch.store(store.epoch, Ordering::SeqCst);
        self.free.store(store.free, Ordering::SeqCst);
    }

    /// Records whether a station waits for the answers to what it has submitted.
    pub fn set_waits(&self, station: Station, waits: bool) {
        if let Some(counts) = self.counts_of(station) {
            counts.waits.store(u64::from(waits), Ordering::SeqCst);
        }
    }

    /// Adds the replies that a station was given.
    pub fn add_replies(&self, station: Station, replies: &ReplyCounts) {
        if let Some(counts) = self.counts_of(station) {
            counts
                .accepted
                .fetch_add(replies.accepted, Ordering::SeqCst);
            counts.refused.fetch_add(replies.refused, Ordering::SeqCst);
            counts.kept.fetch_add(replies.kept, Ordering::SeqCst);
        }
    }

    /// Counts an order of a station that was forbidden.
    pub(crate) fn add_forbidden(&self, station: Station) {
        if let Some(counts) = self.counts_of(station) {
            counts.refused.fetch_add(1, Ordering::SeqCst);
        }
    }

    /// Adds this many lines that were taken from a station.
    pub(crate) fn add_lines(&self, station: Station, lines: u64) {
        if let Some(counts) = self.counts_of(station) {
            counts.lines.fetch_add(lines, Ordering::SeqCst);
        }
    }

    fn counts_of(&self, station: Station) -> Option<&StationCounts> {
        let place = usize::from(station.number()).checked_sub(1)?;
        match &self.stations {
            Some(counts) => counts.get(place),
            None => None,
        }
    }

    /// How many rounds of the flusher have begun.
    pub(crate) fn rounds(&self) -> u64 {
        self.rounds.load(Ordering::SeqCst)
    }

    /// The figures of the store.
    pub(crate) fn store(&self) -> StoreFigures {
        StoreFigures {
            commands: self.commands.load(Ordering::SeqCst),
            syncs: self.syncs.load(Ordering::SeqCst),
            checkpoints: self.checkpoints.load(Ordering::SeqCst),
            epoch: self.epoch.load(Ordering::SeqCst),
            free: self.free.load(Ordering::SeqCst),
        }
    }

    /// How many stations are served.
    pub(crate) fn stations(&self) -> usize
        ensures { result ≡ min (stations_of self.now) 64 }
    {
        match &self.stations {
            Some(counts) => counts.len().min(MOST_STATIONS),
            None => 0,
        }
    }

    /// The figures of the station at this place, counted from 0; zeros if it is not served.
    pub(crate) fn station(&self, place: usize) -> StationFigures {
        match &self.stations {
            Some(counts) if place < counts.len() => counts[place].figures(),
            _ => StationFigures {
                lines: 0,
                accepted: 0,
                refused: 0,
                kept: 0,
                waits: false,
            },
        }
    }
}
