//! The centre once more, as plain lists of stations and sequences.

ghost use Rattle.std.specs.Prelude.{◌<◌, IfSome, length};

use crate::commands::Made;
use std::alloc::{AllocError, Global};

/// A command by its station and sequence.
pub type Sent = (u16, u32);

/// A world of four stations, as numbers and plain lists.
#[derive(Drop)]
pub struct Plain {
    queued: Vec<Sent>,
    batch: Vec<Sent>,
    accepted: Vec<Sent>,
    durable: usize,
    published: usize,
    at_work: bool,
    owed: Vec<Sent>,
    checking: bool,
    down: bool,
}

/// The stations of the world.
pub const STATIONS: u16 = 4;

fn is_station(station: u16) -> bool {
    (1..=STATIONS).contains(&station)
}

fn first_of(list: &[Sent], station: u16) -> Option<usize>
    ensures { IfSome result (λ place. place < length list.now) }
{
    list.iter().position(|sent| sent.0 == station)
}

/// The sequence of the station's last command, or 0.
fn last_of(list: &[Sent], station: u16) -> u32 {
    let mut last = 0;
    for sent in list {
        if sent.0 == station {
            last = sent.1;
        }
    }
    last
}

impl Plain {
    pub fn new(alloc: Global) -> Plain {
        Plain {
            queued: Vec::new(alloc),
            batch: Vec::new(alloc),
            accepted: Vec::new(alloc),
            durable: 0,
            published: 0,
            at_work: false,
            owed: Vec::new(alloc),
            checking: false,
            down: false,
        }
    }

    /// The numbers of accepted, durable and published commands.
    pub fn numbers(&self) -> (usize, usize, usize) {
        (self.accepted.len(), self.durable, self.published)
    }

    /// Whether no more is published than durable, and no more durable than accepted.
    pub fn is_in_order(&self) -> bool {
        self.published <= self.durable && self.durable <= self.accepted.len()
    }

    /// The next sequence of a station that was not submitted yet, by these lists.
    pub fn next(&self, station: u16) -> u32 {
        let queued = last_of(&self.queued, station);
        let sealed = last_of(&self.batch, station);
        let accepted = last_of(&self.accepted, station);
        queued.max(sealed).max(accepted).saturating_add(1)
    }

    /// The most records that can reach the disk at a crash.
    pub fn records(&self) -> usize {
        usize::from(self.at_work && self.durable < self.accepted.len())
    }

    fn is_still(&self) -> bool {
        !self.down && !self.at_work
    }

    /// Takes the event, and returns whether it came.
    pub fn step(&mut self, made: Made) -> Result<bool, AllocError> {
        match made {
            Made::Submit(station, sequence) | Made::SubmitRule(station, sequence) => {
                self.submit(station, sequence)
            }
            Made::Seal(station) => self.seal(station),
            Made::CommitBegin => self.begin(),
            Made::CommitEnd => self.end(),
            Made::Publish => Ok(self.publish()),
            Made::Answer(station) => Ok(self.answer(station)),
            Made::Read(station) => Ok(is_station(station)),
            Made::CheckpointBegin => Ok(self.check()),
            Made::CheckpointEnd => Ok(self.uncheck()),
            Made::Crash(count) => Ok(self.crash(count)),
            Made::Reopen => Ok(self.reopen()),
        }
    }

    fn submit(&mut self, station: u16, sequence: u32) -> Result<bool, AllocError> {
        if self.down || !is_station(station) {
            return Ok(false);
        }
        self.queued.push((station, sequence))?;
        Ok(true)
    }

    fn seal(&mut self, station: u16) -> Result<bool, AllocError> {
        if !self.is_still() || !self.owed.is_empty() || self.batch.len() >= 64 {
            return Ok(false);
        }
        match first_of(&self.queued, station) {
            Some(place) => {
                self.batch.push(self.queued.remove(place))?;
                Ok(true)
            }
            None => Ok(false),
        }
    }

    fn begin(&mut self) -> Result<bool, AllocError> {
        if !self.is_still() || self.batch.is_empty() || self.published != self.durable {
            return Ok(false);
        }
        for sent in &self.batch {
            if sent.1 > last_of(&self.accepted, sent.0) {
                self.accepted.push(*sent)?;
            }
        }
        self.at_work = true;
        Ok(true)
    }

    fn end(&mut self) -> Result<bool, AllocError> {
        if !self.at_work {
            return Ok(false);
        }
        self.at_work = false;
        self.durable = self.accepted.len();
        self.owed.append(&mut self.batch)?;
        Ok(true)
    }

    fn publish(&mut self) -> bool {
        let may = self.is_still();
        if may {
            self.published = self.durable;
        }
        may
    }

    fn answer(&mut self, station: u16) -> bool {
        if self.down {
            return false;
        }
        match first_of(&self.owed, station) {
            Some(place) => {
                let _ = self.owed.remove(place);
                true
            }
            None => false,
        }
    }

    fn check(&mut self) -> bool {
        let may = self.is_still() && !self.checking;
        self.checking = self.checking || may;
        may
    }

    fn uncheck(&mut self) -> bool {
        let was = self.checking;
        self.checking = false;
        was
    }

    fn crash(&mut self, count: usize) -> bool {
        if self.down || count > self.records() {
            return false;
        }
        if count == 0 {
            self.accepted.truncate(self.durable);
        }
        self.queued.clear();
        self.batch.clear();
        self.owed.clear();
        self.at_work = false;
        self.checking = false;
        self.down = true;
        true
    }

    fn reopen(&mut self) -> bool {
        let was = self.down;
        if was {
            self.durable = self.accepted.len();
            self.published = self.accepted.len();
            self.down = false;
        }
        was
    }
}
