//! The world and its steps.

ghost use Rattle.std.specs.Prelude.{◌≡◌, ◌<◌, ◌≤◌, ◌++◌, true, IfOk, OnOk, IfErr, OnErr, length, take};
ghost use Rattle.std.specs.Option.{option_copied};
ghost use Rattle.schedule.specs.World.{ground, opening};
ghost use Rattle.schedule.specs.Next.{is_station, is_still, may, effect, all_of, takes_memory, Next, IsRefused, records_of, last_answer};

use crate::batch;
use crate::entries::Entries;
use crate::event::Event;
use crate::fault::StepFault;
use crate::seats::Seats;
use centre_core::{Command, Register, Reply};
use registration::Station;
use std::alloc::{AllocError, Allocator};
use std::marker::Model;
use std::mem;

/// The most commands of a batch.
const MOST_SEALED: usize = 64;

/// The centre as a machine over events. It starts from a register with no accepted command, and keeps everything in
/// its own allocator.
#[derive(Drop)]
pub struct World<A: Allocator> {
    alloc: A,
    seats: Seats<A>,
    batch: Vec<Command<A>, A>,
    accepted: Vec<Command<A>, A>,
    durable: usize,
    published: usize,
    in_flight: Option<Entries<A>>,
    owed: Entries<A>,
    answers: Vec<(Command<A>, Reply<A>), A>,
    checking: bool,
    down: bool,
    // The register after all that is accepted.
    register: Register<A>,
}

impl<A: Allocator> Model for World<A> {
    ghost use Rattle.std.specs.Prelude.{◌≡◌, ◌≤◌, length};
    ghost use Rattle.centre_core.specs.History.{after};
    ghost use Rattle.schedule.specs.Next.{IsInFlight};
    ghost use Rattle.schedule.specs.World.{World as Machine, ground};

    ghost Value = { Machine A };

    ghost view = { λ w. record {
      lines = w.seats;
      batch = w.batch.items;
      accepted = w.accepted.items;
      durable = w.durable;
      published = w.published;
      in_flight = w.in_flight;
      owed = w.owed;
      answers = w.answers.items;
      checking = w.checking;
      down = w.down;
    } };

    ghost invariant = { λ w. (w.register ≡ after ground w.accepted.items) × (w.durable ≤ length w.accepted.items)
        × IsInFlight w.down w.durable w.accepted.items w.in_flight };
}

impl<A: Allocator + Copy> World<A> {
    /// A world of so many sessions, 1 to 64, whose stations are counted from 1. Nothing was submitted, accepted or
    /// answered.
    pub fn new(alloc: A, sessions: u16) -> Result<Self, AllocError>
        requires above { 0 < sessions }
        requires below { sessions ≤ 64 }
        ensures { IfOk result (λ w. w ≡ opening sessions) }
    {
        Ok(World {
            alloc,
            seats: Seats::new(alloc, sessions)?,
            batch: Vec::new(alloc),
            accepted: Vec::new(alloc),
            durable: 0,
            published: 0,
            in_flight: None,
            owed: Entries::new(Vec::new(alloc)),
            answers: Vec::new(alloc),
            checking: false,
            down: false,
            register: batch::ground(alloc)?,
        })
    }

    fn is_station(&self, station: Station) -> bool
        ensures { result ≡ is_station self.now station }
    {
        self.seats.has(station.number())
    }

    fn is_still(&self) -> bool
        ensures { result ≡ is_still self.now }
    {
        !self.down && self.in_flight.is_none()
    }

    fn may_seal(&self, station: Station) -> bool
        ensures { result ≡ may self.now (Event.Seal station) }
    {
        self.is_station(station)
            && self.is_still()
            && self.owed.is_empty()
            && self.batch.len() < MOST_SEALED
            && self.seats.waits(station.number())
    }

    fn may_commit(&self) -> bool
        ensures { result ≡ may self.now Event.CommitBegin }
    {
        self.is_still() && !self.batch.is_empty() && self.published == self.durable
    }

    fn may_answer(&self, station: Station) -> bool
        ensures { result ≡ may self.now (Event.Answer station) }
    {
        self.is_station(station) && (!self.down && self.owed.has(station))
    }

    fn may_crash(&self, count: usize) -> bool
        ensures { result ≡ may self.now (Event.Crash count) }
    {
        let records = match &self.in_flight {
            None => 0,
            Some(flight) => flight.records(),
        };
        !self.down && count <= records
    }

    fn may(&self, event: &Event<A>) -> bool
        ensures { result ≡ may self.now event.now }
    {
        match event {
            Event::Submit(station, command) => {
                self.is_station(*station) && !self.down && command.station == *station
            }
            Event::Seal(station) => self.may_seal(*station),
            Event::CommitBegin => self.may_commit(),
            Event::CommitEnd => self.in_flight.is_some(),
            Event::Publish => self.is_still(),
            Event::Answer(station) => self.may_answer(*station),
            Event::Read(station) => self.is_station(*station),
            Event::CheckpointBegin => self.is_still() && !self.checking,
            Event::CheckpointEnd => self.checking,
            Event::Crash(count) => self.may_crash(*count),
            Event::Reopen => self.down,
        }
    }

    fn submit(&mut self, station: Station, command: &Command<A>) -> Result<(), AllocError>
        requires { may self.old (Event.Submit station command.now) ≡ true }
        ensures ok { OnOk result (self.new ≡ effect ground self.old (Event.Submit station command.now)) }
        ensures err { OnErr result (self.new ≡ self.old) }
    {
        let copy = batch::copy_of(self.alloc, command)?;
        self.seats.submit(station.number(), copy)?;
        Ok(())
    }

    fn seal(&mut self, station: Station) -> Result<(), AllocError>
        requires { may self.old (Event.Seal station) ≡ true }
        ensures ok { OnOk result (self.new ≡ effect ground self.old (Event.Seal station)) }
        ensures err { OnErr result (self.new ≡ self.old) }
    {
        self.batch.reserve(1)?;
        let command = self.seats.seal(station.number());
        self.batch.push_reserved(command);
        Ok(())
    }

    fn commit_begin(&mut self) -> Result<(), AllocError>
        requires { may self.old Event.CommitBegin ≡ true }
        ensures ok { OnOk result (self.new ≡ effect ground self.old Event.CommitBegin) }
        ensures err { OnErr result (self.new ≡ self.old) }
    {
        let (register, replies, mut news) = batch::judged(self.alloc, &self.register, &self.batch)?;
        if let Err(error) = self.accepted.append(&mut news) {
            drop(register);
            return Err(error);
        }
        drop(mem::replace(&mut self.register, register));
        self.in_flight = Some(Entries::new(replies));
        Ok(())
    }

    fn commit_end(&mut self)
        requires { may self.old Event.CommitEnd ≡ true }
        ensures { self.new ≡ effect ground self.old Event.CommitEnd }
    {
        self.owed = Entries::of(self.alloc, self.in_flight.take());
        self.durable = self.accepted.len();
        self.batch.clear(); // each is answered once
    }

    fn publish(&mut self)
        requires { may self.old Event.Publish ≡ true }
        ensures { self.new ≡ effect ground self.old Event.Publish }
    {
        self.published = self.durable;
    }

    fn read(&mut self, station: Station)
        requires { may self.old (Event.Read station) ≡ true }
        ensures { self.new ≡ effect ground self.old (Event.Read station) }
    {
        self.seats.see(station.number(), self.published); // and no more
    }

    fn reopen(&mut self)
        requires { may self.old Event.Reopen ≡ true }
        ensures { self.new ≡ effect ground self.old Event.Reopen }
    {
        self.seats.forget();
        self.durable = self.accepted.len();
        self.published = self.accepted.len();
        self.down = false;
    }

    fn answer(&mut self, station: Station) -> Result<(), AllocError>
        requires { may self.old (Event.Answer station) ≡ true }
        ensures ok { OnOk result (self.new ≡ effect ground self.old (Event.Answer station)) }
        ensures err { OnErr result (self.new ≡ self.old) }
    {
        self.answers.reserve(1)?;
        let (command, reply) = self.owed.take_first(station);
        let answer = batch::answer_from(self.published == self.durable, reply);
        let accepted = answer.is_acceptance();
        self.seats
            .take_answer(station.number(), accepted, self.published);
        self.answers.push_reserved((command, answer));
        Ok(())
    }

    fn check(&mut self, checking: bool)
        ensures { self.new ≡ record (self.old) { checking = checking } }
    {
        self.checking = checking;
    }

    // The number of commands after a crash, where so many records reached the disk.
    fn left_length(&self, count: usize) -> usize
        requires { may self.now (Event.Crash count) ≡ true }
        ensures prefix { take result self.now.accepted
            ≡ take self.now.durable self.now.accepted ++ all_of (take count (records_of self.now.in_flight)) }
        ensures durable { self.now.durable ≤ result }
        ensures within { result ≤ length self.now.accepted }
    {
        if count == 0 {
            self.durable
        } else {
            self.accepted.len()
        }
    }

    fn crash(&mut self, count: usize) -> Result<(), AllocError>
        requires { may self.old (Event.Crash count) ≡ true }
        ensures ok { OnOk result (self.new ≡ effect ground self.old (Event.Crash count)) }
        ensures err { OnErr result (self.new ≡ self.old) }
    {
        let length = self.left_length(count);
        let register = batch::replay(self.alloc, &self.accepted.as_slice()[..length])?;
        self.seats.fall();
        self.batch.clear();
        self.accepted.truncate(length);
        self.in_flight = None;
        self.owed.clear();
        self.checking = false;
        self.down = true;
        drop(mem::replace(&mut self.register, register));
        Ok(())
    }

    fn carry_out(&mut self, event: &Event<A>) -> Result<(), AllocError>
        requires { may self.old event.now ≡ true }
        ensures ok { OnOk result (self.new ≡ effect ground self.old event.now) }
        ensures err { OnErr result (self.new ≡ self.old) }
        ensures memory { OnErr result (takes_memory event.now ≡ true) }
    {
        match event {
            Event::Submit(station, command) => self.submit(*station, command)?,
            Event::Seal(station) => self.seal(*station)?,
            Event::CommitBegin => self.commit_begin()?,
            Event::CommitEnd => self.commit_end(),
            Event::Publish => self.publish(),
            Event::Answer(station) => self.answer(*station)?,
            Event::Read(station) => self.read(*station),
            Event::CheckpointBegin => self.check(true),
            Event::CheckpointEnd => self.check(false),
            Event::Crash(count) => self.crash(*count)?,
            Event::Reopen => self.reopen(),
        }
        Ok(())
    }

    /// Takes one event. `NotNow`: the event may not come. `NoMemory`: it may, but memory ran out. Either fault
    /// changes nothing. `CommitEnd`, `Publish`, `Read`, `Reopen` and the two events of a checkpoint take no
    /// memory.
    pub fn step(&mut self, event: &Event<A>) -> Result<(), StepFault>
        ensures ok { OnOk result (Next ground self.old event.now self.new) }
        ensures refused { IfErr result (λ fault. IsRefused self.old event.now fault × (self.new ≡ self.old)) }
    {
        if !self.may(event) {
            return Err(StepFault::NotNow);
        }
        match self.carry_out(event) {
            Ok(()) => Ok(()),
            Err(_) => Err(StepFault::NoMemory),
        }
    }

    /// How many commands are accepted.
    pub fn accepted(&self) -> u64
        ensures { result ≡ length self.now.accepted }
    {
        self.accepted.len() as u64
    }

    /// How many of the accepted commands are durable.
    pub fn durable(&self) -> u64
        ensures { result ≡ self.now.durable }
    {
        self.durable as u64
    }

    /// How many of the accepted commands are published.
    pub fn published(&self) -> u64
        ensures { result ≡ self.now.published }
    {
        self.published as u64
    }

    /// The last answer to the station, if it had one.
    pub fn last_answer(&self, station: Station) -> Option<&Reply<A>>
        ensures { option_copied result ≡ last_answer station self.now.answers }
    {
        batch::last_answer(&self.answers, station)
    }
}
