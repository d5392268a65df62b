//! The stations of a world, counted from 1.

ghost use Rattle.std.specs.Prelude.{◌≡◌, ◌++◌, ◌∷◌, [], IfOk, OnOk, OnErr, true, not, cond, drop, replicate};
ghost use Rattle.schedule.specs.World.{line, line_of, with_line};
ghost use Rattle.schedule.specs.Next.{is_empty, is_place, first_one, emptied, unread};

use crate::station::StationLine;
use centre_core::Command;
use std::alloc::{AllocError, Allocator};
use std::marker::Model;

/// The stations in order.
#[derive(Drop)]
pub(crate) struct Seats<A: Allocator> {
    stations: Vec<StationLine<A>, A>,
}

impl<A: Allocator> Model for Seats<A> {
    ghost use Rattle.std.specs.Prelude.{List};
    ghost use Rattle.schedule.specs.World.{Line};

    ghost Value = { List (Line A) };

    ghost view = { λ s. s.stations.items };
}

fn idle_stations<A: Allocator + Copy>(
    alloc: A,
    sessions: u16,
) -> Result<Vec<StationLine<A>, A>, AllocError>
    ensures { IfOk result (λ v. v.items ≡ replicate sessions (line [] 0)) }
{
    let mut stations = Vec::new(alloc);
    for _ in 0..sessions {
        stations.push(StationLine::new(alloc))?;
    }
    Ok(stations)
}

fn fall_all<A: Allocator>(stations: &mut Vec<StationLine<A>, A>)
    ensures { stations.new.items ≡ emptied stations.old.items }
{
    for station in stations.iter_mut() {
        station.fall();
    }
}

fn forget_all<A: Allocator>(stations: &mut Vec<StationLine<A>, A>)
    ensures { stations.new.items ≡ unread stations.old.items }
{
    for station in stations.iter_mut() {
        station.see(0);
    }
}

impl<A: Allocator + Copy> Seats<A> {
    /// So many stations, with nothing queued and nothing seen.
    pub(crate) fn new(alloc: A, sessions: u16) -> Result<Self, AllocError>
        ensures { IfOk result (λ seats. seats ≡ replicate sessions (line [] 0)) }
    {
        Ok(Seats {
            stations: idle_stations(alloc, sessions)?,
        })
    }
}

impl<A: Allocator> Seats<A> {
    /// Whether there is such a station.
    pub(crate) fn has(&self, station: u16) -> bool
        ensures { result ≡ is_place self.now station }
    {
        station > 0 && station as usize <= self.stations.len()
    }

    /// Whether the station has a command in its queue.
    pub(crate) fn waits(&self, station: u16) -> bool
        requires { is_place self.now station ≡ true }
        ensures { result ≡ not (is_empty (line_of self.now station).queue) }
    {
        !self.stations[station as usize - 1].is_idle()
    }

    /// Adds a command to the station's queue.
    pub(crate) fn submit(&mut self, station: u16, command: Command<A>) -> Result<(), AllocError>
        requires { is_place self.old station ≡ true }
        ensures ok { OnOk result (self.new ≡ with_line self.old station
            (line ((line_of self.old station).queue ++ command ∷ []) (line_of self.old station).seen)) }
        ensures err { OnErr result (self.new ≡ self.old) }
    {
        self.stations[station as usize - 1].submit(command)?;
        Ok(())
    }

    /// Removes the first command of the station's queue, and returns it.
    pub(crate) fn seal(&mut self, station: u16) -> Command<A>
        requires place { is_place self.old station ≡ true }
        requires waits { not (is_empty (line_of self.old station).queue) ≡ true }
        ensures first { first_one (line_of self.old station).queue ≡ result ∷ [] }
        ensures rest { self.new ≡ with_line self.old station (line (drop 1 (line_of self.old station).queue) (line_of self.old station).seen) }
    {
        self.stations[station as usize - 1].seal()
    }

    /// The station has seen so many accepted commands.
    pub(crate) fn see(&mut self, station: u16, count: usize)
        requires { is_place self.old station ≡ true }
        ensures { self.new ≡ with_line self.old station (line (line_of self.old station).queue count) }
    {
        self.stations[station as usize - 1].see(count);
    }

    /// The station gets an answer. After an acceptance it has seen all that is published.
    pub(crate) fn take_answer(&mut self, station: u16, accepted: bool, published: usize)
        requires { is_place self.old station ≡ true }
        ensures { self.new ≡ with_line self.old station (line (line_of self.old station).queue (cond accepted published (line_of self.old station).seen)) }
    {
        self.stations[station as usize - 1].take_answer(accepted, published);
    }

    /// Empties the queues.
    pub(crate) fn fall(&mut self)
        ensures { self.new ≡ emptied self.old }
    {
        fall_all(&mut self.stations);
    }

    /// No station has seen anything.
    pub(crate) fn forget(&mut self)
        ensures { self.new ≡ unread self.old }
    {
        forget_all(&mut self.stations);
    }
}
