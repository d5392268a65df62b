ghost use Rattle.std.specs.Prelude.{◌≡◌, [], ◌∷◌, ◌++◌};
ghost use Rattle.crossbeam_queue.specs.Passes.{view as known, IsPassOf, ruled_capacity};
ghost use Rattle.station_queue.specs.Entries.{station_of};
ghost use Rattle.station_queue.specs.Order.{sender};

use crate::entry::Entry;
use crate::places::{Permit, Return};
use crate::rule::{PlaceBack, Puts, Queue, QueuePass};
use registration::Station;
use std::alloc::Global;
use std::marker::Model;
use std::sync::{Arc, Wait};
use std::thread;

/// The end that sends the entries of one station.
#[derive(Drop)]
pub struct Sender {
    pub(crate) queue: Arc<Queue, Global>,
    pub(crate) pass: QueuePass,
    pub(crate) station: Station,
    /// By which its places come back.
    pub(crate) back: Return,
}

impl Model for Sender {
    ghost use Rattle.std.specs.Prelude.{◌≡◌, [], ◌∷◌};
    ghost use Rattle.std.specs.Arc.{arc_value};
    ghost use Rattle.crossbeam_queue.specs.Passes.{view as known, IsPassOf, ruled_capacity};
    ghost use Rattle.station_queue.specs.Order.{sender};
    ghost use Rattle.station_queue.specs.Ends.{Sending, sending};

    ghost Value = { Sending };

    ghost view = { λ s. sending s.pass.table_id s.station (known s.pass).sent };

    ghost invariant = { λ s. IsPassOf (arc_value s.queue) s.pass × (known s.pass ≡ sender s.station (known s.pass).sent 0)
        × (ruled_capacity (arc_value s.queue) ≡ 64) × (s.back ≡ s.pass.table_id ∷ []) };
}

impl Sender {
    /// The station whose entries it sends.
    pub fn station(&self) -> Station
        ensures { result ≡ self.now.station }
    {
        self.station
    }

    /// Sends an entry of its station. The queue always has room for it. It waits only while entries of its own station have all
    /// the station's places there; no clause says so.
    pub fn send<R: Wait>(&mut self, rt: &R, entry: Entry)
        requires { station_of entry ≡ self.old.station }
        ensures sent { self.new.sent ≡ self.old.sent ++ entry ∷ [] }
        ensures same { (self.new.queue ≡ self.old.queue) × (self.new.station ≡ self.old.station) }
    {
        let place = next_place(rt, &mut self.back);
        put(rt, &self.queue, &mut self.pass, place, entry);
    }
}

// Waits for a place that came back.
fn next_place<R: Wait>(rt: &R, back: &mut Return) -> Permit
    ensures same { back.new ≡ back.old }
    ensures place { result ∷ [] ≡ back.old }
{
    for _ in rt.forever() {
        if let Some(place) = back.get() {
            return place;
        }
        thread::yield_now();
    }
    unreachable!()
}

// Puts an entry into the queue, at this place. It never finds the queue full.
fn put<R: Wait>(rt: &R, queue: &Queue, pass: &mut QueuePass, place: Permit, entry: Entry)
    requires pass { IsPassOf queue.now pass.old }
    requires capacity { ruled_capacity queue.now ≡ 64 }
    requires place { place ≡ queue.now.table.shared.table_id }
    requires view { known pass.old ≡ sender (station_of entry) (known pass.old).sent 0 }
    ensures pass { IsPassOf queue.now pass.new × (pass.new.table_id ≡ pass.old.table_id) }
    ensures view { known pass.new ≡ sender (station_of entry) ((known pass.old).sent ++ entry ∷ []) 0 }
{
    let Permit { pass: other } = place;
    queue.absorb::<PlaceBack>(pass, other);
    match queue.push_as::<Puts, R>(rt, pass, entry) {
        Ok(()) => {}
        Err(_) => unreachable!(),
    }
}
