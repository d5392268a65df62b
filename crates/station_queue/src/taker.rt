ghost use Rattle.std.specs.Prelude.{◌≡◌, [], ◌∷◌, ◌++◌, ◌+◌, ◌-◌, ◌<◌, ◌≤◌, true, false, List, MatchOption, IfOk, IfSome, OnOk};
ghost use Rattle.station_queue.specs.Entries.{station_of};
ghost use Rattle.crossbeam_queue.specs.Passes.{view as known, IsPassOf};
ghost use Rattle.station_queue.specs.Order.{AreAllSent, IsSameTaker, settled, taker};
ghost use Rattle.station_queue.specs.Ends.{sending, taking, with_settled};

use crate::entry::Entry;
use crate::places::{Permit, Return, open_returns};
use crate::rule::{NewSender, OnePlace, Queue, QueuePass, SenderBack, Takes, Total};
use crate::sender::Sender;
use registration::Station;
use std::alloc::{AllocError, Global};
use std::marker::Model;
use std::sync::{Arc, Wait};

/// The one end that takes.
#[derive(Drop)]
pub struct Taker {
    pub(crate) queue: Arc<Queue, Global>,
    pub(crate) pass: QueuePass,
    pub(crate) empty: bool,
    /// By which the places of each station go back to it, in order of station.
    pub(crate) returns: Vec<Return>,
    /// How many places no station has.
    pub(crate) left: usize,
}

impl Model for Taker {
    ghost use Rattle.std.specs.Prelude.{◌≡◌, [], ◌∷◌, true, All, length};
    ghost use Rattle.std.specs.Arc.{arc_value};
    ghost use Rattle.crossbeam_queue.specs.Passes.{view as known, IsPassOf, ruled_capacity};
    ghost use Rattle.station_queue.specs.Ends.{Taking, taking};

    ghost Value = { Taking };

    ghost view = { λ t. taking t.pass.table_id (known t.pass).made (known t.pass).taken (known t.pass).settled t.empty };

    ghost invariant = { λ t. IsPassOf (arc_value t.queue) t.pass × ((known t.pass).takes ≡ true) × (ruled_capacity (arc_value t.queue) ≡ 64)
        × ((known t.pass).made ≡ length t.returns.items) × All (λ r. r ≡ t.pass.table_id ∷ []) t.returns.items × (t.left ≡ (known t.pass).places) };
}

impl Taker {
    // A sender of the next station, with so many places.
    pub(crate) fn sender(
        &mut self,
        alloc: Global,
        station: Station,
        share: usize,
    ) -> Result<Sender, AllocError>
        requires station { station ≡ self.old.made + 1 }
        requires share { 0 < share }
        ensures sender { IfOk result (λ s. s ≡ sending self.old.queue station []) }
        ensures made { OnOk result (self.new ≡ taking self.old.queue (self.old.made + 1) self.old.taken self.old.settled self.old.empty) }
    {
        let queue = Arc::try_clone(&self.queue)?;
        let (mut returns, back) = open_returns(alloc, share, &queue)?;
        fill(
            &self.queue,
            &mut self.pass,
            &mut self.left,
            &mut returns,
            share,
        );
        let Ok(()) = self.returns.push(returns) else {
            return Err(AllocError);
        };
        let pass = self.queue.another::<NewSender>(&mut self.pass);
        Ok(Sender {
            queue,
            pass,
            station,
            back,
        })
    }

    /// Takes the oldest entry, and gives its place away: to its station, which no clause says. `None` only where it found the queue
    /// empty; of that the clauses say only that this call sets the flag `empty`.
    pub fn take<R: Wait>(&mut self, rt: &R) -> Option<Entry>
        ensures same { (self.new.queue ≡ self.old.queue) × (self.new.made ≡ self.old.made) × (self.new.settled ≡ self.old.settled) }
        ensures taken { MatchOption result ((self.new.taken ≡ self.old.taken) × (self.new.empty ≡ true))
            (λ x. (self.new.taken ≡ self.old.taken ++ x ∷ []) × (self.new.empty ≡ false)) }
        ensures station { IfSome result (λ x. (0 < station_of x) × (station_of x ≤ self.old.made)) }
    {
        let found = self.queue.pop_as::<Takes, R>(rt, &mut self.pass);
        self.empty = found.is_none();
        let entry = found?;
        let station = usize::from(station_of(&entry).number());
        give_one(&self.queue, &mut self.pass, &mut self.returns[station - 1]);
        Some(entry)
    }

    /// Takes a sender of this queue back.
    pub fn settle(&mut self, sender: Sender)
        requires { sender.queue ≡ self.old.queue }
        ensures { self.new ≡ with_settled self.old (settled sender.station sender.sent ∷ []) }
    {
        let Sender {
            queue: _,
            pass,
            station: _,
            back: _,
        } = sender;
        self.queue.absorb::<SenderBack>(&mut self.pass, pass);
    }

    /// Of each sender that came back: what was taken of its station, followed by what the queue holds of it, is what the
    /// station sent.
    pub fn total(&mut self)
        ensures same { self.new ≡ self.old }
        ensures total { (items : List Entry) × AreAllSent self.old.taken items self.old.settled }
    {
        self.queue.learn_as::<Total>(&mut self.pass);
    }
}

// The station whose entry it is.
fn station_of(entry: &Entry) -> Station
    ensures { result ≡ station_of entry.now }
{
    match entry {
        Entry::Submitted(request) => request.command.station,
        Entry::Ended(station) => *station,
    }
}

// Gives one of the taker's places away.
fn give_one(queue: &Queue, pass: &mut QueuePass, returns: &mut Return)
    requires pass { IsPassOf queue.now pass.old }
    requires takes { (known pass.old).takes ≡ true }
    requires some { 0 < (known pass.old).places }
    requires returns { returns.old ≡ pass.old.table_id ∷ [] }
    ensures pass { IsPassOf queue.now pass.new × (pass.new.table_id ≡ pass.old.table_id) }
    ensures view { known pass.new ≡ taker (known pass.old).made (known pass.old).taken (known pass.old).settled ((known pass.old).places - 1) }
    ensures returns { returns.new ≡ returns.old }
{
    let pass = queue.another::<OnePlace>(pass);
    returns.give(Permit { pass });
}

// Gives a station so many of the places that are left, or all of them.
fn fill(queue: &Queue, pass: &mut QueuePass, left: &mut usize, returns: &mut Return, places: usize)
    requires pass { IsPassOf queue.now pass.old }
    requires takes { (known pass.old).takes ≡ true }
    requires left { left.old ≡ (known pass.old).places }
    requires returns { returns.old ≡ pass.old.table_id ∷ [] }
    ensures pass { IsPassOf queue.now pass.new × (pass.new.table_id ≡ pass.old.table_id) }
    ensures view { IsSameTaker (known pass.old) (known pass.new) }
    ensures left { left.new ≡ (known pass.new).places }
    ensures returns { returns.new ≡ returns.old }
{
    for _ in 0..places {
        if *left == 0 {
            return;
        }
        *left -= 1;
        give_one(queue, pass, returns);
    }
}
