//! The rule that every step on the queue keeps.
use crate::entry::Entry;
use crossbeam_queue::protocol::{Join, Lesson, Outcome, Protocol, Split};
use crossbeam_queue::{Pass, RuledArrayQueue};
use std::collections::LinkedList;

/// What a sender that came back has sent. No value of it is made.
pub struct Settled {
    pub station: u64,
    pub sent: LinkedList<Entry>,
}

/// What the holder of a pass knows. No value of it is made.
pub struct QueueView {
    /// Set for the taker's pass: how many senders it made, what it took, and the senders that came back.
    pub takes: bool,
    pub made: u64,
    pub taken: LinkedList<Entry>,
    pub settled: LinkedList<Settled>,
    /// Set for a sender's pass: its station, and what it sent.
    pub sends: bool,
    pub station: u64,
    pub sent: LinkedList<Entry>,
    /// How many places of the queue it has: the right to have as many entries there.
    pub places: u64,
}

/// Each station's entries are taken in the order in which it sent them, each once. Each entry in the queue has a place there.
pub struct InOrder;

impl Protocol<Entry, QueueView> for InOrder {
    ghost use Rattle.std.specs.Prelude.{[]};
    ghost use Rattle.station_queue.specs.Order.{IsInOrder, taker};

    ghost holds = { IsInOrder };

    ghost first = { taker 0 [] [] 64 };
}

/// The taker makes a sender for the next station.
pub struct NewSender;

impl Split<QueueView> for NewSender {
    ghost use Rattle.std.specs.Prelude.{[], ◌+◌};
    ghost use Rattle.station_queue.specs.Order.{taker, sender};

    ghost left = { λ v. taker (v.made + 1) v.taken v.settled v.places };

    ghost right = { λ v. sender (v.made + 1) [] 0 };
}

/// The taker takes a sender back.
pub struct SenderBack;

impl Join<QueueView> for SenderBack {
    ghost use Rattle.std.specs.Prelude.{[], ◌∷◌, ◌++◌};
    ghost use Rattle.station_queue.specs.Order.{taker, settled, nobody};

    ghost both = { λ v w. taker v.made v.taken (v.settled ++ settled w.station w.sent ∷ []) v.places };

    ghost spent = { nobody };
}

/// The taker gives one of its places away.
pub struct OnePlace;

impl Split<QueueView> for OnePlace {
    ghost use Rattle.std.specs.Prelude.{◌-◌};
    ghost use Rattle.station_queue.specs.Order.{taker, place};

    ghost left = { λ v. taker v.made v.taken v.settled (v.places - 1) };

    ghost right = { λ v. place };
}

/// A sender gets the places of another pass.
pub struct PlaceBack;

impl Join<QueueView> for PlaceBack {
    ghost use Rattle.std.specs.Prelude.{◌+◌};
    ghost use Rattle.station_queue.specs.Order.{sender, nobody};

    ghost both = { λ v w. sender v.station v.sent (v.places + w.places) };

    ghost spent = { nobody };
}

/// One push. It takes one of the sender's places.
pub struct Puts;

impl Outcome<Entry, QueueView> for Puts {
    ghost use Rattle.std.specs.Prelude.{◌≡◌, ◌-◌, [], ◌∷◌, ◌++◌};
    ghost use Rattle.station_queue.specs.Order.{sender};

    ghost then = { λ v x w. w ≡ sender v.station (v.sent ++ x ∷ []) (v.places - 1) };
}

// What it would learn of a queue that is full: there is room for its places beside what the queue holds.
impl Lesson<Entry, QueueView> for Puts {
    ghost use Rattle.std.specs.Prelude.{◌+◌, ◌≤◌, length};

    ghost fact = { λ v items. length items + v.places ≤ 64 };
}

/// One pop. The taker gets the entry's place.
pub struct Takes;

impl Outcome<Entry, QueueView> for Takes {
    ghost use Rattle.std.specs.Prelude.{◌≡◌, ◌+◌, ◌<◌, ◌≤◌, [], ◌∷◌, ◌++◌};
    ghost use Rattle.station_queue.specs.Entries.{station_of};
    ghost use Rattle.station_queue.specs.Order.{taker};

    ghost then = { λ v x w. (w ≡ taker v.made (v.taken ++ x ∷ []) v.settled (v.places + 1)) × (0 < station_of x) × (station_of x ≤ v.made) };
}

impl Lesson<Entry, QueueView> for Takes {
    ghost use Rattle.std.specs.Prelude.{⊤};

    ghost fact = { λ v items. ⊤ };
}

/// What was taken, followed by what the queue holds, is what the senders that came back have sent.
pub struct Total;

impl Lesson<Entry, QueueView> for Total {
    ghost use Rattle.station_queue.specs.Order.{AreAllSent};

    ghost fact = { λ v items. AreAllSent v.taken items v.settled };
}

pub type Queue = RuledArrayQueue<Entry, QueueView, InOrder>;

pub type QueuePass = Pass<Entry, QueueView>;
