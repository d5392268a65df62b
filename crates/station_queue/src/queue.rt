ghost use Rattle.std.specs.Prelude.{◌≡◌, [], ◌+◌, ◌<◌, ◌≤◌, ◌*◌, ℕ, All, length, slice_get, Some, IfOk};
ghost use Rattle.station_queue.specs.Ends.{sending, taking};
ghost use Rattle.station_queue.specs.Entries.{share_of};

use crate::rule::Queue;
use crate::sender::Sender;
use crate::taker::Taker;
use registration::Station;
use std::alloc::{AllocError, Global};
use std::sync::Arc;

/// How many entries the queue holds at most.
pub const PLACES: usize = 64;

/// The share of each of so many stations: how many places of the queue each has. The shares of all of them together fit there.
pub fn share_of(stations: usize) -> usize
    requires { (1 ≤ stations) × (stations ≤ 64) }
    ensures share { result ≡ share_of stations }
    ensures some { (1 ≤ result) × (result ≤ 64) }
    ensures fits { result * stations ≤ 64 }
{
    PLACES / stations
}

/// An empty queue: its taker, and a sender for each station from 1 to `count`, that of station 1 first. Each sender is given the
/// same share of the queue's places (no clause says so). An entry has one of them until it is taken.
pub fn open_queue(alloc: Global, count: u16) -> Result<(Taker, Vec<Sender>), AllocError>
    requires { (1 ≤ count) × (count ≤ 64) }
    ensures taker { IfOk result (λ r. r.0 ≡ taking r.0.queue count [] [] r.0.empty) }
    ensures senders { IfOk result (λ r. (length r.1.items ≡ count) × ((k : ℕ) → k < count → slice_get r.1.items k ≡ Some (sending r.0.queue (k + 1) []))) }
    ensures queue { IfOk result (λ r. All (λ s. s.queue ≡ r.0.queue) r.1.items) }
{
    let mut senders = Vec::with_capacity(alloc, usize::from(count))?;
    let returns = Vec::with_capacity(alloc, usize::from(count))?;
    let share = share_of(usize::from(count));
    let (queue, pass) = Queue::ruled(alloc, PLACES)?;
    let queue = Arc::new(alloc, queue).map_err(|_| AllocError)?;
    let mut taker = Taker {
        queue,
        pass,
        empty: false,
        returns,
        left: PLACES,
    };
    for station in 1..count + 1 {
        let sender = taker.sender(alloc, Station::new(station), share)?;
        let Ok(()) = senders.push(sender) else {
            return Err(AllocError);
        };
    }
    Ok((taker, senders))
}
