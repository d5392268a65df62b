//! Commands with their replies.

ghost use Rattle.std.specs.Prelude.{◌≡◌, ◌<◌, ◌+◌, ◌++◌, ◌∷◌, [], position, slice_index_or, MatchOption, take, drop, length, not, true, false, ◌==◌};
ghost use Rattle.centre_core.specs.Batches.{accepted_of};
ghost use Rattle.schedule.specs.World.{Entry};
ghost use Rattle.schedule.specs.Next.{is_empty, cut, first_of, without_first, replies_of};

use centre_core::{Command, Reply};
use registration::Station;
use std::alloc::Allocator;
use std::marker::Model;

/// Commands with their replies, in order.
#[derive(Drop)]
pub(crate) struct Entries<A: Allocator> {
    items: Vec<(Command<A>, Reply<A>), A>,
}

impl<A: Allocator> Model for Entries<A> {
    ghost use Rattle.std.specs.Prelude.{List};
    ghost use Rattle.schedule.specs.World.{Entry};

    ghost Value = { List (Entry A) };

    ghost view = { λ e. e.items.items };
}

fn any_accepted<A: Allocator>(entries: &[(Command<A>, Reply<A>)]) -> bool
    ensures { result ≡ not (is_empty (accepted_of entries.now)) }
{
    for entry in entries {
        if entry.1.is_acceptance() {
            return true;
        }
    }
    false
}

fn place_of<A: Allocator>(entries: &[(Command<A>, Reply<A>)], station: Station) -> Option<usize>
    ensures { result ≡ position (λ (x : Entry A). x.0.station == station) entries.now }
{
    entries.iter().position(|entry| entry.0.station == station)
}

// The place of the first entry of the station.
#[tactic(auto, using(crate::proofs::Placing::placed))]
fn first_place<A: Allocator>(entries: &[(Command<A>, Reply<A>)], station: Station) -> Option<usize>
    ensures { MatchOption result (first_of station entries.now ≡ []) (λ i.
        (i < length entries.now)
        × (without_first station entries.now ≡ take i entries.now ++ drop (i + 1) entries.now)
        × ((d : Entry A) → first_of station entries.now ≡ slice_index_or entries.now i d ∷ [])
        × (is_empty (first_of station entries.now) ≡ false)) }
{
    place_of(entries, station)
}

impl<A: Allocator> Entries<A> {
    pub(crate) fn new(items: Vec<(Command<A>, Reply<A>), A>) -> Self
        ensures { result ≡ items.items }
    {
        Entries { items }
    }

    /// The entries of the commit in flight; none where there is no such commit.
    pub(crate) fn of(alloc: A, in_flight: Option<Self>) -> Self
        ensures { result ≡ replies_of in_flight }
    {
        match in_flight {
            Some(entries) => entries,
            None => Entries::new(Vec::new(alloc)),
        }
    }

    pub(crate) fn is_empty(&self) -> bool
        ensures { result ≡ is_empty self.now }
    {
        self.items.is_empty()
    }

    /// The number of records of their commit: one with all accepted commands, or none if nothing is accepted.
    pub(crate) fn records(&self) -> usize
        ensures { result ≡ length (cut (accepted_of self.now)) }
    {
        if any_accepted(&self.items) { 1 } else { 0 }
    }

    /// Whether the station has an entry.
    pub(crate) fn has(&self, station: Station) -> bool
        ensures { result ≡ not (is_empty (first_of station self.now)) }
    {
        first_place(&self.items, station).is_some()
    }

    /// Removes the first entry of the station, and returns it.
    pub(crate) fn take_first(&mut self, station: Station) -> (Command<A>, Reply<A>)
        requires { not (is_empty (first_of station self.old)) ≡ true }
        ensures first { first_of station self.old ≡ result ∷ [] }
        ensures rest { self.new ≡ without_first station self.old }
    {
        match first_place(&self.items, station) {
            Some(place) => self.items.remove(place),
            None => unreachable!(),
        }
    }

    pub(crate) fn clear(&mut self)
        ensures { self.new ≡ [] }
    {
        self.items.clear();
    }
}
