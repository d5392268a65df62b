//! Publishing what is durable.
ghost use Rattle.std.specs.Prelude.{◌≡◌, ◌≤◌, [], length, MatchBool};
ghost use Rattle.std.specs.VecDeque.{deque_capacity};
ghost use Rattle.centre_core.specs.Histories.{IsHistory};
ghost use Rattle.flusher.specs.Attempts.{HasBeenRefused};
ghost use Rattle.flusher.specs.Shared.{commands_in};
ghost use Rattle.flusher.specs.Batches.{accepted_by};
ghost use Rattle.flusher.specs.Inside.Lists.{IsAllPublished, all_of};

use crate::moment::Moment;
use centre_core::Reply;
use recovery::Outcome;
use snapshots::{Centre, Published, Publisher};
use station_queue::SharedCommand;
use std::alloc::Global;
use std::collections::VecDeque;
use std::sync::Wait;

/// The publisher, and the durable commands that it does not have yet. There is room for 64 of these.
pub struct Publication<J: Centre> {
    pub(crate) publisher: Publisher<J>,
    pub(crate) unpublished: VecDeque<SharedCommand>,
    pub ghost room: { 64 ≤ deque_capacity unpublished },
    pub ghost within: { length publisher.published ≤ length publisher.appended },
}

/// What goes with each answer: the list that is published when the answer is sent, and the moment by the disk's clock.
#[derive(Drop)]
pub(crate) struct Stamp<J: Centre> {
    pub(crate) published: Published<J>,
    pub(crate) moment: Moment,
}

/// The stamp of the answers to what was committed, and whether all that is durable is published then.
#[derive(Drop)]
pub(crate) struct Shown<J: Centre> {
    pub(crate) stamp: Stamp<J>,
    pub(crate) all: bool,
}

// Appends what is durable and publishes it. False if the publisher was out of memory; then nothing new is published.
fn publish_all<J: Centre, R: Wait>(
    rt: &R,
    publisher: &mut Publisher<J>,
    unpublished: &mut VecDeque<SharedCommand>,
) -> bool
    requires { IsHistory J.base (all_of publisher.old unpublished.old.items) }
    ensures durable { all_of publisher.new unpublished.new.items ≡ all_of publisher.old unpublished.old.items }
    ensures published { MatchBool result (IsAllPublished publisher.new unpublished.new.items) (publisher.new.published ≡ publisher.old.published) }
    ensures counted { MatchBool result (publisher.new.refusals ≡ publisher.old.refusals) (HasBeenRefused publisher.old.refusals publisher.new.refusals) }
    ensures grows { length publisher.old.appended ≤ length publisher.new.appended }
    ensures room { deque_capacity unpublished.new ≡ deque_capacity unpublished.old }
{
    while let Some(command) = unpublished.pop_front() {
        if let Err(command) = publisher.append(command) {
            unpublished.push_front_reserved(command);
            return false;
        }
    }
    publisher.publish(rt).is_ok()
}

impl<J: Centre> Publication<J> {
    ghost use Rattle.std.specs.Prelude.{◌≡◌, ◌≤◌, [], true, false, length, MatchBool};
    ghost use Rattle.std.specs.VecDeque.{deque_capacity};
    ghost use Rattle.centre_core.specs.Histories.{IsHistory};
    ghost use Rattle.flusher.specs.Shared.{commands_in};
    ghost use Rattle.flusher.specs.Attempts.{HasBeenRefused};
    ghost use Rattle.flusher.specs.Batches.{accepted_by};
    ghost use Rattle.flusher.specs.View.{durable_of};
    ghost use Rattle.flusher.specs.Inside.Publishing.{HasShown, IsCaughtUp};

    // Whether all that is durable is published.
    fn is_caught_up(&self) -> bool
        ensures { MatchBool result (IsCaughtUp self.now) (self.now.publisher.published ≡ durable_of self.now → ⊥) }
    {
        self.unpublished.is_empty() && self.publisher.is_caught_up()
    }

    // Publishes all that is durable. False if the publisher was out of memory; then nothing new is published.
    fn publish_all<R: Wait>(&mut self, rt: &R) -> bool
        requires { IsHistory J.base (durable_of self.old) }
        ensures durable { durable_of self.new ≡ durable_of self.old }
        ensures published { MatchBool result (IsCaughtUp self.new) (self.new.publisher.published ≡ self.old.publisher.published) }
        ensures counted { MatchBool result (self.new.publisher.refusals ≡ self.old.publisher.refusals)
            (HasBeenRefused self.old.publisher.refusals self.new.publisher.refusals) }
    {
        publish_all(rt, &mut self.publisher, &mut self.unpublished)
    }

    /// Publishes what an earlier round left, unless the disk has failed (`sound` is false). It returns whether the disk is sound
    /// and all that is durable is published then.
    pub(crate) fn catch_up<R: Wait>(&mut self, rt: &R, sound: bool) -> bool
        requires { IsHistory J.base (durable_of self.old) }
        ensures durable { durable_of self.new ≡ durable_of self.old }
        ensures level { MatchBool result (IsCaughtUp self.new × (sound ≡ true)) (self.new.publisher.published ≡ self.old.publisher.published) }
        ensures lagging { result ≡ false → sound ≡ true → self.old.publisher.published ≡ durable_of self.old → ⊥ }
        ensures refused { result ≡ false → sound ≡ true → HasBeenRefused self.old.publisher.refusals self.new.publisher.refusals }
        ensures unrefused { result ≡ true → self.new.publisher.refusals ≡ self.old.publisher.refusals }
    {
        if !sound {
            return false;
        }
        if self.is_caught_up() {
            return true;
        }
        self.publish_all(rt)
    }

    /// Keeps the copies of the commands that were accepted, and drops the others.
    pub(crate) fn queue_accepted(
        &mut self,
        copies: &mut VecDeque<SharedCommand>,
        outcomes: &[Outcome<Global>],
    )
        requires empty { self.old.unpublished.items ≡ [] }
        requires few { length copies.old.items ≤ 64 }
        ensures publisher { self.new.publisher ≡ self.old.publisher }
        ensures kept { commands_in self.new.unpublished.items ≡ accepted_by (commands_in copies.old.items) outcomes.now }
        ensures done { copies.new.items ≡ [] }
        ensures room { deque_capacity copies.new ≡ deque_capacity copies.old }
    {
        keep_accepted(&mut self.unpublished, copies, outcomes);
    }

    /// The stamp of answers that are sent at this moment.
    pub(crate) fn stamp(&self, moment: Moment) -> Stamp<J>
        ensures { (result.published ≡ self.now.publisher.published) × (result.moment ≡ moment) }
    {
        Stamp {
            published: self.publisher.published(),
            moment,
        }
    }

    /// Publishes what was just kept, if anything was. The result's `all` is false only if something was kept and memory ran out.
    pub(crate) fn publish_new<R: Wait>(&mut self, rt: &R, moment: Moment) -> Shown<J>
        requires history { IsHistory J.base (durable_of self.old) }
        requires level { self.old.publisher.published ≡ self.old.publisher.appended }
        ensures durable { durable_of self.new ≡ durable_of self.old }
        ensures published { HasShown result.all self.old self.new }
        ensures refused { result.all ≡ false → HasBeenRefused self.old.publisher.refusals self.new.publisher.refusals }
        ensures stamp { (result.stamp.published ≡ self.new.publisher.published) × (result.stamp.moment ≡ moment) }
    {
        let all = self.unpublished.is_empty() || self.publish_all(rt);
        Shown {
            stamp: self.stamp(moment),
            all,
        }
    }
}

// Keeps the copies of the commands that were accepted, and drops the others. There is room for all.
fn keep_accepted(
    unpublished: &mut VecDeque<SharedCommand>,
    copies: &mut VecDeque<SharedCommand>,
    outcomes: &[Outcome<Global>],
)
    requires empty { unpublished.old.items ≡ [] }
    requires room { length copies.old.items ≤ deque_capacity unpublished.old }
    ensures kept { commands_in unpublished.new.items ≡ accepted_by (commands_in copies.old.items) outcomes.now }
    ensures done { copies.new.items ≡ [] }
    ensures room { deque_capacity unpublished.new ≡ deque_capacity unpublished.old }
    ensures also_room { deque_capacity copies.new ≡ deque_capacity copies.old }
{
    for outcome in outcomes {
        let Some(copy) = copies.pop_front() else {
            return;
        };
        if let Outcome::Replied(Reply::Accepted { .. }) = outcome {
            unpublished.push_back_reserved(copy);
        }
    }
    copies.clear();
}
