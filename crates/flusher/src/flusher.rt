//! The one thread that commits.
ghost use Rattle.std.specs.Prelude.{◌≡◌, ◌⊎◌, ◌+◌, ◌-◌, ◌^◌, [], None, Some, length, MatchBool};
ghost use Rattle.recovery.specs.declared.fault.StoreFault.TheVariants.{Broken};

use crate::batch::{BatchBuffers, take_batch};
use crate::committing::Committer;
use crate::publishing::Publication;
use crate::response::Response;
use crate::serving::{commit_and_answer, refuse};
use answers::AnswerSender;
use recovery::{Figures, StoreFault};
use sector_disk::Disk;
use snapshots::Centre;
use station_queue::Taker;
use std::sync::Wait;

/// What is called in each round, before the round commits. No clause says that it is called, nor with what.
pub trait Gate {
    /// The round of this number, counted from 1, has taken `taken` commands. It is about to commit or refuse them.
    fn before_commit(&self, round: u64, taken: usize);

    /// Called before `before_commit`: the figures of the store, or `None` once the disk has failed.
    fn show_store(&self, _figures: Option<Figures>) {}
}

/// The part of a centre that commits, publishes and answers. It is not `Drop`: end it by `close` or `abandon`.
pub struct Flusher<J: Centre, D: Disk> {
    pub(crate) taker: Taker,
    pub(crate) senders: Vec<AnswerSender<Response<J>>>,
    pub(crate) publication: Publication<J>,
    pub(crate) committer: Committer<D>,
    pub(crate) room: BatchBuffers,
    pub(crate) ended: Vec<bool>,
    pub(crate) rounds: u64,
    pub ghost stations: { taker.made ≡ length senders.items },
    pub ghost flags: { taker.made ≡ length ended.items },
    pub ghost empty: { room.batch.items ≡ [] },
}

// Why nothing is committed: `None` for out of memory, `Broken` if the disk has failed.
fn fault_of(sound: bool) -> Option<StoreFault>
    ensures { MatchBool sound (result ≡ None) (result ≡ Some Broken) }
{
    if sound {
        None
    } else {
        Some(StoreFault::Broken)
    }
}

// The number of the round after this one. The greatest number stays.
fn next_round(round: u64) -> u64
    ensures { (result ≡ round + 1) ⊎ ((round ≡ 2 ^ 64 - 1) × (result ≡ round)) }
{
    round.saturating_add(1)
}

impl<J: Centre, D: Disk> Flusher<J, D> {
    ghost use Rattle.flusher.specs.OnDisk.{BreaksByDisk, IsRoundStored};
    ghost use Rattle.flusher.specs.Rounds.{IsRound};
    ghost use Rattle.flusher.specs.Served.{IsSettled};
    ghost use Rattle.flusher.specs.Stored.{IsStoredFor};
    ghost use Rattle.flusher.specs.View.{view_of_flusher};

    /// One round. Unless the disk has failed, it publishes what an earlier round left. It takes commands. If the disk has not
    /// failed, and all that is durable is published, it commits them and publishes those that are accepted. It answers each.
    pub fn round<R: Wait, T: Gate>(&mut self, rt: &R, gate: &T)
        requires settled { IsSettled J.base (view_of_flusher self.old) }
        ensures settled { IsSettled J.base (view_of_flusher self.new) }
        ensures round { IsRound D.view J.base (view_of_flusher self.old) (view_of_flusher self.new) }
        ensures counted { (self.new.rounds ≡ self.old.rounds + 1) ⊎ ((self.old.rounds ≡ 2 ^ 64 - 1) × (self.new.rounds ≡ self.old.rounds)) }

        // The round is a call in the life of the disk. After it each image of the disk opens to what is durable, or once the disk
        // has failed perhaps to more. If the store was sound before, a stop at any moment of the round leaves the register from
        // before the round or after it. What bears out an answer was durable before the answer was sent. Only a failure of the
        // disk breaks the store.
        ensures stored { IsStoredFor D.view J.base (view_of_flusher self.old) → IsRoundStored D.view J.base (view_of_flusher self.old) (view_of_flusher self.new) }
        ensures breaks { BreaksByDisk D.view (view_of_flusher self.old).store (view_of_flusher self.new).store }
    {
        let Flusher {
            taker,
            senders,
            publication,
            committer,
            room,
            ended,
            rounds,
        } = self;
        let sound = committer.is_sound();
        let level = publication.catch_up(rt, sound);
        take_batch(rt, taker, room, ended);
        *rounds = next_round(*rounds);
        gate.show_store(committer.figures());
        gate.before_commit(*rounds, room.batch.len());
        if level {
            commit_and_answer(rt, committer, publication, senders, room);
            return;
        }
        let stamp = publication.stamp(committer.moment());
        refuse(rt, &stamp, senders, fault_of(sound), room);
    }
}
