//! How a batch is served.
ghost use Rattle.std.specs.Prelude.{◌≡◌, [], length};
ghost use Rattle.std.specs.VecDeque.{deque_capacity};
ghost use Rattle.recovery.specs.Lives.{view_of as store_view};
ghost use Rattle.flusher.specs.Shared.{commands_in};
ghost use Rattle.flusher.specs.Stages.{decision_for_all};
ghost use Rattle.flusher.specs.Answerings.{HaveAnswered};
ghost use Rattle.flusher.specs.Batches.{AreWithin};
ghost use Rattle.flusher.specs.Served.{decision_by};
ghost use Rattle.flusher.specs.View.{durable_of};
ghost use Rattle.flusher.specs.Inside.Committing.{KeepsStore};
ghost use Rattle.flusher.specs.Inside.Serving.{HasServedFrom, HavePublishedFrom, IsAfterCommit, IsReady, IsToPublish, answers_alike};

use crate::answering::{answer_all, answer_all_alike};
use crate::batch::{BatchBuffers, commit_batch};
use crate::committing::Committer;
use crate::moment::Moment;
use crate::publishing::{Publication, Stamp};
use crate::response::Response;
use answers::AnswerSender;
use recovery::{Outcome, StoreFault};
use sector_disk::Disk;
use snapshots::Centre;
use station_queue::SharedCommand;
use std::alloc::Global;
use std::collections::VecDeque;
use std::sync::Wait;

// The outcomes of a commit, and the moment after it.
#[derive(Drop)]
struct Committed {
    outcomes: Vec<Outcome<Global>>,
    moment: Moment,
}

// Publishes what was committed, and answers each command by its outcome.
fn publish_and_answer<J: Centre, R: Wait>(
    rt: &R,
    publication: &mut Publication<J>,
    senders: &mut Vec<AnswerSender<Response<J>>>,
    batch: &mut VecDeque<SharedCommand>,
    committed: Committed,
)
    requires committed { IsToPublish J.base publication.old (commands_in batch.old.items) committed.outcomes.items }
    requires stations { AreWithin (length senders.old.items) (commands_in batch.old.items) }
    ensures published { HavePublishedFrom publication.old publication.new (commands_in batch.old.items) committed senders.old.items senders.new.items }
    ensures durable { durable_of publication.new ≡ durable_of publication.old }
    ensures done { batch.new.items ≡ [] }
    ensures room { deque_capacity batch.new ≡ deque_capacity batch.old }
{
    let Committed { outcomes, moment } = committed;
    let shown = publication.publish_new(rt, moment);
    answer_all(rt, senders, &shown, batch, outcomes);
}

/// Gives each command of the batch the same answer, and drops its copy. The answer is this fault, or out of memory for `None`.
pub(crate) fn refuse<J: Centre, R: Wait>(
    rt: &R,
    stamp: &Stamp<J>,
    senders: &mut Vec<AnswerSender<Response<J>>>,
    fault: Option<StoreFault>,
    room: &mut BatchBuffers,
)
    requires stations { AreWithin (length senders.old.items) (commands_in room.old.batch.items) }
    ensures answered { HaveAnswered senders.old.items (answers_alike stamp.now fault (commands_in room.old.batch.items)) senders.new.items }
    ensures done { room.new.batch.items ≡ [] }
{
    room.copies.clear();
    answer_all_alike(rt, senders, stamp, fault, &mut room.batch);
}

// Why a commit was refused: `None` if it was out of memory.
fn reason_of(fault: StoreFault) -> Option<StoreFault>
    ensures { decision_for_all result ≡ decision_by fault }
{
    match fault {
        StoreFault::NoMemory => None,
        fault => Some(fault),
    }
}

/// Commits a batch, publishes what is accepted, and answers each command. The caller has published all that was durable before.
pub(crate) fn commit_and_answer<J: Centre, D: Disk, R: Wait>(
    rt: &R,
    committer: &mut Committer<D>,
    publication: &mut Publication<J>,
    senders: &mut Vec<AnswerSender<Response<J>>>,
    room: &mut BatchBuffers,
)
    requires ready { IsReady J.base publication.old committer.old }
    requires stations { AreWithin (length senders.old.items) (commands_in room.old.batch.items) }

    // What became of the commands, and the answer to each of them.
    ensures served { HasServedFrom publication.old committer.old publication.new committer.new room.old D.view J.base senders.old senders.new }

    // What is durable and what is published, also after the disk failed in the commit.
    ensures durable { IsAfterCommit publication.old committer.old publication.new committer.new room.old J.base }

    // To what the disk opens after a stop at any moment of the call, and that only a failure of the disk breaks the store.
    ensures store { KeepsStore D.view (store_view committer.old.store) (store_view committer.new.store) }
    ensures done { room.new.batch.items ≡ [] }
{
    match commit_batch(committer, &room.batch) {
        Ok(outcomes) => {
            publication.queue_accepted(&mut room.copies, outcomes.as_slice());
            let moment = committer.moment();
            let committed = Committed { outcomes, moment };
            publish_and_answer(rt, publication, senders, &mut room.batch, committed);
        }
        Err(fault) => {
            let stamp = publication.stamp(committer.moment());
            refuse(rt, &stamp, senders, reason_of(fault), room);
        }
    }
}
