//! Answers to a batch.
ghost use Rattle.std.specs.Prelude.{◌≡◌, ◌≤◌, ◌<◌, [], ◌∷◌, length};
ghost use Rattle.std.specs.Arc.{arc_value};
ghost use Rattle.std.specs.VecDeque.{deque_capacity};
ghost use Rattle.flusher.specs.Shared.{commands_in};
ghost use Rattle.flusher.specs.Short.{AreShort, HasShortDecision};
ghost use Rattle.flusher.specs.Stages.{BearsOutDecision, BearsOutDecisions, sent, decision_for_all};
ghost use Rattle.flusher.specs.Answerings.{HaveAnswered};
ghost use Rattle.flusher.specs.Batches.{AreWithin};
ghost use Rattle.flusher.specs.Inside.Serving.{answers_alike, answers_by};

use crate::decision::Decision;
use crate::publishing::{Shown, Stamp};
use crate::response::{Response, decision_of};
use answers::AnswerSender;
use recovery::{Outcome, StoreFault};
use snapshots::Centre;
use station_queue::SharedCommand;
use std::alloc::Global;
use std::collections::VecDeque;
use std::sync::Wait;

// Sends an answer to the station of its command.
fn answer_one<J: Centre, R: Wait>(
    rt: &R,
    senders: &mut Vec<AnswerSender<Response<J>>>,
    stamp: &Stamp<J>,
    command: SharedCommand,
    decision: Decision,
)
    requires station { (0 < (arc_value command).station) × ((arc_value command).station ≤ length senders.old.items) }
    requires borne_out { BearsOutDecision J.base stamp.now.published (arc_value command) decision }
    requires short { HasShortDecision decision }
    ensures { HaveAnswered senders.old.items (sent stamp.now.moment.tick (arc_value command) stamp.now.published decision ∷ []) senders.new.items }
{
    let station = usize::from(command.station.number());
    let published = stamp.published.copy();
    let moment = stamp.moment.copy();
    let response = Response {
        command,
        published,
        decision,
        moment,
    };
    senders[station - 1].send(rt, response);
}

/// Answers each command by its outcome.
pub(crate) fn answer_all<J: Centre, R: Wait>(
    rt: &R,
    senders: &mut Vec<AnswerSender<Response<J>>>,
    shown: &Shown<J>,
    batch: &mut VecDeque<SharedCommand>,
    outcomes: Vec<Outcome<Global>>,
)
    requires stations { AreWithin (length senders.old.items) (commands_in batch.old.items) }
    requires borne_out { BearsOutDecisions J.base shown.now.stamp.published shown.now.all (commands_in batch.old.items) outcomes.items }
    requires each { length outcomes.items ≡ length batch.old.items }
    requires short { AreShort outcomes.items }
    ensures answered { HaveAnswered senders.old.items (answers_by shown.now (commands_in batch.old.items) outcomes.items) senders.new.items }
    ensures done { batch.new.items ≡ [] }
    ensures room { deque_capacity batch.new ≡ deque_capacity batch.old }
{
    let mut outcomes = outcomes.into_iter();
    while let Some(command) = batch.pop_front() {
        let Some(outcome) = outcomes.next() else {
            return;
        };
        let decision = decision_of(shown.all, outcome);
        answer_one(rt, senders, &shown.stamp, command, decision);
    }
}

fn decision_for_all(fault: Option<StoreFault>) -> Decision
    ensures { result ≡ decision_for_all fault }
{
    match fault {
        Some(fault) => Decision::Fault(fault),
        None => Decision::NoMemory,
    }
}

/// Gives each command the same answer: this fault, or out of memory for `None`.
pub(crate) fn answer_all_alike<J: Centre, R: Wait>(
    rt: &R,
    senders: &mut Vec<AnswerSender<Response<J>>>,
    stamp: &Stamp<J>,
    fault: Option<StoreFault>,
    batch: &mut VecDeque<SharedCommand>,
)
    requires stations { AreWithin (length senders.old.items) (commands_in batch.old.items) }
    ensures answered { HaveAnswered senders.old.items (answers_alike stamp.now fault (commands_in batch.old.items)) senders.new.items }
    ensures done { batch.new.items ≡ [] }
    ensures room { deque_capacity batch.new ≡ deque_capacity batch.old }
{
    while let Some(command) = batch.pop_front() {
        answer_one(rt, senders, stamp, command, decision_for_all(fault));
    }
}
