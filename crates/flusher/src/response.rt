//! What the flusher sends to a session.
ghost use Rattle.std.specs.Prelude.{◌≡◌};
ghost use Rattle.flusher.specs.Stages.{decision_of};

use crate::decision::Decision;
use crate::moment::Moment;
use centre_core::Reply;
use recovery::Outcome;
use snapshots::{Centre, Published};
use station_queue::SharedCommand;
use std::alloc::Global;
use std::marker::Model;

/// An answer as it is sent: with its command, the list that is published then, and the moment by the disk's clock.
#[derive(Drop)]
pub struct Response<J: Centre> {
    pub(crate) command: SharedCommand,
    pub(crate) published: Published<J>,
    pub(crate) decision: Decision,
    pub(crate) moment: Moment,
}

impl<J: Centre> Model for Response<J> {
    ghost use Rattle.std.specs.Arc.{arc_value};
    ghost use Rattle.centre_core.specs.Histories.{IsHistory};
    ghost use Rattle.flusher.specs.Short.{HasShortDecision};
    ghost use Rattle.flusher.specs.Stages.{Sent, sent, BearsOutDecision};

    ghost Value = { Sent };

    ghost view = { λ r. sent r.moment.tick (arc_value r.command) r.published r.decision };

    ghost invariant = { λ r. IsHistory J.base r.published × BearsOutDecision J.base r.published (arc_value r.command) r.decision
        × HasShortDecision r.decision };
}

/// The decision for an outcome of a commit. `all`: everything durable is published.
pub(crate) fn decision_of(all: bool, outcome: Outcome<Global>) -> Decision
    ensures { result ≡ decision_of all outcome }
{
    match outcome {
        Outcome::Replied(Reply::Accepted { number, pdu }) => {
            if all {
                Decision::Replied(Reply::Accepted { number, pdu })
            } else {
                Decision::Replied(Reply::Kept { number, pdu })
            }
        }
        Outcome::Replied(reply) => Decision::Replied(reply),
        Outcome::NoMemory => Decision::NoMemory,
    }
}
