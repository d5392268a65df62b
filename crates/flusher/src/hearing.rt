//! Receiving the answers to commands.
ghost use Rattle.std.specs.Prelude.{◌≡◌, ◌↔◌, ◌≤◌, ◌+◌, ◌++◌, [], All, IsTrue, length, replicate, vec_capacity, vec_len};
ghost use mathlib.Core.List.{IsPrefix};
ghost use Rattle.crossbeam_channel.specs.Ends.{receives_on};
ghost use Rattle.answers.specs.Views.{received_of};
ghost use Rattle.flusher.specs.declared.answer.Answer.TheVariants.{NoMemory as OutOfMemory};
ghost use Rattle.flusher.specs.Heard.{AreHeard, HaveAllCome, IsHeard};
ghost use Rattle.flusher.specs.Submitted.{BearsOutAnswer, Fits, HasReached, HasShortAnswer, IsAlreadyReached, answer_by, reached_by};
ghost use Rattle.flusher.specs.Inside.Hearing.{all_heard_by, heard_by};

use crate::answer::Answer;
use crate::decision::Decision;
use crate::listening::Listening;
use crate::response::Response;
use answers::AnswerReceiver;
use centre_core::{Command, Reply};
use snapshots::{Centre, Published, Viewer};
use std::alloc::Global;
use std::sync::Wait;

/// Receives the answer to a command that was put into the queue. `reached` counts the commands that the session has reached.
pub(crate) fn hear<J: Centre, R: Wait>(
    rt: &R,
    receiver: &mut AnswerReceiver<Response<J>>,
    listening: &mut Listening<J>,
    viewer: &mut Viewer<J>,
    reached: &mut u64,
    command: &Command<Global>,
) -> Answer<J>
    requires within { reached.old ≤ length viewer.old }
    ensures heard { IsHeard J.base command.now (heard_by receiver.old viewer.old reached.old) (heard_by receiver.new viewer.new reached.new) result }
    ensures short { HasShortAnswer result }
    ensures all { HaveAllCome 1 listening.old listening.new (received_of receiver.old.pass) (received_of receiver.new.pass) }
    ensures same { receives_on receiver.new.channel ≡ receives_on receiver.old.channel }
{
    match listening.receive(rt, receiver) {
        Some(response) => take_in(viewer, listening, reached, command, response),
        None => Answer::Closed,
    }
}

/// Receives the answers to commands that were put into the queue.
pub(crate) fn hear_all<J: Centre, R: Wait>(
    rt: &R,
    receiver: &mut AnswerReceiver<Response<J>>,
    listening: &mut Listening<J>,
    viewer: &mut Viewer<J>,
    commands: &[Command<Global>],
    answers: &mut Vec<Answer<J>>,
)
    requires none { answers.old.items ≡ [] }
    requires room { length commands.now ≤ vec_capacity answers.old }
    ensures heard { AreHeard J.base commands.now (all_heard_by receiver.old viewer.old) (all_heard_by receiver.new viewer.new) answers.new.items }
    ensures all { HaveAllCome (length commands.now) listening.old listening.new (received_of receiver.old.pass) (received_of receiver.new.pass) }
    ensures count { vec_len answers.new ≡ length commands.now }
    ensures short { All HasShortAnswer answers.new.items }
    ensures room { vec_capacity answers.new ≡ vec_capacity answers.old }
    ensures same { receives_on receiver.new.channel ≡ receives_on receiver.old.channel }
{
    let mut reached = viewer.count();
    for k in 0..commands.len() {
        let answer = hear(rt, receiver, listening, viewer, &mut reached, &commands[k]);
        answers.push_reserved(answer);
    }
}

/// Adds so many answers `NoMemory`.
pub(crate) fn refuse_all<J: Centre>(answers: &mut Vec<Answer<J>>, count: usize)
    requires room { vec_len answers.old + count ≤ vec_capacity answers.old }
    requires short { All HasShortAnswer answers.old.items }
    ensures added { answers.new.items ≡ answers.old.items ++ replicate count OutOfMemory }
    ensures short { All HasShortAnswer answers.new.items }
    ensures room { vec_capacity answers.new ≡ vec_capacity answers.old }
{
    for _ in 0..count {
        answers.push_reserved(Answer::NoMemory);
    }
}

// The answer from what was received, if that fits this command, lacks nothing that was seen, and accepts under no number that was
// reached. Then its list is seen, and an accepted command reached.
fn take_in<J: Centre>(
    viewer: &mut Viewer<J>,
    listening: &Listening<J>,
    reached: &mut u64,
    command: &Command<Global>,
    response: Response<J>,
) -> Answer<J>
    requires within { reached.old ≤ length viewer.old }
    ensures borne_out { BearsOutAnswer J.base command.now viewer.old reached.old viewer.new result }
    ensures seen { IsPrefix viewer.old viewer.new }
    ensures fits { Fits J.base command.now viewer.old reached.old response viewer.new result }
    ensures reached { HasReached J.base reached.old reached.new viewer.new result }
    ensures short { HasShortAnswer result }
{
    let Response {
        command: theirs,
        published,
        decision,
        moment: _,
    } = response;
    if !theirs.same(command) {
        return Answer::Closed;
    }
    if !viewer.is_within(&published) {
        return Answer::Closed;
    }
    let base = listening.base();
    if is_already_reached(&decision, base, *reached) {
        return Answer::Closed;
    }
    *reached = reached_by(&decision, base, *reached);
    viewer.follow(&published);
    answer_by(published, decision)
}

// Whether the decision accepts a command under a number that was reached.
fn is_already_reached(decision: &Decision, base: u64, reached: u64) -> bool
    ensures { IsTrue result ↔ IsAlreadyReached base reached decision.now }
{
    match decision {
        Decision::Replied(Reply::Accepted { number, .. }) => {
            number.saturating_sub(base) <= reached
        }
        _ => false,
    }
}

// How many commands are reached once this was decided.
fn reached_by(decision: &Decision, base: u64, reached: u64) -> u64
    ensures { result ≡ reached_by base reached decision.now }
{
    match decision {
        Decision::Replied(Reply::Accepted { number, .. }) => number.saturating_sub(base),
        _ => reached,
    }
}

// The answer for a decision.
fn answer_by<J: Centre>(published: Published<J>, decision: Decision) -> Answer<J>
    ensures { result ≡ answer_by published decision }
{
    match decision {
        Decision::Replied(Reply::Accepted { number, pdu }) => Answer::Accepted {
            number,
            pdu,
            published,
        },
        Decision::Replied(Reply::Kept { number, pdu }) => Answer::Kept { number, pdu },
        Decision::Replied(Reply::Refused(refusal)) => Answer::Refused(refusal),
        Decision::NoMemory => Answer::NoMemory,
        Decision::Fault(fault) => Answer::Fault(fault),
    }
}
