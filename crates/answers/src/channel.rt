//! The two ends of a channel.
ghost use Rattle.std.specs.Prelude.{◌≡◌, ◌<◌, true, false, [], ◌∷◌, ◌++◌, IfOk, MatchOption};
ghost use mathlib.Core.List.{IsPrefix};
ghost use Rattle.crossbeam_channel.specs.Claims.{view, IsSeatAt};
ghost use Rattle.crossbeam_channel.specs.Ends.{sends_on, receives_on, ruled_capacity};
ghost use Rattle.answers.specs.Views.{view_with, sent_of, received_of};
ghost use Rattle.answers.specs.Sent.{HasSent, AreEnds};

use crate::rule::{AnswerPass, Halves, Receives, ReceivingEnd, SendingEnd, Sends, Total};
use crossbeam_channel::bounded_with;
use std::alloc::{AllocError, Global};
use std::sync::Wait;
use std::thread;

// How often a session asks for its answer before it sleeps. Between two tries it lets other threads run. All tries take
// longer than a commit on a quick disk, since a sleep and a wake-up cost more than the turns of the waiting sessions.
const TRIES: u32 = 512;

/// The end that sends answers to one session.
#[derive(Drop)]
pub struct AnswerSender<T: Drop> {
    pub channel: SendingEnd<T>,
    pub pass: AnswerPass<T>,
    gone: bool,
    pub ghost seat: { IsSeatAt (sends_on channel) pass },
    pub ghost view_is: { view pass ≡ view_with true false (sent_of pass) [] },
}

/// The session's end.
#[derive(Drop)]
pub struct AnswerReceiver<T: Drop> {
    pub channel: ReceivingEnd<T>,
    pub pass: AnswerPass<T>,
    pub ghost seat: { IsSeatAt (receives_on channel) pass },
    pub ghost view_is: { view pass ≡ view_with false true [] (received_of pass) },
}

/// The two ends of a channel with room for so many messages. Nothing was sent yet. With room for each command that a session
/// has under way at a time, the sender never waits for the session; no clause says so.
pub fn open_channel<T: Drop>(
    alloc: Global,
    room: usize,
) -> Result<(AnswerSender<T>, AnswerReceiver<T>), AllocError>
    requires { 0 < room }
    ensures ends { IfOk result (λ r. AreEnds (sends_on r.0.channel) (receives_on r.1.channel) (sent_of r.0.pass) (received_of r.1.pass) r.0.gone) }
    ensures room { IfOk result (λ r. ruled_capacity (sends_on r.0.channel) ≡ room) }
{
    let (sending, receiving, mut pass) = bounded_with(alloc, room)?;
    let other = sending.another::<Halves>(&mut pass);
    Ok((
        AnswerSender {
            channel: sending,
            pass,
            gone: false,
        },
        AnswerReceiver {
            channel: receiving,
            pass: other,
        },
    ))
}

impl<T: Drop> AnswerSender<T> {
    /// Sends an answer, and waits while the channel is full. If the session's end is gone, this answer and all later ones
    /// are dropped.
    pub fn send<R: Wait>(&mut self, rt: &R, answer: T)
        ensures same { sends_on self.new.channel ≡ sends_on self.old.channel }
        ensures sent { HasSent (sent_of self.old.pass) self.old.gone answer (sent_of self.new.pass) self.new.gone }
    {
        if self.gone {
            return;
        }
        match self.channel.send_as::<Sends, R>(rt, &mut self.pass, answer) {
            Ok(()) => {}
            Err(_) => self.gone = true,
        }
    }

    /// Ends the channel. What the session received is a prefix of what was sent to it.
    pub fn settle(self, receiver: AnswerReceiver<T>)
        requires { receives_on receiver.channel ≡ sends_on self.channel }
        ensures { IsPrefix (received_of receiver.pass) (sent_of self.pass) }
    {
        let AnswerSender {
            channel,
            mut pass,
            gone: _,
        } = self;
        let AnswerReceiver {
            channel: _,
            pass: other,
        } = receiver;
        channel.absorb::<Halves>(&mut pass, other);
        channel.learn_as::<Total>(&mut pass);
    }
}

impl<T: Drop> AnswerReceiver<T> {
    /// Waits for the next answer. `None` if the channel is empty and its sender gone.
    pub fn receive<R: Wait>(&mut self, rt: &R) -> Option<T>
        ensures same { receives_on self.new.channel ≡ receives_on self.old.channel }
        ensures received { MatchOption result (view self.new.pass ≡ view self.old.pass) (λ x. received_of self.new.pass ≡ received_of self.old.pass ++ x ∷ []) }
    {
        for _ in 0..TRIES {
            if let Some(answer) = self.ask(rt) {
                return Some(answer);
            }
            thread::yield_now();
        }
        self.sleep(rt)
    }

    // The next answer, if it has come.
    fn ask<R: Wait>(&mut self, rt: &R) -> Option<T>
        ensures same { receives_on self.new.channel ≡ receives_on self.old.channel }
        ensures received { MatchOption result (view self.new.pass ≡ view self.old.pass) (λ x. received_of self.new.pass ≡ received_of self.old.pass ++ x ∷ []) }
    {
        match self.channel.try_recv_as::<Receives, R>(rt, &mut self.pass) {
            Ok(found) => Some(found),
            Err(_) => None,
        }
    }

    // Sleeps until the next answer comes. `None` as at `receive`.
    fn sleep<R: Wait>(&mut self, rt: &R) -> Option<T>
        ensures same { receives_on self.new.channel ≡ receives_on self.old.channel }
        ensures received { MatchOption result (view self.new.pass ≡ view self.old.pass) (λ x. received_of self.new.pass ≡ received_of self.old.pass ++ x ∷ []) }
    {
        match self.channel.recv_as::<Receives, R>(rt, &mut self.pass) {
            Ok(answer) => Some(answer),
            Err(_) => None,
        }
    }
}
