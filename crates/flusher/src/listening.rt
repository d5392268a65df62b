//! How a session listens for the answers of its flusher.
ghost use Rattle.std.specs.Prelude.{◌≡◌, false};

use crate::response::Response;
use answers::AnswerReceiver;
use snapshots::Centre;
use std::marker::{Model, PhantomData};
use std::sync::Wait;

// How many commands the register had accepted when the centre was opened, and whether the flusher was found gone. Contracts
// model it as the latter.
#[derive(Drop)]
pub struct Listening<J: Centre> {
    base: u64,
    gone: bool,
    of: PhantomData<J>,
}

impl<J: Centre> Model for Listening<J> {
    ghost use Rattle.std.specs.Prelude.{◌≡◌, Bool};

    ghost Value = { Bool };

    ghost view = { λ l. l.gone };

    ghost invariant = { λ l. l.base ≡ J.base.count };
}

impl<J: Centre> Listening<J> {
    ghost use Rattle.std.specs.Prelude.{◌≡◌, true, MatchOption};
    ghost use Rattle.crossbeam_channel.specs.Ends.{receives_on};
    ghost use Rattle.flusher.specs.Inside.Hearing.{HasReceivedOne};

    // Listens in a centre whose register had accepted so many commands when it was opened. The flusher is not found gone yet.
    pub(crate) fn new(base: u64) -> Listening<J>
        requires { base ≡ J.base.count }
        ensures { result ≡ false }
    {
        Listening {
            base,
            gone: false,
            of: PhantomData,
        }
    }

    // How many commands the register had accepted when the centre was opened.
    pub(crate) fn base(&self) -> u64
        ensures { result ≡ J.base.count }
    {
        self.base
    }

    // Waits for the next answer. If the channel is empty and the flusher gone, it returns `None`, and notes that the flusher is gone.
    pub(crate) fn receive<R: Wait>(
        &mut self,
        rt: &R,
        receiver: &mut AnswerReceiver<Response<J>>,
    ) -> Option<Response<J>>
        ensures same { receives_on receiver.new.channel ≡ receives_on receiver.old.channel }
        ensures received { HasReceivedOne result receiver.old receiver.new }
        ensures noted { MatchOption result (self.new ≡ true) (λ x. self.new ≡ self.old) }
    {
        match receiver.receive(rt) {
            Some(response) => Some(response),
            None => {
                self.gone = true;
                None
            }
        }
    }
}
