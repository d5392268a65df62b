//! The rule that every step on the channel keeps.
use crossbeam_channel::protocol::{Join, Lesson, Outcome, Protocol, Split};
use crossbeam_channel::{Pass, RuledReceiver, RuledSender};
use std::collections::LinkedList;

/// What the holder of a pass knows. No value of it is made.
pub struct ChannelView<T> {
    pub sends: bool,
    pub receives: bool,
    pub sent: LinkedList<T>,
    pub received: LinkedList<T>,
}

/// Messages are received in the order in which they were sent, each once.
pub struct InOrder;

impl<T> Protocol<T, ChannelView<T>> for InOrder {
    ghost use Rattle.std.specs.Prelude.{true, []};
    ghost use Rattle.answers.specs.Views.{view_with, IsInOrder};

    ghost holds = { IsInOrder };

    ghost first = { view_with true true [] [] };
}

/// The first pass splits into the sender's and the receiver's; the two join again at the end.
pub struct Halves;

impl<T> Split<ChannelView<T>> for Halves {
    ghost use Rattle.std.specs.Prelude.{true, false, []};
    ghost use Rattle.answers.specs.Views.{view_with};

    ghost left = { λ v. view_with true false v.sent [] };

    ghost right = { λ v. view_with false true [] v.received };
}

impl<T> Join<ChannelView<T>> for Halves {
    ghost use Rattle.std.specs.Prelude.{true, false, []};
    ghost use Rattle.answers.specs.Views.{view_with};

    ghost both = { λ v w. view_with true true v.sent w.received };

    ghost spent = { view_with false false [] [] };
}

/// One send.
pub struct Sends;

impl<T> Outcome<T, ChannelView<T>> for Sends {
    ghost use Rattle.std.specs.Prelude.{◌≡◌, [], ◌∷◌, ◌++◌};
    ghost use Rattle.answers.specs.Views.{view_with};

    ghost then = { λ v x w. w ≡ view_with v.sends v.receives (v.sent ++ x ∷ []) v.received };
}

impl<T> Lesson<T, ChannelView<T>> for Sends {
    ghost use Rattle.std.specs.Prelude.{⊤};

    ghost fact = { λ v items. ⊤ };
}

/// One receive.
pub struct Receives;

impl<T> Outcome<T, ChannelView<T>> for Receives {
    ghost use Rattle.std.specs.Prelude.{◌≡◌, [], ◌∷◌, ◌++◌};
    ghost use Rattle.answers.specs.Views.{view_with};

    ghost then = { λ v x w. w ≡ view_with v.sends v.receives v.sent (v.received ++ x ∷ []) };
}

impl<T> Lesson<T, ChannelView<T>> for Receives {
    ghost use Rattle.std.specs.Prelude.{⊤};

    ghost fact = { λ v items. ⊤ };
}

/// What is known once both passes are one again.
pub struct Total;

impl<T> Lesson<T, ChannelView<T>> for Total {
    ghost use Rattle.std.specs.Prelude.{◌≡◌, ◌++◌};

    ghost fact = { λ v items. v.sent ≡ v.received ++ items };
}

pub type SendingEnd<T> = RuledSender<T, ChannelView<T>, InOrder>;

pub type ReceivingEnd<T> = RuledReceiver<T, ChannelView<T>, InOrder>;

pub type AnswerPass<T> = Pass<T, ChannelView<T>>;
