//! What passes in a run, for contracts alone.
ghost use Rattle.std.specs.Prelude.{◌≡◌, [], List, ◌∷◌, ◌++◌};
ghost use Rattle.std.specs.Borrow.{ftrue};
ghost use Rattle.console.specs.Events.{Event};
ghost use Rattle.console.specs.Inside.EventCode.{events_code};

use std::marker::Model;

/// The list of events is a ghost: it takes no bytes.
#[derive(Drop)]
pub(crate) struct Events {
    ghost list: { List Event } by { events_code },
}

impl Model for Events {
    ghost also_owns = { λ _. ftrue };
}

/// An event.
#[derive(Clone, Copy, Drop)]
pub(crate) enum Note<'a> {
    /// A call of the reader gave these bytes.
    Read(&'a [u8]),
    /// A call of the reader failed.
    ReadFailed,
    /// An answer was given, with this text.
    Answered(&'a [u8]),
    /// A call of the writer took these bytes.
    Wrote(&'a [u8]),
    /// A call of the writer failed.
    WriteFailed,
}

impl Events {
    ghost use Rattle.console.specs.Inside.Noted.{event_of};

    /// None yet.
    #[inline(always)]
    pub(crate) fn new() -> Events
        ensures { result.list ≡ [] }
    {
        Events {}
    }

    /// These events and one more.
    #[inline(always)]
    pub(crate) fn then(&self, _note: &Note<'_>) -> Events
        ensures { result.list ≡ self.now.list ++ event_of _note.now ∷ [] }
    {
        Events {}
    }
}
