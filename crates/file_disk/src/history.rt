// The calls that a disk has had, for contracts alone.
ghost use Rattle.std.specs.Prelude.{◌≡◌, [], List, ◌∷◌, ◌++◌};
ghost use Rattle.std.specs.Borrow.{ftrue};
ghost use Rattle.sector_disk.specs.declared.record.Call.{Call};
ghost use Rattle.file_disk.specs.Inside.Noted.{calls_code};

use std::marker::Model;

// The list of calls is a ghost: it takes no bytes.
#[derive(Drop)]
pub(crate) struct History {
    ghost calls: { List Call } by { calls_code },
}

impl Model for History {
    ghost also_owns = { λ _. ftrue };
}

// A call of a disk.
#[derive(Clone, Copy, Drop)]
pub(crate) enum Note<'a> {
    Read(u64),
    Write(u64, &'a [u8; 512]),
    Sync,
}

impl History {
    ghost use Rattle.file_disk.specs.Inside.Note.{call_of};

    pub(crate) fn new() -> History
        ensures { result.calls ≡ [] }
    {
        History {}
    }

    // These calls and one more.
    pub(crate) fn then(&self, _note: &Note<'_>) -> History
        ensures { result.calls ≡ self.now.calls ++ call_of _note.now ∷ [] }
    {
        History {}
    }
}
