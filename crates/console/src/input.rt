//! The reader of a run, and the ledgers of its calls and faults.
ghost use Rattle.std.specs.Prelude.{◌≡◌, ◌≤◌, ◌<◌, ◌+◌, ◌++◌, ◌∷◌, [], List, ℕ, length, IfOk, IfErr, OnErr, Some};
ghost use Rattle.console.specs.Events.{Read, ReadFailed};
ghost use Rattle.console.specs.Inside.Feed.{FitsPiece, IsPiece, read_in};
ghost use Rattle.console.specs.Inside.Kept.{IsSameInput};

use crate::events::{Events, Note};
use crate::running::{Piece, RunFault};
use base::Steps;
use std::io::{ErrorKind, Read};
use std::sync::ledger::Ledger;

/// A reader that can be called only by [`Input::read`]. That counts each call in one ledger, and each error but an
/// interruption in another.
#[derive(Drop)]
pub struct Input<'r, 's, R: Read, L: Ledger, F: Ledger> {
    reader: &'r mut R,
    steps: &'s mut Steps<L>,
    faults: &'s mut Steps<F>,
    // The calls of the reader. Only contracts read them.
    pub(crate) events: Events,
}

impl<'r, 's, R: Read, L: Ledger, F: Ledger> Input<'r, 's, R, L, F> {
    /// The reader, with the ledgers for its calls and for its faults.
    pub fn new(reader: &'r mut R, steps: &'s mut Steps<L>, faults: &'s mut Steps<F>) -> Self
        ensures reader { result.reader.ghost_name ≡ reader.entry.ghost_name }
        ensures steps { result.steps.ghost_name ≡ steps.entry.ghost_name }
        ensures faults { result.faults.ghost_name ≡ faults.entry.ghost_name }
        ensures reader_is { result.reader.now ≡ reader.old }
        ensures steps_is { result.steps.now ≡ steps.old }
        ensures faults_is { result.faults.now ≡ faults.old }
        ensures events { result.events.list ≡ [] }
    {
        Input {
            reader,
            steps,
            faults,
            events: Events::new(),
        }
    }

    /// Notes that a call of the reader gave these bytes.
    #[inline(always)]
    fn gave(&mut self, bytes: &[u8])
        ensures input { IsSameInput self.old self.new }
        ensures events { self.new.events.list ≡ self.old.events.list ++ Read bytes.now ∷ [] }
        ensures same { (self.new.reader.now ≡ self.old.reader.now) × (self.new.steps.now ≡ self.old.steps.now) × (self.new.faults.now ≡ self.old.faults.now) }
    {
        self.events = self.events.then(&Note::Read(bytes));
    }

    /// Notes that a call of the reader failed.
    #[inline(always)]
    fn failed(&mut self)
        ensures input { IsSameInput self.old self.new }
        ensures events { self.new.events.list ≡ self.old.events.list ++ ReadFailed ∷ [] }
        ensures same { (self.new.reader.now ≡ self.old.reader.now) × (self.new.steps.now ≡ self.old.steps.now) × (self.new.faults.now ≡ self.old.faults.now) }
    {
        self.events = self.events.then(&Note::ReadFailed);
    }

    /// Calls the reader once, and notes that.
    pub(crate) fn read(&mut self, buffer: &mut [u8]) -> Result<Piece, RunFault>
        requires { 0 < length buffer.old }
        ensures input { IsSameInput self.old self.new }
        ensures bound { IfOk result (λ piece. FitsPiece piece (length buffer.new)) }
        ensures ok { IfOk result (λ piece. (input : List ℕ) → R.remaining self.old.reader.now ≡ Some input
            → IsPiece piece buffer.new input (R.remaining self.new.reader.now)) }
        ensures events { IfOk result (λ piece. self.new.events.list ≡ self.old.events.list ++ Read (read_in piece buffer.new) ∷ []) }
        ensures noted { OnErr result (self.new.events.list ≡ self.old.events.list ++ ReadFailed ∷ []) }
        ensures calls { self.new.steps.now ≡ self.old.steps.now + 1 }
        ensures ledger { self.old.faults.now ≤ self.new.faults.now }
        ensures failed { OnErr result (self.old.faults.now < self.new.faults.now) }
        ensures plain { IfErr result (λ e. e ≡ RunFault.Read) }
    {
        self.steps.tick();
        match self.reader.read(buffer) {
            Ok(0) => {
                self.gave(&buffer[..0]);
                Ok(Piece::End)
            }
            Ok(n) => {
                self.gave(&buffer[..n]);
                Ok(Piece::Bytes(n))
            }
            Err(e) => {
                if e.kind() == ErrorKind::Interrupted {
                    self.gave(&buffer[..0]);
                    Ok(Piece::Bytes(0))
                } else {
                    self.faults.tick();
                    self.failed();
                    Err(RunFault::Read)
                }
            }
        }
    }
}
