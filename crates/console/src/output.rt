//! The writer of a run, and the ledger of its failures.
ghost use Rattle.std.specs.Prelude.{◌≡◌, ◌≤◌, ◌<◌, ◌+◌, ◌++◌, ◌∷◌, [], List, ℕ, length, take, IfOk, OnOk, OnErr, Some};
ghost use Rattle.console.specs.Events.{Answered, WriteFailed, Wrote};
ghost use Rattle.console.specs.Inside.Kept.{IsSameOutput, WritesOn};
ghost use Rattle.console.specs.Inside.Passing.{Passes, sent_by};

use crate::events::{Events, Note};
use crate::running::RunFault;
use base::Steps;
use std::io::{ErrorKind, Write};
use std::sync::ledger::Ledger;

/// A writer that can be called only by [`Output::send`]. That counts each failure in a ledger. Failures are: an error of
/// a write or a flush, and a write that takes nothing. Interruptions of a write count only after the first 4,294,967,295
/// of one `send`.
#[derive(Drop)]
pub struct Output<'w, 'f, W: Write, G: Ledger> {
    writer: &'w mut W,
    failures: &'f mut Steps<G>,
    // The answers that were given, and the calls of the writer. Only contracts read them.
    pub(crate) events: Events,
}

impl<'w, 'f, W: Write, G: Ledger> Output<'w, 'f, W, G> {
    /// The writer, with the ledger for its failures.
    pub fn new(writer: &'w mut W, failures: &'f mut Steps<G>) -> Self
        ensures writer { result.writer.ghost_name ≡ writer.entry.ghost_name }
        ensures failures { result.failures.ghost_name ≡ failures.entry.ghost_name }
        ensures writer_is { result.writer.now ≡ writer.old }
        ensures failures_is { result.failures.now ≡ failures.old }
        ensures events { result.events.list ≡ [] }
    {
        Output {
            writer,
            failures,
            events: Events::new(),
        }
    }

    /// Notes that an answer is given, with this text.
    #[inline(always)]
    pub(crate) fn note_answer(&mut self, text: &[u8])
        ensures output { IsSameOutput self.old self.new }
        ensures events { self.new.events.list ≡ self.old.events.list ++ Answered text.now ∷ [] }
        ensures same { (self.new.writer.now ≡ self.old.writer.now) × (self.new.failures.now ≡ self.old.failures.now) }
    {
        self.events = self.events.then(&Note::Answered(text));
    }

    /// Notes that a call of the writer took these bytes.
    #[inline(always)]
    fn wrote(&mut self, bytes: &[u8])
        ensures output { IsSameOutput self.old self.new }
        ensures events { self.new.events.list ≡ self.old.events.list ++ Wrote bytes.now ∷ [] }
        ensures same { (self.new.writer.now ≡ self.old.writer.now) × (self.new.failures.now ≡ self.old.failures.now) }
    {
        self.events = self.events.then(&Note::Wrote(bytes));
    }

    /// Counts and notes that a call of the writer failed.
    #[inline(always)]
    fn failed(&mut self)
        ensures output { IsSameOutput self.old self.new }
        ensures events { self.new.events.list ≡ self.old.events.list ++ WriteFailed ∷ [] }
        ensures same { self.new.writer.now ≡ self.old.writer.now }
        ensures ledger { self.new.failures.now ≡ self.old.failures.now + 1 }
    {
        self.failures.tick();
        self.events = self.events.then(&Note::WriteFailed);
    }

    /// Writes some of the bytes; none if the call was interrupted, which may happen `patience` times.
    fn write(&mut self, bytes: &[u8], patience: &mut u32) -> Result<usize, RunFault>
        ensures bound { IfOk result (λ n. n ≤ length bytes.now) }
        ensures ok { IfOk result (λ n. (before : List ℕ) → W.contents self.old.writer.now ≡ Some before
            → W.contents self.new.writer.now ≡ Some (before ++ take n bytes.now)) }
        ensures err { OnErr result ((before : List ℕ) → W.contents self.old.writer.now ≡ Some before → W.contents self.new.writer.now ≡ Some before) }
        ensures events { IfOk result (λ n. self.new.events.list ≡ self.old.events.list ++ Wrote (take n bytes.now) ∷ []) }
        ensures noted { OnErr result (self.new.events.list ≡ self.old.events.list ++ WriteFailed ∷ []) }
        ensures goes_on { IfOk result (λ n. patience.new < patience.old + n) }
        ensures writes { WritesOn self.old self.new result }
    {
        match self.writer.write(bytes) {
            Ok(n) if n > 0 => {
                self.wrote(&bytes[..n]);
                return Ok(n);
            }
            Err(e) if e.kind() == ErrorKind::Interrupted && *patience > 0 => {
                self.wrote(&bytes[..0]);
                *patience -= 1;
                return Ok(0);
            }
            _ => {}
        }
        self.failed();
        Err(RunFault::Write)
    }

    /// Flushes the writer.
    fn flush(&mut self) -> Result<(), RunFault>
        ensures keeps { (before : List ℕ) → W.contents self.old.writer.now ≡ Some before → W.contents self.new.writer.now ≡ Some before }
        ensures silent { OnOk result (self.new.events.list ≡ self.old.events.list) }
        ensures noted { OnErr result (self.new.events.list ≡ self.old.events.list ++ WriteFailed ∷ []) }
        ensures writes { WritesOn self.old self.new result }
    {
        match self.writer.flush() {
            Ok(()) => Ok(()),
            Err(_) => {
                self.failed();
                Err(RunFault::Write)
            }
        }
    }

    /// Writes all of the bytes and flushes the writer. On an error, a prefix of the bytes was written, perhaps all. No clause says that
    /// the writer was flushed; a failed flush is counted.
    #[inline(always)]
    pub(crate) fn send(&mut self, bytes: &[u8]) -> Result<(), RunFault>
        ensures ok { OnOk result (Passes (sent_by W.contents self.old) (sent_by W.contents self.new) bytes.now [] []) }
        ensures err { OnErr result ((left : List ℕ) × Passes (sent_by W.contents self.old) (sent_by W.contents self.new) bytes.now [] left) }
        ensures writes { WritesOn self.old self.new result }
    {
        let mut patience = u32::MAX;
        let mut at = 0;
        while at < bytes.len() {
            at += self.write(&bytes[at..], &mut patience)?;
        }
        self.flush()
    }
}
