//! What a register's text is read from.
ghost use Rattle.std.specs.Prelude.{◌≡◌, ◌<◌, ℕ, List, length, IfOk, OnErr, Some};
ghost use Rattle.register_text.specs.Passing.{FitsPiece, HasCome, IsPiece};

use std::io;
use std::io::{ErrorKind, Read};

/// A reader of a register's text.
///
/// Three relations state what its calls did. Only a call's own clauses show that a relation holds. So a clause that states one is
/// about calls that the reader got. Any `Read` is an instance, whose relations always hold and so state nothing.
pub trait TextSource: Read {
    // A call gave these bytes, none if it was interrupted.
    ghost gave: { Self → List ℕ → Self → Type 0 };

    // A call gave the end.
    ghost ended: { Self → Self → Type 0 };

    // A call failed.
    ghost failed: { Self → Self → Type 0 };

    /// Calls the reader once. Returns how many bytes it gave, 0 if it was interrupted, or `None` at its end.
    fn next_piece(&mut self, buffer: &mut [u8]) -> io::Result<Option<usize>>
        requires room { 0 < length buffer.old }
        ensures bound { IfOk result (λ piece. FitsPiece piece (length buffer.new)) }
        ensures known { IfOk result (λ piece. (input : List ℕ) → Self.remaining self.old ≡ Some input
            → IsPiece piece buffer.new input (Self.remaining self.new)) }
        ensures came { IfOk result (λ piece. HasCome gave ended self.old piece buffer.new self.new) }
        ensures refused { OnErr result (failed self.old self.new) };
}

impl<R: Read> TextSource for R {
    ghost gave = { λ old bytes new. Unit {0} };

    ghost ended = { λ old new. Unit {0} };

    ghost failed = { λ old new. Unit {0} };

    fn next_piece(&mut self, buffer: &mut [u8]) -> io::Result<Option<usize>> {
        match self.read(buffer) {
            Ok(0) => Ok(None),
            Ok(n) => Ok(Some(n)),
            Err(e) if e.kind() == ErrorKind::Interrupted => Ok(Some(0)),
            Err(e) => Err(e),
        }
    }
}
