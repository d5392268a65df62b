//! What a register's text is written to.
ghost use Rattle.std.specs.Prelude.{ℕ, List, OnOk, OnErr};
ghost use Rattle.std.specs.Io.KnownBytes.{Appends, Keeps};

use std::io;
use std::io::Write;

/// A writer of a register's text.
///
/// Three relations state what its calls did. Only a call's own clauses show that a relation holds. So a clause that states one is
/// about calls that the writer got. Any `Write` is an instance, whose relations always hold and so state nothing.
pub trait TextSink: Write {
    // A call took all of these bytes.
    ghost took: { Self → List ℕ → Self → Type 0 };

    // A call passed on all that was taken before.
    ghost flushed: { Self → Self → Type 0 };

    // A call failed.
    ghost failed: { Self → Self → Type 0 };

    /// Writes all of the bytes.
    fn write_text(&mut self, bytes: &[u8]) -> io::Result<()>
        ensures known { OnOk result (Appends (Self.contents self.old) (Self.contents self.new) bytes.now) }
        ensures took { OnOk result (took self.old bytes.now self.new) }
        ensures refused { OnErr result (failed self.old self.new) };

    /// Passes on all that was written.
    fn flush_text(&mut self) -> io::Result<()>
        ensures known { Keeps (Self.contents self.old) (Self.contents self.new) }
        ensures flushed { OnOk result (flushed self.old self.new) }
        ensures refused { OnErr result (failed self.old self.new) };
}

impl<W: Write> TextSink for W {
    ghost took = { λ old bytes new. Unit {0} };

    ghost flushed = { λ old new. Unit {0} };

    ghost failed = { λ old new. Unit {0} };

    fn write_text(&mut self, bytes: &[u8]) -> io::Result<()> {
        self.write_all(bytes)
    }

    fn flush_text(&mut self) -> io::Result<()> {
        self.flush()
    }
}
