//! A writer that reports each flush that succeeds.
ghost use Rattle.std.specs.Prelude.{◌≡◌};
ghost use Rattle.console.specs.Told.{reader_events, writer_events};

use crate::passed::Passed;
use std::io;
use std::io::Write;
use std::marker::PhantomData;

/// What the flushes of a [`ReportingWriter`] are reported to.
pub trait AfterFlush {
    /// A flush of the writer has succeeded.
    fn after_flush(&self);
}

/// A writer that reports each flush that succeeds. It calls only the writer within, once for each of its own calls, with the same result.
#[derive(Drop)]
pub struct ReportingWriter<'h, W, H> {
    writer: W,
    to: &'h H,
}

impl<'h, W, H> ReportingWriter<'h, W, H> {
    /// This writer, which reports each flush that succeeds.
    pub fn new(writer: W, to: &'h H) -> Self
        ensures { result.writer ≡ writer }
    {
        ReportingWriter { writer, to }
    }

    /// The writer within, as the calls left it, and what passed by it in a run.
    pub fn into_inner<R>(self, passed: Passed<R, ReportingWriter<'h, W, H>>) -> (W, Passed<R, W>)
        ensures writer { result.0 ≡ self.entry.writer }
        ensures read { reader_events result.1 ≡ reader_events passed.entry }
        ensures written { writer_events result.1 ≡ writer_events passed.entry }
    {
        let ReportingWriter { writer, to: _ } = self;
        let passed = Passed {
            by_reader: passed.by_reader,
            by_writer: passed.by_writer,
            reader: PhantomData,
            writer: PhantomData,
        };
        (writer, passed)
    }
}

impl<'h, W: Write, H: AfterFlush> Write for ReportingWriter<'h, W, H> {
    ghost contents = { λ one. W.contents one.writer };

    fn write(&mut self, bytes: &[u8]) -> io::Result<usize> {
        self.writer.write(bytes)
    }

    fn flush(&mut self) -> io::Result<()> {
        let flushed = self.writer.flush();
        if flushed.is_ok() {
            self.to.after_flush();
        }
        flushed
    }
}
