//! What passed in a run, once it has ended.
ghost use Rattle.std.specs.Prelude.{◌≡◌, []};
ghost use Rattle.console.specs.Told.{calls_of, events_of, reader_events, writer_events};

use crate::events::Events;
use crate::input::Input;
use crate::output::Output;
use std::io::{Read, Write};
use std::marker::PhantomData;
use std::sync::ledger::Ledger;

/// What passed in a run over a reader and a writer of these types: the calls of the reader, and the answers and the calls of the writer,
/// each in the order of time. It takes no bytes, and only contracts read it.
///
/// Only the calls of [`Input`] and [`Output`] note an event, and a `Passed` with events comes only from these. So a function that is
/// generic over its reader and its writer can report no calls of others: a reader or writer of its own has another type. Of a
/// [`ReportingWriter`](crate::ReportingWriter) the calls are those of the writer within, which alone it calls.
#[derive(Drop)]
pub struct Passed<R, W> {
    pub(crate) by_reader: Events,
    pub(crate) by_writer: Events,
    pub(crate) reader: PhantomData<R>,
    pub(crate) writer: PhantomData<W>,
}

impl<R, W> Passed<R, W> {
    /// Nothing passed: the run ended before the first call.
    pub fn nothing() -> Passed<R, W>
        ensures reader { reader_events result ≡ [] }
        ensures writer { writer_events result ≡ [] }
    {
        Passed {
            by_reader: Events::new(),
            by_writer: Events::new(),
            reader: PhantomData,
            writer: PhantomData,
        }
    }
}

impl<R: Read, W: Write> Passed<R, W> {
    /// What passed by this input and this output. They end here, and what they borrowed is as their calls left it.
    pub fn by<L: Ledger, F: Ledger, G: Ledger>(
        input: Input<'_, '_, R, L, F>,
        output: Output<'_, '_, W, G>,
    ) -> Passed<R, W>
        ensures reader { reader_events result ≡ calls_of input.entry }
        ensures writer { writer_events result ≡ events_of output.entry }
        ensures reader_left { (input.exit.0.now ≡ input.entry.reader.now) × (input.exit.0.ghost_name ≡ input.entry.reader.ghost_name) }
        ensures writer_left { (output.exit.0.now ≡ output.entry.writer.now) × (output.exit.0.ghost_name ≡ output.entry.writer.ghost_name) }
    {
        Passed {
            by_reader: input.events,
            by_writer: output.events,
            reader: PhantomData,
            writer: PhantomData,
        }
    }
}
