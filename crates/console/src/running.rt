//! Reading a text in pieces, to its end.
ghost use Rattle.std.specs.Prelude.{◌≡◌, ◌⊎◌, IsErrOf, ◌≤◌, ◌<◌, ◌+◌, true};
ghost use Rattle.console.specs.Failures.{failures_reported};
ghost use Rattle.console.specs.Runs.{IsRun, speaker_of};
ghost use Rattle.console.specs.Told.{EndsFor, EndsSince, Tells, TellsBy, TellsWholeSince, calls_of, events_of, reader_events, streams_of, writer_events};

use crate::figures::ServiceFigures;
use crate::input::Input;
use crate::output::Output;
use crate::passed::Passed;
use crate::progress::LineProgress;
use crate::serving::LineRun;
use base::Steps;
use desk::Desk;
use registration::Station;
use std::alloc::Allocator;
use std::io::{Read, Write};
use std::marker::Brand;
use std::sync::ledger::{Blank, Ledger};
use thiserror::Error;

/// The result of a run that came to the end of its text.
#[derive(Clone, Copy, Debug, PartialEq, Eq)]
pub struct Ran {
    /// How many lines there were.
    pub lines: u64,
    /// Whether an answer reported a bad line, or was an outage word.
    pub troubled: bool,
}

/// Why a run ended before the end of its text. The lines that were answered stay done. Where the writer failed, up to 64 more lines may
/// be done. Their answers weren't written, or only in part.
#[derive(Clone, Copy, Debug, PartialEq, Eq, Error)]
pub enum RunFault {
    /// The reader failed, or did not come to an end within `turns` calls. Every whole line that was read is answered. No clause of
    /// [`run`] says so: those of [`run_counted`] and [`run_under`] do.
    #[error("the lines can't be read")]
    Read,
    /// The writer failed.
    #[error("the answers can't be written")]
    Write,
    /// Memory ran out for a line and its answer. This is reported before the first call of the reader, and never later.
    #[error("no memory")]
    NoMemory,
}

/// The result of a call of the reader.
#[derive(Clone, Copy, Debug, PartialEq, Eq)]
pub enum Piece {
    /// The end of the text.
    End,
    /// So many bytes; none if the call was interrupted.
    Bytes(usize),
}

/// What a run needs beside its reader, its writer and its desk.
#[derive(Clone, Copy)]
pub struct Terms<A: Allocator + Copy> {
    /// The allocator of the current line, commands, replies and answers.
    pub alloc: A,
    /// The station whose lines are read.
    pub station: Station,
    /// Whether it may give orders: `rule`, `unrule`, `delete` and `expire`.
    pub orders: bool,
    /// The most calls of the reader.
    pub turns: u32,
}

/// As [`run`], with counts in ledgers. Each call of the reader is a step, and each error of it but an interruption is a
/// fault. Each write or flush that failed is a failure: there is one if the result is [`RunFault::Write`], and else none.
/// `service` has the figures of the service that the station is one of. The run counts the station's lines in them, and answers the
/// query `service` by them.
pub fn run_counted<
    L: Ledger,
    F: Ledger,
    G: Ledger,
    A: Allocator + Copy + Drop,
    R: Read,
    W: Write,
    D: Desk<A>,
>(
    terms: Terms<A>,
    service: &ServiceFigures,
    input: &mut Input<R, L, F>,
    output: &mut Output<W, G>,
    desk: &mut D,
) -> Result<Ran, RunFault>
    ensures answers { IsRun A D.rules
        (record { speaker = speaker_of terms; world = D.world desk.old; unread = R.remaining input.old.reader.now; written = W.contents output.old.writer.now })
        (record { result = result; world = D.world desk.new; written = W.contents output.new.writer.now }) }
    // Over any reader and any writer: what was read, and what was written after it was answered.
    ensures told { Tells A D.rules (speaker_of terms) (D.world desk.old) (D.world desk.new)
        (streams_of R.remaining W.contents input.old output.old) (streams_of R.remaining W.contents input.new output.new) result }
    // Where the reader failed, or was called as often as it may be, every whole line is answered.
    ensures whole { IsErrOf result RunFault.Read → TellsWholeSince A D.rules (speaker_of terms) (D.world desk.old) (D.world desk.new)
        (streams_of R.remaining W.contents input.old output.old) (streams_of R.remaining W.contents input.new output.new) }
    // Why the run ended, by the calls of the reader and the writer.
    ensures ends { EndsSince terms.turns (calls_of input.old) (calls_of input.new) (events_of output.old) (events_of output.new) result }
    // How often the reader is called, and what each fault means.
    ensures calls { input.new.steps.now ≤ input.old.steps.now + terms.turns }
    ensures read { IsErrOf result RunFault.Read → (input.new.steps.now ≡ input.old.steps.now + terms.turns) ⊎ (input.old.faults.now < input.new.faults.now) }
    ensures write { output.new.failures.now ≡ output.old.failures.now + failures_reported result }
    ensures memory { IsErrOf result RunFault.NoMemory → (input.new.steps.now ≡ input.old.steps.now) × (desk.new ≡ desk.old) }
    // The reader, the writer and the ledgers are the same ones.
    ensures reader { input.new.reader.ghost_name ≡ input.old.reader.ghost_name }
    ensures steps { input.new.steps.ghost_name ≡ input.old.steps.ghost_name }
    ensures faults { input.new.faults.ghost_name ≡ input.old.faults.ghost_name }
    ensures writer { output.new.writer.ghost_name ≡ output.old.writer.ghost_name }
    ensures failures { output.new.failures.ghost_name ≡ output.old.failures.ghost_name }
{
    let Ok(mut progress) = LineProgress::new(terms.alloc) else {
        return Err(RunFault::NoMemory);
    };
    let mut run = LineRun {
        terms: &terms,
        service,
        progress: &mut progress,
        output,
        desk,
    };
    run.take_all(input)
}

/// The parts from which the ledgers of a run are made.
struct Blanks {
    steps: Blank,
    faults: Blank,
    failures: Blank,
}

fn run_in<
    L: Ledger,
    F: Ledger,
    G: Ledger,
    A: Allocator + Copy + Drop,
    R: Read,
    W: Write,
    D: Desk<A>,
>(
    blanks: Blanks,
    terms: Terms<A>,
    reader: &mut R,
    writer: &mut W,
    desk: &mut D,
) -> (Result<Ran, RunFault>, Passed<R, W>)
    requires steps_name { blanks.steps.name ≡ L.name }
    requires steps_parts { blanks.steps.parts ≡ L.parts }
    requires steps_some { 0 < blanks.steps.parts }
    requires faults_name { blanks.faults.name ≡ F.name }
    requires faults_parts { blanks.faults.parts ≡ F.parts }
    requires faults_some { 0 < blanks.faults.parts }
    requires failures_name { blanks.failures.name ≡ G.name }
    requires failures_parts { blanks.failures.parts ≡ G.parts }
    requires failures_some { 0 < blanks.failures.parts }
    ensures answers { IsRun A D.rules
        (record { speaker = speaker_of terms; world = D.world desk.old; unread = R.remaining reader.old; written = W.contents writer.old })
        (record { result = result.0; world = D.world desk.new; written = W.contents writer.new }) }
    ensures told { TellsBy A D.rules (speaker_of terms) (R.remaining reader.old) (W.contents writer.old) (D.world desk.old) (D.world desk.new)
        (W.contents writer.new) result.0 (reader_events result.1) (writer_events result.1) }
    ensures ends { EndsFor terms.turns (reader_events result.1) (writer_events result.1) result.0 }
{
    let Blanks {
        steps,
        faults,
        failures,
    } = blanks;
    let mut steps = Steps::<L>::new(steps);
    let mut faults = Steps::<F>::new(faults);
    let mut failures = Steps::<G>::new(failures);
    let mut input = Input::new(reader, &mut steps, &mut faults);
    let mut output = Output::new(writer, &mut failures);
    let ran = run_counted(
        terms,
        &ServiceFigures::none(),
        &mut input,
        &mut output,
        desk,
    );
    (ran, Passed::by(input, output))
}

/// Answers all lines of the reader, or the first of them if the run ends early, and writes nothing else. It returns the result with the
/// calls of the reader and the writer. `told` and `ends` hold over any reader and any writer, by these calls. `told` says what was read,
/// and what was written after it was given as an answer. `ends` says why the run ended, after at most `turns` calls of the reader.
pub fn run_under<A: Allocator + Copy + Drop, R: Read, W: Write, D: Desk<A>>(
    terms: Terms<A>,
    reader: &mut R,
    writer: &mut W,
    desk: &mut D,
) -> (Result<Ran, RunFault>, Passed<R, W>)
    ensures answers { IsRun A D.rules
        (record { speaker = speaker_of terms; world = D.world desk.old; unread = R.remaining reader.old; written = W.contents writer.old })
        (record { result = result.0; world = D.world desk.new; written = W.contents writer.new }) }
    ensures told { TellsBy A D.rules (speaker_of terms) (R.remaining reader.old) (W.contents writer.old) (D.world desk.old) (D.world desk.new)
        (W.contents writer.new) result.0 (reader_events result.1) (writer_events result.1) }
    ensures ends { EndsFor terms.turns (reader_events result.1) (writer_events result.1) result.0 }
{
    let blanks = Blanks {
        steps: Blank::new(1),
        faults: Blank::new(1),
        failures: Blank::new(1),
    };
    run_in::<Brand, Brand, Brand, A, R, W, D>(blanks, terms, reader, writer, desk)
}

/// As [`run_under`], for a station that may give orders. No clause of this function says why the run ended: those of `run_under` and
/// [`run_counted`] do.
pub fn run<A: Allocator + Copy + Drop, R: Read, W: Write, D: Desk<A>>(
    alloc: A,
    reader: &mut R,
    writer: &mut W,
    station: Station,
    turns: u32,
    desk: &mut D,
) -> Result<Ran, RunFault>
    ensures answers { IsRun A D.rules
        (record { speaker = record { station = station; orders = true }; world = D.world desk.old; unread = R.remaining reader.old; written = W.contents writer.old })
        (record { result = result; world = D.world desk.new; written = W.contents writer.new }) }
{
    let terms = Terms {
        alloc,
        station,
        orders: true,
        turns,
    };
    let (ran, _) = run_under(terms, reader, writer, desk);
    ran
}
