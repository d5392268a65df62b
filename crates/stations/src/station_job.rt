//! What the thread of a station does.
ghost use Rattle.std.specs.Prelude.{◌≡◌, ◌==◌};
ghost use Rattle.stations.specs.Done.{IsDone};
ghost use Rattle.stations.specs.Inside.Answered.{AnswersJob, AnswersLines};
ghost use Rattle.stations.specs.Inside.Ledgers.{MakesLedger};

use crate::job::{Done, Job};
use crate::listing_bound::ListingBound;
use crate::one_station::{Serving, run_session};
use crate::port::Port;
use crate::round_gate::RoundGate;
use crate::station_run::StationRun;
use crate::station_text::StationText;
use crate::watch::Watch;
use base::Steps;
use console::{Input, Output, Passed, Ran, ReportingWriter, RunFault, ServiceFigures};
use flusher::Session;
use recovery::Figures;
use registration::Station;
use snapshots::Centre;
use std::alloc::Global;
use std::io::{Read, Write};
use std::marker::Brand;
use std::rt::Clock;
use std::sync::Wait;
use std::sync::atomic::{AtomicU64, Ordering};
use std::sync::ledger::{Blank, Ledger};

/// What the threads of a run share.
#[derive(Drop)]
pub(crate) struct Shared<'r, 'w, R: Wait, V: Watch> {
    pub(crate) rt: &'r R,
    pub(crate) watch: &'w V,
    pub(crate) alloc: Global,
    /// The last station for which no thread could be made; 0 if there was none.
    pub(crate) refused: AtomicU64,
    /// What bounds their listings.
    pub(crate) bound: ListingBound,
    /// The figures of the service.
    pub(crate) service: ServiceFigures,
    /// How often its disk was synced.
    pub(crate) syncs: &'w AtomicU64,
    /// The figures of its store at the start.
    pub(crate) start: Figures,
}

// What the ledgers of a run are made from.
#[derive(Drop)]
struct Blanks {
    steps: Blank,
    faults: Blank,
    failures: Blank,
}

fn answer_in<
    L: Ledger,
    F: Ledger,
    G: Ledger,
    J: Centre,
    R: Wait + Clock,
    V: Watch,
    I: Read,
    O: Write,
>(
    blanks: Blanks,
    serving: &Serving<R, V>,
    reader: &mut I,
    writer: &mut O,
    session: Session<J>,
) -> (Session<J>, Result<Ran, RunFault>, Passed<I, O>)
    requires steps { MakesLedger blanks.steps.name blanks.steps.parts L.name L.parts }
    requires faults { MakesLedger blanks.faults.name blanks.faults.parts F.name F.parts }
    requires failures { MakesLedger blanks.failures.name blanks.failures.parts G.name G.parts }
    ensures { AnswersLines J.base serving.now.orders serving.now.turns (I.remaining reader.old) (O.contents writer.old) (O.contents writer.new) session result }
{
    let Blanks {
        steps,
        faults,
        failures,
    } = blanks;
    let mut steps = Steps::<L>::new(steps);
    let mut faults = Steps::<F>::new(faults);
    let mut failures = Steps::<G>::new(failures);
    let mut input = Input::new(reader, &mut steps, &mut faults);
    let mut output = Output::new(writer, &mut failures);
    let (session, ran) = run_session(serving, &mut input, &mut output, session);
    (session, ran, Passed::by(input, output))
}

// Answers all lines of a reader by a session, or a prefix of them if the run ends early. Nothing else is written.
fn answer_lines<J: Centre, R: Wait + Clock, V: Watch, I: Read, O: Write>(
    serving: &Serving<R, V>,
    reader: &mut I,
    writer: &mut O,
    session: Session<J>,
) -> (Session<J>, Result<Ran, RunFault>, Passed<I, O>)
    ensures { AnswersLines J.base serving.now.orders serving.now.turns (I.remaining reader.old) (O.contents writer.old) (O.contents writer.new) session result }
{
    let blanks = Blanks {
        steps: Blank::new(1),
        faults: Blank::new(1),
        failures: Blank::new(1),
    };
    answer_in::<Brand, Brand, Brand, J, R, V, I, O>(blanks, serving, reader, writer, session)
}

impl<'r, 'w, R: Wait, V: Watch> Shared<'r, 'w, R, V> {
    /// Notes this station as the last one for which no thread could be made.
    pub(crate) fn refuse(&self, station: Station) {
        self.refused
            .store(u64::from(station.number()), Ordering::SeqCst);
    }

    /// The gate of the flusher's rounds.
    pub(crate) fn round_gate(&self) -> RoundGate<'_, V>
        ensures { result.start ≡ self.now.start }
    {
        RoundGate {
            watch: self.watch,
            service: &self.service,
            syncs: self.syncs,
            start: self.start,
        }
    }

    // What the run of a station is given: whether the station may give orders, the most calls of its reader, and its listing's text.
    fn serving<'t>(
        &'t self,
        orders: bool,
        turns: u32,
        text: &'t StationText<'t, 'r, R>,
    ) -> Serving<'r, 'w, 't, R, V>
        ensures orders { result.orders ≡ orders }
        ensures turns { result.turns ≡ turns }
    {
        Serving {
            rt: self.rt,
            watch: self.watch,
            text,
            service: &self.service,
            alloc: self.alloc,
            turns,
            orders,
        }
    }

    // Whether this station is the one noted.
    fn is_refused(&self, station: Station) -> bool {
        is_noted(self.refused.load(Ordering::SeqCst), station)
    }
}

// Whether this number, which was noted, is that of the station.
fn is_noted(noted: u64, station: Station) -> bool
    ensures { result ≡ (noted == station) }
{
    noted == u64::from(station.number())
}

// Answers the lines of a station. If no thread could be made for it, its run ends out of memory before its first line.
fn run_station<J: Centre, R: Wait + Clock, V: Watch, I: Read, O: Write>(
    is_refused: bool,
    serving: &Serving<R, V>,
    reader: &mut I,
    writer: &mut O,
    session: Session<J>,
) -> (Session<J>, Result<Ran, RunFault>, Passed<I, O>)
    ensures { AnswersLines J.base serving.now.orders serving.now.turns (I.remaining reader.old) (O.contents writer.old) (O.contents writer.new) session result }
{
    if is_refused {
        return (session, Err(RunFault::NoMemory), Passed::nothing());
    }
    answer_lines(serving, reader, writer, session)
}

// Answers the lines of a job's port, as `run_station` does. What came of the run is returned with its writer. A text that was
// not written to its end counts no more.
fn run_port<J: Centre, R: Wait + Clock, V: Watch, I: Read + Drop, O: Write + Drop>(
    shared: &Shared<R, V>,
    job: Job<J, I, O>,
) -> (Session<J>, StationRun<I, O>)
    ensures { AnswersJob J.base I.remaining O.contents job result }
{
    let Job {
        session,
        orders,
        turns,
        port,
    } = job;
    let Port { mut reader, writer } = port;
    let text = StationText::new(&shared.bound, shared.rt);
    let mut writer = ReportingWriter::new(writer, &text);
    let is_refused = shared.is_refused(session.station());
    let serving = shared.serving(orders, turns, &text);
    let (session, ran, passed) = run_station(
        is_refused,
        &serving,
        &mut reader,
        &mut writer,
        session,
    );
    text.release();
    let (writer, passed) = writer.into_inner(passed);
    let run = StationRun {
        writer,
        ran,
        passed,
    };
    (session, run)
}

/// Answers the lines of a station, and ends its session, whatever came of the run.
pub(crate) fn serve<J: Centre, R: Wait + Clock, V: Watch, I: Read + Drop, O: Write + Drop>(
    shared: &Shared<R, V>,
    job: Job<J, I, O>,
) -> Done<J, I, O>
    ensures { IsDone J J.base I.remaining O.contents job result }
{
    let (session, run) = run_port(shared, job);
    let station = session.station();
    let watch = shared.watch;
    watch.after_run(station, &run.ran);
    watch.before_entry(station);
    let ended = session.finish(shared.rt);
    watch.after_entry(station);
    Done { ended, run }
}
