//! How far a run has come, reported while it goes on.
ghost use Rattle.std.specs.Prelude.{◌≡◌, IfOk, None, false, is_some, length, option_map, true};
ghost use Rattle.served_disk.specs.Counts.{at_station};

use crate::doorbell::Doorbell;
use crate::pace::Pace;
use console::{Ran, RunFault};
use flusher::Gate;
use registration::Station;
use stations::Watch;
use std::alloc::{AllocError, Global};
use std::io;
use std::rt::Clock;
use std::sync::Wait;
use std::sync::atomic::{AtomicU64, Ordering};
use std::time::Duration;

/// How far a run has come. Once a second it is reported on standard error, over the last report, as
/// `12000 lines, 11998 accepted`: the lines of all stations that were served, and the commands among them that were accepted.
/// A report that fails changes nothing.
///
/// A line that the desk answers counts at once. Any other line counts when its station's reader is next called, or when the run has ended.
/// Threads may share it: each counts the lines of its own station.
#[derive(Drop)]
pub struct ProgressReport<'r, R> {
    rt: &'r R,
    pace: Pace<'r, R>,
    /// Whether no flusher makes rounds. Then the progress is reported when a line is counted.
    is_alone: bool,
    /// For each station in order, how many of its lines are known to be served.
    lines: Vec<AtomicU64>,
    /// How many commands were accepted.
    accepted: AtomicU64,
    doorbell: Doorbell,
}

/// While figures are reported, the flusher sleeps at most this many seconds.
const BETWEEN_REPORTS: u64 = 1;

/// A count of 0 lines for each station.
fn no_lines(alloc: Global, stations: usize) -> Result<Vec<AtomicU64>, AllocError>
    ensures { IfOk result (λ lines. length lines.items ≡ stations) }
{
    let mut lines = Vec::with_capacity(alloc, stations)?;
    for _ in 0..stations {
        lines.push(AtomicU64::new(0))?;
    }
    Ok(lines)
}

impl<'r, R: Clock + Eprint> ProgressReport<'r, R> {
    /// Nothing is served yet. It is never reported if it is not watched or there is no clock.
    fn new(rt: &'r R, watched: bool, is_alone: bool, lines: Vec<AtomicU64>) -> Self
        ensures unwatched { watched ≡ false → result.pace.began ≡ None }
        ensures alone { result.is_alone ≡ is_alone }
        ensures lines { result.lines ≡ lines }
    {
        let pace = Pace::new(rt, watched);
        let rest = pace
            .is_watched()
            .then_some(Duration::from_secs(BETWEEN_REPORTS));
        ProgressReport {
            rt,
            pace,
            is_alone,
            lines,
            accepted: AtomicU64::new(0),
            doorbell: Doorbell::new(rest),
        }
    }

    /// The progress of station 1 alone, which no flusher serves.
    pub fn of_one(rt: &'r R, alloc: Global, watched: bool) -> Result<Self, AllocError>
        ensures unwatched { IfOk result (λ progress. watched ≡ false → progress.pace.began ≡ None) }
        ensures alone { IfOk result (λ progress. progress.is_alone ≡ true) }
        ensures lines { IfOk result (λ progress. length progress.lines.items ≡ 1) }
    {
        let lines = no_lines(alloc, 1)?;
        Ok(ProgressReport::new(rt, watched, true, lines))
    }

    /// The progress of this many stations, which a flusher serves. It is reported in the flusher's thread.
    pub fn of_many(
        rt: &'r R,
        alloc: Global,
        watched: bool,
        stations: usize,
    ) -> Result<Self, AllocError>
        ensures unwatched { IfOk result (λ progress. watched ≡ false → progress.pace.began ≡ None) }
        ensures beside { IfOk result (λ progress. progress.is_alone ≡ false) }
        ensures lines { IfOk result (λ progress. length progress.lines.items ≡ stations) }
    {
        let lines = no_lines(alloc, stations)?;
        Ok(ProgressReport::new(rt, watched, false, lines))
    }

    /// How many lines of a station are known to be served.
    fn lines_of(&self, station: Station) -> Option<&AtomicU64>
        ensures { option_map (λ known. known.now) result ≡ at_station self.now.lines.items station }
    {
        let place = usize::from(station.number()).checked_sub(1)?;
        self.lines.get(place)
    }

    /// Whether anybody watches. Else nothing is counted.
    pub(crate) fn is_watched(&self) -> bool
        ensures { result ≡ is_some self.now.pace.began }
    {
        self.pace.is_watched()
    }

    /// This many lines of a station are served.
    pub(crate) fn serve(&self, station: Station, lines: u64) {
        if let Some(known) = self.lines_of(station) {
            known.store(lines, Ordering::SeqCst);
        }
        if self.is_alone {
            self.report_each_second();
        }
    }

    /// The desk has answered a line of a station. It is counted if anybody watches.
    #[inline(always)]
    pub(crate) fn count(&self, station: Station, is_accepted: bool) {
        if self.is_watched() {
            self.count_answer(station, is_accepted);
        }
    }

    fn count_answer(&self, station: Station, is_accepted: bool) {
        if let Some(known) = self.lines_of(station) {
            known.fetch_add(1, Ordering::SeqCst);
        }
        self.accepted
            .fetch_add(u64::from(is_accepted), Ordering::SeqCst);
        if self.is_alone {
            self.report_each_second();
        }
    }

    /// How many lines of all stations are known to be served.
    fn lines_of_all(&self) -> u64 {
        let mut sum: u64 = 0;
        for lines in &self.lines {
            sum = sum.saturating_add(lines.load(Ordering::SeqCst));
        }
        sum
    }

    /// Reports the figures, at most once in each second of the run.
    fn report_each_second(&self) {
        if self.pace.is_due() {
            let _ = self.report("");
        }
    }

    fn report(&self, end: &str) -> io::Result<()> {
        let lines = self.lines_of_all();
        let accepted = self.accepted.load(Ordering::SeqCst);
        eprint!(self.rt; "\r{lines} lines, {accepted} accepted{end}")
    }

    /// The run of the station at this place, counted from 0, has ended. If it came to the end of its text, all its lines are
    /// served.
    pub fn end(&self, place: usize, ended: &Result<Ran, RunFault>) {
        if let (Ok(ran), Some(known)) = (ended, self.lines.get(place)) {
            known.store(ran.lines, Ordering::SeqCst);
        }
    }

    /// All runs have ended. If there was a report before, it reports the last figures and ends the line.
    pub fn finish(&self) {
        if self.pace.was_due() {
            let _ = self.report("\n");
        }
    }
}

impl<'r, R: Clock + Eprint + Wait> Gate for ProgressReport<'r, R> {
    /// A round that has taken no command leaves the processor to the stations.
    fn before_commit(&self, _round: u64, taken: usize) {
        self.report_each_second();
        self.doorbell.rest(self.rt, taken);
    }
}

impl<'r, R: Clock + Eprint + Wait> Watch for ProgressReport<'r, R> {
    fn before_entry(&self, _station: Station) {
        self.doorbell.announce();
    }

    fn after_entry(&self, _station: Station) {
        self.doorbell.settle();
    }

    fn after_answer(&self, station: Station, is_accepted: bool) {
        self.count(station, is_accepted);
    }

    fn before_failure(&self, _station: Station) {}

    /// Reports nothing: faults are reported after all answers.
    fn after_run(&self, _station: Station, _ran: &Result<Ran, RunFault>) {}
}
