//! How far a dump, a loading or a check has come, reported while it goes on.
ghost use Rattle.std.specs.Prelude.{codes};
ghost use Rattle.served_disk.specs.Counts.{IsTallyOf};

use crate::pace::Pace;
use crate::watched::ends_in;
use std::io;
use std::rt::Clock;
use std::sync::atomic::{AtomicU64, Ordering};

/// How many lines or sectors are done. Once a second it is reported on standard error, over the last report, as `12000 lines`
/// or `12000 sectors`. A report that fails changes nothing.
#[derive(Drop)]
pub struct Tally<'r, R> {
    rt: &'r R,
    /// What is counted, as a report has it.
    unit: &'static str,
    pace: Pace<'r, R>,
    done: AtomicU64,
}

impl<'r, R: Clock + Eprint> Tally<'r, R> {
    /// Nothing is done yet. It is never reported if it is not watched or there is no clock.
    fn new(rt: &'r R, watched: bool, unit: &'static str) -> Self
        ensures { IsTallyOf unit.now watched result }
    {
        Tally {
            rt,
            unit,
            pace: Pace::new(rt, watched),
            done: AtomicU64::new(0),
        }
    }

    /// A tally of lines.
    pub fn of_lines(rt: &'r R, watched: bool) -> Self
        ensures { IsTallyOf (codes "lines") watched result }
    {
        Tally::new(rt, watched, "lines")
    }

    /// A tally of sectors.
    pub fn of_sectors(rt: &'r R, watched: bool) -> Self
        ensures { IsTallyOf (codes "sectors") watched result }
    {
        Tally::new(rt, watched, "sectors")
    }

    /// So many more are done. If nobody watches, none are counted.
    pub(crate) fn add(&self, more: u64) {
        if !self.pace.is_watched() {
            return;
        }
        self.done.fetch_add(more, Ordering::SeqCst);
        if self.pace.is_due() {
            let _ = self.report("");
        }
    }

    /// The lines that end in a piece are done.
    pub(crate) fn add_lines(&self, piece: &[u8]) {
        if self.pace.is_watched() {
            self.add(ends_in(piece));
        }
    }

    fn report(&self, end: &str) -> io::Result<()> {
        let done = self.done.load(Ordering::SeqCst);
        let unit = self.unit;
        eprint!(self.rt; "\r{done} {unit}{end}")
    }

    /// All is done, or no more will be. If there was a report before, it reports the last figure and ends the line.
    pub fn finish(&self) {
        if self.pace.was_due() {
            let _ = self.report("\n");
        }
    }
}
