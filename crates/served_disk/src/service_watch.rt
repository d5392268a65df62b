//! What a service does as its stations end, and when the device fails.
ghost use Rattle.std.specs.Prelude.{◌≡◌, option_map};
ghost use Rattle.served_disk.specs.Notices.{pair_of, served_in, started_in};
ghost use Rattle.served_disk.specs.declared.notice.Notice.TheVariants.{Serving};

use crate::doorbell::Doorbell;
use crate::notice::Notice;
use crate::serving::end_of;
use crate::{Fault, Pair};
use console::{Ran, RunFault};
use flusher::Gate;
use registration::Station;
use stations::Watch;
use std::alloc::Global;
use std::process::ExitCode;
use std::sync::atomic::{AtomicU64, Ordering};
use std::sync::{OnceLock, Wait};

/// What a service does besides its work.
#[derive(Clone, Copy)]
pub struct Manner<'f> {
    /// Whether it reports the starts and ends of its stations.
    pub log: bool,
    /// Where it puts the exit status when the device has failed; the program then ends. `None`: the program goes on.
    pub finish: Option<&'f OnceLock<ExitCode>>,
}

/// What a service does as its stations end: it closes the files of each, and reports its fault on standard error. A device that
/// fails is reported once, at the first command that is refused for this (tested). Threads may share it.
#[derive(Drop)]
pub struct ServiceWatch<'r, 'p, 'a, R> {
    rt: &'r R,
    alloc: Global,
    pairs: &'p [Pair<'a>],
    manner: Manner<'r>,
    doorbell: Doorbell,
    /// 1 if it was reported that the device has failed, else 0.
    told: AtomicU64,
}

/// How many of these stations have lines.
fn served_in(pairs: &[Pair<'_>]) -> usize
    ensures { result ≡ served_in pairs.now }
{
    pairs.iter().filter(|pair| pair.is_served()).count()
}

impl<'r, 'p, 'a, R: Eprint + Wait> ServiceWatch<'r, 'p, 'a, R> {
    /// For the stations of these pairs. None has ended yet.
    pub fn new(rt: &'r R, alloc: Global, pairs: &'p [Pair<'a>], manner: Manner<'r>) -> Self
        ensures alloc { result.alloc ≡ alloc }
        ensures pairs { result.pairs ≡ pairs.entry }
        ensures manner { result.manner ≡ manner.entry }
    {
        ServiceWatch {
            rt,
            alloc,
            pairs,
            manner,
            doorbell: Doorbell::new(None),
            told: AtomicU64::new(0),
        }
    }

    /// The service begins, over a register that has accepted this many commands. That is reported if a log is wanted.
    pub fn begin(&self, count: u64) {
        self.note(&self.serving_notice(count));
    }

    // The notice that the service's stations are served, over a register that has accepted this many commands.
    fn serving_notice(&self, count: u64) -> Notice<'a>
        ensures { result ≡ Serving (served_in self.now.pairs.now) count }
    {
        Notice::Serving {
            stations: served_in(self.pairs) as u64,
            count,
        }
    }

    /// The lines of this station are served, and its files are open already. That is reported if a log is wanted.
    pub fn start(&self, station: Station) {
        if let Some(notice) = self.start_notice(station) {
            self.note(&notice);
        }
    }

    // The notice that the lines of this station are served, if there is such a station.
    fn start_notice(&self, station: Station) -> Option<Notice<'a>>
        ensures { result ≡ started_in self.now.pairs.now station }
    {
        let pair = self.pair_of(station)?;
        Some(pair.start_notice(u64::from(station.number())))
    }

    /// Reports this if a log is wanted. A report that fails changes nothing.
    fn note(&self, notice: &Notice<'_>) {
        if self.manner.log {
            let _ = notice.report(self.rt, self.alloc);
        }
    }

    /// Lets the program end, with the status of a failed device, if that is wanted.
    fn end_program(&self) {
        if let Some(finish) = self.manner.finish {
            let _ = finish.set(self.rt, ExitCode::from(Fault::Device.status()));
        }
    }

    /// Whether it was reported that the device has failed.
    pub fn has_told(&self) -> bool {
        self.told.load(Ordering::SeqCst) == 1
    }

    /// Where the memory for the line of a fault comes from.
    pub fn alloc(&self) -> Global
        ensures { result ≡ self.now.alloc }
    {
        self.alloc
    }

    /// The pairs of the stations.
    pub fn pairs(&self) -> &'p [Pair<'a>]
        ensures { result.now ≡ self.now.pairs.now }
    {
        self.pairs
    }

    /// The pair of a station.
    fn pair_of(&self, station: Station) -> Option<&Pair<'a>>
        ensures { option_map (λ pair. pair.now) result ≡ pair_of self.now.pairs.now station }
    {
        let number = usize::from(station.number());
        if 0 < number {
            self.pairs.get(number - 1)
        } else {
            None
        }
    }
}

impl<'r, 'p, 'a, R: Eprint + Wait> Gate for ServiceWatch<'r, 'p, 'a, R> {
    fn before_commit(&self, _round: u64, taken: usize) {
        self.doorbell.rest(self.rt, taken);
    }
}

impl<'r, 'p, 'a, R: Eprint + Wait> Watch for ServiceWatch<'r, 'p, 'a, R> {
    fn before_entry(&self, _station: Station) {
        self.doorbell.announce();
    }

    fn after_entry(&self, _station: Station) {
        self.doorbell.settle();
    }

    fn after_answer(&self, _station: Station, _is_accepted: bool) {}

    /// Reports that the device has failed, unless that was reported, and lets the program end if that is wanted. If the report fails,
    /// the next call tries again.
    fn before_failure(&self, _station: Station) {
        if self.told.swap(1, Ordering::SeqCst) == 1 {
            return;
        }
        if Notice::Fault(Fault::Device)
            .report(self.rt, self.alloc)
            .is_none()
        {
            self.told.store(0, Ordering::SeqCst);
        }
        self.end_program();
    }

    /// Closes the station's files, reports a fault, and then, if a log is wanted, that the station has ended. A report that fails
    /// changes nothing.
    fn after_run(&self, station: Station, ran: &Result<Ran, RunFault>) {
        let Some(pair) = self.pair_of(station) else {
            return;
        };
        pair.close(self.rt);
        if let Err(fault) = end_of(&pair.names(self.rt), ran) {
            let _ = Notice::Fault(fault).report(self.rt, self.alloc);
        }
        if pair.is_served() {
            self.note(&Notice::Ended {
                station: u64::from(station.number()),
            });
        }
    }
}
