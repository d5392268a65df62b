//! A reader and a desk that pass each call on, and count it.
ghost use Rattle.std.specs.Prelude.{◌≡◌};
ghost use Rattle.served_disk.specs.Counts.{ends_in};

use crate::ProgressReport;
use centre_core::{Command, Query, QueryAnswer, Reply};
use console::{Desk, Outage};
use listings::Listing;
use registration::Station;
use std::alloc::Allocator;
use std::io;
use std::io::Read;
use std::rt::Clock;

/// A station's reader whose lines are counted as they are served.
#[derive(Drop)]
pub struct WatchedReader<'p, 'r, R, C> {
    reader: R,
    progress: &'p ProgressReport<'r, C>,
    station: Station,
    /// How many lines end in what the reader gave.
    lines: u64,
}

impl<'p, 'r, R: Read, C: Clock + Eprint> WatchedReader<'p, 'r, R, C> {
    /// This reader. `progress` counts its lines as this station's.
    pub fn new(reader: R, station: Station, progress: &'p ProgressReport<'r, C>) -> Self
        ensures reader { result.reader ≡ reader }
        ensures station { result.station ≡ station }
        ensures progress { result.progress.now ≡ progress.now }
        ensures lines { result.lines ≡ 0 }
    {
        WatchedReader {
            reader,
            progress,
            station,
            lines: 0,
        }
    }
}

/// How many lines end in a piece.
pub(crate) fn ends_in(piece: &[u8]) -> u64
    ensures { result ≡ ends_in piece.now }
{
    piece.iter().filter(|byte| **byte == b'\n').count() as u64
}

impl<'p, 'r, R: Read, C: Clock + Eprint> Read for WatchedReader<'p, 'r, R, C> {
    ghost remaining = { λ watched. R.remaining watched.reader };

    fn read(&mut self, buffer: &mut [u8]) -> io::Result<usize> {
        if !self.progress.is_watched() {
            return self.reader.read(buffer);
        }
        self.progress.serve(self.station, self.lines);
        let given = self.reader.read(buffer);
        if let Ok(n) = &given {
            self.lines = self.lines.saturating_add(ends_in(&buffer[..*n]));
        }
        given
    }
}

/// A desk whose answers to a station are counted.
#[derive(Drop)]
pub struct WatchedDesk<'p, 'r, D, C> {
    desk: D,
    station: Station,
    progress: &'p ProgressReport<'r, C>,
}

impl<'p, 'r, D, C: Clock + Eprint> WatchedDesk<'p, 'r, D, C> {
    /// This desk. `progress` counts its answers as this station's.
    pub fn new(desk: D, station: Station, progress: &'p ProgressReport<'r, C>) -> Self
        ensures desk { result.desk ≡ desk }
        ensures station { result.station ≡ station }
        ensures progress { result.progress.now ≡ progress.now }
    {
        WatchedDesk {
            desk,
            station,
            progress,
        }
    }
}

impl<'p, 'r, A: Allocator + Copy, D: Desk<A>, C: Clock + Eprint> Desk<A>
    for WatchedDesk<'p, 'r, D, C> {
    ghost World = { D.World };

    ghost world = { λ watched. D.world watched.desk };

    ghost rules = { D.rules };

    ghost most = { λ watched. D.most watched.desk };

    fn most_together(&self) -> usize {
        self.desk.most_together()
    }

    fn apply(&mut self, alloc: A, command: &Command<A>) -> Result<Reply<A>, Outage> {
        let replied = self.desk.apply(alloc, command);
        let accepted = matches!(&replied, Ok(reply) if reply.is_acceptance());
        self.progress.count(self.station, accepted);
        replied
    }

    fn query(&mut self, alloc: A, query: &Query) -> Result<QueryAnswer<A>, Outage> {
        let answer = self.desk.query(alloc, query);
        self.progress.count(self.station, false);
        answer
    }

    fn list(&mut self, listing: &Listing, out: &mut Vec<u8, A>) -> Result<(), Outage> {
        let listed = self.desk.list(listing, out);
        self.progress.count(self.station, false);
        listed
    }
}
