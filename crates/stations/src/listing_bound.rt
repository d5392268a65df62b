//! The bound on listings, over all stations of a run together.
ghost use Rattle.std.specs.Prelude.{◌≡◌, ◌↔◌, ◌≤◌, ◌<◌, ◌+◌, ◌-◌, ◌^◌, IsTrue, false, max, min, true};
ghost use Rattle.stations.specs.Listings.{AreBounded, MayKeep, opening};

use std::rt::Clock;
use std::sync::{Mutex, MutexGuard, Wait};
use std::thread;
use std::time::Duration;

/// After a listing no other begins for so many times as long as it took.
const REST: u64 = 9;

/// Of the time that a listing took, at most so many nanoseconds count. So no rest is longer than nine tenths of a second, even
/// on a busy machine.
const MOST_COUNTED: u64 = 100_000_000;

/// A text beside two others or more is kept only if those take at most so many bytes.
const SPARE_BYTES: u64 = 4_194_304;

/// The texts of listings that are made and not yet written.
#[derive(Drop)]
struct Unwritten {
    texts: u64,
    /// The bytes of all of them.
    bytes: u64,
    /// The bytes of the longest one that there ever was.
    longest: u64,
    ghost bounded: { AreBounded texts bytes longest },
}

impl Unwritten {
    // No text is counted yet.
    fn new() -> Unwritten
        ensures { (result.texts ≡ 0) × (result.bytes ≡ 0) × (result.longest ≡ 0) }
    {
        Unwritten {
            texts: 0,
            bytes: 0,
            longest: 0,
        }
    }

    // Whether one more may be kept.
    fn has_room(&self) -> bool
        ensures { IsTrue result ↔ MayKeep self.now.texts self.now.bytes }
    {
        self.texts < 2 || self.bytes <= SPARE_BYTES
    }

    // Counts a text of so many bytes.
    fn add(&mut self, bytes: u64)
        requires room { MayKeep self.old.texts self.old.bytes }
        ensures texts { self.new.texts ≡ min (self.old.texts + 1) (2 ^ 64 - 1) }
        ensures bytes { self.new.bytes ≡ min (self.old.bytes + bytes) (2 ^ 64 - 1) }
        ensures longest { self.new.longest ≡ max self.old.longest bytes }
    {
        *self = Unwritten {
            texts: self.texts.saturating_add(1),
            bytes: self.bytes.saturating_add(bytes),
            longest: self.longest.max(bytes),
        };
    }

    // Counts a text of so many bytes, if one more may be kept, and returns whether it may.
    fn add_if_room(&mut self, bytes: u64) -> bool
        ensures may { IsTrue result ↔ MayKeep self.old.texts self.old.bytes }
        ensures counted { result ≡ true
            → (self.new.texts ≡ min (self.old.texts + 1) (2 ^ 64 - 1)) × (self.new.bytes ≡ min (self.old.bytes + bytes) (2 ^ 64 - 1)) }
        ensures longest { result ≡ true → self.new.longest ≡ max self.old.longest bytes }
        ensures same { result ≡ false → (self.new.texts ≡ self.old.texts) × (self.new.bytes ≡ self.old.bytes) × (self.new.longest ≡ self.old.longest) }
    {
        if !self.has_room() {
            return false;
        }
        self.add(bytes);
        true
    }

    // Stops counting a text of so many bytes.
    fn remove(&mut self, bytes: u64)
        ensures texts { self.new.texts ≡ self.old.texts - 1 }
        ensures bytes { self.new.bytes ≡ self.old.bytes - bytes }
        ensures longest { self.new.longest ≡ self.old.longest }
    {
        *self = Unwritten {
            texts: self.texts.saturating_sub(1),
            bytes: self.bytes.saturating_sub(bytes),
            longest: self.longest,
        };
    }
}

// The moment from which the next listing may begin, after one that began and ended at these moments.
fn opening(began: u64, ended: u64) -> u64
    ensures { result ≡ min (opening began ended) (2 ^ 64 - 1) }
{
    let took = ended.saturating_sub(began).min(MOST_COUNTED);
    ended.saturating_add(REST * took)
}

// The clock's moment, in nanoseconds; `None` if it can't be read.
fn moment<R: Clock>(rt: &R) -> Option<u64> {
    u64::try_from(rt.monotonic().ok()?.as_nanos()).ok()
}

/// Bounds the listings that walk through tables, over all stations of a run. Only one station lists at a time, and then none for nine times
/// as long. The flusher waits while a station reads the older copy: so it waits for a tenth of the time at most. Of the texts that are not
/// written yet, two are kept, or as many as take 4 MiB and one text more.
///
/// All threads change what it counts, so no contract says what `enter`, `add` and `remove` leave there: tests do.
#[derive(Drop)]
pub struct ListingBound {
    /// Whether the run has more than one station. If not, no listing waits for a rest.
    is_shared: bool,
    /// The moment from which the next listing may begin. Whoever lists has the lock.
    opens: Mutex<u64>,
    unwritten: Mutex<Unwritten>,
}

/// The turn of the one station that lists.
#[derive(Drop)]
pub(crate) struct Turn<'g> {
    is_shared: bool,
    opens: MutexGuard<'g, u64>,
    /// When it began, if there is a clock.
    began: Option<u64>,
}

impl ListingBound {
    /// The bound of a run of this many stations.
    pub(crate) fn new(stations: usize) -> ListingBound
        ensures { IsTrue result.is_shared ↔ (1 < stations) }
    {
        ListingBound {
            is_shared: stations > 1,
            opens: Mutex::new(0),
            unwritten: Mutex::new(Unwritten::new()),
        }
    }

    /// Waits for a turn: until no other station lists, and the rest after the last listing is over.
    pub(crate) fn enter<R: Wait + Clock>(&self, rt: &R) -> Turn<'_>
        ensures { result.is_shared ≡ self.now.is_shared }
    {
        let opens = self.opens.lock(rt);
        if let Some(now) = moment(rt) {
            thread::sleep(rt, Duration::from_nanos(opens.saturating_sub(now)));
        }
        Turn {
            is_shared: self.is_shared,
            opens,
            began: moment(rt),
        }
    }

    /// Counts a text of so many bytes until `remove`, if it may be kept. It returns whether it may.
    pub(crate) fn add<R: Wait>(&self, rt: &R, bytes: u64) -> bool {
        let mut guard = self.unwritten.lock(rt);
        guard.add_if_room(bytes)
    }

    /// Stops counting a text of so many bytes: it is written, or dropped.
    pub(crate) fn remove<R: Wait>(&self, rt: &R, bytes: u64) {
        let mut guard = self.unwritten.lock(rt);
        guard.remove(bytes);
    }
}

impl<'g> Turn<'g> {
    /// Ends the turn, and begins the rest.
    pub(crate) fn leave<R: Clock>(self, rt: &R) {
        let Turn {
            is_shared,
            mut opens,
            began,
        } = self;
        if let (true, Some(began), Some(ended)) = (is_shared, began, moment(rt)) {
            *opens = opening(began, ended);
        }
        drop(opens);
    }
}
