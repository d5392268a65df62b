//! What wakes the flusher's thread.
ghost use Rattle.std.specs.Prelude.{◌≡◌};

use std::sync::Wait;
use std::sync::atomic::{AtomicU64, Ordering};
use std::thread;
use std::thread::Parker;
use std::time::Duration;

/// After this many rounds in a row that took no command, the flusher's thread is about to sleep.
const PATIENCE: u64 = 64;

/// Lets the flusher's thread sleep while no station has anything for it. No wake-up is lost:
///
/// - A command is announced before it is put into the queue, until it is answered. While one is announced, the flusher does not
///   sleep. Whoever announces one when the flusher is about to sleep rings.
/// - The end of a session is not answered. If it was put before the flusher was about to sleep, the next round takes it. The
///   flusher then sleeps in the round after that at the earliest, unless this end was the last. If it was put later, whoever
///   put it rings: the flusher's sleep ends, or does not begin.
#[derive(Drop)]
pub(crate) struct Doorbell {
    /// How many entries are announced: each is about to be put into the queue, or waits for its answer.
    announced: AtomicU64,
    /// How many rounds in a row took no command. From `PATIENCE` on the flusher sleeps, or is about to.
    idle: AtomicU64,
    parker: Parker,
    /// How long a sleep may last. `None`: until it rings.
    longest: Option<Duration>,
}

impl Doorbell {
    /// The flusher is awake, and nothing is announced.
    pub(crate) fn new(longest: Option<Duration>) -> Doorbell
        ensures { result.longest ≡ longest }
    {
        Doorbell {
            announced: AtomicU64::new(0),
            idle: AtomicU64::new(0),
            parker: Parker::new(),
            longest,
        }
    }

    /// Wakes the flusher if it sleeps or is about to.
    fn ring(&self) {
        if self.idle.load(Ordering::SeqCst) >= PATIENCE {
            self.parker.unpark();
        }
    }

    /// An entry is about to be put into the queue.
    pub(crate) fn announce(&self) {
        self.announced.fetch_add(1, Ordering::SeqCst);
        self.ring();
    }

    /// An entry that was announced was put, and answered if it is a command.
    pub(crate) fn settle(&self) {
        self.announced.fetch_sub(1, Ordering::SeqCst);
        self.ring();
    }

    /// Called in the flusher's thread: a round has taken this many commands. After many rounds that took none it sleeps.
    pub(crate) fn rest<R: Wait>(&self, rt: &R, taken: usize) {
        if taken > 0 {
            self.idle.store(0, Ordering::SeqCst);
            return;
        }
        if self.idle.fetch_add(1, Ordering::SeqCst) <= PATIENCE {
            thread::yield_now();
            return;
        }
        if self.announced.load(Ordering::SeqCst) == 0 {
            self.sleep(rt);
        }
        self.idle.store(0, Ordering::SeqCst);
    }

    /// Sleeps until it rings. If it has rung since the last sleep, it returns at once.
    fn sleep<R: Wait>(&self, rt: &R) {
        match self.longest {
            Some(longest) => self.parker.park_timeout(rt, longest),
            None => self.parker.park(rt),
        }
    }
}
