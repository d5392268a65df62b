//! Reports come once a second.
ghost use Rattle.std.specs.Prelude.{◌≡◌, None, false, is_some};

use std::rt::Clock;
use std::sync::atomic::{AtomicU64, Ordering};
use std::time::Instant;

/// When a report of some work is due: once in each second after the first. Threads may share it.
#[derive(Drop)]
pub(crate) struct Pace<'r, R> {
    rt: &'r R,
    /// When the work began. `None` if nobody watches, or there is no clock.
    began: Option<Instant>,
    /// The second of the work in which a report was last due; 0 before the first.
    due: AtomicU64,
}

impl<'r, R: Clock> Pace<'r, R> {
    /// The work begins. No report is ever due if it is not watched or there is no clock.
    pub(crate) fn new(rt: &'r R, watched: bool) -> Self
        ensures { watched ≡ false → result.began ≡ None }
    {
        let began = match Instant::now(rt) {
            Ok(now) if watched => Some(now),
            _ => None,
        };
        Pace {
            rt,
            began,
            due: AtomicU64::new(0),
        }
    }

    /// Whether reports can be due at all.
    pub(crate) fn is_watched(&self) -> bool
        ensures { result ≡ is_some self.now.began }
    {
        self.began.is_some()
    }

    /// Whether a report is due: at the first call in each second.
    pub(crate) fn is_due(&self) -> bool
        ensures { self.now.began ≡ None → result ≡ false }
    {
        let Some(began) = self.began else {
            return false;
        };
        let Ok(passed) = began.elapsed(self.rt) else {
            return false;
        };
        let second = passed.as_secs();
        if self.due.load(Ordering::SeqCst) >= second {
            return false;
        }
        self.due.store(second, Ordering::SeqCst);
        true
    }

    /// Whether a report was ever due.
    pub(crate) fn was_due(&self) -> bool {
        self.due.load(Ordering::SeqCst) > 0
    }
}
