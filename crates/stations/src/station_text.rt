//! The text of a station's listing, from when it is made until it is written.

use crate::listing_bound::{ListingBound, Turn};
use console::AfterFlush;
use std::rt::Clock;
use std::sync::Wait;
use std::sync::atomic::{AtomicU64, Ordering};

/// The text of a station's listing. The bound counts it until it is written.
#[derive(Drop)]
pub struct StationText<'g, 'r, R> {
    bound: &'g ListingBound,
    rt: &'r R,
    /// How many bytes count; 0 if there is no such text.
    bytes: AtomicU64,
}

impl<'g, 'r, R: Wait> StationText<'g, 'r, R> {
    /// No text is made yet.
    pub(crate) fn new(bound: &'g ListingBound, rt: &'r R) -> StationText<'g, 'r, R> {
        StationText {
            bound,
            rt,
            bytes: AtomicU64::new(0),
        }
    }

    /// Counts a text of so many bytes, if it may be kept. Returns whether it may.
    pub(crate) fn reserve(&self, bytes: usize) -> bool {
        let kept = self.bound.add(self.rt, bytes as u64);
        if kept {
            self.bytes.store(bytes as u64, Ordering::SeqCst);
        }
        kept
    }

    /// Stops counting the text: it is written, or dropped.
    pub(crate) fn release(&self) {
        let bytes = self.bytes.swap(0, Ordering::SeqCst);
        if bytes > 0 {
            self.bound.remove(self.rt, bytes);
        }
    }
}

impl<'g, 'r, R: Wait + Clock> StationText<'g, 'r, R> {
    /// Waits for the station's turn to list.
    pub(crate) fn enter(&self) -> Turn<'g> {
        self.bound.enter(self.rt)
    }

    /// Ends its turn.
    pub(crate) fn leave(&self, turn: Turn<'_>) {
        turn.leave(self.rt);
    }
}

// A flush ends an answer, whose text then counts no more.
impl<'g, 'r, R: Wait> AfterFlush for StationText<'g, 'r, R> {
    fn after_flush(&self) {
        self.release();
    }
}
