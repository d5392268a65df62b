use flusher::Gate;
use std::sync::atomic::{AtomicU64, Ordering};
use std::thread;

/// The most turns that a thread waits for another one.
pub const TURNS: u32 = 1_000_000;

/// Waits until `number` is at least `least`. False if it never was.
pub fn comes_to(number: &AtomicU64, least: u64) -> bool {
    for _ in 0..TURNS {
        if number.load(Ordering::SeqCst) >= least {
            return true;
        }
        thread::yield_now();
    }
    false
}

/// A gate that does nothing.
#[derive(Drop)]
pub struct Idle;

impl Gate for Idle {
    fn before_commit(&self, _round: u64, _taken: usize) {}
}
