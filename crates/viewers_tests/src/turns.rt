//! Waits for another thread, for a limited number of turns.
use std::sync::atomic::{AtomicU64, Ordering};
use std::thread;

/// The most turns that a thread waits for another one.
pub const TURNS: u32 = 1_000_000;

/// Waits until `number` is at least `least`. False if it never was.
pub fn comes_to(number: &AtomicU64, least: u64) -> bool {
    for _ in 0..TURNS {
        if number.load(Ordering::SeqCst) >= least {
            return true;
        }
        thread::yield_now();
    }
    false
}

/// Lets the other threads run for a while.
pub fn rest() {
    for _ in 0..1_000u32 {
        thread::yield_now();
    }
}
