//! The ends of lines in a piece of the text.
ghost use Rattle.std.specs.Prelude.{◌≡◌, ◌↔◌, ◌≤◌, ◌<◌, ◌+◌, ◌-◌, ℕ, MatchOption, Some, length, take, drop, slice_get, slice_index};
ghost use Rattle.std.specs.Int.{bit_at};
ghost use Rattle.console.specs.Inside.Current.{HasNoEnd};

use crate::spaces::first_of;
use memchr::memchr;
use std::simd::prelude::*;

/// How many bytes are searched at once.
const NEAR: usize = 64;

/// Which of the 64 bytes from `at` on are line feeds.
#[inline(always)]
fn ends_of_64(piece: &[u8], at: usize) -> u64
    requires { at + 64 ≤ length piece.now }
    ensures { (k : ℕ) → (bit_at result k ≡ 1) ↔ ((k < 64) × (slice_index piece.now (at + k) ≡ 10)) }
{
    u8x64::from_slice(&piece[at..])
        .simd_eq(u8x64::splat(b'\n'))
        .to_bitmask()
}

/// The place of the next line feed, from `at` on. Most line feeds are within 64 bytes.
#[inline(always)]
pub(crate) fn next_end(piece: &[u8], at: usize) -> Option<usize>
    requires { at ≤ length piece.now }
    ensures { MatchOption result (HasNoEnd (drop at piece.now))
        (λ end. (at ≤ end) × (end < length piece.now) × HasNoEnd (take (end - at) (drop at piece.now)) × (slice_get piece.now end ≡ Some 10)) }
{
    if piece.len() - at >= NEAR {
        let ends = ends_of_64(piece, at);
        if ends != 0 {
            return Some(at + first_of(ends));
        }
    }
    let length = memchr(b'\n', &piece[at..])?;
    Some(at + length)
}
