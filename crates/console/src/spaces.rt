//! The spaces of a line, as the bits of a number: bit 0 is the first byte.
ghost use Rattle.std.specs.Prelude.{◌≡◌, ◌⊎◌, ◌↔◌, ◌≢◌, ◌≤◌, ◌<◌, ◌+◌, ℕ, MatchOption, length, slice_index};
ghost use Rattle.std.specs.Int.{bit_at};
ghost use Rattle.console.specs.Inside.Marks.{AreSpaces};

use std::simd::prelude::*;

/// Which of the 16 bytes from `at` on are spaces.
#[inline(always)]
fn spaces_of_16(line: &[u8], at: usize) -> u64
    requires { at + 16 ≤ length line.now }
    ensures { (k : ℕ) → (bit_at result k ≡ 1) ↔ ((k < 16) × (slice_index line.now (at + k) ≡ 32)) }
{
    u8x16::from_slice(&line[at..])
        .simd_eq(u8x16::splat(b' '))
        .to_bitmask()
}

/// Which of the 32 bytes from `at` on are spaces.
#[inline(always)]
fn spaces_of_32(line: &[u8], at: usize) -> u64
    requires { at + 32 ≤ length line.now }
    ensures { (k : ℕ) → (bit_at result k ≡ 1) ↔ ((k < 32) × (slice_index line.now (at + k) ≡ 32)) }
{
    u8x32::from_slice(&line[at..])
        .simd_eq(u8x32::splat(b' '))
        .to_bitmask()
}

/// The spaces of a line of 16 to 64 bytes. It reads the first and the last 16 bytes, or the first and the last 32
/// if there are as many. The two parts may overlap.
#[inline(always)]
fn spaces_of(line: &[u8]) -> u64
    requires low { 16 ≤ length line.now }
    requires high { length line.now ≤ 64 }
    ensures { AreSpaces line.now 0 (length line.now) result }
{
    if line.len() < 32 {
        let at = line.len() - 16;
        return spaces_of_16(line, 0) | (spaces_of_16(line, at) << at);
    }
    let at = line.len() - 32;
    spaces_of_32(line, 0) | (spaces_of_32(line, at) << at)
}

/// The place of the lowest bit that is set.
#[inline(always)]
pub(crate) fn first_of(marks: u64) -> usize
    requires { marks ≢ 0 }
    ensures bound { result < 64 }
    ensures set { bit_at marks result ≡ 1 }
    ensures below { (k : ℕ) → k < result → bit_at marks k ≡ 0 }
{
    marks.trailing_zeros() as usize
}

/// The place of the lowest bit that is set, and the other bits.
#[inline(always)]
pub(crate) fn take_first(marks: u64) -> (usize, u64)
    requires { marks ≢ 0 }
    ensures bound { result.0 < 64 }
    ensures set { bit_at marks result.0 ≡ 1 }
    ensures below { (k : ℕ) → k < result.0 → bit_at marks k ≡ 0 }
    ensures kept { (k : ℕ) → k ≢ result.0 → bit_at result.1 k ≡ bit_at marks k }
    ensures gone { bit_at result.1 result.0 ≡ 0 }
    ensures no_more { (k : ℕ) → bit_at result.1 k ≡ 1 → bit_at marks k ≡ 1 }
{
    (first_of(marks), marks & (marks - 1))
}

/// What is left of a line: its bytes from `start` on, with the marks of their spaces.
#[derive(Clone, Copy)]
pub(crate) struct Rest<'a> {
    pub(crate) line: &'a [u8],
    pub(crate) start: usize,
    pub(crate) marks: u64,
    ghost within: { start ≤ length line.now },
    ghost few: { length line.now ≤ 64 },
    ghost marked: { AreSpaces line.now start (length line.now) marks },
}

/// A whole line, if it has 16 to 64 bytes; else none.
#[inline(always)]
pub(crate) fn whole_line(line: &[u8]) -> Option<Rest<'_>>
    ensures { MatchOption result ((length line.now < 16) ⊎ (64 < length line.now)) (λ rest. (rest.line.now ≡ line.now) × (rest.start ≡ 0)) }
{
    if line.len() < 16 || line.len() > 64 {
        return None;
    }
    Some(Rest {
        line,
        start: 0,
        marks: spaces_of(line),
    })
}
