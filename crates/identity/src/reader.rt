//! Reads numbers from a string of bits.

ghost use Rattle.std.specs.Prelude.{◌≡◌, ◌≤◌, ◌<◌, ◌+◌, ◌*◌, ◌^◌, Bool, List, length, take, drop, nat_lt, if◌then◌else◌, Ok, Err, IfOk};
ghost use Rattle.identity.specs.Packed.{bits_of};
ghost use Rattle.identity.specs.Number.{num, number};
ghost use Rattle.identity.specs.declared.fault.Fault.TheVariants.{Short};

use crate::{Bits, Fault};
use std::alloc::Allocator;
use std::marker::Model;

/// The bits that are still to be read, from left to right.
#[derive(Drop)]
pub struct BitReader<'a> {
    bytes: &'a [u8],
    at: usize,
    end: usize,
}

impl<'a> Model for BitReader<'a> {
    ghost Value = { List Bool };

    ghost view = { λ r. drop r.at (take r.end (bits_of r.bytes.now)) };

    ghost invariant = { λ r. (r.at ≤ r.end) × (r.end ≤ length (bits_of r.bytes.now)) × (8 ≤ length r.bytes.now) };
}

/// The number of the eight bytes from place `start` on.
#[inline(always)]
fn word_at(bytes: &[u8], start: usize) -> u64
    requires { start + 8 ≤ length bytes.now }
    ensures { bits_of (take 8 (drop start bytes.now)) ≡ num 64 result }
{
    u64::from_be_bytes([
        bytes[start],
        bytes[start + 1],
        bytes[start + 2],
        bytes[start + 3],
        bytes[start + 4],
        bytes[start + 5],
        bytes[start + 6],
        bytes[start + 7],
    ])
}

/// The `width` bits from place `at` on as a number: part of the eight bytes from there on, or of the last eight.
#[inline(always)]
pub(crate) fn number_at(bytes: &[u8], at: usize, width: u32) -> u64
    requires width { width ≤ 48 }
    requires eight { 8 ≤ length bytes.now }
    requires room { at + width ≤ 8 * length bytes.now }
    ensures value { result ≡ number (take width (drop at (bits_of bytes.now))) }
    ensures small { result < 2 ^ width }
{
    let start = (at / 8).min(bytes.len() - 8);
    let following = 64 - (at - 8 * start) - width as usize;
    (word_at(bytes, start) >> (following % 64)) % (1 << width)
}

impl<'a> BitReader<'a> {
    /// A reader of all the bits.
    pub fn new<A: Allocator>(bits: &'a Bits<A>) -> BitReader<'a>
        ensures { result ≡ bits.now }
    {
        BitReader::from_place(bits, 0)
    }

    /// A reader of the bits from place `at` on.
    pub(crate) fn from_place<A: Allocator>(bits: &'a Bits<A>, at: usize) -> BitReader<'a>
        requires { at ≤ length bits.now }
        ensures { result ≡ drop at bits.now }
    {
        BitReader {
            bytes: bits.held(),
            at,
            end: bits.len(),
        }
    }

    /// How many bits are left.
    pub fn left(&self) -> usize
        ensures { result ≡ length self.now }
    {
        self.end - self.at
    }

    /// Reads the next `width` bits, at most 48, as a number. `Fault::Short`, and nothing changes, where fewer are left.
    pub fn take(&mut self, width: u32) -> Result<u64, Fault>
        requires { width ≤ 48 }
        ensures value { result ≡ (if nat_lt (length self.old) width then Err Short else Ok (number (take width self.old))) }
        ensures small { IfOk result (λ v. v < 2 ^ width) }
        ensures rest { self.new ≡ (if nat_lt (length self.old) width then self.old else drop width self.old) }
    {
        if self.left() < width as usize {
            return Err(Fault::Short);
        }
        let value = number_at(self.bytes, self.at, width);
        self.at += width as usize;
        Ok(value)
    }

    /// A reader of the next `len` bits alone, which this one skips. `Fault::Short`, and nothing changes, where fewer are left.
    pub fn cut(&mut self, len: usize) -> Result<BitReader<'a>, Fault>
        ensures value { result ≡ (if nat_lt (length self.old) len then Err Short else Ok (take len self.old)) }
        ensures rest { self.new ≡ (if nat_lt (length self.old) len then self.old else drop len self.old) }
    {
        if self.left() < len {
            return Err(Fault::Short);
        }
        let start = self.at;
        self.at += len;
        Ok(BitReader {
            bytes: self.bytes,
            at: start,
            end: self.at,
        })
    }
}
