// Strings of bits that are still in the bytes they are read from.
ghost use Rattle.std.specs.Prelude.{◌≡◌, ◌≤◌, ◌<◌, ◌+◌, ◌*◌, IfOk, length, drop, not, option_map, take};
ghost use Rattle.std.specs.List.{list_all};
ghost use Rattle.identity.specs.Number.{num};
ghost use Rattle.identity.specs.Packed.{bits_of};
ghost use Rattle.identity.specs.BitsText.{most_bits};
ghost use Rattle.command_bytes.specs.Fields.{bytes_for, left_at};
ghost use Rattle.command_bytes.specs.Reading.{bits_at};

use crate::fields::number;
use identity::{Bits, MOST_BITS};
use std::alloc::{AllocError, Allocator};
use std::marker::Model;

/// A PDU's bits, at most 2,048. They are still in the bytes they are read from.
#[derive(Drop)]
pub struct PackedBits<'a> {
    bytes: &'a [u8],
    len: usize,
}

impl<'a> Model for PackedBits<'a> {
    ghost use Rattle.std.specs.Prelude.{List, Bool, take, ◌≤◌};
    ghost use Rattle.identity.specs.Packed.{bits_of, IsPacked};
    ghost use Rattle.identity.specs.BitsText.{most_bits};

    ghost Value = { List Bool };

    ghost view = { λ p. take p.len (bits_of p.bytes.now) };

    ghost invariant = { λ p. (p.len ≤ most_bits) × IsPacked p.bytes.now p.len };
}

impl<'a> PackedBits<'a> {
    /// How many bits they are, at most 2,048.
    pub fn len(&self) -> usize
        ensures { result ≡ length self.now }
    {
        self.len
    }

    /// The eight bits from place 8 * `k` on, as a number.
    pub fn octet(&self, k: usize) -> u8
        requires { 8 * k + 8 ≤ length self.now }
        ensures { take 8 (drop (8 * k) self.now) ≡ num 8 result }
    {
        self.bytes[k]
    }

    /// A copy of the bits in memory of its own.
    pub fn copy<A: Allocator>(&self, alloc: A) -> Result<Bits<A>, AllocError>
        ensures bits { IfOk result (λ bits. bits ≡ self.now) }
        ensures short { length self.now ≤ most_bits }
    {
        Bits::from_packed(alloc, self.bytes, self.len).or(Err(AllocError))
    }
}

// Whether the bits after the first `len` are all 0.
fn ends_in_zeros(bytes: &[u8], len: usize) -> bool
    requires room { len ≤ 8 * length bytes.now }
    requires tight { 8 * length bytes.now < len + 8 }
    requires few { len ≤ most_bits }
    ensures { result ≡ list_all not (drop len (bits_of bytes.now)) }
{
    match bytes.last() {
        None => true,
        Some(last) => u64::from(*last) % (1 << (8 * bytes.len() - len)) == 0,
    }
}

// The first `len` bits and the bytes after them; `None` where bytes are missing or a padding bit is 1.
fn left(bytes: &[u8], len: usize) -> Option<(PackedBits<'_>, &[u8])>
    requires { len ≤ most_bits }
    ensures { option_map (λ x. (x.0, x.1.now)) result ≡ left_at (bytes_for len) len bytes.now }
{
    let width = (len + 7) / 8;
    if bytes.len() < width {
        return None;
    }
    let (text, rest) = bytes.split_at(width);
    if !ends_in_zeros(text, len) {
        return None;
    }
    Some((PackedBits { bytes: text, len }, rest))
}

/// A string of at most 2,048 bits, after its length, and the bytes after it.
#[tactic(auto, unfolding(crate::specs::Reading::bits_at))]
pub fn bits(bytes: &[u8]) -> Option<(PackedBits<'_>, &[u8])>
    ensures { option_map (λ x. (x.0, x.1.now)) result ≡ bits_at bytes.now }
{
    let (len, rest) = number(bytes, 2)?;
    if len > MOST_BITS as u64 {
        return None;
    }
    left(rest, len as usize)
}
