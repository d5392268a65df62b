//! Strings of bits, packed in bytes.

ghost use Rattle.std.specs.Prelude.{◌≡◌, ◌==◌, ◌<◌, ◌≤◌, ◌^◌, ◌++◌, ◌+◌, ◌*◌, ◌↔◌, Bool, List, [], length, take, drop, IfOk, IfErr, OnErr, OnOk, IsTrue, slice_get, Some};
ghost use Rattle.std.specs.Ordering.{eq_by_cmp};
ghost use Rattle.identity.specs.Number.{num, number};
ghost use Rattle.identity.specs.Packed.{bits_of, IsPacked};
ghost use Rattle.identity.specs.Inside.Kept.{kept, AreKept, IsClear};
ghost use Rattle.identity.specs.Path.{path_cmp};
ghost use Rattle.identity.specs.BitsText.{bits_text};
ghost use Rattle.identity.specs.declared.fault.Fault.TheVariants.{NoMemory};

use crate::display::write_hex;
use crate::packed::{append_bits, bit_in, first_eight, same_bytes, spill, with_number};
use crate::reader::number_at;
use crate::{BitReader, Fault};
use std::alloc::{Allocator, Global};
use std::fmt;
use std::marker::Model;

/// How many bits are kept in place.
const IN_PLACE: usize = 64;

/// A string of bits. Up to 64 of them are kept in place, and take no memory from the allocator.
#[derive(Drop)]
pub struct Bits<A: Allocator = Global> {
    short: [u8; 8],
    bytes: Vec<u8, A>,
    len: usize,
}

impl<A: Allocator> Model for Bits<A> {
    ghost Value = { List Bool };

    ghost view = { λ b. take b.len (bits_of (kept b.len b.short b.bytes.items)) };

    ghost invariant = { λ b. AreKept b.len b.short b.bytes.items };
}

impl<A: Allocator> Bits<A> {
    /// How many bits it has.
    pub fn len(&self) -> usize
        ensures { result ≡ length self.now }
    {
        self.len
    }

    /// Whether it has no bits.
    pub fn is_empty(&self) -> bool
        ensures { result ≡ (length self.now == 0) }
    {
        self.len == 0
    }

    /// The bit at place `at`, from 0 and below the length.
    pub fn get(&self, at: usize) -> bool
        requires { at < length self.now }
        ensures { slice_get self.now at ≡ Some result }
    {
        bit_in(self.held(), at)
    }

    /// The `width` bits from place `at` on as a number.
    #[inline(always)]
    pub fn number(&self, at: usize, width: u32) -> u64
        requires width { width ≤ 48 }
        requires room { at + width ≤ length self.now }
        ensures value { result ≡ number (take width (drop at self.now)) }
        ensures small { result < 2 ^ width }
    {
        number_at(self.held(), at, width)
    }

    /// A copy under the given allocator; `Fault::NoMemory` where that is out of memory, as can be for more than 64 bits.
    pub fn try_copy<B: Allocator>(&self, alloc: B) -> Result<Bits<B>, Fault>
        ensures ok { IfOk result (λ copy. copy ≡ self.now) }
        ensures err { IfErr result (λ e. e ≡ NoMemory) }
        ensures memory { OnErr result (64 < length self.now) }
    {
        if self.len <= IN_PLACE {
            return Ok(Bits::short(alloc, self.short, self.len));
        }
        let bytes = Vec::from_slice(alloc, &self.bytes)?;
        Ok(Bits::packed(bytes, self.len))
    }

    /// Its bits packed in as few bytes as they need: eight to a byte, the first of them the greatest. What fills
    /// the last byte is 0.
    pub fn as_bytes(&self) -> &[u8]
        ensures packed { IsPacked result.now (length self.now) }
        ensures bits { take (length self.now) (bits_of result.now) ≡ self.now }
    {
        if self.len <= IN_PLACE {
            &self.short[..self.len.div_ceil(8)]
        } else {
            &self.bytes
        }
    }

    /// The bytes that its bits are the first of: eight, or more.
    #[inline(always)]
    pub(crate) fn held(&self) -> &[u8]
        ensures eight { 8 ≤ length result.now }
        ensures room { length self.now ≤ 8 * length result.now }
        ensures bits { take (length self.now) (bits_of result.now) ≡ self.now }
    {
        if self.len <= IN_PLACE {
            &self.short
        } else {
            &self.bytes
        }
    }

    /// The eight bytes that up to 64 bits are the first of. What fills them is 0.
    #[inline(always)]
    pub(crate) fn in_place(&self) -> [u8; 8]
        requires few { length self.now ≤ 64 }
        ensures clear { IsClear result (length self.now) }
        ensures bits { take (length self.now) (bits_of result) ≡ self.now }
    {
        self.short
    }

    /// Whether the two are the same bits. Their allocators may differ.
    pub fn same<B: Allocator>(&self, other: &Bits<B>) -> bool
        ensures equal { IsTrue result ↔ (self.now ≡ other.now) }
        ensures test { result ≡ eq_by_cmp path_cmp self.now other.now }
    {
        self.len == other.len && same_bytes(self.as_bytes(), other.as_bytes())
    }

    pub(crate) fn new(alloc: A) -> Bits<A>
        ensures { result ≡ [] }
    {
        Bits {
            short: [0; 8],
            bytes: Vec::new(alloc),
            len: 0,
        }
    }

    /// The first `len` bits of eight bytes.
    pub(crate) fn short(alloc: A, bytes: [u8; 8], len: usize) -> Bits<A>
        requires few { len ≤ 64 }
        requires clear { IsClear bytes len }
        ensures { result ≡ take len (bits_of bytes) }
    {
        Bits {
            short: bytes,
            bytes: Vec::new(alloc),
            len,
        }
    }

    /// The first `len` bits of bytes, where these are more than have room in place.
    pub(crate) fn packed(bytes: Vec<u8, A>, len: usize) -> Bits<A>
        requires long { 64 < len }
        requires packed { IsPacked bytes.items len }
        ensures { result ≡ take len (bits_of bytes.items) }
    {
        Bits {
            short: [0; 8],
            bytes,
            len,
        }
    }

    /// A copy of the first `len` bits of bytes, under the given allocator; `Fault::NoMemory` where that is out of memory, as
    /// can be for more than 64 bits.
    pub fn from_packed(alloc: A, bytes: &[u8], len: usize) -> Result<Bits<A>, Fault>
        requires { IsPacked bytes.now len }
        ensures ok { IfOk result (λ bits. bits ≡ take len (bits_of bytes.now)) }
        ensures err { IfErr result (λ e. e ≡ NoMemory) }
        ensures memory { OnErr result (64 < len) }
    {
        if len <= IN_PLACE {
            return Ok(Bits::short(alloc, first_eight(bytes), len));
        }
        let bytes = Vec::from_slice(alloc, bytes)?;
        Ok(Bits::packed(bytes, len))
    }

    /// Appends the low `width` bits of `value`, the greatest first.
    #[inline(always)]
    pub(crate) fn append(&mut self, value: u64, width: u32) -> Result<(), Fault>
        requires width { width ≤ 48 }
        requires fits { value < 2 ^ width }
        ensures ok { OnOk result (self.new ≡ self.old ++ num width value) }
        ensures err { IfErr result (λ e. (e ≡ NoMemory) × (self.new ≡ self.old)) }
        ensures memory { OnErr result (64 < length self.old + width) }
    {
        if self.len <= IN_PLACE - width as usize {
            self.short = with_number(self.short, self.len, value, width);
            self.len += width as usize;
            Ok(())
        } else {
            self.append_long(value, width)
        }
    }

    /// Appends the low `width` bits of `value`, where all are more than have room in place.
    #[inline(never)]
    fn append_long(&mut self, value: u64, width: u32) -> Result<(), Fault>
        requires width { width ≤ 48 }
        requires long { 64 < length self.old + width }
        ensures ok { OnOk result (self.new ≡ self.old ++ num width value) }
        ensures err { IfErr result (λ e. (e ≡ NoMemory) × (self.new ≡ self.old)) }
        ensures memory { OnErr result (64 < length self.old + width) }
    {
        let Some(len) = self.len.checked_add(width as usize) else {
            return Err(Fault::NoMemory);
        };
        if self.len <= IN_PLACE {
            spill(
                &mut self.bytes,
                &self.short,
                self.len,
                value,
                width as usize,
            )?;
        } else {
            append_bits(&mut self.bytes, self.len, value, width as usize)?;
        }
        self.len = len;
        Ok(())
    }
}

impl<A: Allocator> PartialEq for Bits<A> {
    ghost use Rattle.std.specs.Cmp.{partial_equiv_from_equiv, eq_by_cmp_equiv};
    ghost use Rattle.identity.specs.Inside.PathLaws.{paths_total};

    ghost eq = { eq_by_cmp path_cmp };

    ghost laws = { partial_equiv_from_equiv (eq_by_cmp_equiv paths_total) };

    fn eq(&self, other: &Bits<A>) -> bool {
        self.same(other)
    }
}

impl<A: Allocator> Eq for Bits<A> {
    ghost use Rattle.std.specs.Cmp.{eq_by_cmp_equiv};
    ghost use Rattle.identity.specs.Inside.PathLaws.{paths_total};

    ghost laws = { eq_by_cmp_equiv paths_total };
}

/// Writes what [`print_bits`](crate::print_bits) appends, whatever options are in `{}`. There is no `FromStr`,
/// since bits need an allocator: [`parse_bits`](crate::parse_bits) takes one.
///
/// ```
/// let bits = parse_bits(rt.alloc(), b"10:264")?;
/// let text = bits.to_string(rt.alloc())?;
/// assert_eq!(rt; text.as_str(), "10:264");
/// ```
impl<A: Allocator> fmt::Display for Bits<A> {
    ghost output = { λ bits. Some (bits_text bits) };

    fn fmt<W: fmt::Write>(&self, f: &mut fmt::Formatter<W>) -> fmt::Result {
        let len = self.len();
        write!(f, "{len}:")?;
        write_hex(f, &mut BitReader::new(self))
    }
}
