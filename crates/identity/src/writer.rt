//! Writes numbers to a string of bits.

ghost use Rattle.std.specs.Prelude.{◌≡◌, ◌<◌, ◌≤◌, ◌^◌, ◌++◌, ◌+◌, Bool, List, [], length, IfErr, OnErr, OnOk};
ghost use Rattle.identity.specs.Number.{num};
ghost use Rattle.identity.specs.declared.fault.Fault.TheVariants.{NoMemory};

use crate::{Bits, Fault};
use std::alloc::{Allocator, Global};
use std::marker::Model;

/// A string of bits that grows by one number after the other.
#[derive(Drop)]
pub struct BitWriter<A: Allocator = Global> {
    bits: Bits<A>,
}

impl<A: Allocator> Model for BitWriter<A> {
    ghost Value = { List Bool };

    ghost view = { λ w. w.bits };
}

impl<A: Allocator> BitWriter<A> {
    /// A writer that has no bits yet.
    pub fn new(alloc: A) -> BitWriter<A>
        ensures { result ≡ [] }
    {
        BitWriter {
            bits: Bits::new(alloc),
        }
    }

    /// Appends the `width` bits of `value`, at most 48, the greatest first. On `Fault::NoMemory`, which can come only for more
    /// than 64 bits in all, nothing has changed.
    #[inline(always)]
    pub fn put(&mut self, value: u64, width: u32) -> Result<(), Fault>
        requires width { width ≤ 48 }
        requires fits { value < 2 ^ width }
        ensures ok { OnOk result (self.new ≡ self.old ++ num width value) }
        ensures err { IfErr result (λ e. (e ≡ NoMemory) × (self.new ≡ self.old)) }
        ensures memory { OnErr result (64 < length self.old + width) }
    {
        self.bits.append(value, width)
    }

    /// All the bits. This takes no memory.
    pub fn finish(self) -> Bits<A>
        ensures { result ≡ self }
    {
        let BitWriter { bits } = self;
        bits
    }
}
