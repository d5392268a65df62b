//! Fields of a PDU, written one after the other.

ghost use Rattle.std.specs.Prelude.{◌≡◌, ◌<◌, ◌≤◌, ◌^◌, ◌+◌, ◌++◌, ◌∷◌, [], length, OnOk, OnErr, IfErr};
ghost use Rattle.identity.specs.Number.{num};
ghost use Rattle.mm_pdus.specs.declared.fault.MmFault.TheVariants.{NoMemory};

use crate::MmFault;
use identity::BitWriter;
use std::alloc::Allocator;

/// Appends the `width` bits of `value`, the greatest first. It takes memory only for more than 64 bits in all.
pub fn put<A: Allocator>(writer: &mut BitWriter<A>, value: u64, width: u32) -> Result<(), MmFault>
    requires width { width ≤ 48 }
    requires fits { value < 2 ^ width }
    ensures ok { OnOk result (writer.new ≡ writer.old ++ num width value) }
    ensures err { IfErr result (λ e. e ≡ NoMemory) }
    ensures memory { OnErr result (64 < length writer.old + width) }
{
    writer.put(value, width).or(Err(MmFault::NoMemory))
}

/// Appends one bit.
pub fn put_bit<A: Allocator>(writer: &mut BitWriter<A>, bit: bool) -> Result<(), MmFault>
    ensures ok { OnOk result (writer.new ≡ writer.old ++ bit ∷ []) }
    ensures err { IfErr result (λ e. e ≡ NoMemory) }
    ensures memory { OnErr result (64 < length writer.old + 1) }
{
    put(writer, u64::from(bit), 1)
}
