//! Writing fields, and copying bits piece by piece.

ghost use Rattle.std.specs.Prelude.{◌≡◌, ◌<◌, ◌≤◌, ◌^◌, ◌++◌, false, length, replicate, drop, OnOk, IfOk, IfErr};
ghost use Rattle.identity.specs.Number.{num};
ghost use Rattle.sds_tl.specs.declared.fault.SdsFault.TheVariants.{NoMemory};

use crate::SdsFault;
use identity::{BitReader, BitWriter, Bits};
use std::alloc::Allocator;

/// Appends the `width` bits of `value`, the greatest first.
pub fn put<A: Allocator>(writer: &mut BitWriter<A>, value: u64, width: u32) -> Result<(), SdsFault>
    requires width { width ≤ 48 }
    requires fits { value < 2 ^ width }
    ensures ok { OnOk result (writer.new ≡ writer.old ++ num width value) }
    ensures err { IfErr result (λ e. e ≡ NoMemory) }
{
    writer.put(value, width).or(Err(SdsFault::NoMemory))
}

/// Appends reserved bits, all 0.
pub fn put_reserved<A: Allocator>(writer: &mut BitWriter<A>, width: u32) -> Result<(), SdsFault>
    requires { width ≤ 48 }
    ensures ok { OnOk result (writer.new ≡ writer.old ++ replicate width false) }
    ensures err { IfErr result (λ e. e ≡ NoMemory) }
{
    put(writer, 0, width)
}

/// Appends all bits that the reader has left.
pub fn put_left<A: Allocator>(
    writer: &mut BitWriter<A>,
    reader: &mut BitReader<'_>,
) -> Result<(), SdsFault>
    ensures ok { OnOk result (writer.new ≡ writer.old ++ reader.old) }
    ensures err { IfErr result (λ e. e ≡ NoMemory) }
{
    while reader.left() > 0 {
        let width = reader.left().min(48) as u32;
        let piece = reader.take(width).unwrap();
        put(writer, piece, width)?;
    }
    Ok(())
}

/// A copy of the bits from place `from` on.
pub fn rest<A: Allocator, B: Allocator>(
    alloc: A,
    bits: &Bits<B>,
    from: usize,
) -> Result<Bits<A>, SdsFault>
    requires { from ≤ length bits.now }
    ensures ok { IfOk result (λ b. b ≡ drop from bits.now) }
    ensures err { IfErr result (λ e. e ≡ NoMemory) }
{
    let mut reader = BitReader::new(bits);
    let _before = reader.cut(from).unwrap();
    let mut writer = BitWriter::new(alloc);
    put_left(&mut writer, &mut reader)?;
    Ok(writer.finish())
}
