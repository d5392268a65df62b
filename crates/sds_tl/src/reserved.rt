//! Sets the reserved bits of a PDU to 0.

ghost use Rattle.std.specs.Prelude.{◌≡◌, ◌<◌, ◌≤◌, ◌++◌, ◌+◌, false, length, replicate, take, drop, IfOk, IfErr, None};
ghost use Rattle.sds_tl.specs.declared.fault.SdsFault.TheVariants.{NoMemory};
ghost use Rattle.sds_tl.specs.Reading.{fault, cleared, clearing, Gives};

use crate::SdsFault;
use crate::pieces::{put_left, put_reserved, rest};
use crate::reading::{fault, field};
use identity::{BitReader, BitWriter, Bits};
use std::alloc::Allocator;

/// A copy with zeros in place of the `width` bits from place `at` on.
fn with_zeros<A: Allocator, B: Allocator>(
    alloc: A,
    bits: &Bits<B>,
    at: usize,
    width: u32,
) -> Result<Bits<A>, SdsFault>
    requires few { width ≤ 48 }
    requires room { at + width ≤ length bits.now }
    ensures ok { IfOk result (λ b. b ≡ take at bits.now ++ replicate width false ++ drop (at + width) bits.now) }
    ensures err { IfErr result (λ e. e ≡ NoMemory) }
{
    let mut reader = BitReader::new(bits);
    let mut writer = BitWriter::new(alloc);
    let mut before = reader.cut(at).unwrap();
    put_left(&mut writer, &mut before)?;
    put_reserved(&mut writer, width)?;
    let _reserved = reader.cut(width as usize).unwrap();
    put_left(&mut writer, &mut reader)?;
    Ok(writer.finish())
}

#[tactic(auto, unfolding(crate::specs::Reading::cleared), using(crate::proofs::Fitting::header_of))]
fn cleared<A: Allocator, B: Allocator>(alloc: A, bits: &Bits<B>) -> Result<Bits<A>, SdsFault>
    requires { fault bits.now ≡ None }
    ensures ok { IfOk result (λ b. b ≡ cleared bits.now) }
    ensures err { IfErr result (λ e. e ≡ NoMemory) }
{
    match field(bits, 8, 4) {
        0 => rest(alloc, bits, 0),
        1 => with_zeros(alloc, bits, 13, 2),
        _ => with_zeros(alloc, bits, 12, 4),
    }
}

/// The canonical text of the PDU that the bits spell: the bits with the reserved ones 0. Else the first fault from the
/// left.
pub fn canonical<A: Allocator, B: Allocator>(alloc: A, bits: &Bits<B>) -> Result<Bits<A>, SdsFault>
    ensures { Gives result (clearing bits.now) }
{
    match fault(bits) {
        Some(fault) => Err(fault),
        None => cleared(alloc, bits),
    }
}
