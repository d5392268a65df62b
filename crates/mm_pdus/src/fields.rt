//! Fields of a PDU, read from left to right.

ghost use Rattle.std.specs.Prelude.{◌≡◌, ◌<◌, ◌≤◌, ◌^◌, IfOk};
ghost use Rattle.mm_pdus.specs.Reading.{with_rest, giving, needs, bit_at, clear_at, field_at, piece_at};

use crate::MmFault;
use identity::BitReader;

/// Reads the next `width` bits as a number.
pub fn field(reader: &mut BitReader<'_>, width: u32) -> Result<u64, MmFault>
    requires { width ≤ 48 }
    ensures value { field_at width reader.old ≡ with_rest result reader.new }
    ensures small { IfOk result (λ v. v < 2 ^ width) }
{
    reader.take(width).or(Err(MmFault::Short))
}

/// A reader of the next `len` bits alone.
pub fn piece<'a>(reader: &mut BitReader<'a>, len: usize) -> Result<BitReader<'a>, MmFault>
    ensures { piece_at len reader.old ≡ with_rest result reader.new }
{
    reader.cut(len).or(Err(MmFault::Short))
}

/// Reads the next bit.
pub fn bit(reader: &mut BitReader<'_>) -> Result<bool, MmFault>
    ensures { bit_at reader.old ≡ with_rest result reader.new }
{
    Ok(field(reader, 1)? == 1)
}

/// Reads a bit that must be 0.
pub fn clear_bit(reader: &mut BitReader<'_>) -> Result<(), MmFault>
    ensures { clear_at reader.old ≡ giving result reader.new }
{
    if bit(reader)? {
        return Err(MmFault::BadElement);
    }
    Ok(())
}

/// `BadElement` unless `holds`.
pub fn need(holds: bool) -> Result<(), MmFault>
    ensures { result ≡ needs holds }
{
    if holds {
        Ok(())
    } else {
        Err(MmFault::BadElement)
    }
}
