//! The optional parts and elements after the fixed fields of a PDU.

ghost use Rattle.std.specs.Prelude.{◌≡◌, length};
ghost use Rattle.mm_pdus.specs.Reading.{with_rest, giving, element_at, seen, optional_at, optionals_at, elements_at, ignore, extension_at};

use crate::MmFault;
use crate::fields::{bit, field, piece};
use identity::BitReader;

/// Skips an optional part of `width` bits.
#[tactic(auto, unfolding(crate::specs::Reading::optional_at))]
pub fn skip_optional(reader: &mut BitReader<'_>, width: usize) -> Result<(), MmFault>
    ensures { optional_at width reader.old ≡ giving result reader.new }
{
    if bit(reader)? {
        piece(reader, width)?;
    }
    Ok(())
}

#[tactic(auto, unfolding(crate::specs::Reading::optionals_at))]
fn skip_optionals(reader: &mut BitReader<'_>, widths: &[usize]) -> Result<(), MmFault>
    ensures { optionals_at widths.now reader.old ≡ giving result reader.new }
{
    for width in widths {
        skip_optional(reader, *width)?;
    }
    Ok(())
}

/// The next element's identifier and bits, or `None` after the last element.
#[tactic(auto, unfolding(crate::specs::Reading::element_at))]
pub fn element<'a>(reader: &mut BitReader<'a>) -> Result<Option<(u64, BitReader<'a>)>, MmFault>
    ensures { element_at reader.old ≡ with_rest (seen result) reader.new }
{
    if !bit(reader)? {
        return Ok(None);
    }
    let identifier = field(reader, 4)?;
    let len = field(reader, 11)?;
    let body = piece(reader, len as usize)?;
    Ok(Some((identifier, body)))
}

fn skip_elements(reader: &mut BitReader<'_>) -> Result<(), MmFault>
    ensures { elements_at ignore (length reader.old) tt reader.old ≡ with_rest result reader.new }
{
    while let Some(_) = element(reader)? {}
    Ok(())
}

/// Skips all parts and elements after the fixed fields; `widths` are those of the parts of type 2.
#[tactic(auto, unfolding(crate::specs::Reading::extension_at))]
pub fn skip_extension(reader: &mut BitReader<'_>, widths: &[usize]) -> Result<(), MmFault>
    ensures { extension_at widths.now reader.old ≡ giving result reader.new }
{
    if bit(reader)? {
        skip_optionals(reader, widths)?;
        skip_elements(reader)?;
    }
    Ok(())
}
