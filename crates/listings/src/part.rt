//! The parts of a line of an answer or a listing.
ghost use Rattle.std.specs.Prelude.{◌≡◌, ◌≤◌, ◌<◌, ◌+◌, ◌++◌, OnOk, OnErr, length, vec_len, vec_capacity};
ghost use Rattle.identity.specs.NumberText.{IsPrefixOf};
ghost use Rattle.listings.specs.Words.{pdu_text};
ghost use Rattle.centre_core.specs.Ranges.{IsShort};
ghost use Rattle.listings.specs.Parts.{part_text, parts_text, part_room, parts_room, pdu_room};

use identity::{
    Bits, Gtsi, Itsi, Prefix, print_bits, print_gtsi, print_itsi, print_number, print_prefix,
};
use std::alloc::{AllocError, Allocator, Global};

/// A part of a line. `part_room` of `specs/Parts.antt` is the most bytes that it takes.
#[derive(Drop)]
pub enum Part<'a, B: Allocator = Global> {
    /// A text as it is.
    Text(&'a str),
    /// A number in decimal, 1 to 20 digits.
    Number(u64),
    /// A radio as `MCC-MNC-SSI`, each of the three in decimal.
    Radio(Itsi),
    /// A group as `MCC-MNC-SSI`.
    Group(Gtsi),
    /// A prefix as `MCC-MNC-SSI/BITS`, with 0 to 48 bits. The bits after the prefix are 0 in the identity.
    Prefix(Prefix),
    /// Bits as their number, a colon and hexadecimal digits.
    Pdu(&'a Bits<B>),
}

/// The PDU for the radio, or `-` where there is none. A PDU of at most 2,048 bits takes at most 533 bytes.
pub fn pdu_part<B: Allocator>(pdu: &Option<Bits<B>>) -> Part<'_, B>
    ensures text { part_text result ≡ pdu_text pdu.now }
    ensures room { IsShort pdu.now → part_room result ≤ pdu_room }
{
    match pdu {
        None => Part::Text("-"),
        Some(bits) => Part::Pdu(bits),
    }
}

#[inline(always)]
#[tactic(auto, using(identity::proofs::Lengths::text_fits))]
fn put_part<A: Allocator, B: Allocator>(
    out: &mut Vec<u8, A>,
    part: &Part<'_, B>,
) -> Result<(), AllocError>
    ensures ok { OnOk result (out.new.items ≡ out.old.items ++ part_text part.now) }
    ensures err { OnErr result (out.new.items ≡ out.old.items) }
    ensures full { OnErr result (vec_capacity out.old < vec_len out.old + length (part_text part.now)) }
    ensures capacity { vec_capacity out.old ≤ vec_capacity out.new }
    ensures fits { length (part_text part.now) ≤ part_room part.now }
{
    // A call of `number` or `len` shows the prover the range, which bounds the length of the text.
    match part {
        Part::Text(text) => out.extend_from_slice(text.as_bytes()),
        Part::Number(number) => print_number(out, *number),
        Part::Radio(itsi) => {
            let _number = itsi.number();
            print_itsi(out, *itsi)
        }
        Part::Group(gtsi) => {
            let _number = gtsi.number();
            print_gtsi(out, *gtsi)
        }
        Part::Prefix(prefix) => {
            let _len = prefix.len();
            print_prefix(out, *prefix)
        }
        Part::Pdu(bits) => {
            let _len = bits.len();
            print_bits(out, bits)
        }
    }
}

/// Adds the parts of a text, one after another. When memory runs out, a prefix of the text was added. Room for
/// `parts_room` bytes is enough.
#[inline(always)]
pub fn put_parts<A: Allocator, B: Allocator>(
    out: &mut Vec<u8, A>,
    parts: &[Part<'_, B>],
) -> Result<(), AllocError>
    ensures ok { OnOk result (out.new.items ≡ out.old.items ++ parts_text parts.now) }
    ensures err { OnErr result (IsPrefixOf out.old.items out.new.items) }
    ensures full { OnErr result (vec_capacity out.old < vec_len out.old + length (parts_text parts.now)) }
    ensures capacity { vec_capacity out.old ≤ vec_capacity out.new }
    ensures line { OnErr result (vec_capacity out.old < vec_len out.old + parts_room parts.now) }
{
    for part in parts {
        put_part(out, part)?;
    }
    Ok(())
}
