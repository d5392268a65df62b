// Checks of PDUs that are still in the bytes they are read from.
ghost use Rattle.std.specs.Prelude.{◌≡◌, ◌≤◌, ◌/◌, ◌%◌, ◌==◌, ◌&&◌, nat_le};
ghost use Rattle.sds_tl.specs.Identifier.{first_identifier};
ghost use Rattle.sds_tl.specs.Reading.{heading};
ghost use Rattle.mailbox.specs.Sound.{is_head_of};
ghost use Rattle.image_rows.specs.Inside.PduTest.{is_of_type};

use command_bytes::bits::PackedBits;
use mailbox::{Key, Kind};
use sds_tl::{FIRST_IDENTIFIER, MOST_BITS};

// Whether a PDU with these octets has this message type and reference.
fn are_octets_of(first: u8, second: u8, last: u8, kind: u8, reference: u8) -> bool
    ensures { result ≡ (nat_le first_identifier first && (second / 16 == kind) && (second % 2 == 0) && (last == reference)) }
{
    first >= FIRST_IDENTIFIER && second / 16 == kind && second % 2 == 0 && last == reference
}

// Whether the PDU has this message type, and its reference as the last of its first octets.
fn is_of_type(pdu: &PackedBits<'_>, kind: u8, octets: usize, reference: u8) -> bool
    requires few { octets ≤ 4 }
    requires some { 3 ≤ octets }
    ensures { result ≡ is_of_type pdu.now kind octets reference }
{
    let len = pdu.len();
    if len < 8 * octets || len > MOST_BITS {
        return false;
    }
    let first = pdu.octet(0);
    let second = pdu.octet(1);
    let last = pdu.octet(octets - 1);
    are_octets_of(first, second, last, kind, reference)
}

#[tactic(auto, using(crate::proofs::PduTests::message_test, crate::proofs::PduTests::report_test))]
/// Whether the PDU fits the key: it has the key's reference, and is an SDS-TRANSFER of a message, an SDS-REPORT of a
/// report.
pub fn is_of_key(pdu: &PackedBits<'_>, key: &Key) -> bool
    ensures { result ≡ is_head_of key.now.kind key.now.reference (heading pdu.now) }
{
    match key.kind {
        Kind::Message => is_of_type(pdu, 0, 3, key.reference.number()),
        Kind::Report => is_of_type(pdu, 1, 4, key.reference.number()),
    }
}
