//! Laws of the definitions alone, for all bits and all PDUs.

ghost use Rattle.std.specs.Prelude.{◌≡◌, ◌≢◌, ℕ, Bool, List, None, Some, Ok, Err};
ghost use Rattle.std.specs.Result.{result_map_both};
ghost use Rattle.sds_tl.specs.declared.fault.SdsFault.TheVariants.{NoMemory};
ghost use Rattle.sds_tl.specs.declared.pdu.DeliveryReportRequest.{DeliveryReportRequest};
ghost use Rattle.sds_tl.specs.declared.pdu.Head.TheVariants.{Transfer};
ghost use Rattle.sds_tl.specs.declared.pdu.Sds.{Sds};
ghost use Rattle.sds_tl.specs.Syntax.{Spells, IsInRange, canon};
ghost use Rattle.sds_tl.specs.Reading.{fault, value, reading, heading, head_of, cleared, clearing, writing};
ghost use Rattle.sds_tl.specs.Transfers.{reading_transfer, reference_of, transfer_reference};

use std::alloc::Allocator;

/// No bits spell two PDUs.
pub fn one_value<A: Allocator>()
    ensures { (p q : Sds A) (bits : List Bool) → Spells p bits → Spells q bits → p ≡ q }
{}

/// Bits spell a PDU exactly if they have no fault.
pub fn spelt_without_fault<A: Allocator>()
    ensures spelt { (bits : List Bool) → fault bits ≡ None → Spells {A = A} (value bits) bits }
    ensures no_fault { (sds : Sds A) (bits : List Bool) → Spells sds bits → fault bits ≡ None }
{}

/// A PDU that is written is spelt by its bits, and is read back.
pub fn read_back<A: Allocator>()
    ensures spelt { (sds : Sds A) (bits : List Bool) → IsInRange sds → writing sds ≡ Ok bits → Spells sds bits }
    ensures read { (sds : Sds A) (bits : List Bool) → IsInRange sds → writing sds ≡ Ok bits → reading bits ≡ Ok sds }
{}

/// A PDU that bits spell can be written.
pub fn written_again<A: Allocator>()
    ensures { (sds : Sds A) (bits : List Bool) → Spells sds bits → writing sds ≡ Ok (canon sds) }
{}

/// With the reserved bits 0, bits are the canonical text of the PDU that they spell. They still spell it, and have
/// the same head. The bits of a message do not change.
pub fn cleared_again<A: Allocator>()
    ensures canonical { (sds : Sds A) (bits : List Bool) → Spells sds bits → cleared bits ≡ canon sds }
    ensures spelt { (sds : Sds A) (bits : List Bool) → Spells sds bits → Spells sds (cleared bits) }
    ensures headed { (bits : List Bool) → fault bits ≡ None → heading (cleared bits) ≡ heading bits }
    ensures message { (bits : List Bool) (request : DeliveryReportRequest) (reference : ℕ) → heading bits ≡ Ok (Transfer request reference)
        → cleared bits ≡ bits }
{}

/// The head that is read from bits is that of the PDU that is read, and the fault is the same. So too where only a
/// message is accepted.
pub fn heads_agree<A: Allocator>()
    ensures transfers { (bits : List Bool) → transfer_reference (heading bits) ≡ result_map_both reference_of (λ fault. fault) (reading_transfer {A = A} bits) }
    ensures heads { (bits : List Bool) → heading bits ≡ result_map_both head_of (λ fault. fault) (reading {A = A} bits) }
{}

/// `NoMemory` is no fault of bits, and no fault of a PDU.
pub fn faults_of_bits<A: Allocator>()
    ensures fault { (bits : List Bool) → fault bits ≢ Some NoMemory }
    ensures read { (bits : List Bool) → reading {A = A} bits ≢ Err NoMemory }
    ensures headed { (bits : List Bool) → heading bits ≢ Err NoMemory }
    ensures cleared { (bits : List Bool) → clearing bits ≢ Err NoMemory }
    ensures written { (sds : Sds A) → writing sds ≢ Err NoMemory }
{}
