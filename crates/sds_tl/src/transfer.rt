//! Reading where only a message is accepted.

ghost use Rattle.std.specs.Prelude.{◌≡◌, List, Bool, IsTrue, Ok, IfOk};
ghost use Rattle.sds_tl.specs.declared.pdu.Sds.{Sds};
ghost use Rattle.sds_tl.specs.Syntax.{Spells};
ghost use Rattle.sds_tl.specs.Reading.{heading, Gives};
ghost use Rattle.sds_tl.specs.Transfers.{only_transfer, reading_transfer, is_transfer, transfer_reference};

use crate::{Head, MessageReference, Sds, SdsFault, head, read};
use identity::Bits;
use std::alloc::Allocator;

/// The reference of the message that the bits spell; else their first fault. `NotATransfer`, after every other fault,
/// for a report and an acknowledgement. Takes no memory.
pub fn transfer_reference<A: Allocator>(bits: &Bits<A>) -> Result<MessageReference, SdsFault>
    ensures { result ≡ transfer_reference (heading bits.now) }
{
    match &head(bits) {
        Ok(Head::Transfer { reference, .. }) => Ok(*reference),
        Ok(Head::Report { .. } | Head::Ack { .. }) => Err(SdsFault::NotATransfer),
        Err(fault) => Err(*fault),
    }
}

/// The message that all of the bits spell; else their first fault. `NotATransfer`, after every other fault, for a report
/// and an acknowledgement. Only a message takes memory.
///
/// An application's desk reads messages by this call; the switch itself does not need it.
pub fn read_transfer<A: Allocator, B: Allocator>(
    alloc: A,
    bits: &Bits<B>,
) -> Result<Sds<A>, SdsFault>
    // If a PDU is read, the bits spell it, and it is a message.
    ensures found { IfOk result (λ sds. Spells sds bits.now × IsTrue (is_transfer sds)) }
    // If the bits spell a message, it is read, unless memory runs out.
    ensures only { (sds : Sds A) → Spells sds bits.now → Gives result (only_transfer (Ok sds)) }
    // Else the result is the first fault, with memory and without.
    ensures exact { Gives result (reading_transfer bits.now) }
{
    match transfer_reference(bits) {
        Ok(_) => read(alloc, bits),
        Err(fault) => Err(fault),
    }
}
