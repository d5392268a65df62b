//! The PDUs that answer a radio, and the refusals of its PDUs.
ghost use Rattle.std.specs.Prelude.{◌≡◌, ◌≢◌, IfOk, OnErr, IsOk, IsTrue};
ghost use Rattle.mm_pdus.specs.Downlink.{canon_down, is_acknowledgement, accept_text};
ghost use Rattle.registration.specs.declared.fault.RegFault.TheVariants as registration;
ghost use Rattle.centre_core.specs.declared.reply.Refusal.TheVariants.{Registration};
ghost use Rattle.centre_core.specs.Step.{cause_of, acknowledge_pdu, location_refusal};

use crate::Refusal;
use group_attach::answers;
use identity::{Bits, Itsi};
use mm_pdus::{
    AcceptType, GroupItems, GroupUp, LocationUpdateType, MmDown, RejectCause, write_down,
};
use registration::{RegFault, Registry};
use std::alloc::{AllocError, Allocator};

/// The D-LOCATION UPDATE ACCEPT of an update of this type. It takes no memory.
#[tactic(auto, using(crate::proofs::ShortPdus::sure))]
pub(crate) fn accept_pdu<A: Allocator>(alloc: A, update: AcceptType) -> Result<Bits<A>, AllocError>
    ensures ok { IfOk result (λ pdu. pdu ≡ accept_text update) }
    ensures never { IsOk result }
{
    let pdu: MmDown<A> = MmDown::Accept { update };
    write_pdu(alloc, &pdu)
}

/// The refusal of a location update, with a D-LOCATION UPDATE REJECT where there is a cause. It takes no memory. Out of
/// memory is no refusal.
pub(crate) fn location_refusal<A: Allocator>(
    alloc: A,
    update: LocationUpdateType,
    fault: RegFault,
) -> Result<Refusal<A>, AllocError>
    ensures ok { IfOk result (λ refusal. (fault ≢ registration.NoMemory) × (refusal ≡ location_refusal update fault)) }
    ensures memory { OnErr result (fault ≡ registration.NoMemory) }
{
    let Some(cause) = cause_of(fault) else {
        return registration_refusal(fault);
    };
    let pdu: MmDown<A> = MmDown::Reject { update, cause };
    let reject = write_pdu(alloc, &pdu)?;
    Ok(Refusal::Location { fault, reject })
}

/// A refusal without PDU, of a change of rules or radios. Out of memory is no refusal.
pub(crate) fn registration_refusal<A: Allocator>(fault: RegFault) -> Result<Refusal<A>, AllocError>
    ensures ok { IfOk result (λ refusal. (fault ≢ registration.NoMemory) × (refusal ≡ Registration fault)) }
    ensures memory { OnErr result (fault ≡ registration.NoMemory) }
{
    if fault == RegFault::NoMemory {
        return Err(AllocError);
    }
    Ok(Refusal::Registration(fault))
}

// The reject cause that the radio gets.
fn cause_of(fault: RegFault) -> Option<RejectCause>
    ensures { result ≡ cause_of fault }
{
    match fault {
        RegFault::UnknownIdentity => Some(RejectCause::ITSI_UNKNOWN),
        RegFault::LaNotAllowed => Some(RejectCause::LA_NOT_ALLOWED),
        RegFault::Congestion => Some(RejectCause::CONGESTION),
        RegFault::Migration => Some(RejectCause::MIGRATION_NOT_SUPPORTED),
        RegFault::UnsupportedType
        | RegFault::NotAttached
        | RegFault::RulesFull
        | RegFault::NoMemory => None,
    }
}

/// The D-ATTACH/DETACH GROUP IDENTITY ACKNOWLEDGEMENT of a radio's group items. Its items are allocated in
/// `scratch` meanwhile.
pub(crate) fn acknowledge_pdu<A: Allocator, R: Allocator + Clone, B: Allocator, C: Allocator>(
    alloc: A,
    scratch: C,
    registry: &Registry<R>,
    itsi: Itsi,
    items: &GroupItems<GroupUp, B>,
) -> Result<Bits<A>, AllocError>
    ensures { IfOk result (λ pdu. pdu ≡ acknowledge_pdu registry.now itsi items.now) }
{
    let items = answers(scratch, registry, itsi, items)?;
    write_pdu(alloc, &MmDown::Acknowledge { items })
}

fn write_pdu<A: Allocator, B: Allocator>(alloc: A, pdu: &MmDown<B>) -> Result<Bits<A>, AllocError>
    ensures ok { IfOk result (λ bits. bits ≡ canon_down pdu.now) }
    ensures memory { OnErr result (IsTrue (is_acknowledgement pdu.now)) }
{
    match write_down(alloc, pdu) {
        Ok(bits) => Ok(bits),
        Err(_) => Err(AllocError),
    }
}
