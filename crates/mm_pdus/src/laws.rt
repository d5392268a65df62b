//! Laws of the definitions alone. Each law is the contract of a function that does nothing, or returns constants.

ghost use Rattle.std.specs.Prelude.{◌≡◌, ◌≢◌, ◌<◌, ◌↔◌, ◌++◌, ◌∷◌, ℕ, Bool, not, List, [], Some, Ok, Err};
ghost use Rattle.identity.specs.Number.{num};
ghost use Rattle.mm_pdus.specs.declared.fault.MmFault.TheVariants.{Short, Trailing, UnknownType, BadElement, NoMemory};
ghost use Rattle.mm_pdus.specs.declared.update.LocationUpdateType.{LocationUpdateType};
ghost use Rattle.mm_pdus.specs.declared.update.AcceptType.{AcceptType};
ghost use Rattle.mm_pdus.specs.declared.lifetime.Lifetime.{Lifetime};
ghost use Rattle.mm_pdus.specs.declared.detachment.LeaveReason.{LeaveReason};
ghost use Rattle.mm_pdus.specs.declared.detachment.DetachReason.{DetachReason};
ghost use Rattle.mm_pdus.specs.Values.{update_number, update_of, accept_of, update_accepted, lifetime_number};
ghost use Rattle.mm_pdus.specs.Values.{lifetime_of, leave_number, leave_of, detach_number, detach_of};
ghost use Rattle.mm_pdus.specs.declared.uplink.MmUp.{MmUp};
ghost use Rattle.mm_pdus.specs.declared.downlink.MmDown.{MmDown};
ghost use Rattle.mm_pdus.specs.declared.downlink.MmDown.TheVariants.{Acknowledge};
ghost use Rattle.mm_pdus.specs.declared.group.GroupDown.{GroupDown};
ghost use Rattle.mm_pdus.specs.Syntax.{extension};
ghost use Rattle.mm_pdus.specs.Groups.{group_down, groups_extension};
ghost use Rattle.mm_pdus.specs.Uplink.{SpellsUp, IsUp, canon_up};
ghost use Rattle.mm_pdus.specs.UplinkReading.{reading_up};
ghost use Rattle.mm_pdus.specs.Downlink.{SpellsDown, IsDown, canon_down, rejects, identity_downlink};
ghost use Rattle.mm_pdus.specs.DownlinkReading.{reading_down};

use crate::RejectCause;
use std::alloc::Allocator;

/// The causes that the network gives have the standard's numbers (clause 16.10, reject cause).
pub fn used_causes() -> [RejectCause; 4]
    ensures { result ≡ 1 ∷ 3 ∷ 6 ∷ 12 ∷ [] }
{
    [
        RejectCause::ITSI_UNKNOWN,
        RejectCause::LA_NOT_ALLOWED,
        RejectCause::CONGESTION,
        RejectCause::MIGRATION_NOT_SUPPORTED,
    ]
}

/// Each value has one number, and no two values have the same.
pub fn numbers_name_values()
    ensures update { (n : ℕ) (update : LocationUpdateType) → (update_of n ≡ Some update) ↔ (n ≡ update_number update) }
    ensures lifetime { (n : ℕ) (lifetime : Lifetime) → (lifetime_of n ≡ Some lifetime) ↔ (n ≡ lifetime_number lifetime) }
    ensures leave { (n : ℕ) (reason : LeaveReason) → (leave_of n ≡ Some reason) ↔ (n ≡ leave_number reason) }
    ensures detach { (n : ℕ) (reason : DetachReason) → (detach_of n ≡ Some reason) ↔ (n ≡ detach_number reason) }
{}

/// An update is accepted as one of its own type.
pub fn accepted_as_asked()
    ensures { (update : LocationUpdateType) (accept : AcceptType) → (accept_of update ≡ Some accept) ↔ (update ≡ update_accepted accept) }
{}

/// No bits spell two PDUs.
pub fn one_value<A: Allocator>()
    ensures up { (p q : MmUp A) (bits : List Bool) → SpellsUp p bits → SpellsUp q bits → p ≡ q }
    ensures down { (p q : MmDown A) (bits : List Bool) → SpellsDown p bits → SpellsDown q bits → p ≡ q }
{}

/// The canonical text spells its PDU, so what is written is read back.
pub fn read_back<A: Allocator>()
    ensures spelt_up { (pdu : MmUp A) → IsUp pdu → SpellsUp pdu (canon_up pdu) }
    ensures up { (pdu : MmUp A) → IsUp pdu → reading_up (canon_up pdu) ≡ Ok pdu }
    ensures spelt_down { (pdu : MmDown A) → IsDown pdu → SpellsDown pdu (canon_down pdu) }
    ensures down { (pdu : MmDown A) → IsDown pdu → reading_down (canon_down pdu) ≡ Ok pdu }
{}

/// A PDU with any bits after it is `Trailing`.
pub fn bits_after_a_pdu<A: Allocator>()
    ensures up { (pdu : MmUp A) (bits rest : List Bool) (b : Bool) → SpellsUp pdu bits → reading_up {A = A} (bits ++ b ∷ rest) ≡ Err Trailing }
    ensures down { (pdu : MmDown A) (bits rest : List Bool) (b : Bool) → SpellsDown pdu bits → reading_down {A = A} (bits ++ b ∷ rest) ≡ Err Trailing }
{}

/// Bits whose PDU type is not read are `UnknownType`, whatever follows.
pub fn other_types<A: Allocator>()
    ensures up { (kind : ℕ) (rest : List Bool) → kind < 16 → (kind ≡ 1 → ⊥) → (kind ≡ 2 → ⊥) → (kind ≡ 7 → ⊥)
        → reading_up {A = A} (num 4 kind ++ rest) ≡ Err UnknownType }
    ensures down { (kind : ℕ) (rest : List Bool) → kind < 16 → (kind ≡ 5 → ⊥) → (kind ≡ 7 → ⊥) → (kind ≡ 11 → ⊥)
        → reading_down {A = A} (num 4 kind ++ rest) ≡ Err UnknownType }
{}

/// A PDU without its last bits, one or more, is `Short`.
pub fn bits_missing<A: Allocator>()
    ensures up { (pdu : MmUp A) (bits rest : List Bool) (b : Bool) → SpellsUp pdu (bits ++ b ∷ rest) → reading_up {A = A} bits ≡ Err Short }
    ensures down { (pdu : MmDown A) (bits rest : List Bool) (b : Bool) → SpellsDown pdu (bits ++ b ∷ rest) → reading_down {A = A} bits ≡ Err Short }
{}

/// An acknowledgement whose bit for rejected groups is wrong is `BadElement`.
pub fn rejection_reported_wrongly<A: Allocator>()
    ensures { (items : List GroupDown) (reserved : Bool) → IsDown {A = A} (Acknowledge items)
        → reading_down {A = A} (num 4 11 ++ not (rejects items) ∷ reserved ∷ extension (groups_extension group_down identity_downlink items))
        ≡ Err BadElement }
{}

/// `NoMemory` is no fault of bits.
pub fn faults_of_bits<A: Allocator>()
    ensures up { (bits : List Bool) → reading_up {A = A} bits ≢ Err NoMemory }
    ensures down { (bits : List Bool) → reading_down {A = A} bits ≢ Err NoMemory }
{}
