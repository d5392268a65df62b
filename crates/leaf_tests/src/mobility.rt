use identity::{Bits, Gtsi, Itsi, parse_bits, print_bits};
use linked_list_allocator::LocalHeap;
use mm_pdus::{
    AcceptType, ClassOfUsage, DetachReason, GroupAddress, GroupDown, GroupItems, GroupMode,
    GroupUp, Gssi, LeaveReason, Lifetime, LocationUpdateType, MOST_GROUPS, MmDown, MmFault, MmUp,
    RejectCause, read_down, read_up, write_down, write_up,
};
use std::alloc::{Allocator, Global};
use std::test::Fail;

fn bits(alloc: Global, text: &str) -> Result<Bits<Global>, MmFault> {
    parse_bits(alloc, text.as_bytes()).or(Err(MmFault::NoMemory))
}

fn printed(alloc: Global, bits: &Bits<Global>) -> Result<Vec<u8>, MmFault> {
    let mut text = Vec::new(alloc);
    match print_bits(&mut text, bits) {
        Ok(()) => Ok(text),
        Err(_) => Err(MmFault::NoMemory),
    }
}

fn up_again(alloc: Global, text: &str) -> Result<Vec<u8>, MmFault> {
    let pdu = read_up(alloc, &bits(alloc, text)?)?;
    printed(alloc, &write_up(alloc, &pdu)?)
}

fn down_again(alloc: Global, text: &str) -> Result<Vec<u8>, MmFault> {
    let pdu = read_down(alloc, &bits(alloc, text)?)?;
    printed(alloc, &write_down(alloc, &pdu)?)
}

fn word(fault: MmFault) -> &'static str {
    match fault {
        MmFault::Short => "short",
        MmFault::Trailing => "trailing",
        MmFault::UnknownType => "unknown-type",
        MmFault::BadElement => "bad-element",
        MmFault::UnsupportedAddress => "unsupported-address",
        MmFault::TooMany => "too-many",
        MmFault::NoMemory => "memory",
    }
}

/// Whether this is the wanted text or fault.
fn is_wanted(got: Result<Vec<u8>, MmFault>, want: &str) -> bool {
    match got {
        Ok(text) => text.as_slice() == want.as_bytes(),
        Err(fault) => word(fault) == want,
    }
}

#[derive(Clone, Copy)]
enum Way {
    Up,
    Down,
}

/// Whether a row is right: the text of bits, and the text of the PDU that is read of them once it is written again, or the fault.
fn is_right(alloc: Global, way: Way, row: &str) -> bool {
    let Some((text, want)) = row.split_once(' ') else {
        return false;
    };
    match way {
        Way::Up => is_wanted(up_again(alloc, text), want),
        Way::Down => is_wanted(down_again(alloc, text), want),
    }
}

/// The first row that is wrong.
fn first_wrong(alloc: Global, way: Way, rows: &'static str) -> Option<&'static str> {
    for row in rows.lines() {
        if !is_right(alloc, way, row) {
            return Some(row);
        }
    }
    None
}

/// Of the rows that are written again the last ones have an element 3, three elements with groups, and the report bit.
const UP: &str = "5:10 5:10\n\
     31:1CEA0038 5:10\n\
     10:260 10:260\n\
     20:26FFE 10:260\n\
     59:267400002130068 10:260\n\
     10:220 10:220\n\
     60:7380480A00007D0 60:7380480A00007D0\n\
     84:7380780A20007D075001E 84:7380780A20007D075001E\n\
     113:7780B2163FFFFFDD000001FFFFFF0 113:7780B2163FFFFFDD000001FFFFFF0\n\
     154:7B300B6C024040000001C00603008C180000010 89:73808210000000300000020\n\
     7:74 7:74\n\
     8:72 7:70\n\
     0: short\n\
     4:2 short\n\
     58:267400002130068 short\n\
     8:73 short\n\
     59:7380480A00007D0 short\n\
     60:7380500A00007D0 short\n\
     4:3 unknown-type\n\
     6:10 trailing\n\
     61:7380480A00007D08 trailing\n\
     29:73800A00 bad-element\n\
     28:73800A0 bad-element\n\
     59:7380460A00007D0 bad-element\n\
     60:7380481200007D0 bad-element\n\
     61:73804A0A00007D00 bad-element\n\
     36:7380180A4 unsupported-address\n\
     60:7380480A40007D0 unsupported-address\n\
     60:7380480A6000002 unsupported-address\n\
     30:73800D08 too-many\n";

#[test]
fn uplink_is_read_and_written(rt: HostRuntime) {
    assert_eq!(rt; first_wrong(rt.alloc(), Way::Up, UP), None);
}

/// First accepts, rejects and acknowledgements. The bit that reports a rejection is judged last, and the bit after it is not
/// judged. Among the faults are missing bits inside the element, no element, an element 6 or 15 and a second one, an element
/// of no bits, and half of a length.
const DOWN: &str = "8:56 8:56\n\
     14:7610 14:7610\n\
     14:7630 14:7630\n\
     14:7660 14:7660\n\
     14:72C0 14:72C0\n\
     14:7AC0 14:7AC0\n\
     14:7FF0 14:7FF0\n\
     7:B0 7:B0\n\
     7:B4 7:B0\n\
     62:B3704C0980001F40 62:B3704C0980001F40\n\
     83:BB70760C4000FA0EA003C 83:BB70760C4000FA0EA003C\n\
     115:BB70B613E80000180200170000024 115:BB70B613E80000180200170000024\n\
     115:BF70B613E80000180200170000024 115:BB70B613E80000180200170000024\n\
     0: short\n\
     7:56 short\n\
     12:761 short\n\
     61:B3704C0980001F40 short\n\
     4:1 unknown-type\n\
     7:52 bad-element\n\
     7:5A bad-element\n\
     7:5E bad-element\n\
     8:57 bad-element\n\
     13:7618 bad-element\n\
     14:7614 bad-element\n\
     7:B8 bad-element\n\
     8:B2 bad-element\n\
     13:B380 bad-element\n\
     29:B3700A00 bad-element\n\
     30:B3700C00 bad-element\n\
     62:B3704C0980001F44 bad-element\n\
     63:B3704E0980001F44 bad-element\n\
     115:B370B613E80000180200170000024 bad-element\n\
     62:BB704C0980001F40 bad-element\n\
     38:B3701C0810 unsupported-address\n\
     30:B3700D08 too-many\n\
     9:560 trailing\n\
     15:7610 trailing\n\
     8:B8 trailing\n\
     63:BB704C0980001F40 trailing\n\
     61:BB704C0980001F40 short\n\
     30:BB700D08 too-many\n\
     38:BB701C0810 unsupported-address\n\
     83:B370760C4000FA0EA003C bad-element\n\
     83:BF70760C4000FA0EA003C 83:BB70760C4000FA0EA003C\n\
     61:B3704A0980001F40 bad-element\n\
     62:B3704C1180001F40 bad-element\n\
     62:B3604C0980001F40 bad-element\n\
     62:B3F04C0980001F40 bad-element\n\
     25:B370000 bad-element\n\
     22:B37000 short\n";

#[test]
fn downlink_is_read_and_written(rt: HostRuntime) {
    assert_eq!(rt; first_wrong(rt.alloc(), Way::Down, DOWN), None);
}

/// The text of a reject.
fn reject(
    alloc: Global,
    update: LocationUpdateType,
    cause: RejectCause,
) -> Result<Vec<u8>, MmFault> {
    let pdu: MmDown<Global> = MmDown::Reject { update, cause };
    printed(alloc, &write_down(alloc, &pdu)?)
}

const REJECTS: [(LocationUpdateType, RejectCause, &str); 4] = [
    (
        LocationUpdateType::ItsiAttach,
        RejectCause::ITSI_UNKNOWN,
        "14:7610",
    ),
    (
        LocationUpdateType::ItsiAttach,
        RejectCause::LA_NOT_ALLOWED,
        "14:7630",
    ),
    (
        LocationUpdateType::ItsiAttach,
        RejectCause::CONGESTION,
        "14:7660",
    ),
    (
        LocationUpdateType::Migrating,
        RejectCause::MIGRATION_NOT_SUPPORTED,
        "14:72C0",
    ),
];

fn are_rejects(alloc: Global) -> bool {
    for (update, cause, want) in REJECTS {
        if !is_wanted(reject(alloc, update, cause), want) {
            return false;
        }
    }
    let other = reject(alloc, LocationUpdateType::DisabledMs, RejectCause::new(31));
    is_wanted(other, "14:7FF0")
}

#[test]
fn rejects_have_their_type_and_cause(rt: HostRuntime) {
    assert!(rt; are_rejects(rt.alloc()));
}

/// The groups of a PDU, from the first to the last.
fn are_groups_up(
    alloc: Global,
    text: &str,
    mode: GroupMode,
    groups: &[GroupUp],
) -> Result<bool, MmFault> {
    match read_up(alloc, &bits(alloc, text)?)? {
        MmUp::Groups { mode: read, items } => Ok(read == mode && items.as_slice() == groups),
        _ => Ok(false),
    }
}

fn are_groups_down(alloc: Global, text: &str, groups: &[GroupDown]) -> Result<bool, MmFault> {
    match read_down(alloc, &bits(alloc, text)?)? {
        MmDown::Acknowledge { items } => Ok(items.as_slice() == groups),
        _ => Ok(false),
    }
}

fn full(mcc: u32, mnc: u32, ssi: u32) -> Result<GroupAddress, Fail> {
    Ok(GroupAddress::Full(Gtsi::new(mcc, mnc, ssi).ok_or("a group")?))
}

#[test]
fn groups_have_their_values(rt: HostRuntime) -> Result<(), Fail> {
    let leave = GroupUp::Leave {
        reason: LeaveReason::UserInitiated,
        address: GroupAddress::Short(Gssi::new(16_777_215)),
    };
    let attach = GroupUp::Attach {
        class: ClassOfUsage::new(7),
        address: full(1023, 16_383, 1)?,
    };
    let text = "113:7780B2163FFFFFDD000001FFFFFF0";
    let mode = GroupMode::DetachAllFirst;
    assert!(rt; are_groups_up(rt.alloc(), text, mode, &[leave, attach])?);
    let attach = GroupDown::Attach {
        lifetime: Lifetime::NextLocationUpdate,
        class: ClassOfUsage::new(7),
        address: full(1, 2, 3)?,
    };
    let detach = GroupDown::Detach {
        reason: DetachReason::Permanent,
        address: GroupAddress::Short(Gssi::new(9)),
    };
    let text = "115:BB70B613E80000180200170000024";
    assert!(rt; are_groups_down(rt.alloc(), text, &[attach, detach])?);
    assert!(rt; detach.is_detach() && !attach.is_detach());
    Ok(())
}

/// Whether an update of this type is accepted with the same type, or never accepted.
fn is_accepted_as_itself(number: u8) -> bool {
    let update = LocationUpdateType::from_number(number.min(7));
    let as_itself = match update.accept_type() {
        Some(accept) => accept.update() == update,
        None => matches!(number, 1 | 5 | 7),
    };
    as_itself && update.number() == number
}

#[test]
fn acceptance_has_the_same_type(rt: HostRuntime) {
    assert!(rt; (0..8u8).all(is_accepted_as_itself));
    assert!(rt; AcceptType::Demand.update() == LocationUpdateType::Demand);
}

fn has_names(number: u8) -> bool {
    let lifetime = match Lifetime::from_number(number) {
        Some(lifetime) => lifetime.number() == number,
        None => false,
    };
    lifetime
        && LeaveReason::from_number(number).number() == number
        && DetachReason::from_number(number).number() == number
}

fn have_their_numbers() -> bool {
    Lifetime::from_number(4).is_none()
        && Lifetime::from_number(1) == Some(Lifetime::NextItsiAttach)
        && LeaveReason::CapacityExceeded.number() == 3
        && DetachReason::from_number(1) == DetachReason::TemporaryFirst
        && RejectCause::new(21).number() == 21
        && ClassOfUsage::new(5).number() == 5
        && GroupMode::from_bit(true).bit()
        && !GroupMode::Amendment.bit()
}

#[test]
fn values_have_their_numbers(rt: HostRuntime) {
    assert!(rt; (0..4u8).all(has_names) && have_their_numbers());
}

fn is_group(address: &GroupAddress, radio: Itsi, mnc: u32) -> bool {
    let group = address.gtsi(radio);
    (group.mcc(), group.mnc(), group.ssi()) == (234, mnc, 1000)
}

#[test]
fn a_short_address_is_of_the_radios_network(rt: HostRuntime) -> Result<(), Fail> {
    let radio = Itsi::new(234, 14, 2001).ok_or("a radio")?;
    assert!(rt; is_group(&GroupAddress::Short(Gssi::new(1000)), radio, 14));
    assert!(rt; is_group(&full(234, 15, 1000)?, radio, 15));
    Ok(())
}

/// How many numbers are pushed until one is refused, and why it is.
fn filled<A: Allocator>(alloc: A) -> (usize, Option<MmFault>) {
    let mut items = GroupItems::new(alloc);
    for number in 0..40u64 {
        if let Err(fault) = items.push(number) {
            return (items.len(), Some(fault));
        }
    }
    (items.len(), None)
}

fn is_filled(alloc: Global, heap: &LocalHeap) -> bool {
    let (count, fault) = filled(heap);
    filled(alloc) == (MOST_GROUPS, Some(MmFault::TooMany))
        && count < MOST_GROUPS
        && fault == Some(MmFault::NoMemory)
}

#[test]
fn no_more_groups_than_32(rt: HostRuntime) -> Result<(), Fail> {
    let heap = LocalHeap::new(rt.alloc(), 64)?;
    assert!(rt; is_filled(rt.alloc(), &heap));
    Ok(())
}

/// A demand to be attached to 32 groups.
fn longest_up(alloc: Global) -> Result<Bits<Global>, MmFault> {
    let mut items = GroupItems::new(alloc);
    for group in 0..32 {
        let address = GroupAddress::Short(Gssi::new(group));
        items.push(GroupUp::Attach {
            class: ClassOfUsage::new(4),
            address,
        })?;
    }
    let mode = GroupMode::Amendment;
    write_up(alloc, &MmUp::Groups { mode, items })
}

/// The acknowledgement of that demand.
fn longest_down(alloc: Global) -> Result<Bits<Global>, MmFault> {
    let mut items = GroupItems::new(alloc);
    for group in 0..32 {
        let address = GroupAddress::Short(Gssi::new(group));
        items.push(GroupDown::Attach {
            lifetime: Lifetime::NextItsiAttach,
            class: ClassOfUsage::new(4),
            address,
        })?;
    }
    write_down(alloc, &MmDown::Acknowledge { items })
}

/// The fault of reading the bits and writing them again in this heap.
fn fault_up(heap: &LocalHeap, bits: &Bits<Global>) -> Option<MmFault> {
    match read_up(heap, bits) {
        Ok(pdu) => write_up(heap, &pdu).err(),
        Err(fault) => Some(fault),
    }
}

fn fault_down(heap: &LocalHeap, bits: &Bits<Global>) -> Option<MmFault> {
    match read_down(heap, bits) {
        Ok(pdu) => write_down(heap, &pdu).err(),
        Err(fault) => Some(fault),
    }
}

/// How often there was no fault, how often out of memory, and how often another fault.
#[derive(Clone, Copy)]
struct Faults {
    none: u32,
    memory: u32,
    other: u32,
}

impl Faults {
    fn note(&mut self, fault: Option<MmFault>) {
        match fault {
            None => self.none = self.none.saturating_add(1),
            Some(MmFault::NoMemory) => self.memory = self.memory.saturating_add(1),
            Some(_) => self.other = self.other.saturating_add(1),
        }
    }
}

/// The faults in heaps of rising size.
fn in_rising_heaps(alloc: Global, up: &Bits<Global>, down: &Bits<Global>) -> Result<Faults, Fail> {
    let mut faults = Faults {
        none: 0,
        memory: 0,
        other: 0,
    };
    for step in 1..64usize {
        let heap = LocalHeap::new(alloc, step * 64)?;
        faults.note(fault_up(&heap, up));
        faults.note(fault_down(&heap, down));
    }
    Ok(faults)
}

fn are_refused(alloc: Global) -> Result<bool, Fail> {
    let (up, down) = (longest_up(alloc)?, longest_down(alloc)?);
    let faults = in_rising_heaps(alloc, &up, &down)?;
    let lens = up.len() == 990 && down.len() == 1054;
    Ok(lens && faults.none > 2 && faults.memory > 2 && faults.other == 0)
}

#[test]
fn each_growth_may_be_refused(rt: HostRuntime) -> Result<(), Fail> {
    assert!(rt; are_refused(rt.alloc())?);
    Ok(())
}
