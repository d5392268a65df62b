//! One group in a PDU, as bits.

ghost use Rattle.std.specs.Prelude.{◌≡◌, ◌≤◌, ◌++◌, length, OnOk, IfErr};
ghost use Rattle.mm_pdus.specs.declared.fault.MmFault.TheVariants.{NoMemory};
ghost use Rattle.mm_pdus.specs.Reading.{with_rest};
ghost use Rattle.mm_pdus.specs.Groups.{address, IsAddress, group_up, IsGroupUp, group_down, IsGroupDown};
ghost use Rattle.mm_pdus.specs.GroupReading.{address_at, group_up_at, group_down_at};

use crate::fields::{bit, field};
use crate::group_fields::GroupText;
use crate::writing::{put, put_bit};
use crate::{
    ClassOfUsage, DetachReason, GroupAddress, GroupDown, GroupUp, Gssi, LeaveReason, Lifetime,
    MmFault,
};
use identity::{BitReader, BitWriter, Gtsi};
use std::alloc::Allocator;

#[tactic(auto, unfolding(crate::specs::GroupReading::address_at))]
fn read_address(reader: &mut BitReader<'_>) -> Result<GroupAddress, MmFault>
    ensures { address_at reader.old ≡ with_rest result reader.new }
{
    let kind = field(reader, 2)?;
    if kind > 1 {
        return Err(MmFault::UnsupportedAddress);
    }
    let gssi = field(reader, 24)? as u32;
    if kind == 0 {
        return Ok(GroupAddress::Short(Gssi::new(gssi)));
    }
    let mcc = field(reader, 10)? as u32;
    let mnc = field(reader, 14)? as u32;
    Ok(GroupAddress::Full(Gtsi::new(mcc, mnc, gssi).unwrap()))
}

#[tactic(auto, using(std::proofs::Common::append_assoc))]
fn put_address<A: Allocator>(writer: &mut BitWriter<A>, group: GroupAddress) -> Result<(), MmFault>
    ensures ok { OnOk result (writer.new ≡ writer.old ++ address group) }
    ensures range { OnOk result (IsAddress group) }
    ensures err { IfErr result (λ e. e ≡ NoMemory) }
{
    match group {
        GroupAddress::Short(gssi) => {
            put(writer, 0, 2)?;
            put(writer, u64::from(gssi.number()), 24)
        }
        GroupAddress::Full(gtsi) => {
            put(writer, 1, 2)?;
            put(writer, u64::from(gtsi.ssi()), 24)?;
            put(writer, u64::from(gtsi.mcc()), 10)?;
            put(writer, u64::from(gtsi.mnc()), 14)
        }
    }
}

/// How many bits the address has.
fn address_len(group: GroupAddress) -> u64
    ensures value { result ≡ length (address group) }
    ensures small { result ≤ 50 }
{
    match group {
        GroupAddress::Short(_) => 26,
        GroupAddress::Full(_) => 50,
    }
}

impl GroupText for GroupUp {
    ghost group_at = { group_up_at };

    ghost text = { group_up };

    ghost is_in_range = { IsGroupUp };

    #[tactic(auto, unfolding(crate::specs::GroupReading::group_up_at))]
    fn read(reader: &mut BitReader<'_>) -> Result<GroupUp, MmFault> {
        if bit(reader)? {
            let reason = LeaveReason::from_number(field(reader, 2)? as u8);
            let address = read_address(reader)?;
            Ok(GroupUp::Leave { reason, address })
        } else {
            let class = field(reader, 3)? as u8;
            let address = read_address(reader)?;
            Ok(GroupUp::Attach {
                class: ClassOfUsage::new(class),
                address,
            })
        }
    }

    fn text_len(self) -> u64 {
        match self {
            GroupUp::Attach { class: _, address } => 4 + address_len(address),
            GroupUp::Leave { reason: _, address } => 3 + address_len(address),
        }
    }

    #[tactic(auto, using(std::proofs::Common::append_assoc))]
    fn put<A: Allocator>(self, writer: &mut BitWriter<A>) -> Result<(), MmFault> {
        match self {
            GroupUp::Attach { class, address } => {
                put_bit(writer, false)?;
                put(writer, u64::from(class.number()), 3)?;
                put_address(writer, address)
            }
            GroupUp::Leave { reason, address } => {
                put_bit(writer, true)?;
                put(writer, u64::from(reason.number()), 2)?;
                put_address(writer, address)
            }
        }
    }
}

impl GroupText for GroupDown {
    ghost group_at = { group_down_at };

    ghost text = { group_down };

    ghost is_in_range = { IsGroupDown };

    #[tactic(auto, unfolding(crate::specs::GroupReading::group_down_at))]
    fn read(reader: &mut BitReader<'_>) -> Result<GroupDown, MmFault> {
        if bit(reader)? {
            let reason = DetachReason::from_number(field(reader, 2)? as u8);
            let address = read_address(reader)?;
            Ok(GroupDown::Detach { reason, address })
        } else {
            let number = field(reader, 2)? as u8;
            let Some(lifetime) = Lifetime::from_number(number) else {
                return Err(MmFault::BadElement);
            };
            let class = field(reader, 3)? as u8;
            let address = read_address(reader)?;
            Ok(GroupDown::Attach {
                lifetime,
                class: ClassOfUsage::new(class),
                address,
            })
        }
    }

    fn text_len(self) -> u64 {
        match self {
            GroupDown::Attach {
                lifetime: _,
                class: _,
                address,
            } => 6 + address_len(address),
            GroupDown::Detach { reason: _, address } => 3 + address_len(address),
        }
    }

    #[tactic(auto, using(std::proofs::Common::append_assoc))]
    fn put<A: Allocator>(self, writer: &mut BitWriter<A>) -> Result<(), MmFault> {
        match self {
            GroupDown::Attach {
                lifetime,
                class,
                address,
            } => {
                put_bit(writer, false)?;
                put(writer, u64::from(lifetime.number()), 2)?;
                put(writer, u64::from(class.number()), 3)?;
                put_address(writer, address)
            }
            GroupDown::Detach { reason, address } => {
                put_bit(writer, true)?;
                put(writer, u64::from(reason.number()), 2)?;
                put_address(writer, address)
            }
        }
    }
}
