//! PDUs from a radio.

ghost use Rattle.std.specs.Prelude.{◌≡◌, ◌≤◌, ◌++◌, false, length, Ok, OnOk, IfOk, IfErr};
ghost use Rattle.mm_pdus.specs.declared.fault.MmFault.TheVariants.{NoMemory};
ghost use Rattle.mm_pdus.specs.declared.uplink.MmUp.{MmUp};
ghost use Rattle.std.specs.List.{AllByRecursion};
ghost use Rattle.mm_pdus.specs.Values.{most_groups};
ghost use Rattle.mm_pdus.specs.Groups.{IsGroupUp};
ghost use Rattle.mm_pdus.specs.Uplink.{SpellsUp, IsUp, canon_up, detach_text, demand_text, groups_text};
ghost use Rattle.mm_pdus.specs.Reading.{with_rest, giving, Gives, WantsMemory, elements_at, made_element};
ghost use Rattle.mm_pdus.specs.GroupReading.{group_up_at, unkept};
ghost use Rattle.mm_pdus.specs.UplinkReading.{names_groups, join_groups, all_groups_at, groups_up_at, detach_at, demand_at, up_at, reading_up, unkept_up};

use crate::elements::{element, skip_extension, skip_optional};
use crate::fields::{bit, field};
use crate::group_fields::{body_into, put_groups};
use crate::writing::{put, put_bit};
use crate::{GroupItems, GroupMode, GroupUp, LocationUpdateType, MmFault};
use identity::{BitReader, BitWriter, Bits};
use std::alloc::Allocator;

/// The identifier of the element group identity uplink.
const GROUP_IDENTITY_UPLINK: u64 = 8;

/// A PDU from a radio.
#[derive(Drop)]
pub enum MmUp<A: Allocator> {
    /// U-LOCATION UPDATE DEMAND: the radio asks to be registered at its location area.
    Demand {
        update: LocationUpdateType,
    },
    /// U-ITSI DETACH: the radio leaves the network.
    Detach,
    /// U-ATTACH/DETACH GROUP IDENTITY: the radio joins and leaves groups.
    Groups {
        mode: GroupMode,
        items: GroupItems<GroupUp, A>,
    },
}

#[tactic(auto, unfolding(crate::specs::UplinkReading::demand_at))]
fn demand<A: Allocator>(reader: &mut BitReader<'_>) -> Result<MmUp<A>, MmFault>
    ensures { demand_at reader.old ≡ with_rest result reader.new }
{
    let update = LocationUpdateType::from_number(field(reader, 3)? as u8);
    let _append = bit(reader)?;
    skip_optional(reader, 10)?;
    skip_extension(reader, &[24, 3, 15, 24, 24])?;
    Ok(MmUp::Demand { update })
}

#[tactic(auto, unfolding(crate::specs::UplinkReading::detach_at))]
fn detach<A: Allocator>(reader: &mut BitReader<'_>) -> Result<MmUp<A>, MmFault>
    ensures { detach_at reader.old ≡ with_rest result reader.new }
{
    skip_extension(reader, &[24])?;
    Ok(MmUp::Detach)
}

/// Appends the groups of an element with groups to `items`; other elements are skipped.
fn join_element<A: Allocator>(
    identifier: u64,
    body: BitReader<'_>,
    items: &mut GroupItems<GroupUp, A>,
) -> Result<(), MmFault>
    ensures given { Gives (giving result items.new) (join_groups group_up_at items.old (made_element identifier body.entry)) }
    ensures memory { WantsMemory result (join_groups (unkept group_up_at) items.old (made_element identifier body.entry)) }
{
    if identifier == GROUP_IDENTITY_UPLINK {
        body_into(body, items)?;
    }
    Ok(())
}

fn join_elements<A: Allocator>(
    reader: &mut BitReader<'_>,
    items: &mut GroupItems<GroupUp, A>,
) -> Result<(), MmFault>
    ensures given { Gives (giving result (items.new, reader.new)) (elements_at (join_groups group_up_at) (length reader.old) items.old reader.old) }
    ensures memory { WantsMemory result (elements_at (join_groups (unkept group_up_at)) (length reader.old) items.old reader.old) }
{
    while let Some((identifier, body)) = element(reader)? {
        join_element(identifier, body, items)?;
    }
    Ok(())
}

#[tactic(auto, unfolding(crate::specs::UplinkReading::all_groups_at))]
fn all_groups<A: Allocator>(
    alloc: A,
    reader: &mut BitReader<'_>,
) -> Result<GroupItems<GroupUp, A>, MmFault>
    ensures given { Gives (with_rest result reader.new) (all_groups_at group_up_at reader.old) }
    ensures memory { WantsMemory result (all_groups_at (unkept group_up_at) reader.old) }
{
    let mut items = GroupItems::new(alloc);
    if bit(reader)? {
        join_elements(reader, &mut items)?;
    }
    Ok(items)
}

#[tactic(auto, unfolding(crate::specs::UplinkReading::groups_up_at))]
fn groups<A: Allocator>(alloc: A, reader: &mut BitReader<'_>) -> Result<MmUp<A>, MmFault>
    ensures given { Gives (with_rest result reader.new) (groups_up_at group_up_at reader.old) }
    ensures memory { WantsMemory result (groups_up_at {A = A} (unkept group_up_at) reader.old) }
{
    let _report = bit(reader)?;
    let mode = GroupMode::from_bit(bit(reader)?);
    let items = all_groups(alloc, reader)?;
    Ok(MmUp::Groups { mode, items })
}

#[tactic(auto, unfolding(crate::specs::UplinkReading::up_at))]
fn up<A: Allocator>(alloc: A, reader: &mut BitReader<'_>) -> Result<MmUp<A>, MmFault>
    ensures given { Gives (with_rest result reader.new) (up_at group_up_at reader.old) }
    ensures memory { WantsMemory result (up_at {A = A} (unkept group_up_at) reader.old) }
    ensures exact { names_groups reader.old ≡ false → up_at group_up_at reader.old ≡ with_rest result reader.new }
{
    match field(reader, 4)? {
        1 => detach(reader),
        2 => demand(reader),
        7 => groups(alloc, reader),
        _ => Err(MmFault::UnknownType),
    }
}

#[tactic(auto, unfolding(crate::specs::UplinkReading::reading_up, crate::specs::UplinkReading::unkept_up))]
fn whole_up<A: Allocator, B: Allocator>(alloc: A, bits: &Bits<B>) -> Result<MmUp<A>, MmFault>
    ensures given { Gives result (reading_up bits.now) }
    ensures memory { WantsMemory result (unkept_up {A = A} bits.now) }
    ensures exact { names_groups bits.now ≡ false → result ≡ reading_up bits.now }
{
    let mut reader = BitReader::new(bits);
    let pdu = up(alloc, &mut reader)?;
    if reader.left() > 0 {
        return Err(MmFault::Trailing);
    }
    Ok(pdu)
}

/// The PDU that all of the bits spell, or the first fault from the left. Its groups are kept under `alloc`; `NoMemory`
/// where that is out of memory.
pub fn read_up<A: Allocator, B: Allocator>(alloc: A, bits: &Bits<B>) -> Result<MmUp<A>, MmFault>
    // If a PDU is read, the bits spell it.
    ensures spelt { IfOk result (λ pdu. SpellsUp pdu bits.now) }
    // If the bits spell a PDU, it is read, unless memory runs out.
    ensures found { (pdu : MmUp A) → SpellsUp pdu bits.now → Gives result (Ok pdu) }
    // Else the result is the first fault.
    ensures fault { Gives result (reading_up bits.now) }
    // Memory runs out only where a group is read, and no fault comes before that group. A PDU of a type without groups needs none.
    ensures memory { WantsMemory result (unkept_up {A = A} bits.now) }
    ensures exact { names_groups bits.now ≡ false → result ≡ reading_up bits.now }
{
    whole_up(alloc, bits)
}

#[tactic(auto, using(std::proofs::Common::append_assoc))]
fn put_demand<A: Allocator>(
    writer: &mut BitWriter<A>,
    update: LocationUpdateType,
) -> Result<(), MmFault>
    ensures ok { OnOk result (writer.new ≡ writer.old ++ demand_text update) }
    ensures err { IfErr result (λ e. e ≡ NoMemory) }
{
    put(writer, 2, 4)?;
    put(writer, u64::from(update.number()), 3)?;
    put_bit(writer, false)?;
    put_bit(writer, false)?;
    put_bit(writer, false)
}

#[tactic(auto, using(std::proofs::Common::append_assoc))]
fn put_detach<A: Allocator>(writer: &mut BitWriter<A>) -> Result<(), MmFault>
    ensures ok { OnOk result (writer.new ≡ writer.old ++ detach_text) }
    ensures err { IfErr result (λ e. e ≡ NoMemory) }
{
    put(writer, 1, 4)?;
    put_bit(writer, false)
}

#[tactic(auto, using(std::proofs::Common::append_assoc))]
fn put_all_groups<A: Allocator>(
    writer: &mut BitWriter<A>,
    mode: GroupMode,
    items: &[GroupUp],
) -> Result<(), MmFault>
    requires { length items.now ≤ most_groups }
    ensures ok { OnOk result (writer.new ≡ writer.old ++ groups_text mode items.now) }
    ensures range { OnOk result (AllByRecursion IsGroupUp items.now) }
    ensures err { IfErr result (λ e. e ≡ NoMemory) }
{
    put(writer, 7, 4)?;
    put_bit(writer, false)?;
    put_bit(writer, mode.bit())?;
    put_groups(writer, GROUP_IDENTITY_UPLINK, items)
}

fn put_up<A: Allocator, B: Allocator>(
    writer: &mut BitWriter<A>,
    pdu: &MmUp<B>,
) -> Result<(), MmFault>
    ensures ok { OnOk result (writer.new ≡ writer.old ++ canon_up pdu.now) }
    ensures range { OnOk result (IsUp pdu.now) }
    ensures err { IfErr result (λ e. e ≡ NoMemory) }
{
    match pdu {
        MmUp::Demand { update } => put_demand(writer, *update),
        MmUp::Detach => put_detach(writer),
        MmUp::Groups { mode, items } => put_all_groups(writer, *mode, items.as_slice()),
    }
}

/// The canonical text of the PDU. The only error is `NoMemory`.
pub fn write_up<A: Allocator, B: Allocator>(alloc: A, pdu: &MmUp<B>) -> Result<Bits<A>, MmFault>
    ensures ok { IfOk result (λ bits. bits ≡ canon_up pdu.now) }
    // The bits spell the PDU, so `read_up` reads it back.
    ensures spelt { IfOk result (λ bits. SpellsUp pdu.now bits) }
    ensures err { IfErr result (λ e. e ≡ NoMemory) }
{
    let mut writer = BitWriter::new(alloc);
    put_up(&mut writer, pdu)?;
    Ok(writer.finish())
}
