//! PDUs to a radio.

ghost use Rattle.std.specs.Prelude.{◌≡◌, ◌<◌, ◌≤◌, ◌^◌, ◌+◌, ◌++◌, false, [], length, Ok, OnOk, OnErr, IfOk, IfErr, IsTrue};
ghost use Rattle.mm_pdus.specs.declared.fault.MmFault.TheVariants.{NoMemory};
ghost use Rattle.mm_pdus.specs.declared.downlink.MmDown.{MmDown};
ghost use Rattle.std.specs.List.{AllByRecursion};
ghost use Rattle.mm_pdus.specs.Values.{most_groups};
ghost use Rattle.mm_pdus.specs.Groups.{IsGroupDown};
ghost use Rattle.mm_pdus.specs.Downlink.{SpellsDown, IsDown, canon_down, is_acknowledgement, rejects, accept_text, reject_text, acknowledge_text};
ghost use Rattle.mm_pdus.specs.Reading.{with_rest, Gives, WantsMemory};
ghost use Rattle.mm_pdus.specs.GroupReading.{group_down_at, unkept};
ghost use Rattle.mm_pdus.specs.DownlinkReading.{names_groups, one_element_at, answers_at, accept_at, reject_at};
ghost use Rattle.mm_pdus.specs.DownlinkReading.{acknowledge_at, down_at, reading_down, unkept_down};

use crate::fields::{bit, clear_bit, field, need, piece};
use crate::group_fields::{body_into, put_groups};
use crate::writing::{put, put_bit};
use crate::{AcceptType, GroupDown, GroupItems, LocationUpdateType, MmFault, RejectCause};
use identity::{BitReader, BitWriter, Bits};
use std::alloc::Allocator;

/// The identifier of the element group identity downlink.
const GROUP_IDENTITY_DOWNLINK: u64 = 7;

/// A PDU to a radio.
#[derive(Drop)]
pub enum MmDown<A: Allocator> {
    /// D-LOCATION UPDATE ACCEPT: the radio is registered at its location area.
    Accept {
        update: AcceptType,
    },
    /// D-LOCATION UPDATE REJECT: the update of this type was refused for this cause.
    Reject {
        update: LocationUpdateType,
        cause: RejectCause,
    },
    /// D-ATTACH/DETACH GROUP IDENTITY ACKNOWLEDGEMENT: for each group that the radio named, whether it is attached.
    Acknowledge {
        items: GroupItems<GroupDown, A>,
    },
}

#[tactic(auto, unfolding(crate::specs::DownlinkReading::accept_at))]
fn accept<A: Allocator>(reader: &mut BitReader<'_>) -> Result<(MmDown<A>, bool), MmFault>
    ensures { accept_at reader.old ≡ with_rest result reader.new }
{
    let update = LocationUpdateType::from_number(field(reader, 3)? as u8);
    let Some(update) = update.accept_type() else {
        return Err(MmFault::BadElement);
    };
    clear_bit(reader)?; // O-bit
    Ok((MmDown::Accept { update }, true))
}

#[tactic(auto, unfolding(crate::specs::DownlinkReading::reject_at))]
fn reject<A: Allocator>(reader: &mut BitReader<'_>) -> Result<(MmDown<A>, bool), MmFault>
    ensures { reject_at reader.old ≡ with_rest result reader.new }
{
    let update = LocationUpdateType::from_number(field(reader, 3)? as u8);
    let cause = RejectCause::new(field(reader, 5)? as u8);
    clear_bit(reader)?; // cipher control
    clear_bit(reader)?; // O-bit
    Ok((MmDown::Reject { update, cause }, true))
}

/// Reads the one element with groups, of which there is at least one, and the bit that no element follows.
#[tactic(auto, unfolding(crate::specs::DownlinkReading::one_element_at))]
fn one_element<A: Allocator>(
    alloc: A,
    reader: &mut BitReader<'_>,
) -> Result<GroupItems<GroupDown, A>, MmFault>
    ensures given { Gives (with_rest result reader.new) (one_element_at group_down_at reader.old) }
    ensures memory { WantsMemory result (one_element_at (unkept group_down_at) reader.old) }
{
    need(bit(reader)?)?; // an element
    need(field(reader, 4)? == GROUP_IDENTITY_DOWNLINK)?;
    let len = field(reader, 11)?;
    let body = piece(reader, len as usize)?;
    let mut items = GroupItems::new(alloc);
    body_into(body, &mut items)?;
    need(items.len() > 0)?;
    clear_bit(reader)?; // no second element
    Ok(items)
}

#[tactic(auto, unfolding(crate::specs::DownlinkReading::answers_at))]
fn answers<A: Allocator>(
    alloc: A,
    reader: &mut BitReader<'_>,
) -> Result<GroupItems<GroupDown, A>, MmFault>
    ensures given { Gives (with_rest result reader.new) (answers_at group_down_at reader.old) }
    ensures memory { WantsMemory result (answers_at (unkept group_down_at) reader.old) }
{
    if bit(reader)? {
        one_element(alloc, reader)
    } else {
        Ok(GroupItems::new(alloc))
    }
}

/// Whether at least one group is rejected.
fn is_rejection(items: &[GroupDown]) -> bool
    ensures { result ≡ rejects items.now }
{
    items.iter().any(|item| item.is_detach())
}

#[tactic(auto, unfolding(crate::specs::DownlinkReading::acknowledge_at))]
fn acknowledge<A: Allocator>(
    alloc: A,
    reader: &mut BitReader<'_>,
) -> Result<(MmDown<A>, bool), MmFault>
    ensures given { Gives (with_rest result reader.new) (acknowledge_at group_down_at reader.old) }
    ensures memory { WantsMemory result (acknowledge_at {A = A} (unkept group_down_at) reader.old) }
{
    let rejected = bit(reader)?;
    let _reserved = bit(reader)?;
    let items = answers(alloc, reader)?;
    let agrees = rejected == is_rejection(items.as_slice());
    Ok((MmDown::Acknowledge { items }, agrees))
}

/// The PDU, and whether its bit for rejected groups agrees with its groups.
#[tactic(auto, unfolding(crate::specs::DownlinkReading::down_at))]
fn down<A: Allocator>(alloc: A, reader: &mut BitReader<'_>) -> Result<(MmDown<A>, bool), MmFault>
    ensures given { Gives (with_rest result reader.new) (down_at group_down_at reader.old) }
    ensures memory { WantsMemory result (down_at {A = A} (unkept group_down_at) reader.old) }
    ensures exact { names_groups reader.old ≡ false → down_at group_down_at reader.old ≡ with_rest result reader.new }
{
    match field(reader, 4)? {
        5 => accept(reader),
        7 => reject(reader),
        11 => acknowledge(alloc, reader),
        _ => Err(MmFault::UnknownType),
    }
}

#[tactic(auto, unfolding(crate::specs::DownlinkReading::reading_down, crate::specs::DownlinkReading::unkept_down))]
fn whole_down<A: Allocator, B: Allocator>(alloc: A, bits: &Bits<B>) -> Result<MmDown<A>, MmFault>
    ensures given { Gives result (reading_down bits.now) }
    ensures memory { WantsMemory result (unkept_down {A = A} bits.now) }
    ensures exact { names_groups bits.now ≡ false → result ≡ reading_down bits.now }
{
    let mut reader = BitReader::new(bits);
    let (pdu, agrees) = down(alloc, &mut reader)?;
    if reader.left() > 0 {
        return Err(MmFault::Trailing);
    }
    need(agrees)?;
    Ok(pdu)
}

/// The PDU that all of the bits spell, or the first fault from the left. Its groups are kept under `alloc`; `NoMemory`
/// where that is out of memory.
pub fn read_down<A: Allocator, B: Allocator>(alloc: A, bits: &Bits<B>) -> Result<MmDown<A>, MmFault>
    // If a PDU is read, the bits spell it.
    ensures spelt { IfOk result (λ pdu. SpellsDown pdu bits.now) }
    // If the bits spell a PDU, it is read, unless memory runs out.
    ensures found { (pdu : MmDown A) → SpellsDown pdu bits.now → Gives result (Ok pdu) }
    // Else the result is the first fault.
    ensures fault { Gives result (reading_down bits.now) }
    // Memory runs out only where a group is read, and no fault comes before that group. A PDU of a type without groups needs none.
    ensures memory { WantsMemory result (unkept_down {A = A} bits.now) }
    ensures exact { names_groups bits.now ≡ false → result ≡ reading_down bits.now }
{
    whole_down(alloc, bits)
}

#[tactic(auto, using(std::proofs::Common::append_assoc))]
fn put_accept<A: Allocator>(writer: &mut BitWriter<A>, update: AcceptType) -> Result<(), MmFault>
    ensures ok { OnOk result (writer.new ≡ writer.old ++ accept_text update) }
    ensures err { IfErr result (λ e. e ≡ NoMemory) }
    ensures memory { OnErr result (64 < length writer.old + 8) }
{
    put(writer, 5, 4)?;
    put(writer, u64::from(update.update().number()), 3)?;
    put_bit(writer, false)
}

#[tactic(auto, using(std::proofs::Common::append_assoc))]
fn put_reject<A: Allocator>(
    writer: &mut BitWriter<A>,
    update: LocationUpdateType,
    cause: RejectCause,
) -> Result<(), MmFault>
    ensures ok { OnOk result (writer.new ≡ writer.old ++ reject_text update cause) }
    ensures range { OnOk result (cause < 2 ^ 5) }
    ensures err { IfErr result (λ e. e ≡ NoMemory) }
    ensures memory { OnErr result (64 < length writer.old + 14) }
{
    put(writer, 7, 4)?;
    put(writer, u64::from(update.number()), 3)?;
    put(writer, u64::from(cause.number()), 5)?;
    put_bit(writer, false)?;
    put_bit(writer, false)
}

#[tactic(auto, using(std::proofs::Common::append_assoc))]
fn put_acknowledge<A: Allocator>(
    writer: &mut BitWriter<A>,
    items: &[GroupDown],
) -> Result<(), MmFault>
    requires { length items.now ≤ most_groups }
    ensures ok { OnOk result (writer.new ≡ writer.old ++ acknowledge_text false items.now) }
    ensures range { OnOk result (AllByRecursion IsGroupDown items.now) }
    ensures err { IfErr result (λ e. e ≡ NoMemory) }
{
    put(writer, 11, 4)?;
    put_bit(writer, is_rejection(items))?;
    put_bit(writer, false)?;
    put_groups(writer, GROUP_IDENTITY_DOWNLINK, items)
}

fn put_down<A: Allocator, B: Allocator>(
    writer: &mut BitWriter<A>,
    pdu: &MmDown<B>,
) -> Result<(), MmFault>
    requires fresh { writer.old ≡ [] }
    ensures ok { OnOk result (writer.new ≡ writer.old ++ canon_down pdu.now) }
    ensures range { OnOk result (IsDown pdu.now) }
    ensures err { IfErr result (λ e. e ≡ NoMemory) }
    ensures memory { OnErr result (IsTrue (is_acknowledgement pdu.now)) }
{
    match pdu {
        MmDown::Accept { update } => put_accept(writer, *update),
        MmDown::Reject { update, cause } => put_reject(writer, *update, *cause),
        MmDown::Acknowledge { items } => put_acknowledge(writer, items.as_slice()),
    }
}

/// The canonical text of the PDU. The only error is `NoMemory`, which only an acknowledgement can get.
pub fn write_down<A: Allocator, B: Allocator>(alloc: A, pdu: &MmDown<B>) -> Result<Bits<A>, MmFault>
    ensures ok { IfOk result (λ bits. bits ≡ canon_down pdu.now) }
    // The bits spell the PDU, so `read_down` reads it back.
    ensures spelt { IfOk result (λ bits. SpellsDown pdu.now bits) }
    ensures err { IfErr result (λ e. e ≡ NoMemory) }
    // An accept and a reject have at most 14 bits, which take no memory.
    ensures memory { OnErr result (IsTrue (is_acknowledgement pdu.now)) }
{
    let mut writer = BitWriter::new(alloc);
    put_down(&mut writer, pdu)?;
    Ok(writer.finish())
}
