//! The damaged sectors of a side: the one at which opening stops, and those after it.
ghost use Rattle.std.specs.Prelude.{◌≡◌, ◌++◌, ◌∷◌, ◌+◌, ◌<◌, ◌≤◌, ◌^◌, [], ℕ, IfErr, IfOk, IfSome, IsErrOf, IsOk, OnOk, false};
ghost use Rattle.sector_disk.specs.Effects.{OnlyReads};
ghost use Rattle.image_rows.specs.Rows.{row_count};
ghost use Rattle.checkpoint.specs.Layout.{disk_size};
ghost use Rattle.recovery.specs.declared.fault.StoreFault.TheVariants.{DiskFault};
ghost use Rattle.recovery.specs.Checking.{IsDamagedAt, is_damaged};
ghost use Rattle.recovery.specs.Damage.{Begins, IsOfDamage, IsOfState, KeepsFirst, damage, damage_from, damage_in, named, record_damage, row_damage};
ghost use Rattle.recovery.specs.Inside.Damaged.{AddsDamage, IsStop, damage_at, row_damage_from, rows_from};
ghost use Rattle.recovery.specs.Inside.Reads.{ReadsOrFails};

use crate::row_faults::{fault_at, fault_of_first, kind_at};
use crate::stated::{bad_record, header_may, read_header, read_record_kind, record_fault};
use crate::{SideState, StoreFault};
use checkpoint::{Layout, Side};
use image_rows::Header;
use sector_disk::Disk;
use std::alloc::Allocator;

/// What a sector is to hold.
#[derive(Clone, Copy, Debug, PartialEq, Eq, Drop)]
pub enum DamageKind {
    /// The header of an image.
    Header,
    /// A row of a rule.
    Rule,
    /// A row of a radio.
    Radio,
    /// A row of a waiting item.
    Item,
    /// A row of a station.
    Station,
    /// A record of so many commands, as its first sector states.
    Record(u16),
    /// The gate in the last sector of a half, which no record follows.
    Gate,
}

/// What is wrong with a sector.
#[derive(Clone, Copy, Debug, PartialEq, Eq, Drop)]
pub enum Reason {
    /// Its bytes are no header, no row, or no record that follows those before it.
    Unreadable,
    /// It is a header of more rows or commands than the disk may have.
    BeyondLimits,
    /// It is a row, but not one that may come there.
    OutOfPlace,
    /// It is a record, and a command of it is refused.
    Refused,
}

/// A damaged sector.
#[derive(Clone, Copy, Debug, PartialEq, Eq, Drop)]
pub struct Damage {
    /// The sector.
    pub sector: u64,
    /// What it is to hold.
    pub kind: DamageKind,
    /// What is wrong with it.
    pub reason: Reason,
}

// Adds the sector, if something is wrong with it.
#[tactic(auto, using(crate::proofs::FirstDamage::keeps_first))]
fn add_named<A: Allocator>(
    found: &mut Vec<Damage, A>,
    sector: u64,
    kind: DamageKind,
    reason: Option<Reason>,
) -> Result<(), StoreFault>
    ensures added { OnOk result (found.new.items ≡ found.old.items ++ named sector kind reason) }
    ensures first { OnOk result (KeepsFirst found.old.items found.new.items) }
    ensures kinds { IfErr result IsOfDamage }
    ensures device { IsErrOf result DiskFault → ⊥ }
{
    let Some(reason) = reason else {
        return Ok(());
    };
    let damage = Damage {
        sector,
        kind,
        reason,
    };
    match found.push(damage) {
        Ok(()) => Ok(()),
        Err(_) => Err(StoreFault::NoMemory),
    }
}

// Adds the row at a place of the slot, if something is wrong with it by itself.
#[tactic(auto, using(sector_disk::proofs::Reading::one_read))]
fn add_row<A: Allocator, D: Disk>(
    disk: &mut D,
    slot: u64,
    header: &Header,
    place: u64,
    found: &mut Vec<Damage, A>,
) -> Result<(), StoreFault>
    requires inside { slot + place < (D.view disk.old).sectors }
    requires fits { slot + place < 2 ^ 64 }
    ensures adds { AddsDamage (D.view disk.old) found.old.items found.new.items (row_damage (D.view disk.old).reads slot header.now place) result }
    ensures reads { ReadsOrFails IsOfDamage (D.view disk.old) (D.view disk.new) result }
{
    let mut bytes = [0; 512];
    disk.read(slot + place, &mut bytes)?;
    let kind = kind_at(header, place);
    add_named(found, slot + place, kind, fault_at(header, place, &bytes))
}

// Adds the rows from a place on with which something is wrong by themselves.
#[tactic(auto, unfolding(crate::specs::Damage::rows_damage))]
fn add_rows<A: Allocator, D: Disk>(
    disk: &mut D,
    slot: u64,
    header: &Header,
    from: u64,
    found: &mut Vec<Damage, A>,
) -> Result<(), StoreFault>
    requires inside { slot + row_count header.now ≤ (D.view disk.old).sectors }
    requires fits { slot + row_count header.now < 2 ^ 64 }
    ensures adds { AddsDamage (D.view disk.old) found.old.items found.new.items (rows_from (D.view disk.old).reads slot header.now from) result }
    ensures reads { ReadsOrFails IsOfDamage (D.view disk.old) (D.view disk.new) result }
{
    let rows = 1
        + u64::from(header.rules)
        + u64::from(header.radios)
        + u64::from(header.mail)
        + u64::from(header.served);
    for k in 0..rows.saturating_sub(from) {
        add_row(disk, slot, header, from + k, found)?;
    }
    Ok(())
}

// A list of one damaged sector.
fn one_damage<A: Allocator>(
    alloc: A,
    sector: u64,
    kind: DamageKind,
    reason: Reason,
) -> Result<Vec<Damage, A>, StoreFault>
    ensures exact { IfOk result (λ found. found.items ≡ damage sector kind reason ∷ []) }
    ensures kinds { IfErr result IsOfDamage }
    ensures device { IsErrOf result DiskFault → ⊥ }
{
    let mut found = Vec::new(alloc);
    add_named(&mut found, sector, kind, Some(reason))?;
    Ok(found)
}

// Adds the record in the sector `bad`, which can't be read, if there is one.
fn add_record<A: Allocator, D: Disk>(
    disk: &mut D,
    layout: &Layout,
    side: Side,
    bad: Option<u64>,
    found: &mut Vec<Damage, A>,
) -> Result<(), StoreFault>
    requires inside { IfSome bad (λ at. at < (D.view disk.old).sectors) }
    ensures adds { AddsDamage (D.view disk.old) found.old.items found.new.items (record_damage layout.now side (D.view disk.old).reads bad) result }
    ensures reads { ReadsOrFails IsOfDamage (D.view disk.old) (D.view disk.new) result }
{
    let Some(at) = bad else {
        return Ok(());
    };
    let kind = read_record_kind(disk, layout, side, at)?;
    add_named(found, at, kind, Some(Reason::Unreadable))
}

// Where opening stops on a side with this header, and the first of its records that can't be read.
#[derive(Clone, Copy, Drop)]
struct Stop {
    header: Header,
    first: u64,
    bad: Option<u64>,
}

// The damaged sectors from the row on at which opening stops.
#[tactic(auto, using(sector_disk::proofs::Reading::one_read))]
fn after_row<A: Allocator, D: Disk>(
    alloc: A,
    disk: &mut D,
    layout: &Layout,
    side: Side,
    stop: &Stop,
) -> Result<Vec<Damage, A>, StoreFault>
    requires stop { IsStop layout.now stop.now (D.view disk.old) }
    requires next { stop.now.first + 1 < 2 ^ 64 }
    ensures exact { IfOk result (λ found. (D.view disk.old).honest → found.items ≡ row_damage_from layout.now side (D.view disk.old).reads stop.now) }
    ensures begins { IfOk result (λ found. Begins stop.now.first found.items) }
    ensures reads { ReadsOrFails IsOfDamage (D.view disk.old) (D.view disk.new) result }
{
    let mut bytes = [0; 512];
    disk.read(stop.first, &mut bytes)?;
    let slot = layout.slot(side);
    let place = stop.first.saturating_sub(slot);
    let kind = kind_at(&stop.header, place);
    let mut found = one_damage(alloc, stop.first, kind, fault_of_first(&bytes))?;
    add_rows(disk, slot, &stop.header, place + 1, &mut found)?;
    add_record(disk, layout, side, stop.bad, &mut found)?;
    Ok(found)
}

// The damaged sectors of a side whose header the limits allow, on which opening stops at `stop`.
fn after_header<A: Allocator, D: Disk>(
    alloc: A,
    disk: &mut D,
    layout: &Layout,
    side: Side,
    stop: &Stop,
) -> Result<Vec<Damage, A>, StoreFault>
    requires stop { IsStop layout.now stop.now (D.view disk.old) }
    ensures exact { IfOk result (λ found. (D.view disk.old).honest → found.items ≡ damage_at layout.now side (D.view disk.old).reads stop.now) }
    ensures begins { IfOk result (λ found. Begins stop.now.first found.items) }
    ensures reads { ReadsOrFails IsOfDamage (D.view disk.old) (D.view disk.new) result }
{
    if stop.first < layout.half(Side::A) {
        return after_row(alloc, disk, layout, side, stop);
    }
    let kind = read_record_kind(disk, layout, side, stop.first)?;
    one_damage(alloc, stop.first, kind, record_fault(stop.bad))
}

// The damaged sectors of a side at whose sector `first` opening stops.
#[tactic(auto, unfolding(crate::specs::Damage::damage_from))]
fn damage_from<A: Allocator + Copy, D: Disk>(
    alloc: A,
    disk: &mut D,
    layout: &Layout,
    side: Side,
    first: u64,
) -> Result<Vec<Damage, A>, StoreFault>
    requires room { disk_size layout.now ≤ (D.view disk.old).sectors }
    requires first { first < (D.view disk.old).sectors }
    ensures exact { IfOk result (λ found. (D.view disk.old).honest → found.items ≡ damage_from A layout.now side (D.view disk.old).reads first) }
    ensures begins { IfOk result (λ found. Begins first found.items) }
    ensures reads { ReadsOrFails IsOfDamage (D.view disk.old) (D.view disk.new) result }
{
    let Some(stated) = read_header(disk, layout, side)? else {
        return one_damage(alloc, first, DamageKind::Header, Reason::Unreadable);
    };
    let header = stated.header;
    if !header_may(&layout.limits(), &header) {
        return one_damage(alloc, first, DamageKind::Header, Reason::BeyondLimits);
    }
    let bad = bad_record(alloc, disk, layout, side, stated)?;
    let stop = Stop { header, first, bad };
    after_header(alloc, disk, layout, side, &stop)
}

/// The damaged sectors of a side in this state, as `check` returns it: none if the side is not damaged. The first one is that
/// of the state. After a row come the later rows that are wrong by themselves, whatever precedes them, and the first record
/// that can't be read. After a header or a record nothing can be judged. The disk is only read.
pub fn damage_of<A: Allocator + Copy, D: Disk>(
    alloc: A,
    disk: &mut D,
    layout: &Layout,
    side: Side,
    state: &SideState,
) -> Result<Vec<Damage, A>, StoreFault>
    requires room { disk_size layout.now ≤ (D.view disk.old).sectors }
    requires on_disk { (at : ℕ) → IsDamagedAt at state.now → at < (D.view disk.old).sectors }

    // The damage is that of the disk as it reads. Even if the disk is not honest, it begins with the sector of the state.
    ensures exact { IfOk result (λ found. (D.view disk.old).honest → found.items ≡ damage_in A layout.now side (D.view disk.old).reads state.now) }
    ensures begins { IfOk result (λ found. IsOfState state.now found.items) }

    // Of a side that is not damaged it answers at once, and the disk is not called.
    ensures at_once { is_damaged state.now ≡ false → IsOk result × (disk.new ≡ disk.old) }

    // It only reads, and fails only for a device that failed, or out of memory.
    ensures kinds { IfErr result IsOfDamage }
    ensures reads { OnlyReads (D.view disk.old) (D.view disk.new) (IsErrOf result DiskFault) }
{
    match state {
        SideState::Damaged { sector, .. } => damage_from(alloc, disk, layout, side, *sector),
        _ => Ok(Vec::new(alloc)),
    }
}
